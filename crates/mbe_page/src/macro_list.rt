// Writes the macros that the calls of a page resolve to: the pattern of each rule as a railroad
// diagram.
use crate::page_data::{PageData, PageMacro};
use mbe_markup::html::{Html, Part};
use mbe_markup::railroad::{Drawing, write_svg_open};
use std::alloc::{AllocError, Global};

// Writes where a macro is defined.
fn write_place(
    alloc: Global,
    html: &mut Html,
    shown: &PageData<'_>,
    one: &PageMacro<'_>,
) -> Result<(), AllocError> {
    let Some(span) = one.name_span else {
        return Ok(());
    };
    let Some(file) = shown.session.files.get(span.file as usize) else {
        return Ok(());
    };
    let line = file.lines.location_of(span.start as usize).line;
    if span.file as usize == shown.file_number {
        return html.write(
            alloc,
            &[
                Part::Markup(" <a href=\"#L"),
                Part::Number(line),
                Part::Markup("\">line "),
                Part::Number(line),
                Part::Markup("</a>"),
            ],
        );
    }
    html.write(
        alloc,
        &[
            Part::Markup(" <small>"),
            Part::Text(file.name),
            Part::Markup(", line "),
            Part::Number(line),
            Part::Markup("</small>"),
        ],
    )
}

// Writes the pattern of a rule. Cards refer to it by its name.
fn write_rule(
    alloc: Global,
    html: &mut Html,
    number: usize,
    index: usize,
    drawing: &Drawing,
) -> Result<(), AllocError> {
    html.write(alloc, &[Part::Markup("<li><div class=\"track\">")])?;
    write_svg_open(alloc, html, drawing, false)?;
    html.write(
        alloc,
        &[
            Part::Markup("<g class=\"rail\" id=\"m"),
            Part::Number(number),
            Part::Markup("r"),
            Part::Number(index),
            Part::Markup("\">"),
        ],
    )?;
    drawing.write_to(html)?;
    html.write(alloc, &[Part::Markup("</g></svg></div></li>")])
}

// Writes a macro.
fn write_macro(
    alloc: Global,
    html: &mut Html,
    shown: &PageData<'_>,
    one: &PageMacro<'_>,
) -> Result<(), AllocError> {
    html.write(
        alloc,
        &[
            Part::Markup("<section class=\"macro\" id=\"m"),
            Part::Number(one.number),
            Part::Markup("\"><h3><code>"),
            Part::Text(one.name),
            Part::Markup("!</code>"),
        ],
    )?;
    write_place(alloc, html, shown, one)?;
    html.write(alloc, &[Part::Markup("</h3>")])?;
    if one.drawings.is_empty() {
        return html.write(alloc, &[Part::Markup("<p>No rule.</p></section>")]);
    }
    html.write(alloc, &[Part::Markup("<ol>")])?;
    for (index, drawing) in one.drawings.iter().enumerate() {
        write_rule(alloc, html, one.number, index, drawing)?;
    }
    html.write(alloc, &[Part::Markup("</ol></section>")])
}

/// Writes the macros of a page. `AllocError` if out of memory.
pub fn write_macros(
    alloc: Global,
    html: &mut Html,
    shown: &PageData<'_>,
) -> Result<(), AllocError> {
    if shown.macros.is_empty() {
        return Ok(());
    }
    html.write(
        alloc,
        &[Part::Markup("<section id=\"macros\" aria-label=\"Macros\"><h2>Macros</h2>\n")],
    )?;
    for one in &shown.macros {
        write_macro(alloc, html, shown, one)?;
    }
    html.write(alloc, &[Part::Markup("</section>\n")])
}
