// An HTML page on a file: its text, in which each call opens its expansion, and the macros of the
// calls.
use crate::cards::{open_call, write_call_text, write_card};
use crate::macro_list::write_macros;
use crate::page_data::{CARDS, PageData, page_data};
use crate::source_writer::{SourceWriter, source_writer};
use mbe_markup::html::{Html, Part};
use mbe_markup::script::SCRIPT;
use mbe_markup::style::{POLICY, STYLE};
use mbe_session::file_expander::call_steps::{CallState, CallStep};
use mbe_session::notes::Level;
use mbe_session::session::Session;
use mbe_session::session_options::SessionOptions;
use std::alloc::{AllocError, Global};

/// Writes the head of a page. `AllocError` if out of memory.
pub fn write_head(alloc: Global, html: &mut Html, name: &str) -> Result<(), AllocError> {
    html.write(
        alloc,
        &[
            Part::Markup("<!DOCTYPE html>\n<html lang=\"en\">\n<head>\n<meta charset=\"utf-8\">\n"),
            Part::Markup("<meta http-equiv=\"Content-Security-Policy\" content=\""),
            Part::Markup(POLICY),
            Part::Markup("\">\n<meta name=\"viewport\" content=\"width=device-width\">\n<title>"),
            Part::Text(name),
            Part::Markup(": macros</title>\n<style>"),
            Part::Markup(STYLE),
            Part::Markup("</style>\n</head>\n<body>\n"),
        ],
    )
}

/// Writes how many calls a page has, by their state. `AllocError` if out of memory.
pub fn write_counts(
    alloc: Global,
    html: &mut Html,
    shown: &PageData<'_>,
) -> Result<(), AllocError> {
    html.write(
        alloc,
        &[
            Part::Markup("<b class=\"ok\">"),
            Part::Number(shown.count(CallState::Expanded)),
            Part::Markup(" expanded</b>, <b class=\"bad\">"),
            Part::Number(shown.count(CallState::Failed)),
            Part::Markup(" failed</b>, "),
            Part::Number(shown.count(CallState::Unknown)),
            Part::Markup(" of macros without a definition here"),
        ],
    )
}

// Writes the name of the file, and how many calls it has.
fn write_title(
    alloc: Global,
    html: &mut Html,
    shown: &PageData<'_>,
    name: &str,
) -> Result<(), AllocError> {
    html.write(
        alloc,
        &[
            Part::Markup("<header>\n<h1>"),
            Part::Text(name),
            Part::Markup("</h1>\n<p>Calls, with those in expansions: "),
        ],
    )?;
    write_counts(alloc, html, shown)?;
    html.write(alloc, &[Part::Markup(".</p>\n")])
}

// Writes a link to a call that fails.
fn write_failed(
    alloc: Global,
    html: &mut Html,
    shown: &PageData<'_>,
    index: usize,
    step: &CallStep,
) -> Result<(), AllocError> {
    let (from, to) = step.notes;
    let notes = shown.session.expander.notes.as_slice();
    for note in notes.iter().take(to).skip(from) {
        if matches!(note.level, Level::Error) {
            html.write(
                alloc,
                &[
                    Part::Markup("<li><a href=\"#c"),
                    Part::Number(index),
                    Part::Markup("\">"),
                    Part::Text(note.message.as_str()),
                    Part::Markup("</a></li>\n"),
                ],
            )?;
        }
    }
    Ok(())
}

// Writes a list of the calls that fail.
fn write_failures(alloc: Global, html: &mut Html, shown: &PageData<'_>) -> Result<(), AllocError> {
    if shown.count(CallState::Failed) == 0 {
        return Ok(());
    }
    html.write(alloc, &[Part::Markup("<ul class=\"failures\">\n")])?;
    for (index, step) in shown.steps.iter().enumerate() {
        if step.state == CallState::Failed && shown.depth(index).is_some() {
            write_failed(alloc, html, shown, index, step)?;
        }
    }
    html.write(alloc, &[Part::Markup("</ul>\n")])
}

// Writes the name of a call without a definition, which ends at that byte.
fn write_unknown(
    alloc: Global,
    html: &mut Html,
    writer: &mut SourceWriter<'_>,
    end: usize,
) -> Result<(), AllocError> {
    html.write(
        alloc,
        &[Part::Markup("<span class=\"unknown\" title=\"no definition here\">")],
    )?;
    writer.up_to(alloc, html, end)?;
    html.write(alloc, &[Part::Markup("</span>")])
}

// Writes a call of the file, and the text before it.
fn write_call(
    alloc: Global,
    html: &mut Html,
    shown: &PageData<'_>,
    writer: &mut SourceWriter<'_>,
    index: usize,
) -> Result<(), AllocError> {
    let Some(step) = shown.steps.get(index) else {
        return Ok(());
    };
    let (start, end) = (step.start.start as usize, step.end.end as usize);
    if !writer.is_before(start) {
        return Ok(());
    }
    writer.up_to(alloc, html, start)?;
    if step.state == CallState::Unknown {
        return write_unknown(alloc, html, writer, start.saturating_add(step.name.len()));
    }
    open_call(alloc, html, index, step.state)?;
    writer.up_to(alloc, html, end)?;
    html.write(alloc, &[Part::Markup("</summary>")])?;
    write_card(alloc, html, shown, index, CARDS)?;
    html.write(alloc, &[Part::Markup("</details>")])
}

// Writes calls of the file, and the text before each.
fn write_calls(
    alloc: Global,
    html: &mut Html,
    shown: &PageData<'_>,
    writer: &mut SourceWriter<'_>,
    calls: &[usize],
) -> Result<(), AllocError> {
    for index in calls {
        write_call(alloc, html, shown, writer, *index)?;
    }
    Ok(())
}

// Writes the text of the file, with its calls.
fn write_source(alloc: Global, html: &mut Html, shown: &PageData<'_>) -> Result<(), AllocError> {
    let mut writer = source_writer(alloc, shown)?;
    html.write(
        alloc,
        &[Part::Markup(
            "<section id=\"source\" aria-label=\"Source\">\n\
                <div class=\"code\" tabindex=\"0\" role=\"group\" aria-label=\"Source\">",
        )],
    )?;
    let calls = shown.children(alloc, None)?;
    write_calls(alloc, html, shown, &mut writer, calls.as_slice())?;
    writer.rest(alloc, html)?;
    html.write(alloc, &[Part::Markup("</div>\n</section>\n")])
}

// Whether the card of a step is in the list of deep calls.
fn is_deep(shown: &PageData<'_>, index: usize, step: &CallStep) -> bool {
    match shown.depth(index) {
        Some(depth) => {
            depth > CARDS && depth % (CARDS + 1) == 0 && step.state != CallState::Unknown
        }
        None => false,
    }
}

// Writes a deep call, with its card.
fn write_deep_call(
    alloc: Global,
    html: &mut Html,
    shown: &PageData<'_>,
    index: usize,
    step: &CallStep,
) -> Result<(), AllocError> {
    html.write(alloc, &[Part::Markup("<div class=\"code\">")])?;
    open_call(alloc, html, index, step.state)?;
    write_call_text(alloc, html, step)?;
    html.write(alloc, &[Part::Markup("</summary>")])?;
    write_card(alloc, html, shown, index, CARDS)?;
    html.write(alloc, &[Part::Markup("</details></div>\n")])
}

// Writes the calls that are in too many cards.
fn write_deep_calls(
    alloc: Global,
    html: &mut Html,
    shown: &PageData<'_>,
) -> Result<(), AllocError> {
    let mut is_first = true;
    for (index, step) in shown.steps.iter().enumerate() {
        if is_deep(shown, index, step) {
            if is_first {
                html.write(
                    alloc,
                    &[Part::Markup("<section id=\"deep\"><h2>Calls in many others</h2>\n")],
                )?;
            }
            is_first = false;
            write_deep_call(alloc, html, shown, index, step)?;
        }
    }
    if is_first {
        return Ok(());
    }
    html.write(alloc, &[Part::Markup("</section>\n")])
}

// Writes the body of the page.
fn write_body(
    alloc: Global,
    html: &mut Html,
    shown: &PageData<'_>,
    name: &str,
) -> Result<(), AllocError> {
    write_title(alloc, html, shown, name)?;
    write_failures(alloc, html, shown)?;
    html.write(
        alloc,
        &[Part::Markup(LEGEND), Part::Markup("</header>\n<main>\n")],
    )?;
    write_source(alloc, html, shown)?;
    write_deep_calls(alloc, html, shown)?;
    write_macros(alloc, html, shown)?;
    html.write(
        alloc,
        &[
            Part::Markup("</main>\n<p id=\"status\" role=\"status\"></p>\n<script>"),
            Part::Markup(SCRIPT),
            Part::Markup("</script>\n</body>\n</html>\n"),
        ],
    )
}

const LEGEND: &str = "<p class=\"legend\">Tokens of an expansion: \
<i class=\"t\">template</i>, <i class=\"v0\">argument</i> in the colour of its variable, \
<i class=\"s0\">dotted</i> if another step made them, <i class=\"x\">added</i> by the expander. \
A number at a token is the round that begins there.</p>
<p id=\"tools\" hidden><button type=\"button\" data-do=\"open\">Expand all</button> \
<button type=\"button\" data-do=\"close\">Close all</button> \
<small>Arrow keys go from token to token.</small></p>
";

/// Returns the page of a file of a session, by its number. `Session::call_steps` returned `steps`,
/// and the session was opened with `options`. `None` if there is no such file. `AllocError` if out
/// of memory.
pub fn page_text(
    alloc: Global,
    options: &SessionOptions<'_>,
    session: &Session<'_>,
    steps: &[CallStep],
    file_number: usize,
) -> Result<Option<String>, AllocError> {
    let Some(shown) = page_data(alloc, options, session, steps, file_number)? else {
        return Ok(None);
    };
    Ok(Some(shown_text(alloc, &shown)?))
}

/// Returns the page that shows this. `AllocError` if out of memory.
pub fn shown_text(alloc: Global, shown: &PageData<'_>) -> Result<String, AllocError> {
    let mut html = Html::new(alloc);
    write_head(alloc, &mut html, shown.file.name)?;
    write_body(alloc, &mut html, shown, shown.file.name)?;
    Ok(html.into_text())
}
