// The pages of the files of a run, and the page that lists them.
use crate::page::{shown_text, write_counts, write_head};
use crate::page_data::page_data;
use mbe_markup::html::{Html, Part};
use mbe_session::file_expander::call_steps::CallStep;
use mbe_session::session::Session;
use mbe_session::session_options::SessionOptions;
use std::alloc::{AllocError, Global};

// Returns what stands for a character in a link. A link would end at such a character, or lose it.
fn encoded(char: char) -> Option<&'static str> {
    match char {
        '%' => Some("%25"),
        '#' => Some("%23"),
        '?' => Some("%3F"),
        '\\' => Some("%5C"),
        '\t' => Some("%09"),
        '\n' => Some("%0A"),
        '\r' => Some("%0D"),
        _ => None,
    }
}

// Adds a path to a link.
fn push_path(link: &mut String, path: &str) -> Result<(), AllocError> {
    for char in path.chars() {
        match encoded(char) {
            Some(code) => link.push_str(code)?,
            None => link.push(char)?,
        }
    }
    Ok(())
}

// Returns a link to a file of the folder. It begins with `./`, so that no name is a scheme.
fn link_to(alloc: Global, path: &str) -> Result<String, AllocError> {
    let mut link = String::from_str(alloc, "./")?;
    push_path(&mut link, path)?;
    Ok(link)
}

// Opens the row of a page, and its link.
fn open_link(alloc: Global, rows: &mut Html, link: &str) -> Result<(), AllocError> {
    rows.write(
        alloc,
        &[
            Part::Markup("<li><a href=\""),
            Part::Text(link),
            Part::Markup("\">"),
        ],
    )
}

// Writes what opens the row of a page: a link to it.
fn write_link(alloc: Global, rows: &mut Html, target: &str, name: &str) -> Result<(), AllocError> {
    let link = link_to(alloc, target)?;
    open_link(alloc, rows, link.as_str())?;
    rows.write(alloc, &[Part::Text(name), Part::Markup("</a>: ")])
}

// Returns the page of a file, and adds its row to the list. The page is empty if there is no file
// of that number.
fn page_of(
    alloc: Global,
    options: &SessionOptions<'_>,
    session: &Session<'_>,
    steps: &[CallStep],
    rows: &mut Html,
    number: usize,
    target: &str,
) -> Result<String, AllocError> {
    let Some(shown) = page_data(alloc, options, session, steps, number)? else {
        return Ok(String::new(alloc));
    };
    write_link(alloc, rows, target, shown.file.name)?;
    write_counts(alloc, rows, &shown)?;
    rows.write(alloc, &[Part::Markup("</li>\n")])?;
    shown_text(alloc, &shown)
}

// Adds the page of each file, and its row in the list. A file without a target has an empty text.
fn add_pages(
    alloc: Global,
    options: &SessionOptions<'_>,
    session: &Session<'_>,
    steps: &[CallStep],
    targets: &[Option<String>],
    rows: &mut Html,
    pages: &mut Vec<String>,
) -> Result<(), AllocError> {
    for number in 0..session.files.len() {
        let page = match targets.get(number) {
            Some(Some(target)) => {
                page_of(
                    alloc,
                    options,
                    session,
                    steps,
                    rows,
                    number,
                    target.as_str(),
                )?
            }
            Some(None) | None => String::new(alloc),
        };
        pages.push(page)?;
    }
    Ok(())
}

// Returns the page that lists the others.
fn index_text(alloc: Global, rows: &Html) -> Result<String, AllocError> {
    let mut html = Html::new(alloc);
    write_head(alloc, &mut html, "Files")?;
    html.write(
        alloc,
        &[Part::Markup("<header>\n<h1>Files</h1>\n</header>\n<main>\n<ul>\n")],
    )?;
    html.append(rows)?;
    html.write(alloc, &[Part::Markup("</ul>\n</main>\n</body>\n</html>\n")])?;
    Ok(html.into_text())
}

/// Returns the page of each file of a session, and then the page that lists them. `targets` has
/// where the page of each file is written; a file without a target has an empty text.
/// `Session::call_steps` returned `steps`, and the session was opened with `options`. `AllocError`
/// if out of memory.
pub fn page_texts(
    alloc: Global,
    options: &SessionOptions<'_>,
    session: &Session<'_>,
    steps: &[CallStep],
    targets: &[Option<String>],
) -> Result<Vec<String>, AllocError> {
    let mut rows = Html::new(alloc);
    let mut pages = Vec::new(alloc);
    add_pages(
        alloc, options, session, steps, targets, &mut rows, &mut pages,
    )?;
    pages.push(index_text(alloc, &rows)?)?;
    Ok(pages)
}
