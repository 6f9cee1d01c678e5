// Sessions: files in memory, a changed text, the calls at one position, and diagnostics as data.
use mbe_rewriter::splice::Replacement;
use mbe_session::file_set::FileSet;
use mbe_session::locations::CallPosition;
use mbe_session::session::Session;
use mbe_session::session_options::SessionOptions;
use std::alloc::{AllocError, Global};
use test_rows::{FailedRow, Fields, RowTest, all, number, rows};

/// Expands the file `main.rs` with this text, which no disk has. Returns the expanded text, and
/// what is wrong with its macros and calls.
pub fn expansion_of(alloc: Global, text: &str) -> Result<(String, String), AllocError> {
    let mut options = SessionOptions::new(alloc);
    options.names.push("main.rs")?;
    let mut files = FileSet::new(alloc);
    files.add_root(alloc, &options, "main.rs", String::from_str(alloc, text)?)?;
    let mut session = Session::open(alloc, &options, &files.roots, files.texts.as_slice())?;
    let parts = session.expand_crates(alloc, &options)?;
    let expanded = session.expand_file(alloc, parts.as_slice(), 0)?;
    let notes = session.notes_text(alloc, None)?;
    Ok((expanded.unwrap_or(String::new(alloc)), notes))
}

// Whether the text has this expansion, and whether nothing is wrong.
fn is_expansion(alloc: Global, text: &str, want: &str, notes: &str) -> Result<bool, AllocError> {
    let (expanded, found) = expansion_of(alloc, text)?;
    Ok(expanded.as_str() == want && found.as_str() == notes)
}

// Returns the options of a session with the root `main.rs`.
fn options(alloc: Global) -> Result<SessionOptions<'static>, AllocError> {
    let mut options = SessionOptions::new(alloc);
    options.names.push("main.rs")?;
    Ok(options)
}

// Returns a set with the text of `main.rs`, and with the text of its module `a`, if that isn't
// empty.
fn file_set(
    alloc: Global,
    options: &SessionOptions<'_>,
    main: &str,
    module: &str,
) -> Result<FileSet, AllocError> {
    let mut files = FileSet::new(alloc);
    files.add_root(alloc, options, "main.rs", String::from_str(alloc, main)?)?;
    if !module.is_empty() {
        let text = String::from_str(alloc, module)?;
        files.add_module(alloc, 0, "a.rs", Some("a"), text)?;
    }
    Ok(files)
}

// Whether there is that text; `""` stands for no text.
fn is_text(found: Option<String>, want: &str) -> bool {
    match found {
        Some(text) => text.as_str() == want,
        None => want.is_empty(),
    }
}

// Whether the two files of the session have these expansions.
fn are_expanded(
    alloc: Global,
    session: &Session<'_>,
    parts: &[Replacement],
    want: &str,
    module: &str,
) -> Result<bool, AllocError> {
    Ok(
        is_text(session.expand_file(alloc, parts, 0)?, want)
            && is_text(session.expand_file(alloc, parts, 1)?, module),
    )
}

// Whether a set expands to these two texts.
fn set_expands(
    alloc: Global,
    options: &SessionOptions<'_>,
    files: &FileSet,
    want: &str,
    module: &str,
) -> Result<bool, AllocError> {
    let mut session = Session::open(alloc, options, &files.roots, files.texts.as_slice())?;
    let parts = session.expand_crates(alloc, options)?;
    are_expanded(alloc, &session, parts.as_slice(), want, module)
}

// Whether two files in memory expand to these texts.
fn is_expanded(alloc: Global, fields: Fields) -> Result<bool, AllocError> {
    let [main, module, want, module_want, _, _] = fields;
    let options = options(alloc)?;
    let files = file_set(alloc, &options, main, module)?;
    set_expands(alloc, &options, &files, want, module_want)
}

// Whether the expansion is that of a text which replaces another.
fn is_replaced(alloc: Global, fields: Fields) -> Result<bool, AllocError> {
    let [main, changed, want, _, _, _] = fields;
    let options = options(alloc)?;
    let mut files = file_set(alloc, &options, main, "")?;
    let old = files.replace_text(0, String::from_str(alloc, changed)?);
    Ok(is_text(old, main) && set_expands(alloc, &options, &files, want, "")?)
}

// Whether the calls at a position have these expansions.
fn is_at(alloc: Global, fields: Fields) -> Result<bool, AllocError> {
    let [main, line, column, want, _, _] = fields;
    let position = CallPosition {
        line: number(line),
        column: Some(number(column)),
    };
    let options = options(alloc)?;
    let files = file_set(alloc, &options, main, "")?;
    let mut session = Session::open(alloc, &options, &files.roots, files.texts.as_slice())?;
    let parts = session.expand_crates(alloc, &options)?;
    let found = session.expand_calls_at(alloc, parts.as_slice(), 0, position)?;
    Ok(found.is_some_and(|text| text.as_str() == want))
}

// Whether the first diagnostic of a session has this line, column and message.
fn is_first(
    alloc: Global,
    session: &Session<'_>,
    line: &str,
    column: &str,
    message: &str,
) -> Result<bool, AllocError> {
    let diagnostics = session.diagnostics(alloc)?;
    let Some(first) = diagnostics.first() else {
        return Ok(false);
    };
    let Some(place) = &first.place else {
        return Ok(false);
    };
    let (start, is_said) = (place.start, first.message == message);
    Ok(is_said && start.line == number(line) && start.column == number(column))
}

// Whether the first diagnostic has this line, column and message.
fn is_reported(alloc: Global, fields: Fields) -> Result<bool, AllocError> {
    let [main, line, column, message, _, _] = fields;
    let options = options(alloc)?;
    let files = file_set(alloc, &options, main, "")?;
    let mut session = Session::open(alloc, &options, &files.roots, files.texts.as_slice())?;
    let _parts = session.expand_crates(alloc, &options)?;
    is_first(alloc, &session, line, column, message)
}

// Each row: a text, its expansion, and the notes.
const TEXTS: &str = rows![
    (
        "macro_rules! m { () => { 1 } }\nconst A: u8 = m!();\n",
        "macro_rules! m { () => { 1 } }\nconst A: u8 = 1;\n",
        "",
    ),
    ("const A: u8 = 1;\n", "const A: u8 = 1;\n", ""),
];

// Each row: the text of `main.rs`, that of its module, and the two expanded texts.
const EXPANDED: &str = rows![
    (
        "macro_rules! m { () => { 1 } }\nconst A: u8 = m!();\n",
        "",
        "macro_rules! m { () => { 1 } }\nconst A: u8 = 1;\n",
        "",
    ),
    (
        "#[macro_use] mod a;\nconst A: u8 = m!();\n",
        "macro_rules! m { () => { 2 } }\n",
        "#[macro_use] mod a;\nconst A: u8 = 2;\n",
        "macro_rules! m { () => { 2 } }\n",
    ),
    (
        "macro_rules! m { () => { 3 } }\nmod a;\n",
        "const A: u8 = m!();\n",
        "macro_rules! m { () => { 3 } }\nmod a;\n",
        "const A: u8 = 3;\n",
    ),
];

// Each row: a text, the text that replaces it, and its expansion.
const REPLACED: &str = rows![(
    "macro_rules! m { () => { 1 } }\nconst A: u8 = m!();\n",
    "macro_rules! m { () => { 2 } }\nconst A: u8 = m!();\n",
    "macro_rules! m { () => { 2 } }\nconst A: u8 = 2;\n",
),];

// Each row: a text, a line and a column, and the expansions of the calls there.
const AT: &str = rows![
    (
        "macro_rules! m { ($e:expr) => { $e } }\nconst A: u8 = m!(4);\n",
        "2",
        "15",
        "4\n"
    ),
    (
        "macro_rules! m { ($e:expr) => { $e } }\nconst A: u8 = m!(4);\n",
        "2",
        "16",
        ""
    ),
];

// Each row: a text, and the line, the column and the message of its first diagnostic. The message
// is rustc's, as in tests/expandm/mismatches.py.
const REPORTED: &str = rows![(
    "macro_rules! m { () => { 1 } }\nconst A: u8 = m!(4);\n",
    "2",
    "18",
    "no rules expected `4`",
),];

#[derive(Clone, Copy)]
enum Kind {
    Text,
    Expanded,
    Replaced,
    At,
    Reported,
}

impl RowTest for Kind {
    fn passes(&self, alloc: Global, fields: Fields) -> Result<bool, AllocError> {
        match self {
            Kind::Text => is_expansion(alloc, fields[0], fields[1], fields[2]),
            Kind::Expanded => is_expanded(alloc, fields),
            Kind::Replaced => is_replaced(alloc, fields),
            Kind::At => is_at(alloc, fields),
            Kind::Reported => is_reported(alloc, fields),
        }
    }
}

static TABLES: [(Kind, &str, usize); 5] = [
    (Kind::Text, TEXTS, 2),
    (Kind::Expanded, EXPANDED, 3),
    (Kind::Replaced, REPLACED, 1),
    (Kind::At, AT, 2),
    (Kind::Reported, REPORTED, 1),
];

#[test]
fn sessions_expand_texts(rt: HostRuntime) -> Result<(), FailedRow> {
    all(rt.alloc(), &TABLES)
}
