// Asks a session about the crate of a document, and returns what it finds as plain data.
use crate::sites::NumberedFile;
use crate::workspace::{
    Texts, absolute, manifest_of, options_alone, options_beside, options_of, own_file, plan_of,
    read_files,
};
use mbe_answers::expanded_calls::ExpandedCalls;
use mbe_answers::findings::{Extent, Finding, Findings, FoundFile, Part, Severity};
use mbe_calls::call_reader::{CallStart, expanded_calls};
use mbe_diagnostics::diagnostic::Level;
use mbe_diagnostics::lints::lint::Lint;
use mbe_files::package::PackagePlan;
use mbe_rewriter::splice::Replacement;
use mbe_session::file_set::FileSet;
use mbe_session::linted_files::push_all_lints;
use mbe_session::locations::CallPosition;
use mbe_session::notes::{self, Note};
use mbe_session::session::Session;
use mbe_session::session_options::SessionOptions;
use mbe_session::source_files::SourceFile;
use mbe_tt::span::Span;
use std::alloc::{AllocError, Global};
use std::rt::{Env, Files};

/// What a session found in the crate of a document.
#[derive(Drop)]
pub struct Analysis {
    pub found: Findings,
    /// The package's manifest, if the document is a file of the package's planned crate. Then a
    /// session finds the same for each file of that crate.
    pub manifest: Option<String>,
}

/// What is asked of a session.
#[derive(Clone, Copy, Drop)]
pub struct Query {
    /// The limit of nested expansions; `None` is the limit that a file sets, or else 128.
    pub depth: Option<u32>,
    /// The position in the document whose call is explained. `None` explains failed calls.
    pub explained: Option<CallPosition>,
    pub subject: Subject,
}

/// What a session is asked about.
#[derive(Clone, Copy, Drop)]
pub enum Subject {
    /// Everything but what rules do with calls.
    Crate,
    /// What rules do with the calls of the crate, and nothing else.
    Rules,
    /// The origins of the tokens of an expansion, and nothing else. The document's call begins at
    /// this byte.
    Origins(usize),
}

/// The query for what a document is and expands to.
pub const WHOLE: Query = Query {
    depth: None,
    explained: None,
    subject: Subject::Crate,
};

/// The query for the expansion of each call by one step.
pub const ONE_STEP: Query = Query {
    depth: Some(1),
    ..WHOLE
};

/// The query for what rules do with the calls of a crate.
pub const RULES: Query = Query {
    subject: Subject::Rules,
    ..WHOLE
};

fn severity_of_note(level: notes::Level) -> Severity {
    match level {
        notes::Level::Error => Severity::Error,
        notes::Level::Note => Severity::Note,
        notes::Level::Help => Severity::Help,
    }
}

fn severity_of_lint(level: Level) -> Severity {
    match level {
        Level::Error => Severity::Error,
        Level::Warning => Severity::Warning,
        Level::Note => Severity::Note,
        Level::Help => Severity::Help,
    }
}

// Returns where a span is, and in which file.
fn place_of(files: &[SourceFile<'_>], span: Span) -> (Option<usize>, Extent) {
    let number = span.file as usize;
    match files.get(number) {
        Some(file) => {
            let start = file.lines.place(span.start as usize);
            let end = file.lines.place(span.end as usize).max(start);
            (Some(number), Extent { start, end })
        }
        None => (None, Extent { start: 0, end: 0 }),
    }
}

fn found_at(
    alloc: Global,
    files: &[SourceFile<'_>],
    severity: Severity,
    span: Span,
    message: &str,
    is_child: bool,
) -> Result<Finding, AllocError> {
    let (file, extent) = place_of(files, span);
    Ok(Finding {
        severity,
        file,
        extent,
        message: String::from_str(alloc, message)?,
        is_child,
    })
}

fn add_notes(
    alloc: Global,
    files: &[SourceFile<'_>],
    notes: &[Note],
    found: &mut Vec<Finding>,
) -> Result<(), AllocError> {
    for note in notes {
        let severity = severity_of_note(note.level);
        let message = note.message.as_str();
        let finding = found_at(alloc, files, severity, note.span, message, note.is_child)?;
        found.push(finding)?;
    }
    Ok(())
}

fn add_lints(
    alloc: Global,
    files: &[SourceFile<'_>],
    lints: &[Lint],
    found: &mut Vec<Finding>,
) -> Result<(), AllocError> {
    for lint in lints {
        let severity = severity_of_lint(lint.level);
        let message = lint.message.as_str();
        let finding = found_at(alloc, files, severity, lint.span, message, lint.is_child())?;
        found.push(finding)?;
    }
    Ok(())
}

// Adds what the replacements of file `number` are.
fn add_parts(
    alloc: Global,
    number: usize,
    file: &SourceFile<'_>,
    replacements: &[Replacement],
    parts: &mut Vec<Part>,
) -> Result<(), AllocError> {
    for one in file.lines.original_parts(alloc, replacements)? {
        if one.file as usize == number {
            let (start, end) = (one.start, one.end);
            parts.push(Part {
                file: number,
                extent: Extent { start, end },
                text: one.text,
            })?;
        }
    }
    Ok(())
}

// Returns the messages of lints on the definitions of the session's own crates.
fn lints_of(
    alloc: Global,
    options: &SessionOptions<'_>,
    set: &FileSet,
    files: &[SourceFile<'_>],
) -> Result<Vec<Finding>, AllocError> {
    let mut lints = Vec::new(alloc);
    let root_count = options.names.len();
    for (number, one) in files.chunks(1).enumerate() {
        if set.is_local(number, root_count) {
            push_all_lints(alloc, options.edition, &mut lints, one)?;
        }
    }
    let mut found = Vec::new(alloc);
    add_lints(alloc, files, lints.as_slice(), &mut found)?;
    Ok(found)
}

// Adds the definitions of all files, and the calls, tokens and expansions of the session's own
// crates.
fn add_sites(
    alloc: Global,
    options: &SessionOptions<'_>,
    set: &FileSet,
    files: &[SourceFile<'_>],
    replacements: &[Replacement],
    found: &mut Findings,
) -> Result<(), AllocError> {
    let root_count = options.names.len();
    for (number, file) in files.iter().enumerate() {
        let numbered = NumberedFile { file, number };
        numbered.add_definitions(alloc, &mut found.definitions)?;
        if set.is_local(number, root_count) {
            numbered.add_calls(alloc, &mut found.calls)?;
            numbered.add_tokens(alloc, options.edition, &mut found.tokens)?;
            add_parts(alloc, number, file, replacements, &mut found.parts)?;
        }
    }
    Ok(())
}

// Adds the lints and the notes of a session, and its sites.
fn add_all(
    alloc: Global,
    options: &SessionOptions<'_>,
    set: &FileSet,
    session: &Session<'_>,
    replacements: &[Replacement],
    found: &mut Findings,
) -> Result<(), AllocError> {
    let files = session.files.as_slice();
    found.lints = lints_of(alloc, options, set, files)?;
    add_notes(alloc, files, session.notes.as_slice(), &mut found.notes)?;
    let notes = session.expander.notes.as_slice();
    add_notes(alloc, files, notes, &mut found.notes)?;
    add_sites(alloc, options, set, files, replacements, found)
}

// Returns findings without anything.
fn no_findings(alloc: Global, number: usize) -> Findings {
    Findings {
        files: Vec::new(alloc),
        number,
        notes: Vec::new(alloc),
        lints: Vec::new(alloc),
        parts: Vec::new(alloc),
        definitions: Vec::new(alloc),
        calls: Vec::new(alloc),
        tokens: Vec::new(alloc),
        expanded: None,
    }
}

// Opens a session on the files, and returns what rules do with its calls. With a `start`, it is
// where the tokens of the expansion of one call are from.
fn session_calls(
    alloc: Global,
    options: &SessionOptions<'_>,
    set: &FileSet,
    start: Option<CallStart>,
) -> Result<ExpandedCalls, AllocError> {
    let mut session = Session::open(alloc, options, &set.roots, set.texts.as_slice())?;
    expanded_calls(alloc, options, &mut session, start)
}

// Returns findings with what rules do with calls, and nothing else.
fn call_findings(
    alloc: Global,
    options: &SessionOptions<'_>,
    set: &FileSet,
    number: usize,
    start: Option<CallStart>,
) -> Result<Findings, AllocError> {
    let expanded = session_calls(alloc, options, set, start)?;
    let mut found = no_findings(alloc, number);
    found.expanded = Some(expanded);
    Ok(found)
}

// Returns what a session on the files finds of a subject. The files are not among it.
fn findings_of(
    alloc: Global,
    options: &SessionOptions<'_>,
    set: &FileSet,
    number: usize,
    subject: Subject,
) -> Result<Findings, AllocError> {
    match subject {
        Subject::Crate => session_findings(alloc, options, set, number),
        Subject::Rules => call_findings(alloc, options, set, number, None),
        Subject::Origins(byte) => {
            let start = CallStart { file: number, byte };
            call_findings(alloc, options, set, number, Some(start))
        }
    }
}

// Opens a session on the files, expands its calls, and returns what it finds. The files are not
// among it.
fn session_findings(
    alloc: Global,
    options: &SessionOptions<'_>,
    set: &FileSet,
    number: usize,
) -> Result<Findings, AllocError> {
    let mut session = Session::open(alloc, options, &set.roots, set.texts.as_slice())?;
    let replacements = session.expand_crates(alloc, options)?;
    let mut found = no_findings(alloc, number);
    add_all(
        alloc,
        options,
        set,
        &session,
        replacements.as_slice(),
        &mut found,
    )?;
    Ok(found)
}

// Moves the texts of the files to what is found. The first `root_count` files are the roots of the
// session's own crates.
fn add_files(
    alloc: Global,
    texts: Texts<'_>,
    root_count: usize,
    set: FileSet,
    found: &mut Findings,
) -> Result<(), AllocError> {
    let mut owns = Vec::new(alloc);
    for number in 0..set.texts.len() {
        owns.push(set.is_local(number, root_count))?;
    }
    let mut number = 0usize;
    for named in set.texts {
        found.files.push(FoundFile {
            path: absolute(alloc, texts, named.name.as_str())?,
            text: named.text,
            is_own: owns.get(number).copied().unwrap_or(false),
        })?;
        number = number.saturating_add(1);
    }
    Ok(())
}

// Asks a session on these files.
fn asked(
    alloc: Global,
    texts: Texts<'_>,
    mut options: SessionOptions<'_>,
    set: FileSet,
    number: usize,
    query: Query,
) -> Result<Findings, AllocError> {
    options.depth = query.depth;
    options.explain = Some(query.explained);
    options.is_traced = query.explained.is_some();
    options.is_origin_noted = query.explained.is_some();
    let mut found = findings_of(alloc, &options, &set, number, query.subject)?;
    add_files(alloc, texts, options.names.len(), set, &mut found)?;
    Ok(found)
}

// Asks a session on these files. A session explains calls of its last root alone. So the document's
// file becomes one more root if it isn't a root.
fn asked_of_file<R: Files + AllocGlobal>(
    rt: &R,
    texts: Texts<'_>,
    options: SessionOptions<'_>,
    set: FileSet,
    number: usize,
    query: Query,
) -> Result<Findings, AllocError> {
    let is_root = number.saturating_add(1) == options.names.len();
    if is_root || query.explained.is_none() {
        return asked(rt.alloc(), texts, options, set, number, query);
    }
    match set.texts.get(number) {
        Some(named) => asked_of_root(rt, texts, options, named.name.as_str(), query),
        None => asked(rt.alloc(), texts, options, set, number, query),
    }
}

// Asks a session on a crate, with a file of it as the last root.
fn asked_of_root<'w, R: Files + AllocGlobal>(
    rt: &R,
    texts: Texts<'_>,
    mut options: SessionOptions<'w>,
    name: &'w str,
    query: Query,
) -> Result<Findings, AllocError> {
    let number = options.names.len();
    options.names.push(name)?;
    let set = read_files(rt, texts, &options)?;
    asked(rt.alloc(), texts, options, set, number, query)
}

// Asks a session on a document that is the root of a crate.
fn asked_alone<R: Files + AllocGlobal>(
    rt: &R,
    texts: Texts<'_>,
    options: SessionOptions<'_>,
    query: Query,
) -> Result<Findings, AllocError> {
    let set = read_files(rt, texts, &options)?;
    asked(rt.alloc(), texts, options, set, 0, query)
}

// Asks a session on a document of a package. `None` if the edition isn't known.
fn asked_in_package<R: Files + AllocGlobal>(
    rt: &R,
    texts: Texts<'_>,
    plan: &PackagePlan,
    manifest: &str,
    path: &str,
    query: Query,
) -> Result<Option<Analysis>, AllocError> {
    let alloc = rt.alloc();
    let Some(options) = options_of(alloc, plan)? else {
        return Ok(None);
    };
    let set = read_files(rt, texts, &options)?;
    if let Some(number) = own_file(alloc, texts, &set, options.names.len(), path)? {
        return Ok(Some(Analysis {
            found: asked_of_file(rt, texts, options, set, number, query)?,
            manifest: Some(String::from_str(alloc, manifest)?),
        }));
    }
    match options_beside(alloc, plan, path)? {
        Some(options) => Ok(Some(Analysis {
            found: asked_alone(rt, texts, options, query)?,
            manifest: None,
        })),
        None => Ok(None),
    }
}

/// Asks a session on the crate of the document at that path. `AllocError` if out of memory.
pub fn analysed<R: Env + Files + AllocGlobal + Clone + Drop>(
    rt: &R,
    texts: Texts<'_>,
    path: &str,
    query: Query,
) -> Result<Analysis, AllocError> {
    if let Some(manifest) = manifest_of(rt, path)?
        && let Some(plan) = plan_of(rt, manifest.as_str())?
        && let Some(found) = asked_in_package(rt, texts, &plan, manifest.as_str(), path, query)?
    {
        return Ok(found);
    }
    let options = options_alone(rt.alloc(), path)?;
    Ok(Analysis {
        found: asked_alone(rt, texts, options, query)?,
        manifest: None,
    })
}
