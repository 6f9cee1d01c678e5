// A session: it reads files, defines their macros in the expander, and expands their calls.
ghost use Rattle.std.specs.Prelude.{◌≡◌, ◌<◌, ◌≤◌, ◌||◌, None, Some, IfOk, OnErr, length, map};
ghost use Rattle.std.specs.Prelude.{option_map};
ghost use Rattle.std.specs.List.{list_any, slice_get};
ghost use Rattle.std.specs.String.{string_bytes};
ghost use Rattle.mbe_rewriter.specs.ReplacementViews.{part_of};
ghost use Rattle.mbe_session.specs.Budgets.{full};
ghost use Rattle.mbe_session.specs.SessionViews.{setting_of, state_of};
ghost use Rattle.mbe_session.specs.EmittedNotes.{AreDiagnosticsOf, EmittedIn};
ghost use Rattle.mbe_session.specs.Explanation.{note_seen};
ghost use Rattle.mbe_session.specs.FileExpansion.{CratesParts, FileAtExpands, WritesOne};
ghost use Rattle.mbe_session.specs.Sessions.{AreWritten, IsOpen, IsPrinted};
ghost use Rattle.mbe_session.specs.FileViews.{source_of, sources_of, text_of};
ghost use Rattle.mbe_session.specs.CrateSettings.{AreFileSettings};
ghost use Rattle.mbe_session.specs.OptionViews.{conditions_of, language_of, names_of, own_of};
ghost use Rattle.mbe_session.specs.Sources.{AreSources, source_text};
ghost use Rattle.mbe_session.specs.NoteLevels.{is_error};

use crate::call_modules::CallText;
use crate::closed_text::is_closed_text;
use crate::crate_expander::{crates_replacements, define_crates, load_externs};
use crate::emitter::{MessageFormat, add_notes, calls_to_explain, push_diagnostics};
use crate::file_expander::FileExpander;
use crate::file_expansion::{PrintRequest, file_text, file_texts, write_last};
use crate::locations::CallPosition;
use crate::notes::{Level, Note};
use crate::recursion_limit::first_limit;
use crate::session_options::SessionOptions;
use crate::source_files::{SourceFile, source_file};
use crate::summary::{ReportCounts, summary_line};
use mbe_diagnostics::diagnostic::Diagnostic;
use mbe_grammar::rust::rust_rules::rust_rules;
use mbe_grammar::tables::peg_table::RuleTable;
use mbe_rewriter::splice::Replacement;
use mbe_text::symbol_table::SymbolTable;
use std::alloc::{AllocError, Global};
use std::io;
use std::io::Write;

/// The name and the text of a file. Beside it are calls of the file with the texts of their
/// expansions, if an earlier session found them.
#[derive(Drop)]
pub struct NamedText {
    pub name: String,
    pub text: String,
    pub calls: Vec<CallText>,
}

/// The files with their trees, the expander with their definitions, and the notes on the files.
#[derive(Drop)]
pub struct Session<'f> {
    pub files: Vec<SourceFile<'f>>,
    pub expander: FileExpander<'f>,
    pub notes: Vec<Note>,
}

/// Reads the files, each under the settings of its crate, and by the table `grammar` in its edition.
/// `roots` has for each file the number of the root from which it was reached. A note is added for
/// each that isn't Rust, which says where and why.
/// `AllocError` if out of memory, or if there are more than 2^32 files.
pub fn sources<'f, 'r>(
    alloc: Global,
    options: &'r SessionOptions<'_>,
    grammar: RuleTable<'r>,
    roots: &[usize],
    texts: &'f [NamedText],
    notes: &mut Vec<Note>,
) -> Result<Vec<SourceFile<'f>>, AllocError>
    ensures texts { IfOk result (λ v. map (λ f. source_text (source_of f)) v.items
        ≡ map text_of texts.now) }
    ensures read { IfOk result (λ v. AreSources (AreFileSettings grammar.entry
        options.now.edition (conditions_of options.now) (own_of options.now roots.now))
        (map source_of v.items)) }
{
    let mut symbols = SymbolTable::new(alloc);
    let mut files = Vec::new(alloc);
    for (number, named) in texts.iter().enumerate() {
        let Ok(at) = u32::try_from(number) else {
            return Err(AllocError);
        };
        let (name, text) = (named.name.as_str(), named.text.as_str());
        let calls = named.calls.as_slice();
        let source_settings = options.file_settings(grammar, roots, number);
        let file = source_file(
            alloc,
            &mut symbols,
            notes,
            &source_settings,
            name,
            text,
            calls,
            at,
        )?;
        files.push(file)?;
    }
    Ok(files)
}

// Whether one of the notes is an error.
fn has_errors(notes: &[Note]) -> bool
    ensures { result ≡ list_any is_error notes.now }
{
    notes.iter().any(|note| matches!(note.level, Level::Error))
}

impl<'f> Session<'f> {
    /// Opens a session: reads the files, and defines the macros of the external crates, then the
    /// macros of the session's own crates. No call is expanded yet.
    ///
    /// `texts` begins with the roots of the own crates. The roots of the external crates follow.
    /// `roots` has for each file the number of the root from which it was reached. `AllocError` if
    /// out of memory, or if there are more than 2^32 files.
    pub fn open(
        alloc: Global,
        options: &'f SessionOptions<'_>,
        roots: &'f [usize],
        texts: &'f [NamedText],
    ) -> Result<Session<'f>, AllocError>
        ensures { IfOk result (λ s. IsOpen (language_of options.now)
            (conditions_of options.now) (own_of options.now roots.now) options.now.depth
            (full options.now.fuel options.now.max_tokens) options.now.with_modules
            (length options.now.names.items) (names_of options.now) (map text_of texts.now)
            (sources_of s)
            (setting_of s.expander) (state_of s.expander)) }
    {
        let mut notes = Vec::new(alloc);
        let grammar = rust_rules(options.edition, &[]);
        let files = sources(alloc, options, grammar, roots, texts, &mut notes)?;
        let root_count = options.names.len();
        let explain = calls_to_explain(options.explain, files.as_slice(), root_count);
        let is_closed = is_closed_text(&files);
        let settings = options.settings(first_limit(&files, root_count), explain, is_closed);
        let table = grammar.with_dialect(options.dialect);
        let mut expander = FileExpander::new(alloc, table, options.conditions(), settings);
        let externs = options.externs.as_slice();
        load_externs(
            alloc,
            options.with_modules,
            &mut expander,
            &files,
            root_count,
            externs,
        )?;
        define_crates(
            alloc,
            options.with_modules,
            &mut expander,
            &files,
            root_count,
        )?;
        Ok(Session {
            files,
            expander,
            notes,
        })
    }

    /// Whether an error is noted: on a file, on a definition or on a call.
    pub fn has_errors(&self) -> bool
        ensures { result ≡ (list_any is_error self.now.notes.items
            || list_any is_error self.now.expander.notes.items) }
    {
        has_errors(&self.notes) || has_errors(&self.expander.notes)
    }

    /// Returns the text of the notes in that form: first the notes on files, then the notes on
    /// definitions and calls. `None` is the short form. `AllocError` if out of memory.
    pub fn notes_text(
        &self,
        alloc: Global,
        form: Option<MessageFormat>,
    ) -> Result<String, AllocError>
        ensures { IfOk result (λ t. EmittedIn form self.now.files.items
            (map note_seen self.now.notes.items) (map note_seen self.now.expander.notes.items)
            (string_bytes t)) }
    {
        let mut text = String::new(alloc);
        add_notes(alloc, form, &self.files, &self.notes, &mut text)?;
        add_notes(alloc, form, &self.files, &self.expander.notes, &mut text)?;
        Ok(text)
    }

    /// Returns the line that ends a run: how many errors it has, and how many calls are expanded,
    /// such as `2 errors; 41 of 44 calls expanded; 2 calls of unknown macros`. The text is empty
    /// without an error, and in JSON. `AllocError` if out of memory.
    pub fn summary_text(
        &self,
        alloc: Global,
        form: Option<MessageFormat>,
    ) -> Result<String, AllocError> {
        let mut reports = ReportCounts::new();
        reports.add_notes(&self.notes);
        reports.add_notes(&self.expander.notes);
        summary_line(alloc, form, reports, Some(self.expander.counts()))
    }

    /// Returns the diagnostics of the notes, as data: first the diagnostics of files, then the
    /// diagnostics of definitions and calls. `AllocError` if out of memory.
    pub fn diagnostics(&self, alloc: Global) -> Result<Vec<Diagnostic<'_>>, AllocError>
        ensures { IfOk result (λ v. AreDiagnosticsOf self.now.files.items
            (map note_seen self.now.notes.items) (map note_seen self.now.expander.notes.items)
            v.items) }
    {
        let mut diagnostics = Vec::new(alloc);
        push_diagnostics(&self.files, &self.notes, &mut diagnostics)?;
        push_diagnostics(&self.files, &self.expander.notes, &mut diagnostics)?;
        Ok(diagnostics)
    }

    /// Expands the calls of the session's own crates, and returns the replacements for them, in
    /// order. Each replacement names its file by its number. Errors are noted. `options` must be
    /// the options that the session was opened with. The files are unchanged. `AllocError` if out
    /// of memory.
    pub fn expand_crates(
        &mut self,
        alloc: Global,
        options: &SessionOptions<'_>,
    ) -> Result<Vec<Replacement>, AllocError>
        ensures files { self.new.files ≡ self.old.files }
        ensures parts { IfOk result (λ v. CratesParts (setting_of self.old.expander) 1000
            options.now.with_modules (sources_of self.old) (state_of self.old.expander)
            (length options.now.names.items) (map part_of v.items) (state_of self.new.expander)) }
    {
        let root_count = options.names.len();
        let (notes, expander) = (&mut self.notes, &mut self.expander);
        crates_replacements(
            alloc,
            options.with_modules,
            notes,
            expander,
            &self.files,
            root_count,
        )
    }

    /// Returns the text of file `number` with its calls expanded, by the replacements that
    /// `expand_crates` returned. `None` if there is no such file. `AllocError` if out of memory.
    pub fn expand_file(
        &self,
        alloc: Global,
        parts: &[Replacement],
        number: usize,
    ) -> Result<Option<String>, AllocError>
        ensures { IfOk result (λ t. FileAtExpands None (map part_of parts.now) number
            (slice_get (sources_of self.now) number) (option_map string_bytes t)) }
    {
        self.file_text_at(alloc, None, parts, number)
    }

    /// Returns the expansions of the calls of file `number` that begin at the position, each with a
    /// line feed after it, by the replacements that `expand_crates` returned. `None` if there is no
    /// such file. `AllocError` if out of memory.
    pub fn expand_calls_at(
        &self,
        alloc: Global,
        parts: &[Replacement],
        number: usize,
        position: CallPosition,
    ) -> Result<Option<String>, AllocError>
        ensures { IfOk result (λ t. FileAtExpands (Some position) (map part_of parts.now) number
            (slice_get (sources_of self.now) number) (option_map string_bytes t)) }
    {
        self.file_text_at(alloc, Some(position), parts, number)
    }

    // Returns the expansion of file `number` by these replacements, if there is such a file.
    fn file_text_at(
        &self,
        alloc: Global,
        call: Option<CallPosition>,
        parts: &[Replacement],
        number: usize,
    ) -> Result<Option<String>, AllocError>
        ensures { IfOk result (λ t. FileAtExpands call (map part_of parts.now) number
            (slice_get (sources_of self.now) number) (option_map string_bytes t)) }
    {
        match self.files.get(number) {
            Some(file) => Ok(Some(file_text(alloc, call, parts, number, file)?)),
            None => Ok(None),
        }
    }
}

// Returns what the options ask to print.
fn print_request(options: &SessionOptions<'_>) -> PrintRequest
    ensures { result ≡ record { call = options.now.call; with_modules = options.now.with_modules } }
{
    PrintRequest {
        call: options.call,
        with_modules: options.with_modules,
    }
}

/// Opens a session, and writes the expansion of the last root of its own crates. `texts` and
/// `roots` are as for `Session::open`. Returns the session, and how the write ended. If memory runs
/// out, nothing is written.
pub fn write_expansion<'f, W: Write>(
    alloc: Global,
    options: &'f SessionOptions<'_>,
    roots: &'f [usize],
    texts: &'f [NamedText],
    out: &mut W,
) -> Result<(Session<'f>, io::Result<()>), AllocError>
    ensures nothing { OnErr result (W.contents out.new ≡ W.contents out.old) }
    ensures printed { IfOk result (λ r. 0 < length options.now.names.items
        → length options.now.names.items ≤ length texts.now
        → WritesOne (W.contents out.old) (W.contents out.new) r.1
        (IsPrinted (language_of options.now) (conditions_of options.now)
        (own_of options.now roots.now) options.now.depth
        (full options.now.fuel options.now.max_tokens) options.now.call
        options.now.with_modules
        (length options.now.names.items) (names_of options.now) (map text_of texts.now))) }
{
    let mut session = Session::open(alloc, options, roots, texts)?;
    let request = print_request(options);
    let (of, root_count) = (&mut session, options.names.len());
    let (notes, expander) = (&mut of.notes, &mut of.expander);
    let written = write_last(alloc, request, notes, expander, &of.files, root_count, out);
    Ok((session, written))
}

/// Opens a session, and returns it with the expansion of each file, in order. `texts` and `roots`
/// are as for `Session::open`. `AllocError` if out of memory, or if there are more than 2^32
/// files.
pub fn expand_files<'f>(
    alloc: Global,
    options: &'f SessionOptions<'_>,
    roots: &'f [usize],
    texts: &'f [NamedText],
) -> Result<(Session<'f>, Vec<String>), AllocError>
    ensures { IfOk result (λ r. AreWritten (language_of options.now) (conditions_of options.now)
        (own_of options.now roots.now) options.now.depth
        (full options.now.fuel options.now.max_tokens) options.now.call
        options.now.with_modules
        (length options.now.names.items) (names_of options.now) (map text_of texts.now)
        (map string_bytes r.1.items)) }
{
    let mut session = Session::open(alloc, options, roots, texts)?;
    let (of, root_count) = (&mut session, options.names.len());
    let (notes, expander) = (&mut of.notes, &mut of.expander);
    let parts = crates_replacements(
        alloc,
        options.with_modules,
        notes,
        expander,
        &of.files,
        root_count,
    )?;
    let written = file_texts(alloc, options.call, parts.as_slice(), &of.files)?;
    Ok((session, written))
}
