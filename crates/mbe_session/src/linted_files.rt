// Lints files: checks their definitions, and expands no call.
ghost use Rattle.std.specs.Prelude.{◌≡◌, IfOk, OnOk, map};
ghost use Rattle.std.specs.String.{string_bytes};
ghost use Rattle.mbe_session.specs.EmittedNotes.{EmittedWithLints};
ghost use Rattle.mbe_session.specs.Explanation.{note_seen};
ghost use Rattle.mbe_session.specs.Scopes.{IsEdition};
ghost use Rattle.mbe_diagnostics.specs.Lints.Definitions.{definitions};
ghost use Rattle.mbe_diagnostics.specs.Lints.Lint.{lint_seen};
ghost use Rattle.mbe_diagnostics.specs.Lints.Linter.{AreLinted};
ghost use Rattle.mbe_session.specs.LintedFiles.{AreTextsLinted, FileLints, FilesLinted};
ghost use Rattle.mbe_session.specs.FileViews.{source_of, text_of};
ghost use Rattle.mbe_session.specs.OptionViews.{conditions_of};

use crate::emitter::{MessageFormat, add_lints, add_notes};
use crate::notes::Note;
use crate::session::{NamedText, sources};
use crate::session_options::SessionOptions;
use crate::source_files::SourceFile;
use crate::summary::{ReportCounts, summary_line};
use mbe_diagnostics::lints::lint::Lint;
use mbe_diagnostics::lints::linter::push_lints;
use mbe_grammar::rust::rust_rules::rust_rules;
use mbe_tt::span::Edition;
use mbe_tt::tt::TopSubtree;
use std::alloc::{AllocError, Global};

/// Files whose definitions are linted: the files with their trees, the notes on the files, and the
/// lints of their definitions.
#[derive(Drop)]
pub struct LintedFiles<'f> {
    pub files: Vec<SourceFile<'f>>,
    pub notes: Vec<Note>,
    pub lints: Vec<Lint>,
}

// Adds the lints of the definitions in these trees.
fn push_tree_lints(
    alloc: Global,
    edition: Edition,
    lints: &mut Vec<Lint>,
    tree: &TopSubtree,
) -> Result<(), AllocError>
    ensures { OnOk result (AreLinted (IsEdition edition) (definitions 1001 tree.now.1)
        (map lint_seen lints.old.items) (map lint_seen lints.new.items)) }
{
    push_lints(alloc, |_context| edition, lints, tree.iter().remaining())
}

// Adds the lints of the definitions of a file.
fn push_file_lints(
    alloc: Global,
    edition: Edition,
    lints: &mut Vec<Lint>,
    file: &SourceFile<'_>,
) -> Result<(), AllocError>
    ensures { OnOk result (FileLints edition file.now.tree
        (map lint_seen lints.old.items) (map lint_seen lints.new.items)) }
{
    match &file.tree {
        Some(tree) => push_tree_lints(alloc, edition, lints, tree),
        None => Ok(()),
    }
}

/// Adds the lints of the definitions of each file, in order. `AllocError` if out of memory.
pub fn push_all_lints(
    alloc: Global,
    edition: Edition,
    lints: &mut Vec<Lint>,
    files: &[SourceFile<'_>],
) -> Result<(), AllocError>
    ensures { OnOk result (FilesLinted edition (map (λ f. f.tree) files.now)
        (map lint_seen lints.old.items) (map lint_seen lints.new.items)) }
{
    for file in files {
        push_file_lints(alloc, edition, lints, file)?;
    }
    Ok(())
}

/// Reads the files, and lints their definitions. Definitions that `cfg` disables are left out. Each
/// file is read in the edition of the options. `AllocError` if out of memory, or if there are more
/// than 2^32 files.
pub fn lint<'f>(
    alloc: Global,
    options: &SessionOptions<'_>,
    texts: &'f [NamedText],
) -> Result<LintedFiles<'f>, AllocError>
    ensures { IfOk result (λ l. AreTextsLinted options.now.edition (conditions_of options.now)
        (map text_of texts.now) (map source_of l.files.items) (map lint_seen l.lints.items)) }
{
    let mut notes = Vec::new(alloc);
    let grammar = rust_rules(options.edition, &[]);
    let files = sources(alloc, options, grammar, &[], texts, &mut notes)?;
    let mut lints = Vec::new(alloc);
    push_all_lints(alloc, options.edition, &mut lints, files.as_slice())?;
    Ok(LintedFiles {
        files,
        notes,
        lints,
    })
}

impl LintedFiles<'_> {
    /// Returns the text of the notes and the lints in that form. `None` is the short form of notes,
    /// and rustc's form of lints. `AllocError` if out of memory.
    pub fn notes_text(
        &self,
        alloc: Global,
        form: Option<MessageFormat>,
    ) -> Result<String, AllocError>
        ensures { IfOk result (λ t. EmittedWithLints form self.now.files.items
            (map note_seen self.now.notes.items) (map lint_seen self.now.lints.items)
            (string_bytes t)) }
    {
        let mut text = String::new(alloc);
        add_notes(alloc, form, &self.files, &self.notes, &mut text)?;
        let form = form.unwrap_or(MessageFormat::Text);
        add_lints(alloc, form, &self.files, &self.lints, &mut text)?;
        Ok(text)
    }
    /// Returns the line that ends a run: how many errors and warnings it has, such as
    /// `2 errors, 1 warning`. The text is empty without one, and in JSON. `AllocError` if out of
    /// memory.
    pub fn summary_text(
        &self,
        alloc: Global,
        form: Option<MessageFormat>,
    ) -> Result<String, AllocError> {
        let mut reports = ReportCounts::new();
        reports.add_notes(&self.notes);
        reports.add_lints(&self.lints);
        summary_line(alloc, form, reports, None)
    }
}
