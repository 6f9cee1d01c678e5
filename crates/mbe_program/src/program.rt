// A run of `mbex` from two texts to its output, for any allocator and any writer.
//
// It lexes the definition and the argument, reads the macro, and writes the expansion or, with
// `lint`, the verdict of each rule. `Outcome` says how the run ended.
ghost use Rattle.std.specs.Prelude.{◌≡◌, ◌<◌, ◌^◌, ◌⊎◌, length, map, true, false, Ok, IfErr, IfOk};
ghost use Rattle.mbe_tt.specs.Trees.Top.{top_group};
ghost use Rattle.mbe_ops.specs.Errors.ErrorViews.{errors_of};
ghost use Rattle.mbe.specs.MacroViews.{macro_of};
ghost use Rattle.mbe.specs.MatchResults.{verdict_seen};
ghost use Rattle.mbe_text.specs.Tokens.{IsLexed};
ghost use Rattle.mbe_text.specs.LexedTrees.{sample_trees};
ghost use Rattle.mbe_program.specs.TreeExpansion.{HasNoMacro, IsMacroOf};
ghost use Rattle.mbe_program.specs.TextExpansion.{AreRead, ExpandsTexts, EndsExpand};
ghost use Rattle.mbe_program.specs.TextExpansion.{IsAtFault, IsUnexpanded};
ghost use Rattle.mbe_program.specs.VerdictLines.{ExplainsTexts, Lints};
ghost use Rattle.mbe_program.specs.Outcomes.{FaultsIn, IsSilent, status_of};

use crate::expansion_printer::{head_of, print_expansion};
use crate::tree_expansion::{DefinitionError, Expansion, defined, expand_with, explain_rules};
use crate::verdict_lines::{lines_of, print_lines};
use mbe::{DeclarativeMacro, MacroCallStyle, ParseError, Verdict};
use mbe_grammar::SampleGrammar;
use mbe_text::lexer::{LexError, lex_with_table};
use mbe_text::scanner::file_span;
use mbe_text::symbol_table::SymbolTable;
use mbe_tt::span::Edition;
use mbe_tt::tt::TopSubtree;
use std::alloc::{AllocError, Allocator};
use std::io::Write;

/// How a run ended.
#[derive(Drop)]
pub enum Outcome<A: Allocator> {
    /// The expansion is written.
    Expanded,
    /// The verdicts of the rules are written.
    Linted,
    /// The expansion has an error, and both are written.
    Faulted,
    /// The definition has an error.
    Refused(ParseError<A>),
    /// A text can't be lexed. The fault is at byte `offset` of the definition (file 0) or of the
    /// argument (file 1).
    CannotLex { file: u32, offset: u32 },
    CannotWrite,
    OutOfMemory,
}

impl<A: Allocator> Outcome<A> {
    /// The exit status of the program.
    pub fn status(&self) -> u8
        ensures { result ≡ status_of self.now }
    {
        match self {
            Outcome::Expanded | Outcome::Linted => 0,
            Outcome::Faulted => 1,
            Outcome::Refused(_) => 2,
            Outcome::CannotWrite => 3,
            Outcome::CannotLex { .. } => 4,
            Outcome::OutOfMemory => 5,
        }
    }
}

impl<A: Allocator> From<AllocError> for Outcome<A> {
    ghost use Rattle.mbe_program.specs.declared.program.Outcome.TheVariants.{OutOfMemory};

    ghost from_gives = { λ _ outcome. outcome ≡ OutOfMemory };

    fn from(_error: AllocError) -> Outcome<A> {
        Outcome::OutOfMemory
    }
}

impl<A: Allocator> From<DefinitionError<A>> for Outcome<A> {
    ghost use Rattle.mbe_program.specs.TextExpansion.{outcome_of};

    ghost from_gives = { λ unread outcome. outcome ≡ outcome_of unread };

    fn from(unread: DefinitionError<A>) -> Outcome<A> {
        match unread {
            DefinitionError::Refused(error) => Outcome::Refused(error),
            DefinitionError::OutOfMemory => Outcome::OutOfMemory,
        }
    }
}

// Lexes the text of a file. The error is the byte at fault.
fn lexed<A: Allocator + Copy>(
    table: &mut SymbolTable<A>,
    text: &str,
    file: u32,
) -> Result<TopSubtree<A>, Outcome<A>>
    requires { length text.now < 2 ^ 32 }
    ensures made { IfOk result (IsLexed file text.now) }
    ensures divided { IfOk result (λ trees. sample_trees file text.now ≡ Ok trees) }
    ensures fault { IfErr result (IsAtFault file text.now) }
    ensures within { IfErr result (FaultsIn file (length text.now)) }
{
    match lex_with_table(table, text, file) {
        Ok(tree) => Ok(tree),
        Err(LexError::Fault(fault)) => Err(Outcome::CannotLex {
            file,
            offset: fault.offset,
        }),
        Err(LexError::OutOfMemory) => Err(Outcome::OutOfMemory),
    }
}

// Reads the macro of a definition, and frees the definition's trees.
#[tactic(auto, using(crate::proofs::Reading::macro_is))]
fn read_rules_of<A: Allocator + Copy>(
    alloc: A,
    definition: TopSubtree<A>,
    edition: Edition,
) -> Result<DeclarativeMacro<A>, DefinitionError<A>>
    ensures read { IfOk result (λ m. IsMacroOf edition definition.1 (macro_of m)) }
    ensures refused { IfErr result (HasNoMacro edition definition.1) }
{
    defined(alloc, &definition, edition)
}

// Reads the macro of the definition and the trees of the argument. The error is the first fault: a
// text that can't be lexed comes before a definition that is refused. The definition's trees are
// freed before the argument's are made, so memory never holds both. A long text that both have is
// stored once.
#[tactic(auto, using(crate::proofs::Both::trees, crate::proofs::Both::first_fault, crate::proofs::Both::second_fault, crate::proofs::OutcomeLemmas::unlexed, crate::proofs::Reading::both_are, crate::proofs::Reading::unread))]
fn read_both<A: Allocator + Copy>(
    alloc: A,
    def: &str,
    arg: &str,
    edition: Edition,
) -> Result<(DeclarativeMacro<A>, TopSubtree<A>), Outcome<A>>
    requires def { length def.now < 2 ^ 32 }
    requires arg { length arg.now < 2 ^ 32 }
    ensures read { IfOk result (λ r. AreRead edition def.now arg.now (macro_of r.0) r.1) }
    ensures unexpanded { IfErr result (IsUnexpanded edition def.now arg.now) }
    ensures within { IfErr result (λ outcome.
        FaultsIn 0 (length def.now) outcome ⊎ FaultsIn 1 (length arg.now) outcome) }
{
    let mut table = SymbolTable::new(alloc);
    let definition = lexed(&mut table, def, 0)?;
    let rules = read_rules_of(alloc, definition, edition);
    let argument = lexed(&mut table, arg, 1)?;
    Ok((rules?, argument))
}

// Expands the text of an argument by the text of a definition.
#[tactic(auto, using(crate::proofs::Reading::faultless, crate::proofs::Reading::expands))]
fn expand_texts<A: Allocator + Copy>(
    alloc: A,
    def: &str,
    arg: &str,
    edition: Edition,
) -> Result<Expansion<A>, Outcome<A>>
    requires def { length def.now < 2 ^ 32 }
    requires arg { length arg.now < 2 ^ 32 }
    ensures expands { IfOk result (λ r. ExpandsTexts edition def.now arg.now
        (top_group r.value.0) r.value.1 (errors_of r.err)) }
    ensures unexpanded { IfErr result (IsUnexpanded edition def.now arg.now) }
    ensures within { IfErr result (λ outcome.
        FaultsIn 0 (length def.now) outcome ⊎ FaultsIn 1 (length arg.now) outcome) }
{
    let (rules, argument) = read_both(alloc, def, arg, edition)?;
    let call_site = file_span(1, 0, arg.len() as u32);
    let style = MacroCallStyle::FnLike;
    let expansion = expand_with(alloc, &SampleGrammar, &rules, &argument, style, call_site)?;
    Ok(expansion)
}

// Returns the verdicts of a definition's rules on an argument, both given as texts.
#[tactic(auto, using(crate::proofs::Reading::faultless, crate::proofs::Reading::explains))]
fn explain_texts<A: Allocator + Copy>(
    alloc: A,
    def: &str,
    arg: &str,
    edition: Edition,
) -> Result<Vec<Verdict, A>, Outcome<A>>
    requires def { length def.now < 2 ^ 32 }
    requires arg { length arg.now < 2 ^ 32 }
    ensures explains { IfOk result (λ verdicts. ExplainsTexts edition def.now arg.now
        (map verdict_seen verdicts.items)) }
    ensures unexpanded { IfErr result (IsUnexpanded edition def.now arg.now) }
    ensures within { IfErr result (λ outcome.
        FaultsIn 0 (length def.now) outcome ⊎ FaultsIn 1 (length arg.now) outcome) }
{
    let (rules, argument) = read_both(alloc, def, arg, edition)?;
    let verdicts = explain_rules(alloc, &SampleGrammar, &rules, &argument)?;
    Ok(verdicts)
}

// Runs without `--lint`.
fn run_expand<A: Allocator + Copy, W: Write>(
    alloc: A,
    def: &str,
    arg: &str,
    edition: Edition,
    out: &mut W,
) -> Outcome<A>
    requires def { length def.now < 2 ^ 32 }
    requires arg { length arg.now < 2 ^ 32 }
    ensures silent { IsSilent result (W.contents out.old) (W.contents out.new) }
    ensures ended { EndsExpand edition def.now arg.now
        (W.contents out.old) (W.contents out.new) result }
    ensures within { FaultsIn 0 (length def.now) result ⊎ FaultsIn 1 (length arg.now) result }
{
    let expansion = match expand_texts(alloc, def, arg, edition) {
        Ok(expansion) => expansion,
        Err(outcome) => return outcome,
    };
    let (tree, arm) = &expansion.value;
    let Ok(head) = head_of(alloc, expansion.err.as_ref(), *arm) else {
        return Outcome::OutOfMemory;
    };
    if print_expansion(head.as_str(), tree, out).is_err() {
        return Outcome::CannotWrite;
    }
    match expansion.err {
        Some(_) => Outcome::Faulted,
        None => Outcome::Expanded,
    }
}

// Runs with `--lint`.
fn run_lint<A: Allocator + Copy, W: Write>(
    alloc: A,
    def: &str,
    arg: &str,
    edition: Edition,
    out: &mut W,
) -> Outcome<A>
    requires def { length def.now < 2 ^ 32 }
    requires arg { length arg.now < 2 ^ 32 }
    ensures silent { IsSilent result (W.contents out.old) (W.contents out.new) }
    ensures lints { Lints edition def.now arg.now
        (W.contents out.old) (W.contents out.new) result }
    ensures within { FaultsIn 0 (length def.now) result ⊎ FaultsIn 1 (length arg.now) result }
{
    let verdicts = match explain_texts(alloc, def, arg, edition) {
        Ok(verdicts) => verdicts,
        Err(failure) => return failure,
    };
    let Ok(lines) = lines_of(alloc, &verdicts) else {
        return Outcome::OutOfMemory;
    };
    match print_lines(lines.as_str(), out) {
        Ok(()) => Outcome::Linted,
        Err(_) => Outcome::CannotWrite,
    }
}

/// Expands the text of an argument by the text of a definition. Every token is of the edition
/// `edition`. It writes the error if there is one, the rule that was used and the tree, and
/// flushes. With `lint` it expands nothing, and writes a line for each rule of the definition, of
/// every style: how the rule reads the argument.
///
/// Nothing is written if a text can't be lexed, the definition is refused or memory runs out. If a
/// text can't be lexed, the outcome has its file and the byte at fault; the definition is lexed
/// first. If a write fails, the outcome says so, and a prefix was written.
pub fn run<A: Allocator + Copy, W: Write>(
    alloc: A,
    def: &str,
    arg: &str,
    edition: Edition,
    lint: bool,
    out: &mut W,
) -> Outcome<A>
    requires def { length def.now < 2 ^ 32 }
    requires arg { length arg.now < 2 ^ 32 }
    ensures silent { IsSilent result (W.contents out.old) (W.contents out.new) }
    ensures expands { lint ≡ false → EndsExpand edition def.now arg.now
        (W.contents out.old) (W.contents out.new) result }
    ensures lints { lint ≡ true → Lints edition def.now arg.now
        (W.contents out.old) (W.contents out.new) result }
    ensures within { FaultsIn 0 (length def.now) result ⊎ FaultsIn 1 (length arg.now) result }
{
    if lint {
        run_lint(alloc, def, arg, edition, out)
    } else {
        run_expand(alloc, def, arg, edition, out)
    }
}
