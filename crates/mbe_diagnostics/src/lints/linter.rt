// Lints the macro definitions of a file: refused definitions, findings in their rules, and
// unreachable rules.
ghost use Rattle.std.specs.Prelude.{◌≡◌, ◌++◌, map, option_map, IfOk, OnOk};
ghost use Rattle.mbe_tt.specs.Views.View.{trees};
ghost use Rattle.mbe_tt.specs.Views.LeafViews.{ident_of};
ghost use Rattle.mbe_ops.specs.Errors.ErrorViews.{parse_error_of};
ghost use Rattle.mbe_parser.specs.RuleViews.{rule_of, rules_seen};
ghost use Rattle.mbe_rewriter.specs.MacroItemViews.{macro_definition_shown};
ghost use Rattle.mbe_diagnostics.specs.RuleChecks.Findings.{finding_seen};
ghost use Rattle.mbe_semantics.specs.Laws.Callbacks.{MayAsk};
ghost use Rattle.mbe_diagnostics.specs.Lints.Definitions.{definitions as definitions_of};
ghost use Rattle.mbe_diagnostics.specs.Lints.Lint.{lint_seen};
ghost use Rattle.mbe_diagnostics.specs.Lints.FindingMessages.{findings_lints};
ghost use Rattle.mbe_diagnostics.specs.Lints.Linter as spec;
ghost use Rattle.mbe_diagnostics.specs.Lints.Linter.{AreLinted, IsLinted, macro_lints};
ghost use Rattle.mbe_diagnostics.specs.Lints.ParsedMacroViews.{macro_read};

use crate::diagnostic::Level;
use crate::lints::definitions::definitions;
use crate::lints::finding_messages::push_finding;
use crate::lints::lint::{Lint, push_text};
use crate::lints::parsed_macro::{ParsedMacro, read};
use crate::lints::repetition_lints::push_all_fixed;
use crate::lints::unreachable_lints::push_all_unreachable;
use crate::rule_checks::findings::{Finding, findings};
use crate::rule_checks::fixed_repetitions::fixed_repetitions;
use crate::rule_checks::unreachable_rules::unreachable_rules;
use mbe_ops::errors::error::ParseError;
use mbe_parser::rules::Rule;
use mbe_rewriter::macro_items::MacroDefinition;
use mbe_tt::span::{Edition, SyntaxContext};
use mbe_tt::tt::{Ident, TokenTreesView};
use std::alloc::{AllocError, Allocator};

// Returns rustc's message for a fault of a definition, if rustc has one, else the parser's.
#[tactic(auto, unfolding(crate::specs::Lints::Linter::refusal_text))]
fn refusal_text<A: Allocator>(error: &ParseError<A>) -> &str
    ensures { result.now ≡ spec.refusal_text (parse_error_of error.now) }
{
    match error {
        ParseError::InvalidRepeat => "expected one of: `*`, `+`, or `?`",
        ParseError::RepetitionEmptyTokenTree => "repetition matches empty token tree",
        ParseError::UnexpectedToken(text) | ParseError::Expected(text) => text.as_str(),
    }
}

// Adds the lint that says why a definition is refused, if it is.
fn push_refusal<A: Allocator + Copy>(
    alloc: A,
    lints: &mut Vec<Lint<A>, A>,
    name: &Ident<A>,
    read: &ParsedMacro<A>,
) -> Result<(), AllocError>
    ensures { OnOk result (map lint_seen lints.new.items ≡ map lint_seen lints.old.items
        ++ spec.refusal_lints (ident_of name.now) (option_map parse_error_of read.now.err)
        read.now.location) }
{
    let Some(error) = read.err.as_ref() else {
        return Ok(());
    };
    let span = match read.location {
        Some(location) => location.span,
        None => name.span,
    };
    push_text(alloc, lints, Level::Error, span, refusal_text(error))
}

#[tactic(auto, unfolding(crate::specs::Lints::Linter::no_rules_text))]
fn no_rules_text() -> &'static str
    ensures { result.now ≡ spec.no_rules_text }
{
    "macros must contain at least one rule"
}

// Adds the error on a definition without rules, unless it is refused.
fn push_empty<A: Allocator + Copy>(
    alloc: A,
    lints: &mut Vec<Lint<A>, A>,
    name: &Ident<A>,
    read: &ParsedMacro<A>,
) -> Result<(), AllocError>
    ensures { OnOk result (map lint_seen lints.new.items ≡ map lint_seen lints.old.items
        ++ spec.empty_lints (ident_of name.now) (rules_seen read.now.rules.items)
        (option_map parse_error_of read.now.err)) }
{
    match (read.rules.as_slice(), read.err.as_ref()) {
        ([], None) => push_text(alloc, lints, Level::Error, name.span, no_rules_text()),
        ([], Some(_)) => Ok(()),
        ([_, ..], _) => Ok(()),
    }
}

fn push_findings<A: Allocator + Copy>(
    alloc: A,
    lints: &mut Vec<Lint<A>, A>,
    defined: MacroDefinition<'_, A>,
    found: &[Finding<'_, A>],
) -> Result<(), AllocError>
    ensures { OnOk result (map lint_seen lints.new.items ≡ map lint_seen lints.old.items
        ++ findings_lints (macro_definition_shown defined.entry) (map finding_seen found.now)) }
{
    for one in found {
        push_finding(alloc, lints, defined, one)?;
    }
    Ok(())
}

// Adds the findings of a rule, and its repetitions without a variable that repeats there.
fn push_rule<A: Allocator + Copy>(
    alloc: A,
    lints: &mut Vec<Lint<A>, A>,
    defined: MacroDefinition<'_, A>,
    rule: &Rule<A>,
) -> Result<(), AllocError>
    ensures { OnOk result (map lint_seen lints.new.items ≡ map lint_seen lints.old.items
        ++ spec.rule_lints (macro_definition_shown defined.entry) (rule_of rule.now)) }
{
    let found = findings(alloc, &rule.lhs, &rule.rhs)?;
    push_findings(alloc, lints, defined, found.as_slice())?;
    let fixed = fixed_repetitions(alloc, &rule.lhs, &rule.rhs)?;
    push_all_fixed(alloc, lints, defined, fixed.as_slice())
}

fn push_rules<A: Allocator + Copy>(
    alloc: A,
    lints: &mut Vec<Lint<A>, A>,
    defined: MacroDefinition<'_, A>,
    rules: &[Rule<A>],
) -> Result<(), AllocError>
    ensures { OnOk result (map lint_seen lints.new.items ≡ map lint_seen lints.old.items
        ++ spec.rules_lints (macro_definition_shown defined.entry) (rules_seen rules.now)) }
{
    for rule in rules {
        push_rule(alloc, lints, defined, rule)?;
    }
    Ok(())
}

// Adds the lints of a parsed definition.
fn push_macro<A: Allocator + Copy>(
    alloc: A,
    lints: &mut Vec<Lint<A>, A>,
    defined: MacroDefinition<'_, A>,
    read: &ParsedMacro<A>,
) -> Result<(), AllocError>
    ensures { OnOk result (map lint_seen lints.new.items ≡ map lint_seen lints.old.items
        ++ macro_lints (macro_definition_shown defined.entry) (macro_read read.now)
        read.now.location) }
{
    push_refusal(alloc, lints, defined.name, read)?;
    push_empty(alloc, lints, defined.name, read)?;
    push_rules(alloc, lints, defined, read.rules.as_slice())?;
    let beyond = unreachable_rules(alloc, read.rules.as_slice())?;
    push_all_unreachable(alloc, lints, defined, beyond.as_slice())
}

// Parses a definition, and adds its lints.
fn push_definition<A: Allocator + Copy, E: Copy + Fn(SyntaxContext) -> Edition>(
    alloc: A,
    ctx_edition: E,
    lints: &mut Vec<Lint<A>, A>,
    defined: MacroDefinition<'_, A>,
) -> Result<(), AllocError>
    requires { MayAsk (E.pre ctx_edition) }
    ensures { OnOk result (IsLinted (E.post ctx_edition) (macro_definition_shown defined.entry)
        (map lint_seen lints.old.items) (map lint_seen lints.new.items)) }
{
    let read = read(alloc, ctx_edition, defined)?;
    push_macro(alloc, lints, defined, &read)
}

// Adds the lints of one definition after another.
fn push_definitions<A: Allocator + Copy, E: Copy + Fn(SyntaxContext) -> Edition>(
    alloc: A,
    ctx_edition: E,
    lints: &mut Vec<Lint<A>, A>,
    all: &[MacroDefinition<'_, A>],
) -> Result<(), AllocError>
    requires { MayAsk (E.pre ctx_edition) }
    ensures { OnOk result (AreLinted (E.post ctx_edition) (map macro_definition_shown all.now)
        (map lint_seen lints.old.items) (map lint_seen lints.new.items)) }
{
    for defined in all {
        push_definition(alloc, ctx_edition, lints, *defined)?;
    }
    Ok(())
}

/// Adds the lints of the definitions among these trees, in the order of the text. The lints of one
/// definition are, in this order:
///
/// 1. Why it is refused, if it is. The span is the token that can't be parsed, or the opening of
///    the repetition that can match nothing.
/// 2. Its lack of rules, if it has none and isn't refused.
/// 3. The findings of each rule up to the first fault, in the order of `findings`, and its
///    repetitions without a variable that repeats there.
/// 4. Which of these rules no call reaches.
///
/// The function `ctx_edition` returns the edition of a context; it decides what `pat` and `expr`
/// mean. `AllocError` if out of memory, or if groups and repetitions of a rule are nested too deep.
pub fn push_lints<A: Allocator + Copy, E: Copy + Fn(SyntaxContext) -> Edition>(
    alloc: A,
    ctx_edition: E,
    lints: &mut Vec<Lint<A>, A>,
    tokens: TokenTreesView<'_, A>,
) -> Result<(), AllocError>
    requires { MayAsk (E.pre ctx_edition) }
    ensures { OnOk result (AreLinted (E.post ctx_edition) (definitions_of 1001 (trees tokens.entry))
        (map lint_seen lints.old.items) (map lint_seen lints.new.items)) }
{
    let all = definitions(alloc, tokens)?;
    push_definitions(alloc, ctx_edition, lints, all.as_slice())
}
