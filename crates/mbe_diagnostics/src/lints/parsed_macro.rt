// Parses the rules of a macro definition. If it is refused, the error has a location: a rule and a
// token.
ghost use Rattle.std.specs.Prelude.{◌≡◌, IfOk, None, Some};
ghost use Rattle.mbe_tt.specs.Views.View.{trees};
ghost use Rattle.mbe_parser.specs.ParserResults.{mode_of};
ghost use Rattle.mbe_parser.specs.RuleViews.{rules_seen};
ghost use Rattle.mbe_parser.specs.Refusals.{refusal_of};
ghost use Rattle.mbe_semantics.specs.Expansion.ParsedMacro.{IsParsedRules, IsParsedMacro};
ghost use Rattle.mbe_rewriter.specs.MacroItems as fronts;
ghost use Rattle.mbe_rewriter.specs.MacroItemViews.{macro_definition_shown, definition_form_shown};
ghost use Rattle.mbe_semantics.specs.Laws.Callbacks.{MayAsk};
ghost use Rattle.mbe_diagnostics.specs.Lints.Linter.{IsReadIn};
ghost use Rattle.mbe_diagnostics.specs.Lints.ParsedMacroViews.{macro_read};
ghost use Rattle.mbe_diagnostics.specs.Lints.ErrorLocation.{RefusedAt, rules_location};
ghost use Rattle.mbe_diagnostics.specs.Lints.ErrorLocation.{part_location};

use crate::lints::error_location::ErrorLocation;
use crate::span_at::span_at;
use mbe_ops::errors::error::{ParseError, SyntaxFault};
use mbe_parser::parser::Mode;
use mbe_parser::refusal::{DefinitionRefusal, OneRuleFault, RulesFault};
use mbe_parser::rules::{Rule, parse_one_rule, parse_rules};
use mbe_rewriter::macro_items::{DefinitionForm, MacroDefinition};
use mbe_tt::span::{Edition, Span, SyntaxContext};
use mbe_tt::tt::{Subtree, TokenTreesView};
use std::alloc::{AllocError, Allocator, Global};

/// A parsed definition: the rules up to the first fault, why the definition is refused, and where.
/// Clauses see the first two by `macro_read`.
#[derive(Drop)]
pub struct ParsedMacro<A: Allocator = Global> {
    pub rules: Vec<Rule<A>, A>,
    pub err: Option<ParseError<A>>,
    /// The token that can't be parsed, or the opening of the repetition that can match nothing.
    /// `None` without an error.
    pub location: Option<ErrorLocation>,
}

// Returns the location of the first fault of the rules.
fn rules_location<A: Allocator>(
    rules: TokenTreesView<'_, A>,
    close: Span,
    found: RulesFault,
) -> ErrorLocation
    ensures { result ≡ rules_location close (trees rules.entry) found.rule found.offset }
{
    ErrorLocation {
        rule: found.rule,
        span: span_at(rules, close, found.offset),
    }
}

// Returns the location of the fault in a definition with a pattern.
fn part_location<A: Allocator>(
    pattern: TokenTreesView<'_, A>,
    pattern_close: Span,
    body: TokenTreesView<'_, A>,
    close: Span,
    found: OneRuleFault,
) -> ErrorLocation
    ensures { result ≡ part_location pattern_close (trees pattern.entry) close (trees body.entry)
        (mode_of found.part) found.offset }
{
    let span = match found.part {
        Mode::Pattern => span_at(pattern, pattern_close, found.offset),
        Mode::Template => span_at(body, close, found.offset),
    };
    ErrorLocation { rule: 0, span }
}

// Returns a refused definition with these rules.
fn refused<A: Allocator + Copy>(
    alloc: A,
    rules: Vec<Rule<A>, A>,
    why: DefinitionRefusal,
    location: ErrorLocation,
) -> Result<ParsedMacro<A>, AllocError>
    ensures read { IfOk result (λ m. macro_read m ≡ record {
      rules = rules_seen rules.items;
      err = Some (refusal_of why);
    }) }
    ensures location { IfOk result (λ m. m.location ≡ Some location) }
{
    let err = Some(why.error(alloc)?);
    let location = Some(location);
    Ok(ParsedMacro {
        rules,
        err,
        location,
    })
}

// Returns a definition that isn't refused, with these rules.
fn accepted<A: Allocator>(rules: Vec<Rule<A>, A>) -> ParsedMacro<A>
    ensures read { macro_read result ≡ record { rules = rules_seen rules.items; err = None } }
    ensures location { result.location ≡ None }
{
    ParsedMacro {
        rules,
        err: None,
        location: None,
    }
}

// Parses the rules of a `macro_rules!` definition. `close` is the closing delimiter of its body.
fn read_rules<A: Allocator + Copy, E: Copy + Fn(SyntaxContext) -> Edition>(
    alloc: A,
    ctx_edition: E,
    body: TokenTreesView<'_, A>,
    close: Span,
) -> Result<ParsedMacro<A>, AllocError>
    requires { MayAsk (E.pre ctx_edition) }
    ensures read { IfOk result (λ m. IsParsedRules (E.post ctx_edition) (trees body.entry)
        (macro_read m)) }
    ensures location { IfOk result (λ m. RefusedAt (E.post ctx_edition) close (trees body.entry)
        (macro_read m) fronts.Rules m.location) }
{
    let missing = SyntaxFault::ExpectedSemicolon;
    let (rules, found) = parse_rules(alloc, ctx_edition, body.iter(), &[';'], missing)?;
    let Some(found) = found else {
        return Ok(accepted(rules));
    };
    let location = rules_location(body, close, found);
    refused(alloc, rules, found.fault, location)
}

// Parses the rules of a `macro` definition. `close` is the closing delimiter of its body.
fn read_body<A: Allocator + Copy, E: Copy + Fn(SyntaxContext) -> Edition>(
    alloc: A,
    ctx_edition: E,
    body: TokenTreesView<'_, A>,
    close: Span,
) -> Result<ParsedMacro<A>, AllocError>
    requires { MayAsk (E.pre ctx_edition) }
    ensures read { IfOk result (λ m. IsParsedMacro (E.post ctx_edition) None (trees body.entry)
        (macro_read m)) }
    ensures location { IfOk result (λ m. RefusedAt (E.post ctx_edition) close (trees body.entry)
        (macro_read m) fronts.Body m.location) }
{
    let missing = SyntaxFault::ExpectedSeparator;
    let (rules, found) = parse_rules(alloc, ctx_edition, body.iter(), &[';', ','], missing)?;
    let Some(found) = found else {
        return Ok(accepted(rules));
    };
    let location = rules_location(body, close, found);
    refused(alloc, rules, found.fault, location)
}

// Parses the only rule of a `macro` definition with a pattern. `close` is the closing delimiter of
// its body.
fn read_one<A: Allocator + Copy, E: Copy + Fn(SyntaxContext) -> Edition>(
    alloc: A,
    ctx_edition: E,
    pattern: TokenTreesView<'_, A>,
    pattern_group: &Subtree,
    body: TokenTreesView<'_, A>,
    close: Span,
) -> Result<ParsedMacro<A>, AllocError>
    requires { MayAsk (E.pre ctx_edition) }
    ensures read { IfOk result (λ m. IsParsedMacro (E.post ctx_edition)
        (Some (trees pattern.entry)) (trees body.entry) (macro_read m)) }
    ensures location { IfOk result (λ m. RefusedAt (E.post ctx_edition) close (trees body.entry)
        (macro_read m) (fronts.Arguments pattern_group.now.delimiter (trees pattern.entry))
        m.location) }
{
    let (rules, found) = parse_one_rule(alloc, ctx_edition, pattern.iter(), body.iter())?;
    let Some(found) = found else {
        return Ok(accepted(rules));
    };
    let pattern_close = pattern_group.delimiter.close;
    let location = part_location(pattern, pattern_close, body, close, found);
    refused(alloc, rules, found.fault, location)
}

/// Parses a definition, as `mbe` does. The function `ctx_edition` returns the edition of a context;
/// it decides what `pat` and `expr` mean. `AllocError` if out of memory, or if groups and
/// repetitions of a rule are nested too deep.
pub fn read<A: Allocator + Copy, E: Copy + Fn(SyntaxContext) -> Edition>(
    alloc: A,
    ctx_edition: E,
    defined: MacroDefinition<'_, A>,
) -> Result<ParsedMacro<A>, AllocError>
    requires { MayAsk (E.pre ctx_edition) }
    ensures read { IfOk result (λ m. IsReadIn (E.post ctx_edition)
        (definition_form_shown defined.entry.form)
        (macro_definition_shown defined.entry) (macro_read m)) }
    ensures location { IfOk result (λ m. RefusedAt (E.post ctx_edition)
        (macro_definition_shown defined.entry).delimiter.close (macro_definition_shown defined.entry).rules
        (macro_read m) (definition_form_shown defined.entry.form) m.location) }
{
    let rules = defined.rules;
    let close = defined.group.delimiter.close;
    match defined.form {
        DefinitionForm::Rules => read_rules(alloc, ctx_edition, rules, close),
        DefinitionForm::Body => read_body(alloc, ctx_edition, rules, close),
        DefinitionForm::Arguments(group, pattern) => {
            read_one(alloc, ctx_edition, pattern, group, rules, close)
        }
    }
}
