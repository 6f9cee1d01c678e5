// The parser of rules. A rule is an optional `unsafe`, an optional `attr` or `derive` with a group,
// the pattern's group, `=>`, and the template's group. Parsing stops at the first fault and keeps
// the rules before it.
ghost use Rattle.std.specs.Prelude.{◌≡◌, ◌<◌, ◌≤◌, ◌+◌, IfOk, IfErr, IfSome, OnOk, OnErr, is_ok};
ghost use Rattle.std.specs.Prelude.{if◌then◌else◌, option_map};
ghost use Rattle.mbe_tt.specs.Trees.Tree.{flat_len, rest_of};
ghost use Rattle.mbe_semantics.specs.Syntax.Definition.{rule_trees_at, pattern_at};
ghost use Rattle.mbe_semantics.specs.declared.macro_call_style.MacroCallStyle.{MacroCallStyle as SpecStyle};
ghost use Rattle.mbe_semantics.specs.Laws.Callbacks.{MayAsk};
ghost use Rattle.mbe_ops.specs.Errors.ErrorViews.{fault_of};
ghost use Rattle.mbe_parser.specs.ParserResults.{mode_of};
ghost use Rattle.mbe_parser.specs.RuleResults.{begins_with_ident, IsStyled, AreRuleTrees};
ghost use Rattle.mbe_parser.specs.RuleResults.{ReadsRule, IsRule};
ghost use Rattle.mbe_parser.specs.RuleStops.{stop_at_pattern, stop_in_rule};
ghost use Rattle.mbe_parser.specs.RuleViews.{rule_of, rules_seen};
ghost use Rattle.mbe_parser.specs.LocatedErrors.{FailsAt};
ghost use Rattle.mbe_parser.specs.FaultOffsets.{RuleFaultAt};
ghost use Rattle.mbe_parser.specs.RefusedRepetitions.{RefusedAt, OneRefusedAt, IsRuleEmpty};
ghost use Rattle.mbe_parser.specs.Refusals.{refusal_of, AreRefused, IsOneRefused};

use crate::empty_repetition::shift_offset;
use crate::located_fault::{LocatedError, LocatedFault};
use crate::parser::{Mode, parse_template};
use crate::refusal::{OneRuleFault, RulesFault, empty_in_pattern, first_of, refused};
use mbe_ops::errors::error::SyntaxFault;
use mbe_ops::ops::MetaTemplate;
use mbe_semantics::macro_call_style::MacroCallStyle;
use mbe_tt::span::{Edition, SyntaxContext};
use mbe_tt::tt::{Leaf, TtElement, TtIter};
use std::alloc::{AllocError, Allocator, Global};

/// A rule of a definition: its style, its pattern (`lhs`) and its template (`rhs`).
#[derive(Drop)]
#[derive_where(Debug)]
pub struct Rule<A: Allocator = Global> {
    pub style: MacroCallStyle,
    pub lhs: MetaTemplate<A>,
    pub rhs: MetaTemplate<A>,
}

/// Parses rules, which the chars separate, up to the first fault. Returns the rules and why they
/// are refused, if they are: for the first refused repetition of their patterns, or else for the
/// fault. `missing` is the fault of a missing separator. `AllocError` if out of memory, and beyond
/// `crate::parser::NESTING_LIMIT`.
pub fn parse_rules<A: Allocator + Copy, E: Copy + Fn(SyntaxContext) -> Edition>(
    alloc: A,
    ctx_edition: E,
    src: TtIter<'_, A>,
    separators: &[char],
    missing: SyntaxFault,
) -> Result<(Vec<Rule<A>, A>, Option<RulesFault>), AllocError>
    requires { MayAsk (E.pre ctx_edition) }
    ensures rules { IfOk result (λ r. AreRefused (E.post ctx_edition) separators.now
        (fault_of missing) src.entry (rules_seen r.0.items)
        (option_map (λ x. refusal_of x.fault) r.1)) }
    ensures offset { IfOk result (λ r. IfSome r.1 (λ x. RefusedAt (E.post ctx_edition)
        separators.now (fault_of missing) src.entry (refusal_of x.fault) x.rule x.offset)) }
{
    let whole = src.remaining().flat_len();
    let mut src = src;
    let mut rules = Vec::new(alloc);
    let mut empty = None;
    'rules: while !src.is_empty() {
        let before = whole - src.remaining().flat_len();
        match parse_rule(alloc, ctx_edition, &mut src) {
            Ok((rule, offset)) => {
                empty = first_of(empty, offset, rules.len(), before);
                rules.push(rule)?;
            }
            Err(error) => {
                let found = error.shifted(before).fault()?;
                let fault = RulesFault::new(found.fault, rules.len(), found.offset);
                return Ok((rules, refused(empty, fault)));
            }
        }
        let Ok(()) = src.expect_any_char(separators) else {
            if src.is_empty() {
                return Ok((rules, empty));
            }
            let before = whole - src.remaining().flat_len();
            let fault = RulesFault::new(missing, rules.len(), before);
            return Ok((rules, refused(empty, fault)));
        };
    }
    Ok((rules, empty))
}

/// Parses the rule of a `macro` with arguments. Returns the rule, if it has no fault, and why it is
/// refused. `AllocError` as for `parse_rules`.
pub fn parse_one_rule<A: Allocator + Copy, E: Copy + Fn(SyntaxContext) -> Edition>(
    alloc: A,
    ctx_edition: E,
    arguments: TtIter<'_, A>,
    body: TtIter<'_, A>,
) -> Result<(Vec<Rule<A>, A>, Option<OneRuleFault>), AllocError>
    requires { MayAsk (E.pre ctx_edition) }
    ensures rule { IfOk result (λ r. IsOneRefused (E.post ctx_edition) arguments.entry body.entry
        (rules_seen r.0.items) (option_map (λ x. refusal_of x.fault) r.1)) }
    ensures offset { IfOk result (λ r. IfSome r.1 (λ x. OneRefusedAt (E.post ctx_edition)
        arguments.entry body.entry (refusal_of x.fault) (mode_of x.part) x.offset)) }
{
    let mut rules = Vec::new(alloc);
    let reads = match parse_template(alloc, ctx_edition, arguments, Mode::Pattern) {
        Ok(parsed) => parsed,
        Err(error) => {
            let found = error.fault()?;
            return Ok((rules, Some(found.within(Mode::Pattern))));
        }
    };
    match parse_template(alloc, ctx_edition, body, Mode::Template) {
        Ok(writes) => {
            let empty = empty_in_pattern(reads.empty);
            rules.push(Rule {
                style: MacroCallStyle::FnLike,
                lhs: reads.ops,
                rhs: writes.ops,
            })?;
            Ok((rules, empty))
        }
        Err(error) => {
            let found = error.fault()?;
            Ok((rules, Some(found.within(Mode::Template))))
        }
    }
}

// Parses the rule at the front. Returns the rule with the offset of its first refused repetition,
// or its first fault.
fn parse_rule<A: Allocator + Copy, E: Copy + Fn(SyntaxContext) -> Edition>(
    alloc: A,
    ctx_edition: E,
    src: &mut TtIter<'_, A>,
) -> Result<(Rule<A>, Option<usize>), LocatedError>
    requires { MayAsk (E.pre ctx_edition) }
    ensures rule { IfOk result (λ x. ReadsRule (E.post ctx_edition)
        src.old (rule_of x.0) src.new) }
    ensures empty { IfOk result (λ x. IsRuleEmpty (E.post ctx_edition)
        src.old (rule_of x.0) x.1) }
    ensures within_empty { IfOk result (λ x. IfSome x.1 (λ n. n ≤ flat_len src.old)) }
    ensures fault { IfErr result (λ e. FailsAt e (λ f n. RuleFaultAt (E.post ctx_edition)
        f src.old n)) }
    ensures within { IfErr result (λ e. FailsAt e (λ f n. n ≤ flat_len src.old)) }
    ensures shorter { OnOk result (flat_len src.new < flat_len src.old) }
{
    let whole = src.remaining().flat_len();
    let (style, pattern, template) = match rule_trees(src) {
        Ok(parts) => parts,
        Err(fault) => {
            let offset = whole - src.remaining().flat_len();
            return Err(LocatedError::Fault(LocatedFault { fault, offset }));
        }
    };
    let passed = whole - src.remaining().flat_len();
    let in_template = passed - (template.remaining().flat_len() + 1);
    let in_pattern = in_template - (pattern.remaining().flat_len() + 4);
    let reads = match parse_template(alloc, ctx_edition, pattern, Mode::Pattern) {
        Ok(parsed) => parsed,
        Err(error) => return Err(error.shifted(in_pattern)),
    };
    match parse_template(alloc, ctx_edition, template, Mode::Template) {
        Ok(writes) => {
            let empty = shift_offset(reads.empty, in_pattern);
            let (lhs, rhs) = (reads.ops, writes.ops);
            Ok((Rule { style, lhs, rhs }, empty))
        }
        Err(error) => Err(error.shifted(in_template)),
    }
}

// Returns the style of the rule at the front, and the trees of its pattern and of its template. A
// token that is refused isn't consumed.
fn rule_trees<'a, A: Allocator>(
    src: &mut TtIter<'a, A>,
) -> Result<(MacroCallStyle, TtIter<'a, A>, TtIter<'a, A>), SyntaxFault>
    ensures trees { IsRule result (rule_trees_at src.old) src.new }
    ensures stop { OnErr result (stop_in_rule src.old ≡ src.new) }
    ensures shorter { flat_len src.new ≤ flat_len src.old }
    ensures room { IfOk result (λ g. 6 + flat_len g.1 + flat_len g.2 + flat_len src.new
        ≤ flat_len src.old) }
{
    let style = match parse_rule_style(src) {
        Ok(style) => style,
        Err(fault) => return Err(fault),
    };
    match eat_rule_groups(src) {
        Ok((pattern, template)) => Ok((style, pattern, template)),
        Err(fault) => Err(fault),
    }
}

// Consumes the style of a rule. `attr` or `derive` has a group after it. A rule without one of them
// is for function-like calls. `unsafe` may stand before. A token that is refused isn't consumed.
fn parse_rule_style<A: Allocator>(src: &mut TtIter<'_, A>) -> Result<MacroCallStyle, SyntaxFault>
    ensures style { IsStyled result (rule_trees_at src.old) src.new }
    ensures stop { stop_in_rule src.old ≡ (if is_ok result then stop_at_pattern src.new
        else src.new) }
    ensures shorter { flat_len src.new ≤ flat_len src.old }
{
    let _unsafe = eat_ident(src, "unsafe");
    let style = if eat_ident(src, "attr") {
        MacroCallStyle::Attr
    } else if eat_ident(src, "derive") {
        MacroCallStyle::Derive
    } else {
        return Ok(MacroCallStyle::FnLike);
    };
    let Ok(_arguments) = src.expect_subtree() else {
        return Err(SyntaxFault::ExpectedParentheses);
    };
    Ok(style)
}

// Consumes the identifier of this text, raw or not, if it is the next tree.
fn eat_ident<A: Allocator>(src: &mut TtIter<'_, A>, word: &str) -> bool
    ensures value { result ≡ begins_with_ident word.now src.old }
    ensures rest { src.new ≡ (if result then rest_of src.old else src.old) }
    ensures shorter { flat_len src.new ≤ flat_len src.old }
{
    if let Some(TtElement::Leaf(Leaf::Ident(ident))) = src.peek()
        && ident.sym.as_str() == word
    {
        let _passed = src.next();
        return true;
    }
    false
}

// Consumes a rule's groups and `=>`. Returns the trees of the pattern and of the template. A token
// that is refused isn't consumed.
fn eat_rule_groups<'a, A: Allocator>(
    src: &mut TtIter<'a, A>,
) -> Result<(TtIter<'a, A>, TtIter<'a, A>), SyntaxFault>
    ensures trees { (style : SpecStyle)
        → AreRuleTrees style result (pattern_at style src.old) src.new }
    ensures stop { OnErr result (stop_at_pattern src.old ≡ src.new) }
    ensures shorter { flat_len src.new ≤ flat_len src.old }
    ensures room { IfOk result (λ p. 6 + flat_len p.0 + flat_len p.1 + flat_len src.new
        ≤ flat_len src.old) }
{
    let Ok((_subtree, pattern)) = src.expect_subtree() else {
        return Err(SyntaxFault::ExpectedSubtree);
    };
    let Ok(()) = src.expect_char('=') else {
        return Err(SyntaxFault::ExpectedEquals);
    };
    let Ok(()) = src.expect_char('>') else {
        return Err(SyntaxFault::ExpectedGreater);
    };
    let Ok((_subtree, template)) = src.expect_subtree() else {
        return Err(SyntaxFault::ExpectedSubtree);
    };
    Ok((pattern, template))
}
