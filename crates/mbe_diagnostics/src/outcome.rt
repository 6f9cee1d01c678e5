// The outcome of matching a call against one rule, and its message.
//
// An outcome has the verdict, the token of the call where the match stops, and the parts of the
// rule that are expected there. For an ambiguity it also has two parts by which the match could go
// on.
ghost use Rattle.std.specs.Prelude.{◌≡◌, ◌++◌, [], map, option_map, codes, IfOk, OnOk, Some};
ghost use Rattle.std.specs.String.{string_bytes};
ghost use Rattle.mbe_tt.specs.Views.View.{trees};
ghost use Rattle.mbe_semantics.specs.Readings.Verdict.{stop_of};
ghost use Rattle.mbe_matcher.specs.MatchResults.{verdict_seen};
ghost use Rattle.mbe_matcher.specs.Expected.{expected_seen, pair_seen};
ghost use Rattle.mbe_diagnostics.specs.SpanAt.{span_at};
ghost use Rattle.mbe_diagnostics.specs.Outcome as spec;
ghost use Rattle.mbe_diagnostics.specs.Outcome.{part_of, pair_of, part_seen, parts_seen};
ghost use Rattle.mbe_diagnostics.specs.Outcome.{outcome_seen};

use crate::rule_part::{RulePart, describe};
use crate::span_at::span_at;
use mbe_matcher::expectations::{Expectations, Expected};
use mbe_matcher::matcher::Verdict;
use mbe_tt::span::Span;
use mbe_tt::tt::TokenTreesView;
use std::alloc::{AllocError, Allocator, Global};

/// The outcome of matching a call against one rule. Clauses see it by `outcome_seen`.
#[derive(Drop)]
pub struct MatchOutcome<A: Allocator = Global> {
    pub verdict: Verdict,
    /// The token of the call where the match stops, or where two readings diverge. At the end of
    /// the call, this is its closing delimiter.
    pub span: Span,
    /// All that the rule expects there. A part may be in the list twice.
    pub expected: Vec<RulePart<A>, A>,
    /// For a local ambiguity, two parts by which the match could go on. For several readings, the
    /// two parts by which two of them go on where they diverge.
    pub ambiguity: Option<(RulePart<A>, RulePart<A>)>,
}

// Returns the token offset of a verdict, in an argument with these tokens. For a match, this is the
// end of the argument.
fn stop_offset<A: Allocator>(verdict: Verdict, tokens: TokenTreesView<'_, A>) -> usize
    ensures { result ≡ stop_of (trees tokens.entry) (verdict_seen verdict) }
{
    match verdict {
        Verdict::OneReading | Verdict::ManyReadings => tokens.flat_len(),
        Verdict::Ambiguous(offset) | Verdict::Stuck(offset) => offset,
    }
}

// Describes each of them as a part of its rule.
fn parts<A: Allocator + Copy>(
    alloc: A,
    expected: &[Expected<'_, A>],
) -> Result<Vec<RulePart<A>, A>, AllocError>
    ensures { IfOk result (λ v. map part_seen v.items
        ≡ map part_of (map expected_seen expected.now)) }
{
    let mut parts = Vec::new(alloc);
    for one in expected {
        parts.push(describe(alloc, *one)?)?;
    }
    Ok(parts)
}

fn pair<A: Allocator + Copy>(
    alloc: A,
    ambiguity: Option<(Expected<'_, A>, Expected<'_, A>)>,
) -> Result<Option<(RulePart<A>, RulePart<A>)>, AllocError>
    ensures { IfOk result (λ p. option_map parts_seen p
        ≡ option_map pair_of (option_map pair_seen ambiguity.entry)) }
{
    match ambiguity {
        None => Ok(None),
        Some((one, other)) => Ok(Some((describe(alloc, one)?, describe(alloc, other)?))),
    }
}

// Returns the outcome of a rule with these expectations, at an offset of the argument. `close` is
// the closing delimiter of the argument.
fn outcome_at<A: Allocator + Copy>(
    alloc: A,
    expectations: &Expectations<'_, A>,
    offset: usize,
    ambiguity: Option<(Expected<'_, A>, Expected<'_, A>)>,
    tokens: TokenTreesView<'_, A>,
    close: Span,
) -> Result<MatchOutcome<A>, AllocError>
    ensures verdict { IfOk result (λ s. s.verdict ≡ expectations.now.verdict) }
    ensures place { IfOk result (λ s. s.span ≡ span_at close (trees tokens.entry) offset) }
    ensures expected { IfOk result (λ s. map part_seen s.expected.items
        ≡ map part_of (map expected_seen expectations.now.expected.items)) }
    ensures ambiguity { IfOk result (λ s. option_map parts_seen s.ambiguity
        ≡ option_map pair_of (option_map pair_seen ambiguity.entry)) }
{
    Ok(MatchOutcome {
        verdict: expectations.verdict,
        span: span_at(tokens, close, offset),
        expected: parts(alloc, expectations.expected.as_slice())?,
        ambiguity: pair(alloc, ambiguity)?,
    })
}

/// Returns the outcome of a rule with several readings. Two of them first diverge at the offset
/// `offset`, and go on by the parts `two`. `close` is the closing delimiter of the argument.
/// `AllocError` if out of memory.
pub fn diverging_outcome<A: Allocator + Copy>(
    alloc: A,
    expectations: &Expectations<'_, A>,
    offset: usize,
    two: (Expected<'_, A>, Expected<'_, A>),
    tokens: TokenTreesView<'_, A>,
    close: Span,
) -> Result<MatchOutcome<A>, AllocError>
    ensures verdict { IfOk result (λ s. s.verdict ≡ expectations.now.verdict) }
    ensures place { IfOk result (λ s. s.span ≡ span_at close (trees tokens.entry) offset) }
    ensures expected { IfOk result (λ s. map part_seen s.expected.items
        ≡ map part_of (map expected_seen expectations.now.expected.items)) }
    ensures two { IfOk result (λ s. option_map parts_seen s.ambiguity
        ≡ Some (pair_of (pair_seen two.entry))) }
{
    outcome_at(alloc, expectations, offset, Some(two), tokens, close)
}

/// Returns the outcome of a rule with these expectations, at the offset of its verdict. `close` is
/// the closing delimiter of the argument. `AllocError` if out of memory.
pub fn match_outcome<A: Allocator + Copy>(
    alloc: A,
    expectations: &Expectations<'_, A>,
    tokens: TokenTreesView<'_, A>,
    close: Span,
) -> Result<MatchOutcome<A>, AllocError>
    ensures verdict { IfOk result (λ s. s.verdict ≡ expectations.now.verdict) }
    ensures place { IfOk result (λ s. s.span ≡ span_at close (trees tokens.entry)
        (stop_of (trees tokens.entry) (verdict_seen expectations.now.verdict))) }
    ensures expected { IfOk result (λ s. map part_seen s.expected.items
        ≡ map part_of (map expected_seen expectations.now.expected.items)) }
    ensures ambiguity { IfOk result (λ s. option_map parts_seen s.ambiguity
        ≡ option_map pair_of (option_map pair_seen expectations.now.ambiguity)) }
{
    let offset = stop_offset(expectations.verdict, tokens);
    outcome_at(
        alloc,
        expectations,
        offset,
        expectations.ambiguity,
        tokens,
        close,
    )
}

// Whether both parts have the same text, and begin at the same byte of the same file.
fn is_same<A: Allocator>(one: &RulePart<A>, other: &RulePart<A>) -> bool
    ensures { result ≡ spec.is_same_part (part_seen one.now) (part_seen other.now) }
{
    one.text.as_str() == other.text.as_str() && is_same_place(one.span, other.span)
}

fn is_same_place(one: Option<Span>, other: Option<Span>) -> bool
    ensures { result ≡ spec.is_same_place one other }
{
    match (one, other) {
        (None, None) => true,
        (Some(one), Some(other)) => one.file == other.file && one.start == other.start,
        (None, Some(_)) | (Some(_), None) => false,
    }
}

fn contains_part<A: Allocator>(kept: &[&RulePart<A>], part: &RulePart<A>) -> bool
    ensures { result ≡ spec.has_part (map (λ p. part_seen p.now) kept.now) (part_seen part.now) }
{
    match kept {
        [] => false,
        [first, rest @ ..] => is_same(first, part) || contains_part(rest, part),
    }
}

// Adds each of the parts that isn't in the list.
fn push_unique<'p, A: Allocator + Copy>(
    kept: &mut Vec<&'p RulePart<A>, A>,
    parts: &'p [RulePart<A>],
) -> Result<(), AllocError>
    ensures { OnOk result (map (λ p. part_seen p.now) kept.new.items
        ≡ spec.unique (map (λ p. part_seen p.now) kept.old.items) (map part_seen parts.now)) }
{
    match parts {
        [] => Ok(()),
        [first, rest @ ..] => {
            if !contains_part(kept.as_slice(), first) {
                kept.push(first)?;
            }
            push_unique(kept, rest)
        }
    }
}

// Returns the parts without duplicates.
fn unique<'p, A: Allocator + Copy>(
    alloc: A,
    parts: &'p [RulePart<A>],
) -> Result<Vec<&'p RulePart<A>, A>, AllocError>
    ensures { IfOk result (λ v. map (λ p. part_seen p.now) v.items
        ≡ spec.unique [] (map part_seen parts.now)) }
{
    let mut kept = Vec::new(alloc);
    push_unique(&mut kept, parts)?;
    Ok(kept)
}

// Writes the texts of the parts as a list: one; one or another; one, another or a third.
fn list<A: Allocator>(text: &mut String<A>, parts: &[&RulePart<A>]) -> Result<(), AllocError>
    ensures { OnOk result (string_bytes text.new
        ≡ string_bytes text.old ++ spec.listed (map (λ p. part_seen p.now) parts.now)) }
{
    match parts {
        [] => Ok(()),
        [last] => text.push_str(last.text.as_str()),
        [one, last] => {
            text.push_str(one.text.as_str())?;
            text.push_str(" or ")?;
            text.push_str(last.text.as_str())
        }
        [first, rest @ ..] => {
            text.push_str(first.text.as_str())?;
            text.push_str(", ")?;
            list(text, rest)
        }
    }
}

fn pair_text_by<A: Allocator>(
    alloc: A,
    are_same: bool,
    one: &str,
    other: &str,
) -> Result<String<A>, AllocError>
    ensures { IfOk result (λ text. string_bytes text
        ≡ spec.pair_text_by are_same one.now other.now) }
{
    match are_same {
        true => format!(in alloc; "{one} in two ways"),
        false => format!(in alloc; "{one} or {other}"),
    }
}

#[tactic(auto, unfolding(crate::specs::Outcome::pair_text))]
fn pair_text<A: Allocator + Copy>(
    alloc: A,
    one: &RulePart<A>,
    other: &RulePart<A>,
) -> Result<String<A>, AllocError>
    ensures { IfOk result (λ text. string_bytes text
        ≡ spec.pair_text (part_seen one.now, part_seen other.now)) }
{
    let are_same = is_same(one, other);
    pair_text_by(alloc, are_same, one.text.as_str(), other.text.as_str())
}

// Returns the texts of the parts as a list, without duplicates.
fn list_text<A: Allocator + Copy>(alloc: A, parts: &[RulePart<A>]) -> Result<String<A>, AllocError>
    ensures { IfOk result (λ text. string_bytes text
        ≡ spec.listed (spec.unique [] (map part_seen parts.now))) }
{
    let kept = unique(alloc, parts)?;
    let mut text = String::new(alloc);
    list(&mut text, kept.as_slice())?;
    Ok(text)
}

fn stuck_text<A: Allocator>(alloc: A, rule: &str, list: &str) -> Result<String<A>, AllocError>
    ensures { IfOk result (λ text. string_bytes text
        ≡ rule.now ++ (codes " stops here; expected " ++ list.now)) }
{
    format!(in alloc; "{rule} stops here; expected {list}")
}

fn ambiguous_text<A: Allocator>(
    alloc: A,
    rule: &str,
    ambiguity: &str,
) -> Result<String<A>, AllocError>
    ensures { IfOk result (λ text. string_bytes text
        ≡ rule.now ++ (codes " is ambiguous here: it can continue with " ++ ambiguity.now)) }
{
    format!(in alloc; "{rule} is ambiguous here: it can continue with {ambiguity}")
}

fn diverging_text<A: Allocator>(alloc: A, rule: &str, both: &str) -> Result<String<A>, AllocError>
    ensures { IfOk result (λ text. string_bytes text ≡ rule.now
        ++ (codes " matches the call in several ways: here it can continue with " ++ both.now)) }
{
    format!(in alloc; "{rule} matches the call in several ways: here it can continue with {both}")
}

/// Returns the message of an outcome. The text `rule` names the rule in it. `AllocError` if out of
/// memory.
pub fn message<A: Allocator + Copy>(
    alloc: A,
    rule: &str,
    outcome: &MatchOutcome<A>,
) -> Result<String<A>, AllocError>
    ensures { IfOk result (λ text. string_bytes text
        ≡ spec.message_text rule.now (outcome_seen outcome.now)) }
{
    match (outcome.verdict, &outcome.ambiguity) {
        (Verdict::OneReading, _) => format!(in alloc; "{rule} matches"),
        (Verdict::ManyReadings, None) => {
            format!(in alloc; "{rule} matches the call in several ways")
        }
        (Verdict::ManyReadings, Some((one, other))) => {
            let both = pair_text(alloc, one, other)?;
            diverging_text(alloc, rule, both.as_str())
        }
        (Verdict::Ambiguous(_), None) => format!(in alloc; "{rule} is ambiguous here"),
        (Verdict::Ambiguous(_), Some((one, other))) => {
            let ambiguity = pair_text(alloc, one, other)?;
            ambiguous_text(alloc, rule, ambiguity.as_str())
        }
        (Verdict::Stuck(_), _) => {
            let list = list_text(alloc, outcome.expected.as_slice())?;
            stuck_text(alloc, rule, list.as_str())
        }
    }
}

// Returns both parts, or only one if they are the same.
fn unique_pair<'p, A: Allocator + Copy>(
    alloc: A,
    one: &'p RulePart<A>,
    other: &'p RulePart<A>,
) -> Result<Vec<&'p RulePart<A>, A>, AllocError>
    ensures { IfOk result (λ v. map (λ p. part_seen p.now) v.items
        ≡ spec.unique_pair (part_seen one.now, part_seen other.now)) }
{
    let mut kept = Vec::new(alloc);
    kept.push(one)?;
    if !is_same(one, other) {
        kept.push(other)?;
    }
    Ok(kept)
}

/// Returns the parts of the rule that the message names, without duplicates. `AllocError` if out of
/// memory.
pub fn message_parts<'p, A: Allocator + Copy>(
    alloc: A,
    outcome: &'p MatchOutcome<A>,
) -> Result<Vec<&'p RulePart<A>, A>, AllocError>
    ensures { IfOk result (λ v. map (λ p. part_seen p.now) v.items
        ≡ spec.named_parts (outcome_seen outcome.now)) }
{
    match (outcome.verdict, &outcome.ambiguity) {
        (Verdict::OneReading, _) => Ok(Vec::new(alloc)),
        (Verdict::ManyReadings, None) => Ok(Vec::new(alloc)),
        (Verdict::ManyReadings, Some((one, other))) => unique_pair(alloc, one, other),
        (Verdict::Ambiguous(_), None) => Ok(Vec::new(alloc)),
        (Verdict::Ambiguous(_), Some((one, other))) => unique_pair(alloc, one, other),
        (Verdict::Stuck(_), _) => unique(alloc, outcome.expected.as_slice()),
    }
}
