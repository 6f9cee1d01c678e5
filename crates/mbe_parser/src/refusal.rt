// Why a definition is refused, and where.
ghost use Rattle.std.specs.Prelude.{◌≡◌, ◌+◌, ◌<◌, ◌^◌, option_map, IfOk, IfSome};
ghost use Rattle.mbe_ops.specs.Errors.ErrorViews.{parse_error_of};
ghost use Rattle.mbe_parser.specs.Refusals.{refusal_of, first_of, refused, empty_in_pattern};
ghost use Rattle.mbe_parser.specs.declared.refusal.DefinitionRefusal.TheVariants as refusal;

use crate::located_fault::LocatedFault;
use crate::parser::Mode;
use mbe_ops::errors::error::{ParseError, SyntaxFault};
use std::alloc::{AllocError, Allocator};

/// Why a definition is refused. Clauses see it by `refusal_of`.
#[derive(Clone, Copy)]
pub enum DefinitionRefusal {
    /// A token isn't allowed here, or another one is expected.
    Syntax(SyntaxFault),
    /// A repetition of a pattern has no separator, and its body can match no token.
    EmptyRepetition,
}

/// Why a definition is refused, and where.
#[derive(Clone, Copy)]
pub struct RulesFault {
    pub fault: DefinitionRefusal,
    /// The number of rules before the refused one.
    pub rule: usize,
    /// The offset: the number of flat tokens before the token that is refused, or before the group
    /// of the refused repetition.
    pub offset: usize,
}

/// Why the one rule of a `macro` with arguments is refused, and where.
#[derive(Clone, Copy)]
pub struct OneRuleFault {
    pub fault: DefinitionRefusal,
    /// The part that is refused: the arguments, which are the pattern, or the body.
    pub part: Mode,
    /// The offset in that part: the number of flat tokens before the token that is refused, or
    /// before the group of the refused repetition.
    pub offset: usize,
}

impl DefinitionRefusal {
    /// Returns the error that reports it, with a text in memory of `alloc`. `AllocError` if out of
    /// memory.
    pub fn error<A: Allocator + Copy>(self, alloc: A) -> Result<ParseError<A>, AllocError>
        ensures { IfOk result (λ e. parse_error_of e ≡ refusal_of self) }
    {
        match self {
            DefinitionRefusal::Syntax(fault) => ParseError::from_fault(alloc, fault),
            DefinitionRefusal::EmptyRepetition => Ok(ParseError::RepetitionEmptyTokenTree),
        }
    }
}

impl RulesFault {
    // Makes the refusal for a fault.
    pub(crate) fn new(fault: SyntaxFault, rule: usize, offset: usize) -> RulesFault
        ensures fault { result.fault ≡ refusal.Syntax fault }
        ensures rule { result.rule ≡ rule }
        ensures offset { result.offset ≡ offset }
    {
        let fault = DefinitionRefusal::Syntax(fault);
        RulesFault {
            fault,
            rule,
            offset,
        }
    }
}

/// Returns why rules are refused, without the offset.
pub fn why_refused(found: Option<RulesFault>) -> Option<DefinitionRefusal>
    ensures { option_map refusal_of result ≡ option_map (λ x. refusal_of x.fault) found }
{
    Some(found?.fault)
}

/// Returns why the one rule of a `macro` is refused, without the offset.
pub fn why_one_refused(found: Option<OneRuleFault>) -> Option<DefinitionRefusal>
    ensures { option_map refusal_of result ≡ option_map (λ x. refusal_of x.fault) found }
{
    Some(found?.fault)
}

// Keeps the first refused repetition of a definition. The rule with this number has one at `offset`
// of its trees, or none.
pub(crate) fn first_of(
    first: Option<RulesFault>,
    offset: Option<usize>,
    rule: usize,
    before: usize,
) -> Option<RulesFault>
    requires { IfSome offset (λ n. before + n < 2 ^ 64) }
    ensures { result ≡ first_of first offset rule before }
{
    if first.is_some() {
        return first;
    }
    let offset = offset?;
    Some(RulesFault {
        fault: DefinitionRefusal::EmptyRepetition,
        rule,
        offset: before + offset,
    })
}

// Returns the refused repetition if there is one, and else the fault.
pub(crate) fn refused(empty: Option<RulesFault>, fault: RulesFault) -> Option<RulesFault>
    ensures { result ≡ refused empty fault }
{
    match empty {
        Some(empty) => Some(empty),
        None => Some(fault),
    }
}

// Makes the refusal of a repetition in the pattern of the one rule.
pub(crate) fn empty_in_pattern(offset: Option<usize>) -> Option<OneRuleFault>
    ensures { result ≡ empty_in_pattern offset }
{
    let offset = offset?;
    Some(OneRuleFault {
        fault: DefinitionRefusal::EmptyRepetition,
        part: Mode::Pattern,
        offset,
    })
}

impl LocatedFault {
    // Makes the refusal of that part of the one rule.
    pub(crate) fn within(self, part: Mode) -> OneRuleFault
        ensures fault { result.fault ≡ refusal.Syntax self.fault }
        ensures part { result.part ≡ part }
        ensures offset { result.offset ≡ self.offset }
    {
        OneRuleFault {
            fault: DefinitionRefusal::Syntax(self.fault),
            part,
            offset: self.offset,
        }
    }
}
