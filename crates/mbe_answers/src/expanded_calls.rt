// What the rules of a crate do with its calls, as plain data.
//
// The data has the rule that expands each call, and the role that each token of an argument has in
// that rule. It also has the origin of each token of an expansion.
use crate::findings::{DefinitionSite, Extent};
use std::alloc::Global;

/// The rule that expands a call, by the span of its definition.
#[derive(Clone, Copy, Drop)]
pub struct AppliedRule {
    /// The number of the definition's file.
    pub file: usize,
    /// The byte at which the name of the definition starts.
    pub name_start: usize,
    /// The index of the rule.
    pub rule: usize,
}

/// What a token of a call's argument is to the rule that expands the call.
#[derive(Clone, Copy, Drop)]
pub enum TokenRole {
    /// The pattern has the token itself.
    Literal,
    /// The token is a whole identifier, expression or pattern.
    Name,
    /// The token is in a type or in a path.
    Type,
    Lifetime,
    Visibility,
    /// The token is in the content of an attribute.
    Attribute,
    /// The token is in another fragment.
    Other,
}

/// A token of a call's argument.
#[derive(Clone, Copy, Drop)]
pub struct ArgumentToken {
    /// The number of the file.
    pub file: usize,
    pub extent: Extent,
    pub role: TokenRole,
}

/// Where a token of an expansion is from.
#[derive(Clone, Copy, Drop)]
pub struct TokenOrigin {
    /// The number of the file.
    pub file: usize,
    pub extent: Extent,
}

/// What the rules of a crate do with its calls.
#[derive(Drop)]
pub struct ExpandedCalls {
    /// The rules of all calls that are expanded, also of the calls in expansions.
    pub rules: Vec<AppliedRule>,
    /// The tokens of the arguments of calls in files, without brackets.
    pub tokens: Vec<ArgumentToken>,
    /// The tokens of the expansion of the call that was asked for, in order, without brackets.
    pub origins: Vec<TokenOrigin>,
}

impl ExpandedCalls {
    /// Returns what rules do without a call.
    pub fn new(alloc: Global) -> ExpandedCalls {
        ExpandedCalls {
            rules: Vec::new(alloc),
            tokens: Vec::new(alloc),
            origins: Vec::new(alloc),
        }
    }

    /// Returns how many calls a rule of a definition expands.
    pub(crate) fn count_of(&self, defined: &DefinitionSite, rule: usize) -> usize {
        self.rules
            .iter()
            .filter(|it| it.file == defined.file
                && it.name_start == defined.name_at.start
                && it.rule == rule)
            .count()
    }
}
