// A choice (alternatives between `|`) of which the reader has read a part.
use crate::peg::peg_error::PegLocation;
use mbe_tt::span::Edition;
use mbe_tt::tt::DelimiterKind;

/// What a choice belongs to.
#[derive(Clone, Copy, Drop)]
pub enum ChoiceOpening {
    /// Nothing yet: the first rule is still to come.
    Nothing,
    /// The rule with this index.
    Rule(usize),
    /// The list of the keywords since this edition.
    Keywords(Edition),
    Parenthesis,
    Inside(DelimiterKind),
}

/// A lookahead: a test of the next item that consumes nothing.
#[derive(Clone, Copy, Drop)]
pub enum Lookahead {
    Positive,
    Negative,
}

/// A choice of which the reader has read a part. Rules in it are indices of nodes.
#[derive(Clone, Copy, Drop)]
pub struct PartialChoice {
    pub opening: ChoiceOpening,
    /// Where the choice begins.
    pub location: PegLocation,
    /// The alternatives before the current one.
    pub others: Option<usize>,
    /// The current alternative without its last item.
    pub sequence: Option<usize>,
    pub lookahead: Option<Lookahead>,
    pub item: Option<usize>,
}

impl PartialChoice {
    ghost use Rattle.std.specs.Prelude.{◌≡◌};
    ghost use Rattle.mbe_grammar.specs.Peg.Grammar.{new_partial_choice};

    /// A choice before its first item.
    pub fn new(opening: ChoiceOpening, location: PegLocation) -> PartialChoice
        ensures { result ≡ new_partial_choice opening location }
    {
        PartialChoice {
            opening,
            location,
            others: None,
            sequence: None,
            lookahead: None,
            item: None,
        }
    }
}
