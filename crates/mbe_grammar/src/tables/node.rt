// The rules of a grammar, as data. The specification of what each rule consumes is in
// `specs/Tables/Rule` and `specs/Tables/Terminals`.
use mbe_tt::fragment_group::FragmentGroup;
use mbe_tt::span::Edition;
use mbe_tt::tt::DelimiterKind;

/// A test of the trees at the front that names no other rule. Texts of words are without `r#`.
/// Texts of operators are ASCII, such as `->`.
#[derive(Clone, Copy, Debug, Drop, PartialEq, Eq)]
pub enum Terminal<'g> {
    /// An identifier with this text that isn't raw.
    Word(&'g str),
    /// An identifier with one of these texts that isn't raw.
    Words(&'g [&'g str]),
    /// An operator with this text: puncts that join.
    Operator(&'g str),
    /// An operator with one of these texts.
    Operators(&'g [&'g str]),
    /// One punct, even if it is the first of an operator: `<` also matches at `<<`.
    Sign(char),
    /// A group of one of these kinds, with any content.
    Group(&'g [DelimiterKind]),
    /// The group of a fragment that holds one of these, with any content.
    Fragment(&'g [FragmentGroup]),
    /// An identifier other than `_` that is raw, or isn't a keyword in the edition of its span.
    Name,
    /// Any identifier, `_` and keywords included.
    Identifier,
    /// A literal. `true` and `false` are identifiers.
    Literal,
    /// A number that ends with a `.`, such as `0.`: in Rust, the index of a field and the point
    /// before the next field.
    Pointed,
    /// Any tree.
    Any,
    /// Consumes nothing. Matches at the end.
    End,
    /// Consumes nothing. Matches if the next tree begins with a span of this edition or a later
    /// one.
    Since(Edition),
}

/// A rule of a parsing expression grammar over whole trees. A number is the index of a rule in the
/// table. An index beyond the end of the table faults.
#[derive(Clone, Copy, Debug, Drop, PartialEq, Eq)]
pub enum Node<'g> {
    /// This terminal.
    Terminal(Terminal<'g>),
    /// A group of this kind whose whole content matches the rule.
    Inside(DelimiterKind, usize),
    /// The rule with this index.
    Part(usize),
    /// The first rule, and after it the second.
    Then(usize, usize),
    /// The first rule, or the second if the first doesn't match.
    Or(usize, usize),
    /// The rule, or nothing if it doesn't match.
    Maybe(usize),
    /// The rule as often as it matches.
    Repeated(usize),
    /// The rule. Faults if it doesn't match, and no alternative is tried then.
    Needed(usize),
    /// Consumes nothing. Matches if the rule matches.
    Ahead(usize),
    /// Consumes nothing. Matches if the rule doesn't match.
    NotAhead(usize),
}

/// A keyword, and the first edition that has it. In that edition and later ones, an identifier with
/// this text is a name only if it is raw.
#[derive(Clone, Copy, Debug, Drop, PartialEq, Eq)]
pub struct Keyword<'g> {
    pub text: &'g str,
    pub since: Edition,
}
