// The kinds of fragments and the kinds of repetitions. Each kind of fragment has a specifier, a
// parser, a default for when it is missing, and a set of tokens that may follow it in a pattern. A
// new specifier is one more arm in each of these functions.
ghost use Rattle.std.specs.Prelude.{◌≡◌};
ghost use Rattle.mbe_semantics.specs.Fragments.Kinds as spec;
ghost use Rattle.mbe_semantics.specs.Fragments.Kinds.{facts};

use mbe_tt::grammar::PrefixEntryPoint;

/// Which expressions a variable matches: by the rules of edition 2024, or by the older rules.
#[derive(Clone, Copy, Debug, Drop, PartialEq, Eq)]
pub enum ExprKind {
    Expr,
    Expr2021,
}

/// The kind of fragment that a variable matches.
#[derive(Clone, Copy, Debug, Drop, PartialEq, Eq)]
pub enum MetaVarKind {
    Path,
    Ty,
    Pat,
    PatParam,
    Stmt,
    Block,
    Meta,
    Item,
    Vis,
    Expr(ExprKind),
    Ident,
    Tt,
    Lifetime,
    Literal,
}

/// What parses a fragment at the front of trees: the grammar, or the expander itself.
#[derive(Clone, Copy, Debug, Drop, PartialEq, Eq)]
pub enum FragmentParser {
    Grammar(PrefixEntryPoint),
    Identifier,
    Lifetime,
    /// A lifetime, puncts that join into one operator, or any other single tree.
    Tree,
    Literal,
}

/// What the expansion has in place of a variable that a failed match left unbound (rust-analyzer's
/// defaults).
#[derive(Clone, Copy, Debug, Drop, PartialEq, Eq)]
pub enum Missing {
    Nothing,
    Semicolon,
    Braces,
    /// `'missing`.
    Lifetime,
    /// `missing`.
    Identifier,
}

/// What may follow a fragment in a pattern, by the Rust Reference's "Follow-set Ambiguity
/// Restrictions".
#[derive(Clone, Copy, Debug, Drop, PartialEq, Eq)]
pub enum FollowSet {
    Anything,
    AfterExpression,
    AfterPattern,
    AfterAlternative,
    AfterType,
    AfterVisibility,
}

impl MetaVarKind {
    /// The kind of a specifier, where it is the same in every edition. Returns `None` for `expr`
    /// and `pat`, which depend on the edition, and for an unknown specifier.
    pub fn from_specifier(specifier: &str) -> Option<MetaVarKind>
        ensures { result ≡ spec.kind_named spec.kind_names specifier.now }
    {
        // The most frequent specifiers come first: each text is one more comparison for those after
        // it.
        Some(match specifier {
            "ident" => MetaVarKind::Ident,
            "tt" => MetaVarKind::Tt,
            "ty" => MetaVarKind::Ty,
            "literal" => MetaVarKind::Literal,
            "path" => MetaVarKind::Path,
            "pat_param" => MetaVarKind::PatParam,
            "stmt" => MetaVarKind::Stmt,
            "block" => MetaVarKind::Block,
            "meta" => MetaVarKind::Meta,
            "item" => MetaVarKind::Item,
            "vis" => MetaVarKind::Vis,
            "expr_2021" => MetaVarKind::Expr(ExprKind::Expr2021),
            "lifetime" => MetaVarKind::Lifetime,
            _ => return None,
        })
    }

    /// The specifier of the kind, such as `expr`. Both kinds of expressions have the specifier
    /// `expr`: the kind doesn't record whether the rule says `expr` or `expr_2021`.
    pub fn specifier(self) -> &'static str
        ensures { result.now ≡ (facts self).specifier }
    {
        match self {
            MetaVarKind::Path => "path",
            MetaVarKind::Ty => "ty",
            MetaVarKind::Pat => "pat",
            MetaVarKind::PatParam => "pat_param",
            MetaVarKind::Stmt => "stmt",
            MetaVarKind::Block => "block",
            MetaVarKind::Meta => "meta",
            MetaVarKind::Item => "item",
            MetaVarKind::Vis => "vis",
            MetaVarKind::Expr(_) => "expr",
            MetaVarKind::Ident => "ident",
            MetaVarKind::Tt => "tt",
            MetaVarKind::Lifetime => "lifetime",
            MetaVarKind::Literal => "literal",
        }
    }

    /// What parses a fragment of this kind at the front of trees.
    #[inline]
    pub fn fragment_parser(self) -> FragmentParser
        ensures { result ≡ (facts self).fragment_parser }
    {
        match self {
            MetaVarKind::Path => FragmentParser::Grammar(PrefixEntryPoint::Path),
            MetaVarKind::Ty => FragmentParser::Grammar(PrefixEntryPoint::Ty),
            MetaVarKind::Pat => FragmentParser::Grammar(PrefixEntryPoint::PatTop),
            MetaVarKind::PatParam => FragmentParser::Grammar(PrefixEntryPoint::Pat),
            MetaVarKind::Stmt => FragmentParser::Grammar(PrefixEntryPoint::Stmt),
            MetaVarKind::Block => FragmentParser::Grammar(PrefixEntryPoint::Block),
            MetaVarKind::Meta => FragmentParser::Grammar(PrefixEntryPoint::MetaItem),
            MetaVarKind::Item => FragmentParser::Grammar(PrefixEntryPoint::Item),
            MetaVarKind::Vis => FragmentParser::Grammar(PrefixEntryPoint::Vis),
            MetaVarKind::Expr(_) => FragmentParser::Grammar(PrefixEntryPoint::Expr),
            MetaVarKind::Ident => FragmentParser::Identifier,
            MetaVarKind::Tt => FragmentParser::Tree,
            MetaVarKind::Lifetime => FragmentParser::Lifetime,
            MetaVarKind::Literal => FragmentParser::Literal,
        }
    }

    /// What the expansion has in place of a missing fragment of this kind.
    pub fn missing(self) -> Missing
        ensures { result ≡ (facts self).missing }
    {
        match self {
            MetaVarKind::Meta | MetaVarKind::Item | MetaVarKind::Tt | MetaVarKind::Vis => {
                Missing::Nothing
            }
            MetaVarKind::Stmt => Missing::Semicolon,
            MetaVarKind::Block => Missing::Braces,
            MetaVarKind::Lifetime => Missing::Lifetime,
            MetaVarKind::Path
            | MetaVarKind::Ty
            | MetaVarKind::Pat
            | MetaVarKind::PatParam
            | MetaVarKind::Expr(_)
            | MetaVarKind::Ident
            | MetaVarKind::Literal => Missing::Identifier,
        }
    }

    /// What may follow a fragment of this kind in a pattern.
    pub fn follow_set(self) -> FollowSet
        ensures { result ≡ (facts self).follow_set }
    {
        match self {
            MetaVarKind::Expr(_) | MetaVarKind::Stmt => FollowSet::AfterExpression,
            MetaVarKind::Pat => FollowSet::AfterPattern,
            MetaVarKind::PatParam => FollowSet::AfterAlternative,
            MetaVarKind::Ty | MetaVarKind::Path => FollowSet::AfterType,
            MetaVarKind::Vis => FollowSet::AfterVisibility,
            MetaVarKind::Block
            | MetaVarKind::Meta
            | MetaVarKind::Item
            | MetaVarKind::Ident
            | MetaVarKind::Tt
            | MetaVarKind::Lifetime
            | MetaVarKind::Literal => FollowSet::Anything,
        }
    }
}

impl FragmentParser {
    /// The grammar's entry point, or `None` where the expander parses the fragment itself.
    #[inline]
    pub fn entry(self) -> Option<PrefixEntryPoint>
        ensures { result ≡ spec.entry_of self }
    {
        match self {
            FragmentParser::Grammar(entry) => Some(entry),
            FragmentParser::Identifier
            | FragmentParser::Lifetime
            | FragmentParser::Tree
            | FragmentParser::Literal => None,
        }
    }

    /// The text of the error where the fragment doesn't match. It is empty for a fragment that the
    /// grammar parses: that error names the entry point.
    pub fn expected(self) -> &'static str
        ensures { result.now ≡ spec.expected_text self }
    {
        match self {
            FragmentParser::Grammar(_) => "",
            FragmentParser::Identifier => "expected ident",
            FragmentParser::Lifetime => "expected lifetime",
            FragmentParser::Tree => "expected token tree",
            FragmentParser::Literal => "expected literal",
        }
    }
}

/// How many rounds a repetition may have: `*`, `+` or `?`.
#[derive(Clone, Copy, Debug, Drop, PartialEq, Eq)]
pub enum RepeatKind {
    ZeroOrMore,
    OneOrMore,
    ZeroOrOne,
}
