// The invisible groups that keep fragments whole in rustc's dialect.
//
// rustc passes most fragments on as one group without delimiters that knows what it holds. Here
// such a group is invisible, and the syntax context of its spans says what it holds. These contexts
// are among the last numbers, and no token has them.
ghost use Rattle.std.specs.Prelude.{◌≡◌};
ghost use Rattle.mbe_tt.specs.Trees.FragmentGroup as spec;

use crate::span::{Span, SyntaxContext};
use crate::tt::{Delimiter, DelimiterKind};

/// What the group of a fragment holds. `LiteralExpr` is an expression that is a literal, perhaps
/// with a `-` in front.
#[derive(Clone, Copy, Debug, Drop, PartialEq, Eq)]
pub enum FragmentGroup {
    Path,
    Ty,
    Pat,
    Stmt,
    Block,
    Meta,
    Item,
    Vis,
    Expr,
    LiteralExpr,
    Literal,
}

impl FragmentGroup {
    /// Returns the syntax context of the group's spans.
    pub fn context(self) -> SyntaxContext
        ensures { result ≡ spec.context_of self }
    {
        SyntaxContext(match self {
            FragmentGroup::Path => 4_294_967_264,
            FragmentGroup::Ty => 4_294_967_265,
            FragmentGroup::Pat => 4_294_967_266,
            FragmentGroup::Stmt => 4_294_967_267,
            FragmentGroup::Block => 4_294_967_268,
            FragmentGroup::Meta => 4_294_967_269,
            FragmentGroup::Item => 4_294_967_270,
            FragmentGroup::Vis => 4_294_967_271,
            FragmentGroup::Expr => 4_294_967_272,
            FragmentGroup::LiteralExpr => 4_294_967_273,
            FragmentGroup::Literal => 4_294_967_274,
        })
    }

    /// Returns the delimiter of such a group. Both of its spans are `span`, with the group's
    /// context.
    pub fn delimiter(self, span: Span) -> Delimiter
        ensures { result ≡ spec.delimiter_of self span }
    {
        Delimiter::invisible_spanned(Span {
            ctx: self.context(),
            ..span
        })
    }

    /// Whether the delimiter is that of such a group.
    pub fn is_around(self, delimiter: Delimiter) -> bool
        ensures { result ≡ spec.is_around self delimiter }
    {
        delimiter.kind == DelimiterKind::Invisible && delimiter.opening.ctx.0 == self.context().0
    }
}

/// Whether the delimiter is that of a fragment's group.
pub fn is_fragment_group(delimiter: Delimiter) -> bool
    ensures { result ≡ spec.is_fragment_group delimiter }
{
    delimiter.kind == DelimiterKind::Invisible
        && delimiter.opening.ctx.0 >= FragmentGroup::Path.context().0
}

/// Whether the delimiter is that of a literal, or of an expression that is a literal.
pub fn is_literal_group(delimiter: Delimiter) -> bool
    ensures { result ≡ spec.is_literal_group delimiter }
{
    FragmentGroup::Literal.is_around(delimiter) || FragmentGroup::LiteralExpr.is_around(delimiter)
}
