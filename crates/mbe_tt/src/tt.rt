// Token trees: leaves, and the delimiters of groups.
//
// The module re-exports the types of buffers, iterators, views, cursors and builders. The names
// follow rust-analyzer's `tt`; the contracts are the project's own.
ghost use Rattle.std.specs.Prelude.{◌≡◌, ◌↔◌, IsTrue};
ghost use Rattle.mbe_tt.specs.Views.LeafViews.{ident_of, literal_of, leaf_of};
ghost use Rattle.std.specs.Cmp.{partial_equiv_from_equiv};

pub use crate::buffer::TopSubtree;
pub use crate::builder::TopSubtreeBuilder;
pub use crate::cursor::Cursor;
pub use crate::iter::{TtElement, TtIter, TtIterSavepoint};
use crate::span::{DelimSpan, Span};
use crate::symbol::Symbol;
pub use crate::view::{SubtreeView, TokenTreesView};
use std::alloc::{AllocError, Allocator, Global};

/// Whether a punct is joined to the next tree, if that is a punct too, or stands alone.
#[derive(Clone, Copy, Debug, Default, Drop, PartialEq, Eq)]
pub enum Spacing {
    #[default]
    Alone,
    Joint,
}

/// One punctuation char.
///
/// `ArrayVec::new` asks for a default. It is the char of number 0, alone, with a span of zeros.
#[derive(Clone, Copy, Debug, Default, Drop, PartialEq, Eq)]
pub struct Punct {
    pub char: char,
    pub spacing: Spacing,
    pub span: Span,
}

/// Whether an identifier is written with `r#`.
#[derive(Clone, Copy, Debug, Drop, PartialEq, Eq)]
pub enum IdentIsRaw {
    No,
    Yes,
}

/// An identifier. `_` and keywords are identifiers too. `sym` is the text without `r#`.
#[derive(Drop)]
#[derive_where(Debug)]
pub struct Ident<A: Allocator = Global> {
    pub sym: Symbol<A>,
    pub span: Span,
    pub is_raw: IdentIsRaw,
}

/// The kind of a literal. The number of a raw kind says how many `#`s are on each side.
#[derive(Clone, Copy, Debug, Drop, PartialEq, Eq)]
pub enum LitKind {
    Byte,
    Char,
    Integer,
    Float,
    Str,
    StrRaw(u8),
    ByteStr,
    ByteStrRaw(u8),
    CStr,
    CStrRaw(u8),
    Err,
}

/// A literal. `text_and_suffix` is the text between the quotes, then the suffix. `suffix_len` is
/// the length of the suffix in bytes.
#[derive(Drop)]
#[derive_where(Debug)]
pub struct Literal<A: Allocator = Global> {
    pub text_and_suffix: Symbol<A>,
    pub suffix_len: u8,
    pub kind: LitKind,
    pub span: Span,
}

/// A tree that isn't a group.
#[derive(Drop)]
#[derive_where(Debug)]
pub enum Leaf<A: Allocator = Global> {
    Literal(Literal<A>),
    Punct(Punct),
    Ident(Ident<A>),
}

/// The brackets around a group. `Invisible` groups are written without brackets.
#[derive(Clone, Copy, Debug, Drop, PartialEq, Eq)]
pub enum DelimiterKind {
    Parenthesis,
    Brace,
    Bracket,
    Invisible,
}

/// The kind of a group's delimiters, and the spans of its opening and its closing.
#[derive(Clone, Copy, Debug, Drop, PartialEq, Eq)]
pub struct Delimiter {
    pub opening: Span,
    pub close: Span,
    pub kind: DelimiterKind,
}

/// A group without its content.
#[derive(Clone, Copy, Debug, Drop, PartialEq, Eq)]
pub struct Subtree {
    pub delimiter: Delimiter,
}

impl Delimiter {
    ghost use Rattle.mbe_tt.specs.declared.tt.DelimiterKind.TheVariants.{Invisible};

    /// Returns an invisible delimiter with that span on both sides.
    pub fn invisible_spanned(span: Span) -> Delimiter
        ensures { result ≡ record { opening = span; close = span; kind = Invisible } }
    {
        Delimiter {
            opening: span,
            close: span,
            kind: DelimiterKind::Invisible,
        }
    }

    /// Returns the spans of the opening and the closing.
    pub fn delim_span(&self) -> DelimSpan
        ensures { result ≡ record { opening = self.now.opening; close = self.now.close } }
    {
        DelimSpan {
            opening: self.opening,
            close: self.close,
        }
    }
}

impl<A: Allocator> Leaf<A> {
    ghost use Rattle.mbe_tt.specs.Trees.Leaf.{span_of};

    /// Returns where the leaf is in its source text.
    pub fn span(&self) -> Span
        ensures { result ≡ span_of (leaf_of self.now) }
    {
        match self {
            Leaf::Literal(literal) => literal.span,
            Leaf::Punct(punct) => punct.span,
            Leaf::Ident(ident) => ident.span,
        }
    }
}

/// The clone is equal. It shares the symbol's text and allocates nothing. It fails only if cloning
/// the symbol fails.
impl<A: Allocator> Clone for Ident<A> {
    ghost is_clone = { λ x y. y ≡ x };

    fn clone(&self) -> Result<Ident<A>, AllocError> {
        Ok(Ident {
            sym: self.sym.clone()?,
            is_raw: self.is_raw,
            span: self.span,
        })
    }
}

/// The clone is equal. It shares the symbol's text and allocates nothing. It fails only if cloning
/// the symbol fails.
impl<A: Allocator> Clone for Literal<A> {
    ghost is_clone = { λ x y. y ≡ x };

    fn clone(&self) -> Result<Literal<A>, AllocError> {
        Ok(Literal {
            text_and_suffix: self.text_and_suffix.clone()?,
            suffix_len: self.suffix_len,
            kind: self.kind,
            span: self.span,
        })
    }
}

/// The clone is equal. It shares the symbol's text and allocates nothing. It fails only if cloning
/// the symbol fails.
impl<A: Allocator> Clone for Leaf<A> {
    ghost is_clone = { λ x y. y ≡ x };

    fn clone(&self) -> Result<Leaf<A>, AllocError> {
        Ok(match self {
            Leaf::Literal(literal) => Leaf::Literal(literal.clone()?),
            Leaf::Punct(punct) => Leaf::Punct(*punct),
            Leaf::Ident(ident) => Leaf::Ident(ident.clone()?),
        })
    }
}

impl<A: Allocator> PartialEq for Ident<A> {
    ghost use Rattle.mbe_tt.specs.Views.LeafViews.{ident_eq, ident_eq_laws};

    ghost eq = { ident_eq };

    ghost laws = { partial_equiv_from_equiv ident_eq_laws };

    fn eq(&self, other: &Ident<A>) -> bool {
        same_ident(self, other)
    }
}

impl<A: Allocator> Eq for Ident<A> {
    ghost use Rattle.mbe_tt.specs.Views.LeafViews.{ident_eq_laws};

    ghost laws = { ident_eq_laws };
}

impl<A: Allocator> PartialEq for Literal<A> {
    ghost use Rattle.mbe_tt.specs.Views.LeafViews.{literal_eq, literal_eq_laws};

    ghost eq = { literal_eq };

    ghost laws = { partial_equiv_from_equiv literal_eq_laws };

    fn eq(&self, other: &Literal<A>) -> bool {
        same_literal(self, other)
    }
}

impl<A: Allocator> Eq for Literal<A> {
    ghost use Rattle.mbe_tt.specs.Views.LeafViews.{literal_eq_laws};

    ghost laws = { literal_eq_laws };
}

impl<A: Allocator> PartialEq for Leaf<A> {
    ghost use Rattle.mbe_tt.specs.Views.LeafViews.{leaf_eq, leaf_eq_laws};

    ghost eq = { leaf_eq };

    ghost laws = { partial_equiv_from_equiv leaf_eq_laws };

    fn eq(&self, other: &Leaf<A>) -> bool {
        same_leaf(self, other)
    }
}

impl<A: Allocator> Eq for Leaf<A> {
    ghost use Rattle.mbe_tt.specs.Views.LeafViews.{leaf_eq_laws};

    ghost laws = { leaf_eq_laws };
}

fn same_ident<A: Allocator>(one: &Ident<A>, two: &Ident<A>) -> bool
    ensures { IsTrue result ↔ (ident_of one.now ≡ ident_of two.now) }
{
    one.sym == two.sym && one.is_raw == two.is_raw && one.span == two.span
}

fn same_literal<A: Allocator>(one: &Literal<A>, two: &Literal<A>) -> bool
    ensures { IsTrue result ↔ (literal_of one.now ≡ literal_of two.now) }
{
    one.text_and_suffix == two.text_and_suffix
        && one.suffix_len == two.suffix_len
        && one.kind == two.kind
        && one.span == two.span
}

// Returns whether the leaves are equal, spans included.
pub(crate) fn same_leaf<A: Allocator>(one: &Leaf<A>, two: &Leaf<A>) -> bool
    ensures { IsTrue result ↔ (leaf_of one.now ≡ leaf_of two.now) }
{
    match (one, two) {
        (Leaf::Literal(one), Leaf::Literal(two)) => same_literal(one, two),
        (Leaf::Punct(one), Leaf::Punct(two)) => one == two,
        (Leaf::Ident(one), Leaf::Ident(two)) => same_ident(one, two),
        _ => false,
    }
}
