// An iterator over trees that stand side by side.
//
// It consumes one tree at a time. The `expect_` calls consume a tree only if it is of the kind
// that they ask for. The names follow rust-analyzer's `tt`; the contracts are the project's own.
ghost use Rattle.std.specs.Prelude.{◌≡◌, ◌↔◌, IsTrue, option_map, length, [], ◌∷◌, IsOk, is_ok};
ghost use Rattle.std.specs.Prelude.{is_some, OnSome, if◌then◌else◌, Some, None, ⊤};
ghost use Rattle.std.specs.Result.{result_ok};
ghost use Rattle.mbe_tt.specs.Trees.Tree.{Forest, none, group, tree, append, first, rest_of};
ghost use Rattle.mbe_tt.specs.Trees.Tree.{front_char, front_punct, front_ident, front_group};
ghost use Rattle.mbe_tt.specs.Trees.Tree.{front_leaf, front_literal, literal_leaf, any_ident};
ghost use Rattle.mbe_tt.specs.Trees.Tree.{first_span, skip};
ghost use Rattle.mbe_tt.specs.Trees.Leaf.{is_underscore};
ghost use Rattle.mbe_tt.specs.Views.BufferEntries.{forest_of, Spelled};
ghost use Rattle.mbe_tt.specs.Trees.Glue.{glue, glued, is_operator, joined_punct, third_punct};
ghost use Rattle.mbe_tt.specs.Views.BufferEntry.{Open};
ghost use Rattle.mbe_tt.specs.Views.LeafViews.{entries_of, ident_of, leaf_of};
ghost use Rattle.std.specs.List.{Contains};
ghost use Rattle.std.specs.Iterator.{YieldsFirstBy, item_count};
ghost use Rattle.mbe_tt.specs.declared.tt.Punct.{Punct as SpecPunct};

use crate::entry::Entry;
use crate::span::Span;
use crate::tt::{Ident, Leaf, Punct, Spacing, Subtree};
use crate::view::TokenTreesView;
use arrayvec::ArrayVec;
use std::alloc::{AllocError, Allocator, Global};
use std::marker::Model;

/// An iterator over the trees of one group's content, borrowed from its buffer. Clauses see the
/// trees that are left.
///
/// Each `expect_` call looks at the next tree and consumes it if it is of the kind that the call
/// asks for. Otherwise the call returns `Err(())` and leaves the iterator unchanged. A clone has
/// the same trees left and allocates nothing.
#[derive(Drop)]
#[derive_where(Debug)]
pub struct TtIter<'a, A: Allocator = Global> {
    pub(crate) entries: &'a [Entry<A>],
}

impl<'a, A: Allocator> Model for TtIter<'a, A> {
    ghost use Rattle.std.specs.Prelude.{◌≡◌};
    ghost use Rattle.mbe_tt.specs.Trees.Tree.{Forest};
    ghost use Rattle.mbe_tt.specs.Views.BufferEntries.{forest_of, spell, forest_code};
    ghost use Rattle.mbe_tt.specs.Views.LeafViews.{entries_of};

    ghost Value = { Forest };

    ghost coded = { forest_code };

    ghost view = { λ a. forest_of (entries_of a.entries.now) };

    ghost invariant = { λ a. entries_of a.entries.now
        ≡ spell (forest_of (entries_of a.entries.now)) };
}

/// A mark of where an iterator is. Clauses see the trees that were left there, by `saved`.
#[derive_where(Clone, Copy, Debug)]
pub struct TtIterSavepoint<'a, A: Allocator = Global> {
    left: TokenTreesView<'a, A>,
}

/// One tree: a leaf, or a group and an iterator over its content. Clauses see the tree by
/// `element_tree`.
#[derive(Drop)]
#[derive_where(Clone, Debug)]
pub enum TtElement<'a, A: Allocator = Global> {
    Leaf(&'a Leaf<A>),
    Subtree(&'a Subtree, TtIter<'a, A>),
}

// Returns the trees inside a group, and those after it. `rest` is what follows the group's
// opening.
pub(crate) fn content_and_rest<'a, A: Allocator>(
    subtree: &Subtree,
    len: usize,
    rest: &'a [Entry<A>],
) -> (TtIter<'a, A>, TtIter<'a, A>)
    requires { Spelled (Open subtree.now len ∷ entries_of rest.now) }
    ensures { forest_of (Open subtree.now len ∷ entries_of rest.now) ≡ group subtree.now.delimiter
        result.0 result.1 }
{
    let (inside, after) = rest.split_at(len);
    let (_close, rest) = after.split_at(1);
    (TtIter { entries: inside }, TtIter { entries: rest })
}

impl<'a, A: Allocator> TtIter<'a, A> {
    ghost use Rattle.mbe_tt.specs.Views.View.{trees};
    ghost use Rattle.mbe_tt.specs.Views.Element.{element_tree};
    ghost use Rattle.mbe_tt.specs.Views.Savepoint.{saved};

    /// Returns whether no tree is left.
    pub fn is_empty(&self) -> bool
        ensures { IsTrue result ↔ (self.now ≡ none) }
    {
        self.entries.is_empty()
    }

    /// The trees that are left.
    pub fn remaining(&self) -> TokenTreesView<'a, A>
        ensures { trees result ≡ self.now }
    {
        TokenTreesView {
            entries: self.entries,
        }
    }

    /// Returns an iterator over the same trees, to look ahead with. Unlike `clone`, it never
    /// returns `AllocError`.
    #[inline(always)]
    pub fn fork(&self) -> TtIter<'a, A>
        ensures { result ≡ self.now }
    {
        TtIter {
            entries: self.entries,
        }
    }

    /// Consumes the next tree and returns it. Returns `None` at the end.
    pub fn next(&mut self) -> Option<TtElement<'a, A>>
        ensures value { option_map element_tree result ≡ first self.old }
        ensures rest { self.new ≡ rest_of self.old }
    {
        let (first, rest) = self.entries.split_first()?;
        match first {
            Entry::Leaf(leaf) => {
                self.entries = rest;
                Some(TtElement::Leaf(leaf))
            }
            Entry::Open(subtree, len) => {
                let (inside, rest) = content_and_rest(subtree, *len, rest);
                *self = rest;
                Some(TtElement::Subtree(subtree, inside))
            }
            Entry::Close(_) => None,
        }
    }

    /// Returns the next tree without consuming it. Returns `None` at the end.
    pub fn peek(&self) -> Option<TtElement<'a, A>>
        ensures { option_map element_tree result ≡ first self.now }
    {
        let mut ahead = self.remaining().iter();
        ahead.next()
    }

    /// Marks where the iterator is, for `from_savepoint`.
    pub fn savepoint(&self) -> TtIterSavepoint<'a, A>
        ensures { saved result ≡ self.now }
    {
        TtIterSavepoint {
            left: self.remaining(),
        }
    }

    /// Returns the trees consumed since the savepoint. The trees left at the savepoint must end
    /// with those that are left now.
    pub fn from_savepoint(&self, savepoint: TtIterSavepoint<'a, A>) -> TokenTreesView<'a, A>
        requires { (passed : Forest) × (saved savepoint ≡ append passed self.now) }
        ensures { (passed : Forest) → saved savepoint.entry ≡ append passed self.now
            → trees result ≡ passed }
    {
        let before = savepoint.left.entries;
        let (passed, _left) = before.split_at(before.len() - self.entries.len());
        TokenTreesView { entries: passed }
    }

    /// Consumes the next tree and returns it as a view of one tree. Returns `None` at the end.
    pub fn next_as_view(&mut self) -> Option<TokenTreesView<'a, A>>
        ensures value { option_map trees result ≡ option_map (λ t. tree t none) (first self.old) }
        ensures rest { self.new ≡ rest_of self.old }
    {
        let savepoint = self.savepoint();
        let _tree = self.next()?;
        Some(self.from_savepoint(savepoint))
    }

    /// Consumes a punct of that char, whatever its spacing.
    pub fn expect_char(&mut self, char: char) -> Result<(), ()>
        ensures value { IsOk result ↔ (front_char self.old ≡ Some char) }
        ensures rest { self.new ≡ (if is_ok result then rest_of self.old else self.old) }
    {
        if let Some(TtElement::Leaf(Leaf::Punct(punct))) = self.peek()
            && punct.char == char
        {
            let _passed = self.next();
            return Ok(());
        }
        Err(())
    }

    /// Consumes one punct.
    pub fn expect_single_punct(&mut self) -> Result<&'a Punct, ()>
        ensures value { option_map (λ p. p.now) (result_ok result) ≡ front_punct self.old }
        ensures rest { self.new ≡ (if is_ok result then rest_of self.old else self.old) }
    {
        if let Some(TtElement::Leaf(Leaf::Punct(punct))) = self.peek() {
            let _passed = self.next();
            return Ok(punct);
        }
        Err(())
    }

    /// Consumes a group, and returns it with an iterator over its content.
    pub fn expect_subtree(&mut self) -> Result<(&'a Subtree, TtIter<'a, A>), ()>
        ensures value { option_map (λ g. (g.0.now.delimiter, g.1)) (result_ok result)
            ≡ front_group self.old }
        ensures rest { self.new ≡ (if is_ok result then rest_of self.old else self.old) }
    {
        if let Some(TtElement::Subtree(subtree, inside)) = self.peek() {
            let _passed = self.next();
            return Ok((subtree, inside));
        }
        Err(())
    }

    /// Consumes an identifier other than `_`, raw or not.
    pub fn expect_ident(&mut self) -> Result<&'a Ident<A>, ()>
        ensures value { option_map (λ i. ident_of i.now) (result_ok result) ≡ front_ident self.old }
        ensures rest { self.new ≡ (if is_ok result then rest_of self.old else self.old) }
    {
        if let Some(TtElement::Leaf(Leaf::Ident(ident))) = self.peek()
            && !is_underscore(ident.sym.as_str())
        {
            let _passed = self.next();
            return Ok(ident);
        }
        Err(())
    }

    /// Consumes a punct of one of those chars, whatever its spacing.
    pub fn expect_any_char(&mut self, chars: &[char]) -> Result<(), ()>
        ensures value { IsOk result ↔ ((p : SpecPunct) × (front_punct self.old ≡ Some p)
            × Contains chars.now p.char) }
        ensures rest { self.new ≡ (if is_ok result then rest_of self.old else self.old) }
    {
        if let Some(TtElement::Leaf(Leaf::Punct(punct))) = self.peek()
            && chars.contains(&punct.char)
        {
            let _passed = self.next();
            return Ok(());
        }
        Err(())
    }

    /// Consumes a punct `$`.
    pub fn expect_dollar(&mut self) -> Result<(), ()>
        ensures value { IsOk result ↔ (front_char self.old ≡ Some 36) }
        ensures rest { self.new ≡ (if is_ok result then rest_of self.old else self.old) }
    {
        self.expect_char('$')
    }

    /// Consumes a punct `,`.
    pub fn expect_comma(&mut self) -> Result<(), ()>
        ensures value { IsOk result ↔ (front_char self.old ≡ Some 44) }
        ensures rest { self.new ≡ (if is_ok result then rest_of self.old else self.old) }
    {
        self.expect_char(',')
    }

    /// Consumes a leaf.
    pub fn expect_leaf(&mut self) -> Result<&'a Leaf<A>, ()>
        ensures value { option_map (λ l. leaf_of l.now) (result_ok result) ≡ front_leaf self.old }
        ensures rest { self.new ≡ (if is_ok result then rest_of self.old else self.old) }
    {
        if let Some(TtElement::Leaf(leaf)) = self.peek() {
            let _passed = self.next();
            return Ok(leaf);
        }
        Err(())
    }

    /// Consumes an identifier, raw or not. `_` is one too.
    pub fn expect_ident_or_underscore(&mut self) -> Result<&'a Ident<A>, ()>
        ensures value { option_map (λ i. ident_of i.now) (result_ok result) ≡ any_ident self.old }
        ensures rest { self.new ≡ (if is_ok result then rest_of self.old else self.old) }
    {
        if let Some(TtElement::Leaf(Leaf::Ident(ident))) = self.peek() {
            let _passed = self.next();
            return Ok(ident);
        }
        Err(())
    }

    /// Consumes a literal, or the identifier `true` or `false`, raw or not.
    pub fn expect_literal(&mut self) -> Result<&'a Leaf<A>, ()>
        ensures value { option_map (λ l. leaf_of l.now) (result_ok result)
            ≡ front_literal self.old }
        ensures rest { self.new ≡ (if is_ok result then rest_of self.old else self.old) }
    {
        if let Some(TtElement::Leaf(leaf)) = self.peek()
            && is_literal(leaf)
        {
            let _passed = self.next();
            return Ok(leaf);
        }
        Err(())
    }

    /// Returns where the next tree begins: a leaf's span, or the span of a group's opening.
    /// Returns `None` at the end.
    pub fn next_span(&self) -> Option<Span>
        ensures { result ≡ option_map first_span (first self.now) }
    {
        Some(self.peek()?.first_span())
    }

    /// Consumes one to three puncts: those that make the longest operator, or the first punct if
    /// they make none.
    ///
    /// All but the last must be joint. The call looks at a third punct only if the first two are
    /// joint. The operators, such as `..=` and `->`, are those that `specs/Trees/Glue` lists.
    pub fn expect_glued_punct(&mut self) -> Result<ArrayVec<Punct, 3>, ()>
        ensures value { option_map (λ ps. ps.items) (result_ok result) ≡ glued self.old }
        ensures rest { self.new ≡ skip (length (glue self.old)) self.old }
    {
        let first = *self.expect_single_punct()?;
        let mut glued = ArrayVec::new();
        glued.push(first);
        let mut ahead = self.remaining().iter();
        let Some(second) = ahead.next_joined(first) else {
            return Ok(glued);
        };
        let mut beyond = ahead.remaining().iter();
        if let Some(third) = beyond.next_third(first, second) {
            glued.push(second);
            glued.push(third);
            *self = beyond;
            return Ok(glued);
        }
        if is_double_operator(first.char, second.char) {
            glued.push(second);
            *self = ahead;
        }
        Ok(glued)
    }

    // Consumes the next punct if the one before it is joined to it, and returns it.
    fn next_joined(&mut self, before: Punct) -> Option<Punct>
        ensures value { result ≡ joined_punct before.spacing self.old }
        ensures rest { self.new ≡ (if is_some result then rest_of self.old else self.old) }
    {
        if before.spacing == Spacing::Alone {
            return None;
        }
        self.expect_single_punct().ok().copied()
    }

    // Consumes the punct that makes an operator of three chars with the two before it, and returns
    // it.
    fn next_third(&mut self, first: Punct, second: Punct) -> Option<Punct>
        ensures value { result ≡ third_punct first second self.old }
        ensures rest { OnSome result (self.new ≡ rest_of self.old) }
    {
        let third = self.next_joined(second)?;
        if is_triple_operator(first.char, second.char, third.char) {
            Some(third)
        } else {
            None
        }
    }
}

/// The iterator yields each tree once, in order, and then ends.
impl<'a, A: Allocator> Iterator for TtIter<'a, A> {
    ghost use Rattle.mbe_tt.specs.Trees.Tree.{each_tree};
    ghost use Rattle.mbe_tt.specs.Views.Element.{element_tree};

    type Item = TtElement<'a, A>;

    ghost next_gives = { YieldsFirstBy element_tree each_tree };

    ghost remaining = { item_count each_tree };

    fn next(&mut self) -> Option<TtElement<'a, A>> {
        TtIter::next(self)
    }
}

impl<'a, A: Allocator> TtElement<'a, A> {
    ghost use Rattle.mbe_tt.specs.Views.Element.{element_tree};

    /// Returns where the tree begins: a leaf's span, or the span of a group's opening.
    pub fn first_span(&self) -> Span
        ensures { result ≡ first_span (element_tree self.now) }
    {
        match self {
            TtElement::Leaf(leaf) => leaf.span(),
            TtElement::Subtree(subtree, _) => subtree.delimiter.opening,
        }
    }
}

// Compares bytes, which is faster than to compare texts.
#[inline(always)]
fn is_underscore(text: &str) -> bool
    ensures { result ≡ is_underscore text.now }
{
    matches!(text.as_bytes(), [b'_'])
}

fn is_literal<A: Allocator>(leaf: &Leaf<A>) -> bool
    ensures { literal_leaf (leaf_of leaf.now) ≡ (if result then Some (leaf_of leaf.now) else None) }
{
    match leaf {
        Leaf::Literal(_) => true,
        Leaf::Punct(_) => false,
        Leaf::Ident(ident) => ident.sym.as_str() == "true" || ident.sym.as_str() == "false",
    }
}

fn is_triple_operator(a: char, b: char, c: char) -> bool
    ensures { result ≡ is_operator (a ∷ b ∷ c ∷ []) }
{
    matches!(
        (a, b, c),
        ('.', '.', '.') | ('.', '.', '=') | ('<', '<', '=') | ('>', '>', '=')
    )
}

fn is_double_operator(a: char, b: char) -> bool
    ensures { result ≡ is_operator (a ∷ b ∷ []) }
{
    match b {
        '=' => matches!(
            a,
            '-' | '!' | '*' | '/' | '&' | '%' | '^' | '+' | '<' | '=' | '>' | '|'
        ),
        '>' => matches!(a, '-' | '=' | '>'),
        '-' | '<' => a == '<',
        ':' | '.' | '&' | '|' => a == b,
        _ => false,
    }
}

impl<'a, A: Allocator> Clone for TtIter<'a, A> {
    ghost is_clone = { λ x y. y ≡ x };

    ghost is_infallible = { λ _. ⊤ };

    fn clone(&self) -> Result<TtIter<'a, A>, AllocError> {
        let entries = self.entries;
        Ok(TtIter { entries })
    }
}
