// Metavariable expressions `${..}` of templates. This module has their type, an iterator over the
// variables that they mention, copies and equality.
ghost use Rattle.std.specs.Prelude.{◌≡◌, ◌↔◌, ◌∷◌, [], Some, None, IsTrue, IfOk, MatchOption};
ghost use Rattle.std.specs.Iterator.{YieldsFirstBy, item_count};
ghost use Rattle.mbe_semantics.specs.Syntax.Op.{for_fragment, mentions_of_elements};
ghost use Rattle.mbe_semantics.specs.Syntax.Op.{mentions_of_expression};
ghost use Rattle.mbe_ops.specs.Expressions.{use_seen, mention_seen, mentions_left, element_seen};
ghost use Rattle.mbe_ops.specs.Expressions.{elements_seen, expression_seen};

use crate::equality::{same_ident, same_literal};
use mbe_tt::span::Span;
use mbe_tt::symbol::Symbol;
use mbe_tt::tt::{Ident, Literal};
use std::alloc::{AllocError, Allocator, Global};

/// An element of `${concat(..)}`.
#[derive(Drop)]
#[derive_where(Debug)]
pub enum ConcatMetaVarExprElem<A: Allocator = Global> {
    /// An identifier without a `$`. It stands for itself.
    Ident(Ident<A>),
    /// An identifier after a `$`: a variable.
    Var(Ident<A>),
    Literal(Literal<A>),
}

/// A metavariable expression: what is between the braces of `${..}`.
#[derive(Drop)]
#[derive_where(Debug)]
pub enum Expression<A: Allocator = Global> {
    Ignore {
        name: Symbol<A>,
        id: Span,
    },
    Index {
        depth: usize,
    },
    Len {
        depth: usize,
    },
    Count {
        name: Symbol<A>,
        depth: usize,
    },
    // (the span first: an expression then takes 48 bytes)
    Concat {
        span: Span,
        elements: Vec<ConcatMetaVarExprElem<A>, A>,
    },
}

/// What an expression needs of a name: its fragment, or the number of its fragments.
#[derive(Clone, Copy, Debug)]
pub enum UseKind {
    Fragment,
    Number,
}

/// A use of a variable in an expression. Clauses see it by `mention_seen`.
#[derive_where(Clone, Copy, Debug)]
pub struct Mention<'a, A: Allocator = Global> {
    pub name: &'a Symbol<A>,
    pub use_kind: UseKind,
    /// The span of the variable if its fragment is written there. `None` for `${ignore(..)}` and
    /// `${count(..)}`, which write nothing of the fragment.
    pub place: Option<Span>,
}

/// An iterator over the variables of an expression, in the order in which they are written. Clauses
/// see the variables still to come by `mentions_left`.
#[derive_where(Clone, Copy, Debug)]
pub struct Mentions<'a, A: Allocator = Global> {
    first: Option<Mention<'a, A>>,
    elements: &'a [ConcatMetaVarExprElem<A>],
}

impl<A: Allocator> Expression<A> {
    /// Returns an iterator over the variables of the expression.
    pub fn mentions(&self) -> Mentions<'_, A>
        ensures { mentions_left result ≡ mentions_of_expression (expression_seen self.now) }
    {
        match self {
            Expression::Ignore { name, .. } => Mentions::one(name, UseKind::Fragment),
            Expression::Count { name, .. } => Mentions::one(name, UseKind::Number),
            Expression::Index { .. } | Expression::Len { .. } => Mentions::among(&[]),
            Expression::Concat { elements, .. } => Mentions::among(elements.as_slice()),
        }
    }
}

impl<'a, A: Allocator> Mentions<'a, A> {
    // Makes an iterator over one name, whose fragment isn't written.
    fn one(name: &'a Symbol<A>, use_kind: UseKind) -> Mentions<'a, A>
        ensures { mentions_left result ≡ record { used = use_seen use_kind name.now; offset = None }
            ∷ [] }
    {
        Mentions {
            first: Some(Mention {
                name,
                use_kind,
                place: None,
            }),
            elements: &[],
        }
    }

    // Makes an iterator over the variables among the elements.
    fn among(elements: &'a [ConcatMetaVarExprElem<A>]) -> Mentions<'a, A>
        ensures { mentions_left result ≡ mentions_of_elements (elements_seen elements.now) }
    {
        Mentions {
            first: None,
            elements,
        }
    }
}

/// Yields each variable once, in order. Then the iterator ends.
impl<'a, A: Allocator> Iterator for Mentions<'a, A> {
    type Item = Mention<'a, A>;

    ghost next_gives = { YieldsFirstBy mention_seen mentions_left };

    ghost remaining = { item_count mentions_left };

    fn next(&mut self) -> Option<Mention<'a, A>> {
        if let Some(first) = self.first.take() {
            return Some(first);
        }
        let (variable, rest) = next_variable(self.elements)?;
        self.elements = rest;
        Some(Mention {
            name: &variable.sym,
            use_kind: UseKind::Fragment,
            place: Some(variable.span),
        })
    }
}

// Returns the first variable among the elements, and the elements after it.
fn next_variable<'a, A: Allocator>(
    elements: &'a [ConcatMetaVarExprElem<A>],
) -> Option<(&'a Ident<A>, &'a [ConcatMetaVarExprElem<A>])>
    ensures { MatchOption result (mentions_of_elements (elements_seen elements.now) ≡ [])
        (λ r. mentions_of_elements (elements_seen elements.now)
        ≡ record { used = for_fragment r.0.now.sym; offset = Some r.0.now.span }
        ∷ mentions_of_elements (elements_seen r.1.now)) }
{
    let mut left = elements;
    'elements: while let Some((element, rest)) = left.split_first() {
        left = rest;
        if let ConcatMetaVarExprElem::Var(variable) = element {
            return Some((variable, left));
        }
    }
    None
}

pub(crate) fn clone_expression<A: Allocator + Copy>(
    expression: &Expression<A>,
) -> Result<Expression<A>, AllocError>
    ensures { IfOk result (λ copy. expression_seen copy ≡ expression_seen expression.now) }
{
    match expression {
        Expression::Ignore { name, id } => Ok(Expression::Ignore {
            name: name.clone()?,
            id: *id,
        }),
        Expression::Index { depth } => Ok(Expression::Index { depth: *depth }),
        Expression::Len { depth } => Ok(Expression::Len { depth: *depth }),
        Expression::Count { name, depth } => Ok(Expression::Count {
            name: name.clone()?,
            depth: *depth,
        }),
        Expression::Concat { elements, span } => Ok(Expression::Concat {
            elements: clone_elements(elements)?,
            span: *span,
        }),
    }
}

fn clone_elements<A: Allocator + Copy>(
    elements: &Vec<ConcatMetaVarExprElem<A>, A>,
) -> Result<Vec<ConcatMetaVarExprElem<A>, A>, AllocError>
    ensures { IfOk result (λ copy. elements_seen copy.items ≡ elements_seen elements.now.items) }
{
    elements.clone()
}

impl<A: Allocator> Clone for ConcatMetaVarExprElem<A> {
    ghost is_clone = { λ x y. y ≡ x };

    fn clone(&self) -> Result<ConcatMetaVarExprElem<A>, AllocError> {
        Ok(match self {
            ConcatMetaVarExprElem::Ident(ident) => ConcatMetaVarExprElem::Ident(ident.clone()?),
            ConcatMetaVarExprElem::Var(ident) => ConcatMetaVarExprElem::Var(ident.clone()?),
            ConcatMetaVarExprElem::Literal(literal) => {
                ConcatMetaVarExprElem::Literal(literal.clone()?)
            }
        })
    }
}

pub(crate) fn same_expression<A: Allocator>(one: &Expression<A>, two: &Expression<A>) -> bool
    ensures { IsTrue result ↔ (expression_seen one.now ≡ expression_seen two.now) }
{
    match (one, two) {
        (Expression::Ignore { name, id }, Expression::Ignore { name: n, id: i }) => {
            name == n && id == i
        }
        (Expression::Index { depth }, Expression::Index { depth: d }) => depth == d,
        (Expression::Len { depth }, Expression::Len { depth: d }) => depth == d,
        (Expression::Count { name, depth }, Expression::Count { name: n, depth: d }) => {
            name == n && depth == d
        }
        (
            Expression::Concat { elements, span },
            Expression::Concat {
                elements: es,
                span: s,
            },
        ) => same_elements(elements, es) && span == s,
        _ => false,
    }
}

fn same_elements<A: Allocator>(
    one: &[ConcatMetaVarExprElem<A>],
    two: &[ConcatMetaVarExprElem<A>],
) -> bool
    ensures { IsTrue result ↔ (elements_seen one.now ≡ elements_seen two.now) }
{
    one == two
}

fn same_element<A: Allocator>(
    one: &ConcatMetaVarExprElem<A>,
    two: &ConcatMetaVarExprElem<A>,
) -> bool
    ensures { IsTrue result ↔ (element_seen one.now ≡ element_seen two.now) }
{
    match (one, two) {
        (ConcatMetaVarExprElem::Ident(one), ConcatMetaVarExprElem::Ident(two)) => {
            same_ident(one, two)
        }
        (ConcatMetaVarExprElem::Var(one), ConcatMetaVarExprElem::Var(two)) => same_ident(one, two),
        (ConcatMetaVarExprElem::Literal(one), ConcatMetaVarExprElem::Literal(two)) => {
            same_literal(one, two)
        }
        _ => false,
    }
}

impl<A: Allocator> PartialEq for ConcatMetaVarExprElem<A> {
    ghost use Rattle.mbe_ops.specs.Expressions.{element_eq, element_eq_laws};
    ghost use Rattle.std.specs.Cmp.{partial_equiv_from_equiv};

    ghost eq = { element_eq };

    ghost laws = { partial_equiv_from_equiv element_eq_laws };

    fn eq(&self, other: &ConcatMetaVarExprElem<A>) -> bool {
        same_element(self, other)
    }
}

impl<A: Allocator> Eq for ConcatMetaVarExprElem<A> {
    ghost use Rattle.mbe_ops.specs.Expressions.{element_eq_laws};

    ghost laws = { element_eq_laws };
}
