use mbe_bindings::bindings::{Binding, Bindings};
use mbe_log::fragment::{Fragment, TokensOrigin};
use mbe_semantics::fragment_kinds::{ExprKind, MetaVarKind};
use mbe_tt::span::{DelimSpan, Span};
use mbe_tt::symbol::Symbol;
use mbe_tt::tt::{TokenTreesView, TopSubtree};
use std::alloc::{AllocError, Global};

// Names in the order of their binding, each with a list, or the kind of expression that is missing.
type Bound = &'static [(&'static str, Option<ExprKind>)];

const ONE: Bound = &[("x", None), ("y", Some(ExprKind::Expr))];

const OTHER_WAY: Bound = &[("y", Some(ExprKind::Expr)), ("x", None)];

// A later binding replaces an earlier one.
const OTHER_KIND: Bound = &[
    ("y", Some(ExprKind::Expr)),
    ("x", None),
    ("y", Some(ExprKind::Expr2021)),
];

fn list(alloc: Global) -> Result<Binding<'static>, AllocError> {
    let mut list = Vec::new(alloc);
    list.push(Binding::Fragment(Fragment::Empty))?;
    list.push(Binding::Empty)?;
    Ok(Binding::Nested(list))
}

fn bound(alloc: Global, missing: Option<ExprKind>) -> Result<Binding<'static>, AllocError> {
    match missing {
        Some(kind) => Ok(Binding::Missing(MetaVarKind::Expr(kind))),
        None => list(alloc),
    }
}

fn bindings(alloc: Global, names: Bound) -> Result<Bindings<'static>, AllocError> {
    let mut bindings = Bindings::new(alloc);
    for &(name, missing) in names {
        let name = Symbol::intern(alloc, name)?;
        bindings.insert(&name, bound(alloc, missing)?)?;
    }
    Ok(bindings)
}

const PRINTED: &str = "{\"x\": Nested([Fragment(Empty), Empty, ]), \"y\": Missing(Expr(Expr)), }";

fn is_equal(alloc: Global, one: &Bindings<'static>, other: Bound) -> Result<bool, AllocError> {
    Ok(*one == bindings(alloc, other)?)
}

fn is_printed(alloc: Global, one: &Bindings<'_>) -> Result<bool, AllocError> {
    Ok(format!(in alloc; "{one:?}")?.as_str() == PRINTED)
}

/// Whether bindings are equal in any order, and print their names in the order of their binding.
pub fn are_bindings(alloc: Global) -> Result<bool, AllocError> {
    let one = bindings(alloc, ONE)?;
    let are_compared = is_equal(alloc, &one, OTHER_WAY)? && !is_equal(alloc, &one, OTHER_KIND)?;
    Ok(are_compared && is_printed(alloc, &one)?)
}

fn tokens<'a>(tree: TokenTreesView<'a>, origin: TokensOrigin) -> Fragment<'a> {
    Fragment::Tokens { tree, origin }
}

// Whether a copy of the first fragment is equal to it, and not to the second.
fn is_one(one: &Fragment<'_>, other: &Fragment<'_>) -> Result<bool, AllocError> {
    let copy = one.try_clone()?;
    Ok(copy == *one && copy != *other)
}

/// Whether a fragment equals its copy, and differs from a fragment of another origin or kind.
pub fn are_fragments(alloc: Global) -> Result<bool, AllocError> {
    let tree = TopSubtree::empty(alloc, DelimSpan::from_single(Span::default()))?;
    let (raw, found) = (TokensOrigin::Raw, TokensOrigin::Ast);
    let is_raw = is_one(&tokens(tree.view(), raw), &tokens(tree.view(), found))?;
    Ok(is_raw && is_one(&Fragment::Expr(tree.view()), &Fragment::Path(tree.view()))?)
}
