// Syntax contexts of the tokens of a step.
//
// `contexts_in` lists the contexts of a macro's tokens, and `step_span` gives a token its context
// in a step. `apply_hygiene` renames the locals of an expansion that would meet equal names in the
// expansion or after it.
ghost use Rattle.std.specs.Prelude.{◌≡◌, ◌++◌, [], IfOk, OnOk, map};
ghost use Rattle.mbe_tt.specs.Trees.Leaf as tree;
ghost use Rattle.mbe_tt.specs.Views.LeafViews.{leaf_of, literal_of};
ghost use Rattle.mbe_tt.specs.Views.View.{trees};
ghost use Rattle.mbe_rewriter.specs.Hygiene.Contexts as spec;
ghost use Rattle.mbe_rewriter.specs.Hygiene.EventViews.{event_of};

use crate::hygiene::format_names::format_names;
use crate::hygiene::local_names::{ContextParents, is_string_role};
use crate::hygiene::pattern_calls::push_pattern_doubts;
use crate::hygiene::renamer::{Renamed, rename};
use crate::hygiene::scan_state::TokenRole;
use crate::hygiene::tree_events::{TreeEvent, events_of};
use mbe_tt::span::{Span, SyntaxContext};
use mbe_tt::symbol::Symbol;
use mbe_tt::tt::{Leaf, Literal, TokenTreesView, TopSubtree, TtElement};
use std::alloc::{AllocError, Allocator};

// ---- contexts of a definition

fn leaf_context<A: Allocator>(leaf: &Leaf<A>) -> u32
    ensures { result ≡ spec.leaf_context (leaf_of leaf.now) }
{
    match leaf {
        Leaf::Ident(ident) => ident.span.ctx.0,
        Leaf::Literal(literal) => literal.span.ctx.0,
        Leaf::Punct(punct) => punct.span.ctx.0,
    }
}

fn contains_number(numbers: &[u32], number: u32) -> bool
    ensures { result ≡ spec.contains_number numbers.now number }
{
    for one in numbers {
        if *one == number {
            return true;
        }
    }
    false
}

fn push_number<A: Allocator>(found: &mut Vec<u32, A>, number: u32) -> Result<(), AllocError>
    ensures { OnOk result (found.new.items ≡ spec.with_number found.old.items number) }
{
    if !contains_number(found.as_slice(), number) {
        found.push(number)?;
    }
    Ok(())
}

fn push_context<A: Allocator>(
    found: &mut Vec<u32, A>,
    event: TreeEvent<'_, A>,
) -> Result<(), AllocError>
    ensures { OnOk result (found.new.items
        ≡ spec.with_context found.old.items (event_of event.entry)) }
{
    match event {
        TreeEvent::Leaf(leaf, _) => push_number(found, leaf_context(leaf)),
        TreeEvent::Open(..) | TreeEvent::Close(..) => Ok(()),
    }
}

fn contexts_of<A: Allocator + Copy>(
    alloc: A,
    events: &[TreeEvent<'_, A>],
) -> Result<Vec<u32, A>, AllocError>
    ensures { IfOk result (λ v. v.items ≡ spec.contexts_from [] (map event_of events.now)) }
{
    let mut found = Vec::new(alloc);
    for event in events {
        push_context(&mut found, *event)?;
    }
    Ok(found)
}

/// Returns the contexts of the trees' tokens, each once. Returns `AllocError` if memory runs out.
pub fn contexts_in<A: Allocator + Copy>(
    alloc: A,
    tokens: TokenTreesView<'_, A>,
) -> Result<Vec<u32, A>, AllocError>
    ensures { IfOk result (λ v. v.items ≡ spec.contexts_in (trees tokens.entry)) }
{
    let events = events_of(alloc, tokens)?;
    contexts_of(alloc, events.as_slice())
}

// ---- contexts of a step

/// Returns the number of a context. The greatest number stands for all greater ones.
pub fn numbered(number: usize) -> u32
    ensures { result ≡ spec.numbered number }
{
    number.min(4_294_967_295) as u32
}

// Returns the context that a token of the context `context` gets in a step. `contexts` are the
// macro's contexts. The step gives the first one the number `number`, and each further one the next
// number.
fn step_context(number: u32, contexts: &[u32], context: u32) -> u32
    ensures { result ≡ spec.step_context number contexts.now context }
{
    let mut number = number;
    for one in contexts {
        if *one == context {
            return number;
        }
        number = number.saturating_add(1);
    }
    context
}

/// Returns a token's span with its context in a step. `contexts` are the contexts of the macro's
/// tokens.
pub fn step_span(number: u32, contexts: &[u32], span: Span) -> Span
    ensures { result ≡ spec.step_span number contexts.now span }
{
    Span {
        ctx: SyntaxContext(step_context(number, contexts, span.ctx.0)),
        ..span
    }
}

// ---- names after an expansion

fn is_let<A: Allocator>(leaf: &Leaf<A>) -> bool
    ensures { result ≡ spec.is_let (leaf_of leaf.now) }
{
    match leaf {
        Leaf::Ident(ident) => ident.sym.as_str() == "let",
        Leaf::Literal(_) | Leaf::Punct(_) => false,
    }
}

// Returns whether one of these trees is a `let`. Its locals may be seen after the trees.
fn has_let<A: Allocator>(tokens: TokenTreesView<'_, A>) -> bool
    ensures { result ≡ spec.has_let (trees tokens.entry) }
{
    let mut iter = tokens.iter();
    'trees: while let Some(tree) = iter.next() {
        if let TtElement::Leaf(leaf) = tree
            && is_let(leaf)
        {
            return true;
        }
    }
    false
}

fn push_names<A: Allocator + Copy>(
    alloc: A,
    words: &mut Vec<Symbol<A>, A>,
    names: &[&str],
) -> Result<(), AllocError>
    ensures { OnOk result (words.new.items ≡ words.old.items ++ map (λ t. t.now) names.now) }
{
    for name in names {
        words.push(Symbol::intern(alloc, *name)?)?;
    }
    Ok(())
}

// Appends the names that a string mentions, if the string may name locals.
fn push_text<A: Allocator + Copy>(
    alloc: A,
    words: &mut Vec<Symbol<A>, A>,
    literal: &Literal<A>,
    role: TokenRole,
) -> Result<(), AllocError>
    ensures { OnOk result (words.new.items
        ≡ words.old.items ++ spec.leaf_words (tree.literal (literal_of literal.now)) role) }
{
    if !is_string_role(role) {
        return Ok(());
    }
    let names = format_names(alloc, literal.text_and_suffix.as_str())?;
    push_names(alloc, words, names.as_slice())
}

fn push_leaf<A: Allocator + Copy>(
    alloc: A,
    words: &mut Vec<Symbol<A>, A>,
    leaf: &Leaf<A>,
    role: TokenRole,
) -> Result<(), AllocError>
    ensures { OnOk result (words.new.items
        ≡ words.old.items ++ spec.leaf_words (leaf_of leaf.now) role) }
{
    match leaf {
        Leaf::Ident(ident) => words.push(ident.sym.clone()?)?,
        Leaf::Literal(literal) => push_text(alloc, words, literal, role)?,
        Leaf::Punct(_) => {}
    }
    Ok(())
}

fn push_words<A: Allocator + Copy>(
    alloc: A,
    words: &mut Vec<Symbol<A>, A>,
    event: TreeEvent<'_, A>,
) -> Result<(), AllocError>
    ensures { OnOk result (words.new.items
        ≡ words.old.items ++ spec.event_words (event_of event.entry)) }
{
    match event {
        TreeEvent::Leaf(leaf, role) => push_leaf(alloc, words, leaf, role),
        TreeEvent::Open(..) | TreeEvent::Close(..) => Ok(()),
    }
}

fn words_of<A: Allocator + Copy>(
    alloc: A,
    events: &[TreeEvent<'_, A>],
) -> Result<Vec<Symbol<A>, A>, AllocError>
    ensures { IfOk result (λ v. v.items ≡ spec.words_of (map event_of events.now)) }
{
    let mut words = Vec::new(alloc);
    for event in events {
        push_words(alloc, &mut words, *event)?;
    }
    Ok(words)
}

// Returns the words of trees and the names that their strings mention, at any depth.
fn words_in<A: Allocator + Copy>(
    alloc: A,
    tokens: TokenTreesView<'_, A>,
) -> Result<Vec<Symbol<A>, A>, AllocError>
    ensures { IfOk result (λ v. v.items ≡ spec.words_in (trees tokens.entry)) }
{
    let events = events_of(alloc, tokens)?;
    words_of(alloc, events.as_slice())
}

// Returns the names that an expansion's locals must not get. These are the names after the
// expansion, if they may see its locals.
fn reserved_names<A: Allocator + Copy>(
    alloc: A,
    tree: &TopSubtree<A>,
    left: TokenTreesView<'_, A>,
) -> Result<Vec<Symbol<A>, A>, AllocError>
    ensures { IfOk result (λ v. v.items ≡ spec.reserved_names tree.now.1 (trees left.entry)) }
{
    if has_let(tree.iter().remaining()) {
        words_in(alloc, left)
    } else {
        Ok(Vec::new(alloc))
    }
}

/// Returns an expansion with its locals renamed apart from other words of their names, also from
/// words in `left`, the trees after the expansion. For each context of a step, from 1 on,
/// `contexts` has the context that the macro's token had. Contexts up to `mark` belong to earlier
/// calls. The result also lists names that `left` uses and that are the expansion's own if it is a
/// pattern. Returns `AllocError` if memory runs out.
pub fn apply_hygiene<A: Allocator + Copy>(
    alloc: A,
    tree: &TopSubtree<A>,
    left: TokenTreesView<'_, A>,
    contexts: &[u32],
    mark: usize,
) -> Result<Renamed<A>, AllocError>
    ensures delimiter { IfOk result (λ r. r.tree.0 ≡ tree.now.0) }
    ensures trees { IfOk result (λ r. r.tree.1
        ≡ spec.apply_hygiene contexts.now mark (trees left.entry) tree.now.1) }
    ensures undecided { IfOk result (λ r. r.undecided.items
        ≡ spec.undecided_of contexts.now mark (trees left.entry) tree.now) }
{
    let names = reserved_names(alloc, tree, left)?;
    let context_parents = ContextParents {
        contexts,
        mark: numbered(mark),
    };
    let apart = rename(alloc, tree, names.as_slice(), context_parents)?;
    let mut undecided = apart.undecided;
    let renamed = apart.tree.iter().remaining();
    push_pattern_doubts(alloc, &mut undecided, renamed, left, context_parents.mark)?;
    Ok(Renamed {
        tree: apart.tree,
        undecided,
    })
}
