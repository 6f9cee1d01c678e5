// Renames the locals and labels of an expansion that hygiene keeps apart from equal names.
ghost use Rattle.std.specs.Prelude.{◌≡◌, ◌<◌, IfOk, OnOk, length, map};
ghost use Rattle.mbe_tt.specs.Buffers.GroupStack.{put};
ghost use Rattle.mbe_tt.specs.Views.LeafViews.{leaf_of};
ghost use Rattle.mbe_tt.specs.Views.View.{trees};
ghost use Rattle.mbe_rewriter.specs.Hygiene.EventViews.{event_of, word_of, naming_of};
ghost use Rattle.mbe_rewriter.specs.Hygiene.EventViews.{context_parents_of};
ghost use Rattle.mbe_rewriter.specs.Hygiene.LocalNames as naming;
ghost use Rattle.mbe_rewriter.specs.Hygiene.Renamer as spec;
ghost use Rattle.mbe_rewriter.specs.Hygiene.ScanState.{start};
ghost use Rattle.mbe_rewriter.specs.Hygiene.TreeEvents.{events as events_from};

use crate::hygiene::buckets::buckets_for;
use crate::hygiene::local_names::{Naming, Word, locals, undecided, words_of};
pub use crate::hygiene::local_names::{ContextParents, UndecidedUse};
use crate::hygiene::new_names::{name_in, namings};
use crate::hygiene::scan_state::TokenRole;
use crate::hygiene::tree_events::{TreeEvent, events_of};
use mbe_tt::span::Span;
use mbe_tt::symbol::Symbol;
use mbe_tt::tt::{Ident, Leaf, TokenTreesView, TopSubtree, TopSubtreeBuilder};
use std::alloc::{AllocError, Allocator, Global};

/// The result of renaming.
#[derive(Drop)]
pub struct Renamed<A: Allocator = Global> {
    pub tree: TopSubtree<A>,
    /// The uses that kept locals from being renamed where they meet others of their names.
    pub undecided: Vec<UndecidedUse, A>,
}

fn new_name<A: Allocator>(
    given: &[Naming<'_, A>],
    ident: &Ident<A>,
    role: TokenRole,
) -> Result<Symbol<A>, AllocError>
    ensures { IfOk result (λ s. s ≡ spec.new_name_of (map naming_of given.now) ident.now.sym
        ident.now.span role) }
{
    let word = Word {
        text: ident.sym.as_str(),
        span: ident.span,
        role,
    };
    match name_in(given, word) {
        Some(name) => name.clone(),
        None => ident.sym.clone(),
    }
}

fn renamed_leaf<A: Allocator>(
    given: &[Naming<'_, A>],
    leaf: &Leaf<A>,
    role: TokenRole,
) -> Result<Leaf<A>, AllocError>
    ensures { IfOk result (λ l. leaf_of l
        ≡ spec.renamed_leaf (map naming_of given.now) (leaf_of leaf.now) role) }
{
    match leaf {
        Leaf::Ident(ident) => Ok(Leaf::Ident(Ident {
            sym: new_name(given, ident, role)?,
            is_raw: ident.is_raw,
            span: ident.span,
        })),
        Leaf::Literal(_) | Leaf::Punct(_) => leaf.clone(),
    }
}

// Closes the innermost group, unless it is the outermost one.
fn close<A: Allocator>(builder: &mut TopSubtreeBuilder<A>, span: Span)
    ensures { builder.new ≡ spec.closed_inside span builder.old }
{
    if builder.open_kind().is_some() {
        builder.close(span);
    }
}

fn write_event<A: Allocator>(
    builder: &mut TopSubtreeBuilder<A>,
    given: &[Naming<'_, A>],
    event: TreeEvent<'_, A>,
) -> Result<(), AllocError>
    ensures { OnOk result (builder.new
        ≡ spec.event_written (map naming_of given.now) (event_of event.entry) builder.old) }
{
    match event {
        TreeEvent::Leaf(leaf, role) => builder.push(renamed_leaf(given, leaf, role)?),
        TreeEvent::Open(kind, span, _) => builder.open(kind, span),
        TreeEvent::Close(span, _) => {
            close(builder, span);
            Ok(())
        }
    }
}

fn write<A: Allocator>(
    builder: &mut TopSubtreeBuilder<A>,
    given: &[Naming<'_, A>],
    events: &[TreeEvent<'_, A>],
) -> Result<(), AllocError>
    ensures { OnOk result (builder.new
        ≡ spec.written (map naming_of given.now) (map event_of events.now) builder.old) }
{
    for event in events {
        write_event(builder, given, *event)?;
    }
    Ok(())
}

// The new names of locals, and the uses that keep other locals from being renamed where they meet
// others of their names.
#[derive(Drop)]
struct RenamePlan<'t, A: Allocator = Global> {
    given: Vec<Naming<'t, A>, A>,
    undecided: Vec<UndecidedUse, A>,
}

// Chooses the new names of the locals among these words. Returns `AllocError` if memory runs out.
fn rename_plan<'t, A: Allocator + Copy>(
    alloc: A,
    words: &[Word<'t>],
    names: &[Symbol<A>],
) -> Result<RenamePlan<'t, A>, AllocError>
    ensures given { IfOk result (λ n. map naming_of n.given.items
        ≡ naming.namings (map word_of words.now) names.now) }
    ensures undecided { IfOk result (λ n. n.undecided.items
        ≡ naming.undecided (map word_of words.now) names.now) }
{
    let bound = locals(alloc, words)?;
    let buckets = buckets_for(alloc, words, bound.len())?;
    let beside = buckets.as_slice();
    let given = namings(alloc, words, beside, names, bound.as_slice())?;
    let undecided = undecided(alloc, words, beside, names, bound.as_slice())?;
    Ok(RenamePlan { given, undecided })
}

// Writes the trees of these `events` with the new names. Returns `AllocError` if memory runs out.
fn rewritten<A: Allocator + Copy>(
    alloc: A,
    tree: &TopSubtree<A>,
    given: &[Naming<'_, A>],
    events: &[TreeEvent<'_, A>],
) -> Result<TopSubtree<A>, AllocError>
    requires { map event_of events.now ≡ events_from start tree.now.1 }
    ensures { IfOk result (λ t. t
        ≡ (tree.now.0, spec.renamed (map naming_of given.now) start tree.now.1)) }
{
    let mut builder = TopSubtreeBuilder::new(alloc, tree.top_subtree().delimiter)?;
    write(&mut builder, given, events)?;
    Ok(builder.build())
}

/// Renames locals and labels that a step binds, which have another context than 0. Such a local is
/// renamed if another token of the trees has the same name and another context, or if `names` has
/// its name. Each gets the first of `a_1`, `a_2` and so on that neither the trees nor `names` have.
/// `context_parents` says which steps wrote the macros of which.
///
/// A local is identified by its name and its context: the end of its block is ignored. A word that
/// isn't surely bound isn't renamed, such as a parameter of a function. A local isn't renamed
/// either if it can't be decided whether a word is that local. `undecided` lists these uses of a
/// local that meets another of its name. Returns `AllocError` if memory runs out.
pub fn rename<A: Allocator + Copy>(
    alloc: A,
    tree: &TopSubtree<A>,
    names: &[Symbol<A>],
    context_parents: ContextParents<'_>,
) -> Result<Renamed<A>, AllocError>
    ensures tree { IfOk result (λ r. r.tree
        ≡ spec.renamed_tree names.now (context_parents_of context_parents.entry) tree.now) }
    ensures undecided { IfOk result (λ r. r.undecided.items
        ≡ spec.undecided_in names.now (context_parents_of context_parents.entry) tree.now) }
{
    let events = events_of(alloc, tree.iter().remaining())?;
    let words = words_of(alloc, context_parents, events.as_slice())?;
    let RenamePlan { given, undecided } = rename_plan(alloc, words.as_slice(), names)?;
    let tree = rewritten(alloc, tree, given.as_slice(), events.as_slice())?;
    Ok(Renamed { tree, undecided })
}
