// Finds uses of names that a call may bind as a pattern.
//
// A call may be a pattern, as in `let m!() = 1;`. Then the names that the macro's template binds
// are locals of the call alone. This module doesn't know which calls are patterns, but the trees
// after a call tell which may be. A name that such a call binds is unchanged. If the trees after
// the call use the name, the first use is listed as undecided.
ghost use Rattle.std.specs.Prelude.{◌≡◌, ◌++◌, [], IfOk, OnOk, map};
ghost use Rattle.mbe_tt.specs.Views.LeafViews.{leaf_of};
ghost use Rattle.mbe_tt.specs.Views.View.{trees};
ghost use Rattle.mbe_rewriter.specs.Hygiene.EventViews.{event_of, word_of};
ghost use Rattle.mbe_rewriter.specs.Hygiene.LocalNames.{words};
ghost use Rattle.mbe_rewriter.specs.Hygiene.PatternCalls as spec;

use crate::hygiene::local_names::{ContextParents, UndecidedUse, Word, binds_role, words_of};
use crate::hygiene::lookahead::{
    begins_arm, colon_follows, equals_follows, front_sign, in_follows, second_sign,
};
use crate::hygiene::scan_state::{Region, ScanState, TokenRole};
use crate::hygiene::token_classes::Sign;
use crate::hygiene::tree_events::{TreeEvent, events_from, events_of, start};
use mbe_tt::span::Span;
use mbe_tt::tt::{Leaf, TokenTreesView};
use std::alloc::{AllocError, Allocator};

// ---- which calls may be patterns

fn is_bar(sign: Option<Sign>) -> bool
    ensures { result ≡ spec.is_bar sign }
{
    matches!(sign, Some(Sign::Bar))
}

// Returns whether a `|` follows that begins no `||`.
fn bar_follows<A: Allocator>(tokens: TokenTreesView<'_, A>) -> bool
    ensures { result ≡ spec.bar_follows (trees tokens.entry) }
{
    is_bar(front_sign(tokens)) && !is_bar(second_sign(tokens))
}

// Returns whether a pattern may end before these trees.
fn follows_pattern<A: Allocator>(left: TokenTreesView<'_, A>) -> bool
    ensures { result ≡ spec.follows_pattern (trees left.entry) }
{
    equals_follows(left)
        || colon_follows(left)
        || bar_follows(left)
        || in_follows(left)
        || begins_arm(left)
}

// ---- the names that a pattern binds

fn pattern_start() -> ScanState
    ensures { result ≡ spec.pattern_start }
{
    ScanState {
        region: Region::Pattern,
        ..start()
    }
}

// Returns whether a word of a step binds a name, in a pattern.
fn binds_name(role: TokenRole, span: Span, mark: u32) -> bool
    ensures { result ≡ spec.binds_name role span mark }
{
    binds_role(role) && mark < span.ctx.0
}

fn push_bound<'t, A: Allocator>(
    found: &mut Vec<Word<'t>, A>,
    leaf: &'t Leaf<A>,
    role: TokenRole,
    mark: u32,
) -> Result<(), AllocError>
    ensures { OnOk result (map word_of found.new.items
        ≡ map word_of found.old.items ++ spec.bound_in_leaf mark (leaf_of leaf.now) role) }
{
    match leaf {
        Leaf::Ident(ident) => {
            if binds_name(role, ident.span, mark) {
                found.push(Word {
                    text: ident.sym.as_str(),
                    span: ident.span,
                    role,
                })?;
            }
            Ok(())
        }
        Leaf::Literal(_) | Leaf::Punct(_) => Ok(()),
    }
}

fn push_bound_in<'t, A: Allocator>(
    found: &mut Vec<Word<'t>, A>,
    event: TreeEvent<'t, A>,
    mark: u32,
) -> Result<(), AllocError>
    ensures { OnOk result (map word_of found.new.items
        ≡ map word_of found.old.items ++ spec.bound_in_event mark (event_of event.entry)) }
{
    match event {
        TreeEvent::Leaf(leaf, role) => push_bound(found, leaf, role, mark),
        TreeEvent::Open(..) | TreeEvent::Close(..) => Ok(()),
    }
}

fn bound_names<'t, A: Allocator + Copy>(
    alloc: A,
    events: &[TreeEvent<'t, A>],
    mark: u32,
) -> Result<Vec<Word<'t>, A>, AllocError>
    ensures { IfOk result (λ v. map word_of v.items
        ≡ spec.bound_names mark (map event_of events.now)) }
{
    let mut found = Vec::new(alloc);
    for event in events {
        push_bound_in(&mut found, *event, mark)?;
    }
    Ok(found)
}

// ---- uses after the call

fn is_use(role: TokenRole) -> bool
    ensures { result ≡ spec.is_use role }
{
    matches!(
        role,
        TokenRole::Used | TokenRole::Unsure | TokenRole::Text | TokenRole::Inner
    )
}

fn is_use_of(word: Word<'_>, name: Word<'_>) -> bool
    ensures { result ≡ spec.is_use_of (word_of word.entry) (word_of name.entry) }
{
    is_use(word.role) && word.text == name.text
}

// Returns the span of the first use of a name.
fn use_in(name: Word<'_>, words: &[Word<'_>]) -> Option<Span>
    ensures { result ≡ spec.use_in (word_of name.entry) (map word_of words.now) }
{
    for word in words {
        if is_use_of(*word, name) {
            return Some(word.span);
        }
    }
    None
}

// Appends the first use of a name, if there is one.
fn push_first_use<A: Allocator>(
    found: &mut Vec<UndecidedUse, A>,
    name: Word<'_>,
    words: &[Word<'_>],
) -> Result<(), AllocError>
    ensures { OnOk result (found.new.items ≡ found.old.items
        ++ spec.first_use (word_of name.entry) (map word_of words.now)) }
{
    if let Some(place) = use_in(name, words) {
        found.push(UndecidedUse {
            bound: name.span,
            place,
        })?;
    }
    Ok(())
}

fn push_first_uses<A: Allocator>(
    found: &mut Vec<UndecidedUse, A>,
    names: &[Word<'_>],
    words: &[Word<'_>],
) -> Result<(), AllocError>
    ensures { OnOk result (found.new.items
        ≡ found.old.items ++ spec.first_uses (map word_of names.now) (map word_of words.now)) }
{
    for name in names {
        push_first_use(found, *name, words)?;
    }
    Ok(())
}

// Returns the words of the trees after a call. `events` are the events of these trees.
fn words_after<'t, A: Allocator + Copy>(
    alloc: A,
    events: &[TreeEvent<'t, A>],
) -> Result<Vec<Word<'t>, A>, AllocError>
    ensures { IfOk result (λ v. map word_of v.items
        ≡ words (record { contexts = []; mark = 0 }) (map event_of events.now)) }
{
    let context_parents = ContextParents {
        contexts: &[],
        mark: 0,
    };
    words_of(alloc, context_parents, events)
}

/// Appends to `found` the doubts of an expansion that may be a pattern. A doubt is a name that a
/// step binds there, with its first use in `left`, the trees after the call. Contexts up to `mark`
/// belong to earlier calls. Returns `AllocError` if memory runs out.
pub(crate) fn push_pattern_doubts<A: Allocator + Copy>(
    alloc: A,
    found: &mut Vec<UndecidedUse, A>,
    tokens: TokenTreesView<'_, A>,
    left: TokenTreesView<'_, A>,
    mark: u32,
) -> Result<(), AllocError>
    ensures { OnOk result (found.new.items ≡ found.old.items
        ++ spec.pattern_doubts mark (trees tokens.entry) (trees left.entry)) }
{
    if !follows_pattern(left) {
        return Ok(());
    }
    let events = events_from(alloc, pattern_start(), tokens)?;
    let names = bound_names(alloc, events.as_slice(), mark)?;
    if names.is_empty() {
        return Ok(());
    }
    let after = events_of(alloc, left)?;
    let words = words_after(alloc, after.as_slice())?;
    push_first_uses(found, names.as_slice(), words.as_slice())
}
