// Turns trees into a sequence of events: leaves with their roles, openings and closings.
ghost use Rattle.std.specs.Prelude.{◌≡◌, ◌<◌, IfOk, OnOk, length, map, []};
ghost use Rattle.mbe_tt.specs.Views.LeafViews.{leaf_of};
ghost use Rattle.mbe_tt.specs.Views.View.{trees};
ghost use Rattle.mbe_rewriter.specs.Hygiene.ScanState.{start};
ghost use Rattle.mbe_rewriter.specs.Hygiene.EventViews.{event_of};
ghost use Rattle.mbe_rewriter.specs.Hygiene.TreeEvents as spec;

use crate::hygiene::roles::{close_role, group_role, punct_role, role_of};
use crate::hygiene::scan_state::{
    PreviousToken, Region, ScanState, StatementPart, TokenRole, after_group, after_leaf,
    inside_group,
};
use crate::hygiene::token_classes::sign_of;
use mbe_tt::span::Span;
use mbe_tt::tt::{DelimiterKind, Leaf, LitKind, TokenTreesView, TtElement, TtIter};
use std::alloc::{AllocError, Allocator};

/// A leaf with its role, an opening, or a closing.
#[derive(Drop)]
#[derive_where(Clone, Copy)]
pub(crate) enum TreeEvent<'t, A: Allocator> {
    Leaf(&'t Leaf<A>, TokenRole),
    Open(DelimiterKind, Span, TokenRole),
    Close(Span, TokenRole),
}

pub(crate) fn start() -> ScanState
    ensures { result ≡ start }
{
    ScanState {
        before: PreviousToken::Start,
        region: Region::Code,
        part: StatementPart::Whole,
        is_head: false,
        in_let: false,
        in_head_let: false,
        is_late: false,
    }
}

fn literal_role(region: Region, kind: LitKind) -> TokenRole
    ensures { result ≡ spec.literal_role region kind }
{
    match kind {
        LitKind::Str | LitKind::StrRaw(_) => match region {
            Region::Opaque => TokenRole::Other,
            _ => TokenRole::Text,
        },
        _ => TokenRole::Other,
    }
}

// Returns the role of a leaf, at `scan` and before `rest`.
fn leaf_role<A: Allocator>(
    scan: ScanState,
    leaf: &Leaf<A>,
    rest: TokenTreesView<'_, A>,
) -> TokenRole
    ensures { result ≡ spec.leaf_role scan (leaf_of leaf.now) (trees rest.entry) }
{
    match leaf {
        Leaf::Ident(ident) => role_of(scan, ident, rest),
        Leaf::Literal(literal) => literal_role(scan.region, literal.kind),
        Leaf::Punct(punct) => punct_role(scan, sign_of(punct.char), rest),
    }
}

// A group around the trees: its closing with the role, and the state and trees after it.
type OpenGroup<'t, A> = ((Span, TokenRole), ScanState, TtIter<'t, A>);

// Pushes the `events` of these trees. The caller owns the vectors, so no early return drops them.
fn walk<'t, A: Allocator>(
    begin: ScanState,
    tokens: TokenTreesView<'t, A>,
    found: &mut Vec<TreeEvent<'t, A>, A>,
    open_groups: &mut Vec<OpenGroup<'t, A>, A>,
) -> Result<(), AllocError>
    requires found { found.old.items ≡ [] }
    requires open_groups { open_groups.old.items ≡ [] }
    ensures { OnOk result (map event_of found.new.items ≡ spec.events begin (trees tokens.entry)) }
{
    let mut iter = tokens.iter();
    let mut scan = begin;
    'tokens: loop {
        match iter.next() {
            Some(TtElement::Leaf(leaf)) => {
                let rest = iter.remaining();
                found.push(TreeEvent::Leaf(leaf, leaf_role(scan, leaf, rest)))?;
                scan = after_leaf(scan, leaf, rest);
            }
            Some(TtElement::Subtree(group, inside)) => {
                let delimiter = group.delimiter;
                let after = after_group(scan, delimiter.kind, iter.remaining());
                let role = group_role(scan, delimiter.kind);
                let closing = (delimiter.close, close_role(scan, delimiter.kind));
                found.push(TreeEvent::Open(delimiter.kind, delimiter.opening, role))?;
                open_groups.push((closing, after, iter))?;
                scan = inside_group(scan, delimiter.kind, inside.remaining());
                iter = inside;
            }
            None => match open_groups.pop() {
                None => return Ok(()),
                Some((close, after, rest)) => {
                    found.push(TreeEvent::Close(close.0, close.1))?;
                    scan = after;
                    iter = rest;
                }
            },
        }
    }
}

/// Returns the `events` of these trees, from the state `begin` on. Returns `AllocError` if memory
/// runs out.
pub(crate) fn events_from<'t, A: Allocator + Copy>(
    alloc: A,
    begin: ScanState,
    tokens: TokenTreesView<'t, A>,
) -> Result<Vec<TreeEvent<'t, A>, A>, AllocError>
    ensures { IfOk result (λ v. map event_of v.items ≡ spec.events begin (trees tokens.entry)) }
{
    let mut found = Vec::new(alloc);
    let mut open_groups = Vec::new(alloc);
    walk(begin, tokens, &mut found, &mut open_groups)?;
    Ok(found)
}

/// Returns the `events` of these trees. Returns `AllocError` if memory runs out.
pub(crate) fn events_of<'t, A: Allocator + Copy>(
    alloc: A,
    tokens: TokenTreesView<'t, A>,
) -> Result<Vec<TreeEvent<'t, A>, A>, AllocError>
    ensures { IfOk result (λ v. map event_of v.items ≡ spec.events start (trees tokens.entry)) }
{
    events_from(alloc, start(), tokens)
}
