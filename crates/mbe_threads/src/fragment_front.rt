// Takes fragments from the front of trees by a grammar.
//
// A grammar says how many flat tokens a fragment has. This module rounds the count up to whole
// trees, and reports a fault of the grammar as an error.
ghost use Rattle.std.specs.Prelude.{◌≡◌, ◌≤◌, ◌++◌, codes, IfOk, OnOk, OnErr};
ghost use Rattle.mbe_tt.specs.Trees.Tree.{flat_len, cut_flat};
ghost use Rattle.mbe_tt.specs.Views.View.{trees};
ghost use Rattle.mbe_tt.specs.Grammars.Grammar.{front, is_accepted};
ghost use Rattle.mbe_tt.specs.Buffers.Offsets.{cursor_trees, offset_of};
ghost use Rattle.mbe_semantics.specs.Expansion.Error.{entry_name, front_error, binding_error};
ghost use Rattle.mbe_ops.specs.Errors.ErrorViews.{error_of, errors_of};

use mbe_ops::errors::error::{ExpandError, ExpandErrorKind};
use mbe_ops::errors::value_result::{ExpandResult, ValueResult};
use mbe_tt::grammar::{FragmentGrammar, PrefixEntryPoint};
use mbe_tt::span::{DelimSpan, Span};
use mbe_tt::tt::{Cursor, TokenTreesView, TtIter};
use std::alloc::{AllocError, Allocator, Global};

/// Consumes the fragment that a grammar finds at the front of the iterator (as in rust-analyzer).
///
/// The grammar gets all remaining trees, and counts flat tokens: leaves, openings and closings. The
/// value is the shortest list of whole trees at the front that holds as many tokens. It is borrowed
/// from the argument. The iterator moves behind it.
///
/// If the grammar faults, or its count ends inside a group, an error stands beside the value:
/// `BindingError` with "expected " and the entry point's name. Its span is the first span of the
/// remaining trees, or `delim_span.close` if no tree remained.
///
/// `AllocError` if the grammar or the error's text is out of memory. The iterator hasn't moved
/// then.
pub fn expect_fragment<'t, A: Allocator + Copy, G: FragmentGrammar>(
    alloc: A,
    grammar: &G,
    tt_iter: &mut TtIter<'t, A>,
    entry_point: PrefixEntryPoint,
    delim_span: DelimSpan,
) -> Result<ExpandResult<TokenTreesView<'t, A>, A>, AllocError>
    ensures value { IfOk result (λ r. trees r.value
        ≡ (front (G.grammar grammar.now) entry_point tt_iter.old).front) }
    ensures rest { OnOk result (tt_iter.new
        ≡ (front (G.grammar grammar.now) entry_point tt_iter.old).back) }
    ensures error { IfOk result (λ r. errors_of r.err
        ≡ front_error (G.grammar grammar.now) entry_point tt_iter.old delim_span) }
    ensures unmoved { OnErr result (tt_iter.new ≡ tt_iter.old) }
{
    let span = tt_iter.next_span().unwrap_or(delim_span.close);
    let mut ahead = tt_iter.fork();
    let counted = eat_front(grammar, entry_point, &mut ahead)?;
    let err = if counted.is_accepted {
        None
    } else {
        Some(expected(alloc, entry_point, span)?)
    };
    *tt_iter = ahead;
    Ok(ValueResult {
        value: counted.whole,
        err,
    })
}

/// The trees at the front that a grammar counts, rounded up to whole trees.
#[derive(Drop)]
pub struct GrammarFront<'t, A: Allocator = Global> {
    pub whole: TokenTreesView<'t, A>,
    // Whether the grammar doesn't fault, and its count ends between two trees.
    pub is_accepted: bool,
}

/// Consumes the trees that the grammar counts, rounded up to whole trees. `AllocError` if the
/// grammar is out of memory. The iterator hasn't moved then.
pub fn eat_front<'t, A: Allocator, G: FragmentGrammar>(
    grammar: &G,
    entry_point: PrefixEntryPoint,
    tt_iter: &mut TtIter<'t, A>,
) -> Result<GrammarFront<'t, A>, AllocError>
    ensures whole { IfOk result (λ r. trees r.whole
        ≡ (front (G.grammar grammar.now) entry_point tt_iter.old).front) }
    ensures good { IfOk result (λ r. r.is_accepted
        ≡ is_accepted (G.grammar grammar.now) entry_point tt_iter.old) }
    ensures rest { OnOk result (tt_iter.new
        ≡ (front (G.grammar grammar.now) entry_point tt_iter.old).back) }
    ensures unmoved { OnErr result (tt_iter.new ≡ tt_iter.old) }
{
    let remaining = tt_iter.remaining();
    let front = grammar.parse(entry_point, remaining)?;
    let mut cursor = cursor_at(remaining, front.count);
    let is_accepted = !front.fault && cursor.is_root();
    leave_groups(&mut cursor);
    tt_iter.flat_advance_to(&cursor);
    Ok(GrammarFront {
        whole: cursor.crossed(),
        is_accepted,
    })
}

// Returns a cursor after `count` flat tokens.
fn cursor_at<'t, A: Allocator>(view: TokenTreesView<'t, A>, count: usize) -> Cursor<'t, A>
    requires { count ≤ flat_len (trees view) }
    ensures { result ≡ (trees view.entry, count) }
{
    let mut cursor = view.cursor();
    for _passed in 0..count {
        cursor.bump_or_end();
    }
    cursor
}

// Moves the cursor out of all groups: to the end of the outermost tree around it.
fn leave_groups<A: Allocator>(cursor: &mut Cursor<'_, A>)
    requires { offset_of cursor.old ≤ flat_len (cursor_trees cursor.old) }
    ensures { cursor.new ≡ (
      cursor_trees cursor.old,
      flat_len (cut_flat (offset_of cursor.old) (cursor_trees cursor.old)).front,
    ) }
{
    'groups: while !cursor.is_root() {
        cursor.bump_or_end();
    }
}

fn expected<A: Allocator + Copy>(
    alloc: A,
    entry_point: PrefixEntryPoint,
    span: Span,
) -> Result<ExpandError<A>, AllocError>
    ensures { IfOk result (λ e. error_of e
        ≡ record {
          span = span;
          kind = binding_error (codes "expected " ++ entry_name entry_point);
        }) }
{
    let name = name_of(entry_point);
    let text = format!(in alloc; "expected {name}")?;
    ExpandError::new(alloc, span, ExpandErrorKind::BindingError(text))
}

// Returns the entry point's name, as errors show it.
fn name_of(entry_point: PrefixEntryPoint) -> &'static str
    ensures { result.now ≡ entry_name entry_point }
{
    match entry_point {
        PrefixEntryPoint::Path => "Path",
        PrefixEntryPoint::Expr => "Expr",
        PrefixEntryPoint::Ty => "Ty",
        PrefixEntryPoint::PatTop => "PatTop",
        PrefixEntryPoint::Pat => "Pat",
        PrefixEntryPoint::Stmt => "Stmt",
        PrefixEntryPoint::Block => "Block",
        PrefixEntryPoint::MetaItem => "MetaItem",
        PrefixEntryPoint::Item => "Item",
        PrefixEntryPoint::Vis => "Vis",
    }
}
