// A law about iterators over ops. It runs nothing.
ghost use Rattle.std.specs.Prelude.{Option};
ghost use Rattle.mbe_tt.specs.declared.tt.Delimiter.{Delimiter};
ghost use Rattle.mbe_semantics.specs.Syntax.Op.{Ops};
ghost use Rattle.mbe_ops.specs.OpIter.{EachOpOnce};

use crate::op_iter::OpDelimitedIter;
use std::alloc::Allocator;

/// An iterator over ops yields each op once, in order, and nothing else. For a group the opening
/// comes first and the closing last.
pub fn each_op_once<'a, A: Allocator + 'a>()
    ensures { (around : Option Delimiter) (os : Ops)
        → EachOpOnce (⟦<OpDelimitedIter<'a, A> as Iterator>⟧.next_gives) around os }
{}
