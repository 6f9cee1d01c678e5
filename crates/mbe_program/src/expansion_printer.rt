// The output of a run that expands: a line for the error if there is one, a line for the rule, and
// the lines of the tree.
ghost use Rattle.std.specs.Prelude.{◌≡◌, ◌++◌, IfOk, option_map};
ghost use Rattle.std.specs.String.{string_bytes};
ghost use Rattle.mbe_ops.specs.Errors.ErrorViews.{error_of};
ghost use Rattle.mbe_text.specs.TreeDump.{tree_text};
ghost use Rattle.mbe_text.specs.WriterBytes.{Writes};
ghost use Rattle.mbe_program.specs.ExpansionText as spec;

use mbe::{ExpandError, MatchedArmIndex};
use mbe_text::output::write_whole;
use mbe_text::tree_dump::{DisplaySpan, print_tree};
use mbe_tt::tt::TopSubtree;
use std::alloc::{AllocError, Allocator};
use std::io;
use std::io::Write;

// Returns the line of the error; an empty text without one.
fn error_line<A: Allocator + Copy>(
    alloc: A,
    error: Option<&ExpandError<A>>,
) -> Result<String<A>, AllocError>
    ensures { IfOk result (λ line. string_bytes line
        ≡ spec.error_line (option_map (λ e. error_of e.now) error.entry)) }
{
    let Some(error) = error else {
        return Ok(String::new(alloc));
    };
    let (span, kind) = &*error.inner;
    let place = DisplaySpan(*span);
    format!(in alloc; "error: {kind} at {place}\n")
}

// Returns the line of the rule.
fn arm_line<A: Allocator + Copy>(alloc: A, arm: MatchedArmIndex) -> Result<String<A>, AllocError>
    ensures { IfOk result (λ line. string_bytes line ≡ spec.arm_line arm) }
{
    match arm {
        Some(index) => format!(in alloc; "arm {index}\n"),
        None => String::from_str(alloc, "arm none\n"),
    }
}

/// Returns the lines before the tree: the error's, if there is one, and the rule's. `AllocError` if
/// out of memory.
pub fn head_of<A: Allocator + Copy>(
    alloc: A,
    error: Option<&ExpandError<A>>,
    arm: MatchedArmIndex,
) -> Result<String<A>, AllocError>
    ensures { IfOk result (λ head. string_bytes head
        ≡ spec.head (option_map (λ e. error_of e.now) error.entry) arm) }
{
    let error = error_line(alloc, error)?;
    let arm = arm_line(alloc, arm)?;
    format!(in alloc; "{error}{arm}")
}

/// Writes `head` and the lines of the tree, and flushes. The error is the first of the writer; a
/// prefix was then written.
pub fn print_expansion<A: Allocator, W: Write>(
    head: &str,
    tree: &TopSubtree<A>,
    out: &mut W,
) -> io::Result<()>
    ensures { Writes (W.contents out.old) (W.contents out.new) result
        (head.now ++ tree_text tree.now) }
{
    write_whole(head.as_bytes(), out)?;
    print_tree(tree, out)?;
    out.flush()
}
