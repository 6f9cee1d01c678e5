// Replaces parts of a text.
//
// `splice` copies a text, but writes the text of each `Replacement` for the bytes that it replaces.
ghost use Rattle.std.specs.Prelude.{◌≡◌, ◌≤◌, IfOk, IsTrue, map};
ghost use Rattle.std.specs.Str.{IsCharBoundary};
ghost use Rattle.std.specs.String.{string_bytes};
ghost use Rattle.mbe_rewriter.specs.Splice.{is_boundary, can_replace, Adds, spliced};
ghost use Rattle.mbe_rewriter.specs.ReplacementViews.{part_of};

use std::alloc::{AllocError, Allocator, Global};

/// The text that replaces the bytes of a file from `start` up to `end`.
#[derive(Drop)]
pub struct Replacement<A: Allocator = Global> {
    /// The file's number, as in spans.
    pub file: u32,
    pub start: usize,
    pub end: usize,
    pub text: String<A>,
}

// Returns whether `at` is a boundary between two characters.
#[tactic(auto, unfolding(crate::specs::Splice::is_boundary))]
fn is_boundary(text: &str, at: usize) -> bool
    ensures exact { result ≡ is_boundary text.now at }
    ensures border { IsTrue result → IsCharBoundary text.now at }
{
    text.is_char_boundary(at)
}

// Returns whether the replacement is made after all bytes up to `at` are done. It must not begin
// before `at`, and must not cut a character.
#[tactic(auto, unfolding(crate::specs::Splice::can_replace))]
fn can_replace<A: Allocator>(text: &str, at: usize, replacement: &Replacement<A>) -> bool
    ensures exact { result ≡ can_replace text.now at (part_of replacement.now) }
    ensures ordered { IsTrue result → at ≤ replacement.now.start }
    ensures start { IsTrue result → IsCharBoundary text.now replacement.now.start }
    ensures end { IsTrue result → IsCharBoundary text.now replacement.now.end }
{
    at <= replacement.start
        && replacement.start <= replacement.end
        && is_boundary(text, replacement.start)
        && is_boundary(text, replacement.end)
}

// Appends the text from `at` up to the replacement, and then the replacement's text. Returns the
// end of the replaced bytes. If the replacement isn't made, appends nothing and returns `at`.
fn push_replacement<A: Allocator>(
    spliced: &mut String<A>,
    text: &str,
    at: usize,
    replacement: &Replacement<A>,
) -> Result<usize, AllocError>
    requires { IsCharBoundary text.now at }
    ensures adds { IfOk result (λ next. Adds text.now (part_of replacement.now)
        at (string_bytes spliced.old) next (string_bytes spliced.new)) }
    ensures border { IfOk result (IsCharBoundary text.now) }
{
    if !can_replace(text, at, replacement) {
        return Ok(at);
    }
    spliced.push_str(&text[at..replacement.start])?;
    spliced.push_str(replacement.text.as_str())?;
    Ok(replacement.end)
}

/// Returns the text with these parts replaced. The replacements come in the order of the text.
/// Every other byte is unchanged. A replacement is skipped if it begins before the end of the
/// previous one, or would cut a character. Returns `AllocError` if memory runs out.
pub fn splice<A: Allocator + Copy>(
    alloc: A,
    text: &str,
    replacements: &[Replacement<A>],
) -> Result<String<A>, AllocError>
    ensures { IfOk result (λ s. string_bytes s ≡ spliced text.now (map part_of replacements.now)) }
{
    let mut spliced = String::new(alloc);
    let mut copied = 0;
    for replacement in replacements {
        copied = push_replacement(&mut spliced, text, copied, replacement)?;
    }
    spliced.push_str(&text[copied..])?;
    Ok(spliced)
}
