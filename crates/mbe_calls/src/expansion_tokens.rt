// Where the tokens of a recursive expansion are from.
//
// A step has the expansion of one call. The calls in it are steps too, and their tokens replace
// them.
use crate::call_reader::CallReader;
use mbe_answers::expanded_calls::TokenOrigin;
use mbe_session::file_expander::call_steps::CallStep;
use mbe_tt::span::Span;
use mbe_tt::tt::{TokenTreesView, TtElement};
use std::alloc::{AllocError, Global};

// A step whose tokens are being added.
#[derive(Drop)]
struct OpenStep {
    // The index of the step.
    index: usize,
    // The flat tokens of its expansion. Brackets have no span.
    tokens: Vec<Option<Span>>,
    // How many of them are added.
    at: usize,
    // The index from which a step may be the next call in the expansion.
    next: usize,
}

// Returns the spans of the flat tokens of these trees. Brackets have none, since the parentheses
// around a fragment are at no bracket of a file.
fn flat_spans(alloc: Global, trees: TokenTreesView<'_>) -> Result<Vec<Option<Span>>, AllocError> {
    let mut spans = Vec::new(alloc);
    let mut cursor = trees.cursor();
    for _ in 0..trees.flat_len() {
        let span = match cursor.token_tree() {
            Some(TtElement::Leaf(leaf)) => Some(leaf.span()),
            Some(TtElement::Subtree(_, _)) | None => None,
        };
        spans.push(span)?;
        cursor.bump_or_end();
    }
    Ok(spans)
}

// Adds where these tokens are from.
fn add_origins(
    reader: CallReader<'_>,
    spans: &[Option<Span>],
    found: &mut Vec<TokenOrigin>,
) -> Result<(), AllocError> {
    for span in spans {
        if let Some(span) = span
            && let Some(extent) = reader.extent(*span)
        {
            let file = span.file as usize;
            found.push(TokenOrigin { file, extent })?;
        }
    }
    Ok(())
}

// Returns the index of the next expanded call in the expansion of a step, from `next` on.
fn next_call(steps: &[CallStep], parent: usize, next: usize) -> Option<usize> {
    let rest = steps.get(next..).unwrap_or(&[]);
    let skipped = rest.iter().position(|step| step.place.parent == Some(parent)
        && step.expansion.is_some())?;
    next.checked_add(skipped)
}

impl OpenStep {
    // Adds the tokens up to the next call in the expansion, and returns the call's index. `None` if
    // there is no such call; then all tokens are added.
    fn add_next(
        &mut self,
        reader: CallReader<'_>,
        steps: &[CallStep],
        found: &mut Vec<TokenOrigin>,
    ) -> Result<Option<usize>, AllocError> {
        let call = next_call(steps, self.index, self.next);
        let from = self.at;
        let mut to = self.tokens.len();
        if let Some(index) = call
            && let Some(step) = steps.get(index)
        {
            to = step.place.first;
            self.at = to.saturating_add(step.place.count);
            self.next = index.saturating_add(1);
        }
        add_origins(reader, self.tokens.get(from..to).unwrap_or(&[]), found)?;
        Ok(call)
    }
}

// Begins to add the tokens of the step of that index, if it is expanded.
fn open_step(
    alloc: Global,
    steps: &[CallStep],
    index: usize,
    open: &mut Vec<OpenStep>,
) -> Result<(), AllocError> {
    if let Some(step) = steps.get(index)
        && let Some(tree) = &step.expansion
    {
        open.push(OpenStep {
            index,
            tokens: flat_spans(alloc, tree.iter().remaining())?,
            at: 0,
            next: index.saturating_add(1),
        })?;
    }
    Ok(())
}

// What comes after a part of an expansion.
#[derive(Clone, Copy, Drop)]
enum Next {
    /// The call of this index.
    Call(usize),
    /// The end of the step.
    End,
    /// Nothing, since no step is open.
    Nothing,
}

// Adds the tokens of the last open step up to the next call in its expansion.
fn add_to_call(
    reader: CallReader<'_>,
    steps: &[CallStep],
    open: &mut Vec<OpenStep>,
    found: &mut Vec<TokenOrigin>,
) -> Result<Next, AllocError> {
    let at = open.len().saturating_sub(1);
    let Some(last) = open.get_mut(at) else {
        return Ok(Next::Nothing);
    };
    match last.add_next(reader, steps, found)? {
        Some(index) => Ok(Next::Call(index)),
        None => Ok(Next::End),
    }
}

// Adds a part of the last open step. A call after it becomes the last open step, and a step at its
// end is closed. Returns whether a step was open.
fn add_part(
    reader: CallReader<'_>,
    steps: &[CallStep],
    open: &mut Vec<OpenStep>,
    found: &mut Vec<TokenOrigin>,
) -> Result<bool, AllocError> {
    match add_to_call(reader, steps, open, found)? {
        Next::Call(index) => open_step(reader.alloc, steps, index, open)?,
        Next::End => {
            let _ = open.pop();
        }
        Next::Nothing => return Ok(false),
    }
    Ok(true)
}

/// Adds where the tokens of the recursive expansion of the step of that index are from.
pub(crate) fn add_expansion(
    reader: CallReader<'_>,
    steps: &[CallStep],
    index: usize,
    found: &mut Vec<TokenOrigin>,
) -> Result<(), AllocError> {
    let mut open = Vec::new(reader.alloc);
    open_step(reader.alloc, steps, index, &mut open)?;
    for _ in 0..u64::MAX {
        if !add_part(reader, steps, &mut open, found)? {
            break;
        }
    }
    Ok(())
}
