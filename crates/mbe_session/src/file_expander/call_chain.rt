// Notes the calls that led to a call in an expansion. The first note is on the call in the file.
// The next notes are on the calls that the expansions wrote. All are children of the last note on
// the call that is none. The texts and the numbers are the same as for rustc's
// `-Z macro-backtrace`.
ghost use Rattle.std.specs.Prelude.{◌≡◌, OnOk};
ghost use Rattle.mbe_session.specs.SessionViews.{setting_of, state_of};

use crate::file_expander::FileExpander;
use crate::notes::{Level, Note};
use mbe_rewriter::macro_items::MacroCall;
use mbe_tt::span::Span;
use std::alloc::{AllocError, Allocator};

// How many calls are noted at each end of a long chain.
const SHOWN_AT_AN_END: usize = 4;

impl<A: Allocator + Copy> FileExpander<'_, A> {
    // How many calls are around one that may be expanded that deep.
    fn nesting(&self, depth: u32) -> usize {
        self.settings.depth.saturating_sub(depth) as usize
    }

    // Counts a call if it is expanded, and keeps its span for what is noted in its expansion.
    pub(crate) fn enter_call(
        &mut self,
        call: MacroCall<'_, A>,
        depth: u32,
        is_expanded: bool,
    ) -> Result<(), AllocError>
        ensures setting { OnOk result (setting_of self.new ≡ setting_of self.old) }
        ensures state { OnOk result (state_of self.new ≡ state_of self.old) }
    {
        if !is_expanded {
            return Ok(());
        }
        self.counts.add_expanded();
        let nesting = self.nesting(depth);
        self.callers.truncate(nesting);
        self.callers.push(whole_span(call))?;
        Ok(())
    }

    // Notes the calls that led to a call, if something was noted of it after the first `mark`
    // notes.
    pub(crate) fn note_callers(&mut self, mark: usize, depth: u32) -> Result<(), AllocError>
        ensures setting { OnOk result (setting_of self.new ≡ setting_of self.old) }
        ensures state { OnOk result (state_of self.new ≡ state_of self.old) }
    {
        if !self.is_told_after(mark) {
            return Ok(());
        }
        let nesting = self.nesting(depth);
        let callers = without_repeats(self.alloc, self.callers.as_slice(), nesting)?;
        push_callers(self.alloc, &mut self.notes, callers.as_slice())
    }

    // Whether something was noted after the first `mark` notes. The notes on steps and origins
    // don't count, since they are on each call.
    fn is_told_after(&self, mark: usize) -> bool {
        let is_followed = self.settings.is_traced || self.settings.is_origin_noted;
        self.notes
            .iter()
            .skip(mark)
            .any(|note| !is_followed || matches!(note.level, Level::Error))
    }
}

// Returns the span of a call, from its path to its closing delimiter. If the two are in different
// files or in the wrong order, it returns the span of the name.
fn whole_span<A: Allocator>(call: MacroCall<'_, A>) -> Span {
    let (start, close) = (call.start, call.group.delimiter.close);
    if start.file != close.file || close.end < start.end {
        return call.name.span;
    }
    Span {
        end: close.end,
        ..start
    }
}

// Whether two spans are the same part of a file.
fn is_same_part(one: Span, other: Span) -> bool {
    one.file == other.file && one.start == other.start && one.end == other.end
}

// Returns the first `count` calls, the last one first. As in rustc, the list omits a call with the
// span of one of the two calls before it in the list. A recursive macro repeats such spans.
fn without_repeats<A: Allocator + Copy>(
    alloc: A,
    calls: &[Span],
    count: usize,
) -> Result<Vec<Span, A>, AllocError> {
    let mut kept: Vec<Span, A> = Vec::new(alloc);
    for call in calls.get(..count).unwrap_or(calls).iter().rev() {
        let is_repeat = kept
            .iter()
            .rev()
            .take(2)
            .any(|after| is_same_part(*after, *call));
        if !is_repeat {
            kept.push(*call)?;
        }
    }
    Ok(kept)
}

// Returns the message at the call with this index, of so many calls.
fn caller_text<A: Allocator + Copy>(
    alloc: A,
    index: usize,
    count: usize,
) -> Result<String<A>, AllocError> {
    let number = index.saturating_add(1);
    let hidden = hidden_count(count);
    if count == 1 {
        return String::from_str(alloc, "in this macro invocation");
    }
    if number == SHOWN_AT_AN_END && hidden > 0 {
        return format!(in alloc;
            "in this macro invocation (#{number}), and {hidden} more that are not shown"
        );
    }
    format!(in alloc; "in this macro invocation (#{number})")
}

// Returns how many of so many calls aren't noted.
fn hidden_count(count: usize) -> usize {
    count.saturating_sub(SHOWN_AT_AN_END.saturating_mul(2))
}

// Whether the call with this index is noted, of so many calls.
fn is_shown(index: usize, count: usize) -> bool {
    index < SHOWN_AT_AN_END || index >= count.saturating_sub(SHOWN_AT_AN_END)
}

// Notes the calls, except those in the middle of many. The last one, which is the file's, is noted
// first.
fn push_callers<A: Allocator + Copy>(
    alloc: A,
    notes: &mut Vec<Note<A>, A>,
    calls: &[Span],
) -> Result<(), AllocError> {
    let count = calls.len();
    for (index, call) in calls.iter().rev().enumerate() {
        if is_shown(index, count) {
            notes.push(Note {
                level: Level::Note,
                span: *call,
                message: caller_text(alloc, index, count)?,
                is_child: true,
            })?;
        }
    }
    Ok(())
}
