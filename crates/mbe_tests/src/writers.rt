// Runs in which each request for memory, or each call of the writer, fails in turn.
use mbe_program::program::run;
use mbe_tt::span::Edition;
use std::alloc::Global;
use std::io;
use std::io::Write;
use test_rows::failing_allocator::FailingAllocator;
use test_rows::{Fields, number};

/// A writer that writes at most three bytes at once. One of its calls fails, counted from 1; or
/// from one of its writes on it writes nothing.
#[derive(Drop)]
struct SlowWriter {
    written: Vec<u8>,
    is_flushed: bool,
    left: u64,
    is_full: bool,
}

impl SlowWriter {
    // Whether the writer fails at this call.
    fn fails(&mut self) -> bool {
        self.left = self.left.saturating_sub(1);
        self.left == 0
    }
}

fn broken() -> io::Error {
    io::Error::from(io::ErrorKind::BrokenPipe)
}

impl Write for SlowWriter {
    fn write(&mut self, buf: &[u8]) -> io::Result<usize> {
        self.is_flushed = false;
        if self.fails() {
            return if self.is_full { Ok(0) } else { Err(broken()) };
        }
        let count = buf.len().min(3);
        self.written.extend_from_slice(&buf[..count])?;
        Ok(count)
    }

    fn flush(&mut self) -> io::Result<()> {
        if !self.is_full && self.fails() {
            return Err(broken());
        }
        self.is_flushed = true;
        Ok(())
    }
}

/// What fails in a run, in turn.
#[derive(Clone, Copy)]
enum FailureCause {
    Requests,
    Calls,
    Writes,
}

// Returns the status of a run, which lints or expands; 6 if a text is too long.
fn status(
    alloc: &FailingAllocator<Global>,
    [def, arg, ..]: Fields,
    lint: bool,
    out: &mut SlowWriter,
) -> u8 {
    if def.len() > u32::MAX as usize || arg.len() > u32::MAX as usize {
        return 6;
    }
    run(alloc, def, arg, Edition::Edition2024, lint, out).status()
}

// Whether a run ended as it must. After an allocation failure the status is out of memory, and
// nothing is written. After a failure of the writer the status is that it can't write, and a prefix
// of the row is written. Else all is as the row says.
fn passes(
    [_def, _arg, status, want, ..]: Fields,
    (is_refused, is_broken): (bool, bool),
    found: u8,
    out: &SlowWriter,
) -> bool {
    let written = out.written.as_slice();
    if is_refused {
        found == 5 && written.is_empty()
    } else if is_broken {
        found == 3 && want.as_bytes().starts_with(written)
    } else {
        usize::from(found) == number(status) && out.is_flushed && written == want.as_bytes()
    }
}

// Whether the request or the call of this number failed. `None` if the run didn't end as it must.
fn has_failed(
    alloc: Global,
    fields: Fields,
    (lint, match_error): (bool, FailureCause),
    number: u64,
) -> Option<bool> {
    let (request, call) = match match_error {
        FailureCause::Requests => (number, u64::MAX),
        FailureCause::Calls | FailureCause::Writes => (u64::MAX, number),
    };
    let refusing = FailingAllocator::new(alloc, request);
    let mut out = SlowWriter {
        written: Vec::new(alloc),
        is_flushed: true,
        left: call,
        is_full: matches!(match_error, FailureCause::Writes),
    };
    let found = status(&refusing, fields, lint, &mut out);
    let is_refused = refusing.has_failed_once();
    let is_broken = out.left == 0;
    passes(fields, (is_refused, is_broken), found, &out).then_some(is_refused || is_broken)
}

// Whether each failure is reported, and at least so many happen.
fn are_reported(
    alloc: Global,
    fields: Fields,
    (lint, match_error): (bool, FailureCause),
    least: u64,
) -> bool {
    for number in 1..100_000u64 {
        match has_failed(alloc, fields, (lint, match_error), number) {
            Some(true) => {}
            Some(false) => return number > least,
            None => return false,
        }
    }
    false
}

/// Whether each request and each call that fails is reported. There is at least one write for every
/// three bytes, and a flush after it.
pub fn fails_at_each_call(alloc: Global, fields: Fields, lint: bool) -> bool {
    let writes = (fields[3].len() / 3) as u64;
    let requests = if lint { 1 } else { 10 };
    are_reported(alloc, fields, (lint, FailureCause::Requests), requests)
        && are_reported(
            alloc,
            fields,
            (lint, FailureCause::Calls),
            writes.saturating_add(1),
        )
        && are_reported(alloc, fields, (lint, FailureCause::Writes), writes)
}
