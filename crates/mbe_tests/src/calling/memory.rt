// Allocation failures.
use crate::calling::expansions::expand_call;
use mbe::DeclarativeMacro;
use mbe_text::lexer::{LexError, lex};
use mbe_tt::span::Edition;
use std::alloc::{AllocError, Allocator, Global};
use test_rows::failing_allocator::FailingAllocator;

/// Reads a definition and expands a call, all in memory of this allocator.
pub fn whole_run<A: Allocator + Copy>(alloc: A) -> Result<(), LexError> {
    let rules = lex(alloc, "($x:ident) => {$x $x}", 0)?;
    let argument = lex(alloc, "a", 1)?;
    let defined = DeclarativeMacro::parse_macro_rules(alloc, &rules, |_ctx| Edition::Edition2024)?;
    let _expansion = expand_call(alloc, &defined, &argument)?;
    Ok(())
}

/// How many requests for memory a run makes: each is refused in turn, until a run meets no refusal.
pub fn count_requests(alloc: Global) -> Result<u64, AllocError> {
    for number in 1..1_000u64 {
        let refusing = FailingAllocator::new(alloc, number);
        match whole_run(&refusing) {
            Err(LexError::OutOfMemory) => {}
            Ok(()) | Err(LexError::Fault(_)) if !refusing.has_failed_once() => return Ok(
                number - 1,
            ),
            Ok(()) | Err(LexError::Fault(_)) => return Err(AllocError),
        }
    }
    Err(AllocError)
}
