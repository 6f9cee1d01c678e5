// Equality and copies of macros.
use crate::runs::{defined, parsed};
use crate::trees::read;
use mbe::DeclarativeMacro;
use std::alloc::{AllocError, Global};
use test_rows::{nth, rows};

// Definitions. The macros of the first thirteen differ from each other and from all later macros.
// Equal tokens have equal spans in all but two of the thirteen. The pairs at the end are equal. The
// separators of a pair have different spans.
pub const ROWS: &str = rows![
    ("($($x:ident),*) => {}"),
    ("($($x:ident);*) => {}"),
    ("($($x:ident),+) => {}"),
    ("($($y:ident),*) => {}"),
    ("($($x:foo00),*) => {}"),
    ("($($x:ident)a*) => {}"),
    ("($($x:ident)1*) => {}"),
    ("($($x:ident),*) => {a}"),
    ("($($x:ident),*) => {}; x"),
    ("($($x:ident),*) => {}; () => {}"),
    (""),
    ("attr() ($($x:ident),*) => {}"),
    ("( $($x:ident),*) => {}"),
    // A macro with a fault, one that is refused, and ones with rules alone; and groups or
    // repetitions nested as deep as docs/DECISIONS.md allows.
    ("unsafe attr(x) ($a:ident $b:literal [c] 1 + $($d:expr),* $($e:ty)'f + $($g:tt)1? $(h)=>* \
    $(i)* $(k)and* $crate) => {$a $j [c] 1 + $($d $e);* $($g)? ${ignore($a)} ${index()} ${len(1)} ${count($d)} ${count($e, 1)} \
    ${concat(a, $a, 1)} $$ $crate $}; () => {}; x"),
    ("($()*) => {}; ($x) => {}"),
    ("attr(x) ($a:ident) => {$a}; ($($b:tt),*) => {[$($b)*]}"),
    ("(«256 (»$x:ident«256 )») => {«256 (»$x«256 )»}"),
    ("(«256 $(»$x:ident«256 )+») => {«256 $(»$x«256 )+»}"),
    ("($($x:ident),*) => {}", "($($x:ident) ,*) => {}"),
    ("($($x:ident)=>*) => {}", "($($x:ident) =>*) => {}"),
    ("($($x:ident)a*) => {}", "($($x:ident) a*) => {}"),
    ("($($x:ident)1*) => {}", "($($x:ident) 1*) => {}"),
    ("($($x:ident)'a*) => {}", "($($x:ident) 'a*) => {}"),
];

// Whether the macro of a text equals a copy of itself, and among the thirteen only its own.
fn is_different(alloc: Global, rules: &DeclarativeMacro, text: &str) -> Result<bool, AllocError> {
    for number in 0..13u64 {
        let other = nth(ROWS, number);
        if (*rules == defined(alloc, other)?) != (text == other) {
            return Ok(false);
        }
    }
    Ok(rules.try_clone(alloc)? == *rules)
}

/// Whether the macro of the first text passes `is_different`, or equals the macro of the second
/// text if there is one.
pub fn passes(alloc: Global, one: &str, two: &str) -> Result<bool, AllocError> {
    let rules = parsed(alloc, &read(alloc, 0, one)?)?;
    if two.is_empty() {
        is_different(alloc, &rules, one)
    } else {
        Ok(rules == defined(alloc, two)?)
    }
}
