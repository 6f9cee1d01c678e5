// The table of symbols: texts that it has and hasn't, many of them, and allocation failures. A text
// of at most 14 bytes is in its symbol; longer texts are shared.
use crate::text::prefixes::trees;
use mbe_text::lexer::{LexError, lex_with_table};
use mbe_text::symbol_table::SymbolTable;
use mbe_tt::tt::TopSubtree;
use std::alloc::{AllocError, Allocator, Global};
use test_rows::failing_allocator::FailingAllocator;

// So many texts that the table grows several times.
const COUNT: usize = 300;

// Whether the table's symbol of a text has that text. `None` after an allocation failure.
fn found<A: Allocator + Copy>(table: &mut SymbolTable<A>, text: &str) -> Option<bool> {
    match table.intern(text) {
        Ok(symbol) => Some(symbol.as_str() == text),
        Err(AllocError) => None,
    }
}

fn has<A: Allocator + Copy>(table: &mut SymbolTable<A>, text: &str) -> bool {
    found(table, text).unwrap_or(false)
}

// Whether the table has, for each of `COUNT` texts, the symbol of that text.
fn has_all(alloc: Global, table: &mut SymbolTable) -> bool {
    for number in 0..COUNT {
        match format!(in alloc; "name{number} of many letters") {
            Ok(text) if has(table, text.as_str()) => {}
            _ => return false,
        }
    }
    true
}

/// Whether each text has a symbol of its own.
pub fn are_apart(alloc: Global) -> bool {
    let mut table = SymbolTable::new(alloc);
    has(&mut table, "")
        && has(&mut table, "fourteen_bytes")
        && has(&mut table, "of_fifteen_byte")
        && has_all(alloc, &mut table)
        && has_all(alloc, &mut table)
        && has(&mut table, "of_fifteen_byte")
        && has(&mut table, "")
}

// Lexes a text that isn't long, with the table.
fn trees_by(table: &mut SymbolTable, text: &str) -> Result<TopSubtree, LexError> {
    if text.len() < 1_000_000 {
        lex_with_table(table, text, 0)
    } else {
        Err(LexError::OutOfMemory)
    }
}

// Whether a text has the same trees with the table.
fn is_same(alloc: Global, table: &mut SymbolTable, text: &str) -> bool {
    match trees(alloc, text) {
        Ok(one) => matches!(trees_by(table, text), Ok(other) if other == one),
        Err(_) => false,
    }
}

static TEXTS: [&str; 5] = [
    "a b a 1u8 1u8",
    "b (a) \"a\" 1u8",
    "",
    "a_name_of_many_letters b a_name_of_many_letters \"a text of many letters\"",
    "a b a_name_of_many_letters \"a text of many letters\" 1u8",
];

/// Whether texts have the same trees if one table serves them all.
pub fn are_same(alloc: Global) -> bool {
    let mut table = SymbolTable::new(alloc);
    for text in &TEXTS {
        if !is_same(alloc, &mut table, text) {
            return false;
        }
    }
    true
}

// Whether the first text can be allocated, then the same text needs no memory, and another one
// does.
fn takes_none(alloc: &FailingAllocator<Global>) -> Option<bool> {
    let mut table = SymbolTable::new(alloc);
    let passes = found(&mut table, "one text of many letters")?;
    let is_free = passes && has(&mut table, "one text of many letters") && !alloc.has_failed_once();
    Some(
        is_free
            && found(&mut table, "another text of many letters").is_none()
            && alloc.has_failed_once(),
    )
}

/// Whether a text that the table has needs no memory. The requests for the first text succeed. The
/// request after them fails.
pub fn is_kept(global: Global) -> bool {
    for number in 1..100 {
        if let Some(passes) = takes_none(&FailingAllocator::new(global, number)) {
            return passes;
        }
    }
    false
}

// Asks for the texts, each until memory is there, and returns whether each symbol has its text.
fn are_right<A: Allocator + Copy>(alloc: A, names: &[String]) -> bool {
    let mut table = SymbolTable::new(alloc);
    for name in names {
        let passes = match found(&mut table, name.as_str()) {
            Some(passes) => passes,
            None => has(&mut table, name.as_str()),
        };
        if !passes {
            return false;
        }
    }
    true
}

fn names(alloc: Global) -> Result<Vec<String>, AllocError> {
    let mut names = Vec::new(alloc);
    for number in 0..70 {
        names.push(format!(in alloc; "name{number} of many letters")?)?;
    }
    Ok(names)
}

// Returns the number of the first request that isn't made, if the table is right whichever earlier
// one fails.
fn requests(global: Global, names: &[String]) -> Option<u64> {
    for number in 1..1_000 {
        let alloc = FailingAllocator::new(global, number);
        if !are_right(&alloc, names) {
            return None;
        }
        if !alloc.has_failed_once() {
            return Some(number);
        }
    }
    None
}

/// Whether a failure leaves the table right. Each request fails in turn, among them those to grow,
/// and the table is used on. There are at least two requests for each symbol.
pub fn stays_right(alloc: Global) -> bool {
    match names(alloc) {
        Ok(names) => requests(alloc, names.as_slice()).unwrap_or(0) > 140,
        Err(AllocError) => false,
    }
}

/// Whether a short text needs no memory, and a longer one does.
pub fn are_short(global: Global) -> bool {
    let alloc = FailingAllocator::new(global, 1);
    let mut table = SymbolTable::new(&alloc);
    has(&mut table, "")
        && has(&mut table, "fourteen_bytes")
        && !alloc.has_failed_once()
        && found(&mut table, "of_fifteen_byte").is_none()
}
