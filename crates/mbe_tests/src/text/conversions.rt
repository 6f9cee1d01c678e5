// Helpers: trees of texts, and texts of trees.
use mbe_text::dialect::Dialect;
use mbe_text::lexer::lex_dialect;
use mbe_text::rust_printer::RustPrinter;
use mbe_tt::span::Edition;
use mbe_tt::tt::TopSubtree;
use std::alloc::{AllocError, Global};

const RUST: Dialect = Dialect::Rust(Edition::Edition2021);

/// Lexes a text in a dialect. `AllocError` also stands for a text that can't be lexed.
pub fn read(
    alloc: Global,
    dialect: Dialect,
    text: &str,
    file: u32,
) -> Result<TopSubtree, AllocError> {
    if text.len() > 100_000_000 {
        return Err(AllocError);
    }
    match lex_dialect(alloc, dialect, text, file) {
        Ok(tree) => Ok(tree),
        Err(_) => Err(AllocError),
    }
}

/// Lexes a text of Rust.
pub fn rust(alloc: Global, text: &str) -> Result<TopSubtree, AllocError> {
    read(alloc, RUST, text, 0)
}

/// Returns the text of trees.
pub fn written(alloc: Global, tree: &TopSubtree) -> Result<String, AllocError> {
    let mut writer = RustPrinter::new(alloc, 0);
    writer.trees(tree.iter().remaining())?;
    Ok(writer.into_text())
}

/// Whether trees have the same text as those of another text.
pub fn is_written(alloc: Global, tree: &TopSubtree, want: &str) -> Result<bool, AllocError> {
    let want = written(alloc, &rust(alloc, want)?)?;
    Ok(written(alloc, tree)? == want)
}
