// The type of a note: a message about a file and its macros.
use mbe_tt::span::Span;
use std::alloc::{Allocator, Global};

/// The severity of a note.
#[derive(Clone, Copy, Drop)]
pub enum Level {
    Error,
    Note,
    Help,
}

/// A message about a part of a file.
#[derive(Drop)]
pub struct Note<A: Allocator = Global> {
    pub level: Level,
    /// The part, in bytes of the span's file.
    pub span: Span,
    pub message: String<A>,
    /// Whether it is a child: it says more about the last note before it that is none.
    pub is_child: bool,
}
