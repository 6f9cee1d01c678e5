// The location at which a definition is refused.
use mbe_tt::span::Span;

/// The token at which a definition is refused.
#[derive(Clone, Copy, Drop)]
pub struct ErrorLocation {
    /// The index of its rule, from 0.
    pub rule: usize,
    pub span: Span,
}
