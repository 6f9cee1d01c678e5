// The type of a lint: a message about a part of a definition.
ghost use Rattle.std.specs.Prelude.{◌≡◌, ◌++◌, map, OnOk};
ghost use Rattle.std.specs.String.{string_bytes};
ghost use Rattle.mbe_diagnostics.specs.Lints.Lint.{is_child_level, lint_seen, one_lint};

use crate::diagnostic::Level;
use mbe_tt::span::Span;
use std::alloc::{AllocError, Allocator, Global};

/// A message about a part of a definition. Clauses see it by `lint_seen`.
#[derive(Drop)]
pub struct Lint<A: Allocator = Global> {
    pub level: Level,
    /// The part of the definition, in bytes of the span's file.
    pub span: Span,
    pub message: String<A>,
}

impl<A: Allocator> Lint<A> {
    /// Whether it says more about the last lint before it that is an error or a warning.
    pub fn is_child(&self) -> bool
        ensures { result ≡ is_child_level self.now.level }
    {
        match self.level {
            Level::Error | Level::Warning => false,
            Level::Note | Level::Help => true,
        }
    }
}

/// Adds a lint. `AllocError` if out of memory.
#[tactic(auto, unfolding(crate::specs::Lints::Lint::one_lint))]
pub fn push<A: Allocator>(
    lints: &mut Vec<Lint<A>, A>,
    level: Level,
    span: Span,
    message: String<A>,
) -> Result<(), AllocError>
    ensures { OnOk result (map lint_seen lints.new.items ≡ map lint_seen lints.old.items
        ++ one_lint level span (string_bytes message)) }
{
    lints.push(Lint {
        level,
        span,
        message,
    })?;
    Ok(())
}

/// Adds a lint with a copy of the text. `AllocError` if out of memory.
pub fn push_text<A: Allocator + Copy>(
    alloc: A,
    lints: &mut Vec<Lint<A>, A>,
    level: Level,
    span: Span,
    text: &str,
) -> Result<(), AllocError>
    ensures { OnOk result (map lint_seen lints.new.items ≡ map lint_seen lints.old.items
        ++ one_lint level span text.now) }
{
    let message = String::from_str(alloc, text)?;
    push(lints, level, span, message)
}
