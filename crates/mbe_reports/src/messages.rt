// The messages of a session and of lints, as data.
use mbe_diagnostics::diagnostic::Level;
use mbe_diagnostics::lints::lint::Lint;
use mbe_session::notes::{self, Note};
use mbe_tt::span::Span;
use std::alloc::AllocError;

/// A message on a part of a file.
#[derive(Clone, Copy, Drop)]
pub struct Message<'t> {
    pub level: Level,
    pub text: &'t str,
    pub span: Span,
    /// Whether it says more about the last message before it that is no child.
    pub is_child: bool,
}

fn level_of(level: notes::Level) -> Level {
    match level {
        notes::Level::Error => Level::Error,
        notes::Level::Note => Level::Note,
        notes::Level::Help => Level::Help,
    }
}

/// Adds the messages of notes. `AllocError` if out of memory.
pub fn push_notes<'t>(
    notes: &'t [Note],
    messages: &mut Vec<Message<'t>>,
) -> Result<(), AllocError> {
    for note in notes {
        messages.push(Message {
            level: level_of(note.level),
            text: note.message.as_str(),
            span: note.span,
            is_child: note.is_child,
        })?;
    }
    Ok(())
}

/// Adds the messages of lints. `AllocError` if out of memory.
pub fn push_lints<'t>(
    lints: &'t [Lint],
    messages: &mut Vec<Message<'t>>,
) -> Result<(), AllocError> {
    for lint in lints {
        messages.push(Message {
            level: lint.level,
            text: lint.message.as_str(),
            span: lint.span,
            is_child: lint.is_child(),
        })?;
    }
    Ok(())
}

/// Returns how many of the messages at the front are children of the message before them.
pub fn count_children(messages: &[Message<'_>]) -> usize {
    messages
        .iter()
        .position(|message| !message.is_child)
        .unwrap_or(messages.len())
}
