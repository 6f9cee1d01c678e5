// Notes calls in patterns whose template binds a name that the pattern or its scope has too.
//
// Take the call in `let Some(m!()) = b;`, whose expansion is `a`. In rustc, this `a` is a local of
// the call alone. In the text, `let Some(a) = b;`, it is a local for the whole scope of the
// pattern. There, another `a` may mean this local.
ghost use Rattle.std.specs.Prelude.{◌≡◌, OnOk};
ghost use Rattle.mbe_session.specs.SessionViews.{setting_of, state_of};

use crate::captures::local_scopes::PatternPart;
use crate::captures::pattern_scope::is_bound;
use crate::captures::{Token, tokens_of};
use crate::file_expander::FileExpander;
use crate::notes::{Level, Note};
use mbe_rewriter::hygiene::contexts::numbered;
use mbe_rewriter::hygiene::renamer::{Renamed, UndecidedUse};
use mbe_rewriter::macro_items::MacroCall;
use mbe_tt::span::Span;
use mbe_tt::tt::{Ident, TopSubtree};
use std::alloc::{AllocError, Allocator};

// Whether a byte may be a part of a name.
fn is_of_name(byte: Option<&u8>) -> bool {
    match byte {
        Some(byte) => *byte == b'_' || *byte >= 128 || byte.is_ascii_alphanumeric(),
        None => false,
    }
}

// Returns how often a text has that word.
fn word_count(text: &str, word: &str) -> usize {
    let bytes = text.as_bytes();
    let mut count = 0usize;
    for (at, _) in text.match_indices(word) {
        let before = if at == 0 { None } else { bytes.get(at - 1) };
        let after = bytes.get(at.saturating_add(word.len()));
        if !is_of_name(before) && !is_of_name(after) {
            count = count.saturating_add(1);
        }
    }
    count
}

// The text of a pattern, and the text where its names are in scope.
#[derive(Clone, Copy, Drop)]
struct PatternText<'t> {
    pattern: &'t str,
    scope: &'t str,
}

// Returns the text of a part of a file; nothing, if it has no such part.
fn text_in<'t>(texts: &[&'t str], part: Span) -> &'t str {
    let text = match texts {
        [one] => *one,
        _ => texts.get(part.file as usize).copied().unwrap_or(""),
    };
    let end = (part.end as usize).min(text.len());
    text.get(part.start as usize..end).unwrap_or("")
}

// Returns the texts of a pattern.
fn pattern_text<'t>(texts: &[&'t str], part: &PatternPart) -> PatternText<'t> {
    PatternText {
        pattern: text_in(texts, part.pattern),
        scope: text_in(texts, part.scope),
    }
}

// Whether a name that a call binds in a pattern meets an equal name. Then the pattern or its scope
// has the name, or the pattern has another call of that macro.
fn is_met(text: PatternText<'_>, called: &str, name: &str) -> bool {
    word_count(text.scope, name) > 0
        || word_count(text.pattern, name) > 0
        || word_count(text.pattern, called) > 1
}

// Whether the use of a name that is bound there is noted already.
fn is_noted(undecided_uses: &[UndecidedUse], bound: Span) -> bool {
    for doubt in undecided_uses {
        if doubt.bound == bound {
            return true;
        }
    }
    false
}

// Returns the names that a pattern of the template binds.
fn bound_names<'t, A: Allocator + Copy>(
    alloc: A,
    tree: &'t TopSubtree<A>,
    mark: usize,
) -> Result<Vec<&'t Ident<A>, A>, AllocError> {
    let tokens = tokens_of(alloc, tree.iter().remaining())?;
    let mut names = Vec::new(alloc);
    for at in 0..tokens.len() {
        if let Some(Token::Name(name)) = tokens.get(at)
            && numbered(mark) < name.span.ctx.0
            && is_bound(tokens.as_slice(), at, false)
        {
            names.push(*name)?;
        }
    }
    Ok(names)
}

// Notes a name that a call in a pattern binds, and where that is.
fn note_bound_name<A: Allocator + Copy>(
    alloc: A,
    notes: &mut Vec<Note<A>, A>,
    call: MacroCall<'_, A>,
    name: &Ident<A>,
) -> Result<(), AllocError> {
    let (called, word) = (call.name.sym.as_str(), name.sym.as_str());
    notes.push(Note {
        level: Level::Note,
        span: call.name.span,
        message: format!(in alloc;
            "`{word}` keeps its name, since `{called}!` is in a pattern here that may meet the name"
        )?,
        is_child: false,
    })?;
    notes.push(Note {
        level: Level::Note,
        span: name.span,
        message: format!(in alloc; "`{word}` is bound here")?,
        is_child: true,
    })?;
    Ok(())
}

// Notes the names that a call binds in a pattern and that meet others there, unless their uses are
// undecided. The first `mark` contexts are of earlier calls.
fn note_all<A: Allocator + Copy>(
    alloc: A,
    notes: &mut Vec<Note<A>, A>,
    text: PatternText<'_>,
    call: MacroCall<'_, A>,
    apart: &Renamed<A>,
    mark: usize,
) -> Result<(), AllocError> {
    for name in &bound_names(alloc, &apart.tree, mark)? {
        if !is_noted(apart.undecided.as_slice(), name.span)
            && is_met(text, call.name.sym.as_str(), name.sym.as_str())
        {
            note_bound_name(alloc, notes, call, *name)?;
        }
    }
    Ok(())
}

impl<A: Allocator + Copy> FileExpander<'_, A> {
    // Notes the names that a call binds in a pattern and that meet others there. The first `mark`
    // contexts are of earlier calls.
    pub(crate) fn note_pattern_call(
        &mut self,
        texts: &[&str],
        call: MacroCall<'_, A>,
        apart: &Renamed<A>,
        mark: usize,
    ) -> Result<(), AllocError>
        ensures setting { OnOk result (setting_of self.new ≡ setting_of self.old) }
        ensures state { OnOk result (state_of self.new ≡ state_of self.old) }
    {
        match self.locals.pattern_around(call.start) {
            Some(part) => {
                let text = pattern_text(texts, part);
                note_all(self.alloc, &mut self.notes, text, call, apart, mark)
            }
            None => Ok(()),
        }
    }
}
