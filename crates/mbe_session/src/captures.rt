// Notes captures: names of a template that mean a local of the argument in the text of an
// expansion.
//
// Take the template `{ let $x = 1; size }` and the call `m!(size)`. In rustc, the template's `size`
// isn't the local that the argument binds. In the text of the expansion, `{ let size = 1; size }`,
// it is. A local that the template binds needs no note, since it gets a new name.
//
// The tokens of the argument keep their spans, so the span of a token tells its origin. A word that
// may be neither a binding nor a use is ignored.
ghost use Rattle.std.specs.Prelude.{◌≡◌, OnOk};
ghost use Rattle.mbe_session.specs.SessionViews.{setting_of, state_of};

pub(crate) mod file_locals;
mod local_scopes;
pub(crate) mod pattern_calls;
mod pattern_scope;
pub(crate) mod shadowed;
mod span_index;

use crate::file_expander::FileExpander;
use crate::notes::{Level, Note};
use mbe_rewriter::macro_items::MacroCall;
use mbe_tt::span::Span;
use mbe_tt::tt::{DelimiterKind, Ident, Leaf, TokenTreesView, TopSubtree, TtElement};
use pattern_scope::{PatternScope, is_bound, is_rebound, is_used, scope_at, scope_end};
use span_index::span_key;
use std::alloc::{AllocError, Allocator};

// A token of an expansion or of a file. A group is two tokens, an opening and a closing delimiter.
// The opening has the number of tokens between them.
#[derive(Drop)]
pub(crate) enum Token<'t, A: Allocator> {
    Name(&'t Ident<A>),
    Punct(char),
    Open(DelimiterKind, usize),
    Close,
    Literal,
}

// A name that the argument binds, and the span where the macro uses it.
#[derive(Drop)]
#[derive_where(Clone, Copy)]
struct Capture<'t, A: Allocator> {
    name: &'t Ident<A>,
    used: Span,
}

// Returns the tokens of trees, one after another.
fn tokens_of<'t, A: Allocator + Copy>(
    alloc: A,
    trees: TokenTreesView<'t, A>,
) -> Result<Vec<Token<'t, A>, A>, AllocError> {
    let mut tokens = Vec::new(alloc);
    let mut cursor = trees.cursor();
    for _ in 0..trees.flat_len() {
        tokens.push(match cursor.token_tree() {
            Some(TtElement::Leaf(Leaf::Ident(ident))) => Token::Name(ident),
            Some(TtElement::Leaf(Leaf::Punct(punct))) => Token::Punct(punct.char),
            Some(TtElement::Leaf(Leaf::Literal(_))) => Token::Literal,
            Some(TtElement::Subtree(group, inside)) => {
                Token::Open(group.delimiter.kind, inside.remaining().flat_len())
            }
            None => Token::Close,
        })?;
        cursor.bump_or_end();
    }
    Ok(tokens)
}

// Returns the numbers of the names of an argument, sorted.
fn span_keys<A: Allocator + Copy>(
    alloc: A,
    argument: TokenTreesView<'_, A>,
) -> Result<Vec<u64, A>, AllocError> {
    let mut places = Vec::new(alloc);
    for token in &tokens_of(alloc, argument)? {
        if let Token::Name(name) = token {
            places.push(span_key(name.span))?;
        }
    }
    places.sort_unstable();
    Ok(places)
}

// Whether a name is from the argument whose names have these numbers.
fn is_from_argument<A: Allocator>(places: &[u64], name: &Ident<A>) -> bool {
    places.binary_search(&span_key(name.span)).is_ok()
}

// Returns the first use of a name by the macro where the argument binds it, if it isn't bound again
// before.
fn first_use<A: Allocator>(
    tokens: &[Token<'_, A>],
    places: &[u64],
    binding: PatternScope,
    name: &Ident<A>,
) -> Option<Span> {
    for at in binding.scope_from..scope_end(tokens, binding) {
        if let Some(Token::Name(found)) = tokens.get(at)
            && found.sym.as_str() == name.sym.as_str()
        {
            if is_rebound(tokens, at) {
                return None;
            }
            if !is_from_argument(places, found) && is_used(tokens, at) {
                return Some(found.span);
            }
        }
    }
    None
}

// Returns the names of the macro, sorted.
fn macro_names<'t, A: Allocator + Copy>(
    alloc: A,
    tokens: &[Token<'t, A>],
    places: &[u64],
) -> Result<Vec<&'t str, A>, AllocError> {
    let mut names = Vec::new(alloc);
    for token in tokens {
        if let Token::Name(name) = token
            && !is_from_argument(places, name)
        {
            names.push(name.sym.as_str())?;
        }
    }
    names.sort_unstable();
    Ok(names)
}

// The tokens of an expansion, the numbers of the names of its argument, and the names of the macro.
#[derive(Drop)]
struct ExpansionTokens<'t, A: Allocator> {
    tokens: Vec<Token<'t, A>, A>,
    places: Vec<u64, A>,
    names: Vec<&'t str, A>,
}

// Whether a name is from the argument, and the macro has the same name.
fn is_shared<A: Allocator>(texts: &ExpansionTokens<'_, A>, name: &Ident<A>) -> bool {
    let names = texts.names.as_slice();
    is_from_argument(texts.places.as_slice(), name)
        && names.binary_search(&name.sym.as_str()).is_ok()
}

// Adds a name that a pattern binds, if the argument has it and the macro uses it.
fn add_capture<'t, A: Allocator>(
    captures: &mut Vec<Capture<'t, A>, A>,
    texts: &ExpansionTokens<'t, A>,
    binding: PatternScope,
    name: &'t Ident<A>,
) -> Result<(), AllocError> {
    let tokens = texts.tokens.as_slice();
    if is_shared(texts, name)
        && let Some(used) = first_use(tokens, texts.places.as_slice(), binding, name)
    {
        captures.push(Capture { name, used })?;
    }
    Ok(())
}

// Adds the names of the argument that a pattern binds and the macro uses.
fn add_captures<'t, A: Allocator>(
    captures: &mut Vec<Capture<'t, A>, A>,
    texts: &ExpansionTokens<'t, A>,
    binding: PatternScope,
) -> Result<(), AllocError> {
    let tokens = texts.tokens.as_slice();
    let mut depth = 0usize;
    for at in binding.from..binding.to {
        match tokens.get(at) {
            Some(Token::Open(..)) => depth = depth.saturating_add(1),
            Some(Token::Close) => depth = depth.saturating_sub(1),
            Some(Token::Name(name)) if is_bound(tokens, at, depth == 0) => {
                add_capture(captures, texts, binding, *name)?;
            }
            _ => {}
        }
    }
    Ok(())
}

// Notes a captured name where it is used, and where it is bound.
fn note_capture<A: Allocator + Copy>(
    alloc: A,
    notes: &mut Vec<Note<A>, A>,
    called: &str,
    capture: Capture<'_, A>,
) -> Result<(), AllocError> {
    let name = capture.name.sym.as_str();
    notes.push(Note {
        level: Level::Note,
        span: capture.used,
        message: format!(in alloc;
            "in the expansion of `{called}!` this `{name}` is the one that the call binds"
        )?,
        is_child: false,
    })?;
    notes.push(Note {
        level: Level::Note,
        span: capture.name.span,
        message: format!(in alloc; "`{name}` is bound here")?,
        is_child: true,
    })?;
    Ok(())
}

// Notes the names that the argument of a call binds and the macro uses.
fn note_all<A: Allocator + Copy>(
    alloc: A,
    notes: &mut Vec<Note<A>, A>,
    call: MacroCall<'_, A>,
    tree: &TopSubtree<A>,
) -> Result<(), AllocError> {
    let tokens = tokens_of(alloc, tree.iter().remaining())?;
    let places = span_keys(alloc, call.argument)?;
    let names = macro_names(alloc, tokens.as_slice(), places.as_slice())?;
    let texts = ExpansionTokens {
        tokens,
        places,
        names,
    };
    let mut captures = Vec::new(alloc);
    for at in 0..texts.tokens.len() {
        if let Some(binding) = scope_at(texts.tokens.as_slice(), at) {
            add_captures(&mut captures, &texts, binding)?;
        }
    }
    for capture in &captures {
        note_capture(alloc, notes, call.name.sym.as_str(), *capture)?;
    }
    Ok(())
}

impl<A: Allocator + Copy> FileExpander<'_, A> {
    // Notes the captures in the expansion of a call.
    pub(crate) fn note_captures(
        &mut self,
        call: MacroCall<'_, A>,
        tree: &TopSubtree<A>,
    ) -> Result<(), AllocError>
        ensures setting { OnOk result (setting_of self.new ≡ setting_of self.old) }
        ensures state { OnOk result (state_of self.new ≡ state_of self.old) }
    {
        note_all(self.alloc, &mut self.notes, call, tree)
    }
}
