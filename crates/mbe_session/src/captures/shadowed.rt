// Notes names of templates that mean a local of the file in the text of an expansion.
//
// In rustc, a name of a template means what it means at the definition: an item, or a local that is
// in scope there. In the text of the expansion, it may mean a local that is in scope only at the
// call. Let a file have a function `size`, and a macro `m` with the template `size()`. Then the
// text of the expansion means the parameter `size` in this function:
//
//     fn f(size: fn() -> u8) -> u8 { m!() }
//
// In rustc, it means the function `size`.
ghost use Rattle.std.specs.Prelude.{◌≡◌, OnOk};
ghost use Rattle.mbe_session.specs.SessionViews.{setting_of, state_of};

use crate::captures::Token;
use crate::captures::file_locals::FileLocals;
use crate::captures::local_scopes::{
    LocalScope, SpannedTokens, TokenScope, spanned_tokens, token_scopes,
};
use crate::captures::pattern_scope::{end_of_inert, is_item_name, is_used};
use crate::file_expander::FileExpander;
use crate::notes::{Level, Note};
use mbe_rewriter::hygiene::contexts::numbered;
use mbe_rewriter::macro_items::MacroCall;
use mbe_tt::span::Span;
use mbe_tt::tt::{Ident, Leaf, TokenTreesView, TopSubtree, TtElement};
use std::alloc::{AllocError, Allocator};

// The types of Rust's own. A template's type isn't the local of that name.
static TYPES: [&str; 17] = [
    "bool", "char", "f32", "f64", "i128", "i16", "i32", "i64", "i8", "isize", "str", "u128", "u16",
    "u32", "u64", "u8", "usize",
];

// A name of a template, and the local of the file that it means in the text.
#[derive(Drop)]
struct Shadowed<'t, A: Allocator> {
    name: &'t Ident<A>,
    bound: Span,
}

// An expansion: its tokens, the locals that it binds, its call, and the locals of the file.
// Contexts up to the mark belong to earlier calls.
#[derive(Drop)]
struct ExpandedCall<'t, 'l, A: Allocator> {
    texts: SpannedTokens<'t, A>,
    own: Vec<TokenScope<'t, A>, A>,
    call: Span,
    locals: &'l FileLocals<A>,
    mark: u32,
}

// Whether a name of the template at a token may be a value of that name.
fn may_be_value<A: Allocator>(tokens: &[Token<'_, A>], at: usize, name: &Ident<A>) -> bool {
    is_used(tokens, at) && !is_item_name(tokens, at) && !TYPES.contains(&name.sym.as_str())
}

// Whether the expansion itself binds the name at a token.
fn is_own<A: Allocator>(own: &[TokenScope<'_, A>], at: usize, name: &Ident<A>) -> bool {
    for local in own {
        let is_in_scope = local.from <= at && at < local.to;
        if local.name.sym.as_str() == name.sym.as_str() && (local.bound == at || is_in_scope) {
            return true;
        }
    }
    false
}

fn is_found<A: Allocator>(found: &[Shadowed<'_, A>], name: &Ident<A>) -> bool {
    for one in found {
        if one.name.sym.as_str() == name.sym.as_str() {
            return true;
        }
    }
    false
}

// Adds the name at a token, if it is the template's and means a local of the file.
fn push_shadowed<'t, A: Allocator>(
    found: &mut Vec<Shadowed<'t, A>, A>,
    expanded: &ExpandedCall<'t, '_, A>,
    at: usize,
) -> Result<(), AllocError> {
    let tokens = expanded.texts.tokens.as_slice();
    let Some(Token::Name(name)) = tokens.get(at) else {
        return Ok(());
    };
    let Some(bound) = expanded.locals.bound_around(expanded.call, *name) else {
        return Ok(());
    };
    let is_of_template = expanded.mark < name.span.ctx.0;
    if is_of_template
        && may_be_value(tokens, at, *name)
        && !is_own(expanded.own.as_slice(), at, *name)
        && !is_found(found.as_slice(), *name)
    {
        found.push(Shadowed { name: *name, bound })?;
    }
    Ok(())
}

// Returns the names of the template that mean locals of the file. Names in attributes and in the
// rules of macros mean none here.
fn shadowed_names<'t, A: Allocator + Copy>(
    alloc: A,
    expanded: &ExpandedCall<'t, '_, A>,
) -> Result<Vec<Shadowed<'t, A>, A>, AllocError> {
    let tokens = expanded.texts.tokens.as_slice();
    let mut found = Vec::new(alloc);
    let mut from = 0usize;
    for at in 0..tokens.len() {
        if at < from {
            continue;
        }
        match end_of_inert(tokens, at) {
            Some(end) => from = end,
            None => push_shadowed(&mut found, expanded, at)?,
        }
    }
    Ok(found)
}

// Whether one of the trees is a `let`.
fn has_let<A: Allocator>(trees: TokenTreesView<'_, A>) -> bool {
    for tree in trees.iter() {
        if let TtElement::Leaf(Leaf::Ident(ident)) = tree
            && ident.sym.as_str() == "let"
        {
            return true;
        }
    }
    false
}

// Notes a name of a template that means a local of the file, and where that local is bound.
fn note_shadowed_name<A: Allocator + Copy>(
    alloc: A,
    notes: &mut Vec<Note<A>, A>,
    call: MacroCall<'_, A>,
    shadowed: &Shadowed<'_, A>,
) -> Result<(), AllocError> {
    let (called, name) = (call.name.sym.as_str(), shadowed.name.sym.as_str());
    notes.push(Note {
        level: Level::Note,
        span: call.name.span,
        message: format!(in alloc;
            "in the expansion of `{called}!` the name `{name}` is the local that is in scope here"
        )?,
        is_child: false,
    })?;
    notes.push(Note {
        level: Level::Note,
        span: shadowed.bound,
        message: format!(in alloc; "`{name}` is bound here")?,
        is_child: true,
    })?;
    Ok(())
}

// Notes the names of templates that mean locals of the file in the expansion of a call. Contexts up
// to the mark belong to earlier calls.
fn note_all<A: Allocator + Copy>(
    alloc: A,
    notes: &mut Vec<Note<A>, A>,
    locals: &FileLocals<A>,
    call: MacroCall<'_, A>,
    tree: &TopSubtree<A>,
    mark: u32,
) -> Result<(), AllocError> {
    if !locals.has_local_around(call.start) {
        return Ok(());
    }
    let texts = spanned_tokens(alloc, tree.iter().remaining())?;
    let own = token_scopes(alloc, &texts)?;
    let expanded = ExpandedCall {
        texts,
        own,
        call: call.start,
        locals,
        mark,
    };
    for shadowed in &shadowed_names(alloc, &expanded)? {
        note_shadowed_name(alloc, notes, call, shadowed)?;
    }
    Ok(())
}

// Adds the locals that the statements of an expansion bind for the trees after its call.
fn push_locals<A: Allocator + Copy>(
    alloc: A,
    locals: &mut FileLocals<A>,
    call: MacroCall<'_, A>,
    tree: &TopSubtree<A>,
) -> Result<(), AllocError> {
    let trees = tree.iter().remaining();
    if !has_let(trees) {
        return Ok(());
    }
    let scope = Span {
        start: call.group.delimiter.close.end,
        end: locals.group_end(call.start),
        ..call.start
    };
    let texts = spanned_tokens(alloc, trees)?;
    for local in &token_scopes(alloc, &texts)? {
        if local.to == texts.tokens.len() {
            locals.add(LocalScope {
                name: local.name.sym.clone()?,
                bound: local.name.span,
                scope,
            })?;
        }
    }
    Ok(())
}

impl<A: Allocator + Copy> FileExpander<'_, A> {
    // Notes the names of templates that mean locals of the file in the expansion of a call, unless
    // the call is a pattern. The first `mark` contexts are of earlier calls.
    pub(crate) fn note_shadowed(
        &mut self,
        call: MacroCall<'_, A>,
        tree: &TopSubtree<A>,
        mark: usize,
    ) -> Result<(), AllocError>
        ensures setting { OnOk result (setting_of self.new ≡ setting_of self.old) }
        ensures state { OnOk result (state_of self.new ≡ state_of self.old) }
    {
        if self.locals.is_in_pattern(call.start) {
            return Ok(());
        }
        note_all(
            self.alloc,
            &mut self.notes,
            &self.locals,
            call,
            tree,
            numbered(mark),
        )
    }

    // Adds the locals that the statements of an expansion bind for the trees after its call.
    pub(crate) fn add_locals(
        &mut self,
        call: MacroCall<'_, A>,
        tree: &TopSubtree<A>,
    ) -> Result<(), AllocError>
        ensures setting { OnOk result (setting_of self.new ≡ setting_of self.old) }
        ensures state { OnOk result (state_of self.new ≡ state_of self.old) }
    {
        push_locals(self.alloc, &mut self.locals, call, tree)
    }
}
