// Finds modules and `include!`s at the front of trees, and the `#[path]` before them.
ghost use Rattle.std.specs.Prelude.{◌≡◌, option_map};
ghost use Rattle.mbe_tt.specs.Trees.Tree.{first, flat_len};
ghost use Rattle.mbe_tt.specs.Views.Element.{element_tree};
ghost use Rattle.mbe_tt.specs.Views.LeafViews.{ident_of, leaf_of, literal_of};
ghost use Rattle.mbe_tt.specs.Views.View.{trees};
ghost use Rattle.mbe_cfg.specs.Crates.ModuleItems as spec;
ghost use Rattle.mbe_cfg.specs.Crates.CrateViews.{included_shown, cursor_shown, module_shown};

use crate::tree_front::{after_char, after_next_comma, is_empty};
use mbe_tt::span::Span;
use mbe_tt::tt::{
    Delimiter, DelimiterKind, Ident, IdentIsRaw, Leaf, LitKind, Literal, TokenTreesView, TtElement,
};
use std::alloc::{Allocator, Global};

/// The content of a module.
#[derive(Drop)]
pub enum ModuleBody<'t, A: Allocator = Global> {
    /// In a file. The span is the span of the `;`.
    Outside(Span),
    Braces(Delimiter, TokenTreesView<'t, A>),
}

/// A module: `mod name` and its content.
#[derive(Drop)]
pub struct Module<'t, A: Allocator = Global> {
    /// `mod`
    pub word: &'t Ident<A>,
    pub name: &'t Ident<A>,
    pub body: ModuleBody<'t, A>,
    /// The trees after the module.
    pub rest: TokenTreesView<'t, A>,
}

/// The file that an `include!` names.
#[derive(Clone, Copy, Drop)]
pub struct Included<'t> {
    /// The span of the text that names it.
    pub at: Span,
    pub path: &'t str,
}

/// The trees that are left, the `#[path]` before them, and the `include!` whose end is still to
/// come.
#[derive(Drop)]
#[derive_where(Clone, Copy)]
pub struct ModuleCursor<'t, A: Allocator = Global> {
    pub rest: TokenTreesView<'t, A>,
    pub path: Option<&'t str>,
    pub included: Option<Included<'t>>,
}

// Returns whether an identifier is the keyword `mod`.
fn is_mod_keyword(is_raw: IdentIsRaw, name: &str) -> bool
    ensures { result ≡ spec.is_mod_keyword is_raw name.now }
{
    match is_raw {
        IdentIsRaw::Yes => false,
        IdentIsRaw::No => name == "mod",
    }
}

// Returns the module `name` in a file, if a `;` is at the front.
fn outside<'t, A: Allocator>(
    word: &'t Ident<A>,
    name: &'t Ident<A>,
    tokens: TokenTreesView<'t, A>,
) -> Option<Module<'t, A>>
    ensures { option_map module_shown result
        ≡ spec.outside (ident_of word.now) (ident_of name.now) (trees tokens.entry) }
{
    let mut iter = tokens.iter();
    let punct = iter.expect_single_punct().ok()?;
    if punct.char != ';' {
        return None;
    }
    Some(Module {
        word,
        name,
        body: ModuleBody::Outside(punct.span),
        rest: iter.remaining(),
    })
}

fn is_brace(kind: DelimiterKind) -> bool
    ensures { result ≡ spec.is_brace kind }
{
    match kind {
        DelimiterKind::Brace => true,
        DelimiterKind::Bracket | DelimiterKind::Parenthesis | DelimiterKind::Invisible => false,
    }
}

// Returns the module `name` whose content is in the braces at the front.
fn inside<'t, A: Allocator>(
    word: &'t Ident<A>,
    name: &'t Ident<A>,
    tokens: TokenTreesView<'t, A>,
) -> Option<Module<'t, A>>
    ensures { option_map module_shown result
        ≡ spec.inside (ident_of word.now) (ident_of name.now) (trees tokens.entry) }
{
    let mut iter = tokens.iter();
    let (group, content) = iter.expect_subtree().ok()?;
    if !is_brace(group.delimiter.kind) {
        return None;
    }
    Some(Module {
        word,
        name,
        body: ModuleBody::Braces(group.delimiter, content.remaining()),
        rest: iter.remaining(),
    })
}

// Returns the module `name`, by what is at the front.
fn module_with<'t, A: Allocator>(
    word: &'t Ident<A>,
    name: &'t Ident<A>,
    tokens: TokenTreesView<'t, A>,
) -> Option<Module<'t, A>>
    ensures { option_map module_shown result
        ≡ spec.module_with (ident_of word.now) (ident_of name.now) (trees tokens.entry) }
{
    match outside(word, name, tokens) {
        Some(module) => Some(module),
        None => inside(word, name, tokens),
    }
}

// Returns the module whose name is at the front.
fn named<'t, A: Allocator>(
    word: &'t Ident<A>,
    tokens: TokenTreesView<'t, A>,
) -> Option<Module<'t, A>>
    ensures { option_map module_shown result
        ≡ spec.named (ident_of word.now) (trees tokens.entry) }
{
    let mut iter = tokens.iter();
    let name = iter.expect_ident().ok()?;
    module_with(word, name, iter.remaining())
}

/// Returns the module at the front, if one is there.
pub fn module_of<'t, A: Allocator>(tokens: TokenTreesView<'t, A>) -> Option<Module<'t, A>>
    ensures { option_map module_shown result ≡ spec.module_of (trees tokens.entry) }
{
    let mut iter = tokens.iter();
    let word = iter.expect_ident().ok()?;
    if is_mod_keyword(word.is_raw, word.sym.as_str()) {
        named(word, iter.remaining())
    } else {
        None
    }
}

// Returns whether the text has a backslash.
fn has_escape(text: &str) -> bool
    ensures { result ≡ spec.has_escape text.now }
{
    text.as_bytes().iter().any(|b| *b == 92)
}

// Returns the text of a literal of that kind as it is written. There is none if the literal is no
// string, or if escapes give it another meaning.
fn text_of_kind(text: &str, kind: LitKind) -> Option<&str>
    ensures { option_map (λ t. t.now) result ≡ spec.text_of_kind text.now kind }
{
    match kind {
        LitKind::Str if has_escape(text) => None,
        LitKind::Str => Some(text),
        LitKind::StrRaw(_) => Some(text),
        _ => None,
    }
}

// Returns the text of a string as it is written, if it means that text.
fn plain_text<'t, A: Allocator>(literal: &'t Literal<A>) -> Option<&'t str>
    ensures { option_map (λ t. t.now) result ≡ spec.plain_text (literal_of literal.now) }
{
    if literal.suffix_len > 0 {
        return None;
    }
    text_of_kind(literal.text_and_suffix.as_str(), literal.kind)
}

fn leaf_text<'t, A: Allocator>(leaf: &'t Leaf<A>) -> Option<&'t str>
    ensures { option_map (λ t. t.now) result ≡ spec.leaf_text (leaf_of leaf.now) }
{
    match leaf {
        Leaf::Literal(literal) => plain_text(literal),
        Leaf::Punct(_) | Leaf::Ident(_) => None,
    }
}

// Returns the content of the brackets at the front.
fn bracket_content<'t, A: Allocator>(tokens: TokenTreesView<'t, A>) -> Option<TokenTreesView<'t, A>>
    ensures { option_map trees result ≡ spec.bracket_content (trees tokens.entry) }
{
    let mut iter = tokens.iter();
    let (group, content) = iter.expect_subtree().ok()?;
    match group.delimiter.kind {
        DelimiterKind::Bracket => Some(content.remaining()),
        DelimiterKind::Brace | DelimiterKind::Parenthesis | DelimiterKind::Invisible => None,
    }
}

// Returns the text after the `=` at the front.
fn value<'t, A: Allocator>(tokens: TokenTreesView<'t, A>) -> Option<&'t str>
    ensures { option_map (λ t. t.now) result ≡ spec.value (trees tokens.entry) }
{
    let mut iter = after_char(tokens, '=')?.iter();
    leaf_text(iter.expect_literal().ok()?)
}

// Returns the text of `path = ".."` at the front.
fn path_value<'t, A: Allocator>(content: TokenTreesView<'t, A>) -> Option<&'t str>
    ensures { option_map (λ t. t.now) result ≡ spec.path_value (trees content.entry) }
{
    let mut iter = content.iter();
    let name = iter.expect_ident().ok()?;
    if name.sym.as_str() == "path" {
        value(iter.remaining())
    } else {
        None
    }
}

// Returns the text of the first `path = ".."` that a `cfg_attr` with that argument adds.
fn first_added_path<'t, A: Allocator>(argument: TokenTreesView<'t, A>) -> Option<&'t str>
    ensures { option_map (λ t. t.now) result
        ≡ spec.first_added_path (flat_len (trees argument.entry)) (trees argument.entry) }
{
    let mut rest = argument;
    let mut left = argument.flat_len();
    'added: while left > 0 {
        left -= 1;
        rest = after_next_comma(rest);
        if let Some(path) = path_value(rest) {
            return Some(path);
        }
    }
    None
}

// Returns the text of `path = ".."` that the `cfg_attr(..)` at the front adds. The predicate of the
// `cfg_attr` holds: others have been stripped.
fn path_of_cfg_attr<'t, A: Allocator>(content: TokenTreesView<'t, A>) -> Option<&'t str>
    ensures { option_map (λ t. t.now) result ≡ spec.path_of_cfg_attr (trees content.entry) }
{
    let mut iter = content.iter();
    let name = iter.expect_ident().ok()?;
    if name.sym.as_str() != "cfg_attr" {
        return None;
    }
    let (_group, argument) = iter.expect_subtree().ok()?;
    first_added_path(argument.remaining())
}

// Returns the text of `path = ".."` in the brackets of an attribute, or of the first one that a
// `cfg_attr` there adds.
fn path_in<'t, A: Allocator>(content: TokenTreesView<'t, A>) -> Option<&'t str>
    ensures { option_map (λ t. t.now) result ≡ spec.path_in (trees content.entry) }
{
    match path_value(content) {
        Some(path) => Some(path),
        None => path_of_cfg_attr(content),
    }
}

// Returns the text of the `#[path = ".."]` at the front, if one is there.
fn path_at<'t, A: Allocator>(tokens: TokenTreesView<'t, A>) -> Option<&'t str>
    ensures { option_map (λ t. t.now) result ≡ spec.path_at (trees tokens.entry) }
{
    path_in(bracket_content(after_char(tokens, '#')?)?)
}

// Returns whether attributes before this tree no longer count after it.
fn ends_item<A: Allocator>(tree: &TtElement<'_, A>) -> bool
    ensures { result ≡ spec.ends_item (element_tree tree.now) }
{
    match tree {
        TtElement::Leaf(Leaf::Punct(punct)) => punct.char == ';',
        TtElement::Leaf(Leaf::Literal(_) | Leaf::Ident(_)) => false,
        TtElement::Subtree(group, _) => is_brace(group.delimiter.kind),
    }
}

// Returns the text of the first `#[path = ".."]` before an item, after one more tree. That tree is
// the first of `tokens`.
fn path_after<'t, A: Allocator>(
    path: Option<&'t str>,
    tokens: TokenTreesView<'t, A>,
) -> Option<&'t str>
    ensures { option_map (λ t. t.now) result ≡ spec.path_after
        (option_map (λ t. t.now) path.entry) (trees tokens.entry) }
{
    match path {
        Some(path) => Some(path),
        None => path_at(tokens),
    }
}

// Returns the text of a string, and its span.
fn text_of<'t, A: Allocator>(leaf: &'t Leaf<A>) -> Option<Included<'t>>
    ensures { option_map included_shown result ≡ spec.text_of (leaf_of leaf.now) }
{
    match leaf {
        Leaf::Literal(literal) => Some(Included {
            at: literal.span,
            path: plain_text(literal)?,
        }),
        Leaf::Punct(_) | Leaf::Ident(_) => None,
    }
}

// Returns whether there is no tree, or a comma alone.
fn is_end<A: Allocator>(tokens: TokenTreesView<'_, A>) -> bool
    ensures { result ≡ spec.is_end (trees tokens.entry) }
{
    match after_char(tokens, ',') {
        Some(rest) => is_empty(rest),
        None => is_empty(tokens),
    }
}

// Returns the text of the string at the front, if no more than a comma follows it.
fn only_text<'t, A: Allocator>(tokens: TokenTreesView<'t, A>) -> Option<Included<'t>>
    ensures { option_map included_shown result ≡ spec.only_text (trees tokens.entry) }
{
    let mut iter = tokens.iter();
    let literal = iter.expect_literal().ok()?;
    if is_end(iter.remaining()) {
        text_of(literal)
    } else {
        None
    }
}

// Returns the text in the group after the `!` at the front.
fn text_in_call<'t, A: Allocator>(tokens: TokenTreesView<'t, A>) -> Option<Included<'t>>
    ensures { option_map included_shown result ≡ spec.text_in_call (trees tokens.entry) }
{
    let mut iter = after_char(tokens, '!')?.iter();
    let (_group, content) = iter.expect_subtree().ok()?;
    only_text(content.remaining())
}

// Returns the text of the `include!("..")` at the front, if one is there.
fn include_at<'t, A: Allocator>(tokens: TokenTreesView<'t, A>) -> Option<Included<'t>>
    ensures { option_map included_shown result ≡ spec.include_at (trees tokens.entry) }
{
    let mut iter = tokens.iter();
    let name = iter.expect_ident().ok()?;
    if name.sym.as_str() == "include" {
        text_in_call(iter.remaining())
    } else {
        None
    }
}

// Returns whether a tree is a group in brackets, as in an attribute.
fn is_brackets<A: Allocator>(tree: &TtElement<'_, A>) -> bool
    ensures { result ≡ spec.is_brackets (element_tree tree.now) }
{
    match tree {
        TtElement::Leaf(_) => false,
        TtElement::Subtree(group, _) => match group.delimiter.kind {
            DelimiterKind::Bracket => true,
            DelimiterKind::Brace | DelimiterKind::Parenthesis | DelimiterKind::Invisible => false,
        },
    }
}

// Returns the `include!` of an item after one more tree of it. The trees `rest` follow that tree.
fn include_after<'t, A: Allocator>(
    included: Option<Included<'t>>,
    tree: &TtElement<'_, A>,
    rest: TokenTreesView<'t, A>,
) -> Option<Included<'t>>
    ensures { option_map included_shown result ≡ spec.include_after
        (option_map included_shown included.entry) (element_tree tree.now) (trees rest.entry) }
{
    match included {
        Some(included) => Some(included),
        None if is_brackets(tree) => include_at(rest),
        None => None,
    }
}

impl<'t, A: Allocator> ModuleCursor<'t, A> {
    /// Returns what is left where an item may begin.
    pub fn at_item_start(rest: TokenTreesView<'t, A>) -> ModuleCursor<'t, A>
        ensures { cursor_shown result ≡ spec.at_item_start (trees rest.entry) }
    {
        ModuleCursor {
            rest,
            path: None,
            included: include_at(rest),
        }
    }

    /// Returns what is left after the first tree. The trees `rest` follow that tree.
    pub fn after(self, tree: &TtElement<'_, A>, rest: TokenTreesView<'t, A>) -> ModuleCursor<'t, A>
        ensures { cursor_shown result ≡ spec.after (cursor_shown self.entry) (element_tree tree.now)
            (trees rest.entry) }
    {
        if ends_item(tree) {
            return ModuleCursor::at_item_start(rest);
        }
        ModuleCursor {
            rest,
            path: path_after(self.path, self.rest),
            included: include_after(self.included, tree, rest),
        }
    }

    /// Returns the `include!` that the first tree ends, if it ends one.
    pub fn finished_include(self) -> Option<Included<'t>>
        ensures { option_map included_shown result
            ≡ spec.finished_include (cursor_shown self.entry) }
    {
        let tree = self.rest.iter().peek()?;
        if ends_item(&tree) {
            self.included
        } else {
            None
        }
    }
}
