// Finds the call that the attributes at the front of trees belong to.
//
// Before rustc expands a call, it evaluates each `#[cfg(..)]` on it, and ignores every other
// attribute that it knows. So these attributes belong to the call: an expansion replaces them too,
// and a call that isn't expanded keeps them. An attribute of another name may be a procedural
// macro, whose input is the unexpanded call. So this module gives such an attribute no call.
ghost use Rattle.std.specs.Prelude.{◌≡◌, option_map};
ghost use Rattle.mbe_tt.specs.Trees.Tree.{front_char};
ghost use Rattle.mbe_tt.specs.Views.LeafViews.{ident_of};
ghost use Rattle.mbe_tt.specs.Views.View.{trees};
ghost use Rattle.mbe_rewriter.specs.MacroItemViews.{call_shown, front_item_shown};
ghost use Rattle.mbe_rewriter.specs.AttributedCalls as spec;

use crate::macro_items::{
    FrontItem, MacroCall, after_char, after_path_separator, front_of, is_text_of,
};
use mbe_tt::span::Span;
use mbe_tt::tt::{DelimiterKind, Ident, Leaf, TokenTreesView, TtElement};
use std::alloc::Allocator;

// The attributes that rustc evaluates or ignores before a call.
const ATTRIBUTES: &[&str] = &[
    "allow",
    "automatically_derived",
    "bench",
    "cfg",
    "cfg_attr",
    "cold",
    "deny",
    "deprecated",
    "doc",
    "expect",
    "export_name",
    "feature",
    "forbid",
    "ignore",
    "inline",
    "link",
    "link_name",
    "link_section",
    "macro_export",
    "macro_use",
    "must_use",
    "no_mangle",
    "non_exhaustive",
    "path",
    "repr",
    "should_panic",
    "target_feature",
    "test",
    "track_caller",
    "unsafe",
    "used",
    "warn",
];

// The first path segments of attributes of tools, such as `rustfmt` in `rustfmt::skip`.
const TOOLS: &[&str] = &["clippy", "diagnostic", "miri", "rust_analyzer", "rustfmt"];

// ---- attributes

fn is_known_attribute_name<A: Allocator>(name: &Ident<A>, rest: TokenTreesView<'_, A>) -> bool
    ensures { result ≡ spec.is_known_attribute_name (ident_of name.now) (trees rest.entry) }
{
    let text = name.sym.as_str();
    is_text_of(text, ATTRIBUTES)
        || (is_text_of(text, TOOLS) && after_path_separator(rest).is_some())
}

// Returns whether a group of that kind holds an attribute that rustc evaluates or ignores before a
// call.
fn is_known_attribute<A: Allocator>(kind: DelimiterKind, content: TokenTreesView<'_, A>) -> bool
    ensures { result ≡ spec.is_known_attribute kind (trees content.entry) }
{
    match kind {
        DelimiterKind::Bracket => {
            let mut iter = content.iter();
            match iter.expect_ident() {
                Ok(name) => is_known_attribute_name(name, iter.remaining()),
                Err(()) => false,
            }
        }
        DelimiterKind::Parenthesis | DelimiterKind::Brace | DelimiterKind::Invisible => false,
    }
}

// Returns the trees after such an attribute, if one is at the front.
fn after_known_attribute<'t, A: Allocator>(
    tokens: TokenTreesView<'t, A>,
) -> Option<TokenTreesView<'t, A>>
    ensures { option_map trees result ≡ spec.after_known_attribute (trees tokens.entry) }
{
    let mut iter = after_char(tokens, '#')?.iter();
    let (group, content) = iter.expect_subtree().ok()?;
    if is_known_attribute(group.delimiter.kind, content.remaining()) {
        Some(iter.remaining())
    } else {
        None
    }
}

// Returns the trees after all such attributes at the front.
fn after_attributes<'t, A: Allocator>(tokens: TokenTreesView<'t, A>) -> TokenTreesView<'t, A>
    ensures { trees result ≡ spec.after_attributes (trees tokens.entry) }
{
    let mut rest = tokens;
    let mut left = tokens.flat_len();
    'attributes: while left > 0 {
        left -= 1;
        match after_known_attribute(rest) {
            Some(after) => rest = after,
            None => return rest,
        }
    }
    rest
}

// ---- the call that they belong to

fn is_brace(kind: DelimiterKind) -> bool
    ensures { result ≡ spec.is_brace kind }
{
    matches!(kind, DelimiterKind::Brace)
}

// Returns the char of the punct at the front.
fn front_char<A: Allocator>(tokens: TokenTreesView<'_, A>) -> Option<char>
    ensures { result ≡ front_char (trees tokens.entry) }
{
    match tokens.iter().next() {
        Some(TtElement::Leaf(Leaf::Punct(punct))) => Some(punct.char),
        _ => None,
    }
}

// Returns whether `char` continues an expression, a pattern or an arm that begins with a call by
// braces.
fn continues_expression(char: Option<char>) -> bool
    ensures { result ≡ spec.continues_expression char }
{
    matches!(char, Some('.' | '?' | '=' | '|'))
}

fn is_separator(char: Option<char>) -> bool
    ensures { result ≡ spec.is_separator char }
{
    matches!(char, Some(';' | ','))
}

// Returns whether the attributes before the call belong to the call alone.
fn takes_attributes_alone<A: Allocator>(call: MacroCall<'_, A>) -> bool
    ensures { result ≡ spec.takes_attributes_alone (call_shown call.entry) }
{
    let next = front_char(call.rest);
    call.rest.iter().next().is_none()
        || is_separator(next)
        || (is_brace(call.group.delimiter.kind) && !continues_expression(next))
}

fn call_at<'t, A: Allocator>(begin: Span, front: FrontItem<'t, A>) -> Option<MacroCall<'t, A>>
    ensures { option_map call_shown result ≡ spec.call_at begin (front_item_shown front.entry) }
{
    match front {
        FrontItem::MacroCall(call) => {
            if takes_attributes_alone(call) {
                Some(MacroCall { begin, ..call })
            } else {
                None
            }
        }
        FrontItem::Definition(_) | FrontItem::Tree(..) | FrontItem::End => None,
    }
}

// Returns the call that the attributes at the front belong to.
fn attributed_call<'t, A: Allocator>(tokens: TokenTreesView<'t, A>) -> Option<MacroCall<'t, A>>
    ensures { option_map call_shown result ≡ spec.attributed_call (trees tokens.entry) }
{
    let begin = tokens.iter().next_span()?;
    let _after = after_known_attribute(tokens)?;
    call_at(begin, front_of(after_attributes(tokens)))
}

/// Returns the front of these trees. Attributes on a call belong to the call.
pub fn front_item_with_attributes<'t, A: Allocator>(
    tokens: TokenTreesView<'t, A>,
) -> FrontItem<'t, A>
    ensures { front_item_shown result ≡ spec.front_item_with_attributes (trees tokens.entry) }
{
    match attributed_call(tokens) {
        Some(call) => FrontItem::MacroCall(call),
        None => front_of(tokens),
    }
}
