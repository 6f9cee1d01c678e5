// Finds the end of the code that attributes apply to: an item, a statement, an arm, a field and so
// on.
ghost use Rattle.std.specs.Prelude.{◌≡◌, IfOk, option_map};
ghost use Rattle.mbe_tt.specs.Views.View.{trees};
ghost use Rattle.mbe_cfg.specs.AttributeTarget as spec;

use crate::tree_front::{after_char, after_next_comma, group_at, is_empty};
use mbe_threads::fragment_front::eat_front;
use mbe_tt::grammar::{FragmentGrammar, PrefixEntryPoint};
use mbe_tt::tt::{DelimiterKind, TokenTreesView};
use std::alloc::{AllocError, Allocator};

// Returns the trees after the fragment of that kind at the front, if the grammar finds one.
fn after_fragment<'t, A: Allocator, G: FragmentGrammar>(
    grammar: &G,
    entry: PrefixEntryPoint,
    tokens: TokenTreesView<'t, A>,
) -> Result<Option<TokenTreesView<'t, A>>, AllocError>
    ensures { IfOk result (λ r. option_map trees r
        ≡ spec.after_fragment (G.grammar grammar.now) entry (trees tokens.entry)) }
{
    let mut iter = tokens.iter();
    let counted = eat_front(grammar, entry, &mut iter)?;
    if counted.is_accepted {
        Ok(Some(iter.remaining()))
    } else {
        Ok(None)
    }
}

// Returns the trees after a `,` at the front, or all trees if there is none.
fn after_comma<'t, A: Allocator>(tokens: TokenTreesView<'t, A>) -> TokenTreesView<'t, A>
    ensures { trees result ≡ spec.after_comma (trees tokens.entry) }
{
    after_char(tokens, ',').unwrap_or(tokens)
}

// Returns the trees after a `;` or a `,` at the front, or all trees if there is none.
fn after_mark<'t, A: Allocator>(tokens: TokenTreesView<'t, A>) -> TokenTreesView<'t, A>
    ensures { trees result ≡ spec.after_mark (trees tokens.entry) }
{
    match after_char(tokens, ';') {
        Some(rest) => rest,
        None => after_comma(tokens),
    }
}

// Returns whether nothing, a `;` or a `,` is at the front.
fn is_end<A: Allocator>(tokens: TokenTreesView<'_, A>) -> bool
    ensures { result ≡ spec.is_end (trees tokens.entry) }
{
    is_empty(tokens) || after_char(tokens, ';').is_some() || after_char(tokens, ',').is_some()
}

// Returns the trees after an `=>` at the front.
fn after_arrow<'t, A: Allocator>(tokens: TokenTreesView<'t, A>) -> Option<TokenTreesView<'t, A>>
    ensures { option_map trees result ≡ spec.after_arrow (trees tokens.entry) }
{
    let rest = after_char(tokens, '=')?;
    after_char(rest, '>')
}

// Returns the trees after the next `=>`, if it comes before any `,` and `;`.
fn after_next_arrow<'t, A: Allocator>(
    tokens: TokenTreesView<'t, A>,
) -> Option<TokenTreesView<'t, A>>
    ensures { option_map trees result ≡ spec.after_next_arrow (trees tokens.entry) }
{
    let mut rest = tokens;
    'trees: loop {
        if is_end(rest) {
            return None;
        }
        if let Some(body) = after_arrow(rest) {
            return Some(body);
        }
        let mut iter = rest.iter();
        let _first = iter.next();
        rest = iter.remaining();
    }
}

// Returns the trees after the body of an arm, which is at the front, and after its comma.
fn after_body<'t, A: Allocator, G: FragmentGrammar>(
    grammar: &G,
    tokens: TokenTreesView<'t, A>,
) -> Result<TokenTreesView<'t, A>, AllocError>
    ensures { IfOk result (λ r. trees r
        ≡ spec.after_body (G.grammar grammar.now) (trees tokens.entry)) }
{
    if let Some(braces) = group_at(DelimiterKind::Brace, tokens) {
        return Ok(after_comma(braces.rest));
    }
    match after_fragment(grammar, PrefixEntryPoint::Expr, tokens)? {
        Some(rest) => Ok(after_comma(rest)),
        None => Ok(after_next_comma(tokens)),
    }
}

// Returns the trees after a statement and its `;`, or the comma of a list. `rest` follows what the
// grammar parses as a statement. A field's name, before a `:`, is no statement.
fn after_parsed_statement<'t, A: Allocator>(
    tokens: TokenTreesView<'t, A>,
    rest: TokenTreesView<'t, A>,
) -> TokenTreesView<'t, A>
    ensures { trees result ≡ spec.after_parsed_statement (trees tokens.entry) (trees rest.entry) }
{
    match after_char(rest, ':') {
        Some(_kind) => after_next_comma(tokens),
        None => after_mark(rest),
    }
}

// Returns the trees after the statement at the front. If there is none, returns the trees after the
// next comma.
fn after_statement<'t, A: Allocator, G: FragmentGrammar>(
    grammar: &G,
    tokens: TokenTreesView<'t, A>,
) -> Result<TokenTreesView<'t, A>, AllocError>
    ensures { IfOk result (λ r. trees r
        ≡ spec.after_statement (G.grammar grammar.now) (trees tokens.entry)) }
{
    match after_fragment(grammar, PrefixEntryPoint::Stmt, tokens)? {
        Some(rest) => Ok(after_parsed_statement(tokens, rest)),
        None => Ok(after_next_comma(tokens)),
    }
}

// Returns the trees after the arm, the statement, or the element of a list at the front.
fn after_other<'t, A: Allocator, G: FragmentGrammar>(
    grammar: &G,
    tokens: TokenTreesView<'t, A>,
) -> Result<TokenTreesView<'t, A>, AllocError>
    ensures { IfOk result (λ r. trees r
        ≡ spec.after_other (G.grammar grammar.now) (trees tokens.entry)) }
{
    match after_next_arrow(tokens) {
        Some(body) => after_body(grammar, body),
        None => after_statement(grammar, tokens),
    }
}

/// Skips the attributes at the front and the code that they apply to, and returns the trees that
/// follow. The attributes apply to one of these:
///
/// - an item, as the grammar parses it;
/// - an arm of a `match`, with its expression;
/// - a statement;
/// - a field, a parameter or the like, up to the next comma.
///
/// Returns `AllocError` if the grammar runs out of memory.
pub fn after_attribute_target<'t, A: Allocator, G: FragmentGrammar>(
    grammar: &G,
    tokens: TokenTreesView<'t, A>,
) -> Result<TokenTreesView<'t, A>, AllocError>
    ensures { IfOk result (λ r. trees r
        ≡ spec.after_attribute_target (G.grammar grammar.now) (trees tokens.entry)) }
{
    match after_fragment(grammar, PrefixEntryPoint::Item, tokens)? {
        Some(rest) => Ok(rest),
        None => after_other(grammar, tokens),
    }
}
