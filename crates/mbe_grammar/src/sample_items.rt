// Blocks, attributes, statements and items of the sample grammar. Each function parses what its
// comment says and returns the trees after it.
ghost use Rattle.std.specs.Prelude.{◌≡◌};
ghost use Rattle.mbe_tt.specs.Views.Element.{element_tree};
ghost use Rattle.mbe_tt.specs.Trees.Tree.{first};
ghost use Rattle.mbe_tt.specs.Views.View.{trees};
ghost use Rattle.mbe_grammar.specs.Rule.{or_fault, past_first, meaning};
ghost use Rattle.mbe_grammar.specs.Tables.Terminals.{or_no_match, after_one};
ghost use Rattle.mbe_grammar.specs.SingleTrees.{is_scope};
ghost use Rattle.mbe_grammar.specs.SampleGrammar.{takes, is_item_end, short_item, long_item};
ghost use Rattle.mbe_grammar.specs.SampleGrammar.{item_word, const_block, public, Block};
ghost use Rattle.mbe_grammar.specs.SampleGrammar.{Assignment, Meta, Annotation, Let, ItemStmt};
ghost use Rattle.mbe_grammar.specs.SampleGrammar.{Stmt, Item, Vis};
ghost use Rattle.mbe_grammar.specs.Tables.ParseResult.{result_model};

use crate::sample_expressions::{VISIBLE, expr};
use crate::sample_patterns::pat_top;
use crate::sample_tokens::puncts;
use crate::sample_types::{PathStyle, path, ty};
use crate::tables::parse_result::{ParseFailure, ParseResult, ahead, maybe, not_ahead};
use crate::tables::terminals::{group, word};
use mbe_tt::tt::{DelimiterKind, Leaf, TokenTreesView, TtElement};
use std::alloc::Allocator;

// The words of items that end with a `;`, and the words of items that end with a `;` or a brace
// group.
const SHORT_ITEMS: &[&str] = &["use", "const", "static", "type"];

const LONG_ITEMS: &[&str] = &["fn", "struct", "enum", "trait", "impl", "mod", "extern"];

/// A block.
#[tactic(auto, using(crate::proofs::Parts::block_is))]
pub fn block<'t, A: Allocator>(tokens: TokenTreesView<'t, A>) -> ParseResult<'t, A>
    ensures { result_model result ≡ takes Block (trees tokens.entry) }
{
    group(tokens, &[DelimiterKind::Brace])
}

// `=` and an expression.
#[tactic(auto, using(crate::proofs::Parts::assignment_is))]
fn assignment<'t, A: Allocator>(tokens: TokenTreesView<'t, A>) -> ParseResult<'t, A>
    ensures { result_model result ≡ takes Assignment (trees tokens.entry) }
{
    expr(puncts(tokens, &['='])?)
}

/// The content of an attribute: a path, and a group or a value after it.
#[tactic(auto, using(crate::proofs::Parts::meta_is))]
pub fn meta<'t, A: Allocator>(tokens: TokenTreesView<'t, A>) -> ParseResult<'t, A>
    ensures { result_model result ≡ takes Meta (trees tokens.entry) }
{
    let rest = path(tokens, PathStyle::Plain)?;
    maybe(first_of!(group(rest, &VISIBLE), assignment(rest)), rest)
}

// `:` and a type.
#[tactic(auto, using(crate::proofs::Parts::annotation_is))]
fn annotation<'t, A: Allocator>(tokens: TokenTreesView<'t, A>) -> ParseResult<'t, A>
    ensures { result_model result ≡ takes Annotation (trees tokens.entry) }
{
    ty(puncts(tokens, &[':'])?)
}

// `let` without its `;`.
#[tactic(auto, using(crate::proofs::Parts::let_is))]
fn let_stmt<'t, A: Allocator>(tokens: TokenTreesView<'t, A>) -> ParseResult<'t, A>
    ensures { result_model result ≡ takes Let (trees tokens.entry) }
{
    let rest = pat_top(word(tokens, &["let"])?)?;
    let rest = maybe(annotation(rest), rest)?;
    maybe(assignment(rest), rest)
}

// A word that an item begins with.
fn item_word<'t, A: Allocator>(tokens: TokenTreesView<'t, A>) -> ParseResult<'t, A>
    ensures { result_model result ≡ meaning takes item_word (trees tokens.entry) }
{
    first_of!(
        word(tokens, &["pub"]),
        word(tokens, SHORT_ITEMS),
        word(tokens, LONG_ITEMS)
    )
}

// `const` and a block.
fn const_block<'t, A: Allocator>(tokens: TokenTreesView<'t, A>) -> ParseResult<'t, A>
    ensures { result_model result ≡ meaning takes const_block (trees tokens.entry) }
{
    group(word(tokens, &["const"])?, &[DelimiterKind::Brace])
}

// An item as a statement. `const` before a block isn't an item, but begins an expression.
#[tactic(auto, using(crate::proofs::Parts::item_stmt_is))]
fn item_stmt<'t, A: Allocator>(tokens: TokenTreesView<'t, A>) -> ParseResult<'t, A>
    ensures { result_model result ≡ takes ItemStmt (trees tokens.entry) }
{
    let tokens = ahead(item_word(tokens), tokens)?;
    let tokens = not_ahead(const_block(tokens), tokens)?;
    item(tokens)
}

/// A statement without its `;`.
#[tactic(auto, using(crate::proofs::Parts::stmt_is))]
pub fn stmt<'t, A: Allocator>(tokens: TokenTreesView<'t, A>) -> ParseResult<'t, A>
    ensures { result_model result ≡ takes Stmt (trees tokens.entry) }
{
    first_of!(let_stmt(tokens), item_stmt(tokens), expr(tokens))
}

// Whether an item ends with this tree: a `;`, or a brace group if `at_brace`.
fn is_item_end<A: Allocator>(tree: &TtElement<'_, A>, at_brace: bool) -> bool
    ensures { result ≡ is_item_end at_brace (element_tree tree.now) }
{
    match tree {
        TtElement::Leaf(Leaf::Punct(punct)) => punct.char == ';',
        TtElement::Leaf(_) => false,
        TtElement::Subtree(subtree, _inside) => {
            at_brace && subtree.delimiter.kind == DelimiterKind::Brace
        }
    }
}

// All trees up to the first that ends an item, with that tree.
fn up_to_end<'t, A: Allocator>(tokens: TokenTreesView<'t, A>, at_brace: bool) -> ParseResult<'t, A>
    ensures { result_model result ≡ or_fault
        (past_first (is_item_end at_brace) (trees tokens.entry)) }
{
    let mut iter = tokens.iter();
    'trees: while let Some(tree) = iter.next() {
        if is_item_end(&tree, at_brace) {
            return Ok(iter.remaining());
        }
    }
    Err(ParseFailure::Fault)
}

// An item that ends with a `;`.
fn short_item<'t, A: Allocator>(tokens: TokenTreesView<'t, A>) -> ParseResult<'t, A>
    ensures { result_model result ≡ meaning takes short_item (trees tokens.entry) }
{
    up_to_end(word(tokens, SHORT_ITEMS)?, false)
}

// An item that ends with a `;` or a brace group.
fn long_item<'t, A: Allocator>(tokens: TokenTreesView<'t, A>) -> ParseResult<'t, A>
    ensures { result_model result ≡ meaning takes long_item (trees tokens.entry) }
{
    up_to_end(word(tokens, LONG_ITEMS)?, true)
}

/// An item.
#[tactic(auto, using(crate::proofs::Parts::item_is))]
pub fn item<'t, A: Allocator>(tokens: TokenTreesView<'t, A>) -> ParseResult<'t, A>
    ensures { result_model result ≡ takes Item (trees tokens.entry) }
{
    let rest = vis(tokens)?;
    first_of!(short_item(rest), long_item(rest))
}

// A group in parentheses that begins with `crate`, `self`, `super` or `in`.
fn scope<'t, A: Allocator>(tokens: TokenTreesView<'t, A>) -> ParseResult<'t, A>
    ensures { result_model result ≡ or_no_match (after_one is_scope (trees tokens.entry)) }
{
    let mut iter = tokens.iter();
    match iter.expect_subtree() {
        Ok((subtree, inside))
            if subtree.delimiter.kind == DelimiterKind::Parenthesis
                && word(inside.remaining(), &["crate", "self", "super", "in"]).is_ok() => {
            Ok(iter.remaining())
        }
        _ => Err(ParseFailure::NoMatch),
    }
}

// `pub`, and its scope.
fn public<'t, A: Allocator>(tokens: TokenTreesView<'t, A>) -> ParseResult<'t, A>
    ensures { result_model result ≡ meaning takes public (trees tokens.entry) }
{
    let rest = word(tokens, &["pub"])?;
    maybe(scope(rest), rest)
}

/// `pub` and its scope, or nothing.
#[tactic(auto, using(crate::proofs::Parts::vis_is))]
pub fn vis<'t, A: Allocator>(tokens: TokenTreesView<'t, A>) -> ParseResult<'t, A>
    ensures { result_model result ≡ takes Vis (trees tokens.entry) }
{
    maybe(public(tokens), tokens)
}
