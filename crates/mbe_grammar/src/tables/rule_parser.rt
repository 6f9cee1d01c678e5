// The parser for all tables. Each call of a rule counts a depth down. So parsing ends whatever the
// table holds, and the calls on the stack are bounded whatever the trees are.
ghost use Rattle.std.specs.Prelude.{◌≡◌, Some};
ghost use Rattle.std.specs.List.{slice_get};
ghost use Rattle.mbe_tt.specs.Trees.Tree.{flat_len};
ghost use Rattle.mbe_tt.specs.Views.View.{trees};
ghost use Rattle.mbe_grammar.specs.Tables.Rule.{takes, meaning, inside_of, times};
ghost use Rattle.mbe_grammar.specs.Tables.ParseResult.{result_model};

use crate::tables::node::Node;
use crate::tables::parse_result::{
    ParseFailure, ParseResult, ahead, maybe, needed, not_ahead, require_empty,
};
use crate::tables::peg_table::RuleTable;
use crate::tables::terminals::terminal;
use mbe_tt::tt::{DelimiterKind, TokenTreesView};
use std::alloc::Allocator;

/// Parses by the rule with this index, with calls nested at most `depth` deep. Returns the trees
/// after those that the rule consumes.
#[cycle(parse_rule)]
#[tactic(auto, using(crate::proofs::TakesLemmas::takes_none))]
pub fn parse_rule<'t, A: Allocator>(
    table: &RuleTable<'_>,
    depth: u32,
    rule: usize,
    tokens: TokenTreesView<'t, A>,
) -> ParseResult<'t, A>
    ensures { result_model result ≡ takes table.now depth rule (trees tokens.entry) }
{
    if depth == 0 {
        return Err(ParseFailure::Fault);
    }
    match node_at(table.nodes, rule) {
        Some(node) => parse_node(table, depth - 1, node, tokens),
        None => Err(ParseFailure::Fault),
    }
}

// The node with this index, if there is one.
fn node_at<'g>(nodes: &[Node<'g>], position: usize) -> Option<Node<'g>>
    ensures { result ≡ slice_get nodes.now position }
{
    nodes.get(position).copied()
}

// Parses by a node. The rules that it names may nest `depth` calls.
#[cycle(parse_rule)]
fn parse_node<'t, A: Allocator>(
    table: &RuleTable<'_>,
    depth: u32,
    node: Node<'_>,
    tokens: TokenTreesView<'t, A>,
) -> ParseResult<'t, A>
    ensures { result_model result ≡ meaning table.now (takes table.now depth) (Some node.entry)
        (trees tokens.entry) }
{
    match node {
        Node::Terminal(what) => terminal(table, what, tokens),
        Node::Part(x) => parse_rule(table, depth, x, tokens),
        Node::Then(x, y) => {
            let rest = parse_rule(table, depth, x, tokens)?;
            parse_rule(table, depth, y, rest)
        }
        Node::Or(x, y) => match parse_rule(table, depth, x, tokens) {
            Err(ParseFailure::NoMatch) => parse_rule(table, depth, y, tokens),
            taken => taken,
        },
        Node::Maybe(x) => maybe(parse_rule(table, depth, x, tokens), tokens),
        Node::Repeated(x) => repeated(table, depth, x, tokens),
        Node::Inside(kind, x) => inside(table, depth, kind, x, tokens),
        Node::Needed(x) => needed(parse_rule(table, depth, x, tokens)),
        Node::Ahead(x) => ahead(parse_rule(table, depth, x, tokens), tokens),
        Node::NotAhead(x) => not_ahead(parse_rule(table, depth, x, tokens), tokens),
    }
}

// Parses a group of this kind whose whole content matches the rule.
#[cycle(parse_rule)]
#[inline(never)]
fn inside<'t, A: Allocator>(
    table: &RuleTable<'_>,
    depth: u32,
    kind: DelimiterKind,
    rule: usize,
    tokens: TokenTreesView<'t, A>,
) -> ParseResult<'t, A>
    ensures { result_model result
        ≡ inside_of kind (takes table.now depth rule) (trees tokens.entry) }
{
    let mut iter = tokens.iter();
    match iter.expect_subtree() {
        Ok((subtree, content)) if subtree.delimiter.kind == kind => {
            require_empty(
                parse_rule(table, depth, rule, content.remaining()),
                iter.remaining(),
            )
        }
        _ => Err(ParseFailure::NoMatch),
    }
}

// Parses by a rule as often as it matches, but at most as often as there are flat tokens.
#[cycle(parse_rule)]
#[inline(never)]
fn repeated<'t, A: Allocator>(
    table: &RuleTable<'_>,
    depth: u32,
    rule: usize,
    tokens: TokenTreesView<'t, A>,
) -> ParseResult<'t, A>
    ensures { result_model result
        ≡ times (flat_len (trees tokens.entry)) (takes table.now depth rule) (trees tokens.entry) }
{
    let mut rest = tokens;
    let mut left = tokens.flat_len();
    'turns: while left > 0 {
        left -= 1;
        match parse_rule(table, depth, rule, rest) {
            Ok(next) => rest = next,
            Err(ParseFailure::NoMatch) => return Ok(rest),
            Err(ParseFailure::Fault) => return Err(ParseFailure::Fault),
        }
    }
    Ok(rest)
}
