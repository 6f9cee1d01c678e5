// Rust's grammar of fragments: the table of rules, the keywords, and the rules of the entry points.
ghost use Rattle.std.specs.Prelude.{◌≡◌, true, Some, map};
ghost use Rattle.mbe_tt.specs.declared.grammar.Dialect.TheVariants.{RustAnalyzer};
ghost use Rattle.mbe_grammar.specs.Peg.Views.{plain_node};
ghost use Rattle.mbe_grammar.specs.Rust.Closed.{all_defined};
ghost use Rattle.mbe_grammar.specs.Rust.Starts.{rust_entry_rules, rust_begin_rules};
ghost use Rattle.mbe_grammar.specs.Rust.Keywords.{rust_keywords, rows};
ghost use Rattle.mbe_grammar.specs.Rust.Nodes.{rust_nodes};

use crate::rust::keywords::KEYWORDS;
use crate::rust::nodes::NODES;
use crate::rust::positions::{
    BEGIN_ANY, BEGIN_BLOCK, BEGIN_EXPR, BEGIN_PAT, BEGIN_PAT_TOP, BEGIN_PATH, BEGIN_TYPE,
    BEGIN_VIS, BLOCK, EXPR_FRAGMENT, ITEM, META, PAT_FRAGMENT, PAT_TOP_FRAGMENT, STMT, TYPE,
    TYPE_PATH, VIS,
};
use crate::tables::peg_table::{EntryRules, RuleTable};
use mbe_tt::grammar::Dialect;
use mbe_tt::span::Edition;

/// The grammar of Rust's fragments in rust-analyzer's dialect, for the editions from 2015 to 2024.
/// `with_dialect` changes the dialect. Some rules depend on the edition of the span's context.
/// Context `n` has the edition `editions[n]`. A context that isn't in the list has `edition`. Each
/// rule names rules that exist.
///
/// For each text that rustc accepts, a fragment has as many trees as in rustc 1.95. Groups are
/// consumed whole: only the content of `pub (..)` and of a bound's `[const]` is looked at.
/// `rust.peg` is the same grammar in a readable form.
pub fn rust_rules(edition: Edition, editions: &[Edition]) -> RuleTable<'_>
    ensures nodes { map plain_node result.nodes.now ≡ rust_nodes }
    ensures dialect { result.dialect ≡ RustAnalyzer }
    ensures keywords { rows result.keywords.now ≡ rust_keywords }
    ensures starts { result.starts ≡ rust_entry_rules }
    ensures begins { result.begins ≡ Some rust_begin_rules }
    ensures edition { result.edition ≡ edition }
    ensures editions { result.editions.now ≡ editions.now }
    ensures closed { all_defined result.nodes.now ≡ true }
{
    RuleTable {
        nodes: NODES,
        keywords: KEYWORDS,
        starts: EntryRules {
            path: TYPE_PATH,
            expr: EXPR_FRAGMENT,
            ty: TYPE,
            pat_top: PAT_TOP_FRAGMENT,
            pat: PAT_FRAGMENT,
            stmt: STMT,
            block: BLOCK,
            meta: META,
            item: ITEM,
            vis: VIS,
        },
        begins: Some(EntryRules {
            path: BEGIN_PATH,
            expr: BEGIN_EXPR,
            ty: BEGIN_TYPE,
            pat_top: BEGIN_PAT_TOP,
            pat: BEGIN_PAT,
            stmt: BEGIN_ANY,
            block: BEGIN_BLOCK,
            meta: BEGIN_PATH,
            item: BEGIN_ANY,
            vis: BEGIN_VIS,
        }),
        dialect: Dialect::RustAnalyzer,
        edition,
        editions,
    }
}
