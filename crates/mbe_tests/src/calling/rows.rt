// All tables of the examples. The fields of rows are described at the tables.
use crate::calling::definitions::tests::{DESCRIBED, is_described, is_read};
use crate::calling::expansions::tests::{self, expands_nothing, is_expanded, is_marked};
use crate::calling::grammars::tests::are_handed_in;
use crate::calling::group_views::tests::is_group_expanded;
use crate::calling::logs::many::is_last_of_many;
use crate::calling::logs::values::{are_bindings, are_fragments};
use crate::calling::memory::count_requests;
use crate::calling::results::tests::{are_made, is_call_changed, is_type_found};
use crate::calling::rule_table::sum_of;
use crate::calling::rule_table::tests::SUMS;
use crate::calling::rule_verdicts::tests::are_explained;
use crate::calling::small_values::tests::{are_read, is_bound_in_one};
use crate::calling::theorem::tests::{CALLS, becomes};
use crate::calling::{bindings, text_trees, tree_builder, walks};
use std::alloc::{AllocError, Global};
use test_rows::{FailedRow, Fields, RowTest, all, rows};

fn is_sum(alloc: Global, text: &str, count: &str) -> Option<bool> {
    if text.len() > 1_000_000 {
        return None;
    }
    Some(sum_of(alloc, text).ok()? == count.parse::<usize>().ok())
}

// What is tested of each row of a table, or once.
#[derive(Clone, Copy)]
enum Call {
    Expanded,
    Described,
    Applied,
    Sum,
    Read,
    Refused,
    Marked,
    Explained,
    HandedIn,
    Memory,
    Changed,
    Made,
    Type,
    Group,
}

impl RowTest for Call {
    fn passes(
        &self,
        alloc: Global,
        [one, two, three, four, five, _]: Fields,
    ) -> Result<bool, AllocError> {
        let passes = match self {
            Call::Expanded => is_expanded(alloc, (one, two), three, (four, five)),
            Call::Described => is_described(alloc, one, (two, three), four),
            Call::Applied => becomes(alloc, one, two),
            Call::Sum => is_sum(alloc, one, two),
            Call::Read => is_read(alloc),
            Call::Refused => expands_nothing(alloc),
            Call::Marked => is_marked(alloc),
            Call::Explained => are_explained(alloc),
            Call::HandedIn => are_handed_in(alloc),
            // At least: the two buffers, the rules, the two lists of ops, the symbols of the texts
            // and the expansion's buffer.
            Call::Memory => Some(count_requests(alloc).unwrap_or(0) > 8),
            Call::Changed => is_call_changed(alloc),
            Call::Made => are_made(alloc),
            Call::Type => is_type_found(alloc),
            Call::Group => is_group_expanded(alloc),
        };
        Ok(passes.unwrap_or(false))
    }
}

static CALLED: [(Call, &str, usize); 14] = [
    (Call::Expanded, tests::CALLS, 3),
    (Call::Described, DESCRIBED, 5),
    (Call::Applied, CALLS, 4),
    (Call::Sum, SUMS, 4),
    (Call::Read, rows![("a macro is copied")], 1),
    (Call::Refused, rows![("refused patterns expand nothing")], 1),
    (Call::Marked, rows![("the template is marked")], 1),
    (Call::Explained, rows![("each rule has its verdict")], 1),
    (Call::HandedIn, rows![("grammars are handed in")], 1),
    (Call::Memory, rows![("each request is refused in turn")], 1),
    (Call::Changed, rows![("results are changed")], 1),
    (Call::Made, rows![("results are made")], 1),
    (Call::Type, rows![("a type is found")], 1),
    (Call::Group, rows![("a group is an argument")], 1),
];

// What is tested once, of trees and values.
#[derive(Clone, Copy)]
enum Tree {
    Bound,
    Read,
    OfItsLog,
    Printed,
    Counted,
    Kept,
    Assigned,
    Expected,
    Consumed,
    Names,
    LookedInto,
    Built,
    Group,
    Bindings,
    Fragments,
    Million,
}

impl RowTest for Tree {
    fn passes(&self, alloc: Global, _fields: Fields) -> Result<bool, AllocError> {
        let passes = match self {
            Tree::Bound => bindings::tests::is_bound_each_way(alloc),
            Tree::Read => are_read(alloc),
            Tree::OfItsLog => is_bound_in_one(alloc),
            Tree::Printed => Some(text_trees::tests::is_printed(alloc)),
            Tree::Counted => Some(text_trees::tests::are_counted(alloc)),
            Tree::Kept => text_trees::tests::are_kept(alloc),
            Tree::Assigned => walks::tests::is_assignment_read(alloc),
            Tree::Expected => walks::tests::is_each_expected(alloc),
            Tree::Consumed => walks::tests::are_consumed(alloc),
            Tree::Names => walks::tests::are_counted(alloc),
            Tree::LookedInto => walks::tests::is_looked_into(alloc),
            Tree::Built => tree_builder::tests::are_built(alloc),
            Tree::Group => tree_builder::tests::is_group_built(alloc),
            Tree::Bindings => return are_bindings(alloc),
            Tree::Fragments => return are_fragments(alloc),
            Tree::Million => return is_last_of_many(alloc, 500_000),
        };
        Ok(passes.unwrap_or(false))
    }
}

static TREES: [(Tree, &str, usize); 16] = [
    (
        Tree::Bound,
        rows![("names are bound by a log and by hand")],
        1,
    ),
    (Tree::Read, rows![("small values are read")], 1),
    (Tree::OfItsLog, rows![("a handle is of its log")], 1),
    (Tree::Printed, rows![("a text is printed by its trees")], 1),
    (
        Tree::Counted,
        rows![("faults and ends are counted in bytes")],
        1,
    ),
    (Tree::Kept, rows![("names of two files are kept once")], 1),
    (Tree::Assigned, rows![("assignments are read")], 1),
    (Tree::Expected, rows![("each tree is expected")], 1),
    (Tree::Consumed, rows![("trees are consumed")], 1),
    (Tree::Names, rows![("names and leaves are counted")], 1),
    (Tree::LookedInto, rows![("a group is looked into")], 1),
    (Tree::Built, rows![("trees are built")], 1),
    (Tree::Group, rows![("groups are built")], 1),
    (
        Tree::Bindings,
        rows![("bindings are equal in any order")],
        1,
    ),
    (
        Tree::Fragments,
        rows![("fragments are equal where trees and writing are")],
        1,
    ),
    (Tree::Million, rows![("a log has a million lists")], 1),
];

#[test]
fn all_examples_pass(rt: HostRuntime) -> Result<(), FailedRow> {
    all(rt.alloc(), &CALLED)?;
    all(rt.alloc(), &TREES)
}
