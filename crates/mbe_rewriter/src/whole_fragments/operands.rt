// Decides whether trees are a single operand: a path, a literal, a group or a macro call, with its
// fields, calls, indexes and `?`. No operator beside such an operand takes a part of it.
//
// Each tree leads from one state to the next. In `a::b(1).c`, `a` gives `Path`, each `:` gives
// `AfterColon`, `b` gives `Path`, `(1)` gives `Applied`, `.` gives `AfterDot`, and `c` gives
// `Field`.
ghost use Rattle.std.specs.Prelude.{◌≡◌, false};
ghost use Rattle.mbe_tt.specs.Views.Element.{element_tree};
ghost use Rattle.mbe_tt.specs.Views.LeafViews.{leaf_of};
ghost use Rattle.mbe_tt.specs.Views.View.{trees};
ghost use Rattle.mbe_rewriter.specs.WholeFragments.Operands as spec;

use crate::macro_items::can_name_macro;
use mbe_tt::fragment_group::FragmentGroup;
use mbe_tt::tt::{Delimiter, DelimiterKind, Ident, Leaf, LitKind, TokenTreesView, TtElement};
use std::alloc::Allocator;

// What the trees so far are.
#[derive(Clone, Copy, Drop)]
pub(crate) enum Operand {
    // No tree yet.
    Start,
    // A path and a `:`.
    AfterColon,
    // A path and a `!`. The argument of a macro call is to come.
    AfterBang,
    // An operand and a `.`. A field is to come.
    AfterDot,
    Path,
    Field,
    // A macro call, and nothing after it.
    MacroCall,
    // A text or a group, or an operand that was called, indexed, or has a `?`.
    Applied,
    // No operand, whatever comes.
    Not,
}

fn after_char(char: char, so_far: Operand) -> Operand
    ensures { result ≡ spec.after_char char so_far }
{
    match so_far {
        Operand::Start | Operand::AfterColon if char == ':' => Operand::AfterColon,
        Operand::Path if char == ':' => Operand::AfterColon,
        Operand::Path if char == '!' => Operand::AfterBang,
        Operand::Path | Operand::Field | Operand::MacroCall | Operand::Applied if char == '.' => {
            Operand::AfterDot
        }
        Operand::Path | Operand::Field | Operand::MacroCall | Operand::Applied if char == '?' => {
            Operand::Applied
        }
        _ => Operand::Not,
    }
}

fn after_name<A: Allocator>(name: &Ident<A>, so_far: Operand) -> Operand
    ensures { result ≡ spec.after_name name.now.is_raw name.now.sym so_far }
{
    match so_far {
        Operand::Start if can_name_macro(name) => Operand::Path,
        Operand::AfterColon => Operand::Path,
        Operand::AfterDot => Operand::Field,
        _ => Operand::Not,
    }
}

fn after_literal(kind: LitKind, so_far: Operand) -> Operand
    ensures { result ≡ spec.after_literal kind so_far }
{
    match (so_far, kind) {
        // A `.` may continue a number.
        (Operand::Start, LitKind::Integer | LitKind::Float) => Operand::Not,
        (Operand::Start, _) => Operand::Applied,
        (Operand::AfterDot, _) => Operand::Field,
        _ => Operand::Not,
    }
}

fn after_leaf<A: Allocator>(leaf: &Leaf<A>, so_far: Operand) -> Operand
    ensures { result ≡ spec.after_leaf (leaf_of leaf.now) so_far }
{
    match leaf {
        Leaf::Punct(punct) => after_char(punct.char, so_far),
        Leaf::Ident(ident) => after_name(ident, so_far),
        Leaf::Literal(literal) => after_literal(literal.kind, so_far),
    }
}

// Returns whether a group in these delimiters may be arguments, an index, or an operand.
fn is_application(kind: DelimiterKind) -> bool
    ensures { result ≡ spec.is_application kind }
{
    matches!(kind, DelimiterKind::Parenthesis | DelimiterKind::Bracket)
}

fn after_group(delimiter: Delimiter, so_far: Operand) -> Operand
    ensures { result ≡ spec.after_group delimiter so_far }
{
    let is_applied = is_application(delimiter.kind);
    match so_far {
        Operand::Start if FragmentGroup::Expr.is_around(delimiter) => Operand::Applied,
        Operand::AfterBang if is_applied => Operand::MacroCall,
        Operand::Start | Operand::Path | Operand::Field | Operand::MacroCall | Operand::Applied
            if is_applied => Operand::Applied,
        _ => Operand::Not,
    }
}

fn after_tree<A: Allocator>(tree: TtElement<'_, A>, so_far: Operand) -> Operand
    ensures { result ≡ spec.after_tree (element_tree tree.entry) so_far }
{
    match tree {
        TtElement::Leaf(leaf) => after_leaf(leaf, so_far),
        TtElement::Subtree(group, _) => after_group(group.delimiter, so_far),
    }
}

fn operand_of<A: Allocator>(tokens: TokenTreesView<'_, A>) -> Operand
    ensures { result ≡ spec.operand_of (trees tokens.entry) }
{
    let mut rest = tokens.iter();
    let mut so_far = Operand::Start;
    'trees: while let Some(tree) = rest.next() {
        so_far = after_tree(tree, so_far);
    }
    so_far
}

// Returns whether the arguments of a function call are at the front.
fn is_called<A: Allocator>(rest: TokenTreesView<'_, A>) -> bool
    ensures { result ≡ spec.is_called (trees rest.entry) }
{
    match rest.iter().next() {
        Some(TtElement::Subtree(group, _)) => {
            matches!(group.delimiter.kind, DelimiterKind::Parenthesis)
        }
        Some(TtElement::Leaf(_)) | None => false,
    }
}

/// Returns whether the trees `tokens` before `rest` are a single operand: a path, a text, a group
/// or a macro call, with its fields, calls, indexes and `?`. A field before arguments isn't one,
/// since the text would call a method.
pub fn is_single_operand<A: Allocator>(
    tokens: TokenTreesView<'_, A>,
    rest: TokenTreesView<'_, A>,
) -> bool
    ensures { result ≡ spec.is_single_operand (trees tokens.entry) (trees rest.entry) }
{
    match operand_of(tokens) {
        Operand::Path | Operand::MacroCall | Operand::Applied => true,
        Operand::Field => !is_called(rest),
        _ => false,
    }
}

/// Returns whether the trees are a macro call in parentheses or brackets, and nothing else.
pub(crate) fn is_macro_call<A: Allocator>(tokens: TokenTreesView<'_, A>) -> bool
    ensures { result ≡ spec.is_macro_call (trees tokens.entry) }
{
    matches!(operand_of(tokens), Operand::MacroCall)
}
