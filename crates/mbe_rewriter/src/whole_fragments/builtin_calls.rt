// Expands calls of builtin macros in an expansion, as rustc does.
//
// `line!()` and `column!()` become the line and column of the outermost call. Fragments in the
// arguments of `stringify!` and `concat!` lose their parentheses.
ghost use Rattle.std.specs.Prelude.{◌≡◌, ◌<◌, false, IfOk, OnOk, length};
ghost use Rattle.mbe_tt.specs.Buffers.GroupStack.{put};
ghost use Rattle.mbe_tt.specs.Views.LeafViews.{leaf_of};
ghost use Rattle.mbe_tt.specs.Views.View.{trees};
ghost use Rattle.mbe_rewriter.specs.WholeFragments.BuiltinCalls as spec;

use mbe_tt::span::Span;
use mbe_tt::symbol::Symbol;
use mbe_tt::tt::{
    Delimiter, DelimiterKind, Leaf, LitKind, Literal, TokenTreesView, TopSubtree,
    TopSubtreeBuilder, TtElement,
};
use std::alloc::{AllocError, Allocator};

// The maximum depth of groups. Deeper groups are copied unchanged.
const LEVELS: u32 = 1000;

/// The numbers that `line!` and `column!` expand to, and which of these four macros are builtin.
#[derive(Clone, Copy, Drop)]
pub struct Builtins {
    pub line: Option<u32>,
    pub column: Option<u32>,
    pub stringify: bool,
    pub concat: bool,
}

// The surroundings of the trees.
#[derive(Clone, Copy, Drop)]
pub(crate) enum BuiltinContext {
    Code,
    // The argument of `concat!`.
    Joined,
    // The argument of `stringify!`, and every group in it.
    Shown,
}

// The tokens before a tree.
#[derive(Clone, Copy, Drop)]
pub(crate) enum BuiltinPrefix {
    Other,
    Colon,
    Stringify,
    StringifyBang,
    Concat,
    ConcatBang,
}

// ---- the tokens before a tree

fn after_word(builtins: Builtins, word: &str) -> BuiltinPrefix
    ensures { result ≡ spec.after_word builtins word.now }
{
    if builtins.stringify && word == "stringify" {
        BuiltinPrefix::Stringify
    } else if builtins.concat && word == "concat" {
        BuiltinPrefix::Concat
    } else {
        BuiltinPrefix::Other
    }
}

fn after_bang(before: BuiltinPrefix) -> BuiltinPrefix
    ensures { result ≡ spec.after_bang before }
{
    match before {
        BuiltinPrefix::Stringify => BuiltinPrefix::StringifyBang,
        BuiltinPrefix::Concat => BuiltinPrefix::ConcatBang,
        _ => BuiltinPrefix::Other,
    }
}

fn after_char(before: BuiltinPrefix, char: char) -> BuiltinPrefix
    ensures { result ≡ spec.after_char before char }
{
    match char {
        '!' => after_bang(before),
        ':' => BuiltinPrefix::Colon,
        _ => BuiltinPrefix::Other,
    }
}

fn after_leaf<A: Allocator>(
    builtins: Builtins,
    before: BuiltinPrefix,
    leaf: &Leaf<A>,
) -> BuiltinPrefix
    ensures { result ≡ spec.after_leaf builtins before (leaf_of leaf.now) }
{
    match leaf {
        Leaf::Ident(ident) => after_word(builtins, ident.sym.as_str()),
        Leaf::Punct(punct) => after_char(before, punct.char),
        Leaf::Literal(_) => BuiltinPrefix::Other,
    }
}

// ---- numbers

fn is_bang<A: Allocator>(leaf: &Leaf<A>) -> bool
    ensures { result ≡ spec.is_bang (leaf_of leaf.now) }
{
    match leaf {
        Leaf::Punct(punct) => punct.char == '!',
        Leaf::Ident(_) | Leaf::Literal(_) => false,
    }
}

fn is_empty_group<A: Allocator>(tokens: TokenTreesView<'_, A>) -> bool
    ensures { result ≡ spec.is_empty_group (trees tokens.entry) }
{
    match tokens.iter().next() {
        Some(TtElement::Subtree(_, inside)) => inside.is_empty(),
        Some(TtElement::Leaf(_)) | None => false,
    }
}

// Returns whether a `!` and an empty group are at the front.
fn is_empty_call<A: Allocator>(tokens: TokenTreesView<'_, A>) -> bool
    ensures { result ≡ spec.is_empty_call (trees tokens.entry) }
{
    let mut iter = tokens.iter();
    match iter.next() {
        Some(TtElement::Leaf(leaf)) => is_bang(leaf) && is_empty_group(iter.remaining()),
        Some(TtElement::Subtree(..)) | None => false,
    }
}

fn number_of<A: Allocator>(builtins: Builtins, leaf: &Leaf<A>) -> Option<u32>
    ensures { result ≡ spec.number_of builtins (leaf_of leaf.now) }
{
    match leaf {
        Leaf::Ident(ident) => match ident.sym.as_str() {
            "line" => builtins.line,
            "column" => builtins.column,
            _ => None,
        },
        Leaf::Punct(_) | Leaf::Literal(_) => None,
    }
}

fn may_be_number(inside: BuiltinContext, before: BuiltinPrefix) -> bool
    ensures { result ≡ spec.may_be_number inside before }
{
    match (inside, before) {
        (BuiltinContext::Shown, _) | (_, BuiltinPrefix::Colon) => false,
        _ => true,
    }
}

// Returns the number that replaces the call of `line!` or `column!` that begins with a leaf. There
// is none if no such call begins there, or if the leaf continues a longer path.
fn number_at<A: Allocator>(
    builtins: Builtins,
    inside: BuiltinContext,
    before: BuiltinPrefix,
    leaf: &Leaf<A>,
    rest: TokenTreesView<'_, A>,
) -> Option<u32>
    ensures { result ≡ spec.number_at builtins inside before (leaf_of leaf.now) (trees rest.entry) }
{
    if may_be_number(inside, before) && is_empty_call(rest) {
        number_of(builtins, leaf)
    } else {
        None
    }
}

fn number_leaf<A: Allocator + Copy>(
    alloc: A,
    span: Span,
    number: u32,
) -> Result<Leaf<A>, AllocError>
    ensures { IfOk result (λ l. leaf_of l ≡ spec.number_leaf span number) }
{
    let text = format!(in alloc; "{number}u32")?;
    Ok(Leaf::Literal(Literal {
        text_and_suffix: Symbol::intern(alloc, text.as_str())?,
        suffix_len: 3,
        kind: LitKind::Integer,
        span,
    }))
}

// Returns a leaf, or the number that replaces the call that begins with it.
fn kept<A: Allocator + Copy>(
    alloc: A,
    leaf: &Leaf<A>,
    number: Option<u32>,
) -> Result<Leaf<A>, AllocError>
    ensures { IfOk result (λ l. leaf_of l ≡ spec.kept (leaf_of leaf.now) number) }
{
    match number {
        Some(number) => number_leaf(alloc, leaf.span(), number),
        None => leaf.clone(),
    }
}

fn trees_skipped(number: Option<u32>) -> usize
    ensures { result ≡ spec.trees_skipped number }
{
    match number {
        Some(_) => 2,
        None => 0,
    }
}

// ---- groups

fn is_same_span(one: Span, other: Span) -> bool
    ensures { result ≡ spec.is_same_span one other }
{
    one.file == other.file && one.start == other.start && one.end == other.end
}

fn is_fragment(delimiter: Delimiter) -> bool
    ensures { result ≡ spec.is_fragment delimiter }
{
    matches!(delimiter.kind, DelimiterKind::Parenthesis)
        && is_same_span(delimiter.opening, delimiter.close)
}

// Returns whether a group is written without its parentheses.
fn is_unwrapped(inside: BuiltinContext, delimiter: Delimiter) -> bool
    ensures { result ≡ spec.is_unwrapped inside delimiter }
{
    !matches!(inside, BuiltinContext::Code) && is_fragment(delimiter)
}

// Returns what surrounds the trees of a group.
fn in_group(inside: BuiltinContext, before: BuiltinPrefix, is_unwrapped: bool) -> BuiltinContext
    ensures { result ≡ spec.in_group inside before is_unwrapped }
{
    match (inside, before) {
        (BuiltinContext::Shown, _) | (_, BuiltinPrefix::StringifyBang) => BuiltinContext::Shown,
        (_, BuiltinPrefix::ConcatBang) => BuiltinContext::Joined,
        _ if is_unwrapped => inside,
        _ => BuiltinContext::Code,
    }
}

pub(crate) fn open<A: Allocator>(
    builder: &mut TopSubtreeBuilder<A>,
    delimiter: Delimiter,
    is_unwrapped: bool,
) -> Result<(), AllocError>
    ensures { OnOk result (builder.new ≡ spec.begun is_unwrapped delimiter builder.old) }
{
    if is_unwrapped {
        Ok(())
    } else {
        builder.open(delimiter.kind, delimiter.opening)
    }
}

pub(crate) fn close<A: Allocator>(
    builder: &mut TopSubtreeBuilder<A>,
    delimiter: Delimiter,
    is_unwrapped: bool,
)
    requires { is_unwrapped ≡ false → 1 < length builder.old }
    ensures { builder.new ≡ spec.ended is_unwrapped delimiter builder.old }
{
    if !is_unwrapped {
        builder.close(delimiter.close);
    }
}

// ---- the trees

// Writes the trees, at most `levels` groups deep.
fn write_builtins<A: Allocator + Copy>(
    alloc: A,
    builder: &mut TopSubtreeBuilder<A>,
    builtins: Builtins,
    inside: BuiltinContext,
    tokens: TokenTreesView<'_, A>,
    levels: u32,
) -> Result<(), AllocError>
    requires { 0 < length builder.old }
    ensures { OnOk result (builder.new
        ≡ put (spec.expand_builtins_in builtins levels inside (trees tokens.entry)) builder.old) }
{
    if levels == 0 {
        return builder.extend_with_tt(tokens);
    }
    let mut rest = tokens.iter();
    let (mut still_skipped, mut before) = (0usize, BuiltinPrefix::Other);
    'trees: while let Some(tree) = rest.next() {
        if still_skipped > 0 {
            still_skipped -= 1;
            continue;
        }
        match tree {
            TtElement::Leaf(leaf) => {
                let number = number_at(builtins, inside, before, leaf, rest.remaining());
                builder.push(kept(alloc, leaf, number)?)?;
                still_skipped = trees_skipped(number);
                before = after_leaf(builtins, before, leaf);
            }
            TtElement::Subtree(group, held) => {
                let is_bare = is_unwrapped(inside, group.delimiter);
                let within = in_group(inside, before, is_bare);
                open(builder, group.delimiter, is_bare)?;
                write_builtins(
                    alloc,
                    builder,
                    builtins,
                    within,
                    held.remaining(),
                    levels - 1,
                )?;
                close(builder, group.delimiter, is_bare);
                before = BuiltinPrefix::Other;
            }
        }
    }
    Ok(())
}

/// Returns the trees of an expansion with each call of `line!` or `column!` replaced by its number.
/// Fragments in the arguments of `stringify!` and `concat!` lose their parentheses. Returns
/// `AllocError` if memory runs out.
pub fn expand_builtins<A: Allocator + Copy>(
    alloc: A,
    builtins: Builtins,
    tree: &TopSubtree<A>,
) -> Result<TopSubtree<A>, AllocError>
    ensures { IfOk result (λ t. t ≡ (tree.now.0, spec.expand_builtins builtins tree.now.1)) }
{
    let mut builder = TopSubtreeBuilder::new(alloc, tree.top_subtree().delimiter)?;
    let tokens = tree.iter().remaining();
    write_builtins(
        alloc,
        &mut builder,
        builtins,
        BuiltinContext::Code,
        tokens,
        LEVELS,
    )?;
    Ok(builder.build())
}
