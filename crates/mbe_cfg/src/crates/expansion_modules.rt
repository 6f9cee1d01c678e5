// Finds the modules and `include!`s that an expansion declares, and puts them after its call.
//
// The modules of an expansion are its items `mod x;`, `include!("x.rs");` and `mod x { .. }`, the
// last with such items alone. They keep their attributes and their visibility.
ghost use Rattle.std.specs.Prelude.{◌≡◌, ◌==◌, ◌<◌, IfOk, OnOk, length, map, option_map};
ghost use Rattle.mbe_tt.specs.Buffers.GroupStack.{put};
ghost use Rattle.mbe_tt.specs.Trees.Leaf.{span_of};
ghost use Rattle.mbe_tt.specs.Views.LeafViews.{leaf_of};
ghost use Rattle.mbe_tt.specs.Views.View.{trees};
ghost use Rattle.mbe_cfg.specs.Crates.CrateViews.{insertion_shown, module_shown};
ghost use Rattle.mbe_cfg.specs.Crates.ExpansionModules as spec;

use crate::cfg_strip::copy_up_to;
use crate::crates::module_items::{Module, ModuleBody, ModuleCursor, module_of};
use crate::tree_front::{after_char, attribute_group, group_at};
use mbe_tt::span::Span;
use mbe_tt::tt::{
    Delimiter, DelimiterKind, Ident, Leaf, Literal, Punct, TokenTreesView, TopSubtree,
    TopSubtreeBuilder, TtElement,
};
use std::alloc::{AllocError, Allocator, Global};

// The depth of nested groups that are searched. Groups below are unchanged.
const LEVELS: u32 = 1000;

/// Trees that are put after the tree that ends at byte `end`.
#[derive(Drop)]
pub struct Insertion<A: Allocator = Global> {
    pub end: usize,
    pub trees: TopSubtree<A>,
}

// ---- modules of an expansion

// Returns the trees after the attributes at the front.
fn after_attributes<'t, A: Allocator>(tokens: TokenTreesView<'t, A>) -> TokenTreesView<'t, A>
    ensures { trees result ≡ spec.after_attributes (trees tokens.entry) }
{
    let mut rest = tokens;
    let mut left = tokens.flat_len();
    'attributes: while left > 0 {
        left -= 1;
        match attribute_group(rest) {
            Some(group) => rest = group.rest,
            None => return rest,
        }
    }
    rest
}

// Returns the trees after a `pub` or `pub(..)`, if one is at the front.
fn after_visibility<'t, A: Allocator>(tokens: TokenTreesView<'t, A>) -> TokenTreesView<'t, A>
    ensures { trees result ≡ spec.after_visibility (trees tokens.entry) }
{
    match after_pub(tokens) {
        Some(rest) => after_parentheses(rest),
        None => tokens,
    }
}

fn after_pub<'t, A: Allocator>(tokens: TokenTreesView<'t, A>) -> Option<TokenTreesView<'t, A>>
    ensures { option_map trees result ≡ spec.after_pub (trees tokens.entry) }
{
    let mut iter = tokens.iter();
    let word = iter.expect_ident().ok()?;
    if word.sym.as_str() == "pub" {
        Some(iter.remaining())
    } else {
        None
    }
}

fn after_parentheses<'t, A: Allocator>(tokens: TokenTreesView<'t, A>) -> TokenTreesView<'t, A>
    ensures { trees result ≡ spec.after_parentheses (trees tokens.entry) }
{
    match group_at(DelimiterKind::Parenthesis, tokens) {
        Some(group) => group.rest,
        None => tokens,
    }
}

// Returns the trees after the first one, if there is one.
fn after_first<'t, A: Allocator>(tokens: TokenTreesView<'t, A>) -> TokenTreesView<'t, A>
    ensures { trees result ≡ spec.after_first (trees tokens.entry) }
{
    let mut iter = tokens.iter();
    let _first = iter.next();
    iter.remaining()
}

// Returns the trees after the `include!` at the front, of which these are the group and what
// follows it. `None` if the group isn't in braces and no `;` follows it.
fn after_group<'t, A: Allocator>(tokens: TokenTreesView<'t, A>) -> Option<TokenTreesView<'t, A>>
    ensures { option_map trees result ≡ spec.after_group (trees tokens.entry) }
{
    match group_at(DelimiterKind::Brace, tokens) {
        Some(group) => Some(group.rest),
        None => after_char(after_first(tokens), ';'),
    }
}

// Returns the trees after the item `include!("..");` at the front, if one is there.
fn after_include<'t, A: Allocator>(tokens: TokenTreesView<'t, A>) -> Option<TokenTreesView<'t, A>>
    ensures { option_map trees result ≡ spec.after_include (trees tokens.entry) }
{
    match ModuleCursor::at_item_start(tokens).included {
        Some(_) => after_group(after_first(after_first(tokens))),
        None => None,
    }
}

// Writes a module in braces. The trees up to `item` are its attributes and visibility.
#[cycle(declaring)]
fn write_inline<A: Allocator + Copy>(
    builder: &mut TopSubtreeBuilder<A>,
    tokens: TokenTreesView<'_, A>,
    item: TokenTreesView<'_, A>,
    module: Module<'_, A>,
    delimiter: Delimiter,
    content: TokenTreesView<'_, A>,
    levels: u32,
) -> Result<(), AllocError>
    requires some { 0 < length builder.old }
    ensures { OnOk result (builder.new ≡ put (spec.inline_module
        (spec.modules_in levels) (trees tokens.entry) (trees item.entry)
        (module_shown module.entry) delimiter (trees content.entry)) builder.old) }
{
    copy_up_to(builder, tokens, item)?;
    builder.push(Leaf::Ident(module.word.clone()?))?;
    builder.push(Leaf::Ident(module.name.clone()?))?;
    builder.open(delimiter.kind, delimiter.opening)?;
    write_modules(builder, content, levels)?;
    builder.close(delimiter.close);
    Ok(())
}

// Writes a module. The trees up to `item` are its attributes and visibility.
#[cycle(declaring)]
fn write_module<A: Allocator + Copy>(
    builder: &mut TopSubtreeBuilder<A>,
    tokens: TokenTreesView<'_, A>,
    item: TokenTreesView<'_, A>,
    module: Module<'_, A>,
    levels: u32,
) -> Result<(), AllocError>
    requires some { 0 < length builder.old }
    ensures { OnOk result (builder.new ≡ put (spec.module_kept
        (spec.modules_in levels) (trees tokens.entry) (trees item.entry)
        (module_shown module.entry)) builder.old) }
{
    match module.body {
        ModuleBody::Outside(_) => copy_up_to(builder, tokens, module.rest),
        ModuleBody::Braces(delimiter, content) => {
            write_inline(builder, tokens, item, module, delimiter, content, levels)
        }
    }
}

// Writes the item `include!("..");` at the front, if one is there. The trees up to `item` are its
// attributes. Returns the trees after it, or after the first tree.
fn write_include<'t, A: Allocator + Copy>(
    builder: &mut TopSubtreeBuilder<A>,
    tokens: TokenTreesView<'t, A>,
    item: TokenTreesView<'t, A>,
) -> Result<TokenTreesView<'t, A>, AllocError>
    requires some { 0 < length builder.old }
    ensures kept { OnOk result (builder.new
        ≡ put (spec.include_step (trees tokens.entry) (trees item.entry)).kept builder.old) }
    ensures rest { IfOk result (λ rest. trees rest
        ≡ (spec.include_step (trees tokens.entry) (trees item.entry)).rest) }
{
    match after_include(item) {
        Some(rest) => {
            copy_up_to(builder, tokens, rest)?;
            Ok(rest)
        }
        None => Ok(after_first(tokens)),
    }
}

// Writes the module or the `include!` at the front, if one is there. Returns the trees after it, or
// after the first tree.
#[cycle(declaring)]
fn write_front<'t, A: Allocator + Copy>(
    builder: &mut TopSubtreeBuilder<A>,
    tokens: TokenTreesView<'t, A>,
    levels: u32,
) -> Result<TokenTreesView<'t, A>, AllocError>
    requires some { 0 < length builder.old }
    ensures kept { OnOk result (builder.new
        ≡ put (spec.front_step (spec.modules_in levels) (trees tokens.entry)).kept builder.old) }
    ensures rest { IfOk result (λ rest. trees rest
        ≡ (spec.front_step (spec.modules_in levels) (trees tokens.entry)).rest) }
{
    let item = after_visibility(after_attributes(tokens));
    match module_of(item) {
        Some(module) => {
            let rest = module.rest;
            write_module(builder, tokens, item, module, levels)?;
            Ok(rest)
        }
        None => write_include(builder, tokens, item),
    }
}

// Writes the modules and `include!`s among these trees, down to `levels` nested modules.
#[cycle(declaring)]
fn write_modules<A: Allocator + Copy>(
    builder: &mut TopSubtreeBuilder<A>,
    tokens: TokenTreesView<'_, A>,
    levels: u32,
) -> Result<(), AllocError>
    requires some { 0 < length builder.old }
    ensures { OnOk result (builder.new
        ≡ put (spec.modules_in levels (trees tokens.entry)) builder.old) }
{
    if levels == 0 {
        return Ok(());
    }
    let mut rest = tokens;
    let mut most = tokens.flat_len();
    'fronts: while most > 0 {
        most -= 1;
        rest = write_front(builder, rest, levels - 1)?;
    }
    Ok(())
}

// ---- their span

// Returns the leaf at that span.
fn leaf_at<A: Allocator>(at: Span, leaf: &Leaf<A>) -> Result<Leaf<A>, AllocError>
    ensures { IfOk result (λ l. leaf_of l ≡ spec.leaf_at at (leaf_of leaf.now)) }
{
    match leaf {
        Leaf::Punct(punct) => Ok(Leaf::Punct(Punct { span: at, ..*punct })),
        Leaf::Ident(ident) => Ok(Leaf::Ident(Ident {
            sym: ident.sym.clone()?,
            is_raw: ident.is_raw,
            span: at,
        })),
        Leaf::Literal(literal) => Ok(Leaf::Literal(Literal {
            text_and_suffix: literal.text_and_suffix.clone()?,
            span: at,
            kind: literal.kind,
            suffix_len: literal.suffix_len,
        })),
    }
}

// Writes the trees at that span, down to `levels` nested groups.
fn write_at<A: Allocator>(
    builder: &mut TopSubtreeBuilder<A>,
    at: Span,
    tokens: TokenTreesView<'_, A>,
    levels: u32,
) -> Result<(), AllocError>
    requires some { 0 < length builder.old }
    ensures { OnOk result (builder.new
        ≡ put (spec.at_span levels at (trees tokens.entry)) builder.old) }
{
    if levels == 0 {
        return builder.extend_with_tt(tokens);
    }
    let mut rest = tokens.iter();
    'trees: while let Some(tree) = rest.next() {
        match tree {
            TtElement::Leaf(leaf) => builder.push(leaf_at(at, leaf)?)?,
            TtElement::Subtree(group, inside) => {
                builder.open(group.delimiter.kind, at)?;
                write_at(builder, at, inside.remaining(), levels - 1)?;
                builder.close(at);
            }
        }
    }
    Ok(())
}

/// Returns the modules and `include!`s that an expansion declares. `tree` is the expansion without
/// the code that `cfg` disables. All tokens of the result are at `at`. Returns `AllocError` if
/// memory runs out.
pub fn expansion_modules<A: Allocator + Copy>(
    alloc: A,
    at: Span,
    tree: &TopSubtree<A>,
) -> Result<TopSubtree<A>, AllocError>
    ensures { IfOk result (λ t. t.1 ≡ spec.expansion_modules at tree.now.1) }
{
    let mut found = TopSubtreeBuilder::new(alloc, tree.top_subtree().delimiter)?;
    write_modules(&mut found, tree.iter().remaining(), LEVELS)?;
    let found = found.build();
    let mut builder = TopSubtreeBuilder::new(alloc, Delimiter::invisible_spanned(at))?;
    write_at(&mut builder, at, found.iter().remaining(), LEVELS)?;
    Ok(builder.build())
}

// ---- trees with insertions

fn span_of<A: Allocator>(leaf: &Leaf<A>) -> Span
    ensures { result ≡ span_of (leaf_of leaf.now) }
{
    match leaf {
        Leaf::Ident(ident) => ident.span,
        Leaf::Punct(punct) => punct.span,
        Leaf::Literal(literal) => literal.span,
    }
}

// Writes the trees of an insertion, if they are put after the byte `end`.
fn write_insertion<A: Allocator>(
    builder: &mut TopSubtreeBuilder<A>,
    insertion: &Insertion<A>,
    end: u32,
) -> Result<(), AllocError>
    requires some { 0 < length builder.old }
    ensures { OnOk result (builder.new ≡ put (spec.trees_if
        ((insertion_shown insertion.now).end == end) (insertion_shown insertion.now).trees)
        builder.old) }
{
    if insertion.end == end as usize {
        builder.extend_with_tt(insertion.trees.iter().remaining())
    } else {
        Ok(())
    }
}

// Writes the trees that are put after the byte `end`.
fn write_insertions<A: Allocator>(
    builder: &mut TopSubtreeBuilder<A>,
    insertions: &[Insertion<A>],
    end: u32,
) -> Result<(), AllocError>
    requires some { 0 < length builder.old }
    ensures { OnOk result (builder.new
        ≡ put (spec.inserted_at (map insertion_shown insertions.now) end) builder.old) }
{
    for insertion in insertions {
        write_insertion(builder, insertion, end)?;
    }
    Ok(())
}

// Writes the trees with their insertions, down to `levels` nested groups.
fn write_inserted<A: Allocator>(
    builder: &mut TopSubtreeBuilder<A>,
    insertions: &[Insertion<A>],
    tokens: TokenTreesView<'_, A>,
    levels: u32,
) -> Result<(), AllocError>
    requires some { 0 < length builder.old }
    ensures { OnOk result (builder.new ≡ put (spec.inserted_in levels
        (map insertion_shown insertions.now) (trees tokens.entry)) builder.old) }
{
    if levels == 0 {
        return builder.extend_with_tt(tokens);
    }
    let mut rest = tokens.iter();
    'trees: while let Some(tree) = rest.next() {
        match tree {
            TtElement::Leaf(leaf) => {
                builder.push(leaf.clone()?)?;
                write_insertions(builder, insertions, span_of(leaf).end)?;
            }
            TtElement::Subtree(group, inside) => {
                builder.open(group.delimiter.kind, group.delimiter.opening)?;
                write_inserted(builder, insertions, inside.remaining(), levels - 1)?;
                builder.close(group.delimiter.close);
                write_insertions(builder, insertions, group.delimiter.close.end)?;
            }
        }
    }
    Ok(())
}

/// Returns the tree with the trees of each insertion after the tree that ends at its byte. Returns
/// `AllocError` if memory runs out.
pub fn with_insertions<A: Allocator + Copy>(
    alloc: A,
    insertions: &[Insertion<A>],
    tree: &TopSubtree<A>,
) -> Result<TopSubtree<A>, AllocError>
    ensures { IfOk result (λ t.
        t ≡ spec.with_insertions (map insertion_shown insertions.now) tree.now) }
{
    let mut builder = TopSubtreeBuilder::new(alloc, tree.top_subtree().delimiter)?;
    write_inserted(&mut builder, insertions, tree.iter().remaining(), LEVELS)?;
    Ok(builder.build())
}
