// Removes the code that `cfg` attributes disable, and the `cfg_attr`s that add nothing.
//
// The trees are read from the front. Definitions and calls of macros are kept whole, because the
// trees in their groups aren't Rust code yet. A call keeps its attributes, because its expansion
// needs them.
ghost use Rattle.std.specs.Prelude.{◌≡◌, ◌<◌, ◌&&◌, ◌++◌, if◌then◌else◌, IfOk, OnOk, length};
ghost use Rattle.std.specs.Prelude.{nat_lt, option_map, suc};
ghost use Rattle.mbe_tt.specs.Buffers.GroupStack.{put};
ghost use Rattle.mbe_tt.specs.Trees.Tree.{flat_len, none};
ghost use Rattle.mbe_tt.specs.Views.Element.{element_tree};
ghost use Rattle.mbe_tt.specs.Views.View.{trees};
ghost use Rattle.mbe_rewriter.specs.AttributedCalls.{front_item_with_attributes};
ghost use Rattle.mbe_rewriter.specs.MacroItems.{front};
ghost use Rattle.mbe_cfg.specs.CfgViews.{group_shown};
ghost use Rattle.mbe_cfg.specs.CfgStrip as spec;

use crate::attribute_target::after_attribute_target;
use crate::attributes::{attribute, attributes};
use crate::cfg_fault::CfgFault;
use crate::cfg_options::CfgOptions;
use crate::predicate::{DEPTH, predicate};
use crate::tree_front::{Group, after_char, attribute_group, group_at, is_empty};
use mbe_rewriter::attributed_calls;
use mbe_rewriter::macro_items::{FrontItem, front_of};
use mbe_tt::grammar::FragmentGrammar;
use mbe_tt::tt::{
    Delimiter, DelimiterKind, TokenTreesView, TopSubtree, TopSubtreeBuilder, TtElement,
};
use std::alloc::{AllocError, Allocator};

/// The maximum depth of groups. Trees in deeper groups are unchanged.
pub const LEVELS: u32 = 1000;

// The brackets of the inner attribute at the front, `#![..]`.
fn inner_attribute<'t, A: Allocator>(tokens: TokenTreesView<'t, A>) -> Option<Group<'t, A>>
    ensures { option_map group_shown result ≡ spec.inner_attribute (trees tokens.entry) }
{
    let hash = after_char(tokens, '#')?;
    let mark = after_char(hash, '!')?;
    group_at(DelimiterKind::Bracket, mark)
}

// Returns whether the inner attribute at the front, or the run of attributes there, lets its target
// be compiled. Returns the first fault if there is one.
fn is_enabled<A: Allocator>(
    settings: &CfgOptions<'_>,
    tokens: TokenTreesView<'_, A>,
) -> Result<bool, CfgFault>
    ensures { result ≡ spec.is_enabled settings.now (trees tokens.entry) }
{
    match inner_attribute(tokens) {
        Some(group) => attribute(settings, DEPTH, group.close, group.inside),
        None => Ok(attributes(settings, tokens)?.holds),
    }
}

/// Returns whether the attributes at the front disable their target. An attribute with a fault
/// disables nothing.
pub fn is_disabled<A: Allocator>(settings: &CfgOptions<'_>, tokens: TokenTreesView<'_, A>) -> bool
    ensures { result ≡ spec.is_disabled settings.now (trees tokens.entry) }
{
    match is_enabled(settings, tokens) {
        Ok(holds) => !holds,
        Err(_fault) => false,
    }
}

/// Returns whether the attributes at the front have a fault.
pub fn has_fault<A: Allocator>(settings: &CfgOptions<'_>, tokens: TokenTreesView<'_, A>) -> bool
    ensures { result ≡ spec.has_fault settings.now (trees tokens.entry) }
{
    is_enabled(settings, tokens).is_err()
}

// The parentheses of a `cfg_attr`.
fn cfg_attr_argument<'t, A: Allocator>(tokens: TokenTreesView<'t, A>) -> Option<Group<'t, A>>
    ensures { option_map group_shown result ≡ spec.cfg_attr_argument (trees tokens.entry) }
{
    let mut iter = tokens.iter();
    let name = iter.expect_ident().ok()?;
    if name.sym.as_str() == "cfg_attr" {
        group_at(DelimiterKind::Parenthesis, iter.remaining())
    } else {
        None
    }
}

// Returns whether the predicate of a `cfg_attr` is false. A predicate with a fault isn't.
fn is_false<A: Allocator>(settings: &CfgOptions<'_>, argument: Group<'_, A>) -> bool
    ensures { result ≡ spec.is_false settings.now (group_shown argument.entry) }
{
    let Ok(predicate_value) = predicate(settings, DEPTH, argument.close, argument.inside) else {
        return false;
    };
    !predicate_value.holds
}

// Returns whether the attribute in these brackets is a `cfg_attr` whose predicate is false.
fn is_inert<A: Allocator>(settings: &CfgOptions<'_>, group: Group<'_, A>) -> bool
    ensures { result ≡ spec.is_inert settings.now (group_shown group.entry) }
{
    match cfg_attr_argument(group.inside) {
        Some(argument) => is_false(settings, argument),
        None => false,
    }
}

// Returns whether the attributes at the front belong to a call.
fn is_on_call<A: Allocator>(tokens: TokenTreesView<'_, A>) -> bool
    ensures { result ≡ spec.is_call (front_item_with_attributes (trees tokens.entry)) }
{
    matches!(
        attributed_calls::front_item_with_attributes(tokens),
        FrontItem::MacroCall(_)
    )
}

// Returns the trees after the attribute at the front, if it adds nothing and doesn't belong to a
// call.
fn after_inert_attribute<'t, A: Allocator>(
    settings: &CfgOptions<'_>,
    tokens: TokenTreesView<'t, A>,
) -> Option<TokenTreesView<'t, A>>
    ensures { option_map trees result
        ≡ spec.after_inert_attribute settings.now (trees tokens.entry) }
{
    let group = attribute_group(tokens)?;
    if is_inert(settings, group) && !is_on_call(tokens) {
        Some(group.rest)
    } else {
        None
    }
}

/// Returns the fault of the first attribute at the front, if it has one.
pub fn fault_at<A: Allocator>(
    settings: &CfgOptions<'_>,
    tokens: TokenTreesView<'_, A>,
) -> Option<CfgFault>
    ensures { result ≡ spec.fault_at settings.now (trees tokens.entry) }
{
    let group = attribute_group(tokens)?;
    attribute(settings, DEPTH, group.close, group.inside).err()
}

// Appends the fault of the first attribute at the front to `faults`.
fn push_fault<A: Allocator>(
    settings: &CfgOptions<'_>,
    faults: &mut Vec<CfgFault, A>,
    tokens: TokenTreesView<'_, A>,
) -> Result<(), AllocError>
    ensures { OnOk result (faults.new.items
        ≡ faults.old.items ++ spec.as_list (spec.fault_at settings.now (trees tokens.entry))) }
{
    if let Some(fault) = fault_at(settings, tokens) {
        faults.push(fault)?;
    }
    Ok(())
}

// Returns the empty trees at the end of these trees.
fn after_all<'t, A: Allocator>(tokens: TokenTreesView<'t, A>) -> TokenTreesView<'t, A>
    ensures { trees result ≡ none }
{
    let mut iter = tokens.iter();
    'trees: while iter.next().is_some() {}
    iter.remaining()
}

/// Returns the trees after the target of the attributes at the front. The target of an inner
/// attribute is everything after it. `AllocError` if the grammar is out of memory.
pub fn after_disabled_target<'t, A: Allocator, G: FragmentGrammar>(
    grammar: &G,
    tokens: TokenTreesView<'t, A>,
) -> Result<TokenTreesView<'t, A>, AllocError>
    ensures { IfOk result (λ r. trees r
        ≡ spec.after_disabled_target (G.grammar grammar.now) (trees tokens.entry)) }
{
    match inner_attribute(tokens) {
        Some(_group) => Ok(after_all(tokens)),
        None => after_attribute_target(grammar, tokens),
    }
}

/// Writes the trees before `rest` unchanged. `AllocError` if out of memory.
pub fn copy_up_to<'t, A: Allocator + Copy>(
    builder: &mut TopSubtreeBuilder<A>,
    tokens: TokenTreesView<'t, A>,
    rest: TokenTreesView<'t, A>,
) -> Result<(), AllocError>
    requires some { 0 < length builder.old }
    ensures { OnOk result (builder.new
        ≡ put (spec.up_to (flat_len (trees rest.entry)) (trees tokens.entry)) builder.old) }
{
    let mut iter = tokens.iter();
    'trees: loop {
        if iter.remaining().flat_len() <= rest.flat_len() {
            return Ok(());
        }
        match iter.next_as_view() {
            Some(tree) => builder.extend_with_tt(tree)?,
            None => return Ok(()),
        }
    }
}

// Returns a number of flat tokens: no front of these trees with more flat tokens is disabled. The
// number `known` is one. If it doesn't say whether the first front is disabled, the attributes
// there are evaluated. So a run of attributes that hold isn't evaluated again from each of them on.
fn enabled_to<A: Allocator>(
    settings: &CfgOptions<'_>,
    tokens: TokenTreesView<'_, A>,
    known: usize,
) -> usize
    requires known { spec.IsEnabledTo settings.now known (trees tokens) }
    ensures { spec.IsEnabledTo settings.now result (trees tokens.entry) }
{
    if known < tokens.flat_len() {
        return known;
    }
    match attributes(settings, tokens) {
        Ok(run) => {
            if run.holds {
                run.rest.flat_len()
            } else {
                tokens.flat_len()
            }
        }
        Err(_fault) => tokens.flat_len(),
    }
}

// Returns whether the attributes at the front disable their target. No front with more than `known`
// flat tokens is disabled.
fn is_front_disabled<A: Allocator>(
    settings: &CfgOptions<'_>,
    tokens: TokenTreesView<'_, A>,
    known: usize,
) -> bool
    requires known { spec.IsEnabledTo settings.now known (trees tokens) }
    ensures { result ≡ spec.is_disabled settings.now (trees tokens.entry) }
{
    if known < tokens.flat_len() {
        return false;
    }
    is_disabled(settings, tokens)
}

// Returns whether a tree is at the front that is known to be enabled.
fn is_known_tree<A: Allocator>(tokens: TokenTreesView<'_, A>, known: usize) -> bool
    ensures { result ≡ (nat_lt known (flat_len (trees tokens.entry))
        && spec.is_tree (front (trees tokens.entry))) }
{
    known < tokens.flat_len() && matches!(front_of(tokens), FrontItem::Tree(..))
}

// Returns the number that is known after a front.
fn known_after<A: Allocator>(is_known: bool, known: usize, rest: TokenTreesView<'_, A>) -> usize
    ensures { result ≡ (if is_known then known else flat_len (trees rest.entry)) }
{
    if is_known { known } else { rest.flat_len() }
}

// Writes the enabled part of what these trees begin with, and returns the trees after it. No front
// with more than `known` flat tokens is disabled.
#[cycle(stripping)]
fn strip_front<'t, A: Allocator + Copy, G: FragmentGrammar>(
    settings: &CfgOptions<'_>,
    grammar: &G,
    faults: &mut Vec<CfgFault, A>,
    builder: &mut TopSubtreeBuilder<A>,
    tokens: TokenTreesView<'t, A>,
    known: usize,
    levels: u32,
) -> Result<TokenTreesView<'t, A>, AllocError>
    requires some { 0 < length builder.old }
    requires known { spec.IsEnabledTo settings.now known (trees tokens) }
    ensures kept { OnOk result (builder.new ≡ put
        (spec.step (spec.stripped settings.now (G.grammar grammar.now) levels)
        settings.now (G.grammar grammar.now) (trees tokens.entry)).kept builder.old) }
    ensures faults { OnOk result (faults.new.items ≡ faults.old.items ++
        (spec.step (spec.stripped settings.now (G.grammar grammar.now) levels)
        settings.now (G.grammar grammar.now) (trees tokens.entry)).faults) }
    ensures rest { IfOk result (λ r. trees r ≡
        (spec.step (spec.stripped settings.now (G.grammar grammar.now) levels)
        settings.now (G.grammar grammar.now) (trees tokens.entry)).rest) }
{
    match front_of(tokens) {
        FrontItem::End => Ok(tokens),
        FrontItem::Definition(defined) => {
            copy_up_to(builder, tokens, defined.rest)?;
            Ok(defined.rest)
        }
        FrontItem::MacroCall(call) => {
            copy_up_to(builder, tokens, call.rest)?;
            Ok(call.rest)
        }
        FrontItem::Tree(tree, rest) => {
            if is_front_disabled(settings, tokens, known) {
                return after_disabled_target(grammar, tokens);
            }
            strip_other(
                settings, grammar, faults, builder, tokens, tree, rest, levels,
            )
        }
    }
}

// Writes the enabled part of the first tree, and returns the trees after it. The tree must not begin
// disabled code.
#[cycle(stripping)]
fn strip_other<'t, A: Allocator + Copy, G: FragmentGrammar>(
    settings: &CfgOptions<'_>,
    grammar: &G,
    faults: &mut Vec<CfgFault, A>,
    builder: &mut TopSubtreeBuilder<A>,
    tokens: TokenTreesView<'t, A>,
    tree: TtElement<'_, A>,
    rest: TokenTreesView<'t, A>,
    levels: u32,
) -> Result<TokenTreesView<'t, A>, AllocError>
    requires some { 0 < length builder.old }
    ensures kept { OnOk result (builder.new ≡ put
        (spec.other_step (spec.stripped settings.now (G.grammar grammar.now) levels) settings.now
        (trees tokens.entry) (element_tree tree.entry) (trees rest.entry)).kept builder.old) }
    ensures faults { OnOk result (faults.new.items ≡ faults.old.items ++
        (spec.other_step (spec.stripped settings.now (G.grammar grammar.now) levels) settings.now
        (trees tokens.entry) (element_tree tree.entry) (trees rest.entry)).faults) }
    ensures rest { IfOk result (λ r. trees r ≡
        (spec.other_step (spec.stripped settings.now (G.grammar grammar.now) levels) settings.now
        (trees tokens.entry) (element_tree tree.entry) (trees rest.entry)).rest) }
{
    push_fault(settings, faults, tokens)?;
    if let Some(after) = after_inert_attribute(settings, tokens) {
        return Ok(after);
    }
    strip_tree(settings, grammar, faults, builder, tree, levels)?;
    Ok(rest)
}

// Writes the enabled part of a tree.
#[cycle(stripping)]
fn strip_tree<A: Allocator + Copy, G: FragmentGrammar>(
    settings: &CfgOptions<'_>,
    grammar: &G,
    faults: &mut Vec<CfgFault, A>,
    builder: &mut TopSubtreeBuilder<A>,
    tree: TtElement<'_, A>,
    levels: u32,
) -> Result<(), AllocError>
    requires some { 0 < length builder.old }
    ensures kept { OnOk result (builder.new ≡ put
        (spec.tree_stripped (spec.stripped settings.now (G.grammar grammar.now) levels)
        (element_tree tree.entry)).kept builder.old) }
    ensures faults { OnOk result (faults.new.items ≡ faults.old.items ++
        (spec.tree_stripped (spec.stripped settings.now (G.grammar grammar.now) levels)
        (element_tree tree.entry)).faults) }
{
    match tree {
        TtElement::Leaf(leaf) => builder.push(leaf.clone()?),
        TtElement::Subtree(group, inside) => {
            let delimiter = group.delimiter;
            strip_group(
                settings,
                grammar,
                faults,
                builder,
                delimiter,
                inside.remaining(),
                levels,
            )
        }
    }
}

// Writes a group with the enabled part of its content.
#[cycle(stripping)]
fn strip_group<A: Allocator + Copy, G: FragmentGrammar>(
    settings: &CfgOptions<'_>,
    grammar: &G,
    faults: &mut Vec<CfgFault, A>,
    builder: &mut TopSubtreeBuilder<A>,
    delimiter: Delimiter,
    inside: TokenTreesView<'_, A>,
    levels: u32,
) -> Result<(), AllocError>
    requires some { 0 < length builder.old }
    ensures kept { OnOk result (builder.new ≡ put
        (spec.in_group delimiter (spec.stripped settings.now (G.grammar grammar.now) levels
        (trees inside.entry))).kept builder.old) }
    ensures faults { OnOk result (faults.new.items ≡ faults.old.items ++
        (spec.stripped settings.now (G.grammar grammar.now) levels (trees inside.entry)).faults) }
{
    builder.open(delimiter.kind, delimiter.opening)?;
    strip_inside(settings, grammar, faults, builder, inside, levels)?;
    builder.close(delimiter.close);
    Ok(())
}

// Writes the enabled part of a group's content. Too deep content is written unchanged.
#[cycle(stripping)]
fn strip_inside<A: Allocator + Copy, G: FragmentGrammar>(
    settings: &CfgOptions<'_>,
    grammar: &G,
    faults: &mut Vec<CfgFault, A>,
    builder: &mut TopSubtreeBuilder<A>,
    tokens: TokenTreesView<'_, A>,
    levels: u32,
) -> Result<(), AllocError>
    requires some { 0 < length builder.old }
    ensures kept { OnOk result (builder.new ≡ put
        (spec.stripped settings.now (G.grammar grammar.now) levels (trees tokens.entry)).kept
        builder.old) }
    ensures faults { OnOk result (faults.new.items ≡ faults.old.items ++
        (spec.stripped settings.now (G.grammar grammar.now) levels (trees tokens.entry)).faults) }
{
    if levels == 0 {
        return builder.extend_with_tt(tokens);
    }
    strip_trees(settings, grammar, faults, builder, tokens, levels - 1)
}

// Writes the enabled part of trees. Groups may be `levels` deep.
#[cycle(stripping)]
fn strip_trees<A: Allocator + Copy, G: FragmentGrammar>(
    settings: &CfgOptions<'_>,
    grammar: &G,
    faults: &mut Vec<CfgFault, A>,
    builder: &mut TopSubtreeBuilder<A>,
    tokens: TokenTreesView<'_, A>,
    levels: u32,
) -> Result<(), AllocError>
    requires some { 0 < length builder.old }
    ensures kept { OnOk result (builder.new ≡ put
        (spec.stripped settings.now (G.grammar grammar.now) (suc levels) (trees tokens.entry)).kept
        builder.old) }
    ensures faults { OnOk result (faults.new.items ≡ faults.old.items ++
        (spec.stripped settings.now (G.grammar grammar.now) (suc levels)
        (trees tokens.entry)).faults) }
{
    let mut rest = tokens;
    let mut left = tokens.flat_len();
    let mut known = tokens.flat_len();
    'fronts: while left > 0 {
        left -= 1;
        if is_empty(rest) {
            return Ok(());
        }
        known = enabled_to(settings, rest, known);
        let is_known = is_known_tree(rest, known);
        rest = strip_front(settings, grammar, faults, builder, rest, known, levels)?;
        known = known_after(is_known, known, rest);
    }
    Ok(())
}

/// Returns the tree without the code that `cfg` attributes disable under these settings, and
/// without each `cfg_attr` whose predicate is false. The grammar decides where an item ends. Calls
/// and definitions of macros are unchanged.
///
/// An attribute with a fault disables nothing. The faults of the attributes that are kept are
/// appended to `faults`, in the order of the attributes. Returns `AllocError` if memory runs out.
/// Then some of the faults may have been appended.
pub fn strip<A: Allocator + Copy, G: FragmentGrammar>(
    alloc: A,
    settings: &CfgOptions<'_>,
    grammar: &G,
    faults: &mut Vec<CfgFault, A>,
    tree: &TopSubtree<A>,
) -> Result<TopSubtree<A>, AllocError>
    ensures tree { IfOk result (λ t. t
        ≡ spec.enabled_tree settings.now (G.grammar grammar.now) tree.now) }
    ensures faults { OnOk result (faults.new.items ≡ faults.old.items
        ++ spec.faults_of_tree settings.now (G.grammar grammar.now) tree.now) }
{
    let mut builder = TopSubtreeBuilder::new(alloc, tree.top_subtree().delimiter)?;
    let of = &mut builder;
    strip_trees(
        settings,
        grammar,
        faults,
        of,
        tree.iter().remaining(),
        LEVELS,
    )?;
    Ok(builder.build())
}
