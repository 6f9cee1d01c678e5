// Writes trees with each call replaced by its expansion, recursively.
ghost use Rattle.std.specs.Prelude.{◌≡◌, ◌<◌, length, IfOk, IfSome, OnOk, suc, if◌then◌else◌};
ghost use Rattle.mbe_tt.specs.Buffers.GroupStack.{put};
ghost use Rattle.mbe_tt.specs.Trees.Tree.{Forest, append, flat_len, one_leaf};
ghost use Rattle.mbe_tt.specs.Views.Element.{element_tree};
ghost use Rattle.mbe_tt.specs.Views.View.{trees};
ghost use Rattle.mbe_rewriter.specs.Surroundings.{is_standard_macro};
ghost use Rattle.mbe_rewriter.specs.MacroItemViews.{call_shown, macro_definition_shown};
ghost use Rattle.mbe_session.specs.NestedExpansion.{ExpandsTo, ChangesCall, ChangesGroup};
ghost use Rattle.mbe_session.specs.NestedExpansion.{ChangesTree};
ghost use Rattle.mbe_session.specs.NestedExpansion.{KeepsDefinition, KeepsCall, ReplacesCall};
ghost use Rattle.mbe_session.specs.NestedExpansion.{ChangesWrapped, Writes};
ghost use Rattle.mbe_session.specs.NestedExpansion.{after_group};
ghost use Rattle.mbe_session.specs.Adjustment.{IsRest, IsWrap};
ghost use Rattle.mbe_session.specs.Adjustment as spec;
ghost use Rattle.mbe_session.specs.CfgFront.{EndsIn, EndsInCall};
ghost use Rattle.mbe_session.specs.SessionViews.{setting_of, state_of};

use crate::adjustment::place::{
    Place, Preceding, place_after_call, place_after_tree, place_in_arguments, place_in_group,
    place_in_tree,
};
use crate::adjustment::{
    adjustment_of, from_last, place_of_expansion, rest_after, semicolon, trimmed, up_to,
};
use crate::cfg_front::{CfgFront, cfg_front};
use crate::file_expander::FileExpander;
use crate::scope::Visibility;
use mbe_cfg::cfg_strip::copy_up_to;
use mbe_rewriter::macro_items::{MacroCall, MacroDefinition, is_standard_macro};
use mbe_tt::tt::{
    Delimiter, DelimiterKind, TokenTreesView, TopSubtree, TopSubtreeBuilder, TtElement,
};
use std::alloc::{AllocError, Allocator};

impl<A: Allocator + Copy> FileExpander<'_, A> {
    // Writes trees with their calls expanded. The first of them is at `place`.
    #[cycle(writing)]
    pub(crate) fn write(
        &mut self,
        builder: &mut TopSubtreeBuilder<A>,
        tokens: TokenTreesView<'_, A>,
        place: Place,
        depth: u32,
        levels: u32,
    ) -> Result<(), AllocError>
        requires some { 0 < length builder.old }
        ensures writes { OnOk result (Writes
            (ExpandsTo (setting_of self.old) (suc levels) depth
            (trees tokens.entry) (state_of self.old))
            builder.old builder.new (state_of self.new)) }
        ensures setting { OnOk result (setting_of self.new ≡ setting_of self.old) }
    {
        let mut rest = tokens;
        let mut place = place;
        'trees: loop {
            let piece = cfg_front(&self.grammar, &self.conditions, rest)?;
            match piece {
                CfgFront::End => return Ok(()),
                CfgFront::Disabled(after) => {
                    copy_up_to(builder, rest, after)?;
                    rest = after;
                }
                CfgFront::Definition(defined) => {
                    self.write_definition(builder, rest, defined)?;
                    rest = defined.rest;
                    place = place.after(Preceding::Statement);
                }
                CfgFront::MacroCall(call) => {
                    rest = self.write_call(builder, rest, call, place, depth, levels)?;
                    place = place_after_call(call, rest, place);
                }
                CfgFront::Tree(tree, after) => {
                    self.note_attribute(rest)?;
                    self.write_tree(builder, tree, place, depth, levels)?;
                    place = place_after_tree(rest, place);
                    rest = after;
                }
            }
        }
    }

    // Writes a definition as it is, and reads it.
    fn write_definition(
        &mut self,
        builder: &mut TopSubtreeBuilder<A>,
        tokens: TokenTreesView<'_, A>,
        defined: MacroDefinition<'_, A>,
    ) -> Result<(), AllocError>
        requires ends { EndsIn (trees tokens) (macro_definition_shown defined).rest }
        requires some { 0 < length builder.old }
        ensures writes { OnOk result (Writes
            (KeepsDefinition (setting_of self.old) (trees tokens.entry)
            (macro_definition_shown defined.entry) (state_of self.old))
            builder.old builder.new (state_of self.new)) }
        ensures setting { OnOk result (setting_of self.new ≡ setting_of self.old) }
    {
        let number = self.read(defined, Visibility::Text)?;
        self.scope.make_visible(number)?;
        builder.extend_with_tt(up_to(tokens, defined.rest))
    }

    // Writes a tree with the calls in it expanded. It is at `place`.
    #[cycle(writing)]
    fn write_tree(
        &mut self,
        builder: &mut TopSubtreeBuilder<A>,
        tree: TtElement<'_, A>,
        place: Place,
        depth: u32,
        levels: u32,
    ) -> Result<(), AllocError>
        requires some { 0 < length builder.old }
        ensures writes { OnOk result (Writes
            (ChangesTree (ExpandsTo (setting_of self.old) levels depth)
            (element_tree tree.entry) (state_of self.old))
            builder.old builder.new (state_of self.new)) }
        ensures setting { OnOk result (setting_of self.new ≡ setting_of self.old) }
    {
        match tree {
            TtElement::Leaf(leaf) => builder.push(leaf.clone()?),
            TtElement::Subtree(group, inside) => {
                let place = place_in_tree(group.delimiter, place);
                self.write_group(
                    builder,
                    group.delimiter,
                    inside.remaining(),
                    place,
                    depth,
                    levels,
                )
            }
        }
    }

    // Writes a group with the calls in it expanded.
    #[cycle(writing)]
    fn write_group(
        &mut self,
        builder: &mut TopSubtreeBuilder<A>,
        delimiter: Delimiter,
        inside: TokenTreesView<'_, A>,
        place: Place,
        depth: u32,
        levels: u32,
    ) -> Result<(), AllocError>
        requires some { 0 < length builder.old }
        ensures writes { OnOk result (Writes
            (ChangesGroup (ExpandsTo (setting_of self.old) levels depth)
            delimiter (trees inside.entry) (state_of self.old))
            builder.old builder.new (state_of self.new)) }
        ensures setting { OnOk result (setting_of self.new ≡ setting_of self.old) }
    {
        let mark = self.scope.enter();
        builder.open(delimiter.kind, delimiter.opening)?;
        self.write_inside(builder, inside, place, depth, levels)?;
        builder.close(delimiter.close);
        self.leave(delimiter.kind, mark);
        Ok(())
    }

    // Writes the content of a group or an expansion. Too deep content is written unchanged.
    #[cycle(writing)]
    fn write_inside(
        &mut self,
        builder: &mut TopSubtreeBuilder<A>,
        tokens: TokenTreesView<'_, A>,
        place: Place,
        depth: u32,
        levels: u32,
    ) -> Result<(), AllocError>
        requires some { 0 < length builder.old }
        ensures writes { OnOk result (Writes
            (ExpandsTo (setting_of self.old) levels depth
            (trees tokens.entry) (state_of self.old))
            builder.old builder.new (state_of self.new)) }
        ensures setting { OnOk result (setting_of self.new ≡ setting_of self.old) }
    {
        if levels == 0 {
            self.note_too_deep_in(tokens)?;
            return builder.extend_with_tt(tokens);
        }
        self.write(builder, tokens, place, depth, levels - 1)
    }

    // Writes the expansion of a call, and returns the trees that are left after it.
    #[cycle(writing)]
    fn write_call<'t>(
        &mut self,
        builder: &mut TopSubtreeBuilder<A>,
        tokens: TokenTreesView<'t, A>,
        call: MacroCall<'t, A>,
        place: Place,
        depth: u32,
        levels: u32,
    ) -> Result<TokenTreesView<'t, A>, AllocError>
        requires ends { EndsInCall (trees tokens) (call_shown call) }
        requires some { 0 < length builder.old }
        ensures writes { IfOk result (λ rest. Writes
            (λ out. ChangesCall (setting_of self.old) levels depth
            (ExpandsTo (setting_of self.old) levels)
            (trees tokens.entry) (call_shown call.entry) (state_of self.old) out (trees rest))
            builder.old builder.new (state_of self.new)) }
        ensures setting { OnOk result (setting_of self.new ≡ setting_of self.old) }
    {
        match self.expansion(call, depth, levels)? {
            Some(tree) => { self.write_expansion(builder, &tree, call, place, depth - 1, levels) }
            None => {
                self.write_kept(builder, tokens, call, depth, levels)?;
                Ok(call.rest)
            }
        }
    }

    // Writes a call that isn't expanded. The calls in its argument are expanded if its macro is one
    // of the standard library's.
    #[cycle(writing)]
    fn write_kept(
        &mut self,
        builder: &mut TopSubtreeBuilder<A>,
        tokens: TokenTreesView<'_, A>,
        call: MacroCall<'_, A>,
        depth: u32,
        levels: u32,
    ) -> Result<(), AllocError>
        requires ends { EndsInCall (trees tokens) (call_shown call) }
        requires some { 0 < length builder.old }
        ensures writes { OnOk result (Writes
            (KeepsCall (ExpandsTo (setting_of self.old) levels depth)
            (is_standard_macro (call_shown call.entry).name.sym) (trees tokens.entry)
            (call_shown call.entry) (state_of self.old))
            builder.old builder.new (state_of self.new)) }
        ensures setting { OnOk result (setting_of self.new ≡ setting_of self.old) }
    {
        if !is_standard_macro(call.name.sym.as_str()) {
            return copy_call(builder, tokens, call);
        }
        copy_head(builder, tokens, call)?;
        let place = place_in_arguments();
        self.write_group(
            builder,
            call.group.delimiter,
            call.argument,
            place,
            depth,
            levels,
        )
    }

    // Writes an expansion in place of its call, and returns the trees that are left after the call.
    #[cycle(writing)]
    pub(crate) fn write_expansion<'t>(
        &mut self,
        builder: &mut TopSubtreeBuilder<A>,
        tree: &TopSubtree<A>,
        call: MacroCall<'t, A>,
        place: Place,
        depth: u32,
        levels: u32,
    ) -> Result<TokenTreesView<'t, A>, AllocError>
        requires some { 0 < length builder.old }
        ensures writes { OnOk result (Writes
            (ReplacesCall (ExpandsTo (setting_of self.old) levels depth)
            (call_shown call.entry).delimiter tree.now.1 (state_of self.old))
            builder.old builder.new (state_of self.new)) }
        ensures left { IfOk result (λ rest. IsRest (trees call.entry.rest) (trees rest)) }
        ensures setting { OnOk result (setting_of self.new ≡ setting_of self.old) }
    {
        let delimiter = call.group.delimiter;
        let whole = tree.iter().remaining();
        let here = place_of_expansion(&self.grammar, whole, call, place)?;
        let part = trimmed(whole, here.last);
        let adjustment = adjustment_of(self.alloc, &self.grammar, part, call, place, here)?;
        self.write_wrapped(
            builder,
            delimiter,
            adjustment.wrap,
            part,
            here,
            depth,
            levels,
        )?;
        end(builder, delimiter, adjustment.adds_semicolon)?;
        Ok(rest_after(call.rest, adjustment.consumes_semicolon))
    }

    // Writes the trees of an expansion, perhaps in a group of that kind.
    #[cycle(writing)]
    fn write_wrapped(
        &mut self,
        builder: &mut TopSubtreeBuilder<A>,
        delimiter: Delimiter,
        wrap: Option<DelimiterKind>,
        tokens: TokenTreesView<'_, A>,
        place: Place,
        depth: u32,
        levels: u32,
    ) -> Result<(), AllocError>
        requires some { 0 < length builder.old }
        requires wrap { IfSome wrap IsWrap }
        ensures writes { OnOk result (Writes
            (ChangesWrapped (ExpandsTo (setting_of self.old) levels depth)
            delimiter (trees tokens.entry) (state_of self.old))
            builder.old builder.new (state_of self.new)) }
        ensures setting { OnOk result (setting_of self.new ≡ setting_of self.old) }
    {
        let Some(kind) = wrap else {
            return self.write_inside(builder, tokens, place, depth, levels);
        };
        builder.open(kind, delimiter.opening)?;
        self.write_inside(builder, tokens, place_in_group(kind), depth, levels)?;
        builder.close(delimiter.close);
        Ok(())
    }

    // From here on, names don't find the definitions of a group of braces.
    pub(crate) fn leave(&mut self, kind: DelimiterKind, mark: usize)
        ensures state { state_of self.new ≡ after_group kind mark (state_of self.old) }
        ensures setting { setting_of self.new ≡ setting_of self.old }
    {
        match kind {
            DelimiterKind::Brace => self.scope.leave(mark),
            DelimiterKind::Parenthesis | DelimiterKind::Bracket | DelimiterKind::Invisible => {}
        }
    }
}

// Writes a call unchanged.
fn copy_call<A: Allocator>(
    builder: &mut TopSubtreeBuilder<A>,
    tokens: TokenTreesView<'_, A>,
    call: MacroCall<'_, A>,
) -> Result<(), AllocError>
    requires ends { EndsInCall (trees tokens) (call_shown call) }
    ensures { OnOk result ((kept : Forest) → trees tokens.entry
        ≡ append kept (trees call.entry.rest)
        → builder.new ≡ put kept builder.old) }
{
    builder.extend_with_tt(up_to(tokens, call.rest))
}

// Writes what precedes the group of a call.
#[tactic(auto, using(crate::proofs::GroupLemmas::length_put))]
fn copy_head<A: Allocator>(
    builder: &mut TopSubtreeBuilder<A>,
    tokens: TokenTreesView<'_, A>,
    call: MacroCall<'_, A>,
) -> Result<(), AllocError>
    requires ends { EndsInCall (trees tokens) (call_shown call) }
    ensures copied { OnOk result ((kept : Forest)
        → trees tokens.entry ≡ append kept
        (spec.from_last (flat_len (trees call.entry.rest)) (trees tokens.entry))
        → builder.new ≡ put kept builder.old) }
    ensures groups { OnOk result (length builder.new ≡ length builder.old) }
{
    builder.extend_with_tt(up_to(tokens, from_last(tokens, call.rest)))
}

// Writes a `;` at the end of an expansion, if it gets one.
fn end<A: Allocator>(
    builder: &mut TopSubtreeBuilder<A>,
    delimiter: Delimiter,
    adds_semicolon: bool,
) -> Result<(), AllocError>
    ensures { OnOk result (builder.new ≡ (if adds_semicolon
        then put (one_leaf (spec.semicolon delimiter.close)) builder.old else builder.old)) }
{
    if adds_semicolon {
        builder.push(semicolon(delimiter.close))
    } else {
        Ok(())
    }
}
