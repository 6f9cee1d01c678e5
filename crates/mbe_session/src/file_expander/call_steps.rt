// Expands the calls of trees, and records each call that is met: where it is, its argument, the
// definition that it resolves to, and its expansion.
//
// A call of a file and the calls in its expansion are steps, in the order in which they are
// expanded. A step knows the step in whose expansion it is. No text is replaced.
ghost use Rattle.std.specs.Prelude.{◌≡◌, option_map};
ghost use Rattle.mbe.specs.MacroViews.{macro_of};
ghost use Rattle.mbe_session.specs.Scopes.{definition_at};
ghost use Rattle.mbe_session.specs.SessionViews.{state_of};

use crate::cfg_front::{CfgFront, cfg_front};
use crate::file_expander::{FileExpander, LEVELS};
use crate::scope::Visibility;
use mbe::DeclarativeMacro;
use mbe_rewriter::attributed_calls::front_item_with_attributes;
use mbe_rewriter::macro_items::{
    FrontItem, MacroCall, MacroDefinition, attribute_at, front_of, is_standard_macro,
};
use mbe_rewriter::punct_spacing::spaced_buffer;
use mbe_tt::span::Span;
use mbe_tt::tt::{DelimiterKind, Leaf, TokenTreesView, TopSubtree, TtElement};
use std::alloc::{AllocError, Allocator, Global};

/// Whether a call is expanded.
#[derive(Clone, Copy, Drop, PartialEq, Eq)]
pub enum CallState {
    Expanded,
    /// The call resolves to a definition, and isn't expanded. Notes say why.
    Failed,
    /// The call resolves to no definition.
    Unknown,
}

/// Where a call is.
#[derive(Clone, Copy, Drop)]
pub struct StepPlace {
    /// The index of the step in whose expansion the call is; `None` for a call of a file.
    pub parent: Option<usize>,
    /// The number of flat tokens of that expansion before the call, and of the call.
    pub first: usize,
    pub count: usize,
    /// How deep the calls in the expansion may be nested.
    depth: u32,
}

/// A call that was met.
#[derive(Drop)]
pub struct CallStep<A: Allocator = Global> {
    pub state: CallState,
    pub place: StepPlace,
    /// The macro's name, as the call has it.
    pub name: String<A>,
    /// The span at which the path of the call begins.
    pub start: Span,
    /// The span of the closing delimiter.
    pub end: Span,
    /// The number of the definition that the call resolves to.
    pub definition: Option<usize>,
    pub argument: TopSubtree<A>,
    /// The expansion, if the call is expanded, with no call in it expanded.
    pub expansion: Option<TopSubtree<A>>,
    /// The syntax contexts of the tokens that the template gave to the expansion: from the first
    /// number on, and before the second.
    pub contexts: (u32, u32),
    /// The notes on the call, as indices of the expander's notes: from the first number on, and
    /// before the second. They are about the call alone, and not about the calls in its expansion.
    pub notes: (usize, usize),
}

// Returns what is known of a call before it is expanded.
fn step_of<A: Allocator + Copy>(
    alloc: A,
    call: MacroCall<'_, A>,
    place: StepPlace,
    definition: Option<usize>,
) -> Result<CallStep<A>, AllocError> {
    Ok(CallStep {
        state: CallState::Unknown,
        place,
        name: String::from_str(alloc, call.name.sym.as_str())?,
        start: call.start,
        end: call.group.delimiter.close,
        definition,
        argument: spaced_buffer(alloc, call.group.delimiter, call.argument)?,
        expansion: None,
        contexts: (0, 0),
        notes: (0, 0),
    })
}

fn state_of_call(is_expanded: bool, definition: Option<usize>) -> CallState {
    match (is_expanded, definition) {
        (true, _) => CallState::Expanded,
        (false, Some(_)) => CallState::Failed,
        (false, None) => CallState::Unknown,
    }
}

fn copy_of<A: Allocator + Copy>(
    tree: Option<&TopSubtree<A>>,
) -> Result<Option<TopSubtree<A>>, AllocError> {
    match tree {
        Some(tree) => Ok(Some(tree.try_clone()?)),
        None => Ok(None),
    }
}

// Whether a tree ends an item, and so its attributes: braces, or a `;`.
fn is_item_end<A: Allocator>(tree: &TtElement<'_, A>) -> bool {
    match tree {
        TtElement::Subtree(group, _) => group.delimiter.kind == DelimiterKind::Brace,
        TtElement::Leaf(Leaf::Punct(punct)) => punct.char == ';',
        TtElement::Leaf(Leaf::Ident(_) | Leaf::Literal(_)) => false,
    }
}

// Returns the number of flat tokens that `rest` has less than `tokens`.
fn passed<A: Allocator>(tokens: TokenTreesView<'_, A>, rest: TokenTreesView<'_, A>) -> usize {
    tokens.flat_len().saturating_sub(rest.flat_len())
}

impl StepPlace {
    // Returns where `count` tokens are that begin `offset` tokens after the start of `self`.
    fn at(self, offset: usize, count: usize) -> StepPlace {
        StepPlace {
            first: self.first.saturating_add(offset),
            count,
            ..self
        }
    }
}

impl<A: Allocator + Copy> FileExpander<'_, A> {
    /// Returns the rules of the definition of that number; `None` if there is none.
    pub fn rules_at(&self, number: usize) -> Option<&DeclarativeMacro<A>>
        ensures { option_map (λ m. macro_of m.now) result
            ≡ option_map (λ d. d.rules) (definition_at (state_of self.now).scope number) }
    {
        self.scope.rules_at(number)
    }

    /// Returns the span of the name of the definition of that number; `None` if there is none.
    pub fn name_span_at(&self, number: usize) -> Option<Span>
        ensures { result
            ≡ option_map (λ d. d.place) (definition_at (state_of self.now).scope number) }
    {
        self.scope.name_span_at(number)
    }

    /// Expands the calls of a crate's trees, as `replacements` does, and adds each call that is met
    /// to `steps`. What is wrong is noted. `AllocError` if out of memory.
    pub fn add_call_steps(
        &mut self,
        steps: &mut Vec<CallStep<A>, A>,
        tokens: TokenTreesView<'_, A>,
    ) -> Result<(), AllocError> {
        let mark = self.scope.enter();
        self.record_trees(steps, tokens, LEVELS)?;
        self.scope.leave(mark);
        Ok(())
    }

    // ---- trees of a file

    // Makes a definition of a file visible from here on. `is_item` says whether it is a `macro`
    // item of a block, or by `macro_rules!`. A `macro` item of a module is found as paths do.
    fn show_definition(
        &mut self,
        defined: MacroDefinition<'_, A>,
        is_item: bool,
    ) -> Result<(), AllocError> {
        if defined.is_item() != is_item || (is_item && self.scope.is_placed_by_path(defined)) {
            return Ok(());
        }
        match self.scope.placed(defined) {
            Some(number) => self.scope.make_visible(number),
            None => Ok(()),
        }
    }

    // Makes the `macro` items of a block visible, wherever among these trees they are.
    fn show_items(&mut self, tokens: TokenTreesView<'_, A>) -> Result<(), AllocError> {
        let mut rest = tokens;
        for _ in 0..tokens.flat_len() {
            match front_of(rest) {
                FrontItem::End => return Ok(()),
                FrontItem::Definition(defined) => {
                    self.show_definition(defined, true)?;
                    rest = defined.rest;
                }
                FrontItem::MacroCall(call) => rest = call.rest,
                FrontItem::Tree(_, after) => rest = after,
            }
        }
        Ok(())
    }

    // Records the calls of a file's trees.
    #[cycle(recording_files)]
    fn record_trees(
        &mut self,
        steps: &mut Vec<CallStep<A>, A>,
        tokens: TokenTreesView<'_, A>,
        levels: u32,
    ) -> Result<(), AllocError> {
        self.show_items(tokens)?;
        let mut rest = tokens;
        let mut is_used = false;
        for _ in 0..tokens.flat_len() {
            match front_item_with_attributes(rest) {
                FrontItem::End => return Ok(()),
                FrontItem::Definition(defined) => {
                    self.show_definition(defined, false)?;
                    rest = defined.rest;
                    is_used = false;
                }
                FrontItem::MacroCall(call) => {
                    self.record_file_call(steps, call, levels)?;
                    rest = call.rest;
                }
                FrontItem::Tree(tree, after) => {
                    is_used |= attribute_at(rest) == Some("macro_use");
                    let is_end = is_item_end(&tree);
                    self.record_tree(steps, tree, is_used, levels)?;
                    is_used &= !is_end;
                    rest = after;
                }
            }
        }
        Ok(())
    }

    // Records the calls in a tree of a file.
    #[cycle(recording_files)]
    fn record_tree(
        &mut self,
        steps: &mut Vec<CallStep<A>, A>,
        tree: TtElement<'_, A>,
        is_used: bool,
        levels: u32,
    ) -> Result<(), AllocError> {
        let TtElement::Subtree(group, inside) = tree else {
            return Ok(());
        };
        let mark = self.scope.enter();
        self.record_inside(steps, inside.remaining(), levels)?;
        if !is_used {
            self.leave(group.delimiter.kind, mark);
        }
        Ok(())
    }

    // Records the calls in a group of a file, unless it is nested too deep.
    #[cycle(recording_files)]
    fn record_inside(
        &mut self,
        steps: &mut Vec<CallStep<A>, A>,
        tokens: TokenTreesView<'_, A>,
        levels: u32,
    ) -> Result<(), AllocError> {
        if levels == 0 {
            return self.note_too_deep_in(tokens);
        }
        self.record_trees(steps, tokens, levels - 1)
    }

    // Records a call of a file, and the calls in its argument if it is a call of a macro of the
    // standard library.
    #[cycle(recording_files)]
    fn record_file_call(
        &mut self,
        steps: &mut Vec<CallStep<A>, A>,
        call: MacroCall<'_, A>,
        levels: u32,
    ) -> Result<(), AllocError> {
        let place = StepPlace {
            parent: None,
            first: 0,
            count: 0,
            depth: self.settings.depth,
        };
        let is_expanded = self.record_call(steps, call, place, levels)?;
        if is_expanded || !is_standard_macro(call.name.sym.as_str()) {
            return Ok(());
        }
        self.record_inside(steps, call.argument, levels)
    }

    // ---- trees of an expansion

    // Expands a call, and records it and the calls in its expansion. Returns whether it is expanded.
    #[cycle(recording)]
    fn record_call(
        &mut self,
        steps: &mut Vec<CallStep<A>, A>,
        call: MacroCall<'_, A>,
        place: StepPlace,
        levels: u32,
    ) -> Result<bool, AllocError> {
        let mut step = step_of(self.alloc, call, place, self.scope.resolve(call))?;
        let (context, note) = (self.next_context(), self.notes.len());
        let tree = self.expansion(call, place.depth, levels)?;
        step.contexts = (context, self.next_context());
        step.notes = (note, self.notes.len());
        step.state = state_of_call(tree.is_some(), step.definition);
        step.expansion = copy_of(tree.as_ref())?;
        let number = steps.len();
        steps.push(step)?;
        match tree {
            Some(tree) => {
                let inside = StepPlace {
                    parent: Some(number),
                    first: 0,
                    count: 0,
                    depth: place.depth.saturating_sub(1),
                };
                self.record_written(steps, tree.iter().remaining(), inside, levels)?;
                Ok(true)
            }
            None => Ok(false),
        }
    }

    // Records the calls of trees that a call became, unless they are nested too deep. The first of
    // the trees is at `place`.
    #[cycle(recording)]
    fn record_written(
        &mut self,
        steps: &mut Vec<CallStep<A>, A>,
        tokens: TokenTreesView<'_, A>,
        place: StepPlace,
        levels: u32,
    ) -> Result<(), AllocError> {
        if levels == 0 {
            return self.note_too_deep_in(tokens);
        }
        let levels = levels - 1;
        let mut rest = tokens;
        for _ in 0..tokens.flat_len() {
            let offset = passed(tokens, rest);
            match cfg_front(&self.grammar, &self.conditions, rest)? {
                CfgFront::End => return Ok(()),
                CfgFront::Disabled(after) => rest = after,
                CfgFront::Definition(defined) => {
                    self.read_visibly(defined)?;
                    rest = defined.rest;
                }
                CfgFront::MacroCall(call) => {
                    let here = place.at(offset, passed(rest, call.rest));
                    self.record_written_call(steps, call, here, levels)?;
                    rest = call.rest;
                }
                CfgFront::Tree(tree, after) => {
                    self.note_attribute(rest)?;
                    self.record_written_tree(steps, tree, place.at(offset, 0), levels)?;
                    rest = after;
                }
            }
        }
        Ok(())
    }

    // Reads a definition of an expansion, which is visible from here on.
    fn read_visibly(&mut self, defined: MacroDefinition<'_, A>) -> Result<(), AllocError> {
        let number = self.read(defined, Visibility::Text)?;
        self.scope.make_visible(number)
    }

    // Records a call of an expansion, and the calls in its argument if it is a call of a macro of
    // the standard library.
    #[cycle(recording)]
    fn record_written_call(
        &mut self,
        steps: &mut Vec<CallStep<A>, A>,
        call: MacroCall<'_, A>,
        place: StepPlace,
        levels: u32,
    ) -> Result<(), AllocError> {
        let is_expanded = self.record_call(steps, call, place, levels)?;
        if is_expanded || !is_standard_macro(call.name.sym.as_str()) {
            return Ok(());
        }
        let argument = call.argument;
        let before = place
            .count
            .saturating_sub(argument.flat_len())
            .saturating_sub(1);
        self.record_group(
            steps,
            call.group.delimiter.kind,
            argument,
            place.at(before, 0),
            levels,
        )
    }

    // Records the calls in a tree of an expansion.
    #[cycle(recording)]
    fn record_written_tree(
        &mut self,
        steps: &mut Vec<CallStep<A>, A>,
        tree: TtElement<'_, A>,
        place: StepPlace,
        levels: u32,
    ) -> Result<(), AllocError> {
        match tree {
            TtElement::Leaf(_) => Ok(()),
            TtElement::Subtree(group, inside) => {
                let (kind, trees) = (group.delimiter.kind, inside.remaining());
                self.record_group(steps, kind, trees, place.at(1, 0), levels)
            }
        }
    }

    // Records the calls of the trees in a group of an expansion.
    #[cycle(recording)]
    fn record_group(
        &mut self,
        steps: &mut Vec<CallStep<A>, A>,
        kind: DelimiterKind,
        trees: TokenTreesView<'_, A>,
        place: StepPlace,
        levels: u32,
    ) -> Result<(), AllocError> {
        let mark = self.scope.enter();
        self.record_written(steps, trees, place, levels)?;
        self.leave(kind, mark);
        Ok(())
    }
}
