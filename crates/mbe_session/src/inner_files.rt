// Modules and `include!`s in functions and in values. Their files aren't read.
use crate::notes::{Level, Note};
use mbe_cfg::crates::module_items::{Module, ModuleBody, ModuleCursor, module_of};
use mbe_rewriter::macro_items::{FrontItem, MacroCall, front_of};
use mbe_tt::span::Span;
use mbe_tt::tt::{DelimiterKind, Leaf, TokenTreesView, TtElement};
use std::alloc::{AllocError, Global};

/// Returns whether one of the words by which modules and `include!`s begin is among these trees.
pub(crate) fn names_module(tokens: TokenTreesView<'_>) -> bool {
    let mut cursor = tokens.cursor();
    for _ in 0..tokens.flat_len() {
        if let Some(TtElement::Leaf(Leaf::Ident(ident))) = cursor.token_tree()
            && matches!(ident.sym.as_str(), "mod" | "include")
        {
            return true;
        }
        cursor.bump_or_end();
    }
    false
}

// Trees that are left. They are items of a file or of its modules, or trees in a function or a value.
#[derive(Clone, Copy, Drop)]
struct TreesLeft<'t> {
    rest: TokenTreesView<'t>,
    are_items: bool,
    // Whether an item may begin here.
    is_start: bool,
}

// Whether an item may begin after a tree.
fn ends_item(tree: &TtElement<'_>) -> bool {
    match tree {
        TtElement::Leaf(Leaf::Punct(punct)) => punct.char == ';',
        TtElement::Leaf(Leaf::Ident(_) | Leaf::Literal(_)) => false,
        TtElement::Subtree(group, _) => {
            is_brace(group.delimiter.kind) || is_bracket(group.delimiter.kind)
        }
    }
}

fn is_brace(kind: DelimiterKind) -> bool {
    kind == DelimiterKind::Brace
}

fn is_bracket(kind: DelimiterKind) -> bool {
    kind == DelimiterKind::Bracket
}

fn push_note(notes: &mut Vec<Note>, span: Span, message: String) -> Result<(), AllocError> {
    notes.push(Note {
        level: Level::Note,
        span,
        message,
        is_child: false,
    })?;
    Ok(())
}

// Notes an `include!` of a file that isn't an item.
fn note_include(
    alloc: Global,
    notes: &mut Vec<Note>,
    tokens: TokenTreesView<'_>,
) -> Result<(), AllocError> {
    let Some(included) = ModuleCursor::at_item_start(tokens).included else {
        return Ok(());
    };
    let path = included.path;
    let message = format!(in alloc;
        "`include!(\"{path}\")` isn't followed: it isn't an item of a module"
    )?;
    push_note(notes, included.at, message)
}

// Notes a module in a file that is in a function.
fn note_module(
    alloc: Global,
    notes: &mut Vec<Note>,
    module: &Module<'_>,
) -> Result<(), AllocError> {
    let name = module.name.sym.as_str();
    let message = format!(in alloc; "module `{name}` isn't followed: it is in a function")?;
    push_note(notes, module.name.span, message)
}

impl<'t> TreesLeft<'t> {
    // Returns what is left after an item.
    fn at_item(self, rest: TokenTreesView<'t>) -> TreesLeft<'t> {
        TreesLeft {
            rest,
            is_start: true,
            ..self
        }
    }

    // Notes the call at the front if it is an `include!`, but no item.
    fn note_call(
        self,
        alloc: Global,
        notes: &mut Vec<Note>,
        call: &MacroCall<'_>,
    ) -> Result<(), AllocError> {
        if call.name.sym.as_str() != "include" || (self.are_items && self.is_start) {
            return Ok(());
        }
        note_include(alloc, notes, self.rest)
    }

    // Notes the module at the front if it is in a file and in a function. What follows it, and what
    // is in it, becomes pending.
    fn pass_module(
        self,
        alloc: Global,
        notes: &mut Vec<Note>,
        pending: &mut Vec<TreesLeft<'t>>,
        module: &Module<'t>,
    ) -> Result<(), AllocError> {
        pending.push(self.at_item(module.rest))?;
        match module.body {
            ModuleBody::Braces(_, content) => pending.push(self.at_item(content))?,
            ModuleBody::Outside(_) if self.are_items => {}
            ModuleBody::Outside(_) => note_module(alloc, notes, module)?,
        }
        Ok(())
    }

    // What follows the tree at the front, and what is in it, becomes pending. `after` follows it.
    fn pass_tree(
        self,
        pending: &mut Vec<TreesLeft<'t>>,
        tree: &TtElement<'t>,
        after: TokenTreesView<'t>,
    ) -> Result<(), AllocError> {
        pending.push(TreesLeft {
            rest: after,
            is_start: ends_item(tree),
            ..self
        })?;
        if let TtElement::Subtree(_, inside) = tree
            && names_module(inside.remaining())
        {
            pending.push(TreesLeft {
                rest: inside.remaining(),
                are_items: false,
                is_start: true,
            })?;
        }
        Ok(())
    }

    // Notes what is at the front. What follows it, and what is in it, becomes pending.
    fn pass_front(
        self,
        alloc: Global,
        notes: &mut Vec<Note>,
        pending: &mut Vec<TreesLeft<'t>>,
    ) -> Result<(), AllocError> {
        match front_of(self.rest) {
            FrontItem::End => Ok(()),
            FrontItem::Definition(defined) => {
                pending.push(self.at_item(defined.rest))?;
                Ok(())
            }
            FrontItem::MacroCall(call) => {
                self.note_call(alloc, notes, &call)?;
                pending.push(TreesLeft {
                    rest: call.rest,
                    is_start: is_brace(call.group.delimiter.kind),
                    ..self
                })?;
                Ok(())
            }
            FrontItem::Tree(tree, after) => match module_of(self.rest) {
                Some(module) => self.pass_module(alloc, notes, pending, &module),
                None => self.pass_tree(pending, &tree, after),
            },
        }
    }
}

/// Adds a note for each module in a file, and each `include!`, that is in a function or a value of
/// these trees of a crate. `AllocError` if out of memory.
pub(crate) fn note_inner_files(
    alloc: Global,
    notes: &mut Vec<Note>,
    tokens: TokenTreesView<'_>,
) -> Result<(), AllocError> {
    let whole = TreesLeft {
        rest: tokens,
        are_items: true,
        is_start: true,
    };
    // What is still to be looked at; the last comes first.
    let mut pending = vec![in alloc; whole]?;
    for _ in 0..u64::MAX {
        let Some(left) = pending.pop() else {
            break;
        };
        left.pass_front(alloc, notes, &mut pending)?;
    }
    Ok(())
}
