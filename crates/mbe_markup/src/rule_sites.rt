// Finds the rules of a definition in a file: the trees of each template, and its bytes.
use mbe_rewriter::macro_items::{DefinitionForm, FrontItem, MacroDefinition, front_of};
use mbe_tt::span::Span;
use mbe_tt::tt::{Leaf, Subtree, TokenTreesView, TtElement};
use std::alloc::{AllocError, Global};

/// The greatest depth of groups that are searched.
const LEVELS: u32 = 256;

/// The template of a rule in a file.
#[derive(Clone, Copy, Drop)]
pub struct RuleSite<'t> {
    /// The bytes of the template's group.
    pub start: usize,
    pub end: usize,
    pub template: TokenTreesView<'t>,
}

fn has_name_at(defined: MacroDefinition<'_>, name: Span) -> bool {
    let span = defined.name.span;
    span.file == name.file && span.start == name.start
}

// Returns the definition among these trees whose name is there.
#[cycle(searching)]
fn definition_in<'t>(
    trees: TokenTreesView<'t>,
    name: Span,
    levels: u32,
) -> Option<MacroDefinition<'t>> {
    let mut rest = trees;
    for _ in 0..trees.flat_len() {
        let item = front_of(rest);
        if let Some(found) = definition_at(&item, name, levels) {
            return Some(found);
        }
        match item {
            FrontItem::End => return None,
            FrontItem::Definition(defined) => rest = defined.rest,
            FrontItem::MacroCall(call) => rest = call.rest,
            FrontItem::Tree(_, after) => rest = after,
        }
    }
    None
}

// Returns the definition of that name, if the item is that definition or contains it.
#[cycle(searching)]
fn definition_at<'t>(item: &FrontItem<'t>, name: Span, levels: u32) -> Option<MacroDefinition<'t>> {
    if levels == 0 {
        return None;
    }
    match item {
        FrontItem::End => None,
        FrontItem::Definition(defined) if has_name_at(*defined, name) => Some(*defined),
        FrontItem::Definition(defined) => definition_in(defined.rules, name, levels - 1),
        FrontItem::MacroCall(call) => definition_in(call.argument, name, levels - 1),
        FrontItem::Tree(TtElement::Subtree(_, inside), _) => {
            definition_in(inside.remaining(), name, levels - 1)
        }
        FrontItem::Tree(TtElement::Leaf(_), _) => None,
    }
}

fn site<'t>(group: &Subtree, template: TokenTreesView<'t>) -> RuleSite<'t> {
    RuleSite {
        start: group.delimiter.opening.start as usize,
        end: group.delimiter.close.end as usize,
        template,
    }
}

fn is_char(leaf: &Leaf, char: char) -> bool {
    match leaf {
        Leaf::Punct(punct) => punct.char == char,
        Leaf::Ident(_) | Leaf::Literal(_) => false,
    }
}

// Returns the templates of rules: the groups after `=>`.
fn templates<'t>(
    alloc: Global,
    rules: TokenTreesView<'t>,
) -> Result<Vec<RuleSite<'t>>, AllocError> {
    let mut sites = Vec::new(alloc);
    let mut is_arrow = false;
    let mut iter = rules.iter();
    for _ in 0..rules.flat_len() {
        match iter.next() {
            None => return Ok(sites),
            Some(TtElement::Leaf(leaf)) => is_arrow = is_char(leaf, '>'),
            Some(TtElement::Subtree(group, inside)) => {
                if is_arrow {
                    sites.push(site(group, inside.remaining()))?;
                }
                is_arrow = false;
            }
        }
    }
    Ok(sites)
}

/// Returns the templates of the definition whose name is there, in the order of its rules. The list
/// is empty if the trees have no such definition. `AllocError` if out of memory.
pub fn rule_sites<'t>(
    alloc: Global,
    trees: TokenTreesView<'t>,
    name: Span,
) -> Result<Vec<RuleSite<'t>>, AllocError> {
    let Some(defined) = definition_in(trees, name, LEVELS) else {
        return Ok(Vec::new(alloc));
    };
    match defined.form {
        DefinitionForm::Rules | DefinitionForm::Body => templates(alloc, defined.rules),
        DefinitionForm::Arguments(..) => {
            let mut sites = Vec::new(alloc);
            sites.push(site(defined.group, defined.rules))?;
            Ok(sites)
        }
    }
}
