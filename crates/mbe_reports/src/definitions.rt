// Where macros and their rules are in a file.
use mbe_rewriter::macro_items::{DefinitionForm, FrontItem, MacroDefinition, front_of};
use mbe_tt::tt::{Leaf, TokenTreesView, TtElement};
use std::alloc::{AllocError, Global};

// The trees that are still to be searched, the next ones last.
#[derive(Drop)]
struct Search<'t> {
    open: Vec<TokenTreesView<'t>>,
}

impl<'t> Search<'t> {
    // Adds two lists of trees. The trees of `first` are searched before those of `then`.
    fn push(
        &mut self,
        first: TokenTreesView<'t>,
        then: TokenTreesView<'t>,
    ) -> Result<(), AllocError> {
        self.open.push(then)?;
        self.open.push(first)?;
        Ok(())
    }

    // Steps over the front of these trees, and adds it if it is a definition.
    fn step(
        &mut self,
        trees: TokenTreesView<'t>,
        found: &mut Vec<MacroDefinition<'t>>,
    ) -> Result<(), AllocError> {
        match front_of(trees) {
            FrontItem::End => Ok(()),
            FrontItem::Definition(defined) => {
                found.push(defined)?;
                self.push(defined.rules, defined.rest)
            }
            FrontItem::MacroCall(call) => self.push(call.argument, call.rest),
            FrontItem::Tree(tree, after) => self.push_tree(&tree, after),
        }
    }

    // Adds the trees in a tree, and the trees after it.
    fn push_tree(
        &mut self,
        tree: &TtElement<'t>,
        after: TokenTreesView<'t>,
    ) -> Result<(), AllocError> {
        match tree {
            TtElement::Subtree(_, inside) => self.push(inside.remaining(), after),
            TtElement::Leaf(_) => {
                self.open.push(after)?;
                Ok(())
            }
        }
    }

    // Adds the definitions of the trees, in at most that many steps.
    fn run(
        &mut self,
        steps: usize,
        found: &mut Vec<MacroDefinition<'t>>,
    ) -> Result<(), AllocError> {
        for _ in 0..steps {
            let Some(trees) = self.open.pop() else {
                return Ok(());
            };
            self.step(trees, found)?;
        }
        Ok(())
    }
}

/// Returns what has the form of a definition among these trees, in the order of the text: also in
/// groups, in arguments of calls, and in templates. `AllocError` if out of memory.
pub fn definitions_in<'t>(
    alloc: Global,
    trees: TokenTreesView<'t>,
) -> Result<Vec<MacroDefinition<'t>>, AllocError> {
    let mut found = Vec::new(alloc);
    let mut search = Search {
        open: Vec::new(alloc),
    };
    search.open.push(trees)?;
    let steps = trees.flat_len().saturating_mul(2).saturating_add(1);
    search.run(steps, &mut found)?;
    Ok(found)
}

// What is known of a rule while its trees are read.
#[derive(Clone, Copy, Drop)]
struct RuleScan {
    // The byte at which the rule begins, if a tree of it is read.
    start: Option<u32>,
    // Whether the last tree is a `>`.
    is_arrow: bool,
}

const NO_RULE: RuleScan = RuleScan {
    start: None,
    is_arrow: false,
};

fn is_char(leaf: &Leaf, char: char) -> bool {
    match leaf {
        Leaf::Punct(punct) => punct.char == char,
        Leaf::Ident(_) | Leaf::Literal(_) => false,
    }
}

// Whether a leaf stands between two rules.
fn is_separator(leaf: &Leaf) -> bool {
    is_char(leaf, ';') || is_char(leaf, ',')
}

impl RuleScan {
    // Reads a tree that begins at that byte. Returns where the rule begins if the tree ends it.
    fn read(&mut self, tree: &TtElement<'_>, at: u32) -> Option<u32> {
        match tree {
            TtElement::Leaf(leaf) if self.start.is_none() && is_separator(leaf) => None,
            TtElement::Leaf(leaf) => {
                self.start = self.start.or(Some(at));
                self.is_arrow = is_char(leaf, '>');
                None
            }
            TtElement::Subtree(..) if self.is_arrow => {
                let start = self.start;
                *self = NO_RULE;
                start
            }
            TtElement::Subtree(..) => {
                self.start = self.start.or(Some(at));
                None
            }
        }
    }
}

// Adds the byte at which each of these rules begins.
fn push_starts(rules: TokenTreesView<'_>, starts: &mut Vec<u32>) -> Result<(), AllocError> {
    let mut scan = NO_RULE;
    let mut iter = rules.iter();
    for _ in 0..rules.flat_len() {
        let at = iter.next_span().map_or(0, |span| span.start);
        let Some(tree) = iter.next() else {
            return Ok(());
        };
        if let Some(start) = scan.read(&tree, at) {
            starts.push(start)?;
        }
    }
    Ok(())
}

/// Returns the byte at which each rule of a definition begins, in order. `AllocError` if out of
/// memory.
pub fn rule_starts(alloc: Global, defined: MacroDefinition<'_>) -> Result<Vec<u32>, AllocError> {
    let mut starts = Vec::new(alloc);
    match defined.form {
        DefinitionForm::Rules | DefinitionForm::Body => push_starts(defined.rules, &mut starts)?,
        DefinitionForm::Arguments(pattern, _) => starts.push(pattern.delimiter.opening.start)?,
    }
    Ok(starts)
}
