// Finds the calls of files that expand to modules in files, so that those files can be read.
//
// `FileSet::follow_calls` is one round. It expands the calls of the crates, and puts the text of
// each expansion that has such modules beside the text of its file. Then `FileSet::modules` names
// the files that are to be added. The rounds end when nothing changes: the texts beside the files
// are then those of the expansions that a session finds.
use crate::call_modules::CallText;
use crate::file_set::FileSet;
use crate::inner_files::names_module;
use crate::session::{NamedText, Session};
use crate::session_options::SessionOptions;
use crate::source_files::{SourceFile, trees_in};
use mbe_cfg::crates::module_items::{Module, ModuleBody, module_of};
use mbe_grammar::rust::rust_rules::rust_rules;
use mbe_rewriter::macro_items::{FrontItem, front_of};
use mbe_rewriter::splice::Replacement;
use mbe_text::scanner::file_span;
use mbe_text::symbol_table::SymbolTable;
use mbe_tt::tt::{TokenTreesView, TtElement};
use std::alloc::{AllocError, Global};

// ---- whether a call may expand to a module in a file

// What follows a front of trees that may be items, and the content of the module there.
#[derive(Clone, Copy, Drop)]
struct AfterFront<'t> {
    rest: TokenTreesView<'t>,
    content: Option<TokenTreesView<'t>>,
    // Whether a word by which modules are declared is in a group other than a module's braces.
    hides_module: bool,
}

// Returns what follows the module at the front.
fn after_module<'t>(module: &Module<'t>) -> AfterFront<'t> {
    let content = match module.body {
        ModuleBody::Outside(_) => None,
        ModuleBody::Braces(_, content) => Some(content),
    };
    AfterFront {
        rest: module.rest,
        content,
        hides_module: false,
    }
}

// Returns what follows the module or the tree at the front, if there is one.
fn after_front<'t>(tokens: TokenTreesView<'t>) -> Option<AfterFront<'t>> {
    if let Some(module) = module_of(tokens) {
        return Some(after_module(&module));
    }
    let mut iter = tokens.iter();
    let hides_module = match iter.next()? {
        TtElement::Subtree(_, inside) => names_module(inside.remaining()),
        TtElement::Leaf(_) => false,
    };
    Some(AfterFront {
        rest: iter.remaining(),
        content: None,
        hides_module,
    })
}

// Whether a word by which modules are declared is in a group other than a module's braces. Calls and
// definitions without such a word expand to no module.
fn hides_modules(alloc: Global, tokens: TokenTreesView<'_>) -> Result<bool, AllocError> {
    let mut pending = vec![in alloc; tokens]?;
    for _ in 0..u64::MAX {
        let Some(trees) = pending.pop() else {
            break;
        };
        let Some(front) = after_front(trees) else {
            continue;
        };
        if front.hides_module {
            return Ok(true);
        }
        pending.push(front.rest)?;
        if let Some(content) = front.content {
            pending.push(content)?;
        }
    }
    Ok(false)
}

// Whether calls of the files may expand to modules.
fn may_expand_to_modules(alloc: Global, files: &[SourceFile<'_>]) -> Result<bool, AllocError> {
    for file in files {
        if let Some(tree) = &file.tree
            && hides_modules(alloc, tree.iter().remaining())?
        {
            return Ok(true);
        }
    }
    Ok(false)
}

// ---- which modules an expansion has

// The items of an expansion, or of a module in it, that are left, and what was passed among them.
#[derive(Clone, Copy, Drop)]
struct ItemsLeft<'t> {
    rest: TokenTreesView<'t>,
    has_definition: bool,
    // Whether a module in a file, or an `include!`, was passed.
    has_file: bool,
    // Whether a macro is defined after such a module, or beside one in the braces of a module.
    is_late: bool,
}

// What comes after the first item that is left.
#[derive(Clone, Copy, Drop)]
enum ItemStep<'t> {
    End,
    Left(ItemsLeft<'t>),
    // A module in braces: what comes after it, and its content.
    Module(ItemsLeft<'t>, TokenTreesView<'t>),
}

impl<'t> ItemsLeft<'t> {
    fn all(tokens: TokenTreesView<'t>) -> ItemsLeft<'t> {
        ItemsLeft {
            rest: tokens,
            has_definition: false,
            has_file: false,
            is_late: false,
        }
    }

    fn step(self) -> ItemStep<'t> {
        match front_of(self.rest) {
            FrontItem::End => ItemStep::End,
            FrontItem::Definition(defined) => ItemStep::Left(ItemsLeft {
                rest: defined.rest,
                has_definition: true,
                is_late: self.is_late || self.has_file,
                ..self
            }),
            FrontItem::MacroCall(call) => ItemStep::Left(ItemsLeft {
                rest: call.rest,
                has_file: self.has_file || call.name.sym.as_str() == "include",
                ..self
            }),
            FrontItem::Tree(_, after) => self.step_tree(after),
        }
    }

    // Returns what comes after the module or the tree at the front. `after` follows that tree.
    fn step_tree(self, after: TokenTreesView<'t>) -> ItemStep<'t> {
        let Some(module) = module_of(self.rest) else {
            return ItemStep::Left(ItemsLeft {
                rest: after,
                ..self
            });
        };
        let left = ItemsLeft {
            rest: module.rest,
            ..self
        };
        match module.body {
            ModuleBody::Outside(_) => ItemStep::Left(ItemsLeft {
                has_file: true,
                ..left
            }),
            ModuleBody::Braces(_, content) => ItemStep::Module(left, content),
        }
    }

    // Returns what is left after a module with these items.
    fn after_items(self, inside: ItemsLeft<'_>) -> ItemsLeft<'t> {
        ItemsLeft {
            has_file: self.has_file || inside.has_file,
            is_late: self.is_late || inside.is_late || (inside.has_definition && inside.has_file),
            ..self
        }
    }
}

// Returns what is passed among all items of an expansion.
fn passed_items<'t>(
    alloc: Global,
    tokens: TokenTreesView<'t>,
) -> Result<ItemsLeft<'t>, AllocError> {
    let mut around = Vec::new(alloc);
    let mut items = ItemsLeft::all(tokens);
    for _ in 0..u64::MAX {
        match items.step() {
            ItemStep::Left(left) => items = left,
            ItemStep::Module(left, content) => {
                around.push(left)?;
                items = ItemsLeft::all(content);
            }
            ItemStep::End => match around.pop() {
                Some(outer) => items = outer.after_items(items),
                None => break,
            },
        }
    }
    Ok(items)
}

// ---- one round

// Returns the replacements for the calls of the crates. `None` if no call can expand to a module.
fn parts_of(
    alloc: Global,
    options: &SessionOptions<'_>,
    roots: &[usize],
    texts: &[NamedText],
) -> Result<Option<Vec<Replacement>>, AllocError> {
    let mut session = Session::open(alloc, options, roots, texts)?;
    if !may_expand_to_modules(alloc, session.files.as_slice())? {
        return Ok(None);
    }
    Ok(Some(session.expand_crates(alloc, options)?))
}

// Returns the call of a replacement, if its expansion has modules in files.
fn call_text(
    alloc: Global,
    options: &SessionOptions<'_>,
    roots: &[usize],
    part: &Replacement,
) -> Result<Option<CallText>, AllocError> {
    let text = part.text.as_str();
    if !text.contains("mod") && !text.contains("include") {
        return Ok(None);
    }
    let (Ok(start), Ok(end)) = (u32::try_from(part.start), u32::try_from(part.end)) else {
        return Ok(None);
    };
    let settings = options.file_settings(
        rust_rules(options.edition, &[]),
        roots,
        part.file as usize,
    );
    let mut symbols = SymbolTable::new(alloc);
    let mut ignored_notes = Vec::new(alloc);
    let notes = &mut ignored_notes;
    let Some(tree) = trees_in(alloc, &mut symbols, notes, &settings, text, part.file)? else {
        return Ok(None);
    };
    let passed = passed_items(alloc, tree.iter().remaining())?;
    if !passed.has_file {
        return Ok(None);
    }
    Ok(Some(CallText {
        at: file_span(part.file, start, end),
        text: String::from_str(alloc, text)?,
        is_followed: !passed.is_late,
    }))
}

// Adds the call of a replacement to the calls of its file. If the call is there already, as in a
// file of several modules, the first expansion counts.
fn add_call(calls: &mut Vec<Vec<CallText>>, call: CallText) -> Result<(), AllocError> {
    let Some(of_file) = calls.get_mut(call.at.file as usize) else {
        return Ok(());
    };
    if of_file.iter().any(|other| other.at.end == call.at.end) {
        return Ok(());
    }
    of_file.push(call)?;
    Ok(())
}

fn is_same_call(one: &CallText, other: &CallText) -> bool {
    one.at == other.at
        && one.is_followed == other.is_followed
        && one.text.as_str() == other.text.as_str()
}

fn are_same_calls(ones: &[CallText], others: &[CallText]) -> bool {
    if ones.len() != others.len() {
        return false;
    }
    for (number, one) in ones.iter().enumerate() {
        match others.get(number) {
            Some(other) if is_same_call(one, other) => {}
            Some(_) | None => return false,
        }
    }
    true
}

impl FileSet {
    // Returns the calls of each file whose expansions have modules in files.
    fn calls_of(
        &self,
        alloc: Global,
        options: &SessionOptions<'_>,
        parts: &[Replacement],
    ) -> Result<Vec<Vec<CallText>>, AllocError> {
        let mut calls = Vec::new(alloc);
        for _ in 0..self.texts.len() {
            calls.push(Vec::new(alloc))?;
        }
        for part in parts {
            if let Some(call) = call_text(alloc, options, &self.roots, part)? {
                add_call(&mut calls, call)?;
            }
        }
        Ok(calls)
    }

    // Puts these calls beside the text of a file. Returns whether they differ from those that were
    // there.
    fn set_file_calls(&mut self, number: usize, calls: Vec<CallText>) -> bool {
        match self.texts.get_mut(number) {
            Some(named) => {
                let before = std::mem::replace(&mut named.calls, calls);
                !are_same_calls(before.as_slice(), named.calls.as_slice())
            }
            None => false,
        }
    }

    // Puts these calls beside the texts of the files. Returns whether they differ from those that
    // were there.
    fn set_calls(&mut self, calls: Vec<Vec<CallText>>) -> bool {
        let mut is_changed = false;
        for (number, of_file) in calls.into_iter().enumerate() {
            is_changed |= self.set_file_calls(number, of_file);
        }
        is_changed
    }

    /// Expands the calls of the session's own crates, and puts the text of each expansion that has
    /// modules in files beside the text of its file. Returns whether these texts differ from those
    /// that were there. Then `modules` may name files that the set lacks. `AllocError` if out of
    /// memory.
    pub fn follow_calls(
        &mut self,
        alloc: Global,
        options: &SessionOptions<'_>,
    ) -> Result<bool, AllocError> {
        if !options.with_modules {
            return Ok(false);
        }
        let Some(parts) = parts_of(alloc, options, &self.roots, self.texts.as_slice())? else {
            return Ok(false);
        };
        let calls = self.calls_of(alloc, options, parts.as_slice())?;
        Ok(self.set_calls(calls))
    }

    /// Whether a call of file `number` expands to modules in files.
    pub fn has_followed_calls(&self, number: usize) -> bool {
        match self.texts.get(number) {
            Some(named) => !named.calls.is_empty(),
            None => false,
        }
    }
}
