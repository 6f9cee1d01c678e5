// Replaces the calls of a file by the text of their expansions. Every other byte is unchanged.
ghost use Rattle.std.specs.Prelude.{◌≡◌, ◌++◌, suc, [], IfOk, OnOk, map};
ghost use Rattle.std.specs.List.{All};
ghost use Rattle.std.specs.String.{string_bytes};
ghost use Rattle.mbe_tt.specs.Views.Element.{element_tree};
ghost use Rattle.mbe_tt.specs.Views.View.{trees};
ghost use Rattle.mbe_rewriter.specs.Surroundings.{is_standard_macro};
ghost use Rattle.mbe_rewriter.specs.ReplacementViews.{part_of};
ghost use Rattle.mbe_rewriter.specs.MacroItemViews.{call_shown, macro_definition_shown};
ghost use Rattle.mbe_text.specs.RustText.Printer as writing;
ghost use Rattle.mbe_rewriter.specs.WholeFragments.BuiltinCalls as wording;
ghost use Rattle.mbe_session.specs.CallReplacements as spec;
ghost use Rattle.mbe_session.specs.CallReplacements.{Adds, IsOfCall, IsPartOf, last_span};
ghost use Rattle.mbe_session.specs.CallReplacements.{NoneCalled, PartsOfArgument, PartsOfCall};
ghost use Rattle.mbe_session.specs.CallReplacements.{attribute_parts};
ghost use Rattle.mbe_session.specs.CallReplacements.{PartsOfFile, PartsOfTree, PartsWithin};
ghost use Rattle.mbe_session.specs.CallReplacements.{ShowsItems, item_shown, rules_shown, shown};
ghost use Rattle.mbe_session.specs.SessionViews.{setting_of, state_of};

use crate::adjustment::place::{
    Place, Preceding, place_after_call, place_after_tree, place_in_arguments, place_in_file,
    place_in_group,
};
use crate::captures::file_locals::FileLocals;
use crate::file_expander::{FileExpander, LEVELS, text_of};
use crate::notes::Level;
use mbe_rewriter::attributed_calls::front_item_with_attributes;
use mbe_rewriter::hygiene::contexts::apply_hygiene;
use mbe_rewriter::hygiene::renamer::UndecidedUse;
use mbe_rewriter::macro_items::{
    FrontItem, MacroCall, MacroDefinition, attribute_at, front_of, is_standard_macro,
};
use mbe_rewriter::splice::Replacement;
use mbe_rewriter::whole_fragments::builtin_calls::{Builtins, expand_builtins};
use mbe_rewriter::whole_fragments::builtin_names::mentions_builtin;
use mbe_rewriter::whole_fragments::fragment_groups::open_all_fragments;
use mbe_rewriter::whole_fragments::line_column::{LineColumn, line_column_of};
use mbe_tt::grammar::Dialect;
use mbe_tt::span::Span;
use mbe_tt::tt::{
    Delimiter, DelimiterKind, Leaf, TokenTreesView, TopSubtree, TopSubtreeBuilder, TtElement,
};
use std::alloc::{AllocError, Allocator};

impl<A: Allocator + Copy> FileExpander<'_, A> {
    /// Returns the replacements for the calls of a file's trees, in the order of its text. `texts`
    /// is the text of the file. If spans of the trees are in other files too, it has the texts of
    /// all files, by their numbers. `AllocError` if out of memory.
    pub fn replacements(
        &mut self,
        texts: &[&str],
        tokens: TokenTreesView<'_, A>,
    ) -> Result<Vec<Replacement<A>, A>, AllocError>
        ensures parts { IfOk result (λ r. PartsOfFile (setting_of self.old) LEVELS
            (trees tokens.entry) (state_of self.old) (map part_of r.items) (state_of self.new)) }
        ensures each { IfOk result (λ r. All (IsOfCall (setting_of self.old) (trees tokens.entry))
            (map part_of r.items)) }
        ensures unknown { IfOk result (λ r.
            NoneCalled (state_of self.old).scope.definitions (trees tokens.entry)
            → map part_of r.items ≡ []) }
        ensures setting { OnOk result (setting_of self.new ≡ setting_of self.old) }
    {
        let mut replacements = Vec::new(self.alloc);
        self.locals = FileLocals::of_file(self.alloc, tokens)?;
        let mark = self.scope.enter();
        self.replace_in(&mut replacements, texts, tokens, place_in_file(), LEVELS)?;
        self.scope.leave(mark);
        Ok(replacements)
    }

    // Makes that definition of the file visible from here on.
    fn make_visible(&mut self, defined: MacroDefinition<'_, A>) -> Result<(), AllocError>
        ensures shown { OnOk result (state_of self.new
            ≡ shown (macro_definition_shown defined.entry) (state_of self.old)) }
        ensures setting { OnOk result (setting_of self.new ≡ setting_of self.old) }
    {
        match self.scope.placed(defined) {
            Some(number) => self.scope.make_visible(number),
            None => Ok(()),
        }
    }

    // Makes that definition visible from here on, if it is a `macro` item of a block. One of a
    // module isn't visible in the modules inside it, so a name finds it as paths do.
    fn make_item_visible(&mut self, defined: MacroDefinition<'_, A>) -> Result<(), AllocError>
        ensures shown { OnOk result (state_of self.new
            ≡ item_shown (macro_definition_shown defined.entry) (state_of self.old)) }
        ensures setting { OnOk result (setting_of self.new ≡ setting_of self.old) }
    {
        if defined.is_item() && !self.scope.is_placed_by_path(defined) {
            self.make_visible(defined)
        } else {
            Ok(())
        }
    }

    // Makes that definition visible from here on, if it is by `macro_rules!`.
    fn make_rules_visible(&mut self, defined: MacroDefinition<'_, A>) -> Result<(), AllocError>
        ensures shown { OnOk result (state_of self.new
            ≡ rules_shown (macro_definition_shown defined.entry) (state_of self.old)) }
        ensures setting { OnOk result (setting_of self.new ≡ setting_of self.old) }
    {
        if defined.is_item() {
            Ok(())
        } else {
            self.make_visible(defined)
        }
    }

    // Makes the `macro` items of a block visible from here on, wherever among these trees they are.
    fn make_items_visible(&mut self, tokens: TokenTreesView<'_, A>) -> Result<(), AllocError>
        ensures shows { OnOk result (ShowsItems (trees tokens.entry)
            (state_of self.old) (state_of self.new)) }
        ensures setting { OnOk result (setting_of self.new ≡ setting_of self.old) }
    {
        let mut rest = tokens;
        'trees: loop {
            match front_of(rest) {
                FrontItem::End => return Ok(()),
                FrontItem::Definition(defined) => {
                    self.make_item_visible(defined)?;
                    rest = defined.rest;
                }
                FrontItem::MacroCall(call) => rest = call.rest,
                FrontItem::Tree(_, after) => rest = after,
            }
        }
    }

    // Adds the replacements for the calls of trees, the first of which is at `place`.
    #[cycle(replacing)]
    fn replace_in(
        &mut self,
        replacements: &mut Vec<Replacement<A>, A>,
        texts: &[&str],
        tokens: TokenTreesView<'_, A>,
        place: Place,
        levels: u32,
    ) -> Result<(), AllocError>
        ensures adds { OnOk result (Adds
            (PartsWithin (setting_of self.old) (suc levels)
            (trees tokens.entry) (state_of self.old))
            (map part_of replacements.old.items) (map part_of replacements.new.items)
            (state_of self.new)) }
        ensures setting { OnOk result (setting_of self.new ≡ setting_of self.old) }
    {
        self.make_items_visible(tokens)?;
        let mut rest = tokens;
        let mut place = place;
        let mut is_used = false;
        'trees: loop {
            match front_item_with_attributes(rest) {
                FrontItem::End => return Ok(()),
                FrontItem::Definition(defined) => {
                    self.make_rules_visible(defined)?;
                    rest = defined.rest;
                    place = place.after(Preceding::Statement);
                    is_used = false;
                }
                FrontItem::MacroCall(call) => {
                    rest = self.replace_call(replacements, texts, call, place, levels)?;
                    place = place_after_call(call, rest, place);
                }
                FrontItem::Tree(tree, after) => {
                    is_used |= attribute_at(rest) == Some("macro_use");
                    let is_end = ends_item(&tree);
                    self.replace_tree(replacements, texts, tree, is_used, levels)?;
                    place = place_after_tree(rest, place);
                    is_used &= !is_end;
                    rest = after;
                }
            }
        }
    }

    // Adds the replacements for the calls in a tree.
    #[cycle(replacing)]
    fn replace_tree(
        &mut self,
        replacements: &mut Vec<Replacement<A>, A>,
        texts: &[&str],
        tree: TtElement<'_, A>,
        is_used: bool,
        levels: u32,
    ) -> Result<(), AllocError>
        ensures adds { OnOk result (Adds
            (PartsOfTree (PartsWithin (setting_of self.old) levels)
            (element_tree tree.entry) (state_of self.old))
            (map part_of replacements.old.items) (map part_of replacements.new.items)
            (state_of self.new)) }
        ensures setting { OnOk result (setting_of self.new ≡ setting_of self.old) }
    {
        let TtElement::Subtree(group, inside) = tree else {
            return Ok(());
        };
        let mark = self.scope.enter();
        let place = place_in_group(group.delimiter.kind);
        self.replace_inside(replacements, texts, inside.remaining(), place, levels)?;
        if !is_used {
            self.leave(group.delimiter.kind, mark);
        }
        Ok(())
    }

    // Adds the replacements for the calls in a group, unless it is nested too deep.
    #[cycle(replacing)]
    fn replace_inside(
        &mut self,
        replacements: &mut Vec<Replacement<A>, A>,
        texts: &[&str],
        tokens: TokenTreesView<'_, A>,
        place: Place,
        levels: u32,
    ) -> Result<(), AllocError>
        ensures adds { OnOk result (Adds
            (PartsWithin (setting_of self.old) levels (trees tokens.entry) (state_of self.old))
            (map part_of replacements.old.items) (map part_of replacements.new.items)
            (state_of self.new)) }
        ensures setting { OnOk result (setting_of self.new ≡ setting_of self.old) }
    {
        if levels == 0 {
            self.note_too_deep_in(tokens)?;
            return Ok(());
        }
        self.replace_in(replacements, texts, tokens, place, levels - 1)
    }

    // Adds the replacement for a call, and returns the trees after it. A call whose expansion asks
    // for more than the limits allow is unchanged, and uses nothing of the limits. It counts as one
    // call that isn't expanded, and the calls in its expansion don't count.
    #[cycle(replacing)]
    fn replace_call<'t>(
        &mut self,
        replacements: &mut Vec<Replacement<A>, A>,
        texts: &[&str],
        call: MacroCall<'t, A>,
        place: Place,
        levels: u32,
    ) -> Result<TokenTreesView<'t, A>, AllocError>
        ensures adds { IfOk result (λ rest. Adds
            (λ parts. PartsOfCall (setting_of self.old) levels
            (PartsWithin (setting_of self.old) levels)
            (call_shown call.entry) (state_of self.old) parts (trees rest))
            (map part_of replacements.old.items) (map part_of replacements.new.items)
            (state_of self.new)) }
        ensures setting { OnOk result (setting_of self.new ≡ setting_of self.old) }
    {
        let depth = self.settings.depth;
        let mark = self.contexts.len();
        let (fuel, counts) = (self.fuel, self.counts);
        match self.expansion(call, depth, levels)? {
            Some(tree) => {
                let (replacement, rest) = self.replacement(
                    texts,
                    &tree,
                    call,
                    place,
                    mark,
                    depth - 1,
                    levels,
                )?;
                if self.fuel.is_spent() {
                    self.note_spent(call)?;
                    self.fuel = fuel;
                    self.counts = counts.with_call();
                    return Ok(call.rest);
                }
                push_attributes(self.alloc, replacements, call)?;
                replacements.push(replacement)?;
                Ok(rest)
            }
            None => {
                self.replace_argument(replacements, texts, call, levels)?;
                Ok(call.rest)
            }
        }
    }

    // Adds the replacements for the calls in the argument of a call that isn't expanded, if its
    // macro is one of the standard library.
    #[cycle(replacing)]
    fn replace_argument(
        &mut self,
        replacements: &mut Vec<Replacement<A>, A>,
        texts: &[&str],
        call: MacroCall<'_, A>,
        levels: u32,
    ) -> Result<(), AllocError>
        ensures adds { OnOk result (Adds
            (PartsOfArgument (PartsWithin (setting_of self.old) levels)
            (is_standard_macro (call_shown call.entry).name.sym) (call_shown call.entry).argument
            (state_of self.old))
            (map part_of replacements.old.items) (map part_of replacements.new.items)
            (state_of self.new)) }
        ensures setting { OnOk result (setting_of self.new ≡ setting_of self.old) }
    {
        if !is_standard_macro(call.name.sym.as_str()) {
            return Ok(());
        }
        self.replace_inside(
            replacements,
            texts,
            call.argument,
            place_in_arguments(),
            levels,
        )
    }

    // Returns the replacement of a call by its expansion, and the trees after it. In the text,
    // locals are renamed apart, and calls of built-in macros have the values that they have at the
    // call. The first `mark` contexts are of earlier calls.
    fn replacement<'t>(
        &mut self,
        texts: &[&str],
        tree: &TopSubtree<A>,
        call: MacroCall<'t, A>,
        place: Place,
        mark: usize,
        depth: u32,
        levels: u32,
    ) -> Result<(Replacement<A>, TokenTreesView<'t, A>), AllocError>
        ensures part { IfOk result (λ r. IsPartOf (setting_of self.old) levels depth mark
            (call_shown call.entry) tree.now.1 (state_of self.old) (part_of r.0) (trees r.1)
            (state_of self.new)) }
        ensures setting { OnOk result (setting_of self.new ≡ setting_of self.old) }
    {
        let around = Delimiter::invisible_spanned(call.name.span);
        let mut builder = TopSubtreeBuilder::new(self.alloc, around)?;
        let rest = self.write_expansion(&mut builder, tree, call, place, depth, levels)?;
        let written = all_opened_in(self.alloc, self.grammar.dialect, builder.build())?;
        let apart = apply_hygiene(self.alloc, &written, rest, self.contexts.as_slice(), mark)?;
        self.note_doubts(texts, apart.undecided.as_slice())?;
        self.note_shadowed(call, &apart.tree, mark)?;
        self.note_pattern_call(texts, call, &apart, mark)?;
        self.add_locals(call, &apart.tree)?;
        let (around, start) = (
            text_of_file(texts, call.start.file),
            call.start.start as usize,
        );
        let at = place_if_named(&apart.tree, around, start);
        let text = self.text_at(&apart.tree, at, indentation(around, start))?;
        let replacement = Replacement {
            file: call.start.file,
            start,
            end: end_of(call, rest),
            text,
        };
        Ok((replacement, rest))
    }

    // Whether no definition may have that name, so that the name is the built-in macro's.
    fn is_builtin(&self, name: &str) -> bool
        ensures { result ≡ spec.is_builtin (state_of self.now) name.now }
    {
        self.scope.is_unclaimed(name)
    }

    // Returns what calls of built-in macros expand to, in the expansion of a call at that line and
    // column.
    fn builtins(&self, place: LineColumn) -> Builtins
        ensures { result ≡ spec.builtins (state_of self.now) place.line place.column }
    {
        Builtins {
            line: number_if(self.is_builtin("line"), place.line),
            column: number_if(self.is_builtin("column"), place.column),
            stringify: self.is_builtin("stringify"),
            concat: self.is_builtin("concat"),
        }
    }

    // Returns the text of an expansion that replaces a call at that line and column. The line has
    // that indentation.
    fn text_at(
        &self,
        tree: &TopSubtree<A>,
        place: LineColumn,
        indentation: usize,
    ) -> Result<String<A>, AllocError>
        ensures { IfOk result (λ s. string_bytes s ≡ writing.text_of indentation
            (wording.expand_builtins (spec.builtins (state_of self.now) place.line place.column)
            tree.now.1)) }
    {
        // Whether a macro is built in is decided by a search of all definitions, so only for an
        // expansion with such a name.
        if !mentions_builtin(tree) {
            return text_of(self.alloc, tree.iter().remaining(), indentation);
        }
        let shown = expand_builtins(self.alloc, self.builtins(place), tree)?;
        text_of(self.alloc, shown.iter().remaining(), indentation)
    }

    // Notes where it isn't decided whether a name is the one that a macro binds, and where that one
    // is bound.
    fn note_doubts(
        &mut self,
        texts: &[&str],
        undecided_uses: &[UndecidedUse],
    ) -> Result<(), AllocError>
        ensures setting { OnOk result (setting_of self.new ≡ setting_of self.old) }
        ensures state { OnOk result (state_of self.new ≡ state_of self.old) }
    {
        for doubt in undecided_uses {
            self.note_doubt(name_at(texts, doubt.bound), doubt)?;
        }
        Ok(())
    }

    fn note_doubt(&mut self, name: &str, doubt: &UndecidedUse) -> Result<(), AllocError>
        ensures setting { OnOk result (setting_of self.new ≡ setting_of self.old) }
        ensures state { OnOk result (state_of self.new ≡ state_of self.old) }
    {
        let message = format!(in self.alloc;
            "`{name}` keeps its name, since this may be the one that a macro binds"
        )?;
        self.note(Level::Note, doubt.place, message)?;
        let message = format!(in self.alloc; "`{name}` is bound here")?;
        self.note_child(Level::Note, doubt.bound, message)
    }
}

// Whether a tree ends an item, and so its attributes: braces, or a `;`.
fn ends_item<A: Allocator>(tree: &TtElement<'_, A>) -> bool {
    match tree {
        TtElement::Subtree(group, _) => group.delimiter.kind == DelimiterKind::Brace,
        TtElement::Leaf(leaf) => is_semicolon(leaf),
    }
}

fn is_semicolon<A: Allocator>(leaf: &Leaf<A>) -> bool {
    match leaf {
        Leaf::Punct(punct) => punct.char == ';',
        Leaf::Ident(_) | Leaf::Literal(_) => false,
    }
}

// Returns the trees of an expansion as text can show them in the dialect.
fn all_opened_in<A: Allocator + Copy>(
    alloc: A,
    dialect: Dialect,
    tree: TopSubtree<A>,
) -> Result<TopSubtree<A>, AllocError>
    ensures { IfOk result (λ t. t ≡ (tree.0, spec.all_opened_in dialect tree.1)) }
{
    match dialect {
        Dialect::RustAnalyzer => Ok(tree),
        Dialect::Rustc => open_all_fragments(alloc, &tree),
    }
}

fn number_if(is_builtin: bool, number: u32) -> Option<u32>
    ensures { result ≡ spec.number_if is_builtin number }
{
    if is_builtin { Some(number) } else { None }
}

// Returns the text of a span.
fn name_at<'t>(texts: &[&'t str], span: Span) -> &'t str {
    text_of_file(texts, span.file)
        .get(span.start as usize..span.end as usize)
        .unwrap_or("")
}

// Returns the byte where a call ends: after its group, or after the `;` that is removed with it.
fn end_of<A: Allocator>(call: MacroCall<'_, A>, rest: TokenTreesView<'_, A>) -> usize
    ensures { result ≡ (last_span (call_shown call.entry) (trees rest.entry)).end }
{
    let close = call.group.delimiter.close;
    let last = if rest.flat_len() < call.rest.flat_len() {
        call.rest.iter().next_span().unwrap_or(close)
    } else {
        close
    };
    last.end as usize
}

// Adds the replacement of a call's attributes by nothing, if it has some.
fn push_attributes<A: Allocator + Copy>(
    alloc: A,
    replacements: &mut Vec<Replacement<A>, A>,
    call: MacroCall<'_, A>,
) -> Result<(), AllocError>
    ensures { OnOk result (map part_of replacements.new.items
        ≡ map part_of replacements.old.items ++ attribute_parts (call_shown call.entry)) }
{
    if call.begin.start < call.start.start {
        replacements.push(Replacement {
            file: call.begin.file,
            start: call.begin.start as usize,
            end: call.start.start as usize,
            text: String::new(alloc),
        })?;
    }
    Ok(())
}

// Returns the text of the file of that number, or the only text.
fn text_of_file<'t>(texts: &[&'t str], file: u32) -> &'t str {
    match texts {
        [one] => *one,
        _ => texts.get(file as usize).copied().unwrap_or(""),
    }
}

// Returns the line and column of a byte of a text, if the tree may use them. Lines are counted from
// the start of the text, so this isn't done for each call.
fn place_if_named<A: Allocator>(tree: &TopSubtree<A>, text: &str, at: usize) -> LineColumn {
    if names_place(tree.iter().remaining()) {
        line_column_of(text, at)
    } else {
        LineColumn { line: 1, column: 1 }
    }
}

// Whether `line` or `column` is among the words of the trees.
fn names_place<A: Allocator>(trees: TokenTreesView<'_, A>) -> bool {
    let mut cursor = trees.cursor();
    for _ in 0..trees.flat_len() {
        if let Some(TtElement::Leaf(Leaf::Ident(ident))) = cursor.token_tree()
            && matches!(ident.sym.as_str(), "line" | "column")
        {
            return true;
        }
        cursor.bump_or_end();
    }
    false
}

// Returns the indentation of the line of this byte, in units of four spaces.
fn indentation(text: &str, at: usize) -> usize {
    let line = text.get(line_start(text, at)..at).unwrap_or("");
    let spaces = line
        .len()
        .saturating_sub(line.trim_start_matches(' ').len());
    spaces / 4
}

// Returns the start of the line of this byte. It searches backwards from the byte, because a line
// is short and the text before it is not.
fn line_start(text: &str, at: usize) -> usize {
    let bytes = text.as_bytes();
    let mut start = at;
    'bytes: while start > 0 && bytes.get(start - 1).is_some_and(|byte| *byte != b'\n') {
        start -= 1;
    }
    start
}
