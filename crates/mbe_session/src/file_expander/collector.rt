// Collects the definitions of files, and decides which names resolve to each definition: names in
// its group, names in any file, paths, or paths from another crate.
ghost use Rattle.std.specs.Prelude.{◌≡◌, ◌&&◌, ◌++◌, suc, true, OnOk, length, map, drop};
ghost use Rattle.mbe_tt.specs.Views.Element.{element_tree};
ghost use Rattle.mbe_tt.specs.Views.LeafViews.{leaf_of};
ghost use Rattle.mbe_tt.specs.Views.View.{trees};
ghost use Rattle.mbe_rewriter.specs.MacroItemViews.{macro_definition_shown};
ghost use Rattle.mbe_session.specs.Collector.{Defines, DefinesExternCrate, DefinesIn};
ghost use Rattle.mbe_session.specs.Collector.{DefinesModule, DefinesTree};
ghost use Rattle.mbe_session.specs.Collector.{after_definition, after_group, after_leaf};
ghost use Rattle.mbe_session.specs.Collector.{after_tree, exports, in_group, in_module, parent_of};
ghost use Rattle.mbe_session.specs.Collector.{no_attributes, root_place, visibility_of};
ghost use Rattle.mbe_session.specs.Collector.{with_attribute, with_front_attribute};
ghost use Rattle.mbe_cfg.specs.CrateExports.ExportViews.{export_of};
ghost use Rattle.mbe_session.specs.Explanation.{note_seen};
ghost use Rattle.mbe_session.specs.Faults.{all_noted};
ghost use Rattle.mbe_session.specs.Linker.{linked};
ghost use Rattle.mbe_session.specs.SessionViews.{module_shown, place_of, scope_of, setting_of};
ghost use Rattle.mbe_session.specs.SessionViews.{state_of};

use crate::file_expander::{FileExpander, LEVELS};
use crate::imports::{ModuleItem, is_imported_in, module_at, names_of_use};
use crate::scope::Visibility;
use mbe_cfg::exports::export::Export;
use mbe_rewriter::macro_items::{FrontItem, MacroDefinition, attribute_at, front_of};
use mbe_tt::tt::{DelimiterKind, Leaf, TokenTreesView, TtElement};
use std::alloc::{AllocError, Allocator};

// The attributes `#[macro_export]`, `#[macro_use]` and `#[rustc_builtin_macro]` before a tree,
// since the last item ended.
#[derive(Clone, Copy, Drop)]
pub(crate) struct MacroAttributes {
    is_exported: bool,
    is_used: bool,
    // Whether the macro is built into the compiler.
    is_builtin: bool,
}

impl MacroAttributes {
    fn none() -> MacroAttributes
        ensures { result ≡ no_attributes }
    {
        MacroAttributes {
            is_exported: false,
            is_used: false,
            is_builtin: false,
        }
    }

    // Adds the attribute of that name.
    fn with_attribute(self, name: &str) -> MacroAttributes
        ensures { result ≡ with_attribute name.now self }
    {
        match name {
            "macro_export" => MacroAttributes {
                is_exported: true,
                ..self
            },
            "macro_use" => MacroAttributes {
                is_used: true,
                ..self
            },
            "rustc_builtin_macro" => MacroAttributes {
                is_builtin: true,
                ..self
            },
            _ => self,
        }
    }

    // Adds the attribute at the front of these trees, if there is one.
    fn with_front_attribute<A: Allocator>(self, tokens: TokenTreesView<'_, A>) -> MacroAttributes
        ensures { result ≡ with_front_attribute (trees tokens.entry) self }
    {
        match attribute_at(tokens) {
            Some(name) => self.with_attribute(name),
            None => self,
        }
    }

    // Returns the attributes after a tree. Braces end an item, and so its attributes.
    fn after<A: Allocator>(self, tree: &TtElement<'_, A>) -> MacroAttributes
        ensures { result ≡ after_tree (element_tree tree.now) self }
    {
        match tree {
            TtElement::Subtree(group, _) => self.after_group(group.delimiter.kind),
            TtElement::Leaf(leaf) => self.after_leaf(leaf),
        }
    }

    // Returns the attributes after a leaf. A `;` ends an item, too.
    fn after_leaf<A: Allocator>(self, leaf: &Leaf<A>) -> MacroAttributes
        ensures { result ≡ after_leaf (leaf_of leaf.now) self }
    {
        match leaf {
            Leaf::Punct(punct) => {
                if punct.char == ';' {
                    MacroAttributes::none()
                } else {
                    self
                }
            }
            Leaf::Ident(_) | Leaf::Literal(_) => self,
        }
    }

    // Returns the attributes after a group of that kind.
    fn after_group(self, kind: DelimiterKind) -> MacroAttributes
        ensures { result ≡ after_group kind self }
    {
        match kind {
            DelimiterKind::Brace => MacroAttributes::none(),
            DelimiterKind::Parenthesis | DelimiterKind::Bracket | DelimiterKind::Invisible => self,
        }
    }

    // Returns the attributes after a definition, which had the export.
    fn after_definition(self) -> MacroAttributes
        ensures { result ≡ after_definition self }
    {
        MacroAttributes {
            is_exported: false,
            is_used: self.is_used,
            is_builtin: false,
        }
    }

    // Whether the definition is exported by `#[macro_export]`, and not built into the compiler.
    fn exports<A: Allocator>(self, defined: MacroDefinition<'_, A>) -> bool
        ensures { result ≡ exports self (macro_definition_shown defined.entry) }
    {
        self.is_exported && !self.is_builtin && !defined.is_item()
    }

    // Returns which names and paths find a definition with these attributes. `place` says where the
    // definition is.
    fn visibility<A: Allocator>(
        self,
        place: TreePlace<'_>,
        defined: MacroDefinition<'_, A>,
    ) -> Visibility
        ensures { result ≡ visibility_of (place_of place.entry) self
            (macro_definition_shown defined.entry) }
    {
        let name = defined.name.sym.as_str();
        let is_module_item = place.is_item && defined.is_item() && !self.is_builtin;
        if self.exports(defined) || (is_module_item && place.is_reached) {
            Visibility::Crates
        } else if is_module_item || (place.is_item && is_imported_in(name, defined.rest)) {
            Visibility::Paths
        } else if place.is_top {
            Visibility::Files
        } else {
            Visibility::Text
        }
    }

    // Returns the name of the module in which paths find the definition. `#[macro_export]` puts it
    // at the root of its crate.
    fn parent<'n, A: Allocator>(
        self,
        place: TreePlace<'n>,
        defined: MacroDefinition<'_, A>,
    ) -> &'n str
        ensures { result.now ≡ parent_of (place_of place.entry) self
            (macro_definition_shown defined.entry) }
    {
        if self.exports(defined) {
            ""
        } else {
            place.parent
        }
    }
}

// Where trees are.
#[derive(Clone, Copy, Drop)]
pub(crate) struct TreePlace<'n> {
    // The name of the innermost module around them; empty at the root of a crate.
    parent: &'n str,
    // Whether the only groups around them are modules under `#[macro_use]`.
    is_top: bool,
    // Whether the innermost group around them is a module's, or there is none.
    is_item: bool,
    // Whether the only groups around them are modules.
    is_reached: bool,
}

impl<'n> TreePlace<'n> {
    // Returns the `TreePlace` of the trees of a root.
    fn root() -> TreePlace<'static>
        ensures { place_of result ≡ root_place true }
    {
        TreePlace {
            parent: "",
            is_top: true,
            is_item: true,
            is_reached: true,
        }
    }

    // Returns the `TreePlace` of the trees in a group other than a module's.
    fn in_group(self) -> TreePlace<'n>
        ensures { place_of result ≡ in_group (place_of self.entry) }
    {
        TreePlace {
            is_top: false,
            is_item: false,
            is_reached: false,
            ..self
        }
    }

    // Returns the `TreePlace` of the trees in a module of that name.
    fn in_module(self, name: &'n str, is_used: bool) -> TreePlace<'n>
        ensures { place_of result ≡ in_module name.now is_used (place_of self.entry) }
    {
        TreePlace {
            parent: name,
            is_top: self.is_top && is_used,
            is_item: true,
            is_reached: self.is_reached,
        }
    }
}

impl<A: Allocator + Copy> FileExpander<'_, A> {
    /// Reads the definitions of trees, and notes the error of each. From then on, a name that finds
    /// no other definition finds the definitions in no group, wherever the call is. A path finds
    /// `macro` items and the definitions that are exported or imported by a `use`. `AllocError` if
    /// out of memory.
    pub fn define(&mut self, tokens: TokenTreesView<'_, A>) -> Result<(), AllocError>
        ensures defines { OnOk result (Defines (setting_of self.old).language (suc LEVELS) true
            (trees tokens.entry) (state_of self.old).scope (state_of self.new).scope) }
        ensures fuel { OnOk result ((state_of self.new).fuel ≡ (state_of self.old).fuel) }
        ensures contexts { OnOk result ((state_of self.new).contexts
            ≡ (state_of self.old).contexts) }
        ensures setting { OnOk result (setting_of self.new ≡ setting_of self.old) }
        ensures notes { OnOk result (map note_seen self.new.notes.items
            ≡ map note_seen self.old.notes.items
            ++ all_noted (drop (length (state_of self.old).scope.definitions)
            (state_of self.new).scope.definitions)) }
    {
        let first = self.scope.count();
        self.define_root(tokens)?;
        self.note_definitions(first)
    }

    // Notes the errors in the definitions from that number on.
    fn note_definitions(&mut self, first: usize) -> Result<(), AllocError>
        ensures setting { OnOk result (setting_of self.new ≡ setting_of self.old) }
        ensures state { OnOk result (state_of self.new ≡ state_of self.old) }
        ensures notes { OnOk result (map note_seen self.new.notes.items
            ≡ map note_seen self.old.notes.items
            ++ all_noted (drop first (state_of self.old).scope.definitions)) }
    {
        for number in first..self.scope.count() {
            self.note_definition(number)?;
        }
        Ok(())
    }

    /// Reads the definitions of another crate's trees as definitions of that crate, and notes no
    /// errors. From then on, a path that begins with the crate's name finds the definitions that
    /// the crate offers. So does a name that finds no other definition, if no other crate offers
    /// one. `AllocError` if out of memory.
    pub fn define_extern_crate(
        &mut self,
        name: &str,
        tokens: TokenTreesView<'_, A>,
    ) -> Result<(), AllocError>
        ensures defines { OnOk result (DefinesExternCrate (setting_of self.old).language (suc LEVELS)
            name.now (trees tokens.entry) (state_of self.old).scope (state_of self.new).scope) }
        ensures fuel { OnOk result ((state_of self.new).fuel ≡ (state_of self.old).fuel) }
        ensures contexts { OnOk result ((state_of self.new).contexts
            ≡ (state_of self.old).contexts) }
        ensures setting { OnOk result (setting_of self.new ≡ setting_of self.old) }
        ensures notes { OnOk result (self.new.notes.items ≡ self.old.notes.items) }
    {
        let first = self.scope.count();
        let declared = self.scope.declared_count();
        self.define_root(tokens)?;
        self.scope.forget_declared(declared);
        self.scope.close_crate(name, first)
    }

    /// Gives other crates the macros that they re-export. It takes `rounds` rounds, because a
    /// re-exported macro may be re-exported again. `AllocError` if out of memory.
    pub fn link(&mut self, exports: &[Export<A>], rounds: usize) -> Result<(), AllocError>
        ensures linked { OnOk result ((state_of self.new).scope
            ≡ linked rounds (map export_of exports.now) (state_of self.old).scope) }
        ensures fuel { OnOk result ((state_of self.new).fuel ≡ (state_of self.old).fuel) }
        ensures contexts { OnOk result ((state_of self.new).contexts
            ≡ (state_of self.old).contexts) }
        ensures setting { OnOk result (setting_of self.new ≡ setting_of self.old) }
        ensures notes { OnOk result (self.new.notes.items ≡ self.old.notes.items) }
    {
        self.scope.link(exports, rounds)
    }

    // Reads the definitions among the trees of a root.
    fn define_root(&mut self, tokens: TokenTreesView<'_, A>) -> Result<(), AllocError>
        ensures defines { OnOk result (Defines (setting_of self.old).language (suc LEVELS) true
            (trees tokens.entry) (scope_of self.old.scope) (scope_of self.new.scope)) }
        ensures fuel { OnOk result (self.new.fuel ≡ self.old.fuel) }
        ensures contexts { OnOk result (self.new.contexts.items ≡ self.old.contexts.items) }
        ensures setting { OnOk result (setting_of self.new ≡ setting_of self.old) }
        ensures notes { OnOk result (self.new.notes.items ≡ self.old.notes.items) }
    {
        self.define_in(tokens, TreePlace::root(), LEVELS)
    }

    // Reads the definitions among trees. `place` says where the trees are.
    #[cycle(defining)]
    fn define_in(
        &mut self,
        tokens: TokenTreesView<'_, A>,
        place: TreePlace<'_>,
        levels: u32,
    ) -> Result<(), AllocError>
        ensures defines { OnOk result (DefinesIn (setting_of self.old).language (suc levels)
            (place_of place.entry) (trees tokens.entry)
            (scope_of self.old.scope) (scope_of self.new.scope)) }
        ensures fuel { OnOk result (self.new.fuel ≡ self.old.fuel) }
        ensures contexts { OnOk result (self.new.contexts.items ≡ self.old.contexts.items) }
        ensures setting { OnOk result (setting_of self.new ≡ setting_of self.old) }
        ensures notes { OnOk result (self.new.notes.items ≡ self.old.notes.items) }
    {
        let mut rest = tokens;
        let mut attributes = MacroAttributes::none();
        'trees: loop {
            match front_of(rest) {
                FrontItem::End => return Ok(()),
                FrontItem::Definition(defined) => {
                    let _number = self.read_silently(
                        defined,
                        attributes.visibility(place, defined),
                        attributes.parent(place, defined),
                    )?;
                    attributes = attributes.after_definition();
                    rest = defined.rest;
                }
                FrontItem::MacroCall(call) => rest = call.rest,
                FrontItem::Tree(tree, after) => match module_at(rest) {
                    Some(item) => {
                        self.define_module(item, place, attributes.is_used, levels)?;
                        attributes = MacroAttributes::none();
                        rest = item.rest;
                    }
                    None => {
                        attributes = attributes.with_front_attribute(rest).after(&tree);
                        self.define_tree(rest, tree, place, levels)?;
                        rest = after;
                    }
                },
            }
        }
    }

    // Reads the definitions in a module.
    #[cycle(defining)]
    fn define_module(
        &mut self,
        item: ModuleItem<'_, A>,
        place: TreePlace<'_>,
        is_used: bool,
        levels: u32,
    ) -> Result<(), AllocError>
        ensures defines { OnOk result (DefinesModule
            (DefinesIn (setting_of self.old).language levels) (place_of place.entry) is_used
            (module_shown item.entry) (scope_of self.old.scope) (scope_of self.new.scope)) }
        ensures fuel { OnOk result (self.new.fuel ≡ self.old.fuel) }
        ensures contexts { OnOk result (self.new.contexts.items ≡ self.old.contexts.items) }
        ensures setting { OnOk result (setting_of self.new ≡ setting_of self.old) }
        ensures notes { OnOk result (self.new.notes.items ≡ self.old.notes.items) }
    {
        let name = item.name.sym.as_str();
        self.scope.declare_module(name)?;
        self.define_inside(item.inside, place.in_module(name, is_used), levels)
    }

    // Reads the definitions in the tree at the front, and what a `use` there declares.
    #[cycle(defining)]
    fn define_tree(
        &mut self,
        tokens: TokenTreesView<'_, A>,
        tree: TtElement<'_, A>,
        place: TreePlace<'_>,
        levels: u32,
    ) -> Result<(), AllocError>
        ensures defines { OnOk result (DefinesTree
            (DefinesIn (setting_of self.old).language levels) (place_of place.entry)
            (trees tokens.entry) (element_tree tree.entry)
            (scope_of self.old.scope) (scope_of self.new.scope)) }
        ensures fuel { OnOk result (self.new.fuel ≡ self.old.fuel) }
        ensures contexts { OnOk result (self.new.contexts.items ≡ self.old.contexts.items) }
        ensures setting { OnOk result (setting_of self.new ≡ setting_of self.old) }
        ensures notes { OnOk result (self.new.notes.items ≡ self.old.notes.items) }
    {
        let TtElement::Subtree(_group, inside) = tree else {
            let names = names_of_use(self.alloc, tokens)?;
            return self.scope.declare_all(names);
        };
        self.define_inside(inside.remaining(), place.in_group(), levels)
    }

    // Reads the definitions in a group, unless it is nested too deep.
    #[cycle(defining)]
    fn define_inside(
        &mut self,
        tokens: TokenTreesView<'_, A>,
        place: TreePlace<'_>,
        levels: u32,
    ) -> Result<(), AllocError>
        ensures defines { OnOk result (DefinesIn (setting_of self.old).language levels
            (place_of place.entry) (trees tokens.entry)
            (scope_of self.old.scope) (scope_of self.new.scope)) }
        ensures fuel { OnOk result (self.new.fuel ≡ self.old.fuel) }
        ensures contexts { OnOk result (self.new.contexts.items ≡ self.old.contexts.items) }
        ensures setting { OnOk result (setting_of self.new ≡ setting_of self.old) }
        ensures notes { OnOk result (self.new.notes.items ≡ self.old.notes.items) }
    {
        if levels == 0 {
            return Ok(());
        }
        self.define_in(tokens, place, levels - 1)
    }
}
