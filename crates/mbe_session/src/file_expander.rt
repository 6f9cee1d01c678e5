// Expands the calls of files and of expansions.
//
// The expander walks the trees from the front. It parses a definition, which is then in scope up to
// the end of the group around it. It replaces a call by its expansion if the call resolves to a
// definition. It expands the calls in the expansion too, up to the limits of the settings. Any
// other tree is unchanged.
//
// Three sorts of calls are unchanged: no file defines the macro, no rule matches, or the call is
// beyond the limits. The last two are errors, and each is noted.
ghost use Rattle.std.specs.Prelude.{◌≡◌, ◌++◌, ◌∷◌, [], IsSome, IfOk, OnOk, length, map};
ghost use Rattle.std.specs.Prelude.{option_map};
ghost use Rattle.std.specs.Prelude.{true, false, unwrap_or};
ghost use Rattle.std.specs.String.{string_bytes};
ghost use Rattle.mbe_tt.specs.Views.View.{trees};
ghost use Rattle.mbe.specs.MacroViews.{macro_of};
ghost use Rattle.mbe_rewriter.specs.MacroItemViews.{call_shown, macro_definition_shown};
ghost use Rattle.mbe_grammar.specs.Tables.Lawful.{grammar_of};
ghost use Rattle.mbe_text.specs.RustText.Printer as text;
ghost use Rattle.mbe_session.specs.Budgets.{full};
ghost use Rattle.mbe_session.specs.CallExpansion.{Allows, Applies, Tries, macro_contexts};
ghost use Rattle.mbe_session.specs.CallExpansion.{settled_in, with_written};
ghost use Rattle.mbe_session.specs.CallExpansion.{called_macro, next_context, with_step_contexts};
ghost use Rattle.mbe_session.specs.CfgFaults as cfg_faults;
ghost use Rattle.mbe_session.specs.Explanation.{note_seen};
ghost use Rattle.mbe_session.specs.Faults as faults;
ghost use Rattle.mbe_session.specs.Scopes.{IsRead, IsReadAs, empty_scope};
ghost use Rattle.mbe_session.specs.Resolution.{contexts_found};
ghost use Rattle.mbe_session.specs.SessionViews.{scope_of, setting_of, state_of};

mod call_chain;
mod call_replacements;
pub mod call_steps;
mod closest_rule;
mod collector;
mod nested_expansion;
mod unknown_macros;
mod unresolved_calls;

use crate::call_counts::CallCounts;
use crate::captures::file_locals::FileLocals;
use crate::notes::{Level, Note};
use crate::scope::{Scope, Visibility};
use crate::settings::{Budget, ExpansionSettings};
use mbe::{DeclarativeMacro, ExpandError, MacroCallStyle, ValueResult};
use mbe_cfg::cfg_options as cfg;
use mbe_cfg::cfg_strip::fault_at;
use mbe_grammar::tables::peg_table::RuleTable;
use mbe_rewriter::hygiene::contexts::{numbered, step_span};
use mbe_rewriter::macro_items::{MacroCall, MacroDefinition};
use mbe_rewriter::punct_spacing::spaced_buffer;
use mbe_rewriter::whole_fragments::fragment_groups::open_fragments;
use mbe_rewriter::whole_fragments::receivers::parenthesize_receivers;
use mbe_text::rust_printer::RustPrinter;
use mbe_tt::grammar::Dialect;
use mbe_tt::span::Span;
use mbe_tt::tt::{Ident, Leaf, Punct, Spacing, TokenTreesView, TopSubtree, TtElement};
use std::alloc::{AllocError, Allocator, Global};

/// The maximum depth of groups and calls in which calls are looked for.
pub const LEVELS: u32 = 1000;

/// Expands the calls of files. Clauses see it by `setting_of` and `state_of`.
#[derive(Drop)]
pub struct FileExpander<'g, A: Allocator + Copy = Global> {
    pub(crate) alloc: A,
    pub(crate) settings: ExpansionSettings,
    pub(crate) grammar: RuleTable<'g>,
    // The conditions under which the `cfg`s in expansions are evaluated.
    pub(crate) conditions: cfg::CfgOptions<'g>,
    scope: Scope<A>,
    // How many calls may still be expanded, and how many tokens these may write.
    fuel: Budget,
    // The context of the macro's token, for each context of a step's tokens. These begin with 1.
    contexts: Vec<u32, A>,
    // The locals and the patterns of the file, and the locals that expansions bind in it.
    pub(crate) locals: FileLocals<A>,
    // The calls whose expansions are in one another, from the file's call on. Those of expansions
    // that are complete may be left at the end.
    callers: Vec<Span, A>,
    counts: CallCounts,
    pub notes: Vec<Note<A>, A>,
}

impl<'g, A: Allocator + Copy> FileExpander<'g, A> {
    /// Knows no macro yet. The `cfg`s in expansions are evaluated under these conditions.
    pub fn new(
        alloc: A,
        grammar: RuleTable<'g>,
        conditions: cfg::CfgOptions<'g>,
        settings: ExpansionSettings,
    ) -> FileExpander<'g, A>
        ensures setting { setting_of result ≡ record {
          grammar = grammar_of grammar.entry;
          conditions = conditions.entry;
          language = record {
            dialect = grammar.entry.dialect;
            edition = settings.edition;
          };
          depth = settings.depth;
        } }
        ensures state { state_of result ≡ record {
          scope = empty_scope;
          fuel = full settings.fuel settings.max_tokens;
          contexts = [];
        } }
    {
        FileExpander {
            alloc,
            settings,
            grammar,
            conditions,
            scope: Scope::new(alloc, settings.edition),
            fuel: Budget::new(settings.fuel, settings.max_tokens),
            contexts: Vec::new(alloc),
            locals: FileLocals::empty(alloc),
            callers: Vec::new(alloc),
            counts: CallCounts::new(),
            notes: Vec::new(alloc),
        }
    }

    /// Returns how many calls were met so far, and how many of them are expanded.
    pub fn counts(&self) -> CallCounts {
        self.counts
    }

    // Adds a note that is no child.
    pub(crate) fn note(
        &mut self,
        level: Level,
        span: Span,
        message: String<A>,
    ) -> Result<(), AllocError>
        ensures setting { OnOk result (setting_of self.new ≡ setting_of self.old) }
        ensures state { OnOk result (state_of self.new ≡ state_of self.old) }
        ensures notes { OnOk result (map note_seen self.new.notes.items
            ≡ map note_seen self.old.notes.items ++ (record {
              level = level;
              place = span;
              text = string_bytes message;
              is_child = false;
            }) ∷ []) }
    {
        self.notes.push(Note {
            level,
            span,
            message,
            is_child: false,
        })?;
        Ok(())
    }

    // Adds a child of the last note that is none.
    pub(crate) fn note_child(
        &mut self,
        level: Level,
        span: Span,
        message: String<A>,
    ) -> Result<(), AllocError>
        ensures setting { OnOk result (setting_of self.new ≡ setting_of self.old) }
        ensures state { OnOk result (state_of self.new ≡ state_of self.old) }
        ensures notes { OnOk result (map note_seen self.new.notes.items
            ≡ map note_seen self.old.notes.items ++ (record {
              level = level;
              place = span;
              text = string_bytes message;
              is_child = true;
            }) ∷ []) }
    {
        self.notes.push(Note {
            level,
            span,
            message,
            is_child: true,
        })?;
        Ok(())
    }

    // Reads a definition, and notes nothing. Paths find it in modules of the name `parent`.
    fn read_silently(
        &mut self,
        defined: MacroDefinition<'_, A>,
        visibility: Visibility,
        parent: &str,
    ) -> Result<usize, AllocError>
        ensures read { OnOk result (IsReadAs (setting_of self.old).language
            (macro_definition_shown defined.entry) visibility parent.now
            (scope_of self.old.scope) (scope_of self.new.scope)) }
        ensures number { IfOk result (λ n. n ≡ length (scope_of self.old.scope).definitions) }
        ensures setting { OnOk result (setting_of self.new ≡ setting_of self.old) }
        ensures fuel { OnOk result (self.new.fuel ≡ self.old.fuel) }
        ensures contexts { OnOk result (self.new.contexts.items ≡ self.old.contexts.items) }
        ensures notes { OnOk result (self.new.notes.items ≡ self.old.notes.items) }
    {
        self.scope
            .read(self.grammar.dialect, defined, visibility, parent)
    }

    // Reads a definition, and notes what is wrong with it.
    fn read(
        &mut self,
        defined: MacroDefinition<'_, A>,
        visibility: Visibility,
    ) -> Result<usize, AllocError>
        ensures read { OnOk result (IsRead (setting_of self.old).language
            (macro_definition_shown defined.entry) visibility
            (scope_of self.old.scope) (scope_of self.new.scope)) }
        ensures number { IfOk result (λ n. n ≡ length (scope_of self.old.scope).definitions) }
        ensures setting { OnOk result (setting_of self.new ≡ setting_of self.old) }
        ensures fuel { OnOk result (self.new.fuel ≡ self.old.fuel) }
        ensures contexts { OnOk result (self.new.contexts.items ≡ self.old.contexts.items) }
    {
        let number = self.read_silently(defined, visibility, "")?;
        self.note_definition(number)?;
        Ok(number)
    }

    // Notes what is wrong with the definition of that number.
    fn note_definition(&mut self, number: usize) -> Result<(), AllocError>
        ensures setting { OnOk result (setting_of self.new ≡ setting_of self.old) }
        ensures state { OnOk result (state_of self.new ≡ state_of self.old) }
        ensures notes { OnOk result (map note_seen self.new.notes.items
            ≡ map note_seen self.old.notes.items
            ++ faults.noted (faults.fault_at (state_of self.old).scope number)) }
    {
        let Some((place, message)) = self.scope.fault(number)? else {
            return Ok(());
        };
        self.note(Level::Error, place, message)
    }

    // Notes what is wrong with the definition of another crate that a call names.
    fn note_refusal(&mut self, call: MacroCall<'_, A>) -> Result<(), AllocError>
        ensures setting { OnOk result (setting_of self.new ≡ setting_of self.old) }
        ensures state { OnOk result (state_of self.new ≡ state_of self.old) }
        ensures notes { OnOk result (map note_seen self.new.notes.items
            ≡ map note_seen self.old.notes.items
            ++ faults.refusal (state_of self.old).scope (call_shown call.entry)) }
    {
        let Some((place, message)) = self.scope.fault_of_call(call)? else {
            return Ok(());
        };
        self.note_refused(call, place, message)
    }

    // Notes at a call what is wrong with the definition of its macro.
    fn note_refused(
        &mut self,
        call: MacroCall<'_, A>,
        place: Span,
        message: String<A>,
    ) -> Result<(), AllocError>
        ensures setting { OnOk result (setting_of self.new ≡ setting_of self.old) }
        ensures state { OnOk result (state_of self.new ≡ state_of self.old) }
        ensures notes { OnOk result (map note_seen self.new.notes.items
            ≡ map note_seen self.old.notes.items
            ++ faults.error_at (call_shown call.entry).name.span (string_bytes message)
            ∷ faults.defined_at place (call_shown call.entry).name.sym ∷ []) }
    {
        self.note(Level::Error, call.name.span, message)?;
        self.note_defined_at(call, place)
    }

    // Notes where the macro of a call is defined, as a child.
    fn note_defined_at(&mut self, call: MacroCall<'_, A>, place: Span) -> Result<(), AllocError>
        ensures setting { OnOk result (setting_of self.new ≡ setting_of self.old) }
        ensures state { OnOk result (state_of self.new ≡ state_of self.old) }
        ensures notes { OnOk result (map note_seen self.new.notes.items
            ≡ map note_seen self.old.notes.items
            ++ faults.defined_at place (call_shown call.entry).name.sym ∷ []) }
    {
        let name = call.name.sym.as_str();
        let there = format!(in self.alloc; "`{name}!` is defined here")?;
        self.note_child(Level::Note, place, there)
    }

    // The rules of the macro that a call names.
    pub(crate) fn rules<'s>(&'s self, call: MacroCall<'_, A>) -> Option<&'s DeclarativeMacro<A>>
        ensures { option_map (λ m. macro_of m.now) result
            ≡ called_macro (state_of self.now) (call_shown call.entry) }
    {
        self.scope.find(call)
    }

    // The contexts of the tokens of the macro that a call names.
    fn macro_contexts<'s>(&'s self, call: MacroCall<'_, A>) -> &'s [u32]
        ensures { result.now ≡ macro_contexts (state_of self.now) (call_shown call.entry) }
    {
        contexts_of(&self.scope, call)
    }

    // The context of a step that comes next.
    fn next_context(&self) -> u32
        ensures { result ≡ next_context (state_of self.now) }
    {
        numbered(self.contexts.len() + 1)
    }

    // The step of a call has its contexts.
    fn add_contexts(&mut self, call: MacroCall<'_, A>) -> Result<(), AllocError>
        ensures state { OnOk result (state_of self.new
            ≡ with_step_contexts (call_shown call.entry) (state_of self.old)) }
        ensures setting { OnOk result (setting_of self.new ≡ setting_of self.old) }
    {
        push_contexts(&mut self.contexts, &self.scope, call)
    }

    // Notes the limit of which a call of a file asked for more, if it did.
    fn note_spent(&mut self, call: MacroCall<'_, A>) -> Result<(), AllocError>
        ensures state { OnOk result (state_of self.new ≡ state_of self.old) }
        ensures setting { OnOk result (setting_of self.new ≡ setting_of self.old) }
    {
        if !self.fuel.is_spent() {
            return Ok(());
        }
        let (limit, what) = match self.fuel.calls {
            0 => (self.settings.fuel, "calls"),
            _ => (self.settings.max_tokens, "tokens"),
        };
        let name = call.name.sym.as_str();
        let message = format!(in self.alloc;
            "limit of {limit} {what} reached while expanding `{name}!`"
        )?;
        self.note(Level::Error, call.name.span, message)
    }

    // The tokens of an expansion are written.
    fn spend_tokens(&mut self, tree: &TopSubtree<A>)
        ensures state { state_of self.new ≡ with_written tree.now (state_of self.old) }
        ensures setting { setting_of self.new ≡ setting_of self.old }
        ensures notes { self.new.notes.items ≡ self.old.notes.items }
    {
        let count = tree.iter().remaining().flat_len();
        self.fuel = self.fuel.with_tokens_spent(count as u64);
    }

    // Returns whether the limits allow one more call of that name. If not, an error is noted: at
    // each call for the depth, and at the file's own calls for the others.
    fn may_expand(&mut self, call: MacroCall<'_, A>, depth: u32) -> Result<bool, AllocError>
        ensures allows { IfOk result (Allows depth (state_of self.old) (state_of self.new)) }
        ensures setting { OnOk result (setting_of self.new ≡ setting_of self.old) }
    {
        let name = call.name.sym.as_str();
        if depth == 0 {
            // `--once` has this limit, and is no error.
            if self.settings.depth > 1 {
                self.counts.add_call();
                let limit = self.settings.depth;
                let message = format!(in self.alloc;
                    "recursion limit of {limit} reached while expanding `{name}!`"
                )?;
                self.note(Level::Error, call.name.span, message)?;
            }
            return Ok(false);
        }
        self.counts.add_call();
        self.fuel = self.fuel.with_call_spent();
        if self.fuel.is_spent() {
            if depth == self.settings.depth {
                self.note_spent(call)?;
            }
            return Ok(false);
        }
        Ok(true)
    }

    // Notes that a call is in too many groups and calls, if its macro is found.
    fn note_too_deep(&mut self, call: MacroCall<'_, A>) -> Result<(), AllocError>
        ensures setting { OnOk result (setting_of self.new ≡ setting_of self.old) }
        ensures state { OnOk result (state_of self.new ≡ state_of self.old) }
    {
        if self.rules(call).is_none() {
            return Ok(());
        }
        self.note_depth(call.name)
    }

    // Notes that calls in trees are in too many groups and calls, at the first name that may be one
    // of a macro.
    fn note_too_deep_in(&mut self, tokens: TokenTreesView<'_, A>) -> Result<(), AllocError>
        ensures setting { OnOk result (setting_of self.new ≡ setting_of self.old) }
        ensures state { OnOk result (state_of self.new ≡ state_of self.old) }
    {
        match first_called(&self.scope, tokens) {
            Some(name) => self.note_depth(name),
            None => Ok(()),
        }
    }

    fn note_depth(&mut self, name: &Ident<A>) -> Result<(), AllocError>
        ensures setting { OnOk result (setting_of self.new ≡ setting_of self.old) }
        ensures state { OnOk result (state_of self.new ≡ state_of self.old) }
    {
        let called = name.sym.as_str();
        let message = format!(in self.alloc;
            "more than {LEVELS} groups and calls in one another, at `{called}!`"
        )?;
        self.note(Level::Error, name.span, message)
    }

    // Returns the expansion of a call, if its macro is found, a rule matches, and the limits allow
    // it. What is noted of a call in an expansion is followed by the calls that led there.
    fn expansion(
        &mut self,
        call: MacroCall<'_, A>,
        depth: u32,
        levels: u32,
    ) -> Result<Option<TopSubtree<A>>, AllocError>
        ensures tries { IfOk result (Tries (setting_of self.old) (call_shown call.entry)
            levels depth (state_of self.old) (state_of self.new)) }
        ensures setting { OnOk result (setting_of self.new ≡ setting_of self.old) }
    {
        let mark = self.notes.len();
        let expansion = self.single_step(call, depth, levels)?;
        self.note_callers(mark, depth)?;
        self.enter_call(call, depth, expansion.is_some())?;
        Ok(expansion)
    }

    // Returns the expansion of a call, and notes what is wrong with the call alone.
    fn single_step(
        &mut self,
        call: MacroCall<'_, A>,
        depth: u32,
        levels: u32,
    ) -> Result<Option<TopSubtree<A>>, AllocError>
        ensures tries { IfOk result (Tries (setting_of self.old) (call_shown call.entry)
            levels depth (state_of self.old) (state_of self.new)) }
        ensures setting { OnOk result (setting_of self.new ≡ setting_of self.old) }
    {
        if levels == 0 {
            self.note_too_deep(call)?;
            return Ok(None);
        }
        if self.rules(call).is_none() {
            self.note_unresolved(call)?;
            return Ok(None);
        }
        if !self.may_expand(call, depth)? {
            return Ok(None);
        }
        self.apply_rules(call)
    }

    // Notes the fault of the first attribute at the front of these trees of an expansion.
    fn note_attribute(&mut self, tokens: TokenTreesView<'_, A>) -> Result<(), AllocError>
        ensures setting { OnOk result (setting_of self.new ≡ setting_of self.old) }
        ensures state { OnOk result (state_of self.new ≡ state_of self.old) }
        ensures notes { OnOk result (map note_seen self.new.notes.items
            ≡ map note_seen self.old.notes.items
            ++ cfg_faults.attribute_noted (setting_of self.old).conditions (trees tokens.entry)) }
    {
        let Some(fault) = fault_at(&self.conditions, tokens) else {
            return Ok(());
        };
        let message = String::from_str(self.alloc, fault.fault_kind.message())?;
        self.note(Level::Error, fault.at, message)
    }

    // Returns the expansion of a call by the rules of its macro. It is `None`, and an error is
    // noted, if the definition has a fault or no rule matches.
    fn apply_rules(&mut self, call: MacroCall<'_, A>) -> Result<Option<TopSubtree<A>>, AllocError>
        requires found { IsSome (called_macro (state_of self.old) (call_shown call)) }
        ensures applies { IfOk result (Applies (setting_of self.old) (call_shown call.entry)
            (state_of self.old) (state_of self.new)) }
        ensures setting { OnOk result (setting_of self.new ≡ setting_of self.old) }
        ensures refused { OnOk result (faults.is_faulty
            (called_macro (state_of self.old) (call_shown call.entry)) ≡ true
            → map note_seen self.new.notes.items ≡ map note_seen self.old.notes.items
            ++ faults.refusal (state_of self.old).scope (call_shown call.entry)) }
    {
        let Some(rules) = self.rules(call) else {
            return Ok(None);
        };
        if rules.err().is_some() {
            self.note_refusal(call)?;
            return Ok(None);
        }
        let argument = spaced_buffer(self.alloc, call.group.delimiter, call.argument)?;
        let contexts = self.macro_contexts(call);
        let next = self.next_context();
        let ValueResult { value, err } = rules.expand(
            self.alloc,
            &self.grammar,
            &argument,
            move |span: Span| step_span(next, contexts, span),
            MacroCallStyle::FnLike,
            call.name.span,
        )?;
        if let Some(error) = err {
            self.note_no_expansion(call, &argument, &error)?;
            return Ok(None);
        }
        let (written, rule) = value;
        let tree = settled_in(self.alloc, self.grammar.dialect, &written)?;
        self.note_expansion(call, &tree)?;
        self.explain(call, &argument, true)?;
        // An error is the last note, since the calls that led to this one become its children.
        self.note_lengths(call, &argument, rule)?;
        self.add_contexts(call)?;
        self.spend_tokens(&tree);
        Ok(Some(tree))
    }

    // Notes why a call has no expansion, and explains the call if the settings ask for that.
    fn note_no_expansion(
        &mut self,
        call: MacroCall<'_, A>,
        argument: &TopSubtree<A>,
        error: &ExpandError<A>,
    ) -> Result<(), AllocError>
        ensures setting { OnOk result (setting_of self.new ≡ setting_of self.old) }
        ensures state { OnOk result (state_of self.new ≡ state_of self.old) }
    {
        self.note_failure(call, argument, error)?;
        self.note_closest_rule(call, argument)?;
        self.explain(call, argument, false)
    }

    // Adds the notes on an expansion that the settings ask for.
    fn note_expansion(
        &mut self,
        call: MacroCall<'_, A>,
        tree: &TopSubtree<A>,
    ) -> Result<(), AllocError>
        ensures setting { OnOk result (setting_of self.new ≡ setting_of self.old) }
        ensures state { OnOk result (state_of self.new ≡ state_of self.old) }
    {
        self.note_step(call, tree)?;
        self.note_origins(call, tree)?;
        self.note_captures(call, tree)
    }

    // Notes what a call expands to, if steps are traced, in the words of rustc's `trace_macros`.
    fn note_step(&mut self, call: MacroCall<'_, A>, tree: &TopSubtree<A>) -> Result<(), AllocError>
        ensures setting { OnOk result (setting_of self.new ≡ setting_of self.old) }
        ensures state { OnOk result (state_of self.new ≡ state_of self.old) }
    {
        if !self.settings.is_traced {
            return Ok(());
        }
        let name = call.name.sym.as_str();
        let text = text_of(self.alloc, call.argument, 0)?;
        let message = format!(in self.alloc; "expanding `{name}! {{ {text} }}`")?;
        self.note(Level::Note, call.name.span, message)?;
        let text = text_of(self.alloc, tree.iter().remaining(), 0)?;
        let message = format!(in self.alloc; "to `{text}`")?;
        self.note_child(Level::Note, call.name.span, message)
    }
}

// Returns an expansion in the form in which the dialect expands it further.
fn settled_in<A: Allocator + Copy>(
    alloc: A,
    dialect: Dialect,
    tree: &TopSubtree<A>,
) -> Result<TopSubtree<A>, AllocError>
    ensures { IfOk result (λ t. t ≡ settled_in dialect tree.now) }
{
    match dialect {
        Dialect::RustAnalyzer => parenthesize_receivers(alloc, tree),
        Dialect::Rustc => open_fragments(alloc, tree),
    }
}

// The contexts of the tokens of the macro that a call names.
fn contexts_of<'s, A: Allocator + Copy>(scope: &'s Scope<A>, call: MacroCall<'_, A>) -> &'s [u32]
    ensures { result.now ≡ unwrap_or
        (contexts_found (scope_of scope.now) (call_shown call.entry)) [] }
{
    match scope.contexts(call) {
        Some(contexts) => contexts,
        None => &[],
    }
}

// Returns the first name before a `!` that a definition may have.
fn first_called<'t, A: Allocator + Copy>(
    scope: &Scope<A>,
    tokens: TokenTreesView<'t, A>,
) -> Option<&'t Ident<A>> {
    let mut name = None;
    let mut cursor = tokens.cursor();
    for _ in 0..tokens.flat_len() {
        name = match (cursor.token_tree(), name) {
            (Some(TtElement::Leaf(Leaf::Ident(ident))), _) => Some(ident),
            (Some(TtElement::Leaf(Leaf::Punct(punct))), Some(called)) if is_bang(punct) => {
                if !scope.is_unclaimed(called.sym.as_str()) {
                    return Some(called);
                }
                None
            }
            _ => None,
        };
        cursor.bump_or_end();
    }
    None
}

// Whether a punct is a `!` that isn't part of a `!=`.
fn is_bang(punct: &Punct) -> bool {
    punct.char == '!' && punct.spacing == Spacing::Alone
}

fn push_contexts<A: Allocator + Copy>(
    contexts: &mut Vec<u32, A>,
    scope: &Scope<A>,
    call: MacroCall<'_, A>,
) -> Result<(), AllocError>
    ensures { OnOk result (contexts.new.items ≡ contexts.old.items
        ++ unwrap_or (contexts_found (scope_of scope.now) (call_shown call.entry)) []) }
{
    contexts.extend_from_slice(contexts_of(scope, call))
}

// The text of these trees, with so many braces around it.
pub(crate) fn text_of<A: Allocator + Copy>(
    alloc: A,
    tokens: TokenTreesView<'_, A>,
    depth: usize,
) -> Result<String<A>, AllocError>
    ensures { IfOk result (λ s. string_bytes s ≡ text.text_of depth (trees tokens.entry)) }
{
    let mut writer = RustPrinter::new(alloc, depth);
    writer.trees(tokens)?;
    Ok(writer.into_text())
}
