// The scope of macros: the definitions that were read, and which of them a call resolves to.
//
// A plain name resolves to the first of these that exists:
//
// 1. The last definition before it that is visible in the groups around it. The definitions of a
//    `#[macro_use]` module are visible after it.
// 2. The only definition that paths find.
// 3. The definition that another crate offers.
// 4. A definition of another file that is in no group.
//
// A path resolves to the last definition of its name that the crate at its start offers. Any other
// path is relative to these files. It resolves to the definition in the module that it names, or
// else to the only definition that paths find.
//
// A call resolves to none if more than one definition can be meant, and `doubt` says why.
ghost use Rattle.std.specs.Prelude.{◌≡◌, ◌≤◌, ◌<◌, ℕ, ◌&&◌, ◌∷◌, [], length, IfOk, OnOk};
ghost use Rattle.std.specs.Prelude.{option_map, false};
ghost use Rattle.std.specs.String.{string_bytes};
ghost use Rattle.std.specs.List.{list_any, slice_get};
ghost use Rattle.mbe_tt.specs.Views.View.{trees};
ghost use Rattle.mbe.specs.MacroViews.{macro_of};
ghost use Rattle.mbe_rewriter.specs.MacroItemViews.{call_shown, macro_definition_shown};
ghost use Rattle.mbe_rewriter.specs.MacroItemViews.{definition_form_shown};
ghost use Rattle.mbe_ops.specs.Errors.ErrorViews.{parse_error_of};
ghost use Rattle.mbe_session.specs.Faults as faults;
ghost use Rattle.mbe_session.specs.Resolution as resolution;
ghost use Rattle.mbe_session.specs.Scopes as spec;
ghost use Rattle.mbe_semantics.specs.Expansion.ParsedMacro.{IsParsedRules, IsParsedMacro};
ghost use Rattle.mbe_session.specs.Scopes.{IsEdition, IsReadAs, IsReadIn, is_found, is_placed};
ghost use Rattle.mbe_session.specs.Scopes.{is_public_definition, permits};
ghost use Rattle.mbe_session.specs.Scopes.{with_crate, with_shown, with_left};
ghost use Rattle.mbe_session.specs.SessionViews.{crate_filter_shown, definition_of};
ghost use Rattle.mbe_session.specs.SessionViews.{crate_definitions_of, scope_of};
ghost use Rattle.mbe_session.specs.declared.scope.Visibility.TheVariants.{Text};

mod linker;
mod numbered_definitions;
pub(crate) mod resolution;

use crate::imports::names_of_definition;
use mbe::{DeclarativeMacro, ParseError};
use mbe_rewriter::hygiene::contexts::contexts_in;
use mbe_rewriter::macro_items::{DefinitionForm, MacroCall, MacroDefinition};
use mbe_rewriter::whole_fragments::variable_parentheses::{
    parenthesize_rules, parenthesize_template,
};
use mbe_tt::grammar::Dialect;
use mbe_tt::span::{Edition, Span};
use mbe_tt::tt::{Delimiter, TokenTreesView, TopSubtree, TopSubtreeBuilder};
use resolution::DeclaredName;
use std::alloc::{AllocError, Allocator, Global};

/// What a definition is found by.
#[derive(Clone, Copy, Drop)]
pub enum Visibility {
    /// A name after the definition, in its group.
    Text,
    /// The same, or a name in another file, if the name finds no other definition.
    Files,
    /// A name after the definition, in its group, or a path.
    Paths,
    /// The same, or a path that begins with the name of the definition's crate, in another crate.
    Crates,
}

impl Visibility {
    // Whether a lookup of the kind `asked` finds a definition with this reach.
    fn permits(self, asked: Visibility) -> bool
        ensures { result ≡ permits asked self }
    {
        match asked {
            Visibility::Text => true,
            Visibility::Files => matches!(self, Visibility::Files),
            Visibility::Paths => matches!(self, Visibility::Paths | Visibility::Crates),
            Visibility::Crates => matches!(self, Visibility::Crates),
        }
    }
}

/// A macro that a file or an expansion defines.
#[derive(Drop)]
pub struct Definition<A: Allocator = Global> {
    name: String<A>,
    rules: DeclarativeMacro<A>,
    // The syntax contexts of its tokens, each once.
    contexts: Vec<u32, A>,
    // What the definition is found by.
    visibility: Visibility,
    // The name of the module in which paths find it; empty for the root of the crate.
    parent: String<A>,
    // The span of its name.
    place: Span,
}

impl<A: Allocator + Copy> Definition<A> {
    // Returns the span of its name and its error, if it has one.
    fn fault(&self, alloc: A) -> Result<Option<(Span, String<A>)>, AllocError>
        ensures { IfOk result (λ f. option_map (λ x. (x.0, string_bytes x.1)) f
            ≡ faults.fault_of (definition_of self.now)) }
    {
        match self.rules.err() {
            Some(error) => {
                let text = fault_text(alloc, self.name.as_str(), error)?;
                Ok(Some((self.place, text)))
            }
            None => Ok(None),
        }
    }
}

// Returns the message on an error in a macro of that name.
fn fault_text<A: Allocator>(
    alloc: A,
    name: &str,
    error: &ParseError<A>,
) -> Result<String<A>, AllocError>
    ensures { IfOk result (λ text. string_bytes text
        ≡ faults.fault_text name.now (parse_error_of error.now)) }
{
    format!(in alloc; "macro `{name}`: {error}")
}

/// The definitions of another crate, or some of them: a range of numbers.
#[derive(Drop)]
pub struct CrateDefinitions<A: Allocator = Global> {
    name: String<A>,
    // The number of the first definition.
    first: usize,
    // The number of definitions.
    count: usize,
}

impl<A: Allocator> CrateDefinitions<A> {
    // Whether the definition of that number is in the range.
    fn is_within(&self, number: usize) -> bool
        ensures { result ≡ spec.is_within number (crate_definitions_of self.now) }
    {
        self.first <= number && number - self.first < self.count
    }

    // Returns the number after the range, if the crate has that name and the number is greater than
    // `end`, or else `end`.
    fn end_for(&self, name: &str, end: usize, most: usize) -> usize
        ensures from_end { end ≤ result }
        ensures past { (n : ℕ) → result ≤ n → n < most
            → spec.is_named name.now n (crate_definitions_of self.now) ≡ false }
    {
        if self.name.as_str() == name {
            end.max(self.first.saturating_add(self.count))
        } else {
            end
        }
    }

    // Whether the definition is in the range, and the crate has that name.
    fn is_named(&self, name: &str, number: usize) -> bool
        ensures { result ≡ spec.is_named name.now number (crate_definitions_of self.now) }
    {
        self.name.as_str() == name && self.is_within(number)
    }

    // Whether both definitions are in the range.
    fn contains_both(&self, other: usize, number: usize) -> bool
        ensures { result ≡ spec.contains_both other number (crate_definitions_of self.now) }
    {
        self.is_within(other) && self.is_within(number)
    }
}

// Whether the definition of that number belongs to one of these crates.
fn is_in_any_crate<A: Allocator>(crates: &[CrateDefinitions<A>], number: usize) -> bool
    ensures { result ≡ list_any (λ c. spec.is_within number (crate_definitions_of c)) crates.now }
{
    crates.iter().any(|one| one.is_within(number))
}

// Whether the definition of that number belongs to the crate of that name.
fn is_in_crate_named<A: Allocator>(
    crates: &[CrateDefinitions<A>],
    name: &str,
    number: usize,
) -> bool
    ensures { result ≡ list_any (λ c. spec.is_named name.now number (crate_definitions_of c))
        crates.now }
{
    crates.iter().any(|one| one.is_named(name, number))
}

// Returns a number from which on, below `most`, no definition belongs to the crate of that name.
fn end_of_crate<A: Allocator>(crates: &[CrateDefinitions<A>], name: &str, most: usize) -> usize
    ensures { (n : ℕ) → result ≤ n → n < most
        → list_any (λ c. spec.is_named name.now n (crate_definitions_of c)) crates.now ≡ false }
{
    let mut end = 0;
    for one in crates {
        end = one.end_for(name, end, most);
    }
    end
}

// Whether both definitions belong to one of these crates.
fn are_in_same_crate<A: Allocator>(
    crates: &[CrateDefinitions<A>],
    other: usize,
    number: usize,
) -> bool
    ensures { result ≡ list_any (λ c. spec.contains_both other number (crate_definitions_of c))
        crates.now }
{
    crates.iter().any(|one| one.contains_both(other, number))
}

/// Among which definitions a lookup searches.
#[derive(Clone, Copy, Drop)]
enum CrateFilter<'n> {
    /// The definitions that are no other crate's.
    Own,
    /// The same, except the definition with this number.
    OwnExcept(usize),
    /// The definitions of no other crate, in a module of this name.
    Module(&'n str),
    /// The same, except the definition with this number.
    ModuleExcept(&'n str, usize),
    /// The definitions of no other crate that are in another file than this one.
    OtherFile(u32),
    /// The definitions of all other crates.
    Others,
    /// The definitions of the crate of that name.
    Crate(&'n str),
    /// The definitions of other crates, except the crate of the definition with this number.
    ExceptCrateOf(usize),
}

/// The definitions that were read, and the numbers of the visible ones. A definition is visible if
/// it is before this point of the text, in one of the groups around it. Clauses see a scope by
/// `scope_of`.
#[derive(Drop)]
pub struct Scope<A: Allocator + Copy = Global> {
    alloc: A,
    pub edition: Edition,
    definitions: Vec<Definition<A>, A>,
    visible: Vec<usize, A>,
    // The definitions of other crates.
    crates: Vec<CrateDefinitions<A>, A>,
    // The names that modules and `use`s declare, and what definitions do.
    declared: Vec<DeclaredName<A>, A>,
}

// Returns the number at an index, if there is one.
fn number_at(numbers: &[usize], place: usize) -> Option<usize>
    ensures { result ≡ slice_get numbers.now place }
{
    numbers.get(place).copied()
}

/// Returns a buffer of these trees in a group with that delimiter. `AllocError` if out of memory.
pub fn buffer_of<A: Allocator + Copy>(
    alloc: A,
    delimiter: Delimiter,
    tokens: TokenTreesView<'_, A>,
) -> Result<TopSubtree<A>, AllocError>
    ensures { IfOk result (λ tree. tree ≡ (delimiter, trees tokens.entry)) }
{
    let mut builder = TopSubtreeBuilder::new(alloc, delimiter)?;
    builder.extend_with_tt(tokens)?;
    Ok(builder.build())
}

// Reads the rules of a `macro_rules!` definition.
fn read_macro_rules<A: Allocator + Copy>(
    alloc: A,
    edition: Edition,
    body: &TopSubtree<A>,
) -> Result<DeclarativeMacro<A>, AllocError>
    ensures { IfOk result (λ m. IsParsedRules (IsEdition edition) body.now.1 (macro_of m)) }
{
    DeclarativeMacro::parse_macro_rules(alloc, body, |_context| edition)
}

// Reads the rules of a `macro` definition. `arguments` is its pattern, if it has one.
fn read_macro_item<A: Allocator + Copy>(
    alloc: A,
    edition: Edition,
    arguments: Option<TopSubtree<A>>,
    body: &TopSubtree<A>,
) -> Result<DeclarativeMacro<A>, AllocError>
    ensures { IfOk result (λ m. IsParsedMacro (IsEdition edition)
        (option_map (λ t. t.1) arguments) body.now.1 (macro_of m)) }
{
    DeclarativeMacro::parse_macro2(alloc, arguments.as_ref(), body, |_context| edition)
}

// Returns a buffer of the rules of a definition, as they are parsed in the dialect.
fn rules_in<A: Allocator + Copy>(
    alloc: A,
    dialect: Dialect,
    delimiter: Delimiter,
    rules: TokenTreesView<'_, A>,
) -> Result<TopSubtree<A>, AllocError>
    ensures { IfOk result (λ tree. tree ≡ (delimiter, spec.rules_in dialect (trees rules.entry))) }
{
    match dialect {
        Dialect::RustAnalyzer => parenthesize_rules(alloc, delimiter, rules),
        Dialect::Rustc => buffer_of(alloc, delimiter, rules),
    }
}

// Returns a buffer of the template after a pattern, as it is parsed in the dialect.
fn template_in<A: Allocator + Copy>(
    alloc: A,
    dialect: Dialect,
    delimiter: Delimiter,
    pattern: TokenTreesView<'_, A>,
    template: TokenTreesView<'_, A>,
) -> Result<TopSubtree<A>, AllocError>
    ensures { IfOk result (λ tree. tree
        ≡ (delimiter, spec.template_in dialect (trees pattern.entry) (trees template.entry))) }
{
    match dialect {
        Dialect::RustAnalyzer => parenthesize_template(alloc, delimiter, pattern, template),
        Dialect::Rustc => buffer_of(alloc, delimiter, template),
    }
}

// Reads the rules of a definition.
fn rules_of<A: Allocator + Copy>(
    alloc: A,
    dialect: Dialect,
    edition: Edition,
    defined: MacroDefinition<'_, A>,
) -> Result<DeclarativeMacro<A>, AllocError>
    ensures { IfOk result (λ m. IsReadIn (record { dialect = dialect; edition = edition })
        (definition_form_shown defined.entry.form)
        (macro_definition_shown defined.entry) (macro_of m)) }
{
    let (delimiter, rules) = (defined.group.delimiter, defined.rules);
    match defined.form {
        DefinitionForm::Rules => read_macro_rules(
            alloc,
            edition,
            &rules_in(alloc, dialect, delimiter, rules)?,
        ),
        DefinitionForm::Body => read_macro_item(
            alloc,
            edition,
            None,
            &rules_in(alloc, dialect, delimiter, rules)?,
        ),
        DefinitionForm::Arguments(group, pattern) => {
            let body = template_in(alloc, dialect, delimiter, pattern, rules)?;
            let pattern = buffer_of(alloc, group.delimiter, pattern)?;
            read_macro_item(alloc, edition, Some(pattern), &body)
        }
    }
}

impl<A: Allocator + Copy> Scope<A> {
    /// Returns a scope without macros. Definitions are read in that edition.
    pub fn new(alloc: A, edition: Edition) -> Scope<A>
        ensures scope { scope_of result ≡ spec.empty_scope }
        ensures edition { result.edition ≡ edition }
    {
        Scope {
            alloc,
            edition,
            definitions: Vec::new(alloc),
            visible: Vec::new(alloc),
            crates: Vec::new(alloc),
            declared: Vec::new(alloc),
        }
    }

    /// Reads a definition, and returns its number. It isn't visible yet. Paths find it in modules
    /// of the name `parent`, or at the root if that is empty. A macro that may define others
    /// declares that. `AllocError` if out of memory.
    pub fn read(
        &mut self,
        dialect: Dialect,
        defined: MacroDefinition<'_, A>,
        visibility: Visibility,
        parent: &str,
    ) -> Result<usize, AllocError>
        ensures read { OnOk result
            (IsReadAs (record { dialect = dialect; edition = self.old.edition })
            (macro_definition_shown defined.entry) visibility parent.now
            (scope_of self.old) (scope_of self.new)) }
        ensures number { IfOk result (λ n. n ≡ length (scope_of self.old).definitions) }
        ensures edition { OnOk result (self.new.edition ≡ self.old.edition) }
    {
        let rules = rules_of(self.alloc, dialect, self.edition, defined)?;
        let mut declared = names_of_definition(self.alloc, defined.is_item(), defined.rules)?;
        let number = self.definitions.len();
        let name = String::from_str(self.alloc, defined.name.sym.as_str())?;
        self.definitions.push(Definition {
            name,
            rules,
            contexts: contexts_in(self.alloc, defined.rules)?,
            visibility,
            parent: String::from_str(self.alloc, parent)?,
            place: defined.name.span,
        })?;
        self.declared.append(&mut declared)?;
        Ok(number)
    }

    // Returns the definition of that number.
    fn definition(&self, number: usize) -> Option<&Definition<A>>
        ensures { option_map (λ d. definition_of d.now) result
            ≡ spec.definition_at (scope_of self.now) number }
    {
        self.definitions.get(number)
    }

    /// Returns the number of the definition whose name has that span in a file.
    pub fn placed(&self, defined: MacroDefinition<'_, A>) -> Option<usize>
        ensures { result ≡ spec.placed (scope_of self.now)
            (macro_definition_shown defined.entry).name.span }
    {
        let place = defined.name.span;
        let mut left = self.definitions.len();
        'numbers: while left > 0 {
            left -= 1;
            if self.is_placed(left, place) {
                return Some(left);
            }
        }
        None
    }

    // Whether the name of the definition of that number begins there.
    fn is_placed(&self, number: usize, place: Span) -> bool
        ensures { result ≡ is_placed place (spec.definition_at (scope_of self.now) number) }
    {
        match self.definition(number) {
            Some(found) => found.place.file == place.file && found.place.start == place.start,
            None => false,
        }
    }

    // Whether paths find the definition of that number.
    fn is_public(&self, number: usize) -> bool
        ensures { result ≡ is_public_definition (spec.definition_at (scope_of self.now) number) }
    {
        match self.definition(number) {
            Some(found) => found.visibility.permits(Visibility::Paths),
            None => false,
        }
    }

    /// Returns whether paths find the definition whose name has that span in a file.
    pub fn is_placed_by_path(&self, defined: MacroDefinition<'_, A>) -> bool
        ensures { result ≡ spec.is_placed_by_path (scope_of self.now)
            (macro_definition_shown defined.entry).name.span }
    {
        match self.placed(defined) {
            Some(number) => self.is_public(number),
            None => false,
        }
    }

    /// Makes the definition of that number visible from here on. `AllocError` if out of memory.
    pub fn make_visible(&mut self, number: usize) -> Result<(), AllocError>
        ensures shown { OnOk result (scope_of self.new ≡ with_shown number (scope_of self.old)) }
        ensures edition { OnOk result (self.new.edition ≡ self.old.edition) }
    {
        self.visible.push(number)?;
        Ok(())
    }

    /// Enters a group. Returns the mark that `leave` takes at the end of the group.
    pub fn enter(&self) -> usize
        ensures { result ≡ length (scope_of self.now).visible }
    {
        self.visible.len()
    }

    /// Leaves a group: the definitions in it are no longer visible. `mark` is from `enter`.
    pub fn leave(&mut self, mark: usize)
        ensures left { scope_of self.new ≡ with_left mark (scope_of self.old) }
        ensures edition { self.new.edition ≡ self.old.edition }
    {
        self.visible.truncate(mark);
    }

    // Whether the definition of that number has the name, and a lookup of the kind `asked` finds
    // it.
    fn is_found(&self, number: usize, name: &str, asked: Visibility) -> bool
        ensures { result ≡ is_found name.now asked
            (spec.definition_at (scope_of self.now) number) }
    {
        match self.definition(number) {
            Some(found) => found.visibility.permits(asked) && found.name.as_str() == name,
            None => false,
        }
    }

    // Whether the visible definition at an index has the name.
    fn is_visible_as(&self, place: usize, name: &str) -> bool
        ensures { result ≡ is_found name.now Text (spec.visible_at (scope_of self.now) place) }
    {
        match self.visible.get(place) {
            Some(number) => self.is_found(*number, name, Visibility::Text),
            None => false,
        }
    }

    // Whether the definition of that number is another crate's.
    fn is_extern(&self, number: usize) -> bool
        ensures { result ≡ spec.is_extern (scope_of self.now).crates number }
    {
        is_in_any_crate(self.crates.as_slice(), number)
    }

    // Whether the definition of that number belongs to the crate of that name.
    fn is_in_crate(&self, name: &str, number: usize) -> bool
        ensures { result ≡ spec.is_in_crate name.now (scope_of self.now).crates number }
    {
        is_in_crate_named(self.crates.as_slice(), name, number)
    }

    // Whether both definitions belong to one other crate.
    fn is_in_same_crate(&self, other: usize, number: usize) -> bool
        ensures { result ≡ spec.is_in_same_crate other (scope_of self.now).crates number }
    {
        are_in_same_crate(self.crates.as_slice(), other, number)
    }

    // Whether paths find the definition of that number in modules of that name.
    fn is_of_module(&self, parent: &str, number: usize) -> bool
        ensures { result ≡ spec.is_of_module parent.now
            (spec.definition_at (scope_of self.now) number) }
    {
        match self.definition(number) {
            Some(found) => found.parent.as_str() == parent,
            None => false,
        }
    }

    // Whether the definition of that number is in that file.
    fn is_of_file(&self, file: u32, number: usize) -> bool
        ensures { result ≡ spec.is_of_file file (spec.definition_at (scope_of self.now) number) }
    {
        match self.definition(number) {
            Some(found) => found.place.file == file,
            None => false,
        }
    }

    // Whether a lookup searches the definition of that number.
    fn is_admitted(&self, number: usize, crate_filter: CrateFilter<'_>) -> bool
        ensures { result ≡ spec.is_admitted (scope_of self.now)
            (crate_filter_shown crate_filter.entry) number }
    {
        match crate_filter {
            CrateFilter::Own => !self.is_extern(number),
            CrateFilter::OwnExcept(other) => !self.is_extern(number) && number != other,
            CrateFilter::Module(name) => !self.is_extern(number) && self.is_of_module(name, number),
            CrateFilter::ModuleExcept(name, other) => !self.is_extern(number)
                && self.is_of_module(name, number)
                && number != other,
            CrateFilter::OtherFile(file) => !self.is_extern(number)
                && !self.is_of_file(file, number),
            CrateFilter::Others => self.is_extern(number),
            CrateFilter::Crate(name) => self.is_in_crate(name, number),
            CrateFilter::ExceptCrateOf(other) => self.is_extern(number)
                && !self.is_in_same_crate(other, number),
        }
    }

    // Whether the definition of that number is a result of the lookup. The name is compared first,
    // because few definitions have it.
    fn is_eligible(
        &self,
        number: usize,
        name: &str,
        asked: Visibility,
        crate_filter: CrateFilter<'_>,
    ) -> bool
        ensures { result
            ≡ (spec.is_admitted (scope_of self.now) (crate_filter_shown crate_filter.entry) number
            && is_found name.now asked (spec.definition_at (scope_of self.now) number)) }
    {
        self.is_found(number, name, asked) && self.is_admitted(number, crate_filter)
    }

    // Returns a number from which on a lookup searches no definition. The definitions of a crate
    // follow each other, so a lookup in one crate needn't look at the crates after it.
    fn search_end(&self, crate_filter: CrateFilter<'_>) -> usize
        ensures within { result ≤ length (scope_of self.now).definitions }
        ensures past { (n : ℕ) → result ≤ n → n < length (scope_of self.now).definitions
            → spec.is_admitted (scope_of self.now) (crate_filter_shown crate_filter.entry) n
            ≡ false }
    {
        let count = self.definitions.len();
        match crate_filter {
            CrateFilter::Crate(name) => {
                end_of_crate(self.crates.as_slice(), name, count).min(count)
            }
            _ => count,
        }
    }

    // Returns the number of the last definition with that name which the lookup finds.
    fn last_found(
        &self,
        name: &str,
        asked: Visibility,
        crate_filter: CrateFilter<'_>,
    ) -> Option<usize>
        ensures { result ≡ spec.last_found (crate_filter_shown crate_filter.entry)
            (scope_of self.now) asked name.now }
    {
        let mut left = self.search_end(crate_filter);
        'numbers: while left > 0 {
            left -= 1;
            if self.is_eligible(left, name, asked, crate_filter) {
                return Some(left);
            }
        }
        None
    }

    // Returns the number of the definition that another crate offers by that name, if only one
    // crate does.
    fn unique_extern(&self, name: &str) -> Option<usize>
        ensures { result ≡ spec.unique_extern (scope_of self.now) name.now }
    {
        let number = self.last_found(name, Visibility::Crates, CrateFilter::Others)?;
        match self.last_found(name, Visibility::Crates, CrateFilter::ExceptCrateOf(number)) {
            Some(_) => None,
            None => Some(number),
        }
    }

    // Returns the number of the last visible definition of that name.
    fn last_visible(&self, name: &str) -> Option<usize>
        ensures { result ≡ spec.last_visible (scope_of self.now) name.now }
    {
        let mut left = self.visible.len();
        'places: while left > 0 {
            left -= 1;
            if self.is_visible_as(left, name) {
                return number_at(self.visible.as_slice(), left);
            }
        }
        None
    }

    /// Returns the syntax contexts of the tokens of the macro that a call names.
    pub fn contexts<'s>(&'s self, call: MacroCall<'_, A>) -> Option<&'s [u32]>
        ensures { option_map (λ c. c.now) result
            ≡ resolution.contexts_found (scope_of self.now) (call_shown call.entry) }
    {
        let number = self.resolve(call)?;
        Some(self.definition(number)?.contexts.as_slice())
    }

    /// Returns the rules of the macro that a call names.
    pub fn find<'s>(&'s self, call: MacroCall<'_, A>) -> Option<&'s DeclarativeMacro<A>>
        ensures { option_map (λ m. macro_of m.now) result
            ≡ resolution.rules_found (scope_of self.now) (call_shown call.entry) }
    {
        let number = self.resolve(call)?;
        Some(&self.definition(number)?.rules)
    }

    /// Returns the span of the name of the definition of that number and its error, if it has one.
    /// `AllocError` if out of memory.
    pub fn fault(&self, number: usize) -> Result<Option<(Span, String<A>)>, AllocError>
        ensures { IfOk result (λ f. option_map (λ x. (x.0, string_bytes x.1)) f
            ≡ faults.fault_at (scope_of self.now) number) }
    {
        match self.definition(number) {
            Some(found) => found.fault(self.alloc),
            None => Ok(None),
        }
    }

    // Returns the same, if the definition is another crate's.
    fn extern_fault(&self, number: usize) -> Result<Option<(Span, String<A>)>, AllocError>
        ensures { IfOk result (λ f. option_map (λ x. (x.0, string_bytes x.1)) f
            ≡ faults.extern_fault (scope_of self.now) number) }
    {
        if self.is_extern(number) {
            self.fault(number)
        } else {
            Ok(None)
        }
    }

    /// Returns the same for the definition that a call names, if it is another crate's.
    /// `AllocError` if out of memory.
    pub fn fault_of_call(
        &self,
        call: MacroCall<'_, A>,
    ) -> Result<Option<(Span, String<A>)>, AllocError>
        ensures { IfOk result (λ f. option_map (λ x. (x.0, string_bytes x.1)) f
            ≡ faults.fault_of_call (scope_of self.now) (call_shown call.entry)) }
    {
        match self.resolve(call) {
            Some(number) => self.extern_fault(number),
            None => Ok(None),
        }
    }

    /// Returns the span of the name of the definition that a call resolves to.
    pub(crate) fn place_of_macro(&self, call: MacroCall<'_, A>) -> Option<Span> {
        let number = self.resolve(call)?;
        Some(self.definition(number)?.place)
    }

    /// Returns the names of the visible definitions, and then these. `AllocError` if out of memory.
    pub(crate) fn macro_names<'s>(
        &'s self,
        more: &[&'s str],
    ) -> Result<Vec<&'s str, A>, AllocError> {
        let mut names = Vec::new(self.alloc);
        for number in &self.visible {
            if let Some(one) = self.definition(*number) {
                names.push(one.name.as_str())?;
            }
        }
        names.extend_from_slice(more)?;
        Ok(names)
    }

    /// Returns the span of the name of the visible definition of that name.
    pub(crate) fn place_of_name(&self, name: &str) -> Option<Span> {
        let number = self.last_visible(name)?;
        Some(self.definition(number)?.place)
    }

    /// Returns the number of definitions that were read.
    pub fn count(&self) -> usize
        ensures { result ≡ length (scope_of self.now).definitions }
    {
        self.definitions.len()
    }

    /// Gives the definitions from the number `first` on to the crate of that name. `AllocError` if
    /// out of memory.
    pub fn close_crate(&mut self, name: &str, first: usize) -> Result<(), AllocError>
        ensures closed { OnOk result (scope_of self.new
            ≡ with_crate name.now first (scope_of self.old)) }
        ensures edition { OnOk result (self.new.edition ≡ self.old.edition) }
    {
        self.crates.push(CrateDefinitions {
            name: String::from_str(self.alloc, name)?,
            first,
            count: self.definitions.len().saturating_sub(first),
        })?;
        Ok(())
    }
}
