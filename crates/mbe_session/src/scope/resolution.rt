// Resolution: which definition a call means.
//
// Modules aren't resolved in full. A call resolves to a definition only if the call can mean no
// other definition of that name. `doubt` says which other one it may mean.
ghost use Rattle.std.specs.Prelude.{◌≡◌, ◌++◌, IfOk, OnOk, length, map, option_map};
ghost use Rattle.std.specs.List.{list_any};
ghost use Rattle.std.specs.Str.{bytes_eq};
ghost use Rattle.mbe_rewriter.specs.MacroItemViews.{call_shown};
ghost use Rattle.mbe_session.specs.Resolution as spec;
ghost use Rattle.mbe_session.specs.SessionViews.{declared_name_of, scope_of};

use crate::scope::{CrateFilter, Scope, Visibility};
use mbe_rewriter::macro_items::{MacroCall, is_standard_macro};
use mbe_tt::span::Span;
use std::alloc::{AllocError, Allocator, Global};

/// The macros of the standard library that need no `use`, beside those whose arguments are made of
/// expressions.
const BUILTIN_MACROS: &[&str] = &[
    "cfg",
    "column",
    "compile_error",
    "concat",
    "env",
    "file",
    "include",
    "include_bytes",
    "include_str",
    "is_aarch64_feature_detected",
    "is_x86_feature_detected",
    "line",
    "module_path",
    "option_env",
    "stringify",
    "try",
];

/// A name that a module or a `use` declares.
#[derive(Drop)]
pub struct DeclaredName<A: Allocator = Global> {
    // `mod` for the first module of a name. For a `use`, the first name of its path. Nothing, if
    // the name means something else there: after `as`, and for a second module of a name.
    first: String<A>,
    name: String<A>,
}

impl<A: Allocator> DeclaredName<A> {
    // Whether it is the module of that name.
    fn is_module(&self, name: &str) -> bool
        ensures { result ≡ spec.is_module_name name.now (declared_name_of self.now) }
    {
        self.first.as_str() == "mod" && self.name.as_str() == name
    }

    // Whether a `use` declares that name.
    fn is_used(&self, name: &str) -> bool
        ensures { result ≡ spec.is_used_name name.now (declared_name_of self.now) }
    {
        self.first.as_str() != "mod" && self.name.as_str() == name
    }

    // Whether a `use` whose path doesn't begin with the name declares it.
    fn is_alias(&self, name: &str) -> bool
        ensures { result ≡ spec.is_alias_name name.now (declared_name_of self.now) }
    {
        self.is_used(name) && self.first.as_str() != name
    }

    // Whether a `use` declares that name for something of another name.
    fn is_renamed(&self, name: &str) -> bool
        ensures { result ≡ spec.is_renamed_name name.now (declared_name_of self.now) }
    {
        self.first.as_str() == "" && self.name.as_str() == name
    }
}

// Whether one of them is the module of that name.
fn is_any_module<A: Allocator>(declared: &[DeclaredName<A>], name: &str) -> bool
    ensures { result ≡ list_any (λ d. spec.is_module_name name.now (declared_name_of d))
        declared.now }
{
    declared.iter().any(|one| one.is_module(name))
}

// Whether a module has that name.
fn has_module<A: Allocator>(declared: &[DeclaredName<A>], name: &str) -> bool
    ensures { result ≡ spec.has_module (map declared_name_of declared.now) name.now }
{
    is_any_module(declared, name)
}

// Whether a `use` among these declares that name.
fn is_any_use<A: Allocator>(declared: &[DeclaredName<A>], name: &str) -> bool
    ensures { result ≡ list_any (λ d. spec.is_used_name name.now (declared_name_of d))
        declared.now }
{
    declared.iter().any(|one| one.is_used(name))
}

// Whether a `use` declares that name.
fn has_use<A: Allocator>(declared: &[DeclaredName<A>], name: &str) -> bool
    ensures { result ≡ spec.has_use (map declared_name_of declared.now) name.now }
{
    is_any_use(declared, name)
}

// Whether a `use` among these whose path doesn't begin with the name declares it.
fn is_any_alias<A: Allocator>(declared: &[DeclaredName<A>], name: &str) -> bool
    ensures { result ≡ list_any (λ d. spec.is_alias_name name.now (declared_name_of d))
        declared.now }
{
    declared.iter().any(|one| one.is_alias(name))
}

// Whether a `use` whose path doesn't begin with the name declares it.
fn has_alias<A: Allocator>(declared: &[DeclaredName<A>], name: &str) -> bool
    ensures { result ≡ spec.has_alias (map declared_name_of declared.now) name.now }
{
    is_any_alias(declared, name)
}

// Whether a `use` among these declares that name for something of another name.
fn is_any_renamed<A: Allocator>(declared: &[DeclaredName<A>], name: &str) -> bool
    ensures { result ≡ list_any (λ d. spec.is_renamed_name name.now (declared_name_of d))
        declared.now }
{
    declared.iter().any(|one| one.is_renamed(name))
}

// Whether a `use` declares that name for something of another name.
fn has_renamed<A: Allocator>(declared: &[DeclaredName<A>], name: &str) -> bool
    ensures { result ≡ spec.has_renamed (map declared_name_of declared.now) name.now }
{
    is_any_renamed(declared, name)
}

// Whether a path that begins with that name is one of these files' crate.
fn is_own_name<A: Allocator>(declared: &[DeclaredName<A>], first: &str) -> bool
    ensures { result ≡ spec.is_own_name first.now (map declared_name_of declared.now) }
{
    is_path_keyword(first) || has_module(declared, first)
}

// Whether a path begins at the module of the call, or at the one around it, by that name.
fn is_relative(first: &str) -> bool
    ensures { result ≡ spec.is_relative first.now }
{
    first == "self" || first == "super"
}

// Whether a path begins at the root of its own crate by that name. A template of the crate may name
// the root `$crate`.
fn is_root_name(first: &str) -> bool
    ensures { result ≡ spec.is_root_name first.now }
{
    first == "crate" || first == "$crate"
}

// Whether a path begins at a module of its own crate by that name.
fn is_path_keyword(first: &str) -> bool
    ensures { result ≡ spec.is_path_keyword first.now }
{
    is_root_name(first) || is_relative(first)
}

// Whether that `use` declares the name as something that may not be one of these files'.
fn is_foreign_use<A: Allocator>(
    declared: &[DeclaredName<A>],
    name: &str,
    one: &DeclaredName<A>,
) -> bool
    ensures { result ≡ spec.is_foreign_use name.now (map declared_name_of declared.now)
        (declared_name_of one.now) }
{
    one.is_used(name) && !is_own_name(declared, one.first.as_str())
}

// Whether one of them declares the name as something that may not be one of these files'.
fn is_any_foreign<A: Allocator>(declared: &[DeclaredName<A>], name: &str) -> bool
    ensures { result ≡ list_any (λ d. spec.is_foreign_use name.now
        (map declared_name_of declared.now) (declared_name_of d)) declared.now }
{
    declared
        .iter()
        .any(|one| is_foreign_use(declared, name, one))
}

// Whether a `use` declares the name as something that may not be one of these files'.
fn is_foreign<A: Allocator>(declared: &[DeclaredName<A>], name: &str) -> bool
    ensures { result ≡ spec.is_foreign (map declared_name_of declared.now) name.now }
{
    is_any_foreign(declared, name)
}

// Whether the text is one of these.
fn is_text_of(text: &str, texts: &[&str]) -> bool
    ensures { result ≡ list_any (λ t. bytes_eq text.now t.now) texts.now }
{
    texts.iter().any(|t| text == *t)
}

// Whether a macro of the standard library has that name without a `use`.
pub(crate) fn is_prelude_macro(name: &str) -> bool
    ensures { result ≡ spec.is_prelude_macro name.now }
{
    is_standard_macro(name) || is_text_of(name, BUILTIN_MACROS)
}

/// Why a call whose name some definition has resolves to none.
#[derive(Clone, Copy, Drop)]
pub enum Doubt {
    /// The definition with this name isn't in scope.
    OutOfScope(Span),
    /// The definition with this name may be meant, or another one: the one there, or one of none of
    /// these files.
    Unsure(Span, Option<Span>),
}

impl<A: Allocator + Copy> Scope<A> {
    // Returns the number of the only definition of that name that paths find.
    fn sole_own(&self, name: &str) -> Option<usize>
        ensures { result ≡ spec.sole_own (scope_of self.now) name.now }
    {
        let number = self.last_found(name, Visibility::Paths, CrateFilter::Own)?;
        match self.last_found(name, Visibility::Paths, CrateFilter::OwnExcept(number)) {
            Some(_) => None,
            None => Some(number),
        }
    }

    // Returns the number of the only one that paths find in modules of that name.
    fn sole_in(&self, parent: &str, name: &str) -> Option<usize>
        ensures { result ≡ spec.sole_in (scope_of self.now) parent.now name.now }
    {
        let number = self.last_found(name, Visibility::Paths, CrateFilter::Module(parent))?;
        let others = CrateFilter::ModuleExcept(parent, number);
        match self.last_found(name, Visibility::Paths, others) {
            Some(_) => None,
            None => Some(number),
        }
    }

    // Whether paths find a definition of that name.
    fn has_own(&self, name: &str) -> bool
        ensures { result ≡ spec.has_own (scope_of self.now) name.now }
    {
        self.last_found(name, Visibility::Paths, CrateFilter::Own)
            .is_some()
    }

    // Whether a `use` may give that name to a macro of another crate.
    fn is_foreign(&self, name: &str) -> bool
        ensures { result ≡ spec.is_foreign (scope_of self.now).declared name.now }
    {
        is_foreign(self.declared.as_slice(), name)
    }

    // Whether a path that begins with that name is one of these files' crate.
    fn is_own_name(&self, first: &str) -> bool
        ensures { result ≡ spec.is_own_name first.now (scope_of self.now).declared }
    {
        is_own_name(self.declared.as_slice(), first)
    }

    // Whether another crate offers a definition of that name.
    fn is_offered(&self, name: &str) -> bool
        ensures { result ≡ spec.is_offered_name (scope_of self.now) name.now }
    {
        self.last_found(name, Visibility::Crates, CrateFilter::Others)
            .is_some()
    }

    // Whether a call may define macros that are found outside of its group.
    fn may_define(&self) -> bool
        ensures { result ≡ spec.may_define (scope_of self.now).declared }
    {
        has_renamed(self.declared.as_slice(), "macro_rules")
    }

    // Whether a name that is in no textual scope may mean what isn't one of these files', or what a
    // call defines.
    fn is_doubtful(&self, name: &str) -> bool
        ensures { result ≡ spec.is_doubtful (scope_of self.now) name.now }
    {
        is_prelude_macro(name)
            || self.is_foreign(name)
            || self.is_offered(name)
            || self.may_define()
    }

    // Whether the definition of that number is the standard library's.
    fn is_standard(&self, number: usize) -> bool
        ensures { result ≡ spec.is_standard (scope_of self.now) number }
    {
        self.is_in_crate("std", number)
            || self.is_in_crate("core", number)
            || self.is_in_crate("alloc", number)
    }

    // Whether a name may mean something else than that definition of another crate. A `use` may
    // give the name to another macro, a call may define one, and the standard library has macros
    // that need no `use`.
    fn is_other(&self, name: &str, number: usize) -> bool
        ensures { result ≡ spec.is_other (scope_of self.now) name.now number }
    {
        has_renamed(self.declared.as_slice(), name)
            || (self.may_define() && !has_use(self.declared.as_slice(), name))
            || (is_prelude_macro(name) && !self.is_standard(number))
    }

    // Resolves a name that no definition of these files has, to the one that another crate offers.
    fn resolve_extern(&self, name: &str) -> Option<usize>
        ensures { result ≡ spec.resolve_extern (scope_of self.now) name.now }
    {
        let number = self.unique_extern(name)?;
        if self.is_other(name, number) {
            None
        } else {
            Some(number)
        }
    }

    // Resolves a name that is in no textual scope: a `use` or a `macro` item gives it. Returns the
    // definition's number.
    fn resolve_import(&self, name: &str) -> Option<usize>
        ensures { result ≡ spec.resolve_import (scope_of self.now) name.now }
    {
        if !self.has_own(name) {
            return self.resolve_extern(name);
        }
        if self.is_doubtful(name) {
            return None;
        }
        self.sole_own(name)
    }

    // Whether a name may mean another macro than that visible definition. A call may define one
    // that shadows it, or the name may be in the expansion of a `macro` item.
    fn is_shadowed(&self, name: &str, number: usize) -> bool
        ensures { result ≡ spec.is_shadowed (scope_of self.now) name.now number }
    {
        has_renamed(self.declared.as_slice(), "macro_use")
            && (is_prelude_macro(name)
                || self.is_offered(name)
                || self
                    .last_found(name, Visibility::Text, CrateFilter::OwnExcept(number))
                    .is_some())
    }

    /// Resolves a plain name. Returns the number of the last visible definition; else of the only
    /// one that a `use` can name; else of the one that another crate offers.
    pub fn resolve_name(&self, name: &str) -> Option<usize>
        ensures { result ≡ spec.resolve_name (scope_of self.now) name.now }
    {
        match self.last_visible(name) {
            Some(number) => {
                if self.is_shadowed(name, number) {
                    None
                } else {
                    Some(number)
                }
            }
            None => self.resolve_import(name),
        }
    }

    // Whether a definition of these files may have that name where a call is, or a `use` gives it.
    fn is_claimed(&self, name: &str) -> bool
        ensures { result ≡ spec.is_claimed (scope_of self.now) name.now }
    {
        self.last_visible(name).is_some()
            || self.has_own(name)
            || has_use(self.declared.as_slice(), name)
    }

    /// Returns whether no definition that was read may have that name where a call is. So a name of
    /// the compiler's is the compiler's macro there.
    pub fn is_unclaimed(&self, name: &str) -> bool
        ensures { result ≡ spec.is_unclaimed (scope_of self.now) name.now }
    {
        !self.is_claimed(name) && !self.is_offered(name)
    }

    // Resolves a name that has no other definition, to the last one in no group of another file.
    fn resolve_elsewhere(&self, file: u32, name: &str) -> Option<usize>
        ensures { result ≡ spec.resolve_elsewhere (scope_of self.now) file name.now }
    {
        if is_prelude_macro(name) || self.is_claimed(name) {
            return None;
        }
        self.last_found(name, Visibility::Files, CrateFilter::OtherFile(file))
    }

    // Resolves a path of two names by the module that the first one names.
    fn resolve_in(&self, first: &str, name: &str) -> Option<usize>
        ensures { result ≡ spec.resolve_in (scope_of self.now) first.now name.now }
    {
        if is_root_name(first) {
            return self.sole_in("", name);
        }
        if has_module(self.declared.as_slice(), first) && !self.is_foreign(first) {
            return self.sole_in(first, name);
        }
        None
    }

    // Resolves a path by its first and its last name, if only one definition can be meant.
    fn resolve_sole(&self, first: &str, name: &str) -> Option<usize>
        ensures { result ≡ spec.resolve_sole (scope_of self.now) first.now name.now }
    {
        if !self.is_own_name(first)
            || self.is_foreign(name)
            || self.is_offered(name)
            || self.may_define()
        {
            return None;
        }
        self.sole_own(name)
    }

    // Whether a module may have a macro of that name by a `use`.
    fn may_import(&self, name: &str) -> bool
        ensures { result ≡ spec.may_import (scope_of self.now).declared name.now }
    {
        has_use(self.declared.as_slice(), name) || has_use(self.declared.as_slice(), "*")
    }

    // Whether a path may reach the only definition of its last name. A path of two names reaches it
    // by a module of the first name or by a `use`, or if the first name is relative.
    fn may_reach(&self, is_pair: bool, first: &str, name: &str) -> bool
        ensures { result ≡ spec.may_reach (scope_of self.now) is_pair first.now name.now }
    {
        !is_pair
            || is_relative(first)
            || self.may_import(name)
            || self.sole_in(first, name).is_some()
    }

    // Resolves a path of these files' crate. `is_pair` says whether it has two names.
    fn resolve_own(&self, is_pair: bool, first: &str, name: &str) -> Option<usize>
        ensures { result ≡ spec.resolve_own (scope_of self.now) is_pair first.now name.now }
    {
        if is_pair && let Some(number) = self.resolve_in(first, name) {
            return Some(number);
        }
        if self.may_reach(is_pair, first, name) {
            self.resolve_sole(first, name)
        } else {
            None
        }
    }

    // Whether the first name of a path may be a module of these files, or something that a `use`
    // names, though a crate has that name. A `use` such as `use log::log;` names a macro.
    fn is_hidden(&self, first: &str, name: &str) -> bool
        ensures { result ≡ spec.is_hidden (scope_of self.now) first.now name.now }
    {
        has_alias(self.declared.as_slice(), first)
            || (has_module(self.declared.as_slice(), first)
                && (self.has_own(name) || has_use(self.declared.as_slice(), name)))
    }

    // Whether a longer path may reach another macro than that definition of another crate, in one
    // of the crate's modules.
    fn has_rival(&self, name: &str, number: usize) -> bool
        ensures { result ≡ spec.has_rival (scope_of self.now) name.now number }
    {
        is_prelude_macro(name)
            || self
                .last_found(name, Visibility::Crates, CrateFilter::ExceptCrateOf(number))
                .is_some()
    }

    // Whether a path that begins with a crate's name may mean something else than that definition
    // of the crate.
    fn is_unclear(&self, call: MacroCall<'_, A>, number: usize) -> bool
        ensures { result ≡ spec.is_unclear (scope_of self.now) (call_shown call.entry) number }
    {
        let (first, name) = (call.first.sym.as_str(), call.name.sym.as_str());
        (!is_global(call) && self.is_hidden(first, name))
            || (!is_pair(call) && self.has_rival(name, number))
    }

    // Resolves the path of a call. Returns the definition's number.
    fn resolve_path(&self, call: MacroCall<'_, A>) -> Option<usize>
        ensures { result ≡ spec.resolve_path (scope_of self.now) (call_shown call.entry) }
    {
        let (first, name) = (call.first.sym.as_str(), call.name.sym.as_str());
        if let Some(number) = self.last_found(name, Visibility::Crates, CrateFilter::Crate(first)) {
            return if self.is_unclear(call, number) {
                None
            } else {
                Some(number)
            };
        }
        if is_global(call) {
            return None;
        }
        self.resolve_own(is_pair(call), first, name)
    }

    // Resolves the name or the path of a call. Returns the definition's number.
    pub(crate) fn resolve(&self, call: MacroCall<'_, A>) -> Option<usize>
        ensures { result ≡ spec.resolve (scope_of self.now) (call_shown call.entry) }
    {
        if call.is_path {
            return self.resolve_path(call);
        }
        let name = call.name.sym.as_str();
        match self.resolve_name(name) {
            Some(number) => Some(number),
            None => self.resolve_elsewhere(call.name.span.file, name),
        }
    }

    // Returns the span of the name of the definition that a lookup finds.
    fn place_found(
        &self,
        name: &str,
        asked: Visibility,
        crate_filter: CrateFilter<'_>,
    ) -> Option<Span> {
        let number = self.last_found(name, asked, crate_filter)?;
        Some(self.definition(number)?.place)
    }

    // Returns the last definition of that name that another crate offers.
    fn unsure_extern(&self, name: &str) -> Option<Doubt> {
        let place = self.place_found(name, Visibility::Crates, CrateFilter::Others)?;
        Some(Doubt::Unsure(place, None))
    }

    // Returns the last definition of that name that paths find, and what else may be meant.
    fn unsure(&self, name: &str) -> Option<Doubt> {
        let Some(number) = self.last_found(name, Visibility::Paths, CrateFilter::Own) else {
            return self.unsure_extern(name);
        };
        let rivals = CrateFilter::OwnExcept(number);
        let rival = match self.place_found(name, Visibility::Paths, rivals) {
            Some(place) => Some(place),
            None => self.place_found(name, Visibility::Crates, CrateFilter::Others),
        };
        Some(Doubt::Unsure(self.definition(number)?.place, rival))
    }

    // Returns why a name that a visible definition has resolves to none.
    fn doubt_of_visible(&self, name: &str) -> Option<Doubt> {
        let number = self.last_visible(name)?;
        let rivals = CrateFilter::OwnExcept(number);
        let rival = self.place_found(name, Visibility::Text, rivals);
        Some(Doubt::Unsure(self.definition(number)?.place, rival))
    }

    // Returns why a plain name resolves to none.
    fn doubt_of_name(&self, name: &str) -> Option<Doubt> {
        if let Some(doubt) = self.doubt_of_visible(name) {
            return Some(doubt);
        }
        let is_prelude = is_prelude_macro(name);
        if is_prelude && !has_use(self.declared.as_slice(), name) {
            return None;
        }
        if let Some(doubt) = self.unsure(name) {
            return Some(doubt);
        }
        if is_prelude {
            return None;
        }
        let place = self.place_found(name, Visibility::Text, CrateFilter::Own)?;
        Some(Doubt::OutOfScope(place))
    }

    // Returns why a path resolves to none, if it may be one of these files'.
    fn doubt_of_path(&self, first: &str, name: &str) -> Option<Doubt> {
        if let Some(place) = self.place_found(name, Visibility::Crates, CrateFilter::Crate(first)) {
            return Some(Doubt::Unsure(place, None));
        }
        if !self.is_own_name(first) && !has_use(self.declared.as_slice(), first) {
            return None;
        }
        self.unsure(name)
    }

    /// Whether a `use` may give that name to a macro, or a call may define one.
    pub(crate) fn may_be_named(&self, name: &str) -> bool {
        has_use(self.declared.as_slice(), name) || self.may_define()
    }

    /// Returns why a call that resolves to no definition does so, if some definition has its name.
    pub fn doubt(&self, call: MacroCall<'_, A>) -> Option<Doubt> {
        let name = call.name.sym.as_str();
        if call.is_path {
            self.doubt_of_path(call.first.sym.as_str(), name)
        } else {
            self.doubt_of_name(name)
        }
    }

    // Adds a name that a `use` or a module declares.
    fn declare(&mut self, first: &str, name: &str) -> Result<(), AllocError>
        ensures declared { OnOk result (scope_of self.new
            ≡ spec.with_declared first.now name.now (scope_of self.old)) }
        ensures edition { OnOk result (self.new.edition ≡ self.old.edition) }
    {
        self.declared.push(DeclaredName {
            first: String::from_str(self.alloc, first)?,
            name: String::from_str(self.alloc, name)?,
        })?;
        Ok(())
    }

    /// Declares a module of that name. `AllocError` if out of memory.
    pub fn declare_module(&mut self, name: &str) -> Result<(), AllocError>
        ensures declared { OnOk result (scope_of self.new
            ≡ spec.with_module name.now (scope_of self.old)) }
        ensures edition { OnOk result (self.new.edition ≡ self.old.edition) }
    {
        if has_module(self.declared.as_slice(), name) {
            self.declare("", name)
        } else {
            self.declare("mod", name)
        }
    }

    /// Declares the names of a `use`. `AllocError` if out of memory.
    pub fn declare_all(&mut self, mut names: Vec<DeclaredName<A>, A>) -> Result<(), AllocError>
        ensures declared { OnOk result (scope_of self.new
            ≡ spec.with_all_declared (map declared_name_of names.items) (scope_of self.old)) }
        ensures edition { OnOk result (self.new.edition ≡ self.old.edition) }
    {
        self.declared.append(&mut names)
    }

    /// Returns the number of names that are declared.
    pub fn declared_count(&self) -> usize
        ensures { result ≡ length (scope_of self.now).declared }
    {
        self.declared.len()
    }

    /// Takes back all but the first `count` names that are declared.
    pub fn forget_declared(&mut self, count: usize)
        ensures left { scope_of self.new ≡ spec.with_first_declared count (scope_of self.old) }
        ensures edition { self.new.edition ≡ self.old.edition }
    {
        self.declared.truncate(count);
    }
}

/// Returns that name, which a `use` declares after the name `first`. `AllocError` if out of memory.
pub fn declared_name<A: Allocator + Copy>(
    alloc: A,
    first: &str,
    name: &str,
) -> Result<DeclaredName<A>, AllocError>
    ensures { IfOk result (λ d. declared_name_of d
        ≡ record { first = first.now; name = name.now }) }
{
    Ok(DeclaredName {
        first: String::from_str(alloc, first)?,
        name: String::from_str(alloc, name)?,
    })
}

// Whether the path of a call begins with `::`.
fn is_global<A: Allocator>(call: MacroCall<'_, A>) -> bool
    ensures { result ≡ spec.is_global (call_shown call.entry) }
{
    call.start.start != call.first.span.start
}

// Whether the path of a call is two names, `a::m!(..)`: its tokens follow each other in one file.
fn is_pair<A: Allocator>(call: MacroCall<'_, A>) -> bool
    ensures { result ≡ spec.is_pair (call_shown call.entry) }
{
    let (first, name) = (call.first.span, call.name.span);
    let opening = call.group.delimiter.opening;
    first.file == name.file
        && opening.file == name.file
        && name.start.saturating_sub(first.end) == 2
        && name.end < opening.start
        && opening.start.saturating_sub(name.end) <= 2
}
