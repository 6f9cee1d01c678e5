// Reports calls of macros that certainly don't exist, and names the macro with the most similar
// name. The words are rustc's: "cannot find macro `name` in this scope".
ghost use Rattle.std.specs.Prelude.{◌≡◌, OnOk};
ghost use Rattle.mbe_session.specs.SessionViews.{setting_of, state_of};

use crate::file_expander::FileExpander;
use crate::notes::Level;
use mbe_diagnostics::lints::similar_specifier::similar_name;
use mbe_rewriter::macro_items::MacroCall;
use mbe_tt::span::Span;
use std::alloc::{AllocError, Allocator, Global};

// The macros of the standard library that need no `use`, beside those that calls are resolved by.
const RARE_MACROS: &[&str] = &[
    "autodiff",
    "cfg_match",
    "cfg_select",
    "concat_bytes",
    "concat_idents",
    "const_format_args",
    "deref",
    "format_args_nl",
    "global_asm",
    "log_syntax",
    "macro_rules",
    "pattern_type",
    "trace_macros",
    "type_ascribe",
    "unsafe_binder",
];

// The macros of the standard library that may be meant by a similar name.
const PRELUDE_MACROS: &[&str] = &[
    "assert",
    "assert_eq",
    "assert_ne",
    "cfg",
    "column",
    "compile_error",
    "concat",
    "dbg",
    "debug_assert",
    "debug_assert_eq",
    "debug_assert_ne",
    "env",
    "eprint",
    "eprintln",
    "file",
    "format",
    "format_args",
    "include",
    "include_bytes",
    "include_str",
    "line",
    "matches",
    "module_path",
    "option_env",
    "panic",
    "print",
    "println",
    "stringify",
    "thread_local",
    "todo",
    "unimplemented",
    "unreachable",
    "vec",
    "write",
    "writeln",
];

// For how many calls a similar name is looked for. A search compares all names in scope.
const MOST_COMPARED: usize = 100;

// A macro with a similar name, in messages.
#[derive(Drop)]
struct SimilarMacro<A: Allocator = Global> {
    help: String<A>,
    // The message at its definition.
    there: String<A>,
    // The span of its definition, if a file defines it.
    place: Option<Span>,
}

impl<A: Allocator + Copy> FileExpander<'_, A> {
    // Whether no macro has the name of a call that resolves to none.
    fn is_certainly_unknown(&self, call: MacroCall<'_, A>) -> bool {
        let name = call.name.sym.as_str();
        let is_other = RARE_MACROS.contains(&name) || name.ends_with("_feature_detected");
        self.settings.is_closed
            && self.settings.depth > 1
            && !self.fuel.with_call_spent().is_spent()
            && !is_other
            && !self.scope.may_be_named(name)
    }

    // Notes that no macro has the name of a call, if that is certain.
    pub(crate) fn note_unknown(&mut self, call: MacroCall<'_, A>) -> Result<(), AllocError>
        ensures setting { OnOk result (setting_of self.new ≡ setting_of self.old) }
        ensures state { OnOk result (state_of self.new ≡ state_of self.old) }
    {
        if call.is_path || !self.is_certainly_unknown(call) {
            return Ok(());
        }
        let name = call.name.sym.as_str();
        let message = format!(in self.alloc; "cannot find macro `{name}` in this scope")?;
        self.note(Level::Error, call.name.span, message)?;
        if self.counts.unknown > MOST_COMPARED {
            return Ok(());
        }
        self.note_similar(call)
    }
    // Returns the macro whose name is most similar to that of a call, if one is similar.
    fn similar_macro(&self, call: MacroCall<'_, A>) -> Result<Option<SimilarMacro<A>>, AllocError> {
        let names = self.scope.macro_names(PRELUDE_MACROS)?;
        match similar_name(self.alloc, call.name.sym.as_str(), names.as_slice())? {
            Some(name) => Ok(Some(SimilarMacro {
                help: format!(in self.alloc; "a macro with a similar name exists: `{name}`")?,
                there: format!(in self.alloc; "similarly named macro `{name}` defined here")?,
                place: self.scope.place_of_name(name),
            })),
            None => Ok(None),
        }
    }

    // Notes the macro whose name is most similar to that of a call, if one is similar.
    fn note_similar(&mut self, call: MacroCall<'_, A>) -> Result<(), AllocError>
        ensures setting { OnOk result (setting_of self.new ≡ setting_of self.old) }
        ensures state { OnOk result (state_of self.new ≡ state_of self.old) }
    {
        let Some(similar) = self.similar_macro(call)? else {
            return Ok(());
        };
        let SimilarMacro { help, there, place } = similar;
        self.note_child(Level::Help, call.name.span, help)?;
        match place {
            Some(place) => self.note_child(Level::Note, place, there),
            None => Ok(()),
        }
    }
}
