// The names of macros by their tokens: where a macro is called, imported and defined.
use crate::answers::View;
use crate::findings::{DefinitionSite, Extent, Findings};
use crate::tokens::{FileTokens, is_name_text};
use std::alloc::AllocError;

/// The role of a name that equals the name of a macro.
#[derive(Clone, Copy, Drop)]
pub(crate) enum Role {
    /// The name in the definition.
    Definition,
    /// The name in a call, also in a template: `m!`, or `crate::m!`.
    Call,
    /// The name in a call by a path that may be of another crate: `a::m!`.
    OtherCall,
    /// The name in a `use` of this crate.
    Import,
    /// The name in another `use`, or in a definition or a call that may take it for the macro's.
    Unsure,
    /// Another name: of a variable `$m`, a method, or an item.
    Other,
}

// The roles of the names that equal the name of a macro.
#[derive(Clone, Copy, Drop)]
struct RolesSeen {
    is_unsure: bool,
    is_imported: bool,
    is_other: bool,
}

impl RolesSeen {
    fn note(&mut self, role: Role) {
        match role {
            Role::Definition | Role::Call => {}
            Role::OtherCall | Role::Unsure => self.is_unsure = true,
            Role::Import => self.is_imported = true,
            Role::Other => self.is_other = true,
        }
    }
}

// The macros of the standard library that have a name in every file.
const STANDARD: &[&str] = &[
    "assert",
    "assert_eq",
    "assert_ne",
    "cfg",
    "column",
    "compile_error",
    "concat",
    "dbg",
    "debug_assert",
    "debug_assert_eq",
    "debug_assert_ne",
    "env",
    "eprint",
    "eprintln",
    "file",
    "format",
    "format_args",
    "include",
    "include_bytes",
    "include_str",
    "line",
    "macro_rules",
    "matches",
    "module_path",
    "option_env",
    "panic",
    "print",
    "println",
    "stringify",
    "thread_local",
    "todo",
    "unimplemented",
    "unreachable",
    "vec",
    "write",
    "writeln",
];

// The keywords of all editions.
const KEYWORDS: &[&str] = &[
    "_", "abstract", "as", "async", "await", "become", "box", "break", "const", "continue",
    "crate", "do", "dyn", "else", "enum", "extern", "false", "final", "fn", "for", "gen", "if",
    "impl", "in", "let", "loop", "macro", "match", "mod", "move", "mut", "override", "priv", "pub",
    "ref", "return", "self", "Self", "static", "struct", "super", "trait", "true", "try", "type",
    "typeof", "unsafe", "unsized", "use", "virtual", "where", "while", "yield",
];

fn is_standard(name: &str) -> bool {
    STANDARD.iter().any(|known| *known == name)
}

fn is_reserved(name: &str) -> bool {
    KEYWORDS.iter().any(|known| *known == name)
}

// Whether a text may be in a `use`, before the name of a macro.
fn is_of_import(text: &str) -> bool {
    matches!(text, ":" | "," | "{" | "}" | "*") || is_name_text(text)
}

// Whether a path that begins with that name is of this crate.
fn is_own_head(text: &str) -> bool {
    matches!(text, "crate" | "self" | "super")
}

// Whether a module of that name may be in the file of a path.
fn is_file_of(path: &str, module: &str) -> bool {
    let without_end = match path.strip_suffix("/mod.rs") {
        Some(folder) => folder,
        None => path.strip_suffix(".rs").unwrap_or(""),
    };
    match without_end.strip_suffix(module) {
        Some(folder) => folder.ends_with('/'),
        None => false,
    }
}

// Returns the text between the first two backticks of a message.
fn quoted(message: &str) -> &str {
    let after = match message.split_once('`') {
        Some((_, after)) => after,
        None => "",
    };
    match after.split_once('`') {
        Some((name, _)) => name,
        None => "",
    }
}

impl FileTokens<'_> {
    // Whether the name at that index is followed by a `!` that isn't of a `!=`. A keyword isn't
    // called, as in `if !x`, and a definition isn't a call.
    fn is_called(self, at: usize) -> bool {
        let name = self.text_at(at);
        let is_followed = self.text_after(at, 1) == "!" && self.text_after(at, 2) != "=";
        is_followed && name != "macro_rules" && !is_reserved(name)
    }

    // Returns the index of the first name of the path that ends with the name at that index.
    fn path_start(self, at: usize) -> usize {
        let mut start = at;
        for _ in 0..at {
            let is_inner = self.text_before(start, 1) == ":" && self.text_before(start, 2) == ":";
            match start.checked_sub(3) {
                Some(before) if is_inner => start = before,
                Some(_) | None => break,
            }
        }
        start
    }

    // Whether the name at that index is that of a definition. Disabled definitions are no
    // `DefinitionSite`s.
    fn is_after_macro(self, at: usize) -> bool {
        self.text_before(at, 1) == "macro"
            || self.text_before(at, 1) == "!" && self.text_before(at, 2) == "macro_rules"
    }

    // Returns the role of the name in a call.
    fn call_role(self, at: usize) -> Role {
        let start = self.path_start(at);
        if start == at || is_own_head(self.text_at(start)) {
            Role::Call
        } else {
            Role::OtherCall
        }
    }

    // Returns the index of the `use` that the name at that index is in.
    fn import_start(self, at: usize) -> Option<usize> {
        for before in (0..at).rev() {
            let text = self.text_at(before);
            if text == "use" {
                return Some(before);
            }
            if !is_of_import(text) {
                return None;
            }
        }
        None
    }

    // Whether the item that the name at that index is in has an attribute of that name. An item
    // ends with a `}` or a `;`.
    fn has_attribute(self, at: usize, attribute: &str) -> bool {
        for before in (0..at).rev() {
            let text = self.text_at(before);
            if matches!(text, "{" | "}" | ";") {
                return false;
            }
            if text == attribute {
                return true;
            }
        }
        false
    }

    // Returns the role of the name in a `use`.
    fn import_role(self, at: usize, start: usize) -> Role {
        let first = start.saturating_add(1);
        let is_own = first == at || is_own_head(self.text_at(first));
        let is_last = matches!(self.text_after(at, 1), ";" | "," | "}" | "as");
        if is_own && is_last && self.text_before(at, 1) != "as" {
            Role::Import
        } else {
            Role::Unsure
        }
    }
}

impl Findings {
    // Whether a part of file `number` is in a definition or a call.
    fn is_in_macro(&self, number: usize, part: Extent) -> bool {
        self.definition_at(number, part).is_some()
            || self
                .calls
                .iter()
                .any(|it| it.file == number && it.whole.holds(part))
    }

    // Whether a part of file `number` is the name in a definition.
    fn is_defined(&self, number: usize, part: Extent) -> bool {
        self.definitions
            .iter()
            .any(|it| it.file == number && it.name_at.start == part.start)
    }

    // Returns the role of the name at that index of the tokens of file `number`.
    fn role(&self, number: usize, tokens: FileTokens<'_>, at: usize) -> Role {
        let Some(token) = tokens.list.get(at) else {
            return Role::Other;
        };
        if self.is_defined(number, token.extent) {
            return Role::Definition;
        }
        if tokens.text_before(at, 1) == "$" {
            return Role::Other;
        }
        if tokens.is_after_macro(at) {
            return Role::Unsure;
        }
        if tokens.is_called(at) {
            return tokens.call_role(at);
        }
        if let Some(start) = tokens.import_start(at) {
            return tokens.import_role(at, start);
        }
        if tokens.text_before(at, 1) != "." && self.is_in_macro(number, token.extent) {
            return Role::Unsure;
        }
        Role::Other
    }

    /// Adds where a name in file `number` is the macro's: in calls, in imports and, if
    /// `has_definition` is set, in the definition. `AllocError` if out of memory.
    pub(crate) fn add_names(
        &self,
        number: usize,
        name: &str,
        has_definition: bool,
        sites: &mut Vec<Extent>,
    ) -> Result<(), AllocError> {
        let tokens = self.tokens_of(number);
        for (at, token) in tokens.list.iter().enumerate() {
            if tokens.text_at(at) == name {
                let is_added = match self.role(number, tokens, at) {
                    Role::Call | Role::OtherCall | Role::Import => true,
                    Role::Definition => has_definition,
                    Role::Unsure | Role::Other => false,
                };
                if is_added {
                    sites.push(token.extent)?;
                }
            }
        }
        Ok(())
    }

    // Notes the roles of the names in file `number` that equal the name of a macro.
    fn note_roles(&self, number: usize, name: &str, seen: &mut RolesSeen) {
        let tokens = self.tokens_of(number);
        for at in 0..tokens.list.len() {
            if tokens.text_at(at) == name {
                seen.note(self.role(number, tokens, at));
            }
        }
    }

    // Returns the roles of the names in the files of the own crates that equal the name of a macro.
    fn roles_seen(&self, name: &str) -> RolesSeen {
        let mut seen = RolesSeen {
            is_unsure: false,
            is_imported: false,
            is_other: false,
        };
        for number in 0..self.files.len() {
            self.note_roles(number, name, &mut seen);
        }
        seen
    }

    // Whether a file of the own crates has the name, and isn't Rust. Such a file has no tokens.
    fn is_in_unread(&self, name: &str) -> bool {
        for (number, file) in self.files.iter().enumerate() {
            let is_read = !self.tokens_of(number).list.is_empty();
            if file.is_own && !is_read && file.text.as_str().contains(name) {
                return true;
            }
        }
        false
    }

    // Whether other crates may call a macro of this crate.
    fn is_exported(&self, defined: &DefinitionSite) -> bool {
        let tokens = self.tokens_of(defined.file);
        match tokens.name_at(defined.name_at.start) {
            Some(at) => {
                tokens.has_attribute(at, "macro_export")
                    || tokens.text_before(at, 1) == "macro" && tokens.text_before(at, 2) == "pub"
            }
            None => true,
        }
    }

    // Whether no file of the own crates is that of a module of that name.
    fn lacks_file_of(&self, module: &str) -> bool {
        !self.files.iter().any(|file| file.is_own && is_file_of(file.path.as_str(), module))
    }

    // Whether file `number` has a module whose file isn't read, as that of a disabled module.
    fn has_unread_module(&self, number: usize) -> bool {
        let tokens = self.tokens_of(number);
        for at in 0..tokens.list.len() {
            if tokens.text_at(at) == "mod"
                && tokens.text_after(at, 2) == ";"
                && self.lacks_file_of(tokens.text_after(at, 1))
            {
                return true;
            }
        }
        false
    }

    // Whether a call of that name resolves to no macro, or maybe to another one.
    fn is_unresolved(&self, name: &str) -> bool {
        for note in self.notes.iter() {
            let message = note.message.as_str();
            if message.starts_with("cannot ") && quoted(message) == name {
                return true;
            }
        }
        false
    }

    // Returns why the only macro of a name can't be renamed alone: it isn't of this crate, or other
    // crates may call it.
    fn definition_obstacle(&self, name: &str) -> Option<&'static str> {
        let Some(defined) = self.only_definition(name) else {
            return Some("no macro of this crate has the name, or several have");
        };
        match self.files.get(defined.file) {
            Some(file) if file.is_own => {}
            Some(_) | None => return Some("the macro is of another crate"),
        }
        if self.is_exported(defined) {
            return Some("the macro is exported, so other crates may call it");
        }
        None
    }

    /// Returns why the macro of that name can't be renamed; `None` if it can.
    pub(crate) fn macro_obstacle(&self, name: &str) -> Option<&'static str> {
        if let Some(obstacle) = self.definition_obstacle(name) {
            return Some(obstacle);
        }
        if is_standard(name) {
            return Some("a macro of the standard library has the name too");
        }
        if self.is_in_unread(name) {
            return Some("a file of the crate isn't Rust");
        }
        if (0..self.files.len()).any(|number: usize| self.has_unread_module(number)) {
            return Some("the file of a module isn't read");
        }
        if self.is_unresolved(name) {
            return Some("a call of that name resolves to no macro, or maybe to another one");
        }
        let seen = self.roles_seen(name);
        if seen.is_unsure || seen.is_imported && seen.is_other {
            return Some("a path or a token may be the name of the macro, or of something else");
        }
        None
    }

    /// Returns why a macro can't have that name; `None` if it can.
    pub(crate) fn obstacle_to_macro(&self, new: &str) -> Option<&'static str> {
        if !is_name_text(new) || is_reserved(new) {
            return Some("a macro can't have that name");
        }
        if is_standard(new) {
            return Some("a macro of the standard library has that name");
        }
        let is_defined = self.definitions.iter().any(|it| it.name.as_str() == new);
        if is_defined || self.is_in_unread(new) || self.has_token(new) {
            return Some("the crate uses that name already");
        }
        None
    }

    // Whether a file of the own crates has a token with that text.
    fn has_token(&self, text: &str) -> bool {
        self.tokens
            .iter()
            .any(|token| self.excerpt(token.file, token.extent) == text)
    }
}

impl<'a> View<'a> {
    /// Returns the name of a macro that a cursor at a byte is on, and where it is: in a definition,
    /// in a call, or in a template.
    pub(crate) fn macro_at(self, byte: usize) -> Option<(&'a str, Extent)> {
        let number = self.found.number;
        let tokens = self.found.tokens_of(number);
        let at = tokens.name_at(byte)?;
        let extent = tokens.list.get(at)?.extent;
        match self.found.role(number, tokens, at) {
            Role::Definition | Role::Call | Role::OtherCall => Some((tokens.text_at(at), extent)),
            Role::Import | Role::Unsure | Role::Other => None,
        }
    }
}
