// Completion: fragment specifiers after `$x:`, variables after `$`, metavariable expressions after
// `${`, and names of macros.
use crate::answers::View;
use crate::findings::{Extent, RuleSite};
use crate::shapes::text_edit;
use crate::tokens::FileTokens;
use mbe_protocol::positions::LineTable;
use serde_json::{Value, json};
use std::alloc::{AllocError, Global};

// The fragment specifiers, with what each one matches.
const SPECIFIERS: &[(&str, &str)] = &[
    ("block", "a block: `{ .. }`"),
    ("expr", "an expression"),
    ("expr_2021", "an expression, as `expr` before edition 2024"),
    ("ident", "an identifier or a keyword"),
    ("item", "an item, such as a function"),
    ("lifetime", "a lifetime: `'a`"),
    ("literal", "a literal, or `-` and a literal"),
    ("meta", "the content of an attribute"),
    ("pat", "a pattern"),
    ("pat_param", "a pattern without a `|` at its top"),
    ("path", "a path, as in a type"),
    ("stmt", "a statement, without its `;`"),
    ("tt", "a token, or a group"),
    ("ty", "a type"),
    ("vis", "a visibility, which may be empty"),
];

// The metavariable expressions, with what each one emits.
const EXPRESSIONS: &[(&str, &str)] = &[
    ("concat", "`${concat($x, y)}`: one identifier"),
    ("count", "`${count($x)}`: how often `$x` is repeated"),
    (
        "ignore",
        "`${ignore($x)}`: nothing; the repetition is that of `$x`",
    ),
    (
        "index",
        "`${index()}`: the number of the repetition, from 0",
    ),
    ("len", "`${len()}`: how many repetitions there are"),
];

/// Whether a character may be in a name.
pub(crate) fn is_name(char: char) -> bool {
    char == '_' || char.is_alphanumeric()
}

// What a cursor is after.
#[derive(Clone, Copy, Drop)]
enum Context {
    /// `$x:`, and maybe letters.
    Specifier,
    /// `$`, and maybe letters.
    Variable,
    /// `${`, and maybe letters.
    Expression,
    /// Letters alone.
    Name,
    Other,
}

// Returns what a cursor is after. `front` is the text before it, without the letters of a name that
// end there. `is_begun` says whether there are such letters.
fn context_after(front: &str, is_begun: bool) -> Context {
    if front.ends_with("${") {
        return Context::Expression;
    }
    match front.chars().next_back() {
        Some('$') => Context::Variable,
        Some('.' | '\'') => Context::Other,
        Some(_) | None if is_begun => Context::Name,
        Some(_) | None => Context::Other,
    }
}

// Returns what a cursor at the end of the text is after.
fn context_of(before: &str) -> Context {
    let front = before.trim_end_matches(|char: char| is_name(char));
    let Some(variable) = front.strip_suffix(':') else {
        return context_after(front, front.len() < before.len());
    };
    let rest = variable.trim_end_matches(|char: char| is_name(char));
    if rest.len() < variable.len() && rest.ends_with('$') {
        Context::Specifier
    } else {
        Context::Other
    }
}

/// Whether a text ends with `$x:`, and maybe letters after it.
pub(crate) fn is_specifier(before: &str) -> bool {
    matches!(context_of(before), Context::Specifier)
}

/// Returns what the fragment specifier of that name accepts.
pub(crate) fn specifier_text(name: &str) -> Option<&'static str> {
    for (known, about) in SPECIFIERS {
        if *known == name {
            return Some(*about);
        }
    }
    None
}

/// Whether a metavariable expression has that name.
pub(crate) fn is_expression_name(name: &str) -> bool {
    EXPRESSIONS.iter().any(|one| one.0 == name)
}

// Returns items with these names and details.
fn items_of(alloc: Global, table: &[(&str, &str)]) -> Result<Vec<Value>, AllocError> {
    let mut items = Vec::new(alloc);
    for (name, about) in table {
        items.push(json!(in alloc; {"label": *name, "kind": 14, "detail": *about})?)?;
    }
    Ok(items)
}

// The name that is typed: the bytes of it, and the lines of its document.
#[derive(Clone, Copy, Drop)]
struct Typed<'l> {
    alloc: Global,
    lines: &'l LineTable<'l>,
    extent: Extent,
}

impl Typed<'_> {
    // Returns the item of a variable with that name. The name replaces what is typed after the `$`.
    fn variable(self, name: &str, about: &str) -> Result<Value, AllocError> {
        let edit = text_edit(self.alloc, self.lines, self.extent, name)?;
        let label = format!(in self.alloc; "${name}")?;
        json!(in self.alloc; {
            "label": label, "kind": 6, "detail": about, "filterText": name, "textEdit": edit
        })
    }

    // Adds the items of the variables that these tokens of a pattern bind.
    fn add_variables(
        self,
        pattern: FileTokens<'_>,
        items: &mut Vec<Value>,
    ) -> Result<(), AllocError> {
        for at in 0..pattern.list.len() {
            if pattern.is_binding(at) {
                let (name, about) = (pattern.text_at(at), pattern.text_after(at, 2));
                items.push(self.variable(name, about)?)?;
            }
        }
        Ok(())
    }
}

impl View<'_> {
    // Returns the names of the macros that the files of the crates define, each one once.
    fn macro_names(self) -> Result<Vec<Value>, AllocError> {
        let definitions = self.found.definitions.as_slice();
        let mut items = Vec::new(self.writer.alloc);
        for (at, defined) in definitions.iter().enumerate() {
            let name = defined.name.as_str();
            let before = definitions.get(..at).unwrap_or(&[]);
            if !before.iter().any(|other| other.name.as_str() == name) {
                let label = format!(in self.writer.alloc; "{name}!")?;
                items.push(json!(in self.writer.alloc; {"label": label, "kind": 3})?)?;
            }
        }
        Ok(items)
    }

    // Returns the variables that may be typed at a byte of a rule, after a `$`: those that its
    // pattern binds. None are bound by a part of the pattern.
    fn variables_of(self, rule: RuleSite, byte: usize) -> Result<Vec<Value>, AllocError> {
        let mut items = Vec::new(self.writer.alloc);
        if byte <= rule.pattern.end {
            return Ok(items);
        }
        let before = self.document.text.as_str().get(..byte).unwrap_or("");
        let start = before.trim_end_matches(|char: char| is_name(char)).len();
        let typed = Typed {
            alloc: self.writer.alloc,
            lines: &self.lines()?,
            extent: Extent { start, end: byte },
        };
        let pattern = self.found.tokens_of(self.found.number).within(rule.pattern);
        typed.add_variables(pattern, &mut items)?;
        items.push(typed.variable("crate", "the crate of the macro")?)?;
        Ok(items)
    }

    /// Answers what may be typed at a byte. `AllocError` if out of memory.
    pub fn completion(self, byte: usize) -> Result<Value, AllocError> {
        let alloc = self.writer.alloc;
        let before = self.document.text.as_str().get(..byte).unwrap_or("");
        let items = match (context_of(before), self.rule_at(byte)) {
            (Context::Specifier, _) => items_of(alloc, SPECIFIERS)?,
            (Context::Variable, Some(rule)) => self.variables_of(rule, byte)?,
            (Context::Expression, Some(_)) => items_of(alloc, EXPRESSIONS)?,
            (Context::Name, _) => self.macro_names()?,
            (Context::Variable | Context::Expression, None) | (Context::Other, _) => {
                Vec::new(alloc)
            }
        };
        Ok(Value::Array(items))
    }
}
