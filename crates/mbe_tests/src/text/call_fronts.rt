// Calls, definitions and attributes at the front of trees.
use crate::text::conversions::read;
use mbe_rewriter::macro_items::{
    DefinitionForm, FrontItem, attribute_at, begins_with_operator, front_of, is_standard_macro,
};
use mbe_text::dialect::Dialect;
use std::alloc::{AllocError, Global};
use test_rows::{Fields, RowTest, rows};

// Returns what is at the front: a word for it, the macro's name, and the number of flat tokens
// after it.
fn shown(alloc: Global, front: FrontItem<'_>) -> Result<String, AllocError> {
    match front {
        FrontItem::End => String::from_str(alloc, "end"),
        FrontItem::Tree(_, rest) => format!(in alloc; "tree {}", rest.flat_len()),
        FrontItem::MacroCall(call) => {
            let word = if call.is_path { "path" } else { "call" };
            let name = call.name.sym.as_str();
            let inside = call.argument.flat_len();
            format!(in alloc; "{word} {name} {inside} {}", call.rest.flat_len())
        }
        FrontItem::Definition(defined) => {
            let word = match defined.form {
                DefinitionForm::Rules => "rules",
                DefinitionForm::Body => "body",
                DefinitionForm::Arguments(..) => "arguments",
            };
            let name = defined.name.sym.as_str();
            let inside = defined.rules.flat_len();
            format!(in alloc; "{word} {name} {inside} {}", defined.rest.flat_len())
        }
    }
}

// Each row: a text, and what is at its front, as the Rust Reference says ("Macro Invocation",
// "Macros By Example").
pub const ROWS: &str = rows![
    ("", "end"),
    ("a b", "tree 1"),
    ("a!(b c) d", "call a 2 1"),
    ("a![b]; d", "call a 1 2"),
    ("a! { } d", "call a 0 1"),
    ("a::b!(c)", "path b 1 0"),
    ("::a::b!(c)", "path b 1 0"),
    ("::a!(c)", "path a 1 0"),
    ("a::!(c)", "tree 6"),
    ("a:b!(c)", "tree 6"),
    ("a != (b)", "tree 5"),
    ("if !(a) { }", "tree 6"),
    ("r#if!(a)", "call if 1 0"),
    ("_!(a)", "tree 4"),
    ("a!", "tree 1"),
    ("macro_rules! a { () => {} } b", "rules a 6 1"),
    ("macro_rules! a (() => {}); b", "rules a 6 1"),
    ("macro_rules! a [() => {}] b", "rules a 6 1"),
    ("macro_rules! a { () => {} }; b", "rules a 6 2"),
    ("macro_rules!(a)", "call macro_rules 1 0"),
    ("macro a { (b) => {} } c", "body a 7 1"),
    ("macro a($b:tt) { c d } e", "arguments a 2 1"),
    ("macro a(b);", "tree 5"),
    ("r#macro a { }", "tree 3"),
];

#[derive(Clone, Copy)]
pub struct CallFronts;

impl RowTest for CallFronts {
    fn passes(&self, alloc: Global, [text, want, ..]: Fields) -> Result<bool, AllocError> {
        let tree = read(alloc, Dialect::Sample, text, 0)?;
        Ok(shown(alloc, front_of(tree.iter().remaining()))?.as_str() == want)
    }
}

// Each row: a text, the name of the attribute at its front, and whether an operator is there.
pub const BESIDE: &str = rows![
    ("#[macro_use] mod a", "macro_use", false),
    ("#[derive(A)]", "derive", false),
    ("#![macro_use]", "", false),
    ("#(macro_use)", "", false),
    (". a", "", true),
    ("as u8", "", true),
    ("== a", "", true),
    ("= a", "", false),
    ("; a", "", false),
    ("", "", false),
];

#[derive(Clone, Copy)]
pub struct Beside;

impl RowTest for Beside {
    fn passes(
        &self,
        alloc: Global,
        [text, attribute, is_operator, ..]: Fields,
    ) -> Result<bool, AllocError> {
        let tree = read(alloc, Dialect::Sample, text, 0)?;
        let trees = tree.iter().remaining();
        let is_attribute = attribute_at(trees).unwrap_or("") == attribute;
        Ok(is_attribute && begins_with_operator(trees) == (is_operator == "true"))
    }
}

/// Whether the standard library's macros are known by name.
pub fn are_standard() -> bool {
    is_standard_macro("vec")
        && is_standard_macro("assert_eq")
        && !is_standard_macro("stringify")
        && !is_standard_macro("")
}
