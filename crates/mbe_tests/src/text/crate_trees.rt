// Crates of a few files, and the tree of each.
use crate::text::conversions::{rust, written};
use mbe_cfg::crates::file_lookup::{CrateFile, FileLookupError};
use mbe_cfg::crates::module_inliner::{UnresolvedFile, inline_modules};
use mbe_cfg::files::module_dir::ModuleDir;
use mbe_tt::tt::TopSubtree;
use std::alloc::{AllocError, Global};
use test_rows::{Fields, RowTest, rows};

// Each row: the files of a crate, the root first, each `PATH: TEXT` and a `|` after it; the tree of
// the crate; and its modules without a file.
pub const ROWS: &str = rows![
    ("src/lib.rs: fn f() {}", "fn f() {}", ""),
    (
        "src/lib.rs: mod a;|src/a.rs: fn f() {}",
        "mod a { fn f() {} }",
        "",
    ),
    (
        "src/lib.rs: mod a;|src/a/mod.rs: fn f() {}",
        "mod a { fn f() {} }",
        "",
    ),
    (
        "lib.rs: mod a;|a.rs: #![b] fn f() {}",
        "mod a { #![b] fn f() {} }",
        "",
    ),
    (
        "/lib.rs: mod a;|/a.rs: fn f() {}",
        "mod a { fn f() {} }",
        "",
    ),
    ("src/lib.rs: mod a; m!();", "mod a; m!();", "a missing "),
    (
        "src/lib.rs: mod a;|src/a.rs: b|src/a/mod.rs: c",
        "mod a;",
        "a both ",
    ),
    (
        "src/lib.rs: m!(); #[macro_use] pub(crate) mod a; n!();|src/a.rs: b!();",
        "m!(); #[macro_use] pub(crate) mod a { b!(); } n!();",
        "",
    ),
    (
        "src/lib.rs: mod a;|src/a.rs: mod b;|src/a/b.rs: mod c;|src/a/b/c.rs: d",
        "mod a { mod b { mod c { d } } }",
        "",
    ),
    (
        "src/lib.rs: mod a;|src/a/mod.rs: mod b;|src/a/b.rs: c|src/b.rs: d",
        "mod a { mod b { c } }",
        "",
    ),
    (
        "src/lib.rs: mod a { mod b; mod c { mod d; } }|src/a/b.rs: e|src/a/c/d.rs: f",
        "mod a { mod b { e } mod c { mod d { f } } }",
        "",
    ),
    (
        "src/lib.rs: mod a;|src/a.rs: mod b { mod c; }|src/a/b/c.rs: d",
        "mod a { mod b { mod c { d } } }",
        "",
    ),
    (
        "src/lib.rs: #[path = \"x/y.rs\"] mod a; mod b;|src/x/y.rs: mod c;|src/x/c.rs: d|src/b.rs: e",
        "#[path = \"x/y.rs\"] mod a { mod c { d } } mod b { e }",
        "",
    ),
    (
        "src/lib.rs: mod a;|src/a.rs: #[path = \"b.rs\"] mod c; #[path = r\"d.rs\"] mod e;|src/b.rs: f|src/d.rs: g",
        "mod a { #[path = \"b.rs\"] mod c { f } #[path = r\"d.rs\"] mod e { g } }",
        "",
    ),
    (
        "src/lib.rs: #[path = \"x\"] mod a { mod b; }|src/x/b.rs: c",
        "#[path = \"x\"] mod a { mod b { c } }",
        "",
    ),
    (
        "src/lib.rs: #[path = \"x.rs\"] #[path = \"y.rs\"] mod a;|src/x.rs: b|src/y.rs: c",
        "#[path = \"x.rs\"] #[path = \"y.rs\"] mod a { b }",
        "",
    ),
    (
        "src/lib.rs: #[path = \"x.rs\"] fn f() {} #[path = \"y.rs\"] use g; mod a;|src/a.rs: b",
        "#[path = \"x.rs\"] fn f() {} #[path = \"y.rs\"] use g; mod a { b }",
        "",
    ),
    (
        "src/lib.rs: #[path = \"lib.rs\"] mod a; mod b;|src/b.rs: #[path = \"lib.rs\"] mod c;",
        "#[path = \"lib.rs\"] mod a; mod b { #[path = \"lib.rs\"] mod c; }",
        "a circular c circular ",
    ),
    (
        "src/lib.rs: #[path = \"x.rs\"] mod a; #[path = \"x.rs\"] mod b;|src/x.rs: c",
        "#[path = \"x.rs\"] mod a { c } #[path = \"x.rs\"] mod b { c }",
        "",
    ),
    (
        "src/lib.rs: mod a; b|src/a.rs: \"",
        "mod a; b",
        "a no Rust ",
    ),
    (
        "src/lib.rs: macro_rules! m { () => { mod a; } } m! { mod a; } fn f() { mod a; }|src/a.rs: b",
        "macro_rules! m { () => { mod a; } } m! { mod a; } fn f() { mod a; }",
        "",
    ),
    (
        "src/lib.rs: mod r#fn; r#mod a; mod a|src/fn.rs: b|src/a.rs: c",
        "mod r#fn { b } r#mod a; mod a",
        "",
    ),
    (
        "src/lib.rs: /// Says.\nmod a; /* mod b; */|src/a.rs: //! More.\nfn f() {}|src/b.rs: c",
        "/// Says.\nmod a { //! More.\nfn f() {} }",
        "",
    ),
    (
        "src/lib.rs: mod a; mod b { mod c; }",
        "mod a; mod b { mod c; }",
        "a missing c missing ",
    ),
];

// Returns the text of trees without the white space between them. A module in braces has less of it
// than one that ends in `;`.
fn unspaced(alloc: Global, tree: &TopSubtree) -> Result<String, AllocError> {
    written(alloc, tree)?.replace(alloc, " ", "")
}

// Whether the modules without a file are those, each with its name and what is wrong.
fn is_said(unresolved: &[UnresolvedFile], want: &str) -> bool {
    let mut left = want;
    for found in unresolved {
        let rest = left.strip_prefix(found.name.as_str()).unwrap_or("?");
        left = rest.strip_prefix(word(&found.reason)).unwrap_or("?");
    }
    left.is_empty()
}

fn word(reason: &FileLookupError) -> &'static str {
    match reason {
        FileLookupError::Missing => " missing ",
        FileLookupError::Both => " both ",
        FileLookupError::Circular => " circular ",
        FileLookupError::NoRust => " no Rust ",
    }
}

// Returns the trees of each file of a crate. `None` for a file that isn't Rust.
fn trees_of(alloc: Global, row: &str) -> Result<Vec<Option<TopSubtree>>, AllocError> {
    let mut trees = Vec::new(alloc);
    for file in row.split('|') {
        let (_path, text) = file.split_once(": ").unwrap_or((file, ""));
        trees.push(rust(alloc, text).ok())?;
    }
    Ok(trees)
}

// Returns the file of that number, or one that no module is in.
fn file_at<'f>(row: &'f str, trees: &'f [Option<TopSubtree>], number: usize) -> CrateFile<'f> {
    let file = row.split('|').nth(number).unwrap_or("");
    let trees = match trees.get(number) {
        Some(Some(tree)) => Some(tree.iter().remaining()),
        _ => None,
    };
    CrateFile {
        path: file.split_once(": ").unwrap_or((file, "")).0,
        trees,
    }
}

// Returns the tree of the crate, and its modules without a file.
fn followed(alloc: Global, row: &str) -> Result<(TopSubtree, Vec<UnresolvedFile>), AllocError> {
    let trees = trees_of(alloc, row)?;
    let [Some(root), ..] = trees.as_slice() else {
        return Err(AllocError);
    };
    let files = [
        file_at(row, trees.as_slice(), 0),
        file_at(row, trees.as_slice(), 1),
        file_at(row, trees.as_slice(), 2),
        file_at(row, trees.as_slice(), 3),
    ];
    let place = ModuleDir::in_file(alloc, files[0].path, None)?;
    let mut unresolved = Vec::new(alloc);
    let tree = inline_modules(alloc, &files, &mut unresolved, 0, &place, root)?;
    Ok((tree, unresolved))
}

/// Whether the tree of the crate is that one, and so are its modules without a file.
#[derive(Clone, Copy)]
pub struct CrateTrees;

impl RowTest for CrateTrees {
    fn passes(&self, alloc: Global, [files, want, reason, ..]: Fields) -> Result<bool, AllocError> {
        let (tree, unresolved) = followed(alloc, files)?;
        let want = unspaced(alloc, &rust(alloc, want)?)?;
        Ok(unspaced(alloc, &tree)? == want && is_said(unresolved.as_slice(), reason))
    }
}
