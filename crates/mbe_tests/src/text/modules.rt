// Which files hold a module. `tools/module-files.py` asks rustc of the same rows.
use mbe_cfg::files::module_dir::{Candidates, ModuleDir};
use mbe_cfg::files::paths::join;
use std::alloc::{AllocError, Global};
use test_rows::{Fields, RowTest, rows};

// Each row: a folder, the file's own name or nothing, the inline modules around, each `name` or
// `name=path`, and the module in the same form; then the candidates.
pub const ROWS: &str = rows![
    ("src", "", "", "a", "src/a.rs src/a/mod.rs"),
    ("", "", "", "a", "a.rs a/mod.rs"),
    ("/", "", "", "a", "/a.rs /a/mod.rs"),
    ("src", "b", "", "a", "src/b/a.rs src/b/a/mod.rs"),
    ("src/b", "", "", "a", "src/b/a.rs src/b/a/mod.rs"),
    ("src", "", "x", "a", "src/x/a.rs src/x/a/mod.rs"),
    ("src", "", "x y", "a", "src/x/y/a.rs src/x/y/a/mod.rs"),
    ("src", "b", "x y", "a", "src/b/x/y/a.rs src/b/x/y/a/mod.rs"),
    ("src", "", "", "a=foo.rs", "src/foo.rs"),
    ("src", "b", "", "a=foo.rs", "src/foo.rs"),
    ("src", "", "", "a=../foo.rs", "src/../foo.rs"),
    ("src", "", "", "a=/foo.rs", "/foo.rs"),
    ("src", "b", "x", "a=other.rs", "src/b/x/other.rs"),
    ("src/a", "", "x", "a=other.rs", "src/a/x/other.rs"),
    (
        "src",
        "b",
        "x=thread",
        "a",
        "src/thread/a.rs src/thread/a/mod.rs",
    ),
    ("src", "", "x=thread y", "a=tls.rs", "src/thread/y/tls.rs"),
];

// The same, in files that hold modules of other files, each after a `>`.
pub const IN_FILES: &str = rows![
    ("src", "", ">a", "b", "src/a/b.rs src/a/b/mod.rs"),
    ("src", "", ">a >b", "c", "src/a/b/c.rs src/a/b/c/mod.rs"),
    ("src", "", ">a >b", "c=d.rs", "src/a/d.rs"),
    ("src", "", ">a b", "c=d.rs", "src/a/b/d.rs"),
];

// Splits a name from the path that may follow it.
fn parts(text: &str) -> (&str, Option<&str>) {
    match text.split_once('=') {
        Some((name, path)) => (name, Some(path)),
        None => (text, None),
    }
}

// Returns a file's own name, if there is one.
fn own_of(own: &str) -> Option<&str> {
    if own.is_empty() { None } else { Some(own) }
}

fn place_of(alloc: Global, folder: &str, own: &str) -> Result<ModuleDir, AllocError> {
    let own = match own_of(own) {
        None => None,
        Some(own) => Some(String::from_str(alloc, own)?),
    };
    Ok(ModuleDir {
        file_folder: String::new(alloc),
        folder: String::from_str(alloc, folder)?,
        own,
    })
}

fn inside(alloc: Global, place: &ModuleDir, inline: &str) -> Result<ModuleDir, AllocError> {
    if let Some(file) = inline.strip_prefix('>') {
        return place.of_file(alloc, file);
    }
    let (name, path) = parts(inline);
    place.inside(alloc, name, path)
}

// Whether these are the candidates of a module.
fn is_shown(
    alloc: Global,
    place: &ModuleDir,
    module: &str,
    want: &str,
) -> Result<bool, AllocError> {
    let (name, path) = parts(module);
    match place.candidates(alloc, name, path)? {
        Candidates::Included(path) | Candidates::Given(path) => Ok(path.as_str() == want),
        Candidates::Usual(beside, nested) => {
            Ok(want.split_once(' ') == Some((beside.as_str(), nested.as_str())))
        }
    }
}

#[derive(Clone, Copy)]
pub struct Modules;

impl RowTest for Modules {
    fn passes(
        &self,
        alloc: Global,
        [folder, own, around, module, want, ..]: Fields,
    ) -> Result<bool, AllocError> {
        let mut place = place_of(alloc, folder, own)?;
        for inline in around.split_whitespace() {
            place = inside(alloc, &place, inline)?;
        }
        is_shown(alloc, &place, module, want)
    }
}

// Each row: a file that has modules, the file's own name or nothing, and the candidates of `mod a;`
// in it.
pub const FILES: &str = rows![
    ("src/lib.rs", "", "src/a.rs src/a/mod.rs"),
    ("src/b.rs", "b", "src/b/a.rs src/b/a/mod.rs"),
    ("src/b/mod.rs", "", "src/b/a.rs src/b/a/mod.rs"),
    ("lib.rs", "", "a.rs a/mod.rs"),
    ("/lib.rs", "", "/a.rs /a/mod.rs"),
    ("../b.rs", "b", "../b/a.rs ../b/a/mod.rs"),
];

#[derive(Clone, Copy)]
pub struct Files;

impl RowTest for Files {
    fn passes(&self, alloc: Global, [path, own, want, ..]: Fields) -> Result<bool, AllocError> {
        let place = ModuleDir::in_file(alloc, path, own_of(own))?;
        is_shown(alloc, &place, "a", want)
    }
}

/// Whether paths are joined.
pub fn are_joined(alloc: Global) -> Result<bool, AllocError> {
    Ok(join(alloc, "a/", "b")?.as_str() == "a/b")
}
