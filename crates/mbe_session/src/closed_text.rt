// Decides whether every macro that a plain name of a file can mean is known. The file or the
// standard library defines a known macro.
//
// A file can get other macros from:
//
// - a glob import, or a path into another crate;
// - `#[macro_use]` or `include!`;
// - a module in another file;
// - a template that defines a macro of any name.
//
// If the file has one of these, the answer is no, even if no macro comes from there. The answer is
// also no without `fn main`. Such a file may be a module, which can use the macros of its crate.
use crate::source_files::SourceFile;
use mbe_tt::tt::{Leaf, TokenTreesView, TtElement};

// The names at which a path may begin without leaving the file and the standard library.
const KNOWN_NAMES: &[&str] = &[
    "Self", "alloc", "bool", "char", "core", "crate", "f32", "f64", "i128", "i16", "i32", "i64",
    "i8", "isize", "self", "std", "str", "super", "u128", "u16", "u32", "u64", "u8", "usize",
];

// The words by which a file may get macros from elsewhere, or define some that are known only
// after other calls are expanded.
const OPENING_WORDS: &[&str] = &["include", "macro", "macro_export", "macro_use"];

// What came before a token.
#[derive(Drop)]
struct Before<'t> {
    // The name right before the token, or before the colons that are there; empty if there is
    // none.
    name: &'t str,
    // Whether that name begins a path.
    is_first: bool,
    colons: usize,
    // Whether the token is in a `use`.
    is_use: bool,
    // Whether the token is in `mod name`.
    is_module: bool,
    // Whether `macro_rules`, or that and a `!`, is right before the token.
    is_definition: bool,
    // Whether `fn main` was passed.
    has_main: bool,
}

impl<'t> Before<'t> {
    fn new() -> Before<'t> {
        Before {
            name: "",
            is_first: true,
            colons: 0,
            is_use: false,
            is_module: false,
            is_definition: false,
            has_main: false,
        }
    }

    // Whether the colons before a token follow a name that may be of another crate.
    fn leaves_the_file(&self) -> bool {
        let is_known = self
            .name
            .starts_with(|char: char| char.is_ascii_uppercase())
            || KNOWN_NAMES.contains(&self.name);
        self.colons >= 2 && self.is_first && !is_known
    }

    // Goes past a name. Returns whether a macro may come from elsewhere.
    fn pass_name(&mut self, name: &'t str) -> bool {
        let is_open = OPENING_WORDS.contains(&name)
            || (self.name == "extern" && name == "crate")
            || (self.name == "use" && !KNOWN_NAMES.contains(&name));
        self.is_module = self.name == "mod";
        self.is_use |= name == "use";
        self.is_definition = name == "macro_rules";
        self.has_main |= self.name == "fn" && name == "main";
        self.is_first = self.colons < 2;
        self.name = name;
        self.colons = 0;
        is_open
    }

    // Goes past a punct. Returns whether a macro may come from elsewhere.
    fn pass_punct(&mut self, char: char) -> bool {
        if char == ':' {
            self.colons = self.colons.saturating_add(1);
            return self.leaves_the_file();
        }
        let is_open = (self.is_use && char == '*')
            || (self.is_module && char == ';')
            || (self.is_definition && char == '$');
        let is_definition = self.is_definition && char == '!';
        self.is_use &= char != ';';
        self.forget();
        self.is_definition = is_definition;
        // A type in `<` and `>` begins no path of another crate.
        if char == '>' {
            self.name = "Self";
        }
        is_open
    }

    // Goes past a group or a literal. Returns whether a macro may come from elsewhere.
    fn pass_other(&mut self) -> bool {
        let is_open = self.name == "use";
        self.forget();
        is_open
    }

    fn forget(&mut self) {
        self.name = "";
        self.is_first = true;
        self.colons = 0;
        self.is_module = false;
        self.is_definition = false;
    }
}

// Whether the trees are those of a program without a word by which a macro may come from elsewhere.
fn is_closed(tokens: TokenTreesView<'_>) -> bool {
    let mut before = Before::new();
    let mut cursor = tokens.cursor();
    for _ in 0..tokens.flat_len() {
        let is_open = match cursor.token_tree() {
            Some(TtElement::Leaf(Leaf::Ident(ident))) => before.pass_name(ident.sym.as_str()),
            Some(TtElement::Leaf(Leaf::Punct(punct))) => before.pass_punct(punct.char),
            Some(TtElement::Leaf(Leaf::Literal(_)) | TtElement::Subtree(_, _)) => {
                before.pass_other()
            }
            None => false,
        };
        if is_open {
            return false;
        }
        cursor.bump_or_end();
    }
    before.has_main
}

/// Whether there is a single file, which is a program, and every macro that its plain names can
/// mean is known.
pub(crate) fn is_closed_text(files: &[SourceFile<'_>]) -> bool {
    let [file] = files else {
        return false;
    };
    match &file.tree {
        Some(tree) => is_closed(tree.iter().remaining()),
        None => false,
    }
}
