// Hygiene: how locals are renamed in texts.
//
// The number after `__` is the syntax context of a word, as in `a__0`; without one it is 1. Context
// 0 is the caller's text. Contexts 1 and 2 are two expansions; context 3 is the expansion of a
// macro that expansion 1 wrote. Each row expects what the names mean by rustc's hygiene.
use crate::text::conversions::{is_written, rust};
use mbe_rewriter::hygiene::renamer::{ContextParents, Renamed, rename};
use mbe_tt::span::{Span, SyntaxContext};
use mbe_tt::symbol::Symbol;
use mbe_tt::tt::{Ident, Leaf, Literal, TopSubtree, TopSubtreeBuilder, TtElement};
use std::alloc::{AllocError, Global};
use test_rows::{Fields, RowTest, number, rows};

// Each row: a text, the text after renaming, and how many names can't be decided. The name
// `outside` is in use around the text.
pub const ROWS: &str = rows![
    // A `let` of a template beside the caller's name.
    ("{ let a = 1; a__0 + a }", "{ let a_1 = 1; a + a_1 }", 0),
    // No other token has the name.
    ("{ let a = 1; b__0 + a }", "{ let a = 1; b + a }", 0),
    // Two expansions.
    (
        "{ let a = 1; let a__2 = 2; a + a__2 }",
        "{ let a_1 = 1; let a_2 = 2; a_1 + a_2 }",
        0,
    ),
    // A name that the caller binds isn't renamed.
    (
        "{ let a__0 = 1; let a = 2; a__0 + a }",
        "{ let a = 1; let a_1 = 2; a + a_1 }",
        0,
    ),
    // The caller binds, and the template uses a name of the file.
    ("{ let a__0 = 1; a }", "{ let a = 1; a }", 0),
    // A name that is in use around the trees.
    (
        "let outside = 1; f(outside)",
        "let outside_1 = 1; f(outside_1)",
        0,
    ),
    // The new name is in use already.
    (
        "{ let a = 1; a__0 + a + a_1__0 }",
        "{ let a_2 = 1; a + a_2 + a_1 }",
        0,
    ),
    // The arms of a `match`.
    (
        "match (x__0, y__0) { (x, y) => x + y + x__0 }",
        "match (x, y) { (x_1, y_1) => x_1 + y_1 + x }",
        0,
    ),
    (
        "match v__0 { Some(v) if v > 1 => v, None => v__0, }",
        "match v { Some(v_1) if v_1 > 1 => v_1, None => v, }",
        0,
    ),
    (
        "match v__0 { A => { 1 } Some(v) => f::<u8, u16>(v), _ => v__0 }",
        "match v { A => { 1 } Some(v_1) => f::<u8, u16>(v_1), _ => v }",
        0,
    ),
    (
        "match v__0 { v @ 1..=9 | v => v }",
        "match v { v_1 @ 1..=9 | v_1 => v_1 }",
        0,
    ),
    // Closures.
    ("m__0(|a| a + a__0)", "m(|a_1| a_1 + a)", 0),
    (
        "m__0(move |a: u8, b| a + b + a__0 + b__0)",
        "m(move |a_1: u8, b_1| a_1 + b_1 + a + b)",
        0,
    ),
    ("m__0(a__0 | b, |b| b)", "m(a | b, |b| b)", 0),
    // `for`, `if let`, `while let`, `let else`.
    ("for a in a__0 { f(a) }", "for a_1 in a { f(a_1) }", 0),
    (
        "if let Some(a) = a__0 { a } else { a__0 }",
        "if let Some(a_1) = a { a_1 } else { a }",
        0,
    ),
    (
        "while let Some(mut a) = a__0.next() { a += 1; }",
        "while let Some(mut a_1) = a.next() { a_1 += 1; }",
        0,
    ),
    (
        "let Some(a) = a__0 else { return a__0 }; f(a)",
        "let Some(a_1) = a else { return a }; f(a_1)",
        0,
    ),
    // `impl A for B` has no pattern.
    (
        "impl a for B { fn f() { for x in x__0 {} } }",
        "impl a for B { fn f() { for x_1 in x {} } }",
        0,
    ),
    // Fields and methods aren't renamed.
    (
        "{ let a = 1; b__0.a + a.a() + a + a__0 }",
        "{ let a_1 = 1; b.a + a_1.a() + a_1 + a }",
        0,
    ),
    (
        "{ let a = 1; S { a: a, b: a__0 } }",
        "{ let a_1 = 1; S { a: a_1, b: a } }",
        0,
    ),
    (
        "{ let S { a: b, .. } = s__0; b + b__0 }",
        "{ let S { a: b_1, .. } = s; b_1 + b }",
        0,
    ),
    // Ranges.
    (
        "{ let a = 1; b__0[..a] == b__0[a..] && b__0[0..=a] == a__0 }",
        "{ let a_1 = 1; b[..a_1] == b[a_1..] && b[0..=a_1] == a }",
        0,
    ),
    // Paths, macros and types.
    (
        "{ let a = 1; a::b(a__0) + b::a + a!(a) + a }",
        "{ let a_1 = 1; a::b(a) + b::a + a!(a_1) + a_1 }",
        0,
    ),
    (
        "{ let a: a = 1; a != a__0 }",
        "{ let a_1: a = 1; a_1 != a }",
        0,
    ),
    (
        "{ let str: &str = s__0; str__0 == str }",
        "{ let str: &str = s; str == str }",
        0,
    ),
    // Items.
    (
        "{ let a = 1; fn a() {} a + a__0 }",
        "{ let a_1 = 1; fn a() {} a_1 + a }",
        0,
    ),
    // Attributes.
    (
        "{ #[a] let a = 1; a + a__0 }",
        "{ #[a] let a_1 = 1; a_1 + a }",
        0,
    ),
    // Rules of macros may name locals and labels of the expansion that wrote them, and a fragment
    // may be one.
    (
        "{ macro_rules! m { ($a:expr) => { a } } let a = 1; a + a__0 }",
        "{ macro_rules! m { ($a:expr) => { a } } let a = 1; a + a }",
        1,
    ),
    (
        "{ let a = 1; macro_rules! m { () => { println!(\"{a}\") } } a + a__0 }",
        "{ let a = 1; macro_rules! m { () => { println!(\"{a}\") } } a + a }",
        1,
    ),
    (
        "'a: loop { macro_rules! m { () => { break 'a } } 'a__0: loop {} }",
        "'a: loop { macro_rules! m { () => { break 'a } } 'a: loop {} }",
        1,
    ),
    (
        "{ let a = 1; macro_rules! m { (a) => { 2 } } a + a__0 }",
        "{ let a = 1; macro_rules! m { (a) => { 2 } } a + a }",
        1,
    ),
    (
        "{ let a = 1; macro_rules! m { () => { a__3 } } a + a__0 }",
        "{ let a = 1; macro_rules! m { () => { a } } a + a }",
        1,
    ),
    // A variable, a field, a path and a macro's name are not such names.
    (
        "{ let a = 1; macro_rules! m { ($a:expr) => { $a + b.a } } a + a__0 }",
        "{ let a_1 = 1; macro_rules! m { ($a:expr) => { $a + b.a } } a_1 + a }",
        0,
    ),
    (
        "{ let a = 1; macro_rules! m { () => { a::b + b::a + a!() } } a + a__0 }",
        "{ let a_1 = 1; macro_rules! m { () => { a::b + b::a + a!() } } a_1 + a }",
        0,
    ),
    // What another expansion or the caller wrote isn't either; its names are others.
    (
        "{ let a = 1; macro_rules! m { () => { a__2 } } a }",
        "{ let a_1 = 1; macro_rules! m { () => { a } } a_1 }",
        0,
    ),
    (
        "{ let a = 1; macro_rules! m { () => { a__0 } } a }",
        "{ let a_1 = 1; macro_rules! m { () => { a } } a_1 }",
        0,
    ),
    // A new name that rules use.
    (
        "{ let a = 1; macro_rules! m { () => { a_1 } } a + a__0 }",
        "{ let a_2 = 1; macro_rules! m { () => { a_1 } } a_2 + a }",
        0,
    ),
    // The arguments of a macro call.
    (
        "{ let a = 1; println!(\"{} {}\", a, a__0) }",
        "{ let a_1 = 1; println!(\"{} {}\", a_1, a) }",
        0,
    ),
    // A block after an `if` is no struct.
    (
        "{ let a = x__0; let b = y__0; if a > b { a } else { b } + a__0 + b__0 }",
        "{ let a_1 = x; let b_1 = y; if a_1 > b_1 { a_1 } else { b_1 } + a + b }",
        0,
    ),
    // Raw names.
    (
        "{ let r#fn = 1; r#fn + r#fn__0 }",
        "{ let r#fn_1 = 1; r#fn_1 + r#fn }",
        0,
    ),
    // Labels.
    (
        "'a: loop { 'a__0: loop { break 'a; } continue 'a__0; }",
        "'a_1: loop { 'a: loop { break 'a_1; } continue 'a; }",
        0,
    ),
    (
        "{ let a = 1; 'a: loop { f::<'a>(a__0); break 'a a } }",
        "{ let a_1 = 1; 'a_2: loop { f::<'a>(a); break 'a_2 a_1 } }",
        0,
    ),
    // What can't be decided isn't renamed.
    (
        "{ let a = 1; S { a } + a__0 }",
        "{ let a = 1; S { a } + a }",
        1,
    ),
    (
        "{ let S { a, .. } = s__0; a + a__0 }",
        "{ let S { a, .. } = s; a + a }",
        1,
    ),
    (
        "match s__0 { S { a, b: c } => a + a__0 + c + c__0 }",
        "match s { S { a, b: c_1 } => a + a + c_1 + c }",
        1,
    ),
    (
        "{ let a = 1; println!(\"{a}\"); a__0 }",
        "{ let a = 1; println!(\"{a}\"); a }",
        1,
    ),
    (
        "{ let a = 1; println!(\"{:1$}\", a__0, a = a) }",
        "{ let a = 1; println!(\"{:1$}\", a, a = a) }",
        1,
    ),
    // A use before the binding refers to something else.
    (
        "{ f(a); let a = 1; a + a__0 }",
        "{ f(a); let a = 1; a + a }",
        1,
    ),
    // So does a use in the value whose pattern binds it.
    (
        "{ let min = min(1, 2); min + min__0 }",
        "{ let min = min(1, 2); min + min }",
        1,
    ),
    (
        "if let Some(a) = a { a + a__0 }",
        "if let Some(a) = a { a + a }",
        1,
    ),
    ("for a in a { f(a, a__0) }", "for a in a { f(a, a) }", 1),
    (
        "{ let (a, b) = (b, a__0); a + b + b__0 }",
        "{ let (a_1, b) = (b, a); a_1 + b + b }",
        1,
    ),
    (
        "{ let a = { b(); a }; a + a__0 }",
        "{ let a = { b(); a }; a + a }",
        1,
    ),
    // But it refers to an earlier binding if there is one.
    (
        "{ let a = 1; let a = a + 1; a + a__0 }",
        "{ let a_1 = 1; let a_1 = a_1 + 1; a_1 + a }",
        0,
    ),
    // The arms of a value bind at once.
    (
        "{ let x = match v__0 { Some(v) => v, None => x__0 }; x + v__0 }",
        "{ let x_1 = match v { Some(v_1) => v_1, None => x }; x_1 + v }",
        0,
    ),
    (
        "{ let a = { let b = 1; b }; a + a__0 + b__0 }",
        "{ let a_1 = { let b_1 = 1; b_1 }; a_1 + a + b }",
        0,
    ),
    // A parameter of a function isn't searched for.
    (
        "fn f(a: u8) { let b = a; let a = 1; a + a__0 }",
        "fn f(a: u8) { let b = a; let a = 1; a + a }",
        2,
    ),
    // Names in capitals may be constants.
    ("match v__0 { A => A__0, }", "match v { A => A, }", 0),
    // The arguments of a macro may bind names of their own.
    (
        "{ let a = 1; m!(a: 2); a__0 }",
        "{ let a = 1; m!(a: 2); a }",
        1,
    ),
    // A macro that an expansion wrote may name its locals and labels.
    ("{ let a = 1; a__3 + a }", "{ let a = 1; a + a }", 1),
    ("'a: loop { break 'a__3; }", "'a: loop { break 'a; }", 1),
    // It may also bind its own.
    (
        "{ let a = 1; { let b__3 = 2; a + b + b__3 } }",
        "{ let a = 1; { let b_1 = 2; a + b + b_1 } }",
        0,
    ),
    // Another expansion's names are never its own.
    ("{ let a = 1; a__2 + a }", "{ let a_1 = 1; a + a_1 }", 0),
    // Nothing is bound there.
    ("a + a__0", "a + a", 0),
];

fn at(span: Span, context: u32) -> Span {
    Span {
        ctx: SyntaxContext(context),
        ..span
    }
}

// Splits the mark of its context off a word.
fn unmarked(text: &str) -> (&str, u32) {
    match text.split_once("__") {
        Some((name, "0")) => (name, 0),
        Some((name, "2")) => (name, 2),
        Some((name, "3")) => (name, 3),
        _ => (text, 1),
    }
}

fn marked(alloc: Global, leaf: &Leaf) -> Result<Leaf, AllocError> {
    match leaf {
        Leaf::Ident(ident) => {
            let (name, context) = unmarked(ident.sym.as_str());
            Ok(Leaf::Ident(Ident {
                sym: Symbol::intern(alloc, name)?,
                is_raw: ident.is_raw,
                span: at(ident.span, context),
            }))
        }
        Leaf::Literal(literal) => Ok(Leaf::Literal(Literal {
            text_and_suffix: literal.text_and_suffix.clone()?,
            suffix_len: literal.suffix_len,
            kind: literal.kind,
            span: at(literal.span, 1),
        })),
        Leaf::Punct(_) => leaf.clone(),
    }
}

// Writes the flat token at a cursor.
fn write_marked(
    alloc: Global,
    builder: &mut TopSubtreeBuilder,
    found: Option<TtElement<'_>>,
) -> Result<(), AllocError> {
    match found {
        Some(TtElement::Leaf(leaf)) => builder.push(marked(alloc, leaf)?),
        Some(TtElement::Subtree(group, _)) => {
            builder.open(group.delimiter.kind, group.delimiter.opening)
        }
        None => {
            if builder.open_kind().is_some() {
                builder.close(Span::default());
            }
            Ok(())
        }
    }
}

// Returns the tree with the contexts that its words are marked with.
fn with_contexts(alloc: Global, tree: &TopSubtree) -> Result<TopSubtree, AllocError> {
    let mut builder = TopSubtreeBuilder::new(alloc, tree.top_subtree().delimiter)?;
    let tokens = tree.iter().remaining();
    let mut cursor = tokens.cursor();
    for _ in 0..tokens.flat_len() {
        write_marked(alloc, &mut builder, cursor.token_tree())?;
        cursor.bump_or_end();
    }
    match builder.open_kind() {
        None => Ok(builder.build()),
        Some(_) => Err(AllocError),
    }
}

fn renamed(alloc: Global, text: &str) -> Result<Renamed, AllocError> {
    let tree = with_contexts(alloc, &rust(alloc, text)?)?;
    let names = [Symbol::intern(alloc, "outside")?];
    let nestings = ContextParents {
        contexts: &[0, 0, 1],
        mark: 0,
    };
    rename(alloc, &tree, &names, nestings)
}

#[derive(Clone, Copy)]
pub struct HygieneRows;

impl RowTest for HygieneRows {
    fn passes(
        &self,
        alloc: Global,
        [text, want, undecided, ..]: Fields,
    ) -> Result<bool, AllocError> {
        let got = renamed(alloc, text)?;
        Ok(got.undecided.len() == number(undecided) && is_written(alloc, &got.tree, want)?)
    }
}
