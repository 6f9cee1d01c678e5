// Texts without the code that `cfg` disables, under `--cfg yes`.
use crate::text::conversions::{is_written, rust};
use mbe_cfg::cfg_fault::{CfgFault, CfgFaultKind};
use mbe_cfg::cfg_options::{CfgOption, CfgOptions};
use mbe_cfg::cfg_strip::strip;
use mbe_cfg::targets::Target;
use mbe_grammar::rust::rust_rules::rust_rules;
use mbe_tt::span::Edition;
use mbe_tt::tt::TopSubtree;
use std::alloc::{AllocError, Global};
use test_rows::{Fields, RowTest, rows};

static GIVEN: [CfgOption<'static>; 1] = [CfgOption {
    name: "yes",
    value: None,
}];

// Each row: a text, and the text without disabled code.
pub const ROWS: &str = rows![
    ("#[cfg(yes)] fn f() {} m!();", "#[cfg(yes)] fn f() {} m!();"),
    ("#[cfg(no)] fn f() { a!(); } m!();", "m!();"),
    ("#[cfg(no)] use a::{b, c}; m!();", "m!();"),
    (
        "#[cfg(no)] #[a] pub(crate) const X: A = A { b: 1 }; m!();",
        "m!();",
    ),
    (
        "#[a] #[cfg(no)] fn f<A, B>(a: A) -> B where A: B<C = D> {} m!();",
        "m!();",
    ),
    ("#[cfg(no)] struct S<A, B>(A, B); m!();", "m!();"),
    (
        "#[cfg(no)] impl<A: B<C = D>> A { fn f() {} } m!();",
        "m!();",
    ),
    ("#[cfg(no)] macro_rules! m { () => { 1 }; } m!();", "m!();"),
    ("#[cfg(no)] m! { a } n!();", "n!();"),
    ("#[cfg(no)] a::m!(a); n!();", "n!();"),
    ("#[cfg(no)] mod a { m!(); } n!();", "n!();"),
    ("#[cfg(no)] mod a; n!();", "n!();"),
    (
        "#[cfg(windows)] m!(1); #[cfg(unix)] m!(2);",
        "#[cfg(unix)] m!(2);",
    ),
    ("mod a { #![cfg(no)] m!(); } n!();", "mod a {} n!();"),
    (
        "#![allow(a)] #[cfg(no)] fn f() {} m!();",
        "#![allow(a)] m!();",
    ),
    ("#![cfg(yes)] m!();", "#![cfg(yes)] m!();"),
    (
        "fn f() { #[cfg(no)] let a = A { b: m!() }; n!(); }",
        "fn f() { n!(); }",
    ),
    ("fn f() { #[cfg(no)] a(m!()); n!() }", "fn f() { n!() }"),
    (
        "fn f() { #[cfg(no)] if a { m!() } else { m!() } n!() }",
        "fn f() { n!() }",
    ),
    ("fn f() { #[cfg(no)] { m!() } n!() }", "fn f() { n!() }"),
    ("fn f() { #[cfg(no)] m!() }", "fn f() {}"),
    (
        "match a { #[cfg(no)] A { b } => m!(1, 2), C => n!() }",
        "match a { C => n!() }",
    ),
    (
        "match a { #[cfg(no)] A => { m!() } C => n!() }",
        "match a { C => n!() }",
    ),
    (
        "match a { #[cfg(no)] A => { m!() }, C => n!() }",
        "match a { C => n!() }",
    ),
    (
        "match a { #[cfg(no)] A if b => m!().c::<D, E>(), C => n!() }",
        "match a { C => n!() }",
    ),
    ("match a { #[cfg(no)] A => b }", "match a {}"),
    (
        "struct S { #[cfg(no)] a: m!(), c: n!() }",
        "struct S { c: n!() }",
    ),
    ("enum E { #[cfg(no)] A { b: C }, D }", "enum E { D }"),
    (
        "enum E { #[cfg(no)] A = m!(), D(n!()) }",
        "enum E { D(n!()) }",
    ),
    ("f(#[cfg(no)] m!(), n!())", "f(n!())"),
    ("S { #[cfg(no)] a: m!(), b: n!() }", "S { b: n!() }"),
    ("fn f(#[cfg(no)] a: m!(), b: B) {}", "fn f(b: B) {}"),
    ("m! { #[cfg(no)] fn f() {} }", "m! { #[cfg(no)] fn f() {} }"),
    (
        "macro_rules! m { (#[cfg($a:meta)] $b:item) => { #[cfg(no)] $b } }",
        "macro_rules! m { (#[cfg($a:meta)] $b:item) => { #[cfg(no)] $b } }",
    ),
    ("#[cfg_attr(yes, cfg(no))] fn f() {} m!();", "m!();"),
    (
        "#[cfg_attr(no, cfg(no))] f(); #[cfg_attr(no, cfg(no))] m!();",
        "f(); #[cfg_attr(no, cfg(no))] m!();",
    ),
    (
        "#![cfg_attr(no, a)] #[cfg_attr(no, b)] #[c] #[cfg_attr(yes, d)] m!();",
        "#[c] #[cfg_attr(yes, d)] m!();",
    ),
    (
        "fn f(#[cfg_attr(no, a)] b: B) { #[cfg_attr(no, c)] { m!() } }",
        "fn f(b: B) { { m!() } }",
    ),
];

// Strips a tree, and returns the faults in it.
fn stripped(alloc: Global, tree: &TopSubtree) -> Result<(TopSubtree, Vec<CfgFault>), AllocError> {
    let settings = CfgOptions {
        target: Target::X86_64Linux.options(),
        given: &GIVEN,
        features: &[],
        test: false,
    };
    let mut faults = Vec::new(alloc);
    let grammar = rust_rules(Edition::Edition2021, &[]);
    let stays = strip(alloc, &settings, &grammar, &mut faults, tree)?;
    Ok((stays, faults))
}

// Whether a text is stripped to that one, without a fault.
#[derive(Clone, Copy)]
pub struct EnabledCode;

impl RowTest for EnabledCode {
    fn passes(&self, alloc: Global, [text, want, ..]: Fields) -> Result<bool, AllocError> {
        let (stays, faults) = stripped(alloc, &rust(alloc, text)?)?;
        Ok(faults.is_empty() && is_written(alloc, &stays, want)?)
    }
}

/// Whether code with a faulty attribute is kept.
pub fn keeps_faulty_code(alloc: Global) -> Result<bool, AllocError> {
    let text = "#[inline] #[cfg(a b)] fn f() {} #[cfg(a(b))] m!();";
    let tree = rust(alloc, text)?;
    let (stays, faults) = stripped(alloc, &tree)?;
    let passes = match faults.as_slice() {
        [one, other] => one.fault_kind == CfgFaultKind::NoComma
            && other.fault_kind == CfgFaultKind::Invalid,
        _ => false,
    };
    Ok(passes && stays == tree)
}
