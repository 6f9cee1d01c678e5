// The example of the README, word for word.
ghost use Rattle.std.specs.Prelude.{◌<◌, ◌^◌, length};

use anyhow::bail;
use mbe::{DeclarativeMacro, MacroCallStyle};
use mbe_grammar::SampleGrammar;
use mbe_text::lexer::lex;
use mbe_text::tree_dump::print_tree;
use mbe_tt::span::Edition;
use std::alloc::{AllocError, Global};
use std::io::Write;
use test_rows::{Fields, rows};

/// Prints what a call with this argument expands to.
pub fn print_expanded<W: Write>(
    alloc: Global,
    rules: &str,
    argument: &str,
    out: &mut W,
) -> anyhow::Result<()>
    requires rules { length rules.now < 2 ^ 32 }
    requires argument { length argument.now < 2 ^ 32 }
{
    let rules = lex(alloc, rules, 0)?;
    let argument = lex(alloc, argument, 1)?;
    let defined = DeclarativeMacro::parse_macro_rules(alloc, &rules, |_| Edition::Edition2024)?;
    if let Some(error) = defined.err() {
        bail!("{error}");
    }
    let call_site = argument.top_subtree().delimiter.opening;
    let style = MacroCallStyle::FnLike;
    let expanded = defined.expand(alloc, &SampleGrammar, &argument, |s| s, style, call_site)?;
    if let Some(error) = &expanded.err {
        bail!("{error}");
    }
    print_tree(&expanded.value.0, out)?;
    Ok(())
}

// Each row: rules, an argument, and what is printed. Nothing is printed if the definition or the
// call has an error.
pub const PRINTED: &str = rows![
    (
        "($x:ident = $t:tt;) => { pair ($t) $x }",
        "a = 1;",
        "SUBTREE $$ 1@0..6 1@0..6
  IDENT   pair 0@25..29
  SUBTREE () 0@30..31 0@33..34
    LITERAL Integer 1 1@4..5
  IDENT   a 1@0..1
",
    ),
    ("(a) => {}", "a", "SUBTREE $$ 1@0..1 1@0..1\n"),
    ("(b) => {}", "a", ""),
    ("($x:ident) => {$x} x", "a", ""),
];

/// Whether the row's text is printed.
pub fn is_printed(alloc: Global, [rules, argument, want, ..]: Fields) -> Result<bool, AllocError> {
    if rules.len() > u32::MAX as usize || argument.len() > u32::MAX as usize {
        return Err(AllocError);
    }
    let mut out = Vec::new(alloc);
    let printed = print_expanded(alloc, rules, argument, &mut out);
    Ok(printed.is_ok() != want.is_empty() && out.as_slice() == want.as_bytes())
}
