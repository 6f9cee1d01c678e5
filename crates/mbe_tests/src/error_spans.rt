// Spans of errors, and of what is written beside them. The argument's opening, its closing and the
// call site are apart, and a marker sets the context of what the template writes itself.
ghost use Rattle.mbe.specs.Macro.{IsChecked};
ghost use Rattle.mbe.specs.MacroViews.{macro_of};

use crate::grammar::grammar_of;
use crate::runs::{Expansion, defined, is_made};
use crate::tokens::at;
use crate::trees::lexed;
use mbe::{DeclarativeMacro, MacroCallStyle, ParseError};
use mbe_tt::span::{Span, SyntaxContext};
use mbe_tt::tt::{Delimiter, DelimiterKind, TopSubtree, TopSubtreeBuilder};
use std::alloc::{AllocError, Global};
use test_rows::{Fields, rows};

// The file, the start and the end of a span.
type TestSpan = (u32, u32, u32);

const OPENING: TestSpan = (1, 90, 91);

const CLOSING: TestSpan = (1, 95, 96);

const CALL: TestSpan = (2, 40, 44);

// The context that the marker sets.
const MARKED: u32 = 7;

// Each row has, in this order:
//
// 1. How many flat tokens the grammar counts without a fault.
// 2. A definition and an argument.
// 3. The index of the rule.
// 4. The error with its file and its bytes.
// 5. The expansion, each token with the number of its context.
pub const ROWS: &str = rows![
    (1, "(a b) => {X}", "a c", 0, "unexpected token in input 1 2 3", "word X 0:7 10 11"),
    // An error at the end of the argument, or of a group in it, is at the argument's closing.
    (1, "(a b) => {X}", "a", 0, "expected ident: `b` 1 95 96", "word X 0:7 10 11"),
    (1, "(a (b)) => {X}", "a ()", 0, "expected ident: `b` 1 95 96", "word X 0:7 12 13"),
    (1, "($(a)? $(a)?) => {}", "a", 0, "expected ident: `a` 1 95 96", ""),
    // A name that matches nothing is written as `missing` at the variable in the template, marked.
    (1, "($x:ident) => {$x Y}", "", 0, "expected ident 1 95 96", "word missing 0:7 16 17
word Y 0:7 18 19"),
    // An error that no thread reports is at the argument's opening.
    (1, "(a) => {X}", "a b", 0, "leftover tokens 1 90 91", "word X 0:7 8 9"),
    // The first of two readings is the one with a round, so it is bound.
    (0, "($($v:vis),*) => {$($v X)*}", "", 0, "unexpected token in input 1 90 91", "word X 0:7 23 24"),
    // A group that doesn't match reports nothing, so nothing is bound.
    (1, "($x:ident (a)) => {$x}", "b c", 0, "leftover tokens 1 90 91", "alone $ 0 20 21
word x 0 20 21"),
    // Both rules stop at the 1. The second has bound two names, in rounds; its first error is that
    // no `;` comes first.
    (1, "($a:ident, q; 2) => {A}; ($($x:ident),*; 2) => {B}", "p, q; 1", 1, "unexpected token in input 1 0 1", "word B 0:7 48 49"),
    // Here the first rule has, too, so it is as close as the second and wins the tie.
    (1, "($($x:ident),*; 2) => {A}; ($a:ident, $b:ident; 2) => {B}", "p, q; 1", 0, "unexpected token in input 1 0 1", "word A 0:7 23 24"),
    // No rule is for this style of call.
    (1, "attr() () => {A}", "", "", "no rule matches input tokens 2 40 44", ""),
    // Templates.
    (1, "($($x:ident)*) => {$($x)+}", "", 0, "unexpected token in input 2 40 44", ""),
    (1, "($x:ident) => {$($x)*}", "a", 0, "Expand exceed limit 2 40 44", ""),
    (1, "($($x:ident)*) => {$x Y}", "a b", 0, "expected simple binding, found nested binding `x` 0 20 21", "word Y 0:7 22 23"),
    (1, "() => {${ignore($x)} Y}", "", 0, "could not find binding x 0 17 18", "word Y 0:7 21 22"),
    (1, "() => {${count($x)} Y}", "", 0, "could not find binding x 2 40 44", "word Y 0:7 20 21"),
    // Numbers are at the call site, and aren't marked.
    (1, "($($x:ident)*) => {${count($x)} $($x ${index()})*}", "a b", 0, "", "number 2 2 40 44
word a 1 0 1
number 0 2 40 44
word b 1 2 3
number 1 2 40 44"),
    (3, "($e:expr) => {$e}", "1 + 2", 0, "", "open ( 0:7 15 16
number 1 1 0 1
alone + 1 2 3
number 2 1 4 5
close ) 0:7 15 16"),
    (3, "($p:path) => {$p}", "V < u", 0, "", "word V 1 0 1
joint : 2 40 44
alone : 2 40 44
alone < 1 2 3
word u 1 4 5"),
    (1, "() => {${concat(a, \"-\")} Y}", "", 0, "`${concat(..)}` is not generating a valid identifier 0 9 15", "word __ra_concat_dummy 0:7 9 15
word Y 0:7 25 26"),
    // If two parts have no text, the first is reported.
    (1, "($x:tt $y:tt) => {${concat($x, $y)}}", "(a) [b]", 0, "metavariables of `${concat(..)}` must be of type `ident`, `literal` or `tt` 0 28 29", "word __ra_concat_dummy 0:7 20 26"),
    // Both rounds fault, and the first is reported. All of the rounds is written except what
    // faults, without separators.
    (1, "($($($x:ident)*;)*) => {$(Y $x Z),*}", "a ; ;", 0, "expected simple binding, found nested binding `x` 0 29 30", "word Y 0:7 26 27
word Z 0:7 31 32
word Y 0:7 26 27
word Z 0:7 31 32"),
    // What a template writes itself is marked.
    (1, "($x:ident = $t:tt;) => { pair ($t) $x }", "a = 1;", 0, "", "word pair 0:7 25 29
open ( 0:7 30 31
number 1 1 4 5
close ) 0:7 33 34
word a 1 0 1"),
    (1, "() => {1 + [a] $crate $$ $y}", "", 0, "", "number 1 0:7 7 8
alone + 0:7 9 10
open [ 0:7 11 12
word a 0:7 12 13
close ) 0:7 13 14
word $crate 0:7 16 21
alone $ 0:7 23 24
alone $ 0 26 27
word y 0 26 27"),
];

fn span_of((file, start, end): TestSpan) -> Span {
    at(file, start, end)
}

// Returns the trees of the text, between the opening and the closing.
fn argument_of(alloc: Global, text: &str) -> Result<TopSubtree, AllocError> {
    let delimiter = Delimiter {
        opening: span_of(OPENING),
        close: span_of(CLOSING),
        kind: DelimiterKind::Parenthesis,
    };
    let trees = lexed(alloc, 1, text)?;
    let mut builder = TopSubtreeBuilder::new(alloc, delimiter)?;
    builder.extend_with_tt(trees.view().strip_invisible())?;
    Ok(builder.build())
}

fn expansion_of(
    alloc: Global,
    grammar: &str,
    (definition, argument): (&str, &str),
) -> Result<Expansion<Global>, AllocError> {
    let rules = defined(alloc, definition)?;
    if matches!(rules.err(), Some(ParseError::RepetitionEmptyTokenTree)) {
        return Err(AllocError);
    }
    let argument = argument_of(alloc, argument)?;
    expanded_at_call(alloc, grammar, &rules, &argument)
}

// Expands a call with that call site. The marker sets the context.
fn expanded_at_call(
    alloc: Global,
    grammar: &str,
    rules: &DeclarativeMacro,
    argument: &TopSubtree,
) -> Result<Expansion<Global>, AllocError>
    requires { IsChecked (macro_of rules.now) }
{
    let grammar = grammar_of(grammar);
    let marker = |span: Span| Span {
        ctx: SyntaxContext(MARKED),
        ..span
    };
    let style = MacroCallStyle::FnLike;
    rules.expand(alloc, &grammar, argument, marker, style, span_of(CALL))
}

/// Whether a row passes.
pub fn passes(
    alloc: Global,
    [grammar, definition, argument, arm, error, tokens]: Fields,
) -> Result<bool, AllocError> {
    let expansion = expansion_of(alloc, grammar, (definition, argument))?;
    is_made(alloc, &expansion, span_of(CALL), [arm, tokens, error])
}
