// Reading definitions: which rules are kept, the styles of the rules, and the error. Definitions by
// `macro` are among them.
use crate::runs::parsed;
use crate::trees::{lexed, read};
use bitflags::Flags;
use mbe::DeclarativeMacro;
use mbe_tt::span::Edition;
use mbe_tt::tt::TopSubtree;
use std::alloc::{AllocError, Allocator, Global};
use test_rows::{Fields, rows};

/// Reads the macro of trees by the kind of its definition: `rules` for a `macro_rules!`, `body` for
/// a `macro`, else the arguments before its body.
pub fn read_as<A: Allocator + Copy>(
    alloc: A,
    sort: &str,
    args: &TopSubtree<A>,
    body: &TopSubtree<A>,
) -> Result<DeclarativeMacro<A>, AllocError> {
    if sort == "rules" {
        return parsed(alloc, body);
    }
    let args = (sort != "body").then_some(args);
    DeclarativeMacro::parse_macro2(alloc, args, body, |_context| Edition::Edition2024)
}

/// Reads the macro of a text, or of tokens. If it has arguments, `sort` is their text. Both are
/// file 0.
pub fn defined_as(
    alloc: Global,
    sort: &str,
    definition: &str,
) -> Result<DeclarativeMacro, AllocError> {
    let args = lexed(alloc, 0, sort)?;
    let body = read(alloc, 0, definition)?;
    read_as(alloc, sort, &args, &body)
}

/// Whether the definition is read as the row says: the number of rules that are kept, the bits of
/// their styles, and the error, if there is one.
pub fn is_read(alloc: Global, [sort, definition, want, ..]: Fields) -> Result<bool, AllocError> {
    let rules = defined_as(alloc, sort, definition)?;
    let count = rules.num_rules();
    let styles = rules.rule_styles().bits();
    let found = format!(in alloc; "{count} {styles} {:?}", rules.err())?;
    Ok(found.as_str() == want)
}

// Each row: the kind of definition, the definition, and what is read of it.
pub const ROWS: &str = rows![
    // Rules before a fault are kept. Definitions without rules before a fault are in tests/mbex.
    ("rules", "() => {} x", "1 1 Some(Expected(\"expected `;`\"))"),
    ("rules", "() => {} () => {}", "1 1 Some(Expected(\"expected `;`\"))"),
    ("rules", "() => {}, () => {}", "1 1 Some(Expected(\"expected `;`\"))"),
    ("rules", "() => {};;", "1 1 Some(Expected(\"expected subtree\"))"),
    ("rules", "() => {};; () => {}", "1 1 Some(Expected(\"expected subtree\"))"),
    ("rules", "() => {}; ($x) => {}", "1 1 Some(UnexpectedToken(\"missing fragment specifier\"))"),
    ("rules", "() => {}; ($x) => {}; () => {}", "1 1 Some(UnexpectedToken(\"missing fragment specifier\"))"),
    ("rules", "() => {}; ($x) => {}; x", "1 1 Some(UnexpectedToken(\"missing fragment specifier\"))"),
    ("rules", "() => {};; ($x) => {}", "1 1 Some(Expected(\"expected subtree\"))"),
    ("rules", "() => {}; ($(a)) => {}; () => {}", "1 1 Some(InvalidRepeat)"),
    ("rules", "() => {}; () => {}; () => {{$(a)}}", "2 1 Some(InvalidRepeat)"),
    ("rules", "() => {}; ($()*) => {}; () => {}", "3 1 Some(RepetitionEmptyTokenTree)"),
    ("rules", "($()*) => {}; ($x) => {}", "1 1 Some(RepetitionEmptyTokenTree)"),
    ("rules", "($()*) => {} () => {}", "1 1 Some(RepetitionEmptyTokenTree)"),
    // The rule that is refused isn't kept.
    ("rules", "() => {}; ($()* $x) => {}", "1 1 Some(UnexpectedToken(\"missing fragment specifier\"))"),
    ("rules", "() => {${len()}}; () => {${len(x)}}; () => {}", "1 1 Some(UnexpectedToken(\"invalid metavariable expression\"))"),
    ("rules", "() => {}; attr => {}", "1 1 Some(Expected(\"expected `()`\"))"),
    ("rules", "\n(-1) => {-1};\n(- 2) ", "1 1 Some(Expected(\"expected `=`\"))"),
    ("rules", "\n(-1) => {-1};\n(- 2) =", "1 1 Some(Expected(\"expected `>`\"))"),
    ("rules", "\n(-1) => {-1};\n(- 2) => ", "1 1 Some(Expected(\"expected subtree\"))"),
    ("rules", "\n(-1) => {-1};\n(- 2) => {- 2};\n(- 3.0) ", "2 1 Some(Expected(\"expected `=`\"))"),
    ("rules", "\n(-1) => {-1};\n(- 2) => {- 2};\n(- 3.0) =", "2 1 Some(Expected(\"expected `>`\"))"),
    ("rules", "\n(-1) => {-1};\n(- 2) => {- 2};\n(- 3.0) => ", "2 1 Some(Expected(\"expected subtree\"))"),
    ("rules", "\n(-1) => {-1};\n(- 2) => {- 2};\n(- 3.0) => {- 3.0};\n(@$lit:literal) ", "3 1 Some(Expected(\"expected `=`\"))"),
    ("rules", "\n(-1) => {-1};\n(- 2) => {- 2};\n(- 3.0) => {- 3.0};\n(@$lit:literal) =", "3 1 Some(Expected(\"expected `>`\"))"),
    ("rules", "\n(-1) => {-1};\n(- 2) => {- 2};\n(- 3.0) => {- 3.0};\n(@$lit:literal) => ", "3 1 Some(Expected(\"expected subtree\"))"),
    ("rules", "($x:ident) => {$($x)*}; ($x:ident) ", "1 1 Some(Expected(\"expected `=`\"))"),
    ("rules", "($x:ident) => {$($x)*}; ($x:ident) =", "1 1 Some(Expected(\"expected `>`\"))"),
    ("rules", "($x:ident) => {$($x)*}; ($x:ident) => ", "1 1 Some(Expected(\"expected subtree\"))"),
    ("rules", "attr() () => {A}; () ", "1 2 Some(Expected(\"expected `=`\"))"),
    ("rules", "attr() () => {A}; () =", "1 2 Some(Expected(\"expected `>`\"))"),
    ("rules", "attr() () => {A}; () => ", "1 2 Some(Expected(\"expected subtree\"))"),
    ("rules", "($( $($v:vis),+ )*) => {}", "1 1 Some(RepetitionEmptyTokenTree)"),
    ("rules", "($x:foo) => {}; ($($t:tt)*) ", "1 1 Some(Expected(\"expected `=`\"))"),
    ("rules", "($x:foo) => {}; ($($t:tt)*) =", "1 1 Some(Expected(\"expected `>`\"))"),
    ("rules", "($x:foo) => {}; ($($t:tt)*) => ", "1 1 Some(Expected(\"expected subtree\"))"),
    ("rules", "(a) => {A}; ($x) => {}", "1 1 Some(UnexpectedToken(\"missing fragment specifier\"))"),
    // Definitions that no text gives. A quote without a name after it separates rounds, as in
    // `($(a)' *) => {$(a)' *}`.
    ("rules", "tokens 22
open ( 0 0 1
alone $ 0 1 2
open ( 0 2 3
word a 0 3 4
close ) 0 4 5
joint ' 0 5 6
alone * 0 7 8
close ) 0 8 9
joint = 0 10 11
alone > 0 11 12
open { 0 13 14
alone $ 0 14 15
open ( 0 15 16
word a 0 16 17
close ) 0 17 18
joint ' 0 18 19
alone * 0 20 21
close } 0 21 22", "1 1 None"),
    ("rules", "tokens 24
open ( 0 0 1
alone $ 0 1 2
open ( 0 2 3
word a 0 3 4
close ) 0 4 5
joint ' 0 5 6
word b 0 7 8
alone ? 0 8 9
close ) 0 9 10
joint = 0 11 12
alone > 0 12 13
open { 0 14 15
alone $ 0 15 16
open ( 0 16 17
word a 0 17 18
close ) 0 18 19
joint ' 0 19 20
word b 0 21 22
alone ? 0 22 23
close } 0 23 24", "1 1 None"),
    // Such a quote may also be invalid: `b'*`, `''b*` and `'1*`.
    ("rules", "tokens 15
open ( 0 0 1
alone $ 0 1 2
open ( 0 2 3
word a 0 3 4
close ) 0 4 5
word b 0 5 6
joint ' 0 6 7
alone * 0 7 8
close ) 0 8 9
joint = 0 10 11
alone > 0 11 12
open { 0 13 14
close } 0 14 15", "0 1 Some(InvalidRepeat)"),
    ("rules", "tokens 15
open ( 0 0 1
close ) 0 1 2
joint = 0 3 4
alone > 0 4 5
open { 0 6 7
alone $ 0 7 8
open ( 0 8 9
word a 0 9 10
close ) 0 10 11
word b 0 11 12
joint ' 0 12 13
alone * 0 13 14
close } 0 14 15", "0 1 Some(InvalidRepeat)"),
    ("rules", "tokens 16
open ( 0 0 1
alone $ 0 1 2
open ( 0 2 3
word a 0 3 4
close ) 0 4 5
joint ' 0 5 6
joint ' 0 6 7
word b 0 7 8
alone * 0 8 9
close ) 0 9 10
joint = 0 11 12
alone > 0 12 13
open { 0 14 15
close } 0 15 16", "0 1 Some(InvalidRepeat)"),
    ("rules", "tokens 16
open ( 0 0 1
close ) 0 1 2
joint = 0 3 4
alone > 0 4 5
open { 0 6 7
alone $ 0 7 8
open ( 0 8 9
word a 0 9 10
close ) 0 10 11
joint ' 0 11 12
joint ' 0 12 13
word b 0 13 14
alone * 0 14 15
close } 0 15 16", "0 1 Some(InvalidRepeat)"),
    ("rules", "tokens 15
open ( 0 0 1
alone $ 0 1 2
open ( 0 2 3
word a 0 3 4
close ) 0 4 5
joint ' 0 5 6
number 1 0 6 7
alone * 0 7 8
close ) 0 8 9
joint = 0 10 11
alone > 0 11 12
open { 0 13 14
close } 0 14 15", "0 1 Some(InvalidRepeat)"),
    ("rules", "tokens 15
open ( 0 0 1
close ) 0 1 2
joint = 0 3 4
alone > 0 4 5
open { 0 6 7
alone $ 0 7 8
open ( 0 8 9
word a 0 9 10
close ) 0 10 11
joint ' 0 11 12
number 1 0 12 13
alone * 0 13 14
close } 0 14 15", "0 1 Some(InvalidRepeat)"),
    // `() => {${len(u8)}}` where the `u8` is a number of a suffix alone, and `() => {${len 1}}`
    // with an invisible group around the `1`.
    ("rules", "tokens 23
open ( 0 0 1
close ) 0 1 2
joint = 0 3 4
alone > 0 4 5
open { 0 6 7
alone $ 0 7 8
open { 0 8 9
word len 0 9 12
open ( 0 14 15
suffixed2 u8 0 15 20
close ) 0 20 21
close ) 0 21 22
close ) 0 22 23", "0 1 Some(UnexpectedToken(\"invalid metavariable expression\"))"),
    ("rules", "tokens 23
open ( 0 0 1
close ) 0 1 2
joint = 0 3 4
alone > 0 4 5
open { 0 6 7
alone $ 0 7 8
open { 0 8 9
word len 0 9 12
open none 0 14 15
number 1 0 15 20
close ) 0 20 21
close ) 0 21 22
close ) 0 22 23", "0 1 Some(UnexpectedToken(\"invalid metavariable expression\"))"),
    // Bodies of a `macro`.
    ("body", "", "0 1 None"),
    ("body", "() => {}", "1 1 None"),
    ("body", "() => {},", "1 1 None"),
    ("body", "() => {}; () => {}, () => {};", "3 1 None"),
    ("body", "() => {}, () => {} x", "2 1 Some(Expected(\"expected `;` or `,` to delimit rules\"))"),
    ("body", "() => {} () => {}", "1 1 Some(Expected(\"expected `;` or `,` to delimit rules\"))"),
    ("body", "() => {}: () => {}", "1 1 Some(Expected(\"expected `;` or `,` to delimit rules\"))"),
    ("body", "() => {},,", "1 1 Some(Expected(\"expected subtree\"))"),
    ("body", "() => {};,", "1 1 Some(Expected(\"expected subtree\"))"),
    ("body", ",", "0 1 Some(Expected(\"expected subtree\"))"),
    ("body", "() => {}, attr => {}", "1 1 Some(Expected(\"expected `()`\"))"),
    ("body", "() => {}, ($x) => {}", "1 1 Some(UnexpectedToken(\"missing fragment specifier\"))"),
    // Arguments and a body.
    ("", "", "1 1 None"),
    ("$x", "", "0 1 Some(UnexpectedToken(\"missing fragment specifier\"))"),
    ("", "$[a]", "0 1 Some(Expected(\"expected `$()` repetition or `${}` expression\"))"),
    ("$x", "$[a]", "0 1 Some(UnexpectedToken(\"missing fragment specifier\"))"),
    ("$[a]", "$1", "0 1 Some(Expected(\"expected `$()` repetition or `${}` expression\"))"),
    ("", "() => {} x", "1 1 None"),
    // A definition that is refused has its styles.
    ("$()*", "", "1 1 Some(RepetitionEmptyTokenTree)"),
    ("body", "derive() ($()*) => {}, x", "1 4 Some(RepetitionEmptyTokenTree)"),
    // Arguments and a body are one rule, which no attribute call uses.
    ("attr $x:ident", "[$x] => {}", "1 1 None"),
    // The bits of the styles.
    ("rules", "attr() () => {A}; () => {B}", "2 3 None"),
    ("rules", "", "0 1 None"),
    ("rules", "x", "0 1 Some(Expected(\"expected subtree\"))"),
    ("rules", "() => {}", "1 1 None"),
    ("rules", "unsafe () => {}", "1 1 None"),
    ("rules", "attr() () => {}", "1 2 None"),
    ("rules", "unsafe attr() () => {}", "1 2 None"),
    ("rules", "attr() () => {}; attr() () => {}", "2 2 None"),
    ("rules", "derive() () => {}", "1 4 None"),
    ("rules", "derive() () => {}; x", "1 4 Some(Expected(\"expected subtree\"))"),
    ("rules", "() => {}; derive{a} () => {}", "2 5 None"),
    ("rules", "attr[] () => {}; unsafe derive() () => {}", "2 6 None"),
    ("rules", "derive() () => {}; attr() () => {}; () => {}", "3 7 None"),
    // Raw words count as well.
    ("rules", "r#unsafe r#attr() () => {}", "1 2 None"),
];
