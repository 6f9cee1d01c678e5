// Rows of whole runs: a definition and an argument, the exit status, and what is printed.
// tests/mbex has the same rows, in expansions.py, rows.py, reports.py and lints.py.
use test_rows::rows;

pub const ROWS: &str = rows![
    (
        "($($x:ident),*) => {$($x);*}",
        "a, b",
        0,
        "arm 0
SUBTREE $$ 1@0..4 1@0..4
  IDENT   a 1@0..1
  PUNCH   ; [joint] 0@25..26
  IDENT   b 1@3..4
"
    ),
    (
        "\n($($e:expr),* $(,)?) => {\n    $($e);* ;\n};\n",
        "\n    _,\n    const { 1 },\n",
        0,
        "arm 0
SUBTREE $$ 1@0..25 1@0..25
  IDENT   _ 1@5..6
  PUNCH   ; [joint] 0@36..37
  SUBTREE () 0@34..35 0@34..35
    IDENT   const 1@12..17
    SUBTREE {} 1@18..19 1@22..23
      LITERAL Integer 1 1@20..21
  PUNCH   ; [alone] 0@39..40
"
    ),
    (
        "\n(-1) => {-1};\n(- 2) => {- 2};\n(- 3.0) => {- 3.0};\n(@$lit:literal) => {$lit}\n",
        "@--1.0",
        1,
        "error: expected literal at 1@1..2
arm 3
SUBTREE $$ 1@0..6 1@0..6
  IDENT   missing 0@72..75
"
    ),
    (
        "\n(-1) => {-1};\n(- 2) => {- 2};\n(- 3.0) => {- 3.0};\n(@$lit:literal) => {$lit}\n",
        "@-1",
        0,
        "arm 3
SUBTREE $$ 1@0..3 1@0..3
  PUNCH   - [alone] 1@1..2
  LITERAL Integer 1 1@2..3
"
    ),
    (
        "($($a:ident)* ; $($b:ident)*) => {$($a $b)*}",
        "p q r ; s t",
        0,
        "arm 0
SUBTREE $$ 1@0..11 1@0..11
  IDENT   p 1@0..1
  IDENT   s 1@8..9
  IDENT   q 1@2..3
  IDENT   t 1@10..11
"
    ),
    (
        "($($($x:ident)*),*) => {${count($x)} ${count($x, 1)}}",
        "a b, c",
        0,
        "arm 0
SUBTREE $$ 1@0..6 1@0..6
  LITERAL Integer 2 1@0..6
  LITERAL Integer 3 1@0..6
"
    ),
    (
        "($x:ident) => {${concat($x, _bar)}}",
        "foo",
        0,
        "arm 0
SUBTREE $$ 1@0..3 1@0..3
  IDENT   foo_bar 0@17..23
"
    ),
    (
        "($x:ident) => {${concat($x, \"-\")}}",
        "foo",
        1,
        "error: `${concat(..)}` is not generating a valid identifier at 0@17..23
arm 0
SUBTREE $$ 1@0..3 1@0..3
  IDENT   __ra_concat_dummy 0@17..23
"
    ),
    (
        "($x:ident = $t:tt;) => { pair ($t) $x }",
        "a = 1;",
        0,
        "arm 0
SUBTREE $$ 1@0..6 1@0..6
  IDENT   pair 0@25..29
  SUBTREE () 0@30..31 0@33..34
    LITERAL Integer 1 1@4..5
  IDENT   a 1@0..1
"
    ),
    (
        "\n($($e:expr_2021),* $(,)?) => {\n    $($e);* ;\n};\n",
        "\n    4,\n    \"literal\",\n    funcall(),\n    future.await,\n    break 'foo bar,\n",
        0,
        "arm 0
SUBTREE $$ 1@0..76 1@0..76
  LITERAL Integer 4 1@5..6
  PUNCH   ; [joint] 0@41..42
  LITERAL Str literal 1@12..21
  PUNCH   ; [joint] 0@41..42
  SUBTREE () 0@39..40 0@39..40
    IDENT   funcall 1@27..34
    SUBTREE () 1@34..35 1@35..36
  PUNCH   ; [joint] 0@41..42
  SUBTREE () 0@39..40 0@39..40
    IDENT   future 1@42..48
    PUNCH   . [alone] 1@48..49
    IDENT   await 1@49..54
  PUNCH   ; [joint] 0@41..42
  SUBTREE () 0@39..40 0@39..40
    IDENT   break 1@60..65
    PUNCH   ' [joint] 1@66..67
    IDENT   foo 1@67..70
    IDENT   bar 1@71..74
  PUNCH   ; [alone] 0@44..45
"
    ),
    (
        "\n($($tt:tt)*) => {\n    $($tt)*\n};\n",
        "\nfn main() {\n    1;\n    1.0;\n    ((1,),).0.0;\n    let x = 1;\n}\n",
        0,
        "arm 0
SUBTREE $$ 1@0..63 1@0..63
  IDENT   fn 1@1..3
  IDENT   main 1@4..8
  SUBTREE () 1@8..9 1@9..10
  SUBTREE {} 1@11..12 1@61..62
    LITERAL Integer 1 1@17..18
    PUNCH   ; [alone] 1@18..19
    LITERAL Float 1.0 1@24..27
    PUNCH   ; [alone] 1@27..28
    SUBTREE () 1@33..34 1@39..40
      SUBTREE () 1@34..35 1@37..38
        LITERAL Integer 1 1@35..36
        PUNCH   , [alone] 1@36..37
      PUNCH   , [alone] 1@38..39
    PUNCH   . [alone] 1@40..41
    LITERAL Float 0.0 1@41..44
    PUNCH   ; [alone] 1@44..45
    IDENT   let 1@50..53
    IDENT   x 1@54..55
    PUNCH   = [alone] 1@56..57
    LITERAL Integer 1 1@58..59
    PUNCH   ; [alone] 1@59..60
"
    ),
    (
        "($( b $(x)? )x*) => {}",
        "b x b",
        0,
        "arm 0
SUBTREE $$ 1@0..5 1@0..5
"
    ),
    (
        "($x:ident) => {$($x)*}; ($x:ident) => {$x}",
        "a",
        0,
        "arm 1
SUBTREE $$ 1@0..1 1@0..1
  IDENT   a 1@0..1
"
    ),
    (
        "attr() () => {A}; () => {B}",
        "",
        0,
        "arm 1
SUBTREE $$ 1@0..0 1@0..0
  IDENT   B 0@25..26
"
    ),
    (
        "($p:path) => {$p}",
        "Vec<u8>",
        0,
        "arm 0
SUBTREE $$ 1@0..7 1@0..7
  IDENT   Vec 1@0..3
  PUNCH   : [joint] 1@0..7
  PUNCH   : [alone] 1@0..7
  PUNCH   < [alone] 1@3..4
  IDENT   u8 1@4..6
  PUNCH   > [alone] 1@6..7
"
    ),
    (
        "($e:expr) => {$e * 2}",
        "1 + 2",
        0,
        "arm 0
SUBTREE $$ 1@0..5 1@0..5
  SUBTREE () 0@15..16 0@15..16
    LITERAL Integer 1 1@0..1
    PUNCH   + [alone] 1@2..3
    LITERAL Integer 2 1@4..5
  PUNCH   * [alone] 0@17..18
  LITERAL Integer 2 0@19..20
"
    ),
    (
        "($x:foo) => {}; ($($t:tt)*) => {}",
        "a",
        0,
        "arm 1
SUBTREE $$ 1@0..1 1@0..1
"
    ),
    (
        "($($v:vis),*) => {}",
        "",
        1,
        "error: unexpected token in input at 1@0..0
arm 0
SUBTREE $$ 1@0..0 1@0..0
"
    ),
    (
        "($x:ident) => {$($x)*}",
        "a",
        1,
        "error: Expand exceed limit at 1@0..1
arm 0
SUBTREE $$ 1@0..1 1@0..1
"
    ),
    (
        "($($t:ident),* as $ty:ident) => {}",
        "as u32",
        1,
        "error: leftover tokens at 1@0..6
arm 0
SUBTREE $$ 1@0..6 1@0..6
"
    ),
    (
        "($(a),?) => {}",
        "a,",
        1,
        "error: leftover tokens at 1@0..2
arm 0
SUBTREE $$ 1@0..2 1@0..2
"
    ),
    (
        "($(a);;*) => {}",
        "a;;a",
        1,
        "error: leftover tokens at 1@0..4
arm 0
SUBTREE $$ 1@0..4 1@0..4
"
    ),
    (
        "($($a:ident)* $b:ident) => {}",
        "x",
        1,
        "error: leftover tokens at 1@0..1
arm 0
SUBTREE $$ 1@0..1 1@0..1
"
    ),
    (
        "($(),*) => {}",
        "",
        1,
        "error: unexpected token in input at 1@0..0
arm 0
SUBTREE $$ 1@0..0 1@0..0
"
    ),
    (
        "($($x:ident)*) => {$($x)+}",
        "",
        1,
        "error: unexpected token in input at 1@0..0
arm 0
SUBTREE $$ 1@0..0 1@0..0
"
    ),
    (
        "($($x:ident)*) => {${concat(a, $x)}}",
        "b",
        1,
        "error: expected simple binding, found nested binding `x` at 0@32..33
arm 0
SUBTREE $$ 1@0..1 1@0..1
  IDENT   a 0@21..27
"
    ),
    (
        "\n($($e:expr_2021),* $(,)?) => {\n    $($e);* ;\n};\n",
        "\n    _,\n",
        1,
        "error: no rule matches input tokens at 1@5..6
arm 0
SUBTREE $$ 1@0..8 1@0..8
  PUNCH   ; [alone] 0@44..45
"
    ),
    (
        "($(a)? $(a)?) => {}",
        "a",
        1,
        "error: expected ident: `a` at 1@0..1
arm 0
SUBTREE $$ 1@0..1 1@0..1
"
    ),
    (
        "($e:expr) => {}",
        "r#let",
        1,
        "error: no rule matches input tokens at 1@0..5
arm 0
SUBTREE $$ 1@0..5 1@0..5
"
    ),
];

// What is printed with `--lint`.
pub const LINTS: &str = rows![
    // Another name and the word `as` can both come first.
    ("($($t:ident),* as $ty:ident) => {}", "as u32", 0, "rule 0: ambiguous at 0\n"),
    ("($(a)? $(a)?) => {}", "a", 0, "rule 0: several readings\n"),
    ("\n($($e:expr),* $(,)?) => {\n    $($e);* ;\n};\n", "\n    _,\n    const { 1 },\n", 0, "rule 0: one reading\n"),
    // There are two readings: no round, and one empty round.
    ("($($v:vis),*) => {}", "", 0, "rule 0: several readings\n"),
    // A fault of the template doesn't matter to matching.
    ("($x:ident) => {$($x)*}; ($x:ident) => {$x}", "a", 0, "rule 0: one reading\nrule 1: one reading\n"),
    ("($x:ident = $t:tt;) => { pair ($t) $x }", "a = 1", 0, "rule 0: stuck at 3\n"),
    ("($x:foo) => {}; ($($t:tt)*) => {}", "a", 0, "rule 0: stuck at 0\nrule 1: one reading\n"),
    ("\n(-1) => {-1};\n(- 2) => {- 2};\n(- 3.0) => {- 3.0};\n(@$lit:literal) => {$lit}\n", "@--1.0", 0, "rule 0: stuck at 0\nrule 1: stuck at 0\nrule 2: stuck at 0\nrule 3: stuck at 1\n"),
    // The opening counts as a token.
    ("((a b)) => {}", "(a c)", 0, "rule 0: stuck at 2\n"),
    ("($($a:ident)* $b:ident) => {}", "x", 0, "rule 0: ambiguous at 0\n"),
    // Rules of all styles; then a definition without rules.
    ("attr() (a) => {}; derive() (b) => {}; (c) => {}", "b", 0, "rule 0: stuck at 0\nrule 1: one reading\nrule 2: stuck at 0\n"),
    ("", "a", 0, ""),
    // The first of two ambiguous offsets, in two digits.
    ("(a a a a a a a a a a $($x:ident)* b $($y:ident)* c) => {}", "a a a a a a a a a a b c", 0, "rule 0: ambiguous at 10\n"),
    // The closing counts as a token, too.
    ("([$x:ident] b) => {}", "[x] c", 0, "rule 0: stuck at 3\n"),
];
