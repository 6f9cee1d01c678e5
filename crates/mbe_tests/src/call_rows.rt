// Rows of calls that no text can express: arguments of trees that no text gives, and grammars that
// the test supplies.
use test_rows::rows;

// Each row has, in this order:
//
// 1. How many flat tokens the grammar counts, with `fault` if it faults, or `out` if memory runs
//    out.
// 2. A definition and an argument.
// 3. The index of the rule. Without an index the first rule doesn't match, whatever the error is.
// 4. The tokens of the expansion.
// 5. The error with its file and its bytes, if there is one.
pub const ROWS: &str = rows![
    // Trees that no text gives.
    ("0 fault", "([a]) => {}", "tokens 10
open none 1 0 1
word a 1 1 2
close ) 1 2 3"),
    ("0 fault", "(a) => {}", "tokens 10
open none 1 0 1
word a 1 1 2
close ) 1 2 3"),
    ("0 fault", "($x:ident) => {}", "tokens 10
open none 1 0 1
word a 1 1 2
close ) 1 2 3"),
    // A `tt` fragment is written without its invisible group.
    ("0 fault", "($t:tt) => {$t}", "tokens 10
open none 1 0 1
word a 1 1 2
close ) 1 2 3", 0, "word a 1 1 2"),
    ("0 fault", "($t:tt) => {$t}", "tokens 10
open none 1 5 6
open none 1 0 1
word a 1 1 2
close ) 1 2 3
close ) 1 6 7", 0, "open none 1 0 1
word a 1 1 2
close ) 1 2 3"),
    ("0 fault", "($t:tt) => {$t}", "tokens 10
open none 1 0 1
close ) 1 2 3", 0),
    // `() => {$r#y}`
    ("0 fault", "tokens 30
open ( 0 0 1
close ) 0 1 2
joint = 0 3 4
alone > 0 4 5
open { 0 6 7
joint $ 0 7 8
raw y 0 8 11", "", 0, "alone $ 0 8 11
word y 0 8 11"),
    ("0 fault", "($crate) => {A}", "tokens 6
word $crate 1 0 6", 0, "word A 0 13 14"),
    // A quote without a name after it is neither a token tree nor a lifetime.
    ("0 fault", "($t:tt) => {$t}", "tokens 1
joint ' 1 0 1"),
    ("0 fault", "($t:tt) => {$t}", "tokens 2
joint ' 1 0 1
number 1 1 1 2"),
    ("0 fault", "($t:tt) => {$t}", "tokens 2
joint ' 1 0 1
alone + 1 1 2"),
    ("0 fault", "($t:tt) => {$t}", "tokens 4
joint ' 1 0 1
open ( 1 1 2
word a 1 2 3
close ) 1 3 4"),
    (9, "($l:lifetime) => {$l}", "tokens 1
joint ' 1 0 1"),
    (9, "($l:lifetime) => {$l}", "tokens 2
joint ' 1 0 1
number 1 1 1 2"),
    (9, "($l:lifetime) => {$l}", "tokens 4
joint ' 1 0 1
open ( 1 1 2
word a 1 2 3
close ) 1 3 4"),
    (9, "($l:lifetime) => {$l}", "tokens 3
joint ' 1 0 1
joint ' 1 1 2
word a 1 2 3"),
    // A rule whose pattern is an invisible group with `$x:ident`.
    (1, "tokens 18
open ( 0 0 1
open none 0 1 2
alone $ 0 2 3
word x 0 3 4
alone : 0 4 5
word ident 0 5 10
close ) 0 10 11
close ) 0 11 12
joint = 0 12 13
alone > 0 13 14
open { 0 14 15
alone $ 0 15 16
word x 0 16 17
close ) 0 17 18", "tokens 3
open none 1 0 1
word a 1 1 2
close ) 1 2 3", 0, "word a 1 1 2"),
    (1, "tokens 18
open ( 0 0 1
open none 0 1 2
alone $ 0 2 3
word x 0 3 4
alone : 0 4 5
word ident 0 5 10
close ) 0 10 11
close ) 0 11 12
joint = 0 12 13
alone > 0 13 14
open { 0 14 15
alone $ 0 15 16
word x 0 16 17
close ) 0 17 18", "a"),
    // A statement is written unchanged, each in its own round.
    (3, "($($s:stmt);*) => {$($s);*}", "tokens 3
open none 1 0 1
word a 1 1 2
close ) 1 2 3", 0, "open none 1 0 1
word a 1 1 2
close ) 1 2 3"),
    // An expression of several words gets parentheses.
    (9, "($e:expr) => {$e}", "a b", 0, "open ( 0 15 16
word a 1 0 1
word b 1 2 3
close ) 0 15 16"),
    // Only a fragment of the grammar keeps an invisible group.
    (3, "($x:ty) => {$x}", "tokens 3
open none 1 0 1
word a 1 1 2
close ) 1 2 3", 0, "open none 1 0 1
word a 1 1 2
close ) 1 2 3"),
    (3, "($x:pat) => {$x}", "tokens 3
open none 1 0 1
word a 1 1 2
close ) 1 2 3", 0, "open none 1 0 1
word a 1 1 2
close ) 1 2 3"),
    (3, "($x:pat_param) => {$x}", "tokens 3
open none 1 0 1
word a 1 1 2
close ) 1 2 3", 0, "open none 1 0 1
word a 1 1 2
close ) 1 2 3"),
    (3, "($x:stmt) => {$x}", "tokens 3
open none 1 0 1
word a 1 1 2
close ) 1 2 3", 0, "open none 1 0 1
word a 1 1 2
close ) 1 2 3"),
    (3, "($x:block) => {$x}", "tokens 3
open none 1 0 1
word a 1 1 2
close ) 1 2 3", 0, "open none 1 0 1
word a 1 1 2
close ) 1 2 3"),
    (3, "($x:meta) => {$x}", "tokens 3
open none 1 0 1
word a 1 1 2
close ) 1 2 3", 0, "open none 1 0 1
word a 1 1 2
close ) 1 2 3"),
    (3, "($x:item) => {$x}", "tokens 3
open none 1 0 1
word a 1 1 2
close ) 1 2 3", 0, "open none 1 0 1
word a 1 1 2
close ) 1 2 3"),
    (3, "($x:vis) => {$x}", "tokens 3
open none 1 0 1
word a 1 1 2
close ) 1 2 3", 0, "open none 1 0 1
word a 1 1 2
close ) 1 2 3"),
    (3, "($x:tt) => {$x}", "tokens 3
open none 1 0 1
word a 1 1 2
close ) 1 2 3", 0, "word a 1 1 2"),
    // Fragments. A visibility may be empty, a type may not.
    (0, "($v:vis) => {[$v]}", "", 0, "open [ 0 13 14
close ) 0 16 17"),
    (5, "($v:vis) => {[$v]}", "", 0, "open [ 0 13 14
close ) 0 16 17"),
    (0, "($v:vis $x:ident) => {$v; $x}", "a", 0, "alone ; 0 24 25
word a 1 0 1"),
    (1, "($v:vis $x:ident) => {$v; $x}", "pub a", 0, "word pub 1 0 3
alone ; 0 24 25
word a 1 4 5"),
    (1, "($v:vis $x:ident) => {$v; $x}", ""),
    (1, "($v:vis $x:ident) => {$v; $x}", "a"),
    (1, "($v:vis $x:ident) => {$v; $x}", "pub a b"),
    (0, "($t:ty) => {}", ""),
    // A count that ends inside a group doesn't match. The first rule whose fragment is long enough
    // is used.
    (1, "($t:ty) => {}", "(a b)"),
    (2, "($t:ty) => {}", "(a b)"),
    (3, "($t:ty) => {}", "(a b)"),
    (4, "($t:ty) => {}", "(a b)", 0),
    (2, "($e:expr) => {}", "(a) b"),
    (3, "($t:ty) => {A}; ($t:ty $x:ident) => {B $t}; ($x:tt) => {C}", "a b c", 0, "word A 0 12 13"),
    (2, "($t:ty) => {A}; ($t:ty $x:ident) => {B $t}; ($x:tt) => {C}", "a b c", 1, "word B 0 37 38
word a 1 0 1
word b 1 2 3"),
    // Fragments of the grammar are written unchanged, expressions of several tokens in parentheses,
    // paths with two colons.
    (6, "($t:ty) => {$t}", "&'a [u8]", 0, "alone & 1 0 1
joint ' 1 1 2
word a 1 2 3
open [ 1 4 5
word u8 1 5 7
close ) 1 7 8"),
    (2, "($t:ty ;) => {$t}", "a+;", 0, "word a 1 0 1
alone + 1 1 2"),
    (1, "($e:expr) => {$e}; ($t:tt) => {A}", 1, 0, "number 1 1 0 1"),
    (1, "($e:expr) => {[$e]}; ($t:tt) => {A}", 1, 0, "open [ 0 14 15
number 1 1 0 1
close ) 0 17 18"),
    (3, "($e:expr) => {$e * 2}", "1 + 2", 0, "open ( 0 15 16
number 1 1 0 1
alone + 1 2 3
number 2 1 4 5
close ) 0 15 16
alone * 0 17 18
number 2 0 19 20"),
    (4, "($p:path) => {$p}", "Vec<u8>", 0, "word Vec 1 0 3
joint : 1 0 7
alone : 1 0 7
alone < 1 3 4
word u8 1 4 6
alone > 1 6 7"),
    // A grammar that faults after a group.
    ("4 fault", "($t:ty) => {}", "(a b)"),
    ("4 fault", "($e:expr) => {}", "(a) b"),
    // Whether the first token can begin an expression, an expression of edition 2021, and a type.
    (1, "($x:expr) => {}", "a", 0),
    (1, "($x:expr_2021) => {}", "a", 0),
    (1, "($x:ty) => {}", "a", 0),
    (1, "($x:expr) => {}", 1, 0),
    (1, "($x:expr_2021) => {}", 1, 0),
    (1, "($x:ty) => {}", 1, 0),
    (1, "($x:expr) => {}", "let"),
    (1, "($x:expr_2021) => {}", "let"),
    (1, "($x:ty) => {}", "let", 0),
    (1, "($x:expr) => {}", "r#let"),
    (1, "($x:expr_2021) => {}", "r#let"),
    (1, "($x:ty) => {}", "r#let", 0),
    (1, "($x:expr) => {}", "lets", 0),
    (1, "($x:expr_2021) => {}", "lets", 0),
    (1, "($x:ty) => {}", "lets", 0),
    (1, "($x:expr) => {}", "_", 0),
    (1, "($x:expr_2021) => {}", "_"),
    (1, "($x:ty) => {}", "_", 0),
    (1, "($x:expr) => {}", "const", 0),
    (1, "($x:expr_2021) => {}", "const"),
    (1, "($x:ty) => {}", "const", 0),
    (1, "($x:expr) => {}", "r#const", 0),
    (1, "($x:expr_2021) => {}", "r#const", 0),
    (1, "($x:ty) => {}", "r#const", 0),
    (1, "($x:expr) => {}", "constant", 0),
    (1, "($x:expr_2021) => {}", "constant", 0),
    (1, "($x:ty) => {}", "constant", 0),
    // Recovery from errors. Several threads meet at the end of either pattern. By the first of them
    // the first rule has the most bindings.
    (1, "($(a)* $(a $(: $y:ident)?)* c) => {R0}; ($(a $(: $x:ident)?)* $(a)* c) => {R1}", "a a a a c d", 0, "word R0 0 35 37", "unexpected token in input 1 0 1"),
    // At the quote of `($(b $(')?)'a*) => {}` one thread goes on over one token, and one over two.
    (1, "tokens 21
open ( 0 0 1
alone $ 0 1 2
open ( 0 2 3
word b 0 3 4
alone $ 0 5 6
open ( 0 6 7
joint ' 0 7 8
close ) 0 8 9
alone ? 0 9 10
close ) 0 10 11
joint ' 0 11 12
word a 0 12 13
alone * 0 13 14
close ) 0 14 15
joint = 0 16 17
alone > 0 17 18
open { 0 19 20
close } 0 20 21", "b 'a b", 0, "", "leftover tokens 1 0 6"),
    // A quote without a name is no token tree.
    (1, "($t:tt) => {[$t]}", "tokens 2
joint ' 1 0 1
number 1 1 1 2", 0, "open [ 0 12 13
close ) 0 15 16", "expected token tree 1 0 1"),
    // The count ends inside a group: the whole group is bound, and what follows it isn't.
    (2, "($e:expr) => {[$e]}", "(a b) c", 0, "open [ 0 14 15
open ( 1 0 1
word a 1 1 2
word b 1 3 4
close ) 1 4 5
close ) 0 17 18", "expected Expr 1 0 1"),
    ("4 fault", "($e:expr) => {[$e]}", "(a b) c", 0, "open [ 0 14 15
open ( 1 0 1
word a 1 1 2
word b 1 3 4
close ) 1 4 5
close ) 0 17 18", "expected Expr 1 0 1"),
    // A visibility that is missing is empty.
    ("0 fault", "($v:vis) => {[$v]}", "", 0, "open [ 0 13 14
close ) 0 16 17", "expected Vis 1 0 0"),
    // The second rule leaves one word unmatched, the others leave two.
    (1, "($t:ty) => {A}; ($t:ty $x:ident) => {B $t}; ($x:tt) => {C}", "a b c", 1, "word B 0 37 38
word a 1 0 1", "leftover tokens 1 0 5"),
    // A grammar that runs out of memory. It is asked for an expression, and not for a name.
    ("0 out", "($x:ident) => {}; ($e:expr) => {}", 1, "out of memory"),
    ("0 out", "($x:ident) => {}; ($e:expr) => {}", "a", 0),
];
