// Grammars that are read from texts, and the faults of such texts.
use crate::text::prefixes::takes;
use mbe_grammar::peg::peg_error::PegError;
use mbe_grammar::peg::peg_grammar::PegGrammar;
use mbe_grammar::tables::node::Node;
use mbe_tt::grammar::{FragmentGrammar, PrefixEntryPoint};
use mbe_tt::span::Edition;
use std::alloc::{AllocError, Global};
use test_rows::rows;

// Each row: a text, and its nodes. The nodes of the rules' names come first.
pub const NODES: &str = rows![
    ("", "[]"),
    ("# nothing", "[]"),
    ("a = NAME", "[Part(1), Terminal(Name)]"),
    (
        "a = b b b = IDENT",
        "[Part(4), Part(5), Part(1), Part(1), Then(2, 3), Terminal(Identifier)]"
    ),
    (
        "a = \"x\" | '->' | `<`",
        "[Part(5), Terminal(Word(\"x\")), Terminal(Operator(\"->\")), Or(1, 2), Terminal(Sign('<')), Or(3, 4)]"
    ),
    (
        "a = ANY? END*",
        "[Part(5), Terminal(Any), Maybe(1), Terminal(End), Repeated(3), Then(2, 4)]"
    ),
    (
        "a = LITERAL+",
        "[Part(3), Terminal(Literal), Repeated(1), Then(1, 2)]"
    ),
    ("a = POINTED", "[Part(1), Terminal(Pointed)]"),
    (
        "a = &a ~a! a",
        "[Part(8), Part(0), Ahead(1), Part(0), Needed(3), NotAhead(4), Then(2, 5), Part(0), Then(6, 7)]"
    ),
    (
        "a = (a | b) b\nb = PAREN",
        "[Part(7), Part(8), Part(0), Part(1), Or(2, 3), Part(4), Part(1), Then(5, 6), Terminal(Group([Parenthesis]))]"
    ),
    (
        "a = PAREN[a] # BRACE[b]",
        "[Part(2), Part(0), Inside(Parenthesis, 1)]"
    ),
    (
        "a=BRACKET[`#`\n]|VISIBLE",
        "[Part(4), Terminal(Sign('#')), Inside(Bracket, 1), Terminal(Group([Parenthesis, Brace, Bracket])), Or(2, 3)]"
    ),
    (
        "a = SINCE_2024 (BRACE)!",
        "[Part(5), Terminal(Since(Edition2024)), Terminal(Group([Brace])), Part(2), Needed(3), Then(1, 4)]"
    ),
];

/// Whether a text is read as these nodes.
pub fn has_nodes(alloc: Global, text: &str, want: &str) -> Result<bool, AllocError> {
    match PegGrammar::read(alloc, text) {
        Ok(rules) => is_debug(alloc, rules.table(Edition::Edition2021, &[]).nodes, want),
        Err(_) => Ok(false),
    }
}

fn is_debug(alloc: Global, nodes: &[Node<'_>], want: &str) -> Result<bool, AllocError> {
    let text = format!(in alloc; "{nodes:?}")?;
    Ok(text.as_str() == want)
}

// Each row: a text that is no grammar, and its fault with the line and the column.
pub const FAULTS: &str = rows![
    ("a = NAME\n\nb = type", "3:5: no rule is named \"type\""),
    ("a = (é | type)", "1:6: no word of a grammar begins here"),
    ("a = \"é\" | type", "1:11: no rule is named \"type\""),
    ("NAME", "1:1: a name and a `=` have to come before this"),
    (
        "\n  | a = a",
        "2:3: a name and a `=` have to come before this"
    ),
    ("a =\nb = NAME", "2:1: a rule is missing here"),
    ("a = NAME | # b\n", "1:12: a rule is missing here"),
    ("a = | NAME", "1:5: a rule is missing here"),
    ("a = ()", "1:6: a rule is missing here"),
    ("a = PAREN[]", "1:11: a rule is missing here"),
    ("a = & | a", "1:7: a rule is missing here"),
    ("a = &&a", "1:6: a rule is missing here"),
    ("a = a & )", "1:9: a rule is missing here"),
    ("a = ?", "1:5: no rule is before this"),
    ("a = a | *", "1:9: no rule is before this"),
    ("a = (a\nb = a", "1:5: nothing closes this"),
    ("a = BRACE[(a)", "1:5: nothing closes this"),
    ("a = a)", "1:6: nothing opens this"),
    ("a = (a]", "1:7: nothing opens this"),
    ("a = \"b\n\"", "1:5: nothing closes this"),
    ("a = ''", "1:5: an empty text"),
    ("a = `bc`", "1:5: one character and a \"`\" have to follow"),
    ("a = a\na = a", "2:1: a rule before is named \"a\""),
    (
        "KEYWORDS_2018 = \"a\" b",
        "1:21: keywords are words in `\"`"
    ),
    ("ty = tie\n\ntie = type", "3:7: no rule is named \"type\""),
];

/// Whether the fault of a text is that one.
pub fn is_at_fault(alloc: Global, text: &str, want: &str) -> Result<bool, AllocError> {
    match PegGrammar::read(alloc, text) {
        Ok(_) => Ok(false),
        Err(fault) => is_shown(alloc, fault, want),
    }
}

// What a program writes of a file that is no grammar.
fn message(alloc: Global, file: &str, fault: PegError<'_>) -> Result<String, AllocError> {
    format!(in alloc; "{file}:{fault}")
}

fn is_shown(alloc: Global, fault: PegError<'_>, want: &str) -> Result<bool, AllocError> {
    let message = message(alloc, "grammar.txt", fault)?;
    Ok(message.as_str().strip_prefix("grammar.txt:") == Some(want))
}

// A grammar of sums, whose operands are names, literals and sums in parentheses.
const SUMS: &str = "
    # What `$e:expr` takes.
    expr = operand ('+' operand!)*
    operand = NAME | LITERAL | PAREN[expr]
    KEYWORDS_2015 = \"let\" \"fn\"
    KEYWORDS_2024 = \"gen\"
";

// Each row: a text, and how many of its flat tokens the grammar counts.
pub const TAKEN: &str = rows![
    ("a", 1),
    ("a + 1 b", 3),
    ("(a + b) + c;", 7),
    ("(a b)", "fault"),
    ("a +", "fault"),
    ("let", "fault"),
    ("r#let", 1),
    ("gen", 1),
];

/// Whether the text begins with a sum of that many flat tokens.
pub fn is_sum(alloc: Global, text: &str, count: &str) -> Result<bool, AllocError> {
    let Ok(rules) = PegGrammar::read(alloc, SUMS) else {
        return Ok(false);
    };
    let table = rules.table(Edition::Edition2021, &[]);
    takes(alloc, &table, PrefixEntryPoint::Expr, (text, count))
}

/// Whether `gen` is a keyword in edition 2024, and no rule is for types.
pub fn has_keywords(alloc: Global) -> Result<bool, AllocError> {
    let Ok(rules) = PegGrammar::read(alloc, SUMS) else {
        return Ok(false);
    };
    let table = rules.table(Edition::Edition2024, &[]);
    let passes = table.is_keyword("gen") && !table.is_keyword("r#gen");
    Ok(passes && takes(alloc, &table, PrefixEntryPoint::Ty, ("a", "fault"))?)
}
