// Describes the surroundings of a tree: what precedes it in its group, and what the group holds.
use mbe_rewriter::macro_items::{MacroCall, begins_with_operator};
use mbe_tt::fragment_group::FragmentGroup;
use mbe_tt::tt::{Delimiter, DelimiterKind, Leaf, Spacing, TokenTreesView, TtElement};
use std::alloc::Allocator;

// What precedes a tree in its group.
#[derive(Clone, Copy, Drop, PartialEq, Eq)]
pub(crate) enum Preceding {
    // A `;`, braces or an attribute, or no tree in a group in braces. A statement may begin here.
    Statement,
    // A `=>`, or no tree of the value of a block. A block here would be the whole value.
    Value,
    // The `#` of an attribute of a statement, or its `!`.
    Hash,
    // A `=` right before the next punct. It isn't the end of `==`, `<=`, `>=` or `!=`.
    Equals,
    // A `<`, `>` or `!` right before the next punct. A `=` makes it another operator.
    Comparison,
    // A `<`, which may begin generic arguments.
    Less,
    // The word `as`.
    As,
    // The word `break`.
    Break,
    // The `'` of a lifetime after an operator, as in `&'a`.
    Quote,
    // An operator, perhaps with a lifetime, `mut` or `const` after it.
    Operator,
    Other,
}

// What a group holds.
#[derive(Clone, Copy, Drop, PartialEq, Eq)]
pub(crate) enum GroupContent {
    // Statements whose last one may be the value of the group.
    Block,
    // Items, or statements that are only a part of a block.
    Statements,
    // The arguments of a macro of the standard library.
    Arguments,
    Other,
}

// Whether the block of an `if`, `while`, `for` or `match` is still to come.
#[derive(Clone, Copy, Drop, PartialEq, Eq)]
pub(crate) enum Head {
    None,
    // Its condition or its scrutinee is here.
    Expression,
    // The pattern of a `let` in its condition is here.
    Pattern,
}

// The place of a tree.
#[derive(Clone, Copy, Drop)]
pub(crate) struct Place {
    pub(crate) last: Preceding,
    pub(crate) content: GroupContent,
    pub(crate) head: Head,
}

impl Place {
    // Returns the same place after another tree.
    pub(crate) fn after(self, last: Preceding) -> Place {
        Place { last, ..self }
    }

    fn with_head(self, head: Head) -> Place {
        Place { head, ..self }
    }

    // Returns the place after a `;`. In parentheses and brackets no statement begins there.
    fn after_semicolon(self) -> Place {
        let last = match self.content {
            GroupContent::Block | GroupContent::Statements => Preceding::Statement,
            GroupContent::Arguments | GroupContent::Other => Preceding::Other,
        };
        self.with_head(Head::None).after(last)
    }

    // Returns the place of a statement's first tree among trees that are no whole block.
    pub(crate) fn within_expansion(self) -> Place {
        match self.content {
            GroupContent::Block => Place {
                content: GroupContent::Statements,
                ..self
            },
            GroupContent::Statements | GroupContent::Arguments | GroupContent::Other => self,
        }
    }
}

fn place_of(last: Preceding, content: GroupContent) -> Place {
    Place {
        last,
        content,
        head: Head::None,
    }
}

// Returns the place of the first tree of a file.
pub(crate) fn place_in_file() -> Place {
    place_of(Preceding::Statement, GroupContent::Statements)
}

// Returns the place of the first tree of a macro's argument, where that is made of expressions.
pub(crate) fn place_in_arguments() -> Place {
    place_of(Preceding::Other, GroupContent::Arguments)
}

// Returns the place of the first tree of a group that is at `around`. A group without delimiters
// is a fragment. It holds no statement if it is an expression, or where no statement may begin, as
// in the arguments of a macro.
pub(crate) fn place_in_tree(delimiter: Delimiter, around: Place) -> Place {
    let is_argument = matches!(
        around.content,
        GroupContent::Arguments | GroupContent::Other
    );
    let is_fragment = delimiter.kind == DelimiterKind::Invisible;
    if is_fragment && (is_argument || FragmentGroup::Expr.is_around(delimiter)) {
        place_of(Preceding::Other, GroupContent::Other)
    } else {
        place_in_group(delimiter.kind)
    }
}

// Returns the place of the first tree of a group of that kind. Braces hold statements, and a group
// without delimiters may hold some.
pub(crate) fn place_in_group(kind: DelimiterKind) -> Place {
    match kind {
        DelimiterKind::Brace => place_of(Preceding::Statement, GroupContent::Block),
        DelimiterKind::Invisible => place_of(Preceding::Statement, GroupContent::Statements),
        DelimiterKind::Parenthesis | DelimiterKind::Bracket => {
            place_of(Preceding::Other, GroupContent::Other)
        }
    }
}

// Returns the place after the tree at the front, which is at `place`.
pub(crate) fn place_after_tree<A: Allocator>(tokens: TokenTreesView<'_, A>, place: Place) -> Place {
    match tokens.iter().next() {
        Some(TtElement::Leaf(Leaf::Punct(punct))) => {
            place_after_punct(punct.char, punct.spacing == Spacing::Joint, place)
        }
        Some(TtElement::Leaf(Leaf::Ident(ident))) => place_after_word(ident.sym.as_str(), place),
        Some(TtElement::Subtree(group, _)) => place_after_group(group.delimiter.kind, place),
        Some(TtElement::Leaf(Leaf::Literal(_))) | None => place.after(Preceding::Other),
    }
}

// Returns the place after a group. Braces end the head of an `if`, unless a pattern has them.
fn place_after_group(kind: DelimiterKind, place: Place) -> Place {
    match kind {
        DelimiterKind::Brace if place.head == Head::Pattern => place.after(Preceding::Other),
        DelimiterKind::Brace => place.with_head(Head::None).after(Preceding::Statement),
        DelimiterKind::Bracket if place.last == Preceding::Hash => {
            place.after(Preceding::Statement)
        }
        DelimiterKind::Parenthesis | DelimiterKind::Bracket | DelimiterKind::Invisible => {
            place.after(Preceding::Other)
        }
    }
}

// Returns the place after a word.
fn place_after_word(word: &str, place: Place) -> Place {
    match word {
        _ if place.last == Preceding::Quote => place.after(Preceding::Operator),
        "mut" | "const" | "raw" if place.last == Preceding::Operator => place,
        "as" => place.after(Preceding::As),
        "break" => place.after(Preceding::Break),
        "if" | "while" | "match" | "in" => {
            place.with_head(Head::Expression).after(Preceding::Other)
        }
        "let" if place.head == Head::Expression => {
            place.with_head(Head::Pattern).after(Preceding::Other)
        }
        _ => place.after(Preceding::Other),
    }
}

// Returns the place after a punct.
fn place_after_punct(char: char, is_joint: bool, place: Place) -> Place {
    match (char, place.last) {
        (';', _) => place.after_semicolon(),
        // This is the end of `=>`.
        ('>', Preceding::Equals) => place.with_head(Head::None).after(Preceding::Value),
        ('=', _) if place.head == Head::Pattern => {
            place.with_head(Head::Expression).after(Preceding::Other)
        }
        (_, last) => place.after(preceding_after_punct(char, is_joint, last)),
    }
}

// Returns what a punct other than a `;` and the end of `=>` is to the tree after it.
fn preceding_after_punct(char: char, is_joint: bool, last: Preceding) -> Preceding {
    match (char, last) {
        ('#', Preceding::Statement) | ('!', Preceding::Hash) => Preceding::Hash,
        ('\'', Preceding::Operator) => Preceding::Quote,
        ('=', Preceding::Equals | Preceding::Comparison) => Preceding::Operator,
        ('=', _) if is_joint => Preceding::Equals,
        ('<' | '>' | '!', _) if is_joint => Preceding::Comparison,
        ('<', _) => Preceding::Less,
        ('+' | '-' | '*' | '/' | '%' | '^' | '&' | '|' | '.' | '?' | '>' | '!' | '@', _) =>
            Preceding::Operator,
        _ => Preceding::Other,
    }
}

// Returns the place after a call, where `rest` is left. A call by braces or with its `;` ends a
// statement.
pub(crate) fn place_after_call<A: Allocator>(
    call: MacroCall<'_, A>,
    rest: TokenTreesView<'_, A>,
    place: Place,
) -> Place {
    let consumes_semicolon = rest.flat_len() < call.rest.flat_len();
    if consumes_semicolon || call.group.delimiter.kind == DelimiterKind::Brace {
        place.after(Preceding::Statement)
    } else {
        place.after(Preceding::Other)
    }
}

// Whether the arguments of a function call, or an index, are at the front.
pub(crate) fn is_applied<A: Allocator>(rest: TokenTreesView<'_, A>) -> bool {
    match rest.iter().next() {
        Some(TtElement::Subtree(group, _)) => matches!(
            group.delimiter.kind,
            DelimiterKind::Parenthesis | DelimiterKind::Bracket
        ),
        Some(TtElement::Leaf(_)) | None => false,
    }
}

// Whether an expansion is an operand of what follows its call. A call by braces that is a statement
// is an operand only of `.` and `?`.
fn is_operand_of_rest<A: Allocator>(call: MacroCall<'_, A>, last: Preceding) -> bool {
    if last == Preceding::Statement && call.group.delimiter.kind == DelimiterKind::Brace {
        let mut iter = call.rest.iter();
        return iter.expect_char('.').is_ok() || iter.expect_char('?').is_ok();
    }
    begins_with_operator(call.rest) || is_applied(call.rest)
}

// Whether an expansion is an operand of what is before its call or after it.
pub(crate) fn is_operand<A: Allocator>(call: MacroCall<'_, A>, last: Preceding) -> bool {
    matches!(
        last,
        Preceding::Operator | Preceding::Comparison | Preceding::Less | Preceding::As
    ) || is_operand_of_rest(call, last)
}

// Whether a call is the value of its block, which rustc reads as an expression. A call by braces
// is a statement there.
pub(crate) fn is_value_of_block<A: Allocator>(call: MacroCall<'_, A>, place: Place) -> bool {
    place.last == Preceding::Statement
        && place.content == GroupContent::Block
        && call.group.delimiter.kind != DelimiterKind::Brace
        && call.rest.iter().is_empty()
}
