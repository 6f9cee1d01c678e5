// The kinds of messages. A SARIF log calls them rules, and a JSON object has them as codes.
use crate::diagnostic::Level;

/// A kind of messages.
#[derive(Drop)]
pub struct MessageKind {
    pub id: &'static str,
    /// The level that its messages usually have.
    pub level: &'static str,
    /// What its messages say.
    pub about: &'static str,
}

// A text that only messages of a kind begin with or have.
#[derive(Drop)]
struct Mark {
    text: &'static str,
    id: &'static str,
}

/// The kind of errors on texts that aren't Rust, and of every other error.
const SYNTAX: &str = "syntax";

/// The kind of notes without a kind of their own.
const NOTE: &str = "note";

/// All kinds.
pub static KINDS: [MessageKind; 20] = [
    MessageKind {
        id: "no-matching-rule",
        level: "error",
        about: "No rule of the macro matches the call.",
    },
    MessageKind {
        id: "ambiguous-call",
        level: "error",
        about: "A rule of the macro matches the call in several ways.",
    },
    MessageKind {
        id: "failed-expansion",
        level: "error",
        about: "A template or a fragment has a fault in this call.",
    },
    MessageKind {
        id: "expansion-limit",
        level: "error",
        about: "The expansion goes beyond a limit of the run.",
    },
    MessageKind {
        id: "unknown-macro",
        level: "error",
        about: "There is no macro of that name.",
    },
    MessageKind {
        id: "uncertain-macro",
        level: "note",
        about: "The call may mean one of several macros, so it is not expanded.",
    },
    MessageKind {
        id: "invalid-definition",
        level: "error",
        about: "The definition of the macro is refused.",
    },
    MessageKind {
        id: "duplicate-variable",
        level: "error",
        about: "The pattern has two variables of one name.",
    },
    MessageKind {
        id: "invalid-specifier",
        level: "error",
        about: "There is no fragment specifier of that name.",
    },
    MessageKind {
        id: "repetition-separator",
        level: "error",
        about: "A repetition with `?` has a separator.",
    },
    MessageKind {
        id: "unknown-variable",
        level: "warning",
        about: "The template uses a variable that the pattern does not have.",
    },
    MessageKind {
        id: "unused-variable",
        level: "warning",
        about: "The template does not use a variable of the pattern.",
    },
    MessageKind {
        id: "repetition-depth",
        level: "error",
        about: "The template has fewer repetitions around a variable than the pattern.",
    },
    MessageKind {
        id: "follow-set",
        level: "error",
        about: "A fragment is followed by something that is not allowed after it.",
    },
    MessageKind {
        id: "repetition-without-variable",
        level: "error",
        about: "No variable in a repetition of the template repeats there.",
    },
    MessageKind {
        id: "unreachable-rule",
        level: "warning",
        about: "An earlier rule matches everything that this rule does.",
    },
    MessageKind {
        id: "missing-file",
        level: "note",
        about: "The file of a module or of an `include!` is not found.",
    },
    MessageKind {
        id: "captured-name",
        level: "note",
        about: "A name may mean another local than in the original text.",
    },
    MessageKind {
        id: SYNTAX,
        level: "error",
        about: "The text is not Rust, or a `cfg` has a fault.",
    },
    MessageKind {
        id: NOTE,
        level: "note",
        about: "Other information on the run.",
    },
];

// What messages of a kind begin with.
static STARTS: [Mark; 31] = [
    Mark {
        text: "no rules expected ",
        id: "no-matching-rule",
    },
    Mark {
        text: "unexpected end of macro invocation",
        id: "no-matching-rule",
    },
    Mark {
        text: "local ambiguity when calling macro",
        id: "ambiguous-call",
    },
    Mark {
        text: "ambiguity: multiple successful parses",
        id: "ambiguous-call",
    },
    Mark {
        text: "meta-variable ",
        id: "failed-expansion",
    },
    Mark {
        text: "limit of ",
        id: "expansion-limit",
    },
    Mark {
        text: "recursion limit of ",
        id: "expansion-limit",
    },
    Mark {
        text: "more than ",
        id: "expansion-limit",
    },
    Mark {
        text: "cannot find macro ",
        id: "unknown-macro",
    },
    Mark {
        text: "cannot tell which macro ",
        id: "uncertain-macro",
    },
    Mark {
        text: "macro `",
        id: "invalid-definition",
    },
    Mark {
        text: "macros must contain",
        id: "invalid-definition",
    },
    Mark {
        text: "missing fragment specifier",
        id: "invalid-definition",
    },
    Mark {
        text: "repetition matches empty token tree",
        id: "invalid-definition",
    },
    Mark {
        text: "invalid metavariable expression",
        id: "invalid-definition",
    },
    Mark {
        text: "expected one of: `*`",
        id: "invalid-definition",
    },
    Mark {
        text: "expected subtree",
        id: "invalid-definition",
    },
    Mark {
        text: "expected identifier",
        id: SYNTAX,
    },
    Mark {
        text: "expected ident",
        id: "invalid-definition",
    },
    Mark {
        text: "expected `=`",
        id: "invalid-definition",
    },
    Mark {
        text: "expected `>`",
        id: "invalid-definition",
    },
    Mark {
        text: "expected `;`",
        id: "invalid-definition",
    },
    Mark {
        text: "expected `()`",
        id: "invalid-definition",
    },
    Mark {
        text: "expected `$()`",
        id: "invalid-definition",
    },
    Mark {
        text: "duplicate matcher binding",
        id: "duplicate-variable",
    },
    Mark {
        text: "invalid fragment specifier",
        id: "invalid-specifier",
    },
    Mark {
        text: "the `?` macro repetition",
        id: "repetition-separator",
    },
    Mark {
        text: "unknown macro variable",
        id: "unknown-variable",
    },
    Mark {
        text: "unused macro variable",
        id: "unused-variable",
    },
    Mark {
        text: "attempted to repeat",
        id: "repetition-without-variable",
    },
    Mark {
        text: "unreachable rule",
        id: "unreachable-rule",
    },
];

// Texts inside the messages of a kind. Such messages begin differently.
static PARTS: [Mark; 11] = [
    Mark {
        text: "` is not allowed on the pattern side",
        id: "invalid-definition",
    },
    Mark {
        text: " metavariable expressions are not allowed in matchers",
        id: "invalid-definition",
    },
    Mark {
        text: " in the call of `",
        id: "failed-expansion",
    },
    Mark {
        text: " is still repeating at this depth",
        id: "repetition-depth",
    },
    Mark {
        text: ", which is not allowed for `",
        id: "follow-set",
    },
    Mark {
        text: "file not found for ",
        id: "missing-file",
    },
    Mark {
        text: "two files are found for ",
        id: "missing-file",
    },
    Mark {
        text: "circular: ",
        id: "missing-file",
    },
    Mark {
        text: " keeps its name, since ",
        id: "captured-name",
    },
    Mark {
        text: " is the one that the call binds",
        id: "captured-name",
    },
    Mark {
        text: " is the local that is in scope here",
        id: "captured-name",
    },
];

// Returns the kind of a message that begins with a text of `STARTS`.
fn kind_by_start(text: &str) -> Option<&'static str> {
    for mark in &STARTS {
        if text.starts_with(mark.text) {
            return Some(mark.id);
        }
    }
    None
}

// Returns the kind of a message by a part of it.
fn kind_by_part(text: &str) -> Option<&'static str> {
    for mark in &PARTS {
        if text.contains(mark.text) {
            return Some(mark.id);
        }
    }
    None
}

/// Returns the id of the kind of a message.
pub fn kind_of(level: Level, text: &str) -> &'static str {
    if let Some(id) = kind_by_start(text).or(kind_by_part(text)) {
        return id;
    }
    match level {
        Level::Error | Level::Warning => SYNTAX,
        Level::Note | Level::Help => NOTE,
    }
}

/// Returns the code of a diagnostic: the id of its kind. It is empty for a note without a kind of its
/// own.
pub fn code_of(level: Level, text: &str) -> &'static str {
    let id = kind_of(level, text);
    if id == NOTE { "" } else { id }
}
