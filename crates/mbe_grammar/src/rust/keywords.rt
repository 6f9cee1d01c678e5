// Rust's keywords, strict and reserved, each with the first edition that has it (the Rust
// Reference, "Keywords"). Weak keywords, such as `union` and `safe`, are names.
use crate::tables::node::Keyword;
use mbe_tt::span::Edition;

/// The keywords of Rust. In an earlier edition an identifier with such a text is a name, and in
/// every edition if it is raw.
pub const KEYWORDS: &[Keyword<'static>] = &[
    Keyword {
        text: "as",
        since: Edition::Edition2015,
    },
    Keyword {
        text: "break",
        since: Edition::Edition2015,
    },
    Keyword {
        text: "const",
        since: Edition::Edition2015,
    },
    Keyword {
        text: "continue",
        since: Edition::Edition2015,
    },
    Keyword {
        text: "crate",
        since: Edition::Edition2015,
    },
    Keyword {
        text: "else",
        since: Edition::Edition2015,
    },
    Keyword {
        text: "enum",
        since: Edition::Edition2015,
    },
    Keyword {
        text: "extern",
        since: Edition::Edition2015,
    },
    Keyword {
        text: "false",
        since: Edition::Edition2015,
    },
    Keyword {
        text: "fn",
        since: Edition::Edition2015,
    },
    Keyword {
        text: "for",
        since: Edition::Edition2015,
    },
    Keyword {
        text: "if",
        since: Edition::Edition2015,
    },
    Keyword {
        text: "impl",
        since: Edition::Edition2015,
    },
    Keyword {
        text: "in",
        since: Edition::Edition2015,
    },
    Keyword {
        text: "let",
        since: Edition::Edition2015,
    },
    Keyword {
        text: "loop",
        since: Edition::Edition2015,
    },
    Keyword {
        text: "match",
        since: Edition::Edition2015,
    },
    Keyword {
        text: "mod",
        since: Edition::Edition2015,
    },
    Keyword {
        text: "move",
        since: Edition::Edition2015,
    },
    Keyword {
        text: "mut",
        since: Edition::Edition2015,
    },
    Keyword {
        text: "pub",
        since: Edition::Edition2015,
    },
    Keyword {
        text: "ref",
        since: Edition::Edition2015,
    },
    Keyword {
        text: "return",
        since: Edition::Edition2015,
    },
    Keyword {
        text: "self",
        since: Edition::Edition2015,
    },
    Keyword {
        text: "Self",
        since: Edition::Edition2015,
    },
    Keyword {
        text: "static",
        since: Edition::Edition2015,
    },
    Keyword {
        text: "struct",
        since: Edition::Edition2015,
    },
    Keyword {
        text: "super",
        since: Edition::Edition2015,
    },
    Keyword {
        text: "trait",
        since: Edition::Edition2015,
    },
    Keyword {
        text: "true",
        since: Edition::Edition2015,
    },
    Keyword {
        text: "type",
        since: Edition::Edition2015,
    },
    Keyword {
        text: "unsafe",
        since: Edition::Edition2015,
    },
    Keyword {
        text: "use",
        since: Edition::Edition2015,
    },
    Keyword {
        text: "where",
        since: Edition::Edition2015,
    },
    Keyword {
        text: "while",
        since: Edition::Edition2015,
    },
    Keyword {
        text: "abstract",
        since: Edition::Edition2015,
    },
    Keyword {
        text: "become",
        since: Edition::Edition2015,
    },
    Keyword {
        text: "box",
        since: Edition::Edition2015,
    },
    Keyword {
        text: "do",
        since: Edition::Edition2015,
    },
    Keyword {
        text: "final",
        since: Edition::Edition2015,
    },
    Keyword {
        text: "macro",
        since: Edition::Edition2015,
    },
    Keyword {
        text: "override",
        since: Edition::Edition2015,
    },
    Keyword {
        text: "priv",
        since: Edition::Edition2015,
    },
    Keyword {
        text: "typeof",
        since: Edition::Edition2015,
    },
    Keyword {
        text: "unsized",
        since: Edition::Edition2015,
    },
    Keyword {
        text: "virtual",
        since: Edition::Edition2015,
    },
    Keyword {
        text: "yield",
        since: Edition::Edition2015,
    },
    Keyword {
        text: "async",
        since: Edition::Edition2018,
    },
    Keyword {
        text: "await",
        since: Edition::Edition2018,
    },
    Keyword {
        text: "dyn",
        since: Edition::Edition2018,
    },
    Keyword {
        text: "try",
        since: Edition::Edition2018,
    },
    Keyword {
        text: "gen",
        since: Edition::Edition2024,
    },
];
