// Lints: diagnostics on the macro definitions of a file, without a call. A lint reports an error,
// or something that is unused, in rustc's words.
pub mod definitions;
pub mod error_location;
pub mod finding_messages;
pub mod lint;
pub mod linter;
pub mod parsed_macro;
pub mod repetition_lints;
pub mod similar_specifier;
pub mod unreachable_lints;
pub mod variable_display;
pub mod variable_syntax;
