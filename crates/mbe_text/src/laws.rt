// Laws of the text that a `Writer` writes and `lex_as` reads.
//
// The main law is `trees_round_trip`: trees of Rust are the trees of their written text, without
// spans. Each function states a law as its contract. The functions run nothing.
ghost use Rattle.mbe_text.specs.Laws.Gaps.{GapsAreBlank, GapsAreInBytes, GapsSeparatePuncts};
ghost use Rattle.mbe_text.specs.Laws.Gaps.{PunctsJoin};
ghost use Rattle.mbe_text.specs.Laws.RoundTrip.{
  CharsAreRead,
  NumbersAreRead,
  RawStringsAreRead,
  StringsAreRead,
  TreesRoundTrip,
};
ghost use Rattle.mbe_text.specs.Laws.Lexed.{LexedAreRust, TextRoundTrips};

/// A gap, which the printer puts between two tokens, is part of no token and hides none. The next
/// token of a text with a gap before it is the next token of that text.
pub fn gaps_are_blank()
    ensures { GapsAreBlank }
{}

/// The characters of a gap followed by a text are the gap's bytes, followed by the characters of
/// the text.
pub fn gaps_are_in_bytes()
    ensures { GapsAreInBytes }
{}

/// A punct is alone if a space or a new line follows it, whatever comes after that gap.
pub fn gaps_separate_puncts()
    ensures { GapsSeparatePuncts }
{}

/// A punct is joint if another one follows it without a gap, unless that one begins a comment.
pub fn puncts_join()
    ensures { PunctsJoin }
{}

/// The text that is written for trees of Rust is read as these trees, without spans. The law holds
/// for the definition of what `lex_as` returns, in each edition, and for any indentation. `IsRust`
/// defines which trees are Rust's.
pub fn trees_round_trip()
    ensures { TreesRoundTrip }
{}

/// Let the lexer read a string, byte string or C string whole by itself. Then it also reads the
/// string whole before text that doesn't continue its suffix, such as a `.`. So the string is a
/// literal of `IsRust`.
pub fn strings_are_read()
    ensures { StringsAreRead }
{}

/// The same holds for a raw string, raw byte string or raw C string.
pub fn raw_strings_are_read()
    ensures { RawStringsAreRead }
{}

/// The same holds for a char or a byte.
pub fn chars_are_read()
    ensures { CharsAreRead }
{}

/// A number that is read whole by itself is also read whole before any text that doesn't continue
/// it. So it is a literal of `IsRust`. The `.` of a field or of a range may follow it, unless it
/// ends with a `.` itself. Any `.` may follow it if it has a fraction, an exponent or a suffix
/// too.
pub fn numbers_are_read()
    ensures { NumbersAreRead }
{}

/// The trees that the lexer makes of a text are trees of Rust, by `IsRust`, in each edition.
pub fn lexed_are_rust()
    ensures { LexedAreRust }
{}

/// The text that is written for the trees of a text is read as these trees, without spans, in each
/// edition and for any indentation.
pub fn text_round_trips()
    ensures { TextRoundTrips }
{}
