// How each rule reads an argument, and lines written whole.
use mbe::{DeclarativeMacro, ParseError, Verdict};
use mbe_grammar::SampleGrammar;
use mbe_text::output::write_whole;
use mbe_tt::tt::TopSubtree;
use std::alloc::{AllocError, Global};
use std::io::Write;

/// A line on how a rule reads an argument.
pub fn verdict_line(alloc: Global, rule: usize, verdict: Verdict) -> Result<String, AllocError> {
    match verdict {
        Verdict::OneReading => format!(in alloc; "{rule} fits\n"),
        Verdict::ManyReadings => format!(in alloc; "{rule} reads it in more than one way\n"),
        Verdict::Ambiguous(position) => format!(in alloc; "{rule} is ambiguous at {position}\n"),
        Verdict::Stuck(position) => format!(in alloc; "{rule} stops at {position}\n"),
    }
}

/// Writes a line for each rule. There is none where a pattern was refused: then no rule can be
/// explained.
pub fn write_verdicts<W: Write>(
    alloc: Global,
    defined: &DeclarativeMacro,
    argument: &TopSubtree,
    out: &mut W,
) -> anyhow::Result<()> {
    if let Some(ParseError::RepetitionEmptyTokenTree) = defined.err() {
        return Ok(());
    }
    for rule in 0..defined.num_rules() {
        let verdict = defined.explain(alloc, &SampleGrammar, argument, rule)?;
        write_whole(verdict_line(alloc, rule, verdict)?.as_bytes(), out)?;
    }
    Ok(())
}

pub mod tests {
    use super::write_verdicts;
    use crate::calling::expansions::read;
    use mbe_text::lexer::lex;
    use std::alloc::Global;

    const RULES: &str =
        "($x:ident) => {}; ($x:ident $y:ident) => {}; ($($x:ident)* $y:ident) => {}; ($(a)* $(a)* b) => {}";

    const LINES: &str = "0 stops at 1
1 fits
2 is ambiguous at 0
3 reads it in more than one way
";

    // Whether the lines on the argument are those.
    pub fn are_explained(alloc: Global) -> Option<bool> {
        let defined = read(alloc, RULES).ok()?;
        let argument = lex(alloc, "a b", 1).ok()?;
        let mut out = Vec::new(alloc);
        write_verdicts(alloc, &defined, &argument, &mut out).ok()?;
        Some(out.as_slice() == LINES.as_bytes())
    }
}
