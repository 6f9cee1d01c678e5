// The lines of a run with `--lint`: one for each rule, with its verdict on the argument.
ghost use Rattle.std.specs.Prelude.{◌≡◌, ◌++◌, codes, map, Some, IfOk};
ghost use Rattle.std.specs.String.{string_bytes};
ghost use Rattle.mbe.specs.MatchResults.{verdict_seen};
ghost use Rattle.mbe_text.specs.WriterBytes.{Writes};
ghost use Rattle.mbe_program.specs.VerdictLines.{line_of, lines_from};

use mbe::Verdict;
use mbe_text::output::write_whole;
use std::alloc::{AllocError, Allocator};
use std::io::Write;
use std::{fmt, io};

// A rule's index, and its verdict.
#[derive(Clone, Copy)]
struct VerdictLine {
    rule: usize,
    verdict: Verdict,
}

impl fmt::Display for VerdictLine {
    ghost output = { λ line. Some (line_of line.rule (verdict_seen line.verdict)) };

    fn fmt<W: fmt::Write>(&self, f: &mut fmt::Formatter<W>) -> fmt::Result {
        let rule = self.rule;
        match self.verdict {
            Verdict::OneReading => write!(f, "rule {rule}: one reading"),
            Verdict::ManyReadings => write!(f, "rule {rule}: several readings"),
            Verdict::Ambiguous(place) => write!(f, "rule {rule}: ambiguous at {place}"),
            Verdict::Stuck(place) => write!(f, "rule {rule}: stuck at {place}"),
        }
    }
}

// Returns the line of a rule.
fn line_text<A: Allocator + Copy>(
    alloc: A,
    rule: usize,
    verdict: Verdict,
) -> Result<String<A>, AllocError>
    ensures { IfOk result (λ line. string_bytes line
        ≡ line_of rule (verdict_seen verdict) ++ codes "\n") }
{
    let line = VerdictLine { rule, verdict };
    format!(in alloc; "{line}\n")
}

/// Returns a line for each verdict, with the index of its rule: `rule N: one reading`,
/// `rule N: several readings`, `rule N: ambiguous at P` or `rule N: stuck at P`. `N` counts from 0;
/// `P` is an offset of tokens; both are decimal. The form is this project's own. `AllocError` if
/// out of memory.
#[tactic(auto, using(crate::proofs::LintLemmas::one_line_more, crate::proofs::LintLemmas::all_lines))]
pub fn lines_of<A: Allocator + Copy>(
    alloc: A,
    verdicts: &[Verdict],
) -> Result<String<A>, AllocError>
    ensures { IfOk result (λ lines. string_bytes lines
        ≡ lines_from 0 (map verdict_seen verdicts.now)) }
{
    let mut lines = String::new(alloc);
    for (rule, verdict) in verdicts.iter().enumerate() {
        let line = line_text(alloc, rule, *verdict)?;
        lines.push_str(line.as_str())?;
    }
    Ok(lines)
}

/// Writes the lines, and flushes. The error is the first of the writer; a prefix of the lines was
/// then written.
pub fn print_lines<W: Write>(lines: &str, out: &mut W) -> io::Result<()>
    ensures { Writes (W.contents out.old) (W.contents out.new) result lines.now }
{
    write_whole(lines.as_bytes(), out)?;
    out.flush()
}
