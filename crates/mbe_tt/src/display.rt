// How identifiers and literals are written, and where the suffix of a literal begins.
//
// The rules are the project's own.
ghost use Rattle.std.specs.Prelude.{◌≡◌, Some, replicate};
ghost use Rattle.std.specs.Fmt.{DisplaysOnOk};
ghost use Rattle.mbe_tt.specs.Trees.Literals.{ident_text, literal_text, literal_suffix};
ghost use Rattle.mbe_tt.specs.Trees.Literals.{literal_output, hash_text};
ghost use Rattle.mbe_tt.specs.Trees.Literals as spec;
ghost use Rattle.mbe_tt.specs.Views.LeafViews.{ident_of, literal_of};

use crate::tt::{Ident, IdentIsRaw, LitKind, Literal};
use std::alloc::Allocator;
use std::fmt;

impl<A: Allocator> Literal<A> {
    /// Returns the text without its suffix, and the suffix. The suffix is empty if the text is
    /// shorter than `suffix_len`, or if no char begins `suffix_len` bytes before the end.
    pub fn text_and_suffix(&self) -> (&str, &str)
        ensures text { result.0.now ≡ literal_text (literal_of self.now) }
        ensures suffix { result.1.now ≡ literal_suffix (literal_of self.now) }
    {
        let all = self.text_and_suffix.as_str();
        if let Some(cut) = all.len().checked_sub(self.suffix_len as usize)
            && let Some(parts) = all.split_at_checked(cut)
        {
            return parts;
        }
        (all, "")
    }

    /// Returns the text without its suffix.
    pub fn text(&self) -> &str
        ensures { result.now ≡ literal_text (literal_of self.now) }
    {
        self.text_and_suffix().0
    }
}

/// Writes `r#` if the identifier is raw, then the symbol.
impl<A: Allocator> fmt::Display for Ident<A> {
    ghost output = { λ i. Some (ident_text (ident_of i)) };

    fn fmt<W: fmt::Write>(&self, f: &mut fmt::Formatter<W>) -> fmt::Result {
        match self.is_raw {
            IdentIsRaw::No => f.write_str(self.sym.as_str()),
            IdentIsRaw::Yes => {
                f.write_str("r#")?;
                f.write_str(self.sym.as_str())
            }
        }
    }
}

/// Writes the prefix of the literal's kind (`b`, `c`, `r`) and its `#`s, then the text in quotes,
/// then the `#`s again and the suffix. `Integer`, `Float` and `Err` have no quotes.
impl<A: Allocator> fmt::Display for Literal<A> {
    ghost output = { λ l. Some (literal_output (literal_of l)) };

    fn fmt<W: fmt::Write>(&self, f: &mut fmt::Formatter<W>) -> fmt::Result {
        let (text, suffix) = self.text_and_suffix();
        write_opening(f, self.kind)?;
        f.write_str(text)?;
        write_closing(f, self.kind)?;
        f.write_str(suffix)
    }
}

fn write_opening<W: fmt::Write>(f: &mut fmt::Formatter<W>, kind: LitKind) -> fmt::Result
    ensures { DisplaysOnOk W.write_str_gives f.old result (Some (spec.opening kind)) f.new }
{
    f.write_str(prefix(kind))?;
    write_hashes(f, hashes(kind))?;
    f.write_str(quote(kind))
}

fn write_closing<W: fmt::Write>(f: &mut fmt::Formatter<W>, kind: LitKind) -> fmt::Result
    ensures { DisplaysOnOk W.write_str_gives f.old result (Some (spec.closing kind)) f.new }
{
    f.write_str(quote(kind))?;
    write_hashes(f, hashes(kind))
}

fn write_hashes<W: fmt::Write>(f: &mut fmt::Formatter<W>, number: u8) -> fmt::Result
    ensures { DisplaysOnOk W.write_str_gives f.old result (Some (hash_text number)) f.new }
{
    for _i in 0..number {
        f.write_str("#")?;
    }
    Ok(())
}

fn prefix(kind: LitKind) -> &'static str
    ensures { result.now ≡ spec.prefix kind }
{
    match kind {
        LitKind::Byte | LitKind::ByteStr => "b",
        LitKind::StrRaw(_) => "r",
        LitKind::ByteStrRaw(_) => "br",
        LitKind::CStr => "c",
        LitKind::CStrRaw(_) => "cr",
        LitKind::Char | LitKind::Str | LitKind::Integer | LitKind::Float | LitKind::Err => "",
    }
}

fn hashes(kind: LitKind) -> u8
    ensures { result ≡ spec.hashes kind }
{
    match kind {
        LitKind::StrRaw(number) | LitKind::ByteStrRaw(number) | LitKind::CStrRaw(number) => number,
        _ => 0,
    }
}

fn quote(kind: LitKind) -> &'static str
    ensures { result.now ≡ spec.quote kind }
{
    match kind {
        LitKind::Byte | LitKind::Char => "'",
        LitKind::Integer | LitKind::Float | LitKind::Err => "",
        _ => "\"",
    }
}
