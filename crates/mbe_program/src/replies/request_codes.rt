// The numbers of a request, and what they stand for.
ghost use Rattle.std.specs.Prelude.{◌≡◌};
ghost use Rattle.mbe_program.specs.Replies.RequestCodes as spec;

use mbe::MacroCallStyle;
use mbe_text::dialect::Dialect;
use mbe_tt::span::Edition;

/// Returns the edition of a year: 2015, 2018, 2021 or 2024. `None` for any other number.
pub fn edition_of(year: u32) -> Option<Edition>
    ensures { result ≡ spec.edition_of year }
{
    match year {
        2015 => Some(Edition::Edition2015),
        2018 => Some(Edition::Edition2018),
        2021 => Some(Edition::Edition2021),
        2024 => Some(Edition::Edition2024),
        _ => None,
    }
}

/// Returns the dialect of a number, in that edition: 0 is the sample dialect, 1 is Rust. `None` for
/// any other number.
pub fn dialect_of(number: u32, edition: Edition) -> Option<Dialect>
    ensures { result ≡ spec.dialect_of number edition }
{
    match number {
        0 => Some(Dialect::Sample),
        1 => Some(Dialect::Rust(edition)),
        _ => None,
    }
}

/// Returns the style of call of a number: 0 `FnLike`, 1 `Attr`, 2 `Derive`. `None` for any other
/// number.
pub fn style_of(number: u32) -> Option<MacroCallStyle>
    ensures { result ≡ spec.style_of number }
{
    match number {
        0 => Some(MacroCallStyle::FnLike),
        1 => Some(MacroCallStyle::Attr),
        2 => Some(MacroCallStyle::Derive),
        _ => None,
    }
}

/// Where the grammar of fragments comes from.
#[derive(Clone, Copy, Drop)]
pub enum GrammarKind {
    /// The sample grammar of `mbe_grammar`.
    Sample,
    /// Rust's grammar (`mbe_grammar::rust`).
    Rust,
    /// A text of the caller (`mbe_grammar::peg`).
    Text,
}

/// Returns the kind of grammar of a number: 0 `Sample`, 1 `Rust`, 2 `Text`. `None` for any other
/// number.
pub fn grammar_of(number: u32) -> Option<GrammarKind>
    ensures { result ≡ spec.grammar_of number }
{
    match number {
        0 => Some(GrammarKind::Sample),
        1 => Some(GrammarKind::Rust),
        2 => Some(GrammarKind::Text),
        _ => None,
    }
}

/// The form in which an answer shows trees.
#[derive(Clone, Copy, Drop)]
pub enum TreeForm {
    /// Flat tokens, with their text beside them.
    Tokens,
    /// Lines, one for each group and leaf (`mbe_text::tree_dump`).
    Lines,
    /// Rust text (`mbe_text::rust_printer`), without the group around the trees.
    Rust,
}

/// Returns the form of a number: 0 `Tokens`, 1 `Lines`, 2 `Rust`. `None` for any other number.
pub fn form_of(number: u32) -> Option<TreeForm>
    ensures { result ≡ spec.form_of number }
{
    match number {
        0 => Some(TreeForm::Tokens),
        1 => Some(TreeForm::Lines),
        2 => Some(TreeForm::Rust),
        _ => None,
    }
}
