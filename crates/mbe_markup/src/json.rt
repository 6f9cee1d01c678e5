// JSON text that is safe by construction: JSON is a constant of the program, and every other text
// is written as a string.
ghost use Rattle.std.specs.Prelude.{◌≡◌, ◌++◌, [], IfOk, OnOk};
ghost use Rattle.std.specs.String.{string_bytes};
ghost use Rattle.mbe_diagnostics.specs.Json.{text_json};
ghost use Rattle.mbe_markup.specs.Pieces as spec;
ghost use Rattle.mbe_markup.specs.Pieces.{json_bytes};
ghost use Rattle.mbe_markup.specs.declared.json.Piece.TheVariants.{Number};

use serde_json::Value;
use std::alloc::{AllocError, Global};

/// A piece of a JSON text.
#[derive(Clone, Copy, Drop)]
pub enum Piece<'t> {
    /// JSON, which is a constant of the program. It is written as it is.
    Mark(&'static str),
    /// A text. It is written as a string.
    Text(&'t str),
    Number(usize),
}

/// A JSON text, or a part of one.
#[derive(Drop)]
pub struct Json {
    text: String,
}

// Returns a text as a JSON string.
fn quoted(alloc: Global, text: &str) -> Result<String, AllocError>
    ensures { IfOk result (λ t. string_bytes t ≡ text_json text.now) }
{
    let value = Value::String(String::from_str(alloc, text)?);
    value.to_string(alloc)
}

impl Json {
    /// Returns an empty JSON text.
    pub fn new(alloc: Global) -> Json
        ensures { json_bytes result ≡ [] }
    {
        Json {
            text: String::new(alloc),
        }
    }

    // Writes a text.
    fn push_text(&mut self, alloc: Global, text: &str) -> Result<(), AllocError>
        ensures { OnOk result (json_bytes self.new
            ≡ json_bytes self.old ++ text_json text.now) }
    {
        let quoted = quoted(alloc, text)?;
        self.text.push_str(quoted.as_str())
    }

    // Writes a number.
    fn push_number(&mut self, alloc: Global, number: usize) -> Result<(), AllocError>
        ensures { OnOk result (json_bytes self.new
            ≡ json_bytes self.old ++ spec.piece_text (Number number)) }
    {
        let digits = format!(in alloc; "{number}")?;
        self.text.push_str(digits.as_str())
    }

    // Writes a piece.
    fn push(&mut self, alloc: Global, piece: Piece<'_>) -> Result<(), AllocError>
        ensures { OnOk result (json_bytes self.new
            ≡ json_bytes self.old ++ spec.piece_text piece.entry) }
    {
        match piece {
            Piece::Mark(mark) => self.text.push_str(mark),
            Piece::Text(text) => self.push_text(alloc, text),
            Piece::Number(number) => self.push_number(alloc, number),
        }
    }

    /// Writes pieces, one after another. `AllocError` if out of memory.
    pub fn write(&mut self, alloc: Global, pieces: &[Piece<'_>]) -> Result<(), AllocError>
        ensures { OnOk result (json_bytes self.new
            ≡ json_bytes self.old ++ spec.pieces_text pieces.now) }
    {
        match pieces {
            [] => Ok(()),
            [piece, rest @ ..] => {
                self.push(alloc, *piece)?;
                self.write(alloc, rest)
            }
        }
    }

    /// Returns the text.
    pub fn into_text(self) -> String
        ensures { string_bytes result ≡ json_bytes self }
    {
        let Json { text } = self;
        text
    }
}
