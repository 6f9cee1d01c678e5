// HTML text that is safe by construction: markup is a constant of the program, and every other text
// is escaped.
ghost use Rattle.std.specs.Prelude.{◌≡◌, ◌++◌, [], OnOk, chars};
ghost use Rattle.std.specs.String.{string_bytes};
ghost use Rattle.mbe_markup.specs.Escapes as spec;
ghost use Rattle.mbe_markup.specs.Escapes.{html_bytes};
ghost use Rattle.mbe_markup.specs.declared.html.Part.TheVariants.{Number};

use std::alloc::{AllocError, Global};

/// A part of an HTML text.
#[derive(Clone, Copy, Drop)]
pub enum Part<'t> {
    /// Markup, which is a constant of the program. It is written as it is.
    Markup(&'static str),
    /// A text. It is escaped.
    Text(&'t str),
    Number(usize),
}

/// An HTML text, or a piece of one. Nothing but `Part::Markup` adds markup to it.
#[derive(Drop)]
pub struct Html {
    text: String,
}

// Writes a character as HTML text.
fn push_char(text: &mut String, char: char) -> Result<(), AllocError>
    ensures { OnOk result (string_bytes text.new
        ≡ string_bytes text.old ++ spec.escaped_char char) }
{
    match char {
        '<' => text.push_str("&lt;"),
        '>' => text.push_str("&gt;"),
        '&' => text.push_str("&amp;"),
        '"' => text.push_str("&quot;"),
        '\'' => text.push_str("&#39;"),
        _ => text.push(char),
    }
}

// Writes a text as HTML text.
fn push_escaped(text: &mut String, shown: &str) -> Result<(), AllocError>
    ensures { OnOk result (string_bytes text.new
        ≡ string_bytes text.old ++ spec.escaped (chars shown.now)) }
{
    for char in shown.chars() {
        push_char(text, char)?;
    }
    Ok(())
}

impl Html {
    /// Returns an empty HTML text.
    pub fn new(alloc: Global) -> Html
        ensures { html_bytes result ≡ [] }
    {
        Html {
            text: String::new(alloc),
        }
    }

    // Writes a number.
    fn push_number(&mut self, alloc: Global, number: usize) -> Result<(), AllocError>
        ensures { OnOk result (html_bytes self.new
            ≡ html_bytes self.old ++ spec.part_text (Number number)) }
    {
        let digits = format!(in alloc; "{number}")?;
        self.text.push_str(digits.as_str())
    }

    // Writes a part.
    fn push(&mut self, alloc: Global, part: Part<'_>) -> Result<(), AllocError>
        ensures { OnOk result (html_bytes self.new
            ≡ html_bytes self.old ++ spec.part_text part.entry) }
    {
        match part {
            Part::Markup(markup) => self.text.push_str(markup),
            Part::Text(text) => push_escaped(&mut self.text, text),
            Part::Number(number) => self.push_number(alloc, number),
        }
    }

    /// Writes parts, one after another. The texts among them are escaped: they add no byte `<`,
    /// `>`, `"` or `'`. `AllocError` if out of memory.
    pub fn write(&mut self, alloc: Global, parts: &[Part<'_>]) -> Result<(), AllocError>
        ensures { OnOk result (html_bytes self.new
            ≡ html_bytes self.old ++ spec.parts_text parts.now) }
    {
        match parts {
            [] => Ok(()),
            [part, rest @ ..] => {
                self.push(alloc, *part)?;
                self.write(alloc, rest)
            }
        }
    }

    /// Writes another HTML text. `AllocError` if out of memory.
    pub fn append(&mut self, other: &Html) -> Result<(), AllocError>
        ensures { OnOk result (html_bytes self.new
            ≡ html_bytes self.old ++ html_bytes other.now) }
    {
        self.text.push_str(other.text.as_str())
    }

    /// Returns the text.
    pub fn into_text(self) -> String
        ensures { string_bytes result ≡ html_bytes self }
    {
        let Html { text } = self;
        text
    }
}
