// Splits a grammar's text into tokens, each with its line and column.
ghost use Rattle.std.specs.Prelude.{◌≡◌, IfOk, OnOk, length, chars};
ghost use Rattle.mbe_grammar.specs.Peg.Views.{tokens_model};
ghost use Rattle.mbe_grammar.specs.Peg.Tokens as spec;

use crate::peg::peg_error::{PegErrorKind, PegLocation};
use crate::peg::peg_token::{PegToken, token_at};
use std::alloc::{AllocError, Allocator};

/// The tokens of a text with their locations, the location of the end, and the error there, if
/// there is one.
#[derive(Drop)]
pub struct TokenList<'t, A: Allocator> {
    pub words: Vec<(PegLocation, PegToken<'t>), A>,
    pub end: PegLocation,
    pub wrong: Option<PegErrorKind<'t>>,
}

fn char_count(text: &str) -> usize
    ensures { result ≡ length (chars text.now) }
{
    text.chars().count()
}

// The location where the rest of a line begins. `number` is the number of the line.
fn location_of(number: usize, line: &str, rest: &str) -> PegLocation
    ensures { result ≡ spec.location_of number line.now rest.now }
{
    let passed = char_count(line).saturating_sub(char_count(rest));
    PegLocation {
        line: number,
        column: passed.saturating_add(1),
    }
}

impl<'t, A: Allocator> TokenList<'t, A> {
    // Adds the tokens of the line with this number.
    fn add_line(&mut self, number: usize, line: &'t str) -> Result<(), AllocError>
        ensures { OnOk result (tokens_model self.new
            ≡ spec.and_more (tokens_model self.old) (spec.tokenize_line number line.now)) }
    {
        let mut rest = line.trim_start();
        let mut wrong = None;
        let mut left = line.len();
        'words: while left > 0 {
            left -= 1;
            match token_at(rest) {
                Ok(Some((token, after))) => {
                    let location = location_of(number, line, rest);
                    self.words.push((location, token))?;
                    rest = after.trim_start();
                }
                Ok(None) => break,
                Err(reason) => {
                    wrong = Some(reason);
                    break;
                }
            }
        }
        self.wrong = wrong;
        self.end = location_of(number, line, rest);
        Ok(())
    }
}

/// The tokens of a text, up to the first error.
pub fn tokenize<'t, A: Allocator>(alloc: A, text: &'t str) -> Result<TokenList<'t, A>, AllocError>
    ensures { IfOk result (λ w. tokens_model w ≡ spec.tokenize text.now) }
{
    let mut all = TokenList {
        words: Vec::new(alloc),
        end: PegLocation { line: 1, column: 1 },
        wrong: None,
    };
    let mut number: usize = 1;
    for line in text.lines() {
        all.add_line(number, line)?;
        if all.wrong.is_some() {
            break;
        }
        number = number.saturating_add(1);
    }
    Ok(all)
}
