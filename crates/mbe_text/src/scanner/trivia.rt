// What a scanner skips before a token: white space and comments.
//
// Before the first token of a file it also skips a byte order mark and a `#!` line, in the Rust
// dialect.
ghost use Rattle.std.specs.Prelude.{◌≡◌, ◌≤◌, ◌==◌, ◌&&◌, length, IfErr, IsTrue, chars, drop};
ghost use Rattle.mbe_text.specs.Characters as characters;
ghost use Rattle.mbe_text.specs.Whitespace.{PassesBlock, whitespace_class};
ghost use Rattle.mbe_text.specs.Trivia.{PassesTrivia, after_preamble, is_doc, past_byte_order_mark};
ghost use Rattle.mbe_text.specs.Trivia.{past_shebang};
ghost use Rattle.mbe_text.specs.declared.characters.CharClass.TheVariants.{NotLineFeed};
ghost use Rattle.mbe_text.specs.declared.dialect.Dialect.TheVariants.{Sample};

use crate::characters::{CharClass, begins_with, is_at, past, split_first};
use crate::dialect::Dialect;
use crate::fault_kind::LexFaultKind;
use crate::rust_tokens::begins_doc;
use crate::scanner::{LexFault, Scanner};

impl<'t> Scanner<'t> {
    ghost use Rattle.mbe_text.specs.ScannerSteps.{ScansForward, Advances};

    // Returns whether the next comment is a token: a doc comment of the Rust dialect.
    #[inline(always)]
    fn is_at_doc(&self) -> bool
        ensures { result ≡ is_doc self.now.dialect (chars self.now.rest.now) }
    {
        match self.dialect {
            Dialect::Sample => false,
            Dialect::Rust(_) => begins_doc(self.rest),
        }
    }

    #[inline(always)]
    fn is_whitespace(&self, char: char) -> bool
        ensures { result ≡ characters.has (whitespace_class self.now.dialect) char }
    {
        self.dialect.whitespace_class().has(char)
    }

    // Skips white space and comments.
    #[inline(always)]
    pub(crate) fn trivia(&mut self) -> Result<(), LexFault>
        ensures on { ScansForward self.old self.new }
        ensures exact { PassesTrivia self.old.dialect self.old.total (chars self.old.rest.now)
            result (chars self.new.rest.now) }
        ensures within { IfErr result (λ fault. fault.offset ≤ self.old.total) }
    {
        self.whitespace();
        if is_at(self.rest, '/') {
            return self.comments();
        }
        Ok(())
    }

    // Skips white space.
    #[inline(always)]
    fn whitespace(&mut self)
        ensures on { ScansForward self.old self.new }
        ensures exact { chars self.new.rest.now
            ≡ characters.past (whitespace_class self.old.dialect) (chars self.old.rest.now) }
    {
        self.rest = self.after_whitespace();
    }

    // Skips comments, and the white space before, between and after them.
    #[inline(never)]
    fn comments(&mut self) -> Result<(), LexFault>
        ensures on { ScansForward self.old self.new }
        ensures exact { PassesTrivia self.old.dialect self.old.total (chars self.old.rest.now)
            result (chars self.new.rest.now) }
        ensures within { IfErr result (λ fault. fault.offset ≤ self.old.total) }
    {
        'parts: loop {
            let Some((char, after)) = split_first(self.rest) else {
                return Ok(());
            };
            if self.is_whitespace(char) {
                self.rest = after;
            } else if char != '/' {
                return Ok(());
            } else if self.is_at_doc() {
                return Ok(());
            } else if begins_with(after, "/") {
                self.line_comment();
            } else if begins_with(after, "*") {
                self.block_comment()?;
            } else {
                return Ok(());
            }
        }
    }

    // Skips the two characters that begin a line comment, and the rest of the line.
    fn line_comment(&mut self)
        ensures on { ScansForward self.old self.new }
        ensures past { Advances self.old self.new }
        ensures exact { chars self.new.rest.now
            ≡ characters.past NotLineFeed (drop 2 (chars self.old.rest.now)) }
    {
        self.bump();
        self.bump();
        self.bump_while(CharClass::NotLineFeed);
    }

    // Skips a block comment, with the block comments nested in it.
    fn block_comment(&mut self) -> Result<(), LexFault>
        ensures on { ScansForward self.old self.new }
        ensures past { Advances self.old self.new }
        ensures exact { PassesBlock self.old.total (chars self.old.rest.now)
            result (chars self.new.rest.now) }
        ensures within { IfErr result (λ fault. fault.offset ≤ self.old.total) }
    {
        let start = self.offset();
        self.bump();
        self.bump();
        let mut depth = 1u32;
        'chars: while let Some(char) = self.bump() {
            if self.completes_pair(char, '/', "*") {
                self.bump();
                depth = depth.saturating_add(1);
            } else if self.completes_pair(char, '*', "/") {
                self.bump();
                depth = depth.saturating_sub(1);
                if depth == 0 {
                    return Ok(());
                }
            }
        }
        Err(LexFault {
            offset: start,
            fault_kind: LexFaultKind::UnterminatedComment,
        })
    }

    // Returns whether the character that was just consumed is `first`, and `second` is next.
    fn completes_pair(&self, passed: char, first: char, second: &str) -> bool
        requires { IsTrue (characters.are_ascii second.now) }
        ensures exact { result
            ≡ (passed == first && characters.begins_with second.now (chars self.now.rest.now)) }
        ensures some { IsTrue result → length second.now ≤ length self.now.rest.now }
    {
        passed == first && begins_with(self.rest, second)
    }

    // Skips what may stand before the first token of a file.
    pub(crate) fn preamble(&mut self)
        ensures on { ScansForward self.old self.new }
        ensures sample { self.old.dialect ≡ Sample → self.new.rest.now ≡ self.old.rest.now }
        ensures exact { chars self.new.rest.now
            ≡ after_preamble self.old.dialect self.old.total (chars self.old.rest.now) }
    {
        match self.dialect {
            Dialect::Sample => {}
            Dialect::Rust(_) => {
                self.byte_order_mark();
                self.shebang();
            }
        }
    }

    // Skips a byte order mark.
    fn byte_order_mark(&mut self)
        ensures on { ScansForward self.old self.new }
        ensures exact { chars self.new.rest.now ≡ past_byte_order_mark (chars self.old.rest.now) }
    {
        if let Some(('\u{feff}', rest)) = split_first(self.rest) {
            self.rest = rest;
        }
    }

    // Skips a line that begins with `#!`, unless the `[` of an attribute follows after white space
    // and comments.
    fn shebang(&mut self)
        ensures on { ScansForward self.old self.new }
        ensures exact { chars self.new.rest.now
            ≡ past_shebang self.old.dialect self.old.total (chars self.old.rest.now) }
    {
        let text = self.rest;
        if !begins_with(text, "#!") {
            return;
        }
        self.bump();
        self.bump();
        let line = self.rest;
        if self.trivia().is_ok() && begins_with(self.rest, "[") {
            self.rest = text;
        } else {
            self.rest = past(line, CharClass::NotLineFeed);
        }
    }
}
