// Grammars of one's own.
ghost use Rattle.std.specs.Prelude.{◌≡◌};
ghost use Rattle.mbe_tests.specs.Words.{word_front};
ghost use Rattle.mbe_tt.specs.Trees.Tree.{flat};
ghost use Rattle.mbe_tt.specs.Views.View.{trees};
ghost use borrow.Author.Rules.{rules};

use mbe_tt::grammar::{Dialect, FragmentGrammar, Front, PrefixEntryPoint};
use mbe_tt::tt::{Leaf, TokenTreesView, TtElement};
use std::alloc::{AllocError, Allocator};

/// A grammar that finds no fragment anywhere.
pub struct NoFragments;

impl FragmentGrammar for NoFragments {
    ghost use Rattle.std.specs.Prelude.{true, false};
    ghost use Rattle.mbe_tt.specs.declared.grammar.Dialect.TheVariants.{RustAnalyzer};

    ghost grammar = { λ _. record {
      parse = λ entry tokens. record { count = 0; fault = true };
      is_keyword = λ text. false;
      dialect = RustAnalyzer;
    } };

    fn parse<A: Allocator>(
        &self,
        _entry: PrefixEntryPoint,
        _tokens: TokenTreesView<'_, A>,
    ) -> Result<Front, AllocError> {
        Ok(Front {
            count: 0,
            fault: true,
        })
    }

    fn is_keyword(&self, _text: &str) -> bool {
        false
    }

    fn dialect(&self) -> Dialect {
        Dialect::RustAnalyzer
    }

    ghost lawful = { λ _. Prim.search rules };
}

/// A grammar whose fragments, of every kind, are single identifiers or literals.
pub struct Words;

impl FragmentGrammar for Words {
    ghost use Rattle.mbe_tests.specs.Words.{words, words_lawful};

    ghost grammar = { λ _. words };

    fn parse<A: Allocator>(
        &self,
        _entry: PrefixEntryPoint,
        tokens: TokenTreesView<'_, A>,
    ) -> Result<Front, AllocError> {
        Ok(word_front(tokens))
    }

    fn is_keyword(&self, text: &str) -> bool {
        text == "let"
    }

    fn dialect(&self) -> Dialect {
        Dialect::RustAnalyzer
    }

    ghost lawful = { λ _. words_lawful };
}

// One token, where a word comes first.
fn word_front<A: Allocator>(tokens: TokenTreesView<'_, A>) -> Front
    ensures { result ≡ word_front (flat (trees tokens.entry)) }
{
    let mut iter = tokens.iter();
    match iter.next() {
        Some(TtElement::Leaf(Leaf::Ident(_) | Leaf::Literal(_))) => Front {
            count: 1,
            fault: false,
        },
        _ => Front {
            count: 0,
            fault: true,
        },
    }
}

pub mod tests {
    use super::{NoFragments, Words};
    use crate::calling::expansions::{error_line, read};
    use crate::runs::made;
    use mbe_text::lexer::lex;
    use mbe_tt::grammar::FragmentGrammar;
    use std::alloc::Global;

    // Whether a call by that grammar has that line of an error, or none.
    fn has_error<G: FragmentGrammar>(alloc: Global, grammar: &G, line: &str) -> Option<bool> {
        let defined = read(alloc, "($e:expr, $t:ty) => {$t $e}").ok()?;
        let argument = lex(alloc, "1, u8", 1).ok()?;
        let expanded = made(alloc, grammar, &defined, &argument).ok()?;
        Some(error_line(alloc, &expanded).ok()?.as_str() == line)
    }

    pub fn are_handed_in(alloc: Global) -> Option<bool> {
        Some(
            has_error(alloc, &NoFragments, "expected Expr at 1@0..1")?
                && has_error(alloc, &Words, "")?
                && Words.is_keyword("let")
                && !Words.is_keyword("fn"),
        )
    }
}
