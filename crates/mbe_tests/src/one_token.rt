// A grammar as small as the laws of grammars allow. Mutants of it show that the laws refuse an
// unlawful grammar.
ghost use borrow.Author.Rules.{rules};

use mbe_tt::grammar::{Dialect, FragmentGrammar, Front, PrefixEntryPoint};
use mbe_tt::tt::TokenTreesView;
use std::alloc::{AllocError, Allocator};

/// A grammar that counts one flat token of everything, and faults where there is none.
pub struct OneToken;

#[tactic(auto, using(mbe_tt::proofs::Offsets::CutLemmas::flat_length))]
impl FragmentGrammar for OneToken {
    ghost use Rattle.std.specs.Prelude.{false, ◌==◌, min, length};
    ghost use Rattle.mbe_tt.specs.declared.grammar.Dialect.TheVariants.{RustAnalyzer};

    ghost grammar = { λ _. record {
      parse = λ entry tokens. record {
        count = min 1 (length tokens);
        fault = length tokens == 0;
      };
      is_keyword = λ text. false;
      dialect = RustAnalyzer;
    } };

    fn parse<A: Allocator>(
        &self,
        _entry: PrefixEntryPoint,
        tokens: TokenTreesView<'_, A>,
    ) -> Result<Front, AllocError> {
        Ok(Front {
            count: tokens.flat_len().min(1),
            fault: tokens.flat_len() == 0,
        })
    }

    fn is_keyword(&self, _text: &str) -> bool {
        false
    }

    fn dialect(&self) -> Dialect {
        Dialect::RustAnalyzer
    }

    ghost lawful = { λ _. Prim.search rules };
}
