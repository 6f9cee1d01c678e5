// The grammars that the tests supply.
ghost use Rattle.std.specs.Prelude.{◌≡◌};
ghost use borrow.Author.Rules.{rules};
ghost use Rattle.mbe_tests.specs.Counting.{may_be_empty};

use mbe_tt::grammar::{Dialect, FragmentGrammar, Front, PrefixEntryPoint};
use mbe_tt::tt::TokenTreesView;
use std::alloc::{AllocError, Allocator};
use test_rows::number;

/// A grammar that counts a fixed number of flat tokens, or all if there are fewer. It faults if it
/// counts none, except at `Vis`. It may also be made to fault everywhere, or to run out of memory.
#[derive(Clone, Copy)]
pub struct Counting {
    count: usize,
    fault: bool,
    is_out: bool,
}

/// Parses the grammar of a row: how many flat tokens it counts, then `fault` if it faults, or `out`
/// if it runs out of memory.
pub fn grammar_of(row: &str) -> Counting {
    let (count, end) = row.split_once(' ').unwrap_or((row, ""));
    Counting {
        count: number(count),
        fault: end == "fault",
        is_out: end == "out",
    }
}

/// A grammar that faults on everything.
pub const NOTHING: Counting = Counting {
    count: 0,
    fault: true,
    is_out: false,
};

#[tactic(auto, using(mbe_tt::proofs::Offsets::CutLemmas::flat_length))]
impl FragmentGrammar for Counting {
    ghost use Rattle.mbe_tests.specs.Counting.{counting, counting_lawful};

    ghost grammar = { λ g. counting g.count g.fault };

    ghost lawful = { λ g. counting_lawful g.count g.fault };

    fn parse<A: Allocator>(
        &self,
        entry: PrefixEntryPoint,
        tokens: TokenTreesView<'_, A>,
    ) -> Result<Front, AllocError> {
        if self.is_out {
            return Err(AllocError);
        }
        let count = self.count.min(tokens.flat_len());
        Ok(Front {
            count,
            fault: self.fault || (count == 0 && !may_be_empty(entry)),
        })
    }

    fn is_keyword(&self, _text: &str) -> bool {
        false
    }

    fn dialect(&self) -> Dialect {
        Dialect::RustAnalyzer
    }
}

fn may_be_empty(entry: PrefixEntryPoint) -> bool
    ensures { result ≡ may_be_empty entry }
{
    matches!(entry, PrefixEntryPoint::Vis)
}
