// Grammars of fragments: what the expander asks of a grammar, and what the grammar promises.
//
// A caller may hand in any grammar that keeps the laws of `FragmentGrammar`. (rust-analyzer calls
// its own parser instead.) The trait and its laws are the project's own.
ghost use Rattle.std.specs.Prelude.{◌≡◌, IfOk};

use crate::view::TokenTreesView;
use std::alloc::{AllocError, Allocator};

/// The kind of fragment that the expander asks a grammar for.
#[derive(Clone, Copy, Debug, Drop, PartialEq, Eq)]
pub enum PrefixEntryPoint {
    Path,
    Expr,
    Ty,
    PatTop,
    Pat,
    Stmt,
    Block,
    MetaItem,
    Item,
    Vis,
}

/// How fragments are matched and written: as rust-analyzer's expander does, or as rustc does.
///
/// rustc keeps most fragments whole: it writes them as one invisible group (`FragmentGroup`).
#[derive(Clone, Copy, Debug, Drop, PartialEq, Eq)]
pub enum Dialect {
    RustAnalyzer,
    Rustc,
}

/// What a grammar returns: how many flat tokens at the front are the fragment, and whether the
/// grammar reports a fault.
#[derive(Clone, Copy, Debug, Drop, PartialEq, Eq)]
pub struct Front {
    pub count: usize,
    pub fault: bool,
}

/// A grammar of fragments, which a caller of the expander hands in.
///
/// An implementation states in its ghost member `grammar` what it returns. It proves two laws:
///
/// - It counts at most as many flat tokens as there are.
/// - It counts none without a fault only for `Vis`.
///
/// In rustc's dialect, a fragment that begins and has a fault ends the call. A grammar for rustc's
/// dialect counts zero flat tokens if the fragment doesn't begin. It counts at least one flat token
/// if the fragment begins and has a fault.
pub trait FragmentGrammar {
    ghost use Rattle.mbe_tt.specs.Trees.Tree.{flat};
    ghost use Rattle.mbe_tt.specs.Views.View.{trees};
    ghost use Rattle.mbe_tt.specs.Grammars.Grammar.{Grammar, IsLawful};

    ghost grammar: { Self → Grammar };

    /// Parses a fragment of that kind at the front of the trees. Returns how many flat tokens it
    /// has, and whether there is no such fragment. Returns `AllocError` if out of memory. A
    /// grammar that needs memory keeps its own allocator.
    fn parse<A: Allocator>(
        &self,
        entry: PrefixEntryPoint,
        tokens: TokenTreesView<'_, A>,
    ) -> Result<Front, AllocError>
        ensures { IfOk result (λ front.
            front ≡ (grammar self.now).parse entry (flat (trees tokens.entry))) };

    /// Returns whether the text is a keyword. An identifier with this text must be raw.
    fn is_keyword(&self, text: &str) -> bool
        ensures { result ≡ (grammar self.now).is_keyword text.now };

    /// Returns the dialect that the grammar is made for.
    fn dialect(&self) -> Dialect
        ensures { result ≡ (grammar self.now).dialect };

    ghost lawful: { (g : Self) → IsLawful (grammar g) };
}
