// Fragments: the token runs that variables are bound to. The kind of a variable decides which
// `Fragment` it gets, and the `Fragment` decides how a template writes it.
ghost use Rattle.std.specs.Prelude.{◌≡◌, IfOk};
ghost use Rattle.mbe_tt.specs.Views.View.{trees};
ghost use Rattle.mbe_semantics.specs.Fragments.Kinds.{style_of};
ghost use Rattle.mbe_tt.specs.declared.grammar.Dialect.TheVariants.{RustAnalyzer, Rustc};
ghost use Rattle.mbe_log.specs.FragmentViews.{fragment_seen};

use mbe_semantics::fragment_kinds::MetaVarKind;
use mbe_tt::grammar::Dialect;
use mbe_tt::tt::{TokenTreesView, TopSubtree};
use std::alloc::{AllocError, Allocator, Global};

/// Whether a variable is bound to tokens as they are (`Raw`), or to a fragment that the grammar
/// parsed (`Ast`).
#[derive(Clone, Copy, Debug, Drop, PartialEq, Eq)]
pub enum TokensOrigin {
    Raw,
    Ast,
}

/// A fragment that a variable is bound to. The variants differ in how a template writes the
/// fragment.
#[derive_where(Debug, PartialEq, Eq)]
#[derive(Drop)]
pub enum Fragment<'a, A: Allocator = Global> {
    /// No tokens. The template writes nothing.
    Empty,
    /// Trees that are written as they are, except for a last punct, which becomes `Alone`. `Raw`
    /// trees lose one invisible group around all of them.
    Tokens {
        tree: TokenTreesView<'a, A>,
        origin: TokensOrigin,
    },
    /// An expression. It is written in parentheses unless it needs none.
    Expr(TokenTreesView<'a, A>),
    /// A path. It is written with `::` before its generic arguments.
    Path(TokenTreesView<'a, A>),
    /// A group that no buffer of the caller holds. It is written as it is.
    TokensOwned(TopSubtree<A>),
    /// A fragment of rustc's dialect. It is written as one invisible group that knows its kind.
    Whole {
        tree: TokenTreesView<'a, A>,
        kind: MetaVarKind,
    },
}

impl<'a, A: Allocator + Copy> Fragment<'a, A> {
    /// An equal copy. `AllocError` if out of memory.
    pub fn try_clone(&self) -> Result<Fragment<'a, A>, AllocError>
        ensures seen { IfOk result (λ x. fragment_seen x ≡ fragment_seen self.now) }
        ensures same { IfOk result (λ x. x ≡ self.now) }
    {
        match self {
            Fragment::Empty => Ok(Fragment::Empty),
            Fragment::Tokens { tree, origin } => Ok(Fragment::Tokens {
                tree: *tree,
                origin: *origin,
            }),
            Fragment::Expr(tree) => Ok(Fragment::Expr(*tree)),
            Fragment::Path(tree) => Ok(Fragment::Path(*tree)),
            Fragment::TokensOwned(tree) => Ok(Fragment::TokensOwned(tree.try_clone()?)),
            Fragment::Whole { tree, kind } => Ok(Fragment::Whole {
                tree: *tree,
                kind: *kind,
            }),
        }
    }
}

/// Makes the fragment of a variable of this kind that is bound to these trees, in a dialect.
pub fn fragment_of_kind<'a, A: Allocator>(
    dialect: Dialect,
    kind: Option<MetaVarKind>,
    tree: TokenTreesView<'a, A>,
) -> Fragment<'a, A>
    ensures { fragment_seen result
        ≡ record { trees = trees tree.entry; style = style_of dialect kind } }
{
    match dialect {
        Dialect::RustAnalyzer => written_open(kind, tree),
        Dialect::Rustc => written_whole(kind, tree),
    }
}

// Makes the fragment as rust-analyzer writes it.
fn written_open<'a, A: Allocator>(
    kind: Option<MetaVarKind>,
    tree: TokenTreesView<'a, A>,
) -> Fragment<'a, A>
    ensures { fragment_seen result
        ≡ record { trees = trees tree.entry; style = style_of RustAnalyzer kind } }
{
    match kind {
        Some(MetaVarKind::Expr(_)) => Fragment::Expr(tree),
        Some(MetaVarKind::Path) => Fragment::Path(tree),
        Some(MetaVarKind::Ident | MetaVarKind::Tt | MetaVarKind::Lifetime | MetaVarKind::Literal) =>
            {
                Fragment::Tokens {
                    tree,
                    origin: TokensOrigin::Raw,
                }
            }
        _ => Fragment::Tokens {
            tree,
            origin: TokensOrigin::Ast,
        },
    }
}

// Makes the fragment as rustc writes it: whole, unless it is an identifier, a lifetime or a tree.
fn written_whole<'a, A: Allocator>(
    kind: Option<MetaVarKind>,
    tree: TokenTreesView<'a, A>,
) -> Fragment<'a, A>
    ensures { fragment_seen result
        ≡ record { trees = trees tree.entry; style = style_of Rustc kind } }
{
    match kind {
        None | Some(MetaVarKind::Ident | MetaVarKind::Tt | MetaVarKind::Lifetime) => {
            Fragment::Tokens {
                tree,
                origin: TokensOrigin::Ast,
            }
        }
        Some(kind) => Fragment::Whole { tree, kind },
    }
}
