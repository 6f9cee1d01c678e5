// Laws about the results of the caller's callbacks: the marker, which maps spans, and the function
// that tells the edition of a syntax context. Each function takes the callback that its law is
// about, and does nothing with it.
ghost use Rattle.std.specs.Prelude.{[]};
ghost use Rattle.mbe_tt.specs.declared.tt.DelimiterKind.TheVariants.{Invisible};
ghost use Rattle.mbe_tt.specs.Trees.Tree.{group, none};
ghost use Rattle.mbe_tt.specs.Grammars.Grammar.{Grammar};
ghost use Rattle.mbe_semantics.specs.Syntax.Op.{no_ops};
ghost use Rattle.mbe_semantics.specs.Transcription.Substitution.{IsSubstitution};
ghost use Rattle.mbe_semantics.specs.Laws.Laws.{OpsOrFault, HasOpsOrFault, OneTemplate};
ghost use Rattle.mbe_semantics.specs.Laws.Laws.{OneDefinition, WritesAllRounds, WrittenInPlace};
ghost use Rattle.mbe_semantics.specs.Laws.Laws.{SpansHaveSources, OneExpansion};
ghost use Rattle.mbe_semantics.specs.Expansion.FromTrees.{ExpandsFromTrees};

use mbe_tt::span::{Edition, Span, SyntaxContext};

/// The expansion of an empty template is an empty group.
pub fn empty_template_law<F: Fn(Span) -> Span + Copy + Drop>(marker: F, call_site: Span)
    ensures { (g : Grammar) → IsSubstitution g (F.post marker) call_site [] no_ops
        (group (record { opening = call_site; close = call_site; kind = Invisible }) none none) }
{
    let _ = marker;
    let _ = call_site;
}

/// A repetition `*` with fewer than 65536 rounds, none of which faults, doesn't fault, and all its
/// rounds are in the expansion.
pub fn writes_all_rounds<F: Fn(Span) -> Span + Copy + Drop>(marker: F)
    ensures { WritesAllRounds (F.post marker) }
{
    let _ = marker;
}

/// Trees that parse as ops have no fault.
pub fn ops_or_fault<E: Fn(SyntaxContext) -> Edition + Copy + Drop>(ctx_edition: E)
    ensures { OpsOrFault (E.post ctx_edition) }
{
    let _ = ctx_edition;
}

/// If each context has an edition, all trees parse as ops or have a fault.
pub fn has_ops_or_fault<E: Fn(SyntaxContext) -> Edition + Copy + Drop>(ctx_edition: E)
    ensures { HasOpsOrFault (E.post ctx_edition) }
{
    let _ = ctx_edition;
}

/// If each context has one edition, trees parse as at most one list of ops.
pub fn one_template<E: Fn(SyntaxContext) -> Edition + Copy + Drop>(ctx_edition: E)
    ensures { OneTemplate (E.post ctx_edition) }
{
    let _ = ctx_edition;
}

/// If each context has one edition, a definition has one list of rules, and at most one error.
pub fn one_definition<E: Fn(SyntaxContext) -> Edition + Copy + Drop>(ctx_edition: E)
    ensures { OneDefinition (E.post ctx_edition) }
{
    let _ = ctx_edition;
}

/// A fragment of kind `tt`, `ident`, `literal` or `lifetime` keeps in the expansion the spans that
/// it had in the argument.
pub fn written_in_place<F: Fn(Span) -> Span + Copy + Drop>(marker: F)
    ensures { WrittenInPlace (F.post marker) }
{
    let _ = marker;
}

/// Each span of an expansion has one of these sources:
///
/// - the marker's result for a span of the template;
/// - the call site;
/// - a span of a separator or of an unbound name in the template;
/// - a span of the argument.
pub fn spans_have_sources<F: Fn(Span) -> Span + Copy + Drop>(marker: F)
    ensures { SpansHaveSources (F.post marker) }
{
    let _ = marker;
}

/// If the marker returns one span for each span, an expansion without an error is one tree, by one
/// rule.
pub fn one_expansion<F: Fn(Span) -> Span + Copy + Drop>(marker: F)
    ensures { OneExpansion (F.post marker) }
{
    let _ = marker;
}

/// The expansion theorem. It relates the trees of a definition, the trees of an argument, and a
/// result that the clauses of `parse_macro_rules` or `parse_macro2`, and of `expand` allow. The
/// result has no error exactly when some rule of the definition, as the grammar of definitions
/// reads it, has the call's style and applies to the argument. Then the result names the first such
/// rule, and its tree is the substitution of that rule. With an error, the result names the closest
/// rule of the style, if there is one.
pub fn expands_from_trees<
    E: Fn(SyntaxContext) -> Edition + Copy + Drop,
    M: Fn(Span) -> Span + Copy + Drop,
>(ctx_edition: E, marker: M)
    ensures { ExpandsFromTrees (E.post ctx_edition) (M.post marker) }
{
    let _ = ctx_edition;
    let _ = marker;
}
