// Expansions and verdicts of trees, by any grammar of fragments.
//
// `defined` reads the macro of a definition. `expand_with` expands an argument by it, and
// `explain_rules` returns the verdict of each rule.
ghost use Rattle.std.specs.Prelude.{◌≡◌, map, None, IfErr, IfOk};
ghost use Rattle.mbe_tt.specs.Trees.Top.{top_group};
ghost use Rattle.mbe_ops.specs.Errors.ErrorViews.{errors_of};
ghost use Rattle.mbe_semantics.specs.Expansion.Macro.{IsChecked};
ghost use Rattle.mbe_semantics.specs.Expansion.ParsedMacro.{IsParsedRules};
ghost use Rattle.mbe_matcher.specs.MatchResults.{verdict_seen};
ghost use Rattle.mbe.specs.MacroViews.{macro_of};
ghost use Rattle.mbe.specs.OneAnswer.{IsAnswer};
ghost use Rattle.mbe_program.specs.TreeExpansion.{AreVerdicts, ExplainsBy, IsEdition, IsItself};
ghost use Rattle.mbe_program.specs.TreeExpansion.{HasNoMacro};

use mbe::{DeclarativeMacro, ExpandResult, MacroCallStyle, MatchedArmIndex, ParseError, Verdict};
use mbe_tt::grammar::FragmentGrammar;
use mbe_tt::span::{Edition, Span};
use mbe_tt::tt::TopSubtree;
use std::alloc::{AllocError, Allocator};

/// Why a definition has no macro.
#[derive(Drop)]
pub enum DefinitionError<A: Allocator> {
    /// The definition has an error.
    Refused(ParseError<A>),
    OutOfMemory,
}

impl<A: Allocator> From<AllocError> for DefinitionError<A> {
    ghost use Rattle.mbe_program.specs.declared.tree_expansion.DefinitionError.TheVariants as unread;

    ghost from_gives = { λ _ error. error ≡ unread.OutOfMemory };

    fn from(_error: AllocError) -> DefinitionError<A> {
        DefinitionError::OutOfMemory
    }
}

/// An expansion: its tree, the index of its rule, and its error.
pub type Expansion<A> = ExpandResult<(TopSubtree<A>, MatchedArmIndex), A>;

/// Reads the macro of a definition. A definition with an error is refused.
pub fn defined<A: Allocator + Copy>(
    alloc: A,
    definition: &TopSubtree<A>,
    edition: Edition,
) -> Result<DeclarativeMacro<A>, DefinitionError<A>>
    ensures read { IfOk result (λ m. IsParsedRules (IsEdition edition) definition.now.1
        (record { rules = (macro_of m).rules; err = None })) }
    ensures faultless { IfOk result (λ m. (macro_of m).err ≡ None) }
    ensures refused { IfErr result (HasNoMacro edition definition.now.1) }
{
    let rules = DeclarativeMacro::parse_macro_rules(alloc, definition, |_context| edition)?;
    if let Some(error) = rules.err() {
        return Err(DefinitionError::Refused(error.try_clone(alloc)?));
    }
    Ok(rules)
}

/// Expands an argument by a macro that was read without an error. Spans of the template are not
/// marked.
pub fn expand_with<A: Allocator + Copy, G: FragmentGrammar>(
    alloc: A,
    grammar: &G,
    rules: &DeclarativeMacro<A>,
    argument: &TopSubtree<A>,
    style: MacroCallStyle,
    call_site: Span,
) -> Result<Expansion<A>, AllocError>
    requires { (macro_of rules.now).err ≡ None }
    ensures { IfOk result (λ r. IsAnswer (G.grammar grammar.now) IsItself
        (macro_of rules.now).rules style argument.now call_site
        (top_group r.value.0) r.value.1 (errors_of r.err)) }
{
    let expansion = rules.expand(alloc, grammar, argument, |span| span, style, call_site)?;
    Ok(expansion)
}

/// Returns the verdict of each rule on the argument, in order, whatever the rule's style. The macro
/// was checked. `AllocError` if out of memory.
#[tactic(auto, using(crate::proofs::VerdictLemmas::one_verdict_more, crate::proofs::VerdictLemmas::all_verdicts))]
pub fn explain_rules<A: Allocator + Copy, G: FragmentGrammar>(
    alloc: A,
    grammar: &G,
    rules: &DeclarativeMacro<A>,
    argument: &TopSubtree<A>,
) -> Result<Vec<Verdict, A>, AllocError>
    requires { IsChecked (macro_of rules.now) }
    ensures { IfOk result (λ verdicts. AreVerdicts (G.grammar grammar.now) argument.now.1
        (macro_of rules.now).rules (map verdict_seen verdicts.items)) }
{
    let mut verdicts = Vec::new(alloc);
    for rule in 0..rules.num_rules() {
        verdicts.push(rules.explain(alloc, grammar, argument, rule)?)?;
    }
    Ok(verdicts)
}

/// Returns the verdict of each rule of a definition on the argument, in order, whatever the rule's
/// style. The error is why the definition has no macro.
pub fn explain_with<A: Allocator + Copy, G: FragmentGrammar>(
    alloc: A,
    grammar: &G,
    definition: &TopSubtree<A>,
    argument: &TopSubtree<A>,
    edition: Edition,
) -> Result<Vec<Verdict, A>, DefinitionError<A>>
    ensures explains { IfOk result (λ verdicts. ExplainsBy (G.grammar grammar.now) edition
        definition.now.1 argument.now.1 (map verdict_seen verdicts.items)) }
    ensures refused { IfErr result (HasNoMacro edition definition.now.1) }
{
    let rules = defined(alloc, definition, edition)?;
    Ok(explain_rules(alloc, grammar, &rules, argument)?)
}
