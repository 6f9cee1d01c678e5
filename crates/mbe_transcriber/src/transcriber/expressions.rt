// Emits metavariable expressions: `${count(..)}`, `${concat(..)}` and the check of `${ignore(..)}`.
// The numbers of `${index(..)}` and `${len(..)}` are written by `write_number` too.
ghost use Rattle.unicode_ident.specs.Ident as xid;
ghost use Rattle.std.specs.List.{list_all};
ghost use Rattle.std.specs.Prelude.{◌||◌, ◌==◌, ◌≡◌, ◌<◌, ◌^◌, Some, None, true, false, not};
ghost use Rattle.std.specs.Prelude.{is_some, is_none, chars, option_map, string_bytes, OnOk, IfOk};
ghost use Rattle.std.specs.Prelude.{IfErr};
ghost use Rattle.mbe_tt.specs.Buffers.GroupStack.{put};
ghost use Rattle.mbe_tt.specs.Grammars.Grammar.{Grammar};
ghost use Rattle.mbe_semantics.specs.Transcription.Concat as spec;
ghost use Rattle.mbe_semantics.specs.Transcription.Concat.{concat_text, are_identifier_chars};
ghost use Rattle.mbe_semantics.specs.Transcription.Concat.{text_of_element, text_of_value};
ghost use Rattle.mbe_semantics.specs.Transcription.Concat.{text_of_tree, text_of_whole};
ghost use Rattle.mbe_tt.specs.Views.View.{trees};
ghost use Rattle.mbe_semantics.specs.Transcription.Concat.{text_in_style};
ghost use Rattle.mbe_variables.specs.RoundCounts.{simple_value};
ghost use Rattle.mbe_semantics.specs.Laws.Callbacks.{MayMark};
ghost use Rattle.mbe_semantics.specs.Bindings.Missing.{default_trees, no_span};
ghost use Rattle.mbe_semantics.specs.Transcription.Rounds.{followed};
ghost use Rattle.mbe_semantics.specs.Transcription.Substitution.{integer, total_of, is_simple};
ghost use Rattle.mbe_semantics.specs.Transcription.Substitution.{is_counted};
ghost use Rattle.mbe_log.specs.FragmentViews.{fragment_seen};
ghost use Rattle.mbe_bindings.specs.BindingViews.{env_of};
ghost use Rattle.mbe_ops.specs.Expressions.{element_seen, elements_seen};
ghost use Rattle.mbe_transcriber.specs.TranscriberSteps.{Wrote, IsNumber, IsConcatWritten};
ghost use Rattle.mbe_variables.specs.FragmentWriter.{Appends};
ghost use Rattle.mbe_transcriber.specs.TranscriberSteps.{IsJoined};
ghost use Rattle.std.specs.Result.{result_err};
ghost use Rattle.mbe_semantics.specs.Syntax.Op as Expression;
ghost use Rattle.mbe_semantics.specs.Bindings.Environment.{value_of};
ghost use Rattle.mbe_transcriber.specs.PartialExpansion.{concat_name};
ghost use Rattle.mbe_variables.specs.FaultViews.{kind_of_fault, error_of_fault};
ghost use Rattle.mbe_transcriber.specs.TemplateFaults.{bound_fault, count_fault, required_fault};
ghost use Rattle.mbe_variables.specs.LookupErrors.{at};
ghost use Rattle.mbe_transcriber.specs.TemplateFaults.{element_fault, expression_fault, find_first};
ghost use Rattle.mbe_transcriber.specs.TemplateFaults.{joined};

use crate::transcriber::ExpandCtx;
use mbe_bindings::bindings::Bindings;
use mbe_log::fragment::{Fragment, TokensOrigin};
use mbe_ops::expression::ConcatMetaVarExprElem;
use mbe_semantics::current_round::CurrentRound;
use mbe_semantics::fragment_kinds::{MetaVarKind, Missing};
use mbe_tt::grammar::FragmentGrammar;
use mbe_tt::span::Span;
use mbe_tt::symbol::Symbol;
use mbe_tt::tt::{
    Ident, IdentIsRaw, Leaf, LitKind, Literal, TokenTreesView, TopSubtreeBuilder, TtElement,
};
use mbe_variables::fragment_writer::mark;
use mbe_variables::transcriber_fault::{TranscriberFault, TranscriberFaultKind};
use mbe_variables::variable_lookup::{
    LookupError, SimpleBinding, follow, simple_binding_at, value_total,
};
use std::alloc::{AllocError, Allocator};
use unicode_ident::{is_xid_continue, is_xid_start};

// Writes an integer without a suffix.
pub(crate) fn write_number<A: Allocator + Copy>(
    alloc: A,
    number: usize,
    span: Span,
    builder: &mut TopSubtreeBuilder<A>,
) -> Result<(), AllocError>
    ensures { OnOk result (builder.new ≡ put (integer number span) builder.old) }
{
    let text = format!(in alloc; "{number}")?;
    builder.push(Leaf::Literal(Literal {
        text_and_suffix: Symbol::intern(alloc, text.as_str())?,
        suffix_len: 0,
        kind: LitKind::Integer,
        span,
    }))
}

// Writes the number of values that the name is bound to at a depth of lists.
pub(crate) fn write_count<'t, A: Allocator + Copy, G, M>(
    ctx: &ExpandCtx<'_, '_, A, G, M>,
    name: &'t Symbol<A>,
    depth: usize,
    path: &[CurrentRound],
    builder: &mut TopSubtreeBuilder<A>,
) -> Result<Option<TranscriberFault<'t, A>>, AllocError>
    ensures wrote { IfOk result (λ fault. Wrote (is_some fault)
        (not (is_counted depth (followed (env_of ctx.now.bindings.now) path.now name.now)))
        (IsNumber (total_of depth (followed (env_of ctx.now.bindings.now) path.now name.now))
        ctx.now.call_site) builder.old builder.new) }
    ensures first { IfOk result (λ fault. option_map error_of_fault fault
        ≡ expression_fault ctx.now.call_site (env_of ctx.now.bindings.now) path.now
        (Expression.count name.now depth)) }
    ensures unchanged { IfOk result (λ fault. is_some fault ≡ true → builder.new ≡ builder.old) }
{
    match count(ctx.bindings, name, depth, path) {
        Ok(number) => {
            write_number(ctx.alloc, number, ctx.call_site, builder)?;
            Ok(None)
        }
        Err(kind) => Ok(Some(TranscriberFault {
            span: ctx.call_site,
            kind,
        })),
    }
}

// Returns the fault of `${ignore(..)}`, which writes nothing.
pub(crate) fn check_ignored<'t, A: Allocator>(
    bindings: &Bindings<'_, A>,
    name: &'t Symbol<A>,
    id: Span,
    path: &[CurrentRound],
) -> Option<TranscriberFault<'t, A>>
    ensures reported { is_some result
        ≡ not (is_simple (followed (env_of bindings.now) path.now name.now)) }
    ensures fault { option_map error_of_fault result
        ≡ option_map (at id) (required_fault (env_of bindings.now) path.now name.now) }
{
    simple_binding(bindings, name, id, path).err()
}

// Returns the binding of a variable that has to be bound.
fn simple_binding<'b, 't, 'a, A: Allocator>(
    bindings: &'b Bindings<'a, A>,
    name: &'t Symbol<A>,
    span: Span,
    path: &[CurrentRound],
) -> Result<SimpleBinding<'b, 'a, A>, TranscriberFault<'t, A>>
    ensures found { IfOk result (λ s. followed (env_of bindings.now) path.now name.now
        ≡ Some (simple_value s)) }
    ensures lookup_error { IfErr result (λ _.
        is_simple (followed (env_of bindings.now) path.now name.now) ≡ false) }
    ensures fault { option_map error_of_fault (result_err result)
        ≡ option_map (at span) (required_fault (env_of bindings.now) path.now name.now) }
{
    match bindings.get(name) {
        Some(binding) => simple_binding_at(binding, name, span, path),
        None => Err(TranscriberFault {
            span,
            kind: TranscriberFaultKind::Unresolved(name),
        }),
    }
}

// Counts the values that the name is bound to at a depth of lists.
fn count<'t, A: Allocator>(
    bindings: &Bindings<'_, A>,
    name: &'t Symbol<A>,
    depth: usize,
    path: &[CurrentRound],
) -> Result<usize, TranscriberFaultKind<'t, A>>
    ensures found { IfOk result
        (λ n. (is_counted depth (followed (env_of bindings.now) path.now name.now) ≡ true)
        × (n ≡ total_of depth (followed (env_of bindings.now) path.now name.now))) }
    ensures lookup_error { IfErr result
        (λ _. is_counted depth (followed (env_of bindings.now) path.now name.now) ≡ false) }
    ensures fault { option_map kind_of_fault (result_err result)
        ≡ bound_fault name.now (count_fault name.now depth path.now)
        (value_of (env_of bindings.now) name.now) }
{
    let Some(binding) = bindings.get(name) else {
        return Err(TranscriberFaultKind::Unresolved(name));
    };
    match follow(binding, path) {
        Ok(value) => value_total(value, depth).ok_or(TranscriberFaultKind::Limit),
        Err(LookupError::Empty) => Err(TranscriberFaultKind::EmptyInside(name)),
        Err(LookupError::NoValue) => Err(TranscriberFaultKind::NoValue(name)),
    }
}

// Writes one identifier, joined from the texts of the elements. An element without a text is left
// out.
pub(crate) fn write_concat<'t, A: Allocator + Copy, G: FragmentGrammar, M: Fn(Span) -> Span + Copy>(
    ctx: &ExpandCtx<'_, '_, A, G, M>,
    elements: &'t [ConcatMetaVarExprElem<A>],
    span: Span,
    path: &[CurrentRound],
    builder: &mut TopSubtreeBuilder<A>,
) -> Result<Option<TranscriberFault<'t, A>>, AllocError>
    requires { MayMark (M.pre ctx.now.marker) }
    ensures wrote { IfOk result (λ fault. Wrote (is_some fault)
        (is_none (concat_text
        (env_of ctx.now.bindings.now) path.now (elements_seen elements.now)))
        (IsConcatWritten (G.grammar ctx.now.grammar.now) (M.post ctx.now.marker) span
        (concat_text (env_of ctx.now.bindings.now) path.now (elements_seen elements.now)))
        builder.old builder.new) }
    ensures first { IfOk result (λ fault. option_map error_of_fault fault
        ≡ expression_fault ctx.now.call_site (env_of ctx.now.bindings.now) path.now
        (Expression.concat (elements_seen elements.now) span)) }
    ensures left { IfOk result (λ _. Appends
        (IsConcatWritten (G.grammar ctx.now.grammar.now) (M.post ctx.now.marker) span (Some
        (concat_name (joined (env_of ctx.now.bindings.now) path.now (elements_seen elements.now)))))
        builder.old builder.new) }
{
    let (text, fault) = joined_text(ctx, elements, path)?;
    if is_identifier(text.as_str()) {
        write_name(ctx, text.as_str(), span, builder)?;
        return Ok(fault);
    }
    write_name(ctx, "__ra_concat_dummy", span, builder)?;
    Ok(fault.or(Some(TranscriberFault {
        span,
        kind: TranscriberFaultKind::NoIdentifier,
    })))
}

// Writes an identifier. It is raw if its text is a keyword.
fn write_name<A: Allocator + Copy, G: FragmentGrammar, M: Fn(Span) -> Span + Copy>(
    ctx: &ExpandCtx<'_, '_, A, G, M>,
    text: &str,
    span: Span,
    builder: &mut TopSubtreeBuilder<A>,
) -> Result<(), AllocError>
    requires { MayMark (M.pre ctx.now.marker) }
    ensures { OnOk result (Appends
        (IsConcatWritten (G.grammar ctx.now.grammar.now) (M.post ctx.now.marker) span
        (Some text.now)) builder.old builder.new) }
{
    let is_raw = if ctx.grammar.is_keyword(text) {
        IdentIsRaw::Yes
    } else {
        IdentIsRaw::No
    };
    builder.push(Leaf::Ident(Ident {
        sym: Symbol::intern(ctx.alloc, text)?,
        is_raw,
        span: mark(span, ctx.marker),
    }))
}

// Joins the texts of the elements. Returns the first fault of an element without a text beside
// them.
fn joined_text<'t, A: Allocator + Copy, G, M>(
    ctx: &ExpandCtx<'_, '_, A, G, M>,
    elements: &'t [ConcatMetaVarExprElem<A>],
    path: &[CurrentRound],
) -> Result<(String<A>, Option<TranscriberFault<'t, A>>), AllocError>
    ensures all { IfOk result (λ r. IsJoined (string_bytes r.0) (is_some r.1)
        (spec.joined_text (env_of ctx.now.bindings.now) path.now (elements_seen elements.now))) }
    ensures text { IfOk result (λ r. string_bytes r.0
        ≡ joined (env_of ctx.now.bindings.now) path.now (elements_seen elements.now)) }
    ensures fault { IfOk result (λ r. option_map error_of_fault r.1
        ≡ find_first (element_fault (env_of ctx.now.bindings.now) path.now)
        (elements_seen elements.now)) }
{
    let mut text = String::new(ctx.alloc);
    let mut fault = None;
    for element in elements {
        match element_text(ctx.bindings, element, path) {
            Ok(own) => text.push_str(own)?,
            Err(own) => fault = fault.or(Some(own)),
        }
    }
    Ok((text, fault))
}

// Returns the text of one element.
fn element_text<'b, 't: 'b, A: Allocator>(
    bindings: &'b Bindings<'_, A>,
    element: &'t ConcatMetaVarExprElem<A>,
    path: &[CurrentRound],
) -> Result<&'b str, TranscriberFault<'t, A>>
    ensures found { IfOk result (λ text. text_of_element
        (env_of bindings.now) path.now (element_seen element.now) ≡ Some text.now) }
    ensures lookup_error { IfErr result (λ _. text_of_element
        (env_of bindings.now) path.now (element_seen element.now) ≡ None) }
    ensures fault { option_map error_of_fault (result_err result)
        ≡ element_fault (env_of bindings.now) path.now (element_seen element.now) }
{
    let variable = match element {
        ConcatMetaVarExprElem::Ident(ident) => return Ok(ident.sym.as_str()),
        ConcatMetaVarExprElem::Literal(literal) => return Ok(literal.text()),
        ConcatMetaVarExprElem::Var(variable) => variable,
    };
    let text = match simple_binding(bindings, &variable.sym, variable.span, path)? {
        SimpleBinding::Fragment(fragment) => fragment_text(fragment),
        SimpleBinding::Missing(kind) => default_text(kind),
    };
    text.ok_or(TranscriberFault {
        span: variable.span,
        kind: TranscriberFaultKind::NoText,
    })
}

// Returns the text of one identifier or literal. Expressions and paths have none.
fn fragment_text<'b, A: Allocator>(fragment: &'b Fragment<'_, A>) -> Option<&'b str>
    ensures { option_map (λ text. text.now) result
        ≡ text_in_style (fragment_seen fragment.now).style (fragment_seen fragment.now).trees }
{
    match fragment {
        Fragment::Tokens { tree, .. } => text_of_tree(*tree),
        Fragment::Whole { tree, kind } => text_of_whole(*kind, *tree),
        Fragment::Empty | Fragment::Expr(_) | Fragment::Path(_) | Fragment::TokensOwned(_) => None,
    }
}

// Returns the text of a fragment that is written whole. Only a literal has one.
fn text_of_whole<'b, A: Allocator>(
    kind: MetaVarKind,
    tree: TokenTreesView<'b, A>,
) -> Option<&'b str>
    ensures { option_map (λ text. text.now) result ≡ text_of_whole kind (trees tree.entry) }
{
    match kind {
        MetaVarKind::Literal => text_of_tree(tree),
        MetaVarKind::Path
        | MetaVarKind::Ty
        | MetaVarKind::Pat
        | MetaVarKind::PatParam
        | MetaVarKind::Stmt
        | MetaVarKind::Block
        | MetaVarKind::Meta
        | MetaVarKind::Item
        | MetaVarKind::Vis
        | MetaVarKind::Expr(_)
        | MetaVarKind::Ident
        | MetaVarKind::Tt
        | MetaVarKind::Lifetime => None,
    }
}

// Returns the text of the trees, if they are one identifier or literal.
fn text_of_tree<'b, A: Allocator>(tree: TokenTreesView<'b, A>) -> Option<&'b str>
    ensures { option_map (λ text. text.now) result ≡ text_of_tree (trees tree.entry) }
{
    let mut iter = tree.iter();
    let first = iter.next()?;
    if !iter.is_empty() {
        return None;
    }
    match first {
        TtElement::Leaf(Leaf::Ident(ident)) => Some(ident.sym.as_str()),
        TtElement::Leaf(Leaf::Literal(literal)) => Some(literal.text()),
        _ => None,
    }
}

// Returns the text of the default of this kind, if the default is one identifier.
fn default_text(kind: MetaVarKind) -> Option<&'static str>
    ensures { option_map (λ text. text.now) result ≡ text_of_tree (default_trees kind no_span) }
{
    match kind.missing() {
        Missing::Identifier => Some("missing"),
        Missing::Nothing | Missing::Semicolon | Missing::Braces | Missing::Lifetime => None,
    }
}

// Returns whether the text is `_` or XID_Start and then XID_Continue.
fn is_identifier(text: &str) -> bool
    ensures { result ≡ are_identifier_chars (chars text.now) }
{
    let mut rest = text.chars();
    match rest.next() {
        Some(first) => begins_identifier(first) && continues_identifier(rest.as_str()),
        None => false,
    }
}

fn begins_identifier(char: char) -> bool
    ensures { result ≡ (xid.is_xid_start char || (char == 95)) }
{
    is_xid_start(char) | (char == '_')
}

fn continues_identifier(text: &str) -> bool
    ensures { result ≡ list_all xid.is_xid_continue (chars text.now) }
{
    text.chars().all(is_xid_continue)
}
