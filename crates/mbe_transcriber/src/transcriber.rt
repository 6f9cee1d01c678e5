// The transcriber: emits a template with its variables replaced by their fragments.
//
// A repetition first counts its rounds, by the lists that its variables are bound to. Then each
// round is written straight into the builder, under the path of rounds that it is in. A fault stops
// nothing. The first fault is kept, and the rest is written as far as possible, since an editor
// shows the tree beside the error.
ghost use Rattle.std.specs.Prelude.{◌≡◌, ◌<◌, Some, true, false, [], is_some, length, option_map};
ghost use Rattle.std.specs.Prelude.{IfOk, OnOk};
ghost use Rattle.mbe_tt.specs.Buffers.GroupStack.{put};
ghost use Rattle.mbe_tt.specs.Views.LeafViews.{literal_of, ident_of};
ghost use Rattle.mbe_tt.specs.Trees.Top.{top_group};
ghost use Rattle.mbe_ops.specs.Errors.ErrorViews.{errors_of};
ghost use Rattle.mbe_semantics.specs.Laws.Callbacks.{MayMark};
ghost use Rattle.mbe_semantics.specs.Syntax.Op as ops;
ghost use Rattle.mbe_semantics.specs.Syntax.Op.{group, repetition, lifetime_separator};
ghost use Rattle.mbe_semantics.specs.Transcription.Substitution.{IsSubstitution, faults, op_faults};
ghost use Rattle.mbe_semantics.specs.Transcription.Substitution.{variable_faults, separator_trees};
ghost use Rattle.mbe_semantics.specs.Transcription.Substitution.{integer, punct_trees};
ghost use Rattle.mbe_ops.specs.Expressions.{expression_seen};
ghost use Rattle.mbe_ops.specs.Views.{op_of, ops_of, template_of, separator_seen};
ghost use Rattle.mbe_bindings.specs.BindingViews.{env_of};
ghost use Rattle.mbe_transcriber.specs.TranscriberSteps.{AreMarked, IsMarkedLiteral, IsMarkedIdent};
ghost use Rattle.mbe_variables.specs.FragmentWriter.{Appends};
ghost use Rattle.mbe_transcriber.specs.TranscriberSteps.{IsWritten, AreWritten, IsVariableWritten};
ghost use Rattle.mbe_transcriber.specs.TranscriberSteps.{IsSeparated};
ghost use Rattle.mbe_transcriber.specs.TranscriberSteps.{Wrote};
ghost use Rattle.mbe_transcriber.specs.PartialExpansion.{IsEmitted, AreEmitted, IsPartialExpansion};
ghost use Rattle.mbe_variables.specs.FaultViews.{error_of_fault};
ghost use Rattle.mbe_transcriber.specs.TemplateFaults.{variable_fault, op_fault, first_fault};
ghost use Rattle.mbe_variables.specs.LookupErrors.{at};

mod expressions;

use crate::transcriber::expressions::{check_ignored, write_concat, write_count, write_number};
use mbe_bindings::bindings::Bindings;
use mbe_ops::errors::value_result::{ExpandResult, ValueResult};
use mbe_ops::expression::Expression;
use mbe_ops::ops::{MetaTemplate, Op, Separator};
use mbe_semantics::current_round::CurrentRound;
use mbe_semantics::fragment_kinds::RepeatKind;
use mbe_tt::grammar::FragmentGrammar;
use mbe_tt::span::Span;
use mbe_tt::symbol::Symbol;
use mbe_tt::tt::{Delimiter, Ident, Leaf, Literal, Punct, TopSubtree, TopSubtreeBuilder};
use mbe_variables::fragment_writer::{mark, write_default, write_fragment, write_unbound};
use mbe_variables::transcriber_fault::TranscriberFault;
use mbe_variables::variable_lookup::{
    SimpleBinding, index_at, kept_rounds, rounds_at, rounds_of, simple_binding_at,
};
use std::alloc::{AllocError, Allocator};

/// The context of a transcription: what is the same for all ops.
#[derive_where(Clone, Copy; A, M)]
pub(crate) struct ExpandCtx<'t, 'a, A: Allocator, G, M> {
    alloc: A,
    grammar: &'t G,
    bindings: &'t Bindings<'a, A>,
    marker: M,
    call_site: Span,
}

/// Emits the expansion of the template in an invisible group, which has the call site as both
/// spans, and returns the first fault beside it. With a fault, the tree holds what could be
/// written. `AllocError` if out of memory.
pub fn transcribe<A: Allocator + Copy, G: FragmentGrammar, M: Fn(Span) -> Span + Copy>(
    alloc: A,
    grammar: &G,
    template: &MetaTemplate<A>,
    bindings: &Bindings<'_, A>,
    marker: M,
    call_site: Span,
) -> Result<ExpandResult<TopSubtree<A>, A>, AllocError>
    requires marks { MayMark (M.pre marker) }
    ensures fault { IfOk result (λ r.
        is_some r.err ≡ faults (env_of bindings.now) [] (template_of template.now)) }
    ensures first { IfOk result (λ r. errors_of r.err
        ≡ first_fault call_site (env_of bindings.now) [] (template_of template.now)) }
    ensures left { IfOk result (λ r.
        IsPartialExpansion (G.grammar grammar.now) (M.post marker) call_site (env_of bindings.now)
        (template_of template.now) (top_group r.value)) }
    ensures substitution { IfOk result (λ r.
        faults (env_of bindings.now) [] (template_of template.now) ≡ false
        → IsSubstitution (G.grammar grammar.now) (M.post marker) call_site (env_of bindings.now)
        (template_of template.now) (top_group r.value)) }
{
    let ctx = ExpandCtx {
        alloc,
        grammar,
        bindings,
        marker,
        call_site,
    };
    let mut builder = TopSubtreeBuilder::new(alloc, Delimiter::invisible_spanned(call_site))?;
    let err = match expand_ops(&ctx, &template.0, &[], &mut builder)? {
        Some(fault) => Some(fault.error(alloc)?),
        None => None,
    };
    Ok(ValueResult {
        value: builder.build(),
        err,
    })
}

// Writes the ops in order. Returns the first fault.
#[cycle(writing)]
fn expand_ops<'t, A: Allocator + Copy, G: FragmentGrammar, M: Fn(Span) -> Span + Copy>(
    ctx: &ExpandCtx<'_, '_, A, G, M>,
    ops: &'t [Op<A>],
    path: &[CurrentRound],
    builder: &mut TopSubtreeBuilder<A>,
) -> Result<Option<TranscriberFault<'t, A>>, AllocError>
    requires marks { MayMark (M.pre ctx.now.marker) }
    requires some_group { 0 < length builder.old }
    ensures wrote { IfOk result (λ fault. Wrote (is_some fault)
        (faults (env_of ctx.now.bindings.now) path.now (ops_of ops.now))
        (AreWritten (G.grammar ctx.now.grammar.now) (M.post ctx.now.marker) ctx.now.call_site
        (env_of ctx.now.bindings.now) path.now (ops_of ops.now)) builder.old builder.new) }
    ensures first { IfOk result (λ fault. option_map error_of_fault fault
        ≡ first_fault ctx.now.call_site (env_of ctx.now.bindings.now) path.now
        (ops_of ops.now)) }
    ensures left { IfOk result (λ _. Appends
        (AreEmitted (G.grammar ctx.now.grammar.now) (M.post ctx.now.marker) ctx.now.call_site
        (env_of ctx.now.bindings.now) path.now (ops_of ops.now)) builder.old builder.new) }
{
    let mut first = None;
    for op in ops {
        let fault = expand_op(ctx, op, path, builder)?;
        first = first.or(fault);
    }
    Ok(first)
}

#[cycle(writing)]
#[tactic(auto, using(mbe_ops::proofs::OpViews::views))]
fn expand_op<'t, A: Allocator + Copy, G: FragmentGrammar, M: Fn(Span) -> Span + Copy>(
    ctx: &ExpandCtx<'_, '_, A, G, M>,
    op: &'t Op<A>,
    path: &[CurrentRound],
    builder: &mut TopSubtreeBuilder<A>,
) -> Result<Option<TranscriberFault<'t, A>>, AllocError>
    requires marks { MayMark (M.pre ctx.now.marker) }
    requires some_group { 0 < length builder.old }
    ensures wrote { IfOk result (λ fault. Wrote (is_some fault)
        (op_faults (env_of ctx.now.bindings.now) path.now (op_of op.now))
        (IsWritten (G.grammar ctx.now.grammar.now) (M.post ctx.now.marker) ctx.now.call_site
        (env_of ctx.now.bindings.now) path.now (op_of op.now)) builder.old builder.new) }
    ensures first { IfOk result (λ fault. option_map error_of_fault fault
        ≡ op_fault ctx.now.call_site (env_of ctx.now.bindings.now) path.now (op_of op.now)) }
    ensures left { IfOk result (λ _. Appends
        (IsEmitted (G.grammar ctx.now.grammar.now) (M.post ctx.now.marker) ctx.now.call_site
        (env_of ctx.now.bindings.now) path.now (op_of op.now)) builder.old builder.new) }
{
    match op {
        Op::Literal(literal) => write_literal(literal, ctx.marker, builder).and(Ok(None)),
        Op::Ident(ident) => write_ident(ident, ctx.marker, builder).and(Ok(None)),
        Op::Punct(puncts) => write_puncts(puncts.as_slice(), builder, ctx.marker).and(Ok(None)),
        Op::Subtree { tokens, delimiter } => {
            expand_group(ctx, delimiter.get(), &tokens.0, path, builder)
        }
        Op::Repeat {
            tokens,
            kind,
            separator,
        } => expand_repeat(ctx, &tokens.0, *kind, separator.as_ref(), path, builder),
        Op::Var { name, id, .. } => write_var(ctx, name, *id, path, builder),
        Op::Expression(expression) => write_expression(ctx, expression, path, builder),
    }
}

fn write_expression<'t, A: Allocator + Copy, G: FragmentGrammar, M: Fn(Span) -> Span + Copy>(
    ctx: &ExpandCtx<'_, '_, A, G, M>,
    expression: &'t Expression<A>,
    path: &[CurrentRound],
    builder: &mut TopSubtreeBuilder<A>,
) -> Result<Option<TranscriberFault<'t, A>>, AllocError>
    requires marks { MayMark (M.pre ctx.now.marker) }
    requires some_group { 0 < length builder.old }
    ensures wrote { IfOk result (λ fault. Wrote (is_some fault)
        (op_faults (env_of ctx.now.bindings.now) path.now
        (ops.expression (expression_seen expression.now)))
        (IsWritten (G.grammar ctx.now.grammar.now) (M.post ctx.now.marker) ctx.now.call_site
        (env_of ctx.now.bindings.now) path.now
        (ops.expression (expression_seen expression.now))) builder.old builder.new) }
    ensures first { IfOk result (λ fault. option_map error_of_fault fault
        ≡ op_fault ctx.now.call_site (env_of ctx.now.bindings.now) path.now
        (ops.expression (expression_seen expression.now))) }
    ensures left { IfOk result (λ _. Appends
        (IsEmitted (G.grammar ctx.now.grammar.now) (M.post ctx.now.marker) ctx.now.call_site
        (env_of ctx.now.bindings.now) path.now
        (ops.expression (expression_seen expression.now))) builder.old builder.new) }
{
    match expression {
        Expression::Ignore { name, id } => Ok(check_ignored(ctx.bindings, name, *id, path)),
        Expression::Index { depth } => {
            write_at_call_site(ctx, index_at(path, *depth), builder).and(Ok(None))
        }
        Expression::Len { depth } => {
            write_at_call_site(ctx, rounds_at(path, *depth), builder).and(Ok(None))
        }
        Expression::Count { name, depth } => write_count(ctx, name, *depth, path, builder),
        Expression::Concat { elements, span } => {
            write_concat(ctx, elements, *span, path, builder)
        }
    }
}

// Writes the body between the delimiters. Each delimiter is marked by itself.
#[cycle(writing)]
fn expand_group<'t, A: Allocator + Copy, G: FragmentGrammar, M: Fn(Span) -> Span + Copy>(
    ctx: &ExpandCtx<'_, '_, A, G, M>,
    delimiter: Delimiter,
    body: &'t [Op<A>],
    path: &[CurrentRound],
    builder: &mut TopSubtreeBuilder<A>,
) -> Result<Option<TranscriberFault<'t, A>>, AllocError>
    requires marks { MayMark (M.pre ctx.now.marker) }
    requires some_group { 0 < length builder.old }
    ensures wrote { IfOk result (λ fault. Wrote (is_some fault)
        (op_faults (env_of ctx.now.bindings.now) path.now (group delimiter (ops_of body.now)))
        (IsWritten (G.grammar ctx.now.grammar.now) (M.post ctx.now.marker) ctx.now.call_site
        (env_of ctx.now.bindings.now) path.now (group delimiter (ops_of body.now)))
        builder.old builder.new) }
    ensures first { IfOk result (λ fault. option_map error_of_fault fault
        ≡ op_fault ctx.now.call_site (env_of ctx.now.bindings.now) path.now
        (group delimiter (ops_of body.now))) }
    ensures left { IfOk result (λ _. Appends
        (IsEmitted (G.grammar ctx.now.grammar.now) (M.post ctx.now.marker) ctx.now.call_site
        (env_of ctx.now.bindings.now) path.now (group delimiter (ops_of body.now)))
        builder.old builder.new) }
{
    builder.open(delimiter.kind, mark(delimiter.opening, ctx.marker))?;
    let fault = expand_ops(ctx, body, path, builder)?;
    builder.close(mark(delimiter.close, ctx.marker));
    Ok(fault)
}

// Writes the rounds of the body. The separator stands before each round but the first, unless the
// round before it has a fault. Writes nothing if the rounds are too many, or if `+` has none.
#[cycle(writing)]
fn expand_repeat<'t, A: Allocator + Copy, G: FragmentGrammar, M: Fn(Span) -> Span + Copy>(
    ctx: &ExpandCtx<'_, '_, A, G, M>,
    body: &'t [Op<A>],
    kind: RepeatKind,
    separator: Option<&Separator<A>>,
    path: &[CurrentRound],
    builder: &mut TopSubtreeBuilder<A>,
) -> Result<Option<TranscriberFault<'t, A>>, AllocError>
    requires marks { MayMark (M.pre ctx.now.marker) }
    requires some_group { 0 < length builder.old }
    ensures wrote { let whole = repetition (ops_of body.now)
        (option_map (λ s. separator_seen s.now) separator.entry) kind in
        IfOk result (λ fault. Wrote (is_some fault)
        (op_faults (env_of ctx.now.bindings.now) path.now whole)
        (IsWritten (G.grammar ctx.now.grammar.now) (M.post ctx.now.marker) ctx.now.call_site
        (env_of ctx.now.bindings.now) path.now whole) builder.old builder.new) }
    ensures first { let whole = repetition (ops_of body.now)
        (option_map (λ s. separator_seen s.now) separator.entry) kind in
        IfOk result (λ fault. option_map error_of_fault fault
        ≡ op_fault ctx.now.call_site (env_of ctx.now.bindings.now) path.now whole) }
    ensures left { let whole = repetition (ops_of body.now)
        (option_map (λ s. separator_seen s.now) separator.entry) kind in
        IfOk result (λ _. Appends
        (IsEmitted (G.grammar ctx.now.grammar.now) (M.post ctx.now.marker) ctx.now.call_site
        (env_of ctx.now.bindings.now) path.now whole) builder.old builder.new) }
{
    let rounds = match kept_rounds(kind, rounds_of(ctx.bindings, path, body)) {
        Ok(rounds) => rounds,
        Err(kind) => {
            return Ok(Some(TranscriberFault {
                span: ctx.call_site,
                kind,
            }));
        }
    };
    let mut inside = path.to_vec(ctx.alloc)?;
    let mut first = None;
    let mut separated = false;
    for index in 0..rounds {
        write_separator_if(separated, separator, builder)?;
        inside.push(CurrentRound { index, rounds })?;
        let fault = expand_ops(ctx, body, &inside, builder)?;
        let _level = inside.pop();
        separated = fault.is_none();
        first = first.or(fault);
    }
    Ok(first)
}

// Writes the separator if `separated`.
fn write_separator_if<A: Allocator>(
    separated: bool,
    separator: Option<&Separator<A>>,
    builder: &mut TopSubtreeBuilder<A>,
) -> Result<(), AllocError>
    ensures open_groups { OnOk result (length builder.new ≡ length builder.old) }
    ensures parted { OnOk result (IsSeparated (option_map (λ s. separator_seen s.now)
        separator.entry) separated builder.old builder.new) }
{
    if separated {
        write_separator(separator, builder)
    } else {
        Ok(())
    }
}

// Writes the separator with its own spans: they aren't marked.
fn write_separator<A: Allocator>(
    separator: Option<&Separator<A>>,
    builder: &mut TopSubtreeBuilder<A>,
) -> Result<(), AllocError>
    ensures { OnOk result (builder.new ≡ put
        (separator_trees (option_map (λ s. separator_seen s.now) separator.entry)) builder.old) }
{
    match separator {
        None => Ok(()),
        Some(Separator::Literal(literal)) => builder.push(Leaf::Literal(literal.clone()?)),
        Some(Separator::Ident(ident)) => builder.push(Leaf::Ident(ident.clone()?)),
        Some(Separator::Puncts(puncts)) => push_puncts(puncts.as_slice(), builder),
        Some(Separator::Lifetime(quote, name)) => push_lifetime(*quote, name, builder),
    }
}

fn push_lifetime<A: Allocator>(
    quote: Punct,
    name: &Ident<A>,
    builder: &mut TopSubtreeBuilder<A>,
) -> Result<(), AllocError>
    ensures { OnOk result (builder.new ≡ put
        (separator_trees (Some (lifetime_separator quote (ident_of name.now)))) builder.old) }
{
    builder.push(Leaf::Punct(quote))?;
    builder.push(Leaf::Ident(name.clone()?))
}

fn push_puncts<A: Allocator>(
    puncts: &[Punct],
    builder: &mut TopSubtreeBuilder<A>,
) -> Result<(), AllocError>
    ensures { OnOk result (builder.new ≡ put (punct_trees puncts.now) builder.old) }
{
    for punct in puncts {
        builder.push(Leaf::Punct(*punct))?;
    }
    Ok(())
}

// Writes the fragment of the variable. A name that isn't bound is written as `$` and the name.
fn write_var<'t, A: Allocator + Copy, G, M: Fn(Span) -> Span + Copy>(
    ctx: &ExpandCtx<'_, '_, A, G, M>,
    name: &'t Symbol<A>,
    id: Span,
    path: &[CurrentRound],
    builder: &mut TopSubtreeBuilder<A>,
) -> Result<Option<TranscriberFault<'t, A>>, AllocError>
    requires marks { MayMark (M.pre ctx.now.marker) }
    requires some_group { 0 < length builder.old }
    ensures wrote { IfOk result (λ fault. Wrote (is_some fault)
        (variable_faults (env_of ctx.now.bindings.now) path.now name.now)
        (IsVariableWritten (M.post ctx.now.marker) ctx.now.call_site
        (env_of ctx.now.bindings.now) path.now name.now id) builder.old builder.new) }
    ensures first { IfOk result (λ fault. option_map error_of_fault fault
        ≡ option_map (at id) (variable_fault (env_of ctx.now.bindings.now) path.now name.now)) }
    ensures unchanged { IfOk result (λ fault. is_some fault ≡ true → builder.new ≡ builder.old) }
{
    let Some(binding) = ctx.bindings.get(name) else {
        write_unbound(name, id, builder)?;
        return Ok(None);
    };
    match simple_binding_at(binding, name, id, path) {
        Ok(SimpleBinding::Fragment(fragment)) => {
            write_fragment(fragment, id, ctx.marker, ctx.call_site, builder)?;
            Ok(None)
        }
        Ok(SimpleBinding::Missing(kind)) => {
            write_default(ctx.alloc, kind, mark(id, ctx.marker), builder)?;
            Ok(None)
        }
        Err(fault) => Ok(Some(fault)),
    }
}

fn write_literal<A: Allocator, M: Fn(Span) -> Span + Copy>(
    literal: &Literal<A>,
    marker: M,
    builder: &mut TopSubtreeBuilder<A>,
) -> Result<(), AllocError>
    requires { MayMark (M.pre marker) }
    ensures { OnOk result (Appends (IsMarkedLiteral (M.post marker) (literal_of literal.now))
        builder.old builder.new) }
{
    builder.push(Leaf::Literal(Literal {
        text_and_suffix: literal.text_and_suffix.clone()?,
        suffix_len: literal.suffix_len,
        kind: literal.kind,
        span: mark(literal.span, marker),
    }))
}

fn write_ident<A: Allocator, M: Fn(Span) -> Span + Copy>(
    ident: &Ident<A>,
    marker: M,
    builder: &mut TopSubtreeBuilder<A>,
) -> Result<(), AllocError>
    requires { MayMark (M.pre marker) }
    ensures { OnOk result (Appends (IsMarkedIdent (M.post marker) (ident_of ident.now))
        builder.old builder.new) }
{
    builder.push(Leaf::Ident(Ident {
        sym: ident.sym.clone()?,
        is_raw: ident.is_raw,
        span: mark(ident.span, marker),
    }))
}

// Writes an integer with the span of the call site.
fn write_at_call_site<A: Allocator + Copy, G, M>(
    ctx: &ExpandCtx<'_, '_, A, G, M>,
    number: usize,
    builder: &mut TopSubtreeBuilder<A>,
) -> Result<(), AllocError>
    ensures { OnOk result (builder.new ≡ put (integer number ctx.now.call_site) builder.old) }
{
    write_number(ctx.alloc, number, ctx.call_site, builder)
}

fn write_puncts<A: Allocator, M: Fn(Span) -> Span + Copy>(
    puncts: &[Punct],
    builder: &mut TopSubtreeBuilder<A>,
    marker: M,
) -> Result<(), AllocError>
    requires { MayMark (M.pre marker) }
    ensures open_groups { OnOk result (length builder.new ≡ length builder.old) }
    ensures written { OnOk result
        (Appends (AreMarked (M.post marker) puncts.now) builder.old builder.new) }
{
    for punct in puncts {
        builder.push(Leaf::Punct(Punct {
            char: punct.char,
            spacing: punct.spacing,
            span: mark(punct.span, marker),
        }))?;
    }
    Ok(())
}
