// The parser of patterns and templates: token trees to ops. A pattern and a template have the same
// grammar, except after a `$`. The `push_` functions consume trees from `src` and add ops to `ops`.
// The functions for a group, and for what a `$` begins, also return the offset of the op's first
// refused repetition, in trees that begin with the op.
ghost use Rattle.std.specs.Prelude.{◌≡◌, ◌<◌, ◌≤◌, ◌+◌, ◌^◌, [], ◌∷◌, codes, IsFalse, length};
ghost use Rattle.std.specs.Prelude.{true};
ghost use Rattle.std.specs.Prelude.{is_some, vec_len, vec_capacity, option_map, Some, Ok, Err};
ghost use Rattle.std.specs.Prelude.{IfOk, IfErr, IfSome, IfNone, OnOk};
ghost use Rattle.std.specs.Result.{result_ok};
ghost use Rattle.mbe_tt.specs.Trees.Tree.{Forest, Leaf_tree, Group_tree, flat_len, first};
ghost use Rattle.mbe_tt.specs.Trees.Tree.{leaf as leaf_before, front_ident, front_punct, rest_of};
ghost use Rattle.mbe_tt.specs.Trees.Tree.{is_bool_text, skip};
ghost use Rattle.mbe_tt.specs.Trees.Glue.{glue};
ghost use Rattle.mbe_tt.specs.Trees.Leaf.{ident as ident_leaf, literal as literal_leaf};
ghost use Rattle.mbe_tt.specs.Trees.Leaf.{punct as punct_leaf};
ghost use Rattle.mbe_tt.specs.Views.LeafViews.{ident_of, literal_of, leaf_of};
ghost use Rattle.mbe_tt.specs.declared.span.Span.{Span as SpecSpan};
ghost use Rattle.mbe_tt.specs.declared.span.Edition.{Edition as SpecEdition};
ghost use Rattle.mbe_tt.specs.declared.tt.IdentIsRaw.TheVariants.{No};
ghost use Rattle.mbe_tt.specs.declared.tt.Punct.{Punct as SpecPunct};
ghost use Rattle.mbe_semantics.specs.Syntax.Op.{Name, token, puncts, ident as ident_token};
ghost use Rattle.mbe_semantics.specs.Syntax.Op.{literal as literal_token, variable as variable_op};
ghost use Rattle.mbe_semantics.specs.Syntax.Template as grammar;
ghost use Rattle.mbe_semantics.specs.Syntax.Template.{Template, Specifies};
ghost use Rattle.mbe_semantics.specs.Syntax.Template.{opens_repetition, suffix_of, leaf_in_suffix};
ghost use Rattle.mbe_semantics.specs.Syntax.Template.{invalid_repeat};
ghost use Rattle.mbe_parser.specs.ParserResults.{mode_of, ReadFails, ExtendsSeparator};
ghost use Rattle.mbe_parser.specs.ParserResults.{NeverExtendsSeparator, IsPushed, AtHead};
ghost use Rattle.mbe_parser.specs.ParserResults.{IsHead, FaultAtHead, ReadsOp};
ghost use Rattle.mbe_parser.specs.LocatedErrors.{FailsAt};
ghost use Rattle.mbe_parser.specs.FaultOffsets.{TemplateFaultAt};
ghost use Rattle.mbe_parser.specs.RefusedRepetitions.{IsEmptyOffset};
ghost use Rattle.mbe_ops.specs.Errors.ErrorViews.{fault_of};
ghost use Rattle.mbe_semantics.specs.Fragments.Kinds.{kind_named, kind_names};
ghost use Rattle.mbe_tt.specs.Trees.Leaf.{is_text};
ghost use Rattle.mbe_semantics.specs.Laws.Callbacks.{MayAsk};
ghost use Rattle.mbe_ops.specs.Views.{op_of, template_of, separator_seen};

mod metavar_expr;

use crate::empty_repetition::{first_in_repetition, first_offset, shift_offset};
use crate::located_fault::LocatedError;
use crate::parser::metavar_expr::parse_metavar_expr;
use arrayvec::ArrayVec;
use mbe_ops::errors::error::{ReadError, SyntaxFault};
use mbe_ops::op_fields::{OpDelimiter, OpSeparator, Puncts};
use mbe_ops::ops::{MetaTemplate, Op, Separator};
use mbe_semantics::fragment_kinds::{ExprKind, MetaVarKind, RepeatKind};
use mbe_tt::span::{Edition, Span, SyntaxContext};
use mbe_tt::symbol::Symbol;
use mbe_tt::tt::{
    Delimiter, DelimiterKind, Ident, IdentIsRaw, Leaf, Literal, Punct, TtElement, TtIter,
};
use std::alloc::{AllocError, Allocator, Global};

/// Whether a pattern or a template is parsed.
#[derive(Clone, Copy, Debug, PartialEq, Eq)]
pub enum Mode {
    Pattern,
    Template,
}

/// A parsed pattern or template.
#[derive(Drop)]
pub struct ParsedTemplate<A: Allocator = Global> {
    pub ops: MetaTemplate<A>,
    /// The offset of the first refused repetition, in reading order: the number of flat tokens
    /// before its group. It has no separator, and its body can match no token. A pattern that has
    /// one is refused. In a template such a repetition is allowed.
    pub empty: Option<usize>,
}

/// The greatest depth of groups and repetitions in a pattern or a template.
///
/// Each function that parses, checks, copies, compares, drops, matches or writes a definition calls
/// itself once per level. The same holds for functions that build or drop its bindings. With this
/// depth they fit the machine's stack. Deeper definitions are refused as if out of memory.
pub const NESTING_LIMIT: usize = 256;

/// Parses all the trees. `edition` returns the edition of a context. It decides what `pat` and
/// `expr` mean, by the context of the specifier's own span. The error is the first fault, with its
/// offset. Out of memory also beyond `NESTING_LIMIT`.
pub fn parse_template<A: Allocator + Copy, E: Copy + Fn(SyntaxContext) -> Edition>(
    alloc: A,
    edition: E,
    src: TtIter<'_, A>,
    mode: Mode,
) -> Result<ParsedTemplate<A>, LocatedError>
    requires { MayAsk (E.pre edition) }
    ensures ops { IfOk result (λ t. Template (E.post edition) (mode_of mode)
        src.entry (template_of t.ops)) }
    ensures empty { IfOk result (λ t. IsEmptyOffset (E.post edition) (mode_of mode)
        src.entry (template_of t.ops) t.empty) }
    ensures within_empty { IfOk result (λ t. IfSome t.empty (λ n. n ≤ flat_len src.entry)) }
    ensures fault { IfErr result (λ e. FailsAt e (λ f n. TemplateFaultAt (E.post edition)
        (mode_of mode) f src.entry n)) }
    ensures within { IfErr result (λ e. FailsAt e (λ f n. n ≤ flat_len src.entry)) }
{
    parse_template_within(alloc, edition, src, mode, NESTING_LIMIT)
}

// Parses all the trees. At most `levels` groups and repetitions may be nested.
#[cycle(template)]
fn parse_template_within<A: Allocator + Copy, E: Copy + Fn(SyntaxContext) -> Edition>(
    alloc: A,
    edition: E,
    src: TtIter<'_, A>,
    mode: Mode,
    levels: usize,
) -> Result<ParsedTemplate<A>, LocatedError>
    requires { MayAsk (E.pre edition) }
    ensures ops { IfOk result (λ t. Template (E.post edition) (mode_of mode)
        src.entry (template_of t.ops)) }
    ensures empty { IfOk result (λ t. IsEmptyOffset (E.post edition) (mode_of mode)
        src.entry (template_of t.ops) t.empty) }
    ensures within_empty { IfOk result (λ t. IfSome t.empty (λ n. n ≤ flat_len src.entry)) }
    ensures fault { IfErr result (λ e. FailsAt e (λ f n. TemplateFaultAt (E.post edition)
        (mode_of mode) f src.entry n)) }
    ensures within { IfErr result (λ e. FailsAt e (λ f n. n ≤ flat_len src.entry)) }
{
    let whole = src.remaining().flat_len();
    let mut src = src;
    let mut ops = Vec::with_capacity(alloc, estimate_ops(src.fork(), mode))?;
    let mut empty = None;
    'trees: while !src.is_empty() {
        ops.reserve(1)?;
        let offset = whole - src.remaining().flat_len();
        let Some(first) = src.peek() else {
            unreachable!()
        };
        match first {
            TtElement::Leaf(Leaf::Ident(ident)) => push_ident(ident, &mut src, &mut ops)?,
            TtElement::Leaf(Leaf::Literal(literal)) => push_literal(literal, &mut src, &mut ops)?,
            TtElement::Leaf(Leaf::Punct(punct)) => {
                match push_at_punct(alloc, edition, *punct, &mut src, mode, levels, &mut ops) {
                    Ok(found) => empty = first_offset(empty, found, offset),
                    Err(error) => return Err(error.shifted(offset)),
                }
            }
            TtElement::Subtree(subtree, inside) => {
                let around = subtree.delimiter;
                match push_group(
                    alloc, edition, around, inside, &mut src, mode, levels, &mut ops,
                ) {
                    Ok(found) => empty = first_offset(empty, found, offset),
                    Err(error) => return Err(error.shifted(offset)),
                }
            }
        }
    }
    let ops = MetaTemplate(shrink_ops(alloc, ops)?);
    Ok(ParsedTemplate { ops, empty })
}

// The number of trees that an estimate looks at.
const SAMPLE: usize = 64;

// Estimates the number of ops. Each tree counts as one, except the trees that belong to a `$`. In a
// long list the estimate looks at the first trees and expects the others to be like them.
fn estimate_ops<A: Allocator>(src: TtIter<'_, A>, mode: Mode) -> usize
    ensures { result ≤ flat_len src.entry }
{
    let all = src.remaining().flat_len();
    let mut src = src;
    let mut count = 0;
    'trees: while let Some(tree) = src.next() {
        count += 1;
        if let TtElement::Leaf(Leaf::Punct(punct)) = tree
            && punct.char == '$'
        {
            skip_after_dollar(&mut src, mode);
        }
        if count == SAMPLE {
            return count + estimate_rest(count, all, src.remaining().flat_len());
        }
    }
    count
}

// Estimates the number of ops in the `left` flat tokens, where the tokens before them have `count`
// ops. It adds an eighth: one op too few would move the list.
fn estimate_rest(count: usize, all: usize, left: usize) -> usize
    ensures { result ≤ left }
{
    let more = match left
        .saturating_mul(count)
        .checked_div(all.saturating_sub(left))
    {
        Some(more) => more.saturating_add(more.saturating_add(count) / 8),
        None => left,
    };
    more.min(left)
}

#[inline(always)]
fn skip_after_dollar<A: Allocator>(src: &mut TtIter<'_, A>, mode: Mode)
    ensures { flat_len src.new ≤ flat_len src.old }
{
    if let Some(TtElement::Leaf(_)) = src.next() {
        match mode {
            Mode::Template => return,
            Mode::Pattern => {
                let _colon = src.next();
            }
        }
    }
    let _end = src.next();
}

// Returns how many levels may be inside the next one. `AllocError` if no next one is allowed.
fn enter_level(levels: usize) -> Result<usize, AllocError>
    ensures { IfOk result (λ inside. inside + 1 ≡ levels) }
{
    levels.checked_sub(1).ok_or(AllocError)
}

// Moves the ops into a block of their size if theirs has room for more than half as many again:
// there may be fewer ops than trees. `shrink_to_fit` wouldn't report an allocation failure.
fn shrink_ops<A: Allocator>(alloc: A, ops: Vec<Op<A>, A>) -> Result<Vec<Op<A>, A>, AllocError>
    ensures { IfOk result (λ fit. fit.items ≡ ops.items) }
{
    if ops.capacity().saturating_sub(ops.len()) <= ops.len() / 2 {
        return Ok(ops);
    }
    let mut ops = ops;
    let mut fit = Vec::with_capacity(alloc, ops.len())?;
    fit.append(&mut ops)?;
    Ok(fit)
}

// Adds the identifier that is the next tree. This function and those it calls are inlined, and each
// adds the op where it is made. An op is large: returning it through several results would cost
// more than parsing it.
#[inline(always)]
#[tactic(auto, using(mbe_ops::proofs::OpViews::views))]
fn push_ident<A: Allocator>(
    ident: &Ident<A>,
    src: &mut TtIter<'_, A>,
    ops: &mut Vec<Op<A>, A>,
) -> Result<(), AllocError>
    requires { vec_len ops.old < vec_capacity ops.old }
    ensures op { OnOk result (IsPushed ops.old.items ops.new.items (λ o.
        o ≡ token (ident_token (ident_of ident.now)))) }
    ensures rest { src.new ≡ rest_of src.old }
{
    let _word = src.next();
    let Some(sym) = ident.sym.copied() else {
        return push_shared_ident(ident, ops);
    };
    ops.push_reserved(Op::Ident(Ident {
        sym,
        is_raw: ident.is_raw,
        span: ident.span,
    }));
    Ok(())
}

// Adds the identifier, whose text is shared memory.
#[inline(never)]
#[tactic(auto, using(mbe_ops::proofs::OpViews::views))]
fn push_shared_ident<A: Allocator>(
    ident: &Ident<A>,
    ops: &mut Vec<Op<A>, A>,
) -> Result<(), AllocError>
    requires { vec_len ops.old < vec_capacity ops.old }
    ensures { OnOk result (IsPushed ops.old.items ops.new.items (λ o.
        o ≡ token (ident_token (ident_of ident.now)))) }
{
    ops.push_reserved(Op::Ident(ident.clone()?));
    Ok(())
}

// Adds the literal that is the next tree.
#[inline(always)]
#[tactic(auto, using(mbe_ops::proofs::OpViews::views))]
fn push_literal<A: Allocator>(
    literal: &Literal<A>,
    src: &mut TtIter<'_, A>,
    ops: &mut Vec<Op<A>, A>,
) -> Result<(), AllocError>
    requires { vec_len ops.old < vec_capacity ops.old }
    ensures op { OnOk result (IsPushed ops.old.items ops.new.items (λ o.
        o ≡ token (literal_token (literal_of literal.now)))) }
    ensures rest { src.new ≡ rest_of src.old }
{
    let _literal = src.next();
    let Some(text_and_suffix) = literal.text_and_suffix.copied() else {
        return push_shared_literal(literal, ops);
    };
    ops.push_reserved(Op::Literal(Literal {
        text_and_suffix,
        span: literal.span,
        kind: literal.kind,
        suffix_len: literal.suffix_len,
    }));
    Ok(())
}

// Adds the literal, whose text is shared memory.
#[inline(never)]
#[tactic(auto, using(mbe_ops::proofs::OpViews::views))]
fn push_shared_literal<A: Allocator>(
    literal: &Literal<A>,
    ops: &mut Vec<Op<A>, A>,
) -> Result<(), AllocError>
    requires { vec_len ops.old < vec_capacity ops.old }
    ensures { OnOk result (IsPushed ops.old.items ops.new.items (λ o.
        o ≡ token (literal_token (literal_of literal.now)))) }
{
    ops.push_reserved(Op::Literal(literal.clone()?));
    Ok(())
}

// Adds the group that is the next tree.
#[inline(never)]
#[cycle(template)]
fn push_group<A: Allocator + Copy, E: Copy + Fn(SyntaxContext) -> Edition>(
    alloc: A,
    edition: E,
    delimiter: Delimiter,
    inside: TtIter<'_, A>,
    src: &mut TtIter<'_, A>,
    mode: Mode,
    levels: usize,
    ops: &mut Vec<Op<A>, A>,
) -> Result<Option<usize>, LocatedError>
    requires answers { MayAsk (E.pre edition) }
    requires peeked { first src.old ≡ Some (Group_tree delimiter inside) }
    requires small { flat_len src.old < 2 ^ 64 }
    requires room { vec_len ops.old < vec_capacity ops.old }
    ensures op { IfOk result (λ found. IsPushed ops.old.items ops.new.items (λ o.
        ReadsOp (E.post edition) (mode_of mode) src.old o src.new found)) }
    ensures within_empty { IfOk result (λ found. IfSome found (λ n. n ≤ flat_len src.old)) }
    ensures fault { IfErr result (λ e. FailsAt e (λ f n. TemplateFaultAt (E.post edition)
        (mode_of mode) f src.old n)) }
    ensures within { IfErr result (λ e. FailsAt e (λ f n. n ≤ flat_len src.old)) }
    ensures shorter { OnOk result (flat_len src.new < flat_len src.old) }
{
    let _group = src.next();
    match parse_template_within(alloc, edition, inside, mode, enter_level(levels)?) {
        Ok(body) => {
            let delimiter = OpDelimiter::new(alloc, delimiter)?;
            let tokens = body.ops;
            ops.push_reserved(Op::Subtree { tokens, delimiter });
            Ok(shift_offset(body.empty, 1))
        }
        Err(error) => Err(error.shifted(1)),
    }
}

// Adds the op that begins with this punct, which is the next tree.
#[inline(always)]
#[cycle(template)]
#[tactic(auto, using(mbe_ops::proofs::OpViews::views))]
fn push_at_punct<A: Allocator + Copy, E: Copy + Fn(SyntaxContext) -> Edition>(
    alloc: A,
    edition: E,
    punct: Punct,
    src: &mut TtIter<'_, A>,
    mode: Mode,
    levels: usize,
    ops: &mut Vec<Op<A>, A>,
) -> Result<Option<usize>, LocatedError>
    requires answers { MayAsk (E.pre edition) }
    requires peeked { first src.old ≡ Some (Leaf_tree (punct_leaf punct)) }
    requires small { flat_len src.old < 2 ^ 64 }
    requires room { vec_len ops.old < vec_capacity ops.old }
    ensures op { IfOk result (λ found. IsPushed ops.old.items ops.new.items (λ o.
        ReadsOp (E.post edition) (mode_of mode) src.old o src.new found)) }
    ensures within_empty { IfOk result (λ found. IfSome found (λ n. n ≤ flat_len src.old)) }
    ensures fault { IfErr result (λ e. FailsAt e (λ f n. TemplateFaultAt (E.post edition)
        (mode_of mode) f src.old n)) }
    ensures within { IfErr result (λ e. FailsAt e (λ f n. n ≤ flat_len src.old)) }
    ensures shorter { OnOk result (flat_len src.new < flat_len src.old) }
{
    if punct.char == '$' {
        let _dollar = src.next();
        return push_after_dollar(alloc, edition, punct, src, mode, levels, ops);
    }
    push_puncts(alloc, src, ops)?;
    Ok(None)
}

// Adds the op of the next puncts.
#[inline(never)]
#[tactic(auto, using(mbe_ops::proofs::OpViews::views))]
fn push_puncts<A: Allocator + Copy>(
    alloc: A,
    src: &mut TtIter<'_, A>,
    ops: &mut Vec<Op<A>, A>,
) -> Result<(), AllocError>
    requires punct { is_some (front_punct src.old) ≡ true }
    requires room { vec_len ops.old < vec_capacity ops.old }
    ensures op { OnOk result (IsPushed ops.old.items ops.new.items (λ o.
        o ≡ token (puncts (glue src.old)))) }
    ensures rest { src.new ≡ skip (length (glue src.old)) src.old }
{
    let Ok(puncts) = src.expect_glued_punct() else {
        unreachable!()
    };
    ops.push_reserved(Op::Punct(Puncts::new(alloc, puncts)?));
    Ok(())
}

// Adds the op that a `$` begins. The `$` is consumed.
#[inline(always)]
#[cycle(template)]
#[tactic(auto, using(mbe_ops::proofs::OpViews::views))]
fn push_after_dollar<A: Allocator + Copy, E: Copy + Fn(SyntaxContext) -> Edition>(
    alloc: A,
    edition: E,
    dollar: Punct,
    src: &mut TtIter<'_, A>,
    mode: Mode,
    levels: usize,
    ops: &mut Vec<Op<A>, A>,
) -> Result<Option<usize>, LocatedError>
    requires answers { MayAsk (E.pre edition) }
    requires small { flat_len src.old < 2 ^ 64 }
    requires room { vec_len ops.old < vec_capacity ops.old }
    ensures op { IfOk result (λ found. IsPushed ops.old.items ops.new.items (λ o.
        IsHead (E.post edition) (mode_of mode)
        (grammar.after_dollar (mode_of mode) dollar src.old) o src.new found)) }
    ensures within_empty { IfOk result (λ found. IfSome found (λ n. n ≤ flat_len src.old)) }
    ensures fault { IfErr result (λ e. FailsAt e (FaultAtHead (E.post edition) (mode_of mode)
        (grammar.after_dollar (mode_of mode) dollar src.old))) }
    ensures within { IfErr result (λ e. FailsAt e (λ f n. n ≤ flat_len src.old)) }
    ensures no_longer { OnOk result (flat_len src.new ≤ flat_len src.old) }
{
    let Some(second) = src.next() else {
        ops.push_reserved(Op::Punct(Puncts::one(dollar)));
        return Ok(None);
    };
    match second {
        TtElement::Subtree(subtree, inside) => {
            let kind = subtree.delimiter.kind;
            push_group_after_dollar(alloc, edition, kind, inside, src, mode, levels, ops)
        }
        TtElement::Leaf(leaf) => {
            push_leaf_after_dollar(alloc, edition, leaf, src, mode, ops)?;
            Ok(None)
        }
    }
}

// Adds the op that a `$` and a group make.
#[inline(never)]
#[cycle(template)]
fn push_group_after_dollar<A: Allocator + Copy, E: Copy + Fn(SyntaxContext) -> Edition>(
    alloc: A,
    edition: E,
    kind: DelimiterKind,
    inside: TtIter<'_, A>,
    src: &mut TtIter<'_, A>,
    mode: Mode,
    levels: usize,
    ops: &mut Vec<Op<A>, A>,
) -> Result<Option<usize>, LocatedError>
    requires answers { MayAsk (E.pre edition) }
    requires small { 2 + flat_len inside < 2 ^ 64 }
    requires room { vec_len ops.old < vec_capacity ops.old }
    ensures op { IfOk result (λ found. IsPushed ops.old.items ops.new.items (λ o.
        IsHead (E.post edition) (mode_of mode)
        (grammar.group_after_dollar (mode_of mode) kind inside.entry src.old)
        o src.new found)) }
    ensures within_empty { IfOk result (λ found. IfSome found
        (λ n. n ≤ 2 + flat_len inside.entry)) }
    ensures fault { IfErr result (λ e. FailsAt e (FaultAtHead (E.post edition) (mode_of mode)
        (grammar.group_after_dollar (mode_of mode) kind inside.entry src.old))) }
    ensures within { IfErr result (λ e. FailsAt e (λ f n. n ≤ 2 + flat_len inside.entry)) }
    ensures no_longer { OnOk result (flat_len src.new ≤ flat_len src.old) }
{
    match kind {
        DelimiterKind::Parenthesis => {
            let (op, found) = repetition(alloc, edition, inside, src, mode, levels)?;
            ops.push_reserved(op);
            Ok(found)
        }
        DelimiterKind::Brace => {
            let op = parse_expression(alloc, inside, mode)?;
            ops.push_reserved(op);
            Ok(None)
        }
        DelimiterKind::Bracket => Err(LocatedError::at_start(SyntaxFault::ExpectedRepetition)),
        DelimiterKind::Invisible => Err(LocatedError::at_start(SyntaxFault::ExpectedRepetition)),
    }
}

// Parses the repetition that has this body. The suffix is parsed first. Returns the offset of its
// first refused repetition, in trees that begin with its `$`.
#[cycle(template)]
#[tactic(auto, using(mbe_ops::proofs::OpViews::views))]
fn repetition<A: Allocator + Copy, E: Copy + Fn(SyntaxContext) -> Edition>(
    alloc: A,
    edition: E,
    body: TtIter<'_, A>,
    src: &mut TtIter<'_, A>,
    mode: Mode,
    levels: usize,
) -> Result<(Op<A>, Option<usize>), LocatedError>
    requires answers { MayAsk (E.pre edition) }
    requires small { 2 + flat_len body < 2 ^ 64 }
    ensures op { IfOk result (λ r. IsHead (E.post edition) (mode_of mode)
        (grammar.repetition_at body.entry (suffix_of src.old)) (op_of r.0) src.new r.1) }
    ensures within_empty { IfOk result (λ r. IfSome r.1 (λ n. n ≤ 2 + flat_len body.entry)) }
    ensures fault { IfErr result (λ e. FailsAt e (FaultAtHead (E.post edition) (mode_of mode)
        (grammar.repetition_at body.entry (suffix_of src.old)))) }
    ensures within { IfErr result (λ e. FailsAt e (λ f n. n ≤ 2 + flat_len body.entry)) }
    ensures no_longer { OnOk result (flat_len src.new ≤ flat_len src.old) }
{
    let (separator, kind) = parse_repeat(src)?;
    match parse_template_within(alloc, edition, body, mode, enter_level(levels)?) {
        Ok(parsed) => {
            let found = first_in_repetition(&separator, &parsed.ops.0, parsed.empty);
            let separator = OpSeparator::new(alloc, separator)?;
            let tokens = parsed.ops;
            let op = Op::Repeat {
                tokens,
                kind,
                separator,
            };
            Ok((op, found))
        }
        Err(error) => Err(error.shifted(2)),
    }
}

// Parses `${..}`, which only templates may have.
#[inline(never)]
fn parse_expression<A: Allocator + Copy>(
    alloc: A,
    inside: TtIter<'_, A>,
    mode: Mode,
) -> Result<Op<A>, ReadError>
    ensures op { IfOk result (λ o. (rest : Forest)
        → grammar.expression_at (mode_of mode) rest (grammar.expression_of inside.entry)
        ≡ Ok (grammar.one (op_of o) rest)) }
    ensures fault { IfErr result (λ e. ReadFails e (λ f. (rest : Forest)
        → grammar.expression_at (mode_of mode) rest (grammar.expression_of inside.entry) ≡ Err f)) }
{
    match mode {
        Mode::Pattern => Err(ReadError::Fault(SyntaxFault::ExpressionInPattern)),
        Mode::Template => parse_metavar_expr(alloc, inside),
    }
}

// Adds the op that a `$` and this leaf make.
#[inline(always)]
#[tactic(auto, using(mbe_ops::proofs::OpViews::views))]
fn push_leaf_after_dollar<A: Allocator + Copy, E: Copy + Fn(SyntaxContext) -> Edition>(
    alloc: A,
    edition: E,
    leaf: &Leaf<A>,
    src: &mut TtIter<'_, A>,
    mode: Mode,
    ops: &mut Vec<Op<A>, A>,
) -> Result<(), ReadError>
    requires answers { MayAsk (E.pre edition) }
    requires room { vec_len ops.old < vec_capacity ops.old }
    ensures op { OnOk result (IsPushed ops.old.items ops.new.items (λ o. (dollar : SpecPunct)
        → AtHead (E.post edition) (mode_of mode)
        (grammar.after_dollar (mode_of mode) dollar (leaf_before (leaf_of leaf.now) src.old))
        o src.new)) }
    ensures fault { IfErr result (λ e. ReadFails e (λ f. (dollar : SpecPunct)
        → grammar.after_dollar (mode_of mode) dollar (leaf_before (leaf_of leaf.now) src.old)
        ≡ Err f)) }
    ensures no_longer { flat_len src.new ≤ flat_len src.old }
{
    match leaf {
        Leaf::Ident(ident) => {
            if is_crate(ident.sym.as_str()) {
                push_dollar_crate(alloc, ident, ops)?;
                return Ok(());
            }
            push_variable(edition, &ident.sym, ident.span, src, mode, ops)
        }
        Leaf::Literal(literal) => push_literal_after_dollar(edition, literal, src, mode, ops),
        Leaf::Punct(punct) => push_punct_after_dollar(*punct, mode, ops),
    }
}

// Adds the variable `true` or `false`. No other literal is a name.
#[inline(always)]
#[tactic(auto, using(mbe_ops::proofs::OpViews::views))]
fn push_literal_after_dollar<A: Allocator, E: Copy + Fn(SyntaxContext) -> Edition>(
    edition: E,
    literal: &Literal<A>,
    src: &mut TtIter<'_, A>,
    mode: Mode,
    ops: &mut Vec<Op<A>, A>,
) -> Result<(), ReadError>
    requires answers { MayAsk (E.pre edition) }
    requires room { vec_len ops.old < vec_capacity ops.old }
    ensures op { OnOk result (IsPushed ops.old.items ops.new.items (λ o. (dollar : SpecPunct)
        → AtHead (E.post edition) (mode_of mode) (grammar.after_dollar (mode_of mode) dollar
        (leaf_before (literal_leaf (literal_of literal.now)) src.old)) o src.new)) }
    ensures fault { IfErr result (λ e. ReadFails e (λ f. (dollar : SpecPunct)
        → grammar.after_dollar (mode_of mode) dollar
        (leaf_before (literal_leaf (literal_of literal.now)) src.old) ≡ Err f)) }
    ensures no_longer { flat_len src.new ≤ flat_len src.old }
{
    if !is_boolean_literal(literal) {
        return Err(ReadError::Fault(SyntaxFault::ExpectedIdent));
    }
    let name = &literal.text_and_suffix;
    push_variable(edition, name, literal.span, src, mode, ops)
}

// Adds the second `$` of `$$`, which only templates may have.
#[inline(always)]
#[tactic(auto, using(mbe_ops::proofs::OpViews::views))]
fn push_punct_after_dollar<A: Allocator>(
    punct: Punct,
    mode: Mode,
    ops: &mut Vec<Op<A>, A>,
) -> Result<(), ReadError>
    requires { vec_len ops.old < vec_capacity ops.old }
    ensures op { OnOk result (IsPushed ops.old.items ops.new.items (λ o.
        (dollar : SpecPunct) (rest : Forest)
        → grammar.after_dollar (mode_of mode) dollar (leaf_before (punct_leaf punct) rest)
        ≡ Ok (grammar.one o rest))) }
    ensures fault { IfErr result (λ e. ReadFails e (λ f. (dollar : SpecPunct) (rest : Forest)
        → grammar.after_dollar (mode_of mode) dollar (leaf_before (punct_leaf punct) rest)
        ≡ Err f)) }
{
    if punct.char != '$' {
        return Err(ReadError::Fault(SyntaxFault::ExpectedIdent));
    }
    match mode {
        Mode::Pattern => Err(ReadError::Fault(SyntaxFault::DollarInPattern)),
        Mode::Template => {
            ops.push_reserved(Op::Punct(Puncts::one(punct)));
            Ok(())
        }
    }
}

// Returns whether the identifier is `crate`.
#[inline(always)]
fn is_crate(word: &str) -> bool
    ensures { result ≡ is_text word.now (codes "crate") }
{
    word.len() == 5 && word == "crate"
}

// Adds the identifier `$crate`.
#[inline(never)]
#[tactic(auto, using(mbe_ops::proofs::OpViews::views))]
fn push_dollar_crate<A: Allocator + Copy>(
    alloc: A,
    word: &Ident<A>,
    ops: &mut Vec<Op<A>, A>,
) -> Result<(), AllocError>
    requires { vec_len ops.old < vec_capacity ops.old }
    ensures { OnOk result (IsPushed ops.old.items ops.new.items (λ o.
        o ≡ grammar.dollar_crate (ident_of word.now))) }
{
    ops.push_reserved(Op::Ident(Ident {
        sym: Symbol::intern(alloc, "$crate")?,
        is_raw: IdentIsRaw::No,
        span: word.span,
    }));
    Ok(())
}

// Adds the variable of that name.
#[inline(always)]
#[tactic(auto, using(mbe_ops::proofs::OpViews::views))]
fn push_variable<A: Allocator, E: Copy + Fn(SyntaxContext) -> Edition>(
    edition: E,
    name: &Symbol<A>,
    id: Span,
    src: &mut TtIter<'_, A>,
    mode: Mode,
    ops: &mut Vec<Op<A>, A>,
) -> Result<(), ReadError>
    requires answers { MayAsk (E.pre edition) }
    requires room { vec_len ops.old < vec_capacity ops.old }
    ensures op { OnOk result (IsPushed ops.old.items ops.new.items (λ o. AtHead (E.post edition)
        (mode_of mode) (grammar.variable_at (mode_of mode) name.now id src.old) o src.new)) }
    ensures fault { IfErr result (λ e. ReadFails e (λ f.
        grammar.variable_at (mode_of mode) name.now id src.old ≡ Err f)) }
    ensures no_longer { flat_len src.new ≤ flat_len src.old }
{
    let mut rest = src.fork();
    let kind = eat_fragment_kind(edition, &mut rest, mode)?;
    *src = rest;
    let Some(name) = name.copied() else {
        return Ok(push_long_variable(name, kind, id, ops)?);
    };
    ops.push_reserved(Op::Var { name, kind, id });
    Ok(())
}

// Adds the variable of that name, whose text is shared memory.
#[inline(never)]
#[tactic(auto, using(mbe_ops::proofs::OpViews::views))]
fn push_long_variable<A: Allocator>(
    name: &Symbol<A>,
    kind: Option<MetaVarKind>,
    id: Span,
    ops: &mut Vec<Op<A>, A>,
) -> Result<(), AllocError>
    requires { vec_len ops.old < vec_capacity ops.old }
    ensures { OnOk result (IsPushed ops.old.items ops.new.items (λ o.
        o ≡ variable_op name.now kind id)) }
{
    let name = name.clone()?;
    ops.push_reserved(Op::Var { name, kind, id });
    Ok(())
}

// Consumes `:` and the specifier in a pattern. In a template a variable is its name alone.
#[inline(always)]
fn eat_fragment_kind<A: Allocator, E: Copy + Fn(SyntaxContext) -> Edition>(
    edition: E,
    src: &mut TtIter<'_, A>,
    mode: Mode,
) -> Result<Option<MetaVarKind>, SyntaxFault>
    requires { MayAsk (E.pre edition) }
    ensures kind { IfOk result (λ kind. (name : Name) (span : SpecSpan)
        → AtHead (E.post edition) (mode_of mode)
        (grammar.variable_at (mode_of mode) name span src.old)
        (variable_op name kind span) src.new) }
    ensures fault { IfErr result (λ e. (name : Name) (span : SpecSpan)
        → grammar.variable_at (mode_of mode) name span src.old ≡ Err (fault_of e)) }
    ensures no_longer { flat_len src.new ≤ flat_len src.old }
{
    match mode {
        Mode::Template => Ok(None),
        Mode::Pattern => {
            let Ok(()) = src.expect_char(':') else {
                return Err(SyntaxFault::MissingSpecifier);
            };
            let Ok((_specifier, kind)) = eat_specifier(edition, src) else {
                return Err(SyntaxFault::MissingSpecifier);
            };
            Ok(kind)
        }
    }
}

// Consumes a specifier: an identifier other than `_`. Returns it with its kind.
#[inline(always)]
fn eat_specifier<'a, A: Allocator, E: Copy + Fn(SyntaxContext) -> Edition>(
    edition: E,
    src: &mut TtIter<'a, A>,
) -> Result<(&'a Ident<A>, Option<MetaVarKind>), ()>
    requires { MayAsk (E.pre edition) }
    ensures specifier { option_map (λ s. ident_of s.0.now) (result_ok result)
        ≡ front_ident src.old }
    ensures kind { IfOk result (λ s. Specifies (E.post edition) (ident_of s.0.now) s.1) }
    ensures rest { OnOk result (src.new ≡ rest_of src.old) }
    ensures no_longer { flat_len src.new ≤ flat_len src.old }
{
    let Ok(specifier) = src.expect_ident_or_underscore() else {
        return Err(());
    };
    let text = specifier.sym.as_str();
    if let Some(kind) = common_kind(text) {
        return Ok((specifier, Some(kind)));
    }
    if is_underscore(text) {
        return Err(());
    }
    Ok((specifier, fragment_kind(edition, specifier)))
}

// Returns the kind of a specifier, by the edition of its own span. `None` if the specifier is
// unknown.
#[inline(never)]
fn fragment_kind<A: Allocator, E: Copy + Fn(SyntaxContext) -> Edition>(
    edition: E,
    specifier: &Ident<A>,
) -> Option<MetaVarKind>
    requires { MayAsk (E.pre edition) }
    ensures { Specifies (E.post edition) (ident_of specifier.now) result }
{
    let name = specifier.sym.as_str();
    if is_expr(name) {
        return Some(expr_kind(edition, specifier.span.ctx));
    }
    if is_pat(name) {
        return Some(pat_kind(edition, specifier.span.ctx));
    }
    MetaVarKind::from_specifier(name)
}

#[inline(always)]
fn is_expr(specifier: &str) -> bool
    ensures { result ≡ is_text specifier.now (codes "expr") }
{
    matches!(specifier.as_bytes(), [b'e', b'x', b'p', b'r'])
}

#[inline(always)]
fn is_pat(specifier: &str) -> bool
    ensures { result ≡ is_text specifier.now (codes "pat") }
{
    matches!(specifier.as_bytes(), [b'p', b'a', b't'])
}

#[inline(always)]
fn is_underscore(specifier: &str) -> bool
    ensures { result ≡ is_text specifier.now (codes "_") }
{
    matches!(specifier.as_bytes(), [b'_'])
}

// Returns the kinds of the most common specifiers. Comparing bytes is faster than comparing texts.
#[inline(always)]
fn common_kind(specifier: &str) -> Option<MetaVarKind>
    ensures { IfSome result (λ kind. (kind_named kind_names specifier.now ≡ Some kind)
        × IsFalse (is_text specifier.now (codes "_"))
        × IsFalse (is_text specifier.now (codes "pat"))
        × IsFalse (is_text specifier.now (codes "expr"))) }
{
    match specifier.as_bytes() {
        [b't', b't'] => Some(MetaVarKind::Tt),
        [b't', b'y'] => Some(MetaVarKind::Ty),
        [b'i', b'd', b'e', b'n', b't'] => Some(MetaVarKind::Ident),
        [b'p', b'a', b't', b'h'] => Some(MetaVarKind::Path),
        [b'i', b't', b'e', b'm'] => Some(MetaVarKind::Item),
        [b's', b't', b'm', b't'] => Some(MetaVarKind::Stmt),
        [b'l', b'i', b't', b'e', b'r', b'a', b'l'] => Some(MetaVarKind::Literal),
        _ => None,
    }
}

// Returns the kind of `pat` in the edition of the context.
fn pat_kind<E: Fn(SyntaxContext) -> Edition>(edition: E, ctx: SyntaxContext) -> MetaVarKind
    requires { MayAsk (E.pre edition) }
    ensures { (e : SpecEdition) × E.post edition ctx e × (result ≡ grammar.pat_kind e) }
{
    if edition(ctx).at_least_2021() {
        MetaVarKind::Pat
    } else {
        MetaVarKind::PatParam
    }
}

// Returns the kind of `expr` in the edition of the context.
fn expr_kind<E: Fn(SyntaxContext) -> Edition>(edition: E, ctx: SyntaxContext) -> MetaVarKind
    requires { MayAsk (E.pre edition) }
    ensures { (e : SpecEdition) × E.post edition ctx e × (result ≡ grammar.expr_kind e) }
{
    if edition(ctx).at_least_2024() {
        MetaVarKind::Expr(ExprKind::Expr)
    } else {
        MetaVarKind::Expr(ExprKind::Expr2021)
    }
}

fn is_boolean_literal<A: Allocator>(literal: &Literal<A>) -> bool
    ensures { result ≡ is_bool_text (literal_of literal.now).text_and_suffix }
{
    let text = literal.text_and_suffix.as_str();
    text == "true" || text == "false"
}

/// Consumes the suffix of a repetition: a separator or none, and then `*`, `+` or `?`.
pub fn parse_repeat<A: Allocator>(
    src: &mut TtIter<'_, A>,
) -> Result<(Option<Separator<A>>, RepeatKind), ReadError>
    ensures suffix { IfOk result (λ s. (body : Forest)
        → grammar.repetition_at body (suffix_of src.old)
        ≡ Ok (opens_repetition (option_map separator_seen s.0) s.1 body src.new)) }
    ensures fault { IfErr result (λ e. ReadFails e (λ f. (body : Forest)
        → grammar.repetition_at body (suffix_of src.old) ≡ Err f)) }
    ensures no_longer { OnOk result (flat_len src.new ≤ flat_len src.old) }
{
    let mut separator = None;
    'leaves: while let Some(TtElement::Leaf(leaf)) = src.next() {
        if let Some(kind) = repeat_kind(leaf) {
            return Ok((separator, kind));
        }
        separator = Some(with_leaf(separator, leaf)?);
    }
    Err(ReadError::Fault(SyntaxFault::InvalidRepeat))
}

// Returns the kind of repetition if the leaf ends the suffix.
fn repeat_kind<A: Allocator>(leaf: &Leaf<A>) -> Option<RepeatKind>
    ensures ends { IfSome result (λ kind. (rest : Forest)
        → suffix_of (leaf_before (leaf_of leaf.now) rest)
        ≡ Some (record { leaves = []; repeat = kind; back = rest })) }
    ensures goes_on { IfNone result ((rest : Forest)
        → suffix_of (leaf_before (leaf_of leaf.now) rest)
        ≡ option_map (leaf_in_suffix (leaf_of leaf.now)) (suffix_of rest)) }
{
    match leaf {
        Leaf::Punct(punct) => match punct.char {
            '*' => Some(RepeatKind::ZeroOrMore),
            '+' => Some(RepeatKind::OneOrMore),
            '?' => Some(RepeatKind::ZeroOrOne),
            _ => None,
        },
        Leaf::Literal(_) | Leaf::Ident(_) => None,
    }
}

// Adds a leaf to the end of the separator.
fn with_leaf<A: Allocator>(
    separator: Option<Separator<A>>,
    leaf: &Leaf<A>,
) -> Result<Separator<A>, ReadError>
    ensures separator { IfOk result (λ s. ExtendsSeparator (option_map separator_seen separator)
        (leaf_of leaf.now) (separator_seen s)) }
    ensures fault { IfErr result (λ e. ReadFails e (λ f. (f ≡ invalid_repeat)
        × NeverExtendsSeparator (option_map separator_seen separator) (leaf_of leaf.now))) }
{
    match leaf {
        Leaf::Literal(literal) => match separator {
            None => Ok(Separator::Literal(literal.clone()?)),
            Some(_whole) => Err(ReadError::Fault(SyntaxFault::InvalidRepeat)),
        },
        Leaf::Ident(ident) => with_ident(separator, ident),
        Leaf::Punct(punct) => with_punct(separator, *punct),
    }
}

// Adds an identifier: it is a separator alone, or a lifetime after a quote.
fn with_ident<A: Allocator>(
    separator: Option<Separator<A>>,
    ident: &Ident<A>,
) -> Result<Separator<A>, ReadError>
    ensures separator { IfOk result (λ s. ExtendsSeparator (option_map separator_seen separator)
        (ident_leaf (ident_of ident.now)) (separator_seen s)) }
    ensures fault { IfErr result (λ e. ReadFails e (λ f. (f ≡ invalid_repeat)
        × NeverExtendsSeparator (option_map separator_seen separator)
        (ident_leaf (ident_of ident.now)))) }
{
    match separator {
        None => Ok(Separator::Ident(ident.clone()?)),
        Some(Separator::Puncts(puncts)) => match puncts.as_slice() {
            [quote] if quote.char == '\'' => Ok(Separator::Lifetime(*quote, ident.clone()?)),
            _ => Err(ReadError::Fault(SyntaxFault::InvalidRepeat)),
        },
        Some(_whole) => Err(ReadError::Fault(SyntaxFault::InvalidRepeat)),
    }
}

// Adds a punct: a separator has at most three.
fn with_punct<A: Allocator>(
    separator: Option<Separator<A>>,
    punct: Punct,
) -> Result<Separator<A>, ReadError>
    ensures separator { IfOk result (λ s. ExtendsSeparator (option_map separator_seen separator)
        (punct_leaf punct) (separator_seen s)) }
    ensures fault { IfErr result (λ e. ReadFails e (λ f. (f ≡ invalid_repeat)
        × NeverExtendsSeparator (option_map separator_seen separator) (punct_leaf punct))) }
{
    let mut puncts = match separator {
        None => ArrayVec::new(),
        Some(Separator::Puncts(puncts)) => puncts,
        Some(_whole) => return Err(ReadError::Fault(SyntaxFault::InvalidRepeat)),
    };
    if puncts.is_full() {
        return Err(ReadError::Fault(SyntaxFault::InvalidRepeat));
    }
    puncts.push(punct);
    Ok(Separator::Puncts(puncts))
}
