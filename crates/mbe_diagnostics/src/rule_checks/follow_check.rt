// Checks what may follow a fragment in a pattern, by the follow sets of the Rust Reference.
ghost use Rattle.std.specs.Prelude.{◌≡◌, ◌++◌, [], ◌∷◌, false, map, option_map, IfOk, OnOk};
ghost use Rattle.std.specs.Str.{bytes_eq};
ghost use Rattle.mbe_tt.specs.Trees.Glue.{chars_of};
ghost use Rattle.mbe_semantics.specs.Syntax.Nullable.{may_skip};
ghost use Rattle.mbe_ops.specs.Views.{op_of, ops_of, separator_seen, template_of};
ghost use Rattle.mbe_diagnostics.specs.RuleChecks.FollowCheck as spec;
ghost use Rattle.mbe_diagnostics.specs.RuleChecks.FollowCheck.{class_seen, follower_seen};
ghost use Rattle.mbe_diagnostics.specs.RuleChecks.FollowCheck.{violation_seen};

use mbe_ops::op_fields::OpSeparator;
use mbe_ops::ops::{MetaTemplate, Op, Separator};
use mbe_semantics::fragment_kinds::{FollowSet, MetaVarKind, RepeatKind};
use mbe_tt::span::Span;
use mbe_tt::tt::{DelimiterKind, Ident, IdentIsRaw, Literal, Punct};
use std::alloc::{AllocError, Allocator, Global};

/// A part of a pattern that may come next. Clauses see it by `follower_seen`.
#[derive_where(Clone, Copy)]
pub enum Follower<'a, A: Allocator = Global> {
    /// A token, a variable or a group.
    Op(&'a Op<A>),
    /// The separator of a repetition.
    Separator(&'a Separator<A>),
    /// The closing delimiter of a group.
    Closing,
}

/// A fragment, and something that may follow it though the language forbids that. Clauses see it by
/// `violation_seen`.
#[derive_where(Clone, Copy)]
pub struct FollowViolation<'a, A: Allocator = Global> {
    pub name: &'a str,
    pub kind: Option<MetaVarKind>,
    /// The span of the variable's name.
    pub place: Span,
    pub next: Follower<'a, A>,
    /// Whether nothing else may follow the fragment.
    pub alone: bool,
}

fn spell(puncts: &[Punct], bytes: &[u8]) -> bool
    ensures { result ≡ bytes_eq (chars_of puncts.now) bytes.now }
{
    match (puncts.split_first(), bytes.split_first()) {
        (Some((punct, puncts)), Some((byte, bytes))) => {
            punct.char == char::from(*byte) && spell(puncts, bytes)
        }
        (None, None) => true,
        _ => false,
    }
}

// The kinds of next parts that the follow sets tell apart.
#[derive(Drop)]
enum TokenClass<'a> {
    Puncts(&'a [Punct]),
    Word(&'a str),
    RawWord,
    Literal,
    Lifetime,
    Opening(DelimiterKind),
    Fragment(Option<MetaVarKind>),
    Other,
}

fn classify_ident<A: Allocator>(ident: &Ident<A>) -> TokenClass<'_>
    ensures { class_seen result ≡ spec.class_of_ident ident.now.sym ident.now.is_raw }
{
    match ident.is_raw {
        IdentIsRaw::No => TokenClass::Word(ident.sym.as_str()),
        IdentIsRaw::Yes => TokenClass::RawWord,
    }
}

fn classify_literal<A: Allocator>(literal: &Literal<A>) -> TokenClass<'_>
    ensures { class_seen result ≡ spec.class_of_literal literal.now.text_and_suffix }
{
    let text = literal.text_and_suffix.as_str();
    if text == "true" || text == "false" {
        TokenClass::Word(text)
    } else {
        TokenClass::Literal
    }
}

#[tactic(auto, using(mbe_ops::proofs::OpViews::views))]
fn classify_op<A: Allocator>(op: &Op<A>) -> TokenClass<'_>
    ensures { class_seen result ≡ spec.class_of_op (op_of op.now) }
{
    match op {
        Op::Literal(literal) => classify_literal(literal),
        Op::Ident(ident) => classify_ident(ident),
        Op::Punct(puncts) => TokenClass::Puncts(puncts.as_slice()),
        Op::Subtree { delimiter, .. } => TokenClass::Opening(delimiter.get().kind),
        Op::Var { kind, .. } => TokenClass::Fragment(*kind),
        Op::Repeat { .. } => TokenClass::Other,
        Op::Expression(_) => TokenClass::Other,
    }
}

fn classify_separator<A: Allocator>(separator: &Separator<A>) -> TokenClass<'_>
    ensures { class_seen result ≡ spec.class_of_separator (separator_seen separator.now) }
{
    match separator {
        Separator::Literal(literal) => classify_literal(literal),
        Separator::Ident(ident) => classify_ident(ident),
        Separator::Puncts(puncts) => TokenClass::Puncts(puncts.as_slice()),
        Separator::Lifetime(_, _) => TokenClass::Lifetime,
    }
}

fn classify<'a, A: Allocator>(next: Follower<'a, A>) -> TokenClass<'a>
    ensures { class_seen result ≡ spec.class_of (follower_seen next.entry) }
{
    match next {
        Follower::Op(op) => classify_op(op),
        Follower::Separator(separator) => classify_separator(separator),
        Follower::Closing => TokenClass::Other,
    }
}

fn closes<A: Allocator>(next: Follower<'_, A>) -> bool
    ensures { result ≡ spec.closes (follower_seen next.entry) }
{
    match next {
        Follower::Closing => true,
        Follower::Op(_) | Follower::Separator(_) => false,
    }
}

fn is_one<A: Allocator>(after: &[Follower<'_, A>]) -> bool
    ensures { result ≡ spec.is_one (map follower_seen after.now) }
{
    match after {
        [_] => true,
        [] | [_, _, ..] => false,
    }
}

fn is_or(token_class: TokenClass<'_>) -> bool
    ensures { result ≡ spec.is_or (class_seen token_class.entry) }
{
    match token_class {
        TokenClass::Puncts(puncts) => spell(puncts, b"|"),
        TokenClass::Word(_) | TokenClass::RawWord | TokenClass::Literal | TokenClass::Lifetime =>
            false,
        TokenClass::Opening(_) | TokenClass::Fragment(_) | TokenClass::Other => false,
    }
}

fn is_pat(kind: Option<MetaVarKind>) -> bool
    ensures { result ≡ spec.is_pat kind }
{
    matches!(kind, Some(MetaVarKind::Pat))
}

/// Whether the pattern needs `pat_param` in place of `pat`: a `|` follows the fragment.
pub fn needs_pat_param<A: Allocator>(followed: FollowViolation<'_, A>) -> bool
    ensures { result ≡ spec.needs_pat_param (violation_seen followed.entry) }
{
    is_pat(followed.kind) && is_or(classify(followed.next))
}

fn is_arrow_or_comma(puncts: &[Punct]) -> bool
    ensures { result ≡ spec.is_arrow_or_comma (chars_of puncts.now) }
{
    spell(puncts, b"=>") || spell(puncts, b",")
}

fn ends_expression(puncts: &[Punct]) -> bool
    ensures { result ≡ spec.ends_expression (chars_of puncts.now) }
{
    is_arrow_or_comma(puncts) || spell(puncts, b";")
}

fn ends_type(puncts: &[Punct]) -> bool
    ensures { result ≡ spec.ends_type (chars_of puncts.now) }
{
    ends_expression(puncts)
        || spell(puncts, b">")
        || spell(puncts, b">>")
        || spell(puncts, b"=")
        || spell(puncts, b":")
        || spell(puncts, b"|")
}

fn begins_type(puncts: &[Punct]) -> bool
    ensures { result ≡ spec.begins_type (chars_of puncts.now) }
{
    spell(puncts, b"!")
        || spell(puncts, b"*")
        || spell(puncts, b"&")
        || spell(puncts, b"&&")
        || spell(puncts, b"?")
        || spell(puncts, b"'")
        || spell(puncts, b"<")
        || spell(puncts, b"<<")
        || spell(puncts, b"::")
}

fn may_follow_expression(token_class: TokenClass<'_>) -> bool
    ensures { result ≡ spec.may_follow_expression (class_seen token_class.entry) }
{
    match token_class {
        TokenClass::Puncts(puncts) => ends_expression(puncts),
        TokenClass::Word(_) | TokenClass::RawWord | TokenClass::Literal | TokenClass::Lifetime =>
            false,
        TokenClass::Opening(_) | TokenClass::Fragment(_) | TokenClass::Other => false,
    }
}

fn may_follow_pattern(token_class: TokenClass<'_>) -> bool
    ensures { result ≡ spec.may_follow_pattern (class_seen token_class.entry) }
{
    match token_class {
        TokenClass::Puncts(puncts) => is_arrow_or_comma(puncts) || spell(puncts, b"="),
        TokenClass::Word(word) => word == "if" || word == "in",
        TokenClass::RawWord | TokenClass::Literal | TokenClass::Lifetime => false,
        TokenClass::Opening(_) | TokenClass::Fragment(_) | TokenClass::Other => false,
    }
}

fn may_follow_alternative(token_class: TokenClass<'_>) -> bool
    ensures { result ≡ spec.may_follow_alternative (class_seen token_class.entry) }
{
    match token_class {
        TokenClass::Puncts(puncts) => may_follow_pattern(token_class) || spell(puncts, b"|"),
        TokenClass::Word(_) | TokenClass::RawWord | TokenClass::Literal | TokenClass::Lifetime =>
            may_follow_pattern(token_class),
        TokenClass::Opening(_) | TokenClass::Fragment(_) | TokenClass::Other => may_follow_pattern(
            token_class,
        ),
    }
}

fn may_follow_type(token_class: TokenClass<'_>) -> bool
    ensures { result ≡ spec.may_follow_type (class_seen token_class.entry) }
{
    match token_class {
        TokenClass::Puncts(puncts) => ends_type(puncts),
        TokenClass::Word(word) => word == "as" || word == "where",
        TokenClass::Opening(kind) => matches!(kind, DelimiterKind::Brace | DelimiterKind::Bracket),
        TokenClass::Fragment(kind) => matches!(kind, Some(MetaVarKind::Block)),
        TokenClass::RawWord | TokenClass::Literal | TokenClass::Lifetime | TokenClass::Other =>
            false,
    }
}

fn is_type_fragment(kind: Option<MetaVarKind>) -> bool
    ensures { result ≡ spec.is_ident_ty_or_path kind }
{
    matches!(
        kind,
        Some(MetaVarKind::Ident | MetaVarKind::Ty | MetaVarKind::Path)
    )
}

fn may_follow_visibility(token_class: TokenClass<'_>) -> bool
    ensures { result ≡ spec.may_follow_visibility (class_seen token_class.entry) }
{
    match token_class {
        TokenClass::Puncts(puncts) => spell(puncts, b",") || begins_type(puncts),
        TokenClass::Word(word) => word != "priv",
        TokenClass::RawWord | TokenClass::Lifetime => true,
        TokenClass::Opening(kind) => {
            matches!(kind, DelimiterKind::Parenthesis | DelimiterKind::Bracket)
        }
        TokenClass::Fragment(kind) => is_type_fragment(kind),
        TokenClass::Literal | TokenClass::Other => false,
    }
}

/// Whether `next` may follow a fragment of that kind, by the Rust Reference ("Follow-set Ambiguity
/// Restrictions") as rustc 1.95 checks it. Anything may follow an unknown kind.
pub fn may_follow<A: Allocator>(kind: Option<MetaVarKind>, next: Follower<'_, A>) -> bool
    ensures { result ≡ spec.may_follow kind (spec.class_of (follower_seen next.entry)) }
{
    let token_class = classify(next);
    let Some(kind) = kind else {
        return true;
    };
    match kind.follow_set() {
        FollowSet::Anything => true,
        FollowSet::AfterExpression => may_follow_expression(token_class),
        FollowSet::AfterPattern => may_follow_pattern(token_class),
        FollowSet::AfterAlternative => may_follow_alternative(token_class),
        FollowSet::AfterType => may_follow_type(token_class),
        FollowSet::AfterVisibility => may_follow_visibility(token_class),
    }
}

#[cycle(firsts)]
fn push_firsts<'a, A: Allocator>(
    next: &mut Vec<Follower<'a, A>, A>,
    ops: &'a [Op<A>],
) -> Result<bool, AllocError>
    ensures empty { IfOk result (λ empty. empty ≡ spec.may_be_empty (ops_of ops.now)) }
    ensures next { OnOk result (map follower_seen next.new.items
        ≡ map follower_seen next.old.items ++ spec.firsts (ops_of ops.now)) }
{
    let mut rest = ops;
    'ops: while let Some((op, others)) = rest.split_first() {
        if !push_firsts_of_op(next, op)? {
            return Ok(false);
        }
        rest = others;
    }
    Ok(true)
}

// Whether a repetition may match nothing. `body` says whether its body may.
fn may_skip(kind: RepeatKind, body: bool) -> bool
    ensures { result ≡ may_skip kind body }
{
    match kind {
        RepeatKind::OneOrMore => body,
        RepeatKind::ZeroOrMore | RepeatKind::ZeroOrOne => true,
    }
}

// Adds the separator, if the body before it may match nothing.
fn push_separator_if<'a, A: Allocator>(
    next: &mut Vec<Follower<'a, A>, A>,
    is_empty: bool,
    separator: &'a OpSeparator<A>,
) -> Result<(), AllocError>
    ensures { OnOk result (map follower_seen next.new.items ≡ map follower_seen next.old.items
        ++ spec.where_empty is_empty
        (spec.separators (option_map separator_seen separator.now))) }
{
    if is_empty {
        push_separator(next, separator)?;
    }
    Ok(())
}

fn push_separator<'a, A: Allocator>(
    next: &mut Vec<Follower<'a, A>, A>,
    separator: &'a OpSeparator<A>,
) -> Result<(), AllocError>
    ensures { OnOk result (map follower_seen next.new.items ≡ map follower_seen next.old.items
        ++ spec.separators (option_map separator_seen separator.now)) }
{
    if let Some(separator) = separator.as_ref() {
        next.push(Follower::Separator(separator))?;
    }
    Ok(())
}

// Adds an op that can't match nothing.
fn push_op<'a, A: Allocator>(
    next: &mut Vec<Follower<'a, A>, A>,
    op: &'a Op<A>,
) -> Result<bool, AllocError>
    ensures empty { IfOk result (λ empty. empty ≡ false) }
    ensures next { OnOk result (map follower_seen next.new.items
        ≡ map follower_seen next.old.items ++ spec.reading (op_of op.now) ∷ []) }
{
    next.push(Follower::Op(op))?;
    Ok(false)
}

#[cycle(firsts)]
#[tactic(auto, using(mbe_ops::proofs::OpViews::views))]
fn push_firsts_of_op<'a, A: Allocator>(
    next: &mut Vec<Follower<'a, A>, A>,
    op: &'a Op<A>,
) -> Result<bool, AllocError>
    ensures empty { IfOk result (λ empty. empty ≡ spec.may_be_empty_op (op_of op.now)) }
    ensures next { OnOk result (map follower_seen next.new.items
        ≡ map follower_seen next.old.items ++ spec.firsts_of_op (op_of op.now)) }
{
    match op {
        Op::Repeat {
            tokens,
            kind,
            separator,
        } => {
            let body = push_firsts(next, &tokens.0)?;
            push_separator_if(next, body, separator)?;
            Ok(may_skip(*kind, body))
        }
        Op::Literal(_) => push_op(next, op),
        Op::Ident(_) => push_op(next, op),
        Op::Punct(_) => push_op(next, op),
        Op::Subtree { .. } => push_op(next, op),
        Op::Var { .. } => push_op(next, op),
        Op::Expression(_) => Ok(false),
    }
}

// Adds all of `after`, if what is before them may match nothing.
fn push_after<'a, A: Allocator>(
    next: &mut Vec<Follower<'a, A>, A>,
    is_empty: bool,
    after: &[Follower<'a, A>],
) -> Result<(), AllocError>
    ensures { OnOk result (map follower_seen next.new.items ≡ map follower_seen next.old.items
        ++ spec.where_empty is_empty (map follower_seen after.now)) }
{
    if !is_empty {
        return Ok(());
    }
    push_all(next, after)
}

fn push_all<'a, A: Allocator>(
    next: &mut Vec<Follower<'a, A>, A>,
    after: &[Follower<'a, A>],
) -> Result<(), AllocError>
    ensures { OnOk result (map follower_seen next.new.items
        ≡ map follower_seen next.old.items ++ map follower_seen after.now) }
{
    for one in after {
        next.push(*one)?;
    }
    Ok(())
}

// Returns what may come first in the ops. If they may match nothing, this includes `after`.
fn firsts_or<'a, A: Allocator + Copy>(
    alloc: A,
    ops: &'a [Op<A>],
    after: &[Follower<'a, A>],
) -> Result<Vec<Follower<'a, A>, A>, AllocError>
    ensures { IfOk result (λ next. map follower_seen next.items
        ≡ spec.firsts_or (map follower_seen after.now) (ops_of ops.now)) }
{
    let mut next = Vec::new(alloc);
    let is_empty = push_firsts(&mut next, ops)?;
    push_after(&mut next, is_empty, after)?;
    Ok(next)
}

// Returns the parts that may follow a round of a repetition: the parts that may follow the
// repetition, and its separator.
fn after_round<'a, A: Allocator + Copy>(
    alloc: A,
    after: &[Follower<'a, A>],
    separator: &'a OpSeparator<A>,
) -> Result<Vec<Follower<'a, A>, A>, AllocError>
    ensures { IfOk result (λ next. map follower_seen next.items ≡ map follower_seen after.now
        ++ spec.separators (option_map separator_seen separator.now)) }
{
    let mut next = Vec::new(alloc);
    push_all(&mut next, after)?;
    push_separator(&mut next, separator)?;
    Ok(next)
}

// Adds each of `after` that is forbidden after the fragment. `alone` says whether it is just one.
fn push_forbidden_of<'a, A: Allocator>(
    found: &mut Vec<FollowViolation<'a, A>, A>,
    name: &'a str,
    kind: Option<MetaVarKind>,
    place: Span,
    alone: bool,
    after: &[Follower<'a, A>],
) -> Result<(), AllocError>
    ensures { OnOk result (map violation_seen found.new.items
        ≡ map violation_seen found.old.items
        ++ spec.forbidden_of name.now kind place alone (map follower_seen after.now)) }
{
    for next in after {
        push_if_forbidden(
            found,
            FollowViolation {
                name,
                kind,
                place,
                next: *next,
                alone,
            },
        )?;
    }
    Ok(())
}

fn push_if_forbidden<'a, A: Allocator>(
    found: &mut Vec<FollowViolation<'a, A>, A>,
    one: FollowViolation<'a, A>,
) -> Result<(), AllocError>
    ensures { OnOk result (map violation_seen found.new.items
        ≡ map violation_seen found.old.items ++ spec.if_forbidden (violation_seen one.entry)) }
{
    if !(closes(one.next) || may_follow(one.kind, one.next)) {
        found.push(one)?;
    }
    Ok(())
}

#[cycle(forbidden)]
fn push_forbidden<'a, A: Allocator + Copy>(
    alloc: A,
    found: &mut Vec<FollowViolation<'a, A>, A>,
    ops: &'a [Op<A>],
    after: &[Follower<'a, A>],
) -> Result<(), AllocError>
    ensures { OnOk result (map violation_seen found.new.items
        ≡ map violation_seen found.old.items
        ++ spec.forbidden_in (map follower_seen after.now) (ops_of ops.now)) }
{
    let mut rest = ops;
    'ops: while let Some((op, others)) = rest.split_first() {
        let next = firsts_or(alloc, others, after)?;
        push_forbidden_in_op(alloc, found, op, next.as_slice())?;
        rest = others;
    }
    Ok(())
}

#[cycle(forbidden)]
#[tactic(auto, using(mbe_ops::proofs::OpViews::views))]
fn push_forbidden_in_op<'a, A: Allocator + Copy>(
    alloc: A,
    found: &mut Vec<FollowViolation<'a, A>, A>,
    op: &'a Op<A>,
    after: &[Follower<'a, A>],
) -> Result<(), AllocError>
    ensures { OnOk result (map violation_seen found.new.items
        ≡ map violation_seen found.old.items
        ++ spec.forbidden_in_op (map follower_seen after.now) (op_of op.now)) }
{
    match op {
        Op::Var { name, kind, id } => {
            push_forbidden_of(found, name.as_str(), *kind, *id, is_one(after), after)
        }
        Op::Subtree { tokens, .. } => {
            push_forbidden(alloc, found, &tokens.0, &[Follower::Closing])
        }
        Op::Repeat {
            tokens,
            separator,
            ..
        } => {
            let after = after_round(alloc, after, separator)?;
            push_forbidden(alloc, found, &tokens.0, after.as_slice())
        }
        Op::Literal(_) | Op::Ident(_) | Op::Punct(_) => Ok(()),
        Op::Expression(_) => Ok(()),
    }
}

/// Returns the fragments of a pattern that something may follow which rustc forbids there, each
/// with what follows it, in the order of the text. `AllocError` if out of memory.
pub fn forbidden<'a, A: Allocator + Copy>(
    alloc: A,
    pattern: &'a MetaTemplate<A>,
) -> Result<Vec<FollowViolation<'a, A>, A>, AllocError>
    ensures { IfOk result (λ found. map violation_seen found.items
        ≡ spec.forbidden_in [] (template_of pattern.now)) }
{
    let mut found = Vec::new(alloc);
    push_forbidden(alloc, &mut found, &pattern.0, &[])?;
    Ok(found)
}
