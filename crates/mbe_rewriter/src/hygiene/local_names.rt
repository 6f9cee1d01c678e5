// Decides which locals and labels may be renamed.
//
// `words_of` lists the words of an expansion, and `locals` the ones that its steps bind.
// `undecided` lists the uses that keep a local from being renamed. `new_names` chooses the new
// names of the other locals.
ghost use Rattle.std.specs.Prelude.{◌≡◌, ◌≤◌, ◌++◌, ◌∷◌, [], IfOk, OnOk, length, map};
ghost use Rattle.mbe_tt.specs.Trees.Leaf as tree;
ghost use Rattle.mbe_tt.specs.Views.LeafViews.{leaf_of, literal_of};
ghost use Rattle.mbe_rewriter.specs.Hygiene.EventViews.{event_of, word_of};
ghost use Rattle.mbe_rewriter.specs.Hygiene.EventViews.{context_parents_of};
ghost use Rattle.mbe_rewriter.specs.Hygiene.Buckets.{AreBuckets, buckets_of};
ghost use Rattle.mbe_rewriter.specs.Hygiene.LocalNames as spec;
ghost use Rattle.mbe_rewriter.specs.declared.hygiene.local_names.BindingState.TheVariants.{Unbound};

use crate::hygiene::buckets::relevant_words;
use crate::hygiene::format_names::format_names;
use crate::hygiene::roles::inner_role;
use crate::hygiene::scan_state::TokenRole;
use crate::hygiene::tree_events::TreeEvent;
use mbe_tt::span::{Span, SyntaxContext};
use mbe_tt::symbol::Symbol;
use mbe_tt::tt::{Leaf, Literal};
use std::alloc::{AllocError, Allocator};

/// A word of the trees, or another token that matters to locals. Such a token is a name that a
/// string mentions, the end of a value or of an arm, or the start or the end of a group.
#[derive(Clone, Copy, Drop)]
pub(crate) struct Word<'t> {
    pub(crate) text: &'t str,
    pub(crate) span: Span,
    pub(crate) role: TokenRole,
}

/// A local or a label, by the first word that binds it, and its new name.
#[derive(Drop)]
pub(crate) struct Naming<'t, A: Allocator> {
    pub(crate) local: Word<'t>,
    pub(crate) name: Symbol<A>,
}

/// A local or a label that keeps its name, although another token has that name. Either it can't be
/// decided whether the word at `place` is that local, or the word is a field's name too. `bound` is
/// where the local is bound first. Both spans have the context of the local.
#[derive(Drop)]
pub struct UndecidedUse {
    pub bound: Span,
    pub place: Span,
}

/// Which steps wrote the macros of which steps.
#[derive(Clone, Copy, Drop)]
pub struct ContextParents<'c> {
    /// For each context of a step, from 1 on, the context that the macro's token had. It is 0 in a
    /// file.
    pub contexts: &'c [u32],
    /// Contexts up to this one belong to earlier calls.
    pub mark: u32,
}

// Whether a local is bound.
#[derive(Clone, Copy, Drop)]
enum BindingState {
    Unbound,
    // It is bound when the value ends that belongs to its pattern. The first number counts the
    // `let`s and `for`s that have begun in that value and not ended, the second one the groups.
    Later(u32, u32),
    // It is bound up to the end of the group that holds its pattern. The number counts the groups
    // that have begun in that group and not ended.
    Bound(u32),
}

// ---- roles

pub(crate) fn is_string_role(role: TokenRole) -> bool
    ensures { result ≡ spec.is_string_role role }
{
    matches!(role, TokenRole::Text)
}

fn is_nested_role(role: TokenRole) -> bool
    ensures { result ≡ spec.is_nested_role role }
{
    matches!(role, TokenRole::Inner | TokenRole::InnerLabel)
}

// Returns whether a token that is no word matters to locals.
fn is_boundary(role: TokenRole) -> bool
    ensures { result ≡ spec.is_boundary role }
{
    matches!(
        role,
        TokenRole::End | TokenRole::Enter | TokenRole::Body | TokenRole::Leave | TokenRole::Next
    )
}

fn is_local(role: TokenRole) -> bool
    ensures { result ≡ spec.is_local role }
{
    matches!(
        role,
        TokenRole::Used
            | TokenRole::Bound
            | TokenRole::Late
            | TokenRole::Shorthand
            | TokenRole::Unsure
    )
}

fn is_label(role: TokenRole) -> bool
    ensures { result ≡ spec.is_label role }
{
    matches!(role, TokenRole::Label | TokenRole::Jump)
}

fn is_same_namespace(one: TokenRole, two: TokenRole) -> bool
    ensures { result ≡ spec.is_same_namespace one two }
{
    is_local(one) && is_local(two) || is_label(one) && is_label(two)
}

pub(crate) fn binds_role(role: TokenRole) -> bool
    ensures { result ≡ spec.binds_role role }
{
    matches!(
        role,
        TokenRole::Bound | TokenRole::Late | TokenRole::Shorthand | TokenRole::Label
    )
}

fn is_bound(progress: BindingState) -> bool
    ensures { result ≡ spec.is_bound progress }
{
    matches!(progress, BindingState::Bound(_))
}

// Returns whether the local's pattern has begun and its scope hasn't ended.
fn is_in_scope(progress: BindingState) -> bool
    ensures { result ≡ spec.is_in_scope progress }
{
    !matches!(progress, BindingState::Unbound)
}

fn is_undecided_role(progress: BindingState, role: TokenRole) -> bool
    ensures { result ≡ spec.is_undecided_role progress role }
{
    match role {
        TokenRole::Unsure | TokenRole::Shorthand => true,
        TokenRole::Used | TokenRole::Jump => !is_bound(progress),
        _ => false,
    }
}

// Counts one more. The greatest number stands for all greater ones.
fn one_more(number: u32) -> u32
    ensures { result ≡ spec.one_more number }
{
    if number == u32::MAX {
        number
    } else {
        number + 1
    }
}

// Returns the state after the end of a value. `depth` counts the groups around the next token.
fn ended(lets: u32, depth: u32) -> BindingState
    ensures { result ≡ spec.ended lets depth }
{
    if lets == 0 {
        BindingState::Bound(0)
    } else {
        BindingState::Later(lets - 1, depth)
    }
}

// Returns the state after a closing, in the value that belongs to the local's pattern.
fn later_after_closing(lets: u32, depth: u32) -> BindingState
    ensures { result ≡ spec.later_after_closing lets depth }
{
    if depth == 0 {
        BindingState::Unbound
    } else {
        BindingState::Later(lets, depth - 1)
    }
}

// Returns the state after a binding, in the value that belongs to the local's pattern. A local that
// an inner pattern binds counts as bound up to the end of the value's group.
fn later_after_binding(lets: u32, depth: u32, is_same: bool) -> BindingState
    ensures { result ≡ spec.later_after_binding lets depth is_same }
{
    if is_same {
        BindingState::Bound(depth)
    } else {
        BindingState::Later(lets, depth)
    }
}

// Returns the state after a word of that role, in the value that belongs to the local's pattern.
fn later(lets: u32, depth: u32, is_same: bool, role: TokenRole) -> BindingState
    ensures { result ≡ spec.later lets depth is_same role }
{
    match role {
        TokenRole::Begin => BindingState::Later(one_more(lets), depth),
        TokenRole::End => ended(lets, depth),
        TokenRole::Enter => BindingState::Later(lets, one_more(depth)),
        TokenRole::Body => ended(lets, one_more(depth)),
        TokenRole::Leave => later_after_closing(lets, depth),
        TokenRole::Bound | TokenRole::Shorthand | TokenRole::Label => {
            later_after_binding(lets, depth, is_same)
        }
        _ => BindingState::Later(lets, depth),
    }
}

// Returns the state of a bound local after a closing.
fn bound_after_closing(depth: u32) -> BindingState
    ensures { result ≡ spec.bound_after_closing depth }
{
    if depth == 0 {
        BindingState::Unbound
    } else {
        BindingState::Bound(depth - 1)
    }
}

// Returns the state of a bound local after an arm. The local may be that arm's.
fn bound_after_arm(depth: u32) -> BindingState
    ensures { result ≡ spec.bound_after_arm depth }
{
    if depth == 0 {
        BindingState::Unbound
    } else {
        BindingState::Bound(depth)
    }
}

// Returns the state of a bound local after a word of that role.
fn bound(depth: u32, role: TokenRole) -> BindingState
    ensures { result ≡ spec.bound depth role }
{
    match role {
        TokenRole::Enter | TokenRole::Body => BindingState::Bound(one_more(depth)),
        TokenRole::Leave => bound_after_closing(depth),
        TokenRole::Next => bound_after_arm(depth),
        _ => BindingState::Bound(depth),
    }
}

fn unbound(is_same: bool, role: TokenRole) -> BindingState
    ensures { result ≡ spec.unbound is_same role }
{
    if !is_same {
        return BindingState::Unbound;
    }
    match role {
        TokenRole::Bound | TokenRole::Shorthand | TokenRole::Label => BindingState::Bound(0),
        TokenRole::Late => BindingState::Later(0, 0),
        _ => BindingState::Unbound,
    }
}

// ---- rules of macros, and their steps

fn is_inner_role(role: TokenRole) -> bool
    ensures { result ≡ spec.is_inner_role role }
{
    matches!(role, TokenRole::Inner | TokenRole::InnerLabel)
}

// Appends a word of a macro's rules again, as a word that is no local.
fn push_of_rules<'t, A: Allocator>(
    found: &mut Vec<Word<'t>, A>,
    word: Word<'t>,
) -> Result<(), AllocError>
    ensures { OnOk result (map word_of found.new.items
        ≡ map word_of found.old.items ++ spec.words_of_rules (word_of word.entry)) }
{
    if is_inner_role(word.role) {
        found.push(Word {
            text: word.text,
            span: word.span,
            role: TokenRole::Other,
        })?;
    }
    Ok(())
}

// Returns the context that the macro's token had, for a token of a step.
fn context_before(contexts: &[u32], number: u32) -> u32
    ensures { result ≡ spec.context_before contexts.now number }
{
    let place = (number as usize).saturating_sub(1);
    contexts.get(place).copied().unwrap_or(0)
}

// Appends a word as the step of context `outer` sees it.
fn push_inner<'t, A: Allocator>(
    found: &mut Vec<Word<'t>, A>,
    word: Word<'t>,
    outer: u32,
) -> Result<(), AllocError>
    ensures { OnOk result (map word_of found.new.items
        ≡ map word_of found.old.items ++ (spec.inner_word (word_of word.entry) outer ∷ [])) }
{
    found.push(Word {
        text: word.text,
        span: Span {
            ctx: SyntaxContext(outer),
            ..word.span
        },
        role: inner_role(word.role),
    })?;
    Ok(())
}

// Appends a word for each step that made its context, from the inner to the outer steps, down to
// the mark.
fn push_outer<'t, A: Allocator>(
    found: &mut Vec<Word<'t>, A>,
    context_parents: ContextParents<'_>,
    word: Word<'t>,
) -> Result<(), AllocError>
    ensures { OnOk result (map word_of found.new.items ≡ map word_of found.old.items
        ++ spec.outer_words (context_parents_of context_parents.entry) (word_of word.entry)
        (length context_parents.entry.contexts.now) (word.entry.span.ctx).0) }
{
    let mut number = word.span.ctx.0;
    let mut left = context_parents.contexts.len();
    'contexts: while left > 0 {
        let before = context_before(context_parents.contexts, number);
        if before <= context_parents.mark {
            return Ok(());
        }
        push_inner(found, word, before)?;
        number = before;
        left -= 1;
    }
    Ok(())
}

// Appends a word again for each step whose locals it may know.
fn push_inner_words<'t, A: Allocator>(
    found: &mut Vec<Word<'t>, A>,
    context_parents: ContextParents<'_>,
    word: Word<'t>,
) -> Result<(), AllocError>
    ensures { OnOk result (map word_of found.new.items ≡ map word_of found.old.items
        ++ spec.inner_words (context_parents_of context_parents.entry) (word_of word.entry)) }
{
    if is_nested_role(inner_role(word.role)) && context_parents.mark < word.span.ctx.0 {
        push_outer(found, context_parents, word)?;
    }
    Ok(())
}

// Appends a word, and appends it again for each step whose locals it may know.
fn push_word<'t, A: Allocator>(
    found: &mut Vec<Word<'t>, A>,
    context_parents: ContextParents<'_>,
    word: Word<'t>,
) -> Result<(), AllocError>
    ensures { OnOk result (map word_of found.new.items ≡ map word_of found.old.items
        ++ spec.with_inner (context_parents_of context_parents.entry) (word_of word.entry)) }
{
    found.push(word)?;
    push_of_rules(found, word)?;
    push_inner_words(found, context_parents, word)
}

// ---- words

fn push_boundary<A: Allocator>(
    found: &mut Vec<Word<'_>, A>,
    span: Span,
    role: TokenRole,
) -> Result<(), AllocError>
    ensures { OnOk result (map word_of found.new.items
        ≡ map word_of found.old.items ++ spec.boundary_words span role) }
{
    if is_boundary(role) {
        found.push(Word {
            text: "",
            span,
            role,
        })?;
    }
    Ok(())
}

// Appends the names of a string, each with the string's span.
fn push_names<'t, A: Allocator>(
    found: &mut Vec<Word<'t>, A>,
    context_parents: ContextParents<'_>,
    span: Span,
    names: &[&'t str],
) -> Result<(), AllocError>
    ensures { OnOk result (map word_of found.new.items ≡ map word_of found.old.items
        ++ spec.text_words (context_parents_of context_parents.entry) span
        (map (λ t. t.now) names.now)) }
{
    for name in names {
        let word = Word {
            text: *name,
            span,
            role: TokenRole::Text,
        };
        push_word(found, context_parents, word)?;
    }
    Ok(())
}

// Appends the names that a string mentions, if the string may name locals.
fn push_text<'t, A: Allocator + Copy>(
    alloc: A,
    found: &mut Vec<Word<'t>, A>,
    context_parents: ContextParents<'_>,
    literal: &'t Literal<A>,
    role: TokenRole,
) -> Result<(), AllocError>
    ensures { OnOk result (map word_of found.new.items ≡ map word_of found.old.items
        ++ spec.leaf_words (context_parents_of context_parents.entry)
        (tree.literal (literal_of literal.now)) role) }
{
    if !is_string_role(role) {
        return Ok(());
    }
    let names = format_names(alloc, literal.text_and_suffix.as_str())?;
    push_names(found, context_parents, literal.span, names.as_slice())
}

fn push_leaf<'t, A: Allocator + Copy>(
    alloc: A,
    found: &mut Vec<Word<'t>, A>,
    context_parents: ContextParents<'_>,
    leaf: &'t Leaf<A>,
    role: TokenRole,
) -> Result<(), AllocError>
    ensures { OnOk result (map word_of found.new.items ≡ map word_of found.old.items
        ++ spec.leaf_words (context_parents_of context_parents.entry) (leaf_of leaf.now) role) }
{
    match leaf {
        Leaf::Ident(ident) => {
            let word = Word {
                text: ident.sym.as_str(),
                span: ident.span,
                role,
            };
            push_word(found, context_parents, word)
        }
        Leaf::Literal(literal) => push_text(alloc, found, context_parents, literal, role),
        Leaf::Punct(punct) => push_boundary(found, punct.span, role),
    }
}

fn push_event<'t, A: Allocator + Copy>(
    alloc: A,
    found: &mut Vec<Word<'t>, A>,
    context_parents: ContextParents<'_>,
    event: TreeEvent<'t, A>,
) -> Result<(), AllocError>
    ensures { OnOk result (map word_of found.new.items
        ≡ map word_of found.old.items
        ++ spec.event_words (context_parents_of context_parents.entry) (event_of event.entry)) }
{
    match event {
        TreeEvent::Leaf(leaf, role) => push_leaf(alloc, found, context_parents, leaf, role),
        TreeEvent::Open(_, span, role) | TreeEvent::Close(span, role) => {
            push_boundary(found, span, role)
        }
    }
}

/// Returns the words of `events`, and the names that their strings mention. Returns `AllocError` if
/// memory runs out.
pub(crate) fn words_of<'t, A: Allocator + Copy>(
    alloc: A,
    context_parents: ContextParents<'_>,
    events: &[TreeEvent<'t, A>],
) -> Result<Vec<Word<'t>, A>, AllocError>
    ensures { IfOk result (λ v. map word_of v.items
        ≡ spec.words (context_parents_of context_parents.entry) (map event_of events.now)) }
{
    let mut found = Vec::new(alloc);
    for event in events {
        push_event(alloc, &mut found, context_parents, *event)?;
    }
    Ok(found)
}

// Returns whether two words are the same local, or the same label.
pub(crate) fn is_same(one: Word<'_>, two: Word<'_>) -> bool
    ensures { result ≡ spec.is_same (word_of one.entry) (word_of two.entry) }
{
    is_same_namespace(one.role, two.role)
        && one.span.ctx.0 == two.span.ctx.0
        && one.text == two.text
}

fn is_binding(word: Word<'_>) -> bool
    ensures { result ≡ spec.is_binding (word_of word.entry) }
{
    binds_role(word.role) && !(word.span.ctx.0 == 0)
}

fn contains_word(words: &[Word<'_>], word: Word<'_>) -> bool
    ensures { result ≡ spec.contains_word (map word_of words.now) (word_of word.entry) }
{
    for one in words {
        if is_same(*one, word) {
            return true;
        }
    }
    false
}

fn push_local<'t, A: Allocator>(
    found: &mut Vec<Word<'t>, A>,
    word: Word<'t>,
) -> Result<(), AllocError>
    ensures { OnOk result (map word_of found.new.items
        ≡ spec.with_local (map word_of found.old.items) (word_of word.entry)) }
{
    if is_binding(word) && !contains_word(found.as_slice(), word) {
        found.push(word)?;
    }
    Ok(())
}

/// Returns what the words bind, each local or label by its first binding. Returns `AllocError` if
/// memory runs out.
pub(crate) fn locals<'t, A: Allocator + Copy>(
    alloc: A,
    words: &[Word<'t>],
) -> Result<Vec<Word<'t>, A>, AllocError>
    ensures { IfOk result (λ v. map word_of v.items ≡ spec.locals (map word_of words.now)) }
{
    let mut found = Vec::new(alloc);
    for word in words {
        push_local(&mut found, *word)?;
    }
    Ok(found)
}

// ---- which names are shared

pub(crate) fn is_written(word: Word<'_>, text: &str) -> bool
    ensures { result ≡ spec.is_written (word_of word.entry) text.now }
{
    !is_nested_role(word.role) && word.text == text
}

fn is_other(one: Word<'_>, word: Word<'_>) -> bool
    ensures { result ≡ spec.is_other (word_of one.entry) (word_of word.entry) }
{
    is_written(one, word.text) && !(one.span.ctx.0 == word.span.ctx.0)
}

fn has_other(words: &[Word<'_>], word: Word<'_>) -> bool
    ensures { result ≡ spec.has_other (map word_of words.now) (word_of word.entry) }
{
    for one in words {
        if is_other(*one, word) {
            return true;
        }
    }
    false
}

pub(crate) fn contains_name<A: Allocator>(names: &[Symbol<A>], text: &str) -> bool
    ensures { result ≡ spec.contains_name names.now text.now }
{
    for name in names {
        if name.as_str() == text {
            return true;
        }
    }
    false
}

pub(crate) fn is_shared<A: Allocator>(
    words: &[Word<'_>],
    names: &[Symbol<A>],
    word: Word<'_>,
) -> bool
    ensures { result ≡ spec.is_shared (map word_of words.now) names.now (word_of word.entry) }
{
    has_other(words, word) || contains_name(names, word.text)
}

// ---- what can't be decided

fn is_inner(role: TokenRole, local: TokenRole) -> bool
    ensures { result ≡ spec.is_inner role local }
{
    match role {
        TokenRole::Text | TokenRole::Inner => is_local(local),
        TokenRole::InnerLabel => is_label(local),
        _ => false,
    }
}

// Returns whether `word` may be the local. The word is a name in a string, or a word of a macro's
// rules or of an inner step.
fn may_be_local(local: Word<'_>, word: Word<'_>) -> bool
    ensures { result ≡ spec.may_be_local (word_of local.entry) (word_of word.entry) }
{
    is_inner(word.role, local.role)
        && local.span.ctx.0 == word.span.ctx.0
        && local.text == word.text
}

pub(crate) fn is_edge(role: TokenRole) -> bool
    ensures { result ≡ spec.is_edge role }
{
    matches!(role, TokenRole::Begin) || is_boundary(role)
}

// Returns whether a word matters to a local. Most words don't, and each local looks at all words.
fn is_relevant(local: Word<'_>, word: Word<'_>) -> bool
    ensures { result ≡ spec.is_relevant (word_of local.entry) (word_of word.entry) }
{
    local.span.ctx.0 == word.span.ctx.0 || is_edge(word.role)
}

#[tactic(auto, using(crate::proofs::Renaming::BesideLemmas::no_doubt))]
fn is_undecided_use(local: Word<'_>, progress: BindingState, word: Word<'_>) -> bool
    ensures { result ≡ spec.is_undecided_use (word_of local.entry) progress (word_of word.entry) }
{
    is_relevant(local, word)
        && (is_same(local, word) && is_undecided_role(progress, word.role)
            || may_be_local(local, word))
}

#[tactic(auto, using(crate::proofs::Renaming::BesideLemmas::as_before))]
fn after_word(local: Word<'_>, progress: BindingState, word: Word<'_>) -> BindingState
    ensures { result ≡ spec.after_word (word_of local.entry) progress (word_of word.entry) }
{
    if !is_relevant(local, word) {
        return progress;
    }
    match progress {
        BindingState::Unbound => unbound(is_same(local, word), word.role),
        BindingState::Later(lets, depth) => later(lets, depth, is_same(local, word), word.role),
        BindingState::Bound(depth) => bound(depth, word.role),
    }
}

fn push_undecided_use<A: Allocator>(
    found: &mut Vec<UndecidedUse, A>,
    local: Word<'_>,
    progress: BindingState,
    word: Word<'_>,
) -> Result<(), AllocError>
    ensures { OnOk result (found.new.items
        ≡ found.old.items ++ spec.undecided_use_at (word_of local.entry) progress
        (word_of word.entry)) }
{
    if is_undecided_use(local, progress, word) {
        found.push(UndecidedUse {
            bound: local.span,
            place: word.span,
        })?;
    }
    Ok(())
}

fn push_undecided_uses<A: Allocator>(
    found: &mut Vec<UndecidedUse, A>,
    local: Word<'_>,
    words: &[Word<'_>],
) -> Result<(), AllocError>
    ensures { OnOk result (found.new.items
        ≡ found.old.items ++ spec.undecided_uses (word_of local.entry) Unbound
        (map word_of words.now)) }
{
    let mut progress = BindingState::Unbound;
    for word in words {
        push_undecided_use(found, local, progress, *word)?;
        progress = after_word(local, progress, *word);
    }
    Ok(())
}

pub(crate) fn has_undecided_use(local: Word<'_>, words: &[Word<'_>]) -> bool
    ensures { result
        ≡ spec.has_undecided_use (word_of local.entry) Unbound (map word_of words.now) }
{
    let mut progress = BindingState::Unbound;
    for word in words {
        if is_undecided_use(local, progress, *word) {
            return true;
        }
        progress = after_word(local, progress, *word);
    }
    false
}

// Returns whether a token of another context has the local's name in the local's scope, or a name
// around the trees is in that scope. Only such a token meets a local that keeps its name.
fn is_met<A: Allocator>(words: &[Word<'_>], names: &[Symbol<A>], local: Word<'_>) -> bool
    ensures { result ≡ spec.is_met names.now (word_of local.entry) Unbound (map word_of words.now) }
{
    let mut progress = BindingState::Unbound;
    for word in words {
        if is_in_scope(progress) && is_other(*word, local) {
            return true;
        }
        progress = after_word(local, progress, *word);
    }
    is_in_scope(progress) && contains_name(names, local.text)
}

// Returns whether a use keeps a local from being renamed. It looks at the relevant words alone.
fn is_undecided<A: Allocator>(
    words: &[Word<'_>],
    buckets: &[Vec<Word<'_>, A>],
    local: Word<'_>,
) -> bool
    requires buckets { AreBuckets (map word_of words.now) (buckets_of buckets.now) }
    ensures { result ≡ spec.has_undecided_use (word_of local.entry) Unbound (map word_of words.now) }
{
    has_undecided_use(local, relevant_words(words, buckets, local))
}

// Returns whether a local keeps its name where it meets another of that name.
fn is_in_doubt<A: Allocator>(
    words: &[Word<'_>],
    buckets: &[Vec<Word<'_>, A>],
    names: &[Symbol<A>],
    local: Word<'_>,
) -> bool
    requires buckets { AreBuckets (map word_of words.now) (buckets_of buckets.now) }
    ensures { result ≡ spec.is_in_doubt (map word_of words.now) names.now (word_of local.entry) }
{
    is_shared(words, names, local)
        && is_undecided(words, buckets, local)
        && is_met(words, names, local)
}

fn push_undecided_uses_of<A: Allocator>(
    found: &mut Vec<UndecidedUse, A>,
    words: &[Word<'_>],
    buckets: &[Vec<Word<'_>, A>],
    names: &[Symbol<A>],
    local: Word<'_>,
) -> Result<(), AllocError>
    requires buckets { AreBuckets (map word_of words.now) (buckets_of buckets.now) }
    ensures { OnOk result (found.new.items ≡ found.old.items
        ++ spec.undecided_uses_of (map word_of words.now) names.now (word_of local.entry)) }
{
    if is_in_doubt(words, buckets, names, local) {
        push_undecided_uses(found, local, relevant_words(words, buckets, local))?;
    }
    Ok(())
}

/// Returns the uses that keep these locals from being renamed, where a local then meets another of
/// its name. Returns `AllocError` if memory runs out.
pub(crate) fn undecided<A: Allocator + Copy>(
    alloc: A,
    words: &[Word<'_>],
    buckets: &[Vec<Word<'_>, A>],
    names: &[Symbol<A>],
    locals: &[Word<'_>],
) -> Result<Vec<UndecidedUse, A>, AllocError>
    requires buckets { AreBuckets (map word_of words.now) (buckets_of buckets.now) }
    ensures { IfOk result (λ v. v.items ≡ spec.undecided_of (map word_of words.now) names.now
        (map word_of locals.now)) }
{
    let mut found = Vec::new(alloc);
    for local in locals {
        push_undecided_uses_of(&mut found, words, buckets, names, *local)?;
    }
    Ok(found)
}

// ---- new names
