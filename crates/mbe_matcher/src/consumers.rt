// Consumes tokens and fragments from the front of an iterator.
ghost use Rattle.std.specs.Prelude.{◌≡◌, IfOk};
ghost use Rattle.mbe_tt.specs.Trees.Glue.{chars_of};
ghost use Rattle.mbe_tt.specs.Views.LeafViews.{ident_of, literal_of};
ghost use Rattle.mbe_tt.specs.Grammars.Grammar.{accepted_front};
ghost use Rattle.mbe_semantics.specs.Readings.Fit.{ident_text_front, literal_text_front};
ghost use Rattle.mbe_semantics.specs.Readings.Fit.{puncts_front};
ghost use Rattle.mbe_matcher.specs.Fronts.{HasPassed};
ghost use Rattle.mbe_semantics.specs.Fragments.FragmentFront.{fragment_front, ident_front};
ghost use Rattle.mbe_semantics.specs.Fragments.FragmentFront.{lifetime_front, literal_front};
ghost use Rattle.mbe_semantics.specs.Fragments.FragmentFront.{tree_front, has_refused_start};
ghost use Rattle.mbe_semantics.specs.Fragments.FragmentFront.{unsigned_front, is_literal_in};
ghost use Rattle.mbe_semantics.specs.Fragments.FragmentFront.{fails_inside, may_begin};
ghost use Rattle.mbe_tt.specs.Trees.Tree.{flat};
ghost use Rattle.mbe_semantics.specs.Fragments.FragmentFront.{is_refused, is_refused_ident};
ghost use Rattle.mbe_ops.specs.Views.{MatchesCut};

use mbe_ops::ops::same_chars;
use mbe_semantics::fragment_kinds::{ExprKind, FragmentParser, MetaVarKind};
use mbe_threads::fragment_front::eat_front;
use mbe_tt::fragment_group::is_literal_group;
use mbe_tt::grammar::{Dialect, FragmentGrammar, PrefixEntryPoint};
use mbe_tt::tt::{
    Delimiter, Ident, IdentIsRaw, Leaf, Literal, Punct, TokenTreesView, TtElement, TtIter,
};
use std::alloc::{AllocError, Allocator};

// Consumes a literal with the same text and suffix, whatever its kind. Returns whether it is there.
pub(crate) fn eat_literal<A: Allocator>(literal: &Literal<A>, src: &mut TtIter<'_, A>) -> bool
    ensures { HasPassed result (literal_text_front literal.now.text_and_suffix src.old) src.new }
{
    match src.expect_leaf() {
        Ok(Leaf::Literal(found)) => found.text_and_suffix == literal.text_and_suffix,
        _ => false,
    }
}

// Consumes an identifier with the same text, raw or not. Returns whether it is there.
#[inline(always)]
pub(crate) fn eat_ident<A: Allocator>(ident: &Ident<A>, src: &mut TtIter<'_, A>) -> bool
    ensures { HasPassed result (ident_text_front ident.now.sym src.old) src.new }
{
    match src.expect_ident_or_underscore() {
        Ok(found) => found.sym == ident.sym,
        Err(()) => false,
    }
}

// Consumes joined puncts with exactly these chars. Returns whether they are there.
#[inline(always)]
pub(crate) fn eat_puncts<A: Allocator>(puncts: &[Punct], src: &mut TtIter<'_, A>) -> bool
    ensures { HasPassed result (puncts_front (chars_of puncts.now) src.old) src.new }
{
    match src.expect_glued_punct() {
        Ok(found) => same_chars(found.as_slice(), puncts),
        Err(()) => false,
    }
}

/// Consumes and returns the fragment that a variable of the kind matches. `None` if it matches
/// nothing, as a variable of an unknown kind. `AllocError` if the grammar is out of memory.
#[inline(always)]
pub fn eat_fragment<'a, A: Allocator, G: FragmentGrammar>(
    grammar: &G,
    kind: Option<MetaVarKind>,
    src: &mut TtIter<'a, A>,
) -> Result<Option<TokenTreesView<'a, A>>, AllocError>
    ensures { IfOk result (λ taken. MatchesCut taken
        (fragment_front (G.grammar grammar.now) kind src.old) src.new) }
{
    let Some(kind) = kind else {
        return Ok(None);
    };
    match kind.fragment_parser() {
        FragmentParser::Identifier => Ok(eat_any_ident(src)),
        FragmentParser::Tree => Ok(eat_tree(src)),
        FragmentParser::Lifetime => Ok(eat_lifetime(src)),
        FragmentParser::Literal => Ok(eat_signed_literal(grammar.dialect(), src)),
        FragmentParser::Grammar(_) if is_refused(kind, src) => Ok(None),
        FragmentParser::Grammar(entry) => eat_good_front(grammar, entry, src),
    }
}

// Consumes and returns the fragment that the grammar finds. `None` if the grammar faults, or its
// count ends inside a tree.
fn eat_good_front<'a, A: Allocator, G: FragmentGrammar>(
    grammar: &G,
    entry_point: PrefixEntryPoint,
    src: &mut TtIter<'a, A>,
) -> Result<Option<TokenTreesView<'a, A>>, AllocError>
    ensures { IfOk result (λ taken. MatchesCut taken
        (accepted_front (G.grammar grammar.now) entry_point src.old) src.new) }
{
    let counted = eat_front(grammar, entry_point, src)?;
    if counted.is_accepted {
        Ok(Some(counted.whole))
    } else {
        Ok(None)
    }
}

// Whether the first tree is an identifier that may not begin an expression of the kind.
pub(crate) fn is_refused<A: Allocator>(kind: MetaVarKind, src: &TtIter<'_, A>) -> bool
    ensures { result ≡ is_refused kind src.now }
{
    match kind {
        MetaVarKind::Expr(expr) => has_refused_start(expr, src),
        _ => false,
    }
}

// Whether the first tree is an identifier that no expression of the kind begins with.
fn has_refused_start<A: Allocator>(kind: ExprKind, src: &TtIter<'_, A>) -> bool
    ensures { result ≡ has_refused_start kind src.now }
{
    match src.peek() {
        Some(TtElement::Leaf(Leaf::Ident(ident))) => is_refused_ident(kind, ident),
        _ => false,
    }
}

// Whether no expression of the kind begins with this identifier: `let`, raw or not. An `expr_2021`
// doesn't begin with `_` or `const` either, unless they are raw.
fn is_refused_ident<A: Allocator>(kind: ExprKind, ident: &Ident<A>) -> bool
    ensures { result ≡ is_refused_ident kind ident.now.is_raw ident.now.sym }
{
    match (kind, ident.sym.as_str()) {
        (_, "let") => true,
        (ExprKind::Expr2021, "_" | "const") => ident.is_raw == IdentIsRaw::No,
        _ => false,
    }
}

// Consumes and returns an identifier other than `_`.
#[inline(always)]
pub(crate) fn eat_any_ident<'a, A: Allocator>(
    src: &mut TtIter<'a, A>,
) -> Option<TokenTreesView<'a, A>>
    ensures { MatchesCut result (ident_front src.old) src.new }
{
    let savepoint = src.savepoint();
    match src.expect_ident() {
        Ok(_) => Some(src.from_savepoint(savepoint)),
        Err(()) => None,
    }
}

// Consumes and returns `'` and an identifier or `_`.
pub(crate) fn eat_lifetime<'a, A: Allocator>(
    src: &mut TtIter<'a, A>,
) -> Option<TokenTreesView<'a, A>>
    ensures { MatchesCut result (lifetime_front src.old) src.new }
{
    let savepoint = src.savepoint();
    src.expect_char('\'').ok()?;
    match src.expect_ident_or_underscore() {
        Ok(_) => Some(src.from_savepoint(savepoint)),
        Err(()) => None,
    }
}

// Consumes a literal, `true` or `false`; in rustc's dialect, a group of a literal too. Returns
// whether it is there.
fn eat_unsigned<A: Allocator>(dialect: Dialect, src: &mut TtIter<'_, A>) -> bool
    ensures { HasPassed result (unsigned_front dialect src.old) src.new }
{
    if src.expect_literal().is_ok() {
        return true;
    }
    match src.expect_subtree() {
        Ok((group, _inside)) => is_literal_in(dialect, group.delimiter),
        Err(()) => false,
    }
}

// Whether the delimiter is that of a literal, in rustc's dialect.
fn is_literal_in(dialect: Dialect, delimiter: Delimiter) -> bool
    ensures { result ≡ is_literal_in dialect delimiter }
{
    match dialect {
        Dialect::RustAnalyzer => false,
        Dialect::Rustc => is_literal_group(delimiter),
    }
}

// Consumes and returns a literal of the dialect, with an optional `-` in front.
pub(crate) fn eat_signed_literal<'a, A: Allocator>(
    dialect: Dialect,
    src: &mut TtIter<'a, A>,
) -> Option<TokenTreesView<'a, A>>
    ensures { MatchesCut result (literal_front dialect src.old) src.new }
{
    let savepoint = src.savepoint();
    let _sign = src.expect_char('-');
    if eat_unsigned(dialect, src) {
        Some(src.from_savepoint(savepoint))
    } else {
        None
    }
}

// Consumes and returns a lifetime if `'` comes first; otherwise joined puncts, or one tree.
#[inline(always)]
fn eat_tree<'a, A: Allocator>(src: &mut TtIter<'a, A>) -> Option<TokenTreesView<'a, A>>
    ensures { MatchesCut result (tree_front src.old) src.new }
{
    let mut ahead = src.fork();
    if ahead.expect_char('\'').is_ok() {
        return eat_lifetime(src);
    }
    let savepoint = src.savepoint();
    match src.expect_glued_punct() {
        Ok(_) => Some(src.from_savepoint(savepoint)),
        Err(()) => src.next_as_view(),
    }
}

// Whether a fragment that doesn't match may begin with the first tree: the grammar counts tokens of
// it, or it is a literal and its `-` is there. `AllocError` if the grammar is out of memory.
fn may_begin<A: Allocator, G: FragmentGrammar>(
    grammar: &G,
    parser: FragmentParser,
    src: &TtIter<'_, A>,
) -> Result<bool, AllocError>
    ensures { IfOk result (λ begins. begins ≡ may_begin (G.grammar grammar.now) parser src.now) }
{
    match parser {
        FragmentParser::Grammar(entry) => {
            let front = grammar.parse(entry, src.remaining())?;
            Ok(front.count > 0)
        }
        FragmentParser::Literal => {
            let mut ahead = src.fork();
            Ok(ahead.expect_char('-').is_ok())
        }
        FragmentParser::Identifier | FragmentParser::Lifetime | FragmentParser::Tree => Ok(false),
    }
}

/// Whether a fragment of the kind begins with the first tree and has a fault inside. rustc ends a
/// call there. `false` in rust-analyzer's dialect. `AllocError` if the grammar is out of memory.
pub(crate) fn fails_inside<A: Allocator, G: FragmentGrammar>(
    grammar: &G,
    kind: Option<MetaVarKind>,
    src: &TtIter<'_, A>,
) -> Result<bool, AllocError>
    ensures { IfOk result (λ fails. fails ≡ fails_inside (G.grammar grammar.now) kind src.now) }
{
    let Some(known) = kind else {
        return Ok(false);
    };
    if grammar.dialect() == Dialect::RustAnalyzer {
        return Ok(false);
    }
    if is_refused(known, src) {
        return Ok(false);
    }
    if !may_begin(grammar, known.fragment_parser(), src)? {
        return Ok(false);
    }
    let mut ahead = src.fork();
    Ok(eat_fragment(grammar, kind, &mut ahead)?.is_none())
}
