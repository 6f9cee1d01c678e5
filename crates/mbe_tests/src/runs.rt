// Parses and expands, and compares the results whole.
ghost use Rattle.mbe.specs.Macro.{IsChecked};
ghost use Rattle.mbe.specs.MacroViews.{macro_of};

use crate::errors::is_error;
use crate::grammar::{NOTHING, grammar_of};
use crate::trees::{build_trees, lexed, read};
use mbe::{DeclarativeMacro, ExpandResult, MacroCallStyle, MatchedArmIndex};
use mbe_tt::grammar::FragmentGrammar;
use mbe_tt::span::{Edition, Span};
use mbe_tt::tt::TopSubtree;
use std::alloc::{AllocError, Allocator, Global};
use test_rows::Fields;

pub type Expansion<A> = ExpandResult<(TopSubtree<A>, MatchedArmIndex), A>;

/// Reads the macro of a definition, in edition 2024.
pub fn parsed<A: Allocator + Copy>(
    alloc: A,
    definition: &TopSubtree<A>,
) -> Result<DeclarativeMacro<A>, AllocError> {
    DeclarativeMacro::parse_macro_rules(alloc, definition, |_context| Edition::Edition2024)
}

/// Reads the macro of a text, which is file 0.
pub fn defined<A: Allocator + Copy>(
    alloc: A,
    definition: &str,
) -> Result<DeclarativeMacro<A>, AllocError> {
    parsed(alloc, &lexed(alloc, 0, definition)?)
}

/// Returns the span of the whole argument, which is the call site of each expansion here.
pub fn whole<A: Allocator>(argument: &TopSubtree<A>) -> Span {
    argument.top_subtree().delimiter.opening
}

/// Expands a call in a style by a grammar. All spans are unchanged.
pub fn expanded<A: Allocator + Copy, G: FragmentGrammar>(
    alloc: A,
    grammar: &G,
    rules: &DeclarativeMacro<A>,
    argument: &TopSubtree<A>,
    style: MacroCallStyle,
) -> Result<Expansion<A>, AllocError>
    requires { IsChecked (macro_of rules.now) }
{
    let call_site = whole(argument);
    rules.expand(alloc, grammar, argument, |span| span, style, call_site)
}

/// Expands a call in the style of a function, by a macro that was read without a fault.
pub fn made<A: Allocator + Copy, G: FragmentGrammar>(
    alloc: A,
    grammar: &G,
    rules: &DeclarativeMacro<A>,
    argument: &TopSubtree<A>,
) -> Result<Expansion<A>, AllocError> {
    if rules.err().is_some() {
        return Err(AllocError);
    }
    let style = MacroCallStyle::FnLike;
    expanded(alloc, grammar, rules, argument, style)
}

/// Whether the expansion of a call at that span is so: the index of a rule, or none, the tokens
/// that are written, and the error.
pub fn is_made(
    alloc: Global,
    expansion: &Expansion<Global>,
    call_site: Span,
    [arm, tokens, error]: [&str; 3],
) -> Result<bool, AllocError> {
    let (tree, index) = &expansion.value;
    let want = build_trees(alloc, call_site, tokens)?;
    let passes = *index == arm.parse::<u32>().ok() && *tree == want;
    Ok(passes && is_error(alloc, expansion.err.as_ref(), error)?)
}

/// Whether a row of `call_rows` passes.
pub fn passes(
    alloc: Global,
    [grammar, definition, argument, arm, tokens, error]: Fields,
) -> Result<bool, AllocError> {
    let rules = parsed(alloc, &read(alloc, 0, definition)?)?;
    let argument = read(alloc, 1, argument)?;
    is_called(alloc, grammar, (&rules, &argument), [arm, tokens, error])
}

// Whether a call by the grammar of a row expands so.
fn is_called(
    alloc: Global,
    grammar: &str,
    (rules, argument): (&DeclarativeMacro, &TopSubtree),
    [arm, tokens, error]: [&str; 3],
) -> Result<bool, AllocError> {
    let Ok(expansion) = made(alloc, &grammar_of(grammar), rules, argument) else {
        return Ok(arm == "out of memory");
    };
    if arm.is_empty() {
        return Ok(expansion.err.is_some() && expansion.value.1 == Some(0));
    }
    is_made(alloc, &expansion, whole(argument), [arm, tokens, error])
}

/// Whether a call with an argument, in a style, expands so. The grammar faults on everything.
pub fn answers(
    alloc: Global,
    rules: &DeclarativeMacro,
    argument: &str,
    style: MacroCallStyle,
    want: [&str; 3],
) -> Result<bool, AllocError>
    requires { IsChecked (macro_of rules.now) }
{
    let argument = lexed(alloc, 1, argument)?;
    let expansion = expanded(alloc, &NOTHING, rules, &argument, style)?;
    is_made(alloc, &expansion, whole(&argument), want)
}
