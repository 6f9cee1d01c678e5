// Evaluates attributes: whether every `cfg` of an item holds, including each `cfg` that a
// `cfg_attr` adds.
ghost use Rattle.std.specs.Prelude.{◌≡◌, ◌&&◌, true};
ghost use Rattle.mbe_tt.specs.Trees.Tree.{flat_len};
ghost use Rattle.mbe_tt.specs.Views.View.{trees};
ghost use Rattle.mbe_cfg.specs.Attributes as spec;
ghost use Rattle.mbe_cfg.specs.Attributes.{attribute, metas, attributes};
ghost use Rattle.mbe_cfg.specs.CfgViews.{predicate_value_shown, group_result};

use crate::cfg_fault::{CfgFault, CfgFaultKind};
use crate::cfg_options::CfgOptions;
use crate::exports::use_paths::begins_path;
use crate::predicate::{DEPTH, PredicateValue, holds, predicate};
use crate::tree_front::{
    Group, after_char, after_next_comma, attribute_group, group_at, is_empty, start_span,
};
use mbe_tt::span::Span;
use mbe_tt::tt::{DelimiterKind, TokenTreesView};
use std::alloc::Allocator;

/// What the name of an attribute says about conditional compilation.
#[derive(Drop)]
pub enum AttributeKind {
    PlainCfg,
    CfgAttr,
    /// `test` or `bench`. Without tests, rustc drops the target of such an attribute.
    Test,
    Other,
}

fn attribute_kind_of(name: &str) -> AttributeKind
    ensures { result ≡ spec.attribute_kind_of name.now }
{
    if name == "cfg" {
        AttributeKind::PlainCfg
    } else if name == "cfg_attr" {
        AttributeKind::CfgAttr
    } else if name == "test" || name == "bench" {
        AttributeKind::Test
    } else {
        AttributeKind::Other
    }
}

// Returns the parentheses after the name at `at`, or the fault that there are none.
fn argument<'t, A: Allocator>(
    at: Span,
    tokens: TokenTreesView<'t, A>,
) -> Result<Group<'t, A>, CfgFault>
    ensures { group_result result ≡ spec.argument at (trees tokens.entry) }
{
    match group_at(DelimiterKind::Parenthesis, tokens) {
        Some(group) => Ok(group),
        None => Err(CfgFault {
            fault_kind: CfgFaultKind::Malformed,
            at,
        }),
    }
}

// Returns whether a `cfg` holds. Its parentheses are at the front.
fn cfg<A: Allocator>(
    settings: &CfgOptions<'_>,
    at: Span,
    tokens: TokenTreesView<'_, A>,
) -> Result<bool, CfgFault>
    ensures { result ≡ spec.cfg settings.now at (trees tokens.entry) }
{
    let group = argument(at, tokens)?;
    holds(settings, group.close, group.inside)
}

// Returns whether the predicate of a `cfg_attr` holds, and the attributes that the `cfg_attr` then
// adds.
fn condition<'t, A: Allocator>(
    settings: &CfgOptions<'_>,
    close: Span,
    tokens: TokenTreesView<'t, A>,
) -> Result<PredicateValue<'t, A>, CfgFault>
    ensures { predicate_value_shown result
        ≡ spec.condition settings.now close (trees tokens.entry) }
{
    let predicate_value = predicate(settings, DEPTH, close, tokens)?;
    match after_char(predicate_value.rest, ',') {
        Some(rest) => Ok(PredicateValue {
            holds: predicate_value.holds,
            rest,
        }),
        None => Err(CfgFault {
            fault_kind: CfgFaultKind::NoComma,
            at: start_span(close, predicate_value.rest),
        }),
    }
}

// Returns whether each `cfg` holds that a `cfg_attr` adds.
#[cycle(attribute)]
fn cfg_attr<A: Allocator>(
    settings: &CfgOptions<'_>,
    depth: u32,
    at: Span,
    tokens: TokenTreesView<'_, A>,
) -> Result<bool, CfgFault>
    ensures { result ≡ spec.cfg_attr settings.now (attribute settings.now depth) at
        (trees tokens.entry) }
{
    let group = argument(at, tokens)?;
    let predicate_value = condition(settings, group.close, group.inside)?;
    if predicate_value.holds {
        metas(settings, depth, group.close, predicate_value.rest)
    } else {
        Ok(true)
    }
}

// Returns whether the target of a `test` or `bench` attribute is compiled. The trees `rest` follow
// the attribute's name. A name that begins a longer path belongs to another attribute.
fn is_compiled<A: Allocator>(settings: &CfgOptions<'_>, rest: TokenTreesView<'_, A>) -> bool
    ensures { result ≡ spec.is_compiled settings.now (trees rest.entry) }
{
    settings.test || begins_path(rest)
}

/// Returns whether an attribute, without its `#` and brackets, lets its target be compiled. `close`
/// is the span at which its brackets end. Attributes in `cfg_attr` may be nested `depth` deep.
/// Returns the fault if the attribute has one.
#[cycle(attribute)]
pub fn attribute<A: Allocator>(
    settings: &CfgOptions<'_>,
    depth: u32,
    close: Span,
    tokens: TokenTreesView<'_, A>,
) -> Result<bool, CfgFault>
    ensures { result ≡ attribute settings.now depth close (trees tokens.entry) }
{
    if depth == 0 {
        return Err(CfgFault {
            fault_kind: CfgFaultKind::TooDeep,
            at: start_span(close, tokens),
        });
    }
    let mut iter = tokens.iter();
    let Ok(name) = iter.expect_ident() else {
        return Ok(true);
    };
    match attribute_kind_of(name.sym.as_str()) {
        AttributeKind::PlainCfg => cfg(settings, name.span, iter.remaining()),
        AttributeKind::CfgAttr => cfg_attr(settings, depth - 1, name.span, iter.remaining()),
        AttributeKind::Test => Ok(is_compiled(settings, iter.remaining())),
        AttributeKind::Other => Ok(true),
    }
}

// Returns whether both hold.
fn both(one: bool, other: bool) -> bool
    ensures { result ≡ (one && other) }
{
    one && other
}

// Returns whether all of these attributes let their target be compiled. Commas separate them.
#[cycle(attribute)]
fn metas<A: Allocator>(
    settings: &CfgOptions<'_>,
    depth: u32,
    close: Span,
    tokens: TokenTreesView<'_, A>,
) -> Result<bool, CfgFault>
    ensures { result ≡ metas (attribute settings.now depth close) (flat_len (trees tokens.entry))
        true (trees tokens.entry) }
{
    let mut all = true;
    let mut rest = tokens;
    let mut left = tokens.flat_len();
    'metas: while left > 0 {
        left -= 1;
        if is_empty(rest) {
            return Ok(all);
        }
        let one = attribute(settings, depth, close, rest)?;
        all = both(all, one);
        rest = after_next_comma(rest);
    }
    Ok(all)
}

/// Returns whether the attributes at the front, `#[..]` or `#![..]`, let their target be compiled,
/// and the trees after them. A `cfg_attr` whose predicate doesn't hold adds nothing. The Reference
/// defines this as conditional compilation. Returns the fault of the first `cfg` or `cfg_attr` that
/// has one.
pub fn attributes<'t, A: Allocator>(
    settings: &CfgOptions<'_>,
    tokens: TokenTreesView<'t, A>,
) -> Result<PredicateValue<'t, A>, CfgFault>
    ensures { predicate_value_shown result
        ≡ attributes settings.now (flat_len (trees tokens.entry)) true (trees tokens.entry) }
{
    let mut all = true;
    let mut rest = tokens;
    let mut left = tokens.flat_len();
    'attributes: while left > 0 {
        left -= 1;
        let Some(group) = attribute_group(rest) else {
            return Ok(PredicateValue { holds: all, rest });
        };
        let one = attribute(settings, DEPTH, group.close, group.inside)?;
        all = both(all, one);
        rest = group.rest;
    }
    Ok(PredicateValue { holds: all, rest })
}
