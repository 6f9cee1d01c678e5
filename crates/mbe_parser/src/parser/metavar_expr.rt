// The parser of metavariable expressions: the trees between the braces of `${..}`.
ghost use Rattle.std.specs.Prelude.{◌≡◌, ◌≢◌, ◌<◌, map, option_map, Some, None, IfOk, IfErr, OnOk};
ghost use Rattle.std.specs.Prelude.{MatchOption, if◌then◌else◌};
ghost use Rattle.mbe_tt.specs.Trees.Literals.{has_no_suffix, decimal_value, literal_text};
ghost use Rattle.mbe_tt.specs.Views.LeafViews.{ident_of, literal_of};
ghost use Rattle.mbe_tt.specs.Trees.Tree.{none, flat_len};
ghost use Rattle.mbe_semantics.specs.Syntax.Op.{expression};
ghost use Rattle.mbe_parser.specs.ParserResults.{NotExpression};
ghost use Rattle.mbe_semantics.specs.Syntax.Template.{expression_of, arguments_of, ignore_of};
ghost use Rattle.mbe_semantics.specs.Syntax.Template.{count_of, concat_of, dollar_name, depth_of};
ghost use Rattle.mbe_semantics.specs.Syntax.Template.{depth_after_comma, elements_of};
ghost use Rattle.mbe_semantics.specs.Syntax.Template.{elements_after_comma, element_before};
ghost use Rattle.mbe_ops.specs.Expressions.{element_seen, expression_seen};
ghost use Rattle.mbe_ops.specs.Views.{op_of};

use mbe_ops::errors::error::{ReadError, SyntaxFault};
use mbe_ops::expression::{ConcatMetaVarExprElem, Expression};
use mbe_ops::ops::Op;
use mbe_tt::span::Span;
use mbe_tt::tt::{DelimiterKind, Ident, Leaf, Literal, TtElement, TtIter};
use std::alloc::Allocator;

/// Parses the trees between the braces of `${..}`. The forms are `ignore($x)`, `index(d)`,
/// `len(d)`, `count($x)`, `count($x, d)` and `concat(e, e, ..)`. Trees after the arguments are
/// ignored.
///
/// Returns `SyntaxFault::InvalidExpression` if the trees have none of these forms, and `Memory` if
/// out of memory. The unstable features `macro_metavar_expr` and `macro_metavar_expr_concat` define
/// the forms. They are parsed as rust-analyzer parses them.
#[tactic(auto, using(mbe_ops::proofs::OpViews::views))]
pub fn parse_metavar_expr<A: Allocator + Copy>(
    alloc: A,
    src: TtIter<'_, A>,
) -> Result<Op<A>, ReadError>
    ensures op { IfOk result (λ o. option_map expression (expression_of src.entry)
        ≡ Some (op_of o)) }
    ensures fault { IfErr result (λ e. NotExpression e (expression_of src.entry)) }
{
    let (func, args) = func_and_args(src).ok_or(SyntaxFault::InvalidExpression)?;
    Ok(Op::Expression(parse_args(alloc, func, args)?))
}

// Returns the name of the function and the arguments, which have to be in parentheses.
fn func_and_args<'a, A: Allocator>(src: TtIter<'a, A>) -> Option<(&'a Ident<A>, TtIter<'a, A>)>
    ensures { MatchOption result (expression_of src.entry ≡ None)
        (λ call. expression_of src.entry ≡ arguments_of (ident_of call.0.now) call.1) }
{
    let mut src = src;
    let func = src.expect_ident().ok()?;
    let (subtree, args) = src.expect_subtree().ok()?;
    if subtree.delimiter.kind == DelimiterKind::Parenthesis {
        Some((func, args))
    } else {
        None
    }
}

fn parse_args<A: Allocator + Copy>(
    alloc: A,
    func: &Ident<A>,
    args: TtIter<'_, A>,
) -> Result<Expression<A>, ReadError>
    ensures expression { IfOk result (λ e.
        arguments_of (ident_of func.now) args.entry ≡ Some (expression_seen e)) }
    ensures fault { IfErr result (λ e. NotExpression e
        (arguments_of (ident_of func.now) args.entry)) }
{
    match func.sym.as_str() {
        "ignore" => parse_ignore(args),
        "count" => parse_count(args),
        "index" => {
            let depth = parse_depth(args).ok_or(SyntaxFault::InvalidExpression)?;
            Ok(Expression::Index { depth })
        }
        "len" => {
            let depth = parse_depth(args).ok_or(SyntaxFault::InvalidExpression)?;
            Ok(Expression::Len { depth })
        }
        "concat" => parse_concat(alloc, func.span, args),
        _ => Err(ReadError::Fault(SyntaxFault::InvalidExpression)),
    }
}

// Parses the arguments of `ignore`: one variable.
fn parse_ignore<A: Allocator>(args: TtIter<'_, A>) -> Result<Expression<A>, ReadError>
    ensures expression { IfOk result (λ e. ignore_of args.entry ≡ Some (expression_seen e)) }
    ensures fault { IfErr result (λ e. NotExpression e (ignore_of args.entry)) }
{
    let mut args = args;
    let name = eat_name(&mut args).ok_or(SyntaxFault::InvalidExpression)?;
    if !args.is_empty() {
        return Err(ReadError::Fault(SyntaxFault::InvalidExpression));
    }
    Ok(Expression::Ignore {
        name: name.sym.clone()?,
        id: name.span,
    })
}

// Parses the arguments of `count`: a variable, and optionally a comma and a depth.
fn parse_count<A: Allocator>(args: TtIter<'_, A>) -> Result<Expression<A>, ReadError>
    ensures expression { IfOk result (λ e. count_of args.entry ≡ Some (expression_seen e)) }
    ensures fault { IfErr result (λ e. NotExpression e (count_of args.entry)) }
{
    let mut args = args;
    let name = eat_name(&mut args).ok_or(SyntaxFault::InvalidExpression)?;
    let depth = parse_depth_after_comma(args).ok_or(SyntaxFault::InvalidExpression)?;
    Ok(Expression::Count {
        name: name.sym.clone()?,
        depth,
    })
}

// Consumes `$` and an identifier other than `_`.
fn eat_name<'a, A: Allocator>(args: &mut TtIter<'a, A>) -> Option<&'a Ident<A>>
    ensures { option_map (λ name. (ident_of name.now, args.new)) result ≡ dollar_name args.old }
{
    args.expect_dollar().ok()?;
    args.expect_ident().ok()
}

// Parses a comma and a depth. Without them the depth is 0.
fn parse_depth_after_comma<A: Allocator>(src: TtIter<'_, A>) -> Option<usize>
    ensures { result ≡ depth_after_comma src.entry }
{
    let mut src = src;
    if src.is_empty() {
        return Some(0);
    }
    src.expect_comma().ok()?;
    parse_depth(src)
}

// Parses a depth and nothing else. A missing depth is 0.
fn parse_depth<A: Allocator>(src: TtIter<'_, A>) -> Option<usize>
    ensures { result ≡ depth_of src.entry }
{
    let mut src = src;
    match src.next() {
        None => Some(0),
        Some(TtElement::Leaf(Leaf::Literal(literal))) if src.is_empty() => parse_usize(literal),
        Some(_) => None,
    }
}

// Returns the number that a literal without a suffix stands for.
fn parse_usize<A: Allocator>(literal: &Literal<A>) -> Option<usize>
    ensures { result ≡ (if has_no_suffix (literal_of literal.now)
        then decimal_value (literal_text (literal_of literal.now)) else None) }
{
    let (text, suffix) = literal.text_and_suffix();
    if suffix.is_empty() {
        text.parse().ok()
    } else {
        None
    }
}

// Parses the arguments of `concat`: at least two elements between commas. A last comma is allowed.
fn parse_concat<A: Allocator + Copy>(
    alloc: A,
    span: Span,
    args: TtIter<'_, A>,
) -> Result<Expression<A>, ReadError>
    ensures expression { IfOk result (λ e. concat_of span args.entry
        ≡ Some (expression_seen e)) }
    ensures fault { IfErr result (λ e. NotExpression e (concat_of span args.entry)) }
{
    let elements = parse_elements(alloc, args)?;
    if elements.len() < 2 {
        return Err(ReadError::Fault(SyntaxFault::InvalidExpression));
    }
    Ok(Expression::Concat { elements, span })
}

fn parse_elements<A: Allocator + Copy>(
    alloc: A,
    src: TtIter<'_, A>,
) -> Result<Vec<ConcatMetaVarExprElem<A>, A>, ReadError>
    ensures elements { IfOk result (λ es. elements_of src.entry
        ≡ Some (map element_seen es.items)) }
    ensures fault { IfErr result (λ e. NotExpression e (elements_of src.entry)) }
{
    let mut src = src;
    let mut elements = Vec::new(alloc);
    'elements: while !src.is_empty() {
        let element = eat_element(&mut src)?;
        elements.push(element)?;
    }
    Ok(elements)
}

// Consumes an element, and the comma after it unless the element is the last.
fn eat_element<A: Allocator>(src: &mut TtIter<'_, A>) -> Result<ConcatMetaVarExprElem<A>, ReadError>
    requires { src.old ≢ none }
    ensures element { IfOk result (λ e. elements_of src.old
        ≡ element_before (element_seen e) (elements_of src.new)) }
    ensures fault { IfErr result (λ e. NotExpression e (elements_of src.old)) }
    ensures shorter { OnOk result (flat_len src.new < flat_len src.old) }
{
    let element = parse_element(src)?;
    if !src.is_empty() {
        src.expect_comma()
            .map_err(|()| SyntaxFault::InvalidExpression)?;
    }
    Ok(element)
}

fn parse_element<A: Allocator>(
    src: &mut TtIter<'_, A>,
) -> Result<ConcatMetaVarExprElem<A>, ReadError>
    requires { src.old ≢ none }
    ensures element { IfOk result (λ e. elements_of src.old
        ≡ element_before (element_seen e) (elements_after_comma src.new)) }
    ensures fault { IfErr result (λ e. NotExpression e (elements_of src.old)) }
    ensures shorter { OnOk result (flat_len src.new < flat_len src.old) }
{
    if let Some(TtElement::Leaf(Leaf::Literal(literal))) = src.peek() {
        let _passed = src.next();
        return Ok(ConcatMetaVarExprElem::Literal(literal.clone()?));
    }
    let is_var = src.expect_dollar().is_ok();
    let Ok(ident) = src.expect_ident_or_underscore() else {
        return Err(ReadError::Fault(SyntaxFault::InvalidExpression));
    };
    let ident = ident.clone()?;
    if is_var {
        Ok(ConcatMetaVarExprElem::Var(ident))
    } else {
        Ok(ConcatMetaVarExprElem::Ident(ident))
    }
}
