// Puts parentheses around variables of templates, since rustc keeps each fragment whole. Without
// the parentheses, the text of an expansion would be parsed differently:
//
// - In `$x as $t << 1`, the `<` would begin generic arguments of the type. So `parenthesize_rules`
//   writes `($t)` there.
// - In `$x.pow(2)`, the `-` of `-2` would apply to the whole call. So `parenthesize_rules` writes an
//   operand's parentheses there. They are kept or removed once `$x` is known.
// - In `&$p`, the `&` would apply to the first part of `1 | 2`. An operand's parentheses are there
//   too.
// - In `$s - 1`, the `-` would go on with the statement `let a = 3`. So `parenthesize_rules` writes
//   a statement's parentheses there. Once `$s` is known, they are removed, or become a `;`.
ghost use Rattle.std.specs.Prelude.{◌≡◌, ◌<◌, IfOk, OnOk, is_some, length, option_map};
ghost use Rattle.mbe_tt.specs.Buffers.GroupStack.{put};
ghost use Rattle.mbe_tt.specs.Views.Element.{element_tree};
ghost use Rattle.mbe_tt.specs.Views.LeafViews.{leaf_of};
ghost use Rattle.mbe_tt.specs.Views.View.{trees};
ghost use Rattle.mbe_rewriter.specs.WholeFragments.VariableParentheses as spec;

use crate::whole_fragments::front_tokens::{
    after_first, copy_of, is_char, is_char_leaf, is_single_dot, is_word,
};
use crate::whole_fragments::receivers::{around_fragment, around_receiver, around_statement};
use mbe_tt::tt::{Delimiter, Leaf, TokenTreesView, TopSubtree, TopSubtreeBuilder, TtElement};
use std::alloc::{AllocError, Allocator};

// The maximum depth of groups. Deeper groups are copied unchanged.
const LEVELS: u32 = 1000;

// The maximum depth of groups in which the variables of a pattern are looked for. No pattern is
// deeper.
const PATTERN_LEVELS: u32 = 256;

// The role of the leaf after a `$`, if the template doesn't keep the two as they are.
#[derive(Clone, Copy, Drop)]
pub(crate) enum VariableRole {
    /// The second `$` of `$$`. No variable begins with it.
    Dollar,
    /// The name of a type or a path before a `<`.
    Type,
    /// The name of an expression, a literal, a pattern or a type before a `.`.
    Receiver,
    /// The name of a pattern or a type elsewhere.
    Operand,
    /// The name of a statement.
    Statement,
}

// ---- variables of patterns

// Returns whether the specifier of an expression or a literal is at the front.
fn is_value_specifier<A: Allocator>(tokens: TokenTreesView<'_, A>) -> bool
    ensures { result ≡ spec.is_value_specifier (trees tokens.entry) }
{
    is_word("expr", tokens) || is_word("expr_2021", tokens) || is_word("literal", tokens)
}

// Returns whether the specifier of a pattern or a type is at the front.
fn is_operand_specifier<A: Allocator>(tokens: TokenTreesView<'_, A>) -> bool
    ensures { result ≡ spec.is_operand_specifier (trees tokens.entry) }
{
    is_word("pat", tokens) || is_word("pat_param", tokens) || is_word("ty", tokens)
}

// Returns whether a fragment specifier for that role is at the front.
fn is_specifier<A: Allocator>(role: VariableRole, tokens: TokenTreesView<'_, A>) -> bool
    ensures { result ≡ spec.is_specifier role (trees tokens.entry) }
{
    match role {
        VariableRole::Dollar => false,
        VariableRole::Type => is_word("ty", tokens) || is_word("path", tokens),
        VariableRole::Receiver => is_value_specifier(tokens) || is_operand_specifier(tokens),
        VariableRole::Operand => is_operand_specifier(tokens),
        VariableRole::Statement => is_word("stmt", tokens),
    }
}

// Returns whether the name, a `:` and a specifier for the role are at the front.
fn is_declared<A: Allocator>(role: VariableRole, name: &str, tokens: TokenTreesView<'_, A>) -> bool
    ensures { result ≡ spec.is_declared role name.now (trees tokens.entry) }
{
    let after_name = after_first(tokens);
    is_word(name, tokens) && is_char(':', after_name) && is_specifier(role, after_first(after_name))
}

// Returns whether a variable of that name and role is in a tree, at most `levels` groups deep, or
// begins with the tree, before `rest`.
#[cycle(declaring)]
fn declares_at<A: Allocator>(
    role: VariableRole,
    name: &str,
    tree: TtElement<'_, A>,
    rest: TokenTreesView<'_, A>,
    levels: u32,
) -> bool
    ensures { result ≡ spec.declares_at (spec.declares levels role name.now) role name.now
        (element_tree tree.entry) (trees rest.entry) }
{
    match tree {
        TtElement::Leaf(leaf) => is_char_leaf('$', leaf) && is_declared(role, name, rest),
        TtElement::Subtree(_, inside) => declares(role, name, inside.remaining(), levels),
    }
}

// Returns whether a variable of that name and role is among these trees, at most `levels` groups
// deep.
#[cycle(declaring)]
fn declares<A: Allocator>(
    role: VariableRole,
    name: &str,
    tokens: TokenTreesView<'_, A>,
    levels: u32,
) -> bool
    ensures { result ≡ spec.declares levels role name.now (trees tokens.entry) }
{
    if levels == 0 {
        return false;
    }
    let mut rest = tokens.iter();
    'trees: while let Some(tree) = rest.next() {
        if declares_at(role, name, tree, rest.remaining(), levels - 1) {
            return true;
        }
    }
    false
}

// Returns whether the pattern has a variable of that name and role.
fn has_role<A: Allocator>(
    pattern: TokenTreesView<'_, A>,
    role: VariableRole,
    leaf: &Leaf<A>,
) -> bool
    ensures { result ≡ spec.has_role (trees pattern.entry) role (leaf_of leaf.now) }
{
    match leaf {
        Leaf::Ident(ident) => declares(role, ident.sym.as_str(), pattern, PATTERN_LEVELS),
        Leaf::Punct(_) | Leaf::Literal(_) => false,
    }
}

// ---- variables of templates

// Returns the role that the trees after a variable ask for. A `$` asks for the same as a `.`, since
// the variable after it may begin with one.
fn expected_role<A: Allocator>(rest: TokenTreesView<'_, A>) -> VariableRole
    ensures { result ≡ spec.expected_role (trees rest.entry) }
{
    if is_char('<', rest) {
        VariableRole::Type
    } else if is_char('$', rest) || is_single_dot(rest) {
        VariableRole::Receiver
    } else {
        VariableRole::Operand
    }
}

// Returns the role of the leaf after a `$`, before `rest`.
fn role_of<A: Allocator>(
    pattern: TokenTreesView<'_, A>,
    leaf: &Leaf<A>,
    rest: TokenTreesView<'_, A>,
) -> Option<VariableRole>
    ensures { result ≡ spec.role_of (trees pattern.entry) (leaf_of leaf.now) (trees rest.entry) }
{
    if is_char_leaf('$', leaf) {
        return Some(VariableRole::Dollar);
    }
    if has_role(pattern, VariableRole::Statement, leaf) {
        return Some(VariableRole::Statement);
    }
    let role = expected_role(rest);
    if has_role(pattern, role, leaf) {
        Some(role)
    } else {
        None
    }
}

// Returns the leaf at the front with its role after a `$`, if it has one.
fn role_at_front<'t, A: Allocator>(
    pattern: TokenTreesView<'_, A>,
    tokens: TokenTreesView<'t, A>,
) -> Option<(VariableRole, &'t Leaf<A>)>
    ensures { option_map (λ r. (r.0, leaf_of r.1.now)) result
        ≡ spec.role_at_front (trees pattern.entry) (trees tokens.entry) }
{
    match tokens.iter().next() {
        Some(TtElement::Leaf(leaf)) => match role_of(pattern, leaf, after_first(tokens)) {
            Some(role) => Some((role, leaf)),
            None => None,
        },
        Some(TtElement::Subtree(..)) | None => None,
    }
}

// Returns the leaf after `leaf` with its role, if `leaf` is a `$`.
fn role_after<'t, A: Allocator>(
    pattern: TokenTreesView<'_, A>,
    leaf: &Leaf<A>,
    rest: TokenTreesView<'t, A>,
) -> Option<(VariableRole, &'t Leaf<A>)>
    ensures { option_map (λ r. (r.0, leaf_of r.1.now)) result
        ≡ spec.role_after (trees pattern.entry) (leaf_of leaf.now) (trees rest.entry) }
{
    if is_char_leaf('$', leaf) {
        role_at_front(pattern, rest)
    } else {
        None
    }
}

// ---- the trees

fn write_two<A: Allocator>(
    builder: &mut TopSubtreeBuilder<A>,
    one: &Leaf<A>,
    other: &Leaf<A>,
) -> Result<(), AllocError>
    requires { 0 < length builder.old }
    ensures { OnOk result (builder.new
        ≡ put (spec.two (leaf_of one.now) (leaf_of other.now)) builder.old) }
{
    builder.push(copy_of(one)?)?;
    builder.push(copy_of(other)?)?;
    Ok(())
}

// Writes a variable in a group.
fn write_in_group<A: Allocator>(
    builder: &mut TopSubtreeBuilder<A>,
    delimiter: Delimiter,
    dollar: &Leaf<A>,
    name: &Leaf<A>,
) -> Result<(), AllocError>
    requires { 0 < length builder.old }
    ensures { OnOk result (builder.new ≡ put
        (spec.in_group delimiter (leaf_of dollar.now) (leaf_of name.now)) builder.old) }
{
    builder.open(delimiter.kind, delimiter.opening)?;
    write_two(builder, dollar, name)?;
    builder.close(delimiter.close);
    Ok(())
}

// Writes a `$` and the leaf after it, which has that role.
fn write_pair<A: Allocator>(
    builder: &mut TopSubtreeBuilder<A>,
    role: VariableRole,
    dollar: &Leaf<A>,
    name: &Leaf<A>,
) -> Result<(), AllocError>
    requires { 0 < length builder.old }
    ensures { OnOk result (builder.new
        ≡ put (spec.pair role (leaf_of dollar.now) (leaf_of name.now)) builder.old) }
{
    let span = dollar.span();
    match role {
        VariableRole::Dollar => write_two(builder, dollar, name),
        VariableRole::Type => write_in_group(builder, around_fragment(span), dollar, name),
        VariableRole::Receiver | VariableRole::Operand => {
            write_in_group(builder, around_receiver(span), dollar, name)
        }
        VariableRole::Statement => write_in_group(builder, around_statement(span), dollar, name),
    }
}

// Writes a leaf, and also the leaf after it if that one has a role. Returns whether it has.
fn write_leaf<A: Allocator>(
    builder: &mut TopSubtreeBuilder<A>,
    pattern: TokenTreesView<'_, A>,
    leaf: &Leaf<A>,
    rest: TokenTreesView<'_, A>,
) -> Result<bool, AllocError>
    requires { 0 < length builder.old }
    ensures kept { OnOk result (builder.new ≡ put (spec.kept (leaf_of leaf.now)
        (spec.role_after (trees pattern.entry) (leaf_of leaf.now) (trees rest.entry)))
        builder.old) }
    ensures written { IfOk result (λ is_written. is_written ≡ is_some
        (spec.role_after (trees pattern.entry) (leaf_of leaf.now) (trees rest.entry))) }
{
    match role_after(pattern, leaf, rest) {
        Some((role, name)) => {
            write_pair(builder, role, leaf, name)?;
            Ok(true)
        }
        None => {
            builder.push(leaf.clone()?)?;
            Ok(false)
        }
    }
}

// Writes the template of a rule with that pattern, at most `levels` groups deep.
fn write_parenthesized<A: Allocator>(
    builder: &mut TopSubtreeBuilder<A>,
    pattern: TokenTreesView<'_, A>,
    tokens: TokenTreesView<'_, A>,
    levels: u32,
) -> Result<(), AllocError>
    requires { 0 < length builder.old }
    ensures { OnOk result (builder.new ≡ put
        (spec.parenthesized_in (trees pattern.entry) levels (trees tokens.entry)) builder.old) }
{
    if levels == 0 {
        return builder.extend_with_tt(tokens);
    }
    let mut rest = tokens.iter();
    let mut is_written = false;
    'trees: while let Some(tree) = rest.next() {
        if is_written {
            is_written = false;
            continue;
        }
        match tree {
            TtElement::Leaf(leaf) => {
                is_written = write_leaf(builder, pattern, leaf, rest.remaining())?;
            }
            TtElement::Subtree(group, inside) => {
                builder.open(group.delimiter.kind, group.delimiter.opening)?;
                write_parenthesized(builder, pattern, inside.remaining(), levels - 1)?;
                builder.close(group.delimiter.close);
            }
        }
    }
    Ok(())
}

// Writes a group of the rules: a pattern, or the template after `pattern`.
fn write_rule_group<A: Allocator>(
    builder: &mut TopSubtreeBuilder<A>,
    pattern: Option<TokenTreesView<'_, A>>,
    delimiter: Delimiter,
    inside: TokenTreesView<'_, A>,
) -> Result<(), AllocError>
    requires { 0 < length builder.old }
    ensures { OnOk result (builder.new ≡ put (spec.rule_group (option_map trees pattern.entry)
        delimiter (trees inside.entry)) builder.old) }
{
    builder.open(delimiter.kind, delimiter.opening)?;
    match pattern {
        None => builder.extend_with_tt(inside)?,
        Some(pattern) => write_parenthesized(builder, pattern, inside, LEVELS)?,
    }
    builder.close(delimiter.close);
    Ok(())
}

fn write_rules<A: Allocator>(
    builder: &mut TopSubtreeBuilder<A>,
    rules: TokenTreesView<'_, A>,
) -> Result<(), AllocError>
    requires { 0 < length builder.old }
    ensures { OnOk result (builder.new
        ≡ put (spec.parenthesize_rules (trees rules.entry)) builder.old) }
{
    let mut rest = rules.iter();
    let mut pattern = None;
    'trees: while let Some(tree) = rest.next() {
        match tree {
            TtElement::Leaf(leaf) => builder.push(copy_of(leaf)?)?,
            TtElement::Subtree(group, inside) => {
                let inside = inside.remaining();
                write_rule_group(builder, pattern, group.delimiter, inside)?;
                pattern = match pattern {
                    None => Some(inside),
                    Some(_) => None,
                };
            }
        }
    }
    Ok(())
}

/// Builds a buffer of the rules of a macro in a group of `delimiter`. A variable of a template gets
/// parentheses if it is a type or a path before a `<`. It gets an operand's parentheses if it is
/// another type, a pattern, or an expression or a literal that may be before a `.`. It gets a
/// statement's parentheses if it is a statement. Returns `AllocError` if memory runs out.
pub fn parenthesize_rules<A: Allocator + Copy>(
    alloc: A,
    delimiter: Delimiter,
    rules: TokenTreesView<'_, A>,
) -> Result<TopSubtree<A>, AllocError>
    ensures { IfOk result (λ tree. tree
        ≡ (delimiter, spec.parenthesize_rules (trees rules.entry))) }
{
    let mut builder = TopSubtreeBuilder::new(alloc, delimiter)?;
    write_rules(&mut builder, rules)?;
    Ok(builder.build())
}

/// Builds the same buffer for the single template of a macro with that pattern. Returns
/// `AllocError` if memory runs out.
pub fn parenthesize_template<A: Allocator + Copy>(
    alloc: A,
    delimiter: Delimiter,
    pattern: TokenTreesView<'_, A>,
    template: TokenTreesView<'_, A>,
) -> Result<TopSubtree<A>, AllocError>
    ensures { IfOk result (λ tree. tree
        ≡ (delimiter, spec.parenthesized (trees pattern.entry) (trees template.entry))) }
{
    let mut builder = TopSubtreeBuilder::new(alloc, delimiter)?;
    write_parenthesized(&mut builder, pattern, template, LEVELS)?;
    Ok(builder.build())
}
