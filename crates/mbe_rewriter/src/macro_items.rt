// Finds calls and definitions of macros at the front of trees.
//
// `front_of` returns a definition, a call, any other tree, or the end. `attribute_at`,
// `begins_with_operator` and `is_standard_macro` look at what surrounds a call.
ghost use Rattle.std.specs.Prelude.{◌≡◌, Some, length, option_map};
ghost use Rattle.std.specs.List.{list_any};
ghost use Rattle.std.specs.Str.{bytes_eq};
ghost use Rattle.mbe_tt.specs.Views.View.{trees};
ghost use Rattle.mbe_tt.specs.Views.LeafViews.{ident_of};
ghost use Rattle.mbe_rewriter.specs.MacroItems.{can_name_macro, is_visible, after_char};
ghost use Rattle.mbe_rewriter.specs.MacroItems.{after_path_separator, path_with_next, path_of_name};
ghost use Rattle.mbe_rewriter.specs.Surroundings.{is_standard_macro, attribute_of, name_in};
ghost use Rattle.mbe_rewriter.specs.Surroundings.{is_operator, begins_with_operator};
ghost use Rattle.mbe_rewriter.specs.MacroItems.{full_path, path_of, call_with_group, call_of_path};
ghost use Rattle.mbe_rewriter.specs.MacroItems.{call_of};
ghost use Rattle.mbe_rewriter.specs.MacroItems.{after_rules, macro_rules_with_name};
ghost use Rattle.mbe_rewriter.specs.MacroItems.{macro_rules_definition, macro_item_with_template};
ghost use Rattle.mbe_rewriter.specs.MacroItems.{macro_item_with_group};
ghost use Rattle.mbe_rewriter.specs.MacroItems.{macro_item_with_name, macro_item_definition};
ghost use Rattle.mbe_rewriter.specs.MacroItems.{definition_by_keyword, definition_of, front};
ghost use Rattle.mbe_rewriter.specs.MacroItems.{is_item};
ghost use Rattle.mbe_rewriter.specs.MacroItemViews.{path_shown, call_shown, macro_definition_shown};
ghost use Rattle.mbe_rewriter.specs.MacroItemViews.{front_item_shown, definition_form_shown};

use mbe_tt::span::Span;
use mbe_tt::tt::{
    DelimiterKind, Ident, IdentIsRaw, Leaf, Subtree, TokenTreesView, TtElement, TtIter,
};
use std::alloc::{Allocator, Global};

/// A call of a macro: a path, a `!` and a group.
#[derive(Drop)]
#[derive_where(Clone, Copy)]
pub struct MacroCall<'t, A: Allocator = Global> {
    /// The path's first name.
    pub first: &'t Ident<A>,
    /// The path's last name.
    pub name: &'t Ident<A>,
    /// Whether the path is more than a single name: it has several, or begins with `::`.
    pub is_path: bool,
    pub group: &'t Subtree,
    pub argument: TokenTreesView<'t, A>,
    /// The trees after the call.
    pub rest: TokenTreesView<'t, A>,
    /// The span at which the path begins.
    pub start: Span,
    /// The span at which the attributes on the call begin, or `start` if the call has none.
    pub begin: Span,
}

/// The form in which the rules of a definition are written.
#[derive(Drop)]
#[derive_where(Clone, Copy)]
pub enum DefinitionForm<'t, A: Allocator = Global> {
    /// `macro_rules! name { rules }`
    Rules,
    /// `macro name { rules }`
    Body,
    /// `macro name(pattern) { template }`
    Arguments(&'t Subtree, TokenTreesView<'t, A>),
}

/// A definition of a macro.
#[derive(Drop)]
#[derive_where(Clone, Copy)]
pub struct MacroDefinition<'t, A: Allocator = Global> {
    pub name: &'t Ident<A>,
    pub form: DefinitionForm<'t, A>,
    pub group: &'t Subtree,
    pub rules: TokenTreesView<'t, A>,
    /// The trees after the definition.
    pub rest: TokenTreesView<'t, A>,
}

impl<A: Allocator> MacroDefinition<'_, A> {
    /// Returns whether the definition is in scope in its whole group, as other items are. A
    /// `macro_rules!` definition is in scope only after itself.
    pub fn is_item(&self) -> bool
        ensures { result ≡ is_item (definition_form_shown self.now.form) }
    {
        !matches!(self.form, DefinitionForm::Rules)
    }
}

/// The front of trees.
#[derive(Drop)]
pub enum FrontItem<'t, A: Allocator = Global> {
    Definition(MacroDefinition<'t, A>),
    MacroCall(MacroCall<'t, A>),
    /// Any other tree, and the trees after it.
    Tree(TtElement<'t, A>, TokenTreesView<'t, A>),
    End,
}

/// The macros of the standard library whose arguments are made of expressions. So calls in these
/// arguments are calls.
const STANDARD_MACROS: &[&str] = &[
    "assert",
    "assert_eq",
    "assert_ne",
    "dbg",
    "debug_assert",
    "debug_assert_eq",
    "debug_assert_ne",
    "eprint",
    "eprintln",
    "format",
    "format_args",
    "matches",
    "panic",
    "print",
    "println",
    "thread_local",
    "todo",
    "unimplemented",
    "unreachable",
    "vec",
    "write",
    "writeln",
];

/// Keywords. A `!` after one of them belongs to no call.
const KEYWORDS: &[&str] = &[
    "as", "async", "await", "box", "break", "const", "continue", "do", "dyn", "else", "enum",
    "extern", "fn", "for", "if", "impl", "in", "let", "loop", "match", "mod", "move", "mut", "pub",
    "ref", "return", "static", "struct", "trait", "type", "unsafe", "use", "where", "while",
    "yield",
];

/// Returns whether calls in the argument of the macro `name` are calls, if no file defines that
/// macro.
pub fn is_standard_macro(name: &str) -> bool
    ensures { result ≡ is_standard_macro name.now }
{
    is_text_of(name, STANDARD_MACROS)
}

pub(crate) fn is_text_of(text: &str, texts: &[&str]) -> bool
    ensures { result ≡ list_any (λ t. bytes_eq text.now t.now) texts.now }
{
    texts.iter().any(|t| text == *t)
}

// Returns whether a macro may have that name: a raw identifier, or any identifier that is no
// keyword.
pub(crate) fn can_name_macro<A: Allocator>(name: &Ident<A>) -> bool
    ensures { result ≡ can_name_macro name.now.is_raw name.now.sym }
{
    match name.is_raw {
        IdentIsRaw::Yes => true,
        IdentIsRaw::No => !is_text_of(name.sym.as_str(), KEYWORDS),
    }
}

/// Returns the trees after the punct `char`, if it is at the front.
pub(crate) fn after_char<'t, A: Allocator>(
    tokens: TokenTreesView<'t, A>,
    char: char,
) -> Option<TokenTreesView<'t, A>>
    ensures { option_map trees result ≡ after_char char (trees tokens.entry) }
{
    let mut iter = tokens.iter();
    let punct = iter.expect_single_punct().ok()?;
    if punct.char == char {
        Some(iter.remaining())
    } else {
        None
    }
}

/// Returns the trees after a `::`, if one is at the front.
pub(crate) fn after_path_separator<'t, A: Allocator>(
    tokens: TokenTreesView<'t, A>,
) -> Option<TokenTreesView<'t, A>>
    ensures { option_map trees result ≡ after_path_separator (trees tokens.entry) }
{
    let rest = after_char(tokens, ':')?;
    after_char(rest, ':')
}

// A path of names.
#[derive(Drop)]
#[derive_where(Clone, Copy)]
struct Path<'t, A: Allocator = Global> {
    // The first name.
    first: &'t Ident<A>,
    // The last name.
    name: &'t Ident<A>,
    // Whether the path is more than a single name.
    is_path: bool,
    // The trees after the path.
    rest: TokenTreesView<'t, A>,
}

// Returns the path of the single name at the front.
fn path_of_name<'t, A: Allocator>(
    is_path: bool,
    tokens: TokenTreesView<'t, A>,
) -> Option<Path<'t, A>>
    ensures { option_map path_shown result ≡ path_of_name is_path (trees tokens.entry) }
{
    let mut iter = tokens.iter();
    let name = iter.expect_ident().ok()?;
    Some(Path {
        first: name,
        name,
        is_path,
        rest: iter.remaining(),
    })
}

// Returns the path from `first` to the name at the front.
fn path_with_next<'t, A: Allocator>(
    first: &'t Ident<A>,
    tokens: TokenTreesView<'t, A>,
) -> Option<Path<'t, A>>
    ensures { option_map path_shown result
        ≡ path_with_next (ident_of first.now) (trees tokens.entry) }
{
    let mut iter = tokens.iter();
    let name = iter.expect_ident().ok()?;
    Some(Path {
        first,
        name,
        is_path: true,
        rest: iter.remaining(),
    })
}

// Extends a path by each `::` and name that follow it. Returns `None` if no name follows a `::`.
fn full_path<'t, A: Allocator>(path: Path<'t, A>) -> Option<Path<'t, A>>
    ensures { option_map path_shown result ≡ full_path (path_shown path.entry) }
{
    let mut longer = path;
    let mut left = path.rest.flat_len();
    'names: while left > 0 {
        left -= 1;
        match after_path_separator(longer.rest) {
            None => return Some(longer),
            Some(after) => longer = path_with_next(longer.first, after)?,
        }
    }
    Some(longer)
}

// Returns the path at the front. It may begin with a `::`.
fn path_of<'t, A: Allocator>(tokens: TokenTreesView<'t, A>) -> Option<Path<'t, A>>
    ensures { option_map path_shown result ≡ path_of (trees tokens.entry) }
{
    let path = match after_path_separator(tokens) {
        None => path_of_name(false, tokens)?,
        Some(after) => path_of_name(true, after)?,
    };
    full_path(path)
}

fn is_visible(kind: DelimiterKind) -> bool
    ensures { result ≡ is_visible kind }
{
    match kind {
        DelimiterKind::Invisible => false,
        DelimiterKind::Parenthesis | DelimiterKind::Brace | DelimiterKind::Bracket => true,
    }
}

// Returns the call by `path` whose group is at the front of `tokens`. An invisible group makes no
// call.
fn call_with_group<'t, A: Allocator>(
    start: Span,
    path: Path<'t, A>,
    tokens: TokenTreesView<'t, A>,
) -> Option<MacroCall<'t, A>>
    ensures { option_map call_shown result
        ≡ call_with_group start (path_shown path.entry) (trees tokens.entry) }
{
    let mut iter = tokens.iter();
    let (group, content) = iter.expect_subtree().ok()?;
    if !is_visible(group.delimiter.kind) {
        return None;
    }
    Some(MacroCall {
        first: path.first,
        name: path.name,
        is_path: path.is_path,
        group,
        argument: content.remaining(),
        rest: iter.remaining(),
        start,
        begin: start,
    })
}

// Returns the call by `path`, if a `!` and a group follow the path.
fn call_of_path<'t, A: Allocator>(start: Span, path: Path<'t, A>) -> Option<MacroCall<'t, A>>
    ensures { option_map call_shown result ≡ call_of_path start (path_shown path.entry) }
{
    if !can_name_macro(path.name) {
        return None;
    }
    let group = after_char(path.rest, '!')?;
    call_with_group(start, path, group)
}

// Returns the call at the front.
fn call_of<'t, A: Allocator>(tokens: TokenTreesView<'t, A>) -> Option<MacroCall<'t, A>>
    ensures { option_map call_shown result ≡ call_of (trees tokens.entry) }
{
    let start = tokens.iter().next_span()?;
    let path = path_of(tokens)?;
    call_of_path(start, path)
}

// Returns the trees after the group of rules. A `;` belongs to the definition, except after braces.
fn after_rules<'t, A: Allocator>(
    kind: DelimiterKind,
    tokens: TokenTreesView<'t, A>,
) -> TokenTreesView<'t, A>
    ensures { trees result ≡ after_rules kind (trees tokens.entry) }
{
    match kind {
        DelimiterKind::Brace => tokens,
        DelimiterKind::Parenthesis | DelimiterKind::Bracket | DelimiterKind::Invisible => {
            after_char(tokens, ';').unwrap_or(tokens)
        }
    }
}

// Returns the definition `macro_rules! name` whose group of rules is at the front.
fn macro_rules_with_name<'t, A: Allocator>(
    name: &'t Ident<A>,
    tokens: TokenTreesView<'t, A>,
) -> Option<MacroDefinition<'t, A>>
    ensures { option_map macro_definition_shown result
        ≡ macro_rules_with_name (ident_of name.now) (trees tokens.entry) }
{
    let mut iter = tokens.iter();
    let (group, content) = iter.expect_subtree().ok()?;
    Some(MacroDefinition {
        name,
        form: DefinitionForm::Rules,
        group,
        rules: content.remaining(),
        rest: after_rules(group.delimiter.kind, iter.remaining()),
    })
}

// Reads the definition from the trees after `macro_rules`.
fn macro_rules_definition<'t, A: Allocator>(
    tokens: TokenTreesView<'t, A>,
) -> Option<MacroDefinition<'t, A>>
    ensures { option_map macro_definition_shown result
        ≡ macro_rules_definition (trees tokens.entry) }
{
    let mut iter = after_char(tokens, '!')?.iter();
    let name = iter.expect_ident().ok()?;
    macro_rules_with_name(name, iter.remaining())
}

// Returns the definition by `pattern` and the template at the front.
fn macro_item_with_template<'t, A: Allocator>(
    name: &'t Ident<A>,
    group: &'t Subtree,
    pattern: TokenTreesView<'t, A>,
    tokens: TokenTreesView<'t, A>,
) -> Option<MacroDefinition<'t, A>>
    ensures { option_map macro_definition_shown result
        ≡ macro_item_with_template (ident_of name.now)
        group.now.delimiter (trees pattern.entry) (trees tokens.entry) }
{
    let mut iter = tokens.iter();
    let (body, template) = iter.expect_subtree().ok()?;
    Some(MacroDefinition {
        name,
        form: DefinitionForm::Arguments(group, pattern),
        group: body,
        rules: template.remaining(),
        rest: iter.remaining(),
    })
}

// Returns the definition by `group`. Braces hold rules. Any other group is a pattern, and its
// template follows it.
fn macro_item_with_group<'t, A: Allocator>(
    name: &'t Ident<A>,
    group: &'t Subtree,
    inside: TokenTreesView<'t, A>,
    tokens: TokenTreesView<'t, A>,
) -> Option<MacroDefinition<'t, A>>
    ensures { option_map macro_definition_shown result ≡ macro_item_with_group (ident_of name.now)
        group.now.delimiter.kind group.now.delimiter (trees inside.entry) (trees tokens.entry) }
{
    match group.delimiter.kind {
        DelimiterKind::Brace => Some(MacroDefinition {
            name,
            form: DefinitionForm::Body,
            group,
            rules: inside,
            rest: tokens,
        }),
        DelimiterKind::Parenthesis | DelimiterKind::Bracket | DelimiterKind::Invisible => {
            macro_item_with_template(name, group, inside, tokens)
        }
    }
}

// Returns the definition `macro name` whose group is at the front.
fn macro_item_with_name<'t, A: Allocator>(
    name: &'t Ident<A>,
    tokens: TokenTreesView<'t, A>,
) -> Option<MacroDefinition<'t, A>>
    ensures { option_map macro_definition_shown result
        ≡ macro_item_with_name (ident_of name.now) (trees tokens.entry) }
{
    let mut iter = tokens.iter();
    let (group, inside) = iter.expect_subtree().ok()?;
    macro_item_with_group(name, group, inside.remaining(), iter.remaining())
}

// Reads the definition from the trees after `macro`.
fn macro_item_definition<'t, A: Allocator>(
    tokens: TokenTreesView<'t, A>,
) -> Option<MacroDefinition<'t, A>>
    ensures { option_map macro_definition_shown result
        ≡ macro_item_definition (trees tokens.entry) }
{
    let mut iter = tokens.iter();
    let name = iter.expect_ident().ok()?;
    macro_item_with_name(name, iter.remaining())
}

// Reads the definition from the trees after the keyword `word`.
fn definition_by_keyword<'t, A: Allocator>(
    word: &str,
    tokens: TokenTreesView<'t, A>,
) -> Option<MacroDefinition<'t, A>>
    ensures { option_map macro_definition_shown result
        ≡ definition_by_keyword word.now (trees tokens.entry) }
{
    if word == "macro_rules" {
        macro_rules_definition(tokens)
    } else if word == "macro" {
        macro_item_definition(tokens)
    } else {
        None
    }
}

// Returns the definition at the front.
fn definition_of<'t, A: Allocator>(tokens: TokenTreesView<'t, A>) -> Option<MacroDefinition<'t, A>>
    ensures { option_map macro_definition_shown result ≡ definition_of (trees tokens.entry) }
{
    let mut iter = tokens.iter();
    let word = iter.expect_ident().ok()?;
    match word.is_raw {
        IdentIsRaw::Yes => None,
        IdentIsRaw::No => definition_by_keyword(word.sym.as_str(), iter.remaining()),
    }
}

/// Returns the front of these trees: a definition if one is there, else a call, else any other
/// tree.
pub fn front_of<'t, A: Allocator>(tokens: TokenTreesView<'t, A>) -> FrontItem<'t, A>
    ensures { front_item_shown result ≡ front (trees tokens.entry) }
{
    if let Some(defined) = definition_of(tokens) {
        return FrontItem::Definition(defined);
    }
    if let Some(call) = call_of(tokens) {
        return FrontItem::MacroCall(call);
    }
    let mut iter = tokens.iter();
    match iter.next() {
        Some(tree) => FrontItem::Tree(tree, iter.remaining()),
        None => FrontItem::End,
    }
}

/// Returns the name of the attribute `#[name ..]` at the front.
pub fn attribute_at<'t, A: Allocator>(tokens: TokenTreesView<'t, A>) -> Option<&'t str>
    ensures { option_map (λ s. s.now) result ≡ attribute_of (trees tokens.entry) }
{
    let mut iter = after_char(tokens, '#')?.iter();
    let (group, content) = iter.expect_subtree().ok()?;
    name_in(group.delimiter.kind, content.remaining())
}

// Returns the name at the front of a bracket group's content. Other kinds of groups have none.
fn name_in<'t, A: Allocator>(kind: DelimiterKind, content: TokenTreesView<'t, A>) -> Option<&'t str>
    ensures { option_map (λ s. s.now) result ≡ name_in kind (trees content.entry) }
{
    match kind {
        DelimiterKind::Bracket => {
            let name = content.iter().expect_ident().ok()?;
            Some(name.sym.as_str())
        }
        DelimiterKind::Parenthesis | DelimiterKind::Brace | DelimiterKind::Invisible => None,
    }
}

/// Returns whether an operator is at the front. It would take a part of what is beside it as its
/// operand.
pub fn begins_with_operator<A: Allocator>(tokens: TokenTreesView<'_, A>) -> bool
    ensures { result ≡ begins_with_operator (trees tokens.entry) }
{
    let mut iter = tokens.iter();
    match iter.next() {
        Some(TtElement::Leaf(Leaf::Punct(punct))) => {
            is_operator(punct.char)
                || (punct.char == '=' && after_char(iter.remaining(), '=').is_some())
        }
        Some(TtElement::Leaf(Leaf::Ident(ident))) => ident.sym.as_str() == "as",
        Some(TtElement::Leaf(Leaf::Literal(_)) | TtElement::Subtree(..)) | None => false,
    }
}

// Returns whether an operator other than `==` begins with `char`.
fn is_operator(char: char) -> bool
    ensures { result ≡ is_operator char }
{
    matches!(
        char,
        '+' | '-' | '*' | '/' | '%' | '^' | '&' | '|' | '<' | '>' | '.' | '?' | '!'
    )
}
