// Calls: an expansion, its error, and the spans of its tokens.
ghost use Rattle.std.specs.Prelude.{◌<◌, ◌^◌, length};

use mbe::{DeclarativeMacro, ExpandResult, MacroCallStyle, MatchedArmIndex, ParseError};
use mbe_grammar::SampleGrammar;
use mbe_text::lexer::lex;
use mbe_text::tree_dump::{DisplaySpan, print_tree};
use mbe_tt::span::{Edition, Span, SyntaxContext};
use mbe_tt::tt::TopSubtree;
use std::alloc::{AllocError, Allocator, Global};

/// The definition of these rules.
pub fn read(alloc: Global, rules: &str) -> anyhow::Result<DeclarativeMacro>
    requires { length rules.now < 2 ^ 32 }
{
    let rules = lex(alloc, rules, 0)?;
    let defined = DeclarativeMacro::parse_macro_rules(alloc, &rules, |_ctx| Edition::Edition2024)?;
    Ok(defined)
}

/// The result of a call: a tree and the index of its rule, beside an error or none.
pub type Expansion<A> = ExpandResult<(TopSubtree<A>, MatchedArmIndex), A>;

/// Expands a call by the rules that were read. `None` where a pattern was refused: then no call can
/// be expanded.
pub fn expand_call<A: Allocator + Copy>(
    alloc: A,
    defined: &DeclarativeMacro<A>,
    argument: &TopSubtree<A>,
) -> Result<Option<Expansion<A>>, AllocError> {
    if let Some(ParseError::RepetitionEmptyTokenTree) = defined.err() {
        return Ok(None);
    }
    let call_site = argument.top_subtree().delimiter.opening;
    let style = MacroCallStyle::FnLike;
    let expanded = defined.expand(alloc, &SampleGrammar, argument, |s| s, style, call_site)?;
    Ok(Some(expanded))
}

/// One line on an expansion: what is wrong, and where.
pub fn error_line(alloc: Global, expansion: &Expansion<Global>) -> Result<String, AllocError> {
    let Some(error) = &expansion.err else {
        return Ok(String::new(alloc));
    };
    let (span, kind) = &*error.inner;
    let place = DisplaySpan(*span);
    format!(in alloc; "{kind} at {place}")
}

/// The tree alone where all went well, or the error alone.
pub fn tree_or_error(alloc: Global, expansion: Expansion<Global>) -> anyhow::Result<String> {
    let (tree, _rule) = expansion.result()?;
    let mut out = Vec::new(alloc);
    print_tree(&tree, &mut out)?;
    Ok(String::from_utf8(out)?)
}

/// Expands a call of any style, and gives each token that the template writes the hygiene context
/// of this expansion.
pub fn expand_marked(
    alloc: Global,
    defined: &DeclarativeMacro,
    argument: &TopSubtree,
    style: MacroCallStyle,
    expansion: SyntaxContext,
) -> anyhow::Result<Expansion<Global>> {
    if let Some(error) = defined.err() {
        anyhow::bail!("{error}");
    }
    let call_site = argument.top_subtree().delimiter.opening;
    let marker = move |span: Span| Span {
        ctx: expansion,
        ..span
    };
    let expanded = defined.expand(alloc, &SampleGrammar, argument, marker, style, call_site)?;
    Ok(expanded)
}

pub mod tests {
    use super::{Expansion, error_line, expand_call, expand_marked, read, tree_or_error};
    use mbe::MacroCallStyle;
    use mbe_text::lexer::lex;
    use mbe_tt::span::{Span, SyntaxContext};
    use mbe_tt::tt::TopSubtree;
    use std::alloc::Global;
    use test_rows::rows;

    // Each row: rules, an argument, the index of the rule, the line of the error, and the printed
    // tree if there is no error.
    pub const CALLS: &str = rows![
        (
            "($x:ident) => {let $x}; ($x:ident $y:ident) => {$y}",
            "a",
            0,
            "",
            "SUBTREE $$ 1@0..1 1@0..1\n  IDENT   let 0@15..18\n  IDENT   a 1@0..1\n",
        ),
        (
            "($x:ident) => {let $x}; ($x:ident $y:ident) => {$y}",
            "a b",
            1,
            "",
            "SUBTREE $$ 1@0..3 1@0..3\n  IDENT   b 1@2..3\n",
        ),
        (
            "($x:ident) => {let $x}; ($x:ident $y:ident) => {$y}",
            "a 1",
            1,
            "expected ident at 1@2..3",
            ""
        ),
    ];

    /// Expands a call by these rules. `None` if it can't be expanded.
    pub fn expansion_of(alloc: Global, rules: &str, argument: &str) -> Option<Expansion<Global>> {
        if rules.len() > 1_000_000 || argument.len() > 1_000_000 {
            return None;
        }
        let defined = read(alloc, rules).ok()?;
        let argument = lex(alloc, argument, 1).ok()?;
        expand_call(alloc, &defined, &argument).ok()?
    }

    // Whether the expansion prints as `tree`. An empty text stands for an error.
    fn is_tree(alloc: Global, expansion: Expansion<Global>, tree: &str) -> bool {
        match tree_or_error(alloc, expansion) {
            Ok(printed) => printed.as_str() == tree,
            Err(_) => tree.is_empty(),
        }
    }

    /// Whether the call expands as the row says.
    pub fn is_expanded(
        alloc: Global,
        (rules, argument): (&str, &str),
        rule: &str,
        (line, tree): (&str, &str),
    ) -> Option<bool> {
        let expansion = expansion_of(alloc, rules, argument)?;
        let passes = expansion.value.1 == rule.parse::<u32>().ok()
            && error_line(alloc, &expansion).ok()?.as_str() == line
            && line.is_empty() != tree.is_empty();
        Some(passes && is_tree(alloc, expansion, tree))
    }

    pub fn expands_nothing(alloc: Global) -> Option<bool> {
        let defined = read(alloc, "($()*) => {}").ok()?;
        let argument = lex(alloc, "a", 1).ok()?;
        Some(matches!(expand_call(alloc, &defined, &argument), Ok(None)))
    }

    // Returns the spans of the first two trees.
    fn first_spans(tree: &TopSubtree) -> Option<(Span, Span)> {
        let mut trees = tree.iter();
        let first = trees.next_span()?;
        let _first = trees.next()?;
        Some((first, trees.next_span()?))
    }

    // The word of the template has the context of the expansion, and the one of the argument keeps
    // its own.
    pub fn is_marked(alloc: Global) -> Option<bool> {
        let defined = read(alloc, "($x:ident) => {let $x}").ok()?;
        let argument = lex(alloc, "a", 1).ok()?;
        let (style, context) = (MacroCallStyle::FnLike, SyntaxContext(5));
        let expansion = expand_marked(alloc, &defined, &argument, style, context).ok()?;
        let (word, taken) = first_spans(&expansion.value.0)?;
        Some(
            (word.file, word.start, word.ctx.0) == (0, 15, 5)
                && (taken.file, taken.start, taken.ctx.0) == (1, 0, 0),
        )
    }
}
