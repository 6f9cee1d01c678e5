// `Debug` texts: the derived text of every public type names the type or the variant, and holds its
// fields.
use crate::runs::defined;
use crate::trees::lexed;
use mbe::{
    Binding, BindingLog, Bindings, CountError, ExpandError, ExpandErrorKind, ExprKind, Fragment,
    MacroCallStyle, MacroCallStyles, MetaVarKind, ParseError, TokensOrigin, ValueResult,
};
use mbe_tt::grammar::{Front, PrefixEntryPoint};
use mbe_tt::span::{DelimSpan, Edition, Span, SyntaxContext};
use mbe_tt::symbol::Symbol;
use mbe_tt::tt::{
    Delimiter, DelimiterKind, Subtree, TokenTreesView, TopSubtree, TopSubtreeBuilder,
};
use std::alloc::{AllocError, Global};
use std::fmt::Debug;

fn has_parts(text: &str, parts: &[&str]) -> bool {
    for part in parts {
        if !text.contains(*part) {
            return false;
        }
    }
    true
}

// Whether all of the parts are in the value's `Debug` text. They aren't if there is no memory for
// it.
fn shows<T: Debug>(alloc: Global, value: &T, parts: &[&str]) -> bool {
    match format!(in alloc; "{value:?}") {
        Ok(text) => has_parts(text.as_str(), parts),
        Err(_) => false,
    }
}

const SPAN: Span = Span {
    file: 1,
    ast: 0,
    start: 2,
    end: 3,
    ctx: SyntaxContext(4),
};

const SPAN_TEXT: &str = "Span { file: 1, ast: 0, start: 2, end: 3, ctx: SyntaxContext(4) }";

// Checks the texts of spans, fronts and styles.
fn are_spans_shown(alloc: Global) -> bool {
    let front = Front {
        count: 5,
        fault: true,
    };
    let pair = DelimSpan::from_single(SPAN);
    let styles = (MacroCallStyle::Derive, MacroCallStyles::ATTR);
    let shown = (
        pair,
        front,
        Edition::Edition2021,
        PrefixEntryPoint::PatTop,
        styles,
    );
    let parts = [
        SPAN_TEXT,
        "DelimSpan { opening: Span {",
        "Front { count: 5, fault: true }",
        "Edition2021",
        "PatTop",
        "Derive",
        "MacroCallStyles(2)",
    ];
    shows(alloc, &shown, &parts)
}

// Checks the text of a tree that holds one group, and of what borrows from it.
fn are_trees_shown(alloc: Global) -> Result<bool, AllocError> {
    let tree = lexed(alloc, 0, "(a 1 +)")?;
    let mut iter = tree.iter();
    let view = iter.remaining();
    let next = iter.next();
    let shown = (
        &tree,
        &iter,
        view,
        view.cursor(),
        view.try_into_subtree(),
        next,
    );
    let parts = [
        "TopSubtree {",
        "Ident(Ident { sym: \"a\", span: Span {",
        "is_raw: No",
        "Literal(Literal { text_and_suffix: \"1\", suffix_len: 0, kind: Integer",
        "Punct(Punct { char: '+', spacing: Alone",
        "TtIter {",
        "TokenTreesView {",
        "Cursor {",
        "SubtreeView",
        "Subtree(",
    ];
    Ok(shows(alloc, &shown, &parts))
}

// Checks the texts of groups, builders and macros.
fn are_groups_shown(alloc: Global) -> Result<bool, AllocError> {
    let subtree = Subtree {
        delimiter: Delimiter {
            kind: DelimiterKind::Brace,
            ..Delimiter::invisible_spanned(SPAN)
        },
    };
    let builder = TopSubtreeBuilder::new(alloc, subtree.delimiter)?;
    let rules = defined(alloc, "attr() ($(a),*) => {}")?;
    let parts = [
        "Subtree { delimiter: Delimiter { opening: Span {",
        "kind: Brace",
        "TopSubtreeBuilder {",
        "DeclarativeMacro {",
        "style: Attr",
    ];
    Ok(shows(alloc, &(subtree, builder, rules), &parts))
}

// Checks the texts of a result's copy, and of the copy of a definition's error.
fn are_results_shown(alloc: Global) -> Result<bool, AllocError> {
    let result: ValueResult<u32, CountError> = ValueResult::new(6, CountError::Misplaced);
    let parse: ParseError = ParseError::Expected(String::from_str(alloc, "b")?);
    let parts = [
        "ValueResult { value: 6, err: Some(Misplaced) }",
        "Expected(\"b\")",
    ];
    let copies = (result.try_clone()?, parse.try_clone(alloc)?);
    Ok(shows(alloc, &copies, &parts))
}

// Checks the texts of a call's error, and of a copy of its kind.
fn are_errors_shown(alloc: Global) -> Result<bool, AllocError> {
    let kind: ExpandErrorKind = ExpandErrorKind::BindingError(String::from_str(alloc, "c")?);
    let parts = ["BindingError(\"c\")", "ExpandError { inner: (Span {"];
    let copy = kind.try_clone(alloc)?;
    let error: ExpandError = ExpandError::new(alloc, SPAN, kind)?;
    Ok(shows(alloc, &(copy, error), &parts))
}

// Checks the texts of a handle that has bound the name to the tree, and of what is built from it.
fn is_bound_shown<'a>(
    alloc: Global,
    log: &mut BindingLog<'a>,
    name: &Symbol,
    tree: TokenTreesView<'a>,
) -> Result<bool, AllocError> {
    let fragment = Fragment::Tokens {
        tree,
        origin: TokensOrigin::Raw,
    };
    let mut handle = log.alloc()?;
    log.push_fragment(&mut handle, name, fragment)?;
    let bindings = Bindings::build(log, &handle)?;
    let missing: Binding = Binding::Missing(MetaVarKind::Expr(ExprKind::Expr2021));
    let parts = [
        "Handle {",
        "\"x\"",
        "Fragment(Tokens {",
        "origin: Raw",
        "Missing(Expr(Expr2021))",
    ];
    Ok(shows(alloc, &(handle, bindings, missing), &parts))
}

// Checks the texts of bindings.
fn are_bindings_shown(alloc: Global) -> Result<bool, AllocError> {
    let name = Symbol::intern(alloc, "x")?;
    let tree = lexed(alloc, 0, "d")?;
    let mut log = BindingLog::new(alloc);
    is_bound_shown(alloc, &mut log, &name, tree.view())
}

/// Checks all of these texts.
pub fn are_shown(alloc: Global) -> Result<bool, AllocError> {
    Ok(
        are_spans_shown(alloc)
            && are_trees_shown(alloc)?
            && are_groups_shown(alloc)?
            && are_results_shown(alloc)?
            && are_errors_shown(alloc)?
            && are_bindings_shown(alloc)?,
    )
}
