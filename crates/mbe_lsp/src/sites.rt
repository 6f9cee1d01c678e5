// Finds the definitions and the calls of macros in files, and their tokens.
//
// Offsets are bytes of the texts that editors have, with their carriage returns.
use mbe_answers::findings::{CallSite, DefinitionSite, Extent, RuleSite, TokenKind, TokenSite};
use mbe_diagnostics::lints::definitions::definitions;
use mbe_rewriter::macro_items::{
    DefinitionForm, FrontItem, MacroCall, MacroDefinition, front_of, is_standard_macro,
};
use mbe_session::source_files::SourceFile;
use mbe_text::dialect::Dialect;
use mbe_text::lexer::{LexError, lex_dialect_with_table};
use mbe_text::symbol_table::SymbolTable;
use mbe_tt::span::{Edition, Span};
use mbe_tt::tt::{Subtree, TokenTreesView, TopSubtree, TtElement, TtIter};
use std::alloc::{AllocError, Global};

/// A file whose sites are looked for, and its number.
#[derive(Clone, Copy, Drop)]
pub struct NumberedFile<'s> {
    pub file: &'s SourceFile<'s>,
    pub number: usize,
}

impl NumberedFile<'_> {
    // Returns the bytes from the start of one span up to the end of another.
    fn extent(self, from: Span, to: Span) -> Extent {
        Extent {
            start: self.file.lines.place(from.start as usize),
            end: self.file.lines.place(to.end as usize),
        }
    }

    // Returns the rule of a pattern and a template.
    fn rule(self, pattern: &Subtree, template: &Subtree) -> RuleSite {
        let first = pattern.delimiter;
        RuleSite {
            pattern: self.extent(first.opening, first.close),
            whole: self.extent(first.opening, template.delimiter.close),
        }
    }

    // Adds the rules that begin with each pattern of these trees. What is no rule is skipped.
    fn add_rules(
        self,
        found: &mut Vec<RuleSite>,
        trees: TokenTreesView<'_>,
    ) -> Result<(), AllocError> {
        let mut iter = trees.iter();
        for _ in 0..trees.flat_len() {
            match rule_at(&mut iter) {
                RuleStep::Rule(pattern, template) => found.push(self.rule(pattern, template))?,
                RuleStep::Other => {}
                RuleStep::End => break,
            }
        }
        Ok(())
    }

    // Returns where the rules of a definition are.
    fn rules(
        self,
        alloc: Global,
        defined: MacroDefinition<'_>,
    ) -> Result<Vec<RuleSite>, AllocError> {
        let mut found = Vec::new(alloc);
        match defined.form {
            DefinitionForm::Rules | DefinitionForm::Body => {
                self.add_rules(&mut found, defined.rules)?;
            }
            DefinitionForm::Arguments(pattern, _) => {
                found.push(self.rule(pattern, defined.group))?;
            }
        }
        Ok(found)
    }

    /// Adds the definitions of the file. `AllocError` if out of memory.
    pub fn add_definitions(
        self,
        alloc: Global,
        found: &mut Vec<DefinitionSite>,
    ) -> Result<(), AllocError> {
        let Some(tree) = &self.file.tree else {
            return Ok(());
        };
        for defined in definitions(alloc, tree.iter().remaining())? {
            let name = defined.name;
            found.push(DefinitionSite {
                file: self.number,
                name: String::from_str(alloc, name.sym.as_str())?,
                name_at: self.extent(name.span, name.span),
                whole: self.extent(name.span, defined.group.delimiter.close),
                rules: self.rules(alloc, defined)?,
            })?;
        }
        Ok(())
    }

    /// Adds the calls of the file, in the order of the text. `AllocError` if out of memory.
    pub fn add_calls(self, alloc: Global, found: &mut Vec<CallSite>) -> Result<(), AllocError> {
        let Some(tree) = &self.file.tree else {
            return Ok(());
        };
        // What is still to be looked at; the last comes first.
        let mut pending = vec![in alloc; tree.iter().remaining()]?;
        for _ in 0..u64::MAX {
            let Some(rest) = pending.pop() else {
                break;
            };
            self.add_front(alloc, found, &mut pending, rest)?;
        }
        Ok(())
    }

    // Adds the call at the front of these trees, if one is there. What comes after the front, and
    // what is in it, becomes pending.
    fn add_front<'t>(
        self,
        alloc: Global,
        found: &mut Vec<CallSite>,
        pending: &mut Vec<TokenTreesView<'t>>,
        trees: TokenTreesView<'t>,
    ) -> Result<(), AllocError> {
        match front_of(trees) {
            FrontItem::End => {}
            FrontItem::Definition(defined) => pending.push(defined.rest)?,
            FrontItem::MacroCall(call) => {
                pending.push(call.rest)?;
                if is_standard_macro(call.name.sym.as_str()) {
                    pending.push(call.argument)?;
                }
                found.push(self.call(alloc, call)?)?;
            }
            FrontItem::Tree(tree, after) => {
                pending.push(after)?;
                if let TtElement::Subtree(_, inside) = tree {
                    pending.push(inside.remaining())?;
                }
            }
        }
        Ok(())
    }

    /// Adds the tokens of the file, in the order of the text, with those of disabled code.
    /// `AllocError` if out of memory.
    pub fn add_tokens(
        self,
        alloc: Global,
        edition: Edition,
        found: &mut Vec<TokenSite>,
    ) -> Result<(), AllocError> {
        let Some(tree) = self.whole_tree(alloc, edition)? else {
            return Ok(());
        };
        self.add_tokens_of(alloc, &tree, found)
    }

    // Lexes the file anew, since its trees are without disabled code. `None` if it isn't Rust.
    fn whole_tree(self, alloc: Global, edition: Edition) -> Result<Option<TopSubtree>, AllocError> {
        let text = self.file.lines.text.as_str();
        if text.len() > u32::MAX as usize {
            return Ok(None);
        }
        let mut symbols = SymbolTable::new(alloc);
        match lex_dialect_with_table(&mut symbols, Dialect::Rust(edition), text, 0) {
            Ok(tree) => Ok(Some(tree)),
            Err(LexError::Fault(_)) => Ok(None),
            Err(LexError::OutOfMemory) => Err(AllocError),
        }
    }

    // Adds the tokens of a tree.
    fn add_tokens_of(
        self,
        alloc: Global,
        tree: &TopSubtree,
        found: &mut Vec<TokenSite>,
    ) -> Result<(), AllocError> {
        // What is still to be looked at; the last comes first.
        let mut pending = vec![in alloc; Pending::Trees(tree.iter().remaining())]?;
        for _ in 0..u64::MAX {
            match pending.pop() {
                Some(Pending::Trees(trees)) => self.add_first(found, &mut pending, trees)?,
                Some(Pending::Closing(span)) => {
                    found.push(self.token(span, TokenKind::Closing))?;
                }
                None => break,
            }
        }
        Ok(())
    }

    // Adds the first token of these trees. What comes after it becomes pending.
    fn add_first<'t>(
        self,
        found: &mut Vec<TokenSite>,
        pending: &mut Vec<Pending<'t>>,
        trees: TokenTreesView<'t>,
    ) -> Result<(), AllocError> {
        let mut iter = trees.iter();
        match iter.next() {
            Some(TtElement::Leaf(leaf)) => {
                found.push(self.token(leaf.span(), TokenKind::Leaf))?;
                pending.push(Pending::Trees(iter.remaining()))?;
            }
            Some(TtElement::Subtree(group, inside)) => {
                found.push(self.token(group.delimiter.opening, TokenKind::Opening))?;
                pending.push(Pending::Trees(iter.remaining()))?;
                pending.push(Pending::Closing(group.delimiter.close))?;
                pending.push(Pending::Trees(inside.remaining()))?;
            }
            None => {}
        }
        Ok(())
    }

    // Returns the token at a span.
    fn token(self, span: Span, kind: TokenKind) -> TokenSite {
        TokenSite {
            file: self.number,
            extent: self.extent(span, span),
            kind,
        }
    }

    // Returns where a call is.
    fn call(self, alloc: Global, call: MacroCall<'_>) -> Result<CallSite, AllocError> {
        Ok(CallSite {
            file: self.number,
            name: String::from_str(alloc, call.name.sym.as_str())?,
            name_at: self.extent(call.name.span, call.name.span),
            whole: self.extent(call.start, call.group.delimiter.close),
        })
    }
}

// What is still to be looked at for tokens: trees, or the closing of a group.
#[derive(Drop)]
enum Pending<'t> {
    Trees(TokenTreesView<'t>),
    Closing(Span),
}

// What is at the front of the rules of a definition.
#[derive(Drop)]
enum RuleStep<'t> {
    Rule(&'t Subtree, &'t Subtree),
    Other,
    End,
}

// Takes a rule from the front, or else one tree.
fn rule_at<'t>(iter: &mut TtIter<'t>) -> RuleStep<'t> {
    let Some(TtElement::Subtree(pattern, _)) = iter.peek() else {
        return match iter.next() {
            Some(_) => RuleStep::Other,
            None => RuleStep::End,
        };
    };
    let _ = iter.next();
    if iter.expect_char('=').is_err() || iter.expect_char('>').is_err() {
        return RuleStep::Other;
    }
    match iter.expect_subtree() {
        Ok((template, _)) => RuleStep::Rule(pattern, template),
        Err(_) => RuleStep::Other,
    }
}
