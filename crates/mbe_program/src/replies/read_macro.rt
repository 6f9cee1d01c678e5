// A definition that is read once and expands many arguments. It borrows the text of its grammar.
ghost use Rattle.std.specs.Prelude.{◌≡◌, None, IfErr, IfOk};
ghost use Rattle.mbe.specs.MacroViews.{macro_of};
ghost use Rattle.mbe_program.specs.declared.replies.request_codes.GrammarKind.TheVariants as grammars;
ghost use Rattle.mbe_program.specs.Replies.Answers.{answer_of, IsNoGrammar, OrOutOfMemory};
ghost use Rattle.mbe_program.specs.Replies.Requests.{IsNoResult, source_of};

use crate::replies::answer::{Answer, RequestPart, Status};
use crate::replies::flat::flat_token::{FlatSpan, span_of};
use crate::replies::request_codes::GrammarKind;
use crate::replies::requests::{
    Input, Request, RequestSettings, expansion_shown, read_rules, settings_of, trees,
};
use crate::tree_expansion::{defined, expand_with};
use mbe::DeclarativeMacro;
use mbe_grammar::SampleGrammar;
use mbe_grammar::peg::peg_grammar::PegGrammar;
use mbe_grammar::rust::rust_rules::rust_rules;
use mbe_grammar::tables::peg_table::RuleTable;
use mbe_tt::grammar::FragmentGrammar;
use mbe_tt::span::Span;
use mbe_tt::tt::TopSubtree;
use std::alloc::{AllocError, Allocator};

/// A grammar of fragments that was read, or needs no reading.
#[derive(Drop)]
pub enum Fragments<'t, A: Allocator> {
    Sample,
    /// Rust's grammar, in the edition of the request.
    Rust(RuleTable<'t>),
    /// The rules of the caller's text.
    Text(PegGrammar<'t, A>),
}

impl<'t, A: Allocator + Copy> Fragments<'t, A> {
    ghost use Rattle.mbe_program.specs.Replies.ReadMacros.{AreFragments};

    /// Reads the grammar of the request; `text` is read if the request asks for it.
    pub fn read(
        alloc: A,
        asked: RequestSettings,
        text: &'t [u8],
    ) -> Result<Fragments<'t, A>, Answer<A>>
        ensures read { IfOk result (AreFragments asked text.now) }
        ensures asked { IfErr result (λ _. asked.grammar ≡ grammars.Text) }
        ensures fails { IfErr result (λ a. IsNoGrammar text.now (answer_of a)) }
    {
        match asked.grammar {
            GrammarKind::Sample => Ok(Fragments::Sample),
            GrammarKind::Rust => Ok(Fragments::Rust(rust_rules(asked.edition, &[]))),
            GrammarKind::Text => match read_rules(alloc, text) {
                Ok(rules) => Ok(Fragments::Text(rules)),
                Err(answer) => Err(answer),
            },
        }
    }
}

/// Rules that were read without an error.
#[derive(Drop)]
pub struct CheckedRules<A: Allocator> {
    pub rules: DeclarativeMacro<A>,
    ghost faultless: { (macro_of rules).err ≡ None },
}

/// A definition that was read without an error, with the settings of its request and the grammar of
/// its fragments.
#[derive(Drop)]
pub struct ReadMacro<'t, A: Allocator> {
    pub asked: RequestSettings,
    pub fragments: Fragments<'t, A>,
    pub read: CheckedRules<A>,
}

/// The same as `ReadMacro`, with the grammar and the rules borrowed, so that a kept macro expands
/// without a copy.
#[derive(Drop)]
pub struct BorrowedMacro<'m, 't, A: Allocator> {
    pub asked: RequestSettings,
    pub fragments: &'m Fragments<'t, A>,
    pub read: &'m CheckedRules<A>,
}

impl<A: Allocator + Copy> BorrowedMacro<'_, '_, A> {
    ghost use Rattle.mbe_program.specs.Replies.ReadMacros as spec;

    // Expands an argument by that grammar. `AllocError` if out of memory.
    fn expansion<G: FragmentGrammar>(
        &self,
        alloc: A,
        grammar: &G,
        argument: &TopSubtree<A>,
        call_site: Span,
    ) -> Result<Answer<A>, AllocError>
        ensures { IfOk result (λ a. spec.IsExpansionOf (G.grammar grammar.now)
            (spec.borrowed self.now) argument.now call_site (answer_of a)) }
    {
        let RequestSettings { style, form, .. } = self.asked;
        let rules = &self.read.rules;
        let expansion = expand_with(alloc, grammar, rules, argument, style, call_site)?;
        expansion_shown(alloc, form, &expansion)
    }

    // Expands an argument by that grammar. Out of memory is an answer, too.
    fn expand_by<G: FragmentGrammar>(
        &self,
        alloc: A,
        grammar: &G,
        argument: &TopSubtree<A>,
        call_site: Span,
    ) -> Answer<A>
        ensures { OrOutOfMemory (spec.IsExpansionOf (G.grammar grammar.now) (spec.borrowed self.now)
            argument.now call_site) (answer_of result) }
    {
        match self.expansion(alloc, grammar, argument, call_site) {
            Ok(answer) => answer,
            Err(_) => Answer::empty(alloc, Status::OutOfMemory, RequestPart::None),
        }
    }

    /// Expands an argument of trees, in a call at that span.
    pub fn expand_trees(&self, alloc: A, argument: &TopSubtree<A>, call_site: Span) -> Answer<A>
        ensures { spec.AnswersTreesBy (spec.borrowed self.now) argument.now call_site
            (answer_of result) }
    {
        match self.fragments {
            Fragments::Sample => self.expand_by(alloc, &SampleGrammar, argument, call_site),
            Fragments::Rust(table) => self.expand_by(alloc, table, argument, call_site),
            Fragments::Text(rules) => {
                let table = rules.table(self.asked.edition, &[]);
                self.expand_by(alloc, &table, argument, call_site)
            }
        }
    }

    /// Expands an argument, in a call at that span.
    pub fn expand(&self, alloc: A, argument: Input<'_>, call_site: FlatSpan) -> Answer<A>
        ensures { spec.AnswersBy (spec.borrowed self.now) (source_of argument.entry) call_site
            (answer_of result) }
    {
        match trees(alloc, self.asked.dialect, argument) {
            Ok(argument) => self.expand_trees(alloc, &argument, span_of(call_site)),
            Err(answer) => answer,
        }
    }
}

impl<'t, A: Allocator + Copy> ReadMacro<'t, A> {
    ghost use Rattle.mbe_program.specs.Replies.ReadMacros as spec;

    /// Reads a definition of trees. It reads the text of the grammar first, if the request asks for
    /// it.
    pub fn of_trees(
        alloc: A,
        asked: RequestSettings,
        grammar: &'t [u8],
        definition: &TopSubtree<A>,
    ) -> Result<ReadMacro<'t, A>, Answer<A>>
        ensures asked { IfOk result (λ m. m.asked ≡ asked) }
        ensures read { IfOk result (spec.IsMacroOf grammar.now definition.now) }
        ensures fails { IfErr result (λ a. IsNoResult asked grammar.now definition.now
            (answer_of a)) }
    {
        let fragments = match Fragments::read(alloc, asked, grammar) {
            Ok(fragments) => fragments,
            Err(answer) => return Err(answer),
        };
        match defined(alloc, definition, asked.edition) {
            Ok(rules) => Ok(ReadMacro {
                asked,
                fragments,
                read: CheckedRules { rules },
            }),
            Err(error) => Err(Answer::unread(alloc, &error)),
        }
    }

    /// Reads a definition. It reads the definition's trees first, then the text of the grammar,
    /// then the rules. A text is lexed as file 0.
    pub fn read(
        alloc: A,
        request: &Request,
        grammar: &'t [u8],
        definition: Input<'_>,
    ) -> Result<ReadMacro<'t, A>, Answer<A>>
        ensures read { IfOk result (spec.IsMacro request.now grammar.now
            (source_of definition.entry)) }
        ensures fails { IfErr result (λ a. spec.IsUnread request.now grammar.now
            (source_of definition.entry) (answer_of a)) }
    {
        let Some(asked) = settings_of(request) else {
            return Err(Answer::empty(alloc, Status::Number, RequestPart::None));
        };
        match trees(alloc, asked.dialect, definition) {
            Ok(definition) => ReadMacro::of_trees(alloc, asked, grammar, &definition),
            Err(answer) => Err(answer),
        }
    }

    // Borrows the macro, with the settings of its request.
    fn borrowed(&self) -> BorrowedMacro<'_, 't, A>
        ensures { spec.borrowed result ≡ self.now }
    {
        BorrowedMacro {
            asked: self.asked,
            fragments: &self.fragments,
            read: &self.read,
        }
    }

    /// Expands an argument of trees, in a call at that span.
    pub fn expand_trees(&self, alloc: A, argument: &TopSubtree<A>, call_site: Span) -> Answer<A>
        ensures { spec.AnswersTreesBy self.now argument.now call_site (answer_of result) }
    {
        self.borrowed().expand_trees(alloc, argument, call_site)
    }

    /// Expands an argument, in a call at that span. The answer is that of `requests::expand` to the
    /// macro's request, with this call site.
    pub fn expand(&self, alloc: A, argument: Input<'_>, call_site: FlatSpan) -> Answer<A>
        ensures { spec.AnswersBy self.now (source_of argument.entry) call_site (answer_of result) }
    {
        self.borrowed().expand(alloc, argument, call_site)
    }
}
