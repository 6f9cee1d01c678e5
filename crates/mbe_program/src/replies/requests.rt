// The functions that answer a request: `expand`, `explain`, `convert`, `define` and
// `check_grammar`.
ghost use Rattle.std.specs.Prelude.{◌≡◌, map, Ok, IfErr, IfNone, IfOk, IfSome, OnOk};
ghost use Rattle.mbe_ops.specs.Errors.ErrorViews.{errors_of};
ghost use Rattle.mbe_matcher.specs.MatchResults.{verdict_seen};
ghost use Rattle.mbe_grammar.specs.Peg.Grammar.{read_text};
ghost use Rattle.mbe_grammar.specs.Peg.Views.{grammar_model};
ghost use Rattle.mbe_text.specs.TreeDump.{tree_text};
ghost use Rattle.mbe_program.specs.Replies.Answers.{answer_of, IsNoGrammar, IsNoText};
ghost use Rattle.mbe_program.specs.Replies.Answers as answers;
ghost use Rattle.mbe_program.specs.Replies.Requests.{AreRequestSettings, AreTreesOf, HasNoTrees};
ghost use Rattle.mbe_program.specs.Replies.Requests.{IsText, source_of};
ghost use Rattle.mbe_program.specs.Replies.Requests as spec;

use crate::replies::answer::{Answer, RequestPart, Status, error_span, error_text};
use crate::replies::flat::decoder::trees_of;
use crate::replies::flat::encoder::flat_trees;
use crate::replies::flat::flat_token::{FlatSpan, FlatToken, span_of};
use crate::replies::read_macro::ReadMacro;
use crate::replies::request_codes::{
    GrammarKind, TreeForm, dialect_of, edition_of, form_of, grammar_of, style_of,
};
use crate::tree_expansion::{Expansion, defined, explain_with};
use mbe::{MacroCallStyle, Verdict};
use mbe_grammar::SampleGrammar;
use mbe_grammar::peg::peg_grammar::PegGrammar;
use mbe_grammar::rust::rust_rules::rust_rules;
use mbe_text::dialect::Dialect;
use mbe_text::lexer::{LexError, lex_dialect};
use mbe_text::rust_printer::RustPrinter;
use mbe_text::tree_dump::print_tree;
use mbe_tt::grammar::FragmentGrammar;
use mbe_tt::span::{Edition, Span};
use mbe_tt::tt::TopSubtree;
use std::alloc::{AllocError, Allocator};

/// A request in numbers. The module `request_codes` says what they stand for.
#[repr(C)]
#[derive(Clone, Copy, Default, Drop)]
pub struct Request {
    pub edition: u32,
    pub dialect: u32,
    pub grammar: u32,
    pub style: u32,
    pub form: u32,
    /// 1 if the definition is flat tokens with their text, 0 if it is a text to lex.
    pub definition_is_flat: u32,
    /// 1 if the argument, or the only input, is flat tokens with their text, 0 if it is a text to
    /// lex.
    pub argument_is_flat: u32,
    pub call_site: FlatSpan,
}

/// An input: a text, or flat tokens with their text.
#[derive(Clone, Copy)]
pub struct Input<'a> {
    pub text: &'a [u8],
    pub tokens: &'a [FlatToken],
    pub is_flat: u32,
    pub part: RequestPart,
    /// The number of the file, in the spans of a text that is lexed.
    pub file: u32,
}

// Returns the text of an input. The error is that it has 2^32 bytes or more, or isn't UTF-8.
fn short_text<'a, A: Allocator + Copy>(
    alloc: A,
    text: &'a [u8],
    part: RequestPart,
) -> Result<&'a str, Answer<A>>
    ensures text { IfOk result (λ s. IsText s.now) }
    ensures same { IfOk result (λ s. s.now ≡ text.now) }
    ensures fails { IfErr result (λ a. IsNoText part text.now (answer_of a)) }
{
    if text.len() > u32::MAX as usize {
        return Err(Answer::empty(alloc, Status::TooLong, part));
    }
    match str::from_utf8(text) {
        Ok(text) => Ok(text),
        Err(_) => Err(Answer::empty(alloc, Status::Utf8, part)),
    }
}

// Lexes the text of an input.
fn lexed<A: Allocator + Copy>(
    alloc: A,
    dialect: Dialect,
    input: Input<'_>,
) -> Result<TopSubtree<A>, Answer<A>>
    ensures lexes { input.entry.is_flat ≡ 0
        → IfOk result (AreTreesOf dialect (source_of input.entry)) }
    ensures fails { input.entry.is_flat ≡ 0
        → IfErr result (λ a. HasNoTrees dialect (source_of input.entry) (answer_of a)) }
{
    let text = short_text(alloc, input.text, input.part)?;
    match lex_dialect(alloc, dialect, text, input.file) {
        Ok(tree) => Ok(tree),
        Err(LexError::Fault(fault)) => Err(Answer::unlexed(alloc, input.part, fault)),
        Err(LexError::OutOfMemory) => Err(Answer::empty(alloc, Status::OutOfMemory, input.part)),
    }
}

// Decodes the flat tokens of an input.
fn decode_input<A: Allocator + Copy>(
    alloc: A,
    dialect: Dialect,
    input: Input<'_>,
) -> Result<TopSubtree<A>, Answer<A>>
    ensures reads { input.entry.is_flat ≡ 1
        → IfOk result (AreTreesOf dialect (source_of input.entry)) }
    ensures fails { input.entry.is_flat ≡ 1
        → IfErr result (λ a. HasNoTrees dialect (source_of input.entry) (answer_of a)) }
{
    match trees_of(alloc, input.tokens, input.text) {
        Ok(tree) => Ok(tree),
        Err(error) => Err(Answer::invalid_tokens(alloc, input.part, error)),
    }
}

// Returns the trees of an input, a text or flat tokens.
pub(crate) fn trees<A: Allocator + Copy>(
    alloc: A,
    dialect: Dialect,
    input: Input<'_>,
) -> Result<TopSubtree<A>, Answer<A>>
    ensures trees { IfOk result (AreTreesOf dialect (source_of input.entry)) }
    ensures fails { IfErr result (λ a. HasNoTrees dialect (source_of input.entry) (answer_of a)) }
{
    match input.is_flat {
        0 => lexed(alloc, dialect, input),
        1 => decode_input(alloc, dialect, input),
        _ => Err(Answer::empty(alloc, Status::Number, input.part)),
    }
}

// Puts a tree into an answer, in that form.
fn show<A: Allocator + Copy>(
    alloc: A,
    answer: &mut Answer<A>,
    form: TreeForm,
    tree: &TopSubtree<A>,
) -> Result<(), AllocError>
    ensures { OnOk result (answer_of answer.new
        ≡ spec.with_tree form tree.now (answer_of answer.old)) }
{
    match form {
        TreeForm::Tokens => {
            let flat = flat_trees(alloc, tree)?;
            answer.tokens = flat.tokens;
            answer.text = flat.text;
        }
        TreeForm::Lines => answer.text = lines(alloc, tree)?,
        TreeForm::Rust => {
            let mut writer = RustPrinter::new(alloc, 0);
            writer.trees(tree.iter().remaining())?;
            answer.text = writer.into_text().into_bytes();
        }
    }
    Ok(())
}

// Returns the lines of a tree.
fn lines<A: Allocator + Copy>(alloc: A, tree: &TopSubtree<A>) -> Result<Vec<u8, A>, AllocError>
    ensures { IfOk result (λ text. text.items ≡ tree_text tree.now) }
{
    let mut text = Vec::new(alloc);
    match print_tree(tree, &mut text) {
        Ok(()) => Ok(text),
        Err(_) => Err(AllocError),
    }
}

// Returns the answer that shows a tree.
fn shown<A: Allocator + Copy>(alloc: A, form: TreeForm, tree: &TopSubtree<A>) -> Answer<A>
    ensures { answers.OrOutOfMemory (λ a. a ≡ spec.tree_shown form tree.now) (answer_of result) }
{
    let mut answer = Answer::empty(alloc, Status::Done, RequestPart::None);
    match show(alloc, &mut answer, form, tree) {
        Ok(()) => answer,
        Err(_) => Answer::empty(alloc, Status::OutOfMemory, RequestPart::None),
    }
}

// Returns the answer that shows an expansion.
pub(crate) fn expansion_shown<A: Allocator + Copy>(
    alloc: A,
    form: TreeForm,
    expansion: &Expansion<A>,
) -> Result<Answer<A>, AllocError>
    ensures { IfOk result (λ a. answer_of a ≡ spec.expansion_shown form expansion.now.value.0
        expansion.now.value.1 (errors_of expansion.now.err)) }
{
    let (tree, rule) = &expansion.value;
    let mut answer = Answer::empty(alloc, Status::Done, RequestPart::None);
    if let Some(error) = &expansion.err {
        answer.status = Status::Faulted;
        answer.span = error_span(error);
        answer.message = error_text(alloc, error)?;
    }
    answer.rule = *rule;
    show(alloc, &mut answer, form, tree)?;
    Ok(answer)
}

/// What the numbers of a request stand for.
#[derive(Clone, Copy, Drop)]
pub struct RequestSettings {
    pub edition: Edition,
    pub dialect: Dialect,
    pub grammar: GrammarKind,
    pub style: MacroCallStyle,
    pub form: TreeForm,
    pub call_site: Span,
}

pub(crate) fn settings_of(request: &Request) -> Option<RequestSettings>
    ensures known { IfSome result (AreRequestSettings request.now) }
    ensures unknown { IfNone result (spec.IsUnknown request.now) }
{
    let edition = edition_of(request.edition)?;
    Some(RequestSettings {
        edition,
        dialect: dialect_of(request.dialect, edition)?,
        grammar: grammar_of(request.grammar)?,
        style: style_of(request.style)?,
        form: form_of(request.form)?,
        call_site: span_of(request.call_site),
    })
}

// Reads the text of a grammar.
pub(crate) fn read_rules<'t, A: Allocator + Copy>(
    alloc: A,
    text: &'t [u8],
) -> Result<PegGrammar<'t, A>, Answer<A>>
    ensures text { IfOk result (λ _. IsText text.now) }
    ensures read { IfOk result (λ rules. read_text text.now ≡ Ok (grammar_model rules)) }
    ensures fails { IfErr result (λ a. IsNoGrammar text.now (answer_of a)) }
{
    let text = short_text(alloc, text, RequestPart::Grammar)?;
    match PegGrammar::read(alloc, text) {
        Ok(rules) => Ok(rules),
        Err(fault) => Err(Answer::invalid_grammar(alloc, fault)),
    }
}

/// Expands an argument by a definition. It reads the definition first, then the argument, then the
/// text of the grammar if the request's grammar is 2. A text is lexed as file 0 if it is the
/// definition, as file 1 if it is the argument.
pub fn expand<A: Allocator + Copy>(
    alloc: A,
    request: &Request,
    grammar: &[u8],
    definition: Input<'_>,
    argument: Input<'_>,
) -> Answer<A>
    ensures { spec.Expands request.now grammar.now (source_of definition.entry)
        (source_of argument.entry) (answer_of result) }
{
    let Some(asked) = settings_of(request) else {
        return Answer::empty(alloc, Status::Number, RequestPart::None);
    };
    let definition = match trees(alloc, asked.dialect, definition) {
        Ok(tree) => tree,
        Err(answer) => return answer,
    };
    let argument = match trees(alloc, asked.dialect, argument) {
        Ok(tree) => tree,
        Err(answer) => return answer,
    };
    match ReadMacro::of_trees(alloc, asked, grammar, &definition) {
        Ok(rules) => rules.expand_trees(alloc, &argument, asked.call_site),
        Err(answer) => answer,
    }
}

/// A verdict in numbers. `kind` is 0 for one reading, 1 for several readings, 2 for ambiguous and 3
/// for stuck. For the last two `place` is the offset of tokens.
#[repr(C)]
#[derive(Clone, Copy, Default, Drop)]
pub struct FlatVerdict {
    pub kind: usize,
    pub place: usize,
}

fn flat_verdict(verdict: Verdict) -> FlatVerdict
    ensures { result ≡ spec.flat_verdict (verdict_seen verdict) }
{
    match verdict {
        Verdict::OneReading => FlatVerdict { kind: 0, place: 0 },
        Verdict::ManyReadings => FlatVerdict { kind: 1, place: 0 },
        Verdict::Ambiguous(place) => FlatVerdict { kind: 2, place },
        Verdict::Stuck(place) => FlatVerdict { kind: 3, place },
    }
}

/// The verdicts of the rules, or the answer that says why there are none.
pub type Verdicts<A> = Result<Vec<FlatVerdict, A>, Answer<A>>;

// Returns the verdicts in numbers.
fn flat_verdicts<A: Allocator + Copy>(
    alloc: A,
    verdicts: &[Verdict],
) -> Result<Vec<FlatVerdict, A>, AllocError>
    ensures { IfOk result (λ flat. flat.items
        ≡ map (λ v. spec.flat_verdict (verdict_seen v)) verdicts.now) }
{
    let mut flat = Vec::new(alloc);
    for verdict in verdicts {
        flat.push(flat_verdict(*verdict))?;
    }
    Ok(flat)
}

// Returns the verdicts by that grammar.
fn explain_by<A: Allocator + Copy, G: FragmentGrammar>(
    alloc: A,
    asked: RequestSettings,
    grammar: &G,
    definition: &TopSubtree<A>,
    argument: &TopSubtree<A>,
) -> Verdicts<A>
    ensures explains { IfOk result (λ found. spec.AreVerdictsOf asked (G.grammar grammar.now)
        definition.now argument.now found.items) }
    ensures refused { IfErr result (λ a. spec.IsNoMacro asked.edition definition.now.1
        (answer_of a)) }
{
    match explain_with(alloc, grammar, definition, argument, asked.edition) {
        Err(error) => Err(Answer::unread(alloc, &error)),
        Ok(verdicts) => match flat_verdicts(alloc, verdicts.as_slice()) {
            Ok(flat) => Ok(flat),
            Err(_) => Err(Answer::empty(alloc, Status::OutOfMemory, RequestPart::None)),
        },
    }
}

// Returns the verdicts by the grammar of the request.
fn explain_trees<A: Allocator + Copy>(
    alloc: A,
    asked: RequestSettings,
    grammar: &[u8],
    definition: &TopSubtree<A>,
    argument: &TopSubtree<A>,
) -> Verdicts<A>
    ensures explains { IfOk result (λ found. spec.ExplainsTrees asked grammar.now definition.now
        argument.now found.items) }
    ensures fails { IfErr result (λ a. spec.IsNoResult asked grammar.now definition.now
        (answer_of a)) }
{
    match asked.grammar {
        GrammarKind::Sample => explain_by(alloc, asked, &SampleGrammar, definition, argument),
        GrammarKind::Rust => {
            let rules = rust_rules(asked.edition, &[]);
            explain_by(alloc, asked, &rules, definition, argument)
        }
        GrammarKind::Text => {
            let rules = read_rules(alloc, grammar)?;
            let table = rules.table(asked.edition, &[]);
            explain_by(alloc, asked, &table, definition, argument)
        }
    }
}

/// Returns the verdict of each rule of a definition on the argument, in order, whatever the rule's
/// style. It reads the same inputs as `expand`, in the same order.
pub fn explain<A: Allocator + Copy>(
    alloc: A,
    request: &Request,
    grammar: &[u8],
    definition: Input<'_>,
    argument: Input<'_>,
) -> Verdicts<A>
    ensures explains { IfOk result (λ found. spec.ShowsVerdicts request.now grammar.now
        (source_of definition.entry) (source_of argument.entry) found.items) }
    ensures fails { IfErr result (λ a. spec.IsNoAnswer request.now grammar.now
        (source_of definition.entry) (source_of argument.entry) (answer_of a)) }
{
    let Some(asked) = settings_of(request) else {
        return Err(Answer::empty(alloc, Status::Number, RequestPart::None));
    };
    let definition = trees(alloc, asked.dialect, definition)?;
    let argument = trees(alloc, asked.dialect, argument)?;
    explain_trees(alloc, asked, grammar, &definition, &argument)
}

/// Returns the answer that shows the trees of an input, in the form of the request.
pub fn convert<A: Allocator + Copy>(alloc: A, request: &Request, input: Input<'_>) -> Answer<A>
    ensures { spec.Converts request.now (source_of input.entry) (answer_of result) }
{
    let Some(asked) = settings_of(request) else {
        return Answer::empty(alloc, Status::Number, RequestPart::None);
    };
    match trees(alloc, asked.dialect, input) {
        Ok(tree) => shown(alloc, asked.form, &tree),
        Err(answer) => answer,
    }
}

/// Returns the number of rules of a definition. The error says why it is none.
pub fn define<A: Allocator + Copy>(
    alloc: A,
    request: &Request,
    definition: Input<'_>,
) -> Result<usize, Answer<A>>
    ensures defines { IfOk result (λ count. spec.Defines request.now (source_of definition.entry)
        count) }
    ensures fails { IfErr result (λ a. spec.IsUndefined request.now (source_of definition.entry)
        (answer_of a)) }
{
    let Some(asked) = settings_of(request) else {
        return Err(Answer::empty(alloc, Status::Number, RequestPart::None));
    };
    let definition = trees(alloc, asked.dialect, definition)?;
    match defined(alloc, &definition, asked.edition) {
        Ok(rules) => Ok(rules.num_rules()),
        Err(error) => Err(Answer::unread(alloc, &error)),
    }
}

/// Checks the text of a grammar. The error says where it has a fault.
pub fn check_grammar<A: Allocator + Copy>(alloc: A, text: &[u8]) -> Result<(), Answer<A>>
    ensures reads { IfOk result (λ _. spec.IsGrammarText text.now) }
    ensures fails { IfErr result (λ a. IsNoGrammar text.now (answer_of a)) }
{
    let _rules = read_rules(alloc, text)?;
    Ok(())
}
