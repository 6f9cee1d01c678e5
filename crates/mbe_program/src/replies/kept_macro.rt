// A macro that a caller keeps from call to call. It owns all that it holds.
ghost use Rattle.std.specs.Prelude.{◌≡◌, IfErr, IfNone, IfOk, IfSome};
ghost use Rattle.mbe_program.specs.declared.replies.request_codes.GrammarKind.TheVariants as grammars;
ghost use Rattle.mbe_program.specs.Replies.Answers.{answer_of};
ghost use Rattle.mbe_program.specs.Replies.Requests.{source_of};
ghost use Rattle.mbe_program.specs.Replies.ReadMacros.{IsUnread};
ghost use Rattle.mbe_program.specs.Replies.KeptMacros as spec;

use crate::replies::answer::{Answer, RequestPart, Status};
use crate::replies::flat::flat_token::{FlatSpan, span_of};
use crate::replies::read_macro::{BorrowedMacro, CheckedRules, Fragments, ReadMacro};
use crate::replies::request_codes::{GrammarKind, form_of, style_of};
use crate::replies::requests::{Input, Request, RequestSettings};
use std::alloc::{AllocError, Allocator};

/// The request of a call to a kept macro, in numbers. The module `request_codes` defines what they
/// mean.
#[repr(C)]
#[derive(Clone, Copy, Default, Drop)]
pub struct KeptCall {
    pub style: u32,
    pub form: u32,
    /// 1 if the argument is flat tokens with their text, 0 if it is a text to lex.
    pub argument_is_flat: u32,
    pub call_site: FlatSpan,
}

/// A definition that was read without an error, with the settings of its request.
#[derive(Drop)]
pub struct KeptMacro<A: Allocator> {
    pub asked: RequestSettings,
    /// The text of the grammar if the request asks for one, else empty. Each call reads it again.
    pub grammar: Vec<u8, A>,
    pub read: CheckedRules<A>,
}

// Copies the text of the grammar if the request asks for one, else returns nothing.
fn copy_grammar<A: Allocator + Copy>(
    alloc: A,
    kind: GrammarKind,
    text: &[u8],
) -> Result<Vec<u8, A>, AllocError>
    ensures { IfOk result (λ kept. kind ≡ grammars.Text → kept.items ≡ text.now) }
{
    let mut kept = Vec::new(alloc);
    match kind {
        GrammarKind::Text => kept.extend_from_slice(text)?,
        GrammarKind::Sample | GrammarKind::Rust => {}
    }
    Ok(kept)
}

// Returns the settings of a call: the settings that the macro was read with, and the style, the
// form and the call site of the call. `None` if a number of the call has no meaning.
fn settings_at(asked: RequestSettings, call: &KeptCall) -> Option<RequestSettings>
    ensures known { IfSome result (spec.AreAtCall asked call.now) }
    ensures unknown { IfNone result (spec.IsUnknownCall call.now) }
{
    Some(RequestSettings {
        style: style_of(call.style)?,
        form: form_of(call.form)?,
        call_site: span_of(call.call_site),
        ..asked
    })
}

impl<A: Allocator + Copy> KeptMacro<A> {
    /// Reads a definition, and the text of the grammar if the request asks for one. The order and
    /// the errors are the same as in `ReadMacro::read`. The request's style, form and call site
    /// must have a meaning. Each call may ask for others.
    pub fn read(
        alloc: A,
        request: &Request,
        grammar: &[u8],
        definition: Input<'_>,
    ) -> Result<KeptMacro<A>, Answer<A>>
        ensures kept { IfOk result (spec.IsKept request.now grammar.now
            (source_of definition.entry)) }
        ensures fails { IfErr result (λ a. IsUnread request.now grammar.now
            (source_of definition.entry) (answer_of a)) }
    {
        let found = match ReadMacro::read(alloc, request, grammar, definition) {
            Ok(found) => found,
            Err(answer) => return Err(answer),
        };
        let ReadMacro { asked, read, .. } = found;
        match copy_grammar(alloc, asked.grammar, grammar) {
            Ok(grammar) => Ok(KeptMacro {
                asked,
                grammar,
                read,
            }),
            Err(_) => Err(Answer::empty(alloc, Status::OutOfMemory, RequestPart::None)),
        }
    }

    /// Returns the number of rules.
    pub fn count(&self) -> usize
        ensures { result ≡ spec.rule_count self.now }
    {
        self.read.rules.num_rules()
    }

    /// Expands an argument. The answer is that of `requests::expand` to the macro's request, with
    /// the style, the form, the call site and the kind of argument of this call.
    pub fn expand(&self, alloc: A, call: &KeptCall, argument: Input<'_>) -> Answer<A>
        ensures { spec.AnswersCall self.now call.now (source_of argument.entry) (answer_of result) }
    {
        let Some(asked) = settings_at(self.asked, call) else {
            return Answer::empty(alloc, Status::Number, RequestPart::None);
        };
        let fragments = match Fragments::read(alloc, asked, &self.grammar) {
            Ok(fragments) => fragments,
            Err(answer) => return answer,
        };
        let used = BorrowedMacro {
            asked,
            fragments: &fragments,
            read: &self.read,
        };
        used.expand(alloc, argument, call.call_site)
    }
}
