// The answer to a call, before it is copied into memory of the caller: a status, what is at fault,
// and the tokens, the text and the message.
ghost use Rattle.std.specs.Prelude.{◌≡◌, IfOk};
ghost use Rattle.std.specs.String.{string_bytes};
ghost use Rattle.mbe_semantics.specs.Expansion.Error.{text_of_kind};
ghost use Rattle.mbe_ops.specs.Errors.ErrorViews.{error_of, parse_error_of};
ghost use Rattle.mbe_program.specs.Replies.Answers.{answer_of};
ghost use Rattle.mbe_program.specs.Replies.Answers as spec;

use crate::replies::flat::decoder::{FlatError, FlatFault};
use crate::replies::flat::flat_token::FlatToken;
use crate::tree_expansion::DefinitionError;
use mbe::{ExpandError, ParseError};
use mbe_grammar::peg::peg_error::PegError;
use mbe_text::scanner::{LexFault, file_span};
use mbe_tt::span::Span;
use std::alloc::{AllocError, Allocator};

/// How a call ended.
#[derive(Clone, Copy, Drop)]
pub enum Status {
    /// The call succeeded.
    Done,
    /// The expansion has an error, and there is a tree beside it.
    Faulted,
    /// The definition has an error.
    Refused,
    /// A number of the request has no meaning.
    Number,
    /// A text isn't UTF-8.
    Utf8,
    /// A text has 2^32 bytes or more.
    TooLong,
    /// A text can't be lexed.
    NoTokens,
    /// Flat tokens aren't trees.
    NoTrees,
    /// The text of a grammar has a fault.
    NoGrammar,
    OutOfMemory,
    /// A buffer of the caller is too small. The reply says how much is needed.
    NoRoom,
    /// A handle has no macro: none was read, or it was freed.
    NoMacro,
    /// A macro is to be read into a handle that has one already.
    HasMacro,
}

impl Status {
    /// Returns the number that the C library returns for the status.
    ///
    /// - 0 `Done`, 1 `Faulted`, 2 `Refused`;
    /// - 3 `Number`, 4 `Utf8`, 5 `TooLong`;
    /// - 6 `NoTokens`, 7 `NoTrees`, 8 `NoGrammar`;
    /// - 9 `OutOfMemory`, 10 `NoRoom`;
    /// - 12 `NoMacro`, 13 `HasMacro`.
    ///
    /// The C header itself returns 11, for null pointers.
    pub fn number(self) -> u32
        ensures { result ≡ spec.status_number self }
    {
        match self {
            Status::Done => 0,
            Status::Faulted => 1,
            Status::Refused => 2,
            Status::Number => 3,
            Status::Utf8 => 4,
            Status::TooLong => 5,
            Status::NoTokens => 6,
            Status::NoTrees => 7,
            Status::NoGrammar => 8,
            Status::OutOfMemory => 9,
            Status::NoRoom => 10,
            Status::NoMacro => 12,
            Status::HasMacro => 13,
        }
    }
}

/// The input of a call that is at fault.
#[derive(Clone, Copy, Drop)]
pub enum RequestPart {
    None,
    Definition,
    Argument,
    Grammar,
}

impl RequestPart {
    /// Returns the part in C: 0 `None`, 1 `Definition`, 2 `Argument`, 3 `Grammar`.
    pub fn number(self) -> u32
        ensures { result ≡ spec.part_number self }
    {
        match self {
            RequestPart::None => 0,
            RequestPart::Definition => 1,
            RequestPart::Argument => 2,
            RequestPart::Grammar => 3,
        }
    }
}

/// The answer to a call.
#[derive(Drop)]
pub struct Answer<A: Allocator> {
    pub status: Status,
    /// The input at fault.
    pub part: RequestPart,
    /// The location of the fault: the byte for `NoTokens`, the token for `NoTrees`, the line for
    /// `NoGrammar`.
    pub place: usize,
    /// The column of the fault, for `NoGrammar`.
    pub column: usize,
    /// The index of the rule that was used, or of the rule that fits best.
    pub rule: Option<u32>,
    /// The span of an expansion's error.
    pub span: Span,
    pub tokens: Vec<FlatToken, A>,
    pub text: Vec<u8, A>,
    /// The message of the error or the fault.
    pub message: String<A>,
}

impl<A: Allocator + Copy> Answer<A> {
    /// Returns an answer with that status and nothing else.
    pub fn empty(alloc: A, status: Status, part: RequestPart) -> Answer<A>
        ensures { answer_of result ≡ spec.empty status part }
    {
        Answer {
            status,
            part,
            place: 0,
            column: 0,
            rule: None,
            span: file_span(0, 0, 0),
            tokens: Vec::new(alloc),
            text: Vec::new(alloc),
            message: String::new(alloc),
        }
    }

    /// Returns the answer that a text can't be lexed.
    pub fn unlexed(alloc: A, part: RequestPart, fault: LexFault) -> Answer<A>
        ensures { spec.OrOutOfMemory (spec.IsUnlexed part fault) (answer_of result) }
    {
        let fault_kind = fault.fault_kind;
        let Ok(message) = format!(in alloc; "{fault_kind}") else {
            return Answer::empty(alloc, Status::OutOfMemory, part);
        };
        let mut answer = Answer::empty(alloc, Status::NoTokens, part);
        answer.place = fault.offset as usize;
        answer.message = message;
        answer
    }

    /// Returns the answer that flat tokens aren't trees.
    pub fn invalid_tokens(alloc: A, part: RequestPart, error: FlatError) -> Answer<A>
        ensures { spec.AreInvalidTokensBy part error (answer_of result) }
    {
        let FlatError::Fault { index, fault_kind } = error else {
            return Answer::empty(alloc, Status::OutOfMemory, part);
        };
        let Ok(message) = String::from_str(alloc, fault_text(fault_kind)) else {
            return Answer::empty(alloc, Status::OutOfMemory, part);
        };
        let mut answer = Answer::empty(alloc, Status::NoTrees, part);
        answer.place = index;
        answer.message = message;
        answer
    }

    /// Returns the answer that the text of a grammar has a fault.
    pub fn invalid_grammar(alloc: A, fault: PegError<'_>) -> Answer<A>
        ensures { spec.IsInvalidGrammarBy fault.entry (answer_of result) }
    {
        let PegError::At(place, reason) = fault else {
            return Answer::empty(alloc, Status::OutOfMemory, RequestPart::Grammar);
        };
        let Ok(message) = format!(in alloc; "{reason}") else {
            return Answer::empty(alloc, Status::OutOfMemory, RequestPart::Grammar);
        };
        let mut answer = Answer::empty(alloc, Status::NoGrammar, RequestPart::Grammar);
        answer.place = place.line;
        answer.column = place.column;
        answer.message = message;
        answer
    }

    /// Returns the answer that a definition has no macro.
    pub fn unread(alloc: A, error: &DefinitionError<A>) -> Answer<A>
        ensures { spec.IsUnreadBy error.now (answer_of result) }
    {
        match error {
            DefinitionError::Refused(error) => Answer::refused(alloc, error),
            DefinitionError::OutOfMemory => Answer::empty(
                alloc,
                Status::OutOfMemory,
                RequestPart::None,
            ),
        }
    }

    /// Returns the answer that a definition has an error.
    pub fn refused(alloc: A, error: &ParseError<A>) -> Answer<A>
        ensures { spec.OrOutOfMemory (spec.IsRefusal (parse_error_of error.now)) (answer_of result) }
    {
        let Ok(message) = format!(in alloc; "{error}") else {
            return Answer::empty(alloc, Status::OutOfMemory, RequestPart::Definition);
        };
        let mut answer = Answer::empty(alloc, Status::Refused, RequestPart::Definition);
        answer.message = message;
        answer
    }
}

/// Returns the message for a fault of a flat token.
pub fn fault_text(fault_kind: FlatFault) -> &'static str
    ensures { result.now ≡ spec.fault_text fault_kind }
{
    match fault_kind {
        FlatFault::Kind => "a token of no kind",
        FlatFault::Sort => "a token of no sort",
        FlatFault::Character => "a punct that is no char",
        FlatFault::Count => "a literal with a number above 255",
        FlatFault::Range => "a text that is out of bounds",
        FlatFault::Utf8 => "a text that is not UTF-8",
        FlatFault::Closing => "a closing without its opening",
        FlatFault::Whole => "tokens that are not one group",
        FlatFault::Open => "a group that is not closed",
    }
}

/// Returns the message of an expansion's error. `AllocError` if out of memory.
pub fn error_text<A: Allocator + Copy>(
    alloc: A,
    error: &ExpandError<A>,
) -> Result<String<A>, AllocError>
    ensures { IfOk result (λ text. string_bytes text ≡ text_of_kind (error_of error.now).kind) }
{
    let (_span, kind) = &*error.inner;
    format!(in alloc; "{kind}")
}

/// Returns the span of an expansion's error.
pub fn error_span<A: Allocator>(error: &ExpandError<A>) -> Span
    ensures { result ≡ (error_of error.now).span }
{
    let (span, _kind) = &*error.inner;
    *span
}
