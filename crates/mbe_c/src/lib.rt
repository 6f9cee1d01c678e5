// The expander for C, and for every language that calls C. `bindings/c/mbe.h` declares its exports.
//
// Each export calls a function of `mbe_program::replies`, and copies the answer into buffers of the
// caller. A call frees all memory that it allocates, except for the macro that `mbe_c_macro_read`
// leaves in a handle.
#![tactic(auto)]

ghost use Rattle.std.specs.Prelude.{◌≡◌, ◌-◌, ◌^◌, length, min, nat_le, None};
ghost use Rattle.mbe_program.specs.Replies.Answers.{answer_of};
ghost use Rattle.mbe_program.specs.Replies.Requests.{argument_of, definition_of};
ghost use Rattle.mbe_c.specs.Copies as spec;
ghost use Rattle.mbe_c.specs.Batch.{answers_seen, GivesAll, GivesExpansions};
ghost use Rattle.mbe_c.specs.Handles.{argument_of_call, freed, GivesAnswer, GivesMacro};

mod batch;
mod boxed_macro;
mod handle;
mod raw_box;

use crate::batch::{Answers, ArgumentPiece, expand_each};
use crate::boxed_macro::read_macro;
use crate::handle::MacroHandle;
use mbe_program::replies::answer::{Answer, RequestPart, Status};
use mbe_program::replies::flat::flat_token::{FlatSpan, FlatToken, flat_span};
use mbe_program::replies::kept_macro::KeptCall;
use mbe_program::replies::requests::{
    FlatVerdict, Input, Request, check_grammar, convert, define, expand, explain,
};
use std::alloc::{Allocator, Global};

/// The reply to a call: the answer in numbers.
#[repr(C)]
#[derive(Clone, Copy, Default, Drop)]
pub struct Reply {
    /// The status, `Status::number`.
    pub status: u32,
    /// The input at fault, `RequestPart::number`.
    pub part: u32,
    /// 1 if there is a rule, else 0.
    pub has_rule: u32,
    /// The index of the rule that was used, or of the closest rule.
    pub rule: u32,
    /// The span of an expansion's error.
    pub span: FlatSpan,
    /// The column of the fault, for `NoGrammar`. A column above 2^32 - 1 is given as 2^32 - 1.
    pub column: u32,
    /// The location of the fault: the byte for `NoTokens`, the token for `NoTrees`, the line for
    /// `NoGrammar`. For `mbe_c_define`, this is the number of rules.
    pub place: usize,
    /// The number of tokens or verdicts, which may be more than the buffer has room for.
    pub tokens: usize,
    /// The number of bytes of the text.
    pub text: usize,
    /// The number of bytes of the message. If the buffer has too little room, none is written.
    pub message: usize,
}

/// Returns the version of this interface. It changes whenever a struct or an export changes.
#[unsafe(no_mangle)]
pub extern "C" fn mbe_c_version() -> u32
    ensures { result ≡ 3 }
{
    3
}

// Copies `from` to the front of `to`, if there is room for all of it, else nothing. Returns whether
// there was.
fn put<T: Copy>(from: &[T], to: &mut [T]) -> bool
    ensures fits { result ≡ nat_le (length from.now) (length to.old) }
    ensures copied { to.new ≡ spec.copied from.now to.old }
{
    if from.len() > to.len() {
        return false;
    }
    let (front, _rest) = to.split_at_mut(from.len());
    front.copy_from_slice(from);
    true
}

// Returns the reply to an answer, if the buffers have room.
pub(crate) fn reply_of<A: Allocator>(answer: &Answer<A>) -> Reply
    ensures { result ≡ spec.reply_to (answer_of answer.now) }
{
    Reply {
        status: answer.status.number(),
        part: answer.part.number(),
        has_rule: match answer.rule {
            Some(_) => 1,
            None => 0,
        },
        rule: answer.rule.unwrap_or(0),
        span: flat_span(answer.span),
        column: column_of(answer.column),
        place: answer.place,
        tokens: answer.tokens.len(),
        text: answer.text.len(),
        message: answer.message.len(),
    }
}

// Returns a column in 32 bits. A greater one becomes 2^32 - 1.
fn column_of(column: usize) -> u32
    ensures { result ≡ min column (2 ^ 32 - 1) }
{
    if column > u32::MAX as usize {
        u32::MAX
    } else {
        column as u32
    }
}

// Copies an answer into memory of the caller, and returns the status.
fn copy_answer<A: Allocator>(
    answer: &Answer<A>,
    tokens: &mut [FlatToken],
    text: &mut [u8],
    message: &mut [u8],
    reply: &mut Reply,
) -> u32
    ensures result { result ≡ reply.new.status }
    ensures gives { spec.Gives (answer_of answer.now)
        (record { tokens = tokens.old; text = text.old; message = message.old })
        (record { tokens = tokens.new; text = text.new; message = message.new }) reply.new }
{
    *reply = reply_of(answer);
    let tokens_fit = put(&answer.tokens, tokens);
    let text_fits = put(&answer.text, text);
    let _message_fits = put(answer.message.as_bytes(), message);
    if !tokens_fit || !text_fits {
        reply.status = Status::NoRoom.number();
    }
    reply.status
}

/// Expands an argument by a definition (`mbe_program::replies::requests::expand`). Returns the
/// status, which is in the reply too.
#[unsafe(no_mangle)]
pub extern "C" fn mbe_c_expand(
    alloc: Global,
    request: &Request,
    grammar: &[u8],
    definition: &[u8],
    definition_tokens: &[FlatToken],
    argument: &[u8],
    argument_tokens: &[FlatToken],
    tokens: &mut [FlatToken],
    text: &mut [u8],
    message: &mut [u8],
    reply: &mut Reply,
) -> u32
    ensures result { result ≡ reply.new.status }
    ensures expands { spec.GivesExpansion request.now grammar.now
        (definition_of request.now definition.now definition_tokens.now)
        (argument_of request.now argument.now argument_tokens.now)
        (record { tokens = tokens.old; text = text.old; message = message.old })
        (record { tokens = tokens.new; text = text.new; message = message.new }) reply.new }
{
    let definition = Input {
        text: definition,
        tokens: definition_tokens,
        is_flat: request.definition_is_flat,
        part: RequestPart::Definition,
        file: 0,
    };
    let argument = Input {
        text: argument,
        tokens: argument_tokens,
        is_flat: request.argument_is_flat,
        part: RequestPart::Argument,
        file: 1,
    };
    let answer = expand(alloc, request, grammar, definition, argument);
    copy_answer(&answer, tokens, text, message, reply)
}

/// Expands each argument by a definition that is read once (`mbe_program::replies::read_macro`).
/// Each piece gives the range of one argument in `arguments`. The answers come one after another,
/// and the reply of each says how much of the buffers is its own. `reply` has the lengths of all
/// together, and `reply.place` is the number of answers. If no macro is read, `reply` says why, and
/// no answer is written.
#[unsafe(no_mangle)]
pub extern "C" fn mbe_c_expand_each(
    alloc: Global,
    request: &Request,
    grammar: &[u8],
    definition: &[u8],
    definition_tokens: &[FlatToken],
    arguments: &[u8],
    argument_tokens: &[FlatToken],
    pieces: &[ArgumentPiece],
    replies: &mut [Reply],
    tokens: &mut [FlatToken],
    text: &mut [u8],
    message: &mut [u8],
    reply: &mut Reply,
) -> u32
    ensures result { result ≡ reply.new.status }
    ensures expands { GivesExpansions request.now grammar.now
        (definition_of request.now definition.now definition_tokens.now)
        (argument_of request.now arguments.now argument_tokens.now) pieces.now
        replies.old replies.new
        (record { tokens = tokens.old; text = text.old; message = message.old })
        (record { tokens = tokens.new; text = text.new; message = message.new }) reply.new }
{
    let definition = Input {
        text: definition,
        tokens: definition_tokens,
        is_flat: request.definition_is_flat,
        part: RequestPart::Definition,
        file: 0,
    };
    let all = Input {
        text: arguments,
        tokens: argument_tokens,
        is_flat: request.argument_is_flat,
        part: RequestPart::Argument,
        file: 1,
    };
    match expand_each(alloc, request, grammar, definition, all, pieces) {
        Err(answer) => copy_answer(&answer, &mut [], &mut [], message, reply),
        Ok(found) => copy_answers(alloc, &found, replies, tokens, text, message, reply),
    }
}

/// Gives the verdict of each rule of a definition on an argument
/// (`mbe_program::replies::requests::explain`). `reply.tokens` is the number of verdicts.
#[unsafe(no_mangle)]
pub extern "C" fn mbe_c_explain(
    alloc: Global,
    request: &Request,
    grammar: &[u8],
    definition: &[u8],
    definition_tokens: &[FlatToken],
    argument: &[u8],
    argument_tokens: &[FlatToken],
    verdicts: &mut [FlatVerdict],
    message: &mut [u8],
    reply: &mut Reply,
) -> u32
    ensures result { result ≡ reply.new.status }
    ensures explains { spec.GivesExplanation request.now grammar.now
        (definition_of request.now definition.now definition_tokens.now)
        (argument_of request.now argument.now argument_tokens.now)
        verdicts.old verdicts.new message.old message.new reply.new }
{
    let definition = Input {
        text: definition,
        tokens: definition_tokens,
        is_flat: request.definition_is_flat,
        part: RequestPart::Definition,
        file: 0,
    };
    let argument = Input {
        text: argument,
        tokens: argument_tokens,
        is_flat: request.argument_is_flat,
        part: RequestPart::Argument,
        file: 1,
    };
    match explain(alloc, request, grammar, definition, argument) {
        Err(answer) => copy_answer(&answer, &mut [], &mut [], message, reply),
        Ok(found) => copy_verdicts(alloc, &found, verdicts, reply),
    }
}

// Copies verdicts into memory of the caller, and returns the status.
fn copy_verdicts<A: Allocator + Copy>(
    alloc: A,
    found: &[FlatVerdict],
    verdicts: &mut [FlatVerdict],
    reply: &mut Reply,
) -> u32
    ensures result { result ≡ reply.new.status }
    ensures gives { spec.GivesVerdicts found.now verdicts.old verdicts.new reply.new }
{
    *reply = reply_of(&Answer::empty(alloc, Status::Done, RequestPart::None));
    reply.tokens = found.len();
    if !put(found, verdicts) {
        reply.status = Status::NoRoom.number();
    }
    reply.status
}

// Copies answers into memory of the caller, and returns the status.
fn copy_answers<A: Allocator + Copy>(
    alloc: A,
    found: &Answers<A>,
    replies: &mut [Reply],
    tokens: &mut [FlatToken],
    text: &mut [u8],
    message: &mut [u8],
    reply: &mut Reply,
) -> u32
    ensures result { result ≡ reply.new.status }
    ensures gives { GivesAll (answers_seen found.now) replies.old replies.new
        (record { tokens = tokens.old; text = text.old; message = message.old })
        (record { tokens = tokens.new; text = text.new; message = message.new }) reply.new }
{
    *reply = reply_of(&Answer::empty(alloc, Status::Done, RequestPart::None));
    reply.place = found.replies.len();
    reply.tokens = found.tokens.len();
    reply.text = found.text.len();
    reply.message = found.message.len();
    let replies_fit = put(&found.replies, replies);
    let tokens_fit = put(&found.tokens, tokens);
    let text_fits = put(&found.text, text);
    let _message_fits = put(&found.message, message);
    if !replies_fit || !tokens_fit || !text_fits {
        reply.status = Status::NoRoom.number();
    }
    reply.status
}

/// Converts an input to another form (`mbe_program::replies::requests::convert`): a text to flat
/// tokens, or flat tokens to a text.
#[unsafe(no_mangle)]
pub extern "C" fn mbe_c_convert(
    alloc: Global,
    request: &Request,
    input: &[u8],
    input_tokens: &[FlatToken],
    tokens: &mut [FlatToken],
    text: &mut [u8],
    message: &mut [u8],
    reply: &mut Reply,
) -> u32
    ensures result { result ≡ reply.new.status }
    ensures converts { spec.GivesTrees request.now
        (argument_of request.now input.now input_tokens.now)
        (record { tokens = tokens.old; text = text.old; message = message.old })
        (record { tokens = tokens.new; text = text.new; message = message.new }) reply.new }
{
    let input = Input {
        text: input,
        tokens: input_tokens,
        is_flat: request.argument_is_flat,
        part: RequestPart::Argument,
        file: 1,
    };
    let answer = convert(alloc, request, input);
    copy_answer(&answer, tokens, text, message, reply)
}

/// Checks a definition (`mbe_program::replies::requests::define`). `reply.place` is the number of
/// its rules.
#[unsafe(no_mangle)]
pub extern "C" fn mbe_c_define(
    alloc: Global,
    request: &Request,
    definition: &[u8],
    definition_tokens: &[FlatToken],
    message: &mut [u8],
    reply: &mut Reply,
) -> u32
    ensures result { result ≡ reply.new.status }
    ensures defines { spec.GivesCount request.now
        (definition_of request.now definition.now definition_tokens.now)
        message.old message.new reply.new }
{
    let definition = Input {
        text: definition,
        tokens: definition_tokens,
        is_flat: request.definition_is_flat,
        part: RequestPart::Definition,
        file: 0,
    };
    match define(alloc, request, definition) {
        Err(answer) => copy_answer(&answer, &mut [], &mut [], message, reply),
        Ok(rules) => {
            *reply = reply_of(&Answer::empty(alloc, Status::Done, RequestPart::None));
            reply.place = rules;
            reply.status
        }
    }
}

/// Checks the text of a grammar of fragments (`mbe_program::replies::requests::check_grammar`).
#[unsafe(no_mangle)]
pub extern "C" fn mbe_c_grammar(
    alloc: Global,
    grammar: &[u8],
    message: &mut [u8],
    reply: &mut Reply,
) -> u32
    ensures result { result ≡ reply.new.status }
    ensures reads { spec.GivesGrammar grammar.now message.old message.new reply.new }
{
    match check_grammar(alloc, grammar) {
        Err(answer) => copy_answer(&answer, &mut [], &mut [], message, reply),
        Ok(()) => {
            *reply = reply_of(&Answer::empty(alloc, Status::Done, RequestPart::None));
            reply.status
        }
    }
}

/// Reads a definition into a handle that has no macro (`mbe_program::replies::kept_macro`).
/// `reply.place` is the number of its rules. If none is read, or the handle has one already,
/// `reply` says why, and the handle is unchanged.
#[unsafe(no_mangle)]
pub extern "C" fn mbe_c_macro_read(
    alloc: Global,
    request: &Request,
    grammar: &[u8],
    definition: &[u8],
    definition_tokens: &[FlatToken],
    handle: &mut MacroHandle,
    message: &mut [u8],
    reply: &mut Reply,
) -> u32
    ensures result { result ≡ reply.new.status }
    ensures reads { GivesMacro request.now grammar.now
        (definition_of request.now definition.now definition_tokens.now)
        handle.old.held handle.new.held message.old message.new reply.new }
{
    let definition = Input {
        text: definition,
        tokens: definition_tokens,
        is_flat: request.definition_is_flat,
        part: RequestPart::Definition,
        file: 0,
    };
    if let Some(held) = handle.take(alloc) {
        handle.put(held);
        let answer = Answer::empty(alloc, Status::HasMacro, RequestPart::None);
        return copy_answer(&answer, &mut [], &mut [], message, reply);
    }
    match read_macro(alloc, request, grammar, definition) {
        Err(answer) => copy_answer(&answer, &mut [], &mut [], message, reply),
        Ok(read) => {
            *reply = reply_of(&Answer::empty(alloc, Status::Done, RequestPart::None));
            reply.place = read.count();
            handle.put(read);
            reply.status
        }
    }
}

/// Expands an argument by the macro of a handle (`mbe_program::replies::kept_macro`). The handle
/// keeps it.
#[unsafe(no_mangle)]
pub extern "C" fn mbe_c_macro_expand(
    alloc: Global,
    handle: &mut MacroHandle,
    call: &KeptCall,
    argument: &[u8],
    argument_tokens: &[FlatToken],
    tokens: &mut [FlatToken],
    text: &mut [u8],
    message: &mut [u8],
    reply: &mut Reply,
) -> u32
    ensures result { result ≡ reply.new.status }
    ensures same { handle.new.held ≡ handle.old.held }
    ensures expands { GivesAnswer handle.old.held call.now
        (argument_of_call call.now argument.now argument_tokens.now)
        (record { tokens = tokens.old; text = text.old; message = message.old })
        (record { tokens = tokens.new; text = text.new; message = message.new }) reply.new }
{
    let argument = Input {
        text: argument,
        tokens: argument_tokens,
        is_flat: call.argument_is_flat,
        part: RequestPart::Argument,
        file: 1,
    };
    let Some(held) = handle.take(alloc) else {
        let answer = Answer::empty(alloc, Status::NoMacro, RequestPart::None);
        return copy_answer(&answer, tokens, text, message, reply);
    };
    let answer = held.expand(alloc, call, argument);
    handle.put(held);
    copy_answer(&answer, tokens, text, message, reply)
}

/// Frees the macro of a handle, and leaves none. Without a macro it changes nothing, and the status
/// says so.
#[unsafe(no_mangle)]
pub extern "C" fn mbe_c_macro_free(alloc: Global, handle: &mut MacroHandle) -> u32
    ensures result { result ≡ freed handle.old.held }
    ensures none { handle.new.held ≡ None }
{
    match handle.take(alloc) {
        Some(_held) => Status::Done.number(),
        None => Status::NoMacro.number(),
    }
}
