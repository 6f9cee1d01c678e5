// Many arguments of one definition in one call. The answers come one after another, in shared
// buffers.
ghost use Rattle.std.specs.Prelude.{◌≡◌, [], option_map, IfErr, IfOk};
ghost use Rattle.mbe_program.specs.Replies.Answers.{answer_of};
ghost use Rattle.mbe_program.specs.Replies.Requests.{source_of};
ghost use Rattle.mbe_program.specs.Replies.ReadMacros.{AnswersBy};
ghost use Rattle.mbe_c.specs.Batch.{answers_seen};
ghost use Rattle.mbe_c.specs.Batch as spec;

use crate::{Reply, reply_of};
use mbe_program::replies::answer::{Answer, RequestPart, Status};
use mbe_program::replies::flat::flat_token::{FlatSpan, FlatToken};
use mbe_program::replies::read_macro::ReadMacro;
use mbe_program::replies::requests::{Input, Request};
use std::alloc::{AllocError, Allocator};

/// One of many arguments: its range of bytes in the text, its range in the tokens beside the text,
/// and the span of its call.
#[repr(C)]
#[derive(Clone, Copy, Default, Drop)]
pub struct ArgumentPiece {
    pub offset: usize,
    pub len: usize,
    pub token_offset: usize,
    pub token_len: usize,
    pub call_site: FlatSpan,
}

/// Answers one after another: the reply of each, and the tokens, texts and messages of all.
#[derive(Drop)]
pub struct Answers<A: Allocator> {
    pub replies: Vec<Reply, A>,
    pub tokens: Vec<FlatToken, A>,
    pub text: Vec<u8, A>,
    pub message: Vec<u8, A>,
}

impl<A: Allocator + Copy> Answers<A> {
    fn new(alloc: A) -> Answers<A>
        ensures { answers_seen result ≡ spec.joined [] }
    {
        Answers {
            replies: Vec::new(alloc),
            tokens: Vec::new(alloc),
            text: Vec::new(alloc),
            message: Vec::new(alloc),
        }
    }

    fn add(&mut self, answer: &Answer<A>) -> Result<(), AllocError>
        ensures { IfOk result (λ _. answers_seen self.new
            ≡ spec.with_answer (answers_seen self.old) (answer_of answer.now)) }
    {
        self.replies.push(reply_of(answer))?;
        self.tokens.extend_from_slice(&answer.tokens)?;
        self.text.extend_from_slice(&answer.text)?;
        self.message.extend_from_slice(answer.message.as_bytes())
    }
}

// Returns `len` bytes from `offset` on. `None` if they aren't within the bytes.
fn bytes_at(bytes: &[u8], offset: usize, len: usize) -> Option<&[u8]>
    ensures { option_map (λ part. part.now) result ≡ spec.part_at bytes.now offset len }
{
    if offset > bytes.len() || len > bytes.len() - offset {
        return None;
    }
    let (_before, rest) = bytes.split_at(offset);
    let (part, _after) = rest.split_at(len);
    Some(part)
}

// Returns `len` tokens from `offset` on. `None` if they aren't within the tokens.
fn tokens_at(tokens: &[FlatToken], offset: usize, len: usize) -> Option<&[FlatToken]>
    ensures { option_map (λ part. part.now) result ≡ spec.part_at tokens.now offset len }
{
    if offset > tokens.len() || len > tokens.len() - offset {
        return None;
    }
    let (_before, rest) = tokens.split_at(offset);
    let (part, _after) = rest.split_at(len);
    Some(part)
}

// Returns the argument of a piece. `None` if the piece isn't within all the arguments.
fn argument_at<'a>(all: Input<'a>, piece: ArgumentPiece) -> Option<Input<'a>>
    ensures { option_map source_of result ≡ spec.argument_at (source_of all.entry) piece }
{
    let text = bytes_at(all.text, piece.offset, piece.len)?;
    let tokens = tokens_at(all.tokens, piece.token_offset, piece.token_len)?;
    Some(Input {
        text,
        tokens,
        ..all
    })
}

// Expands the argument of a piece.
fn expand_piece<A: Allocator + Copy>(
    alloc: A,
    rules: &ReadMacro<'_, A>,
    all: Input<'_>,
    piece: ArgumentPiece,
) -> Answer<A>
    ensures { spec.IsAnswerAt (AnswersBy rules.now) (source_of all.entry) piece (answer_of result) }
{
    match argument_at(all, piece) {
        Some(argument) => rules.expand(alloc, argument, piece.call_site),
        None => Answer::empty(alloc, Status::Number, RequestPart::Argument),
    }
}

// Expands the argument of each piece, in order.
fn expand_pieces<A: Allocator + Copy>(
    alloc: A,
    rules: &ReadMacro<'_, A>,
    all: Input<'_>,
    pieces: &[ArgumentPiece],
) -> Result<Answers<A>, AllocError>
    ensures { IfOk result (λ found. spec.AreJoined (AnswersBy rules.now) (source_of all.entry)
        pieces.now (answers_seen found)) }
{
    let mut answers = Answers::new(alloc);
    for piece in pieces {
        answers.add(&expand_piece(alloc, rules, all, *piece))?;
    }
    Ok(answers)
}

/// Expands many arguments by one definition. The definition is read once, before any argument. The
/// error is why it can't be read, or that memory ran out.
pub fn expand_each<A: Allocator + Copy>(
    alloc: A,
    request: &Request,
    grammar: &[u8],
    definition: Input<'_>,
    all: Input<'_>,
    pieces: &[ArgumentPiece],
) -> Result<Answers<A>, Answer<A>>
    ensures expands { IfOk result (λ found. spec.AreExpansions request.now grammar.now
        (source_of definition.entry) (source_of all.entry) pieces.now (answers_seen found)) }
    ensures fails { IfErr result (λ a. spec.IsNoExpansion request.now grammar.now
        (source_of definition.entry) (answer_of a)) }
{
    let rules = match ReadMacro::read(alloc, request, grammar, definition) {
        Ok(rules) => rules,
        Err(answer) => return Err(answer),
    };
    match expand_pieces(alloc, &rules, all, pieces) {
        Ok(answers) => Ok(answers),
        Err(_) => Err(Answer::empty(alloc, Status::OutOfMemory, RequestPart::None)),
    }
}
