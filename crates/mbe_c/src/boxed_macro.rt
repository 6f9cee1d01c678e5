// Reads a macro into a box, which a handle can own.
ghost use Rattle.std.specs.Prelude.{◌≡◌, IfErr, IfOk};
ghost use Rattle.mbe_program.specs.Replies.Answers.{answer_of};
ghost use Rattle.mbe_program.specs.Replies.Requests.{source_of};
ghost use Rattle.mbe_program.specs.Replies.KeptMacros.{IsKept};
ghost use Rattle.mbe_c.specs.Batch.{IsNoExpansion};

use mbe_program::replies::answer::{Answer, RequestPart, Status};
use mbe_program::replies::kept_macro::KeptMacro;
use mbe_program::replies::requests::{Input, Request};
use std::alloc::Global;

// Reads the macro of a definition into a box. The error says why there is none.
pub(crate) fn read_macro(
    alloc: Global,
    request: &Request,
    grammar: &[u8],
    definition: Input<'_>,
) -> Result<Box<KeptMacro<Global>>, Answer<Global>>
    ensures read { IfOk result (λ b. IsKept request.now grammar.now (source_of definition.entry)
        b.value) }
    ensures fails { IfErr result (λ a. IsNoExpansion request.now grammar.now
        (source_of definition.entry) (answer_of a)) }
{
    let read = match KeptMacro::read(alloc, request, grammar, definition) {
        Ok(read) => read,
        Err(answer) => return Err(answer),
    };
    match Box::new(alloc, read) {
        Ok(read) => Ok(read),
        Err(_) => Err(Answer::empty(alloc, Status::OutOfMemory, RequestPart::None)),
    }
}
