// Allocation failures: calls are expanded and definitions are read while each request for memory
// fails in turn.
use crate::definitions::read_as;
use crate::runs::{Expansion, defined, made};
use crate::trees::lexed;
use mbe::DeclarativeMacro;
use mbe_grammar::SampleGrammar;
use mbe_program::expansion_printer::{head_of, print_expansion};
use mbe_tt::tt::TopSubtree;
use std::alloc::{AllocError, Allocator};
use test_rows::{AllocRowTest, Fields, rows};

/// What a row does. If memory runs out, it is done once more, and must then end as the row says.
#[derive(Clone, Copy)]
pub enum AllocScenario {
    /// Expands an argument by a definition, as a row of `program_rows` says.
    Expanding,
    /// Reads the rules of a `macro_rules!`, and the same rules as those of a `macro`.
    Reading,
    /// Reads arguments, and then a body, as one rule.
    Arguments,
}

// Whether the expansion prints as `want`.
fn is_shown<A: Allocator + Copy>(
    alloc: A,
    expansion: &Expansion<A>,
    want: &str,
) -> Result<bool, AllocError> {
    let (tree, arm) = &expansion.value;
    let head = head_of(alloc, expansion.err.as_ref(), *arm)?;
    let mut out = Vec::new(alloc);
    if print_expansion(head.as_str(), tree, &mut out).is_err() {
        return Err(AllocError);
    }
    Ok(out.as_slice() == want.as_bytes())
}

// Whether the call expands as the row says.
fn expands<A: Allocator + Copy>(
    alloc: A,
    rules: &DeclarativeMacro<A>,
    argument: &TopSubtree<A>,
    want: &str,
) -> Result<bool, AllocError> {
    let expansion = made(alloc, &SampleGrammar, rules, argument)?;
    is_shown(alloc, &expansion, want)
}

// Whether the call expands as the row says, and again if memory ran out.
fn expands_again<A: Allocator + Copy>(
    alloc: A,
    [definition, argument, _status, want, ..]: Fields,
) -> Result<bool, AllocError> {
    let rules = defined(alloc, definition)?;
    let argument = lexed(alloc, 1, argument)?;
    match expands(alloc, &rules, &argument, want) {
        Ok(passes) => Ok(passes),
        Err(AllocError) => expands(alloc, &rules, &argument, want),
    }
}

// Whether trees are read to a macro with a rule, and once more to an equal one. If memory runs out
// the first time, they are read again.
fn reads_again<A: Allocator + Copy>(
    alloc: A,
    sort: &str,
    definition: &str,
) -> Result<bool, AllocError> {
    let args = lexed(alloc, 0, sort)?;
    let body = lexed(alloc, 0, definition)?;
    is_read_again(alloc, sort, &args, &body)
}

fn is_read_again<A: Allocator + Copy>(
    alloc: A,
    sort: &str,
    args: &TopSubtree<A>,
    body: &TopSubtree<A>,
) -> Result<bool, AllocError> {
    let first = read_as(alloc, sort, args, body);
    let again = read_as(alloc, sort, args, body)?;
    match first {
        Ok(first) => Ok(first.num_rules() > 0 && first == again),
        Err(AllocError) => Ok(again.num_rules() > 0),
    }
}

// Whether a definition is read so in both forms.
fn reads_both<A: Allocator + Copy>(alloc: A, definition: &str) -> Result<bool, AllocError> {
    Ok(reads_again(alloc, "rules", definition)? && reads_again(alloc, "body", definition)?)
}

impl AllocRowTest for AllocScenario {
    fn passes<A: Allocator + Copy>(&self, alloc: A, fields: Fields) -> Result<bool, AllocError> {
        let [definition, ..] = fields;
        match self {
            AllocScenario::Expanding => expands_again(alloc, fields),
            AllocScenario::Reading => reads_both(alloc, definition),
            AllocScenario::Arguments => reads_again(alloc, "$($x:ident),*", definition),
        }
    }
}

// Every form of pattern and of template; then with a second rule and a fault.
pub const FORMS: &str = rows![
    ("unsafe attr(x) ($a:ident $b:literal [c] 1 + $($d:expr),* $($e:ty)'f + $($g:tt)1? $(h)=>* \
    $(i)* $(k)and* $crate) => {$a $j [c] 1 + $($d $e);* $($g)? ${ignore($a)} ${index()} ${len(1)} ${count($d)} ${count($e, 1)} \
    ${concat(a, $a, 1)} $$ $crate $}"),
    ("unsafe attr(x) ($a:ident $b:literal [c] 1 + $($d:expr),* $($e:ty)'f + $($g:tt)1? $(h)=>* \
    $(i)* $(k)and* $crate) => {$a $j [c] 1 + $($d $e);* $($g)? ${ignore($a)} ${index()} ${len(1)} ${count($d)} ${count($e, 1)} \
    ${concat(a, $a, 1)} $$ $crate $}; () => {}; ($x)"),
];
