// Types for the fields of an op. They keep rare and large values on the heap, so that an op is
// small: at most 56 bytes with an allocator of size 0.
ghost use Rattle.std.specs.Prelude.{◌≡◌, [], ◌∷◌, IfOk, is_some, option_copied};
ghost use Rattle.mbe_ops.specs.OpFields.{delimiter_of};
ghost use Rattle.mbe_ops.specs.OpFields as spec;

use crate::copies::clone_puncts;
use crate::ops::Separator;
use arrayvec::ArrayVec;
use mbe_tt::span::{Span, SyntaxContext};
use mbe_tt::tt::{Delimiter, DelimiterKind, Punct};
use std::alloc::{AllocError, Allocator, Global};
use std::marker::Model;
use std::{fmt, slice};

/// The puncts of an operator. Clauses see their list.
#[derive(Drop)]
pub struct Puncts<A: Allocator = Global> {
    repr: PunctsRepr<A>,
}

// Most operators are one punct. One punct takes no memory of its own.
#[derive(Drop)]
enum PunctsRepr<A: Allocator = Global> {
    One(Punct),
    More(Box<ArrayVec<Punct, 3>, A>),
}

impl<A: Allocator> Model for Puncts<A> {
    ghost use Rattle.std.specs.Prelude.{List};
    ghost use Rattle.mbe_tt.specs.declared.tt.Punct.{Punct};

    ghost Value = { List Punct };

    ghost use Rattle.mbe_ops.specs.OpFields.{puncts_of};

    ghost view = { λ p. puncts_of p.repr };
}

impl<A: Allocator> Puncts<A> {
    /// Makes a list of one punct. It takes no memory.
    pub fn one(punct: Punct) -> Puncts<A>
        ensures { result ≡ punct ∷ [] }
    {
        Puncts {
            repr: PunctsRepr::One(punct),
        }
    }

    /// Makes the list of these puncts. `AllocError` if out of memory.
    pub fn new(alloc: A, puncts: ArrayVec<Punct, 3>) -> Result<Puncts<A>, AllocError>
        ensures { IfOk result (λ repr. repr ≡ puncts.items) }
    {
        if let [punct] = puncts.as_slice() {
            return Ok(Puncts::one(*punct));
        }
        Ok(Puncts {
            repr: PunctsRepr::More(Box::new(alloc, puncts)?),
        })
    }

    /// Returns the puncts.
    pub fn as_slice(&self) -> &[Punct]
        ensures value { result.now ≡ self.now }
    {
        match &self.repr {
            PunctsRepr::One(punct) => slice::from_ref(punct),
            PunctsRepr::More(puncts) => puncts.as_slice(),
        }
    }

    /// Returns an equal copy. `AllocError` if out of memory.
    pub(crate) fn try_clone(&self, alloc: A) -> Result<Puncts<A>, AllocError>
        ensures { IfOk result (λ copy. copy ≡ self.now) }
    {
        match &self.repr {
            PunctsRepr::One(punct) => Ok(Puncts::one(*punct)),
            PunctsRepr::More(puncts) => Puncts::new(alloc, clone_puncts(puncts.as_ref())?),
        }
    }
}

impl<A: Allocator> fmt::Debug for Puncts<A> {
    fn fmt<W: fmt::Write>(&self, f: &mut fmt::Formatter<W>) -> fmt::Result {
        let puncts = self.as_slice();
        write!(f, "{puncts:?}")
    }
}

/// The separator of a repetition, or none. Clauses see that separator.
#[derive(Drop)]
pub struct OpSeparator<A: Allocator = Global> {
    repr: Option<Box<Separator<A>, A>>,
}

impl<A: Allocator> Model for OpSeparator<A> {
    ghost use Rattle.std.specs.Prelude.{Option, option_map};
    ghost use Rattle.mbe_ops.specs.declared.ops.Separator.{Separator};

    ghost Value = { Option (Separator A) };

    ghost view = { λ b. option_map (λ s. s.value) b.repr };
}

impl<A: Allocator> OpSeparator<A> {
    /// Makes the field of this separator. `AllocError` if out of memory.
    pub fn new(alloc: A, separator: Option<Separator<A>>) -> Result<OpSeparator<A>, AllocError>
        ensures { IfOk result (λ between. between ≡ separator) }
    {
        match separator {
            None => Ok(OpSeparator { repr: None }),
            Some(separator) => Ok(OpSeparator {
                repr: Some(Box::new(alloc, separator)?),
            }),
        }
    }

    /// Returns the separator, if there is one.
    pub fn as_ref(&self) -> Option<&Separator<A>>
        ensures value { option_copied result ≡ self.now }
        ensures variant { is_some result ≡ is_some self.now }
    {
        match &self.repr {
            None => None,
            Some(separator) => Some(separator.as_ref()),
        }
    }

    /// Returns whether there is a separator.
    pub fn is_some(&self) -> bool
        ensures { result ≡ is_some self.now }
    {
        self.repr.is_some()
    }
}

impl<A: Allocator> fmt::Debug for OpSeparator<A> {
    fn fmt<W: fmt::Write>(&self, f: &mut fmt::Formatter<W>) -> fmt::Result {
        let separator = self.as_ref();
        write!(f, "{separator:?}")
    }
}

/// The delimiter of a group of ops. Clauses see that delimiter.
#[derive(Drop)]
pub struct OpDelimiter<A: Allocator = Global> {
    repr: DelimiterRepr<A>,
}

// Most delimiters are two brackets of one byte each, in one file and context. Such a delimiter
// needs two start offsets, and those fit into the op itself. The order of the fields leaves no gap.
#[derive(Drop)]
enum DelimiterRepr<A: Allocator = Global> {
    Packed {
        kind: DelimiterKind,
        file: u32,
        ast: u32,
        ctx: SyntaxContext,
        opening: u32,
        close: u32,
    },
    Boxed(Box<Delimiter, A>),
}

// Returns the span of the byte that begins at `start`.
#[inline(always)]
fn byte_at(file: u32, ast: u32, ctx: SyntaxContext, start: u32) -> Span
    ensures { result ≡ spec.byte_at file ast ctx start }
{
    Span {
        file,
        ast,
        start,
        end: start.wrapping_add(1),
        ctx,
    }
}

impl<A: Allocator> DelimiterRepr<A> {
    #[inline(always)]
    fn delimiter(&self) -> Delimiter
        ensures { result ≡ delimiter_of self.now }
    {
        match self {
            DelimiterRepr::Packed {
                kind,
                file,
                ast,
                ctx,
                opening,
                close,
            } => Delimiter {
                opening: byte_at(*file, *ast, *ctx, *opening),
                close: byte_at(*file, *ast, *ctx, *close),
                kind: *kind,
            },
            DelimiterRepr::Boxed(delimiter) => *delimiter.as_ref(),
        }
    }
}

impl<A: Allocator> Model for OpDelimiter<A> {
    ghost use Rattle.mbe_tt.specs.declared.tt.Delimiter.{Delimiter};
    ghost use Rattle.mbe_ops.specs.OpFields.{delimiter_of};

    ghost Value = { Delimiter };

    ghost view = { λ a. delimiter_of a.repr };
}

impl<A: Allocator> OpDelimiter<A> {
    /// Makes the field of this delimiter. `AllocError` if out of memory: a delimiter takes memory
    /// of `alloc` unless its brackets are one byte each, in one file and context.
    #[inline(never)]
    pub fn new(alloc: A, delimiter: Delimiter) -> Result<OpDelimiter<A>, AllocError>
        ensures { IfOk result (λ around. around ≡ delimiter) }
    {
        let near = DelimiterRepr::Packed {
            kind: delimiter.kind,
            file: delimiter.opening.file,
            ast: delimiter.opening.ast,
            ctx: delimiter.opening.ctx,
            opening: delimiter.opening.start,
            close: delimiter.close.start,
        };
        if near.delimiter() == delimiter {
            return Ok(OpDelimiter { repr: near });
        }
        let repr = DelimiterRepr::Boxed(Box::new(alloc, delimiter)?);
        Ok(OpDelimiter { repr })
    }

    /// Returns an equal copy. `AllocError` if out of memory.
    pub fn try_clone(&self, alloc: A) -> Result<OpDelimiter<A>, AllocError>
        ensures { IfOk result (λ around. around ≡ self.now) }
    {
        OpDelimiter::new(alloc, self.get())
    }

    /// Returns the delimiter.
    #[inline(always)]
    pub fn get(&self) -> Delimiter
        ensures { result ≡ self.now }
    {
        self.repr.delimiter()
    }
}

impl<A: Allocator> fmt::Debug for OpDelimiter<A> {
    fn fmt<W: fmt::Write>(&self, f: &mut fmt::Formatter<W>) -> fmt::Result {
        let delimiter = self.get();
        write!(f, "{delimiter:?}")
    }
}
