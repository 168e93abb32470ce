//! Why a row does not go on, and how the call ends by it.

ghost use Rattle.std.specs.Prelude.{◌≡◌};
ghost use Rattle.jl_loads.specs.Ends.{Tells};
ghost use Rattle.jl_loads.specs.Outcomes.{error};
ghost use Rattle.jl_loads.specs.Worlds.{Thrown};
ghost use Rattle.jl_objops.specs.Outcomes as words;
ghost use Rattle.jl_objops.specs.declared.halt.Halt.TheVariants as halts;

use jl_heap::{Kind, RowEnd};
use jl_link::LinkEnd;
use jl_names::Units;
use jl_ops::Stop;
use jl_prim::{ClassId, CopyEnd, ErrorKind, MethodId};
use std::alloc::{AllocError, AllocFailed, Global};

/// Why a row does not go on. The store is as it was.
#[derive(Debug, Drop)]
pub enum Halt {
    /// An operand, an array or the heap is not as it has to be.
    Stop(Stop),
    /// A new throwable of this kind is thrown, with this message.
    Throws(ErrorKind, Option<Units>),
    /// The class has to be usable first.
    Needs(ClassId),
    /// A native method of `java.base` is called. Its arguments are still on the stack.
    Native(MethodId),
    NoMemory,
}

impl From<AllocError> for Halt {
    ghost from_gives = { λ _ h. h ≡ halts.NoMemory };

    fn from(_e: AllocError) -> Halt {
        Halt::NoMemory
    }
}

impl<T: Drop> From<AllocFailed<T>> for Halt {
    ghost from_gives = { λ _ h. h ≡ halts.NoMemory };

    fn from(_e: AllocFailed<T>) -> Halt {
        Halt::NoMemory
    }
}

impl From<jl_names::CopyEnd> for Halt {
    ghost from_gives = { λ _ h. h ≡ halts.NoMemory };

    fn from(_e: jl_names::CopyEnd) -> Halt {
        Halt::NoMemory
    }
}

impl From<CopyEnd> for Halt {
    ghost from_gives = { λ _ h. h ≡ halts.NoMemory };

    fn from(_e: CopyEnd) -> Halt {
        Halt::NoMemory
    }
}

/// The end of a row that does not go on, with the message of what is thrown.
pub fn end_of(alloc: Global, halt: Halt) -> RowEnd
    ensures end { words.EndsSo (words.end_of halt) result }
    ensures not_read { words.IsNotRead result }
{
    match halt {
        Halt::Stop(stop) => jl_ops::end_of(alloc, stop),
        Halt::Throws(kind, message) => RowEnd::Throws(kind, message),
        Halt::Needs(class) => RowEnd::Needs(class),
        Halt::Native(method) => RowEnd::Native(method),
        Halt::NoMemory => RowEnd::NoMemory,
    }
}

/// The end of a row of which the last part ended so.
pub fn ended(alloc: Global, part: Result<(), Halt>) -> RowEnd
    ensures { words.EndsBy part result }
{
    match part {
        Ok(()) => RowEnd::Next,
        Err(halt) => end_of(alloc, halt),
    }
}

/// What is found of operands, or how the row stops.
pub fn stopped<X: Drop>(found: Result<X, Stop>) -> Result<X, Halt>
    ensures { result ≡ words.stopped found }
{
    match found {
        Ok(x) => Ok(x),
        Err(stop) => Err(Halt::Stop(stop)),
    }
}

/// How a row stops on an object that has not what the row names.
pub fn no_member() -> Halt
    ensures { result ≡ words.no_member }
{
    Halt::Stop(Stop::Stuck(Kind::Ref, Kind::Ref))
}

/// How a row stops that names nothing of the pool of its class.
pub fn no_constant() -> Halt
    ensures { result ≡ words.no_constant }
{
    Halt::Stop(Stop::Stuck(Kind::Top, Kind::Top))
}

/// An error of linking, which is thrown.
pub fn of_link(end: LinkEnd) -> Halt
    ensures { (e : Thrown) → Tells end e → words.Halts (words.of_thrown e) result }
{
    match end {
        LinkEnd::Throws(kind, message) => Halt::Throws(kind, message),
        LinkEnd::ReadFault | LinkEnd::NoMemory => Halt::NoMemory,
    }
}

/// An error with a message, which is ASCII or other text.
pub fn throws(alloc: Global, kind: ErrorKind, message: &str) -> Halt
    ensures { words.Halts (words.of_thrown (error kind message.now)) result }
{
    of_link(jl_loads::error(alloc, kind, message))
}
