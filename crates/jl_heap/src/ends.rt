//! How the calls of this crate end where they do not answer.

ghost use Rattle.std.specs.Prelude.{◌≡◌};
ghost use Rattle.jl_heap.specs.declared.ends.HeapEnd.TheVariants as heaps;
ghost use Rattle.jl_heap.specs.declared.ends.FrameEnd.TheVariants as frames;
ghost use Rattle.jl_heap.specs.declared.ends.StoreEnd.TheVariants as stores;
ghost use Rattle.jl_heap.specs.declared.ends.StaticsEnd.TheVariants as statics;
ghost use Rattle.jl_heap.specs.declared.ends.KeptEnd.TheVariants as kepts;

use crate::value::Kind;
use jl_names::{CopyEnd, Units};
use jl_prim::{ClassId, ErrorKind, MethodId, ObjRef, PushEnd};
use std::alloc::{AllocError, AllocFailed};

/// Why an object was not made, or did not grow.
#[derive(Clone, Copy, Debug, PartialEq, Eq)]
pub enum HeapEnd {
    /// The slots would pass the limit.
    Full,
    NoMemory,
}

/// Why a frame was not pushed.
#[derive(Clone, Copy, Debug, PartialEq, Eq)]
pub enum FrameEnd {
    /// The frames or their slots would pass the limit.
    Deep,
    NoMemory,
}

/// Why an object was not made at the start.
#[derive(Clone, Copy, Debug, PartialEq, Eq)]
pub enum StoreEnd {
    NoMemory,
}

/// Why a class was not entered.
#[derive(Clone, Copy, Debug, PartialEq, Eq)]
pub enum StaticsEnd {
    NoMemory,
}

/// Why an object was not kept.
#[derive(Clone, Copy, Debug, PartialEq, Eq)]
pub enum KeptEnd {
    NoMemory,
}

/// How a row of an instruction or a part of a native ends.
#[derive(Debug, Drop)]
pub enum RowEnd {
    Next,
    /// A new throwable of this kind is thrown, with this message.
    Throws(ErrorKind, Option<Units>),
    /// This object is thrown.
    Raises(ObjRef),
    /// The class has to be usable first.
    Needs(ClassId),
    /// A native method was selected. Its arguments are still on the stack.
    Native(MethodId),
    /// The program ends with this number.
    Exits(i32),
    /// A value of the first kind was wanted, and one of the second was found.
    Stuck(Kind, Kind),
    ReadFault,
    SinkFault,
    NoMemory,
}

impl From<AllocError> for HeapEnd {
    ghost from_gives = { λ _ e. e ≡ heaps.NoMemory };

    fn from(_e: AllocError) -> HeapEnd {
        HeapEnd::NoMemory
    }
}

impl<T: Drop> From<AllocFailed<T>> for HeapEnd {
    ghost from_gives = { λ _ e. e ≡ heaps.NoMemory };

    fn from(_e: AllocFailed<T>) -> HeapEnd {
        HeapEnd::NoMemory
    }
}

impl From<AllocError> for FrameEnd {
    ghost from_gives = { λ _ e. e ≡ frames.NoMemory };

    fn from(_e: AllocError) -> FrameEnd {
        FrameEnd::NoMemory
    }
}

impl<T: Drop> From<AllocFailed<T>> for FrameEnd {
    ghost from_gives = { λ _ e. e ≡ frames.NoMemory };

    fn from(_e: AllocFailed<T>) -> FrameEnd {
        FrameEnd::NoMemory
    }
}

impl From<AllocError> for StoreEnd {
    ghost from_gives = { λ _ e. e ≡ stores.NoMemory };

    fn from(_e: AllocError) -> StoreEnd {
        StoreEnd::NoMemory
    }
}

impl<T: Drop> From<AllocFailed<T>> for StoreEnd {
    ghost from_gives = { λ _ e. e ≡ stores.NoMemory };

    fn from(_e: AllocFailed<T>) -> StoreEnd {
        StoreEnd::NoMemory
    }
}

impl From<AllocError> for StaticsEnd {
    ghost from_gives = { λ _ e. e ≡ statics.NoMemory };

    fn from(_e: AllocError) -> StaticsEnd {
        StaticsEnd::NoMemory
    }
}

impl<T: Drop> From<AllocFailed<T>> for StaticsEnd {
    ghost from_gives = { λ _ e. e ≡ statics.NoMemory };

    fn from(_e: AllocFailed<T>) -> StaticsEnd {
        StaticsEnd::NoMemory
    }
}

impl From<AllocError> for KeptEnd {
    ghost from_gives = { λ _ e. e ≡ kepts.NoMemory };

    fn from(_e: AllocError) -> KeptEnd {
        KeptEnd::NoMemory
    }
}

impl<T: Drop> From<AllocFailed<T>> for KeptEnd {
    ghost from_gives = { λ _ e. e ≡ kepts.NoMemory };

    fn from(_e: AllocFailed<T>) -> KeptEnd {
        KeptEnd::NoMemory
    }
}

impl From<StoreEnd> for HeapEnd {
    ghost from_gives = { λ _ e. e ≡ heaps.NoMemory };

    fn from(_e: StoreEnd) -> HeapEnd {
        HeapEnd::NoMemory
    }
}

impl From<CopyEnd> for HeapEnd {
    ghost from_gives = { λ _ e. e ≡ heaps.NoMemory };

    fn from(_e: CopyEnd) -> HeapEnd {
        HeapEnd::NoMemory
    }
}

impl From<PushEnd> for HeapEnd {
    ghost from_gives = { λ _ e. e ≡ heaps.NoMemory };

    fn from(_e: PushEnd) -> HeapEnd {
        HeapEnd::NoMemory
    }
}
