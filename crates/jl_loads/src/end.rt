//! Why a call does not answer.

ghost use Rattle.std.specs.Prelude.{◌≡◌};
ghost use Rattle.jl_loads.specs.declared.end.FileEnd.TheVariants as files;
ghost use Rattle.jl_loads.specs.declared.end.LinkEnd.TheVariants.{NoMemory};
ghost use Rattle.jl_loads.specs.declared.end.WorldFault.TheVariants as worlds;
ghost use Rattle.jl_loads.specs.Steps.{end_of};

use jl_access::FactsEnd;
use jl_names::Units;
use jl_prim::{CopyEnd, ErrorKind, PushEnd};
use std::alloc::{AllocError, AllocFailed};

/// Why a call that loads does not answer.
#[derive(Debug, Drop)]
pub enum LinkEnd {
    /// An error of this class, with this message, is thrown.
    Throws(ErrorKind, Option<Units>),
    /// The tree failed, and its count of faults rose.
    ReadFault,
    /// There was no memory.
    NoMemory,
}

/// Why it is not known whether there is a file.
#[derive(Clone, Copy, Debug, PartialEq, Eq)]
pub enum FileEnd {
    /// The tree failed, and its count of faults rose.
    ReadFault,
    /// There was no memory.
    NoMemory,
}

/// Why there is no world.
#[derive(Clone, Copy, Debug, PartialEq, Eq)]
pub enum WorldFault {
    /// There was no memory. What was given is dropped.
    NoMemory,
}

impl From<CopyEnd> for FileEnd {
    ghost from_gives = { λ _ e. e ≡ files.NoMemory };

    fn from(_e: CopyEnd) -> FileEnd {
        FileEnd::NoMemory
    }
}

impl From<AllocError> for FileEnd {
    ghost from_gives = { λ _ e. e ≡ files.NoMemory };

    fn from(_e: AllocError) -> FileEnd {
        FileEnd::NoMemory
    }
}

impl<T: Drop> From<AllocFailed<T>> for FileEnd {
    ghost from_gives = { λ _ e. e ≡ files.NoMemory };

    fn from(_e: AllocFailed<T>) -> FileEnd {
        FileEnd::NoMemory
    }
}

impl From<FileEnd> for LinkEnd {
    ghost from_gives = { λ f e. e ≡ end_of f };

    fn from(e: FileEnd) -> LinkEnd {
        match e {
            FileEnd::ReadFault => LinkEnd::ReadFault,
            FileEnd::NoMemory => LinkEnd::NoMemory,
        }
    }
}

impl From<CopyEnd> for LinkEnd {
    ghost from_gives = { λ _ e. e ≡ NoMemory };

    fn from(_e: CopyEnd) -> LinkEnd {
        LinkEnd::NoMemory
    }
}

impl From<PushEnd> for LinkEnd {
    ghost from_gives = { λ _ e. e ≡ NoMemory };

    fn from(_e: PushEnd) -> LinkEnd {
        LinkEnd::NoMemory
    }
}

impl From<AllocError> for LinkEnd {
    ghost from_gives = { λ _ e. e ≡ NoMemory };

    fn from(_e: AllocError) -> LinkEnd {
        LinkEnd::NoMemory
    }
}

impl<T: Drop> From<AllocFailed<T>> for LinkEnd {
    ghost from_gives = { λ _ e. e ≡ NoMemory };

    fn from(_e: AllocFailed<T>) -> LinkEnd {
        LinkEnd::NoMemory
    }
}

impl From<FactsEnd> for LinkEnd {
    ghost from_gives = { λ _ e. e ≡ NoMemory };

    fn from(_e: FactsEnd) -> LinkEnd {
        LinkEnd::NoMemory
    }
}

impl From<CopyEnd> for WorldFault {
    ghost from_gives = { λ _ e. e ≡ worlds.NoMemory };

    fn from(_e: CopyEnd) -> WorldFault {
        WorldFault::NoMemory
    }
}

impl From<AllocError> for WorldFault {
    ghost from_gives = { λ _ e. e ≡ worlds.NoMemory };

    fn from(_e: AllocError) -> WorldFault {
        WorldFault::NoMemory
    }
}

impl<T: Drop> From<AllocFailed<T>> for WorldFault {
    ghost from_gives = { λ _ e. e ≡ worlds.NoMemory };

    fn from(_e: AllocFailed<T>) -> WorldFault {
        WorldFault::NoMemory
    }
}
