//! Why a pool was not read or written.

ghost use Rattle.std.specs.Prelude.{◌≡◌};
ghost use Rattle.jl_pool.specs.declared.fault.PoolFault.TheVariants.{NoMemory};
ghost use Rattle.jl_pool.specs.declared.fault.PoolWriteFault.TheVariants as writes;

use jl_prim::CopyEnd;
use jl_reading::Fault;
use std::alloc::{AllocError, AllocFailed};

/// Why a pool was not read: the first fault from the left, then the least index of a wrong reference.
#[derive(Clone, Copy, Debug, PartialEq, Eq)]
pub enum PoolFault {
    /// The number or the text at this place is not whole.
    Short(usize),
    /// The entry with this index has an unknown tag, a bad text, a Long or Double at the last index, or a
    /// reference that names the wrong kind of entry.
    Entry(usize),
    /// There was no memory for the pool.
    NoMemory,
}

impl Fault for PoolFault {
    ghost use Rattle.std.specs.Prelude.{refl};
    ghost use Rattle.jl_pool.specs.declared.fault.PoolFault.TheVariants as variants;
    ghost use Rattle.jl_pool.specs.Reading as words;

    ghost told = { words.told };

    ghost short = { variants.Short };

    ghost tells_short = { λ at. refl };

    fn short(at: usize) -> PoolFault {
        PoolFault::Short(at)
    }
}

impl From<CopyEnd> for PoolFault {
    ghost from_gives = { λ _ e. e ≡ NoMemory };

    fn from(_e: CopyEnd) -> PoolFault {
        PoolFault::NoMemory
    }
}

impl From<AllocError> for PoolFault {
    ghost from_gives = { λ _ e. e ≡ NoMemory };

    fn from(_e: AllocError) -> PoolFault {
        PoolFault::NoMemory
    }
}

impl<T: Drop> From<AllocFailed<T>> for PoolFault {
    ghost from_gives = { λ _ e. e ≡ NoMemory };

    fn from(_e: AllocFailed<T>) -> PoolFault {
        PoolFault::NoMemory
    }
}

/// Why a pool was not written.
#[derive(Clone, Copy, Debug, PartialEq, Eq)]
pub enum PoolWriteFault {
    /// There was no memory for the bytes.
    NoMemory,
}

impl From<CopyEnd> for PoolWriteFault {
    ghost from_gives = { λ _ e. e ≡ writes.NoMemory };

    fn from(_e: CopyEnd) -> PoolWriteFault {
        PoolWriteFault::NoMemory
    }
}

impl From<AllocError> for PoolWriteFault {
    ghost from_gives = { λ _ e. e ≡ writes.NoMemory };

    fn from(_e: AllocError) -> PoolWriteFault {
        PoolWriteFault::NoMemory
    }
}

impl<T: Drop> From<AllocFailed<T>> for PoolWriteFault {
    ghost from_gives = { λ _ e. e ≡ writes.NoMemory };

    fn from(_e: AllocFailed<T>) -> PoolWriteFault {
        PoolWriteFault::NoMemory
    }
}
