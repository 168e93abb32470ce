//! How a call that only needs memory ends without it.

ghost use Rattle.std.specs.Prelude.{◌≡◌};
ghost use Rattle.jl_prim.specs.declared.ends.CopyEnd.TheVariants as copies;
ghost use Rattle.jl_prim.specs.declared.ends.PushEnd.TheVariants as pushes;

use std::alloc::{AllocError, AllocFailed};

/// Why a value was not copied, or not made of others.
#[derive(Clone, Copy, Debug, PartialEq, Eq)]
pub enum CopyEnd {
    /// There was no memory for it.
    NoMemory,
}

/// Why an item was not taken into a list.
#[derive(Clone, Copy, Debug, PartialEq, Eq)]
pub enum PushEnd {
    /// There was no memory for one more item.
    NoMemory,
}

impl From<AllocError> for CopyEnd {
    ghost from_gives = { λ _ e. e ≡ copies.NoMemory };

    fn from(_e: AllocError) -> CopyEnd {
        CopyEnd::NoMemory
    }
}

impl<T: Drop> From<AllocFailed<T>> for CopyEnd {
    ghost from_gives = { λ _ e. e ≡ copies.NoMemory };

    fn from(_e: AllocFailed<T>) -> CopyEnd {
        CopyEnd::NoMemory
    }
}

impl<T: Drop> From<AllocFailed<T>> for PushEnd {
    ghost from_gives = { λ _ e. e ≡ pushes.NoMemory };

    fn from(_e: AllocFailed<T>) -> PushEnd {
        PushEnd::NoMemory
    }
}
