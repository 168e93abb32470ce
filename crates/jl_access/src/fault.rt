//! How a call that only needs memory ends without it.

ghost use Rattle.std.specs.Prelude.{◌≡◌};
ghost use Rattle.jl_access.specs.declared.fault.FactsEnd.TheVariants.{NoMemory};

use jl_prim::CopyEnd;
use std::alloc::{AllocError, AllocFailed};

/// Why a fact or a note was not taken.
#[derive(Clone, Copy, Debug, PartialEq, Eq)]
pub enum FactsEnd {
    /// There was no memory for one more. Nothing has changed.
    NoMemory,
}

impl From<AllocError> for FactsEnd {
    ghost from_gives = { λ _ e. e ≡ NoMemory };

    fn from(_e: AllocError) -> FactsEnd {
        FactsEnd::NoMemory
    }
}

impl<T: Drop> From<AllocFailed<T>> for FactsEnd {
    ghost from_gives = { λ _ e. e ≡ NoMemory };

    fn from(_e: AllocFailed<T>) -> FactsEnd {
        FactsEnd::NoMemory
    }
}

impl From<CopyEnd> for FactsEnd {
    ghost from_gives = { λ _ e. e ≡ NoMemory };

    fn from(_e: CopyEnd) -> FactsEnd {
        FactsEnd::NoMemory
    }
}
