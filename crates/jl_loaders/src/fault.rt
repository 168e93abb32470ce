//! Why a loader or a constraint was not taken.

ghost use Rattle.std.specs.Prelude.{◌≡◌};
ghost use Rattle.jl_loaders.specs.declared.fault.LoadersEnd.TheVariants as ends;
ghost use Rattle.jl_loaders.specs.declared.fault.ConstraintFault.TheVariants as faults;

use jl_prim::{CopyEnd, ModuleId, Name};
use std::alloc::{AllocError, AllocFailed};

/// Why there is no room for loaders, or no parts of one.
#[derive(Clone, Copy, Debug, PartialEq, Eq)]
pub enum LoadersEnd {
    /// There was no memory. Nothing has changed.
    NoMemory,
}

impl From<AllocError> for LoadersEnd {
    ghost from_gives = { λ _ e. e ≡ ends.NoMemory };

    fn from(_e: AllocError) -> LoadersEnd {
        LoadersEnd::NoMemory
    }
}

impl<T: Drop> From<AllocFailed<T>> for LoadersEnd {
    ghost from_gives = { λ _ e. e ≡ ends.NoMemory };

    fn from(_e: AllocFailed<T>) -> LoadersEnd {
        LoadersEnd::NoMemory
    }
}

/// Why a constraint is not imposed.
#[derive(Debug, PartialEq, Drop)]
pub enum ConstraintFault {
    /// The loaders, or loaders that are joined with them, lead the name to two modules: the first to `one`, the
    /// second to `other`. Nothing has changed.
    Clash {
        name: Name,
        one: ModuleId,
        other: ModuleId,
    },
    /// There was no memory for one more. Nothing has changed.
    NoMemory,
}

impl From<AllocError> for ConstraintFault {
    ghost from_gives = { λ _ e. e ≡ faults.NoMemory };

    fn from(_e: AllocError) -> ConstraintFault {
        ConstraintFault::NoMemory
    }
}

impl<T: Drop> From<AllocFailed<T>> for ConstraintFault {
    ghost from_gives = { λ _ e. e ≡ faults.NoMemory };

    fn from(_e: AllocFailed<T>) -> ConstraintFault {
        ConstraintFault::NoMemory
    }
}

impl From<CopyEnd> for ConstraintFault {
    ghost from_gives = { λ _ e. e ≡ faults.NoMemory };

    fn from(_e: CopyEnd) -> ConstraintFault {
        ConstraintFault::NoMemory
    }
}
