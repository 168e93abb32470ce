//! Why a class was not built or written.

ghost use Rattle.std.specs.Prelude.{◌≡◌};
ghost use Rattle.jl_logic.specs.Answers.{Gives};
ghost use Rattle.jl_classw.specs.declared.fault.WriteFault.TheVariants.{NoMemory};
ghost use Rattle.jl_classw.specs.Faults.{told};
ghost use Rattle.jl_classw.specs.Building as building;

use jl_names::TextFault;
use jl_pool::PoolWriteFault;
use jl_prim::{CopyEnd, Name, PushEnd};
use std::alloc::{AllocError, AllocFailed, Global};

/// Why a class was not built or written.
#[derive(Debug, PartialEq, Drop)]
pub enum WriteFault {
    /// The table of this name, one of `interfaces`, `fields`, `methods`, `handlers`, `attributes` and `pool`,
    /// would have more than 65,535 entries.
    TooMany(Name),
    /// There was no memory for it.
    NoMemory,
}

impl From<AllocError> for WriteFault {
    ghost from_gives = { λ _ e. e ≡ NoMemory };

    fn from(_e: AllocError) -> WriteFault {
        WriteFault::NoMemory
    }
}

impl<T: Drop> From<AllocFailed<T>> for WriteFault {
    ghost from_gives = { λ _ e. e ≡ NoMemory };

    fn from(_e: AllocFailed<T>) -> WriteFault {
        WriteFault::NoMemory
    }
}

impl From<CopyEnd> for WriteFault {
    ghost from_gives = { λ _ e. e ≡ NoMemory };

    fn from(_e: CopyEnd) -> WriteFault {
        WriteFault::NoMemory
    }
}

impl From<PushEnd> for WriteFault {
    ghost from_gives = { λ _ e. e ≡ NoMemory };

    fn from(_e: PushEnd) -> WriteFault {
        WriteFault::NoMemory
    }
}

impl From<PoolWriteFault> for WriteFault {
    ghost from_gives = { λ _ e. e ≡ NoMemory };

    fn from(_e: PoolWriteFault) -> WriteFault {
        WriteFault::NoMemory
    }
}

impl From<TextFault> for WriteFault {
    ghost from_gives = { λ _ e. e ≡ NoMemory };

    // names and units always have a text, so that only memory can be wanting
    fn from(_e: TextFault) -> WriteFault {
        WriteFault::NoMemory
    }
}

/// The fault of a table that has no room for more.
pub fn too_many<T>(alloc: Global, table: &str) -> Result<T, WriteFault>
    ensures { Gives told (λ x. x) result (building.too_many table.now) }
{
    Err(WriteFault::TooMany(Name::from_text(alloc, table)?))
}
