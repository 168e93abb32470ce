//! Why modules are not found.

ghost use Rattle.std.specs.Prelude.{◌≡◌};
ghost use Rattle.jl_finder.specs.declared.fault.FindFault.TheVariants.{NoMemory};

use jl_modinfo::InfoFault;
use jl_prim::{CopyEnd, Name, PushEnd};
use std::alloc::{AllocError, AllocFailed};

/// Why modules are not found: the first fault in the order of the elements, and of the names in them.
#[derive(Debug, PartialEq, Drop)]
pub enum FindFault {
    /// The declaration file with this path declares no module.
    Info(Name, InfoFault),
    /// The element or the entry with this path is an archive, by its name.
    Archive(Name),
    /// Two modules in this directory have this name.
    TwoInDirectory(Name, Name),
    /// A class file stands beside a declaration file, outside all packages.
    TopLevelClass(Name),
    /// The declaration file with this path has this many bytes, which is more than 4 MiB.
    TooLarge(Name, u64),
    /// There are more than 4,096 modules or 65,536 folders.
    TooMany,
    /// The tree failed, and its count of faults rose.
    ReadFault,
    /// There was no memory for the modules.
    NoMemory,
}

impl From<CopyEnd> for FindFault {
    ghost from_gives = { λ _ e. e ≡ NoMemory };

    fn from(_e: CopyEnd) -> FindFault {
        FindFault::NoMemory
    }
}

impl From<PushEnd> for FindFault {
    ghost from_gives = { λ _ e. e ≡ NoMemory };

    fn from(_e: PushEnd) -> FindFault {
        FindFault::NoMemory
    }
}

impl From<AllocError> for FindFault {
    ghost from_gives = { λ _ e. e ≡ NoMemory };

    fn from(_e: AllocError) -> FindFault {
        FindFault::NoMemory
    }
}

impl<T: Drop> From<AllocFailed<T>> for FindFault {
    ghost from_gives = { λ _ e. e ≡ NoMemory };

    fn from(_e: AllocFailed<T>) -> FindFault {
        FindFault::NoMemory
    }
}
