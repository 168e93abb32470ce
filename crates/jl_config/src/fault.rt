//! Why modules are not resolved.

ghost use Rattle.std.specs.Prelude.{◌≡◌};
ghost use Rattle.jl_config.specs.declared.fault.ResolveFault.TheVariants.{NoMemory};

use jl_prim::{CopyEnd, Name, PushEnd};
use std::alloc::{AllocError, AllocFailed};

/// Why a resolution is refused (`java.lang.module.ResolutionException`). The first condition that holds, in
/// the order of the variants from `NoParents` on, is given, and where it holds for several fields those that
/// are least in their order; no name comes before any name.
#[derive(Debug, PartialEq, Drop)]
pub enum ResolveFault {
    /// The list of parents is empty.
    NoParents,
    /// A root, or a module that the module `by` requires not statically, is not located.
    NotFound {
        name: Name,
        by: Option<Name>,
    },
    /// The set has more modules than there may be, or so many configurations are known.
    TooMany,
    /// Modules require each other in a cycle; `least` is on one.
    Cycle {
        least: Name,
    },
    /// A module reads two modules of one name.
    SameName {
        reader: Name,
        name: Name,
    },
    /// Two modules that the reader reads export the package to it.
    SamePackage {
        reader: Name,
        package: Name,
        one: Name,
        other: Name,
    },
    /// The reader has the package, and a module that it reads exports it to the reader.
    OwnPackage {
        reader: Name,
        package: Name,
        other: Name,
    },
    /// The service, used or provided by the module, is in a package that it neither has nor gets.
    ServicePackage {
        module: Name,
        service: Name,
    },
    /// There was no memory for the configuration.
    NoMemory,
}

impl From<AllocError> for ResolveFault {
    ghost from_gives = { λ _ e. e ≡ NoMemory };

    fn from(_e: AllocError) -> ResolveFault {
        ResolveFault::NoMemory
    }
}

impl<T: Drop> From<AllocFailed<T>> for ResolveFault {
    ghost from_gives = { λ _ e. e ≡ NoMemory };

    fn from(_e: AllocFailed<T>) -> ResolveFault {
        ResolveFault::NoMemory
    }
}

impl From<CopyEnd> for ResolveFault {
    ghost from_gives = { λ _ e. e ≡ NoMemory };

    fn from(_e: CopyEnd) -> ResolveFault {
        ResolveFault::NoMemory
    }
}

impl From<PushEnd> for ResolveFault {
    ghost from_gives = { λ _ e. e ≡ NoMemory };

    fn from(_e: PushEnd) -> ResolveFault {
        ResolveFault::NoMemory
    }
}
