//! Why a configuration is not kept, or a layer not defined.

ghost use Rattle.std.specs.Prelude.{◌≡◌};
ghost use Rattle.jl_layer.specs.declared.fault.KeepEnd.TheVariants as ends;
ghost use Rattle.jl_layer.specs.declared.fault.LayerFault.TheVariants as faults;
ghost use Rattle.jl_layer.specs.declared.fault.Lack.TheVariants as lacks;

use jl_access::FactsEnd;
use jl_loaders::LoadersEnd;
use jl_prim::{CopyEnd, Name, PushEnd};
use std::alloc::{AllocError, AllocFailed};

/// Why a configuration is not kept.
#[derive(Clone, Copy, Debug, PartialEq, Eq)]
pub enum KeepEnd {
    /// There was no memory for one more. Nothing has changed, and the configuration is dropped.
    NoMemory,
}

impl From<Lack> for KeepEnd {
    ghost from_gives = { λ _ e. e ≡ ends.NoMemory };

    fn from(_e: Lack) -> KeepEnd {
        KeepEnd::NoMemory
    }
}

/// Why a layer is not defined (`java.lang.LayerInstantiationException`). Nothing has changed then.
#[derive(Debug, PartialEq, Drop)]
pub enum LayerFault {
    /// The configurations of the parent layers are not the parents of the configuration, in number or in order.
    ParentMismatch,
    /// The configuration has a module `java.base`.
    BaseAgain,
    /// A module has this package, which is `java` or in it.
    JavaPackage(Name),
    /// Two modules, which share a loader, have the package.
    Overlap {
        package: Name,
        one: Name,
        other: Name,
    },
    /// Two modules above the layer, of two loaders, export the package to modules that share a loader, none of
    /// which has it.
    Split {
        package: Name,
        one: Name,
        other: Name,
    },
    /// All layers would have more than 4,096 modules, or there are 4,096 layers already, the empty one not counted.
    TooMany,
    /// There was no memory.
    NoMemory,
}

impl From<Lack> for LayerFault {
    ghost from_gives = { λ _ e. e ≡ faults.NoMemory };

    fn from(_e: Lack) -> LayerFault {
        LayerFault::NoMemory
    }
}

impl From<CopyEnd> for LayerFault {
    ghost from_gives = { λ _ e. e ≡ faults.NoMemory };

    fn from(_e: CopyEnd) -> LayerFault {
        LayerFault::NoMemory
    }
}

/// That there was no memory.
#[derive(Clone, Copy, Debug, PartialEq, Eq)]
pub enum Lack {
    /// There was no memory.
    NoMemory,
}

impl From<AllocError> for Lack {
    ghost from_gives = { λ _ e. e ≡ lacks.NoMemory };

    fn from(_e: AllocError) -> Lack {
        Lack::NoMemory
    }
}

impl<T: Drop> From<AllocFailed<T>> for Lack {
    ghost from_gives = { λ _ e. e ≡ lacks.NoMemory };

    fn from(_e: AllocFailed<T>) -> Lack {
        Lack::NoMemory
    }
}

impl From<CopyEnd> for Lack {
    ghost from_gives = { λ _ e. e ≡ lacks.NoMemory };

    fn from(_e: CopyEnd) -> Lack {
        Lack::NoMemory
    }
}

impl From<PushEnd> for Lack {
    ghost from_gives = { λ _ e. e ≡ lacks.NoMemory };

    fn from(_e: PushEnd) -> Lack {
        Lack::NoMemory
    }
}

impl From<LoadersEnd> for Lack {
    ghost from_gives = { λ _ e. e ≡ lacks.NoMemory };

    fn from(_e: LoadersEnd) -> Lack {
        Lack::NoMemory
    }
}

impl From<FactsEnd> for Lack {
    ghost from_gives = { λ _ e. e ≡ lacks.NoMemory };

    fn from(_e: FactsEnd) -> Lack {
        Lack::NoMemory
    }
}
