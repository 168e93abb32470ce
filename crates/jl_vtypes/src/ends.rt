//! Why questions about classes have no answer.

ghost use Rattle.std.specs.Prelude.{◌≡◌, IfOk};
ghost use Rattle.jl_vtypes.specs.declared.ends.HierarchyEnd.TheVariants as ends;

use jl_names::Units;
use jl_prim::{CopyEnd, ErrorKind, PushEnd};
use std::alloc::{AllocError, AllocFailed};

/// Why a question about classes has no answer.
#[derive(Debug, Drop)]
pub enum HierarchyEnd {
    /// A class that the question names does not load: an error of this class, with this message or none.
    Missing(ErrorKind, Option<Units>),
    /// The outside failed.
    ReadFault,
    /// There was no memory for the answer.
    NoMemory,
}

impl HierarchyEnd {
    /// An equal end. The source stays as it is.
    pub fn copy(&self) -> Result<HierarchyEnd, CopyEnd>
        ensures { IfOk result (λ it. it ≡ self.now) }
    {
        match self {
            HierarchyEnd::Missing(kind, None) => Ok(HierarchyEnd::Missing(*kind, None)),
            HierarchyEnd::Missing(kind, Some(message)) => match message.copy() {
                Ok(message) => Ok(HierarchyEnd::Missing(*kind, Some(message))),
                Err(_) => Err(CopyEnd::NoMemory),
            },
            HierarchyEnd::ReadFault => Ok(HierarchyEnd::ReadFault),
            HierarchyEnd::NoMemory => Ok(HierarchyEnd::NoMemory),
        }
    }
}

impl From<AllocError> for HierarchyEnd {
    ghost from_gives = { λ _ e. e ≡ ends.NoMemory };

    fn from(_e: AllocError) -> HierarchyEnd {
        HierarchyEnd::NoMemory
    }
}

impl<T: Drop> From<AllocFailed<T>> for HierarchyEnd {
    ghost from_gives = { λ _ e. e ≡ ends.NoMemory };

    fn from(_e: AllocFailed<T>) -> HierarchyEnd {
        HierarchyEnd::NoMemory
    }
}

impl From<CopyEnd> for HierarchyEnd {
    ghost from_gives = { λ _ e. e ≡ ends.NoMemory };

    fn from(_e: CopyEnd) -> HierarchyEnd {
        HierarchyEnd::NoMemory
    }
}

impl From<PushEnd> for HierarchyEnd {
    ghost from_gives = { λ _ e. e ≡ ends.NoMemory };

    fn from(_e: PushEnd) -> HierarchyEnd {
        HierarchyEnd::NoMemory
    }
}
