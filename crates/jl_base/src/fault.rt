//! Why there is no image.

use jl_prim::CopyEnd;
use std::alloc::{AllocError, AllocFailed};

/// Why there is no image of the built-in `java.base`.
#[derive(Clone, Copy, Debug, PartialEq, Eq)]
pub enum BaseFault {
    NoMemory,
}

impl From<AllocError> for BaseFault {
    fn from(_e: AllocError) -> BaseFault {
        BaseFault::NoMemory
    }
}

impl<T: Drop> From<AllocFailed<T>> for BaseFault {
    fn from(_e: AllocFailed<T>) -> BaseFault {
        BaseFault::NoMemory
    }
}

impl From<CopyEnd> for BaseFault {
    fn from(_e: CopyEnd) -> BaseFault {
        BaseFault::NoMemory
    }
}
