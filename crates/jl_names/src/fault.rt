//! Why texts are not read, made or copied.

ghost use Rattle.std.specs.Prelude.{◌≡◌};
ghost use Rattle.jl_names.specs.declared.fault.TextFault.TheVariants as texts;
ghost use Rattle.jl_names.specs.declared.fault.CopyEnd.TheVariants as copies;

use std::alloc::{AllocError, AllocFailed};

/// Why a text was not read or made.
#[derive(Clone, Copy, Debug, PartialEq, Eq)]
pub enum TextFault {
    /// Here stands the first byte with which no such text goes on, or the text ends too early.
    BadText(usize),
    /// There was no memory for the answer.
    NoMemory,
}

/// Why a value was not copied.
#[derive(Clone, Copy, Debug, PartialEq, Eq)]
pub enum CopyEnd {
    /// There was no memory for the copy.
    NoMemory,
}

impl From<AllocError> for TextFault {
    ghost from_gives = { λ _ e. e ≡ texts.NoMemory };

    fn from(_e: AllocError) -> TextFault {
        TextFault::NoMemory
    }
}

impl<T: Drop> From<AllocFailed<T>> for TextFault {
    ghost from_gives = { λ _ e. e ≡ texts.NoMemory };

    fn from(_e: AllocFailed<T>) -> TextFault {
        TextFault::NoMemory
    }
}

impl From<AllocError> for CopyEnd {
    ghost from_gives = { λ _ e. e ≡ copies.NoMemory };

    fn from(_e: AllocError) -> CopyEnd {
        CopyEnd::NoMemory
    }
}
