//! Why a method is refused.

ghost use Rattle.std.specs.Prelude.{◌≡◌};
ghost use Rattle.jl_verify.specs.declared.fault.VerifyFault.TheVariants.{NoMemory};

use crate::rule::CheckRule;
use jl_code::CodeFault;
use jl_frames::FrameFault;
use jl_names::Units;
use jl_prim::{CopyEnd, ErrorKind, Name, PushEnd};
use std::alloc::{AllocError, AllocFailed};

/// Why a method was not accepted.
#[derive(Debug, Drop)]
pub enum VerifyFault {
    /// Its code is none.
    Code(CodeFault),
    /// Its stack map is none.
    Frames(FrameFault),
    /// The instruction at this place breaks a rule, or the frame declared for this place cannot be made.
    NotTyped(u32, CheckRule),
    /// A class with this name was asked for and does not load: an error of this class, with this message or none.
    ClassMissing(Name, ErrorKind, Option<Units>),
    /// The outside failed while a class was asked for.
    ReadFault,
    /// There was no memory for the check.
    NoMemory,
}

impl From<AllocError> for VerifyFault {
    ghost from_gives = { λ _ e. e ≡ NoMemory };

    fn from(_e: AllocError) -> VerifyFault {
        VerifyFault::NoMemory
    }
}

impl<T: Drop> From<AllocFailed<T>> for VerifyFault {
    ghost from_gives = { λ _ e. e ≡ NoMemory };

    fn from(_e: AllocFailed<T>) -> VerifyFault {
        VerifyFault::NoMemory
    }
}

impl From<CopyEnd> for VerifyFault {
    ghost from_gives = { λ _ e. e ≡ NoMemory };

    fn from(_e: CopyEnd) -> VerifyFault {
        VerifyFault::NoMemory
    }
}

impl From<PushEnd> for VerifyFault {
    ghost from_gives = { λ _ e. e ≡ NoMemory };

    fn from(_e: PushEnd) -> VerifyFault {
        VerifyFault::NoMemory
    }
}
