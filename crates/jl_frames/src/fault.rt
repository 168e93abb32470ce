//! Why frames were not read.

ghost use Rattle.std.specs.Prelude.{◌≡◌};
ghost use Rattle.jl_frames.specs.declared.fault.FrameFault.TheVariants.{NoMemory};

use jl_reading::Fault;
use std::alloc::{AllocError, AllocFailed};

/// Why frames were not read: the first fault from the left. Places are counted from the start of the bytes.
#[derive(Clone, Copy, Debug, PartialEq, Eq)]
pub enum FrameFault {
    /// The number at this place is not whole.
    Short(usize),
    /// The tag of a frame at this place is one from 128 to 246, which are reserved (JVMS 4.7.4).
    BadTag(usize),
    /// The tag of an item at this place is greater than 8 (JVMS 4.7.4).
    BadItem(usize),
    /// Bytes follow the last frame.
    Trailing,
    /// There was no memory for the frames.
    NoMemory,
}

impl Fault for FrameFault {
    ghost use Rattle.std.specs.Prelude.{refl};
    ghost use Rattle.jl_frames.specs.declared.fault.FrameFault.TheVariants as variants;
    ghost use Rattle.jl_frames.specs.Reading as words;

    ghost told = { words.told };

    ghost short = { variants.Short };

    ghost tells_short = { λ at. refl };

    fn short(at: usize) -> FrameFault {
        FrameFault::Short(at)
    }
}

impl From<AllocError> for FrameFault {
    ghost from_gives = { λ _ e. e ≡ NoMemory };

    fn from(_e: AllocError) -> FrameFault {
        FrameFault::NoMemory
    }
}

impl<T: Drop> From<AllocFailed<T>> for FrameFault {
    ghost from_gives = { λ _ e. e ≡ NoMemory };

    fn from(_e: AllocFailed<T>) -> FrameFault {
        FrameFault::NoMemory
    }
}
