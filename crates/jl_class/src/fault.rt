//! Why a class file was not read.

ghost use Rattle.std.specs.Prelude.{◌≡◌};
ghost use Rattle.jl_class.specs.declared.fault.ClassFault.TheVariants.{NoMemory};
ghost use Rattle.jl_class.specs.Faults.{of_pool};

use jl_classfile::FileFault;
use jl_pool::PoolFault;
use jl_prim::{CopyEnd, Name, PushEnd};
use jl_reading::Fault;
use std::alloc::{AllocError, AllocFailed};

/// Why a class file was not read: the first fault from the left. Places are counted in bytes from 0.
#[derive(Debug, PartialEq, Drop)]
pub enum ClassFault {
    /// The file does not begin with 0xCAFEBABE.
    Magic,
    /// The major and minor version are none of those that are read: major 53 to 61, and from 56 on
    /// minor 0.
    Version(u16, u16),
    /// The number, text or attribute content at this place is not whole.
    Short(usize),
    /// The pool entry with this index is wrong, or one that only module declarations have.
    Pool(usize),
    /// The index at this place has no well-formed name, or not the name or descriptor that stands here.
    Name(usize),
    /// The flags at this place contradict one another.
    Flags(usize),
    /// The attribute whose name index stands at this place is repeated, not allowed here, or has a wrong
    /// content. The place behind a method is that of the Code which it lacks.
    Attribute(usize),
    /// The second member of one name and descriptor, by its name.
    RepeatedMember(Name),
    /// Bytes follow the file.
    Trailing,
    /// There was no memory for the class.
    NoMemory,
}

impl Fault for ClassFault {
    ghost use Rattle.std.specs.Prelude.{refl};
    ghost use Rattle.jl_class.specs.declared.fault.ClassFault.TheVariants as variants;
    ghost use Rattle.jl_class.specs.Faults as words;

    ghost told = { words.told };

    ghost short = { variants.Short };

    ghost tells_short = { λ at. refl };

    fn short(at: usize) -> ClassFault {
        ClassFault::Short(at)
    }
}

impl FileFault for ClassFault {
    ghost use Rattle.jl_class.specs.declared.fault.ClassFault.TheVariants as variants;

    ghost magic = { variants.Magic };

    ghost version = { variants.Version };

    fn magic() -> ClassFault {
        ClassFault::Magic
    }

    fn version(major: u16, minor: u16) -> ClassFault {
        ClassFault::Version(major, minor)
    }
}

impl From<AllocError> for ClassFault {
    ghost from_gives = { λ _ e. e ≡ NoMemory };

    fn from(_e: AllocError) -> ClassFault {
        ClassFault::NoMemory
    }
}

impl<T: Drop> From<AllocFailed<T>> for ClassFault {
    ghost from_gives = { λ _ e. e ≡ NoMemory };

    fn from(_e: AllocFailed<T>) -> ClassFault {
        ClassFault::NoMemory
    }
}

impl From<CopyEnd> for ClassFault {
    ghost from_gives = { λ _ e. e ≡ NoMemory };

    fn from(_e: CopyEnd) -> ClassFault {
        ClassFault::NoMemory
    }
}

impl From<PushEnd> for ClassFault {
    ghost from_gives = { λ _ e. e ≡ NoMemory };

    fn from(_e: PushEnd) -> ClassFault {
        ClassFault::NoMemory
    }
}

impl From<PoolFault> for ClassFault {
    ghost from_gives = { λ f e. e ≡ of_pool f };

    fn from(f: PoolFault) -> ClassFault {
        match f {
            PoolFault::Short(at) => ClassFault::Short(at),
            PoolFault::Entry(index) => ClassFault::Pool(index),
            PoolFault::NoMemory => ClassFault::NoMemory,
        }
    }
}
