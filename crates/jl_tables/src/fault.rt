//! Why a declaration was not read or written.

ghost use Rattle.std.specs.Prelude.{◌≡◌, Err};
ghost use Rattle.jl_logic.specs.Answers.{Gives};
ghost use Rattle.jl_classfile.specs.Attributes.{IsFault};
ghost use Rattle.jl_tables.specs.declared.fault.InfoFault.TheVariants.{NotModule, Repeated, NoMemory};
ghost use Rattle.jl_tables.specs.declared.fault.InfoWriteFault.TheVariants as writes;
ghost use Rattle.jl_tables.specs.Faults.{told, of_pool};

use jl_classfile::FileFault;
use jl_pool::{PoolFault, PoolWriteFault};
use jl_prim::{CopyEnd, Name, PushEnd};
use jl_reading::Fault;
use std::alloc::{AllocError, AllocFailed, Global};

/// Why a declaration was not read: the first fault from the left, then the rules on the whole file in the
/// order `NoModuleAttribute`, `Trailing`, `BaseRule`, `PackageMissing`.
#[derive(Debug, PartialEq, Drop)]
pub enum InfoFault {
    /// The file does not begin with 0xCAFEBABE.
    BadMagic,
    /// The major version is none of those that are read.
    BadVersion,
    /// The number, text or attribute content at this place is not whole.
    Short(usize),
    /// The pool entry with this index is wrong.
    BadPool(usize),
    /// The first of flags, this, super, interfaces, fields and methods that no module declaration has.
    NotModule(Name),
    /// There is no Module attribute.
    NoModuleAttribute,
    /// At this place stands a wrong name, or an index of an entry of another kind.
    BadIndex(usize),
    /// A table has this name twice.
    Repeated(Name, Name),
    /// `java.base` requires a module, or another module does not require `java.base`.
    BaseRule,
    /// A package is exported, opened or implemented in, and is not among the packages.
    PackageMissing(Name),
    /// Bytes follow the file or the content of an attribute.
    Trailing,
    /// There was no memory for the declaration.
    NoMemory,
}

/// Why a declaration was not written.
#[derive(Debug, PartialEq, Drop)]
pub enum InfoWriteFault {
    /// The first of requires, exports, targets, opens, uses, provides, implementations and packages in a
    /// file, or else the pool, that would have more than 65,535 entries.
    TooMany(Name),
    /// There was no memory for the file.
    NoMemory,
}

impl From<AllocError> for InfoWriteFault {
    ghost from_gives = { λ _ e. e ≡ writes.NoMemory };

    fn from(_e: AllocError) -> InfoWriteFault {
        InfoWriteFault::NoMemory
    }
}

impl<T: Drop> From<AllocFailed<T>> for InfoWriteFault {
    ghost from_gives = { λ _ e. e ≡ writes.NoMemory };

    fn from(_e: AllocFailed<T>) -> InfoWriteFault {
        InfoWriteFault::NoMemory
    }
}

impl From<CopyEnd> for InfoWriteFault {
    ghost from_gives = { λ _ e. e ≡ writes.NoMemory };

    fn from(_e: CopyEnd) -> InfoWriteFault {
        InfoWriteFault::NoMemory
    }
}

impl From<PoolWriteFault> for InfoWriteFault {
    ghost from_gives = { λ _ e. e ≡ writes.NoMemory };

    fn from(_e: PoolWriteFault) -> InfoWriteFault {
        InfoWriteFault::NoMemory
    }
}

impl Fault for InfoFault {
    ghost use Rattle.std.specs.Prelude.{refl};
    ghost use Rattle.jl_tables.specs.declared.fault.InfoFault.TheVariants as variants;
    ghost use Rattle.jl_tables.specs.Faults as words;

    ghost told = { words.told };

    ghost short = { variants.Short };

    ghost tells_short = { λ at. refl };

    fn short(at: usize) -> InfoFault {
        InfoFault::Short(at)
    }
}

impl FileFault for InfoFault {
    ghost use Rattle.jl_tables.specs.declared.fault.InfoFault.TheVariants as variants;

    ghost magic = { variants.BadMagic };

    ghost version = { λ major minor. variants.BadVersion };

    fn magic() -> InfoFault {
        InfoFault::BadMagic
    }

    fn version(_major: u16, _minor: u16) -> InfoFault {
        InfoFault::BadVersion
    }
}

impl From<AllocError> for InfoFault {
    ghost from_gives = { λ _ e. e ≡ NoMemory };

    fn from(_e: AllocError) -> InfoFault {
        InfoFault::NoMemory
    }
}

impl<T: Drop> From<AllocFailed<T>> for InfoFault {
    ghost from_gives = { λ _ e. e ≡ NoMemory };

    fn from(_e: AllocFailed<T>) -> InfoFault {
        InfoFault::NoMemory
    }
}

impl From<CopyEnd> for InfoFault {
    ghost from_gives = { λ _ e. e ≡ NoMemory };

    fn from(_e: CopyEnd) -> InfoFault {
        InfoFault::NoMemory
    }
}

impl From<PushEnd> for InfoFault {
    ghost from_gives = { λ _ e. e ≡ NoMemory };

    fn from(_e: PushEnd) -> InfoFault {
        InfoFault::NoMemory
    }
}

impl From<PoolFault> for InfoFault {
    ghost from_gives = { λ f e. e ≡ of_pool f };

    fn from(f: PoolFault) -> InfoFault {
        match f {
            PoolFault::Short(at) => InfoFault::Short(at),
            PoolFault::Entry(index) => InfoFault::BadPool(index),
            PoolFault::NoMemory => InfoFault::NoMemory,
        }
    }
}

/// The fault of a part that no module declaration has.
pub fn not_module<T>(alloc: Global, field: &str) -> Result<T, InfoFault>
    ensures { Gives told (λ x. x) result (Err (NotModule field.now)) }
{
    Err(InfoFault::NotModule(Name::from_text(alloc, field)?))
}

/// The fault of a name that a table has twice.
pub fn repeated<T>(alloc: Global, table: &str, name: &str) -> Result<T, InfoFault>
    ensures { Gives told (λ x. x) result (Err (Repeated table.now name.now)) }
{
    Err(repetition(alloc, table, name))
}

/// Likewise, as the fault itself, which wants memory.
pub fn repetition(alloc: Global, table: &str, name: &str) -> InfoFault
    ensures { IsFault told result (Repeated table.now name.now) }
{
    match (Name::from_text(alloc, table), Name::from_text(alloc, name)) {
        (Ok(table), Ok(name)) => InfoFault::Repeated(table, name),
        _ => InfoFault::NoMemory,
    }
}
