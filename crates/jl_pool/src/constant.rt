//! Constants by what they say.

ghost use Rattle.std.specs.Prelude.{◌≡◌, length, nat_le, IfOk, IsOkUnless};
ghost use Rattle.jl_names.specs.Text.{text_bytes};
ghost use Rattle.jl_names.specs.Utf16.{utf16};
ghost use Rattle.jl_pool.specs.Builder.{text_in};
ghost use Rattle.jl_pool.specs.declared.constant.BuildEnd.TheVariants as ends;

use crate::memory::made;
use jl_names::{bytes_of, utf16_of};
use jl_prim::{CopyEnd, Name};
use std::alloc::{AllocError, AllocFailed, Global};

/// A constant of a pool by its text, or by the name that it has (JVMS 4.4).
#[derive(Debug, PartialEq, Eq, Hash, Drop)]
pub enum Constant {
    /// A Utf8 entry.
    Text(Name),
    /// A Class entry, whose name is in internal form.
    Class(Name),
    Module(Name),
    Package(Name),
}

/// Why a constant was not entered, or a pool not built.
#[derive(Clone, Copy, Debug, PartialEq, Eq)]
pub enum BuildEnd {
    /// The pool would have more entries than two bytes count.
    TooMany,
    /// There was no memory for it.
    NoMemory,
}

impl From<AllocError> for BuildEnd {
    ghost from_gives = { λ _ e. e ≡ ends.NoMemory };

    fn from(_e: AllocError) -> BuildEnd {
        BuildEnd::NoMemory
    }
}

impl<T: Drop> From<AllocFailed<T>> for BuildEnd {
    ghost from_gives = { λ _ e. e ≡ ends.NoMemory };

    fn from(_e: AllocFailed<T>) -> BuildEnd {
        BuildEnd::NoMemory
    }
}

impl From<CopyEnd> for BuildEnd {
    ghost from_gives = { λ _ e. e ≡ ends.NoMemory };

    fn from(_e: CopyEnd) -> BuildEnd {
        BuildEnd::NoMemory
    }
}

impl Constant {
    /// The text of the constant, or of its name.
    pub fn text(&self) -> &Name
        ensures { result.now ≡ text_in self.now }
    {
        match self {
            Constant::Text(name)
            | Constant::Class(name)
            | Constant::Module(name)
            | Constant::Package(name) => name,
        }
    }

    /// Whether the text is short enough for a pool: at most 65,535 bytes (JVMS 4.4.7).
    pub fn is_short(&self, alloc: Global) -> Result<bool, CopyEnd>
        ensures { IfOk result (λ short. short ≡ nat_le (length (text_bytes (utf16 (text_in self.now)))) 65535) }
    {
        let units = made(utf16_of(alloc, self.text().as_str()))?;
        let bytes = made(bytes_of(alloc, units.as_slice()))?;
        Ok(bytes.len() <= MOST_BYTES)
    }
}

/// The most bytes that a text of a pool has.
const MOST_BYTES: usize = 65535;
