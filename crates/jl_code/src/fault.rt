//! Why code was not read.

ghost use Rattle.std.specs.Prelude.{◌≡◌};
ghost use Rattle.jl_code.specs.declared.fault.CodeFault.TheVariants.{NoMemory};

use std::alloc::{AllocError, AllocFailed};

/// Why code was not read. Faults of instructions have the place of the instruction, which for a widened one is
/// that of `wide`.
#[derive(Clone, Copy, Debug, PartialEq, Eq)]
pub enum CodeFault {
    /// There is no instruction.
    Empty,
    /// The opcode is none, or it stands behind `wide` and has no wide form.
    UnknownOp(u32),
    /// The operands are not whole.
    ShortOperand(u32),
    /// A branch leads to a place where no instruction stands, the keys of a switch do not rise, or the count of
    /// its pairs is negative.
    BadTarget(u32),
    /// The handler at this place of the list has a range, a target or a catch type that is none.
    BadRange(usize),
    /// The operand names no entry of the pool that the instruction can take, or is no count or type that fits.
    BadIndex(u32),
    /// There was no memory for the instructions.
    NoMemory,
}

impl From<AllocError> for CodeFault {
    ghost from_gives = { λ _ e. e ≡ NoMemory };

    fn from(_e: AllocError) -> CodeFault {
        CodeFault::NoMemory
    }
}

impl<T: Drop> From<AllocFailed<T>> for CodeFault {
    ghost from_gives = { λ _ e. e ≡ NoMemory };

    fn from(_e: AllocFailed<T>) -> CodeFault {
        CodeFault::NoMemory
    }
}
