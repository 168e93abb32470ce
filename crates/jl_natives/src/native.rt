//! Natives.

ghost use Rattle.std.specs.Prelude.{◌≡◌, ◌≤◌, IsTrue, IfSome, Err, None, false};
ghost use Rattle.jl_logic.specs.Answers.{Tells};
ghost use Rattle.jl_logic.specs.Counts.{Rose};
ghost use Rattle.jl_natives.specs.Table.{takes, row_of, is_outside};
ghost use Rattle.jl_natives.specs.Boxes.{View, told, IsFromOutside, answers_after, faults_after};
ghost use Rattle.jl_natives.specs.declared.native.NativeEnd.TheVariants as ends;

use crate::plain::Plain;
use jl_names::{CopyEnd, Units};
use jl_prim::ErrorKind;
use std::alloc::{AllocError, AllocFailed, Global};

/// Why a native gave no value.
#[derive(Debug, Drop)]
pub enum NativeEnd {
    /// It throws an object of this class, with this message or none.
    Throws(ErrorKind, Option<Units>),
    /// The outside failed. The count of faults rose.
    Failed,
    /// There was no memory for the answer.
    NoMemory,
}

impl From<AllocError> for NativeEnd {
    ghost from_gives = { λ _ e. e ≡ ends.NoMemory };

    fn from(_e: AllocError) -> NativeEnd {
        NativeEnd::NoMemory
    }
}

impl<T: Drop> From<AllocFailed<T>> for NativeEnd {
    ghost from_gives = { λ _ e. e ≡ ends.NoMemory };

    fn from(_e: AllocFailed<T>) -> NativeEnd {
        NativeEnd::NoMemory
    }
}

impl From<CopyEnd> for NativeEnd {
    ghost from_gives = { λ _ e. e ≡ ends.NoMemory };

    fn from(_e: CopyEnd) -> NativeEnd {
        NativeEnd::NoMemory
    }
}

/// A native method of `java.base`, by its number in the table of natives.
pub trait NativeOp: Drop {
    /// Its row, which never changes; the answers that it gave, where the outside decides it and it tells them; how often
    /// it failed, a count that never falls and stands still at the last value of a u64; and whether this count is exact:
    /// one fault more with each call that fails, and with no other.
    ghost view: { Self → View };

    /// The number of its row.
    fn row(&self) -> u16
        ensures number { result ≡ (view self.now).row }
        // A native whose arguments decide it keeps no list of answers.
        ensures no_list { is_outside (view self.now).row ≡ false → (view self.now).answers ≡ None };

    /// What it answers of the receiver, where it has one, and the arguments.
    ///
    /// Where these decide it, the value is that of its row, or it throws that row's error. Where the outside decides it,
    /// it throws nothing, and may fail.
    fn call(&mut self, alloc: Global, args: &[Plain]) -> Result<Plain, NativeEnd>
        // Each is of the kind that the row takes.
        requires { IsTrue (takes (view self.old).row args.now) }
        ensures same_row { (view self.new).row ≡ (view self.old).row }
        ensures decided { IfSome (row_of (view self.old).row args.now) (λ answer. Tells told result answer) }
        ensures from_outside { IsTrue (is_outside (view self.old).row) → IsFromOutside (view self.old).row result }
        ensures answers { (view self.new).answers ≡ answers_after (view self.old).row result (view self.old).answers }
        ensures failed { result ≡ Err ends.Failed → IsTrue (is_outside (view self.old).row) × Rose (view self.old).faults (view self.new).faults }
        ensures counts { (view self.old).faults ≤ (view self.new).faults }
        ensures same_exactness { (view self.new).counts_exactly ≡ (view self.old).counts_exactly }
        ensures exact { IsTrue (view self.old).counts_exactly → (view self.new).faults ≡ faults_after result (view self.old).faults };
}
