//! Trees of files.

ghost use Rattle.std.specs.Prelude.{◌≡◌, ◌≤◌, ℕ, Bool, IsTrue, List, Option, IfOk, IfErr, IfSome, IsErrOf, option_map};
ghost use Rattle.jl_logic.specs.Answers.{Gives};
ghost use Rattle.jl_logic.specs.Counts.{Rose};
ghost use Rattle.jl_tree.specs.Files.{File, Lists, read_of, told, IsNotLong, AsksFor, faults_after};
ghost use Rattle.jl_tree.specs.declared.tree.TreeFault.TheVariants as fault;

use crate::entry::Entry;
use jl_prim::{CopyEnd, Name, PushEnd};
use std::alloc::{AllocError, AllocFailed, Global};
use thiserror::Error;

/// Why a tree did not answer.
#[derive(Clone, Copy, Debug, PartialEq, Eq, Drop, Error)]
pub enum TreeFault {
    /// The outside failed. The count of faults rose.
    #[error("the tree failed")]
    Failed,
    /// The file has this many bytes, which is more than was asked for.
    #[error("the file has {0} bytes")]
    TooLong(u64),
    /// There was no memory for the answer.
    #[error("out of memory")]
    NoMemory,
}

impl From<AllocError> for TreeFault {
    ghost from_gives = { λ _ e. e ≡ fault.NoMemory };

    fn from(_e: AllocError) -> TreeFault {
        TreeFault::NoMemory
    }
}

impl<T: Drop> From<AllocFailed<T>> for TreeFault {
    ghost from_gives = { λ _ e. e ≡ fault.NoMemory };

    fn from(_e: AllocFailed<T>) -> TreeFault {
        TreeFault::NoMemory
    }
}

impl From<CopyEnd> for TreeFault {
    ghost from_gives = { λ _ e. e ≡ fault.NoMemory };

    fn from(_e: CopyEnd) -> TreeFault {
        TreeFault::NoMemory
    }
}

impl From<PushEnd> for TreeFault {
    ghost from_gives = { λ _ e. e ≡ fault.NoMemory };

    fn from(_e: PushEnd) -> TreeFault {
        TreeFault::NoMemory
    }
}

/// A tree of files, named by paths with `/`. A path is taken as it is written.
pub trait Tree {
    /// Its files, where it tells them. No call changes them.
    ghost files: { Self → Option (List File) };

    /// The paths that `read` was asked for, in order, where it tells them.
    ghost asked: { Self → Option (List (List ℕ)) };

    /// How often it failed. The count never falls, and stands still at the last value of a u64.
    ghost faults: { Self → ℕ };

    /// Whether its count is exact: one fault more with each call that fails, and with no other.
    ghost counts_exactly: { Bool };

    /// The entries of a folder, in any order. None where the folder is not there.
    fn list(&mut self, alloc: Global, dir: &Name) -> Result<Option<Vec<Entry>>, TreeFault>
        // Where the files are told, the entries are those of the folder.
        ensures told_listed { IfSome (files self.old) (λ all. IfOk result (λ listed. Lists all dir.now (option_map (λ v. v.items) listed))) }
        ensures never_long { IfErr result IsNotLong }
        ensures same_files { files self.new ≡ files self.old }
        ensures same_asked { asked self.new ≡ asked self.old }
        ensures counts { faults self.old ≤ faults self.new }
        ensures failed { IsErrOf result TreeFault.Failed → Rose (faults self.old) (faults self.new) }
        ensures exact { IsTrue counts_exactly → faults self.new ≡ faults_after result (faults self.old) };

    /// The bytes of a whole file, which may be `most` at the most. None where the file is not there.
    fn read(
        &mut self,
        alloc: Global,
        path: &Name,
        most: usize,
    ) -> Result<Option<Vec<u8>>, TreeFault>
        // Where the files are told, the bytes are those of the file, or it is too long.
        ensures told_read { IfSome (files self.old) (λ all. Gives told (option_map (λ v. v.items)) result (read_of all path.now most)) }
        ensures same_files { files self.new ≡ files self.old }
        ensures asks { AsksFor (asked self.old) path.now result (asked self.new) }
        ensures counts { faults self.old ≤ faults self.new }
        ensures failed { IsErrOf result TreeFault.Failed → Rose (faults self.old) (faults self.new) }
        ensures exact { IsTrue counts_exactly → faults self.new ≡ faults_after result (faults self.old) };
}
