//! A tree in memory.

ghost use Rattle.std.specs.Prelude.{◌≡◌, ◌≤◌, [], true, IsTrue, Some, IfOk, IfErr, IsErrOf, option_map, map};
ghost use Rattle.std.specs.List.{list_all};
ghost use Rattle.jl_logic.specs.Answers.{Gives};
ghost use Rattle.jl_logic.specs.Counts.{Rose};
ghost use Rattle.jl_tree.specs.Files.{Lists, read_of, told, IsNotLong, AsksFor, faults_after, file_at};
ghost use Rattle.jl_tree.specs.Memory.{files_of, are_apart, is_folder_of, is_tree, IsTree, known, mem_read, MemLists, AfterCall};

use crate::entry::Entry;
use crate::fails::{is_failing_call, one_more};
use crate::listing::{entries_below, part_below};
use crate::tree::{Tree, TreeFault};
use jl_prim::{Copied, Items, Name};
use std::alloc::Global;
use std::marker::Model;

/// A tree of files in memory. It keeps the paths that it was asked for.
#[derive(Drop)]
pub struct MemTree {
    files: Items<(Name, Items<u8>)>,
    fails: Items<u64>,
    asked: Items<Name>,
    calls: u64,
    faults: u64,
}

impl Model for MemTree {
    ghost use Rattle.jl_tree.specs.Memory.{MemTreeState, files_of, IsTree};

    ghost Value = { MemTreeState };

    ghost view = { λ t. record { files = files_of t.files; asked = t.asked; fails = t.fails; calls = t.calls; faults = t.faults } };

    ghost invariant = { λ t. IsTree (files_of t.files) };
}

impl MemTree {
    /// A tree of these files, each a path and the bytes there. The paths differ, and no path goes through
    /// another. The calls of `list` and `read` with the numbers in `fails` fail. They are counted together,
    /// from 1.
    pub fn new(alloc: Global, files: Items<(Name, Items<u8>)>, fails: Items<u64>) -> MemTree
        requires { IsTree (files_of files) }
        ensures { result ≡ record { files = files_of files; asked = []; fails = fails; calls = 0; faults = 0 } }
    {
        MemTree {
            files,
            fails,
            asked: Items::new(alloc),
            calls: 0,
            faults: 0,
        }
    }

    /// The paths that `read` was asked for, in order.
    pub fn asked(&self) -> &[Name]
        ensures { result.now ≡ self.now.asked }
    {
        self.asked.as_slice()
    }
}

impl Tree for MemTree {
    ghost files = { λ t. Some t.files };

    ghost asked = { λ t. Some t.asked };

    ghost faults = { λ t. t.faults };

    ghost counts_exactly = { true };

    fn list(&mut self, alloc: Global, dir: &Name) -> Result<Option<Vec<Entry>>, TreeFault>
        // The call fails exactly where its number says so, and else lists the folder.
        ensures answers { MemLists self.old dir.now result }
        ensures call { AfterCall self.old self.new result }
        ensures told_listed { IfOk result (λ listed. Lists self.old.files dir.now (option_map (λ v. v.items) listed)) }
        ensures never_long { IfErr result IsNotLong }
        ensures same_files { Some self.new.files ≡ Some self.old.files }
        ensures same_asked { Some self.new.asked ≡ Some self.old.asked }
        ensures counts { self.old.faults ≤ self.new.faults }
        ensures failed { IsErrOf result TreeFault.Failed → Rose self.old.faults self.new.faults }
        ensures exact { IsTrue true → self.new.faults ≡ faults_after result self.old.faults }
    {
        let fails = is_failing_call(self.fails.as_slice(), self.calls);
        self.calls = one_more(self.calls);
        if fails {
            self.faults = one_more(self.faults);
            return Err(TreeFault::Failed);
        }
        entries_below(alloc, self.files.as_slice(), dir)
    }

    fn read(
        &mut self,
        alloc: Global,
        path: &Name,
        most: usize,
    ) -> Result<Option<Vec<u8>>, TreeFault>
        // The call fails exactly where its number says so, and else reads the file.
        ensures answers { Gives known (option_map (λ v. v.items)) result (mem_read self.old path.now most) }
        ensures call { AfterCall self.old self.new result }
        ensures told_read { Gives told (option_map (λ v. v.items)) result (read_of self.old.files path.now most) }
        ensures same_files { Some self.new.files ≡ Some self.old.files }
        ensures asks { AsksFor (Some self.old.asked) path.now result (Some self.new.asked) }
        ensures counts { self.old.faults ≤ self.new.faults }
        ensures failed { IsErrOf result TreeFault.Failed → Rose self.old.faults self.new.faults }
        ensures exact { IsTrue true → self.new.faults ≡ faults_after result self.old.faults }
    {
        let fails = is_failing_call(self.fails.as_slice(), self.calls);
        self.calls = one_more(self.calls);
        self.asked.push(path.copy()?)?;
        if fails {
            self.faults = one_more(self.faults);
            return Err(TreeFault::Failed);
        }
        content_at(alloc, self.files.as_slice(), path, most)
    }
}

/// The bytes at a path, which may be `most` at the most.
fn content_at(
    alloc: Global,
    files: &[(Name, Items<u8>)],
    path: &Name,
    most: usize,
) -> Result<Option<Vec<u8>>, TreeFault>
    ensures { Gives known (option_map (λ v. v.items)) result (read_of (files_of files.now) path.now most) }
{
    let Some(bytes) = find_file(files, path) else {
        return Ok(None);
    };
    if bytes.len() > most {
        return Err(TreeFault::TooLong(bytes.len() as u64));
    }
    Ok(Some(Vec::from_slice(alloc, bytes)?))
}

fn find_file<'a>(files: &'a [(Name, Items<u8>)], path: &Name) -> Option<&'a [u8]>
    ensures { option_map (λ x. x.now) result ≡ file_at (files_of files.now) path.now }
{
    for (at, bytes) in files {
        if at == path {
            return Some(bytes.as_slice());
        }
    }
    None
}

/// Whether the paths differ and no path goes through another, so that a tree in memory can be made of them.
/// It compares each two paths.
pub fn are_of_one_tree(files: &[(Name, Items<u8>)]) -> bool
    ensures { result ≡ is_tree (map (λ f. f.path) (files_of files.now)) }
{
    let mut rest = files;
    while let Some(((path, _), after)) = rest.split_first() {
        if !is_apart_from_all(path, after) {
            return false;
        }
        rest = after;
    }
    true
}

fn is_apart_from_all(path: &Name, files: &[(Name, Items<u8>)]) -> bool
    ensures { result ≡ list_all (λ f. are_apart path.now f.0) files.now }
{
    files.iter().all(|file| are_two_apart(path, &file.0))
}

fn are_two_apart(path: &Name, other: &Name) -> bool
    ensures { result ≡ are_apart path.now other.now }
{
    path != other && !is_folder(path, other) && !is_folder(other, path)
}

fn is_folder(dir: &Name, path: &Name) -> bool
    ensures { result ≡ is_folder_of dir.now path.now }
{
    part_below(dir.as_str(), path.as_str()).is_some()
}
