//! What stands in a folder, in the order of the names.

ghost use Rattle.std.specs.Prelude.{◌≡◌, ◌≤◌, List, Some, option_map, IfOk, IfErr, IsErrOf, find, IsTrue, MatchResult};
ghost use Rattle.jl_logic.specs.Counts.{Rose};
ghost use Rattle.jl_tree.specs.Files.{File};
ghost use Rattle.jl_finder.specs.Scanning as scanned;
ghost use Rattle.jl_finder.specs.Scanning.{AreSorted, AreEntries, IsListed, TellsNothing};
ghost use Rattle.jl_finder.specs.Asking.{faults_with, TellsInside};

use crate::fault::FindFault;
use crate::names::is_class_file;
use jl_prim::Name;
use jl_tree::{Entry, Tree, TreeFault};
use std::alloc::{AllocError, Global};

/// The entries of a folder. None where the folder is not there.
pub fn entries_in<T: Tree>(
    alloc: Global,
    tree: &mut T,
    dir: &Name,
) -> Result<Option<Vec<Entry>>, FindFault>
    ensures lists { (files : List File) → T.files tree.old ≡ Some files → IfOk result (λ listed. IsListed files dir.now (option_map (λ v. v.items) listed)) }
    ensures tells_nothing { IfErr result TellsNothing }
    ensures same_files { T.files tree.new ≡ T.files tree.old }
    ensures counts { T.faults tree.old ≤ T.faults tree.new }
    ensures read_fault { IsErrOf result FindFault.ReadFault → Rose (T.faults tree.old) (T.faults tree.new) }
    ensures same_asked { T.asked tree.new ≡ T.asked tree.old }
    ensures exact { IsTrue T.counts_exactly → MatchResult result (λ _. T.faults tree.new ≡ T.faults tree.old) (λ e. T.faults tree.new ≡ faults_with e (T.faults tree.old)) }
    ensures inside { IfErr result TellsInside }
{
    match tree.list(alloc, dir) {
        Ok(None) => Ok(None),
        Ok(Some(entries)) => Ok(Some(sorted(entries)?)),
        Err(TreeFault::Failed) => Err(FindFault::ReadFault),
        Err(TreeFault::TooLong(_)) => unreachable!(),
        Err(TreeFault::NoMemory) => Err(FindFault::NoMemory),
    }
}

/// The entries of a folder, none where it is not there.
pub fn entries_or_none<T: Tree>(
    alloc: Global,
    tree: &mut T,
    dir: &Name,
) -> Result<Vec<Entry>, FindFault>
    ensures lists { (files : List File) → T.files tree.old ≡ Some files → IfOk result (λ entries. AreEntries files dir.now entries.items) }
    ensures tells_nothing { IfErr result TellsNothing }
    ensures same_files { T.files tree.new ≡ T.files tree.old }
    ensures counts { T.faults tree.old ≤ T.faults tree.new }
    ensures read_fault { IsErrOf result FindFault.ReadFault → Rose (T.faults tree.old) (T.faults tree.new) }
    ensures same_asked { T.asked tree.new ≡ T.asked tree.old }
    ensures exact { IsTrue T.counts_exactly → MatchResult result (λ _. T.faults tree.new ≡ T.faults tree.old) (λ e. T.faults tree.new ≡ faults_with e (T.faults tree.old)) }
    ensures inside { IfErr result TellsInside }
{
    match entries_in(alloc, tree, dir)? {
        None => Ok(Vec::new(alloc)),
        Some(entries) => Ok(entries),
    }
}

/// The same entries in the order of their names.
fn sorted(entries: Vec<Entry>) -> Result<Vec<Entry>, AllocError>
    ensures { IfOk result (λ ordered. AreSorted entries.items ordered.items) }
{
    let mut entries = entries;
    entries.sort_by(|a, b| a.name.cmp(&b.name))?;
    Ok(entries)
}

/// Whether a class file is among the entries.
pub fn holds_class(entries: &[Entry]) -> bool
    ensures { result ≡ scanned.holds_class entries.now }
{
    entries.iter().any(|entry| is_class_entry(entry))
}

fn is_class_entry(entry: &Entry) -> bool
    ensures { result ≡ scanned.is_class_entry entry.now }
{
    !entry.is_dir && is_class_file(entry.name.as_bytes())
}

/// Whether a declaration file is among the entries.
pub fn declares(entries: &[Entry]) -> bool
    ensures { result ≡ scanned.declares entries.now }
{
    entries.iter().any(|entry| is_declaration(entry))
}

fn is_declaration(entry: &Entry) -> bool
    ensures { result ≡ scanned.is_declaration entry.now }
{
    !entry.is_dir && entry.name.as_str() == "module-info.class"
}

/// The first class file among the entries that is no declaration file.
pub fn first_top_class(entries: &[Entry]) -> Option<&Entry>
    ensures { option_map (λ e. e.now) result ≡ find scanned.is_top_class entries.now }
{
    entries.iter().find(|entry| is_top_class(entry))
}

fn is_top_class(entry: &Entry) -> bool
    ensures { result ≡ scanned.is_top_class entry.now }
{
    !entry.is_dir
        && is_class_file(entry.name.as_bytes())
        && entry.name.as_str() != "module-info.class"
}
