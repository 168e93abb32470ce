//! The folders below a module's folder.

ghost use Rattle.std.specs.Prelude.{◌≡◌, ◌≤◌, ◌∷◌, ◌++◌, [], List, Some, nat_eq, slice_get, IfOk, IfErr, IsErrOf, if◌then◌else◌, IsTrue, MatchResult};
ghost use Rattle.std.specs.Cmp.Lexicographic.{pointwise};
ghost use Rattle.std.specs.List.{IsDistinct};
ghost use Rattle.indexmap.specs.IndexSet.{insert_all};
ghost use Rattle.jl_logic.specs.Answers.{Gives};
ghost use Rattle.jl_logic.specs.Counts.{Rose};
ghost use Rattle.jl_tree.specs.Files.{File};
ghost use Rattle.jl_finder.specs.Observed.{told};
ghost use Rattle.jl_finder.specs.Scanning as scanned;
ghost use Rattle.jl_finder.specs.Scanning.{AreEntries, TellsNothing, Steps, walked_in, walked_from, walked_of};
ghost use Rattle.jl_finder.specs.Asking.{faults_with, TellsInside};

use crate::fault::FindFault;
use crate::listing::{entries_or_none, holds_class};
use crate::names::{behind, is_walked, path_in};
use indexmap::IndexSet;
use jl_prim::{Copied, CopyEnd, MOST_FOLDERS, Name};
use jl_tree::{Entry, Tree};
use std::alloc::Global;

/// The packages of a module, and how many folders are listed then.
#[derive(Drop)]
pub struct Walked {
    pub packages: Vec<Name>,
    pub folders: usize,
}

/// A walk under way: the folders that are known, those first that are listed, and the packages among these.
#[derive(Drop)]
struct Walking {
    folders: IndexSet<Name>,
    packages: Vec<Name>,
}

/// Walks the folders below a module's folder, of which these are the entries, where so many folders are listed
/// already. `TooMany` before folder 65,537 is listed.
pub fn walk<T: Tree>(
    alloc: Global,
    tree: &mut T,
    place: &Name,
    top: &[Entry],
    listed: usize,
) -> Result<Walked, FindFault>
    ensures gives { (files : List File) → T.files tree.old ≡ Some files → AreEntries files place.now top.now → Gives told walked_of result (walked_from files place.now listed) }
    ensures same_files { T.files tree.new ≡ T.files tree.old }
    ensures counts { T.faults tree.old ≤ T.faults tree.new }
    ensures read_fault { IsErrOf result FindFault.ReadFault → Rose (T.faults tree.old) (T.faults tree.new) }
    ensures same_asked { T.asked tree.new ≡ T.asked tree.old }
    ensures exact { IsTrue T.counts_exactly → MatchResult result (λ _. T.faults tree.new ≡ T.faults tree.old) (λ e. T.faults tree.new ≡ faults_with e (T.faults tree.old)) }
    ensures inside { IfErr result TellsInside }
{
    let mut walking = Walking {
        folders: with_folders(IndexSet::new(alloc), alloc, "", top)?,
        packages: Vec::new(alloc),
    };
    for count in listed..MOST_FOLDERS + 1 {
        let folder = match folder_at(&walking.folders, count - listed)? {
            None => return finished(walking, count),
            Some(folder) => folder,
        };
        if count == MOST_FOLDERS {
            return Err(FindFault::TooMany);
        }
        walking = walk_folder(alloc, tree, place, walking, folder)?;
    }
    Err(FindFault::TooMany)
}

/// One folder more is listed.
fn walk_folder<T: Tree>(
    alloc: Global,
    tree: &mut T,
    place: &Name,
    walking: Walking,
    folder: Name,
) -> Result<Walking, FindFault>
    ensures steps { (files : List File) → T.files tree.old ≡ Some files → IfOk result (λ after. Steps files place.now folder walking.folders.keys walking.packages.items after.folders.keys after.packages.items) }
    ensures tells_nothing { IfErr result TellsNothing }
    ensures same_files { T.files tree.new ≡ T.files tree.old }
    ensures counts { T.faults tree.old ≤ T.faults tree.new }
    ensures read_fault { IsErrOf result FindFault.ReadFault → Rose (T.faults tree.old) (T.faults tree.new) }
    ensures same_asked { T.asked tree.new ≡ T.asked tree.old }
    ensures exact { IsTrue T.counts_exactly → MatchResult result (λ _. T.faults tree.new ≡ T.faults tree.old) (λ e. T.faults tree.new ≡ faults_with e (T.faults tree.old)) }
    ensures inside { IfErr result TellsInside }
{
    let path = path_in(alloc, place, folder.as_str())?;
    let front = behind(alloc, folder.as_str(), "/")?;
    let entries = entries_or_none(alloc, tree, &path)?;
    let Walking { folders, packages } = walking;
    let folders = with_folders(folders, alloc, front.as_str(), entries.as_slice())?;
    let packages = with_package(packages, folder, entries.as_slice())?;
    Ok(Walking { folders, packages })
}

/// The folder at a place. None past the end.
fn folder_at(folders: &IndexSet<Name>, at: usize) -> Result<Option<Name>, CopyEnd>
    ensures found { IfOk result (λ folder. folder ≡ slice_get folders.now.keys at) }
    ensures distinct { IsDistinct (pointwise nat_eq) folders.now.keys }
{
    if at >= folders.len() {
        return Ok(None);
    }
    match folders.get_index(at) {
        None => Ok(None),
        Some(folder) => Ok(Some(folder.copy()?)),
    }
}

/// The folder is a package where a class file is among its entries.
fn with_package(packages: Vec<Name>, folder: Name, entries: &[Entry]) -> Result<Vec<Name>, CopyEnd>
    ensures { IfOk result (λ after. after.items ≡ (if scanned.holds_class entries.now then packages.items ++ folder ∷ [] else packages.items)) }
{
    let mut more = packages;
    if holds_class(entries) {
        more.push(folder)?;
    }
    Ok(more)
}

/// The folders to walk among the entries are known too, by this text and their names.
fn with_folders(
    folders: IndexSet<Name>,
    alloc: Global,
    front: &str,
    entries: &[Entry],
) -> Result<IndexSet<Name>, CopyEnd>
    ensures { IfOk result (λ after. after.keys ≡ insert_all (pointwise nat_eq) folders.keys (walked_in front.now entries.now)) }
{
    let mut more = folders;
    for entry in entries {
        if is_walked_entry(entry) {
            more.insert(behind(alloc, front, entry.name.as_str())?)?;
        }
    }
    Ok(more)
}

fn is_walked_entry(entry: &Entry) -> bool
    ensures { result ≡ scanned.is_walked_entry entry.now }
{
    entry.is_dir && is_walked(entry.name.as_bytes())
}

/// The packages in the order of their names.
fn finished(walking: Walking, folders: usize) -> Result<Walked, FindFault>
    ensures sorted { IfOk result (λ walked. scanned.AreSortedNames walking.packages.items walked.packages.items) }
    ensures count { IfOk result (λ walked. walked.folders ≡ folders) }
    ensures no_fault { IfErr result (λ e. e ≡ FindFault.NoMemory) }
{
    let mut packages = walking.packages;
    packages.sort()?;
    Ok(Walked { packages, folders })
}
