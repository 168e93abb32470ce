//! Directories of modules.

ghost use Rattle.std.specs.Prelude.{◌≡◌, ◌≤◌, List, [], Some, IfOk, IsErrOf, map, IfErr, IsTrue, MatchResult};
ghost use Rattle.jl_logic.specs.Answers.{Gives};
ghost use Rattle.jl_logic.specs.Counts.{Rose};
ghost use Rattle.jl_tree.specs.Files.{File};
ghost use Rattle.jl_finder.specs.declared.fault.FindFault.TheVariants as finds;
ghost use Rattle.jl_finder.specs.Paths as paths;
ghost use Rattle.jl_finder.specs.Observed.{told, scan_entries, Tally, name_of, among};
ghost use Rattle.jl_finder.specs.Scanning.{tally_of, folder_found, entry_found, with_found};
ghost use Rattle.std.specs.List.{flat_map};
ghost use Rattle.jl_finder.specs.Asking.{faults_with, IsNotRead, TellsInside, AsksUpTo, Asks, asked_at, place_in, place_at, reads_of_entries, reads_of_entry, reads_of_folder};

use crate::counts::{Counts, one_folder};
use crate::fault::FindFault;
use crate::listing::{declares, entries_or_none};
use crate::module::scan_module;
use crate::names::{is_archive, path_in};
use indexmap::IndexSet;
use jl_prim::{Copied, CopyEnd, Name, Observed};
use jl_tree::{Entry, Tree};
use std::alloc::Global;

/// The modules in a directory with these entries, of which no two have one name.
pub fn scan_directory<T: Tree>(
    alloc: Global,
    tree: &mut T,
    dir: &Name,
    entries: &[Entry],
    counts: Counts,
) -> Result<(Vec<Observed>, Counts), FindFault>
    ensures gives { (files : List File) → T.files tree.old ≡ Some files → Gives told (λ x. (x.0.items, tally_of x.1)) result (scan_entries files dir.now entries.now [] (tally_of counts)) }
    ensures same_files { T.files tree.new ≡ T.files tree.old }
    ensures counts { T.faults tree.old ≤ T.faults tree.new }
    ensures read_fault { IsErrOf result FindFault.ReadFault → Rose (T.faults tree.old) (T.faults tree.new) }
    ensures exact { IsTrue T.counts_exactly → MatchResult result (λ _. T.faults tree.new ≡ T.faults tree.old) (λ e. T.faults tree.new ≡ faults_with e (T.faults tree.old)) }
    ensures inside { IfErr result TellsInside }
    ensures asks { (files : List File) → T.files tree.old ≡ Some files → AsksUpTo (T.asked tree.old) (flat_map (place_in files dir.now) entries.now) (T.asked tree.new) }
    ensures asked { (files : List File) → T.files tree.old ≡ Some files → IfOk result (λ _. T.asked tree.new ≡ asked_at (T.asked tree.old) (flat_map (place_in files dir.now) entries.now)) }
    ensures reads { (files : List File) → T.files tree.old ≡ Some files → Asks result (T.asked tree.old) (reads_of_entries files dir.now entries.now [] (tally_of counts)) (T.asked tree.new) }
{
    let mut kept = Kept {
        names: IndexSet::new(alloc),
        modules: Vec::new(alloc),
    };
    let mut so_far = counts;
    for entry in entries {
        let (found, after) = scan_entry(alloc, tree, dir, entry, so_far)?;
        so_far = after;
        kept = keep_found(dir, kept, found)?;
    }
    Ok((kept.modules, so_far))
}

/// The modules found so far, in order, and their names.
#[derive(Drop)]
struct Kept {
    names: IndexSet<Name>,
    modules: Vec<Observed>,
}

/// What an entry holds goes behind what was found before.
fn keep_found(dir: &Name, kept: Kept, found: Option<Observed>) -> Result<Kept, FindFault>
    ensures names { kept.names.keys ≡ map name_of kept.modules.items → IfOk result (λ after. after.names.keys ≡ map name_of after.modules.items) }
    ensures gives { (t : Tally) → kept.names.keys ≡ map name_of kept.modules.items → Gives told (λ after. (after.modules.items, t)) result (with_found dir.now kept.modules.items (found, t)) }
    ensures no_read_fault { IsErrOf result FindFault.ReadFault → ⊥ }
    ensures not_read { IfErr result IsNotRead }
    ensures inside { IfErr result TellsInside }
{
    match found {
        None => Ok(kept),
        Some(module) => keep_module(dir, kept, module),
    }
}

/// A module goes behind those with other names.
fn keep_module(dir: &Name, kept: Kept, found: Observed) -> Result<Kept, FindFault>
    ensures names { kept.names.keys ≡ map name_of kept.modules.items → IfOk result (λ after. after.names.keys ≡ map name_of after.modules.items) }
    ensures gives { (t : Tally) → kept.names.keys ≡ map name_of kept.modules.items → Gives told (λ after. (after.modules.items, t)) result (among dir.now kept.modules.items (found, t)) }
    ensures no_read_fault { IsErrOf result FindFault.ReadFault → ⊥ }
    ensures not_read { IfErr result IsNotRead }
    ensures inside { IfErr result TellsInside }
{
    let mut names = kept.names;
    let mut modules = kept.modules;
    if !names.insert(found.declaration.name.copy()?)? {
        return Err(twice(dir, &found)?);
    }
    modules.push(found)?;
    Ok(Kept { names, modules })
}

/// The fault of a module whose name another module in the directory has.
fn twice(dir: &Name, second: &Observed) -> Result<FindFault, CopyEnd>
    ensures { IfOk result (λ fault. fault ≡ finds.TwoInDirectory dir.now second.now.declaration.name) }
{
    let dir = dir.copy()?;
    let name = second.declaration.name.copy()?;
    Ok(FindFault::TwoInDirectory(dir, name))
}

/// The module that an entry of a directory holds, if it holds one.
fn scan_entry<T: Tree>(
    alloc: Global,
    tree: &mut T,
    dir: &Name,
    entry: &Entry,
    counts: Counts,
) -> Result<(Option<Observed>, Counts), FindFault>
    ensures gives { (files : List File) → T.files tree.old ≡ Some files → Gives told (λ x. (x.0, tally_of x.1)) result (entry_found files dir.now entry.now (tally_of counts)) }
    ensures same_files { T.files tree.new ≡ T.files tree.old }
    ensures counts { T.faults tree.old ≤ T.faults tree.new }
    ensures read_fault { IsErrOf result FindFault.ReadFault → Rose (T.faults tree.old) (T.faults tree.new) }
    ensures exact { IsTrue T.counts_exactly → MatchResult result (λ _. T.faults tree.new ≡ T.faults tree.old) (λ e. T.faults tree.new ≡ faults_with e (T.faults tree.old)) }
    ensures inside { IfErr result TellsInside }
    ensures untouched { IsTrue (paths.is_archive entry.now.name) → tree.new ≡ tree.old }
    ensures asks { (files : List File) → T.files tree.old ≡ Some files → AsksUpTo (T.asked tree.old) (place_in files dir.now entry.now) (T.asked tree.new) }
    ensures asked { (files : List File) → T.files tree.old ≡ Some files → IfOk result (λ _. T.asked tree.new ≡ asked_at (T.asked tree.old) (place_in files dir.now entry.now)) }
    ensures reads { (files : List File) → T.files tree.old ≡ Some files → Asks result (T.asked tree.old) (reads_of_entry files dir.now entry.now (tally_of counts)) (T.asked tree.new) }
{
    if is_archive(entry.name.as_bytes()) {
        let path = path_in(alloc, dir, entry.name.as_str())?;
        return Err(FindFault::Archive(path));
    }
    if !entry.is_dir {
        return Ok((None, counts));
    }
    let place = path_in(alloc, dir, entry.name.as_str())?;
    scan_folder(alloc, tree, place, counts)
}

/// The module that a folder holds, if it holds one.
fn scan_folder<T: Tree>(
    alloc: Global,
    tree: &mut T,
    place: Name,
    counts: Counts,
) -> Result<(Option<Observed>, Counts), FindFault>
    ensures gives { (files : List File) → T.files tree.old ≡ Some files → Gives told (λ x. (x.0, tally_of x.1)) result (folder_found files place (tally_of counts)) }
    ensures same_files { T.files tree.new ≡ T.files tree.old }
    ensures counts { T.faults tree.old ≤ T.faults tree.new }
    ensures read_fault { IsErrOf result FindFault.ReadFault → Rose (T.faults tree.old) (T.faults tree.new) }
    ensures exact { IsTrue T.counts_exactly → MatchResult result (λ _. T.faults tree.new ≡ T.faults tree.old) (λ e. T.faults tree.new ≡ faults_with e (T.faults tree.old)) }
    ensures inside { IfErr result TellsInside }
    ensures asks { (files : List File) → T.files tree.old ≡ Some files → AsksUpTo (T.asked tree.old) (place_at files place) (T.asked tree.new) }
    ensures asked { (files : List File) → T.files tree.old ≡ Some files → IfOk result (λ _. T.asked tree.new ≡ asked_at (T.asked tree.old) (place_at files place)) }
    ensures reads { (files : List File) → T.files tree.old ≡ Some files → Asks result (T.asked tree.old) (reads_of_folder files place (tally_of counts)) (T.asked tree.new) }
{
    let counted = one_folder(counts)?;
    let entries = entries_or_none(alloc, tree, &place)?;
    if !declares(entries.as_slice()) {
        return Ok((None, counted));
    }
    let scanned = scan_module(alloc, tree, place, entries.as_slice(), counted)?;
    Ok((Some(scanned.0), scanned.1))
}
