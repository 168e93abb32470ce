//! All elements of a module path in order.

ghost use Rattle.std.specs.Prelude.{◌≡◌, ◌≤◌, ℕ, ◌∷◌, List, [], Some, IfOk, IfSome, IsErrOf, IfErr, IsTrue, MatchResult};
ghost use Rattle.jl_logic.specs.Answers.{Gives};
ghost use Rattle.jl_logic.specs.Counts.{Rose};
ghost use Rattle.jl_tree.specs.Files.{File};
ghost use Rattle.jl_finder.specs.Paths as paths;
ghost use Rattle.jl_finder.specs.Observed as observed;
ghost use Rattle.jl_finder.specs.Observed.{told, observed, with_folders};
ghost use Rattle.jl_finder.specs.Scanning.{AreEntries, tally_of, listed_found, elements_found};
ghost use Rattle.std.specs.List.{flat_map};
ghost use Rattle.jl_finder.specs.Asking.{faults_with, TellsInside, AsksUpTo, Asks, asked_at, places_of, reads_behind, reads_of, reads_of_element, reads_of_listed};

use crate::counts::{Counts, one_folder};
use crate::directory::scan_directory;
use crate::fault::FindFault;
use crate::listing::{declares, entries_in};
use crate::module::scan_module;
use crate::names::is_archive;
use indexmap::IndexSet;
use jl_prim::{Copied, CopyEnd, Found, Items, Name, Observed};
use jl_tree::{Entry, Tree};
use std::alloc::Global;

/// The modules on a module path: each element is a folder with one module, or a folder of such folders, and the
/// first module of a name counts.
///
/// The first fault stands, in the order of the elements and of the names in them: `Archive` before anything else is
/// asked of an entry, `TooMany` at module 4,097 and at folder 65,537, and for one module `TopLevelClass`, then
/// `TooLarge` or `Info`, then `TwoInDirectory`. `ReadFault` comes only where the count of the tree's faults rose.
pub fn find_all<T: Tree>(alloc: Global, tree: &mut T, elements: &[Name]) -> Result<Found, FindFault>
    ensures found { IfSome (T.files tree.old) (λ files. Gives told (λ f. f.modules) result (observed files elements.now)) }
    ensures same_files { T.files tree.new ≡ T.files tree.old }
    ensures counts { T.faults tree.old ≤ T.faults tree.new }
    ensures read_fault { IsErrOf result FindFault.ReadFault → Rose (T.faults tree.old) (T.faults tree.new) }
    ensures exact { IsTrue T.counts_exactly → MatchResult result (λ _. T.faults tree.new ≡ T.faults tree.old) (λ e. T.faults tree.new ≡ faults_with e (T.faults tree.old)) }
    ensures inside { IfErr result TellsInside }
    ensures asks { (files : List File) → T.files tree.old ≡ Some files → AsksUpTo (T.asked tree.old) (flat_map (places_of files) elements.now) (T.asked tree.new) }
    ensures asked { (files : List File) → T.files tree.old ≡ Some files → IfOk result (λ _. T.asked tree.new ≡ asked_at (T.asked tree.old) (flat_map (places_of files) elements.now)) }
    ensures reads { (files : List File) → T.files tree.old ≡ Some files → Asks result (T.asked tree.old) (reads_of files elements.now) (T.asked tree.new) }
    ensures untouched { (element : List ℕ) (rest : List (List ℕ)) → elements.now ≡ element ∷ rest → IsTrue (paths.is_archive element) → tree.new ≡ tree.old }
{
    let modules = scan_elements(alloc, tree, elements)?;
    let kept = first_of_each(alloc, modules)?;
    Ok(Found {
        modules: Items::from_vec(kept),
    })
}

/// The modules of all elements in order.
fn scan_elements<T: Tree>(
    alloc: Global,
    tree: &mut T,
    elements: &[Name],
) -> Result<Vec<Observed>, FindFault>
    ensures gives { (files : List File) → T.files tree.old ≡ Some files → Gives told (λ v. v.items) result (elements_found files elements.now) }
    ensures same_files { T.files tree.new ≡ T.files tree.old }
    ensures counts { T.faults tree.old ≤ T.faults tree.new }
    ensures read_fault { IsErrOf result FindFault.ReadFault → Rose (T.faults tree.old) (T.faults tree.new) }
    ensures exact { IsTrue T.counts_exactly → MatchResult result (λ _. T.faults tree.new ≡ T.faults tree.old) (λ e. T.faults tree.new ≡ faults_with e (T.faults tree.old)) }
    ensures inside { IfErr result TellsInside }
    ensures asks { (files : List File) → T.files tree.old ≡ Some files → AsksUpTo (T.asked tree.old) (flat_map (places_of files) elements.now) (T.asked tree.new) }
    ensures asked { (files : List File) → T.files tree.old ≡ Some files → IfOk result (λ _. T.asked tree.new ≡ asked_at (T.asked tree.old) (flat_map (places_of files) elements.now)) }
    ensures reads { (files : List File) → T.files tree.old ≡ Some files → Asks result (T.asked tree.old) (reads_of files elements.now) (T.asked tree.new) }
    ensures untouched { (element : List ℕ) (rest : List (List ℕ)) → elements.now ≡ element ∷ rest → IsTrue (paths.is_archive element) → tree.new ≡ tree.old }
{
    let mut modules = Vec::new(alloc);
    let mut counts = Counts {
        modules: 0,
        folders: 0,
    };
    for element in elements {
        let found = scan_element(alloc, tree, element, counts)?;
        counts = found.1;
        let mut more = found.0;
        modules.append(&mut more)?;
    }
    Ok(modules)
}

/// The modules of one element. An element that is not there has none.
fn scan_element<T: Tree>(
    alloc: Global,
    tree: &mut T,
    element: &Name,
    counts: Counts,
) -> Result<(Vec<Observed>, Counts), FindFault>
    ensures gives { (files : List File) → T.files tree.old ≡ Some files → Gives told (λ x. (x.0.items, tally_of x.1)) result (observed.scan_element files element.now (tally_of counts)) }
    ensures same_files { T.files tree.new ≡ T.files tree.old }
    ensures counts { T.faults tree.old ≤ T.faults tree.new }
    ensures read_fault { IsErrOf result FindFault.ReadFault → Rose (T.faults tree.old) (T.faults tree.new) }
    ensures exact { IsTrue T.counts_exactly → MatchResult result (λ _. T.faults tree.new ≡ T.faults tree.old) (λ e. T.faults tree.new ≡ faults_with e (T.faults tree.old)) }
    ensures inside { IfErr result TellsInside }
    ensures untouched { IsTrue (paths.is_archive element.now) → tree.new ≡ tree.old }
    ensures refused { IsTrue (paths.is_archive element.now) → IfOk result (λ _. ⊥) }
    ensures asks { (files : List File) → T.files tree.old ≡ Some files → AsksUpTo (T.asked tree.old) (places_of files element.now) (T.asked tree.new) }
    ensures asked { (files : List File) → T.files tree.old ≡ Some files → IfOk result (λ _. T.asked tree.new ≡ asked_at (T.asked tree.old) (places_of files element.now)) }
    ensures reads { (files : List File) → T.files tree.old ≡ Some files → Asks result (T.asked tree.old) (reads_of_element files element.now (tally_of counts)) (T.asked tree.new) }
{
    if is_archive(element.as_bytes()) {
        return Err(FindFault::Archive(element.copy()?));
    }
    match entries_in(alloc, tree, element)? {
        None => Ok((Vec::new(alloc), counts)),
        Some(entries) => scan_listed(alloc, tree, element, entries.as_slice(), counts),
    }
}

/// The modules of an element with these entries: one, where a declaration file is among them.
fn scan_listed<T: Tree>(
    alloc: Global,
    tree: &mut T,
    element: &Name,
    entries: &[Entry],
    counts: Counts,
) -> Result<(Vec<Observed>, Counts), FindFault>
    ensures gives { (files : List File) → T.files tree.old ≡ Some files → AreEntries files element.now entries.now → Gives told (λ x. (x.0.items, tally_of x.1)) result (listed_found files element.now (tally_of counts)) }
    ensures same_files { T.files tree.new ≡ T.files tree.old }
    ensures counts { T.faults tree.old ≤ T.faults tree.new }
    ensures read_fault { IsErrOf result FindFault.ReadFault → Rose (T.faults tree.old) (T.faults tree.new) }
    ensures exact { IsTrue T.counts_exactly → MatchResult result (λ _. T.faults tree.new ≡ T.faults tree.old) (λ e. T.faults tree.new ≡ faults_with e (T.faults tree.old)) }
    ensures inside { IfErr result TellsInside }
    ensures asks { (files : List File) → T.files tree.old ≡ Some files → AreEntries files element.now entries.now → AsksUpTo (T.asked tree.old) (places_of files element.now) (T.asked tree.new) }
    ensures asked { (files : List File) → T.files tree.old ≡ Some files → AreEntries files element.now entries.now → IfOk result (λ _. T.asked tree.new ≡ asked_at (T.asked tree.old) (places_of files element.now)) }
    ensures reads { (files : List File) → T.files tree.old ≡ Some files → AreEntries files element.now entries.now → Asks result (T.asked tree.old) (reads_behind (with_folders 1 (tally_of counts)) (reads_of_listed files element.now)) (T.asked tree.new) }
{
    let counted = one_folder(counts)?;
    if !declares(entries) {
        return scan_directory(alloc, tree, element, entries, counted);
    }
    let scanned = scan_module(alloc, tree, element.copy()?, entries, counted)?;
    let mut modules = Vec::new(alloc);
    modules.push(scanned.0)?;
    Ok((modules, scanned.1))
}

/// The first module of each name.
fn first_of_each(alloc: Global, modules: Vec<Observed>) -> Result<Vec<Observed>, CopyEnd>
    ensures { IfOk result (λ kept. kept.items ≡ observed.first_of_each modules.items) }
{
    let mut seen = IndexSet::new(alloc);
    let mut kept = Vec::new(alloc);
    for module in modules {
        if seen.insert(module.declaration.name.copy()?)? {
            kept.push(module)?;
        }
    }
    Ok(kept)
}
