//! One module.

ghost use Rattle.std.specs.Prelude.{◌≡◌, ◌≤◌, List, Some, IfSome, IsErrOf, option_map, IfErr, IfOk, IsTrue, MatchResult, MatchOption, ⊤, ◌∷◌, [], ◌⊎◌};
ghost use Rattle.jl_logic.specs.Answers.{Gives};
ghost use Rattle.jl_logic.specs.Counts.{Rose};
ghost use Rattle.jl_tree.specs.Files.{File, file_at, asked_for};
ghost use Rattle.jl_modinfo.specs.Reading.{info_of};
ghost use Rattle.jl_finder.specs.Folders.{declaration_in, packages_below, top_classes};
ghost use Rattle.jl_finder.specs.Observed as observed;
ghost use Rattle.jl_finder.specs.Observed.{told, observed_or, declared_by, content_of};
ghost use Rattle.jl_finder.specs.Scanning.{AreEntries, tally_of, whole_content};
ghost use Rattle.jl_finder.specs.Asking.{faults_with, IsNotRead, TellsInside, AsksUpTo, Asks, asked_at, reads_beside, reads_of_module};

use crate::counts::{Counts, one_module};
use crate::fault::FindFault;
use crate::listing::first_top_class;
use crate::names::path_in;
use crate::walk::walk;
use jl_modinfo::{InfoFault, read_info};
use jl_prim::{Copied, MOST_FILE_BYTES, Name, Observed};
use jl_tree::{Entry, Tree, TreeFault};
use std::alloc::Global;

/// The module in a folder that holds a declaration file, of which these are the entries.
pub fn scan_module<T: Tree>(
    alloc: Global,
    tree: &mut T,
    place: Name,
    entries: &[Entry],
    counts: Counts,
) -> Result<(Observed, Counts), FindFault>
    ensures gives { (files : List File) → T.files tree.old ≡ Some files → AreEntries files place entries.now → Gives told (λ x. (x.0, tally_of x.1)) result (observed.scan_module files place (tally_of counts)) }
    ensures same_files { T.files tree.new ≡ T.files tree.old }
    ensures counts { T.faults tree.old ≤ T.faults tree.new }
    ensures read_fault { IsErrOf result FindFault.ReadFault → Rose (T.faults tree.old) (T.faults tree.new) }
    ensures exact { IsTrue T.counts_exactly → MatchResult result (λ _. T.faults tree.new ≡ T.faults tree.old) (λ e. T.faults tree.new ≡ faults_with e (T.faults tree.old)) }
    ensures inside { IfErr result TellsInside }
    ensures asks { AsksUpTo (T.asked tree.old) (place ∷ []) (T.asked tree.new) }
    ensures asked { IfOk result (λ _. T.asked tree.new ≡ asked_at (T.asked tree.old) (place ∷ [])) }
    ensures reads { (files : List File) → T.files tree.old ≡ Some files → AreEntries files place entries.now → Asks result (T.asked tree.old) (reads_of_module files place (tally_of counts)) (T.asked tree.new) }
{
    let counted = one_module(counts)?;
    let walked = walk(alloc, tree, &place, entries, counted.folders)?;
    let module = module_at(alloc, tree, place, entries, walked.packages.as_slice())?;
    let counts = Counts {
        modules: counted.modules,
        folders: walked.folders,
    };
    Ok((module, counts))
}

/// The module in a folder with these packages, of which these are the entries.
fn module_at<T: Tree>(
    alloc: Global,
    tree: &mut T,
    place: Name,
    entries: &[Entry],
    packages: &[Name],
) -> Result<Observed, FindFault>
    ensures gives { (files : List File) → T.files tree.old ≡ Some files → AreEntries files place entries.now → packages.now ≡ packages_below files place → Gives told (λ o. o) result (observed.module_at files place) }
    ensures same_files { T.files tree.new ≡ T.files tree.old }
    ensures counts { T.faults tree.old ≤ T.faults tree.new }
    ensures read_fault { IsErrOf result FindFault.ReadFault → Rose (T.faults tree.old) (T.faults tree.new) }
    ensures exact { IsTrue T.counts_exactly → MatchResult result (λ _. T.faults tree.new ≡ T.faults tree.old) (λ e. T.faults tree.new ≡ faults_with e (T.faults tree.old)) }
    ensures inside { IfErr result TellsInside }
    ensures asks { AsksUpTo (T.asked tree.old) (place ∷ []) (T.asked tree.new) }
    ensures asked { IfOk result (λ _. T.asked tree.new ≡ asked_at (T.asked tree.old) (place ∷ [])) }
    ensures reads { (files : List File) → T.files tree.old ≡ Some files → AreEntries files place entries.now → Asks result (T.asked tree.old) (reads_beside place (top_classes files place)) (T.asked tree.new) }
{
    match first_top_class(entries) {
        Some(class) => {
            let path = path_in(alloc, &place, class.name.as_str())?;
            Err(FindFault::TopLevelClass(path))
        }
        None => read_module(alloc, tree, place, packages),
    }
}

/// What the declaration file in a folder declares. A file that is not there counts as empty.
fn read_module<T: Tree>(
    alloc: Global,
    tree: &mut T,
    place: Name,
    packages: &[Name],
) -> Result<Observed, FindFault>
    ensures gives { (files : List File) → T.files tree.old ≡ Some files → Gives told (λ o. o) result (declared_by place packages.now (content_of (file_at files (declaration_in place)))) }
    ensures same_files { T.files tree.new ≡ T.files tree.old }
    ensures counts { T.faults tree.old ≤ T.faults tree.new }
    ensures read_fault { IsErrOf result FindFault.ReadFault → Rose (T.faults tree.old) (T.faults tree.new) }
    ensures exact { IsTrue T.counts_exactly → MatchResult result (λ _. T.faults tree.new ≡ T.faults tree.old) (λ e. T.faults tree.new ≡ faults_with e (T.faults tree.old)) }
    ensures inside { IfErr result TellsInside }
    ensures asks { AsksUpTo (T.asked tree.old) (place ∷ []) (T.asked tree.new) }
    ensures asked { IfOk result (λ _. T.asked tree.new ≡ asked_at (T.asked tree.old) (place ∷ [])) }
    ensures reads { Asks result (T.asked tree.old) (place ∷ []) (T.asked tree.new) }
{
    let file = path_in(alloc, &place, "module-info.class")?;
    let content = content_at(alloc, tree, &file)?;
    match content {
        None => declared_in(alloc, place, file, &[], packages),
        Some(bytes) => declared_in(alloc, place, file, bytes.as_slice(), packages),
    }
}

/// The bytes of a declaration file. None where the file is not there.
fn content_at<T: Tree>(
    alloc: Global,
    tree: &mut T,
    file: &Name,
) -> Result<Option<Vec<u8>>, FindFault>
    ensures gives { IfSome (T.files tree.old) (λ files. Gives told (option_map (λ v. v.items)) result (whole_content file.now (file_at files file.now))) }
    ensures same_files { T.files tree.new ≡ T.files tree.old }
    ensures counts { T.faults tree.old ≤ T.faults tree.new }
    ensures read_fault { IsErrOf result FindFault.ReadFault → Rose (T.faults tree.old) (T.faults tree.new) }
    ensures exact { IsTrue T.counts_exactly → MatchResult result (λ _. T.faults tree.new ≡ T.faults tree.old) (λ e. T.faults tree.new ≡ faults_with e (T.faults tree.old)) }
    ensures inside { IfErr result TellsInside }
    ensures asks { (T.asked tree.new ≡ T.asked tree.old) ⊎ (T.asked tree.new ≡ asked_for (T.asked tree.old) file.now) }
    ensures asked { IfOk result (λ _. T.asked tree.new ≡ asked_for (T.asked tree.old) file.now) }
    ensures asked_told { IfErr result (λ e. MatchOption (told e) ⊤ (λ _. T.asked tree.new ≡ asked_for (T.asked tree.old) file.now)) }
{
    match tree.read(alloc, file, MOST_FILE_BYTES) {
        Ok(content) => Ok(content),
        Err(TreeFault::Failed) => Err(FindFault::ReadFault),
        Err(TreeFault::TooLong(length)) => Err(FindFault::TooLarge(file.copy()?, length)),
        Err(TreeFault::NoMemory) => Err(FindFault::NoMemory),
    }
}

/// What a declaration file with these bytes declares for the module at a place.
fn declared_in(
    alloc: Global,
    place: Name,
    file: Name,
    bytes: &[u8],
    packages: &[Name],
) -> Result<Observed, FindFault>
    requires { file ≡ declaration_in place }
    ensures gives { Gives told (λ o. o) result (observed_or place (info_of bytes.now packages.now)) }
    ensures no_read_fault { IsErrOf result FindFault.ReadFault → ⊥ }
    ensures not_read { IfErr result IsNotRead }
    ensures inside { IfErr result TellsInside }
{
    match read_info(alloc, bytes, packages) {
        Ok(declaration) => Ok(Observed { declaration, place }),
        Err(InfoFault::NoMemory) => Err(FindFault::NoMemory),
        Err(fault) => Err(FindFault::Info(file, fault)),
    }
}
