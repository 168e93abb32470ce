//! What lies in a folder of a list of files.

ghost use Rattle.std.specs.Prelude.{◌≡◌, [], MatchResult, option_map, map, IfOk, nat_eq};
ghost use Rattle.std.specs.List.{IsDistinct};
ghost use Rattle.std.specs.Cmp.Lexicographic.{pointwise};
ghost use Rattle.indexmap.specs.IndexMap.{keys};
ghost use Rattle.jl_tree.specs.Files.{Lists, first_part};
ghost use Rattle.jl_tree.specs.Memory.{files_of, IsTree};
ghost use Rattle.jl_tree.specs.Listing.{below, entry_of, names_from};
ghost use Rattle.jl_tree.specs.declared.tree.TreeFault.TheVariants.{NoMemory};

use crate::entry::Entry;
use crate::tree::TreeFault;
use indexmap::IndexMap;
use jl_prim::{Items, Name};
use std::alloc::Global;

/// What of a path lies below a folder.
pub fn part_below<'a>(dir: &str, path: &'a str) -> Option<&'a str>
    ensures { option_map (λ x. x.now) result ≡ below dir.now path.now }
{
    match path.strip_prefix(dir) {
        None => None,
        Some(rest) => rest.strip_prefix('/'),
    }
}

/// The entries of a folder. None where no file lies below it.
pub fn entries_below(
    alloc: Global,
    files: &[(Name, Items<u8>)],
    dir: &Name,
) -> Result<Option<Vec<Entry>>, TreeFault>
    requires { IsTree (files_of files.now) }
    ensures { MatchResult result (λ listed. Lists (files_of files.now) dir.now (option_map (λ v. v.items) listed)) (λ e. e ≡ NoMemory) }
{
    let names = names_below(alloc, files, dir)?;
    if names.is_empty() {
        return Ok(None);
    }
    Ok(Some(as_entries(alloc, names)?))
}

/// Each name in a folder once, and whether it is a folder.
fn names_below(
    alloc: Global,
    files: &[(Name, Items<u8>)],
    dir: &Name,
) -> Result<IndexMap<Name, bool>, TreeFault>
    ensures { MatchResult result (λ names. names.entries ≡ names_from dir.now [] (files_of files.now)) (λ e. e ≡ NoMemory) }
{
    let mut names = IndexMap::new(alloc);
    for (path, _) in files {
        if let Some(rest) = part_below(dir.as_str(), path.as_str()) {
            let entry = first_entry(alloc, rest)?;
            names.insert(entry.name, entry.is_dir)?;
        }
    }
    Ok(names)
}

/// The entry that a path below a folder begins with.
fn first_entry(alloc: Global, rest: &str) -> Result<Entry, TreeFault>
    ensures { MatchResult result (λ e. e ≡ first_part rest.now) (λ e. e ≡ NoMemory) }
{
    match rest.split_once('/') {
        Some((front, _)) => Ok(Entry {
            name: Name::from_text(alloc, front)?,
            is_dir: true,
        }),
        None => Ok(Entry {
            name: Name::from_text(alloc, rest)?,
            is_dir: false,
        }),
    }
}

fn as_entries(alloc: Global, names: IndexMap<Name, bool>) -> Result<Vec<Entry>, TreeFault>
    ensures { MatchResult result (λ entries. (entries.items ≡ map entry_of names.entries) × IsDistinct (pointwise nat_eq) (keys names)) (λ e. e ≡ NoMemory) }
{
    let entries = names
        .into_iter()
        .map(|(name, is_dir)| Entry { name, is_dir });
    Ok(entries.collect(alloc)?)
}
