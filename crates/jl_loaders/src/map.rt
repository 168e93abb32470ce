//! The map of a loader: packages and their modules, in the order of the packages.

ghost use Rattle.std.specs.Prelude.{◌≡◌, ◌++◌, ℕ, List, IfOk};
ghost use Rattle.jl_logic.specs.Order.{RisesBy};
ghost use Rattle.jl_loaders.specs.Loaders.{given_for, package_cmp};
ghost use Rattle.std.specs.List.{dedup};
ghost use Rattle.jl_loaders.specs.Maps.{IsSortedPairs, is_package};

use jl_prim::{Items, ModuleId, Name};
use std::alloc::{AllocError, Global};

/// A pair for each package, in order, with the module of its first pair in `own`, or else in `seen`.
pub fn map_of(
    alloc: Global,
    own: Items<(Name, ModuleId)>,
    seen: Items<(Name, ModuleId)>,
) -> Result<Vec<(Name, ModuleId)>, AllocError>
    ensures rises { IfOk result (λ map. RisesBy package_cmp map.items) }
    ensures gives { IfOk result (λ map. (p : List ℕ) → given_for p map.items ≡ given_for p (own ++ seen)) }
{
    let pairs = joined(alloc, own.into_vec(), seen.into_vec())?;
    let sorted = sorted_pairs(pairs)?;
    Ok(first_of_each(sorted))
}

/// The pairs of both lists.
fn joined(
    alloc: Global,
    mut own: Vec<(Name, ModuleId)>,
    mut seen: Vec<(Name, ModuleId)>,
) -> Result<Vec<(Name, ModuleId)>, AllocError>
    ensures { IfOk result (λ pairs. pairs.items ≡ own.items ++ seen.items) }
{
    let mut pairs = Vec::new(alloc);
    pairs.append(&mut own)?;
    pairs.append(&mut seen)?;
    Ok(pairs)
}

/// The pairs in the order of their packages, those of one package in the order that they had.
fn sorted_pairs(mut pairs: Vec<(Name, ModuleId)>) -> Result<Vec<(Name, ModuleId)>, AllocError>
    ensures { IfOk result (λ sorted. IsSortedPairs pairs.items sorted.items) }
{
    pairs.sort_by(|x, y| x.0.cmp(&y.0))?;
    Ok(pairs)
}

/// The first pair of each package, of pairs in the order of their packages.
fn first_of_each(mut pairs: Vec<(Name, ModuleId)>) -> Vec<(Name, ModuleId)>
    ensures { result.items ≡ dedup is_package pairs.items }
{
    pairs.dedup_by(|later, first| later.0 == first.0);
    pairs
}

/// The module of a package, in pairs that rise.
pub fn given_in(pairs: &[(Name, ModuleId)], name: &[u8]) -> Option<ModuleId>
    requires { RisesBy package_cmp pairs.now }
    ensures { result ≡ given_for name.now pairs.now }
{
    match pairs.binary_search_by(|pair| pair.0.as_bytes().cmp(name)) {
        Ok(at) => Some(pairs[at].1),
        Err(_) => None,
    }
}
