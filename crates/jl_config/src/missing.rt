//! The least name that is not located.

ghost use Rattle.std.specs.Prelude.{◌≡◌, None, IfOk};
ghost use Rattle.std.specs.List.{filter_map};
ghost use Rattle.std.specs.Option.{option_map};
ghost use Rattle.jl_config.specs.MissingNames.{lack_of, lesser, least_from, root_missing, entry_missing, missing_entries, missing_at, all_missing};
ghost use Rattle.jl_config.specs.Places.{AreMembers, MissingFault, IsLeastSome};
ghost use Rattle.jl_config.specs.Refusals.{fault_cmp};

use crate::fault::ResolveFault;
use crate::member_rows::follows;
use crate::members::Members;
use crate::scene::Scene;
use jl_prim::{Copied, CopyEnd, Name, Requires};

/// A name that is not located, and the module that requires it, where it is no root.
#[derive(Debug, PartialEq, Eq, PartialOrd, Ord, Drop)]
pub struct Missing {
    pub name: Name,
    pub by: Option<Name>,
}

/// The refusal with the least of the roots, and of what the members require, that is not located.
pub fn least_not_found(scene: &Scene, members: &Members) -> Result<Option<ResolveFault>, CopyEnd>
    requires { AreMembers scene.now members.now.places.items }
    ensures { IfOk result (λ found. IsLeastSome fault_cmp (MissingFault scene.now) found) }
{
    match least_missing(scene, members.places.as_slice())? {
        None => Ok(None),
        Some(missing) => {
            let Missing { name, by } = missing;
            Ok(Some(ResolveFault::NotFound { name, by }))
        }
    }
}

fn least_missing(scene: &Scene, places: &[usize]) -> Result<Option<Missing>, CopyEnd>
    ensures { IfOk result (λ least. option_map lack_of least ≡ least_from None (all_missing scene.now places.now)) }
{
    let mut least = least_of_roots(scene, scene.roots())?;
    for place in places {
        least = least_at(scene, *place, least)?;
    }
    Ok(least)
}

fn least_of_roots(scene: &Scene, roots: &[Name]) -> Result<Option<Missing>, CopyEnd>
    ensures { IfOk result (λ least. option_map lack_of least ≡ least_from None (filter_map (root_missing scene.now) roots.now)) }
{
    let mut least = None;
    for name in roots {
        least = lesser_of(least, missing_root(scene, name)?);
    }
    Ok(least)
}

fn least_at(
    scene: &Scene,
    place: usize,
    earlier: Option<Missing>,
) -> Result<Option<Missing>, CopyEnd>
    ensures { IfOk result (λ least. option_map lack_of least ≡ least_from (option_map lack_of earlier) (missing_at scene.now place)) }
{
    match scene.candidates().get(place) {
        None => Ok(earlier),
        Some(candidate) => {
            let declaration = &candidate.observed.declaration;
            let entries = declaration.required.as_slice();
            least_of_entries(scene, &declaration.name, entries, earlier)
        }
    }
}

fn least_of_entries(
    scene: &Scene,
    by: &Name,
    entries: &[Requires],
    earlier: Option<Missing>,
) -> Result<Option<Missing>, CopyEnd>
    ensures { IfOk result (λ least. option_map lack_of least ≡ least_from (option_map lack_of earlier) (missing_entries scene.now by.now entries.now)) }
{
    let mut least = earlier;
    for entry in entries {
        least = lesser_of(least, missing_entry(scene, by, entry)?);
    }
    Ok(least)
}

fn missing_root(scene: &Scene, name: &Name) -> Result<Option<Missing>, CopyEnd>
    ensures { IfOk result (λ missing. option_map lack_of missing ≡ root_missing scene.now name.now) }
{
    if scene.named(name).is_some() {
        return Ok(None);
    }
    Ok(Some(Missing {
        name: name.copy()?,
        by: None,
    }))
}

fn missing_entry(scene: &Scene, by: &Name, entry: &Requires) -> Result<Option<Missing>, CopyEnd>
    ensures { IfOk result (λ missing. option_map lack_of missing ≡ entry_missing scene.now by.now entry.now) }
{
    if !follows(entry) || scene.named(&entry.name).is_some() {
        return Ok(None);
    }
    Ok(Some(Missing {
        name: entry.name.copy()?,
        by: Some(by.copy()?),
    }))
}

fn lesser_of(least: Option<Missing>, other: Option<Missing>) -> Option<Missing>
    ensures { option_map lack_of result ≡ lesser (option_map lack_of least) (option_map lack_of other) }
{
    match other {
        None => least,
        Some(other) => match least {
            None => Some(other),
            Some(least) => {
                if other < least {
                    Some(other)
                } else {
                    Some(least)
                }
            }
        },
    }
}
