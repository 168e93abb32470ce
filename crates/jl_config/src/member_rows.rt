//! Which places bring in which, for the set.

ghost use Rattle.std.specs.Prelude.{◌≡◌, ◌++◌, [], if◌then◌else◌, map, IfOk, OnOk};
ghost use Rattle.std.specs.List.{filter_map, flat_map};
ghost use Rattle.std.specs.Option.{option_to_list};
ghost use Rattle.jl_config.specs.Members.{is_base, is_followed};
ghost use Rattle.jl_config.specs.MemberRows.{found_place, needed_place, needed_places, member_row, member_rows, member_starts, above_from};
ghost use Rattle.jl_config.specs.Tables.{listed};

use crate::candidate::Candidate;
use crate::provisions::{found_place, providers_of};
use crate::scene::Scene;
use indexmap::IndexMap;
use jl_prim::{CopyEnd, Items, Name, Requires};
use std::alloc::Global;

/// Whether an entry is followed (JLS 7.7.1). That of `java.base` always is.
pub fn follows(entry: &Requires) -> bool
    ensures { result ≡ is_followed entry.now }
{
    !entry.is_static || entry.name.as_bytes() == b"java.base".as_slice()
}

/// For each place in sight the places that its module brings in.
pub fn rows_of(alloc: Global, scene: &Scene) -> Result<Vec<Items<usize>>, CopyEnd>
    ensures { IfOk result (λ rows. rows.items ≡ member_rows scene.now) }
{
    let table = providers_of(alloc, scene)?;
    rows_by(alloc, scene, &table)
}

fn rows_by(
    alloc: Global,
    scene: &Scene,
    table: &IndexMap<Name, Items<usize>>,
) -> Result<Vec<Items<usize>>, CopyEnd>
    ensures { IfOk result (λ rows. rows.items ≡ map (member_row scene.now (listed table.now)) scene.now.candidates) }
{
    let mut rows = Vec::with_capacity(alloc, scene.candidates().len())?;
    for candidate in scene.candidates() {
        rows.push(row_of(alloc, scene, table, candidate)?)?;
    }
    Ok(rows)
}

fn row_of(
    alloc: Global,
    scene: &Scene,
    table: &IndexMap<Name, Items<usize>>,
    candidate: &Candidate,
) -> Result<Items<usize>, CopyEnd>
    ensures { IfOk result (λ row. row ≡ member_row scene.now (listed table.now) candidate.now) }
{
    let mut row = Vec::new(alloc);
    push_needed(&mut row, scene, candidate)?;
    for service in candidate.observed.declaration.uses.as_slice() {
        push_listed(&mut row, table, service)?;
    }
    Ok(Items::from_vec(row))
}

fn push_needed(row: &mut Vec<usize>, scene: &Scene, candidate: &Candidate) -> Result<(), CopyEnd>
    ensures { OnOk result (row.new.items ≡ row.old.items ++ needed_places scene.now candidate.now) }
{
    if !scene.is_here(candidate) {
        return Ok(());
    }
    for entry in candidate.observed.declaration.required.as_slice() {
        push_some(row, place_of_needed(scene, entry))?;
    }
    Ok(())
}

fn place_of_needed(scene: &Scene, entry: &Requires) -> Option<usize>
    ensures { result ≡ needed_place scene.now entry.now }
{
    if follows(entry) {
        found_place(scene, &entry.name)
    } else {
        None
    }
}

/// Adds a place, where there is one.
pub fn push_some(places: &mut Vec<usize>, place: Option<usize>) -> Result<(), CopyEnd>
    ensures { OnOk result (places.new.items ≡ places.old.items ++ option_to_list place) }
{
    if let Some(place) = place {
        places.push(place)?;
    }
    Ok(())
}

fn push_listed(
    row: &mut Vec<usize>,
    table: &IndexMap<Name, Items<usize>>,
    service: &Name,
) -> Result<(), CopyEnd>
    ensures { OnOk result (row.new.items ≡ row.old.items ++ listed table.now service.now) }
{
    match table.get(service) {
        None => Ok(()),
        Some(places) => push_all(row, places.as_slice()),
    }
}

fn push_all(row: &mut Vec<usize>, places: &[usize]) -> Result<(), CopyEnd>
    ensures { OnOk result (row.new.items ≡ row.old.items ++ places.now) }
{
    for place in places {
        row.push(*place)?;
    }
    Ok(())
}

/// The places with which the set begins: those of the roots, and with binding those of ancestors' modules.
pub fn starts_of(alloc: Global, scene: &Scene) -> Result<Vec<usize>, CopyEnd>
    ensures { IfOk result (λ starts. starts.items ≡ member_starts scene.now) }
{
    let mut starts = roots_found(alloc, scene)?;
    push_above(&mut starts, scene)?;
    Ok(starts)
}

fn roots_found(alloc: Global, scene: &Scene) -> Result<Vec<usize>, CopyEnd>
    ensures { IfOk result (λ places. places.items ≡ filter_map (found_place scene.now) scene.now.roots) }
{
    let mut places = Vec::new(alloc);
    for name in scene.roots() {
        push_some(&mut places, found_place(scene, name))?;
    }
    Ok(places)
}

fn push_above(starts: &mut Vec<usize>, scene: &Scene) -> Result<(), CopyEnd>
    ensures { OnOk result (starts.new.items ≡ starts.old.items ++ (if scene.now.binds then above_from scene.now 0 scene.now.candidates else [])) }
{
    if !scene.binds() {
        return Ok(());
    }
    for (at, candidate) in scene.candidates().iter().enumerate() {
        if !scene.is_here(candidate) {
            starts.push(at)?;
        }
    }
    Ok(())
}
