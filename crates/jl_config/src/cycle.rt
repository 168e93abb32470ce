//! Modules that require each other in a cycle.

ghost use Rattle.std.specs.Prelude.{◌≡◌, ◌++◌, ◌<◌, ◌↔◌, length, All, IsTrue, IfOk, OnOk, Some, slice_get};
ghost use Rattle.std.specs.List.{filter_map};
ghost use Rattle.jl_config.specs.Cycles.{edge_place, edge_row, edge_rows, LeadsBack, IsFirstOnCycle};
ghost use Rattle.jl_config.specs.Places.{AreMarks, AreMembers, CycleFault, IsLeastSome};
ghost use Rattle.jl_config.specs.Refusals.{fault_cmp};
ghost use Rattle.jl_config.specs.Located.{candidate_name};
ghost use Rattle.jl_config.specs.declared.fault.ResolveFault.TheVariants.{Cycle};
ghost use Rattle.jl_config.specs.declared.candidate.Candidate.{Candidate};

use crate::candidate::Candidate;
use crate::fault::ResolveFault;
use crate::member_rows::push_some;
use crate::members::Members;
use crate::scene::Scene;
use jl_closure::closure;
use jl_prim::{Copied, CopyEnd, Items, Requires};
use std::alloc::Global;

/// The refusal with the least member on a cycle of entries, static ones too.
pub fn least_cycle(
    alloc: Global,
    scene: &Scene,
    members: &Members,
) -> Result<Option<ResolveFault>, CopyEnd>
    requires marks { AreMarks scene.now members.now.marks.items }
    requires places { AreMembers scene.now members.now.places.items }
    ensures { IfOk result (λ found. IsLeastSome fault_cmp (CycleFault scene.now) found) }
{
    let rows = rows_of_edges(alloc, scene, members.marks.as_slice())?;
    match first_on_cycle(alloc, rows.as_slice(), members.places.as_slice())? {
        None => Ok(None),
        Some(place) => Ok(Some(cycle_at(scene.candidates(), place)?)),
    }
}

fn cycle_at(candidates: &[Candidate], place: usize) -> Result<ResolveFault, CopyEnd>
    requires { place < length candidates.now }
    ensures { IfOk result (λ fault. (s : Candidate) × (slice_get candidates.now place ≡ Some s) × (fault ≡ Cycle (candidate_name s))) }
{
    let least = candidates[place].observed.declaration.name.copy()?;
    Ok(ResolveFault::Cycle { least })
}

fn rows_of_edges(alloc: Global, scene: &Scene, marks: &[bool]) -> Result<Vec<Items<usize>>, CopyEnd>
    ensures { IfOk result (λ rows. rows.items ≡ edge_rows scene.now marks.now) }
{
    let mut rows = Vec::with_capacity(alloc, scene.candidates().len())?;
    for candidate in scene.candidates() {
        rows.push(row_of_edges(alloc, scene, marks, candidate)?)?;
    }
    Ok(rows)
}

fn row_of_edges(
    alloc: Global,
    scene: &Scene,
    marks: &[bool],
    candidate: &Candidate,
) -> Result<Items<usize>, CopyEnd>
    ensures { IfOk result (λ row. row ≡ edge_row scene.now marks.now candidate.now) }
{
    let mut row = Vec::new(alloc);
    push_edges(
        &mut row,
        scene,
        marks,
        candidate.observed.declaration.required.as_slice(),
    )?;
    Ok(Items::from_vec(row))
}

fn push_edges(
    row: &mut Vec<usize>,
    scene: &Scene,
    marks: &[bool],
    entries: &[Requires],
) -> Result<(), CopyEnd>
    ensures { OnOk result (row.new.items ≡ row.old.items ++ filter_map (edge_place scene.now marks.now) entries.now) }
{
    for entry in entries {
        push_some(row, place_of_edge(scene, marks, entry))?;
    }
    Ok(())
}

fn place_of_edge(scene: &Scene, marks: &[bool], entry: &Requires) -> Option<usize>
    ensures { result ≡ edge_place scene.now marks.now entry.now }
{
    let place = scene.named(&entry.name)?;
    if place < marks.len() && marks[place] {
        Some(place)
    } else {
        None
    }
}

fn first_on_cycle(
    alloc: Global,
    rows: &[Items<usize>],
    places: &[usize],
) -> Result<Option<usize>, CopyEnd>
    requires graph { All (λ row. All (λ p. p < length rows.now) row) rows.now }
    requires within { All (λ p. p < length rows.now) places.now }
    ensures { IfOk result (λ found. IsFirstOnCycle rows.now places.now found) }
{
    for place in places {
        if leads_back(alloc, rows, *place)? {
            return Ok(Some(*place));
        }
    }
    Ok(None)
}

fn leads_back(alloc: Global, rows: &[Items<usize>], place: usize) -> Result<bool, CopyEnd>
    requires graph { All (λ row. All (λ p. p < length rows.now) row) rows.now }
    requires within { place < length rows.now }
    ensures { IfOk result (λ goes. IsTrue goes ↔ LeadsBack rows.now place) }
{
    let marks = closure(alloc, rows, rows[place].as_slice())?;
    Ok(marks[place])
}
