//! What each module of the set reads.

ghost use Rattle.std.specs.Prelude.{◌≡◌, ◌<◌, ◌++◌, length, IfOk, OnOk, Some, false, slice_get, slice_index_or};
ghost use Rattle.jl_config.specs.Members.{is_passed_on};
ghost use Rattle.jl_config.specs.Places.{member_place, AreMarks, AreMembers};
ghost use Rattle.std.specs.List.{filter_map};
ghost use Rattle.std.specs.Option.{option_to_list};
ghost use Rattle.jl_closure.specs.Reached.{AreMarksOf};
ghost use Rattle.jl_config.specs.ReadRows.{here_place, meant_place, required_places, passed_place, passed_places, read_rows, read_starts, marked_place, AreByName, AreReadings};

use crate::candidate::Candidate;
use crate::members::Members;
use crate::scene::Scene;
use crate::sorted::sorted_set;
use jl_closure::closure;
use jl_prim::{Copied, CopyEnd, Items, Name, Requires};
use std::alloc::Global;

/// What a module of the set reads: the reader's place in sight, and the places of what it reads, in the
/// order of the names there and then of the places.
#[derive(Debug, Drop)]
pub struct Reading {
    pub reader: usize,
    pub read: Items<usize>,
}

/// The name of a module, and its place.
#[derive(Debug, PartialEq, Eq, PartialOrd, Ord, Drop)]
pub struct Placed {
    pub name: Name,
    pub place: usize,
}

/// What each module of the set reads, in the order of the readers' names (JLS 7.7.1).
pub fn readings_of(alloc: Global, scene: &Scene, members: &Members) -> Result<Vec<Reading>, CopyEnd>
    requires marks { AreMarks scene.now members.now.marks.items }
    requires places { AreMembers scene.now members.now.places.items }
    ensures { IfOk result (λ readings. AreReadings scene.now readings.items) }
{
    let marks = members.marks.as_slice();
    let next = rows_of(alloc, scene, marks)?;
    let order = places_by_name(alloc, scene)?;
    let mut readings = Vec::with_capacity(alloc, members.places.len())?;
    for place in members.places.as_slice() {
        let reached = marks_of_reader(alloc, scene, marks, next.as_slice(), *place)?;
        let read = marked_places(alloc, order.as_slice(), reached.as_slice())?;
        readings.push(Reading {
            reader: *place,
            read: Items::from_vec(read),
        })?;
    }
    Ok(readings)
}

fn is_passed_on(entry: &Requires) -> bool
    ensures { result ≡ is_passed_on entry.now }
{
    entry.transitive && entry.name.as_bytes() != b"java.base".as_slice()
}

fn is_marked(marks: &[bool], place: usize) -> bool
    ensures { result ≡ slice_index_or marks.now place false }
{
    match marks.get(place) {
        None => false,
        Some(mark) => *mark,
    }
}

fn place_if_marked(marks: &[bool], placed: &Placed) -> Option<usize>
    ensures { result ≡ marked_place marks.now placed.now }
{
    if is_marked(marks, placed.place) {
        Some(placed.place)
    } else {
        None
    }
}

fn push_some(places: &mut Vec<usize>, place: Option<usize>) -> Result<(), CopyEnd>
    ensures { OnOk result (places.new.items ≡ places.old.items ++ option_to_list place) }
{
    if let Some(place) = place {
        places.push(place)?;
    }
    Ok(())
}

/// The place of the member that is located by a name.
fn place_of_member(scene: &Scene, marks: &[bool], name: &Name) -> Option<usize>
    ensures { result ≡ member_place scene.now marks.now name.now }
{
    let place = scene.named(name)?;
    if is_marked(marks, place) {
        Some(place)
    } else {
        None
    }
}

/// The place of what a name means to a member: the member that is located by it, or if none is, what the ancestors
/// have first under the name.
fn place_meant_here(scene: &Scene, marks: &[bool], name: &Name) -> Option<usize>
    ensures { result ≡ here_place scene.now marks.now name.now }
{
    place_of_member(scene, marks, name).or_else(|| scene.above(name))
}

/// The place of the module that a name means to a module.
fn place_meant(scene: &Scene, marks: &[bool], candidate: &Candidate, name: &Name) -> Option<usize>
    ensures { result ≡ meant_place scene.now marks.now candidate.now name.now }
{
    if scene.is_here(candidate) {
        place_meant_here(scene, marks, name)
    } else {
        scene.own(candidate, name)
    }
}

fn place_passed_on(
    scene: &Scene,
    marks: &[bool],
    candidate: &Candidate,
    entry: &Requires,
) -> Option<usize>
    ensures { result ≡ passed_place scene.now marks.now candidate.now entry.now }
{
    if is_passed_on(entry) {
        place_meant(scene, marks, candidate, &entry.name)
    } else {
        None
    }
}

/// The places of what a module requires.
fn places_required(
    alloc: Global,
    scene: &Scene,
    marks: &[bool],
    candidate: &Candidate,
) -> Result<Vec<usize>, CopyEnd>
    ensures { IfOk result (λ places. places.items ≡ required_places scene.now marks.now candidate.now) }
{
    let mut places = Vec::new(alloc);
    for entry in candidate.observed.declaration.required.as_slice() {
        push_some(
            &mut places,
            place_meant(scene, marks, candidate, &entry.name),
        )?;
    }
    Ok(places)
}

/// The places of what a module requires transitively.
fn places_passed_on(
    alloc: Global,
    scene: &Scene,
    marks: &[bool],
    candidate: &Candidate,
) -> Result<Vec<usize>, CopyEnd>
    ensures { IfOk result (λ places. places.items ≡ passed_places scene.now marks.now candidate.now) }
{
    let mut places = Vec::new(alloc);
    for entry in candidate.observed.declaration.required.as_slice() {
        push_some(&mut places, place_passed_on(scene, marks, candidate, entry))?;
    }
    Ok(places)
}

/// For each place in sight the places of what the module there passes on.
fn rows_of(alloc: Global, scene: &Scene, marks: &[bool]) -> Result<Vec<Items<usize>>, CopyEnd>
    ensures { IfOk result (λ rows. rows.items ≡ read_rows scene.now marks.now) }
{
    let candidates = scene.candidates();
    let mut rows = Vec::with_capacity(alloc, candidates.len())?;
    for candidate in candidates {
        rows.push(Items::from_vec(places_passed_on(alloc, scene, marks, candidate)?))?;
    }
    Ok(rows)
}

/// Marks what the module at a place reads, itself too. What follows a module is what it passes on.
fn marks_of_reader(
    alloc: Global,
    scene: &Scene,
    marks: &[bool],
    next: &[Items<usize>],
    place: usize,
) -> Result<Vec<bool>, CopyEnd>
    requires rows { next.now ≡ read_rows scene.now marks.now }
    requires within { place < length scene.now.candidates }
    ensures { IfOk result (λ reached. (a : Candidate) → slice_get scene.now.candidates place ≡ Some a → AreMarksOf (read_rows scene.now marks.now) (read_starts scene.now marks.now a place) reached.items) }
{
    let mut starts = places_required(alloc, scene, marks, &scene.candidates()[place])?;
    starts.push(place)?;
    Ok(closure(alloc, next, starts.as_slice())?)
}

/// All places in sight, in the order of the names there and then of the places.
fn places_by_name(alloc: Global, scene: &Scene) -> Result<Vec<Placed>, CopyEnd>
    ensures { IfOk result (λ order. AreByName scene.now order.items) }
{
    let mut order = Vec::with_capacity(alloc, scene.candidates().len())?;
    for (place, candidate) in scene.candidates().iter().enumerate() {
        order.push(Placed {
            name: candidate.observed.declaration.name.copy()?,
            place,
        })?;
    }
    let sorted = sorted_set(order)?;
    Ok(sorted)
}

/// The places whose marks are set, in order.
fn marked_places(alloc: Global, order: &[Placed], marks: &[bool]) -> Result<Vec<usize>, CopyEnd>
    ensures { IfOk result (λ places. places.items ≡ filter_map (marked_place marks.now) order.now) }
{
    let mut places = Vec::new(alloc);
    for placed in order {
        push_some(&mut places, place_if_marked(marks, placed))?;
    }
    Ok(places)
}
