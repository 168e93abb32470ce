//! Marked places in name order.

ghost use Rattle.std.specs.Prelude.{◌≡◌, ◌≤◌, ℕ, List, length, map, IfOk, OnOk};
ghost use Rattle.jl_logic.specs.Order.{is_text, RisesBy};
ghost use Rattle.jl_config.specs.Placed.{placed_cmp, place_in, marked_place, IsSought};
ghost use Rattle.jl_config.specs.Tables.{or_at};

use crate::candidate::Candidate;
use jl_prim::{Copied, CopyEnd, Name};
use std::alloc::Global;

/// A name and its place.
#[derive(Drop)]
pub struct Placed {
    pub name: Name,
    pub place: usize,
}

/// The first marked place of each name, in name order.
pub fn placed_of(
    alloc: Global,
    candidates: &[Candidate],
    marks: &[bool],
) -> Result<Vec<Placed>, CopyEnd>
    requires { length candidates.now ≤ length marks.now }
    ensures rise { IfOk result (λ placed. RisesBy placed_cmp placed.items) }
    ensures finds { IfOk result (λ placed. (q : List ℕ) → place_in q placed.items ≡ marked_place q 0 candidates.now marks.now) }
{
    let mut placed = Vec::new(alloc);
    for (at, candidate) in candidates.iter().enumerate() {
        if marks[at] {
            put(&mut placed, &candidate.observed.declaration.name, at)?;
        }
    }
    Ok(placed)
}

fn put(placed: &mut Vec<Placed>, name: &Name, place: usize) -> Result<(), CopyEnd>
    requires { RisesBy placed_cmp placed.old.items }
    ensures rise { OnOk result (RisesBy placed_cmp placed.new.items) }
    ensures finds { OnOk result ((q : List ℕ) → place_in q placed.new.items ≡ or_at (place_in q placed.old.items) (is_text name.now q) place) }
{
    match search(placed.as_slice(), name) {
        Ok(_) => Ok(()),
        Err(at) => {
            let name = name.copy()?;
            placed.insert(at, Placed { name, place })?;
            Ok(())
        }
    }
}

fn search(placed: &[Placed], name: &Name) -> Result<usize, usize>
    requires { RisesBy placed_cmp placed.now }
    ensures { IsSought name.now placed.now result }
{
    placed.binary_search_by(|x| x.name.cmp(name))
}

/// The places.
pub fn places_of(alloc: Global, placed: &[Placed]) -> Result<Vec<usize>, CopyEnd>
    ensures { IfOk result (λ places. places.items ≡ map (λ x. x.place) placed.now) }
{
    let mut places = Vec::with_capacity(alloc, placed.len())?;
    for x in placed {
        places.push(x.place)?;
    }
    Ok(places)
}
