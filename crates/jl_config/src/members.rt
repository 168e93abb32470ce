//! The modules of the set.

ghost use Rattle.std.specs.Prelude.{◌≡◌, ◌≤◌, length, IfOk};
ghost use Rattle.jl_config.specs.MemberRows.{cleared};
ghost use Rattle.jl_config.specs.Places.{AreMarks, AreMembers};

use crate::member_rows::{rows_of, starts_of};
use crate::placed::{placed_of, places_of};
use crate::scene::Scene;
use jl_closure::closure;
use jl_prim::CopyEnd;
use std::alloc::Global;

/// The modules of the set: a mark for each place in sight, and their places in name order.
#[derive(Drop)]
pub struct Members {
    pub marks: Vec<bool>,
    pub places: Vec<usize>,
}

/// The modules that the roots bring in.
pub fn members_of(alloc: Global, scene: &Scene) -> Result<Members, CopyEnd>
    ensures marks { IfOk result (λ m. AreMarks scene.now m.marks.items) }
    ensures places { IfOk result (λ m. AreMembers scene.now m.places.items) }
{
    let marks = marks_of(alloc, scene)?;
    let placed = placed_of(alloc, scene.candidates(), marks.as_slice())?;
    let places = places_of(alloc, placed.as_slice())?;
    Ok(Members { marks, places })
}

fn marks_of(alloc: Global, scene: &Scene) -> Result<Vec<bool>, CopyEnd>
    ensures { IfOk result (λ marks. AreMarks scene.now marks.items) }
{
    let rows = rows_of(alloc, scene)?;
    let starts = starts_of(alloc, scene)?;
    let reached = closure(alloc, rows.as_slice(), starts.as_slice())?;
    cleared_of(alloc, scene, reached.as_slice())
}

fn cleared_of(alloc: Global, scene: &Scene, marks: &[bool]) -> Result<Vec<bool>, CopyEnd>
    requires { length scene.now.candidates ≤ length marks.now }
    ensures { IfOk result (λ kept. kept.items ≡ cleared scene.now scene.now.candidates marks.now) }
{
    let mut kept = Vec::with_capacity(alloc, marks.len())?;
    for (at, candidate) in scene.candidates().iter().enumerate() {
        kept.push(marks[at] && scene.is_here(candidate))?;
    }
    Ok(kept)
}
