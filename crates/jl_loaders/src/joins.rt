//! Loaders that constraints of a name join, as rows of places.

ghost use Rattle.std.specs.Prelude.{◌≡◌, ◌<◌, [], ◌∷◌, ◌++◌, length, OnOk, IfOk, replicate, slice_set, slice_index_or};
ghost use Rattle.jl_loaders.specs.Joins.{AreJoins, AreWithin, IsWithin, with_join};

use crate::constraint::Constraint;
use jl_prim::{Items, LoaderId};
use std::alloc::{AllocError, Global};

/// For each of so many loaders the places of those that an entry of the name joins to it.
pub fn joins_of(
    alloc: Global,
    count: usize,
    constraints: &[Constraint],
    name: &[u8],
) -> Result<Vec<Items<usize>>, AllocError>
    requires { AreWithin count constraints.now }
    ensures { IfOk result (λ rows. AreJoins count constraints.now name.now rows.items) }
{
    let mut rows = no_rows(alloc, count)?;
    for constraint in constraints {
        if constraint.name.as_bytes() == name {
            join(&mut rows, constraint.one, constraint.other)?;
        }
    }
    Ok(rows)
}

fn no_rows(alloc: Global, count: usize) -> Result<Vec<Items<usize>>, AllocError>
    ensures { IfOk result (λ rows. rows.items ≡ replicate count []) }
{
    let mut rows = Vec::with_capacity(alloc, count)?;
    for _ in 0..count {
        rows.push(Items::new(alloc))?;
    }
    Ok(rows)
}

/// Joins two loaders, each to the other.
fn join(rows: &mut Vec<Items<usize>>, one: LoaderId, other: LoaderId) -> Result<(), AllocError>
    requires one { IsWithin (length rows.old.items) one }
    requires other { IsWithin (length rows.old.items) other }
    ensures { OnOk result (rows.new.items ≡ with_join rows.old.items one other) }
{
    let first = one.0 as usize - 1;
    let second = other.0 as usize - 1;
    push_at(rows, first, second)?;
    push_at(rows, second, first)
}

/// Adds a place to a row.
fn push_at(rows: &mut Vec<Items<usize>>, at: usize, place: usize) -> Result<(), AllocError>
    requires { at < length rows.old.items }
    ensures { OnOk result (rows.new.items ≡ slice_set rows.old.items at (slice_index_or rows.old.items at [] ++ place ∷ [])) }
{
    let row = &mut rows[at];
    match row.push(place) {
        Ok(()) => Ok(()),
        Err(_) => Err(AllocError),
    }
}
