//! Closure by a work list.

ghost use Rattle.std.specs.Prelude.{◌≡◌, ◌<◌, ℕ, length, replicate, IfOk, OnOk, MatchOption, Some, true, false, [], ◌∷◌, ◌++◌, All, slice_get, slice_index_or};
ghost use Rattle.jl_closure.specs.Reached.{IsReached};
ghost use Rattle.jl_closure.specs.Work.{with_place, with_places};

use jl_prim::Items;
use std::alloc::{AllocError, Global};

/// Which places are reached from the starts, where `next` gives for each place those that follow it.
pub fn closure(
    alloc: Global,
    next: &[Items<usize>],
    starts: &[usize],
) -> Result<Vec<bool>, AllocError>
    requires graph { All (λ row. All (λ p. p < length next.now) row) next.now }
    requires within { All (λ p. p < length next.now) starts.now }
    ensures one_each { IfOk result (λ marks. length marks.items ≡ length next.now) }
    // What is marked is reached.
    ensures only { IfOk result (λ marks. (p : ℕ) → slice_get marks.items p ≡ Some true → IsReached next.now starts.now p) }
    // What is reached is marked.
    ensures all { IfOk result (λ marks. (p : ℕ) → IsReached next.now starts.now p → slice_get marks.items p ≡ Some true) }
{
    let mut marks = no_marks(alloc, next.len())?;
    let mut work = Vec::new(alloc);
    mark_all(&mut marks, &mut work, starts)?;
    while let Some(place) = take_last(&mut work) {
        let row = followers(next, place);
        mark_all(&mut marks, &mut work, row)?;
    }
    Ok(marks)
}

fn no_marks(alloc: Global, count: usize) -> Result<Vec<bool>, AllocError>
    ensures { IfOk result (λ marks. marks.items ≡ replicate count false) }
{
    vec![in alloc; false; count]
}

fn take_last(work: &mut Vec<usize>) -> Option<usize>
    ensures { MatchOption result (work.old.items ≡ []) (λ place. work.old.items ≡ work.new.items ++ place ∷ []) }
{
    work.pop()
}

fn followers(next: &[Items<usize>], place: usize) -> &[usize]
    requires { place < length next.now }
    ensures { result.now ≡ slice_index_or next.now place [] }
{
    next[place].as_slice()
}

/// Marks the places that are not marked yet, and adds them to the work.
fn mark_all(
    marks: &mut Vec<bool>,
    work: &mut Vec<usize>,
    places: &[usize],
) -> Result<(), AllocError>
    requires { All (λ p. p < length marks.old.items) places.now }
    ensures { OnOk result ((marks.new.items, work.new.items) ≡ with_places (marks.old.items, work.old.items) places.now) }
{
    for place in places {
        mark(marks, work, *place)?;
    }
    Ok(())
}

fn mark(marks: &mut Vec<bool>, work: &mut Vec<usize>, place: usize) -> Result<(), AllocError>
    requires { place < length marks.old.items }
    ensures { OnOk result ((marks.new.items, work.new.items) ≡ with_place (marks.old.items, work.old.items) place) }
{
    if !marks[place] {
        marks[place] = true;
        work.push(place)?;
    }
    Ok(())
}
