ghost use Rattle.std.specs.Prelude.{◌≡◌, [], ◌∷◌, IfOk};

use super::*;
use jl_prim::Items;
use std::alloc::Global;
use std::test::*;

fn one(alloc: Global, place: usize) -> Result<Items<usize>, Fail>
    ensures { IfOk result (λ row. row ≡ place ∷ []) }
{
    Ok(Items::from_vec([place].to_vec(alloc)?))
}

fn two(alloc: Global, place: usize, other: usize) -> Result<Items<usize>, Fail>
    ensures { IfOk result (λ row. row ≡ place ∷ other ∷ []) }
{
    Ok(Items::from_vec([place, other].to_vec(alloc)?))
}

/// What two starts reach, where 0 leads to 1 and 2, 1 to 3, 2 back to 0, 4 to 5, and 3 and 5 lead nowhere.
fn reached(alloc: Global, start: usize, other: usize) -> Result<Vec<bool>, Fail> {
    let next = [
        two(alloc, 1, 2)?,
        one(alloc, 3)?,
        one(alloc, 0)?,
        Items::new(alloc),
        one(alloc, 5)?,
        Items::new(alloc),
    ];
    if start >= 6 || other >= 6 {
        return Err(Fail::new("no such place"));
    }
    Ok(closure(alloc, &next, &[start, other])?)
}

/// Two starts, and the marks of what they reach.
const REACHED: [(usize, usize, [bool; 6]); 5] = [
    (0, 0, [true, true, true, true, false, false]),
    (1, 1, [false, true, false, true, false, false]),
    (2, 3, [true, true, true, true, false, false]),
    (3, 5, [false, false, false, true, false, true]),
    (4, 1, [false, true, false, true, true, true]),
];

#[test]
fn chains_are_followed(rt: HostRuntime) -> Result<(), Fail> {
    let alloc = rt.alloc();
    for (start, other, marks) in REACHED {
        assert_eq!(rt; reached(alloc, start, other)?.as_slice(), marks.as_slice());
    }
    Ok(())
}

#[test]
fn nothing_is_reached_from_nowhere(rt: HostRuntime) -> Result<(), Fail> {
    let alloc = rt.alloc();
    let next: [Items<usize>; 2] = [Items::new(alloc), Items::new(alloc)];
    let marks = closure(alloc, &next, &[])?;
    assert_eq!(rt; marks.as_slice(), [false, false].as_slice());
    marks_exist();
    Ok(())
}
