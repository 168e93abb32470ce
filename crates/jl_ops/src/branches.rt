//! Branches and switches (JVMS 6.5).

ghost use Rattle.std.specs.Prelude.{◌≡◌, IsSome};
ghost use Rattle.jl_heap.specs.Frames.{top_of};
ghost use Rattle.jl_ops.specs.Operands.{Does};
ghost use Rattle.jl_ops.specs.Branches as words;

use crate::arithmetic::holds;
use crate::operands::{int_under, ref_under};
use crate::row::{Condition, Test};
use crate::stop::Stop;
use jl_heap::Frames;
use jl_prim::ObjRef;

/// Whether two references are of the same object, or null both.
fn is_same(a: Option<ObjRef>, b: Option<ObjRef>) -> bool
    ensures { result ≡ words.is_same a b }
{
    match (a, b) {
        (None, None) => true,
        (Some(a), Some(b)) => a.0 == b.0,
        _ => false,
    }
}

#[tactic(auto, unfolding(crate::specs::Branches::tested))]
fn test_zero(frames: &mut Frames, condition: Condition) -> Result<bool, Stop>
    requires { IsSome (top_of frames.old) }
    ensures does { words.Tests (words.tested (Test.Zero condition) frames.old) frames.old result frames.new }
    ensures frame { IsSome (top_of frames.new) }
{
    let n = int_under(frames, 0)?;
    frames.pop();
    Ok(holds(condition, n, 0))
}

#[tactic(auto, unfolding(crate::specs::Branches::tested))]
fn test_ints(frames: &mut Frames, condition: Condition) -> Result<bool, Stop>
    requires { IsSome (top_of frames.old) }
    ensures does { words.Tests (words.tested (Test.Ints condition) frames.old) frames.old result frames.new }
    ensures frame { IsSome (top_of frames.new) }
{
    let b = int_under(frames, 0)?;
    let a = int_under(frames, 1)?;
    frames.pop();
    frames.pop();
    Ok(holds(condition, a, b))
}

#[tactic(auto, unfolding(crate::specs::Branches::tested))]
fn test_same(frames: &mut Frames, wants: bool) -> Result<bool, Stop>
    requires { IsSome (top_of frames.old) }
    ensures does { words.Tests (words.tested (Test.Same wants) frames.old) frames.old result frames.new }
    ensures frame { IsSome (top_of frames.new) }
{
    let b = ref_under(frames, 0)?;
    let a = ref_under(frames, 1)?;
    frames.pop();
    frames.pop();
    Ok(is_same(a, b) == wants)
}

#[tactic(auto, unfolding(crate::specs::Branches::tested))]
fn test_null(frames: &mut Frames, wants: bool) -> Result<bool, Stop>
    requires { IsSome (top_of frames.old) }
    ensures does { words.Tests (words.tested (Test.Null wants) frames.old) frames.old result frames.new }
    ensures frame { IsSome (top_of frames.new) }
{
    let o = ref_under(frames, 0)?;
    frames.pop();
    Ok(o.is_none() == wants)
}

/// Takes the operands of a branch, and answers whether it is taken itself.
#[tactic(auto, unfolding(crate::specs::Branches::tested))]
fn is_taken(frames: &mut Frames, test: Test) -> Result<bool, Stop>
    requires { IsSome (top_of frames.old) }
    ensures does { words.Tests (words.tested test frames.old) frames.old result frames.new }
    ensures frame { IsSome (top_of frames.new) }
{
    match test {
        Test::Always => Ok(true),
        Test::Zero(condition) => test_zero(frames, condition),
        Test::Ints(condition) => test_ints(frames, condition),
        Test::Same(wants) => test_same(frames, wants),
        Test::Null(wants) => test_null(frames, wants),
    }
}

/// A branch to a place, which the next place stands for where it is not taken.
#[tactic(auto, unfolding(crate::specs::Branches::branched))]
pub fn branch(frames: &mut Frames, test: Test, place: u32, next: u32) -> Result<(), Stop>
    requires { IsSome (top_of frames.old) }
    ensures { Does (words.branched test place next frames.old) frames.old result frames.new }
{
    let is_taken = is_taken(frames, test)?;
    frames.set_pc(if is_taken { place } else { next });
    Ok(())
}

/// The place of the first case with a key, and that of all other keys where there is none.
fn chosen(key: i32, other: u32, cases: &[(i32, u32)]) -> u32
    ensures { result ≡ words.chosen key other cases.now }
{
    let mut rest = cases;
    while let [(of, place), others @ ..] = rest {
        if *of == key {
            return *place;
        }
        rest = others;
    }
    other
}

/// A switch, to the place of its key.
#[tactic(auto, unfolding(crate::specs::Branches::switched))]
pub fn switch(frames: &mut Frames, other: u32, cases: &[(i32, u32)]) -> Result<(), Stop>
    requires { IsSome (top_of frames.old) }
    ensures { Does (words.switched other cases.now frames.old) frames.old result frames.new }
{
    let key = int_under(frames, 0)?;
    frames.pop();
    frames.set_pc(chosen(key, other, cases));
    Ok(())
}
