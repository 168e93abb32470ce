//! The rows that take, copy or swap slots of the stack (JVMS 6.5, `pop` to `swap`).
//!
//! Slots are named from the top down: `a` is on top.

ghost use Rattle.std.specs.Prelude.{◌≡◌, ◌+◌, ◌≤◌, ◌<◌, IsSome, OnOk};
ghost use Rattle.jl_heap.specs.Frames.{top_of, height_in};
ghost use Rattle.jl_ops.specs.Operands.{Does};
ghost use Rattle.jl_ops.specs.Stacks as words;

use crate::operands::{need_room, no_slot};
use crate::row::StackOp;
use crate::stop::Stop;
use jl_heap::{Frames, Value};

/// The slot so many below the top, which has to hold a value by itself.
fn one_under(frames: &Frames, down: usize) -> Result<Value, Stop>
    requires frame { IsSome (top_of frames.now) }
    requires few { down < 8 }
    ensures value { result ≡ words.one_under frames.now down }
    ensures deep { OnOk result (down + 1 ≤ height_in frames.now) }
{
    match frames.peek(down) {
        Some(Value::Int(n)) => Ok(Value::Int(n)),
        Some(Value::Ref(o)) => Ok(Value::Ref(o)),
        _ => Err(no_slot()),
    }
}

/// The two slots from the one so many below the top on, the upper one first. They have to hold a long, or a value each.
fn two_under(frames: &Frames, down: usize) -> Result<(Value, Value), Stop>
    requires frame { IsSome (top_of frames.now) }
    requires few { down < 7 }
    ensures value { result ≡ words.two_under frames.now down }
    ensures deep { OnOk result (down + 2 ≤ height_in frames.now) }
{
    if let (Some(Value::Top), Some(Value::Long(n))) = (frames.peek(down), frames.peek(down + 1)) {
        return Ok((Value::Top, Value::Long(n)));
    }
    let upper = one_under(frames, down)?;
    let lower = one_under(frames, down + 1)?;
    Ok((upper, lower))
}

#[tactic(auto, unfolding(crate::specs::Stacks::pop))]
fn pop(frames: &mut Frames) -> Result<(), Stop>
    requires { IsSome (top_of frames.old) }
    ensures does { Does (words.pop frames.old) frames.old result frames.new }
    ensures frame { IsSome (top_of frames.new) }
{
    one_under(frames, 0)?;
    frames.pop();
    Ok(())
}

#[tactic(auto, unfolding(crate::specs::Stacks::pop2))]
fn pop2(frames: &mut Frames) -> Result<(), Stop>
    requires { IsSome (top_of frames.old) }
    ensures does { Does (words.pop2 frames.old) frames.old result frames.new }
    ensures frame { IsSome (top_of frames.new) }
{
    two_under(frames, 0)?;
    frames.pop();
    frames.pop();
    Ok(())
}

#[tactic(auto, unfolding(crate::specs::Stacks::dup))]
fn dup(frames: &mut Frames) -> Result<(), Stop>
    requires { IsSome (top_of frames.old) }
    ensures does { Does (words.dup frames.old) frames.old result frames.new }
    ensures frame { IsSome (top_of frames.new) }
{
    let a = one_under(frames, 0)?;
    need_room(frames, 1)?;
    frames.put(a);
    Ok(())
}

#[tactic(auto, unfolding(crate::specs::Stacks::dup_x1))]
fn dup_x1(frames: &mut Frames) -> Result<(), Stop>
    requires { IsSome (top_of frames.old) }
    ensures does { Does (words.dup_x1 frames.old) frames.old result frames.new }
    ensures frame { IsSome (top_of frames.new) }
{
    let a = one_under(frames, 0)?;
    let b = one_under(frames, 1)?;
    need_room(frames, 1)?;
    frames.pop();
    frames.pop();
    frames.put(a);
    frames.put(b);
    frames.put(a);
    Ok(())
}

#[tactic(auto, unfolding(crate::specs::Stacks::dup_x2))]
fn dup_x2(frames: &mut Frames) -> Result<(), Stop>
    requires { IsSome (top_of frames.old) }
    ensures does { Does (words.dup_x2 frames.old) frames.old result frames.new }
    ensures frame { IsSome (top_of frames.new) }
{
    let a = one_under(frames, 0)?;
    let (b, c) = two_under(frames, 1)?;
    need_room(frames, 1)?;
    frames.pop();
    frames.pop();
    frames.pop();
    frames.put(a);
    frames.put(c);
    frames.put(b);
    frames.put(a);
    Ok(())
}

#[tactic(auto, unfolding(crate::specs::Stacks::dup2))]
fn dup2(frames: &mut Frames) -> Result<(), Stop>
    requires { IsSome (top_of frames.old) }
    ensures does { Does (words.dup2 frames.old) frames.old result frames.new }
    ensures frame { IsSome (top_of frames.new) }
{
    let (a, b) = two_under(frames, 0)?;
    need_room(frames, 2)?;
    frames.put(b);
    frames.put(a);
    Ok(())
}

#[tactic(auto, unfolding(crate::specs::Stacks::dup2_x1))]
fn dup2_x1(frames: &mut Frames) -> Result<(), Stop>
    requires { IsSome (top_of frames.old) }
    ensures does { Does (words.dup2_x1 frames.old) frames.old result frames.new }
    ensures frame { IsSome (top_of frames.new) }
{
    let (a, b) = two_under(frames, 0)?;
    let c = one_under(frames, 2)?;
    need_room(frames, 2)?;
    frames.pop();
    frames.pop();
    frames.pop();
    frames.put(b);
    frames.put(a);
    frames.put(c);
    frames.put(b);
    frames.put(a);
    Ok(())
}

#[tactic(auto, unfolding(crate::specs::Stacks::dup2_x2))]
fn dup2_x2(frames: &mut Frames) -> Result<(), Stop>
    requires { IsSome (top_of frames.old) }
    ensures does { Does (words.dup2_x2 frames.old) frames.old result frames.new }
    ensures frame { IsSome (top_of frames.new) }
{
    let (a, b) = two_under(frames, 0)?;
    let (c, d) = two_under(frames, 2)?;
    need_room(frames, 2)?;
    frames.pop();
    frames.pop();
    frames.pop();
    frames.pop();
    frames.put(b);
    frames.put(a);
    frames.put(d);
    frames.put(c);
    frames.put(b);
    frames.put(a);
    Ok(())
}

#[tactic(auto, unfolding(crate::specs::Stacks::swap))]
fn swap(frames: &mut Frames) -> Result<(), Stop>
    requires { IsSome (top_of frames.old) }
    ensures does { Does (words.swap frames.old) frames.old result frames.new }
    ensures frame { IsSome (top_of frames.new) }
{
    let a = one_under(frames, 0)?;
    let b = one_under(frames, 1)?;
    frames.pop();
    frames.pop();
    frames.put(a);
    frames.put(b);
    Ok(())
}

/// Takes, copies or swaps slots of the stack.
#[tactic(auto, unfolding(crate::specs::Stacks::rearranged))]
pub fn rearrange(frames: &mut Frames, op: StackOp) -> Result<(), Stop>
    requires { IsSome (top_of frames.old) }
    ensures does { Does (words.rearranged op frames.old) frames.old result frames.new }
    ensures frame { IsSome (top_of frames.new) }
{
    match op {
        StackOp::Pop => pop(frames),
        StackOp::Pop2 => pop2(frames),
        StackOp::Dup => dup(frames),
        StackOp::DupX1 => dup_x1(frames),
        StackOp::DupX2 => dup_x2(frames),
        StackOp::Dup2 => dup2(frames),
        StackOp::Dup2X1 => dup2_x1(frames),
        StackOp::Dup2X2 => dup2_x2(frames),
        StackOp::Swap => swap(frames),
    }
}
