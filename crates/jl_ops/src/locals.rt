//! Loads, stores and `iinc` (JVMS 6.5).

ghost use Rattle.std.specs.Prelude.{◌≡◌, ◌+◌, ◌≤◌, IsSome};
ghost use Rattle.jl_heap.specs.Frames.{top_of, locals_in};
ghost use Rattle.jl_ops.specs.Operands.{Does, kind_slots, value_slots};
ghost use Rattle.jl_ops.specs.Locals as words;

use crate::operands::{
    need_room, no_room, pop_value, put_value, value_in_local, value_under, wanted,
};
use crate::stop::Stop;
use jl_heap::{Frames, Kind, Value};

/// The slots that a value of a kind takes.
fn kind_slots(kind: Kind) -> u16
    ensures { result ≡ kind_slots kind }
{
    match kind {
        Kind::Long => 2,
        _ => 1,
    }
}

/// Whether a value of a kind in a local goes past the frame's locals.
fn is_past(frames: &Frames, kind: Kind, local: u16) -> bool
    requires { IsSome (top_of frames.now) }
    ensures { result ≡ words.is_past kind local frames.now }
{
    u32::from(frames.max_locals()) < u32::from(local) + u32::from(kind_slots(kind))
}

/// Sets a value in its local, a long in two.
fn set_value(frames: &mut Frames, local: u16, v: Value)
    requires { local + value_slots v ≤ locals_in frames.old }
    ensures set { frames.new ≡ words.set_value local v frames.old }
    ensures frame { IsSome (top_of frames.new) }
{
    let at = local as usize;
    frames.set_local(at, v);
    if let Value::Long(_) = v {
        frames.set_local(at + 1, Value::Top);
    }
}

/// Loads a value of a kind from a local.
#[tactic(auto, unfolding(crate::specs::Locals::loaded))]
pub fn load(frames: &mut Frames, kind: Kind, local: u16) -> Result<(), Stop>
    requires { IsSome (top_of frames.old) }
    ensures does { Does (words.loaded kind local frames.old) frames.old result frames.new }
    ensures frame { IsSome (top_of frames.new) }
{
    if is_past(frames, kind, local) {
        return Err(no_room());
    }
    let v = wanted(kind, value_in_local(frames, local))?;
    need_room(frames, kind_slots(kind))?;
    put_value(frames, v);
    Ok(())
}

/// Stores a value of a kind into a local.
#[tactic(auto, unfolding(crate::specs::Locals::stored))]
pub fn store(frames: &mut Frames, kind: Kind, local: u16) -> Result<(), Stop>
    requires { IsSome (top_of frames.old) }
    ensures does { Does (words.stored kind local frames.old) frames.old result frames.new }
    ensures frame { IsSome (top_of frames.new) }
{
    let v = wanted(kind, value_under(frames, 0))?;
    if is_past(frames, kind, local) {
        return Err(no_room());
    }
    pop_value(frames, v);
    set_value(frames, local, v);
    Ok(())
}

/// Adds a number to an int in a local.
#[tactic(auto, unfolding(crate::specs::Locals::increased))]
pub fn increase(frames: &mut Frames, local: u16, more: i32) -> Result<(), Stop>
    requires { IsSome (top_of frames.old) }
    ensures does { Does (words.increased local more frames.old) frames.old result frames.new }
    ensures frame { IsSome (top_of frames.new) }
{
    if is_past(frames, Kind::Int, local) {
        return Err(no_room());
    }
    match value_in_local(frames, local) {
        Value::Int(n) => {
            frames.set_local(local as usize, Value::Int(n.wrapping_add(more)));
            Ok(())
        }
        v => Err(Stop::Stuck(Kind::Int, v.kind())),
    }
}
