//! How a method is left: by a return, or by an object that is thrown (JVMS 6.5).

ghost use Rattle.std.specs.Prelude.{◌≡◌, Err, IsSome};
ghost use Rattle.jl_heap.specs.Frames.{top_of};
ghost use Rattle.jl_ops.specs.Operands.{Does};
ghost use Rattle.jl_ops.specs.Leaving as words;

use crate::operands::{no_room, put_value, ref_under, value_slots, value_under, wanted};
use crate::stop::Stop;
use jl_heap::{Frames, Kind};

/// A return, with a value of a kind or without one. The frame below stays at its place.
#[tactic(auto, unfolding(crate::specs::Leaving::returned))]
pub fn leave(frames: &mut Frames, kind: Option<Kind>) -> Result<(), Stop>
    requires { IsSome (top_of frames.old) }
    ensures { Does (words.returned kind frames.old) frames.old result frames.new }
{
    let Some(kind) = kind else {
        frames.leave();
        return Ok(());
    };
    let v = wanted(kind, value_under(frames, 0))?;
    match frames.room_below() {
        None => frames.leave(),
        Some(room) => {
            if room < value_slots(v) {
                return Err(no_room());
            }
            frames.leave();
            put_value(frames, v);
        }
    }
    Ok(())
}

/// How `athrow` stops: with the object on top, or null in its place.
#[tactic(auto, unfolding(crate::specs::Leaving::raised))]
pub fn throw(frames: &Frames) -> Stop
    requires { IsSome (top_of frames.now) }
    ensures { words.raised frames.now ≡ Err result }
{
    match ref_under(frames, 0) {
        Ok(Some(o)) => Stop::Raised(o),
        Ok(None) => Stop::Null,
        Err(stop) => stop,
    }
}
