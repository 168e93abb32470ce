//! What lies on the top frame's stack and in its locals, value by value (JVMS 2.6.1, 2.6.2).

ghost use Rattle.std.specs.Prelude.{◌≡◌, ◌+◌, ◌-◌, ◌≤◌, ◌<◌, IfOk, IsSome, OnOk, MatchResult};
ghost use Rattle.jl_heap.specs.Frames.{top_of, height_in, locals_in, room_in, StaysOnTop};
ghost use Rattle.jl_ops.specs.Operands as words;

use crate::stop::Stop;
use jl_heap::{Frames, Kind, Value};
use jl_prim::ObjRef;

/// The value so many slots below the top of the stack. What is missing, or cuts a long, is `Top`.
pub fn value_under(frames: &Frames, down: usize) -> Value
    requires frame { IsSome (top_of frames.now) }
    requires few { down < 65536 }
    ensures value { result ≡ words.value_under frames.now down }
    ensures deep { words.IsDeep result down (height_in frames.now) }
{
    match (frames.peek(down), frames.peek(down + 1)) {
        (Some(Value::Top), Some(Value::Long(n))) => Value::Long(n),
        (Some(Value::Int(n)), _) => Value::Int(n),
        (Some(Value::Ref(o)), _) => Value::Ref(o),
        _ => Value::Top,
    }
}

/// The value in the local with a number. What cuts a long, or holds nothing, is `Top`.
pub fn value_in_local(frames: &Frames, local: u16) -> Value
    requires { local < locals_in frames.now }
    ensures { result ≡ words.value_in_local frames.now local }
{
    let next = local as usize + 1;
    let upper = if next < frames.max_locals() as usize {
        Some(frames.local(next))
    } else {
        None
    };
    match (frames.local(local as usize), upper) {
        (Value::Long(n), Some(Value::Top)) => Value::Long(n),
        (Value::Int(n), _) => Value::Int(n),
        (Value::Ref(o), _) => Value::Ref(o),
        _ => Value::Top,
    }
}

/// The value, where it is of the kind that is wanted.
pub fn wanted(kind: Kind, v: Value) -> Result<Value, Stop>
    ensures value { result ≡ words.wanted kind v }
    ensures slots { IfOk result (λ w. words.value_slots w ≡ words.kind_slots kind) }
{
    match (kind, v) {
        (Kind::Int, Value::Int(_)) | (Kind::Long, Value::Long(_)) | (Kind::Ref, Value::Ref(_)) => {
            Ok(v)
        }
        _ => Err(Stop::Stuck(kind, v.kind())),
    }
}

/// The int so many slots below the top of the stack.
pub fn int_under(frames: &Frames, down: usize) -> Result<i32, Stop>
    requires frame { IsSome (top_of frames.now) }
    requires few { down < 65536 }
    ensures value { result ≡ words.int_under frames.now down }
    ensures deep { OnOk result (down + 1 ≤ height_in frames.now) }
{
    match value_under(frames, down) {
        Value::Int(n) => Ok(n),
        v => Err(Stop::Stuck(Kind::Int, v.kind())),
    }
}

/// The long so many slots below the top of the stack.
pub fn long_under(frames: &Frames, down: usize) -> Result<i64, Stop>
    requires frame { IsSome (top_of frames.now) }
    requires few { down < 65536 }
    ensures value { result ≡ words.long_under frames.now down }
    ensures deep { OnOk result (down + 2 ≤ height_in frames.now) }
{
    match value_under(frames, down) {
        Value::Long(n) => Ok(n),
        v => Err(Stop::Stuck(Kind::Long, v.kind())),
    }
}

/// The reference so many slots below the top of the stack.
pub fn ref_under(frames: &Frames, down: usize) -> Result<Option<ObjRef>, Stop>
    requires frame { IsSome (top_of frames.now) }
    requires few { down < 65536 }
    ensures value { result ≡ words.ref_under frames.now down }
    ensures deep { OnOk result (down + 1 ≤ height_in frames.now) }
{
    match value_under(frames, down) {
        Value::Ref(o) => Ok(o),
        v => Err(Stop::Stuck(Kind::Ref, v.kind())),
    }
}

/// The slots that a value takes.
pub fn value_slots(v: Value) -> u16
    ensures { result ≡ words.value_slots v }
{
    match v {
        Value::Long(_) => 2,
        _ => 1,
    }
}

/// Puts a value on the stack, a long as its two slots.
pub fn put_value(frames: &mut Frames, v: Value)
    requires { words.value_slots v ≤ room_in frames.old }
    ensures put { frames.new ≡ words.put_value v frames.old }
    ensures frame { StaysOnTop frames.old frames.new (height_in frames.old + words.value_slots v) }
{
    frames.put(v);
    if let Value::Long(_) = v {
        frames.put(Value::Top);
    }
}

/// Takes a value from the stack, a long as its two slots.
pub fn pop_value(frames: &mut Frames, v: Value)
    requires { IsSome (top_of frames.old) }
    ensures popped { frames.new ≡ words.without_top v frames.old }
    ensures frame { StaysOnTop frames.old frames.new (height_in frames.old - words.value_slots v) }
{
    frames.pop();
    if let Value::Long(_) = v {
        frames.pop();
    }
}

/// Fails where the stack has no room for so many slots more.
pub fn need_room(frames: &Frames, slots: u16) -> Result<(), Stop>
    requires { IsSome (top_of frames.now) }
    ensures { MatchResult result (λ _. slots ≤ room_in frames.now) (λ e. (room_in frames.now < slots) × (e ≡ words.no_room)) }
{
    if frames.room() < slots {
        return Err(no_room());
    }
    Ok(())
}

/// How a row stops that takes slots whatever they hold, where one is missing or cuts a long.
pub fn no_slot() -> Stop
    ensures { result ≡ words.no_slot }
{
    Stop::Stuck(Kind::Top, Kind::Top)
}

/// How a row stops that names a local which the frame does not have, or for whose result the stack has no room.
pub fn no_room() -> Stop
    ensures { result ≡ words.no_room }
{
    Stop::Stuck(Kind::Top, Kind::Top)
}
