//! The rows that change the top frame alone (JVMS 6.5).

ghost use Rattle.std.specs.Prelude.{◌≡◌, IsSome};
ghost use Rattle.std.specs.Int.{int_wrapping_neg, w32};
ghost use Rattle.jl_heap.specs.Frames.{top_of};
ghost use Rattle.jl_ops.specs.Arithmetic as arithmetic;
ghost use Rattle.jl_ops.specs.Operands.{Does};
ghost use Rattle.jl_ops.specs.FrameRows as words;

use crate::arithmetic::{compared, cut, int_result, long_result, low_int, shifted_long};
use crate::locals::{increase, load, store};
use crate::operands::{int_under, long_under, need_room, put_value, ref_under, value_slots};
use crate::row::{FrameRow, IntOp, IntType, LongOp, Shift};
use crate::stacks::rearrange;
use crate::stop::Stop;
use jl_heap::{Frames, Value};

/// Pushes a constant.
#[tactic(auto, unfolding(crate::specs::FrameRows::pushed))]
fn push(frames: &mut Frames, v: Value) -> Result<(), Stop>
    requires { IsSome (top_of frames.old) }
    ensures does { Does (words.pushed v frames.old) frames.old result frames.new }
    ensures frame { IsSome (top_of frames.new) }
{
    need_room(frames, value_slots(v))?;
    put_value(frames, v);
    Ok(())
}

/// Takes two ints, of which the second lies on top, and puts what is computed of them.
#[tactic(auto, unfolding(crate::specs::FrameRows::ints_computed))]
fn compute_ints(frames: &mut Frames, op: IntOp) -> Result<(), Stop>
    requires { IsSome (top_of frames.old) }
    ensures does { Does (words.ints_computed op frames.old) frames.old result frames.new }
    ensures frame { IsSome (top_of frames.new) }
{
    let b = int_under(frames, 0)?;
    let a = int_under(frames, 1)?;
    let Some(n) = int_result(op, a, b) else {
        return Err(Stop::ZeroDivisor);
    };
    frames.pop();
    frames.pop();
    frames.put(Value::Int(n));
    Ok(())
}

/// Takes two longs, of which the second lies on top, and puts what is computed of them.
#[tactic(auto, unfolding(crate::specs::FrameRows::longs_computed))]
fn compute_longs(frames: &mut Frames, op: LongOp) -> Result<(), Stop>
    requires { IsSome (top_of frames.old) }
    ensures does { Does (words.longs_computed op frames.old) frames.old result frames.new }
    ensures frame { IsSome (top_of frames.new) }
{
    let b = long_under(frames, 0)?;
    let a = long_under(frames, 2)?;
    let Some(n) = long_result(op, a, b) else {
        return Err(Stop::ZeroDivisor);
    };
    frames.pop();
    frames.pop();
    frames.pop();
    frames.pop();
    put_value(frames, Value::Long(n));
    Ok(())
}

/// Takes a count and a long under it, and puts the long shifted.
#[tactic(auto, unfolding(crate::specs::FrameRows::long_shifted))]
fn shift_long(frames: &mut Frames, shift: Shift) -> Result<(), Stop>
    requires { IsSome (top_of frames.old) }
    ensures does { Does (words.long_shifted shift frames.old) frames.old result frames.new }
    ensures frame { IsSome (top_of frames.new) }
{
    let b = int_under(frames, 0)?;
    let a = long_under(frames, 1)?;
    frames.pop();
    frames.pop();
    frames.pop();
    put_value(frames, Value::Long(shifted_long(shift, a, b)));
    Ok(())
}

#[tactic(auto, unfolding(crate::specs::FrameRows::int_changed))]
fn negate_int(frames: &mut Frames) -> Result<(), Stop>
    requires { IsSome (top_of frames.old) }
    ensures does { Does (words.int_changed (λ n. int_wrapping_neg w32 n) frames.old) frames.old result frames.new }
    ensures frame { IsSome (top_of frames.new) }
{
    let n = int_under(frames, 0)?;
    frames.pop();
    frames.put(Value::Int(n.wrapping_neg()));
    Ok(())
}

#[tactic(auto, unfolding(crate::specs::FrameRows::long_negated))]
fn negate_long(frames: &mut Frames) -> Result<(), Stop>
    requires { IsSome (top_of frames.old) }
    ensures does { Does (words.long_negated frames.old) frames.old result frames.new }
    ensures frame { IsSome (top_of frames.new) }
{
    let n = long_under(frames, 0)?;
    frames.pop();
    frames.pop();
    put_value(frames, Value::Long(n.wrapping_neg()));
    Ok(())
}

/// Takes an int, and puts it as a long.
#[tactic(auto, unfolding(crate::specs::FrameRows::widened))]
fn widen(frames: &mut Frames) -> Result<(), Stop>
    requires { IsSome (top_of frames.old) }
    ensures does { Does (words.widened frames.old) frames.old result frames.new }
    ensures frame { IsSome (top_of frames.new) }
{
    let n = int_under(frames, 0)?;
    need_room(frames, 1)?;
    frames.pop();
    put_value(frames, Value::Long(i64::from(n)));
    Ok(())
}

/// Takes a long, and puts its low 32 bits as an int.
#[tactic(auto, unfolding(crate::specs::FrameRows::narrowed))]
fn narrow(frames: &mut Frames) -> Result<(), Stop>
    requires { IsSome (top_of frames.old) }
    ensures does { Does (words.narrowed frames.old) frames.old result frames.new }
    ensures frame { IsSome (top_of frames.new) }
{
    let n = long_under(frames, 0)?;
    frames.pop();
    frames.pop();
    frames.put(Value::Int(low_int(n)));
    Ok(())
}

/// Takes an int, and puts it cut to a type.
#[tactic(auto, unfolding(crate::specs::FrameRows::int_changed))]
fn cut_int(frames: &mut Frames, to: IntType) -> Result<(), Stop>
    requires { IsSome (top_of frames.old) }
    ensures does { Does (words.int_changed (arithmetic.cut to) frames.old) frames.old result frames.new }
    ensures frame { IsSome (top_of frames.new) }
{
    let n = int_under(frames, 0)?;
    frames.pop();
    frames.put(Value::Int(cut(to, n)));
    Ok(())
}

/// Takes two longs, of which the second lies on top, and puts how they compare.
#[tactic(auto, unfolding(crate::specs::FrameRows::longs_compared))]
fn compare_longs(frames: &mut Frames) -> Result<(), Stop>
    requires { IsSome (top_of frames.old) }
    ensures does { Does (words.longs_compared frames.old) frames.old result frames.new }
    ensures frame { IsSome (top_of frames.new) }
{
    let b = long_under(frames, 0)?;
    let a = long_under(frames, 2)?;
    frames.pop();
    frames.pop();
    frames.pop();
    frames.pop();
    frames.put(Value::Int(compared(a, b)));
    Ok(())
}

/// Enters or leaves the monitor of an object, which is taken.
#[tactic(auto, unfolding(crate::specs::FrameRows::monitored))]
fn take_monitor(frames: &mut Frames) -> Result<(), Stop>
    requires { IsSome (top_of frames.old) }
    ensures does { Does (words.monitored frames.old) frames.old result frames.new }
    ensures frame { IsSome (top_of frames.new) }
{
    if ref_under(frames, 0)?.is_none() {
        return Err(Stop::Null);
    }
    frames.pop();
    Ok(())
}

/// Executes a row that changes the top frame alone.
#[tactic(auto, unfolding(crate::specs::FrameRows::frame_row))]
pub fn frame_row(frames: &mut Frames, row: FrameRow) -> Result<(), Stop>
    requires { IsSome (top_of frames.old) }
    ensures does { Does (words.frame_row row frames.old) frames.old result frames.new }
    ensures frame { IsSome (top_of frames.new) }
{
    match row {
        FrameRow::Nothing => Ok(()),
        FrameRow::Constant(v) => push(frames, v),
        FrameRow::Load(kind, local) => load(frames, kind, local),
        FrameRow::Store(kind, local) => store(frames, kind, local),
        FrameRow::Increase(local, more) => increase(frames, local, more),
        FrameRow::Stack(op) => rearrange(frames, op),
        FrameRow::Ints(op) => compute_ints(frames, op),
        FrameRow::Longs(op) => compute_longs(frames, op),
        FrameRow::ShiftLong(shift) => shift_long(frames, shift),
        FrameRow::NegateInt => negate_int(frames),
        FrameRow::NegateLong => negate_long(frames),
        FrameRow::IntToLong => widen(frames),
        FrameRow::LongToInt => narrow(frames),
        FrameRow::Cut(to) => cut_int(frames, to),
        FrameRow::CompareLongs => compare_longs(frames),
        FrameRow::Monitor => take_monitor(frames),
    }
}
