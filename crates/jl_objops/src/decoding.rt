//! Which row an instruction has (JVMS 6.5).

ghost use Rattle.std.specs.Prelude.{◌≡◌};
ghost use Rattle.jl_objops.specs.Rows as words;

use crate::row::{CastOp, FieldOp, ObjectRow};
use jl_code::{Arg, Instr};
use jl_optable::ops;

/// The row of an instruction that asks for classes. None for any other, and for calls and arrays of arrays.
pub fn row_of(instr: &Instr) -> Option<ObjectRow>
    ensures { result ≡ words.row_of instr.now }
{
    match &instr.arg {
        Arg::Index(index) => named_row(instr.op, *index),
        Arg::Nothing if instr.op == ops::AASTORE => Some(ObjectRow::StoreReference),
        _ => None,
    }
}

/// The row of an opcode that names an entry of the pool.
fn named_row(op: u8, index: u16) -> Option<ObjectRow>
    ensures { result ≡ words.named_row op index }
{
    match op {
        ops::LDC | ops::LDC_W => Some(ObjectRow::Constant(index)),
        ops::GETSTATIC => Some(ObjectRow::Field(FieldOp::GetStatic, index)),
        ops::PUTSTATIC => Some(ObjectRow::Field(FieldOp::PutStatic, index)),
        ops::GETFIELD => Some(ObjectRow::Field(FieldOp::GetField, index)),
        ops::PUTFIELD => Some(ObjectRow::Field(FieldOp::PutField, index)),
        ops::NEW => Some(ObjectRow::New(index)),
        ops::ANEWARRAY => Some(ObjectRow::NewArray(index)),
        ops::CHECKCAST => Some(ObjectRow::Cast(CastOp::Check, index)),
        ops::INSTANCEOF => Some(ObjectRow::Cast(CastOp::Ask, index)),
        _ => None,
    }
}
