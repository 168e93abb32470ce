//! Instructions that make a method a stub.

ghost use Rattle.std.specs.Prelude.{◌≡◌, Ok};
ghost use Rattle.jl_logic.specs.Answers.{Tells};
ghost use Rattle.jl_optable.specs.Rows as rows;
ghost use Rattle.jl_code.specs.Told.{told};
ghost use Rattle.jl_code.specs.Stubs as words;
ghost use Rattle.jl_code.specs.Decoding as decoded;

use crate::code::{Arg, Instr};
use crate::fault::CodeFault;
use crate::reading::form_of;
use crate::references::member_type;
use crate::types::{has_float, is_float_field};
use jl_optable::ops;
use jl_pool::Pool;
use std::alloc::Global;

/// Whether a loaded constant makes a stub.
fn is_stub_constant(tag: Option<u8>) -> bool
    ensures { result ≡ words.is_stub_constant tag }
{
    matches!(tag, Some(4 | 6 | 15 | 16 | 17))
}

/// Whether what an instruction names makes a stub.
fn names_stub(alloc: Global, pool: &Pool, op: u8, i: u16) -> Result<bool, CodeFault>
    ensures { Tells told result (Ok (words.names_stub pool.now op i)) }
{
    match op {
        ops::LDC..=ops::LDC2_W => Ok(is_stub_constant(pool.tag(i))),
        ops::GETSTATIC..=ops::PUTFIELD => {
            let found = member_type(alloc, pool, i)?;
            Ok(is_float_field(&found))
        }
        ops::INVOKEVIRTUAL..=ops::INVOKEINTERFACE => {
            let found = member_type(alloc, pool, i)?;
            Ok(has_float(&found))
        }
        _ => Ok(false),
    }
}

/// Whether the row of an opcode makes a stub.
fn row_makes_stub(op: u8) -> bool
    ensures { result ≡ words.row_makes_stub (rows.form_of op) }
{
    match form_of(op) {
        Some(form) => form.stub,
        None => false,
    }
}

/// Whether an instruction makes a stub by its operands.
fn arg_makes_stub(alloc: Global, pool: &Pool, op: u8, arg: &Arg) -> Result<bool, CodeFault>
    ensures { Tells told result (Ok (words.arg_makes_stub pool.now op arg.now)) }
{
    match arg {
        Arg::Number(n) => Ok(op == ops::NEWARRAY && matches!(*n, 6..=7)),
        Arg::Index(i) => names_stub(alloc, pool, op, *i),
        _ => Ok(false),
    }
}

/// Whether an instruction makes a stub.
#[tactic(auto, unfolding(crate::specs::Stubs::makes_stub))]
fn makes_stub(alloc: Global, pool: &Pool, instr: &Instr) -> Result<bool, CodeFault>
    ensures { Tells told result (Ok (words.makes_stub pool.now instr.now)) }
{
    if row_makes_stub(instr.op) {
        return Ok(true);
    }
    arg_makes_stub(alloc, pool, instr.op, &instr.arg)
}

/// The opcode of the first instruction that makes a stub.
#[tactic(auto, unfolding(crate::specs::Decoding::first_where))]
pub fn first_stub(alloc: Global, pool: &Pool, all: &[Instr]) -> Result<Option<u8>, CodeFault>
    ensures { Tells told result (Ok (decoded.first_stub pool.now all.now)) }
{
    let mut rest = all;
    while let [instr, others @ ..] = rest {
        if makes_stub(alloc, pool, instr)? {
            return Ok(Some(instr.op));
        }
        rest = others;
    }
    Ok(None)
}
