//! Decoding a method's code.

ghost use Rattle.std.specs.Prelude.{◌≡◌, ◌<◌, ◌^◌, ◌↔◌, length, Ok, Err, IfOk};
ghost use Rattle.jl_logic.specs.Answers.{Tells};
ghost use Rattle.jl_code.specs.Told.{told};
ghost use Rattle.jl_code.specs.Places.{is_marked};
ghost use Rattle.jl_code.specs.Decoding as words;
ghost use Rattle.jl_code.specs.Decoding.{code_of};
ghost use Rattle.jl_code.specs.Spelling.{IsCode};
ghost use Rattle.jl_code.specs.Sound.{IsSound};
ghost use Rattle.jl_code.specs.declared.code.Code.{Code};
ghost use Rattle.jl_code.specs.declared.fault.CodeFault.{CodeFault};

use crate::branches::first_astray;
use crate::code::{Code, Instr};
use crate::fault::CodeFault;
use crate::handlers::wrong_handler;
use crate::places::marks_of;
use crate::references::described;
use crate::stubs::first_stub;
use crate::types::has_float;
use crate::walking::{Walked, walk};
use jl_pool::Pool;
use jl_prim::{Handler, Items};
use std::alloc::Global;

/// The code as instructions, or as a stub.
fn kind_of(
    alloc: Global,
    pool: &Pool,
    desc: &[u8],
    instructions: Items<Instr>,
) -> Result<Code, CodeFault>
    ensures { Tells told result (Ok (words.kind_of pool.now desc.now instructions)) }
{
    let method = described(alloc, desc)?;
    if has_float(&method) {
        return Ok(Code::Stub(None));
    }
    match first_stub(alloc, pool, instructions.as_slice())? {
        Some(op) => Ok(Code::Stub(Some(op))),
        None => Ok(Code::Instructions(instructions)),
    }
}

/// What the instructions of a walk are, by the marks of the places where instructions stand.
fn judged(
    alloc: Global,
    pool: &Pool,
    desc: &[u8],
    code: &[u8],
    handlers: &[Handler],
    marks: &[bool],
    walked: Walked,
) -> Result<Code, CodeFault>
    ensures { Tells told result (words.judged pool.now desc.now code.now handlers.now (is_marked marks.now) walked) }
{
    let Walked {
        instructions,
        fault,
    } = walked;
    if let Some(at) = first_astray(marks, instructions.as_slice()) {
        return Err(CodeFault::BadTarget(at));
    }
    if let Some(fault) = fault {
        return Err(fault);
    }
    if let Some(place) = wrong_handler(pool, code, marks, handlers) {
        return Err(CodeFault::BadRange(place));
    }
    kind_of(alloc, pool, desc, instructions)
}

/// The instructions of a method's code, or that it is a stub (JVMS 4.7.3, 4.9.1, 6.5).
///
/// `Empty` where there is no byte. Then faults come in the order of places: `BadTarget` of the first
/// instruction that leads to a place where none stands, before the fault of the first instruction that is not
/// right in itself. Where instructions stand is decided by opcodes and lengths alone. `BadRange` comes behind
/// these, for the first handler that is wrong: it covers nothing, or no instruction stands at its start, its target
/// or its end (which may be that of the code), or its catch type is neither 0 nor a class. What makes a
/// stub of a method is `F` or `D` among its own parameters or as its result, or else its first instruction that
/// does. A text that is no method's descriptor has neither.
pub fn decode(
    alloc: Global,
    pool: &Pool,
    desc: &[u8],
    code: &[u8],
    handlers: &[Handler],
) -> Result<Code, CodeFault>
    requires { length code.now < 2 ^ 32 }
    // By reading from left to right.
    ensures exact { Tells told result (code_of pool.now desc.now code.now handlers.now) }
    // What is read is spelled so.
    ensures found { IfOk result (λ c. IsCode pool.now desc.now code.now handlers.now c) }
    // What is spelled so is read, unless memory runs out.
    ensures only { (c : Code) → IsCode pool.now desc.now code.now handlers.now c → Tells told result (Ok c) }
    // What follows of instructions that are read.
    ensures sound { IfOk result (λ c. IsSound pool.now desc.now code.now handlers.now c) }
    // There is a fault exactly where the bytes are no code.
    ensures one { ((f : CodeFault) × (code_of pool.now desc.now code.now handlers.now ≡ Err f)) ↔ ((c : Code) → IsCode pool.now desc.now code.now handlers.now c → ⊥) }
{
    decoded(alloc, pool, desc, code, handlers)
}

#[tactic(auto, unfolding(crate::specs::Decoding::code_of))]
fn decoded(
    alloc: Global,
    pool: &Pool,
    desc: &[u8],
    code: &[u8],
    handlers: &[Handler],
) -> Result<Code, CodeFault>
    requires { length code.now < 2 ^ 32 }
    ensures { Tells told result (code_of pool.now desc.now code.now handlers.now) }
{
    if code.is_empty() {
        return Err(CodeFault::Empty);
    }
    let walked = walk(alloc, pool, code)?;
    let marks = marks_of(alloc, code)?;
    judged(alloc, pool, desc, code, handlers, &marks, walked)
}
