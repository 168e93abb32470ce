//! Numbers behind an opcode, and the places to which branches lead (JVMS 6.5).
//!
//! Each function gets the place of the instruction, which its faults have.

ghost use Rattle.std.specs.Prelude.{◌≡◌, ◌≤◌, ◌<◌, ◌+◌, ◌^◌, length, IfOk};
ghost use Rattle.jl_code.specs.Operands.{operand_at, target as target_of};

use crate::fault::CodeFault;
use byteorder::{BigEndian, ByteOrder};

/// The number in a byte, and the place after it.
pub fn byte_at(at: u32, code: &[u8], next: usize) -> Result<(u8, usize), CodeFault>
    requires { next ≤ length code.now + 7 }
    ensures exact { result ≡ operand_at at 1 code.now next }
    ensures within { IfOk result (λ x. (x.1 ≡ next + 1) × (x.1 ≤ length code.now)) }
{
    if code.len() < next + 1 {
        return Err(CodeFault::ShortOperand(at));
    }
    Ok((code[next], next + 1))
}

/// The number in two bytes, and the place after them.
pub fn u16_at(at: u32, code: &[u8], next: usize) -> Result<(u16, usize), CodeFault>
    requires { next ≤ length code.now + 7 }
    ensures exact { result ≡ operand_at at 2 code.now next }
    ensures within { IfOk result (λ x. (x.1 ≡ next + 2) × (x.1 ≤ length code.now)) }
{
    if code.len() < next + 2 {
        return Err(CodeFault::ShortOperand(at));
    }
    Ok((BigEndian::read_u16(&code[next..]), next + 2))
}

/// The number in four bytes, and the place after them.
pub fn u32_at(at: u32, code: &[u8], next: usize) -> Result<(u32, usize), CodeFault>
    requires { next ≤ length code.now + 7 }
    ensures exact { result ≡ operand_at at 4 code.now next }
    ensures within { IfOk result (λ x. (x.1 ≡ next + 4) × (x.1 ≤ length code.now)) }
{
    if code.len() < next + 4 {
        return Err(CodeFault::ShortOperand(at));
    }
    Ok((BigEndian::read_u32(&code[next..]), next + 4))
}

/// The place to which a branch leads, which is inside the code.
pub fn target(at: u32, code: &[u8], offset: i32) -> Result<u32, CodeFault>
    requires { length code.now < 2 ^ 32 }
    ensures { result ≡ target_of at code.now offset }
{
    match at.checked_add_signed(offset) {
        Some(place) if (place as usize) < code.len() => Ok(place),
        _ => Err(CodeFault::BadTarget(at)),
    }
}
