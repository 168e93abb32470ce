//! Where instructions stand, by opcodes and lengths alone (JVMS 4.9.1, 6.5).

ghost use Rattle.std.specs.Prelude.{◌≡◌, ◌≤◌, ◌<◌, ◌+◌, ◌*◌, ◌^◌, length, replicate, false, IfOk};
ghost use Rattle.jl_code.specs.Places as words;

use crate::fault::CodeFault;
use crate::operands::{byte_at, u32_at};
use crate::reading::form_of;
use crate::switches::padded;
use jl_optable::{Operands, ops};
use std::alloc::{AllocError, Global};

/// The place behind operands that are whole.
fn whole_to(at: u32, code: &[u8], end: usize) -> Result<usize, CodeFault>
    ensures exact { result ≡ words.whole_to at code.now end }
    ensures within { IfOk result (λ x. (x ≡ end) × (x ≤ length code.now)) }
{
    if code.len() < end {
        return Err(CodeFault::ShortOperand(at));
    }
    Ok(end)
}

/// The place behind a tableswitch.
#[tactic(auto, unfolding(crate::specs::Places::table_end))]
fn table_end(at: u32, code: &[u8], next: usize) -> Result<usize, CodeFault>
    requires small { length code.now < 2 ^ 32 }
    requires placed { next ≤ length code.now }
    ensures exact { result ≡ words.table_end at code.now next }
    ensures within { IfOk result (λ x. (next ≤ x) × (x ≤ length code.now)) }
{
    let (low, next) = u32_at(at, code, padded(next) + 4)?;
    let (high, next) = u32_at(at, code, next)?;
    let low = low.cast_signed();
    let high = high.cast_signed();
    if high < low {
        return Err(CodeFault::BadTarget(at));
    }
    let count = high.abs_diff(low) as usize + 1;
    whole_to(at, code, next + 4 * count)
}

/// The place behind a lookupswitch.
#[tactic(auto, unfolding(crate::specs::Places::lookup_end))]
fn lookup_end(at: u32, code: &[u8], next: usize) -> Result<usize, CodeFault>
    requires small { length code.now < 2 ^ 32 }
    requires placed { next ≤ length code.now }
    ensures exact { result ≡ words.lookup_end at code.now next }
    ensures within { IfOk result (λ x. (next ≤ x) × (x ≤ length code.now)) }
{
    let (count, next) = u32_at(at, code, padded(next) + 4)?;
    if count >= 0x8000_0000 {
        return Err(CodeFault::BadTarget(at));
    }
    whole_to(at, code, next + 8 * count as usize)
}

/// The place behind what is widened.
#[tactic(auto, unfolding(crate::specs::Places::wide_end))]
fn wide_end(at: u32, code: &[u8], next: usize) -> Result<usize, CodeFault>
    requires { next ≤ length code.now }
    ensures exact { result ≡ words.wide_end at code.now next }
    ensures within { IfOk result (λ x. (next ≤ x) × (x ≤ length code.now)) }
{
    let (op, next) = byte_at(at, code, next)?;
    match op {
        ops::IINC => whole_to(at, code, next + 4),
        ops::ILOAD..=ops::ALOAD | ops::ISTORE..=ops::ASTORE => whole_to(at, code, next + 2),
        _ => Err(CodeFault::UnknownOp(at)),
    }
}

/// How many bytes operands take that always take as many.
fn size_of(operands: &Operands) -> usize
    ensures exact { result ≡ words.size_of operands.now }
    ensures few { result ≤ 4 }
{
    match operands {
        Operands::Byte | Operands::Local | Operands::Index1 => 1,
        Operands::Short | Operands::Index2 | Operands::Inc | Operands::Target2 => 2,
        Operands::Multi => 3,
        Operands::Target4 | Operands::Interface | Operands::Dynamic => 4,
        _ => 0,
    }
}

/// The place behind operands.
#[tactic(auto, unfolding(crate::specs::Places::end_at))]
fn end_at(at: u32, code: &[u8], operands: &Operands, next: usize) -> Result<usize, CodeFault>
    requires small { length code.now < 2 ^ 32 }
    requires placed { next ≤ length code.now }
    ensures exact { result ≡ words.end_at at code.now operands.now next }
    ensures within { IfOk result (λ x. (next ≤ x) × (x ≤ length code.now)) }
{
    match operands {
        Operands::Table => table_end(at, code, next),
        Operands::Lookup => lookup_end(at, code, next),
        Operands::Wide => wide_end(at, code, next),
        _ => whole_to(at, code, next + size_of(operands)),
    }
}

/// The place behind the instruction at a place.
#[tactic(auto, unfolding(crate::specs::Places::next_place))]
fn next_place(code: &[u8], at: u32) -> Result<usize, CodeFault>
    requires small { length code.now < 2 ^ 32 }
    requires placed { at < length code.now }
    ensures exact { result ≡ words.next_place code.now at }
    ensures within { IfOk result (λ x. (at < x) × (x ≤ length code.now)) }
{
    let (op, next) = byte_at(at, code, at as usize)?;
    match form_of(op) {
        Some(form) => end_at(at, code, &form.operands, next),
        None => Err(CodeFault::UnknownOp(at)),
    }
}

fn no_marks(alloc: Global, count: usize) -> Result<Vec<bool>, AllocError>
    ensures { IfOk result (λ marks. marks.items ≡ replicate count false) }
{
    vec![in alloc; false; count]
}

/// Marks of the places where instructions stand.
pub fn marks_of(alloc: Global, code: &[u8]) -> Result<Vec<bool>, AllocError>
    requires { length code.now < 2 ^ 32 }
    ensures { IfOk result (λ marks. words.is_marked marks.items ≡ words.stands (words.places code.now)) }
{
    let mut marks = no_marks(alloc, code.len())?;
    let mut at = 0;
    while at < code.len() {
        let Ok(next) = next_place(code, at as u32) else {
            return Ok(marks);
        };
        marks[at] = true;
        at = next;
    }
    Ok(marks)
}

/// Whether a place is marked.
pub fn stands(marks: &[bool], place: u32) -> bool
    ensures { result ≡ words.is_marked marks.now place }
{
    (place as usize) < marks.len() && marks[place as usize]
}
