//! Operands of switches (JVMS 6.5, tableswitch and lookupswitch).

ghost use Rattle.std.specs.Prelude.{◌≡◌, ◌≤◌, ◌<◌, ◌+◌, ◌-◌, ◌*◌, ◌^◌, ◌≤ℤ◌, ◌<ℤ◌, ◌+ℤ◌, pos, [], length, slice_get, IfOk};
ghost use Rattle.jl_logic.specs.Answers.{Tells};
ghost use Rattle.jl_reading.specs.Reading.{each_at};
ghost use Rattle.jl_code.specs.Told.{told};
ghost use Rattle.jl_code.specs.Operands as words;

use crate::code::Arg;
use crate::fault::CodeFault;
use crate::operands::{target, u32_at};
use jl_prim::Items;
use std::alloc::Global;

/// The first place from one on that is divisible by 4.
pub fn padded(next: usize) -> usize
    requires { next < 2 ^ 33 }
    ensures exact { result ≡ words.padded next }
    ensures within { result ≤ next + 3 }
    ensures behind { next ≤ result }
{
    (next + 3) / 4 * 4
}

/// Where the offset at a place leads, with its key, and the place after it.
#[tactic(auto, unfolding(crate::specs::Operands::case_at))]
fn case_at(at: u32, code: &[u8], key: i32, next: usize) -> Result<((i32, u32), usize), CodeFault>
    requires small { length code.now < 2 ^ 32 }
    requires placed { next ≤ length code.now }
    ensures exact { result ≡ words.case_at at code.now key next }
    ensures within { IfOk result (λ x. (x.1 ≡ next + 4) × (x.1 ≤ length code.now)) }
{
    let (offset, next) = u32_at(at, code, next)?;
    let place = target(at, code, offset.cast_signed())?;
    Ok(((key, place), next))
}

/// The key so many above the lowest.
fn key_above(low: i32, count: usize) -> i32
    requires { (low +ℤ pos count) <ℤ pos (2 ^ 31) }
    ensures { result ≡ low +ℤ pos count }
{
    (low as i64 + count as i64) as i32
}

/// The cases of so many keys from the lowest on.
fn table_cases(
    alloc: Global,
    at: u32,
    code: &[u8],
    low: i32,
    count: usize,
    next: usize,
) -> Result<(Items<(i32, u32)>, usize), CodeFault>
    requires small { length code.now < 2 ^ 32 }
    requires placed { next ≤ length code.now }
    requires fits { (low +ℤ pos count) ≤ℤ pos (2 ^ 31) }
    ensures exact { Tells told result (each_at (words.table_case at code.now low) [] count next) }
    ensures within { IfOk result (λ x. (next ≤ x.1) × (x.1 ≤ length code.now)) }
{
    let mut cases = Vec::new(alloc);
    let mut after = next;
    for i in 0..count {
        let (case, end) = case_at(at, code, key_above(low, i), after)?;
        cases.push(case)?;
        after = end;
    }
    Ok((Items::from_vec(cases), after))
}

/// What follows the opcode of a tableswitch, and the place after it.
#[tactic(auto, unfolding(crate::specs::Operands::table_at))]
pub fn table_at(alloc: Global, at: u32, code: &[u8], next: usize) -> Result<(Arg, usize), CodeFault>
    requires small { length code.now < 2 ^ 32 }
    requires placed { next ≤ length code.now }
    ensures exact { Tells told result (words.table_at at code.now next) }
    ensures within { IfOk result (λ x. (next ≤ x.1) × (x.1 ≤ length code.now)) }
{
    let (offset, next) = u32_at(at, code, padded(next))?;
    let (low, next) = u32_at(at, code, next)?;
    let (high, next) = u32_at(at, code, next)?;
    let low = low.cast_signed();
    let high = high.cast_signed();
    if high < low {
        return Err(CodeFault::BadTarget(at));
    }
    let count = high.abs_diff(low) as usize + 1;
    if code.len() < next + 4 * count {
        return Err(CodeFault::ShortOperand(at));
    }
    let other = target(at, code, offset.cast_signed())?;
    let (cases, next) = table_cases(alloc, at, code, low, count, next)?;
    Ok((Arg::Switch { other, cases }, next))
}

/// Whether a key is above that of the last case.
fn is_above(key: i32, cases: &[(i32, u32)]) -> bool
    ensures { result ≡ words.is_above key (slice_get cases.now (length cases.now - 1)) }
{
    match cases.last() {
        Some((last, _)) => *last < key,
        None => true,
    }
}

/// The case of a lookupswitch at a place, and the place after it.
#[tactic(auto, unfolding(crate::specs::Operands::lookup_case))]
fn lookup_case(
    at: u32,
    code: &[u8],
    cases: &[(i32, u32)],
    next: usize,
) -> Result<((i32, u32), usize), CodeFault>
    requires small { length code.now < 2 ^ 32 }
    requires placed { next ≤ length code.now }
    ensures exact { result ≡ words.lookup_case at code.now cases.now next }
    ensures within { IfOk result (λ x. (x.1 ≡ next + 8) × (x.1 ≤ length code.now)) }
{
    let (key, next) = u32_at(at, code, next)?;
    let key = key.cast_signed();
    let (case, next) = case_at(at, code, key, next)?;
    if is_above(key, cases) {
        Ok((case, next))
    } else {
        Err(CodeFault::BadTarget(at))
    }
}

/// So many cases of a lookupswitch.
fn lookup_cases(
    alloc: Global,
    at: u32,
    code: &[u8],
    count: usize,
    next: usize,
) -> Result<(Items<(i32, u32)>, usize), CodeFault>
    requires small { length code.now < 2 ^ 32 }
    requires placed { next ≤ length code.now }
    ensures exact { Tells told result (each_at (words.lookup_case at code.now) [] count next) }
    ensures within { IfOk result (λ x. (next ≤ x.1) × (x.1 ≤ length code.now)) }
{
    let mut cases = Vec::new(alloc);
    let mut after = next;
    for _i in 0..count {
        let (case, end) = lookup_case(at, code, &cases, after)?;
        cases.push(case)?;
        after = end;
    }
    Ok((Items::from_vec(cases), after))
}

/// What follows the opcode of a lookupswitch, and the place after it.
#[tactic(auto, unfolding(crate::specs::Operands::lookup_at))]
pub fn lookup_at(
    alloc: Global,
    at: u32,
    code: &[u8],
    next: usize,
) -> Result<(Arg, usize), CodeFault>
    requires small { length code.now < 2 ^ 32 }
    requires placed { next ≤ length code.now }
    ensures exact { Tells told result (words.lookup_at at code.now next) }
    ensures within { IfOk result (λ x. (next ≤ x.1) × (x.1 ≤ length code.now)) }
{
    let (offset, next) = u32_at(at, code, padded(next))?;
    let (count, next) = u32_at(at, code, next)?;
    if count >= 0x8000_0000 {
        return Err(CodeFault::BadTarget(at));
    }
    let count = count as usize;
    if code.len() < next + 8 * count {
        return Err(CodeFault::ShortOperand(at));
    }
    let other = target(at, code, offset.cast_signed())?;
    let (cases, next) = lookup_cases(alloc, at, code, count, next)?;
    Ok((Arg::Switch { other, cases }, next))
}
