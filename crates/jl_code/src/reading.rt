//! One instruction, right in itself (JVMS 4.9.1, 6.5).

ghost use Rattle.std.specs.Prelude.{◌≡◌, ◌≤◌, ◌<◌, ◌^◌, length, IfOk};
ghost use Rattle.std.specs.Int.{w16, w32};
ghost use Rattle.jl_logic.specs.Answers.{Tells};
ghost use Rattle.jl_optable.specs.Rows as rows;
ghost use Rattle.jl_code.specs.Told.{told};
ghost use Rattle.jl_code.specs.Operands as operands;
ghost use Rattle.jl_code.specs.Instructions as words;

use crate::code::{Arg, Instr};
use crate::fault::CodeFault;
use crate::operands::{byte_at, target, u16_at, u32_at};
use crate::references::{is_array_of, is_right_index, is_slot_count, member_type};
use crate::switches::{lookup_at, table_at};
use jl_optable::{Form, Operands, op_table, ops};
use jl_pool::Pool;
use std::alloc::Global;

/// A signed byte. For newarray it is a type from 4 to 11.
#[tactic(auto, unfolding(crate::specs::Instructions::byte_at))]
fn byte_arg(at: u32, op: u8, code: &[u8], next: usize) -> Result<(Arg, usize), CodeFault>
    requires { next ≤ length code.now }
    ensures exact { result ≡ words.byte_at at op code.now next }
    ensures within { IfOk result (λ x. (next ≤ x.1) × (x.1 ≤ length code.now)) }
{
    let (n, next) = byte_at(at, code, next)?;
    if op == ops::NEWARRAY && !matches!(n, 4..=11) {
        return Err(CodeFault::BadIndex(at));
    }
    Ok((Arg::Number(n.cast_signed() as i32), next))
}

/// A signed number of two bytes.
#[tactic(auto, unfolding(crate::specs::Instructions::short_at))]
fn short_arg(at: u32, code: &[u8], next: usize) -> Result<(Arg, usize), CodeFault>
    requires { next ≤ length code.now }
    ensures exact { result ≡ words.short_at at code.now next }
    ensures within { IfOk result (λ x. (next ≤ x.1) × (x.1 ≤ length code.now)) }
{
    let (n, next) = u16_at(at, code, next)?;
    Ok((Arg::Number(n.cast_signed() as i32), next))
}

/// A local in one byte.
#[tactic(auto, unfolding(crate::specs::Instructions::local_at))]
fn local_arg(at: u32, code: &[u8], next: usize) -> Result<(Arg, usize), CodeFault>
    requires { next ≤ length code.now }
    ensures exact { result ≡ words.local_at at 1 code.now next }
    ensures within { IfOk result (λ x. (next ≤ x.1) × (x.1 ≤ length code.now)) }
{
    let (local, next) = byte_at(at, code, next)?;
    Ok((Arg::Local(local as u16), next))
}

/// A local in two bytes.
#[tactic(auto, unfolding(crate::specs::Instructions::local_at))]
fn wide_local_arg(at: u32, code: &[u8], next: usize) -> Result<(Arg, usize), CodeFault>
    requires { next ≤ length code.now }
    ensures exact { result ≡ words.local_at at 2 code.now next }
    ensures within { IfOk result (λ x. (next ≤ x.1) × (x.1 ≤ length code.now)) }
{
    let (local, next) = u16_at(at, code, next)?;
    Ok((Arg::Local(local), next))
}

/// A local and what is added to it.
#[tactic(auto, unfolding(crate::specs::Operands::inc_at))]
fn inc_arg(at: u32, code: &[u8], next: usize) -> Result<(Arg, usize), CodeFault>
    requires { next ≤ length code.now }
    ensures exact { result ≡ operands.inc_at at code.now next }
    ensures within { IfOk result (λ x. (next ≤ x.1) × (x.1 ≤ length code.now)) }
{
    let (local, next) = byte_at(at, code, next)?;
    let (n, next) = byte_at(at, code, next)?;
    Ok((Arg::Inc(local as u16, n.cast_signed() as i32), next))
}

/// A local and what is added to it, each in two bytes.
#[tactic(auto, unfolding(crate::specs::Operands::wide_inc_at))]
fn wide_inc_arg(at: u32, code: &[u8], next: usize) -> Result<(Arg, usize), CodeFault>
    requires { next ≤ length code.now }
    ensures exact { result ≡ operands.wide_inc_at at code.now next }
    ensures within { IfOk result (λ x. (next ≤ x.1) × (x.1 ≤ length code.now)) }
{
    let (local, next) = u16_at(at, code, next)?;
    let (n, next) = u16_at(at, code, next)?;
    Ok((Arg::Inc(local, n.cast_signed() as i32), next))
}

/// A branch with an offset of two bytes.
#[tactic(auto, unfolding(crate::specs::Operands::branch_at))]
fn branch_arg(at: u32, code: &[u8], next: usize) -> Result<(Arg, usize), CodeFault>
    requires small { length code.now < 2 ^ 32 }
    requires placed { next ≤ length code.now }
    ensures exact { result ≡ operands.branch_at at 2 w16 code.now next }
    ensures within { IfOk result (λ x. (next ≤ x.1) × (x.1 ≤ length code.now)) }
{
    let (offset, next) = u16_at(at, code, next)?;
    let place = target(at, code, offset.cast_signed() as i32)?;
    Ok((Arg::Target(place), next))
}

/// A branch with an offset of four bytes.
#[tactic(auto, unfolding(crate::specs::Operands::branch_at))]
fn far_branch_arg(at: u32, code: &[u8], next: usize) -> Result<(Arg, usize), CodeFault>
    requires small { length code.now < 2 ^ 32 }
    requires placed { next ≤ length code.now }
    ensures exact { result ≡ operands.branch_at at 4 w32 code.now next }
    ensures within { IfOk result (λ x. (next ≤ x.1) × (x.1 ≤ length code.now)) }
{
    let (offset, next) = u32_at(at, code, next)?;
    let place = target(at, code, offset.cast_signed())?;
    Ok((Arg::Target(place), next))
}

/// An index, or the long at it for ldc2_w.
fn index_arg(pool: &Pool, op: u8, i: u16) -> Arg
    ensures { result ≡ words.index_arg pool.now op i }
{
    match pool.long(i) {
        Some(value) if op == ops::LDC2_W => Arg::Long(value),
        _ => Arg::Index(i),
    }
}

/// The operand of an instruction that names what it may name.
fn named(
    alloc: Global,
    pool: &Pool,
    at: u32,
    op: u8,
    i: u16,
    next: usize,
) -> Result<(Arg, usize), CodeFault>
    ensures exact { Tells told result (words.named pool.now at op i next) }
    ensures within { IfOk result (λ x. x.1 ≡ next) }
{
    if !is_right_index(alloc, pool, op, i)? {
        return Err(CodeFault::BadIndex(at));
    }
    Ok((index_arg(pool, op, i), next))
}

/// An index in one byte.
#[tactic(auto, unfolding(crate::specs::Instructions::index_at))]
fn short_index_arg(
    alloc: Global,
    pool: &Pool,
    at: u32,
    op: u8,
    code: &[u8],
    next: usize,
) -> Result<(Arg, usize), CodeFault>
    requires { next ≤ length code.now }
    ensures exact { Tells told result (words.index_at pool.now at op 1 code.now next) }
    ensures within { IfOk result (λ x. (next ≤ x.1) × (x.1 ≤ length code.now)) }
{
    let (i, next) = byte_at(at, code, next)?;
    named(alloc, pool, at, op, i as u16, next)
}

/// An index in two bytes.
#[tactic(auto, unfolding(crate::specs::Instructions::index_at))]
fn long_index_arg(
    alloc: Global,
    pool: &Pool,
    at: u32,
    op: u8,
    code: &[u8],
    next: usize,
) -> Result<(Arg, usize), CodeFault>
    requires { next ≤ length code.now }
    ensures exact { Tells told result (words.index_at pool.now at op 2 code.now next) }
    ensures within { IfOk result (λ x. (next ≤ x.1) × (x.1 ≤ length code.now)) }
{
    let (i, next) = u16_at(at, code, next)?;
    named(alloc, pool, at, op, i, next)
}

/// An index, a count of slots, and a zero.
#[tactic(auto, unfolding(crate::specs::Instructions::interface_at))]
fn interface_arg(
    alloc: Global,
    pool: &Pool,
    at: u32,
    op: u8,
    code: &[u8],
    next: usize,
) -> Result<(Arg, usize), CodeFault>
    requires { next ≤ length code.now }
    ensures exact { Tells told result (words.interface_at pool.now at op code.now next) }
    ensures within { IfOk result (λ x. (next ≤ x.1) × (x.1 ≤ length code.now)) }
{
    let (i, next) = u16_at(at, code, next)?;
    let (count, next) = byte_at(at, code, next)?;
    let (zero, next) = byte_at(at, code, next)?;
    if !is_right_index(alloc, pool, op, i)? {
        return Err(CodeFault::BadIndex(at));
    }
    let found = member_type(alloc, pool, i)?;
    if !is_slot_count(count, &found) || zero != 0 {
        return Err(CodeFault::BadIndex(at));
    }
    Ok((Arg::Index(i), next))
}

/// An index of a computed call site, and two bytes.
#[tactic(auto, unfolding(crate::specs::Instructions::dynamic_at))]
fn dynamic_arg(pool: &Pool, at: u32, code: &[u8], next: usize) -> Result<(Arg, usize), CodeFault>
    requires { next ≤ length code.now }
    ensures exact { result ≡ words.dynamic_at pool.now at code.now next }
    ensures within { IfOk result (λ x. (next ≤ x.1) × (x.1 ≤ length code.now)) }
{
    let (i, next) = u16_at(at, code, next)?;
    let (_, next) = u16_at(at, code, next)?;
    if pool.tag(i) != Some(18) {
        return Err(CodeFault::BadIndex(at));
    }
    Ok((Arg::Index(i), next))
}

/// An index of a class of arrays, and how many dimensions are made.
#[tactic(auto, unfolding(crate::specs::Instructions::multi_at))]
fn multi_arg(pool: &Pool, at: u32, code: &[u8], next: usize) -> Result<(Arg, usize), CodeFault>
    requires { next ≤ length code.now }
    ensures exact { result ≡ words.multi_at pool.now at code.now next }
    ensures within { IfOk result (λ x. (next ≤ x.1) × (x.1 ≤ length code.now)) }
{
    let (i, next) = u16_at(at, code, next)?;
    let (count, next) = byte_at(at, code, next)?;
    if !is_array_of(pool, i, count) {
        return Err(CodeFault::BadIndex(at));
    }
    Ok((Arg::Multi(i, count), next))
}

/// The operands behind an opcode, and the place after them. Those of `wide` are the instruction's that it widens.
#[tactic(auto, unfolding(crate::specs::Instructions::arg_at))]
fn arg_at(
    alloc: Global,
    pool: &Pool,
    at: u32,
    form: &Form,
    code: &[u8],
    next: usize,
) -> Result<(Arg, usize), CodeFault>
    requires small { length code.now < 2 ^ 32 }
    requires placed { next ≤ length code.now }
    ensures exact { Tells told result (words.arg_at pool.now at form.now.op form.now.operands code.now next) }
    ensures within { IfOk result (λ x. (next ≤ x.1) × (x.1 ≤ length code.now)) }
{
    match form.operands {
        Operands::Nothing | Operands::Wide => Ok((Arg::Nothing, next)),
        Operands::Byte => byte_arg(at, form.op, code, next),
        Operands::Short => short_arg(at, code, next),
        Operands::Local => local_arg(at, code, next),
        Operands::Index1 => short_index_arg(alloc, pool, at, form.op, code, next),
        Operands::Index2 => long_index_arg(alloc, pool, at, form.op, code, next),
        Operands::Inc => inc_arg(at, code, next),
        Operands::Target2 => branch_arg(at, code, next),
        Operands::Target4 => far_branch_arg(at, code, next),
        Operands::Table => table_at(alloc, at, code, next),
        Operands::Lookup => lookup_at(alloc, at, code, next),
        Operands::Interface => interface_arg(alloc, pool, at, form.op, code, next),
        Operands::Dynamic => dynamic_arg(pool, at, code, next),
        Operands::Multi => multi_arg(pool, at, code, next),
    }
}

/// The operands of a widened instruction, and the place after them.
#[tactic(auto, unfolding(crate::specs::Instructions::wide_arg_at))]
fn wide_arg_at(at: u32, op: u8, code: &[u8], next: usize) -> Result<(Arg, usize), CodeFault>
    requires { next ≤ length code.now }
    ensures exact { result ≡ words.wide_arg_at at op code.now next }
    ensures within { IfOk result (λ x. (next ≤ x.1) × (x.1 ≤ length code.now)) }
{
    match op {
        ops::IINC => wide_inc_arg(at, code, next),
        ops::ILOAD..=ops::ALOAD | ops::ISTORE..=ops::ASTORE => wide_local_arg(at, code, next),
        _ => Err(CodeFault::UnknownOp(at)),
    }
}

/// What `wide` widens, and the place after it.
#[tactic(auto, unfolding(crate::specs::Instructions::wide_at))]
fn wide_at(at: u32, code: &[u8], next: usize) -> Result<(Instr, usize), CodeFault>
    requires { next ≤ length code.now }
    ensures exact { result ≡ words.wide_at at code.now next }
    ensures within { IfOk result (λ x. (next ≤ x.1) × (x.1 ≤ length code.now)) }
{
    let (op, next) = byte_at(at, code, next)?;
    let (arg, next) = wide_arg_at(at, op, code, next)?;
    let wide = true;
    Ok((Instr { at, op, wide, arg }, next))
}

/// The row of an opcode.
pub fn form_of(op: u8) -> Option<Form>
    ensures { result ≡ rows.form_of op }
{
    let table = op_table();
    table.form(op)
}

/// An instruction that is not widened, behind its opcode, and the place after it.
#[tactic(auto, unfolding(crate::specs::Instructions::plain_at))]
fn plain_at(
    alloc: Global,
    pool: &Pool,
    at: u32,
    form: &Form,
    code: &[u8],
    next: usize,
) -> Result<(Instr, usize), CodeFault>
    requires small { length code.now < 2 ^ 32 }
    requires placed { next ≤ length code.now }
    ensures exact { Tells told result (words.plain_at pool.now at form.now.op form.now.operands code.now next) }
    ensures within { IfOk result (λ x. (next ≤ x.1) × (x.1 ≤ length code.now)) }
{
    let (arg, next) = arg_at(alloc, pool, at, form, code, next)?;
    let op = form.op;
    let wide = false;
    Ok((Instr { at, op, wide, arg }, next))
}

/// The instruction at a place, and the place after it.
#[tactic(auto, unfolding(crate::specs::Instructions::instr_at))]
pub fn instr_at(
    alloc: Global,
    pool: &Pool,
    code: &[u8],
    at: u32,
) -> Result<(Instr, usize), CodeFault>
    requires small { length code.now < 2 ^ 32 }
    requires placed { at < length code.now }
    ensures exact { Tells told result (words.instr_at pool.now code.now at) }
    ensures within { IfOk result (λ x. (at < x.1) × (x.1 ≤ length code.now)) }
{
    let (op, next) = byte_at(at, code, at as usize)?;
    match form_of(op) {
        None => Err(CodeFault::UnknownOp(at)),
        Some(form) if form.op == ops::WIDE => wide_at(at, code, next),
        Some(form) => plain_at(alloc, pool, at, &form, code, next),
    }
}
