//! What is computed of ints and longs (JLS 4.2.2, 15.17 to 15.22; JVMS 6.5).

ghost use Rattle.std.specs.Prelude.{◌≡◌};
ghost use Rattle.jl_ops.specs.Arithmetic as words;

use crate::row::{Condition, IntOp, IntType, LongOp, Shift};

/// An int that is shifted by the low five bits of another.
fn shifted_int(shift: Shift, a: i32, b: i32) -> i32
    ensures { result ≡ words.shifted_int shift a b }
{
    let count = b.cast_unsigned() % 32;
    match shift {
        Shift::Left => a << count,
        Shift::Right => a >> count,
        Shift::UnsignedRight => (a.cast_unsigned() >> count).cast_signed(),
    }
}

/// A long that is shifted by the low six bits of an int.
pub fn shifted_long(shift: Shift, a: i64, b: i32) -> i64
    ensures { result ≡ words.shifted_long shift a b }
{
    let count = b.cast_unsigned() % 64;
    match shift {
        Shift::Left => a << count,
        Shift::Right => a >> count,
        Shift::UnsignedRight => (a.cast_unsigned() >> count).cast_signed(),
    }
}

/// What is computed of two ints. None of a division by zero.
pub fn int_result(op: IntOp, a: i32, b: i32) -> Option<i32>
    ensures { result ≡ words.int_result op a b }
{
    Some(match op {
        IntOp::Add => a.wrapping_add(b),
        IntOp::Sub => a.wrapping_sub(b),
        IntOp::Mul => a.wrapping_mul(b),
        IntOp::Div => return int_quotient(a, b),
        IntOp::Rem => return int_remainder(a, b),
        IntOp::And => a & b,
        IntOp::Or => a | b,
        IntOp::Xor => a ^ b,
        IntOp::Shift(shift) => shifted_int(shift, a, b),
    })
}

fn int_quotient(a: i32, b: i32) -> Option<i32>
    ensures { result ≡ words.int_result IntOp.Div a b }
{
    if b == 0 {
        return None;
    }
    Some(a.wrapping_div(b))
}

fn int_remainder(a: i32, b: i32) -> Option<i32>
    ensures { result ≡ words.int_result IntOp.Rem a b }
{
    if b == 0 {
        return None;
    }
    Some(a.wrapping_rem(b))
}

/// What is computed of two longs. None of a division by zero.
pub fn long_result(op: LongOp, a: i64, b: i64) -> Option<i64>
    ensures { result ≡ words.long_result op a b }
{
    Some(match op {
        LongOp::Add => a.wrapping_add(b),
        LongOp::Sub => a.wrapping_sub(b),
        LongOp::Mul => a.wrapping_mul(b),
        LongOp::Div => return long_quotient(a, b),
        LongOp::Rem => return long_remainder(a, b),
        LongOp::And => a & b,
        LongOp::Or => a | b,
        LongOp::Xor => a ^ b,
    })
}

fn long_quotient(a: i64, b: i64) -> Option<i64>
    ensures { result ≡ words.long_result LongOp.Div a b }
{
    if b == 0 {
        return None;
    }
    Some(a.wrapping_div(b))
}

fn long_remainder(a: i64, b: i64) -> Option<i64>
    ensures { result ≡ words.long_result LongOp.Rem a b }
{
    if b == 0 {
        return None;
    }
    Some(a.wrapping_rem(b))
}

/// The low 32 bits of a long, as an int.
pub fn low_int(n: i64) -> i32
    ensures { result ≡ words.low_int n }
{
    ((n.cast_unsigned() % 0x1_0000_0000) as u32).cast_signed()
}

/// An int cut to a type.
pub fn cut(to: IntType, n: i32) -> i32
    ensures { result ≡ words.cut to n }
{
    let bits = n.cast_unsigned();
    match to {
        IntType::Int => n,
        IntType::Byte => i32::from(((bits % 0x100) as u8).cast_signed()),
        IntType::Char => i32::from((bits % 0x1_0000) as u16),
        IntType::Short => i32::from(((bits % 0x1_0000) as u16).cast_signed()),
    }
}

/// The low bit of an int.
pub fn low_bit(n: i32) -> i32
    ensures { result ≡ words.low_bit n }
{
    (n.cast_unsigned() % 2).cast_signed()
}

/// How two longs compare: -1, 0 or 1.
pub fn compared(a: i64, b: i64) -> i32
    ensures { result ≡ words.compared a b }
{
    if a < b {
        -1
    } else if a == b {
        0
    } else {
        1
    }
}

/// Whether two ints compare so.
pub fn holds(condition: Condition, a: i32, b: i32) -> bool
    ensures { result ≡ words.holds condition a b }
{
    match condition {
        Condition::Equal => a == b,
        Condition::NotEqual => a != b,
        Condition::Less => a < b,
        Condition::GreaterOrEqual => a >= b,
        Condition::Greater => a > b,
        Condition::LessOrEqual => a <= b,
    }
}
