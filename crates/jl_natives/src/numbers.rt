//! Methods of Integer, Long and Math (the API texts of these classes of `java.lang`).

ghost use Rattle.std.specs.Prelude.{◌≡◌, ◌<◌, ◌^◌, Ok, Err, IfOk, map, unsigned_abs};
ghost use Rattle.std.specs.Option.{option_copied};
ghost use Rattle.std.specs.String.{string_bytes};
ghost use Rattle.jl_logic.specs.Answers.{Tells};
ghost use Rattle.jl_natives.specs.Rows as rows;
ghost use Rattle.jl_natives.specs.Boxes.{told};
ghost use Rattle.jl_natives.specs.Ascii.{in_ascii};
ghost use Rattle.jl_natives.specs.declared.native.NativeEnd.TheVariants as ends;

use crate::native::NativeEnd;
use crate::plain::Plain;
use crate::strings::{ascii_units, thrown};
use jl_names::Units;
use jl_prim::ErrorKind;
use std::alloc::{AllocError, Global};

/// `toString` and `valueOf` of an int.
pub fn int_text(alloc: Global, n: i32) -> Result<Plain, NativeEnd>
    ensures told { Tells told result (rows.number_text n) }
    ensures never_failed { result ≡ Err ends.Failed → ⊥ }
{
    Ok(Plain::Text(ascii_units(alloc, &format!(in alloc; "{n}")?)?))
}

/// `toString` and `valueOf` of a long.
pub fn long_text(alloc: Global, n: i64) -> Result<Plain, NativeEnd>
    ensures told { Tells told result (rows.number_text n) }
    ensures never_failed { result ≡ Err ends.Failed → ⊥ }
{
    Ok(Plain::Text(ascii_units(alloc, &format!(in alloc; "{n}")?)?))
}

/// `abs`.
#[tactic(auto, using(crate::proofs::Wrapping::as_int_is))]
pub fn abs(n: i32) -> i32
    ensures { Ok (Plain.Int result) ≡ rows.math_abs n }
{
    n.wrapping_abs()
}

/// `floorMod`.
pub fn floor_mod(alloc: Global, x: i32, y: i32) -> Result<Plain, NativeEnd>
    ensures told { Tells told result (rows.math_floor_mod x y) }
    ensures never_failed { result ≡ Err ends.Failed → ⊥ }
{
    if y == 0 {
        return thrown(alloc, ErrorKind::ArithmeticException, "/ by zero");
    }
    Ok(Plain::Int(with_sign_of(y, x.wrapping_rem(y))))
}

/// What is left of x with the sign of y, where what is left with the sign of x is known.
fn with_sign_of(y: i32, rest: i32) -> i32
    requires { unsigned_abs rest < unsigned_abs y }
    ensures { result ≡ rows.with_sign_of y rest }
{
    if rest == 0 || (rest < 0) == (y < 0) {
        rest
    } else {
        rest + y
    }
}

/// `parseInt`.
pub fn parse_int(alloc: Global, text: Option<&[u16]>) -> Result<Plain, NativeEnd>
    ensures told { Tells told result (rows.integer_parse_int (option_copied text.entry)) }
    ensures never_failed { result ≡ Err ends.Failed → ⊥ }
{
    let Some(text) = text else {
        return thrown(alloc, ErrorKind::NumberFormatException, "null");
    };
    match int_of(alloc, text)? {
        Some(n) => Ok(Plain::Int(n)),
        None => no_number(alloc, text),
    }
}

/// `parseLong`.
pub fn parse_long(alloc: Global, text: Option<&[u16]>) -> Result<Plain, NativeEnd>
    ensures told { Tells told result (rows.long_parse_long (option_copied text.entry)) }
    ensures never_failed { result ≡ Err ends.Failed → ⊥ }
{
    let Some(text) = text else {
        return thrown(alloc, ErrorKind::NumberFormatException, "null");
    };
    match long_of(alloc, text)? {
        Some(n) => Ok(Plain::Long(n)),
        None => no_number(alloc, text),
    }
}

/// The int that a text writes.
fn int_of(alloc: Global, text: &[u16]) -> Result<Option<i32>, AllocError>
    ensures { IfOk result (λ n. n ≡ rows.number_in (2 ^ 31) text.now) }
{
    Ok(ascii(alloc, text)?.parse::<i32>().ok())
}

/// The long that a text writes.
fn long_of(alloc: Global, text: &[u16]) -> Result<Option<i64>, AllocError>
    ensures { IfOk result (λ n. n ≡ rows.number_in (2 ^ 63) text.now) }
{
    Ok(ascii(alloc, text)?.parse::<i64>().ok())
}

/// What is thrown of a text that is no number, or of one that is out of range.
fn no_number(alloc: Global, text: &[u16]) -> Result<Plain, NativeEnd>
    ensures told { Tells told result (rows.is_thrown ErrorKind.NumberFormatException text.now) }
    ensures never_failed { result ≡ Err ends.Failed → ⊥ }
{
    let message = Units::from_vec(Vec::from_slice(alloc, text)?);
    Err(NativeEnd::Throws(ErrorKind::NumberFormatException, Some(message)))
}

/// The text with `?` in place of what is not ASCII.
fn ascii(alloc: Global, units: &[u16]) -> Result<String, AllocError>
    ensures { IfOk result (λ text. string_bytes text ≡ map in_ascii units.now) }
{
    let mut text = String::with_capacity(alloc, units.len())?;
    for unit in units {
        text.push(if *unit < 128 {
            *unit as u8 as char
        } else {
            '?'
        })?;
    }
    Ok(text)
}
