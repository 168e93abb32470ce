//! Methods of String that answer text or throw (the API text of `java.lang.String`).

ghost use Rattle.std.specs.Prelude.{◌≡◌, IfOk, Err, ⊤, pos, length};
ghost use Rattle.std.specs.Option.{option_copied};
ghost use Rattle.std.specs.Int.{int_wrap, w32};
ghost use Rattle.jl_logic.specs.Answers.{Tells};
ghost use Rattle.jl_natives.specs.Rows as rows;
ghost use Rattle.jl_natives.specs.Boxes.{told};
ghost use Rattle.jl_natives.specs.declared.native.NativeEnd.TheVariants as ends;

use crate::native::NativeEnd;
use crate::plain::Plain;
use jl_names::Units;
use jl_prim::ErrorKind;
use std::alloc::{AllocError, Global};

/// A text of ASCII characters as units.
pub fn ascii_units(alloc: Global, text: &str) -> Result<Units, AllocError>
    ensures { IfOk result (λ units. units ≡ text.now) }
{
    let mut units = Vec::with_capacity(alloc, text.len())?;
    for byte in text.as_bytes() {
        units.push(u16::from(*byte))?;
    }
    Ok(Units::from_vec(units))
}

/// What is thrown, with a message of ASCII characters.
pub fn thrown(alloc: Global, kind: ErrorKind, message: &str) -> Result<Plain, NativeEnd>
    ensures told { Tells told result (rows.is_thrown kind message.now) }
    ensures never_failed { result ≡ Err ends.Failed → ⊥ }
{
    Err(NativeEnd::Throws(kind, Some(ascii_units(alloc, message)?)))
}

/// What is thrown where null stands in place of a String.
pub fn null() -> Result<Plain, NativeEnd>
    ensures { result ≡ rows.is_thrown_alone ErrorKind.NullPointerException }
{
    Err(NativeEnd::Throws(ErrorKind::NullPointerException, None))
}

/// `charAt`.
pub fn char_at(alloc: Global, text: &[u16], at: i32) -> Result<Plain, NativeEnd>
    ensures told { Tells told result (rows.string_char_at text.now at) }
    ensures never_failed { result ≡ Err ends.Failed → ⊥ }
{
    if at >= 0 && (at as usize) < text.len() {
        return Ok(Plain::Int(i32::from(text[at as usize])));
    }
    let count = text.len();
    let message = format!(in alloc; "Index {at} out of bounds for length {count}")?;
    thrown(alloc, ErrorKind::StringIndexOutOfBoundsException, &message)
}

/// `concat`.
pub fn concat(alloc: Global, text: &[u16], other: Option<&[u16]>) -> Result<Plain, NativeEnd>
    ensures told { Tells told result (rows.string_concat text.now (option_copied other.entry)) }
    ensures never_failed { result ≡ Err ends.Failed → ⊥ }
{
    let Some(other) = other else {
        return null();
    };
    let mut units = Vec::from_slice(alloc, text)?;
    units.extend_from_slice(other)?;
    Ok(Plain::Text(Units::from_vec(units)))
}

/// `substring`.
pub fn substring(alloc: Global, text: &[u16], from: i32, to: i32) -> Result<Plain, NativeEnd>
    ensures told { Tells told result (rows.string_substring text.now from to) }
    ensures never_failed { result ≡ Err ends.Failed → ⊥ }
{
    if is_range(from, to, text.len()) {
        let units = Vec::from_slice(alloc, &text[from as usize..to as usize])?;
        return Ok(Plain::Text(Units::from_vec(units)));
    }
    let count = text.len();
    let message = format!(in alloc; "begin {from}, end {to}, length {count}")?;
    thrown(alloc, ErrorKind::StringIndexOutOfBoundsException, &message)
}

/// Whether the places are in order and none is past the end.
fn is_range(from: i32, to: i32, count: usize) -> bool
    ensures { result ≡ rows.is_range from to count }
{
    from >= 0 && from <= to && to as usize <= count
}

/// `valueOf(char)`.
pub fn of_char(alloc: Global, unit: i32) -> Result<Plain, NativeEnd>
    ensures told { Tells told result (rows.value_of_char unit) }
    ensures never_failed { result ≡ Err ends.Failed → ⊥ }
{
    let unit = (unit.cast_unsigned() % 65_536) as u16;
    Ok(Plain::Text(Units::from_vec(Vec::from_slice(alloc, &[unit])?)))
}

/// `valueOf(boolean)`.
pub fn of_boolean(alloc: Global, value: i32) -> Result<Plain, NativeEnd>
    ensures told { Tells told result (rows.value_of_boolean value) }
    ensures never_failed { result ≡ Err ends.Failed → ⊥ }
{
    let text = if value.cast_unsigned() % 2 == 1 {
        "true"
    } else {
        "false"
    };
    Ok(Plain::Text(ascii_units(alloc, text)?))
}
