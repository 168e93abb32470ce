//! Methods of String that answer an int (the API text of `java.lang.String`).

ghost use Rattle.std.specs.Prelude.{◌≡◌, ◌-ℤ◌, Ok, pos, length};
ghost use Rattle.std.specs.Option.{option_copied};
ghost use Rattle.jl_natives.specs.Rows as rows;

use crate::native::NativeEnd;
use crate::plain::Plain;
use crate::strings::null;

/// A number of units as an int, which wraps.
#[tactic(auto, using(crate::proofs::Wrapping::as_int_is))]
pub fn as_int(count: usize) -> i32
    ensures { result ≡ rows.wrapped (pos count) }
{
    ((count % 4_294_967_296) as u32).cast_signed()
}

/// A boolean as an int.
pub fn as_boolean(is: bool) -> Plain
    ensures { Ok result ≡ rows.a_boolean_is is }
{
    Plain::Int(if is { 1 } else { 0 })
}

/// `indexOf`.
pub fn index_of(text: &[u16], part: Option<&[u16]>) -> Result<Plain, NativeEnd>
    ensures { result ≡ rows.string_index_of text.now (option_copied part.entry) }
{
    let Some(part) = part else {
        return null();
    };
    Ok(Plain::Int(match place_of(text, part) {
        Some(place) => as_int(place),
        None => -1,
    }))
}

/// The first place from which on the part stands.
fn place_of(text: &[u16], part: &[u16]) -> Option<usize>
    ensures { result ≡ rows.place_from 0 part.now text.now }
{
    for place in 0..text.len() {
        if text[place..].starts_with(part) {
            return Some(place);
        }
    }
    if part.is_empty() {
        Some(text.len())
    } else {
        None
    }
}

/// `compareTo`.
pub fn compare_to(text: &[u16], other: Option<&[u16]>) -> Result<Plain, NativeEnd>
    ensures { result ≡ rows.string_compare_to text.now (option_copied other.entry) }
{
    let Some(other) = other else {
        return null();
    };
    Ok(Plain::Int(difference(text, other)))
}

/// The difference of the first units that differ, else of the lengths.
fn difference(text: &[u16], other: &[u16]) -> i32
    ensures { result ≡ rows.difference text.now other.now (rows.wrapped (pos (length text.now) -ℤ pos (length other.now))) }
{
    for (x, y) in text.iter().zip(other) {
        if x != y {
            return i32::from(*x) - i32::from(*y);
        }
    }
    as_int(text.len()).wrapping_sub(as_int(other.len()))
}

/// `hashCode`.
pub fn hash_code(text: &[u16]) -> i32
    ensures { result ≡ rows.hash_from (pos 0) text.now }
{
    let mut hash = 0i32;
    for unit in text {
        hash = 31i32.wrapping_mul(hash).wrapping_add(i32::from(*unit));
    }
    hash
}

/// `startsWith`.
pub fn starts_with_part(text: &[u16], part: Option<&[u16]>) -> Result<Plain, NativeEnd>
    ensures { result ≡ rows.string_starts_with text.now (option_copied part.entry) }
{
    let Some(part) = part else {
        return null();
    };
    Ok(as_boolean(text.starts_with(part)))
}
