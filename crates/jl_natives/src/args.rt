//! Arguments by their places.

ghost use Rattle.std.specs.Prelude.{◌≡◌};
ghost use Rattle.std.specs.Option.{option_copied};
ghost use Rattle.jl_natives.specs.Values as values;

use crate::plain::Plain;

/// The int at a place, 0 where none stands there.
pub fn int_at(args: &[Plain], at: usize) -> i32
    ensures { result ≡ values.int_at at args.now }
{
    match args.get(at) {
        Some(Plain::Int(n)) => *n,
        _ => 0,
    }
}

/// The long at a place, 0 where none stands there.
pub fn long_at(args: &[Plain], at: usize) -> i64
    ensures { result ≡ values.long_at at args.now }
{
    match args.get(at) {
        Some(Plain::Long(n)) => *n,
        _ => 0,
    }
}

/// The units of the String at a place, none where there is null.
pub fn text_at(args: &[Plain], at: usize) -> Option<&[u16]>
    ensures { option_copied result ≡ values.text_at at args.now }
{
    match args.get(at) {
        Some(Plain::Text(units)) => Some(units.as_slice()),
        _ => None,
    }
}

/// The units of the String at a place where it is never null.
pub fn units_at(args: &[Plain], at: usize) -> &[u16]
    ensures { result.now ≡ values.units_at at args.now }
{
    match args.get(at) {
        Some(Plain::Text(units)) => units.as_slice(),
        _ => &[],
    }
}
