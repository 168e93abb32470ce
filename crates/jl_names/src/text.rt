//! Modified UTF-8 to units and units to UTF-8.

ghost use Rattle.std.specs.Prelude.{◌≡◌, ◌≤◌, ◌<◌, ℕ, List, length, ◌++◌, Ok, Err, IfOk, OnOk, IsOkUnless, IsTrue, encode_utf8};
ghost use Rattle.std.specs.String.{string_bytes};
ghost use Rattle.jl_logic.specs.Answers.{Tells};
ghost use Rattle.jl_names.specs.Text.{units_read, unit_at, AreUnits, IsText, unit_bytes, text_bytes, told, plain, has_no_lone_surrogate};
ghost use Rattle.jl_names.specs.Text as texts;
ghost use Rattle.jl_names.specs.Bad.{IsBadAt};
ghost use Rattle.jl_names.specs.declared.fault.TextFault.TheVariants.{BadText};

use crate::fault::TextFault;
use crate::units::Units;
use std::alloc::Global;

/// The units that a modified UTF-8 text spells (JVMS 4.4.7).
///
/// `BadText(at)` names the first byte that no unit can begin or continue with, or the end of a text that
/// stops inside a unit.
pub fn units_of(alloc: Global, bytes: &[u8]) -> Result<Units, TextFault>
    // What is read is spelled so.
    ensures found { IfOk result (λ units. AreUnits units × (text_bytes units ≡ bytes.now)) }
    // What is spelled so is read, unless memory runs out.
    ensures only { (units : List ℕ) → AreUnits units → text_bytes units ≡ bytes.now → Tells told result (Ok units) }
    // Where it stops.
    ensures bad { (at : ℕ) → result ≡ Err (BadText at) → IsBadAt IsText bytes.now at }
    // By reading from left to right.
    ensures exact { Tells told result (units_read bytes.now) }
{
    all_units(alloc, bytes)
}

fn all_units(alloc: Global, bytes: &[u8]) -> Result<Units, TextFault>
    ensures { Tells told result (units_read bytes.now) }
{
    let mut units = Vec::new(alloc);
    let mut at = 0;
    for _ in 0..bytes.len() {
        if at >= bytes.len() {
            break;
        }
        let (unit, next) = unit_of(bytes, at)?;
        units.push(unit)?;
        at = next;
    }
    Ok(Units::from_vec(units))
}

/// The unit at a place, and the place after it.
#[tactic(auto, unfolding(crate::specs::Text::unit_at))]
fn unit_of(bytes: &[u8], at: usize) -> Result<(u16, usize), TextFault>
    requires { at < length bytes.now }
    ensures { result ≡ unit_at bytes.now at }
{
    let first = bytes[at];
    if first > 0 && first < 128 {
        return Ok((u16::from(first), at + 1));
    }
    let is_two = begins_two(first);
    if !is_two && !begins_three(first) {
        return Err(TextFault::BadText(at));
    }
    if at + 1 >= bytes.len() || !may_follow(first, bytes[at + 1]) {
        return Err(TextFault::BadText(at + 1));
    }
    let second = u16::from(bytes[at + 1] - 128);
    if is_two {
        return Ok((u16::from(first - 192) * 64 + second, at + 2));
    }
    if at + 2 >= bytes.len() || !is_tail(bytes[at + 2]) {
        return Err(TextFault::BadText(at + 2));
    }
    let third = u16::from(bytes[at + 2] - 128);
    Ok((u16::from(first - 224) * 4096 + second * 64 + third, at + 3))
}

fn begins_two(byte: u8) -> bool
    ensures { result ≡ texts.begins_two byte }
{
    byte == 192 || (194..224).contains(&byte)
}

fn begins_three(byte: u8) -> bool
    ensures { result ≡ texts.begins_three byte }
{
    (224..240).contains(&byte)
}

fn is_tail(byte: u8) -> bool
    ensures { result ≡ texts.is_tail byte }
{
    (128..192).contains(&byte)
}

fn may_follow(first: u8, byte: u8) -> bool
    ensures value { result ≡ texts.may_follow first byte }
    ensures tail { IsTrue result → (128 ≤ byte) × (byte < 192) }
{
    match first {
        192 => byte == 128,
        224 => (160..192).contains(&byte),
        _ => is_tail(byte),
    }
}

/// The modified UTF-8 of units (JVMS 4.4.7). There is no refusal but want of memory.
pub fn bytes_of(alloc: Global, units: &[u16]) -> Result<Vec<u8>, TextFault>
    ensures bytes { IfOk result (λ bytes. bytes.items ≡ text_bytes units.now) }
    // What is written is read as the same units.
    ensures back { IfOk result (λ bytes. units_read bytes.items ≡ Ok units.now) }
    ensures memory { IsOkUnless result TextFault.NoMemory }
{
    let mut bytes = Vec::new(alloc);
    let mut rest = units;
    while let [unit, others @ ..] = rest {
        push_unit(&mut bytes, *unit)?;
        rest = others;
    }
    Ok(bytes)
}

/// Writes the bytes of a unit behind others.
fn push_unit(bytes: &mut Vec<u8>, unit: u16) -> Result<(), TextFault>
    ensures bytes { OnOk result (bytes.new.items ≡ bytes.old.items ++ unit_bytes unit) }
    ensures memory { IsOkUnless result TextFault.NoMemory }
{
    let last = 128 + (unit % 64) as u8;
    if unit > 0 && unit < 128 {
        bytes.push(unit as u8)?;
    } else if unit < 2048 {
        bytes.push(192 + (unit / 64) as u8)?;
        bytes.push(last)?;
    } else {
        bytes.push(224 + (unit / 4096) as u8)?;
        bytes.push(128 + (unit / 64 % 64) as u8)?;
        bytes.push(last)?;
    }
    Ok(())
}

/// The bytes of the units as UTF-8, a pair of surrogates as one character. A surrogate that stands alone
/// becomes `?`. There is no refusal but want of memory.
pub fn plain_of(alloc: Global, units: &[u16]) -> Result<Vec<u8>, TextFault>
    ensures bytes { IfOk result (λ bytes. bytes.items ≡ plain units.now) }
    ensures memory { IsOkUnless result TextFault.NoMemory }
{
    Ok(plain_text(alloc, units)?.into_bytes())
}

/// The units as UTF-8, a pair of surrogates as one character. A surrogate that stands alone becomes `?`.
#[tactic(auto, unfolding(crate::specs::Text::plain))]
pub fn plain_text(alloc: Global, units: &[u16]) -> Result<String, TextFault>
    ensures text { IfOk result (λ text. string_bytes text ≡ plain units.now) }
    // No other error comes.
    ensures memory { IsOkUnless result TextFault.NoMemory }
{
    let mut text = String::new(alloc);
    let mut rest = units;
    while let [first, others @ ..] = rest {
        match others {
            [second, after @ ..] if is_high(*first) && is_low(*second) => {
                text.push(paired(*first, *second))?;
                rest = after;
            }
            _ => {
                text.push(character(*first))?;
                rest = others;
            }
        }
    }
    Ok(text)
}

/// The character of a pair of surrogates.
fn paired(high: u16, low: u16) -> char
    requires high { IsTrue (texts.is_high high) }
    requires low { IsTrue (texts.is_low low) }
    ensures { result ≡ texts.paired high low }
{
    let code = 65536 + u32::from(high - 55296) * 1024 + u32::from(low - 56320);
    char::from_u32(code).unwrap()
}

/// The character of a unit that stands alone.
fn character(unit: u16) -> char
    ensures { encode_utf8 result ≡ texts.plain_unit unit }
{
    char::from_u32(u32::from(unit)).unwrap_or('?')
}

/// Whether each surrogate stands in a pair, the high one first.
#[tactic(auto, unfolding(crate::specs::Text::has_no_lone_surrogate))]
pub fn is_paired(units: &[u16]) -> bool
    ensures { result ≡ has_no_lone_surrogate units.now }
{
    let mut rest = units;
    while let [first, others @ ..] = rest {
        match others {
            [second, after @ ..] if is_high(*first) && is_low(*second) => rest = after,
            _ if is_high(*first) || is_low(*first) => return false,
            _ => rest = others,
        }
    }
    true
}

fn is_high(unit: u16) -> bool
    ensures { result ≡ texts.is_high unit }
{
    (0xd800..0xdc00).contains(&unit)
}

fn is_low(unit: u16) -> bool
    ensures { result ≡ texts.is_low unit }
{
    (0xdc00..0xe000).contains(&unit)
}
