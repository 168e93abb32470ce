//! Texts in parts, and numbers.

ghost use Rattle.std.specs.Prelude.{◌≡◌, ◌<◌, ◌++◌, ◌∷◌, [], length, map, filter, option_map, not, IfOk, IfSome, Some, None, nat_lt, ◌^◌, ◌*◌, ◌+◌, ◌-◌, IsTrue, if◌then◌else◌};
ghost use Rattle.std.specs.List.{list_all};
ghost use Rattle.jl_words.specs.Values as values;
ghost use Rattle.jl_names.specs.Names.{is_empty};
ghost use Rattle.jl_words.specs.Values.{is_digit};
ghost use Rattle.jl_words.specs.Reading as reading;

use jl_prim::{CopyEnd, Items, Name};
use std::alloc::Global;

/// What stands before and behind the first separator, a character of ASCII.
pub fn parted(text: &str, separator: char) -> Option<(&str, &str)>
    requires { separator < 128 }
    ensures exact { option_map (λ x. (x.0.now, x.1.now)) result ≡ reading.parted separator text.now }
    ensures shorter { IfSome result (λ x. length x.1.now < length text.now) }
{
    text.split_once(separator)
}

/// What stands before and behind the last separator, a character of ASCII.
pub fn parted_last(text: &str, separator: char) -> Option<(&str, &str)>
    requires { separator < 128 }
    ensures { option_map (λ x. (x.0.now, x.1.now)) result ≡ reading.parted_last separator text.now }
{
    text.rsplit_once(separator)
}

/// The elements of a module path, between colons, without the empty ones.
pub fn path_parts(alloc: Global, value: &str) -> Result<Items<Name>, CopyEnd>
    ensures { IfOk result (λ parts. parts ≡ values.path_parts value.now) }
{
    let mut parts = Items::new(alloc);
    let mut rest = value;
    while let Some((front, others)) = parted(rest, ':') {
        parts = with_part(alloc, parts, front)?;
        rest = others;
    }
    with_part(alloc, parts, rest)
}

/// The parts and one more, which counts for nothing where it is empty.
fn with_part(alloc: Global, parts: Items<Name>, part: &str) -> Result<Items<Name>, CopyEnd>
    ensures { IfOk result (λ more. more ≡ parts ++ filter (λ p. not (is_empty p)) (part.now ∷ [])) }
{
    if part.is_empty() {
        return Ok(parts);
    }
    with_name(alloc, parts, part)
}

/// The names between commas.
pub fn listed(alloc: Global, value: &str) -> Result<Items<Name>, CopyEnd>
    ensures { IfOk result (λ names. names ≡ values.listed value.now) }
{
    let mut names = Items::new(alloc);
    let mut rest = value;
    while let Some((front, others)) = parted(rest, ',') {
        names = with_name(alloc, names, front)?;
        rest = others;
    }
    with_name(alloc, names, rest)
}

/// The names and one more.
fn with_name(alloc: Global, names: Items<Name>, name: &str) -> Result<Items<Name>, CopyEnd>
    ensures { IfOk result (λ more. more ≡ names ++ name.now ∷ []) }
{
    let mut more = names.into_vec();
    more.push(Name::from_text(alloc, name)?)?;
    Ok(Items::from_vec(more))
}

/// The number that one to twenty digits are, where it takes at most 64 bits.
pub fn number_of(text: &[u8]) -> Option<u64>
    ensures { result ≡ values.number_of text.now }
{
    if !are_digits(text) {
        return None;
    }
    spelled(text)
}

fn are_digits(text: &[u8]) -> bool
    ensures { result ≡ values.are_digits text.now }
{
    !text.is_empty() && text.len() <= 20 && each_is_digit(text)
}

fn each_is_digit(text: &[u8]) -> bool
    ensures { result ≡ list_all is_digit text.now }
{
    text.iter().all(|byte| is_digit(*byte))
}

fn is_digit(byte: u8) -> bool
    ensures { result ≡ values.is_digit byte }
{
    byte >= b'0' && byte <= b'9'
}

/// The number that digits spell, where it takes at most 64 bits.
fn spelled(text: &[u8]) -> Option<u64>
    requires { IsTrue (list_all values.is_digit text.now) }
    ensures { result ≡ (if nat_lt (values.spelled 0 text.now) (2 ^ 64) then Some (values.spelled 0 text.now) else None) }
{
    let mut number: u64 = 0;
    let mut rest = text;
    while let [digit, others @ ..] = rest {
        let Some(next) = with_digit(number, *digit) else {
            return None;
        };
        number = next;
        rest = others;
    }
    Some(number)
}

/// The number with one digit more, where it takes at most 64 bits.
fn with_digit(number: u64, digit: u8) -> Option<u64>
    requires { IsTrue (values.is_digit digit) }
    ensures { result ≡ (if nat_lt (number * 10 + (digit - 48)) (2 ^ 64) then Some (number * 10 + (digit - 48)) else None) }
{
    number.checked_mul(10)?.checked_add(u64::from(digit - b'0'))
}
