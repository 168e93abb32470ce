//! Names in internal form, and as they are printed.

ghost use Rattle.std.specs.Prelude.{◌≡◌, ◌<◌, map, IfOk};
ghost use Rattle.std.specs.String.{string_bytes};
ghost use Rattle.jl_names.specs.Dots as dots;

use std::alloc::{AllocError, Global};

/// A name with dots where it has slashes, as it is printed.
pub fn dotted(alloc: Global, name: &str) -> Result<String, AllocError>
    ensures { IfOk result (λ text. string_bytes text ≡ dots.dotted name.now) }
{
    swapped(alloc, name, '/', '.')
}

/// A name with slashes where it has dots, in internal form.
pub fn slashed(alloc: Global, text: &str) -> Result<String, AllocError>
    ensures { IfOk result (λ name. string_bytes name ≡ dots.slashed text.now) }
{
    swapped(alloc, text, '.', '/')
}

/// The text with one character in place of another, both of ASCII.
fn swapped(alloc: Global, text: &str, from: char, to: char) -> Result<String, AllocError>
    requires from { from < 128 }
    requires to { to < 128 }
    ensures { IfOk result (λ other. string_bytes other ≡ map (dots.swapped from to) text.now) }
{
    let mut other = String::new(alloc);
    for character in text.chars() {
        other.push(swap(from, to, character))?;
    }
    Ok(other)
}

fn swap(from: char, to: char, character: char) -> char
    ensures { result ≡ dots.swapped from to character }
{
    if character == from { to } else { character }
}
