//! UTF-8 to units.

ghost use Rattle.std.specs.Prelude.{◌≡◌, IfOk, IsOkUnless, true};
ghost use Rattle.jl_names.specs.Text.{AreUnits, plain, has_no_lone_surrogate};
ghost use Rattle.jl_names.specs.Utf16.{utf16};

use crate::fault::TextFault;
use crate::units::Units;
use std::alloc::Global;

/// The UTF-16 units of a text: each character as its unit, or past U+FFFF as a pair of surrogates.
pub fn utf16_of(alloc: Global, text: &str) -> Result<Units, TextFault>
    ensures value { IfOk result (λ units. units ≡ utf16 text.now) }
    ensures units { IfOk result (λ units. AreUnits units) }
    // They spell the text again.
    ensures back { IfOk result (λ units. plain units ≡ text.now) }
    ensures paired { IfOk result (λ units. has_no_lone_surrogate units ≡ true) }
    // No other error comes.
    ensures memory { IsOkUnless result TextFault.NoMemory }
{
    all_characters(alloc, text)
}

fn all_characters(alloc: Global, text: &str) -> Result<Units, TextFault>
    ensures value { IfOk result (λ units. units ≡ utf16 text.now) }
    ensures memory { IsOkUnless result TextFault.NoMemory }
{
    let mut units = Vec::new(alloc);
    for character in text.chars() {
        let mut pair = [0; 2];
        units.extend_from_slice(character.encode_utf16(&mut pair))?;
    }
    Ok(Units::from_vec(units))
}
