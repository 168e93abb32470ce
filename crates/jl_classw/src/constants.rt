//! Which constant a field may be given (JVMS 4.7.2).

ghost use Rattle.std.specs.Prelude.{◌≡◌, ◌↔◌, IfOk, IsOkUnless, IsTrue, Some};
ghost use Rattle.jl_names.specs.Text.{AreUnits};
ghost use Rattle.jl_classw.specs.Built.{IsShortConstant, MayHave, tag_of_constant};

use crate::entry::Constant;
use crate::fault::WriteFault;
use jl_class::may_be_constant;
use jl_names::bytes_of;
use jl_prim::Name;
use std::alloc::Global;

/// The most bytes of a text of a pool (JVMS 4.4.7).
const MOST_BYTES: usize = 65535;

/// Whether a field with these flags and this descriptor may be given the constant: none, or one of the
/// right kind (JVMS 4.7.2) whose text is short.
pub fn may_have(
    alloc: Global,
    flags: u16,
    desc: &Name,
    constant: &Option<Constant>,
) -> Result<bool, WriteFault>
    ensures right { IfOk result (λ b. IsTrue b ↔ MayHave flags desc.now constant.now) }
    // No other error comes.
    ensures memory { IsOkUnless result WriteFault.NoMemory }
{
    match constant {
        None => Ok(true),
        Some(constant) => may_be(alloc, flags, desc, constant),
    }
}

fn may_be(alloc: Global, flags: u16, desc: &Name, constant: &Constant) -> Result<bool, WriteFault>
    ensures right { IfOk result (λ b. IsTrue b ↔ MayHave flags desc.now (Some constant.now)) }
    ensures memory { IsOkUnless result WriteFault.NoMemory }
{
    let is_short = is_short(alloc, constant)?;
    Ok(may_be_constant(flags, desc, tag(constant)) && is_short)
}

fn is_short(alloc: Global, constant: &Constant) -> Result<bool, WriteFault>
    ensures short { IfOk result (λ b. IsTrue b ↔ IsShortConstant constant.now) }
    ensures memory { IsOkUnless result WriteFault.NoMemory }
{
    match constant {
        Constant::Text(units) => {
            are_units(units.as_slice());
            Ok(bytes_of(alloc, units.as_slice())?.len() <= MOST_BYTES)
        }
        _ => Ok(true),
    }
}

/// Units are below 65,536, as all numbers of two bytes.
fn are_units(units: &[u16])
    ensures { AreUnits units.now }
{}

/// The tag of the entry of a constant (JVMS 4.4-A).
fn tag(constant: &Constant) -> u8
    ensures { result ≡ tag_of_constant constant.now }
{
    match constant {
        Constant::Int(_) => 3,
        Constant::Long(_) => 5,
        Constant::Text(_) => 8,
    }
}
