//! The conditions of a builder's calls, as tests that its callers can make.

ghost use Rattle.std.specs.Prelude.{◌≡◌, ◌↔◌, IfOk, IsOkUnless, IsTrue, IsUtf8, Ok, Some, None};
ghost use Rattle.jl_logic.specs.Answers.{Gives};
ghost use Rattle.jl_pool.specs.Builder.{IsShort};
ghost use Rattle.jl_class.specs.Meaning as meaning;
ghost use Rattle.jl_classw.specs.Faults.{told};
ghost use Rattle.jl_classw.specs.Built.{AreShortFrames, IsSmall, IsSuper};
ghost use Rattle.jl_classw.specs.Building.{unless_empty};

use crate::fault::WriteFault;
use jl_class::{CodeBytes, is_interface};
use jl_names::{Descriptor, TextFault, bytes_of, descriptor, is_class_name, utf16_of};
use jl_prim::{Items, Name};
use std::alloc::Global;

/// The most bytes of a text of a pool (JVMS 4.4.7).
const MOST_BYTES: usize = 65535;

/// The most bytes of a code, and of its frames.
const MOST_CODE: usize = 4_194_304;

/// Whether a text is short enough for a pool: at most 65,535 bytes (JVMS 4.4.7).
pub fn is_short(alloc: Global, text: &Name) -> Result<bool, WriteFault>
    ensures short { IfOk result (λ b. IsTrue b ↔ IsShort text.now) }
    // A name is a text.
    ensures utf8 { IfOk result (λ _. IsUtf8 text.now) }
    // No other error comes.
    ensures memory { IsOkUnless result WriteFault.NoMemory }
{
    let units = utf16_of(alloc, text.as_str())?;
    let bytes = bytes_of(alloc, units.as_slice())?;
    Ok(bytes.len() <= MOST_BYTES)
}

/// Whether a superclass, empty for none, has a short name in internal form.
pub fn is_superclass(alloc: Global, super_name: &Name) -> Result<bool, WriteFault>
    ensures right { IfOk result (λ b. IsTrue b ↔ IsSuper (unless_empty super_name.now)) }
    // No other error comes.
    ensures memory { IsOkUnless result WriteFault.NoMemory }
{
    match super_name.as_bytes() {
        [] => Ok(true),
        [_, ..] => Ok(is_class_name(super_name.as_bytes()) && is_short(alloc, super_name)?),
    }
}

/// Whether a class with these flags and this name may have the superclass, empty for none. Only
/// `java/lang/Object` has none, and that of an interface is `java/lang/Object`.
pub fn may_extend(flags: u16, name: &Name, super_name: &Name) -> bool
    ensures { result ≡ meaning.may_extend flags name.now (unless_empty super_name.now) }
{
    match super_name.as_bytes() {
        [] => name.as_str() == "java/lang/Object" && !is_interface(flags),
        [_, ..] => !is_interface(flags) || super_name.as_str() == "java/lang/Object",
    }
}

/// Whether a text spells the type of a field (JVMS 4.3.2).
pub fn describes_a_field(alloc: Global, text: &Name) -> Result<bool, WriteFault>
    ensures { Gives told (λ b. b) result (Ok (meaning.describes_a_field text.now)) }
{
    match descriptor(alloc, text.as_bytes()) {
        Ok(Descriptor::Field(_)) => Ok(true),
        Ok(Descriptor::Method { .. }) => Ok(false),
        Err(TextFault::BadText(_)) => Ok(false),
        Err(TextFault::NoMemory) => Err(WriteFault::NoMemory),
    }
}

/// Whether a text spells the types of a method with this name: `<clinit>` has neither parameters nor a
/// result, and `<init>` has no result (JVMS 4.3.3).
pub fn describes_method(alloc: Global, name: &Name, text: &Name) -> Result<bool, WriteFault>
    ensures { Gives told (λ b. b) result (Ok (meaning.describes_method_with name.now text.now)) }
{
    if name.as_str() == "<clinit>" {
        return Ok(text.as_str() == "()V");
    }
    match descriptor(alloc, text.as_bytes()) {
        Ok(Descriptor::Field(_)) => Ok(false),
        Ok(Descriptor::Method { result: None, .. }) => Ok(true),
        Ok(
            Descriptor::Method {
                result: Some(_),
                ..
            },
        ) => Ok(name.as_str() != "<init>"),
        Err(TextFault::BadText(_)) => Ok(false),
        Err(TextFault::NoMemory) => Err(WriteFault::NoMemory),
    }
}

/// Whether code and frames have at most 4,194,304 bytes each.
pub fn is_small(code: &Option<CodeBytes>) -> bool
    ensures { IsTrue result ↔ IsSmall code.now }
{
    match code {
        None => true,
        Some(code) => { code.code.len() <= MOST_CODE && are_small_frames(&code.frames) }
    }
}

fn are_small_frames(frames: &Option<Items<u8>>) -> bool
    ensures { IsTrue result ↔ AreShortFrames frames.now }
{
    match frames {
        None => true,
        Some(frames) => frames.len() <= MOST_CODE,
    }
}
