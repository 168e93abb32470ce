//! What instructions may name in the pool (JVMS 4.9.1, 6.5).

ghost use Rattle.std.specs.Prelude.{◌≡◌, Ok, Some};
ghost use Rattle.std.specs.Option.{option_copied};
ghost use Rattle.jl_logic.specs.Answers.{Tells};
ghost use Rattle.jl_code.specs.Told.{told};
ghost use Rattle.jl_code.specs.References as words;

use crate::fault::CodeFault;
use crate::members::{class_text, member_desc, member_name, member_tag};
use crate::types::slots;
use jl_names::{Descriptor, TextFault, brackets, descriptor};
use jl_optable::ops;
use jl_pool::Pool;
use jl_prim::Name;
use std::alloc::Global;

/// What a text says as a descriptor, where it is one.
pub fn described(alloc: Global, text: &[u8]) -> Result<Option<Descriptor>, CodeFault>
    ensures { Tells told result (Ok (words.described (Some text.now))) }
{
    match descriptor(alloc, text) {
        Ok(found) => Ok(Some(found)),
        Err(TextFault::BadText(_)) => Ok(None),
        Err(TextFault::NoMemory) => Err(CodeFault::NoMemory),
    }
}

/// What the descriptor of the member at an index says.
pub fn member_type(alloc: Global, pool: &Pool, i: u16) -> Result<Option<Descriptor>, CodeFault>
    ensures { Tells told result (Ok (words.member_type pool.now i)) }
{
    match member_desc(pool, i) {
        Some(desc) => described(alloc, desc.as_bytes()),
        None => Ok(None),
    }
}

/// Whether the entry at an index is one that `ldc` loads.
fn is_loadable(pool: &Pool, i: u16) -> bool
    ensures { result ≡ words.is_loadable pool.now i }
{
    matches!(pool.tag(i), Some(3 | 4 | 7 | 8 | 15 | 16 | 17))
}

/// Whether the entry at an index is one that `ldc2_w` loads.
fn is_loadable_wide(pool: &Pool, i: u16) -> bool
    ensures { result ≡ words.is_loadable_wide pool.now i }
{
    matches!(pool.tag(i), Some(5 | 6 | 17))
}

/// Whether the entry at an index is a field with the descriptor of one.
fn is_field(alloc: Global, pool: &Pool, i: u16) -> Result<bool, CodeFault>
    ensures { Tells told result (Ok (words.is_field pool.now i)) }
{
    if member_tag(pool, i) != Some(9) {
        return Ok(false);
    }
    let found = member_type(alloc, pool, i)?;
    Ok(matches!(found, Some(Descriptor::Field(_))))
}

/// Whether an invoke takes a member with this tag.
fn has_method_tag(op: u8, tag: Option<u8>) -> bool
    ensures { result ≡ words.has_method_tag op tag }
{
    match op {
        ops::INVOKEVIRTUAL => tag == Some(10),
        ops::INVOKEINTERFACE => tag == Some(11),
        _ => matches!(tag, Some(10 | 11)),
    }
}

/// Whether an invoke takes a method with this name. `<init>` is for invokespecial alone.
fn may_invoke(op: u8, name: Option<&Name>) -> bool
    ensures { result ≡ words.may_invoke op (option_copied name.entry) }
{
    match name {
        Some(name) => {
            name.as_bytes().first() != Some(&b'<')
                || (op == ops::INVOKESPECIAL && name.as_str() == "<init>")
        }
        None => false,
    }
}

/// Whether the entry at an index is a method that an invoke takes.
fn is_method(alloc: Global, pool: &Pool, op: u8, i: u16) -> Result<bool, CodeFault>
    ensures { Tells told result (Ok (words.is_method pool.now op i)) }
{
    if !has_method_tag(op, member_tag(pool, i)) || !may_invoke(op, member_name(pool, i)) {
        return Ok(false);
    }
    let found = member_type(alloc, pool, i)?;
    Ok(matches!(found, Some(Descriptor::Method { .. })))
}

/// How many `[` begin the name of the class at an index.
fn class_dims(pool: &Pool, i: u16) -> Option<usize>
    ensures { result ≡ words.class_dims pool.now i }
{
    let name = class_text(pool, i)?;
    Some(brackets(name.as_bytes()))
}

/// Whether the entry at an index is a class that `new`, `anewarray`, `checkcast` or `instanceof` takes.
fn is_class_for(pool: &Pool, op: u8, i: u16) -> bool
    ensures { result ≡ words.is_class_for pool.now op i }
{
    match op {
        ops::NEW => class_dims(pool, i) == Some(0),
        ops::ANEWARRAY => matches!(class_dims(pool, i), Some(0..=254)),
        _ => pool.class(i).is_some(),
    }
}

/// Whether the entry at an index is a class of arrays of which `multianewarray` makes so many dimensions.
pub fn is_array_of(pool: &Pool, i: u16, count: u8) -> bool
    ensures { result ≡ words.is_array_of pool.now i count }
{
    match class_dims(pool, i) {
        Some(dims) => 0 < count && count as usize <= dims,
        None => false,
    }
}

/// Whether an index is one that an instruction takes whose only operand it is.
#[tactic(auto, unfolding(crate::specs::References::is_right_index))]
pub fn is_right_index(alloc: Global, pool: &Pool, op: u8, i: u16) -> Result<bool, CodeFault>
    ensures { Tells told result (Ok (words.is_right_index pool.now op i)) }
{
    match op {
        ops::LDC2_W => Ok(is_loadable_wide(pool, i)),
        0..=ops::LDC_W => Ok(is_loadable(pool, i)),
        ops::ILOAD..=ops::PUTFIELD => is_field(alloc, pool, i),
        ops::INVOKEVIRTUAL..=ops::INVOKEINTERFACE => is_method(alloc, pool, op, i),
        _ => Ok(is_class_for(pool, op, i)),
    }
}

/// Whether the count of an invokeinterface is that of the slots of the receiver and the parameters.
pub fn is_slot_count(count: u8, found: &Option<Descriptor>) -> bool
    ensures { result ≡ words.is_slot_count count found.now }
{
    match found {
        Some(Descriptor::Method { params, .. }) => count as usize == 1 + slots(params.as_slice()),
        _ => false,
    }
}
