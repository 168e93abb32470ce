//! Reading descriptors of fields and methods (JVMS 4.3).

ghost use Rattle.std.specs.Prelude.{◌≡◌, ◌≤◌, ◌<◌, ◌+◌, List, ℕ, length, drop, true, Ok, Err, IfOk};
ghost use Rattle.jl_logic.specs.Answers.{Tells};
ghost use Rattle.jl_names.specs.Bad.{IsBadAt};
ghost use Rattle.jl_names.specs.Text.{told};
ghost use Rattle.jl_names.specs.declared.fault.TextFault.TheVariants.{BadText};
ghost use Rattle.jl_names.specs.Descriptors as readings;
ghost use Rattle.jl_names.specs.Descriptors.{descriptor_read, front_of, IsDescriptor, IsSomeDescriptor};

use crate::fault::TextFault;
use crate::types::{BaseType, Descriptor, FieldType, Params};
use std::alloc::Global;

/// What a descriptor says (JVMS 4.3.2, 4.3.3).
///
/// `BadText(at)` names the first byte with which no descriptor goes on, or the end of a text that stops
/// inside one. An array has at most 255 dimensions, and parameters take at most 255 slots.
pub fn descriptor(alloc: Global, text: &[u8]) -> Result<Descriptor, TextFault>
    // What is read is spelled so.
    ensures found { IfOk result (λ d. IsDescriptor text.now d) }
    // What is spelled so is read, unless memory runs out.
    ensures only { (d : Descriptor) → IsDescriptor text.now d → Tells told result (Ok d) }
    // Where it stops.
    ensures bad { (at : ℕ) → result ≡ Err (BadText at) → IsBadAt IsSomeDescriptor text.now at }
    // By reading from left to right.
    ensures exact { Tells told result (descriptor_read text.now) }
{
    whole(alloc, text)
}

#[tactic(auto, unfolding(crate::specs::Descriptors::descriptor_read))]
fn whole(alloc: Global, text: &[u8]) -> Result<Descriptor, TextFault>
    ensures { Tells told result (descriptor_read text.now) }
{
    let (descriptor, next) = front(alloc, text)?;
    if next != text.len() {
        return Err(TextFault::BadText(next));
    }
    Ok(descriptor)
}

/// The descriptor with which a text begins, and the place after it.
fn front(alloc: Global, text: &[u8]) -> Result<(Descriptor, usize), TextFault>
    ensures { Tells told result (front_of text.now) }
{
    if has_at(text, 0, b'(') {
        method_at(alloc, text)
    } else {
        field_at(text)
    }
}

fn has_at(text: &[u8], at: usize, byte: u8) -> bool
    ensures { result ≡ readings.has_at text.now at byte }
{
    at < text.len() && text[at] == byte
}

fn is_primitive(byte: u8) -> bool
    ensures { result ≡ readings.is_primitive byte }
{
    matches!(byte, b'B' | b'C' | b'D' | b'F' | b'I' | b'J' | b'S' | b'Z')
}

/// How many `[` begin a text: the dimensions of an array's descriptor.
#[tactic(auto, unfolding(crate::specs::Descriptors::brackets))]
pub fn brackets(text: &[u8]) -> usize
    ensures count { result ≡ readings.brackets text.now }
    ensures within { result ≤ length text.now }
{
    let mut count = 0;
    let mut rest = text;
    while let [b'[', others @ ..] = rest {
        count += 1;
        rest = others;
    }
    count
}

/// The place of the `;` that ends a class name.
#[tactic(auto, unfolding(crate::specs::Descriptors::name_end))]
fn name_end(text: &[u8], from: usize) -> Result<usize, TextFault>
    requires { from ≤ length text.now }
    ensures exact { result ≡ readings.name_end true (drop from text.now) from }
    ensures within { IfOk result (λ end. (from ≤ end) × (end < length text.now)) }
{
    let mut is_fresh = true;
    let mut at = from;
    let mut rest = &text[from..];
    while let [byte, others @ ..] = rest {
        let ends_part = matches!(*byte, b';' | b'/');
        if matches!(*byte, b'.' | b'[') || (ends_part && is_fresh) {
            return Err(TextFault::BadText(at));
        }
        if *byte == b';' {
            return Ok(at);
        }
        is_fresh = ends_part;
        at += 1;
        rest = others;
    }
    Err(TextFault::BadText(at))
}

/// The type that is no array at a place, and the place after it.
#[tactic(auto, unfolding(crate::specs::Descriptors::base_at))]
fn base_at(text: &[u8], at: usize) -> Result<(BaseType, usize), TextFault>
    requires { at ≤ length text.now }
    ensures exact { result ≡ readings.base_at text.now at }
    ensures within { IfOk result (λ x. (at < x.1) × (x.1 ≤ length text.now)) }
{
    if at >= text.len() {
        return Err(TextFault::BadText(at));
    }
    let byte = text[at];
    if is_primitive(byte) {
        return Ok((BaseType::Prim(byte), at + 1));
    }
    if byte != b'L' {
        return Err(TextFault::BadText(at));
    }
    let end = name_end(text, at + 1)?;
    Ok((BaseType::Class(at + 1, end), end + 1))
}

/// The type at a place, and the place after it.
#[tactic(auto, unfolding(crate::specs::Descriptors::type_at))]
fn type_at(text: &[u8], at: usize) -> Result<(FieldType, usize), TextFault>
    requires { at ≤ length text.now }
    ensures exact { result ≡ readings.type_at text.now at }
    ensures within { IfOk result (λ x. (at < x.1) × (x.1 ≤ length text.now)) }
{
    let dims = brackets(&text[at..]);
    if dims > 255 {
        return Err(TextFault::BadText(at + 255));
    }
    let (base, next) = base_at(text, at + dims)?;
    Ok((
        FieldType {
            dims: dims as u8,
            base,
        },
        next,
    ))
}

/// The type of a parameter behind those that take so many slots, and the place after it.
#[tactic(auto, unfolding(crate::specs::Descriptors::param_at))]
fn param_at(taken: usize, text: &[u8], at: usize) -> Result<(FieldType, usize), TextFault>
    requires placed { at ≤ length text.now }
    requires few { taken < 256 }
    ensures exact { result ≡ readings.param_at taken text.now at }
    ensures within { IfOk result (λ x. (at < x.1) × (x.1 ≤ length text.now)) }
    ensures few { IfOk result (λ x. taken + readings.slots_of x.0 < 256) }
{
    if taken >= 255 {
        return Err(TextFault::BadText(at));
    }
    let (param, next) = type_at(text, at)?;
    if taken + param.slots() > 255 {
        return Err(TextFault::BadText(at));
    }
    Ok((param, next))
}

/// The types of parameters from place 1 up to the `)`, and its place.
fn params_at(alloc: Global, text: &[u8]) -> Result<(Params, usize), TextFault>
    requires { 1 ≤ length text.now }
    ensures exact { Tells told result (readings.params_at (length text.now) 0 text.now 1) }
    ensures within { IfOk result (λ x. x.1 < length text.now) }
{
    let mut types = Vec::new(alloc);
    let mut taken = 0;
    let mut at = 1;
    while !has_at(text, at, b')') {
        let (param, next) = param_at(taken, text, at)?;
        types.push(param)?;
        taken += param.slots();
        at = next;
    }
    Ok((Params::from_vec(types), at))
}

/// The type of a result, or none for `V`, and the place after it.
#[tactic(auto, unfolding(crate::specs::Descriptors::result_at))]
fn result_at(text: &[u8], at: usize) -> Result<(Option<FieldType>, usize), TextFault>
    requires { at ≤ length text.now }
    ensures { result ≡ readings.result_at text.now at }
{
    if has_at(text, at, b'V') {
        return Ok((None, at + 1));
    }
    let (found, next) = type_at(text, at)?;
    Ok((Some(found), next))
}

#[tactic(auto, unfolding(crate::specs::Descriptors::method_at))]
fn method_at(alloc: Global, text: &[u8]) -> Result<(Descriptor, usize), TextFault>
    requires { 1 ≤ length text.now }
    ensures { Tells told result (readings.method_at text.now) }
{
    let (params, close) = params_at(alloc, text)?;
    let (result, next) = result_at(text, close + 1)?;
    Ok((Descriptor::Method { params, result }, next))
}

#[tactic(auto, unfolding(crate::specs::Descriptors::field_at))]
fn field_at(text: &[u8]) -> Result<(Descriptor, usize), TextFault>
    ensures { Tells told result (readings.field_at text.now) }
{
    let (found, next) = type_at(text, 0)?;
    Ok((Descriptor::Field(found), next))
}
