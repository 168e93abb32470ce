//! Indices of names and descriptors, as what they name (JVMS 4.2, 4.3).

ghost use Rattle.std.specs.Prelude.{◌≡◌, ◌≤◌, length, IfOk, Ok};
ghost use Rattle.std.specs.Option.{option_copied};
ghost use Rattle.jl_logic.specs.Answers.{Gives};
ghost use Rattle.jl_classfile.specs.Places.{Reads};
ghost use Rattle.jl_names.specs.Names.{names_a_field};
ghost use Rattle.jl_class.specs.Faults.{told};
ghost use Rattle.jl_class.specs.Meaning as meaning;
ghost use Rattle.jl_class.specs.Meaning.{super_named, names_method_with};
ghost use Rattle.jl_pool.specs.Pool.{text_that, class_named};
ghost use Rattle.jl_class.specs.Reading as reading;
ghost use Rattle.jl_class.specs.Reading.{named_at};

use crate::fault::ClassFault;
use crate::flags::{is_abstract, is_interface, is_static};
use jl_classfile::Place;
use jl_names::{Descriptor, TextFault, descriptor, is_field_name, is_method_name};
use jl_pool::Pool;
use jl_prim::Name;
use std::alloc::Global;

/// The name of the class whose index stands at a place, and the place after it.
#[tactic(auto, unfolding(crate::specs::Reading::named_at))]
pub fn class_name_at<'a, 'p>(
    pool: &'a Pool,
    place: Place<'p>,
) -> Result<(&'a Name, Place<'p>), ClassFault>
    ensures { Reads told (λ name. name.now) place.entry result (named_at (class_named pool.now)) }
{
    let (index, next) = place.u16::<ClassFault>()?;
    match pool.class_name(index) {
        Some(name) => Ok((name, next)),
        None => Err(ClassFault::Name(place.at)),
    }
}

/// The name of the superclass whose index stands at a place. Index 0 is for none.
#[tactic(auto, unfolding(crate::specs::Reading::named_at))]
fn super_name_at<'a, 'p>(
    pool: &'a Pool,
    place: Place<'p>,
) -> Result<(Option<&'a Name>, Place<'p>), ClassFault>
    ensures { Reads told option_copied place.entry result (named_at (super_named pool.now)) }
{
    let (index, next) = place.u16::<ClassFault>()?;
    if index == 0 {
        return Ok((None, next));
    }
    match pool.class_name(index) {
        Some(name) => Ok((Some(name), next)),
        None => Err(ClassFault::Name(place.at)),
    }
}

/// Likewise, for a class with these flags and this name. Only `java/lang/Object` has none, and that of an
/// interface is `java/lang/Object`.
#[tactic(auto, unfolding(crate::specs::Reading::super_at))]
pub fn super_at<'a, 'p>(
    flags: u16,
    name: &Name,
    pool: &'a Pool,
    place: Place<'p>,
) -> Result<(Option<&'a Name>, Place<'p>), ClassFault>
    ensures { Reads told option_copied place.entry result (reading.super_at flags name.now pool.now) }
{
    let (super_name, next) = super_name_at(pool, place)?;
    if may_extend(flags, name, super_name) {
        Ok((super_name, next))
    } else {
        Err(ClassFault::Name(place.at))
    }
}

fn may_extend(flags: u16, name: &Name, super_name: Option<&Name>) -> bool
    ensures { result ≡ meaning.may_extend flags name.now (option_copied super_name.entry) }
{
    match super_name {
        None => is_object(name) && !is_interface(flags),
        Some(super_name) => !is_interface(flags) || is_object(super_name),
    }
}

fn is_object(name: &Name) -> bool
    ensures { result ≡ meaning.is_object name.now }
{
    name.as_str() == "java/lang/Object"
}

/// The name of a field whose index stands at a place, and the place after it.
#[tactic(auto, unfolding(crate::specs::Reading::named_at))]
pub fn field_name_at<'a, 'p>(
    pool: &'a Pool,
    place: Place<'p>,
) -> Result<(&'a Name, Place<'p>), ClassFault>
    ensures { Reads told (λ name. name.now) place.entry result (named_at (text_that names_a_field pool.now)) }
{
    let (index, next) = place.u16::<ClassFault>()?;
    match pool.paired_text(index) {
        Some(name) if is_field_name(name.as_bytes()) => Ok((name, next)),
        _ => Err(ClassFault::Name(place.at)),
    }
}

/// The name of a method with these flags whose index stands at a place, and the place after it.
#[tactic(auto, unfolding(crate::specs::Reading::named_at))]
pub fn method_name_at<'a, 'p>(
    flags: u16,
    pool: &'a Pool,
    place: Place<'p>,
) -> Result<(&'a Name, Place<'p>), ClassFault>
    ensures { Reads told (λ name. name.now) place.entry result (named_at (text_that (names_method_with flags) pool.now)) }
{
    let (index, next) = place.u16::<ClassFault>()?;
    match pool.paired_text(index) {
        Some(name) if names_method(flags, name) => Ok((name, next)),
        _ => Err(ClassFault::Name(place.at)),
    }
}

/// Whether a method with these flags may have the name: `<init>` is of an instance and not abstract,
/// `<clinit>` is static (JVMS 2.9, 4.2.2).
pub fn names_method(flags: u16, name: &Name) -> bool
    ensures { result ≡ names_method_with flags name.now }
{
    is_method_name(name.as_bytes())
        && !(is_init(name) && (is_static(flags) || is_abstract(flags)))
        && !(is_clinit(name) && !is_static(flags))
}

fn is_init(name: &Name) -> bool
    ensures { result ≡ meaning.is_init name.now }
{
    name.as_str() == "<init>"
}

fn is_clinit(name: &Name) -> bool
    ensures { result ≡ meaning.is_clinit name.now }
{
    name.as_str() == "<clinit>"
}

/// The descriptor of a field whose index stands at a place, and the place after it.
#[tactic(auto, unfolding(crate::specs::Reading::named_at))]
pub fn field_desc_at<'a, 'p>(
    alloc: Global,
    pool: &'a Pool,
    place: Place<'p>,
) -> Result<(&'a Name, Place<'p>), ClassFault>
    ensures { Reads told (λ name. name.now) place.entry result (named_at (text_that meaning.describes_a_field pool.now)) }
{
    let (index, next) = place.u16::<ClassFault>()?;
    let Some(desc) = pool.paired_text(index) else {
        return Err(ClassFault::Name(place.at));
    };
    if describes_a_field(alloc, desc)? {
        Ok((desc, next))
    } else {
        Err(ClassFault::Name(place.at))
    }
}

/// The descriptor of a method with this name whose index stands at a place, and the place after it.
#[tactic(auto, unfolding(crate::specs::Reading::named_at))]
pub fn method_desc_at<'a, 'p>(
    alloc: Global,
    name: &Name,
    pool: &'a Pool,
    place: Place<'p>,
) -> Result<(&'a Name, Place<'p>), ClassFault>
    ensures { Reads told (λ name. name.now) place.entry result (named_at (text_that (meaning.describes_method_with name.now) pool.now)) }
{
    let (index, next) = place.u16::<ClassFault>()?;
    let Some(desc) = pool.paired_text(index) else {
        return Err(ClassFault::Name(place.at));
    };
    if describes_method(alloc, name, desc)? {
        Ok((desc, next))
    } else {
        Err(ClassFault::Name(place.at))
    }
}

/// Whether a text spells the type of a field.
pub fn describes_a_field(alloc: Global, text: &Name) -> Result<bool, ClassFault>
    ensures { Gives told (λ b. b) result (Ok (meaning.describes_a_field text.now)) }
{
    match descriptor(alloc, text.as_bytes()) {
        Ok(Descriptor::Field(_)) => Ok(true),
        Ok(Descriptor::Method { .. }) => Ok(false),
        Err(TextFault::BadText(_)) => Ok(false),
        Err(TextFault::NoMemory) => Err(ClassFault::NoMemory),
    }
}

/// Whether a text spells the types of a method with this name: `<clinit>` has neither parameters nor a
/// result, and `<init>` has no result.
fn describes_method(alloc: Global, name: &Name, text: &Name) -> Result<bool, ClassFault>
    ensures { Gives told (λ b. b) result (Ok (meaning.describes_method_with name.now text.now)) }
{
    if is_clinit(name) {
        return Ok(text.as_str() == "()V");
    }
    match descriptor(alloc, text.as_bytes()) {
        Ok(Descriptor::Field(_)) => Ok(false),
        Ok(Descriptor::Method { result: None, .. }) => Ok(true),
        Ok(
            Descriptor::Method {
                result: Some(_),
                ..
            },
        ) => Ok(!is_init(name)),
        Err(TextFault::BadText(_)) => Ok(false),
        Err(TextFault::NoMemory) => Err(ClassFault::NoMemory),
    }
}
