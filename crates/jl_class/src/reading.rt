//! Reading a class file.

ghost use Rattle.std.specs.Prelude.{◌≡◌, ◌↔◌, IfOk, Ok, Err};
ghost use Rattle.std.specs.Option.{option_copied};
ghost use Rattle.jl_logic.specs.Answers.{Gives};
ghost use Rattle.jl_class.specs.declared.fault.ClassFault.{ClassFault};
ghost use Rattle.jl_class.specs.Classes.{Class};
ghost use Rattle.jl_class.specs.Faults.{told};
ghost use Rattle.jl_class.specs.Reading.{class_of};
ghost use Rattle.jl_class.specs.Spelling.{IsClass};

use crate::class::ClassDecl;
use crate::fault::ClassFault;
use crate::field::fields_at;
use crate::flags::is_interface;
use crate::front::{class_flags_at, class_pool, front, interfaces_at};
use crate::method::methods_at;
use crate::names::{class_name_at, super_at};
use crate::nests::nests_at;
use jl_classfile::Place;
use jl_prim::{Copied, CopyEnd, Name};
use std::alloc::Global;

/// The class that a class file declares (JVMS 4.1).
///
/// The first fault from the left is the answer.
pub fn read_class(alloc: Global, bytes: &[u8]) -> Result<ClassDecl, ClassFault>
    ensures exact { Gives told (λ c. c) result (class_of bytes.now) }
    ensures found { IfOk result (λ c. IsClass bytes.now c) }
    ensures only { (c : Class) → IsClass bytes.now c → Gives told (λ c. c) result (Ok c) }
    // There is a fault exactly where there is no class.
    ensures one { ((f : ClassFault) × (class_of bytes.now ≡ Err f)) ↔ ((c : Class) → IsClass bytes.now c → ⊥) }
{
    class(alloc, bytes)
}

#[tactic(auto, unfolding(crate::specs::Reading::class_of))]
fn class(alloc: Global, bytes: &[u8]) -> Result<ClassDecl, ClassFault>
    ensures { Gives told (λ c. c) result (class_of bytes.now) }
{
    let (version, place) = front(Place::start(bytes))?;
    let (pool, place) = class_pool(alloc, place)?;
    let (flags, place) = class_flags_at(place)?;
    let (name, place) = class_name_at(&pool, place)?;
    let (super_name, place) = super_at(flags, name, &pool, place)?;
    let (interfaces, place) = interfaces_at(alloc, &pool, place)?;
    let (fields, place) = fields_at(alloc, is_interface(flags), &pool, place)?;
    let (methods, place) = methods_at(alloc, &pool, place)?;
    let (nests, place) = nests_at(alloc, version.0, flags, &pool, place)?;
    if !place.is_end() {
        return Err(ClassFault::Trailing);
    }
    let name = name.copy()?;
    let super_name = copied(super_name)?;
    Ok(ClassDecl::from_parts(
        version, flags, name, super_name, interfaces, fields, methods, nests, pool,
    ))
}

fn copied(name: Option<&Name>) -> Result<Option<Name>, CopyEnd>
    ensures { IfOk result (λ it. it ≡ option_copied name.entry) }
{
    match name {
        Some(name) => Ok(Some(name.copy()?)),
        None => Ok(None),
    }
}
