//! The members that references refer to, and the errors that name them (JVMS 5.4.3, 6.5).

ghost use Rattle.std.specs.Prelude.{◌≡◌, ◌<◌, ◌++◌, IfOk, IfSome, Ok, codes, string_bytes};
ghost use Rattle.std.specs.Option.{option_and_then};
ghost use Rattle.jl_logic.specs.Order.{is_text};
ghost use Rattle.jl_names.specs.Dots.{dotted};
ghost use Rattle.jl_prim.specs.declared.error_kind.ErrorKind.TheVariants as errors;
ghost use Rattle.jl_loads.specs.Outcomes.{error};
ghost use Rattle.jl_loads.specs.Worlds.{IsClass, all_fields, all_methods};
ghost use Rattle.jl_link.specs.Members.{IsFieldThere, IsMethodThere};
ghost use Rattle.jl_link.specs.Owners as owners;
ghost use Rattle.jl_link.specs.There.{IsTargetThere};
ghost use Rattle.jl_objops.specs.Members as words;
ghost use Rattle.jl_objops.specs.Outcomes.{Finds, Halts, of_thrown};

use crate::halt::{Halt, no_member, of_link, throws};
use crate::types::class_of;
use jl_heap::Heap;
use jl_link::{Member, Target, World};
use jl_loads::of_member;
use jl_names::dotted;
use jl_prim::{ClassId, ErrorKind, FieldId, MethodId, Name, ObjRef};
use std::alloc::{AllocError, Global};

/// The field that is the target of a reference. None where the target is none.
pub fn target_field(world: &World, target: &Target) -> Option<Member>
    requires { IsTargetThere world.now target.now }
    ensures field { result ≡ words.target_field world.now target.now }
    ensures there { IfSome result (IsFieldThere world.now) }
{
    match target {
        Target::Field(f) => field_with(world, *f),
        _ => None,
    }
}

/// The method that is the target of a reference. None where the target is none.
pub fn target_method(world: &World, target: &Target) -> Option<Member>
    requires { IsTargetThere world.now target.now }
    ensures method { result ≡ words.target_method world.now target.now }
    ensures there { IfSome result (IsMethodThere world.now) }
{
    match target {
        Target::Method(m) => method_with(world, *m),
        _ => None,
    }
}

/// What there is.
pub fn found(m: Option<Member>) -> Result<Member, Halt>
    ensures { result ≡ words.found m }
{
    match m {
        Some(m) => Ok(m),
        None => Err(no_member()),
    }
}

/// Whether the method at a place of a class has a name.
pub fn is_method_named(world: &World, c: ClassId, at: usize, name: &[u8]) -> bool
    requires { IsClass world.now c }
    ensures { result ≡ is_text (words.method_name world.now c at) name.now }
{
    match world.class(c).methods().get(at) {
        Some(method) => method.name.as_bytes() == name,
        None => name.is_empty(),
    }
}

/// An error that names a field by the class that declares it.
pub fn field_error(alloc: Global, world: &World, kind: ErrorKind, m: Member) -> Halt
    requires { IsFieldThere world.now m }
    ensures { Halts (words.field_error kind world.now m) result }
{
    let class = world.class(m.owner);
    match class.fields().get(m.at) {
        Some(field) => of_link(of_member(alloc, kind, class.name(), &field.name)),
        None => unreachable!(),
    }
}

/// An error that names a method by the class that declares it.
pub fn method_error(alloc: Global, world: &World, kind: ErrorKind, m: Member) -> Halt
    requires { IsMethodThere world.now m }
    ensures { Halts (words.method_error kind world.now m) result }
{
    let class = world.class(m.owner);
    match class.methods().get(m.at) {
        Some(method) => of_link(of_member(alloc, kind, class.name(), &method.name)),
        None => unreachable!(),
    }
}

/// The error of a final field that is written where it may not be.
pub fn final_error(alloc: Global, world: &World, m: Member) -> Halt
    requires { IsFieldThere world.now m }
    ensures { Halts (words.final_error world.now m) result }
{
    let class = world.class(m.owner);
    match class.fields().get(m.at) {
        Some(field) => final_field(alloc, class.name(), &field.name),
        None => unreachable!(),
    }
}

/// Whether an object is of a class, or of a subclass of it.
pub fn is_object_of(world: &World, heap: &Heap, c: ClassId, o: ObjRef) -> Result<bool, Halt>
    ensures { Finds (Ok (words.is_object_of world.now heap.now c o)) result }
{
    if !heap.has(o) {
        return Ok(false);
    }
    let class = class_of(world, heap.shape(o))?;
    Ok(world.is_subclass(class, c))
}

/// The error of a final field of a class that is written where it may not be.
fn final_field(alloc: Global, class: &Name, field: &Name) -> Halt
    ensures { Halts (of_thrown (error errors.IllegalAccessError (codes "final field " ++ dotted class.now ++ codes "." ++ field.now))) result }
{
    match final_text(alloc, class, field) {
        Ok(text) => throws(alloc, ErrorKind::IllegalAccessError, text.as_str()),
        Err(_) => Halt::NoMemory,
    }
}

fn final_text(alloc: Global, class: &Name, field: &Name) -> Result<String, AllocError>
    ensures { IfOk result (λ text. string_bytes text ≡ codes "final field " ++ dotted class.now ++ codes "." ++ field.now) }
{
    let class = dotted(alloc, class.as_str())?;
    let mut text = String::from_str(alloc, "final field ")?;
    text.push_str(class.as_str())?;
    text.push_str(".")?;
    text.push_str(field.as_str())?;
    Ok(text)
}

/// The field with a number.
fn field_with(world: &World, f: FieldId) -> Option<Member>
    requires { f.0 < all_fields world.now }
    ensures field { result ≡ option_and_then (words.placed_field world.now) (owners.field_owner world.now f) }
    ensures there { IfSome result (IsFieldThere world.now) }
{
    let (owner, at) = world.field_owner(f);
    match world.class(owner).fields().get(at) {
        Some(field) => Some(Member {
            owner,
            at,
            flags: field.flags,
        }),
        None => None,
    }
}

/// The method with a number.
pub fn method_with(world: &World, m: MethodId) -> Option<Member>
    requires { m.0 < all_methods world.now }
    ensures method { result ≡ option_and_then (words.placed_method world.now) (owners.method_owner world.now m) }
    ensures there { IfSome result (IsMethodThere world.now) }
{
    let (owner, at) = world.method_owner(m);
    match world.class(owner).methods().get(at) {
        Some(method) => Some(Member {
            owner,
            at,
            flags: method.flags,
        }),
        None => None,
    }
}
