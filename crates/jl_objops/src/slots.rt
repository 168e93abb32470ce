//! Where the fields of objects and classes are (JVMS 2.4, 2.5.3).

ghost use Rattle.std.specs.Prelude.{◌≡◌, ◌≤◌, ◌<◌, ◌*◌, ◌++◌, ◌∷◌, [], Ok, length, map, take, not, filter};
ghost use Rattle.std.specs.List.{sum};
ghost use Rattle.jl_class.specs.declared.member.FieldDecl.{FieldDecl};
ghost use Rattle.jl_class.specs.Meaning.{is_static};
ghost use Rattle.jl_loads.specs.Worlds.{IsClass, fields_of, line_by, super_of};
ghost use Rattle.jl_link.specs.Selection.{class_name};
ghost use Rattle.jl_link.specs.Members.{IsFieldThere};
ghost use Rattle.jl_objops.specs.Fields as words;
ghost use Rattle.jl_objops.specs.Outcomes.{Does};

use crate::fields::kind_of_text;
use crate::halt::Halt;
use crate::types::has_class;
use jl_class::{FieldDecl, is_static};
use jl_heap::Kind;
use jl_link::{Member, World, is_sound};
use jl_prim::ClassId;
use std::alloc::Global;

static THROWABLE: [Kind; 3] = [Kind::Ref, Kind::Ref, Kind::Ref];

static ENUM: [Kind; 2] = [Kind::Ref, Kind::Int];

static LONG: [Kind; 1] = [Kind::Long];

static INT: [Kind; 1] = [Kind::Int];

static REFERENCE: [Kind; 1] = [Kind::Ref];

/// The fields of objects that a class of `java.base` has beside those that it declares, by its name.
pub fn hidden(name: &str) -> &'static [Kind]
    ensures { result.now ≡ words.hidden name.now }
{
    if name == "java/lang/Throwable" {
        return &THROWABLE;
    }
    if name == "java/lang/Enum" {
        return &ENUM;
    }
    if name == "java/lang/Long" {
        return &LONG;
    }
    if is_int_box(name) {
        return &INT;
    }
    if name == "java/util/Optional" {
        return &REFERENCE;
    }
    &[]
}

fn is_int_box(name: &str) -> bool
    ensures { result ≡ words.is_int_box name.now }
{
    name == "java/lang/Integer"
        || name == "java/lang/Short"
        || name == "java/lang/Byte"
        || name == "java/lang/Character"
        || name == "java/lang/Boolean"
}

/// How many of some fields are static.
fn statics_in(fields: &[FieldDecl]) -> usize
    ensures { result ≡ length (filter (λ (f : FieldDecl). is_static f.flags) fields.now) }
{
    fields.iter().filter(|field| is_static(field.flags)).count()
}

/// How many of some fields are those of objects.
fn declared_in(fields: &[FieldDecl]) -> usize
    ensures count { result ≡ length (words.object_fields fields.now) }
    ensures few { result ≤ length fields.now }
{
    fields
        .iter()
        .filter(|field| !is_static(field.flags))
        .count()
}

/// The place of a static field among those of its class.
pub fn static_place(world: &World, m: Member) -> usize
    requires { IsFieldThere world.now m }
    ensures { result ≡ words.static_place world.now m }
{
    statics_in(&world.class(m.owner).fields()[..m.at])
}

/// How many slots an object has by a class itself.
fn own_count(world: &World, c: ClassId) -> usize
    ensures count { result ≡ words.own_count world.now c }
    ensures few { result < 65540 }
{
    is_sound(world);
    if !has_class(world, c) {
        return 0;
    }
    let class = world.class(c);
    hidden(class.name().as_str()).len() + declared_in(class.fields())
}

/// How many slots an object has by a class and so many of its superclasses.
fn count_up(world: &World, most: u32, c: Option<ClassId>) -> usize
    ensures few { result ≤ most * 65540 }
    ensures count { result ≡ sum (map (words.own_count world.now) (line_by most world.now c)) }
{
    let mut count = 0;
    let mut left = most;
    let mut next = c;
    while let Some(here) = next {
        if left == 0 {
            return count;
        }
        count += own_count(world, here);
        next = super_of(world, here);
        left -= 1;
    }
    count
}

/// How many fields of objects a class declares before a field.
fn fields_before(world: &World, m: Member) -> usize
    requires { IsFieldThere world.now m }
    ensures count { result ≡ length (words.object_fields (take m.at (fields_of world.now m.owner))) }
    ensures few { result < 65536 }
{
    is_sound(world);
    declared_in(&world.class(m.owner).fields()[..m.at])
}

/// The hidden fields of objects of a class.
fn hidden_of(world: &World, c: ClassId) -> &'static [Kind]
    requires { IsClass world.now c }
    ensures kinds { result.now ≡ words.hidden (class_name world.now c) }
    ensures few { length result.now < 4 }
{
    hidden(world.class(c).name().as_str())
}

/// The place of a field among the slots of an object.
pub fn object_place(world: &World, m: Member) -> usize
    requires { IsFieldThere world.now m }
    ensures { result ≡ words.object_place world.now m }
{
    let above = slots_above(world, m.owner);
    above + hidden_of(world, m.owner).len() + fields_before(world, m)
}

/// How many slots an object has by the superclasses of a class.
#[tactic(auto, using(crate::proofs::Lines::line_above))]
fn slots_above(world: &World, c: ClassId) -> usize
    requires { IsClass world.now c }
    ensures count { result ≡ words.slots_above world.now c }
    ensures few { result ≤ 4294967295 * 65540 }
{
    count_up(world, c.0 - 1, world.super_of(c))
}

/// The superclass of a class.
pub fn super_of(world: &World, c: ClassId) -> Option<ClassId>
    ensures { result ≡ super_of world.now c }
{
    if has_class(world, c) {
        world.super_of(c)
    } else {
        None
    }
}

/// Adds the kinds of the slots that an object has by a class itself.
pub fn push_own(kinds: &mut Vec<Kind>, world: &World, c: ClassId) -> Result<(), Halt>
    requires { IsClass world.now c }
    ensures { Does (Ok (kinds.old.items ++ words.own_kinds world.now c)) kinds.old.items result kinds.new.items }
{
    kinds.extend_from_slice(hidden_of(world, c))?;
    push_fields(kinds, world, c)
}

/// Adds the kinds of the fields of objects that a class declares.
fn push_fields(kinds: &mut Vec<Kind>, world: &World, c: ClassId) -> Result<(), Halt>
    requires { IsClass world.now c }
    ensures { Does (Ok (kinds.old.items ++ words.declared (fields_of world.now c))) kinds.old.items result kinds.new.items }
{
    push_declared(kinds, world.class(c).fields())
}

/// Adds the kinds of those of some fields that are fields of objects.
fn push_declared(kinds: &mut Vec<Kind>, fields: &[FieldDecl]) -> Result<(), Halt>
    ensures { Does (Ok (kinds.old.items ++ words.declared fields.now)) kinds.old.items result kinds.new.items }
{
    let alloc = *kinds.allocator();
    for field in fields {
        push_kind(alloc, kinds, field)?;
    }
    Ok(())
}

/// Adds the kind of a field, where it is a field of objects.
fn push_kind(alloc: Global, kinds: &mut Vec<Kind>, field: &FieldDecl) -> Result<(), Halt>
    ensures { Does (Ok (kinds.old.items ++ words.declared (field.now ∷ []))) kinds.old.items result kinds.new.items }
{
    if is_static(field.flags) {
        return Ok(());
    }
    kinds.push(kind_of_text(alloc, &field.desc)?)?;
    Ok(())
}
