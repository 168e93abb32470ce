//! What tests see of a world, as text.

ghost use Rattle.std.specs.Prelude.{◌≡◌, ◌<◌, length, IfOk};
ghost use Rattle.jl_loads.specs.Worlds.{IsClass, fields_of, methods_of};

use crate::steps::is_class;
use jl_access::Key;
use jl_link::{LinkEnd, PoolSlot, Target, World};
use jl_names::{Units, plain_text};
use jl_prim::{ClassId, ErrorKind, FieldId, MethodId};
use jl_tree::MemTree;
use std::alloc::Global;
use std::test::Fail;

/// The number that a text is.
pub fn number(text: &str) -> Result<u32, Fail> {
    Ok(text.parse()?)
}

/// A class by its name and its loader.
pub fn class_shown(alloc: Global, world: &World, c: ClassId) -> Result<String, Fail> {
    if !is_class(world, c) {
        return Err(Fail::new("no class"));
    }
    let loader = world.loader_of(c).0;
    let name = world.class(c).name().as_str();
    Ok(format!(in alloc; "{name}@{loader}")?)
}

/// The error that is thrown, with its message.
pub fn end_shown(alloc: Global, end: &LinkEnd) -> Result<String, Fail> {
    match end {
        LinkEnd::Throws(kind, message) => thrown(alloc, *kind, message),
        _ => Ok(String::from_str(alloc, "another end")?),
    }
}

fn thrown(alloc: Global, kind: ErrorKind, message: &Option<Units>) -> Result<String, Fail> {
    match message {
        None => Ok(format!(in alloc; "{kind:?}")?),
        Some(units) => {
            let text = plain_text(alloc, units.as_slice())?;
            Ok(format!(in alloc; "{kind:?} {text}")?)
        }
    }
}

/// What a reference refers to, or the error.
pub fn shown(
    alloc: Global,
    world: &World,
    answer: &Result<Target, LinkEnd>,
) -> Result<String, Fail> {
    match answer {
        Ok(target) => target_shown(alloc, world, target),
        Err(end) => end_shown(alloc, end),
    }
}

fn target_shown(alloc: Global, world: &World, target: &Target) -> Result<String, Fail> {
    match target {
        Target::Class(c) => class_shown(alloc, world, *c),
        Target::Array(text) => Ok(String::from_str(alloc, text.as_str())?),
        Target::Field(f) => field_shown(alloc, world, *f),
        Target::Method(m) => method_shown(alloc, world, *m),
    }
}

/// The method that is selected, or the error.
pub fn method_or_end(
    alloc: Global,
    world: &World,
    answer: &Result<MethodId, LinkEnd>,
) -> Result<String, Fail> {
    match answer {
        Ok(m) => method_shown(alloc, world, *m),
        Err(end) => end_shown(alloc, end),
    }
}

/// The member of a class by its name.
fn member_shown(alloc: Global, world: &World, c: ClassId, name: &str) -> Result<String, Fail> {
    let class = class_shown(alloc, world, c)?;
    Ok(format!(in alloc; "{class}.{name}")?)
}

fn field_shown(alloc: Global, world: &World, f: FieldId) -> Result<String, Fail> {
    for n in 1..=world.classes() {
        let c = ClassId(n);
        if let Some(at) = place_of_field(world, c, f)? {
            let name = field_name(world, c, at)?;
            return member_shown(alloc, world, c, name);
        }
    }
    Err(Fail::new("no field"))
}

fn method_shown(alloc: Global, world: &World, m: MethodId) -> Result<String, Fail> {
    for n in 1..=world.classes() {
        let c = ClassId(n);
        if let Some(at) = place_with_number(world, c, m)? {
            let name = method_name(world, c, at)?;
            return member_shown(alloc, world, c, name);
        }
    }
    Err(Fail::new("no method"))
}

/// The place of the field with a number, if the class has it. Each number leads back to its field.
fn place_of_field(world: &World, c: ClassId, f: FieldId) -> Result<Option<usize>, Fail> {
    if !is_class(world, c) {
        return Err(Fail::new("no class"));
    }
    for at in 0..field_count(world, c) {
        let number = world.field_id(c, at);
        if world.field_owner(number) != (c, at) {
            return Err(Fail::new("a field of another number"));
        }
        if number == f {
            return Ok(Some(at));
        }
    }
    Ok(None)
}

/// The place of the method with a number, likewise.
fn place_with_number(world: &World, c: ClassId, m: MethodId) -> Result<Option<usize>, Fail> {
    if !is_class(world, c) {
        return Err(Fail::new("no class"));
    }
    for at in 0..method_count(world, c) {
        let number = world.method_id(c, at);
        if world.method_owner(number) != (c, at) {
            return Err(Fail::new("a method of another number"));
        }
        if number == m {
            return Ok(Some(at));
        }
    }
    Ok(None)
}

fn field_count(world: &World, c: ClassId) -> usize
    requires { IsClass world.now c }
    ensures { result ≡ length (fields_of world.now c) }
{
    world.class(c).fields().len()
}

fn method_count(world: &World, c: ClassId) -> usize
    requires { IsClass world.now c }
    ensures { result ≡ length (methods_of world.now c) }
{
    world.class(c).methods().len()
}

fn field_name(world: &World, c: ClassId, at: usize) -> Result<&str, Fail> {
    if !is_class(world, c) {
        return Err(Fail::new("no class"));
    }
    match world.class(c).fields().get(at) {
        Some(field) => Ok(field.name.as_str()),
        None => Err(Fail::new("no field")),
    }
}

fn method_name(world: &World, c: ClassId, at: usize) -> Result<&str, Fail> {
    if !is_class(world, c) {
        return Err(Fail::new("no class"));
    }
    match world.class(c).methods().get(at) {
        Some(method) => Ok(method.name.as_str()),
        None => Err(Fail::new("no method")),
    }
}

/// The place of the method of a class with a name and a descriptor.
pub fn place_of_method(world: &World, c: ClassId, member: (&str, &str)) -> Result<usize, Fail>
    requires { IsClass world.now c }
    ensures { IfOk result (λ at. at < length (methods_of world.now c)) }
{
    let place = world
        .class(c)
        .method(member.0.as_bytes(), member.1.as_bytes());
    match place {
        Some(at) if at < method_count(world, c) => Ok(at),
        _ => Err(Fail::new("no method")),
    }
}

/// The superclass of a class, and behind `:` its direct superinterfaces, and behind `..` all of them.
pub fn supertypes(alloc: Global, world: &World, c: ClassId) -> Result<String, Fail>
    requires { IsClass world.now c }
{
    let above = match world.super_of(c) {
        Some(d) => class_shown(alloc, world, d)?,
        None => String::from_str(alloc, "-")?,
    };
    let direct = classes_shown(alloc, world, world.interfaces_of(c))?;
    let all = classes_shown(alloc, world, world.superinterfaces(c))?;
    Ok(format!(in alloc; "{above} :{direct} ..{all}")?)
}

fn classes_shown(alloc: Global, world: &World, classes: &[ClassId]) -> Result<String, Fail> {
    let mut all = String::new(alloc);
    for c in classes {
        let class = class_shown(alloc, world, *c)?;
        all.push_str(" ")?;
        all.push_str(class.as_str())?;
    }
    Ok(all)
}

/// The slots of a class that are filled, each behind its index.
pub fn slots(alloc: Global, world: &World, c: ClassId) -> Result<String, Fail>
    requires { IsClass world.now c }
{
    let mut all = String::new(alloc);
    for (index, slot) in world.pool_of(c).iter().enumerate() {
        if let Some(text) = slot_shown(alloc, world, slot)? {
            let one = format!(in alloc; " {index}={text}")?;
            all.push_str(one.as_str())?;
        }
    }
    Ok(format!(in alloc; "[{}]", all.as_str().trim())?)
}

fn slot_shown(alloc: Global, world: &World, slot: &PoolSlot) -> Result<Option<String>, Fail> {
    match slot {
        PoolSlot::Empty => Ok(None),
        PoolSlot::Passed(target) => Ok(Some(target_shown(alloc, world, target)?)),
        PoolSlot::Failed(kind, _) => Ok(Some(format!(in alloc; "{kind:?}")?)),
    }
}

/// The paths that the tree was asked for.
pub fn asked(alloc: Global, tree: &MemTree) -> Result<String, Fail> {
    let mut all = String::new(alloc);
    for path in tree.asked() {
        all.push_str(" ")?;
        all.push_str(path.as_str().strip_suffix(".class").unwrap_or("?"))?;
    }
    Ok(format!(in alloc; "[{}]", all.as_str().trim())?)
}

/// The lines of the report.
pub fn notes(alloc: Global, world: &World) -> Result<String, Fail> {
    let mut all = String::new(alloc);
    for i in 0..100 {
        if let Some((key, first, count)) = world.report().line(i) {
            let line = line_shown(alloc, key, first, count)?;
            all.push_str(line.as_str())?;
        }
    }
    Ok(format!(in alloc; "[{}]", all.as_str().trim())?)
}

fn line_shown(alloc: Global, key: &Key, first: u64, count: u64) -> Result<String, Fail> {
    let (kind, verdict) = (key.kind.text(), key.verdict.text());
    Ok(format!(in alloc; " {kind} {verdict} {first}x{count}")?)
}
