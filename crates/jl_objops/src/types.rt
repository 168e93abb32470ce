//! Types of references and of objects (JVMS 4.3.2, 6.5 `checkcast`, `aastore`).

ghost use Rattle.std.specs.Prelude.{◌≡◌, IsTrue, Ok, option_map};
ghost use Rattle.std.specs.Option.{option_and_then};
ghost use Rattle.jl_names.specs.Descriptors.{class_in, descriptor_read};
ghost use Rattle.jl_heap.specs.declared.shape.Base.TheVariants as bases;
ghost use Rattle.jl_link.specs.Named.{loaded_as};
ghost use Rattle.jl_loaders.specs.Loaders.{IsLoader};
ghost use Rattle.jl_loads.specs.Worlds.{IsClass};
ghost use Rattle.jl_objops.specs.Outcomes.{Finds};
ghost use Rattle.jl_objops.specs.Types as words;

use crate::halt::Halt;
use jl_class::is_interface;
use jl_heap::{Base, Element, Heap, Shape};
use jl_link::{Target, World, is_sound};
use jl_loads::sound_stays;
use jl_names::{BaseType, Descriptor, FieldType, TextFault, descriptor};
use jl_pool::Pool;
use jl_prim::{ClassId, LoaderId, Name, ObjRef};
use std::alloc::Global;

/// By which rules a type takes objects.
#[derive(Clone, Copy, Debug, PartialEq, Eq)]
pub enum Fit {
    /// Those of casts, and of what arrays keep.
    Cast,
    /// Those of natives of `java.base`, for which an interface is as Object.
    Native,
}

/// The type of an object: its class, of no dimension, or what an array holds in the end, and its dimensions.
#[derive(Clone, Copy, Debug, PartialEq, Eq)]
pub struct ObjectType {
    pub base: Base,
    pub dims: u16,
}

/// The class of `java.base` with a name. Number 0, which no class has, where there is none.
pub fn base_class(world: &World, name: &str) -> Result<ClassId, Halt>
    ensures { Finds (Ok (words.base_class world.now name.now)) result }
{
    match world.defined(LoaderId(1), name)? {
        Some(c) => Ok(c),
        None => Ok(ClassId(0)),
    }
}

/// The class Object.
pub fn object_class(world: &World) -> Result<ClassId, Halt>
    ensures { Finds (Ok (words.object_class world.now)) result }
{
    base_class(world, "java/lang/Object")
}

/// The type that a descriptor's type names, seen from a loader. None where its class is not loaded.
pub fn type_in(
    world: &World,
    loader: LoaderId,
    text: &Name,
    t: FieldType,
) -> Result<Option<Element>, Halt>
    requires { IsLoader world.now.layers.loaders loader }
    ensures { Finds (Ok (words.type_in world.now loader text.now t)) result }
{
    let base = match t.base {
        BaseType::Prim(letter) => Some(Base::Prim(letter)),
        BaseType::Class(_, _) => class_base(world, loader, text, t)?,
    };
    match base {
        Some(base) => Ok(Some(Element { base, dims: t.dims })),
        None => Ok(None),
    }
}

/// The type that a class reference refers to. None where it refers to no class.
pub fn type_of_target(
    alloc: Global,
    world: &World,
    loader: LoaderId,
    target: &Target,
) -> Result<Option<Element>, Halt>
    requires { IsLoader world.now.layers.loaders loader }
    ensures { Finds (Ok (words.type_of_target world.now loader target.now)) result }
{
    match target {
        Target::Class(c) => Ok(Some(Element {
            base: Base::Class(*c),
            dims: 0,
        })),
        Target::Array(text) => type_read(alloc, world, loader, text),
        Target::Field(_) | Target::Method(_) => Ok(None),
    }
}

/// The class of an object, which for an array is Object.
pub fn class_of(world: &World, shape: &Shape) -> Result<ClassId, Halt>
    ensures { Finds (Ok (words.class_of world.now shape.now)) result }
{
    match shape {
        Shape::Object { class, .. }
        | Shape::Text { class, .. }
        | Shape::List { class, .. }
        | Shape::Mirror { class, .. } => Ok(*class),
        Shape::Array { .. } => object_class(world),
    }
}

/// The type of an object.
pub fn type_of(shape: &Shape) -> ObjectType
    ensures { result ≡ words.type_of shape.now }
{
    match shape {
        Shape::Object { class, .. }
        | Shape::Text { class, .. }
        | Shape::List { class, .. }
        | Shape::Mirror { class, .. } => ObjectType {
            base: Base::Class(*class),
            dims: 0,
        },
        Shape::Array { element, .. } => ObjectType {
            base: element.base,
            dims: u16::from(element.dims) + 1,
        },
    }
}

/// Whether a type takes objects of another.
pub fn takes(world: &World, fit: Fit, t: Element, x: ObjectType) -> Result<bool, Halt>
    ensures { Finds (Ok (words.takes fit world.now t x)) result }
{
    let dims = u16::from(t.dims);
    if x.dims == dims {
        return Ok(base_takes(world, fit, t.base, x.base));
    }
    if x.dims < dims {
        return Ok(false);
    }
    base_takes_arrays(world, fit, t.base)
}

/// Whether the object with a number is one of a type.
pub fn is_instance(
    world: &World,
    heap: &Heap,
    fit: Fit,
    t: Element,
    o: ObjRef,
) -> Result<bool, Halt>
    ensures { Finds (Ok (words.is_instance fit world.now heap.now t o)) result }
{
    if !heap.has(o) {
        return Ok(false);
    }
    takes(world, fit, t, type_of(heap.shape(o)))
}

/// Whether the class with a number is there and is an interface.
pub fn is_interface_class(world: &World, c: ClassId) -> bool
    ensures { result ≡ words.is_interface_class world.now c }
{
    has_class(world, c) && is_interface(world.class(c).flags())
}

/// The loader of a class.
pub fn loader_of(world: &World, d: ClassId) -> LoaderId
    requires { IsClass world.now d }
    ensures loader { result ≡ words.loader_of world.now d }
    ensures there { IsLoader world.now.layers.loaders result }
{
    is_sound(world);
    sound_stays();
    world.loader_of(d)
}

/// Whether there is a class with this number.
pub fn has_class(world: &World, c: ClassId) -> bool
    ensures has { result ≡ words.has_class world.now c }
    ensures there { IsTrue result → IsClass world.now c }
{
    0 < c.0 && c.0 <= world.classes()
}

/// The class that a type names, seen from a loader.
fn class_base(
    world: &World,
    loader: LoaderId,
    text: &Name,
    t: FieldType,
) -> Result<Option<Base>, Halt>
    requires { IsLoader world.now.layers.loaders loader }
    ensures { Finds (Ok (option_map bases.Class (option_and_then (loaded_as world.now loader) (class_in text.now t)))) result }
{
    let Some(name) = t.class_in(text.as_bytes()) else {
        return Ok(None);
    };
    // (the name of a class in a text of characters is one)
    if str::from_utf8(name).is_err() {
        return Err(Halt::NoMemory);
    }
    match world.loaded_as(loader, name)? {
        Some(c) => Ok(Some(Base::Class(c))),
        None => Ok(None),
    }
}

/// The type that a descriptor names. None where the text is the descriptor of no field.
fn type_read(
    alloc: Global,
    world: &World,
    loader: LoaderId,
    text: &Name,
) -> Result<Option<Element>, Halt>
    requires { IsLoader world.now.layers.loaders loader }
    ensures { Finds (Ok (words.type_read world.now loader text.now (descriptor_read text.now))) result }
{
    match descriptor(alloc, text.as_bytes()) {
        Ok(Descriptor::Field(t)) => type_in(world, loader, text, t),
        Err(TextFault::NoMemory) => Err(Halt::NoMemory),
        _ => Ok(None),
    }
}

/// Whether a class takes objects of another.
fn class_takes(world: &World, fit: Fit, c: ClassId, k: ClassId) -> bool
    ensures { result ≡ words.class_takes fit world.now c k }
{
    match fit {
        Fit::Cast => world.is_subtype(k, c),
        Fit::Native => is_interface_class(world, c) || world.is_subclass(k, c),
    }
}

/// Whether a class takes every array.
fn takes_arrays(world: &World, fit: Fit, c: ClassId) -> Result<bool, Halt>
    ensures { Finds (Ok (words.takes_arrays fit world.now c)) result }
{
    let is_object = c == object_class(world)?;
    match fit {
        Fit::Cast => Ok(
            is_object
                || c == base_class(world, "java/lang/Cloneable")?
                || c == base_class(world, "java/io/Serializable")?,
        ),
        Fit::Native => Ok(is_interface_class(world, c) || is_object),
    }
}

/// Whether the base of a type takes that of another of as many dimensions.
fn base_takes(world: &World, fit: Fit, base: Base, of: Base) -> bool
    ensures { result ≡ words.base_takes fit world.now base of }
{
    match (base, of) {
        (Base::Class(c), Base::Class(k)) => class_takes(world, fit, c, k),
        (Base::Prim(a), Base::Prim(b)) => a == b,
        _ => false,
    }
}

/// Whether the base of a type takes every array.
fn base_takes_arrays(world: &World, fit: Fit, base: Base) -> Result<bool, Halt>
    ensures { Finds (Ok (words.base_takes_arrays fit world.now base)) result }
{
    match base {
        Base::Class(c) => takes_arrays(world, fit, c),
        Base::Prim(_) => Ok(false),
    }
}

/// The pool of a class.
pub fn pool_of(world: &World, d: ClassId) -> &Pool
    requires { IsClass world.now d }
    ensures { result.now ≡ words.pool_of world.now d }
{
    world.class(d).pool()
}
