//! What objects are made of.

ghost use Rattle.std.specs.Prelude.{◌≡◌, ◌<◌, length, OnOk, OnErr};
ghost use Rattle.jl_heap.specs.Heap as heap;
ghost use Rattle.jl_heap.specs.Objects as objects;

use crate::value::{Kind, Value};
use jl_names::{CopyEnd, Units};
use jl_prim::{
    ClassId, ConfigId, FieldId, Items, LayerId, LoaderId, MethodId, ModuleId, ObjRef, PushEnd,
};

/// What an array's elements are in the end: values of a primitive type, or objects of a class.
#[derive(Clone, Copy, Debug, PartialEq, Eq, Hash)]
pub enum Base {
    /// The primitive type with this letter in descriptors (JVMS 4.3.2).
    Prim(u8),
    Class(ClassId),
}

/// The type of an array's elements, which may be arrays themselves.
#[derive(Clone, Copy, Debug, PartialEq, Eq, Hash)]
pub struct Element {
    pub base: Base,
    /// The dimensions of the element, 0 where it is no array.
    pub dims: u8,
}

/// What a reflective object stands for.
#[derive(Clone, Copy, Debug, PartialEq, Eq, Hash)]
pub enum Mirror {
    Class(Element),
    Module(ModuleId),
    Layer(LayerId),
    Config(ConfigId),
    Loader(LoaderId),
    Control(LayerId),
    /// A field, and whether it was made accessible.
    Field(FieldId, bool),
    /// A method or a constructor, and whether it was made accessible.
    Method(MethodId, bool),
    /// An iterator over an object, and how many it has given.
    Iter(ObjRef, u32),
}

/// What an object is, and what it holds besides slots.
#[derive(Debug, Drop)]
pub enum Shape {
    /// An instance of a class, with the kinds of its fields.
    Object { class: ClassId, fields: Items<Kind> },
    Array { element: Element, len: u32 },
    Text { class: ClassId, units: Units },
    List { class: ClassId, items: Items<Value> },
    Mirror { class: ClassId, what: Mirror },
}

/// An object: its shape, and the slots of its fields or elements. The slots of a list are its items.
#[derive(Debug, Drop)]
pub struct Object {
    pub shape: Shape,
    pub slots: Items<Value>,
}

/// The kind of an array's elements. Floats and doubles hold nothing here.
pub fn element_kind(element: Element) -> Kind
    ensures { result ≡ objects.element_kind element }
{
    if element.dims > 0 {
        return Kind::Ref;
    }
    match element.base {
        Base::Class(_) => Kind::Ref,
        Base::Prim(b'J') => Kind::Long,
        Base::Prim(b'F' | b'D') => Kind::Top,
        Base::Prim(_) => Kind::Int,
    }
}

/// The slots that so many units of a text take: one for each four begun.
pub fn text_slots(units: usize) -> u64
    ensures { result ≡ objects.text_slots units }
{
    units.div_ceil(4) as u64
}

/// The slots of the heap that an object of a shape takes.
pub fn shape_slots(shape: &Shape) -> u64
    ensures slots { result ≡ objects.shape_slots shape.now }
    ensures some { 0 < result }
{
    match shape {
        Shape::Object { fields, .. } => 1 + fields.as_slice().len() as u64,
        Shape::Array { len, .. } => 1 + u64::from(*len),
        Shape::Text { units, .. } => 1 + text_slots(units.as_slice().len()),
        Shape::List { items, .. } => 1 + items.as_slice().len() as u64,
        Shape::Mirror { what, .. } => 1 + mirror_slots(*what),
    }
}

/// The slots that a mirror takes besides its own: one for a reflected member.
fn mirror_slots(what: Mirror) -> u64
    ensures { result ≡ objects.mirror_slots what }
{
    match what {
        Mirror::Field(_, _) | Mirror::Method(_, _) => 1,
        _ => 0,
    }
}

impl Object {
    /// The values in the slots.
    pub(crate) fn values(&self) -> &[Value]
        ensures { result.now ≡ objects.slots_of self.now }
    {
        match &self.shape {
            Shape::List { items, .. } => items.as_slice(),
            _ => self.slots.as_slice(),
        }
    }

    /// Sets a slot: of a field, an element, or an item of a list.
    pub(crate) fn set_slot(&mut self, at: usize, v: Value)
        requires { at < length (objects.slots_of self.old) }
        ensures { self.new ≡ heap.with_slot at v self.old }
    {
        match &mut self.shape {
            Shape::List { items, .. } => items.set(at, v),
            _ => self.slots.set(at, v),
        }
    }

    /// Has a mirror stand for something else.
    pub(crate) fn set_mirror(&mut self, what: Mirror)
        ensures { self.new ≡ heap.with_mirror what self.old }
    {
        if let Shape::Mirror { what: place, .. } = &mut self.shape {
            *place = what;
        }
    }

    /// Adds units at the end of a text.
    pub(crate) fn append(&mut self, units: &[u16]) -> Result<(), CopyEnd>
        ensures added { OnOk result (self.new ≡ heap.with_units units.now self.old) }
        ensures refused { OnErr result (self.new ≡ self.old) }
    {
        match &mut self.shape {
            Shape::Text { units: text, .. } => text.append(units),
            _ => Ok(()),
        }
    }

    /// Adds an item at the end of a list.
    pub(crate) fn append_item(&mut self, v: Value) -> Result<(), PushEnd>
        ensures added { OnOk result (self.new ≡ heap.with_item v self.old) }
        ensures refused { OnErr result (self.new ≡ self.old) }
    {
        match &mut self.shape {
            Shape::List { items, .. } => items.push(v),
            _ => Ok(()),
        }
    }

    /// The slots that more units at the end of a text begin.
    pub(crate) fn begun(&self, units: &[u16]) -> u64
        ensures { result ≡ heap.begun_in self.now units.now }
    {
        match &self.shape {
            Shape::Text { units: text, .. } => {
                let len = text.as_slice().len();
                text_slots(len + units.len()) - text_slots(len)
            }
            _ => 0,
        }
    }
}
