//! The heap (JVMS 2.5.3).

ghost use Rattle.std.specs.Prelude.{◌≡◌, ◌↔◌, ◌<◌, ◌≤◌, ◌+◌, [], length, IfOk, IsErrOf, IsSome, IsTrue, OnErr, OnOk, Some, map, slice_get, false, not};
ghost use Rattle.jl_prim.specs.declared.numbers.ObjRef.{ObjRef};
ghost use Rattle.jl_heap.specs.declared.value.Value.{Value};
ghost use Rattle.jl_heap.specs.declared.ends.HeapEnd.TheVariants.{Full};
ghost use Rattle.jl_heap.specs.Heap.{HeapState, next_number, is_full, with_object, with_changed, with_slot, with_mirror, with_text, with_listed, slot_at, object_at, shape_at, kinds_in, units_at, items_at, mirror_at, begun_by};
ghost use Rattle.jl_heap.specs.Laws.{SlotsFit};
ghost use Rattle.jl_heap.specs.Objects.{shape_slots, text_slots, slot_kinds, slot_count};
ghost use Rattle.jl_heap.specs.Objects as objects;
ghost use Rattle.jl_heap.specs.Values.{kind_of, first_value};

use crate::ends::{HeapEnd, StoreEnd};
use crate::shape::{Mirror, Object, Shape, element_kind, shape_slots, text_slots};
use crate::value::{Kind, Value, push_first};
use jl_prim::{Items, MOST_HEAP_SLOTS, ObjRef};
use std::alloc::Global;
use std::marker::Model;

/// All objects made so far, numbered from 1 in the order of making, and the slots that they took. Nothing is
/// given back. Contracts see the list of the objects and the number of the slots.
#[derive(Drop)]
pub struct Heap {
    objects: Vec<Object>,
    used: u64,
}

impl Model for Heap {
    ghost use Rattle.std.specs.Prelude.{◌≤◌, All, vec_len};
    ghost use Rattle.jl_heap.specs.Heap.{HeapState};
    ghost use Rattle.jl_heap.specs.Objects.{FitsShape};

    ghost Value = { HeapState };

    ghost view = { λ h. record { objects = h.objects.items; used = h.used } };

    // Each object took a slot at least, their numbers fit, and each has the slots of its shape.
    ghost invariant = { λ h. (vec_len h.objects ≤ h.used) × (vec_len h.objects ≤ 4294967295) × All FitsShape h.objects.items };
}

impl Heap {
    /// No object.
    pub(crate) fn new(alloc: Global) -> Heap
        ensures { result ≡ record { objects = []; used = 0 } }
    {
        Heap {
            objects: Vec::new(alloc),
            used: 0,
        }
    }

    /// Makes an object, whose slots begin with zero or null. It has the next number. Full exactly where the
    /// slots would pass the limit; a refusal changes nothing.
    pub fn alloc(&mut self, shape: Shape) -> Result<ObjRef, HeapEnd>
        ensures full { IsErrOf result Full ↔ IsTrue (is_full self.old (shape_slots shape)) }
        ensures number { IfOk result (λ o. o ≡ next_number self.old) }
        ensures made { OnOk result (self.new ≡ with_object shape self.old) }
        ensures refused { OnErr result (self.new ≡ self.old) }
    {
        let slots = shape_slots(&shape);
        if self.is_full(slots) {
            return Err(HeapEnd::Full);
        }
        Ok(self.make(shape, slots)?)
    }

    /// Makes an object whatever the limit is. It counts, and has the next number.
    pub fn start(&mut self, shape: Shape) -> Result<ObjRef, StoreEnd>
        requires { length self.old.objects < 4294967295 }
        ensures number { IfOk result (λ o. o ≡ next_number self.old) }
        ensures made { OnOk result (self.new ≡ with_object shape self.old) }
        ensures refused { OnErr result (self.new ≡ self.old) }
    {
        let slots = shape_slots(&shape);
        self.make(shape, slots)
    }

    /// Whether there is room for so many more slots.
    pub fn has_room(&self, slots: u64) -> bool
        ensures { result ≡ not (is_full self.now slots) }
    {
        !self.is_full(slots)
    }

    /// Whether so many more slots pass the limit.
    fn is_full(&self, slots: u64) -> bool
        ensures full { result ≡ is_full self.now slots }
        // An object takes one at least, so that where there is room their numbers fit.
        ensures few { result ≡ false → 0 < slots → length self.now.objects < 4294967295 }
    {
        slots > MOST_HEAP_SLOTS || self.used > MOST_HEAP_SLOTS - slots
    }

    #[tactic(auto, using(crate::proofs::Fitting::all_with_object))]
    fn make(&mut self, shape: Shape, slots: u64) -> Result<ObjRef, StoreEnd>
        requires few { length self.old.objects < 4294967295 }
        requires slots { slots ≡ shape_slots shape }
        ensures number { IfOk result (λ o. o ≡ next_number self.old) }
        ensures made { OnOk result (self.new ≡ with_object shape self.old) }
        ensures refused { OnErr result (self.new ≡ self.old) }
    {
        let slots_of_it = first_slots(*self.objects.allocator(), &shape)?;
        self.objects.push(Object {
            shape,
            slots: slots_of_it,
        })?;
        self.used = self.used.saturating_add(slots);
        Ok(ObjRef(self.objects.len() as u32))
    }

    /// Whether there is an object with this number.
    pub fn has(&self, o: ObjRef) -> bool
        ensures { IsTrue result ↔ IsSome (object_at self.now o) }
    {
        0 < o.0 && o.0 as usize <= self.objects.len()
    }

    /// How many objects there are.
    pub fn count(&self) -> u32
        ensures { result ≡ length self.now.objects }
    {
        self.objects.len() as u32
    }

    /// What an object is: also how many slots it has, and of which kinds.
    #[tactic(auto, using(crate::proofs::Fitting::kinds_there, crate::proofs::Fitting::count_there))]
    pub fn shape(&self, o: ObjRef) -> &Shape
        requires { IsSome (object_at self.now o) }
        ensures shape { shape_at self.now o ≡ Some result.now }
        ensures count { length (kinds_in self.now o) ≡ slot_count result.now }
        ensures kinds { kinds_in self.now o ≡ slot_kinds result.now }
    {
        &self.objects[o.0 as usize - 1].shape
    }

    /// The value in a slot of an object: of a field, an element, or an item of a list.
    #[tactic(auto, using(crate::proofs::Fitting::slot_there))]
    pub fn slot(&self, o: ObjRef, at: usize) -> Value
        requires { at < length (kinds_in self.now o) }
        ensures value { slot_at self.now o at ≡ Some result }
        ensures kind { slice_get (kinds_in self.now o) at ≡ Some (kind_of result) }
    {
        self.objects[o.0 as usize - 1].values()[at]
    }

    /// The value in a slot of an object. None where there is no such object, or it has no such slot.
    #[tactic(auto, using(crate::proofs::Fitting::slot_kind))]
    pub fn get(&self, o: ObjRef, at: usize) -> Option<Value>
        ensures value { result ≡ slot_at self.now o at }
        ensures kind { (v : Value) → slot_at self.now o at ≡ Some v → slice_get (kinds_in self.now o) at ≡ Some (kind_of v) }
    {
        if !self.has(o) {
            return None;
        }
        self.objects[o.0 as usize - 1].values().get(at).copied()
    }

    /// Sets a slot of an object to a value of the slot's kind.
    #[tactic(auto, using(crate::proofs::Fitting::slot_there))]
    pub fn set_slot(&mut self, o: ObjRef, at: usize, v: Value)
        requires { slice_get (kinds_in self.old o) at ≡ Some (kind_of v) }
        ensures set { self.new ≡ with_changed o (with_slot at v) self.old }
        ensures kinds { (p : ObjRef) → kinds_in self.new p ≡ kinds_in self.old p }
    {
        self.objects[o.0 as usize - 1].set_slot(at, v);
    }

    /// Has a mirror stand for something else. Its slots stay as they are.
    #[tactic(auto, using(crate::proofs::Changing::set_is_change, crate::proofs::Fitting::all_with_mirror))]
    pub fn set_mirror(&mut self, o: ObjRef, what: Mirror)
        requires { IsSome (mirror_at self.old o) }
        ensures { self.new ≡ with_changed o (with_mirror what) self.old }
    {
        self.objects[o.0 as usize - 1].set_mirror(what);
    }

    /// Adds units at the end of a text. Full exactly where the slots that they begin would pass the limit; a
    /// refusal changes nothing.
    #[tactic(auto, using(crate::proofs::Changing::set_is_change, crate::proofs::Fitting::all_with_units))]
    pub fn append(&mut self, o: ObjRef, units: &[u16]) -> Result<(), HeapEnd>
        requires { IsSome (units_at self.old o) }
        ensures full { IsErrOf result Full ↔ IsTrue (is_full self.old (begun_by self.old o units.now)) }
        ensures added { OnOk result (self.new ≡ with_text o units.now self.old) }
        ensures refused { OnErr result (self.new ≡ self.old) }
    {
        let slots = self.begun(o, units);
        if self.is_full(slots) {
            return Err(HeapEnd::Full);
        }
        self.objects[o.0 as usize - 1].append(units)?;
        self.used = self.used.saturating_add(slots);
        Ok(())
    }

    /// Adds an item at the end of a list. Full exactly where its slot would pass the limit; a refusal changes
    /// nothing.
    #[tactic(auto, using(crate::proofs::Changing::set_is_change, crate::proofs::Fitting::all_with_item))]
    pub fn append_item(&mut self, o: ObjRef, v: Value) -> Result<(), HeapEnd>
        requires { IsSome (items_at self.old o) }
        ensures full { IsErrOf result Full ↔ IsTrue (is_full self.old 1) }
        ensures added { OnOk result (self.new ≡ with_listed o v self.old) }
        ensures refused { OnErr result (self.new ≡ self.old) }
    {
        if self.is_full(1) {
            return Err(HeapEnd::Full);
        }
        self.objects[o.0 as usize - 1].append_item(v)?;
        self.used = self.used.saturating_add(1);
        Ok(())
    }

    /// Says that each object has the slots of its shape.
    #[tactic(auto, using(crate::proofs::Fitting::fits_numbered))]
    pub fn slots_fit(&self)
        ensures { SlotsFit self.now }
    {
        let _ = &self.objects;
    }

    /// The slots that so many more units of a text begin.
    fn begun(&self, o: ObjRef, units: &[u16]) -> u64
        requires { IsSome (units_at self.now o) }
        ensures { result ≡ begun_by self.now o units.now }
    {
        self.objects[o.0 as usize - 1].begun(units)
    }
}

/// The slots of fields or elements with which an object of a shape begins.
fn first_slots(alloc: Global, shape: &Shape) -> Result<Items<Value>, StoreEnd>
    ensures { IfOk result (λ slots. slots ≡ objects.first_slots shape.now) }
{
    match shape {
        Shape::Object { fields, .. } => first_fields(alloc, fields.as_slice()),
        Shape::Array { element, len } => {
            let first = element_kind(*element).first_value();
            Ok(Items::from_vec(vec![in alloc; first; *len as usize]?))
        }
        _ => Ok(Items::new(alloc)),
    }
}

fn first_fields(alloc: Global, fields: &[Kind]) -> Result<Items<Value>, StoreEnd>
    ensures { IfOk result (λ slots. slots ≡ map first_value fields.now) }
{
    let mut slots = Vec::with_capacity(alloc, fields.len())?;
    push_first(&mut slots, fields)?;
    Ok(Items::from_vec(slots))
}
