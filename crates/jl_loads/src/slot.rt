//! What references of a class were decided to mean (JVMS 5.4.3).

ghost use Rattle.std.specs.Prelude.{◌≡◌, ◌<◌, IfOk, length, replicate, slice_set};
ghost use Rattle.jl_loads.specs.declared.slot.PoolSlot.TheVariants.{Empty};

use jl_names::Units;
use jl_prim::{ClassId, ErrorKind, FieldId, Items, MethodId, Name};
use std::alloc::{AllocError, Global};
use std::marker::Model;

/// What a reference refers to. An array class is named by its descriptor.
#[derive(Debug, PartialEq, Eq, Drop)]
pub enum Target {
    Class(ClassId),
    Array(Name),
    Field(FieldId),
    Method(MethodId),
}

/// What stands at an index of a class's pool: nothing yet, what the reference refers to, or the error that it throws.
#[derive(Debug, PartialEq, Eq, Drop)]
pub enum PoolSlot {
    Empty,
    Passed(Target),
    Failed(ErrorKind, Option<Units>),
}

/// The slots of a class, one for each index of its pool.
#[derive(Drop)]
pub struct Slots {
    slots: Items<PoolSlot>,
}

impl Model for Slots {
    ghost use Rattle.std.specs.Prelude.{List};
    ghost use Rattle.jl_loads.specs.declared.slot.PoolSlot.{PoolSlot};

    ghost Value = { List PoolSlot };

    ghost view = { λ s. s.slots };
}

impl Slots {
    /// The slots of a class whose pool has so many indices, with nothing decided.
    pub(crate) fn blank(alloc: Global, length: usize) -> Result<Slots, AllocError>
        ensures { IfOk result (λ s. s ≡ replicate length Empty) }
    {
        let slots = empty_slots(alloc, length)?;
        Ok(Slots {
            slots: Items::from_vec(slots),
        })
    }

    /// The slots in order.
    pub(crate) fn as_slice(&self) -> &[PoolSlot]
        ensures { result.now ≡ self.now }
    {
        self.slots.as_slice()
    }

    /// Decides what stands at an index.
    pub(crate) fn set(&mut self, index: usize, slot: PoolSlot)
        requires { index < length self.old }
        ensures { self.new ≡ slice_set self.old index slot }
    {
        self.slots.set(index, slot);
    }
}

/// So many slots with nothing.
fn empty_slots(alloc: Global, length: usize) -> Result<Vec<PoolSlot>, AllocError>
    ensures { IfOk result (λ slots. slots.items ≡ replicate length Empty) }
{
    let mut slots = Vec::with_capacity(alloc, length)?;
    for _ in 0..length {
        slots.push(PoolSlot::Empty)?;
    }
    Ok(slots)
}
