//! The statics of classes (JVMS 2.5.4, 5.5).

ghost use Rattle.std.specs.Prelude.{◌≡◌, ℕ, [], None, ◌<◌, vec_len, map, IfOk, OnOk, IsSome, OnErr, Some};
ghost use Rattle.jl_heap.specs.Values.{kind_of, first_value};
ghost use Rattle.std.specs.Option.{option_copied};
ghost use Rattle.jl_heap.specs.Placing.{kept_at, place_of};
ghost use Rattle.jl_heap.specs.Statics.{entry_of, with_class, with_changed_class, with_usable, with_static, is_usable, static_at};
ghost use Rattle.jl_heap.specs.declared.value.Value.{Value};

use crate::ends::StaticsEnd;
use crate::value::{Kind, Value, push_first};
use jl_prim::{ClassId, Items};
use std::alloc::Global;
use std::marker::Model;

/// Which tasks may use a class.
#[derive(Clone, Copy, Debug, PartialEq, Eq)]
pub enum Usable {
    /// None: it was not initialized, or its initialization failed.
    No,
    /// The task that runs its initialization.
    By(u32),
    /// All: it is ready.
    All,
}

/// What is entered of a class: who may use it, and the values of its static fields.
#[derive(Debug, Drop)]
pub struct StaticEntry {
    pub usable: Usable,
    pub values: Items<Value>,
}

/// The statics of the classes that were entered. Contracts see the list of the classes with their entries, in
/// the order in which they were entered.
#[derive(Drop)]
pub struct Statics {
    entries: Vec<(ClassId, StaticEntry)>,
    places: Vec<Option<usize>>,
}

impl Model for Statics {
    ghost use Rattle.std.specs.Prelude.{List};
    ghost use Rattle.jl_prim.specs.declared.numbers.ClassId.{ClassId};
    ghost use Rattle.jl_heap.specs.declared.statics.StaticEntry.{StaticEntry};
    ghost use Rattle.jl_heap.specs.Placing.{KeepsPlaces};

    ghost Value = { List (ClassId × StaticEntry) };

    ghost view = { λ s. s.entries.items };

    ghost invariant = { λ s. KeepsPlaces s.places.items s.entries.items };
}

impl Statics {
    /// No class.
    pub(crate) fn new(alloc: Global) -> Statics
        ensures { result ≡ [] }
    {
        Statics {
            entries: Vec::new(alloc),
            places: Vec::new(alloc),
        }
    }

    /// Enters a class, not one that was entered before: of each static field the kind is given, and no task may use
    /// the class so far. Without memory nothing has changed.
    #[tactic(auto, using(crate::proofs::Placing::places_entered, crate::proofs::Placing::places_as_before))]
    pub fn admit(&mut self, class: ClassId, kinds: Items<Kind>) -> Result<(), StaticsEnd>
        requires { entry_of self.old class ≡ None }
        ensures entered { OnOk result (self.new ≡ with_class class kinds self.old) }
        ensures refused { OnErr result (self.new ≡ self.old) }
    {
        let alloc = *self.entries.allocator();
        let values = first_values(alloc, kinds.as_slice())?;
        let entry = StaticEntry {
            usable: Usable::No,
            values,
        };
        self.entries.reserve(1)?;
        let number = class.0 as usize;
        reach(&mut self.places, number)?;
        self.places[number] = Some(self.entries.len());
        self.entries.push_reserved((class, entry));
        Ok(())
    }

    /// Whether a task may use a class, which may not where the class is not entered.
    pub fn usable(&self, class: ClassId, task: u32) -> bool
        ensures { result ≡ is_usable (entry_of self.now class) task }
    {
        match self.entry(class) {
            Some(entry) => match entry.usable {
                Usable::No => false,
                Usable::By(one) => one == task,
                Usable::All => true,
            },
            None => false,
        }
    }

    /// Says who may use a class.
    #[tactic(auto, using(crate::proofs::Placing::place_within, crate::proofs::Placing::place_missing))]
    pub fn set_usable(&mut self, class: ClassId, to: Usable)
        requires { IsSome (entry_of self.old class) }
        ensures { self.new ≡ with_changed_class class (with_usable to) self.old }
    {
        match self.place(class) {
            Some(place) => self.entries[place].1.usable = to,
            None => unreachable!(),
        }
    }

    /// The value of a static field, by its place among those of its class. None where the class is not entered, or has no
    /// such place.
    pub fn get(&self, c: ClassId, at: usize) -> Option<Value>
        ensures { result ≡ static_at self.now c at }
    {
        match self.entry(c) {
            Some(entry) => entry.values.as_slice().get(at).copied(),
            None => None,
        }
    }

    /// The value of a static field, by its place among those of its class.
    pub fn value(&self, c: ClassId, at: usize) -> Value
        requires { (v : Value) × (static_at self.now c at ≡ Some v) }
        ensures { static_at self.now c at ≡ Some result }
    {
        match self.entry(c) {
            Some(entry) => entry.values.as_slice()[at],
            None => unreachable!(),
        }
    }

    /// Sets a static field to a value of its kind.
    #[tactic(auto, using(crate::proofs::Placing::place_within, crate::proofs::Placing::place_missing))]
    pub fn set_value(&mut self, c: ClassId, at: usize, v: Value)
        requires { (w : Value) × (static_at self.old c at ≡ Some w) × (kind_of w ≡ kind_of v) }
        ensures { self.new ≡ with_changed_class c (with_static at v) self.old }
    {
        match self.place(c) {
            Some(place) => self.entries[place].1.values.set(at, v),
            None => unreachable!(),
        }
    }

    /// What is entered of a class.
    #[tactic(auto, using(crate::proofs::Placing::place_within, crate::proofs::Placing::entry_there, crate::proofs::Placing::place_missing))]
    fn entry(&self, c: ClassId) -> Option<&StaticEntry>
        ensures { option_copied result ≡ entry_of self.now c }
    {
        match self.place(c) {
            Some(place) => Some(&self.entries[place].1),
            None => None,
        }
    }

    /// The place of a class among those that were entered.
    fn place(&self, c: ClassId) -> Option<usize>
        ensures { result ≡ place_of self.now c.0 }
    {
        match self.places.get(c.0 as usize) {
            Some(Some(place)) => Some(*place),
            _ => None,
        }
    }
}

/// Adds empty places until there is one with a number.
#[tactic(auto, using(crate::proofs::Placing::kept_pushed))]
fn reach(places: &mut Vec<Option<usize>>, number: usize) -> Result<(), StaticsEnd>
    ensures same { (n : ℕ) → kept_at places.new.items n ≡ kept_at places.old.items n }
    ensures there { OnOk result (number < vec_len places.new) }
{
    while places.len() <= number {
        places.push(None)?;
    }
    Ok(())
}

/// What fields of these kinds begin with.
fn first_values(alloc: Global, kinds: &[Kind]) -> Result<Items<Value>, StaticsEnd>
    ensures { IfOk result (λ values. values ≡ map first_value kinds.now) }
{
    let mut values = Vec::with_capacity(alloc, kinds.len())?;
    push_first(&mut values, kinds)?;
    Ok(Items::from_vec(values))
}
