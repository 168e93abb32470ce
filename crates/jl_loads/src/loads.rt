//! What has been loaded over layers of modules.

ghost use Rattle.std.specs.Prelude.{◌≡◌, ◌<◌, List, Some, length, IfSome, OnErr, OnOk};
ghost use Rattle.jl_layer.specs.Layers.{IsModule};
ghost use Rattle.jl_loaders.specs.Loaders.{IsLoader};
ghost use Rattle.jl_loads.specs.Laws.{AreSound};
ghost use Rattle.jl_loads.specs.Worlds.{Loaded, IsClass, class_at, interfaces_of, row_of, super_of, with_note, with_slot};

use crate::class::Class;
use crate::class_key::ClassKey;
use crate::kept::Kept;
use crate::rank::Rank;
use crate::slot::{PoolSlot, Slots};
use indexmap::IndexMap;
use jl_access::{FactsEnd, Key, Report};
use jl_class::ClassDecl;
use jl_layer::Layers;
use jl_prim::{ClassId, LoaderId, ModuleId, Name};
use std::alloc::Global;
use std::marker::Model;
use std::rc::Rc;

/// The layers of modules, the classes that were loaded over them, and the report of the checks.
#[derive(Drop)]
pub struct Loads {
    pub(crate) layers: Layers,
    pub(crate) base: ModuleId,
    pub(crate) classes: Vec<Class>,
    pub(crate) names: IndexMap<ClassKey, ClassId>,
    pub(crate) report: Report,
    pub(crate) slots: Vec<Slots>,
    pub(crate) kept: IndexMap<Name, Kept>,
    pub(crate) ranks: Vec<Rank>,
}

impl Model for Loads {
    ghost use Rattle.jl_loads.specs.Worlds.{State};
    ghost use Rattle.jl_loads.specs.Whole.{IsWhole};

    ghost Value = { State };

    ghost view = { λ w. record { layers = w.layers; classes = w.classes.items; report = w.report; slots = w.slots.items; kept = w.kept.entries } };

    ghost invariant = { λ w. IsWhole w.names.entries w.ranks.items w.base (record { layers = w.layers; classes = w.classes.items; report = w.report; slots = w.slots.items; kept = w.kept.entries }) };
}

impl Loads {
    /// The layers.
    pub fn layers(&self) -> &Layers
        ensures { result.now ≡ self.now.layers }
    {
        &self.layers
    }

    /// The report of the checks.
    pub fn report(&self) -> &Report
        ensures { result.now ≡ self.now.report }
    {
        &self.report
    }

    /// How many classes are defined. The first that was defined has number 1, the next 2, and so on.
    pub fn classes(&self) -> u32
        ensures { result ≡ length self.now.classes }
    {
        self.classes.len() as u32
    }

    /// What the file of a class declares.
    pub fn class(&self, c: ClassId) -> &Rc<ClassDecl>
        requires { IsClass self.now c }
        ensures { IfSome (class_at self.now c) (λ x. result.now.value ≡ x.declared) }
    {
        self.class_at(c).declared()
    }

    /// The defining loader of a class.
    pub fn loader_of(&self, c: ClassId) -> LoaderId
        requires { IsClass self.now c }
        ensures loader { IfSome (class_at self.now c) (λ x. result ≡ x.loader) }
        ensures there { IsLoader self.now.layers.loaders result }
    {
        self.class_at(c).loader()
    }

    /// The module of a class.
    pub fn module_of(&self, c: ClassId) -> ModuleId
        requires { IsClass self.now c }
        ensures home { IfSome (class_at self.now c) (λ x. result ≡ x.home) }
        ensures there { IsModule self.now.layers result }
    {
        self.class_at(c).home()
    }

    /// The direct superclass of a class.
    pub fn super_of(&self, c: ClassId) -> Option<ClassId>
        requires { IsClass self.now c }
        ensures class { result ≡ super_of self.now c }
        ensures there { IfSome result (IsClass self.now) }
    {
        self.stay_sound();
        self.class_at(c).superclass()
    }

    /// The direct superinterfaces of a class, in order.
    pub fn interfaces_of(&self, c: ClassId) -> &[ClassId]
        requires { IsClass self.now c }
        ensures { result.now ≡ interfaces_of self.now c }
    {
        self.class_at(c).interfaces()
    }

    /// What is decided of the references of a class, by the indices of its pool (JVMS 5.4.3).
    pub fn pool_of(&self, c: ClassId) -> &[PoolSlot]
        requires { IsClass self.now c }
        ensures row { result.now ≡ row_of self.now c }
        ensures pool { IfSome (class_at self.now c) (λ x. length result.now ≡ length x.declared.pool) }
    {
        self.stay_sound();
        self.slots[c.0 as usize - 1].as_slice()
    }

    /// Decides a reference of a class (JVMS 5.4.3).
    pub fn fill(&mut self, c: ClassId, index: u16, slot: PoolSlot)
        requires class { IsClass self.old c }
        requires within { index < length (row_of self.old c) }
        ensures { self.new ≡ with_slot c index slot self.old }
    {
        self.stay_sound();
        self.slots[c.0 as usize - 1].set(index as usize, slot);
    }

    /// Notes a check in the report, at a step. Without memory all is as before.
    pub fn note(&mut self, key: Key, step: u64) -> Result<(), FactsEnd>
        ensures noted { OnOk result (self.new ≡ with_note key step self.old) }
        ensures before { OnErr result (self.new ≡ self.old) }
    {
        self.report.note(key, step)
    }

    /// Nothing: what is loaded is sound at any time.
    pub(crate) fn stay_sound(&self)
        ensures { AreSound self.now }
    {
        let _ = &self.base;
    }

    /// The class with a number, whose loader and module are there.
    pub(crate) fn class_at(&self, c: ClassId) -> &Class
        requires { IsClass self.now c }
        ensures class { class_at self.now c ≡ Some result.now }
        ensures module { IsModule self.now.layers result.now.home }
        ensures loader { IsLoader self.now.layers.loaders result.now.loader }
    {
        self.stay_sound();
        self.numbered(c)
    }

    /// The class with a number.
    fn numbered(&self, c: ClassId) -> &Class
        requires { IsClass self.now c }
        ensures { class_at self.now c ≡ Some result.now }
    {
        &self.classes[c.0 as usize - 1]
    }

    /// Where memory comes from.
    pub fn allocator(&self) -> Global {
        *self.classes.allocator()
    }
}
