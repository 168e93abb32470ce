//! A world: what has been loaded over layers of modules, and the references that were resolved.

ghost use Rattle.std.specs.Prelude.{ℕ, ◌≡◌, ◌≤◌, ◌<◌, List, Some, length, IfOk, IfSome, IsErrOf, OnErr, OnOk};
ghost use Rattle.std.specs.Str.{IsUtf8};
ghost use Rattle.jl_logic.specs.Counts.{Rose};
ghost use Rattle.jl_tree.specs.Files.{File};
ghost use Rattle.jl_layer.specs.Layers.{IsModule};
ghost use Rattle.jl_loaders.specs.Loaders.{IsLoader, lead};
ghost use Rattle.jl_loads.specs.Beginning.{IsBegin, base_packages, begun};
ghost use Rattle.jl_loads.specs.Ends.{Asks, Leaves};
ghost use Rattle.jl_loads.specs.Laws.{AreSound, IsLoadedAs};
ghost use Rattle.jl_loads.specs.Loading as loading;
ghost use Rattle.jl_loads.specs.Worlds as worlds;
ghost use Rattle.jl_loads.specs.declared.slot.PoolSlot.TheVariants.{Passed};
ghost use Rattle.jl_loads.specs.Worlds.{slot_at, IsClass, IsFieldOf, IsMethodOf, Keeps, Loaded, all_fields, all_methods, class_at, fields_of, methods_of, row_of, with_note};
ghost use Rattle.jl_link.specs.Laws.{AllStand, DecidedStays};
ghost use Rattle.jl_link.specs.Named as named;
ghost use Rattle.jl_link.specs.Owners as owners;
ghost use Rattle.jl_link.specs.There.{IsTargetThere};

use crate::law::decided_stays;
use jl_access::{FactsEnd, Key, Report};
use jl_class::ClassDecl;
use jl_layer::Layers;
use jl_loads::{FileEnd, LinkEnd, Loads, PoolSlot, Target, WorldFault};
use jl_prim::{ClassId, CopyEnd, FieldId, Items, LoaderId, MethodId, ModuleId, Name};
use jl_tree::Tree;
use std::marker::Model;
use std::rc::Rc;

/// The layers of modules, the classes that were loaded over them, what their references were decided to mean, and the
/// report of the checks.
#[derive(Drop)]
pub struct World {
    pub(crate) loads: Loads,
}

impl Model for World {
    ghost use Rattle.jl_loads.specs.Worlds.{State};
    ghost use Rattle.jl_link.specs.Laws.{AllStand};

    ghost Value = { State };

    ghost view = { λ w. w.loads };

    ghost invariant = { λ w. AllStand w.loads };
}

impl World {
    /// The layers, with the classes of `java.base`, which are defined in this order, and with no check noted.
    #[tactic(auto, using(crate::proofs::WorldStands::begun_stand))]
    pub fn new(layers: Layers, base: Items<ClassDecl>) -> Result<World, WorldFault>
        requires boot { 0 < length layers.layers }
        requires begin { IsBegin (base_packages layers) base }
        ensures { IfOk result (λ w. w ≡ begun layers base) }
    {
        Ok(World {
            loads: Loads::new(layers, base)?,
        })
    }

    /// A loader loads the class with a name, at a step.
    ///
    /// A class that is defined answers at once. Else the name is led to a module, the class is made by its file there,
    /// and its supertypes are loaded and accessed before it is defined. What was defined and noted before an error stays.
    /// `ReadFault` comes only where the count of the tree's faults rose.
    #[tactic(auto, using(crate::proofs::WorldStands::stand_keeps))]
    pub fn load<T: Tree>(
        &mut self,
        tree: &mut T,
        loader: LoaderId,
        name: &[u8],
        at: u64,
    ) -> Result<ClassId, LinkEnd>
        requires text { IsUtf8 name.now }
        requires loader { IsLoader self.old.layers.loaders loader }
        ensures loads { (files : List File) → T.files tree.old ≡ Some files → Leaves (loading.load files at self.old loader name.now) result self.new }
        ensures there { IfOk result (IsClass self.new) }
        ensures found { IfOk result (λ c. IsLoadedAs self.new loader name.now c) }
        ensures keeps { Keeps self.old self.new }
        ensures asks { Asks self.old self.new (T.asked tree.old) (T.asked tree.new) }
        ensures same_files { T.files tree.new ≡ T.files tree.old }
        ensures counts { T.faults tree.old ≤ T.faults tree.new }
        ensures read_fault { IsErrOf result LinkEnd.ReadFault → Rose (T.faults tree.old) (T.faults tree.new) }
    {
        laws(&self.loads);
        self.loads.load(tree, loader, name, at)
    }

    /// Whether the module that a loader leads the name of a class to has the file of the class, and is not
    /// `java.base`; a file that is too long counts. Nothing is loaded. `ReadFault` comes only where the count of the
    /// tree's faults rose.
    #[tactic(auto, using(crate::proofs::WorldStands::stand_keeps))]
    pub fn has_file<T: Tree>(
        &mut self,
        tree: &mut T,
        loader: LoaderId,
        name: &[u8],
    ) -> Result<bool, FileEnd>
        requires text { IsUtf8 name.now }
        requires loader { IsLoader self.old.layers.loaders loader }
        ensures answers { (files : List File) → T.files tree.old ≡ Some files → IfOk result (λ there. (self.new, there) ≡ loading.has_file files self.old loader name.now) }
        ensures keeps { Keeps self.old self.new }
        ensures classes { self.new.classes ≡ self.old.classes }
        ensures report { self.new.report ≡ self.old.report }
        ensures slots { self.new.slots ≡ self.old.slots }
        ensures asks { Asks self.old self.new (T.asked tree.old) (T.asked tree.new) }
        ensures same_files { T.files tree.new ≡ T.files tree.old }
        ensures counts { T.faults tree.old ≤ T.faults tree.new }
        ensures read_fault { IsErrOf result FileEnd.ReadFault → Rose (T.faults tree.old) (T.faults tree.new) }
    {
        laws(&self.loads);
        self.loads.has_file(tree, loader, name)
    }

    /// Notes a check in the report, at a step. Without memory all is as before.
    #[tactic(auto, using(crate::proofs::WorldStands::stand_noted))]
    pub fn note(&mut self, key: Key, step: u64) -> Result<(), FactsEnd>
        ensures noted { OnOk result (self.new ≡ with_note key step self.old) }
        ensures before { OnErr result (self.new ≡ self.old) }
    {
        laws(&self.loads);
        self.loads.note(key, step)
    }

    /// The class that a loader has defined with a name.
    pub fn defined(&self, l: LoaderId, name: &str) -> Result<Option<ClassId>, CopyEnd>
        ensures class { IfOk result (λ c. c ≡ worlds.defined self.now l name.now) }
        ensures there { IfOk result (λ c. IfSome c (IsClass self.now)) }
    {
        let name = Name::from_text(self.loads.allocator(), name)?;
        Ok(self.loads.defined(l, name))
    }

    /// The class that a loader has loaded under a name, itself or through the loader to which it leads.
    pub fn loaded_as(&self, l: LoaderId, name: &[u8]) -> Result<Option<ClassId>, CopyEnd>
        requires text { IsUtf8 name.now }
        requires loader { IsLoader self.now.layers.loaders l }
        ensures class { IfOk result (λ c. c ≡ named.loaded_as self.now l name.now) }
        ensures there { IfOk result (λ c. IfSome c (IsClass self.now)) }
    {
        match self.lead(l, name) {
            Some(m) => match str::from_utf8(name) {
                Ok(name) => self.defined(self.layers().loader_of_module(m), name),
                Err(_) => unreachable!(),
            },
            None => Ok(None),
        }
    }

    /// The module to which a loader leads a name.
    fn lead(&self, l: LoaderId, name: &[u8]) -> Option<ModuleId>
        requires { IsLoader self.now.layers.loaders l }
        ensures leads { result ≡ lead self.now.layers.loaders l name.now }
        ensures there { IfSome result (IsModule self.now.layers) }
    {
        let layers = self.layers();
        jl_layer::are_sound(layers);
        jl_layer::leads_by_layers(layers);
        layers.loaders().lead(l, name)
    }

    /// The layers.
    pub fn layers(&self) -> &Layers
        ensures { result.now ≡ self.now.layers }
    {
        self.loads.layers()
    }

    /// The report of the checks.
    pub fn report(&self) -> &Report
        ensures { result.now ≡ self.now.report }
    {
        self.loads.report()
    }

    /// How many classes are defined. The first that was defined has number 1, the next 2, and so on.
    pub fn classes(&self) -> u32
        ensures { result ≡ length self.now.classes }
    {
        self.loads.classes()
    }

    /// What the file of a class declares.
    pub fn class(&self, c: ClassId) -> &Rc<ClassDecl>
        requires { IsClass self.now c }
        ensures { IfSome (class_at self.now c) (λ x. result.now.value ≡ x.declared) }
    {
        self.loads.class(c)
    }

    /// The defining loader of a class.
    pub fn loader_of(&self, c: ClassId) -> LoaderId
        requires { IsClass self.now c }
        ensures { IfSome (class_at self.now c) (λ x. result ≡ x.loader) }
    {
        self.loads.loader_of(c)
    }

    /// The module of a class.
    pub fn module_of(&self, c: ClassId) -> ModuleId
        requires { IsClass self.now c }
        ensures { IfSome (class_at self.now c) (λ x. result ≡ x.home) }
    {
        self.loads.module_of(c)
    }

    /// The direct superclass of a class.
    pub fn super_of(&self, c: ClassId) -> Option<ClassId>
        requires { IsClass self.now c }
        ensures { result ≡ worlds.super_of self.now c }
    {
        self.loads.super_of(c)
    }

    /// The direct superinterfaces of a class.
    pub fn interfaces_of(&self, c: ClassId) -> &[ClassId]
        requires { IsClass self.now c }
        ensures { result.now ≡ worlds.interfaces_of self.now c }
    {
        self.loads.interfaces_of(c)
    }

    /// The superinterfaces of a class, in the order in which methods are looked up.
    pub fn superinterfaces(&self, c: ClassId) -> &[ClassId]
        requires { IsClass self.now c }
        ensures { result.now ≡ worlds.superinterfaces self.now c }
    {
        self.loads.superinterfaces(c)
    }

    /// Whether a class is another one, or has it among its superclasses and superinterfaces at any depth.
    pub fn is_subtype(&self, c: ClassId, d: ClassId) -> bool
        ensures { result ≡ worlds.is_subtype self.now c d }
    {
        self.loads.is_subtype(c, d)
    }

    /// Whether a class is another one, or one of its subclasses.
    pub fn is_subclass(&self, c: ClassId, d: ClassId) -> bool
        ensures { result ≡ worlds.is_subclass self.now c d }
    {
        self.loads.is_subclass(c, d)
    }

    /// What is decided of the references of a class, by the indices of its pool.
    pub fn pool_of(&self, c: ClassId) -> &[PoolSlot]
        requires { IsClass self.now c }
        ensures row { result.now ≡ row_of self.now c }
        ensures pool { IfSome (class_at self.now c) (λ x. length result.now ≡ length x.declared.pool) }
    {
        self.loads.pool_of(c)
    }

    /// The number of a field of a class.
    pub fn field_id(&self, c: ClassId, at: usize) -> FieldId
        requires class { IsClass self.now c }
        requires within { at < length (fields_of self.now c) }
        ensures number { result ≡ worlds.field_id self.now c at }
        ensures there { result.0 < all_fields self.now }
    {
        self.loads.field_id(c, at)
    }

    /// The class of a field, and its place there.
    pub fn field_owner(&self, f: FieldId) -> (ClassId, usize)
        requires { f.0 < all_fields self.now }
        ensures owner { IsFieldOf self.now f result.0 result.1 }
        ensures found { owners.field_owner self.now f ≡ Some result }
    {
        self.loads.field_owner(f)
    }

    /// The number of a method of a class.
    pub fn method_id(&self, c: ClassId, at: usize) -> MethodId
        requires class { IsClass self.now c }
        requires within { at < length (methods_of self.now c) }
        ensures number { result ≡ worlds.method_id self.now c at }
        ensures there { result.0 < all_methods self.now }
    {
        self.loads.method_id(c, at)
    }

    /// The class of a method, and its place there.
    pub fn method_owner(&self, m: MethodId) -> (ClassId, usize)
        requires { m.0 < all_methods self.now }
        ensures owner { IsMethodOf self.now m result.0 result.1 }
        ensures found { owners.method_owner self.now m ≡ Some result }
    {
        self.loads.method_owner(m)
    }
}

/// Says that all references of a world stand: each that passed refers to its target, and each class of which something
/// is decided is there.
pub fn all_stand(w: &World)
    ensures { AllStand w.now }
{
    let _ = &w.loads;
}

/// Says that what a reference refers to is there.
#[tactic(auto, using(crate::proofs::Targets::target_there))]
pub fn targets_are_there(w: &World)
    ensures { (d : ClassId) (i : ℕ) (t : Target) → slot_at w.now d i ≡ Passed t → IsTargetThere w.now t }
{
    all_stand(w);
    is_sound(w);
}

/// Says that what is loaded is sound.
pub fn is_sound(w: &World)
    ensures { AreSound w.now }
{
    jl_loads::is_sound(&w.loads);
}

/// What is loaded is sound, and what was decided stays.
pub(crate) fn laws(loads: &Loads)
    ensures sound { AreSound loads.now }
    ensures stays { DecidedStays }
{
    jl_loads::is_sound(loads);
    decided_stays();
}
