//! References, selection and nests of a world (JVMS 5.4.3, 5.4.4, 5.4.6).

ghost use Rattle.std.specs.Prelude.{◌≡◌, ◌≤◌, ◌<◌, List, ℕ, Some, length, IfErr, IfOk, IsErrOf};
ghost use Rattle.jl_logic.specs.Counts.{Rose};
ghost use Rattle.jl_tree.specs.Files.{File};
ghost use Rattle.jl_loads.specs.declared.slot.PoolSlot.TheVariants.{Passed};
ghost use Rattle.jl_loads.specs.Ends.{Asks, IsNotRead, Leaves};
ghost use Rattle.jl_loads.specs.Worlds.{IsClass, IsMethodOf, Keeps, all_methods, row_of, slot_at};
ghost use Rattle.jl_link.specs.Laws.{Onward};
ghost use Rattle.jl_link.specs.Nests as nests;
ghost use Rattle.jl_link.specs.Nests.{IsSilent};
ghost use Rattle.jl_link.specs.References as references;
ghost use Rattle.jl_link.specs.Selection as selection;
ghost use Rattle.jl_link.specs.Standing.{IsHost};

use crate::references::resolve;
use crate::world::{World, laws};
use crate::{nests, selection};
use jl_loads::{LinkEnd, Target};
use jl_prim::{ClassId, MethodId};
use jl_tree::Tree;

impl World {
    /// What a reference of a class refers to, at a step: the target or the error that was decided, or else what is
    /// found now, which is kept. The index is that of a class, a field, a method or an interface's method in the pool
    /// of the class. `ReadFault` comes only where the count of the tree's faults rose; it and want of memory are not
    /// kept.
    pub fn resolve_ref<T: Tree>(
        &mut self,
        tree: &mut T,
        d: ClassId,
        index: u16,
        at: u64,
    ) -> Result<Target, LinkEnd>
        requires class { IsClass self.old d }
        requires within { index < length (row_of self.old d) }
        ensures resolves { (files : List File) → T.files tree.old ≡ Some files → Leaves (references.resolve files at self.old d index) result self.new }
        ensures passed { IfOk result (λ t. slot_at self.new d index ≡ Passed t) }
        ensures onward { Onward self.old self.new }
        ensures asks { Asks self.old self.new (T.asked tree.old) (T.asked tree.new) }
        ensures same_files { T.files tree.new ≡ T.files tree.old }
        ensures counts { T.faults tree.old ≤ T.faults tree.new }
        ensures read_fault { IsErrOf result LinkEnd.ReadFault → Rose (T.faults tree.old) (T.faults tree.new) }
    {
        resolve(&mut self.loads, tree, d, index, at)
    }

    /// The method that is called of an object of a class, for a method of instances that was resolved.
    pub fn select(&self, class: ClassId, method: MethodId) -> Result<MethodId, LinkEnd>
        requires class { IsClass self.now class }
        requires method { method.0 < all_methods self.now }
        ensures selects { (owner : ClassId) (at : ℕ) → IsMethodOf self.now method owner at → Leaves (selection.select self.now class owner at) result self.now }
        ensures there { IfOk result (λ m. m.0 < all_methods self.now) }
        ensures not_read { IfErr result IsNotRead }
    {
        selection::select(&self.loads, class, method)
    }

    /// The host of a class's nest: the class that it names, which its own loader loads at a step, or the class itself.
    /// No error of that load is thrown. `ReadFault` comes only where the count of the tree's faults rose.
    #[tactic(auto, using(crate::proofs::WorldStands::stand_keeps))]
    pub fn host_of<T: Tree>(
        &mut self,
        tree: &mut T,
        c: ClassId,
        at: u64,
    ) -> Result<ClassId, LinkEnd>
        requires { IsClass self.old c }
        ensures hosts { (files : List File) → T.files tree.old ≡ Some files → IfOk result (λ h. (self.new, h) ≡ nests.host_of files at self.old c) }
        ensures found { IfOk result (IsHost self.new c) }
        ensures there { IfOk result (IsClass self.new) }
        ensures silent { IfErr result IsSilent }
        ensures keeps { Keeps self.old self.new }
        ensures asks { Asks self.old self.new (T.asked tree.old) (T.asked tree.new) }
        ensures same_files { T.files tree.new ≡ T.files tree.old }
        ensures counts { T.faults tree.old ≤ T.faults tree.new }
        ensures read_fault { IsErrOf result LinkEnd.ReadFault → Rose (T.faults tree.old) (T.faults tree.new) }
    {
        laws(&self.loads);
        nests::host_of(&mut self.loads, tree, c, at)
    }
}
