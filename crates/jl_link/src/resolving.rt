//! Resolving the class entry of a class, once for all (JVMS 5.4.3, 5.4.3.1).

ghost use Rattle.std.specs.Prelude.{◌≡◌, ◌≤◌, ◌<◌, [], List, None, Some, length, unwrap_or, IfOk, IsErrOf, ℕ};
ghost use Rattle.jl_logic.specs.Counts.{Rose};
ghost use Rattle.jl_tree.specs.Files.{File};
ghost use Rattle.jl_pool.specs.Pool.{member_of};
ghost use Rattle.jl_code.specs.References.{class_text};
ghost use Rattle.jl_loads.specs.declared.slot.PoolSlot.TheVariants.{Empty, Passed};
ghost use Rattle.jl_loads.specs.Ends.{Asks, Leaves};
ghost use Rattle.jl_loads.specs.Worlds.{IsClass, Keeps, Loaded, class_at, row_of, slot_at};
ghost use Rattle.jl_link.specs.Laws.{AllStand, Onward};
ghost use Rattle.jl_link.specs.References as references;
ghost use Rattle.jl_link.specs.Standing.{NamesTarget};

use crate::arrays::class_by_text;
use crate::entry::class_text_at;
use crate::keeping::{answer_of, settle, slot_of};
use crate::law::decided_stays;
use jl_loads::{LinkEnd, Loads, Target, is_sound, read_once};
use jl_prim::ClassId;
use jl_tree::Tree;

/// What the class entry at an index of a class refers to: the answer that is kept, or one that is found and kept now.
pub fn resolve_class<T: Tree>(
    loads: &mut Loads,
    tree: &mut T,
    d: ClassId,
    index: u16,
    at: u64,
) -> Result<Target, LinkEnd>
    requires class { IsClass loads.old d }
    requires within { index < length (row_of loads.old d) }
    requires named { (from : Loaded) → class_at loads.old d ≡ Some from → member_of from.declared.pool index ≡ None }
    ensures finds { (files : List File) (from : Loaded) → T.files tree.old ≡ Some files → class_at loads.old d ≡ Some from → Leaves (references.resolve_class files at loads.old d from index) result loads.new }
    ensures passed { IfOk result (λ t. slot_at loads.new d index ≡ Passed t) }
    ensures others { (i : ℕ) → (i ≡ index → ⊥) → slot_at loads.old d i ≡ Empty → slot_at loads.new d i ≡ Empty }
    ensures onward { Onward loads.old loads.new }
    ensures stand { AllStand loads.old → AllStand loads.new }
    ensures asks { Asks loads.old loads.new (T.asked tree.old) (T.asked tree.new) }
    ensures same_files { T.files tree.new ≡ T.files tree.old }
    ensures counts { T.faults tree.old ≤ T.faults tree.new }
    ensures read_fault { IsErrOf result LinkEnd.ReadFault → Rose (T.faults tree.old) (T.faults tree.new) }
{
    decided_stays();
    read_once();
    match answer_of(slot_of(loads, d, index)) {
        Some(answer) => answer,
        None => decide_class(loads, tree, d, index, at),
    }
}

/// A class entry that is not decided: what is found is kept.
fn decide_class<T: Tree>(
    loads: &mut Loads,
    tree: &mut T,
    d: ClassId,
    index: u16,
    at: u64,
) -> Result<Target, LinkEnd>
    requires class { IsClass loads.old d }
    requires within { index < length (row_of loads.old d) }
    requires named { (from : Loaded) → class_at loads.old d ≡ Some from → member_of from.declared.pool index ≡ None }
    requires free { slot_at loads.old d index ≡ Empty }
    ensures finds { (files : List File) (from : Loaded) → T.files tree.old ≡ Some files → class_at loads.old d ≡ Some from → Leaves (references.resolve_class files at loads.old d from index) result loads.new }
    ensures passed { IfOk result (λ t. slot_at loads.new d index ≡ Passed t) }
    ensures others { (i : ℕ) → (i ≡ index → ⊥) → slot_at loads.old d i ≡ Empty → slot_at loads.new d i ≡ Empty }
    ensures onward { Onward loads.old loads.new }
    ensures stand { AllStand loads.old → AllStand loads.new }
    ensures asks { Asks loads.old loads.new (T.asked tree.old) (T.asked tree.new) }
    ensures same_files { T.files tree.new ≡ T.files tree.old }
    ensures counts { T.faults tree.old ≤ T.faults tree.new }
    ensures read_fault { IsErrOf result LinkEnd.ReadFault → Rose (T.faults tree.old) (T.faults tree.new) }
{
    decided_stays();
    read_once();
    is_sound(loads);
    let found = class_anew(loads, tree, d, index, at);
    is_sound(loads);
    settle(loads, d, index, found)
}

/// The class entry at an index of a class, resolved anew.
pub fn class_anew<T: Tree>(
    loads: &mut Loads,
    tree: &mut T,
    d: ClassId,
    index: u16,
    at: u64,
) -> Result<Target, LinkEnd>
    requires { IsClass loads.old d }
    ensures finds { (files : List File) (from : Loaded) → T.files tree.old ≡ Some files → class_at loads.old d ≡ Some from → Leaves (references.class_anew files at loads.old from index) result loads.new }
    ensures names { (from : Loaded) → class_at loads.old d ≡ Some from → IfOk result (NamesTarget loads.new from (unwrap_or (class_text from.declared.pool index) [])) }
    ensures keeps { Keeps loads.old loads.new }
    ensures asks { Asks loads.old loads.new (T.asked tree.old) (T.asked tree.new) }
    ensures same_files { T.files tree.new ≡ T.files tree.old }
    ensures counts { T.faults tree.old ≤ T.faults tree.new }
    ensures read_fault { IsErrOf result LinkEnd.ReadFault → Rose (T.faults tree.old) (T.faults tree.new) }
{
    read_once();
    match class_text_at(loads, d, index) {
        Ok(text) => class_by_text(loads, tree, d, &text, at),
        Err(_) => Err(LinkEnd::NoMemory),
    }
}
