//! Executing one instruction that asks for classes (JVMS 6.5).

ghost use Rattle.std.specs.Prelude.{◌≡◌, ◌≤◌, List, Some, IsErrOf, IsSome};
ghost use Rattle.jl_logic.specs.Counts.{Rose};
ghost use Rattle.jl_tree.specs.Files.{File};
ghost use Rattle.jl_heap.specs.Frames.{top_of};
ghost use Rattle.jl_loads.specs.Ends.{Asks};
ghost use Rattle.jl_loads.specs.Worlds.{IsClass};
ghost use Rattle.jl_link.specs.Laws.{Onward};
ghost use Rattle.jl_objops.specs.Outcomes.{Does, Finds, Halts, IsRow};
ghost use Rattle.jl_objops.specs.Rows as words;

use crate::arrays::{array_row, reference_stored};
use crate::caller::Caller;
use crate::casts::cast_row;
use crate::constants::constant_row;
use crate::fields::field_row;
use crate::halt::ended;
use crate::objects::new_row;
use crate::row::ObjectRow;
use jl_heap::{RowEnd, Store};
use jl_link::{World, decided_stays};
use jl_loads::read_once;
use jl_tree::Tree;
use std::alloc::Global;

/// Executes a row that asks for classes, where the next instruction stands at a place.
#[tactic(auto, unfolding(crate::specs::Rows::row), using(crate::proofs::Ending::finished))]
pub fn exec_row<T: Tree>(
    alloc: Global,
    tree: &mut T,
    world: &mut World,
    store: &mut Store,
    caller: Caller,
    row: ObjectRow,
    next: u32,
    at: u64,
) -> RowEnd
    requires frame { IsSome (top_of store.old.frames) }
    requires caller { IsClass world.old caller.class }
    ensures row { (files : List File) → T.files tree.old ≡ Some files → IsRow (words.row files at world.old store.old caller row next) store.old result world.new store.new }
    ensures onward { Onward world.old world.new }
    ensures asks { Asks world.old world.new (T.asked tree.old) (T.asked tree.new) }
    ensures same_files { T.files tree.new ≡ T.files tree.old }
    ensures counts { T.faults tree.old ≤ T.faults tree.new }
    ensures read_fault { result ≡ RowEnd.ReadFault → Rose (T.faults tree.old) (T.faults tree.new) }
{
    match row {
        ObjectRow::Constant(index) => constant_row(
            alloc, tree, world, store, caller, index, next, at,
        ),
        ObjectRow::StoreReference => {
            read_once();
            decided_stays();
            let done = reference_stored(alloc, world, store, next);
            ended(alloc, done)
        }
        ObjectRow::Field(op, index) => field_row(
            alloc, tree, world, store, caller, op, index, next, at,
        ),
        ObjectRow::New(index) => new_row(alloc, tree, world, store, caller, index, next, at),
        ObjectRow::NewArray(index) => array_row(alloc, tree, world, store, caller, index, next, at),
        ObjectRow::Cast(op, index) => cast_row(
            alloc, tree, world, store, caller, op, index, next, at,
        ),
    }
}
