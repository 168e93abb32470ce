//! The instruction at which the top frame stands (JVMS 2.6, 6.5).

ghost use Rattle.std.specs.Prelude.{◌≡◌, ◌≤◌, List, Some, IfSome, IsSome, IsTrue};
ghost use Rattle.jl_logic.specs.Counts.{Rose};
ghost use Rattle.jl_tree.specs.Files.{File};
ghost use Rattle.jl_heap.specs.Frames.{top_of};
ghost use Rattle.jl_loads.specs.Ends.{Asks};
ghost use Rattle.jl_loads.specs.Worlds.{IsClass};
ghost use Rattle.jl_link.specs.Laws.{Onward};
ghost use Rattle.jl_objops.specs.Outcomes.{IsRow};
ghost use Rattle.jl_objops.specs.Rows as words;

use crate::caller::Caller;
use crate::decoding::row_of;
use crate::executing::exec_row;
use jl_code::{Code, Instr};
use jl_heap::{FrameKind, RowEnd, Store};
use jl_link::World;
use jl_ops::{instr_at, next_place};
use jl_tree::Tree;
use std::alloc::Global;

/// The method of the top frame.
fn caller_on_top(world: &World, store: &Store) -> Caller
    requires frame { IsSome (top_of store.now.frames) }
    requires method { IsSome (words.caller_on_top world.now store.now) }
    ensures caller { words.caller_on_top world.now store.now ≡ Some result }
    ensures there { IsClass world.now result.class }
{
    match store.frames.kind() {
        FrameKind::Method(m) => {
            let (class, place) = world.method_owner(m);
            Caller { class, place }
        }
        FrameKind::Init(_) | FrameKind::Enter(_) => unreachable!(),
    }
}

/// Executes the instruction of the code at which the top frame stands, at a step (JVMS 6.5).
///
/// `Next` where it goes on: the frame then stands at the next instruction. `Throws` an error, `Needs` a class that has to be
/// usable first, or `Stuck` where an operand is not of the kind that is wanted: then the store is as it was, and the world
/// has no more than what the reference added. `ReadFault` comes only where the count of the tree's faults rose; after it
/// and after `NoMemory` nothing is said of world and store.
pub fn exec_object<T: Tree>(
    alloc: Global,
    tree: &mut T,
    world: &mut World,
    store: &mut Store,
    code: &Code,
    at: u64,
) -> RowEnd
    requires frame { IsSome (top_of store.old.frames) }
    requires method { IsSome (words.caller_on_top world.old store.old) }
    requires row { IsSome (words.object_row_under code.now store.old) }
    ensures row { (files : List File) → T.files tree.old ≡ Some files → IfSome (words.row_under files at world.old store.old code.now) (λ said. IsRow said store.old result world.new store.new) }
    ensures onward { Onward world.old world.new }
    ensures asks { Asks world.old world.new (T.asked tree.old) (T.asked tree.new) }
    ensures same_files { T.files tree.new ≡ T.files tree.old }
    ensures counts { T.faults tree.old ≤ T.faults tree.new }
    ensures read_fault { result ≡ RowEnd.ReadFault → Rose (T.faults tree.old) (T.faults tree.new) }
{
    let caller = caller_on_top(world, store);
    match instr_at(code, store.frames.pc()) {
        Some(instr) => match row_of(instr) {
            Some(row) => exec_row(
                alloc,
                tree,
                world,
                store,
                caller,
                row,
                next_place(instr),
                at,
            ),
            None => unreachable!(),
        },
        None => unreachable!(),
    }
}
