//! Arrays of references (JVMS 6.5, `aastore`, `anewarray`).

ghost use Rattle.std.specs.Prelude.{◌≡◌, ◌≤◌, List, Some, IsErrOf, IsSome};
ghost use Rattle.jl_logic.specs.Counts.{Rose};
ghost use Rattle.jl_tree.specs.Files.{File};
ghost use Rattle.jl_heap.specs.Frames.{top_of};
ghost use Rattle.jl_loads.specs.Ends.{Asks};
ghost use Rattle.jl_loads.specs.Worlds.{IsClass};
ghost use Rattle.jl_link.specs.Laws.{Onward};
ghost use Rattle.jl_link.specs.There.{IsTargetThere};
ghost use Rattle.jl_objops.specs.Outcomes.{Does, Finds, Halts, IsRow};
ghost use Rattle.std.specs.Prelude.{Ok, OnOk};
ghost use Rattle.jl_heap.specs.Heap.{shape_at};
ghost use Rattle.jl_objops.specs.Arrays as words;
ghost use Rattle.jl_objops.specs.Objects.{Makes};

use crate::caller::Caller;
use crate::halt::{Halt, end_of, ended, no_member, stopped, throws};
use crate::objects::allocated;
use crate::referring::refer;
use crate::texts::type_text;
use crate::types::{Fit, loader_of, takes, type_of, type_of_target};
use jl_heap::{Element, Heap, RowEnd, Shape, Store, Value};
use jl_link::{Target, World, decided_stays};
use jl_loads::read_once;
use jl_ops::{Elements, Stop, array_with, index_in, int_under, ref_under};
use jl_prim::{ErrorKind, ObjRef};
use jl_tree::Tree;
use std::alloc::Global;

/// Whether an array of such elements may keep an object, or the error that names the class of the object.
fn keeps_object(
    alloc: Global,
    world: &World,
    heap: &Heap,
    e: Element,
    o: ObjRef,
) -> Result<(), Halt>
    ensures { Finds (words.kept_in world.now e (shape_at heap.now o)) result }
{
    if !heap.has(o) {
        return Err(no_member());
    }
    let x = type_of(heap.shape(o));
    if takes(world, Fit::Cast, e, x)? {
        return Ok(());
    }
    match type_text(alloc, world, x) {
        Ok(text) => Err(throws(alloc, ErrorKind::ArrayStoreException, text.as_str())),
        Err(_) => Err(Halt::NoMemory),
    }
}

/// A new array of so many elements, where there is a type of elements and the count is not negative.
fn array_made(store: &mut Store, count: i32, t: Option<Element>) -> Result<ObjRef, Halt>
    ensures made { Makes (words.array_new store.old count t) store.old result store.new }
    ensures frames { OnOk result (store.new.frames ≡ store.old.frames) }
{
    let Some(element) = t else {
        return Err(no_member());
    };
    if count < 0 {
        return Err(Halt::Stop(Stop::Negative(count)));
    }
    let len = count.unsigned_abs();
    allocated(store, Shape::Array { element, len })
}

/// Whether an array of such elements may keep a reference, or the error that names the class of the object.
fn may_keep(
    alloc: Global,
    world: &World,
    heap: &Heap,
    e: Element,
    v: Option<ObjRef>,
) -> Result<(), Halt>
    ensures { Finds (words.may_keep world.now heap.now e v) result }
{
    match v {
        Some(o) => keeps_object(alloc, world, heap, e, o),
        None => Ok(()),
    }
}

/// Takes an array, an index and a reference, sets the element, and goes on at the next place.
pub fn reference_stored(
    alloc: Global,
    world: &World,
    store: &mut Store,
    next: u32,
) -> Result<(), Halt>
    requires { IsSome (top_of store.old.frames) }
    ensures { Does (words.reference_stored next world.now store.old) store.old result store.new }
{
    let v = stopped(ref_under(&store.frames, 0))?;
    let at = stopped(int_under(&store.frames, 1))?;
    let o = stopped(ref_under(&store.frames, 2))?;
    let array = match array_with(&store.heap, o, Elements::References) {
        Ok(array) => array,
        Err(stop) => return Err(Halt::Stop(stop)),
    };
    let i = match index_in(array, at) {
        Ok(i) => i,
        Err(stop) => return Err(Halt::Stop(stop)),
    };
    may_keep(alloc, world, &store.heap, array.element, v)?;
    store.heap.set_slot(array.object, i, Value::Ref(v));
    store.frames.pop();
    store.frames.pop();
    store.frames.pop();
    store.frames.set_pc(next);
    Ok(())
}

/// What `anewarray` does once the class of the elements is resolved.
fn array_done(
    alloc: Global,
    world: &World,
    store: &mut Store,
    caller: Caller,
    next: u32,
    target: &Target,
) -> Result<(), Halt>
    requires there { IsTargetThere world.now target.now }
    requires caller { IsClass world.now caller.class }
    requires frame { IsSome (top_of store.old.frames) }
    ensures { Does (words.array_taken next store.old caller world.now target.now) store.old result store.new }
{
    let count = stopped(int_under(&store.frames, 0))?;
    let t = type_of_target(alloc, world, loader_of(world, caller.class), target)?;
    let o = array_made(store, count, t)?;
    store.frames.pop();
    store.frames.put(Value::Ref(Some(o)));
    store.frames.set_pc(next);
    Ok(())
}

/// Makes an array of the elements that the entry at an index names, and goes on at the next place.
pub fn array_row<T: Tree>(
    alloc: Global,
    tree: &mut T,
    world: &mut World,
    store: &mut Store,
    caller: Caller,
    index: u16,
    next: u32,
    at: u64,
) -> RowEnd
    requires frame { IsSome (top_of store.old.frames) }
    requires caller { IsClass world.old caller.class }
    ensures row { (files : List File) → T.files tree.old ≡ Some files → IsRow (words.array_row files at world.old store.old caller index next) store.old result world.new store.new }
    ensures onward { Onward world.old world.new }
    ensures asks { Asks world.old world.new (T.asked tree.old) (T.asked tree.new) }
    ensures same_files { T.files tree.new ≡ T.files tree.old }
    ensures counts { T.faults tree.old ≤ T.faults tree.new }
    ensures read_fault { result ≡ RowEnd.ReadFault → Rose (T.faults tree.old) (T.faults tree.new) }
{
    read_once();
    decided_stays();
    if let Err(stop) = int_under(&store.frames, 0) {
        return end_of(alloc, Halt::Stop(stop));
    }
    let target = match refer(world, tree, caller.class, index, at) {
        Ok(target) => target,
        Err(end) => return end,
    };
    let done = array_done(alloc, world, store, caller, next, &target);
    ended(alloc, done)
}
