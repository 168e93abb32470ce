//! Casts (JVMS 6.5, `checkcast`, `instanceof`).

ghost use Rattle.std.specs.Prelude.{◌≡◌, ◌≤◌, List, Some, IsErrOf, IsSome};
ghost use Rattle.jl_logic.specs.Counts.{Rose};
ghost use Rattle.jl_tree.specs.Files.{File};
ghost use Rattle.jl_heap.specs.Frames.{top_of};
ghost use Rattle.jl_loads.specs.Ends.{Asks};
ghost use Rattle.jl_loads.specs.Worlds.{IsClass};
ghost use Rattle.jl_link.specs.Laws.{Onward};
ghost use Rattle.jl_link.specs.There.{IsTargetThere};
ghost use Rattle.jl_objops.specs.Outcomes.{Does, Finds, Halts, IsRow};
ghost use Rattle.std.specs.Prelude.{◌++◌, IfOk, Ok, codes, string_bytes};
ghost use Rattle.jl_prim.specs.declared.error_kind.ErrorKind.TheVariants as errors;
ghost use Rattle.jl_heap.specs.Frames.{height_in};
ghost use Rattle.jl_heap.specs.Heap.{shape_at};
ghost use Rattle.jl_loads.specs.Outcomes.{error};
ghost use Rattle.jl_objops.specs.Types.{as_object, type_text};
ghost use Rattle.jl_objops.specs.Outcomes.{of_thrown};
ghost use Rattle.jl_ops.specs.Operands.{popped, put, ref_under};
ghost use Rattle.jl_objops.specs.Casts as words;

use crate::caller::Caller;
use crate::halt::{Halt, end_of, ended, no_member, throws};
use crate::referring::refer;
use crate::row::CastOp;
use crate::texts::type_text;
use crate::types::{Fit, ObjectType, loader_of, takes, type_of, type_of_target};
use jl_heap::{Element, Frames, RowEnd, Store, Value};
use jl_link::{Target, World, decided_stays};
use jl_loads::read_once;
use jl_ops::ref_under;
use jl_prim::{ErrorKind, ObjRef};
use jl_tree::Tree;
use std::alloc::{AllocError, Global};

/// What the row does with an object once its class is resolved.
fn cast_done(
    alloc: Global,
    world: &World,
    store: &mut Store,
    op: CastOp,
    caller: Caller,
    next: u32,
    o: ObjRef,
    target: &Target,
) -> Result<(), Halt>
    requires there { IsTargetThere world.now target.now }
    requires caller { IsClass world.now caller.class }
    requires frame { IsSome (top_of store.old.frames) }
    requires taken { ref_under store.old.frames 0 ≡ Ok (Some o) }
    ensures { Does (words.cast_done op next store.old caller o world.now target.now) store.old result store.new }
{
    let loader = loader_of(world, caller.class);
    let Some(t) = type_of_target(alloc, world, loader, target)? else {
        return Err(no_member());
    };
    judged(alloc, world, store, op, o, t)?;
    store.frames.set_pc(next);
    Ok(())
}

/// Says of an object of a type that it is one of another, or throws the error that names both.
fn judged(
    alloc: Global,
    world: &World,
    store: &mut Store,
    op: CastOp,
    o: ObjRef,
    t: Element,
) -> Result<(), Halt>
    requires frame { IsSome (top_of store.old.frames) }
    requires taken { ref_under store.old.frames 0 ≡ Ok (Some o) }
    ensures does { Does (words.judged_at op world.now store.old t (shape_at store.old.heap o)) store.old result store.new }
    ensures frame { IsSome (top_of store.new.frames) }
{
    if !store.heap.has(o) {
        return Err(no_member());
    }
    let x = type_of(store.heap.shape(o));
    let is = takes(world, Fit::Cast, t, x)?;
    match op {
        CastOp::Check if is => Ok(()),
        CastOp::Check => Err(cast_error(alloc, world, x, t)),
        CastOp::Ask => {
            answer(&mut store.frames, is);
            Ok(())
        }
    }
}

/// Puts whether it is so in the place of the reference on top.
fn answer(frames: &mut Frames, is: bool)
    requires frame { IsSome (top_of frames.old) }
    requires taken { 1 ≤ height_in frames.old }
    ensures put { frames.new ≡ put (Value.Int (words.as_int is)) (popped frames.old) }
    ensures frame { IsSome (top_of frames.new) }
{
    frames.pop();
    frames.put(Value::Int(i32::from(is)));
}

/// What the row does with null.
fn cast_null(frames: &mut Frames, op: CastOp)
    requires frame { IsSome (top_of frames.old) }
    requires taken { 1 ≤ height_in frames.old }
    ensures put { frames.new ≡ words.null_frames op frames.old }
    ensures frame { IsSome (top_of frames.new) }
{
    match op {
        CastOp::Check => (),
        CastOp::Ask => answer(frames, false),
    }
}

/// The error of an object that is not of a type.
fn cast_error(alloc: Global, world: &World, x: ObjectType, t: Element) -> Halt
    ensures { Halts (of_thrown (error errors.ClassCastException (type_text world.now x ++ codes " to " ++ type_text world.now (as_object t)))) result }
{
    match cast_text(alloc, world, x, t) {
        Ok(text) => throws(alloc, ErrorKind::ClassCastException, text.as_str()),
        Err(_) => Halt::NoMemory,
    }
}

fn cast_text(alloc: Global, world: &World, x: ObjectType, t: Element) -> Result<String, AllocError>
    ensures { IfOk result (λ text. string_bytes text ≡ type_text world.now x ++ codes " to " ++ type_text world.now (as_object t)) }
{
    let to = ObjectType {
        base: t.base,
        dims: u16::from(t.dims),
    };
    let to = type_text(alloc, world, to)?;
    let mut text = type_text(alloc, world, x)?;
    text.push_str(" to ")?;
    text.push_str(to.as_str())?;
    Ok(text)
}

/// What the row does with an object on top, which is not null.
#[tactic(auto, using(crate::proofs::Ending::refused, crate::proofs::Ending::resolved, crate::proofs::Ending::finished))]
fn cast_object<T: Tree>(
    alloc: Global,
    tree: &mut T,
    world: &mut World,
    store: &mut Store,
    caller: Caller,
    op: CastOp,
    index: u16,
    next: u32,
    o: ObjRef,
    at: u64,
) -> RowEnd
    requires frame { IsSome (top_of store.old.frames) }
    requires taken { ref_under store.old.frames 0 ≡ Ok (Some o) }
    requires caller { IsClass world.old caller.class }
    ensures row { (files : List File) → T.files tree.old ≡ Some files → IsRow (words.cast_of files at world.old store.old caller op index next (Some o)) store.old result world.new store.new }
    ensures onward { Onward world.old world.new }
    ensures asks { Asks world.old world.new (T.asked tree.old) (T.asked tree.new) }
    ensures same_files { T.files tree.new ≡ T.files tree.old }
    ensures counts { T.faults tree.old ≤ T.faults tree.new }
    ensures read_fault { result ≡ RowEnd.ReadFault → Rose (T.faults tree.old) (T.faults tree.new) }
{
    let target = match refer(world, tree, caller.class, index, at) {
        Ok(target) => target,
        Err(end) => return end,
    };
    let done = cast_done(alloc, world, store, op, caller, next, o, &target);
    ended(alloc, done)
}

/// Casts the object on top to the class that the entry at an index names, or asks whether it is one of it, and goes on at the next place. Null resolves nothing.
pub fn cast_row<T: Tree>(
    alloc: Global,
    tree: &mut T,
    world: &mut World,
    store: &mut Store,
    caller: Caller,
    op: CastOp,
    index: u16,
    next: u32,
    at: u64,
) -> RowEnd
    requires frame { IsSome (top_of store.old.frames) }
    requires caller { IsClass world.old caller.class }
    ensures row { (files : List File) → T.files tree.old ≡ Some files → IsRow (words.cast_row files at world.old store.old caller op index next) store.old result world.new store.new }
    ensures onward { Onward world.old world.new }
    ensures asks { Asks world.old world.new (T.asked tree.old) (T.asked tree.new) }
    ensures same_files { T.files tree.new ≡ T.files tree.old }
    ensures counts { T.faults tree.old ≤ T.faults tree.new }
    ensures read_fault { result ≡ RowEnd.ReadFault → Rose (T.faults tree.old) (T.faults tree.new) }
{
    match ref_under(&store.frames, 0) {
        Ok(Some(o)) => cast_object(alloc, tree, world, store, caller, op, index, next, o, at),
        Ok(None) => {
            read_once();
            decided_stays();
            cast_null(&mut store.frames, op);
            store.frames.set_pc(next);
            RowEnd::Next
        }
        Err(stop) => {
            read_once();
            decided_stays();
            end_of(alloc, Halt::Stop(stop))
        }
    }
}
