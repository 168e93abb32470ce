//! Loading constants (JVMS 5.1, 6.5, `ldc`, `ldc_w`).

ghost use Rattle.std.specs.Prelude.{◌≡◌, ◌≤◌, List, Some, IsErrOf, IsSome};
ghost use Rattle.jl_logic.specs.Counts.{Rose};
ghost use Rattle.jl_tree.specs.Files.{File};
ghost use Rattle.jl_heap.specs.Frames.{room_in, top_of};
ghost use Rattle.jl_loads.specs.Ends.{Asks};
ghost use Rattle.jl_loads.specs.Worlds.{IsClass};
ghost use Rattle.jl_link.specs.Laws.{Onward};
ghost use Rattle.jl_link.specs.There.{IsTargetThere};
ghost use Rattle.jl_objops.specs.Outcomes.{Does, Finds, Halts, IsRow};
ghost use Rattle.std.specs.Prelude.{[], Ok, slice_get, unwrap_or};
ghost use Rattle.jl_pool.specs.Pool.{utf8_of};
ghost use Rattle.jl_ops.specs.Operands.{at_place, put};
ghost use Rattle.jl_objops.specs.Objects as words;

use crate::caller::Caller;
use crate::halt::{Halt, end_of, ended, no_constant, no_member};
use crate::objects::allocated;
use crate::referring::refer;
use crate::types::{base_class, loader_of, pool_of, type_of_target};
use jl_heap::{Element, Frames, KeptKey, Mirror, RowEnd, Shape, Store, Value};
use jl_link::{Target, World, decided_stays};
use jl_loads::read_once;
use jl_names::Units;
use jl_ops::need_room;
use jl_pool::{Entry, Pool};
use jl_prim::{ClassId, ObjRef};
use jl_tree::Tree;
use std::alloc::Global;

/// The object that is kept under a key, or a new one of a shape, which is kept from now on.
fn kept_or_new(store: &mut Store, key: KeptKey, shape: Shape) -> Result<ObjRef, Halt>
    ensures { words.Makes (words.kept_or_new key shape store.old) store.old result store.new }
{
    if let Some(o) = store.kept.find(&key) {
        return Ok(o);
    }
    let o = allocated(store, shape)?;
    match store.kept.keep(key, o) {
        Ok(()) => Ok(o),
        Err(_) => Err(Halt::NoMemory),
    }
}

/// The object of a literal text.
pub fn literal(world: &World, store: &mut Store, units: Units) -> Result<ObjRef, Halt>
    ensures { words.Makes (words.literal world.now store.old units) store.old result store.new }
{
    let copy = units.copy()?;
    let key = KeptKey::Text(units);
    if let Some(o) = store.kept.find(&key) {
        return Ok(o);
    }
    let shape = Shape::Text {
        class: base_class(world, "java/lang/String")?,
        units: copy,
    };
    kept_or_new(store, key, shape)
}

/// The object that stands for a class or an array class.
pub fn mirror(world: &World, store: &mut Store, t: Element) -> Result<ObjRef, Halt>
    ensures { words.Makes (words.mirror world.now store.old t) store.old result store.new }
{
    let shape = Shape::Mirror {
        class: base_class(world, "java/lang/Class")?,
        what: Mirror::Class(t),
    };
    kept_or_new(store, KeptKey::Mirror(Mirror::Class(t)), shape)
}

/// What the row does once a class is resolved.
fn class_loaded(
    alloc: Global,
    world: &World,
    store: &mut Store,
    next: u32,
    d: ClassId,
    target: &Target,
) -> Result<(), Halt>
    requires there { IsTargetThere world.now target.now }
    requires class { IsClass world.now d }
    requires frame { IsSome (top_of store.old.frames) }
    requires room { 1 ≤ room_in store.old.frames }
    ensures { Does (words.class_loaded next store.old d world.now target.now) store.old result store.new }
{
    let Some(t) = type_of_target(alloc, world, loader_of(world, d), target)? else {
        return Err(no_member());
    };
    let o = mirror(world, store, t)?;
    push(&mut store.frames, Value::Ref(Some(o)), next);
    Ok(())
}

/// What an entry of the pool loads.
#[derive(Clone, Copy, Debug)]
pub enum Constant {
    Number(i32),
    /// The text at an index.
    Text(u16),
    /// What stands for a class.
    Class,
    /// Nothing that is loaded here.
    Other,
}

/// What the entry at an index of a pool loads.
fn constant_at(pool: &Pool, index: u16) -> Constant
    ensures { result ≡ words.constant_of (slice_get pool.now index) }
{
    match pool.entries().get(index as usize) {
        Some(Entry::Integer(bits)) => Constant::Number(bits.cast_signed()),
        Some(Entry::String(text)) => Constant::Text(*text),
        Some(Entry::Class(_)) => Constant::Class,
        _ => Constant::Other,
    }
}

/// The units of the text at an index of a pool. None where there is no text.
fn units_at(alloc: Global, pool: &Pool, text: u16) -> Result<Units, Halt>
    ensures { Finds (Ok (unwrap_or (utf8_of pool.now text) [])) result }
{
    match pool.utf8(text) {
        Some(units) => Ok(units.copy()?),
        None => Ok(Units::from_vec(Vec::new(alloc))),
    }
}

/// Puts a value on the stack, and goes on at the next place.
fn push(frames: &mut Frames, v: Value, next: u32)
    requires frame { IsSome (top_of frames.old) }
    requires room { 1 ≤ room_in frames.old }
    ensures { frames.new ≡ at_place next (put v frames.old) }
{
    frames.put(v);
    frames.set_pc(next);
}

/// Loads the object of the text at an index.
fn text_loaded(
    alloc: Global,
    world: &World,
    store: &mut Store,
    d: ClassId,
    text: u16,
    next: u32,
) -> Result<(), Halt>
    requires class { IsClass world.now d }
    requires frame { IsSome (top_of store.old.frames) }
    requires room { 1 ≤ room_in store.old.frames }
    ensures { Does (words.text_loaded next store.old d text world.now) store.old result store.new }
{
    let units = units_at(alloc, pool_of(world, d), text)?;
    let o = literal(world, store, units)?;
    push(&mut store.frames, Value::Ref(Some(o)), next);
    Ok(())
}

/// Loads the object that stands for the class at an index.
#[tactic(auto, using(crate::proofs::Ending::refused, crate::proofs::Ending::resolved, crate::proofs::Ending::finished))]
fn class_row<T: Tree>(
    alloc: Global,
    tree: &mut T,
    world: &mut World,
    store: &mut Store,
    caller: Caller,
    index: u16,
    next: u32,
    at: u64,
) -> RowEnd
    requires frame { IsSome (top_of store.old.frames) }
    requires room { 1 ≤ room_in store.old.frames }
    requires caller { IsClass world.old caller.class }
    ensures row { (files : List File) → T.files tree.old ≡ Some files → IsRow (words.constant_loaded files at world.old store.old caller index next Constant.Class) store.old result world.new store.new }
    ensures onward { Onward world.old world.new }
    ensures asks { Asks world.old world.new (T.asked tree.old) (T.asked tree.new) }
    ensures same_files { T.files tree.new ≡ T.files tree.old }
    ensures counts { T.faults tree.old ≤ T.faults tree.new }
    ensures read_fault { result ≡ RowEnd.ReadFault → Rose (T.faults tree.old) (T.faults tree.new) }
{
    let target = match refer(world, tree, caller.class, index, at) {
        Ok(target) => target,
        Err(end) => return end,
    };
    let done = class_loaded(alloc, world, store, next, caller.class, &target);
    ended(alloc, done)
}

/// Loads the constant at an index, and goes on at the next place.
pub fn constant_row<T: Tree>(
    alloc: Global,
    tree: &mut T,
    world: &mut World,
    store: &mut Store,
    caller: Caller,
    index: u16,
    next: u32,
    at: u64,
) -> RowEnd
    requires frame { IsSome (top_of store.old.frames) }
    requires caller { IsClass world.old caller.class }
    ensures row { (files : List File) → T.files tree.old ≡ Some files → IsRow (words.constant_row files at world.old store.old caller index next) store.old result world.new store.new }
    ensures onward { Onward world.old world.new }
    ensures asks { Asks world.old world.new (T.asked tree.old) (T.asked tree.new) }
    ensures same_files { T.files tree.new ≡ T.files tree.old }
    ensures counts { T.faults tree.old ≤ T.faults tree.new }
    ensures read_fault { result ≡ RowEnd.ReadFault → Rose (T.faults tree.old) (T.faults tree.new) }
{
    read_once();
    decided_stays();
    match need_room(&store.frames, 1) {
        Ok(()) => (),
        Err(stop) => return end_of(alloc, Halt::Stop(stop)),
    }
    match constant_at(pool_of(world, caller.class), index) {
        Constant::Number(n) => {
            push(&mut store.frames, Value::Int(n), next);
            RowEnd::Next
        }
        Constant::Text(text) => {
            let done = text_loaded(alloc, world, store, caller.class, text, next);
            ended(alloc, done)
        }
        Constant::Class => class_row(alloc, tree, world, store, caller, index, next, at),
        Constant::Other => end_of(alloc, no_constant()),
    }
}
