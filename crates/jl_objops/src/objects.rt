//! Making objects (JVMS 6.5, `new`).

ghost use Rattle.std.specs.Prelude.{◌≡◌, ◌≤◌, List, Some, IsErrOf, IsSome};
ghost use Rattle.jl_logic.specs.Counts.{Rose};
ghost use Rattle.jl_tree.specs.Files.{File};
ghost use Rattle.jl_heap.specs.Frames.{room_in, top_of};
ghost use Rattle.jl_loads.specs.Ends.{Asks};
ghost use Rattle.jl_loads.specs.Worlds.{IsClass};
ghost use Rattle.jl_link.specs.Laws.{Onward};
ghost use Rattle.jl_link.specs.There.{IsTargetThere};
ghost use Rattle.jl_objops.specs.Outcomes.{Does, Finds, Halts, IsRow};
ghost use Rattle.std.specs.Prelude.{◌++◌, IfOk, Ok, reverse};
ghost use Rattle.jl_loads.specs.Worlds.{line_of};
ghost use Rattle.jl_objops.specs.Fields as fields;
ghost use Rattle.jl_objops.specs.Objects as words;

use crate::caller::Caller;
use crate::fields::needed;
use crate::halt::{Halt, end_of, ended, no_member, of_link};
use crate::referring::refer;
use crate::slots::{push_own, super_of};
use crate::types::has_class;
use jl_class::is_abstract;
use jl_heap::{HeapEnd, Kind, RowEnd, Shape, Store, Value};
use jl_link::{Target, World, decided_stays};
use jl_loads::{of_class, read_once};
use jl_names::Units;
use jl_ops::{Stop, need_room};
use jl_prim::{ClassId, ErrorKind, Items, ObjRef};
use jl_tree::Tree;
use std::alloc::{AllocError, Global};

/// The kinds of the slots of an object of a class.
pub fn kinds_of(alloc: Global, world: &World, c: ClassId) -> Result<Items<Kind>, Halt>
    requires { IsClass world.now c }
    ensures { Finds (Ok (fields.kinds_of world.now c)) result }
{
    let line = line_down(alloc, world, c)?;
    let mut kinds = Vec::new(alloc);
    for k in line.iter() {
        push_if_there(&mut kinds, world, *k)?;
    }
    Ok(Items::from_vec(kinds))
}

/// The shape with which an object of a class begins.
fn new_shape(alloc: Global, world: &World, c: ClassId) -> Result<Shape, Halt>
    requires { IsClass world.now c }
    ensures { Finds (Ok (words.new_shape world.now c)) result }
{
    let name = world.class(c).name().as_str();
    if is_text_class(name) {
        return Ok(Shape::Text {
            class: c,
            units: Units::from_vec(Vec::new(alloc)),
        });
    }
    if is_list_class(name) {
        return Ok(Shape::List {
            class: c,
            items: Items::from_vec(Vec::new(alloc)),
        });
    }
    Ok(Shape::Object {
        class: c,
        fields: kinds_of(alloc, world, c)?,
    })
}

/// A new object of the shape, where the heap has room for it.
pub fn allocated(store: &mut Store, shape: Shape) -> Result<ObjRef, Halt>
    ensures { words.Makes (words.allocated shape store.old) store.old result store.new }
{
    match store.heap.alloc(shape) {
        Ok(o) => Ok(o),
        Err(HeapEnd::Full) => Err(Halt::Stop(Stop::Full)),
        Err(HeapEnd::NoMemory) => Err(Halt::NoMemory),
    }
}

/// A new object of the class, if the class may be used and is not abstract.
fn instantiated(alloc: Global, world: &World, store: &mut Store, c: ClassId) -> Result<ObjRef, Halt>
    requires { IsClass world.now c }
    ensures { words.Makes (words.instantiated world.now store.old c) store.old result store.new }
{
    let class = world.class(c);
    if is_abstract(class.flags()) {
        return Err(of_link(of_class(alloc, ErrorKind::InstantiationError, class.name())));
    }
    needed(store, c)?;
    allocated(store, new_shape(alloc, world, c)?)
}

/// The class that a reference refers to.
fn class_target(target: &Target) -> Result<ClassId, Halt>
    ensures { result ≡ words.class_target target.now }
{
    match target {
        Target::Class(c) => Ok(*c),
        _ => Err(no_member()),
    }
}

fn is_text_class(name: &str) -> bool
    ensures { result ≡ words.is_text_class name.now }
{
    name == "java/lang/String" || name == "java/lang/StringBuilder"
}

fn is_list_class(name: &str) -> bool
    ensures { result ≡ words.is_list_class name.now }
{
    name == "java/util/ArrayList" || name == "java/util/ServiceLoader"
}

/// Adds the kinds of the slots that an object has by a class itself, if there is the class.
#[tactic(auto, using(crate::proofs::Lines::no_kinds))]
fn push_if_there(kinds: &mut Vec<Kind>, world: &World, c: ClassId) -> Result<(), Halt>
    ensures { Does (Ok (kinds.old.items ++ fields.own_kinds world.now c)) kinds.old.items result kinds.new.items }
{
    if has_class(world, c) {
        return push_own(kinds, world, c);
    }
    Ok(())
}

/// A class and its superclasses, the highest first.
fn line_down(alloc: Global, world: &World, c: ClassId) -> Result<Vec<ClassId>, AllocError>
    ensures { IfOk result (λ line. line.items ≡ reverse (line_of world.now c)) }
{
    let mut line = line_up(alloc, world, c)?;
    line.reverse();
    Ok(line)
}

/// A class and its superclasses, from the class up.
fn line_up(alloc: Global, world: &World, c: ClassId) -> Result<Vec<ClassId>, AllocError>
    ensures { IfOk result (λ line. line.items ≡ line_of world.now c) }
{
    let mut line = Vec::new(alloc);
    let mut left = c.0;
    let mut next = Some(c);
    while let Some(here) = next {
        if left == 0 {
            return Ok(line);
        }
        line.push(here)?;
        next = super_of(world, here);
        left -= 1;
    }
    Ok(line)
}

/// What the row does once its class is resolved.
fn new_done(
    alloc: Global,
    world: &World,
    store: &mut Store,
    next: u32,
    target: &Target,
) -> Result<(), Halt>
    requires there { IsTargetThere world.now target.now }
    requires frame { IsSome (top_of store.old.frames) }
    requires room { 1 ≤ room_in store.old.frames }
    ensures { Does (words.new_done next store.old world.now target.now) store.old result store.new }
{
    let c = class_target(target)?;
    let o = instantiated(alloc, world, store, c)?;
    store.frames.put(Value::Ref(Some(o)));
    store.frames.set_pc(next);
    Ok(())
}

/// Makes an object of the class that the entry at an index names, and goes on at the next place.
pub fn new_row<T: Tree>(
    alloc: Global,
    tree: &mut T,
    world: &mut World,
    store: &mut Store,
    caller: Caller,
    index: u16,
    next: u32,
    at: u64,
) -> RowEnd
    requires frame { IsSome (top_of store.old.frames) }
    requires caller { IsClass world.old caller.class }
    ensures row { (files : List File) → T.files tree.old ≡ Some files → IsRow (words.new_row files at world.old store.old caller index next) store.old result world.new store.new }
    ensures onward { Onward world.old world.new }
    ensures asks { Asks world.old world.new (T.asked tree.old) (T.asked tree.new) }
    ensures same_files { T.files tree.new ≡ T.files tree.old }
    ensures counts { T.faults tree.old ≤ T.faults tree.new }
    ensures read_fault { result ≡ RowEnd.ReadFault → Rose (T.faults tree.old) (T.faults tree.new) }
{
    read_once();
    decided_stays();
    match need_room(&store.frames, 1) {
        Ok(()) => (),
        Err(stop) => return end_of(alloc, Halt::Stop(stop)),
    }
    let target = match refer(world, tree, caller.class, index, at) {
        Ok(target) => target,
        Err(end) => return end,
    };
    let done = new_done(alloc, world, store, next, &target);
    ended(alloc, done)
}
