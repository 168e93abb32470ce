//! Reading and writing fields (JVMS 6.5, `getstatic`, `putstatic`, `getfield`, `putfield`).

ghost use Rattle.std.specs.Prelude.{◌≡◌, ◌≤◌, List, Some, IsErrOf, IsSome};
ghost use Rattle.jl_logic.specs.Counts.{Rose};
ghost use Rattle.jl_tree.specs.Files.{File};
ghost use Rattle.jl_heap.specs.Frames.{top_of};
ghost use Rattle.jl_loads.specs.Ends.{Asks};
ghost use Rattle.jl_loads.specs.Worlds.{IsClass};
ghost use Rattle.jl_link.specs.Laws.{Onward};
ghost use Rattle.jl_link.specs.There.{IsTargetThere};
ghost use Rattle.jl_objops.specs.Outcomes.{Does, Finds, Halts, IsRow};
ghost use Rattle.std.specs.Prelude.{◌+◌, [], IfOk, Ok, unwrap_or};
ghost use Rattle.jl_code.specs.References.{member_desc};
ghost use Rattle.jl_heap.specs.Frames.{height_in, room_in};
ghost use Rattle.jl_heap.specs.Values.{kind_of};
ghost use Rattle.jl_names.specs.Descriptors.{descriptor_read};
ghost use Rattle.jl_ops.specs.Operands.{kind_slots, value_slots};
ghost use Rattle.jl_link.specs.Members.{IsFieldThere};
ghost use Rattle.jl_objops.specs.Outcomes.{needed};
ghost use Rattle.jl_objops.specs.Fields as words;

use crate::caller::Caller;
use crate::halt::{Halt, end_of, ended, no_member};
use crate::members::{
    field_error, final_error, found, is_method_named, is_object_of, target_field,
};
use crate::referring::refer;
use crate::row::FieldOp;
use crate::slots::{object_place, static_place};
use crate::types::pool_of;
use jl_class::{is_final, is_static};
use jl_code::member_desc;
use jl_heap::{Frames, Heap, Kind, RowEnd, Store, Value};
use jl_link::{Member, Target, World, decided_stays};
use jl_loads::read_once;
use jl_names::{BaseType, Descriptor, FieldType, TextFault, descriptor};
use jl_ops::{Stop, need_room, no_room, pop_value, put_value, ref_under, value_under, wanted};
use jl_pool::Pool;
use jl_prim::{ClassId, ErrorKind, Name, ObjRef};
use jl_tree::Tree;
use std::alloc::Global;

/// What a row on a field takes: the object, and the value that is written.
#[derive(Clone, Copy, Debug)]
pub struct FieldOperands {
    pub object: Option<ObjRef>,
    pub value: Value,
}

/// The kind of the values of a field with a descriptor.
pub fn kind_of_text(alloc: Global, desc: &Name) -> Result<Kind, Halt>
    ensures { Finds (Ok (words.kind_read (descriptor_read desc.now))) result }
{
    match descriptor(alloc, desc.as_bytes()) {
        Ok(Descriptor::Field(t)) => Ok(type_kind(t)),
        Err(TextFault::NoMemory) => Err(Halt::NoMemory),
        _ => Ok(Kind::Top),
    }
}

/// The kind of the field that the entry at an index of a class names.
fn kind_named(alloc: Global, world: &World, d: ClassId, index: u16) -> Result<Kind, Halt>
    requires { IsClass world.now d }
    ensures { Finds (Ok (words.kind_named world.now d index)) result }
{
    kind_of_entry(alloc, pool_of(world, d), index)
}

/// The kind of the field that the entry at an index of a pool names.
fn kind_of_entry(alloc: Global, pool: &Pool, index: u16) -> Result<Kind, Halt>
    ensures { Finds (Ok (words.kind_read (descriptor_read (unwrap_or (member_desc pool.now index) [])))) result }
{
    match member_desc(pool, index) {
        Some(desc) => kind_of_text(alloc, desc),
        None => kind_of_text(alloc, &Name::from_text(alloc, "")?),
    }
}

/// The kind of the values of a type.
pub fn type_kind(t: FieldType) -> Kind
    ensures { result ≡ words.type_kind t }
{
    if t.dims > 0 {
        return Kind::Ref;
    }
    match t.base {
        BaseType::Class(_, _) => Kind::Ref,
        BaseType::Prim(b'J') => Kind::Long,
        BaseType::Prim(b'F' | b'D') => Kind::Top,
        BaseType::Prim(_) => Kind::Int,
    }
}

/// The slots that a value of a kind takes.
pub fn kind_slots(kind: Kind) -> u16
    ensures { result ≡ kind_slots kind }
{
    match kind {
        Kind::Long => 2,
        _ => 1,
    }
}

fn nothing_taken() -> FieldOperands
    ensures { result ≡ words.nothing_taken }
{
    FieldOperands {
        object: None,
        value: Value::Top,
    }
}

/// What the row takes, which is of the kinds that it wants; what is read has room.
fn operands(frames: &Frames, op: FieldOp, kind: Kind) -> Result<FieldOperands, Stop>
    requires { IsSome (top_of frames.now) }
    ensures { result ≡ words.operands op kind frames.now }
{
    match op {
        FieldOp::GetStatic => {
            need_room(frames, kind_slots(kind))?;
            Ok(nothing_taken())
        }
        FieldOp::PutStatic => {
            let value = wanted(kind, value_under(frames, 0))?;
            Ok(FieldOperands {
                object: None,
                value,
            })
        }
        FieldOp::GetField => {
            let object = ref_under(frames, 0)?;
            if u32::from(frames.room()) + 1 < u32::from(kind_slots(kind)) {
                return Err(no_room());
            }
            Ok(FieldOperands {
                object,
                value: Value::Top,
            })
        }
        FieldOp::PutField => {
            let value = wanted(kind, value_under(frames, 0))?;
            let object = ref_under(frames, kind_slots(kind) as usize)?;
            Ok(FieldOperands { object, value })
        }
    }
}

fn is_of_class(op: FieldOp) -> bool
    ensures { result ≡ words.is_of_class op }
{
    matches!(op, FieldOp::GetStatic | FieldOp::PutStatic)
}

fn writes(op: FieldOp) -> bool
    ensures { result ≡ words.writes op }
{
    matches!(op, FieldOp::PutStatic | FieldOp::PutField)
}

/// The method in which a final field is written.
fn writer(op: FieldOp) -> &'static str
    ensures { result.now ≡ words.writer op }
{
    match op {
        FieldOp::PutStatic => "<clinit>",
        _ => "<init>",
    }
}

/// Whether the row may use the field: a final one is written by its own class alone, where it makes an object or
/// initializes the class.
fn may_use(world: &World, op: FieldOp, caller: Caller, m: Member) -> bool
    requires { IsClass world.now caller.class }
    ensures { result ≡ words.may_use op world.now caller m }
{
    if !(writes(op) && is_final(m.flags)) {
        return true;
    }
    caller.class == m.owner
        && is_method_named(world, caller.class, caller.place, writer(op).as_bytes())
}

/// What is tested right after resolution: a static field is used by a row on classes, another by one on objects, and a
/// final one is written where it may be.
fn fits_row(
    alloc: Global,
    world: &World,
    op: FieldOp,
    caller: Caller,
    m: Member,
) -> Result<(), Halt>
    requires there { IsFieldThere world.now m }
    requires caller { IsClass world.now caller.class }
    ensures { Finds (words.fits_row op world.now caller m) result }
{
    if is_static(m.flags) != is_of_class(op) {
        return Err(field_error(alloc, world, ErrorKind::IncompatibleClassChangeError, m));
    }
    if may_use(world, op, caller, m) {
        return Ok(());
    }
    Err(final_error(alloc, world, m))
}

/// The value that is there, of the kind that the row wants.
fn there(kind: Kind, v: Option<Value>) -> Result<Value, Halt>
    ensures value { result ≡ words.there kind v }
    ensures kind { IfOk result (λ w. v ≡ Some w) }
    ensures slots { IfOk result (λ w. value_slots w ≡ kind_slots kind) }
{
    match v {
        Some(v) => match wanted(kind, v) {
            Ok(v) => Ok(v),
            Err(stop) => Err(Halt::Stop(stop)),
        },
        None => Err(no_member()),
    }
}

/// The class, which the task has to be allowed to use.
pub fn needed(store: &Store, c: ClassId) -> Result<(), Halt>
    ensures { result ≡ needed store.now c }
{
    if store.statics.usable(c, store.frames.task()) {
        return Ok(());
    }
    Err(Halt::Needs(c))
}

/// The object, which has to have the field.
fn object_with(
    world: &World,
    heap: &Heap,
    object: Option<ObjRef>,
    m: Member,
) -> Result<ObjRef, Halt>
    ensures { Finds (words.object_with world.now heap.now object m) result }
{
    let Some(o) = object else {
        return Err(Halt::Stop(Stop::Null));
    };
    if is_object_of(world, heap, m.owner, o)? {
        return Ok(o);
    }
    Err(no_member())
}

/// Puts the value of a static field on the stack.
fn read_static(world: &World, store: &mut Store, kind: Kind, m: Member) -> Result<(), Halt>
    requires frame { IsSome (top_of store.old.frames) }
    requires room { kind_slots kind ≤ room_in store.old.frames }
    requires there { IsFieldThere world.now m }
    ensures frame { IsSome (top_of store.new.frames) }
    ensures does { Does (words.static_read kind world.now store.old m) store.old result store.new }
{
    needed(store, m.owner)?;
    let v = there(kind, store.statics.get(m.owner, static_place(world, m)))?;
    put_value(&mut store.frames, v);
    Ok(())
}

/// Takes a value and sets a static field to it.
fn write_static(
    world: &World,
    store: &mut Store,
    kind: Kind,
    v: Value,
    m: Member,
) -> Result<(), Halt>
    requires frame { IsSome (top_of store.old.frames) }
    requires kind { kind_of v ≡ kind }
    requires there { IsFieldThere world.now m }
    ensures frame { IsSome (top_of store.new.frames) }
    ensures does { Does (words.static_written kind world.now store.old v m) store.old result store.new }
{
    needed(store, m.owner)?;
    let place = static_place(world, m);
    there(kind, store.statics.get(m.owner, place))?;
    store.statics.set_value(m.owner, place, v);
    pop_value(&mut store.frames, v);
    Ok(())
}

/// Puts the value of an object's field in the place of the object.
fn read_field(
    world: &World,
    store: &mut Store,
    kind: Kind,
    object: Option<ObjRef>,
    m: Member,
) -> Result<(), Halt>
    requires frame { IsSome (top_of store.old.frames) }
    requires taken { 1 ≤ height_in store.old.frames }
    requires room { kind_slots kind ≤ room_in store.old.frames + 1 }
    requires there { IsFieldThere world.now m }
    ensures frame { IsSome (top_of store.new.frames) }
    ensures does { Does (words.field_read kind world.now store.old object m) store.old result store.new }
{
    let o = object_with(world, &store.heap, object, m)?;
    let v = there(kind, store.heap.get(o, object_place(world, m)))?;
    store.frames.pop();
    put_value(&mut store.frames, v);
    Ok(())
}

/// Takes a value and an object, and sets the object's field to the value.
fn write_field(
    world: &World,
    store: &mut Store,
    kind: Kind,
    taken: FieldOperands,
    m: Member,
) -> Result<(), Halt>
    requires frame { IsSome (top_of store.old.frames) }
    requires kind { kind_of taken.value ≡ kind }
    requires there { IsFieldThere world.now m }
    ensures frame { IsSome (top_of store.new.frames) }
    ensures does { Does (words.field_written kind world.now store.old taken m) store.old result store.new }
{
    let o = object_with(world, &store.heap, taken.object, m)?;
    let place = object_place(world, m);
    there(kind, store.heap.get(o, place))?;
    store.heap.set_slot(o, place, taken.value);
    pop_value(&mut store.frames, taken.value);
    store.frames.pop();
    Ok(())
}

/// Reads or writes the field.
fn moved(
    world: &World,
    store: &mut Store,
    op: FieldOp,
    kind: Kind,
    taken: FieldOperands,
    m: Member,
) -> Result<(), Halt>
    requires frame { IsSome (top_of store.old.frames) }
    requires taken { words.operands op kind store.old.frames ≡ Ok taken }
    requires there { IsFieldThere world.now m }
    ensures frame { IsSome (top_of store.new.frames) }
    ensures does { Does (words.moved op kind world.now store.old taken m) store.old result store.new }
{
    match op {
        FieldOp::GetStatic => read_static(world, store, kind, m),
        FieldOp::PutStatic => write_static(world, store, kind, taken.value, m),
        FieldOp::GetField => read_field(world, store, kind, taken.object, m),
        FieldOp::PutField => write_field(world, store, kind, taken, m),
    }
}

/// What the row does once the field is resolved.
fn field_done(
    alloc: Global,
    world: &World,
    store: &mut Store,
    op: FieldOp,
    kind: Kind,
    caller: Caller,
    next: u32,
    taken: FieldOperands,
    target: &Target,
) -> Result<(), Halt>
    requires there { IsTargetThere world.now target.now }
    requires frame { IsSome (top_of store.old.frames) }
    requires caller { IsClass world.now caller.class }
    requires taken { words.operands op kind store.old.frames ≡ Ok taken }
    ensures { Does (words.field_done op kind caller next store.old taken world.now target.now) store.old result store.new }
{
    let m = found(target_field(world, target))?;
    fits_row(alloc, world, op, caller, m)?;
    moved(world, store, op, kind, taken, m)?;
    store.frames.set_pc(next);
    Ok(())
}

/// Reads or writes the field that the entry at an index names, and goes on at the next place.
pub fn field_row<T: Tree>(
    alloc: Global,
    tree: &mut T,
    world: &mut World,
    store: &mut Store,
    caller: Caller,
    op: FieldOp,
    index: u16,
    next: u32,
    at: u64,
) -> RowEnd
    requires frame { IsSome (top_of store.old.frames) }
    requires caller { IsClass world.old caller.class }
    ensures row { (files : List File) → T.files tree.old ≡ Some files → IsRow (words.field_row files at world.old store.old caller op index next) store.old result world.new store.new }
    ensures onward { Onward world.old world.new }
    ensures asks { Asks world.old world.new (T.asked tree.old) (T.asked tree.new) }
    ensures same_files { T.files tree.new ≡ T.files tree.old }
    ensures counts { T.faults tree.old ≤ T.faults tree.new }
    ensures read_fault { result ≡ RowEnd.ReadFault → Rose (T.faults tree.old) (T.faults tree.new) }
{
    read_once();
    decided_stays();
    let kind = match kind_named(alloc, world, caller.class, index) {
        Ok(kind) => kind,
        Err(halt) => return end_of(alloc, halt),
    };
    let taken = match operands(&store.frames, op, kind) {
        Ok(taken) => taken,
        Err(stop) => return end_of(alloc, Halt::Stop(stop)),
    };
    let target = match refer(world, tree, caller.class, index, at) {
        Ok(target) => target,
        Err(end) => return end,
    };
    let done = field_done(alloc, world, store, op, kind, caller, next, taken, &target);
    ended(alloc, done)
}
