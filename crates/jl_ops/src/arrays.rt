//! The rows of arrays (JVMS 6.5).

ghost use Rattle.std.specs.Prelude.{◌≡◌, ◌<◌, IfOk, IsSome, Ok, Err, replicate};
ghost use Rattle.jl_heap.specs.Frames.{top_of};
ghost use Rattle.jl_heap.specs.Heap.{kinds_in};
ghost use Rattle.jl_heap.specs.Objects.{element_kind};
ghost use Rattle.jl_ops.specs.Operands.{Does};
ghost use Rattle.jl_ops.specs.Arrays as words;

use crate::arithmetic::{cut, low_bit};
use crate::operands::{int_under, long_under, put_value, ref_under};
use crate::row::{ArrayRow, Elements, IntType};
use crate::stop::Stop;
use crate::type_letters::{BOOLEAN, BYTE, CHAR, INT, LONG, SHORT};
use jl_heap::{Base, Element, Frames, Heap, HeapEnd, Kind, Shape, Store, Value};
use jl_prim::ObjRef;

/// An array of the heap: what its elements are, and how many there are.
#[derive(Clone, Copy, Debug)]
pub struct Array {
    pub object: ObjRef,
    pub element: Element,
    pub count: u32,
}

/// Why an array was not made.
#[derive(Clone, Copy, Debug)]
pub enum MakeEnd {
    Stop(Stop),
    NoMemory,
}

/// The letter of an array's elements. None where they are references.
fn letter_of(element: Element) -> Option<u8>
    ensures { result ≡ words.letter_of element }
{
    match element.base {
        Base::Prim(letter) if element.dims == 0 => Some(letter),
        _ => None,
    }
}

/// Whether arrays with this letter are taken where those of a type are.
fn is_letter_of(of: IntType, letter: u8) -> bool
    ensures { result ≡ words.is_letter_of of letter }
{
    match of {
        IntType::Int => letter == INT,
        IntType::Byte => letter == BYTE || letter == BOOLEAN,
        IntType::Char => letter == CHAR,
        IntType::Short => letter == SHORT,
    }
}

/// Whether elements with a letter, or references, are those that a row takes.
fn are_taken(wanted: Elements, letter: Option<u8>) -> bool
    ensures { result ≡ words.are_taken wanted letter }
{
    match (wanted, letter) {
        (Elements::Ints(of), Some(letter)) => is_letter_of(of, letter),
        (Elements::Longs, Some(letter)) => letter == LONG,
        (Elements::References, None) => true,
        _ => false,
    }
}

fn no_array() -> Stop
    ensures { result ≡ words.no_array }
{
    Stop::Stuck(Kind::Ref, Kind::Ref)
}

/// The array of a reference.
pub fn array_at(heap: &Heap, o: Option<ObjRef>) -> Result<Array, Stop>
    ensures array { result ≡ words.array_at heap.now o }
    ensures kinds { IfOk result (λ a. kinds_in heap.now a.object ≡ replicate a.count (element_kind a.element)) }
{
    let Some(object) = o else {
        return Err(Stop::Null);
    };
    if !heap.has(object) {
        return Err(no_array());
    }
    match heap.shape(object) {
        Shape::Array { element, len } => Ok(Array {
            object,
            element: *element,
            count: *len,
        }),
        _ => Err(no_array()),
    }
}

/// The array of a reference, which has to have such elements.
pub fn array_with(heap: &Heap, o: Option<ObjRef>, wanted: Elements) -> Result<Array, Stop>
    ensures array { result ≡ words.array_with wanted heap.now o }
    ensures kinds { IfOk result (λ a. kinds_in heap.now a.object ≡ replicate a.count (words.kind_of_elements wanted)) }
{
    let array = array_at(heap, o)?;
    if !are_taken(wanted, letter_of(array.element)) {
        return Err(no_array());
    }
    Ok(array)
}

/// An index of an array.
pub fn index_in(array: Array, at: i32) -> Result<usize, Stop>
    ensures index { result ≡ words.index_in array at }
    ensures within { IfOk result (λ i. i < array.count) }
{
    if at >= 0 && at.unsigned_abs() < array.count {
        Ok(at.unsigned_abs() as usize)
    } else {
        Err(Stop::OutOfBounds(at, array.count))
    }
}

/// Takes an array and an index, and puts the element in their place.
#[tactic(auto, unfolding(crate::specs::Arrays::element_loaded))]
fn load(heap: &Heap, frames: &mut Frames, wanted: Elements) -> Result<(), Stop>
    requires { IsSome (top_of frames.old) }
    ensures does { Does (words.element_loaded wanted heap.now frames.old) frames.old result frames.new }
    ensures frame { IsSome (top_of frames.new) }
{
    let at = int_under(frames, 0)?;
    let o = ref_under(frames, 1)?;
    let array = array_with(heap, o, wanted)?;
    let index = index_in(array, at)?;
    let v = heap.slot(array.object, index);
    frames.pop();
    frames.pop();
    put_value(frames, v);
    Ok(())
}

/// What an array keeps of an int.
fn kept_of(of: IntType, element: Element, n: i32) -> i32
    ensures { result ≡ words.kept_of of element n }
{
    match letter_of(element) {
        Some(BOOLEAN) => low_bit(n),
        _ => cut(of, n),
    }
}

/// Takes an array, an index and an int, and sets the element.
#[tactic(auto, unfolding(crate::specs::Arrays::int_stored))]
fn store_int(store: &mut Store, of: IntType) -> Result<(), Stop>
    requires { IsSome (top_of store.old.frames) }
    ensures does { Does (words.int_stored of store.old) store.old result store.new }
    ensures frame { IsSome (top_of store.new.frames) }
{
    let n = int_under(&store.frames, 0)?;
    let at = int_under(&store.frames, 1)?;
    let o = ref_under(&store.frames, 2)?;
    let array = array_with(&store.heap, o, Elements::Ints(of))?;
    let index = index_in(array, at)?;
    let kept = Value::Int(kept_of(of, array.element, n));
    store.heap.set_slot(array.object, index, kept);
    store.frames.pop();
    store.frames.pop();
    store.frames.pop();
    Ok(())
}

/// Takes an array, an index and a long, and sets the element.
#[tactic(auto, unfolding(crate::specs::Arrays::long_stored))]
fn store_long(store: &mut Store) -> Result<(), Stop>
    requires { IsSome (top_of store.old.frames) }
    ensures does { Does (words.long_stored store.old) store.old result store.new }
    ensures frame { IsSome (top_of store.new.frames) }
{
    let n = long_under(&store.frames, 0)?;
    let at = int_under(&store.frames, 2)?;
    let o = ref_under(&store.frames, 3)?;
    let array = array_with(&store.heap, o, Elements::Longs)?;
    let index = index_in(array, at)?;
    store.heap.set_slot(array.object, index, Value::Long(n));
    store.frames.pop();
    store.frames.pop();
    store.frames.pop();
    store.frames.pop();
    Ok(())
}

/// Takes an array, and puts the number of its elements in its place.
#[tactic(auto, unfolding(crate::specs::Arrays::measured))]
fn measure(heap: &Heap, frames: &mut Frames) -> Result<(), Stop>
    requires { IsSome (top_of frames.old) }
    ensures does { Does (words.measured heap.now frames.old) frames.old result frames.new }
    ensures frame { IsSome (top_of frames.new) }
{
    let o = ref_under(frames, 0)?;
    let array = array_at(heap, o)?;
    frames.pop();
    frames.put(Value::Int(array.count.cast_signed()));
    Ok(())
}

/// Takes a number of elements, and makes an array of so many of them.
#[tactic(auto, unfolding(crate::specs::Arrays::made))]
pub fn make(store: &mut Store, letter: u8) -> Result<(), MakeEnd>
    requires { IsSome (top_of store.old.frames) }
    ensures does { words.Makes (words.made letter store.old) store.old result store.new }
    ensures frame { IsSome (top_of store.new.frames) }
{
    let count = match int_under(&store.frames, 0) {
        Ok(count) => count,
        Err(stop) => return Err(MakeEnd::Stop(stop)),
    };
    if count < 0 {
        return Err(MakeEnd::Stop(Stop::Negative(count)));
    }
    let element = Element {
        base: Base::Prim(letter),
        dims: 0,
    };
    let len = count.unsigned_abs();
    match store.heap.alloc(Shape::Array { element, len }) {
        Ok(object) => {
            store.frames.pop();
            store.frames.put(Value::Ref(Some(object)));
            Ok(())
        }
        Err(HeapEnd::Full) => Err(MakeEnd::Stop(Stop::Full)),
        Err(HeapEnd::NoMemory) => Err(MakeEnd::NoMemory),
    }
}

/// Executes a row of arrays.
#[tactic(auto, unfolding(crate::specs::Arrays::array_row))]
pub fn array_row(store: &mut Store, row: ArrayRow) -> Result<(), Stop>
    requires { IsSome (top_of store.old.frames) }
    ensures does { Does (words.array_row row store.old) store.old result store.new }
    ensures frame { IsSome (top_of store.new.frames) }
{
    match row {
        ArrayRow::Load(wanted) => load(&store.heap, &mut store.frames, wanted),
        ArrayRow::StoreInt(of) => store_int(store, of),
        ArrayRow::StoreLong => store_long(store),
        ArrayRow::Length => measure(&store.heap, &mut store.frames),
    }
}
