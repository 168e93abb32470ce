//! Tests of the heap.

ghost use Rattle.std.specs.Prelude.{IfOk};
ghost use Rattle.jl_heap.specs.Stores.{IsObject};

use crate::store::CLASS;
use jl_heap::{Base, Element, Heap, HeapEnd, Kind, Mirror, Shape, Store, Value};
use jl_names::Units;
use jl_prim::{ClassId, FieldId, Items, ObjRef};
use std::alloc::Global;
use std::test::*;

const INTS: Element = Element {
    base: Base::Prim(b'I'),
    dims: 0,
};

// The first two objects that a table makes are a text and a list.
const TEXT: ObjRef = ObjRef(3);

const LIST: ObjRef = ObjRef(4);

// A call that takes slots: an object with so many fields, elements, units or items, a mirror, units more for the text,
// or an item more for the list.
#[derive(Clone, Copy, Debug)]
enum Call {
    Fields(usize),
    Array(u32),
    Text(usize),
    List(usize),
    MirrorOfClass,
    MirrorOfField,
    Units(usize),
    Item,
}

/// How a text that is there takes so many units more.
fn grow_text(heap: &mut Heap, units: &[u16]) -> Result<Option<HeapEnd>, Fail> {
    if heap.has(TEXT) && matches!(heap.shape(TEXT), Shape::Text { .. }) {
        return Ok(heap.append(TEXT, units).err());
    }
    Err(Fail::new("no text"))
}

/// How a list that is there takes an item more.
fn grow_list(heap: &mut Heap, item: Value) -> Result<Option<HeapEnd>, Fail> {
    if heap.has(LIST) && matches!(heap.shape(LIST), Shape::List { .. }) {
        return Ok(heap.append_item(LIST, item).err());
    }
    Err(Fail::new("no list"))
}

fn instance(alloc: Global, fields: usize) -> Result<Shape, Fail>
    ensures { IfOk result IsObject }
{
    Ok(Shape::Object {
        class: CLASS,
        fields: Items::from_vec(vec![in alloc; Kind::Int; fields]?),
    })
}

fn shape_of(alloc: Global, call: Call) -> Result<Shape, Fail> {
    let class = CLASS;
    match call {
        Call::Fields(n) => instance(alloc, n),
        Call::Array(len) => Ok(Shape::Array { element: INTS, len }),
        Call::Text(n) | Call::Units(n) => Ok(Shape::Text {
            class,
            units: Units::from_vec(vec![in alloc; 97; n]?),
        }),
        Call::List(n) => Ok(Shape::List {
            class,
            items: Items::from_vec(vec![in alloc; Value::Ref(None); n]?),
        }),
        Call::MirrorOfField => Ok(Shape::Mirror {
            class,
            what: Mirror::Field(FieldId(1), false),
        }),
        Call::MirrorOfClass | Call::Item => Ok(Shape::Mirror {
            class,
            what: Mirror::Class(INTS),
        }),
    }
}

// Whether a call is let pass, where memory is ample.
fn passes(alloc: Global, heap: &mut Heap, call: Call) -> Result<bool, Fail> {
    let end = match call {
        Call::Units(n) => {
            let units = vec![in alloc; 97u16; n]?;
            grow_text(heap, units.as_slice())?
        }
        Call::Item => grow_list(heap, Value::Int(5))?,
        _ => heap.alloc(shape_of(alloc, call)?).err(),
    };
    match end {
        None => Ok(true),
        Some(HeapEnd::Full) => Ok(false),
        Some(HeapEnd::NoMemory) => Err(Fail::new("no memory")),
    }
}

// The two objects of the start take a slot each, and the limit is at 16,777,216.
#[test]
fn heap_is_full_where_the_slots_pass_the_limit(rt: HostRuntime) -> Result<(), Fail> {
    let alloc = rt.alloc();
    let mut store = Store::new(alloc, instance(alloc, 0)?, instance(alloc, 0)?)?;
    let calls = [
        (Call::Text(4), true),
        (Call::List(0), true),
        // 5 are taken
        (Call::Array(16_777_211), false),
        (Call::Array(16_777_200), true),
        // 10 are left
        (Call::Fields(10), false),
        (Call::Array(10), false),
        (Call::Text(37), false),
        (Call::List(10), false),
        (Call::Text(5), true),
        // 7 are left
        (Call::Units(4), true),
        (Call::Units(1), true),
        (Call::Item, true),
        (Call::MirrorOfField, true),
        (Call::MirrorOfClass, true),
        (Call::MirrorOfField, false),
        // 1 is left
        (Call::Fields(1), false),
        (Call::Fields(0), true),
        // none is left, and the text has 9 units
        (Call::Fields(0), false),
        (Call::MirrorOfClass, false),
        (Call::Item, false),
        (Call::Units(3), true),
        (Call::Units(0), true),
        (Call::Units(1), false),
    ];
    for (call, want) in &calls {
        let got = passes(alloc, &mut store.heap, *call)?;
        assert_eq!(rt; got, *want, "{call:?}");
    }
    // what is made at the start counts whatever the limit is, and no number is given twice
    assert!(rt; store.heap.count() == 9);
    let started = store.heap.start(instance(alloc, 0)?)?;
    assert_eq!(rt; started, ObjRef(10));
    assert!(rt; !passes(alloc, &mut store.heap, Call::Units(1))?);
    Ok(())
}
