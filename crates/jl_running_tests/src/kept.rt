//! Tests of kept objects.

use crate::store::{CLASS, empty_store};
use jl_heap::{KeptKey, Mirror};
use jl_names::Units;
use jl_prim::{FieldId, ObjRef};
use std::test::*;

// Keys that differ in one part, each with an object of its own.
#[test]
fn key_finds_its_object_alone(rt: HostRuntime) -> Result<(), Fail> {
    let alloc = rt.alloc();
    let mut kept = empty_store(alloc)?.kept;
    assert_eq!(rt; (kept.no_heap(), kept.out()), (ObjRef(1), ObjRef(2)));
    let fields = [(4, false), (4, true), (5, true)];
    for (number, is_open) in &fields {
        let key = KeptKey::Mirror(Mirror::Field(FieldId(*number), *is_open));
        assert!(rt; kept.find(&key).is_none());
        kept.keep(key, ObjRef(number * 2 + u32::from(*is_open)))?;
    }
    let text = KeptKey::Text(Units::from_vec(vec![in alloc; 97u16; 2]?));
    assert!(rt; kept.find(&text).is_none());
    kept.keep(text, ObjRef(20))?;
    let rows = [
        (
            KeptKey::Mirror(Mirror::Field(FieldId(4), false)),
            Some(ObjRef(8)),
        ),
        (
            KeptKey::Mirror(Mirror::Field(FieldId(4), true)),
            Some(ObjRef(9)),
        ),
        (
            KeptKey::Mirror(Mirror::Field(FieldId(5), true)),
            Some(ObjRef(11)),
        ),
        (KeptKey::Mirror(Mirror::Field(FieldId(5), false)), None),
        (
            KeptKey::Text(Units::from_vec(vec![in alloc; 97u16; 2]?)),
            Some(ObjRef(20)),
        ),
        (
            KeptKey::Text(Units::from_vec(vec![in alloc; 97u16; 3]?)),
            None,
        ),
        (KeptKey::Boxed(CLASS, 8), None),
    ];
    for (key, want) in &rows {
        assert_eq!(rt; kept.find(key), *want, "{key:?}");
    }
    Ok(())
}
