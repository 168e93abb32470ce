//! Tests of statics.

use crate::store::{CLASS, empty_store};
use jl_heap::{Kind, Statics, Usable, Value};
use jl_prim::Items;
use std::test::*;

// Whether the first and the second task may use the class.
fn tasks(statics: &Statics) -> (bool, bool) {
    (statics.usable(CLASS, 1), statics.usable(CLASS, 2))
}

#[test]
fn class_is_usable_by_one_task_or_by_all(rt: HostRuntime) -> Result<(), Fail> {
    let alloc = rt.alloc();
    let mut statics = empty_store(alloc)?.statics;
    assert!(rt; !statics.usable(CLASS, 1));
    let kinds = Items::from_vec(vec![in alloc; Kind::Long, Kind::Ref]?);
    statics.admit(CLASS, kinds)?;
    assert_eq!(rt; tasks(&statics), (false, false));
    statics.set_usable(CLASS, Usable::By(1));
    assert_eq!(rt; tasks(&statics), (true, false));
    statics.set_usable(CLASS, Usable::All);
    assert_eq!(rt; tasks(&statics), (true, true));
    statics.set_usable(CLASS, Usable::No);
    assert_eq!(rt; tasks(&statics), (false, false));
    Ok(())
}
