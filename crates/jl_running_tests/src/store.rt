//! A store with which tests begin.

ghost use Rattle.std.specs.Prelude.{◌≡◌, [], IfOk};

use jl_heap::{Shape, Store};
use jl_prim::{ClassId, Items};
use std::alloc::Global;
use std::test::*;

/// A class of the tests.
pub const CLASS: ClassId = ClassId(7);

/// A store with two objects without fields.
pub fn empty_store(alloc: Global) -> Result<Store, Fail>
    ensures { IfOk result (λ store. (store.statics ≡ []) × (store.kept.pairs ≡ [])) }
{
    let no_heap = Shape::Object {
        class: CLASS,
        fields: Items::new(alloc),
    };
    let out = Shape::Object {
        class: ClassId(8),
        fields: Items::new(alloc),
    };
    Ok(Store::new(alloc, no_heap, out)?)
}
