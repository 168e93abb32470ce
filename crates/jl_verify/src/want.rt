//! What instructions take.

use jl_prim::Name;
use jl_vtypes::Item;

/// What an instruction takes from a slot of the stack, where its opcode says it.
#[derive(Clone, Copy, Debug, PartialEq, Eq)]
pub enum Want {
    /// Whatever stands there.
    Slot,
    Int,
    /// The lower slot of a long.
    Long,
    /// The higher slot of a long.
    Half,
    /// A class, an array or null, initialized or not.
    Reference,
    /// A class, an array or null.
    Object,
    /// An array or null.
    Array,
    /// An array of references, or null.
    References,
    /// An array of bytes or of booleans, or null.
    Bytes,
    /// An array of the primitive type with this letter, or null.
    Prims(u8),
}

/// What an instruction takes from a slot of the stack.
#[derive(Debug, Drop)]
pub enum Wanted {
    /// What its opcode says.
    Says(Want),
    /// What is assignable to an item.
    To(Item),
    /// What has a field of the class named, which in the class itself may be `this` before it is initialized.
    Owner(Name),
    /// An object before the `<init>` of the class named.
    Fresh(Name),
}
