//! Frames of a stack map.

use jl_prim::Items;

/// A frame that a StackMapTable declares (JVMS 4.7.4).
#[derive(Debug, Drop)]
pub struct Frame {
    /// The place in the code at which the frame stands, in bytes.
    pub offset: u32,
    /// What becomes of the frame before.
    pub change: Change,
    /// The items that the frame states, in their order.
    pub items: Items<RawItem>,
}

/// How a frame is made from the one before it (JVMS 4.7.4).
#[derive(Clone, Copy, Debug, PartialEq, Eq)]
pub enum Change {
    /// The same locals, and an empty stack.
    Same,
    /// The same locals, and the one item on the stack.
    One,
    /// The locals without so many of the last ones, 1 to 3, and an empty stack.
    Chop(u8),
    /// The locals with the items behind them, 1 to 3, and an empty stack.
    Append,
    /// All is stated. So many of the items are the locals, and the others are the stack.
    Full(u16),
}

/// An item as it stands in a frame: a verification type (JVMS 4.7.4).
#[derive(Clone, Copy, Debug, PartialEq, Eq)]
pub enum RawItem {
    Top,
    Int,
    Float,
    Double,
    Long,
    Null,
    UninitThis,
    /// An object of the class at this index of the pool.
    Object(u16),
    /// The object that the `new` instruction at this place of the code makes.
    Uninit(u16),
}
