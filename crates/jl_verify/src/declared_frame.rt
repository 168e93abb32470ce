//! Frames that a stack map declares.

use crate::type_frame::TypeFrame;
use jl_prim::Items;
use jl_vtypes::Item;

/// A frame that is declared for a place of the code.
#[derive(Debug, Drop)]
pub struct DeclaredFrame {
    pub offset: u32,
    pub frame: TypeFrame,
}

/// Locals and stack as a stack map states them, from the lowest, where a long is one item (JVMS 4.7.4).
#[derive(Debug, Drop)]
pub struct Types {
    pub locals: Items<Item>,
    pub stack: Items<Item>,
}
