//! What is kept of a class beside it.

use jl_prim::{ClassId, Items};

/// The superinterfaces of a class, each once and in order, and the numbers of its first field and of its first method.
#[derive(Drop)]
pub struct Rank {
    pub above: Items<ClassId>,
    pub fields: u32,
    pub methods: u32,
}
