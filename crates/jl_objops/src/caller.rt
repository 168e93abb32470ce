//! Whose code runs.

use jl_prim::ClassId;

/// The method whose code runs: its class, and its place there.
#[derive(Clone, Copy, Debug)]
pub struct Caller {
    pub class: ClassId,
    pub place: usize,
}
