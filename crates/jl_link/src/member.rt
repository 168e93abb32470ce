//! A member of a class that was found.

use jl_prim::ClassId;

/// A field or a method that was found: the class that declares it, its place in the list of that class, from 0, and
/// its flags.
#[derive(Clone, Copy, Debug, PartialEq, Eq)]
pub struct Member {
    pub owner: ClassId,
    pub at: usize,
    pub flags: u16,
}
