//! A constraint on two loaders.

use jl_prim::{LoaderId, Name};

/// Two loaders that must not lead the class of a name to two modules (JVMS 5.3.4).
#[derive(Drop)]
pub struct Constraint {
    pub name: Name,
    pub one: LoaderId,
    pub other: LoaderId,
}
