//! Loaders: where the name of a class leads, and constraints on loaders (JVMS 5.3, 5.3.4;
//! `java.lang.ModuleLayer`).
#![tactic(auto)]

mod constraint;
mod fault;
mod joins;
mod law;
mod loaders;
mod map;
mod parts;

pub use fault::{ConstraintFault, LoadersEnd};
pub use law::{are_sound, leads_stay};
pub use loaders::Loaders;
pub use parts::LoaderParts;

#[cfg(test)]
mod tests;
