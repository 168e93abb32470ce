//! References of loaded classes, resolved once for all (JVMS 5.4.3), and the methods that are selected (JVMS 5.4.6).
#![tactic(auto)]

mod accessing;
mod arrays;
mod classes;
mod constraining;
mod entry;
mod fields;
mod keeping;
mod kind;
mod law;
mod layering;
mod linking;
mod member;
mod methods;
mod nests;
mod overriding;
mod references;
mod resolving;
mod selection;
mod targeting;
mod world;

pub use jl_loads::{FileEnd, LinkEnd, PoolSlot, Target, WorldFault};
pub use law::{decided_is_listed, decided_stays};
pub use member::Member;
pub use world::{World, all_stand, is_sound, targets_are_there};
