//! The modules on a module path (`java.lang.module.ModuleFinder`).
#![tactic(auto)]

mod counts;
mod directory;
mod fault;
mod finding;
mod law;
mod listing;
mod module;
mod names;
mod walk;

pub use fault::FindFault;
pub use finding::find_all;
pub use law::finds_by_places;
