//! Layers of modules (`java.lang.ModuleLayer`; JVMS 5.3): configurations that are kept, layers with their modules
//! and loaders, and what the modules of a layer state.
#![tactic(auto)]

mod changing;
mod claims;
mod deciding;
mod defining;
mod fault;
mod finding;
mod law;
mod layer;
mod layers;
mod lines;
mod loader_rows;
mod placing;
mod reading;
mod refusals;
mod registry;
mod stating;

pub use fault::{KeepEnd, LayerFault};
pub use law::{are_sound, layers_stay, leads_by_layers, resolved_is_keepable};
pub use layer::Mode;
pub use layers::Layers;
