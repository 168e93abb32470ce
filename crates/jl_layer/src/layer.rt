//! Layers and their modules.

use jl_prim::{ConfigId, Items, LayerId, LoaderId, ModuleId, Observed, ParentLoader};

/// Whether the modules of a layer share a loader (`ModuleLayer.defineModulesWithOneLoader`,
/// `ModuleLayer.defineModulesWithManyLoaders`).
#[derive(Clone, Copy, Debug, PartialEq, Eq)]
pub enum Mode {
    /// All modules have one loader.
    One,
    /// Each module has a loader of its own.
    Many,
}

/// A layer: its configuration, its parents in order, its modules in the order of their names, and the loader to
/// which its loaders turn last.
#[derive(Drop)]
pub struct Layer {
    pub config: ConfigId,
    pub parents: Items<LayerId>,
    pub modules: Items<ModuleId>,
    pub parent_loader: ParentLoader,
}

/// A module of a layer: its layer, its loader, and its declaration with the place of its files.
#[derive(Drop)]
pub struct Member {
    pub layer: LayerId,
    pub loader: LoaderId,
    pub observed: Observed,
}
