//! What a loader is made of.

ghost use Rattle.std.specs.Prelude.{◌≡◌, IfOk};
ghost use Rattle.jl_loaders.specs.Loaders.{IsMap, module_for};

use crate::fault::LoadersEnd;
use crate::map::{given_in, map_of};
use jl_prim::{Items, ModuleId, Name, ParentLoader};
use std::alloc::Global;
use std::marker::Model;
use std::snapshot::Snapshot;

/// The packages of a loader's modules, and those that these get from other modules by exports, each with
/// its module, and the parent loader. What runs has one map of them, and contracts see them as they were given.
#[derive(Drop)]
pub struct LoaderParts {
    map: Vec<(Name, ModuleId)>,
    parent: ParentLoader,
    own: Snapshot<Items<(Name, ModuleId)>>,
    seen: Snapshot<Items<(Name, ModuleId)>>,
}

impl Model for LoaderParts {
    ghost use Rattle.jl_loaders.specs.Loaders.{Parts, IsMap};

    ghost Value = { Parts };

    ghost view = { λ p. record { own = p.own.value; seen = p.seen.value; parent = p.parent } };

    ghost invariant = { λ p. IsMap (record { own = p.own.value; seen = p.seen.value; parent = p.parent }) p.map.items };
}

impl LoaderParts {
    /// The parts of a loader. `own` has the packages of its modules, and `seen` what these may import: packages
    /// exported to a module of the loader by one that it reads. Without memory the lists are dropped.
    pub fn new(
        alloc: Global,
        own: Items<(Name, ModuleId)>,
        seen: Items<(Name, ModuleId)>,
        parent: ParentLoader,
    ) -> Result<LoaderParts, LoadersEnd>
        ensures { IfOk result (λ parts. parts ≡ record { own = own; seen = seen; parent = parent }) }
    {
        let own_pairs = Snapshot::of(&own);
        let seen_pairs = Snapshot::of(&seen);
        let map = map_of(alloc, own, seen)?;
        Ok(LoaderParts {
            map,
            parent,
            own: own_pairs,
            seen: seen_pairs,
        })
    }

    /// Each package that the loader has, with its module, in the order of the bytes of the packages.
    pub(crate) fn map(&self) -> &[(Name, ModuleId)]
        ensures { IsMap self.now result.now }
    {
        self.map.as_slice()
    }

    /// The module that the loader has for a package.
    pub(crate) fn module_for(&self, name: &[u8]) -> Option<ModuleId>
        ensures { result ≡ module_for self.now name.now }
    {
        given_in(self.map.as_slice(), name)
    }

    /// The loader to which it turns last.
    pub(crate) fn parent(&self) -> ParentLoader
        ensures { result ≡ self.now.parent }
    {
        self.parent
    }
}
