//! Layers that a test makes, with counts by which it knows which numbers are those of something.

ghost use Rattle.std.specs.Prelude.{◌≡◌, ◌<◌, ◌≤◌, true, length, IfOk, All};
ghost use Rattle.jl_prim.specs.Limits.{most_modules};
ghost use Rattle.jl_loaders.specs.Loaders.{IsLoader, ParentExists};
ghost use Rattle.jl_layer.specs.Layers.{IsLayer};

use crate::making::{is_bootable, loader_count, modules_in, resolved};
use jl_layer::{LayerFault, Layers, Mode};
use jl_prim::{ConfigId, Found, LayerId, LoaderId, ParentLoader};
use std::alloc::Global;
use std::marker::Model;
use std::test::Fail;

/// Layers, with how many layers, modules and loaders there are.
#[derive(Drop)]
pub struct Stage {
    layers: Layers,
    defined: usize,
    placed: usize,
    led: usize,
}

impl Model for Stage {
    ghost use Rattle.jl_layer.specs.Layers.{State};
    ghost use Rattle.jl_link_tests.specs.Counts.{AreCounts};

    ghost Value = { State };

    ghost view = { λ s. s.layers };

    ghost invariant = { λ s. AreCounts s.layers s.defined s.placed s.led };
}

impl Stage {
    /// No layer.
    pub fn new(alloc: Global) -> Stage {
        Stage {
            layers: Layers::new(alloc),
            defined: 0,
            placed: 0,
            led: 0,
        }
    }

    /// Keeps the configuration of modules, all of which are roots, over parents.
    pub fn keep(
        &mut self,
        alloc: Global,
        modules: &Found,
        parents: &[ConfigId],
    ) -> Result<ConfigId, Fail> {
        let cf = resolved(alloc, &self.layers, modules, parents)?;
        Ok(self.layers.keep(cf)?)
    }

    /// Defines the boot layer.
    pub fn define_boot(&mut self, cf: ConfigId) -> Result<Result<LayerId, LayerFault>, Fail> {
        let known = self.layers.configurations();
        if self.defined != 0 || self.placed > 4096 || self.led > 4096 || !is_bootable(known, cf) {
            return Err(Fail::new("no boot layer"));
        }
        let modules = modules_in(known, cf);
        let (placed, led) = (modules.len(), loader_count(Mode::One, modules));
        if placed > 4096 || led > 4096 {
            return Err(Fail::new("too many to be kept"));
        }
        match self.layers.define_boot(cf) {
            Ok(l) => {
                self.defined += 1;
                self.placed += placed;
                self.led += led;
                Ok(Ok(l))
            }
            Err(fault) => Ok(Err(fault)),
        }
    }

    /// Defines a layer.
    pub fn define(
        &mut self,
        cf: ConfigId,
        parents: &[LayerId],
        mode: Mode,
        parent_loader: ParentLoader,
    ) -> Result<Result<LayerId, LayerFault>, Fail> {
        let known = self.layers.configurations();
        if cf.0 as usize > known.len()
            || !self.has_room()
            || !self.are_there(parents, parent_loader)
        {
            return Err(Fail::new("no layer"));
        }
        let modules = modules_in(known, cf);
        let (placed, led) = (modules.len(), loader_count(mode, modules));
        if placed > 4096 || led > 4096 {
            return Err(Fail::new("too many to be kept"));
        }
        match self.layers.define(cf, parents, mode, parent_loader) {
            Ok(l) => {
                self.defined += 1;
                self.placed += placed;
                self.led += led;
                Ok(Ok(l))
            }
            Err(fault) => Ok(Err(fault)),
        }
    }

    /// Whether a layer can follow: the boot layer is there, and the counts are those of layers.
    fn has_room(&self) -> bool
        ensures { result ≡ true → (0 < length self.now.layers) × (length self.now.layers ≤ most_modules) × (length self.now.modules ≤ most_modules) × (length self.now.loaders.loaders ≤ most_modules) }
    {
        self.defined > 0 && self.defined <= 4096 && self.placed <= 4096 && self.led <= 4096
    }

    /// Whether layers and a parent loader are there.
    fn are_there(&self, layers: &[LayerId], parent_loader: ParentLoader) -> bool
        ensures layers { result ≡ true → All (IsLayer self.now) layers.now }
        ensures loader { result ≡ true → ParentExists self.now.loaders parent_loader }
    {
        self.are_layers(layers) && self.is_parent(parent_loader)
    }

    fn are_layers(&self, layers: &[LayerId]) -> bool
        ensures { result ≡ true → All (IsLayer self.now) layers.now }
    {
        layers.iter().all(|l| self.is_layer(*l))
    }

    fn is_parent(&self, parent_loader: ParentLoader) -> bool
        ensures { result ≡ true → ParentExists self.now.loaders parent_loader }
    {
        match parent_loader {
            ParentLoader::Null => true,
            ParentLoader::Loader(l) => self.is_loader(l),
        }
    }

    /// Whether a layer is there.
    fn is_layer(&self, l: LayerId) -> bool
        ensures { result ≡ true → IsLayer self.now l }
    {
        l.0 as usize <= self.defined
    }

    /// Whether a loader is there.
    fn is_loader(&self, l: LoaderId) -> bool
        ensures { result ≡ true → IsLoader self.now.loaders l }
    {
        l.0 > 0 && l.0 as usize <= self.led
    }

    /// The layers, of which the boot layer is there.
    pub fn into_layers(self) -> Result<Layers, Fail>
        ensures { IfOk result (λ layers. 0 < length layers.layers) }
    {
        let Stage {
            layers,
            defined,
            ..
        } = self;
        if defined == 0 {
            return Err(Fail::new("no boot layer"));
        }
        Ok(layers)
    }
}
