//! Configurations, layers, modules, loaders and facts, as lists. `Layers` keeps what holds of them together.

ghost use Rattle.std.specs.Prelude.{◌≡◌, [], None, Some, MatchOption};
ghost use Rattle.std.specs.Option.{option_copied};
ghost use Rattle.jl_config.specs.Located.{configuration_of, empty_configuration};
ghost use Rattle.jl_layer.specs.Layers.{State, layer_at, empty_layer, member_of};
ghost use Rattle.jl_layer.specs.Lines.{kept_line};
ghost use Rattle.jl_layer.specs.Orderly.{AreInOrder};

use crate::layer::{Layer, Member};
use jl_access::Facts;
use jl_config::{Configuration, Read};
use jl_loaders::Loaders;
use jl_prim::{ConfigId, Items, LayerId, ModuleId, Observed};
use std::alloc::Global;
use std::marker::Model;

/// The lists. Each has its items by their numbers, from 1 on. Beside each layer stands its line: the layer and those
/// above it, each once, in the order in which a name is looked for.
#[derive(Drop)]
pub struct Registry {
    pub configurations: Vec<Configuration>,
    pub layers: Vec<Layer>,
    pub lines: Vec<Items<LayerId>>,
    pub modules: Vec<Member>,
    pub loaders: Loaders,
    pub facts: Facts,
}

impl Model for Registry {
    ghost use Rattle.jl_layer.specs.Layers.{State};
    ghost use Rattle.jl_layer.specs.Lines.{AreLines};
    ghost use Rattle.jl_layer.specs.Orderly.{AreOrderly};

    ghost Value = { State };

    ghost view = { λ r. record { configurations = r.configurations.items; layers = r.layers.items; modules = r.modules.items; loaders = r.loaders; facts = r.facts } };

    ghost invariant = { λ r. AreOrderly r.layers.items r.modules.items × AreLines r.layers.items r.lines.items };
}

impl Registry {
    /// No configuration, layer, module, loader or fact.
    #[tactic(auto, using(crate::proofs::KeptLines::no_lines))]
    pub fn new(alloc: Global) -> Registry
        ensures { result ≡ record { configurations = []; layers = []; modules = []; loaders = record { loaders = []; base = None; constraints = []; spare = 0 }; facts = record { modules = []; statements = []; spare_modules = 0; spare_statements = 0 } } }
    {
        Registry {
            configurations: Vec::new(alloc),
            layers: Vec::new(alloc),
            lines: Vec::new(alloc),
            modules: Vec::new(alloc),
            loaders: Loaders::new(alloc),
            facts: Facts::new(alloc),
        }
    }

    /// Where memory comes from.
    pub fn allocator(&self) -> Global {
        *self.modules.allocator()
    }

    /// The layer with a number, but for the empty one.
    #[tactic(auto, using(crate::proofs::Numbers::layer_in_order))]
    pub fn layer(&self, l: LayerId) -> Option<&Layer>
        ensures order { AreInOrder self.now.modules (layer_at self.now l).modules }
        ensures layer { MatchOption result (layer_at self.now l ≡ empty_layer) (λ x. x.now ≡ layer_at self.now l) }
    {
        let layers = &self.layers;
        if l.0 == 0 {
            return None;
        }
        layers.get(l.0 as usize - 1)
    }

    /// The configuration with a number, but for the empty one.
    pub fn configuration(&self, c: ConfigId) -> Option<&Configuration>
        ensures { MatchOption result (configuration_of self.now.configurations c ≡ empty_configuration) (λ g. g.now ≡ configuration_of self.now.configurations c) }
    {
        if c.0 == 0 {
            return None;
        }
        self.configurations.get(c.0 as usize - 1)
    }

    /// The module with a number.
    pub fn member(&self, m: ModuleId) -> Option<&Member>
        ensures { option_copied result ≡ member_of self.now m }
    {
        if m.0 == 0 {
            return None;
        }
        self.modules.get(m.0 as usize - 1)
    }

    /// The modules of a layer.
    pub fn modules_of(&self, l: LayerId) -> &[ModuleId]
        ensures order { AreInOrder self.now.modules result.now }
        ensures modules { result.now ≡ (layer_at self.now l).modules }
    {
        match self.layer(l) {
            Some(layer) => layer.modules.as_slice(),
            None => &[],
        }
    }

    /// The parents of a layer.
    pub fn parents_of(&self, l: LayerId) -> &[LayerId]
        ensures { result.now ≡ (layer_at self.now l).parents }
    {
        match self.layer(l) {
            Some(layer) => layer.parents.as_slice(),
            None => &[],
        }
    }

    /// The layer and those above it, each once, in the order in which a name is looked for; of a layer that is not
    /// there, and of the empty one, none.
    pub fn line(&self, l: LayerId) -> &[LayerId]
        ensures { result.now ≡ kept_line self.now.layers l }
    {
        if l.0 == 0 {
            return &[];
        }
        match self.lines.get(l.0 as usize - 1) {
            Some(line) => line.as_slice(),
            None => &[],
        }
    }

    /// The number of a layer's configuration.
    pub fn config_of(&self, l: LayerId) -> ConfigId
        ensures { result ≡ (layer_at self.now l).config }
    {
        match self.layer(l) {
            Some(layer) => layer.config,
            None => ConfigId(0),
        }
    }

    /// The modules of a configuration.
    pub fn observed_in(&self, c: ConfigId) -> &[Observed]
        ensures { result.now ≡ (configuration_of self.now.configurations c).modules }
    {
        match self.configuration(c) {
            Some(configuration) => configuration.modules(),
            None => &[],
        }
    }

    /// The parents of a configuration.
    pub fn parents_in(&self, c: ConfigId) -> &[ConfigId]
        ensures { result.now ≡ (configuration_of self.now.configurations c).parents }
    {
        match self.configuration(c) {
            Some(configuration) => configuration.parents(),
            None => &[],
        }
    }

    /// Which module of a configuration reads which.
    pub fn reads_in(&self, c: ConfigId) -> &[Read]
        ensures { result.now ≡ (configuration_of self.now.configurations c).reads }
    {
        match self.configuration(c) {
            Some(configuration) => configuration.reads(),
            None => &[],
        }
    }
}
