//! Modules by their names: in a layer, and in a layer or those above it (`ModuleLayer.findModule`).

ghost use Rattle.std.specs.Prelude.{◌≡◌};
ghost use Rattle.jl_layer.specs.Layers.{above, named_in, first_given, member_of};
ghost use Rattle.jl_layer.specs.Layers as words;
ghost use Rattle.jl_layer.specs.Meaning.{is_layer_of, meant_above};
ghost use Rattle.jl_layer.specs.Orderly.{name_in, if_passes};

use crate::registry::Registry;
use jl_prim::{ConfigId, LayerId, ModuleId};

impl Registry {
    /// The module of a layer with a name.
    pub fn named_in(&self, l: LayerId, name: &[u8]) -> Option<ModuleId>
        ensures { result ≡ named_in self.now l name.now }
    {
        let modules = self.modules_of(l);
        match modules.binary_search_by(|m| self.name_of(*m).cmp(name)) {
            Ok(at) => Some(modules[at]),
            Err(_) => None,
        }
    }

    /// The name of a module; of none it is empty.
    fn name_of(&self, m: ModuleId) -> &[u8]
        ensures { result.now ≡ name_in (member_of self.now m) }
    {
        match self.member(m) {
            Some(member) => member.observed.declaration.name.as_bytes(),
            None => &[],
        }
    }

    /// The module with a name: of the layer, or else of the first above it that has one, in order and depth first.
    pub fn find_module(&self, l: LayerId, name: &[u8]) -> Option<ModuleId>
        ensures { result ≡ words.find_module self.now l name.now }
    {
        match self.named_in(l, name) {
            Some(m) => Some(m),
            None => self.first_named(self.line(l), name),
        }
    }

    /// The module with a name of the first of some layers that has one.
    fn first_named(&self, layers: &[LayerId], name: &[u8]) -> Option<ModuleId>
        ensures { result ≡ first_given (λ k. named_in self.now k name.now) layers.now }
    {
        for layer in layers {
            if let Some(m) = self.named_in(*layer, name) {
                return Some(m);
            }
        }
        None
    }

    /// The module that a configuration's module is: the one of its name in the first layer of this configuration, of
    /// some layers and those above them, in order and depth first.
    #[tactic(auto, using(crate::proofs::Along::find_first))]
    pub fn meant_above(&self, layers: &[LayerId], config: ConfigId, name: &[u8]) -> Option<ModuleId>
        ensures { result ≡ meant_above self.now layers.now config name.now }
    {
        let layer = self.layer_along(layers, config)?;
        self.named_in(layer, name)
    }

    /// Whether a layer is one of this configuration.
    fn is_layer_of(&self, l: LayerId, config: ConfigId) -> bool
        ensures { result ≡ is_layer_of self.now config l }
    {
        self.config_of(l).0 == config.0
    }

    /// The first layer of a configuration, of some layers and those above them, in order and depth first.
    fn layer_along(&self, layers: &[LayerId], config: ConfigId) -> Option<LayerId>
        ensures { result ≡ first_given (if_passes (is_layer_of self.now config)) (above self.now layers.now) }
    {
        for layer in layers {
            if self.is_layer_of(*layer, config) {
                return Some(*layer);
            }
            if let Some(l) = self.first_of(self.line(*layer), config) {
                return Some(l);
            }
        }
        None
    }

    /// The first layer of a configuration, of some layers.
    fn first_of(&self, layers: &[LayerId], config: ConfigId) -> Option<LayerId>
        ensures { result ≡ first_given (if_passes (is_layer_of self.now config)) layers.now }
    {
        for layer in layers {
            if self.is_layer_of(*layer, config) {
                return Some(*layer);
            }
        }
        None
    }
}
