//! Layers are defined, or refused and nothing changes (`ModuleLayer.defineModules`).

ghost use Rattle.std.specs.Prelude.{◌≡◌, ◌<◌, [], ◌∷◌, All, Contains, None, IfErr, IfOk, OnErr, OnOk, codes, length};
ghost use Rattle.jl_prim.specs.declared.declaration.Observed.{Observed};
ghost use Rattle.jl_config.specs.Located.{configuration_of, name_of};
ghost use Rattle.jl_loaders.specs.Loaders as delegation;
ghost use Rattle.jl_layer.specs.declared.fault.LayerFault.{LayerFault};
ghost use Rattle.jl_layer.specs.Changes.{with_base};
ghost use Rattle.jl_layer.specs.Defining.{IsAsBefore, IsDefined, boot, next_layer};
ghost use Rattle.jl_layer.specs.Layers.{IsConfiguration, IsLayer, named_in};
ghost use Rattle.jl_layer.specs.Leads.{boot_layer};
ghost use Rattle.jl_layer.specs.Orderly.{AreOrderly};
ghost use Rattle.jl_layer.specs.Refusals.{Applies, AppliesToBoot, Refuses};
ghost use Rattle.jl_layer.specs.Sound.{AreSound};

use crate::fault::LayerFault;
use crate::layer::Mode;
use crate::registry::Registry;
use jl_prim::{ConfigId, LayerId, ParentLoader};

impl Registry {
    /// Defines a layer over parent layers.
    pub fn define(
        &mut self,
        cf: ConfigId,
        parents: &[LayerId],
        mode: Mode,
        parent_loader: ParentLoader,
    ) -> Result<LayerId, LayerFault>
        requires sound { AreSound self.old }
        requires known { IsConfiguration self.old cf }
        requires layers { All (IsLayer self.old) parents.now }
        requires loader { delegation.ParentExists self.old.loaders parent_loader }
        ensures number { IfOk result (λ l. l ≡ next_layer self.old) }
        ensures defines { OnOk result (IsDefined self.old (record { config = cf; parents = parents.now; mode = mode; parent_loader = parent_loader }) self.new) }
        ensures base { self.new.loaders.base ≡ self.old.loaders.base }
        ensures allowed { OnOk result ((f : LayerFault) → Applies self.old (record { config = cf; parents = parents.now; mode = mode; parent_loader = parent_loader }) f → ⊥) }
        ensures refuses { IfErr result (Refuses (Applies self.old (record { config = cf; parents = parents.now; mode = mode; parent_loader = parent_loader }))) }
        ensures before { OnErr result (IsAsBefore self.old self.new) }
    {
        if let Some(fault) = self.refusal(cf, parents, mode)? {
            return Err(fault);
        }
        let added = self.begun(cf, parents, mode, parent_loader)?;
        self.stay_orderly();
        self.take_in(added);
        Ok(self.last_layer())
    }

    /// Defines the boot layer.
    pub fn define_boot(&mut self, cf: ConfigId) -> Result<LayerId, LayerFault>
        requires sound { AreSound self.old }
        requires first { self.old.layers ≡ [] }
        requires known { IsConfiguration self.old cf }
        ensures number { IfOk result (λ l. l ≡ boot_layer) }
        ensures defines { OnOk result (IsDefined self.old (boot cf) self.new) }
        ensures base { OnOk result (self.new.loaders.base ≡ named_in self.new boot_layer (codes "java.base")) }
        ensures allowed { OnOk result ((f : LayerFault) → AppliesToBoot self.old (boot cf) f → ⊥) }
        ensures refuses { IfErr result (Refuses (AppliesToBoot self.old (boot cf))) }
        ensures before { OnErr result (IsAsBefore self.old self.new) }
    {
        if let Some(fault) = self.boot_refusal(cf)? {
            return Err(fault);
        }
        let added = self.begun(cf, &[LayerId(0)], Mode::One, ParentLoader::Null)?;
        self.stay_orderly();
        self.set_base();
        self.take_in(added);
        Ok(self.last_layer())
    }

    /// Says that the modules of layers are in order. There is nothing to run.
    fn stay_orderly(&self)
        ensures { AreOrderly self.now.layers self.now.modules }
    {
        let _ = &self.layers;
    }

    /// The number of the last layer.
    fn last_layer(&self) -> LayerId
        requires { length self.now.layers < 4294967295 }
        ensures { result ≡ record { 0 = length self.now.layers } }
    {
        LayerId(self.layers.len() as u32)
    }

    /// Says to the loaders which module `java.base` is.
    fn set_base(&mut self)
        requires once { self.old.loaders.base ≡ None }
        requires early { self.old.loaders.loaders ≡ [] }
        ensures { self.new ≡ with_base (named_in self.old boot_layer (codes "java.base")) self.old }
    {
        match self.named_in(LayerId(1), b"java.base".as_slice()) {
            Some(m) => self.loaders.set_base(m),
            None => {}
        }
    }
}
