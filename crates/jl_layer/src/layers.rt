//! The layers, with all that is known of their modules.

ghost use Rattle.std.specs.Prelude.{◌≡◌, ◌+◌, ◌<◌, [], ◌∷◌, ◌++◌, length, All, None, IfOk, IfErr, IfSome, OnOk, OnErr, IsTrue, Contains, codes};
ghost use Rattle.std.specs.Str.{IsUtf8};
ghost use Rattle.jl_prim.specs.declared.declaration.Observed.{Observed};
ghost use Rattle.jl_config.specs.Located.{configuration_of, name_of};
ghost use Rattle.jl_loaders.specs.Constraints.{IsViolated, with_constraint};
ghost use Rattle.jl_loaders.specs.Loaders as delegation;
ghost use Rattle.jl_loaders.specs.Refusals.{IsRefusal};
ghost use Rattle.jl_access.specs.Facts as access;
ghost use Rattle.jl_access.specs.declared.statement.Statement.TheVariants as statements;
ghost use Rattle.jl_layer.specs.declared.fault.LayerFault.{LayerFault};
ghost use Rattle.jl_layer.specs.Layers.{State, IsLayer, IsConfiguration, IsModule, layer_at, member_of, declaration_of, named_in};
ghost use Rattle.jl_layer.specs.Layers as words;
ghost use Rattle.jl_layer.specs.Leads.{boot_layer};
ghost use Rattle.jl_layer.specs.Changes.{with_configuration, with_loaders, KeepsAllButFacts};
ghost use Rattle.jl_layer.specs.Defining.{Asked, boot, next_layer, IsDefined, IsAsBefore};
ghost use Rattle.jl_layer.specs.Keeping.{IsKeepable};
ghost use Rattle.jl_layer.specs.Laws.{Grows};
ghost use Rattle.jl_layer.specs.Refusals.{Applies, AppliesToBoot, Refuses};
ghost use Rattle.jl_layer.specs.Sound.{AreSound};

use crate::fault::{KeepEnd, LayerFault};
use crate::layer::Mode;
use crate::registry::Registry;
use jl_access::{Facts, FactsEnd};
use jl_config::Configuration;
use jl_loaders::{ConstraintFault, Loaders};
use jl_prim::{ConfigId, LayerId, LoaderId, ModuleId, Name, ParentLoader};
use std::alloc::Global;
use std::marker::Model;

/// The configurations that are kept, and the layers over them.
#[derive(Drop)]
pub struct Layers {
    registry: Registry,
}

impl Model for Layers {
    ghost use Rattle.jl_layer.specs.Layers.{State};
    ghost use Rattle.jl_layer.specs.Sound.{AreSound};

    ghost Value = { State };

    ghost view = { λ l. l.registry };

    ghost invariant = { λ l. AreSound l.registry };
}

impl Layers {
    /// No configuration but the empty one, and no layer but the empty one.
    pub fn new(alloc: Global) -> Layers
        ensures { result ≡ record { configurations = []; layers = []; modules = []; loaders = record { loaders = []; base = None; constraints = []; spare = 0 }; facts = record { modules = []; statements = []; spare_modules = 0; spare_statements = 0 } } }
    {
        Layers {
            registry: Registry::new(alloc),
        }
    }

    /// Adds a configuration, which has the next number, to those that are kept.
    pub fn keep(&mut self, cf: Configuration) -> Result<ConfigId, KeepEnd>
        requires keepable { IsKeepable self.old.configurations cf }
        ensures number { IfOk result (λ c. c ≡ cf.id) }
        ensures keeps { OnOk result (self.new ≡ with_configuration cf self.old) }
        ensures kept { OnErr result (self.new ≡ self.old) }
        ensures grows { Grows self.old self.new }
    {
        cf.in_order();
        let number = cf.id();
        self.registry.keep(cf)?;
        Ok(number)
    }

    /// The configurations that are kept: the one with number n at place n - 1.
    pub fn configurations(&self) -> &[Configuration]
        ensures { result.now ≡ self.now.configurations }
    {
        self.registry.configurations.as_slice()
    }

    /// Defines the boot layer, with one loader for all its modules (`ModuleLayer.boot`). `Overlap` comes exactly
    /// where two modules have one package. On a refusal nothing has changed.
    pub fn define_boot(&mut self, cf: ConfigId) -> Result<LayerId, LayerFault>
        requires first { self.old.layers ≡ [] }
        requires kept { IsConfiguration self.old cf }
        requires base { (o : Observed) × Contains (configuration_of self.old.configurations cf).modules o × (name_of o ≡ codes "java.base") }
        requires parents { (configuration_of self.old.configurations cf).parents ≡ record { 0 = 0 } ∷ [] }
        ensures number { IfOk result (λ l. l ≡ boot_layer) }
        ensures defines { OnOk result (IsDefined self.old (boot cf) self.new) }
        ensures base { OnOk result (self.new.loaders.base ≡ named_in self.new boot_layer (codes "java.base")) }
        ensures allowed { OnOk result ((f : LayerFault) → AppliesToBoot self.old (boot cf) f → ⊥) }
        ensures refuses { IfErr result (Refuses (AppliesToBoot self.old (boot cf))) }
        ensures before { OnErr result (IsAsBefore self.old self.new) }
        ensures grows { Grows self.old self.new }
    {
        self.registry.define_boot(cf)
    }

    /// Defines a layer over parent layers (`ModuleLayer.defineModules`): with one loader for all modules or one for
    /// each, which turn last to the given parent. On a refusal nothing has changed.
    pub fn define(
        &mut self,
        cf: ConfigId,
        parents: &[LayerId],
        mode: Mode,
        parent_loader: ParentLoader,
    ) -> Result<LayerId, LayerFault>
        requires boot { 0 < length self.old.layers }
        requires known { IsConfiguration self.old cf }
        requires layers { All (IsLayer self.old) parents.now }
        requires loader { delegation.ParentExists self.old.loaders parent_loader }
        ensures number { IfOk result (λ l. l ≡ next_layer self.old) }
        ensures defines { OnOk result (IsDefined self.old (record { config = cf; parents = parents.now; mode = mode; parent_loader = parent_loader }) self.new) }
        ensures base { self.new.loaders.base ≡ self.old.loaders.base }
        ensures allowed { OnOk result ((f : LayerFault) → Applies self.old (record { config = cf; parents = parents.now; mode = mode; parent_loader = parent_loader }) f → ⊥) }
        ensures refuses { IfErr result (Refuses (Applies self.old (record { config = cf; parents = parents.now; mode = mode; parent_loader = parent_loader }))) }
        ensures before { OnErr result (IsAsBefore self.old self.new) }
        ensures grows { Grows self.old self.new }
    {
        self.registry.define(cf, parents, mode, parent_loader)
    }

    /// The module with a name: of the layer, or else of the first above it that has one, in order and depth first
    /// (`ModuleLayer.findModule`).
    pub fn find_module(&self, layer: LayerId, name: &[u8]) -> Option<ModuleId>
        requires { IsLayer self.now layer }
        ensures { result ≡ words.find_module self.now layer name.now }
    {
        self.registry.find_module(layer, name)
    }

    /// The name of a module.
    pub fn module_name(&self, m: ModuleId) -> &Name
        requires { IsModule self.now m }
        ensures { IfSome (member_of self.now m) (λ x. result.now ≡ (declaration_of x).name) }
    {
        &self.registry.member_at(m).observed.declaration.name
    }

    /// The folder that holds a module. That of a built-in module is empty.
    pub fn place_of(&self, m: ModuleId) -> &Name
        requires { IsModule self.now m }
        ensures { IfSome (member_of self.now m) (λ x. result.now ≡ x.observed.place) }
    {
        &self.registry.member_at(m).observed.place
    }

    /// The layer of a module.
    pub fn layer_of(&self, m: ModuleId) -> LayerId
        requires { IsModule self.now m }
        ensures { IfSome (member_of self.now m) (λ x. result ≡ x.layer) }
    {
        self.registry.member_at(m).layer
    }

    /// The loader of a module.
    pub fn loader_of_module(&self, m: ModuleId) -> LoaderId
        requires { IsModule self.now m }
        ensures { IfSome (member_of self.now m) (λ x. result ≡ x.loader) }
    {
        self.registry.member_at(m).loader
    }

    /// The modules of a layer, in the order of their names. Layer 0 has none.
    pub fn modules_of(&self, l: LayerId) -> &[ModuleId]
        requires { IsLayer self.now l }
        ensures { result.now ≡ (layer_at self.now l).modules }
    {
        self.registry.modules_of(l)
    }

    /// The parents of a layer, in order. Layer 0 has none.
    pub fn parents_of(&self, l: LayerId) -> &[LayerId]
        requires { IsLayer self.now l }
        ensures { result.now ≡ (layer_at self.now l).parents }
    {
        self.registry.parents_of(l)
    }

    /// The configuration of a layer. That of layer 0 is configuration 0.
    pub fn config_of(&self, l: LayerId) -> ConfigId
        requires { IsLayer self.now l }
        ensures { result ≡ (layer_at self.now l).config }
    {
        self.registry.config_of(l)
    }

    /// Adds that two loaders must not lead the class of a name to two modules (JVMS 5.3.4). `Clash` comes exactly
    /// where, with this constraint, joined loaders would; nothing changes then, nor without memory.
    pub fn impose(&mut self, name: &[u8], l: LoaderId, l2: LoaderId) -> Result<(), ConstraintFault>
        requires text { IsUtf8 name.now }
        requires one { delegation.IsLoader self.old.loaders l }
        requires other { delegation.IsLoader self.old.loaders l2 }
        ensures adds { OnOk result (self.new ≡ with_loaders (with_constraint name.now l l2 self.old.loaders) self.old) }
        ensures stands { OnOk result (IsViolated (with_constraint name.now l l2 self.old.loaders) → ⊥) }
        ensures refused { IfErr result (IsRefusal self.old.loaders name.now l l2) }
        ensures kept { OnErr result (self.new ≡ self.old) }
        ensures grows { Grows self.old self.new }
    {
        self.registry.impose(name, l, l2)
    }

    /// States that a reads b (`Module.addReads`).
    pub fn add_reads(&mut self, a: ModuleId, b: ModuleId) -> Result<(), FactsEnd>
        requires reader { access.IsModule self.old.facts a }
        requires other { access.IsModule self.old.facts b }
        ensures ok { OnOk result (access.Adds (statements.Reads a b) self.old.facts self.new.facts) }
        ensures err { OnErr result (access.IsAsBefore self.old.facts self.new.facts) }
        ensures others { KeepsAllButFacts self.old self.new }
        ensures grows { Grows self.old self.new }
    {
        self.registry.add_reads(a, b)
    }

    /// States that m exports a package of its own, to one module or, where none is given, to all
    /// (`Module.addExports`).
    pub fn add_exports(
        &mut self,
        m: ModuleId,
        name: &[u8],
        to: Option<ModuleId>,
    ) -> Result<(), FactsEnd>
        requires there { access.IsModule self.old.facts m }
        requires target { access.OptionExists self.old.facts to }
        requires within { IsTrue (access.has_package self.old.facts m name.now) }
        ensures ok { OnOk result (access.Adds (statements.Exports m name.now (access.reach_of to)) self.old.facts self.new.facts) }
        ensures err { OnErr result (access.IsAsBefore self.old.facts self.new.facts) }
        ensures others { KeepsAllButFacts self.old self.new }
        ensures grows { Grows self.old self.new }
    {
        self.registry.add_exports(m, name, to)
    }

    /// States that m opens a package of its own, likewise (`Module.addOpens`).
    pub fn add_opens(
        &mut self,
        m: ModuleId,
        name: &[u8],
        to: Option<ModuleId>,
    ) -> Result<(), FactsEnd>
        requires there { access.IsModule self.old.facts m }
        requires target { access.OptionExists self.old.facts to }
        requires within { IsTrue (access.has_package self.old.facts m name.now) }
        ensures ok { OnOk result (access.Adds (statements.Opens m name.now (access.reach_of to)) self.old.facts self.new.facts) }
        ensures err { OnErr result (access.IsAsBefore self.old.facts self.new.facts) }
        ensures others { KeepsAllButFacts self.old self.new }
        ensures grows { Grows self.old self.new }
    {
        self.registry.add_opens(m, name, to)
    }

    /// States that m uses a service, by the name of its class (`Module.addUses`).
    pub fn add_uses(&mut self, m: ModuleId, service: &[u8]) -> Result<(), FactsEnd>
        requires { access.IsModule self.old.facts m }
        ensures ok { OnOk result (access.Adds (statements.Uses m service.now) self.old.facts self.new.facts) }
        ensures err { OnErr result (access.IsAsBefore self.old.facts self.new.facts) }
        ensures others { KeepsAllButFacts self.old self.new }
        ensures grows { Grows self.old self.new }
    {
        self.registry.add_uses(m, service)
    }

    /// The facts.
    pub fn facts(&self) -> &Facts
        ensures { result.now ≡ self.now.facts }
    {
        &self.registry.facts
    }

    /// The loaders.
    pub fn loaders(&self) -> &Loaders
        ensures { result.now ≡ self.now.loaders }
    {
        &self.registry.loaders
    }

    /// Nothing: the layers are sound at any time.
    pub(crate) fn stay_sound(&self)
        ensures { AreSound self.now }
    {
        let _ = &self.registry;
    }
}
