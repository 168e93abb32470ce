//! What is kept, defined, imposed and added in the layers (`java.lang.ModuleLayer`, JVMS 5.3.4, `java.lang.Module`).
//! What is loaded stays, and so does the report.

ghost use Rattle.std.specs.Prelude.{◌≡◌, All, IfErr, IfOk, IsTrue, OnErr, OnOk};
ghost use Rattle.std.specs.Str.{IsUtf8};
ghost use Rattle.jl_loaders.specs.Constraints.{IsViolated, with_constraint};
ghost use Rattle.jl_loaders.specs.Loaders as delegation;
ghost use Rattle.jl_loaders.specs.Refusals.{IsRefusal};
ghost use Rattle.jl_access.specs.Facts as access;
ghost use Rattle.jl_access.specs.declared.statement.Statement.TheVariants as statements;
ghost use Rattle.jl_layer.specs.Layers.{IsLayer, IsConfiguration};
ghost use Rattle.jl_layer.specs.Changes.{with_configuration, with_loaders, KeepsAllButFacts};
ghost use Rattle.jl_layer.specs.Defining.{next_layer, IsDefined, IsAsBefore};
ghost use Rattle.jl_layer.specs.Keeping.{IsKeepable};
ghost use Rattle.jl_layer.specs.Laws.{Grows};
ghost use Rattle.jl_layer.specs.Refusals.{Applies, Refuses};
ghost use Rattle.jl_loads.specs.Worlds.{with_layers};

use crate::law::are_laid;
use crate::loads::Loads;
use jl_access::FactsEnd;
use jl_config::Configuration;
use jl_layer::{KeepEnd, LayerFault, Mode};
use jl_loaders::ConstraintFault;
use jl_prim::{ConfigId, LayerId, LoaderId, ModuleId, ParentLoader};

impl Loads {
    /// Adds a configuration, which has the next number, to those that are kept.
    pub fn keep(&mut self, cf: Configuration) -> Result<ConfigId, KeepEnd>
        requires keepable { IsKeepable self.old.layers.configurations cf }
        ensures number { IfOk result (λ c. c ≡ cf.id) }
        ensures keeps { OnOk result (self.new.layers ≡ with_configuration cf self.old.layers) }
        ensures kept { OnErr result (self.new.layers ≡ self.old.layers) }
        ensures grows { Grows self.old.layers self.new.layers }
        ensures others { self.new ≡ with_layers self.new.layers self.old }
    {
        let end = self.layers.keep(cf);
        are_laid(&self.layers);
        end
    }

    /// Defines a layer over parent layers (`ModuleLayer.defineModules`): with one loader for all modules or one for
    /// each, which turn last to the given parent. On a refusal nothing has changed.
    pub fn define(
        &mut self,
        cf: ConfigId,
        parents: &[LayerId],
        mode: Mode,
        parent_loader: ParentLoader,
    ) -> Result<LayerId, LayerFault>
        requires known { IsConfiguration self.old.layers cf }
        requires layers { All (IsLayer self.old.layers) parents.now }
        requires loader { delegation.ParentExists self.old.layers.loaders parent_loader }
        ensures number { IfOk result (λ l. l ≡ next_layer self.old.layers) }
        ensures defines { OnOk result (IsDefined self.old.layers (record { config = cf; parents = parents.now; mode = mode; parent_loader = parent_loader }) self.new.layers) }
        ensures base { self.new.layers.loaders.base ≡ self.old.layers.loaders.base }
        ensures allowed { OnOk result ((f : LayerFault) → Applies self.old.layers (record { config = cf; parents = parents.now; mode = mode; parent_loader = parent_loader }) f → ⊥) }
        ensures refuses { IfErr result (Refuses (Applies self.old.layers (record { config = cf; parents = parents.now; mode = mode; parent_loader = parent_loader }))) }
        ensures before { OnErr result (IsAsBefore self.old.layers self.new.layers) }
        ensures grows { Grows self.old.layers self.new.layers }
        ensures others { self.new ≡ with_layers self.new.layers self.old }
    {
        jl_layer::are_sound(&self.layers);
        let end = self.layers.define(cf, parents, mode, parent_loader);
        are_laid(&self.layers);
        end
    }

    /// Adds that two loaders must not lead the class of a name to two modules (JVMS 5.3.4). `Clash` comes exactly
    /// where, with this constraint, joined loaders would; nothing changes then, nor without memory.
    pub fn impose(&mut self, name: &[u8], l: LoaderId, l2: LoaderId) -> Result<(), ConstraintFault>
        requires text { IsUtf8 name.now }
        requires one { delegation.IsLoader self.old.layers.loaders l }
        requires other { delegation.IsLoader self.old.layers.loaders l2 }
        ensures adds { OnOk result (self.new.layers ≡ with_loaders (with_constraint name.now l l2 self.old.layers.loaders) self.old.layers) }
        ensures stands { OnOk result (IsViolated (with_constraint name.now l l2 self.old.layers.loaders) → ⊥) }
        ensures refused { IfErr result (IsRefusal self.old.layers.loaders name.now l l2) }
        ensures kept { OnErr result (self.new.layers ≡ self.old.layers) }
        ensures grows { Grows self.old.layers self.new.layers }
        ensures others { self.new ≡ with_layers self.new.layers self.old }
    {
        let end = self.layers.impose(name, l, l2);
        are_laid(&self.layers);
        end
    }

    /// States that a reads b (`Module.addReads`).
    pub fn add_reads(&mut self, a: ModuleId, b: ModuleId) -> Result<(), FactsEnd>
        requires reader { access.IsModule self.old.layers.facts a }
        requires other { access.IsModule self.old.layers.facts b }
        ensures ok { OnOk result (access.Adds (statements.Reads a b) self.old.layers.facts self.new.layers.facts) }
        ensures err { OnErr result (access.IsAsBefore self.old.layers.facts self.new.layers.facts) }
        ensures facts { KeepsAllButFacts self.old.layers self.new.layers }
        ensures grows { Grows self.old.layers self.new.layers }
        ensures others { self.new ≡ with_layers self.new.layers self.old }
    {
        let end = self.layers.add_reads(a, b);
        are_laid(&self.layers);
        end
    }

    /// States that m exports a package of its own, to one module or, where none is given, to all
    /// (`Module.addExports`).
    pub fn add_exports(
        &mut self,
        m: ModuleId,
        name: &[u8],
        to: Option<ModuleId>,
    ) -> Result<(), FactsEnd>
        requires there { access.IsModule self.old.layers.facts m }
        requires target { access.OptionExists self.old.layers.facts to }
        requires within { IsTrue (access.has_package self.old.layers.facts m name.now) }
        ensures ok { OnOk result (access.Adds (statements.Exports m name.now (access.reach_of to)) self.old.layers.facts self.new.layers.facts) }
        ensures err { OnErr result (access.IsAsBefore self.old.layers.facts self.new.layers.facts) }
        ensures facts { KeepsAllButFacts self.old.layers self.new.layers }
        ensures grows { Grows self.old.layers self.new.layers }
        ensures others { self.new ≡ with_layers self.new.layers self.old }
    {
        let end = self.layers.add_exports(m, name, to);
        are_laid(&self.layers);
        end
    }

    /// States that m opens a package of its own, likewise (`Module.addOpens`).
    pub fn add_opens(
        &mut self,
        m: ModuleId,
        name: &[u8],
        to: Option<ModuleId>,
    ) -> Result<(), FactsEnd>
        requires there { access.IsModule self.old.layers.facts m }
        requires target { access.OptionExists self.old.layers.facts to }
        requires within { IsTrue (access.has_package self.old.layers.facts m name.now) }
        ensures ok { OnOk result (access.Adds (statements.Opens m name.now (access.reach_of to)) self.old.layers.facts self.new.layers.facts) }
        ensures err { OnErr result (access.IsAsBefore self.old.layers.facts self.new.layers.facts) }
        ensures facts { KeepsAllButFacts self.old.layers self.new.layers }
        ensures grows { Grows self.old.layers self.new.layers }
        ensures others { self.new ≡ with_layers self.new.layers self.old }
    {
        let end = self.layers.add_opens(m, name, to);
        are_laid(&self.layers);
        end
    }

    /// States that m uses a service, by the name of its class (`Module.addUses`).
    pub fn add_uses(&mut self, m: ModuleId, service: &[u8]) -> Result<(), FactsEnd>
        requires { access.IsModule self.old.layers.facts m }
        ensures ok { OnOk result (access.Adds (statements.Uses m service.now) self.old.layers.facts self.new.layers.facts) }
        ensures err { OnErr result (access.IsAsBefore self.old.layers.facts self.new.layers.facts) }
        ensures facts { KeepsAllButFacts self.old.layers self.new.layers }
        ensures grows { Grows self.old.layers self.new.layers }
        ensures others { self.new ≡ with_layers self.new.layers self.old }
    {
        let end = self.layers.add_uses(m, service);
        are_laid(&self.layers);
        end
    }
}
