//! What is kept, imposed and added (`Configuration`, JVMS 5.3.4, `java.lang.Module`).

ghost use Rattle.std.specs.Prelude.{◌≡◌, IfErr, IsTrue, OnErr, OnOk, Some};
ghost use Rattle.std.specs.Str.{IsUtf8};
ghost use Rattle.jl_loaders.specs.Constraints.{IsViolated, with_constraint};
ghost use Rattle.jl_loaders.specs.Loaders as delegation;
ghost use Rattle.jl_loaders.specs.Refusals.{IsRefusal};
ghost use Rattle.jl_access.specs.Facts as access;
ghost use Rattle.jl_access.specs.declared.statement.Statement.TheVariants as statements;
ghost use Rattle.jl_layer.specs.Changes.{KeepsAllButFacts, with_configuration, with_loaders};
ghost use Rattle.jl_layer.specs.Layers.{IsModule, member_of};

use crate::fault::Lack;
use crate::layer::Member;
use crate::registry::Registry;
use jl_access::FactsEnd;
use jl_config::Configuration;
use jl_loaders::ConstraintFault;
use jl_prim::{LoaderId, ModuleId};

impl Registry {
    /// Adds a configuration.
    pub fn keep(&mut self, cf: Configuration) -> Result<(), Lack>
        ensures keeps { OnOk result (self.new ≡ with_configuration cf self.old) }
        ensures before { OnErr result (self.new ≡ self.old) }
    {
        self.configurations.push(cf)?;
        Ok(())
    }

    /// The module with a number.
    pub fn member_at(&self, m: ModuleId) -> &Member
        requires { IsModule self.now m }
        ensures { member_of self.now m ≡ Some result.now }
    {
        &self.modules[m.0 as usize - 1]
    }

    /// Adds a constraint on loaders.
    pub fn impose(&mut self, name: &[u8], l: LoaderId, l2: LoaderId) -> Result<(), ConstraintFault>
        requires text { IsUtf8 name.now }
        requires one { delegation.IsLoader self.old.loaders l }
        requires other { delegation.IsLoader self.old.loaders l2 }
        ensures adds { OnOk result (self.new ≡ with_loaders (with_constraint name.now l l2 self.old.loaders) self.old) }
        ensures stands { OnOk result (IsViolated (with_constraint name.now l l2 self.old.loaders) → ⊥) }
        ensures refused { IfErr result (IsRefusal self.old.loaders name.now l l2) }
        ensures before { OnErr result (self.new ≡ self.old) }
    {
        self.loaders.impose(name, l, l2)
    }

    /// States that a module reads another.
    pub fn add_reads(&mut self, a: ModuleId, b: ModuleId) -> Result<(), FactsEnd>
        requires reader { access.IsModule self.old.facts a }
        requires other { access.IsModule self.old.facts b }
        ensures ok { OnOk result (access.Adds (statements.Reads a b) self.old.facts self.new.facts) }
        ensures err { OnErr result (access.IsAsBefore self.old.facts self.new.facts) }
        ensures others { KeepsAllButFacts self.old self.new }
    {
        self.facts.add_reads(a, b)
    }

    /// States that a module exports a package of its own.
    pub fn add_exports(
        &mut self,
        m: ModuleId,
        name: &[u8],
        to: Option<ModuleId>,
    ) -> Result<(), FactsEnd>
        requires there { access.IsModule self.old.facts m }
        requires target { access.OptionExists self.old.facts to }
        requires within { IsTrue (access.has_package self.old.facts m name.now) }
        ensures ok { OnOk result (access.Adds (statements.Exports m name.now (access.reach_of to)) self.old.facts self.new.facts) }
        ensures err { OnErr result (access.IsAsBefore self.old.facts self.new.facts) }
        ensures others { KeepsAllButFacts self.old self.new }
    {
        self.facts.add_exports(m, name, to)
    }

    /// States that a module opens a package of its own.
    pub fn add_opens(
        &mut self,
        m: ModuleId,
        name: &[u8],
        to: Option<ModuleId>,
    ) -> Result<(), FactsEnd>
        requires there { access.IsModule self.old.facts m }
        requires target { access.OptionExists self.old.facts to }
        requires within { IsTrue (access.has_package self.old.facts m name.now) }
        ensures ok { OnOk result (access.Adds (statements.Opens m name.now (access.reach_of to)) self.old.facts self.new.facts) }
        ensures err { OnErr result (access.IsAsBefore self.old.facts self.new.facts) }
        ensures others { KeepsAllButFacts self.old self.new }
    {
        self.facts.add_opens(m, name, to)
    }

    /// States that a module uses a service.
    pub fn add_uses(&mut self, m: ModuleId, service: &[u8]) -> Result<(), FactsEnd>
        requires { access.IsModule self.old.facts m }
        ensures ok { OnOk result (access.Adds (statements.Uses m service.now) self.old.facts self.new.facts) }
        ensures err { OnErr result (access.IsAsBefore self.old.facts self.new.facts) }
        ensures others { KeepsAllButFacts self.old self.new }
    {
        self.facts.add_uses(m, service)
    }
}
