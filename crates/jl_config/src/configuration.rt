//! Configurations: modules and what each reads.

ghost use Rattle.std.specs.Prelude.{◌≡◌, [], ◌∷◌};
ghost use Rattle.jl_logic.specs.Order.{RisesBy};
ghost use Rattle.jl_config.specs.Orders.{module_cmp};

use jl_prim::{ConfigId, Copied, CopyEnd, Items, Name, Observed};
use std::alloc::Global;
use std::marker::Model;

/// One module reads another, which is a module of the configuration with this number.
#[derive(Debug, Drop)]
pub struct Read {
    pub reader: Name,
    pub config: ConfigId,
    pub name: Name,
}

impl Copied for Read {
    fn copy(&self) -> Result<Read, CopyEnd> {
        Ok(Read {
            reader: self.reader.copy()?,
            config: self.config,
            name: self.name.copy()?,
        })
    }
}

/// What a resolution gives: its modules in name order, and which of them reads which.
#[derive(Debug, Drop)]
pub struct Configuration {
    id: ConfigId,
    parents: Items<ConfigId>,
    modules: Items<Observed>,
    reads: Items<Read>,
}

impl Model for Configuration {
    ghost use Rattle.jl_config.specs.Configurations as seen;
    ghost use Rattle.jl_logic.specs.Order.{RisesBy};
    ghost use Rattle.jl_config.specs.Orders.{module_cmp};

    ghost Value = { seen.Configuration };

    ghost view = { λ c. record { id = c.id; parents = c.parents; modules = c.modules; reads = c.reads } };

    ghost invariant = { λ c. RisesBy module_cmp c.modules };
}

impl Configuration {
    /// The empty configuration, whose number is 0. It has no parents.
    pub fn empty(alloc: Global) -> Configuration
        ensures { result ≡ record { id = record { 0 = 0 }; parents = []; modules = []; reads = [] } }
    {
        Configuration {
            id: ConfigId(0),
            parents: Items::new(alloc),
            modules: Items::new(alloc),
            reads: Items::new(alloc),
        }
    }

    /// A configuration of these parts. The modules are in the order of their names.
    pub fn from_parts(
        id: ConfigId,
        parents: Items<ConfigId>,
        modules: Items<Observed>,
        reads: Items<Read>,
    ) -> Configuration
        requires { RisesBy module_cmp modules }
        ensures { result ≡ record { id = id; parents = parents; modules = modules; reads = reads } }
    {
        Configuration {
            id,
            parents,
            modules,
            reads,
        }
    }

    /// The number of the configuration.
    pub fn id(&self) -> ConfigId
        ensures { result ≡ self.now.id }
    {
        self.id
    }

    /// The numbers of the parents, in order.
    pub fn parents(&self) -> &[ConfigId]
        ensures { result.now ≡ self.now.parents }
    {
        self.parents.as_slice()
    }

    /// The modules, by their names in byte order.
    pub fn modules(&self) -> &[Observed]
        ensures { result.now ≡ self.now.modules }
    {
        self.modules.as_slice()
    }

    /// Says that the modules stand in the order of their names. There is nothing to run.
    pub fn in_order(&self)
        ensures { RisesBy module_cmp self.now.modules }
    {
        let _ = &self.modules;
    }

    /// Which module reads which, in the order of the readers and then of the modules that are read.
    pub fn reads(&self) -> &[Read]
        ensures { result.now ≡ self.now.reads }
    {
        self.reads.as_slice()
    }
}
