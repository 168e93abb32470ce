//! What the modules of a layer read (JLS 7.7; `java.lang.module.Configuration`).

ghost use Rattle.std.specs.Prelude.{◌≡◌, ◌++◌, IfOk, OnOk};
ghost use Rattle.std.specs.Option.{option_to_list};
ghost use Rattle.jl_layer.specs.Meaning as meaning;

use crate::registry::Registry;
use jl_config::Read;
use jl_prim::{CopyEnd, LayerId, ModuleId};

impl Registry {
    /// Which module of a layer reads which, in the order of the configuration.
    pub fn reads_of(&self, l: LayerId) -> Result<Vec<(ModuleId, ModuleId)>, CopyEnd>
        ensures { IfOk result (λ pairs. pairs.items ≡ meaning.reads_of self.now l) }
    {
        let reads = self.reads_in(self.config_of(l));
        let mut pairs = Vec::with_capacity(self.allocator(), reads.len())?;
        for read in reads {
            push_some(&mut pairs, self.read_pair(l, read))?;
        }
        Ok(pairs)
    }

    /// The two modules of a read.
    fn read_pair(&self, l: LayerId, read: &Read) -> Option<(ModuleId, ModuleId)>
        ensures { result ≡ meaning.read_pair self.now l read.now }
    {
        let reader = self.named_in(l, read.reader.as_bytes())?;
        let other = self.read_module(l, read)?;
        Some((reader, other))
    }

    /// The module that a read of a layer means: one of the layer where it is of the layer's own configuration, and
    /// else one above it.
    fn read_module(&self, l: LayerId, read: &Read) -> Option<ModuleId>
        ensures { result ≡ meaning.read_module self.now l read.now }
    {
        let name = read.name.as_bytes();
        if read.config.0 == self.config_of(l).0 {
            self.named_in(l, name)
        } else {
            self.meant_above(self.parents_of(l), read.config, name)
        }
    }
}

/// Adds two modules, where there are two.
fn push_some(
    pairs: &mut Vec<(ModuleId, ModuleId)>,
    pair: Option<(ModuleId, ModuleId)>,
) -> Result<(), CopyEnd>
    ensures { OnOk result (pairs.new.items ≡ pairs.old.items ++ option_to_list pair) }
{
    if let Some(pair) = pair {
        pairs.push(pair)?;
    }
    Ok(())
}
