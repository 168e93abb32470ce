//! Lines of layers: a layer and those above it, each once, in the order in which a name is looked for
//! (`ModuleLayer.findModule`).

ghost use Rattle.std.specs.Prelude.{◌≡◌, ◌<◌, [], ◌∷◌, length, IfOk, IsTrue, OnOk};
ghost use Rattle.std.specs.List.{list_any};
ghost use Rattle.jl_layer.specs.Defining.{next_layer};
ghost use Rattle.jl_layer.specs.Lines.{above_in, is_layer, joined, with_layer};

use crate::fault::Lack;
use crate::registry::Registry;
use jl_prim::LayerId;
use std::alloc::AllocError;

impl Registry {
    /// The line of the next layer, over these parents.
    pub fn new_line(&self, parents: &[LayerId]) -> Result<Vec<LayerId>, Lack>
        requires { length self.now.layers < 4294967295 }
        ensures { IfOk result (λ line. line.items ≡ joined (next_layer self.now ∷ []) (above_in self.now.layers parents.now)) }
    {
        let mut line = Vec::new(self.allocator());
        line.push(LayerId(self.layers.len() as u32 + 1))?;
        for parent in parents {
            push_absent(&mut line, *parent)?;
            push_all_absent(&mut line, self.line(*parent))?;
        }
        Ok(line)
    }
}

/// Adds layers, but for those that are there.
fn push_all_absent(line: &mut Vec<LayerId>, layers: &[LayerId]) -> Result<(), AllocError>
    ensures { OnOk result (line.new.items ≡ joined line.old.items layers.now) }
{
    for layer in layers {
        push_absent(line, *layer)?;
    }
    Ok(())
}

/// Adds a layer, unless it is there.
fn push_absent(line: &mut Vec<LayerId>, layer: LayerId) -> Result<(), AllocError>
    ensures { OnOk result (line.new.items ≡ with_layer line.old.items layer) }
{
    if !has_layer(line.as_slice(), layer) {
        line.push(layer)?;
    }
    Ok(())
}

/// Whether a layer is among these.
fn has_layer(layers: &[LayerId], layer: LayerId) -> bool
    ensures { result ≡ list_any (is_layer layer) layers.now }
{
    layers.iter().any(|l| l.0 == layer.0)
}
