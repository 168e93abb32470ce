//! Layers of modules that a test makes.

ghost use Rattle.std.specs.Prelude.{◌<◌, length, IfOk};

use crate::making::{found, words};
use crate::showing::number;
use crate::stage::Stage;
use jl_layer::{Layers, Mode};
use jl_prim::{ConfigId, LayerId, LoaderId, ParentLoader};
use std::alloc::Global;
use std::test::Fail;

/// The layers of a text, with `#` between them: the modules of the boot layer, and then of each other one
/// `MODE PARENT LOADER : MODULES`, where the mode is `one` or `many`, the parent the number of a layer, and the loader
/// that to which its loaders turn last. The files of a module are in a folder of its name.
pub fn layers_of(alloc: Global, text: &str) -> Result<Layers, Fail>
    ensures { IfOk result (λ layers. 0 < length layers.layers) }
{
    let mut stage = Stage::new(alloc);
    for layer in text.split('#') {
        match layer.split_once(" : ") {
            None => boot(alloc, &mut stage, layer)?,
            Some((head, modules)) => define(alloc, &mut stage, head, modules)?,
        }
    }
    stage.into_layers()
}

fn boot(alloc: Global, stage: &mut Stage, modules: &str) -> Result<(), Fail> {
    let modules = found(alloc, modules)?;
    let cf = stage.keep(alloc, &modules, &[ConfigId(0)])?;
    match stage.define_boot(cf)? {
        Ok(_) => Ok(()),
        Err(_) => Err(Fail::new("the boot layer is refused")),
    }
}

fn define(alloc: Global, stage: &mut Stage, head: &str, modules: &str) -> Result<(), Fail> {
    let words = words(alloc, head)?;
    let [mode, parent, loader] = words.as_slice() else {
        return Err(Fail::new("no layer"));
    };
    let mode = if *mode == "one" {
        Mode::One
    } else {
        Mode::Many
    };
    let parent = number(parent)?;
    let loader = ParentLoader::Loader(LoaderId(number(loader)?));
    let modules = found(alloc, modules)?;
    let cf = stage.keep(alloc, &modules, &[ConfigId(parent)])?;
    match stage.define(cf, &[LayerId(parent)], mode, loader)? {
        Ok(_) => Ok(()),
        Err(_) => Err(Fail::new("the layer is refused")),
    }
}
