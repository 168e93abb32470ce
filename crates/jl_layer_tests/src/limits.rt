//! Many modules, many layers, and ways that would not end.

use crate::making::{found, observed};
use crate::stage::Stage;
use jl_layer::{LayerFault, Mode};
use jl_prim::{ConfigId, Found, Items, LayerId, ParentLoader};
use std::alloc::Global;
use std::test::*;

/// The boot layer with `java.base` alone.
fn booted(alloc: Global) -> Result<Stage, Fail> {
    let mut stage = Stage::new(alloc);
    let base = found(alloc, "module java.base; packages java/lang")?;
    stage.keep(alloc, &base, &[ConfigId(0)])?;
    stage.define_boot(ConfigId(1))??;
    Ok(stage)
}

/// So many modules, from m1000 on.
fn many_modules(alloc: Global, count: usize) -> Result<Found, Fail> {
    let mut modules = Items::new(alloc);
    for number in 0..count {
        let statements = format!(in alloc; "module m{}", number % 10_000 + 1_000)?;
        modules.push(observed(alloc, statements.as_str())?)?;
    }
    Ok(Found { modules })
}

/// A layer of a configuration over the boot layer.
fn over_boot(stage: &mut Stage, cf: u32) -> Result<Result<LayerId, LayerFault>, Fail> {
    stage.define(ConfigId(cf), &[LayerId(1)], Mode::Many, ParentLoader::Null)
}

#[test]
fn modules_of_all_layers(rt: HostRuntime) -> Result<(), Fail> {
    let alloc = rt.alloc();
    let mut stage = booted(alloc)?;
    let (one, most) = (many_modules(alloc, 1)?, many_modules(alloc, 4_095)?);
    stage.keep(alloc, &one, &[ConfigId(1)])?;
    stage.keep(alloc, &most, &[ConfigId(1)])?;
    assert_eq!(rt; over_boot(&mut stage, 3)?, Ok(LayerId(2)));
    assert_eq!(rt; over_boot(&mut stage, 2)?, Err(LayerFault::TooMany));
    assert_eq!(rt; over_boot(&mut stage, 3)?, Err(LayerFault::TooMany));
    Ok(())
}

/// So many layers without modules are defined.
fn define_nothing(stage: &mut Stage, count: usize) -> Result<(), Fail> {
    for _layer in 0..count {
        stage.define(ConfigId(0), &[], Mode::One, ParentLoader::Null)??;
    }
    Ok(())
}

#[test]
fn layers_without_modules(rt: HostRuntime) -> Result<(), Fail> {
    let mut stage = booted(rt.alloc())?;
    define_nothing(&mut stage, 4_095)?;
    let answer = stage.define(ConfigId(0), &[], Mode::One, ParentLoader::Null)?;
    assert_eq!(rt; answer, Err(LayerFault::TooMany));
    Ok(())
}

/// Two layers without modules, each over the same two.
fn define_two(alloc: Global, stage: &mut Stage, one: u32, other: u32) -> Result<(), Fail> {
    let nothing = found(alloc, "")?;
    for _side in 0..2 {
        let cf = stage.keep(alloc, &nothing, &[ConfigId(one), ConfigId(other)])?;
        let parents = [LayerId(one), LayerId(other)];
        stage.define(cf, parents.as_slice(), Mode::Many, ParentLoader::Null)??;
    }
    Ok(())
}

/// Layers two by two, each over both of the two before it: a walk that took each way up would not end.
#[test]
fn each_layer_above_is_searched_once(rt: HostRuntime) -> Result<(), Fail> {
    let alloc = rt.alloc();
    let mut stage = booted(alloc)?;
    for level in 0..40 {
        define_two(alloc, &mut stage, 2 * level, 2 * level + 1)?;
    }
    let nobody = stage.answer(alloc, "find nobody@81")?;
    assert_eq!(rt; nobody.as_str(), "-");
    let base = stage.answer(alloc, "find java.base@81")?;
    assert_eq!(rt; base.as_str(), "java.base@1");
    Ok(())
}
