//! What a world is given later: statements, constraints and layers.

ghost use Rattle.std.specs.Prelude.{◌≡◌, ◌≤◌, true, length};
ghost use Rattle.jl_access.specs.Facts as access;
ghost use Rattle.jl_loaders.specs.Loaders.{IsLoader};
ghost use Rattle.jl_loads.specs.Worlds.{IsClass};

use crate::making::{found, resolved};
use crate::steps::is_class;
use jl_config::Configuration;
use jl_layer::{Layers, Mode};
use jl_link::World;
use jl_loaders::ConstraintFault;
use jl_names::package_of;
use jl_prim::{ClassId, ConfigId, Found, LayerId, LoaderId, ModuleId, ParentLoader};
use std::alloc::Global;
use std::test::Fail;

/// That the module of a class reads that of another.
pub fn add_reads(
    alloc: Global,
    world: &mut World,
    one: ClassId,
    other: ClassId,
) -> Result<String, Fail> {
    if !is_class(world, one) || !is_class(world, other) {
        return Err(Fail::new("no class"));
    }
    let (a, b) = (world.module_of(one), world.module_of(other));
    if !has_package(world, a, one) || !has_package(world, b, other) {
        return Err(Fail::new("no module"));
    }
    world.add_reads(a, b)?;
    Ok(String::from_str(alloc, "read")?)
}

/// That the module of a class exports its package to the module of another.
pub fn add_exports(
    alloc: Global,
    world: &mut World,
    one: ClassId,
    other: ClassId,
) -> Result<String, Fail> {
    if !is_class(world, one) || !is_class(world, other) {
        return Err(Fail::new("no class"));
    }
    let (a, b) = (world.module_of(one), world.module_of(other));
    if !has_package(world, a, one) || !has_package(world, b, other) {
        return Err(Fail::new("no module"));
    }
    export(world, a, one, b)?;
    Ok(String::from_str(alloc, "exported")?)
}

/// A package of a class is exported.
fn export(world: &mut World, a: ModuleId, one: ClassId, b: ModuleId) -> Result<(), Fail>
    requires class { IsClass world.old one }
    requires module { access.IsModule world.old.layers.facts a }
    requires other { access.IsModule world.old.layers.facts b }
{
    let class = world.class(one).clone()?;
    let package = package_of(class.name().as_bytes());
    if !world.layers().facts().has_package(a, package) {
        return Err(Fail::new("no package"));
    }
    Ok(world.add_exports(a, package, Some(b))?)
}

/// Whether a module has the package of a class.
fn has_package(world: &World, m: ModuleId, c: ClassId) -> bool
    requires { IsClass world.now c }
    ensures { result ≡ true → access.IsModule world.now.layers.facts m }
{
    is_module(
        world.layers(),
        m,
        package_of(world.class(c).name().as_bytes()),
    )
}

/// Whether a module is there, and has a package.
fn is_module(layers: &Layers, m: ModuleId, package: &[u8]) -> bool
    ensures { result ≡ true → access.IsModule layers.now.facts m }
{
    layers.facts().has_package(m, package)
}

/// Imposes that two loaders agree on a name.
pub fn impose(
    alloc: Global,
    world: &mut World,
    name: &str,
    loaders: (u32, u32),
) -> Result<String, Fail> {
    let (one, other) = (LoaderId(loaders.0), LoaderId(loaders.1));
    if !is_loader(world.layers(), one) || !is_loader(world.layers(), other) {
        return Err(Fail::new("no loader"));
    }
    let text = match world.impose(name.as_bytes(), one, other) {
        Ok(()) => "imposed",
        Err(ConstraintFault::Clash { .. }) => "clash",
        Err(_) => return Err(Fail::new("no memory")),
    };
    Ok(String::from_str(alloc, text)?)
}

/// Whether a loader is there.
fn is_loader(layers: &Layers, l: LoaderId) -> bool
    ensures { result ≡ true → IsLoader layers.now.loaders l }
{
    l.0 > 0 && l.0 as usize <= layers.loaders().count()
}

/// Defines a layer over the empty one, with one loader for its modules.
pub fn add_layer(alloc: Global, world: &mut World, modules: &str) -> Result<String, Fail> {
    let modules = found(alloc, modules)?;
    let cf = keep(alloc, world, &modules)?;
    if !is_configuration(world.layers().configurations(), cf) {
        return Err(Fail::new("no configuration"));
    }
    match world.define(cf, &[LayerId(0)], Mode::One, ParentLoader::Null) {
        Ok(l) => Ok(format!(in alloc; "layer {}", l.0)?),
        Err(_) => Err(Fail::new("the layer is refused")),
    }
}

fn is_configuration(known: &[Configuration], cf: ConfigId) -> bool
    ensures { result ≡ true → cf.0 ≤ length known.now }
{
    cf.0 as usize <= known.len()
}

/// Keeps the configuration of modules, all of which are roots, over the empty one.
fn keep(alloc: Global, world: &mut World, modules: &Found) -> Result<ConfigId, Fail> {
    let cf = resolved(alloc, world.layers(), modules, &[ConfigId(0)])?;
    Ok(world.keep(cf)?)
}
