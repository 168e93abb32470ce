//! What tests make of texts.

ghost use Rattle.std.specs.Prelude.{◌≡◌, ◌≤◌, [], ◌∷◌, true, Contains, codes, All, IfOk, length};
ghost use Rattle.std.specs.List.{list_all, list_any};
ghost use Rattle.jl_logic.specs.Order.{is_text};
ghost use Rattle.jl_prim.specs.declared.declaration.Observed.{Observed};
ghost use Rattle.jl_config.specs.Located.{configuration_of, name_of};
ghost use Rattle.jl_layer.specs.Defining as defining;
ghost use Rattle.jl_layer.specs.Keeping.{IsKeepable};
ghost use Rattle.jl_link_tests.specs.Grants.{has_package, has_its_grants};
ghost use Rattle.jl_link_tests.specs.Grants as grants;

use jl_config::{Configuration, resolve};
use jl_layer::{Layers, Mode, are_sound, resolved_is_keepable};
use jl_making::declaration;
use jl_prim::{ConfigId, Copied, Found, Grant, Items, Name, Observed};
use std::alloc::Global;
use std::test::Fail;

/// The modules of a text, with `|` between them. No text, no module.
pub fn found(alloc: Global, text: &str) -> Result<Found, Fail> {
    let mut modules = Items::new(alloc);
    if !text.is_empty() {
        for statements in text.split('|') {
            modules.push(observed(alloc, statements.trim())?)?;
        }
    }
    Ok(Found { modules })
}

/// A module by its statements, whose files are in a folder of its name.
fn observed(alloc: Global, statements: &str) -> Result<Observed, Fail> {
    let declaration = declaration(alloc, statements)?;
    let place = declaration.name.copy()?;
    Ok(Observed { declaration, place })
}

/// The configuration of modules, all of which are roots, over parents. It can be kept.
pub fn resolved(
    alloc: Global,
    layers: &Layers,
    modules: &Found,
    parents: &[ConfigId],
) -> Result<Configuration, Fail>
    ensures { IfOk result (λ cf. IsKeepable layers.now.configurations cf) }
{
    let roots = names_of(alloc, modules)?;
    let nothing = Found {
        modules: Items::new(alloc),
    };
    let known = layers.configurations();
    if known.len() > 4096
        || !are_known(parents, known.len())
        || !have_their_grants(modules.modules.as_slice())
    {
        return Err(Fail::new("no question over kept configurations"));
    }
    let cf = resolve(
        alloc,
        known,
        modules,
        parents,
        &nothing,
        roots.as_slice(),
        false,
    )?;
    are_sound(layers);
    resolved_is_keepable();
    Ok(cf)
}

/// The names of modules.
fn names_of(alloc: Global, found: &Found) -> Result<Vec<Name>, Fail> {
    let mut all = Vec::new(alloc);
    for o in found.modules.as_slice() {
        all.push(o.declaration.name.copy()?)?;
    }
    Ok(all)
}

/// The words of a text.
pub fn words<'a>(alloc: Global, text: &'a str) -> Result<Vec<&'a str>, Fail> {
    let mut words = Vec::new(alloc);
    for word in text.split_whitespace() {
        words.push(word)?;
    }
    Ok(words)
}

/// Whether the configurations with these numbers are there.
fn are_known(parents: &[ConfigId], known: usize) -> bool
    ensures { result ≡ true → All (λ (p : ConfigId). p.0 ≤ known) parents.now }
{
    parents.iter().all(|p| p.0 as usize <= known)
}

/// Whether modules export and open packages of their own.
fn have_their_grants(modules: &[Observed]) -> bool
    ensures { result ≡ list_all has_its_grants modules.now }
{
    modules.iter().all(|o| has_its_grants(o))
}

fn has_its_grants(o: &Observed) -> bool
    ensures { result ≡ grants.has_its_grants o.now }
{
    let d = &o.declaration;
    let packages = d.packages.as_slice();
    are_among(packages, d.exports.as_slice()) && are_among(packages, d.opens.as_slice())
}

fn are_among(packages: &[Name], grants: &[Grant]) -> bool
    ensures { result ≡ list_all (has_package packages.now) grants.now }
{
    grants.iter().all(|g| has_package(packages, &g.package))
}

fn has_package(packages: &[Name], name: &Name) -> bool
    ensures { result ≡ list_any (is_text name.now) packages.now }
{
    packages.iter().any(|p| name == p)
}

/// Whether the boot layer may be one of this configuration: it is there, has `java.base`, and the empty one is its
/// parent.
pub fn is_bootable(known: &[Configuration], cf: ConfigId) -> bool
    ensures known { result ≡ true → cf.0 ≤ length known.now }
    ensures base { result ≡ true → (o : Observed) × Contains (configuration_of known.now cf).modules o × (name_of o ≡ codes "java.base") }
    ensures parents { result ≡ true → (configuration_of known.now cf).parents ≡ record { 0 = 0 } ∷ [] }
{
    if cf.0 == 0 {
        return false;
    }
    match known.get(cf.0 as usize - 1) {
        Some(g) => is_empty_alone(g.parents()) && has_base(g.modules()),
        None => false,
    }
}

/// Whether the empty configuration is the only one of these.
fn is_empty_alone(parents: &[ConfigId]) -> bool
    ensures { result ≡ true → parents.now ≡ record { 0 = 0 } ∷ [] }
{
    match parents {
        [parent] => parent.0 == 0,
        _ => false,
    }
}

fn has_base(modules: &[Observed]) -> bool
    ensures { result ≡ true → (o : Observed) × Contains modules.now o × (name_of o ≡ codes "java.base") }
{
    for o in modules {
        if o.declaration.name.as_str() == "java.base" {
            return true;
        }
    }
    false
}

/// The modules of a configuration.
pub fn modules_in(known: &[Configuration], cf: ConfigId) -> &[Observed]
    ensures { result.now ≡ (configuration_of known.now cf).modules }
{
    if cf.0 == 0 {
        return &[];
    }
    match known.get(cf.0 as usize - 1) {
        Some(g) => g.modules(),
        None => &[],
    }
}

/// How many loaders a layer of these modules has.
pub fn loader_count(mode: Mode, modules: &[Observed]) -> usize
    ensures { result ≡ defining.loader_count mode modules.now }
{
    match mode {
        Mode::One => modules.len().min(1),
        Mode::Many => modules.len(),
    }
}
