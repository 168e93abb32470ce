//! Which modules provide which services (JLS 7.7.4).

ghost use Rattle.std.specs.Prelude.{◌≡◌, ◌++◌, List, ℕ, IfOk, OnOk};
ghost use Rattle.jl_config.specs.MemberRows.{found_place, here_at, is_place, provided_by, provisions_of, provisions_from, offers, providers};
ghost use Rattle.jl_config.specs.Tables.{listed};

use crate::candidate::Candidate;
use crate::scene::Scene;
use crate::tables::note_place;
use indexmap::IndexMap;
use jl_prim::{Copied, CopyEnd, Items, Name, Provides};
use std::alloc::Global;

/// A service, and the place of a module that provides it.
#[derive(Drop)]
pub struct Provision {
    pub service: Name,
    pub place: usize,
}

/// The place where a name is located, if a finder observes the module.
pub fn found_place(scene: &Scene, name: &Name) -> Option<usize>
    ensures { result ≡ found_place scene.now name.now }
{
    let place = scene.named(name)?;
    if is_here_at(scene, place) {
        Some(place)
    } else {
        None
    }
}

fn is_here_at(scene: &Scene, place: usize) -> bool
    ensures { result ≡ here_at scene.now place }
{
    match scene.candidates().get(place) {
        Some(candidate) => scene.is_here(candidate),
        None => false,
    }
}

/// The services, and with binding for each the places of the modules that provide it.
pub fn providers_of(alloc: Global, scene: &Scene) -> Result<IndexMap<Name, Items<usize>>, CopyEnd>
    ensures { IfOk result (λ table. (service : List ℕ) → listed table service ≡ providers (offers scene.now) service) }
{
    let provisions = offers_of(alloc, scene)?;
    table_of(alloc, provisions.as_slice())
}

fn table_of(
    alloc: Global,
    provisions: &[Provision],
) -> Result<IndexMap<Name, Items<usize>>, CopyEnd>
    ensures { IfOk result (λ table. (service : List ℕ) → listed table service ≡ providers provisions.now service) }
{
    let mut table = IndexMap::new(alloc);
    for provision in provisions {
        note_place(alloc, &mut table, &provision.service, provision.place)?;
    }
    Ok(table)
}

fn offers_of(alloc: Global, scene: &Scene) -> Result<Vec<Provision>, CopyEnd>
    ensures { IfOk result (λ all. all.items ≡ offers scene.now) }
{
    let mut all = Vec::new(alloc);
    if !scene.binds() {
        return Ok(all);
    }
    for (at, candidate) in scene.candidates().iter().enumerate() {
        push_provisions_of(&mut all, scene, at, candidate)?;
    }
    Ok(all)
}

fn push_provisions_of(
    all: &mut Vec<Provision>,
    scene: &Scene,
    at: usize,
    candidate: &Candidate,
) -> Result<(), CopyEnd>
    ensures { OnOk result (all.new.items ≡ all.old.items ++ provisions_of scene.now at candidate.now) }
{
    let declaration = &candidate.observed.declaration;
    if is_that(at, found_place(scene, &declaration.name)) {
        push_provisions(all, at, declaration.provides.as_slice())?;
    }
    Ok(())
}

fn is_that(at: usize, place: Option<usize>) -> bool
    ensures { result ≡ is_place at place }
{
    match place {
        None => false,
        Some(place) => place == at,
    }
}

fn push_provisions(
    all: &mut Vec<Provision>,
    place: usize,
    entries: &[Provides],
) -> Result<(), CopyEnd>
    ensures { OnOk result (all.new.items ≡ all.old.items ++ provided_by place entries.now) }
{
    for entry in entries {
        let service = entry.service.copy()?;
        all.push(Provision { service, place })?;
    }
    Ok(())
}
