//! Resolution.

ghost use Rattle.std.specs.Prelude.{◌≡◌, ◌≤◌, ◌<◌, ◌⊎◌, ◌++◌, None, Some, true, false, length, map, slice_get, IfOk, OnOk};
ghost use Rattle.std.specs.Option.{option_to_list};
ghost use Rattle.jl_prim.specs.Limits.{most_modules};
ghost use Rattle.jl_config.specs.Imported.{AreImports};
ghost use Rattle.jl_config.specs.Located.{Asked, scene_of};
ghost use Rattle.jl_config.specs.MemberRows.{modules_at};
ghost use Rattle.jl_config.specs.Places.{AreMarks, AreMembers, SameNameFault};
ghost use Rattle.jl_config.specs.ReadRows.{AreReadings};
ghost use Rattle.jl_config.specs.Resolves.{asked, Resolves, AreReads, AreJustified};
ghost use Rattle.jl_config.specs.Settled.{StartsAt, Settles};
ghost use Rattle.jl_config.specs.declared.fault.ResolveFault.{ResolveFault};
ghost use Rattle.jl_config.specs.declared.candidate.Candidate.{Candidate};

use crate::configuration::Configuration;
use crate::cycle::least_cycle;
use crate::fault::ResolveFault;
use crate::imports::{Imports, imports_of};
use crate::members::{Members, members_of};
use crate::missing::least_not_found;
use crate::packages::{least_own_package, least_same_package};
use crate::readings::{Reading, readings_of};
use crate::reads::reads_of;
use crate::same_name::least_same_name;
use crate::scene::Scene;
use crate::services::least_service;
use jl_prim::{ConfigId, Copied, CopyEnd, Found, Items, MOST_MODULES, Name, Observed};
use std::alloc::Global;

/// Resolves the roots over the modules that two finders observe and that the parents have, and with `bind`
/// the modules that provide what is used (JLS 7.7.1, `Configuration.resolve`, `resolveAndBind`).
///
/// The refusals are those of `ResolveFault`. The configuration has the number after those that are known.
pub fn resolve(
    alloc: Global,
    known: &[Configuration],
    before: &Found,
    parents: &[ConfigId],
    after: &Found,
    roots: &[Name],
    bind: bool,
) -> Result<Configuration, ResolveFault>
    requires few_known { length known.now ≤ most_modules }
    ensures resolves { Resolves (asked known.now before.now.modules parents.now after.now.modules roots.now bind) result }
    // Each module ends a justified list.
    ensures justified { IfOk result (λ g. AreJustified (asked known.now before.now.modules parents.now after.now.modules roots.now bind) g) }
{
    if parents.is_empty() {
        return Err(ResolveFault::NoParents);
    }
    let scene = Scene::of(alloc, known, before, parents, after, roots, bind)?;
    resolve_over(alloc, &scene, known.len(), parents)
}

fn resolve_over(
    alloc: Global,
    scene: &Scene,
    known: usize,
    parents: &[ConfigId],
) -> Result<Configuration, ResolveFault>
    requires { known ≤ most_modules }
    ensures resolves { (q : Asked) → scene.now ≡ scene_of q → length q.known ≡ known → q.parents ≡ parents.now → StartsAt q 1 → Resolves q result }
    ensures justified { (q : Asked) → scene.now ≡ scene_of q → IfOk result (λ g. AreJustified q g) }
{
    let members = members_of(alloc, scene)?;
    if let Some(fault) = least_early(alloc, scene, &members, known)? {
        return Err(fault);
    }
    let readings = readings_of(alloc, scene, &members)?;
    if let Some(fault) = least_later(alloc, scene, readings.as_slice())? {
        return Err(fault);
    }
    let id = ConfigId(known as u32 + 1);
    let graph = configuration_of(alloc, scene, id, parents, &members, readings.as_slice())?;
    Ok(graph)
}

// The refusal that is decided by the members alone.
fn least_early(
    alloc: Global,
    scene: &Scene,
    members: &Members,
    known: usize,
) -> Result<Option<ResolveFault>, CopyEnd>
    requires marks { AreMarks scene.now members.now.marks.items }
    requires places { AreMembers scene.now members.now.places.items }
    ensures { IfOk result (λ found. (q : Asked) → scene.now ≡ scene_of q → length q.known ≡ known → StartsAt q 1 → Settles q 4 found) }
{
    if let Some(fault) = least_not_found(scene, members)? {
        return Ok(Some(fault));
    }
    if are_too_many(members.places.as_slice(), known) {
        return Ok(Some(ResolveFault::TooMany));
    }
    least_cycle(alloc, scene, members)
}

fn are_too_many(places: &[usize], known: usize) -> bool
    ensures yes { result ≡ true → (most_modules < length places.now) ⊎ (most_modules ≤ known) }
    ensures few_places { result ≡ false → length places.now ≤ most_modules }
    ensures few_known { result ≡ false → known < most_modules }
{
    places.len() > MOST_MODULES || known >= MOST_MODULES
}

// The refusal that is decided by what the members read.
fn least_later(
    alloc: Global,
    scene: &Scene,
    readings: &[Reading],
) -> Result<Option<ResolveFault>, CopyEnd>
    requires { AreReadings scene.now readings.now }
    ensures settles { IfOk result (λ found. (q : Asked) → scene.now ≡ scene_of q → StartsAt q 4 → Settles q 8 found) }
    ensures apart { IfOk result (λ found. found ≡ None → (f : ResolveFault) → SameNameFault scene.now f → ⊥) }
{
    if let Some(fault) = least_same_name(alloc, scene, readings)? {
        return Ok(Some(fault));
    }
    let imports = imports_of(alloc, scene, readings)?;
    least_by_imports(alloc, scene, imports.as_slice())
}

fn least_by_imports(
    alloc: Global,
    scene: &Scene,
    imports: &[Imports],
) -> Result<Option<ResolveFault>, CopyEnd>
    requires imports { AreImports scene.now imports.now }
    requires apart { (f : ResolveFault) → SameNameFault scene.now f → ⊥ }
    ensures { IfOk result (λ found. (q : Asked) → scene.now ≡ scene_of q → StartsAt q 5 → Settles q 8 found) }
{
    if let Some(fault) = least_same_package(alloc, scene, imports)? {
        return Ok(Some(fault));
    }
    if let Some(fault) = least_own_package(alloc, scene, imports)? {
        return Ok(Some(fault));
    }
    least_service(alloc, scene, imports)
}

fn configuration_of(
    alloc: Global,
    scene: &Scene,
    id: ConfigId,
    parents: &[ConfigId],
    members: &Members,
    readings: &[Reading],
) -> Result<Configuration, CopyEnd>
    requires places { AreMembers scene.now members.now.places.items }
    requires readings { AreReadings scene.now readings.now }
    requires apart { (f : ResolveFault) → SameNameFault scene.now f → ⊥ }
    ensures number { IfOk result (λ g. g.id ≡ id) }
    ensures given { IfOk result (λ g. g.parents ≡ parents.now) }
    ensures modules { IfOk result (λ g. g.modules ≡ modules_at scene.now members.now.places.items) }
    ensures reads { IfOk result (λ g. AreReads scene.now g.reads) }
{
    let modules = copies_at(alloc, scene, members.places.as_slice())?;
    let reads = reads_of(alloc, scene, readings)?;
    Ok(Configuration::from_parts(
        id,
        Items::from_vec(Vec::from_slice(alloc, parents)?),
        Items::from_vec(modules),
        Items::from_vec(reads),
    ))
}

fn copies_at(alloc: Global, scene: &Scene, places: &[usize]) -> Result<Vec<Observed>, CopyEnd>
    ensures { IfOk result (λ copies. copies.items ≡ modules_at scene.now places.now) }
{
    let mut copies = Vec::with_capacity(alloc, places.len())?;
    for place in places {
        push_copy(&mut copies, scene, *place)?;
    }
    Ok(copies)
}

fn push_copy(copies: &mut Vec<Observed>, scene: &Scene, place: usize) -> Result<(), CopyEnd>
    ensures { OnOk result (copies.new.items ≡ copies.old.items ++ map (λ (s : Candidate). s.observed) (option_to_list (slice_get scene.now.candidates place))) }
{
    if let Some(candidate) = scene.candidates().get(place) {
        copies.push(candidate.observed.copy()?)?;
    }
    Ok(())
}
