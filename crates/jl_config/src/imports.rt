//! What each module of the set gets from other modules.

ghost use Rattle.std.specs.Prelude.{◌≡◌, ◌<◌, ◌↔◌, length, IfOk, OnOk, IsTrue, Contains};
ghost use Rattle.jl_logic.specs.Order.{RisesBy};
ghost use Rattle.jl_config.specs.Collected.{Adds, Among, IsReading};
ghost use Rattle.jl_config.specs.Imported.{IsGranted, IsExportedBy, IsExportedAt, exported_cmp, AreImports};
ghost use Rattle.jl_config.specs.ReadRows.{AreReadings};
ghost use Rattle.jl_config.specs.Refusals.{ReachesBy};

use crate::candidate::Candidate;
use crate::readings::Reading;
use crate::same_name::name_at;
use crate::scene::Scene;
use crate::sorted::sorted_set;
use jl_prim::{Copied, CopyEnd, Grant, Items, Name};
use std::alloc::Global;

/// A package that is exported to a reader, and the name of the module that exports it.
#[derive(Debug, PartialEq, Eq, PartialOrd, Ord, Drop)]
pub struct Exported {
    pub package: Name,
    pub exporter: Name,
}

/// The place of a reader, and what the modules that it reads export to it, in order. A module with the
/// reader's name is left out.
#[derive(Debug, Drop)]
pub struct Imports {
    pub reader: usize,
    pub exported: Items<Exported>,
}

/// What each module of the set gets from other modules.
pub fn imports_of(
    alloc: Global,
    scene: &Scene,
    readings: &[Reading],
) -> Result<Vec<Imports>, CopyEnd>
    requires { AreReadings scene.now readings.now }
    ensures { IfOk result (λ imports. AreImports scene.now imports.items) }
{
    let mut imports = Vec::with_capacity(alloc, readings.len())?;
    for reading in readings {
        let exported = exported_to(alloc, scene, reading)?;
        imports.push(Imports {
            reader: reading.reader,
            exported: Items::from_vec(exported),
        })?;
    }
    Ok(imports)
}

fn exported_to(alloc: Global, scene: &Scene, reading: &Reading) -> Result<Vec<Exported>, CopyEnd>
    requires { IsReading scene.now reading.now }
    ensures rise { IfOk result (λ exported. RisesBy exported_cmp exported.items) }
    ensures only { IfOk result (λ exported. (e : Exported) → Contains exported.items e → Among (IsExportedAt scene.now reading.now.reader) reading.now.read e) }
    ensures all { IfOk result (λ exported. (e : Exported) → Among (IsExportedAt scene.now reading.now.reader) reading.now.read e → Contains exported.items e) }
{
    let mut exported = Vec::new(alloc);
    for place in reading.read.as_slice() {
        push_exports_at(&mut exported, scene, reading.reader, *place)?;
    }
    let sorted = sorted_set(exported)?;
    Ok(sorted)
}

fn push_exports_at(
    exported: &mut Vec<Exported>,
    scene: &Scene,
    reader: usize,
    place: usize,
) -> Result<(), CopyEnd>
    requires reader { reader < length scene.now.candidates }
    requires place { place < length scene.now.candidates }
    ensures { OnOk result (Adds exported.old.items exported.new.items (IsExportedAt scene.now reader place)) }
{
    let candidate = &scene.candidates()[place];
    let name = name_at(scene, reader);
    if candidate.observed.declaration.name == *name {
        return Ok(());
    }
    push_exports(exported, name, candidate)?;
    Ok(())
}

fn push_exports(
    exported: &mut Vec<Exported>,
    reader: &Name,
    candidate: &Candidate,
) -> Result<(), CopyEnd>
    ensures { OnOk result (Adds exported.old.items exported.new.items (IsExportedBy reader.now candidate.now)) }
{
    for grant in candidate.observed.declaration.exports.as_slice() {
        push_grant(exported, reader, candidate, grant)?;
    }
    Ok(())
}

fn push_grant(
    exported: &mut Vec<Exported>,
    reader: &Name,
    candidate: &Candidate,
    grant: &Grant,
) -> Result<(), CopyEnd>
    ensures { OnOk result (Adds exported.old.items exported.new.items (IsGranted reader.now candidate.now grant.now)) }
{
    if !reaches(grant, reader) {
        return Ok(());
    }
    exported.push(Exported {
        package: grant.package.copy()?,
        exporter: candidate.observed.declaration.name.copy()?,
    })?;
    Ok(())
}

/// Whether a grant is to all modules, or to the one with this name.
pub fn reaches(grant: &Grant, reader: &Name) -> bool
    ensures { IsTrue result ↔ ReachesBy grant.now.to reader.now }
{
    match &grant.to {
        None => true,
        Some(names) => names
            .as_slice()
            .iter()
            .any(|name| name.as_bytes() == reader.as_bytes()),
    }
}
