//! Modules that read two of one name.

ghost use Rattle.std.specs.Prelude.{◌≡◌, ◌<◌, length, IfOk, OnOk};
ghost use Rattle.std.specs.Option.{option_map};
ghost use Rattle.jl_config.specs.Collected.{same_name_fault, Adds, IsReading, IsSharedAt, IsShared};
ghost use Rattle.jl_config.specs.Places.{IsLeastSome, SameNameFault};
ghost use Rattle.jl_config.specs.ReadRows.{name_at, AreReadings};
ghost use Rattle.jl_config.specs.Refusals.{fault_cmp};

use crate::fault::ResolveFault;
use crate::readings::Reading;
use crate::scene::Scene;
use crate::sorted::least_of;
use jl_prim::{Copied, CopyEnd, Name};
use std::alloc::Global;

/// A module reads two modules of one name.
#[derive(Debug, PartialEq, Eq, PartialOrd, Ord, Drop)]
pub struct SharedName {
    pub reader: Name,
    pub name: Name,
}

/// The least reader of two modules of one name, with the least such name.
pub fn least_same_name(
    alloc: Global,
    scene: &Scene,
    readings: &[Reading],
) -> Result<Option<ResolveFault>, CopyEnd>
    requires { AreReadings scene.now readings.now }
    ensures { IfOk result (λ found. IsLeastSome fault_cmp (SameNameFault scene.now) found) }
{
    let mut shared = Vec::new(alloc);
    for reading in readings {
        push_shared(&mut shared, scene, reading)?;
    }
    Ok(fault_of(least_of(shared)))
}

fn fault_of(shared: Option<SharedName>) -> Option<ResolveFault>
    ensures { result ≡ option_map same_name_fault shared }
{
    match shared {
        None => None,
        Some(shared) => Some(ResolveFault::SameName {
            reader: shared.reader,
            name: shared.name,
        }),
    }
}

/// Modules of one name stand side by side in a reading.
fn push_shared(
    shared: &mut Vec<SharedName>,
    scene: &Scene,
    reading: &Reading,
) -> Result<(), CopyEnd>
    requires { IsReading scene.now reading.now }
    ensures { OnOk result (Adds shared.old.items shared.new.items (IsShared scene.now reading.now)) }
{
    for at in 1..reading.read.len() {
        push_shared_at(shared, scene, reading, at)?;
    }
    Ok(())
}

fn push_shared_at(
    shared: &mut Vec<SharedName>,
    scene: &Scene,
    reading: &Reading,
    at: usize,
) -> Result<(), CopyEnd>
    requires reading { IsReading scene.now reading.now }
    requires later { 0 < at }
    requires within { at < length reading.now.read }
    ensures { OnOk result (Adds shared.old.items shared.new.items (IsSharedAt scene.now reading.now at)) }
{
    let read = reading.read.as_slice();
    let name = name_at(scene, read[at]);
    if name_at(scene, read[at - 1]) != name {
        return Ok(());
    }
    shared.push(SharedName {
        reader: name_at(scene, reading.reader).copy()?,
        name: name.copy()?,
    })?;
    Ok(())
}

/// The name of the module at a place in sight.
pub fn name_at(scene: &Scene, place: usize) -> &Name
    requires { place < length scene.now.candidates }
    ensures { result.now ≡ name_at scene.now place }
{
    &scene.candidates()[place].observed.declaration.name
}
