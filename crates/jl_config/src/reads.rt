//! Which module reads which.

ghost use Rattle.std.specs.Prelude.{◌≡◌, ◌<◌, ◌++◌, length, map, IfOk, OnOk};
ghost use Rattle.jl_config.specs.Collected.{IsReading};
ghost use Rattle.jl_config.specs.Places.{SameNameFault};
ghost use Rattle.jl_config.specs.ReadRows.{AreReadings, read_between, reads_in};
ghost use Rattle.jl_config.specs.Resolves.{AreReads};
ghost use Rattle.jl_config.specs.declared.fault.ResolveFault.{ResolveFault};

use crate::configuration::Read;
use crate::readings::Reading;
use crate::same_name::name_at;
use crate::scene::Scene;
use jl_prim::{Copied, CopyEnd};
use std::alloc::Global;

/// Which module reads which, where none reads two of one name.
pub fn reads_of(alloc: Global, scene: &Scene, readings: &[Reading]) -> Result<Vec<Read>, CopyEnd>
    requires readings { AreReadings scene.now readings.now }
    requires apart { (f : ResolveFault) → SameNameFault scene.now f → ⊥ }
    ensures { IfOk result (λ reads. AreReads scene.now reads.items) }
{
    let mut reads = Vec::new(alloc);
    for reading in readings {
        push_reads(&mut reads, scene, reading)?;
    }
    Ok(reads)
}

fn push_reads(reads: &mut Vec<Read>, scene: &Scene, reading: &Reading) -> Result<(), CopyEnd>
    requires { IsReading scene.now reading.now }
    ensures { OnOk result (reads.new.items ≡ reads.old.items ++ reads_in scene.now reading.now) }
{
    for place in reading.read.as_slice() {
        reads.push(read_between(scene, reading.reader, *place)?)?;
    }
    Ok(())
}

fn read_between(scene: &Scene, reader: usize, place: usize) -> Result<Read, CopyEnd>
    requires reader { reader < length scene.now.candidates }
    requires place { place < length scene.now.candidates }
    ensures { IfOk result (λ read. read ≡ read_between scene.now reader place) }
{
    Ok(Read {
        reader: name_at(scene, reader).copy()?,
        config: scene.candidates()[place].config,
        name: name_at(scene, place).copy()?,
    })
}
