//! What the ancestors of a configuration have: its parents in order, behind each of them what stands above it, and
//! no configuration twice.

ghost use Rattle.std.specs.Prelude.{◌≡◌, ◌≤◌, ◌++◌, [], ◌∷◌, length, OnOk};
ghost use Rattle.jl_prim.specs.Limits.{most_modules};
ghost use Rattle.jl_config.specs.Located.{ancestor_numbers};
ghost use Rattle.jl_config.specs.Lineages.{reads_with, numbered_candidates, numbered_reads};

use crate::candidate::{Candidate, push_candidates};
use crate::configuration::{Configuration, Read};
use crate::walk::{ancestor_numbers, configuration_of};
use jl_prim::{ConfigId, Copied, CopyEnd};
use std::alloc::Global;

/// Adds the modules of the ancestors, in order, and what they read.
pub fn push_ancestors(
    alloc: Global,
    candidates: &mut Vec<Candidate>,
    reads: &mut Vec<(ConfigId, Read)>,
    known: &[Configuration],
    parents: &[ConfigId],
) -> Result<(), CopyEnd>
    requires { length known.now ≤ most_modules }
    ensures candidates { OnOk result (candidates.new.items ≡ candidates.old.items ++ numbered_candidates known.now (ancestor_numbers known.now parents.now)) }
    ensures reads { OnOk result (reads.new.items ≡ reads.old.items ++ numbered_reads known.now (ancestor_numbers known.now parents.now)) }
{
    let numbers = ancestor_numbers(alloc, known, parents)?;
    for number in &numbers {
        push_ancestor(candidates, reads, known, *number)?;
    }
    Ok(())
}

fn push_ancestor(
    candidates: &mut Vec<Candidate>,
    reads: &mut Vec<(ConfigId, Read)>,
    known: &[Configuration],
    number: ConfigId,
) -> Result<(), CopyEnd>
    ensures candidates { OnOk result (candidates.new.items ≡ candidates.old.items ++ numbered_candidates known.now (number ∷ [])) }
    ensures reads { OnOk result (reads.new.items ≡ reads.old.items ++ numbered_reads known.now (number ∷ [])) }
{
    let Some(ancestor) = configuration_of(known, number) else {
        return Ok(());
    };
    push_candidates(candidates, ancestor.id(), ancestor.modules())?;
    push_reads(reads, ancestor.id(), ancestor.reads())
}

fn push_reads(
    all: &mut Vec<(ConfigId, Read)>,
    config: ConfigId,
    reads: &[Read],
) -> Result<(), CopyEnd>
    ensures { OnOk result (all.new.items ≡ all.old.items ++ reads_with config reads.now) }
{
    for read in reads {
        all.push((config, read.copy()?))?;
    }
    Ok(())
}
