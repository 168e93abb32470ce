//! The tables of exports and opens (JVMS 4.7.25).

ghost use Rattle.std.specs.Prelude.{◌≡◌, [], map, IfOk, false};
ghost use Rattle.jl_reading.specs.Reading.{each_at};
ghost use Rattle.jl_classfile.specs.Places.{Reads};
ghost use Rattle.jl_prim.specs.declared.declaration.Grant.{Grant};
ghost use Rattle.jl_tables.specs.Faults.{told};
ghost use Rattle.jl_tables.specs.Kinds.{naming};
ghost use Rattle.jl_tables.specs.Meaning.{is_among, targets_of};
ghost use Rattle.jl_tables.specs.Reading.{grant_at};
ghost use Rattle.jl_tables.specs.Reading as reading;

use crate::fault::InfoFault;
use crate::kind::Kind;
use crate::names::{names_at, new_name_at};
use crate::table::Table;
use jl_classfile::Place;
use jl_pool::Pool;
use jl_prim::{Copied, Grant, Items, Name};
use std::alloc::Global;

/// The table of grants whose count stands at a place.
#[tactic(auto, unfolding(crate::specs::Reading::grants_at))]
pub fn grants_at<'p>(
    alloc: Global,
    pool: &Pool,
    table: &str,
    kind: Kind,
    place: Place<'p>,
) -> Result<(Items<Grant>, Place<'p>), InfoFault>
    ensures { Reads told (λ grants. grants) place.entry result (reading.grants_at table.now (naming kind) pool.now) }
{
    let (count, place) = place.u16::<InfoFault>()?;
    each_grant(alloc, pool, table, kind, count, place)
}

fn each_grant<'p>(
    alloc: Global,
    pool: &Pool,
    table: &str,
    kind: Kind,
    count: u16,
    place: Place<'p>,
) -> Result<(Items<Grant>, Place<'p>), InfoFault>
    ensures { Reads told (λ grants. grants) place.entry result (λ bytes. each_at (grant_at table.now (naming kind) pool.now bytes) [] count) }
{
    let mut done = Table::new(alloc);
    let mut next = place;
    for _ in 0..count {
        let (entry, after) = grant(alloc, pool, table, kind, &done, next)?;
        done = done.with(entry)?;
        next = after;
    }
    Ok((done.into_entries(), next))
}

/// The entry at a place, behind the entries that were read so far.
#[tactic(auto, unfolding(crate::specs::Reading::grant_at))]
fn grant<'p>(
    alloc: Global,
    pool: &Pool,
    table: &str,
    kind: Kind,
    done: &Table<Grant>,
    place: Place<'p>,
) -> Result<(Grant, Place<'p>), InfoFault>
    ensures exact { Reads told (λ entry. entry) place.entry result (λ bytes. grant_at table.now (naming kind) pool.now bytes done.now) }
    ensures fresh { IfOk result (λ x. is_among x.0.package (map (λ (g : Grant). g.package) done.now) ≡ false) }
{
    let (package, place) = new_name_at(alloc, pool, table, kind, done.names(), place)?;
    let (_flags, place) = place.u16::<InfoFault>()?;
    let (targets, next) = names_at(alloc, pool, "targets", Kind::Module, place)?;
    let entry = Grant {
        package: package.copy()?,
        to: some_targets(targets),
    };
    Ok((entry, next))
}

/// A grant to no module is one to all.
fn some_targets(targets: Items<Name>) -> Option<Items<Name>>
    ensures { result ≡ targets_of targets }
{
    if targets.is_empty() {
        None
    } else {
        Some(targets)
    }
}
