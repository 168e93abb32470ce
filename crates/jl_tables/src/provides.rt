//! The table of services that a module provides (JVMS 4.7.25).

ghost use Rattle.std.specs.Prelude.{◌≡◌, [], map, IfOk, false};
ghost use Rattle.jl_reading.specs.Reading.{each_at};
ghost use Rattle.jl_classfile.specs.Places.{Reads};
ghost use Rattle.jl_prim.specs.declared.declaration.Provides.{Provides};
ghost use Rattle.jl_tables.specs.Faults.{told};
ghost use Rattle.jl_tables.specs.Meaning.{is_among};
ghost use Rattle.jl_tables.specs.Reading.{provides_at};
ghost use Rattle.jl_tables.specs.Reading as reading;

use crate::fault::InfoFault;
use crate::kind::Kind;
use crate::names::{each_name, new_name_at};
use crate::table::Table;
use jl_classfile::Place;
use jl_pool::Pool;
use jl_prim::{Copied, Items, Name, Provides};
use std::alloc::Global;

/// The provides table whose count stands at a place.
#[tactic(auto, unfolding(crate::specs::Reading::provides_table_at))]
pub fn provides_table_at<'p>(
    alloc: Global,
    pool: &Pool,
    place: Place<'p>,
) -> Result<(Items<Provides>, Place<'p>), InfoFault>
    ensures { Reads told (λ entries. entries) place.entry result (reading.provides_table_at pool.now) }
{
    let (count, place) = place.u16::<InfoFault>()?;
    each_provides(alloc, pool, count, place)
}

fn each_provides<'p>(
    alloc: Global,
    pool: &Pool,
    count: u16,
    place: Place<'p>,
) -> Result<(Items<Provides>, Place<'p>), InfoFault>
    ensures { Reads told (λ entries. entries) place.entry result (λ bytes. each_at (provides_at pool.now bytes) [] count) }
{
    let mut done = Table::new(alloc);
    let mut next = place;
    for _ in 0..count {
        let (entry, after) = provides(alloc, pool, &done, next)?;
        done = done.with(entry)?;
        next = after;
    }
    Ok((done.into_entries(), next))
}

/// The entry at a place, behind the entries that were read so far.
#[tactic(auto, unfolding(crate::specs::Reading::provides_at))]
fn provides<'p>(
    alloc: Global,
    pool: &Pool,
    done: &Table<Provides>,
    place: Place<'p>,
) -> Result<(Provides, Place<'p>), InfoFault>
    ensures exact { Reads told (λ entry. entry) place.entry result (λ bytes. provides_at pool.now bytes done.now) }
    ensures fresh { IfOk result (λ x. is_among x.0.service (map (λ (p : Provides). p.service) done.now) ≡ false) }
{
    let (service, place) = new_name_at(alloc, pool, "provides", Kind::Class, done.names(), place)?;
    let (implementations, next) = implementations_at(alloc, pool, place)?;
    let entry = Provides {
        service: service.copy()?,
        implementations,
    };
    Ok((entry, next))
}

/// The classes that implement a service, of which there has to be one.
#[tactic(auto, unfolding(crate::specs::Reading::implementations_at))]
fn implementations_at<'p>(
    alloc: Global,
    pool: &Pool,
    place: Place<'p>,
) -> Result<(Items<Name>, Place<'p>), InfoFault>
    ensures { Reads told (λ names. names) place.entry result (reading.implementations_at pool.now) }
{
    let (count, next) = place.u16::<InfoFault>()?;
    if count == 0 {
        return Err(InfoFault::BadIndex(place.at));
    }
    each_name(alloc, pool, "implementations", Kind::Class, count, next)
}
