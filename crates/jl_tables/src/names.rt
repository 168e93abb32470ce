//! Indices in a file, as the names that they have.

ghost use Rattle.std.specs.Prelude.{◌≡◌, [], IfOk, Ok, false};
ghost use Rattle.std.specs.Option.{option_copied};
ghost use Rattle.jl_reading.specs.Reading.{each_at};
ghost use Rattle.jl_logic.specs.Answers.{Gives};
ghost use Rattle.jl_classfile.specs.Places.{Reads};
ghost use Rattle.jl_tables.specs.Faults.{told};
ghost use Rattle.jl_tables.specs.Kinds.{naming};
ghost use Rattle.jl_tables.specs.Meaning.{is_among};
ghost use Rattle.jl_tables.specs.Reading as reading;

use crate::fault::{InfoFault, repeated};
use crate::kind::Kind;
use crate::meaning::name_of;
use crate::table::Names;
use jl_classfile::Place;
use jl_pool::Pool;
use jl_prim::{Copied, Items, Name};
use std::alloc::Global;

/// The name that the index at a place has.
#[tactic(auto, unfolding(crate::specs::Reading::name_at))]
pub fn name_at<'a, 'p>(
    pool: &'a Pool,
    kind: Kind,
    place: Place<'p>,
) -> Result<(&'a Name, Place<'p>), InfoFault>
    ensures { Reads told (λ name. name.now) place.entry result (reading.name_at (naming kind) pool.now) }
{
    let (index, next) = place.u16::<InfoFault>()?;
    match name_of(pool, kind, index) {
        Some(name) => Ok((name, next)),
        None => Err(InfoFault::BadIndex(place.at)),
    }
}

/// Likewise, where the table must not have the name already.
#[tactic(auto, unfolding(crate::specs::Reading::new_name_at))]
pub fn new_name_at<'a, 'p>(
    alloc: Global,
    pool: &'a Pool,
    table: &str,
    kind: Kind,
    done: &Names,
    place: Place<'p>,
) -> Result<(&'a Name, Place<'p>), InfoFault>
    ensures exact { Reads told (λ name. name.now) place.entry result (λ bytes. reading.new_name_at table.now (naming kind) pool.now bytes done.now) }
    ensures fresh { IfOk result (λ x. is_among x.0.now done.now ≡ false) }
{
    let (name, next) = name_at(pool, kind, place)?;
    if done.has(name) {
        return repeated(alloc, table, name.as_str());
    }
    Ok((name, next))
}

fn owned_name_at<'p>(
    alloc: Global,
    pool: &Pool,
    table: &str,
    kind: Kind,
    done: &Names,
    place: Place<'p>,
) -> Result<(Name, Place<'p>), InfoFault>
    ensures exact { Reads told (λ name. name) place.entry result (λ bytes. reading.new_name_at table.now (naming kind) pool.now bytes done.now) }
    ensures fresh { IfOk result (λ x. is_among x.0 done.now ≡ false) }
{
    let (name, next) = new_name_at(alloc, pool, table, kind, done, place)?;
    Ok((name.copy()?, next))
}

/// The table of names whose count stands at a place.
#[tactic(auto, unfolding(crate::specs::Reading::names_at))]
pub fn names_at<'p>(
    alloc: Global,
    pool: &Pool,
    table: &str,
    kind: Kind,
    place: Place<'p>,
) -> Result<(Items<Name>, Place<'p>), InfoFault>
    ensures { Reads told (λ names. names) place.entry result (reading.names_at table.now (naming kind) pool.now) }
{
    let (count, place) = place.u16::<InfoFault>()?;
    each_name(alloc, pool, table, kind, count, place)
}

/// So many names, none of them twice.
pub fn each_name<'p>(
    alloc: Global,
    pool: &Pool,
    table: &str,
    kind: Kind,
    count: u16,
    place: Place<'p>,
) -> Result<(Items<Name>, Place<'p>), InfoFault>
    ensures { Reads told (λ names. names) place.entry result (λ bytes. each_at (reading.new_name_at table.now (naming kind) pool.now bytes) [] count) }
{
    let mut done = Names::new(alloc);
    let mut next = place;
    for _ in 0..count {
        let (name, after) = owned_name_at(alloc, pool, table, kind, &done, next)?;
        done = done.with(name)?;
        next = after;
    }
    Ok((copied_all(alloc, done.as_slice())?, next))
}

/// The version whose index stands at a place. Index 0 is for none.
#[tactic(auto, unfolding(crate::specs::Reading::version_at))]
pub fn version_at<'a, 'p>(
    pool: &'a Pool,
    place: Place<'p>,
) -> Result<(Option<&'a Name>, Place<'p>), InfoFault>
    ensures { Reads told option_copied place.entry result (reading.version_at pool.now) }
{
    let (index, next) = place.u16::<InfoFault>()?;
    if index == 0 {
        return Ok((None, next));
    }
    match pool.text(index) {
        Some(version) => Ok((Some(version), next)),
        None => Err(InfoFault::BadIndex(place.at)),
    }
}

/// Copies of names.
pub fn copied_all(alloc: Global, names: &[Name]) -> Result<Items<Name>, InfoFault>
    ensures { Gives told (λ it. it) result (Ok names.now) }
{
    let mut copies = Items::new(alloc);
    for name in names {
        copies.push(name.copy()?)?;
    }
    Ok(copies)
}
