//! The table of modules that a module requires (JVMS 4.7.25).

ghost use Rattle.std.specs.Prelude.{◌≡◌, [], map, IfOk, false};
ghost use Rattle.jl_reading.specs.Reading.{each_at};
ghost use Rattle.jl_classfile.specs.Places.{Reads};
ghost use Rattle.jl_prim.specs.declared.declaration.Requires.{Requires};
ghost use Rattle.jl_tables.specs.Faults.{told};
ghost use Rattle.jl_tables.specs.Meaning.{is_among};
ghost use Rattle.jl_tables.specs.Reading.{requires_at};
ghost use Rattle.jl_tables.specs.Reading as reading;

use crate::fault::InfoFault;
use crate::kind::Kind;
use crate::meaning::{is_static, is_transitive};
use crate::names::{new_name_at, version_at};
use crate::table::Table;
use jl_classfile::Place;
use jl_pool::Pool;
use jl_prim::{Copied, Items, Requires};
use std::alloc::Global;

/// The requires table whose count stands at a place.
#[tactic(auto, unfolding(crate::specs::Reading::requires_table_at))]
pub fn requires_table_at<'p>(
    alloc: Global,
    pool: &Pool,
    place: Place<'p>,
) -> Result<(Items<Requires>, Place<'p>), InfoFault>
    ensures { Reads told (λ entries. entries) place.entry result (reading.requires_table_at pool.now) }
{
    let (count, place) = place.u16::<InfoFault>()?;
    each_requires(alloc, pool, count, place)
}

fn each_requires<'p>(
    alloc: Global,
    pool: &Pool,
    count: u16,
    place: Place<'p>,
) -> Result<(Items<Requires>, Place<'p>), InfoFault>
    ensures { Reads told (λ entries. entries) place.entry result (λ bytes. each_at (requires_at pool.now bytes) [] count) }
{
    let mut done = Table::new(alloc);
    let mut next = place;
    for _ in 0..count {
        let (entry, after) = requires_entry(alloc, pool, &done, next)?;
        done = done.with(entry)?;
        next = after;
    }
    Ok((done.into_entries(), next))
}

/// The entry at a place, behind the entries that were read so far.
#[tactic(auto, unfolding(crate::specs::Reading::requires_at))]
fn requires_entry<'p>(
    alloc: Global,
    pool: &Pool,
    done: &Table<Requires>,
    place: Place<'p>,
) -> Result<(Requires, Place<'p>), InfoFault>
    ensures exact { Reads told (λ entry. entry) place.entry result (λ bytes. requires_at pool.now bytes done.now) }
    ensures fresh { IfOk result (λ x. is_among x.0.name (map (λ (r : Requires). r.name) done.now) ≡ false) }
{
    let (name, place) = new_name_at(alloc, pool, "requires", Kind::Module, done.names(), place)?;
    let (flags, place) = place.u16::<InfoFault>()?;
    let (_version, next) = version_at(pool, place)?;
    let entry = Requires {
        name: name.copy()?,
        transitive: is_transitive(flags),
        is_static: is_static(flags),
    };
    Ok((entry, next))
}
