//! The file up to its attributes: a class with no members (JVMS 4.1).

ghost use Rattle.std.specs.Prelude.{◌≡◌, IfErr, Some};
ghost use Rattle.jl_modinfo.specs.Meaning.{class_text as text_of_class, is_module_info as names_module_info};
ghost use Rattle.jl_modinfo.specs.Reading.{front_at, zero_at, this_at, empty_class_at};
ghost use Rattle.jl_tables.specs.Faults.{told};
ghost use Rattle.jl_modinfo.specs.Places.{Moves};

use crate::meaning::class_text;
use jl_classfile::{Place, front as framing_front};
use jl_pool::Pool;
use jl_tables::{InfoFault, not_module};
use std::alloc::Global;

const MODULE_FLAGS: u16 = 0x8000;

/// The place after magic and version.
#[tactic(auto, unfolding(crate::specs::Reading::front_at))]
pub fn front<'p>(bytes: &'p [u8]) -> Result<Place<'p>, InfoFault>
    ensures exact { Moves told bytes.now result (front_at bytes.now) }
    // Want of memory is no answer.
    ensures fault { IfErr result (λ e. told e ≡ Some e) }
{
    let (_version, next) = framing_front::<InfoFault>(Place::start(bytes))?;
    Ok(next)
}

/// The place after flags, class, super class and the counts of interfaces, fields and methods.
#[tactic(auto, unfolding(crate::specs::Reading::empty_class_at))]
pub fn empty_class<'p>(alloc: Global, pool: &Pool, place: Place<'p>) -> Result<Place<'p>, InfoFault>
    ensures { Moves told place.entry.bytes.now result (empty_class_at pool.now place.entry.bytes.now place.entry.at) }
{
    let place = this(alloc, pool, place)?;
    let place = zero(alloc, "super", place)?;
    let place = zero(alloc, "interfaces", place)?;
    let place = zero(alloc, "fields", place)?;
    zero(alloc, "methods", place)
}

#[tactic(auto, unfolding(crate::specs::Reading::this_at))]
fn this<'p>(alloc: Global, pool: &Pool, place: Place<'p>) -> Result<Place<'p>, InfoFault>
    ensures { Moves told place.entry.bytes.now result (this_at pool.now place.entry.bytes.now place.entry.at) }
{
    let (flags, place) = place.u16::<InfoFault>()?;
    if flags != MODULE_FLAGS {
        return not_module(alloc, "flags");
    }
    let (index, next) = place.u16::<InfoFault>()?;
    if is_module_info(pool, index) {
        Ok(next)
    } else {
        not_module(alloc, "this")
    }
}

#[tactic(auto, unfolding(crate::specs::Reading::zero_at))]
fn zero<'p>(alloc: Global, field: &str, place: Place<'p>) -> Result<Place<'p>, InfoFault>
    ensures { Moves told place.entry.bytes.now result (zero_at field.now place.entry.bytes.now place.entry.at) }
{
    let (number, next) = place.u16::<InfoFault>()?;
    if number == 0 {
        Ok(next)
    } else {
        not_module(alloc, field)
    }
}

fn is_module_info(pool: &Pool, index: u16) -> bool
    ensures { result ≡ names_module_info (text_of_class pool.now index) }
{
    match class_text(pool, index) {
        Some(name) => name.as_str() == "module-info",
        None => false,
    }
}
