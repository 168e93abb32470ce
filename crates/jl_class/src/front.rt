//! The file up to its fields (JVMS 4.1).

ghost use Rattle.std.specs.Prelude.{◌≡◌, ◌≢◌, ◌≤◌, ◌+◌, ℕ, List, [], length, IfOk, Ok, Err, position, false};
ghost use Rattle.jl_reading.specs.Reading.{each_at, number_at};
ghost use Rattle.jl_logic.specs.Answers.{Gives};
ghost use Rattle.jl_classfile.specs.Places.{Reads};
ghost use Rattle.jl_pool.specs.Reading.{pool_at};
ghost use Rattle.jl_pool.specs.Spelling.{StandsPool};
ghost use Rattle.jl_classfile.specs.Front.{front_at};
ghost use Rattle.jl_class.specs.declared.fault.ClassFault.TheVariants.{Magic, Version, NoMemory};
ghost use Rattle.jl_class.specs.Faults.{told, pool_or, short};
ghost use Rattle.jl_class.specs.Meaning as meaning;
ghost use Rattle.jl_class.specs.Meaning.{has_of_modules};
ghost use Rattle.jl_pool.specs.Pool.{class_named};
ghost use Rattle.jl_class.specs.Reading as reading;
ghost use Rattle.jl_class.specs.Reading.{class_pool_at, named_at};

use crate::fault::ClassFault;
use crate::flags::are_class_flags;
use crate::names::class_name_at;
use byteorder::{BigEndian, ByteOrder};
use jl_classfile::{Place, front as version_of};
use jl_pool::{Pool, read_pool};
use jl_prim::{Copied, Items, Name};
use std::alloc::Global;

/// The major and the minor version, and the place after them.
pub fn front<'p>(place: Place<'p>) -> Result<((u16, u16), Place<'p>), ClassFault>
    ensures exact { Reads told (λ x. x) place.entry result (front_at short Magic Version) }
    // It takes no memory.
    ensures never { result ≢ Err NoMemory }
{
    version_of::<ClassFault>(place)
}

/// The pool whose count stands at a place, which has no entry that only module declarations have.
#[tactic(auto, unfolding(crate::specs::Reading::class_pool_at))]
pub fn class_pool<'p>(alloc: Global, place: Place<'p>) -> Result<(Pool, Place<'p>), ClassFault>
    ensures { Reads told (λ x. x) place.entry result class_pool_at }
{
    let (pool, next) = any_pool(alloc, place)?;
    match first_of_modules(&pool, pool_count(place)) {
        Some(index) => Err(ClassFault::Pool(index)),
        None => Ok((pool, next)),
    }
}

/// The count of a pool that was read. The indices of its entries are below it.
fn pool_count(place: Place<'_>) -> u16
    requires { place.at + 2 ≤ length place.bytes.now }
    ensures { number_at short 2 place.entry.bytes.now place.entry.at ≡ Ok (result, place.entry.at + 2) }
{
    BigEndian::read_u16(&place.bytes[place.at..])
}

/// The least index of an entry that only module declarations have (JVMS 4.4.11, 4.4.12).
fn first_of_modules(pool: &Pool, count: u16) -> Option<usize>
    requires { (k : ℕ) → count ≤ k → has_of_modules pool.now k ≡ false }
    ensures { result ≡ position meaning.is_of_modules pool.now }
{
    for index in 0..count {
        if is_of_modules(pool, index) {
            return Some(index as usize);
        }
    }
    None
}

fn is_of_modules(pool: &Pool, index: u16) -> bool
    ensures { result ≡ has_of_modules pool.now index }
{
    match pool.tag(index) {
        Some(tag) => tag == 19 || tag == 20,
        None => false,
    }
}

fn any_pool<'p>(alloc: Global, place: Place<'p>) -> Result<(Pool, Place<'p>), ClassFault>
    ensures exact { Reads told (λ x. x) place.entry result (λ bytes at. pool_or (pool_at bytes at)) }
    ensures stands { IfOk result (λ x. StandsPool place.entry.bytes.now place.entry.at x.0 x.1.at) }
{
    let (pool, at) = read_pool(alloc, place.bytes, place.at)?;
    let next = Place {
        bytes: place.bytes,
        at,
    };
    Ok((pool, next))
}

/// The flags of the class, and the place after them.
#[tactic(auto, unfolding(crate::specs::Reading::flags_at))]
pub fn class_flags_at<'p>(place: Place<'p>) -> Result<(u16, Place<'p>), ClassFault>
    ensures { Reads told (λ x. x) place.entry result (reading.flags_at meaning.are_class_flags) }
{
    let (flags, next) = place.u16::<ClassFault>()?;
    if are_class_flags(flags) {
        Ok((flags, next))
    } else {
        Err(ClassFault::Flags(place.at))
    }
}

/// The names of the interfaces whose count stands at a place.
#[tactic(auto, unfolding(crate::specs::Reading::interfaces_at))]
pub fn interfaces_at<'p>(
    alloc: Global,
    pool: &Pool,
    place: Place<'p>,
) -> Result<(Items<Name>, Place<'p>), ClassFault>
    ensures { Reads told (λ x. x) place.entry result (reading.interfaces_at pool.now) }
{
    let (count, place) = place.u16::<ClassFault>()?;
    each_interface(alloc, pool, count, place)
}

fn each_interface<'p>(
    alloc: Global,
    pool: &Pool,
    count: u16,
    place: Place<'p>,
) -> Result<(Items<Name>, Place<'p>), ClassFault>
    ensures { Reads told (λ x. x) place.entry result (λ bytes. each_at (λ done. named_at (class_named pool.now) bytes) [] count) }
{
    let mut done = Vec::new(alloc);
    let mut next = place;
    for _ in 0..count {
        let (name, after) = interface_at(pool, next)?;
        done.push(name)?;
        next = after;
    }
    Ok((Items::from_vec(done), next))
}

/// The name of the interface whose index stands at a place.
fn interface_at<'p>(pool: &Pool, place: Place<'p>) -> Result<(Name, Place<'p>), ClassFault>
    ensures { Reads told (λ x. x) place.entry result (named_at (class_named pool.now)) }
{
    let (name, next) = class_name_at(pool, place)?;
    Ok((name.copy()?, next))
}
