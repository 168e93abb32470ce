//! Contents of the attributes of a class, over a pool that is being made (JVMS 4.7.28, 4.7.29, 4.7.31).
//!
//! A content stands alone, so that its first byte is at place 0, and what is wrong in it is wrong there.

ghost use Rattle.std.specs.Prelude.{◌≡◌, [], None, IfErr, IfOk, IsOkUnless, Ok};
ghost use Rattle.jl_reading.specs.Reading.{each_at, number_at};
ghost use Rattle.jl_logic.specs.Answers.{Gives};
ghost use Rattle.jl_pool.specs.Pool.{class_named};
ghost use Rattle.jl_classfile.specs.Places.{Reads};
ghost use Rattle.jl_class.specs.Faults.{cut_in, told};
ghost use Rattle.jl_class.specs.Reading as reading;
ghost use Rattle.jl_class.specs.Reading.{named_in};
ghost use Rattle.jl_classw.specs.Contents.{IsJudged};

use crate::entries::Entries;
use crate::fault::WriteFault;
use jl_class::ClassFault;
use jl_classfile::Place;
use jl_prim::{Copied, Items, Name};
use std::alloc::Global;

/// The host of a nest, which the content names (JVMS 4.7.28).
#[tactic(auto, unfolding(jl_class::specs::Reading::host_at))]
pub fn host_of(pool: &Entries, content: &[u8]) -> Result<Name, ClassFault>
    ensures { Gives told (λ x. x) result (reading.host_at pool.now 0 content.now 0) }
{
    let (name, next) = class_in(pool, Place::start(content))?;
    if next.is_end() {
        Ok(name.copy()?)
    } else {
        Err(ClassFault::Attribute(0))
    }
}

/// The classes that a content lists (JVMS 4.7.29, 4.7.31).
#[tactic(auto, unfolding(jl_class::specs::Reading::classes_at))]
pub fn classes_of(alloc: Global, pool: &Entries, content: &[u8]) -> Result<Items<Name>, ClassFault>
    ensures { Gives told (λ x. x) result (reading.classes_at pool.now 0 content.now 0) }
{
    let (names, next) = listed_at(alloc, pool, Place::start(content))?;
    if next.is_end() {
        Ok(names)
    } else {
        Err(ClassFault::Attribute(0))
    }
}

/// The classes whose count stands at a place.
#[tactic(auto, unfolding(jl_class::specs::Reading::listed_at))]
fn listed_at<'p>(
    alloc: Global,
    pool: &Entries,
    place: Place<'p>,
) -> Result<(Items<Name>, Place<'p>), ClassFault>
    ensures { Reads told (λ x. x) place.entry result (reading.listed_at pool.now 0) }
{
    let (count, place) = number(place)?;
    each_class(alloc, pool, count, place)
}

fn each_class<'p>(
    alloc: Global,
    pool: &Entries,
    count: u16,
    place: Place<'p>,
) -> Result<(Items<Name>, Place<'p>), ClassFault>
    ensures { Reads told (λ x. x) place.entry result (λ bytes. each_at (λ done. named_in 0 (class_named pool.now) bytes) [] count) }
{
    let mut done = Vec::new(alloc);
    let mut next = place;
    for _ in 0..count {
        let (name, after) = class_copy_in(pool, next)?;
        done.push(name)?;
        next = after;
    }
    Ok((Items::from_vec(done), next))
}

fn class_copy_in<'p>(pool: &Entries, place: Place<'p>) -> Result<(Name, Place<'p>), ClassFault>
    ensures { Reads told (λ x. x) place.entry result (named_in 0 (class_named pool.now)) }
{
    let (name, next) = class_in(pool, place)?;
    Ok((name.copy()?, next))
}

/// The class whose index stands at a place.
#[tactic(auto, unfolding(jl_class::specs::Reading::named_in))]
fn class_in<'a, 'p>(
    pool: &'a Entries,
    place: Place<'p>,
) -> Result<(&'a Name, Place<'p>), ClassFault>
    ensures { Reads told (λ name. name.now) place.entry result (named_in 0 (class_named pool.now)) }
{
    let (index, next) = number(place)?;
    match pool.class_name(index) {
        Some(name) => Ok((name, next)),
        None => Err(ClassFault::Attribute(0)),
    }
}

/// The number in two bytes of a content, and the place after it.
fn number(place: Place<'_>) -> Result<(u16, Place<'_>), ClassFault>
    ensures { Reads told (λ n. n) place.entry result (number_at (cut_in 0) 2) }
{
    match place.next_u16() {
        Some(read) => Ok(read),
        None => Err(ClassFault::Attribute(0)),
    }
}

/// What was read of a content that is right, so that only memory can be wanting.
pub fn right<T: Drop>(read: Result<T, ClassFault>) -> Result<T, WriteFault>
    requires { IfErr read (λ f. told f ≡ None) }
    ensures same { IfOk result (λ x. read ≡ Ok x) }
    ensures memory { IsOkUnless result WriteFault.NoMemory }
{
    match read {
        Ok(x) => Ok(x),
        Err(ClassFault::NoMemory) => Err(WriteFault::NoMemory),
        Err(_) => unreachable!(),
    }
}

/// Whether a content was read.
pub fn is_right<T: Drop>(read: Result<T, ClassFault>) -> Result<bool, WriteFault>
    ensures right { IfOk result (λ b. IsJudged read b) }
    ensures memory { IsOkUnless result WriteFault.NoMemory }
{
    match read {
        Ok(_) => Ok(true),
        Err(ClassFault::NoMemory) => Err(WriteFault::NoMemory),
        Err(_) => Ok(false),
    }
}
