//! Attributes (JVMS 4.7): those of some forms are read, each of which may stand once, and all others are
//! passed over.

ghost use Rattle.std.specs.Prelude.{◌≡◌, None, Some, IfErr, IsSome};
ghost use Rattle.jl_logic.specs.Answers.{Gives};
ghost use Rattle.jl_classfile.specs.Attributes.{attribute_at, first_of, read_at, passed_at};
ghost use Rattle.jl_classfile.specs.Attributes as reading;
ghost use Rattle.jl_classfile.specs.Places.{Reads, content_at, inside};

use crate::place::Place;
use jl_pool::Pool;
use jl_prim::Name;
use jl_reading::Fault;
use std::alloc::Global;

/// What reads the attributes of one site.
///
/// `K` is the forms of those that are read, and `V` what one of them means.
pub trait AttributeReader<K, V, F: Fault>: Sized {
    ghost use Rattle.std.specs.Prelude.{◌≡◌, None, Some};
    ghost use Rattle.jl_logic.specs.Answers.{Gives};
    ghost use Rattle.jl_classfile.specs.Attributes.{Reader, IsFault};

    ghost reader: { Self → Reader K V F };

    /// The form of the attributes of a name, where they are read.
    fn form(&self, name: &Name) -> Option<K>
        ensures { result ≡ (reader self.now).form name.now };

    /// Whether an attribute of a form may stand behind those with these meanings.
    fn may_stand(&self, done: &[V], form: K) -> bool
        ensures { result ≡ (reader self.now).may_stand done.now form };

    /// The index of a name at this place names no text. It takes no memory.
    fn unnamed(&self, place: usize) -> F
        ensures { F.told result ≡ Some ((reader self.now).unnamed place) };

    /// The attribute at this place may not stand there.
    fn refused(&self, alloc: Global, place: usize, form: K) -> F
        ensures { IsFault F.told result ((reader self.now).refused place form) };

    /// In the attribute at the first place, the unit at the second is not whole. It takes no memory.
    fn cut(&self, place: usize, at: usize) -> F
        ensures { F.told result ≡ Some ((reader self.now).cut place at) };

    /// There was no memory for what was read.
    fn no_memory(&self) -> F
        ensures { F.told result ≡ None };

    /// What the bytes of a content from a place on mean, all of them, in the attribute at the first place.
    fn meaning(&self, alloc: Global, form: K, place: usize, content: Place<'_>) -> Result<V, F>
        ensures { Gives F.told (λ v. v) result ((reader self.now).meaning form place content.entry.bytes.now content.entry.at) };
}

/// What so many attributes from a place on mean, in order, and the place after them.
pub fn attributes_at<'a, K: Copy, V: Drop, F: Fault, R: AttributeReader<K, V, F>>(
    alloc: Global,
    reader: &R,
    pool: &Pool,
    count: u16,
    place: Place<'a>,
) -> Result<(Vec<V>, Place<'a>), F>
    ensures { Reads F.told (λ vs. vs.items) place.entry result (reading.attributes_at (R.reader reader.now) pool.now count) }
{
    let mut done = Vec::new(alloc);
    let mut next = place;
    for _ in 0..count {
        let (read, after) = attribute(alloc, reader, pool, done, next)?;
        done = read;
        next = after;
    }
    Ok((done, next))
}

/// The first of some values, where there is any.
pub fn first<V: Drop>(values: Vec<V>) -> Option<V>
    ensures { result ≡ first_of values.items }
{
    let mut values = values;
    if values.is_empty() {
        None
    } else {
        Some(values.swap_remove(0))
    }
}

/// The attribute at a place, behind what was read so far.
#[tactic(auto, using(crate::proofs::Faults::fault_of), unfolding(crate::specs::Attributes::attribute_at))]
fn attribute<'a, K: Copy, V: Drop, F: Fault, R: AttributeReader<K, V, F>>(
    alloc: Global,
    reader: &R,
    pool: &Pool,
    done: Vec<V>,
    place: Place<'a>,
) -> Result<(Vec<V>, Place<'a>), F>
    ensures { Reads F.told (λ vs. vs.items) place.entry result (λ bytes. attribute_at (R.reader reader.now) pool.now bytes done.items) }
{
    let Some((index, next)) = place.next_u16() else {
        return Err(reader.cut(place.at, place.at));
    };
    let Some(name) = pool.text(index) else {
        return Err(reader.unnamed(place.at));
    };
    match reader.form(name) {
        Some(form) => read(alloc, reader, form, place.at, done, next),
        None => passed(reader, place.at, done, next),
    }
}

/// An attribute that is passed over, behind the index of its name.
#[tactic(auto, unfolding(crate::specs::Attributes::passed_at))]
fn passed<'a, K: Copy, V: Drop, F: Fault, R: AttributeReader<K, V, F>>(
    reader: &R,
    attribute: usize,
    done: Vec<V>,
    place: Place<'a>,
) -> Result<(Vec<V>, Place<'a>), F>
    ensures { Reads F.told (λ vs. vs.items) place.entry result (λ bytes. passed_at (R.reader reader.now) attribute bytes done.items) }
{
    let (_content, next) = content(reader, attribute, place)?;
    Ok((done, next))
}

/// An attribute that is read, behind the index of its name.
#[tactic(auto, using(crate::proofs::Faults::fault_of), unfolding(crate::specs::Attributes::read_at))]
fn read<'a, K: Copy, V: Drop, F: Fault, R: AttributeReader<K, V, F>>(
    alloc: Global,
    reader: &R,
    form: K,
    attribute: usize,
    done: Vec<V>,
    place: Place<'a>,
) -> Result<(Vec<V>, Place<'a>), F>
    ensures { Reads F.told (λ vs. vs.items) place.entry result (λ bytes. read_at (R.reader reader.now) form attribute bytes done.items) }
{
    if !reader.may_stand(done.as_slice(), form) {
        return Err(reader.refused(alloc, attribute, form));
    }
    let (content, next) = content(reader, attribute, place)?;
    let meaning = reader.meaning(alloc, form, attribute, content)?;
    let mut done = done;
    match done.push(meaning) {
        Ok(()) => Ok((done, next)),
        Err(_) => Err(reader.no_memory()),
    }
}

/// The content of an attribute whose length stands at a place, and the place after it.
#[tactic(auto, using(crate::proofs::Faults::fault_of), unfolding(crate::specs::Places::content_at))]
pub fn content<'a, K: Copy, V: Drop, F: Fault, R: AttributeReader<K, V, F>>(
    reader: &R,
    attribute: usize,
    place: Place<'a>,
) -> Result<(Place<'a>, Place<'a>), F>
    ensures exact { Reads F.told inside place.entry result (content_at ((R.reader reader.now).cut attribute)) }
    // The fault is told: want of memory is no answer.
    ensures fault { IfErr result (λ e. IsSome (F.told e)) }
{
    let Some((count, start)) = place.next_u32() else {
        return Err(reader.cut(attribute, place.at));
    };
    match start.next_content(count as usize) {
        Some(read) => Ok(read),
        None => Err(reader.cut(attribute, start.at)),
    }
}
