//! Methods (JVMS 4.6).

ghost use Rattle.std.specs.Prelude.{◌≡◌, [], map, IfOk, false};
ghost use Rattle.jl_reading.specs.Reading.{each_at};
ghost use Rattle.jl_logic.specs.Answers.{Gives};
ghost use Rattle.jl_classfile.specs.Places.{Reads};
ghost use Rattle.jl_class.specs.Faults.{told};
ghost use Rattle.jl_class.specs.Meaning as meaning;
ghost use Rattle.jl_class.specs.Meaning.{method_key, is_member_among};
ghost use Rattle.jl_class.specs.Reading as reading;

use crate::attribute::{SiteReader, named, one_at};
use crate::code::code_of;
use crate::fault::ClassFault;
use crate::flags::{are_method_flags, has_code};
use crate::member::{CodeBytes, MemberKey, MethodDecl};
use crate::names::{method_desc_at, method_name_at};
use crate::source::Source;
use crate::table::Table;
use jl_classfile::Place;
use jl_optable::AttrForm;
use jl_pool::Pool;
use jl_prim::{Copied, Items, Name};
use std::alloc::Global;

/// The methods whose count stands at a place, and the place after them.
#[tactic(auto, unfolding(crate::specs::Reading::methods_at))]
pub fn methods_at<'p>(
    alloc: Global,
    pool: &Pool,
    place: Place<'p>,
) -> Result<(Items<MethodDecl>, Place<'p>), ClassFault>
    ensures { Reads told (λ x. x) place.entry result (reading.methods_at pool.now) }
{
    let (count, place) = place.u16::<ClassFault>()?;
    each_method(alloc, pool, count, place)
}

fn each_method<'p>(
    alloc: Global,
    pool: &Pool,
    count: u16,
    place: Place<'p>,
) -> Result<(Items<MethodDecl>, Place<'p>), ClassFault>
    ensures { Reads told (λ x. x) place.entry result (λ bytes. each_at (reading.method_at pool.now bytes) [] count) }
{
    let mut done = Table::new(alloc);
    let mut next = place;
    for _ in 0..count {
        let (method, after) = method_at(alloc, pool, &done, next)?;
        done = done.with(method)?;
        next = after;
    }
    Ok((done.into_members(), next))
}

/// The method at a place, behind those that were read so far.
#[tactic(auto, unfolding(crate::specs::Reading::method_at))]
fn method_at<'p>(
    alloc: Global,
    pool: &Pool,
    done: &Table<MethodDecl>,
    place: Place<'p>,
) -> Result<(MethodDecl, Place<'p>), ClassFault>
    ensures exact { Reads told (λ x. x) place.entry result (λ bytes. reading.method_at pool.now bytes done.now) }
    ensures fresh { IfOk result (λ x. is_member_among (method_key x.0) (map method_key done.now) ≡ false) }
{
    let (flags, place) = flags_at(place)?;
    let (name, place) = method_name_at(flags, pool, place)?;
    let (desc, place) = method_desc_at(alloc, name, pool, place)?;
    let key = MemberKey {
        name: name.copy()?,
        desc: desc.copy()?,
    };
    if done.keys().has(&key) {
        return Err(ClassFault::RepeatedMember(key.name));
    }
    let (code, next) = codes_at(alloc, flags, pool, place)?;
    if has_code(flags) && code.is_none() {
        return Err(ClassFault::Attribute(next.at));
    }
    let MemberKey { name, desc } = key;
    let method = MethodDecl {
        flags,
        name,
        desc,
        code,
    };
    Ok((method, next))
}

#[tactic(auto, unfolding(crate::specs::Reading::flags_at))]
fn flags_at<'p>(place: Place<'p>) -> Result<(u16, Place<'p>), ClassFault>
    ensures { Reads told (λ x. x) place.entry result (reading.flags_at meaning.are_method_flags) }
{
    let (flags, next) = place.u16::<ClassFault>()?;
    if are_method_flags(flags) {
        Ok((flags, next))
    } else {
        Err(ClassFault::Flags(place.at))
    }
}

/// The code among the attributes whose count stands at a place, for a method with these flags.
#[tactic(auto, unfolding(crate::specs::Reading::codes_at))]
fn codes_at<'p>(
    alloc: Global,
    flags: u16,
    pool: &Pool,
    place: Place<'p>,
) -> Result<(Option<CodeBytes>, Place<'p>), ClassFault>
    ensures { Reads told (λ x. x) place.entry result (reading.codes_at flags pool.now) }
{
    one_at(alloc, Codes { flags, pool }, Source::File, pool, place)
}

/// The attributes of a method with these flags.
#[derive(Drop)]
struct Codes<'a> {
    flags: u16,
    pool: &'a Pool,
}

impl SiteReader<CodeBytes> for Codes<'_> {
    ghost use Rattle.jl_optable.specs.declared.attributes.AttrForm.TheVariants.{CodeBody};
    ghost use Rattle.jl_classfile.specs.Attributes.{alone, may_begin};
    ghost use Rattle.jl_class.specs.Meaning.{names_code, has_code as has_code_by};
    ghost use Rattle.jl_class.specs.Reading.{in_file, code_at};

    ghost form_of = { λ site. alone names_code CodeBody };

    ghost may_stand = { λ site. may_begin (has_code_by site.flags) };

    ghost cut_at = { λ site. in_file };

    ghost means = { λ site form. code_at site.pool.now };

    fn form(&self, name: &Name) -> Option<AttrForm> {
        named(name, AttrForm::CodeBody)
    }

    fn may(&self, done: &[CodeBytes], _form: AttrForm) -> bool {
        done.is_empty() && has_code(self.flags)
    }

    fn cut(&self, _attribute: usize, at: usize) -> ClassFault {
        ClassFault::Short(at)
    }

    fn meaning(
        &self,
        alloc: Global,
        _form: AttrForm,
        attribute: usize,
        content: Place<'_>,
    ) -> Result<CodeBytes, ClassFault> {
        code_of(alloc, self.pool, attribute, content)
    }
}
