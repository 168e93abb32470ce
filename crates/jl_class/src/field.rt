//! Fields (JVMS 4.5) and their constants (JVMS 4.7.2).

ghost use Rattle.std.specs.Prelude.{◌≡◌, [], map, IfOk, Some, false};
ghost use Rattle.jl_reading.specs.Reading.{each_at};
ghost use Rattle.jl_logic.specs.Answers.{Gives};
ghost use Rattle.jl_classfile.specs.Places.{Reads};
ghost use Rattle.jl_class.specs.Faults.{told};
ghost use Rattle.jl_class.specs.Meaning as meaning;
ghost use Rattle.jl_class.specs.Meaning.{field_key, is_member_among};
ghost use Rattle.jl_class.specs.Reading as reading;
ghost use Rattle.jl_class.specs.Reading.{constant_at};

use crate::attribute::{SiteReader, named, one_at};
use crate::fault::ClassFault;
use crate::flags::{are_field_flags, is_static};
use crate::member::{FieldDecl, MemberKey};
use crate::names::{field_desc_at, field_name_at};
use crate::source::Source;
use crate::table::Table;
use jl_classfile::Place;
use jl_optable::AttrForm;
use jl_pool::Pool;
use jl_prim::{Copied, Items, Name};
use std::alloc::Global;

/// The fields whose count stands at a place, and the place after them.
#[tactic(auto, unfolding(crate::specs::Reading::fields_at))]
pub fn fields_at<'p>(
    alloc: Global,
    in_interface: bool,
    pool: &Pool,
    place: Place<'p>,
) -> Result<(Items<FieldDecl>, Place<'p>), ClassFault>
    ensures { Reads told (λ x. x) place.entry result (reading.fields_at in_interface pool.now) }
{
    let (count, place) = place.u16::<ClassFault>()?;
    each_field(alloc, in_interface, pool, count, place)
}

fn each_field<'p>(
    alloc: Global,
    in_interface: bool,
    pool: &Pool,
    count: u16,
    place: Place<'p>,
) -> Result<(Items<FieldDecl>, Place<'p>), ClassFault>
    ensures { Reads told (λ x. x) place.entry result (λ bytes. each_at (reading.field_at in_interface pool.now bytes) [] count) }
{
    let mut done = Table::new(alloc);
    let mut next = place;
    for _ in 0..count {
        let (field, after) = field_at(alloc, in_interface, pool, &done, next)?;
        done = done.with(field)?;
        next = after;
    }
    Ok((done.into_members(), next))
}

/// The field at a place, behind those that were read so far.
#[tactic(auto, unfolding(crate::specs::Reading::field_at))]
fn field_at<'p>(
    alloc: Global,
    in_interface: bool,
    pool: &Pool,
    done: &Table<FieldDecl>,
    place: Place<'p>,
) -> Result<(FieldDecl, Place<'p>), ClassFault>
    ensures exact { Reads told (λ x. x) place.entry result (λ bytes. reading.field_at in_interface pool.now bytes done.now) }
    ensures fresh { IfOk result (λ x. is_member_among (field_key x.0) (map field_key done.now) ≡ false) }
{
    let (flags, place) = flags_at(in_interface, place)?;
    let (name, place) = field_name_at(pool, place)?;
    let (desc, place) = field_desc_at(alloc, pool, place)?;
    let key = MemberKey {
        name: name.copy()?,
        desc: desc.copy()?,
    };
    if done.keys().has(&key) {
        return Err(ClassFault::RepeatedMember(key.name));
    }
    let (constant, next) = constants_at(alloc, flags, desc, pool, place)?;
    let MemberKey { name, desc } = key;
    let field = FieldDecl {
        flags,
        name,
        desc,
        constant,
    };
    Ok((field, next))
}

#[tactic(auto, unfolding(crate::specs::Reading::flags_at))]
fn flags_at<'p>(in_interface: bool, place: Place<'p>) -> Result<(u16, Place<'p>), ClassFault>
    ensures { Reads told (λ x. x) place.entry result (reading.flags_at (meaning.are_field_flags in_interface)) }
{
    let (flags, next) = place.u16::<ClassFault>()?;
    if are_field_flags(in_interface, flags) {
        Ok((flags, next))
    } else {
        Err(ClassFault::Flags(place.at))
    }
}

/// The constant among the attributes whose count stands at a place, for a field with these flags and this
/// descriptor.
#[tactic(auto, unfolding(crate::specs::Reading::constants_at))]
fn constants_at<'p>(
    alloc: Global,
    flags: u16,
    desc: &Name,
    pool: &Pool,
    place: Place<'p>,
) -> Result<(Option<u16>, Place<'p>), ClassFault>
    ensures { Reads told (λ x. x) place.entry result (reading.constants_at flags desc.now pool.now) }
{
    one_at(
        alloc,
        Constants { flags, desc, pool },
        Source::File,
        pool,
        place,
    )
}

/// The attributes of a field with these flags and this descriptor.
#[derive(Drop)]
struct Constants<'a> {
    flags: u16,
    desc: &'a Name,
    pool: &'a Pool,
}

impl SiteReader<u16> for Constants<'_> {
    ghost use Rattle.std.specs.Prelude.{true};
    ghost use Rattle.jl_optable.specs.declared.attributes.AttrForm.TheVariants.{ConstantIndex};
    ghost use Rattle.jl_classfile.specs.Attributes.{alone, may_begin};
    ghost use Rattle.jl_class.specs.Meaning.{names_constant_value};
    ghost use Rattle.jl_class.specs.Reading.{in_file, constant_at};

    ghost form_of = { λ site. alone names_constant_value ConstantIndex };

    ghost may_stand = { λ site. may_begin true };

    ghost cut_at = { λ site. in_file };

    ghost means = { λ site form. constant_at site.flags site.desc.now site.pool.now };

    fn form(&self, name: &Name) -> Option<AttrForm> {
        named(name, AttrForm::ConstantIndex)
    }

    fn may(&self, done: &[u16], _form: AttrForm) -> bool {
        done.is_empty()
    }

    fn cut(&self, _attribute: usize, at: usize) -> ClassFault {
        ClassFault::Short(at)
    }

    fn meaning(
        &self,
        _alloc: Global,
        _form: AttrForm,
        attribute: usize,
        content: Place<'_>,
    ) -> Result<u16, ClassFault> {
        constant_of(self.flags, self.desc, self.pool, attribute, content)
    }
}

/// The constant that the bytes from a place on have, all of them, in the attribute at another.
#[tactic(auto, unfolding(crate::specs::Reading::constant_at))]
fn constant_of(
    flags: u16,
    desc: &Name,
    pool: &Pool,
    attribute: usize,
    content: Place<'_>,
) -> Result<u16, ClassFault>
    ensures { Gives told (λ i. i) result (constant_at flags desc.now pool.now attribute content.entry.bytes.now content.entry.at) }
{
    let (index, next) = Source::Content(attribute).u16(content)?;
    if next.is_end() && sets_field(flags, desc, pool, index) {
        Ok(index)
    } else {
        Err(ClassFault::Attribute(attribute))
    }
}

/// Whether a field with these flags and this descriptor may have the entry at an index for its constant.
fn sets_field(flags: u16, desc: &Name, pool: &Pool, index: u16) -> bool
    ensures { result ≡ meaning.sets_field flags desc.now pool.now index }
{
    match pool.tag(index) {
        Some(tag) => may_be_constant(flags, desc, tag),
        None => false,
    }
}

/// Whether a field with these flags and this descriptor may have an entry with this tag for its constant.
/// Only a static field is set to it, so only there its type counts (JVMS 4.7.2).
pub fn may_be_constant(flags: u16, desc: &Name, tag: u8) -> bool
    ensures { result ≡ meaning.may_be_constant flags desc.now (Some tag) }
{
    if is_static(flags) {
        matches!(constant_tag(desc.as_str()), Some(wanted) if wanted == tag)
    } else {
        is_constant_tag(tag)
    }
}

fn is_constant_tag(tag: u8) -> bool
    ensures { result ≡ meaning.is_constant_tag tag }
{
    matches!(tag, 3 | 4 | 5 | 6 | 8)
}

/// The tag of the entries to which a static field with this descriptor may be set.
fn constant_tag(desc: &str) -> Option<u8>
    ensures { result ≡ meaning.constant_tag desc.now }
{
    if is_int_type(desc) {
        Some(3)
    } else if desc == "F" {
        Some(4)
    } else if desc == "J" {
        Some(5)
    } else if desc == "D" {
        Some(6)
    } else if desc == "Ljava/lang/String;" {
        Some(8)
    } else {
        None
    }
}

fn is_int_type(desc: &str) -> bool
    ensures { result ≡ meaning.is_int_type desc.now }
{
    desc == "I" || desc == "S" || desc == "C" || desc == "B" || desc == "Z"
}
