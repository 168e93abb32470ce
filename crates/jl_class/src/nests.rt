//! The attributes of a class: its nest, the components of a record, and who may extend it (JVMS 4.7.28 to
//! 4.7.31).

ghost use Rattle.std.specs.Prelude.{◌≡◌, [], Ok, Some};
ghost use Rattle.jl_reading.specs.Reading.{each_at};
ghost use Rattle.jl_classfile.specs.Attributes.{or_else};
ghost use Rattle.jl_logic.specs.Answers.{Gives};
ghost use Rattle.jl_names.specs.Names.{names_a_field};
ghost use Rattle.jl_pool.specs.Pool.{class_named, text_that};
ghost use Rattle.jl_classfile.specs.Places.{Reads};
ghost use Rattle.jl_class.specs.Faults.{told};
ghost use Rattle.std.specs.List.{list_any};
ghost use Rattle.jl_class.specs.Meaning as meaning;
ghost use Rattle.jl_class.specs.Meaning.{describes_a_field};
ghost use Rattle.jl_class.specs.Spelling.{or_nothing};
ghost use Rattle.jl_class.specs.Reading as reading;
ghost use Rattle.jl_class.specs.Reading.{named_in};

use crate::attribute::{SiteAttributes, SiteReader, one_at};
use crate::fault::ClassFault;
use crate::flags::is_final;
use crate::names::describes_a_field as is_descriptor;
use crate::source::Source;
use jl_classfile::{Place, attributes_at};
use jl_names::is_field_name;
use jl_optable::{AttrForm, Site, attr_table};
use jl_pool::Pool;
use jl_prim::{Copied, Items, Name};
use std::alloc::Global;

/// What an attribute of a class means.
#[derive(Debug, Drop)]
pub enum ClassAttribute {
    /// The name of the host of its nest.
    Host(Name),
    /// The names of the members of its nest.
    Members(Items<Name>),
    /// It is a record. Nothing of its components is kept.
    Record,
    /// The names of the classes that may extend it.
    Permits(Items<Name>),
}

/// The nest of a class, and who may extend it.
#[derive(Debug, Drop)]
pub struct Nests {
    pub host: Option<Name>,
    pub members: Items<Name>,
    pub permits: Option<Items<Name>>,
}

/// What the attributes of a class declare whose count stands at a place, and the place after them.
#[tactic(auto, unfolding(crate::specs::Reading::nests_at))]
pub fn nests_at<'p>(
    alloc: Global,
    major: u16,
    flags: u16,
    pool: &Pool,
    place: Place<'p>,
) -> Result<(Nests, Place<'p>), ClassFault>
    ensures { Reads told (λ x. x) place.entry result (reading.nests_at major flags pool.now) }
{
    let (count, place) = place.u16::<ClassFault>()?;
    let reader = SiteAttributes {
        site: ClassSite { major, flags, pool },
    };
    let (read, place) = attributes_at(alloc, &reader, pool, count, place)?;
    Ok((nests_of(alloc, read), place))
}

/// What they declare together.
fn nests_of(alloc: Global, read: Vec<ClassAttribute>) -> Nests
    ensures { result ≡ reading.nests_of read.items }
{
    let mut host = None;
    let mut members = None;
    let mut permits = None;
    for attribute in read {
        match attribute {
            ClassAttribute::Host(name) => host = or_first(host, name),
            ClassAttribute::Members(names) => members = or_first(members, names),
            ClassAttribute::Record => {}
            ClassAttribute::Permits(names) => permits = or_first(permits, names),
        }
    }
    Nests {
        host,
        members: listed(alloc, members),
        permits,
    }
}

fn or_first<T: Drop>(found: Option<T>, other: T) -> Option<T>
    ensures { result ≡ or_else found (Some other) }
{
    match found {
        Some(first) => Some(first),
        None => Some(other),
    }
}

fn listed(alloc: Global, names: Option<Items<Name>>) -> Items<Name>
    ensures { result ≡ or_nothing names }
{
    match names {
        Some(names) => names,
        None => Items::from_vec(Vec::new(alloc)),
    }
}

/// The attributes of a class with these flags, in a file of a major version.
#[derive(Drop)]
struct ClassSite<'a> {
    major: u16,
    flags: u16,
    pool: &'a Pool,
}

impl SiteReader<ClassAttribute> for ClassSite<'_> {
    ghost use Rattle.jl_optable.specs.declared.attributes.Site.TheVariants as sites;
    ghost use Rattle.jl_optable.specs.Attributes.{attribute_form};
    ghost use Rattle.jl_class.specs.Meaning.{may_follow};
    ghost use Rattle.jl_class.specs.Reading.{in_file, meaning_at};

    ghost form_of = { λ site. attribute_form sites.Class site.major };

    ghost may_stand = { λ site. may_follow site.flags };

    ghost cut_at = { λ site. in_file };

    ghost means = { λ site. meaning_at site.pool.now };

    fn form(&self, name: &Name) -> Option<AttrForm> {
        attr_table().row(name.as_bytes(), Site::Class, self.major)
    }

    fn may(&self, done: &[ClassAttribute], form: AttrForm) -> bool {
        may_follow(self.flags, done, form)
    }

    fn cut(&self, _attribute: usize, at: usize) -> ClassFault {
        ClassFault::Short(at)
    }

    #[tactic(auto, unfolding(crate::specs::Reading::meaning_at))]
    fn meaning(
        &self,
        alloc: Global,
        form: AttrForm,
        attribute: usize,
        content: Place<'_>,
    ) -> Result<ClassAttribute, ClassFault> {
        match form {
            AttrForm::Host => Ok(ClassAttribute::Host(host_of(self.pool, attribute, content)?)),
            AttrForm::Members => {
                let names = classes_of(alloc, self.pool, attribute, content)?;
                Ok(ClassAttribute::Members(names))
            }
            AttrForm::Components => {
                record_of(alloc, self.pool, attribute, content)?;
                Ok(ClassAttribute::Record)
            }
            AttrForm::Permits => {
                let names = classes_of(alloc, self.pool, attribute, content)?;
                Ok(ClassAttribute::Permits(names))
            }
            _ => Err(ClassFault::Attribute(attribute)),
        }
    }
}

/// Whether an attribute may stand behind others in a class with these flags. A final class permits nobody.
fn may_follow(flags: u16, done: &[ClassAttribute], form: AttrForm) -> bool
    ensures { result ≡ meaning.may_follow flags done.now form }
{
    !(is_final(flags) && matches!(form, AttrForm::Permits)) && !is_kept_out(done, form)
}

fn is_kept_out(done: &[ClassAttribute], form: AttrForm) -> bool
    ensures { result ≡ list_any (meaning.keeps_out form) done.now }
{
    done.iter().any(|read| keeps_out(form, read))
}

/// Whether what was read keeps an attribute of a form out.
fn keeps_out(form: AttrForm, read: &ClassAttribute) -> bool
    ensures { result ≡ meaning.keeps_out form read.now }
{
    match form {
        AttrForm::Host | AttrForm::Members => {
            matches!(read, ClassAttribute::Host(_) | ClassAttribute::Members(_))
        }
        AttrForm::Components => matches!(read, ClassAttribute::Record),
        AttrForm::Permits => matches!(read, ClassAttribute::Permits(_)),
        _ => false,
    }
}

/// The host of a nest.
#[tactic(auto, unfolding(crate::specs::Reading::host_at))]
fn host_of(pool: &Pool, attribute: usize, content: Place<'_>) -> Result<Name, ClassFault>
    ensures { Gives told (λ x. x) result (reading.host_at pool.now attribute content.entry.bytes.now content.entry.at) }
{
    let (name, next) = class_in(pool, attribute, content)?;
    if next.is_end() {
        Ok(name.copy()?)
    } else {
        Err(ClassFault::Attribute(attribute))
    }
}

/// The classes that a content lists.
#[tactic(auto, unfolding(crate::specs::Reading::classes_at))]
fn classes_of(
    alloc: Global,
    pool: &Pool,
    attribute: usize,
    content: Place<'_>,
) -> Result<Items<Name>, ClassFault>
    ensures { Gives told (λ x. x) result (reading.classes_at pool.now attribute content.entry.bytes.now content.entry.at) }
{
    let (names, next) = listed_at(alloc, pool, attribute, content)?;
    if next.is_end() {
        Ok(names)
    } else {
        Err(ClassFault::Attribute(attribute))
    }
}

/// The classes whose count stands at a place.
#[tactic(auto, unfolding(crate::specs::Reading::listed_at))]
fn listed_at<'p>(
    alloc: Global,
    pool: &Pool,
    attribute: usize,
    place: Place<'p>,
) -> Result<(Items<Name>, Place<'p>), ClassFault>
    ensures { Reads told (λ x. x) place.entry result (reading.listed_at pool.now attribute) }
{
    let (count, place) = Source::Content(attribute).u16(place)?;
    each_class(alloc, pool, attribute, count, place)
}

fn each_class<'p>(
    alloc: Global,
    pool: &Pool,
    attribute: usize,
    count: u16,
    place: Place<'p>,
) -> Result<(Items<Name>, Place<'p>), ClassFault>
    ensures { Reads told (λ x. x) place.entry result (λ bytes. each_at (λ done. named_in attribute (class_named pool.now) bytes) [] count) }
{
    let mut done = Vec::new(alloc);
    let mut next = place;
    for _ in 0..count {
        let (name, after) = class_copy_in(pool, attribute, next)?;
        done.push(name)?;
        next = after;
    }
    Ok((Items::from_vec(done), next))
}

fn class_copy_in<'p>(
    pool: &Pool,
    attribute: usize,
    place: Place<'p>,
) -> Result<(Name, Place<'p>), ClassFault>
    ensures { Reads told (λ x. x) place.entry result (named_in attribute (class_named pool.now)) }
{
    let (name, next) = class_in(pool, attribute, place)?;
    Ok((name.copy()?, next))
}

/// The class whose index stands at a place, in the attribute at another.
#[tactic(auto, unfolding(crate::specs::Reading::named_in))]
fn class_in<'a, 'p>(
    pool: &'a Pool,
    attribute: usize,
    place: Place<'p>,
) -> Result<(&'a Name, Place<'p>), ClassFault>
    ensures { Reads told (λ name. name.now) place.entry result (named_in attribute (class_named pool.now)) }
{
    let (index, next) = Source::Content(attribute).u16(place)?;
    match pool.class_name(index) {
        Some(name) => Ok((name, next)),
        None => Err(ClassFault::Attribute(attribute)),
    }
}

/// Whether a content has the components of a record.
#[tactic(auto, unfolding(crate::specs::Reading::record_at))]
fn record_of(
    alloc: Global,
    pool: &Pool,
    attribute: usize,
    content: Place<'_>,
) -> Result<(), ClassFault>
    ensures { Gives told (λ _. tt) result (reading.record_at pool.now attribute content.entry.bytes.now content.entry.at) }
{
    let (_, next) = components_at(alloc, pool, attribute, content)?;
    if next.is_end() {
        Ok(())
    } else {
        Err(ClassFault::Attribute(attribute))
    }
}

/// The components whose count stands at a place.
#[tactic(auto, unfolding(crate::specs::Reading::components_at))]
fn components_at<'p>(
    alloc: Global,
    pool: &Pool,
    attribute: usize,
    place: Place<'p>,
) -> Result<((), Place<'p>), ClassFault>
    ensures { Reads told (λ _. tt) place.entry result (reading.components_at pool.now attribute) }
{
    let (count, place) = Source::Content(attribute).u16(place)?;
    each_component(alloc, pool, attribute, count, place)
}

fn each_component<'p>(
    alloc: Global,
    pool: &Pool,
    attribute: usize,
    count: u16,
    place: Place<'p>,
) -> Result<((), Place<'p>), ClassFault>
    ensures { Reads told (λ _. tt) place.entry result (λ bytes. reading.each_component_at pool.now attribute bytes count) }
{
    let mut next = place;
    for _ in 0..count {
        let (_, after) = component_at(alloc, pool, attribute, next)?;
        next = after;
    }
    Ok(((), next))
}

/// A component of a record: a name, a descriptor, and attributes that are passed over.
#[tactic(auto, unfolding(crate::specs::Reading::component_at))]
fn component_at<'p>(
    alloc: Global,
    pool: &Pool,
    attribute: usize,
    place: Place<'p>,
) -> Result<((), Place<'p>), ClassFault>
    ensures { Reads told (λ _. tt) place.entry result (reading.component_at pool.now attribute) }
{
    let (_, place) = field_name_in(pool, attribute, place)?;
    let (_, place) = field_desc_in(alloc, pool, attribute, place)?;
    let (_, place) = one_at(alloc, Component, Source::Content(attribute), pool, place)?;
    Ok(((), place))
}

/// The name of a component, whose index stands at a place.
#[tactic(auto, unfolding(crate::specs::Reading::named_in))]
fn field_name_in<'a, 'p>(
    pool: &'a Pool,
    attribute: usize,
    place: Place<'p>,
) -> Result<(&'a Name, Place<'p>), ClassFault>
    ensures { Reads told (λ name. name.now) place.entry result (named_in attribute (text_that names_a_field pool.now)) }
{
    let (index, next) = Source::Content(attribute).u16(place)?;
    match pool.paired_text(index) {
        Some(name) if is_field_name(name.as_bytes()) => Ok((name, next)),
        _ => Err(ClassFault::Attribute(attribute)),
    }
}

/// The descriptor of a component, whose index stands at a place.
#[tactic(auto, unfolding(crate::specs::Reading::named_in))]
fn field_desc_in<'a, 'p>(
    alloc: Global,
    pool: &'a Pool,
    attribute: usize,
    place: Place<'p>,
) -> Result<(&'a Name, Place<'p>), ClassFault>
    ensures { Reads told (λ name. name.now) place.entry result (named_in attribute (text_that describes_a_field pool.now)) }
{
    let (index, next) = Source::Content(attribute).u16(place)?;
    let Some(desc) = pool.paired_text(index) else {
        return Err(ClassFault::Attribute(attribute));
    };
    if is_descriptor(alloc, desc)? {
        Ok((desc, next))
    } else {
        Err(ClassFault::Attribute(attribute))
    }
}

/// The attributes of a component, none of which is read.
#[derive(Drop)]
struct Component;

impl SiteReader<u16> for Component {
    ghost use Rattle.std.specs.Prelude.{None, Err, false};
    ghost use Rattle.jl_class.specs.declared.fault.ClassFault.TheVariants as faults;
    ghost use Rattle.jl_class.specs.Faults.{cut_in};

    ghost form_of = { λ site name. None };

    ghost may_stand = { λ site done form. false };

    ghost cut_at = { λ site. cut_in };

    ghost means = { λ site form place bytes at. Err (faults.Attribute place) };

    fn form(&self, _name: &Name) -> Option<AttrForm> {
        None
    }

    fn may(&self, _done: &[u16], _form: AttrForm) -> bool {
        false
    }

    fn cut(&self, attribute: usize, _at: usize) -> ClassFault {
        ClassFault::Attribute(attribute)
    }

    fn meaning(
        &self,
        _alloc: Global,
        _form: AttrForm,
        attribute: usize,
        _content: Place<'_>,
    ) -> Result<u16, ClassFault> {
        Err(ClassFault::Attribute(attribute))
    }
}
