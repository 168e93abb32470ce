//! The indices of a pool by what stands there.

ghost use Rattle.std.specs.Prelude.{◌≡◌, ◌<◌, ℕ, List, length, Option, Some, None, IfOk, IsOkUnless, codes};
ghost use Rattle.std.specs.Option.{option_copied};
ghost use Rattle.indexmap.specs.IndexMap.{get};
ghost use Rattle.jl_logic.specs.Order.{is_text};
ghost use Rattle.jl_pool.specs.Pool.{text_of, paired_text as named_text, class_named};
ghost use Rattle.jl_optable.specs.Attributes.{name_of};
ghost use Rattle.jl_classw.specs.Writing.{is_named, or_here, first_of, or_zero, text_index, class_index, super_index, attribute_index};

use crate::fault::WriteFault;
use indexmap::IndexMap;
use jl_optable::AttrForm;
use jl_pool::Pool;
use jl_prim::{Copied, CopyEnd, Name};
use std::alloc::Global;
use std::marker::Model;

/// The least index of each text and of each class of a pool. Contracts see the pool.
#[derive(Drop)]
pub struct Places<'a> {
    pool: &'a Pool,
    texts: IndexMap<Name, u16>,
    classes: IndexMap<Name, u16>,
    constant_value: u16,
    code: u16,
    frames: u16,
}

impl<'a> Model for Places<'a> {
    ghost use Rattle.std.specs.Prelude.{◌≡◌, ℕ, List, length, codes};
    ghost use Rattle.indexmap.specs.IndexMap.{get};
    ghost use Rattle.jl_logic.specs.Order.{is_text};
    ghost use Rattle.jl_pool.specs.declared.entry.Entry.{Entry};
    ghost use Rattle.jl_pool.specs.Pool.{paired_text as named_text, class_named};
    ghost use Rattle.jl_classw.specs.Writing.{first_of, attribute_index};

    ghost Value = { List Entry };

    ghost view = { λ places. places.pool.now };

    ghost invariant = { λ places. ((name : List ℕ) → get is_text places.texts name ≡ first_of (named_text places.pool.now) name (length places.pool.now)) × ((name : List ℕ) → get is_text places.classes name ≡ first_of (class_named places.pool.now) name (length places.pool.now)) × (places.constant_value ≡ attribute_index places.pool.now (codes "ConstantValue")) × (places.code ≡ attribute_index places.pool.now (codes "Code")) × (places.frames ≡ attribute_index places.pool.now (codes "StackMapTable")) };
}

impl<'a> Places<'a> {
    /// The places of a pool.
    pub fn of(alloc: Global, pool: &'a Pool) -> Result<Places<'a>, WriteFault>
        requires { length pool.now < 65536 }
        ensures places { IfOk result (λ places. places ≡ pool.now) }
        ensures memory { IsOkUnless result WriteFault.NoMemory }
    {
        Ok(Places {
            pool,
            texts: text_places(alloc, pool)?,
            classes: class_places(alloc, pool)?,
            constant_value: attribute_place(pool, "ConstantValue"),
            code: attribute_place(pool, "Code"),
            frames: attribute_place(pool, "StackMapTable"),
        })
    }

    /// The index of a text, and 0 where it is not there.
    pub fn text(&self, name: &Name) -> u16
        ensures { result ≡ text_index self.now name.now }
    {
        match self.texts.get(name) {
            Some(index) => *index,
            None => 0,
        }
    }

    /// The index of a class, and 0 where it is not there.
    pub fn class(&self, name: &Name) -> u16
        ensures { result ≡ class_index self.now name.now }
    {
        match self.classes.get(name) {
            Some(index) => *index,
            None => 0,
        }
    }

    /// The index of a superclass, and 0 for none.
    pub fn super_class(&self, name: Option<&Name>) -> u16
        ensures { result ≡ super_index self.now (option_copied name.entry) }
    {
        match name {
            Some(name) => self.class(name),
            None => 0,
        }
    }

    /// The index of the name of ConstantValue attributes (JVMS 4.7.2).
    pub fn constant_value(&self) -> u16
        ensures { result ≡ attribute_index self.now (codes "ConstantValue") }
    {
        self.constant_value
    }

    /// The index of the name of Code attributes (JVMS 4.7.3).
    pub fn code(&self) -> u16
        ensures { result ≡ attribute_index self.now (codes "Code") }
    {
        self.code
    }

    /// The index of the name of StackMapTable attributes (JVMS 4.7.4).
    pub fn frames(&self) -> u16
        ensures { result ≡ attribute_index self.now (codes "StackMapTable") }
    {
        self.frames
    }
}

impl<'a> Places<'a> {
    /// The index of the name of the attributes of a form, and 0 where it is not there.
    pub fn attribute(&self, form: AttrForm) -> u16
        requires { length self.now < 65536 }
        ensures { result ≡ attribute_index self.now (name_of form) }
    {
        attribute_place(self.pool, form.name())
    }
}

/// The least index of each text.
#[tactic(auto, unfolding(crate::specs::Writing::first_of))]
fn text_places(alloc: Global, pool: &Pool) -> Result<IndexMap<Name, u16>, CopyEnd>
    requires { length pool.now < 65536 }
    ensures { IfOk result (λ places. (name : List ℕ) → get is_text places name ≡ first_of (named_text pool.now) name (length pool.now)) }
{
    let count = pool.entries().len() as u16;
    let mut places = IndexMap::new(alloc);
    for index in 0..count {
        places = noted(places, pool.paired_text(index), index)?;
    }
    Ok(places)
}

/// The least index of each class.
#[tactic(auto, unfolding(crate::specs::Writing::first_of))]
fn class_places(alloc: Global, pool: &Pool) -> Result<IndexMap<Name, u16>, CopyEnd>
    requires { length pool.now < 65536 }
    ensures { IfOk result (λ places. (name : List ℕ) → get is_text places name ≡ first_of (class_named pool.now) name (length pool.now)) }
{
    let count = pool.entries().len() as u16;
    let mut places = IndexMap::new(alloc);
    for index in 0..count {
        places = noted(places, pool.class_name(index), index)?;
    }
    Ok(places)
}

/// Notes the index of a name that has none yet.
fn noted(
    places: IndexMap<Name, u16>,
    name: Option<&Name>,
    index: u16,
) -> Result<IndexMap<Name, u16>, CopyEnd>
    ensures { IfOk result (λ after. (key : List ℕ) → get is_text after key ≡ or_here (get is_text places key) (is_named (option_copied name.entry) key) index) }
{
    let Some(name) = name else {
        return Ok(places);
    };
    if places.contains_key(name) {
        return Ok(places);
    }
    let mut places = places;
    places.insert(name.copy()?, index)?;
    Ok(places)
}

/// The least index of the name of an attribute, and 0 where it is not there.
#[tactic(auto, unfolding(crate::specs::Writing::first_of))]
fn attribute_place(pool: &Pool, name: &str) -> u16
    requires { length pool.now < 65536 }
    ensures { result ≡ attribute_index pool.now name.now }
{
    let count = pool.entries().len() as u16;
    let mut found = None;
    for index in 0..count {
        found = or_this(found, is_text_at(pool, index, name), index);
    }
    found.unwrap_or(0)
}

fn is_text_at(pool: &Pool, index: u16, name: &str) -> bool
    ensures { result ≡ is_named (text_of pool.now index) name.now }
{
    match pool.text(index) {
        Some(text) => text.as_str() == name,
        None => false,
    }
}

fn or_this(found: Option<u16>, is_right: bool, index: u16) -> Option<u16>
    ensures { result ≡ or_here found is_right index }
{
    match found {
        Some(before) => Some(before),
        None => { if is_right { Some(index) } else { None } }
    }
}
