//! The entries of a pool that is being made, and where each of them stands first.

ghost use Rattle.std.specs.Prelude.{◌≡◌, ◌<◌, ◌≤◌, ◌++◌, [], ◌∷◌, ℕ, List, length, position, take, IfOk, OnOk, OnErr, IsOkUnless};
ghost use Rattle.std.specs.Option.{option_copied};
ghost use Rattle.indexmap.specs.IndexMap.{get};
ghost use Rattle.jl_logic.specs.Lists.{IsFront};
ghost use Rattle.jl_logic.specs.Order.{is_text};
ghost use Rattle.jl_pool.specs.declared.entry.Entry.{Entry};
ghost use Rattle.jl_pool.specs.declared.entry.Entry.TheVariants as entries;
ghost use Rattle.jl_pool.specs.Pool.{class_named, class_of, paired_text};
ghost use Rattle.jl_classw.specs.declared.entries.Key.{Key};
ghost use Rattle.jl_classw.specs.Building as building;
ghost use Rattle.jl_classw.specs.Keys.{key_of, is_key, is_keyed, text_place, other_place, place_in, AreNoted};
ghost use Rattle.jl_classw.specs.Writing.{or_here};

use crate::fault::WriteFault;
use indexmap::IndexMap;
use jl_names::{is_class_name, is_paired};
use jl_pool::{Entry, Text};
use jl_prim::Name;
use std::alloc::Global;
use std::marker::Model;

/// What an entry says that is no text, of those that are made.
#[derive(Clone, Copy, Debug, PartialEq, Eq, Hash)]
pub(crate) enum Key {
    Integer(u32),
    Long(u64),
    Class(u16),
    String(u16),
    Field(u16, u16),
    Method(u16, u16),
    InterfaceMethod(u16, u16),
    NameAndType(u16, u16),
}

/// The least index of each text, and of each other entry that is made.
#[derive(Drop)]
pub(crate) struct Firsts {
    texts: IndexMap<Vec<u16>, u16>,
    others: IndexMap<Key, u16>,
}

/// The entries of a pool that is being made, which contracts see as the list of them.
#[derive(Drop)]
pub struct Entries {
    entries: Vec<Entry>,
    firsts: Firsts,
}

impl Model for Entries {
    ghost use Rattle.std.specs.Prelude.{◌<◌, List, length};
    ghost use Rattle.jl_pool.specs.declared.entry.Entry.{Entry};
    ghost use Rattle.jl_classw.specs.Keys.{AreNoted};

    ghost Value = { List Entry };

    ghost view = { λ it. it.entries.items };

    ghost invariant = { λ it. (length it.entries.items < 65536) × AreNoted it.firsts.texts it.firsts.others it.entries.items };
}

impl Entries {
    /// The pool with the unused entry alone.
    pub fn first(alloc: Global) -> Result<Entries, WriteFault>
        ensures first { IfOk result (λ it. it ≡ entries.Unused ∷ []) }
        ensures memory { IsOkUnless result WriteFault.NoMemory }
    {
        let mut entries = Vec::new(alloc);
        entries.push(Entry::Unused)?;
        Ok(Entries {
            entries,
            firsts: Firsts {
                texts: IndexMap::new(alloc),
                others: IndexMap::new(alloc),
            },
        })
    }

    /// How many they are.
    pub fn len(&self) -> usize
        ensures len { result ≡ length self.now }
        ensures few { length self.now < 65536 }
    {
        self.entries.len()
    }

    /// The index of the first that says the same as this entry.
    pub fn find(&self, entry: &Entry) -> Option<u16>
        ensures { result ≡ position (building.is_same entry.now) self.now }
    {
        self.firsts.place(entry)
    }

    /// The name of the class at an index, where it is the name of a class.
    pub fn class_name(&self, index: u16) -> Option<&Name>
        ensures { option_copied result ≡ class_named self.now index }
    {
        let text = paired_text(
            self.entries.as_slice(),
            class_of(self.entries.as_slice(), index)?,
        )?;
        if is_class_name(text.as_bytes()) {
            Some(text)
        } else {
            None
        }
    }

    /// Puts entries behind them. Without memory they stay as they are.
    pub fn append(&mut self, added: Vec<Entry>) -> Result<(), WriteFault>
        requires { length (self.old ++ added.items) < 65536 }
        ensures ok { OnOk result (self.new ≡ self.old ++ added.items) }
        ensures err { OnErr result (self.new ≡ self.old) }
        ensures memory { IsOkUnless result WriteFault.NoMemory }
    {
        let known = self.entries.len();
        let mut rest = added;
        self.entries.append(&mut rest)?;
        match note_all(&mut self.firsts, self.entries.as_slice(), known) {
            Ok(()) => Ok(()),
            Err(fault) => {
                self.entries.truncate(known);
                Err(fault)
            }
        }
    }

    /// The entries in order.
    pub fn into_vec(self) -> Vec<Entry>
        ensures { result.items ≡ self }
    {
        let Entries { entries, .. } = self;
        entries
    }
}

/// The index of the name of the class at an index.
fn class_of(entries: &[Entry], index: u16) -> Option<u16>
    ensures { result ≡ class_of entries.now index }
{
    match entries.get(index as usize) {
        Some(Entry::Class(name)) => Some(*name),
        _ => None,
    }
}

/// The text at an index, where no surrogate stands alone.
fn paired_text(entries: &[Entry], index: u16) -> Option<&Name>
    ensures { option_copied result ≡ paired_text entries.now index }
{
    match entries.get(index as usize) {
        Some(Entry::Utf8(text)) if is_paired(text.units().as_slice()) => Some(text.name()),
        _ => None,
    }
}

impl Firsts {
    fn place(&self, entry: &Entry) -> Option<u16>
        ensures { result ≡ place_in self.now.texts self.now.others entry.now }
    {
        match entry {
            Entry::Utf8(text) => self.texts.get(text.units().as_slice()).copied(),
            _ => self.other(key_of(entry)),
        }
    }

    fn other(&self, key: Option<Key>) -> Option<u16>
        ensures { result ≡ other_place self.now.others key }
    {
        match key {
            Some(key) => self.others.get(&key).copied(),
            None => None,
        }
    }

    /// Notes the index of an entry that has none yet.
    fn note(&mut self, entry: &Entry, index: u16) -> Result<(), WriteFault>
        ensures ok { OnOk result ((e : Entry) → place_in self.new.texts self.new.others e ≡ or_here (place_in self.old.texts self.old.others e) (building.is_same e entry.now) index) }
        ensures texts { IsFront self.old.texts.entries self.new.texts.entries }
        ensures others { IsFront self.old.others.entries self.new.others.entries }
        ensures memory { IsOkUnless result WriteFault.NoMemory }
    {
        match entry {
            Entry::Utf8(text) => note_text(&mut self.texts, text, index),
            _ => note_other(&mut self.others, key_of(entry), index),
        }
    }
}

/// What an entry says, unless it is a text or none of those that are made.
fn key_of(entry: &Entry) -> Option<Key>
    ensures { result ≡ key_of entry.now }
{
    match entry {
        Entry::Integer(n) => Some(Key::Integer(*n)),
        Entry::Long(n) => Some(Key::Long(*n)),
        Entry::Class(i) => Some(Key::Class(*i)),
        Entry::String(i) => Some(Key::String(*i)),
        Entry::Field(i, j) => Some(Key::Field(*i, *j)),
        Entry::Method(i, j) => Some(Key::Method(*i, *j)),
        Entry::InterfaceMethod(i, j) => Some(Key::InterfaceMethod(*i, *j)),
        Entry::NameAndType(i, j) => Some(Key::NameAndType(*i, *j)),
        _ => None,
    }
}

fn note_text(texts: &mut IndexMap<Vec<u16>, u16>, text: &Text, index: u16) -> Result<(), WriteFault>
    ensures ok { OnOk result ((units : List ℕ) → text_place texts.new units ≡ or_here (text_place texts.old units) (is_text units text.now) index) }
    ensures front { IsFront texts.old.entries texts.new.entries }
    ensures err { OnErr result (texts.new.entries ≡ texts.old.entries) }
    ensures memory { IsOkUnless result WriteFault.NoMemory }
{
    let units = text.units().as_slice();
    if texts.contains_key(units) {
        return Ok(());
    }
    let mut copy = Vec::new(*texts.allocator());
    copy.extend_from_slice(units)?;
    texts.insert(copy, index)?;
    Ok(())
}

fn note_other(
    others: &mut IndexMap<Key, u16>,
    key: Option<Key>,
    index: u16,
) -> Result<(), WriteFault>
    ensures ok { OnOk result ((k : Key) → get is_key others.new k ≡ or_here (get is_key others.old k) (is_keyed k key) index) }
    ensures front { IsFront others.old.entries others.new.entries }
    ensures memory { IsOkUnless result WriteFault.NoMemory }
{
    let Some(key) = key else {
        return Ok(());
    };
    if others.contains_key(&key) {
        return Ok(());
    }
    others.insert(key, index)?;
    Ok(())
}

/// Notes the entries from an index on, behind those that are noted. On an error no more are noted.
fn note_all(firsts: &mut Firsts, pool: &[Entry], from: usize) -> Result<(), WriteFault>
    requires few { length pool.now < 65536 }
    requires within { from ≤ length pool.now }
    requires noted { AreNoted firsts.old.texts firsts.old.others (take from pool.now) }
    ensures ok { OnOk result (AreNoted firsts.new.texts firsts.new.others pool.now) }
    ensures texts { OnErr result (firsts.new.texts.entries ≡ firsts.old.texts.entries) }
    ensures others { OnErr result (firsts.new.others.entries ≡ firsts.old.others.entries) }
    ensures memory { IsOkUnless result WriteFault.NoMemory }
{
    let texts = firsts.texts.len();
    let others = firsts.others.len();
    match note_each(firsts, pool, from) {
        Ok(()) => Ok(()),
        Err(fault) => {
            firsts.texts.truncate(texts);
            firsts.others.truncate(others);
            Err(fault)
        }
    }
}

fn note_each(firsts: &mut Firsts, pool: &[Entry], from: usize) -> Result<(), WriteFault>
    requires few { length pool.now < 65536 }
    requires within { from ≤ length pool.now }
    requires noted { AreNoted firsts.old.texts firsts.old.others (take from pool.now) }
    ensures ok { OnOk result (AreNoted firsts.new.texts firsts.new.others pool.now) }
    ensures texts { IsFront firsts.old.texts.entries firsts.new.texts.entries }
    ensures others { IsFront firsts.old.others.entries firsts.new.others.entries }
    ensures memory { IsOkUnless result WriteFault.NoMemory }
{
    for index in from..pool.len() {
        firsts.note(&pool[index], index as u16)?;
    }
    Ok(())
}
