//! Entering entries behind a pool.
//!
//! The pool itself stays as it is: what it lacks is collected in `added`, to be put behind it.

ghost use Rattle.std.specs.Prelude.{◌≡◌, ◌<◌, ◌++◌, List, length, position, IfOk, IfSome, IsOkUnless, IsUtf8, codes};
ghost use Rattle.jl_logic.specs.Answers.{Gives};
ghost use Rattle.jl_names.specs.Utf16.{utf16};
ghost use Rattle.jl_pool.specs.declared.entry.Entry.TheVariants as entries;
ghost use Rattle.jl_classw.specs.Faults.{told};
ghost use Rattle.jl_classw.specs.Built.{IsFit, IsSound};
ghost use Rattle.jl_classw.specs.Building as building;
ghost use Rattle.jl_classw.specs.Building.{spaced, at_end, entered, text_entered, class_entered, string_entered, name_and_type_entered, member_entered, constant_entered, new_entered};

use crate::entries::Entries;
use crate::entry::{Constant, MemberKind, NewEntry};
use crate::fault::{WriteFault, too_many};
use jl_names::{Units, plain_text, utf16_of};
use jl_pool::{Entry, Text};
use jl_prim::{Copied, Name};
use std::alloc::Global;

/// The most entries of a pool, with the unused one of index 0.
const MOST_ENTRIES: usize = 65535;

/// Enters an entry, and answers its index. One that is there is not entered again.
#[tactic(auto, unfolding(crate::specs::Building::entered))]
pub fn enter(
    pool: &Entries,
    added: Vec<Entry>,
    entry: Entry,
) -> Result<(Vec<Entry>, u16), WriteFault>
    requires { length (pool.now ++ added.items) < 65536 }
    ensures exact { Gives told (λ x. (pool.now ++ x.0.items, x.1)) result (entered (pool.now ++ added.items) entry) }
    ensures few { IfOk result (λ x. length (pool.now ++ x.0.items) < 65536) }
{
    match place_of(pool, &added, &entry) {
        Some(index) => Ok((added, index)),
        None => add(pool, added, entry),
    }
}

/// The index of an entry: in the pool, or else behind it among the few that were added. A call adds at most
/// six, so that comparing them one by one is right.
fn place_of(pool: &Entries, added: &[Entry], entry: &Entry) -> Option<u16>
    requires { length (pool.now ++ added.now) < 65536 }
    ensures { result ≡ position (building.is_same entry.now) (pool.now ++ added.now) }
{
    match pool.find(entry) {
        Some(index) => Some(index),
        None => match first_same(added, entry) {
            Some(index) => Some((pool.len() + index) as u16),
            None => None,
        },
    }
}

fn first_same(entries: &[Entry], entry: &Entry) -> Option<usize>
    ensures place { result ≡ position (building.is_same entry.now) entries.now }
    ensures within { IfSome result (λ index. index < length entries.now) }
{
    entries.iter().position(|e| is_same(entry, e))
}

/// Puts an entry at the end.
fn add(pool: &Entries, added: Vec<Entry>, entry: Entry) -> Result<(Vec<Entry>, u16), WriteFault>
    requires { length (pool.now ++ added.items) < 65536 }
    ensures exact { Gives told (λ x. (pool.now ++ x.0.items, x.1)) result (at_end (pool.now ++ added.items) entry) }
    ensures few { IfOk result (λ x. length (pool.now ++ x.0.items) < 65536) }
{
    let index = pool.len() + added.len();
    if index + places(&entry) > MOST_ENTRIES {
        return too_many(*added.allocator(), "pool");
    }
    let added = with_spaced(added, entry)?;
    Ok((added, index as u16))
}

fn with_spaced(added: Vec<Entry>, entry: Entry) -> Result<Vec<Entry>, WriteFault>
    ensures items { IfOk result (λ after. after.items ≡ added.items ++ spaced entry) }
    ensures memory { IsOkUnless result WriteFault.NoMemory }
{
    let mut added = added;
    let count = places(&entry);
    added.push(entry)?;
    if count == 2 {
        added.push(Entry::Unused)?;
    }
    Ok(added)
}

/// How many indices an entry takes.
fn places(entry: &Entry) -> usize
    ensures { result ≡ length (spaced entry.now) }
{
    match entry {
        Entry::Long(_) | Entry::Double(_) => 2,
        _ => 1,
    }
}

/// Whether two entries say the same.
fn is_same(a: &Entry, b: &Entry) -> bool
    ensures { result ≡ building.is_same a.now b.now }
{
    match (a, b) {
        (Entry::Utf8(a), Entry::Utf8(b)) => a.units().as_slice() == b.units().as_slice(),
        (Entry::Integer(a), Entry::Integer(b)) => a == b,
        (Entry::Long(a), Entry::Long(b)) => a == b,
        (Entry::Class(a), Entry::Class(b)) => a == b,
        (Entry::String(a), Entry::String(b)) => a == b,
        (Entry::Field(a, b), Entry::Field(c, d)) => a == c && b == d,
        (Entry::Method(a, b), Entry::Method(c, d)) => a == c && b == d,
        (Entry::InterfaceMethod(a, b), Entry::InterfaceMethod(c, d)) => a == c && b == d,
        (Entry::NameAndType(a, b), Entry::NameAndType(c, d)) => a == c && b == d,
        _ => false,
    }
}

/// Enters a text.
pub fn enter_text(
    pool: &Entries,
    added: Vec<Entry>,
    text: &Name,
) -> Result<(Vec<Entry>, u16), WriteFault>
    requires { length (pool.now ++ added.items) < 65536 }
    ensures exact { Gives told (λ x. (pool.now ++ x.0.items, x.1)) result (text_entered (pool.now ++ added.items) text.now) }
    ensures few { IfOk result (λ x. length (pool.now ++ x.0.items) < 65536) }
    ensures utf8 { IfOk result (λ _. IsUtf8 text.now) }
{
    let entry = text_entry(*added.allocator(), text)?;
    enter(pool, added, entry)
}

fn text_entry(alloc: Global, text: &Name) -> Result<Entry, WriteFault>
    ensures entry { IfOk result (λ e. e ≡ entries.Utf8 (utf16 text.now)) }
    ensures memory { IsOkUnless result WriteFault.NoMemory }
    ensures utf8 { IfOk result (λ _. IsUtf8 text.now) }
{
    let name = text.copy()?;
    let units = utf16_of(alloc, name.as_str())?;
    Ok(Entry::Utf8(Text::new(units, name)))
}

/// Enters a class, behind its name.
#[tactic(auto, unfolding(crate::specs::Building::class_entered))]
pub fn enter_class(
    pool: &Entries,
    added: Vec<Entry>,
    name: &Name,
) -> Result<(Vec<Entry>, u16), WriteFault>
    requires { length (pool.now ++ added.items) < 65536 }
    ensures exact { Gives told (λ x. (pool.now ++ x.0.items, x.1)) result (class_entered (pool.now ++ added.items) name.now) }
    ensures few { IfOk result (λ x. length (pool.now ++ x.0.items) < 65536) }
    ensures utf8 { IfOk result (λ _. IsUtf8 name.now) }
{
    let (added, text) = enter_text(pool, added, name)?;
    enter(pool, added, Entry::Class(text))
}

/// Enters a string, behind its text.
#[tactic(auto, unfolding(crate::specs::Building::string_entered))]
fn enter_string(
    pool: &Entries,
    added: Vec<Entry>,
    units: Units,
) -> Result<(Vec<Entry>, u16), WriteFault>
    requires { length (pool.now ++ added.items) < 65536 }
    ensures exact { Gives told (λ x. (pool.now ++ x.0.items, x.1)) result (string_entered (pool.now ++ added.items) units) }
    ensures few { IfOk result (λ x. length (pool.now ++ x.0.items) < 65536) }
{
    let name = Name::from_string(plain_text(*added.allocator(), units.as_slice())?);
    let (added, text) = enter(pool, added, Entry::Utf8(Text::new(units, name)))?;
    enter(pool, added, Entry::String(text))
}

/// Enters a name and a descriptor, behind their texts.
#[tactic(auto, unfolding(crate::specs::Building::name_and_type_entered))]
fn enter_name_and_type(
    pool: &Entries,
    added: Vec<Entry>,
    name: &Name,
    desc: &Name,
) -> Result<(Vec<Entry>, u16), WriteFault>
    requires { length (pool.now ++ added.items) < 65536 }
    ensures exact { Gives told (λ x. (pool.now ++ x.0.items, x.1)) result (name_and_type_entered (pool.now ++ added.items) name.now desc.now) }
    ensures few { IfOk result (λ x. length (pool.now ++ x.0.items) < 65536) }
    ensures utf8 { IfOk result (λ _. IsUtf8 name.now × IsUtf8 desc.now) }
{
    let (added, first) = enter_text(pool, added, name)?;
    let (added, second) = enter_text(pool, added, desc)?;
    enter(pool, added, Entry::NameAndType(first, second))
}

/// Enters a member, behind its class, and its name and descriptor.
#[tactic(auto, unfolding(crate::specs::Building::member_entered))]
fn enter_member(
    pool: &Entries,
    added: Vec<Entry>,
    kind: MemberKind,
    class: &Name,
    name: &Name,
    desc: &Name,
) -> Result<(Vec<Entry>, u16), WriteFault>
    requires { length (pool.now ++ added.items) < 65536 }
    ensures exact { Gives told (λ x. (pool.now ++ x.0.items, x.1)) result (member_entered (pool.now ++ added.items) kind class.now name.now desc.now) }
    ensures few { IfOk result (λ x. length (pool.now ++ x.0.items) < 65536) }
    ensures utf8 { IfOk result (λ _. IsUtf8 class.now × IsUtf8 name.now × IsUtf8 desc.now) }
{
    let (added, owner) = enter_class(pool, added, class)?;
    let (added, member) = enter_name_and_type(pool, added, name, desc)?;
    enter(pool, added, member_entry(kind, owner, member))
}

fn kind_of(tag: u8) -> MemberKind
    ensures { result ≡ building.kind_of tag }
{
    match tag {
        9 => MemberKind::Field,
        10 => MemberKind::Method,
        _ => MemberKind::InterfaceMethod,
    }
}

fn member_entry(kind: MemberKind, class: u16, name: u16) -> Entry
    ensures { result ≡ building.member_entry kind class name }
{
    match kind {
        MemberKind::Field => Entry::Field(class, name),
        MemberKind::Method => Entry::Method(class, name),
        MemberKind::InterfaceMethod => Entry::InterfaceMethod(class, name),
    }
}

/// Enters a constant.
pub fn enter_constant(
    pool: &Entries,
    added: Vec<Entry>,
    constant: Constant,
) -> Result<(Vec<Entry>, u16), WriteFault>
    requires { length (pool.now ++ added.items) < 65536 }
    ensures exact { Gives told (λ x. (pool.now ++ x.0.items, x.1)) result (constant_entered (pool.now ++ added.items) constant) }
    ensures fit { IfOk result (λ _. IsFit constant) }
    ensures few { IfOk result (λ x. length (pool.now ++ x.0.items) < 65536) }
{
    match constant {
        Constant::Int(n) => enter(pool, added, Entry::Integer(n.cast_unsigned())),
        Constant::Long(n) => enter(pool, added, Entry::Long(n.cast_unsigned())),
        Constant::Text(units) => enter_string(pool, added, units),
    }
}

/// Enters an entry, behind those that it needs.
pub fn enter_new(
    pool: &Entries,
    added: Vec<Entry>,
    entry: NewEntry,
) -> Result<(Vec<Entry>, u16), WriteFault>
    requires { length (pool.now ++ added.items) < 65536 }
    ensures exact { Gives told (λ x. (pool.now ++ x.0.items, x.1)) result (new_entered (pool.now ++ added.items) entry) }
    ensures sound { IfOk result (λ _. IsSound entry) }
    ensures few { IfOk result (λ x. length (pool.now ++ x.0.items) < 65536) }
{
    match entry {
        NewEntry::Class(name) => enter_class(pool, added, &name),
        NewEntry::Member {
            tag,
            class,
            name,
            desc,
        } => enter_member(pool, added, kind_of(tag), &class, &name, &desc),
        NewEntry::Constant(constant) => enter_constant(pool, added, constant),
    }
}
