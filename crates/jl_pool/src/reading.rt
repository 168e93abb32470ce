//! Reading a pool.

ghost use Rattle.std.specs.Prelude.{◌≤◌, ◌≡◌, ◌+◌, ◌-◌, ◌<◌, List, [], ◌∷◌, ℕ, length, IfOk, Ok, not, position};
ghost use Rattle.jl_logic.specs.Answers.{Gives, Tells};
ghost use Rattle.jl_reading.specs.Reading.{each_at};
ghost use Rattle.jl_names.specs.Text.{units_read};
ghost use Rattle.jl_pool.specs.Reading.{told, units_or, text_at as text_read, indices_at as indices_read, eight_at as eight_read, handle_at as handle_read, content_at as content_read, ends_wide as ends_wide_entry, entry_at as entry_read, refers_or, pool_at};
ghost use Rattle.jl_pool.specs.Spelling.{StandsPool};
ghost use Rattle.jl_pool.specs.declared.entry.Entry.TheVariants as entries;

use crate::entry::{Entry, Text};
use crate::fault::PoolFault;
use crate::memory::made;
use crate::pool::Pool;
use crate::references::wrong_at;
use jl_names::{TextFault, plain_text, units_of};
use jl_prim::Name;
use jl_reading::{byte_at, is_whole, u16_at, u32_at, u64_at};
use std::alloc::Global;

/// The text that these bytes spell, with its UTF-8 form.
fn text_of(alloc: Global, bytes: &[u8], index: u16) -> Result<Text, PoolFault>
    ensures { Tells told result (units_or index (units_read bytes.now)) }
{
    let units = match units_of(alloc, bytes) {
        Ok(units) => units,
        Err(TextFault::BadText(_)) => return Err(PoolFault::Entry(index as usize)),
        Err(TextFault::NoMemory) => return Err(PoolFault::NoMemory),
    };
    let text = made(plain_text(alloc, units.as_slice()))?;
    Ok(Text::new(units, Name::from_string(text)))
}

/// A length, and a text of so many bytes.
#[tactic(auto, unfolding(crate::specs::Reading::text_at))]
fn text_at(alloc: Global, bytes: &[u8], index: u16, at: usize) -> Result<(Entry, usize), PoolFault>
    requires { at ≤ length bytes.now }
    ensures exact { Tells told result (text_read bytes.now index at) }
    ensures within { IfOk result (λ x. x.1 ≤ length bytes.now) }
{
    let (len, at) = u16_at::<PoolFault>(bytes, at)?;
    let len = len as usize;
    if !is_whole(bytes, at, len) {
        return Err(PoolFault::Short(at));
    }
    let text = text_of(alloc, &bytes[at..at + len], index)?;
    Ok((Entry::Utf8(text), at + len))
}

/// Two numbers of two bytes.
#[tactic(auto, unfolding(crate::specs::Reading::indices_at))]
fn indices_at(bytes: &[u8], at: usize) -> Result<((u16, u16), usize), PoolFault>
    requires { at ≤ length bytes.now }
    ensures exact { Tells told result (indices_read bytes.now at) }
    ensures within { IfOk result (λ x. x.1 ≤ length bytes.now) }
{
    let (one, at) = u16_at::<PoolFault>(bytes, at)?;
    let (other, next) = u16_at::<PoolFault>(bytes, at)?;
    Ok(((one, other), next))
}

/// The kind of a member, and its index.
#[tactic(auto, unfolding(crate::specs::Reading::handle_at))]
fn handle_at(bytes: &[u8], at: usize) -> Result<(Entry, usize), PoolFault>
    requires { at ≤ length bytes.now }
    ensures exact { Tells told result (handle_read bytes.now at) }
    ensures within { IfOk result (λ x. x.1 ≤ length bytes.now) }
{
    let (kind, at) = byte_at::<PoolFault>(bytes, at)?;
    let (member, next) = u16_at::<PoolFault>(bytes, at)?;
    Ok((Entry::MethodHandle(kind, member), next))
}

/// A number of eight bytes, which takes two indices.
#[tactic(auto, unfolding(crate::specs::Reading::eight_at))]
fn eight_at(bytes: &[u8], count: u16, index: u16, at: usize) -> Result<(u64, usize), PoolFault>
    requires placed { at ≤ length bytes.now }
    requires counted { index < count }
    ensures exact { Tells told result (eight_read count index bytes.now at) }
    ensures within { IfOk result (λ x. x.1 ≤ length bytes.now) }
{
    if index + 1 == count {
        return Err(PoolFault::Entry(index as usize));
    }
    u64_at(bytes, at)
}

/// The content behind a tag.
#[tactic(auto, unfolding(crate::specs::Reading::content_at, crate::specs::Reading::bits_at, crate::specs::Reading::pair_at, crate::specs::Reading::wide_at))]
fn content_at(
    alloc: Global,
    tag: u8,
    count: u16,
    index: u16,
    bytes: &[u8],
    at: usize,
) -> Result<(Entry, usize), PoolFault>
    requires placed { at ≤ length bytes.now }
    requires counted { index < count }
    ensures exact { Tells told result (content_read tag count index bytes.now at) }
    ensures within { IfOk result (λ x. x.1 ≤ length bytes.now) }
{
    match tag {
        1 => text_at(alloc, bytes, index, at),
        3 => u32_at(bytes, at).map(|(n, next)| (Entry::Integer(n), next)),
        4 => u32_at(bytes, at).map(|(n, next)| (Entry::Float(n), next)),
        5 => eight_at(bytes, count, index, at).map(|(n, next)| (Entry::Long(n), next)),
        6 => eight_at(bytes, count, index, at).map(|(n, next)| (Entry::Double(n), next)),
        7 => u16_at(bytes, at).map(|(i, next)| (Entry::Class(i), next)),
        8 => u16_at(bytes, at).map(|(i, next)| (Entry::String(i), next)),
        9 => indices_at(bytes, at).map(|((i, j), next)| (Entry::Field(i, j), next)),
        10 => indices_at(bytes, at).map(|((i, j), next)| (Entry::Method(i, j), next)),
        11 => indices_at(bytes, at).map(|((i, j), next)| (Entry::InterfaceMethod(i, j), next)),
        12 => indices_at(bytes, at).map(|((i, j), next)| (Entry::NameAndType(i, j), next)),
        15 => handle_at(bytes, at),
        16 => u16_at(bytes, at).map(|(i, next)| (Entry::MethodType(i), next)),
        17 => indices_at(bytes, at).map(|((b, i), next)| (Entry::Dynamic(b, i), next)),
        18 => indices_at(bytes, at).map(|((b, i), next)| (Entry::InvokeDynamic(b, i), next)),
        19 => u16_at(bytes, at).map(|(i, next)| (Entry::Module(i), next)),
        20 => u16_at(bytes, at).map(|(i, next)| (Entry::Package(i), next)),
        _ => Err(PoolFault::Entry(index as usize)),
    }
}

/// Whether the last of the entries takes two indices.
fn ends_wide(entries: &[Entry]) -> bool
    ensures { result ≡ ends_wide_entry entries.now }
{
    matches!(entries.last(), Some(Entry::Long(_) | Entry::Double(_)))
}

/// The entry with an index, which comes after those before it.
#[tactic(auto, unfolding(crate::specs::Reading::entry_at))]
fn entry_at(
    alloc: Global,
    count: u16,
    index: u16,
    bytes: &[u8],
    entries: &[Entry],
    at: usize,
) -> Result<(Entry, usize), PoolFault>
    requires placed { at ≤ length bytes.now }
    requires counted { index < count }
    requires behind { index ≡ length entries.now }
    ensures exact { Tells told result (entry_read count bytes.now entries.now at) }
    ensures within { IfOk result (λ x. x.1 ≤ length bytes.now) }
{
    if ends_wide(entries) {
        return Ok((Entry::Unused, at));
    }
    let (tag, at) = byte_at::<PoolFault>(bytes, at)?;
    content_at(alloc, tag, count, index, bytes, at)
}

/// The entries with indices below a count.
fn entries_at(
    alloc: Global,
    count: u16,
    bytes: &[u8],
    at: usize,
) -> Result<(Vec<Entry>, usize), PoolFault>
    requires { at ≤ length bytes.now }
    ensures exact { Gives told (λ x. (x.0.items, x.1)) result (each_at (entry_read count bytes.now) (entries.Unused ∷ []) (count - 1) at) }
    ensures within { IfOk result (λ x. x.1 ≤ length bytes.now) }
    ensures few { IfOk result (λ x. length x.0.items < 65536) }
{
    let mut entries = Vec::new(alloc);
    entries.push(Entry::Unused)?;
    let mut next = at;
    for index in 1..count {
        let (entry, after) = entry_at(alloc, count, index, bytes, &entries, next)?;
        entries.push(entry)?;
        next = after;
    }
    Ok((entries, next))
}

/// The pool whose count stands at a place, and the place after the pool (JVMS 4.1, 4.4).
///
/// `Short(at)` and `Entry(index)` come by the first fault from the left. Where every entry is right in itself,
/// `Entry(index)` is the first one whose reference names the wrong kind of entry.
#[tactic(auto, unfolding(crate::specs::Reading::pool_at))]
pub fn read_pool(alloc: Global, bytes: &[u8], at: usize) -> Result<(Pool, usize), PoolFault>
    requires { at ≤ length bytes.now }
    ensures exact { Tells told result (pool_at bytes.now at) }
    ensures within { IfOk result (λ x. x.1 ≤ length bytes.now) }
    ensures found { IfOk result (λ x. StandsPool bytes.now at x.0 x.1) }
    ensures only { (pool : List Entry) (next : ℕ) → StandsPool bytes.now at pool next → Tells told result (Ok (pool, next)) }
{
    let (count, at) = u16_at::<PoolFault>(bytes, at)?;
    let (entries, next) = entries_at(alloc, count, bytes, at)?;
    if let Some(index) = wrong_at(&entries) {
        return Err(PoolFault::Entry(index));
    }
    Ok((Pool::from_entries(entries), next))
}
