//! Writing entries and pools.

ghost use Rattle.std.specs.Prelude.{◌≡◌, ◌<◌, ◌++◌, length, IfOk, OnOk, OnErr, IsOkUnless};
ghost use Rattle.std.specs.List.{flat_map, AllByRecursion};
ghost use Rattle.byteorder.specs.Endian.{big_bytes};
ghost use Rattle.jl_names.specs.Text.{text_bytes};
ghost use Rattle.jl_reading.specs.Reading.{two, four};
ghost use Rattle.jl_pool.specs.Content.{entry_content};
ghost use Rattle.jl_pool.specs.Spelling.{entry_bytes, EntryFits};

use crate::entry::{Entry, Text};
use crate::fault::PoolWriteFault;
use crate::memory::made;
use jl_names::bytes_of;
use std::alloc::Global;

/// Writes a number in two bytes, the high one first, behind others.
pub fn push_u16(bytes: &mut Vec<u8>, n: u16) -> Result<(), PoolWriteFault>
    ensures bytes { OnOk result (bytes.new.items ≡ bytes.old.items ++ two n) }
    // Without memory the bytes are as before.
    ensures as_before { OnErr result (bytes.new.items ≡ bytes.old.items) }
    ensures memory { IsOkUnless result PoolWriteFault.NoMemory }
{
    bytes.extend_from_slice(&n.to_be_bytes())?;
    Ok(())
}

/// Writes a number in four bytes, the highest first, behind others.
pub fn push_u32(bytes: &mut Vec<u8>, n: u32) -> Result<(), PoolWriteFault>
    ensures bytes { OnOk result (bytes.new.items ≡ bytes.old.items ++ four n) }
    // Without memory the bytes are as before.
    ensures as_before { OnErr result (bytes.new.items ≡ bytes.old.items) }
    ensures memory { IsOkUnless result PoolWriteFault.NoMemory }
{
    bytes.extend_from_slice(&n.to_be_bytes())?;
    Ok(())
}

fn push_u64(bytes: &mut Vec<u8>, n: u64) -> Result<(), PoolWriteFault>
    ensures bytes { OnOk result (bytes.new.items ≡ bytes.old.items ++ big_bytes 8 n) }
    ensures memory { IsOkUnless result PoolWriteFault.NoMemory }
{
    bytes.extend_from_slice(&n.to_be_bytes())?;
    Ok(())
}

fn push_pair(bytes: &mut Vec<u8>, one: u16, other: u16) -> Result<(), PoolWriteFault>
    ensures bytes { OnOk result (bytes.new.items ≡ bytes.old.items ++ (two one ++ two other)) }
    ensures memory { IsOkUnless result PoolWriteFault.NoMemory }
{
    push_u16(bytes, one)?;
    push_u16(bytes, other)
}

fn push_handle(bytes: &mut Vec<u8>, kind: u8, member: u16) -> Result<(), PoolWriteFault>
    ensures bytes { OnOk result (bytes.new.items ≡ bytes.old.items ++ (big_bytes 1 kind ++ two member)) }
    ensures memory { IsOkUnless result PoolWriteFault.NoMemory }
{
    bytes.extend_from_slice(&kind.to_be_bytes())?;
    push_u16(bytes, member)
}

fn push_text(alloc: Global, bytes: &mut Vec<u8>, text: &Text) -> Result<(), PoolWriteFault>
    requires { length (text_bytes text.now) < 65536 }
    ensures bytes { OnOk result (bytes.new.items ≡ bytes.old.items ++ (two (length (text_bytes text.now)) ++ text_bytes text.now)) }
    ensures memory { IsOkUnless result PoolWriteFault.NoMemory }
{
    let spelled = made(bytes_of(alloc, text.units().as_slice()))?;
    push_u16(bytes, spelled.len() as u16)?;
    bytes.extend_from_slice(&spelled)?;
    Ok(())
}

/// Writes what follows the tag of an entry.
fn push_content(alloc: Global, bytes: &mut Vec<u8>, entry: &Entry) -> Result<(), PoolWriteFault>
    requires { EntryFits entry.now }
    ensures bytes { OnOk result (bytes.new.items ≡ bytes.old.items ++ entry_content entry.now) }
    ensures memory { IsOkUnless result PoolWriteFault.NoMemory }
{
    match entry {
        Entry::Unused => Ok(()),
        Entry::Utf8(text) => push_text(alloc, bytes, text),
        Entry::Integer(n) | Entry::Float(n) => push_u32(bytes, *n),
        Entry::Long(n) | Entry::Double(n) => push_u64(bytes, *n),
        Entry::Class(i)
        | Entry::String(i)
        | Entry::MethodType(i)
        | Entry::Module(i)
        | Entry::Package(i) => push_u16(bytes, *i),
        Entry::Field(i, j)
        | Entry::Method(i, j)
        | Entry::InterfaceMethod(i, j)
        | Entry::NameAndType(i, j)
        | Entry::Dynamic(i, j)
        | Entry::InvokeDynamic(i, j) => push_pair(bytes, *i, *j),
        Entry::MethodHandle(kind, i) => push_handle(bytes, *kind, *i),
    }
}

fn push_entry(alloc: Global, bytes: &mut Vec<u8>, entry: &Entry) -> Result<(), PoolWriteFault>
    requires { EntryFits entry.now }
    ensures bytes { OnOk result (bytes.new.items ≡ bytes.old.items ++ entry_bytes entry.now) }
    ensures memory { IsOkUnless result PoolWriteFault.NoMemory }
{
    if let Some(tag) = entry.tag() {
        bytes.push(tag)?;
    }
    push_content(alloc, bytes, entry)
}

/// The bytes of a pool: its count, and its entries (JVMS 4.1, 4.4). The first of them is the unused one,
/// which takes no bytes.
pub fn pool_bytes(alloc: Global, entries: &[Entry]) -> Result<Vec<u8>, PoolWriteFault>
    requires few { length entries.now < 65536 }
    requires fit { AllByRecursion EntryFits entries.now }
    ensures bytes { IfOk result (λ bytes. bytes.items ≡ two (length entries.now) ++ flat_map entry_bytes entries.now) }
    // No other error comes.
    ensures memory { IsOkUnless result PoolWriteFault.NoMemory }
{
    let mut bytes = Vec::new(alloc);
    push_u16(&mut bytes, entries.len() as u16)?;
    for entry in entries {
        push_entry(alloc, &mut bytes, entry)?;
    }
    Ok(bytes)
}
