//! What indices and flags mean (JVMS 4.7.25, 4.7.26, 4.7.27).

ghost use Rattle.std.specs.Prelude.{◌≡◌};
ghost use Rattle.std.specs.Option.{option_copied};
ghost use Rattle.jl_tables.specs.Kinds.{naming};
ghost use Rattle.jl_tables.specs.Meaning.{module_named, package_named, is_set};

use crate::kind::Kind;
use bitflags::Flags;
use jl_names::is_class_name;
use jl_pool::Pool;
use jl_prim::{AccessFlags, Name, is_module_name};

/// The name of a kind that an index has.
pub fn name_of(pool: &Pool, kind: Kind, i: u16) -> Option<&Name>
    ensures { option_copied result ≡ naming kind pool.now i }
{
    match kind {
        Kind::Module => module_name(pool, i),
        Kind::Package => package_name(pool, i),
        Kind::Class => pool.class_name(i),
        Kind::Opened(true) => None,
        Kind::Opened(false) => package_name(pool, i),
    }
}

/// The name that a Module index has.
fn module_name(pool: &Pool, i: u16) -> Option<&Name>
    ensures { option_copied result ≡ module_named pool.now i }
{
    let text = pool.paired_text(pool.module(i)?)?;
    if is_module_name(text.as_bytes()) {
        Some(text)
    } else {
        None
    }
}

/// The name that a Package index has.
fn package_name(pool: &Pool, i: u16) -> Option<&Name>
    ensures { option_copied result ≡ package_named pool.now i }
{
    let text = pool.paired_text(pool.package(i)?)?;
    if is_class_name(text.as_bytes()) {
        Some(text)
    } else {
        None
    }
}

/// Whether a module with these flags is open.
pub fn is_open(flags: u16) -> bool
    ensures { result ≡ is_set flags 0x20 }
{
    AccessFlags::from_bits_retain(flags).contains(AccessFlags::OPEN)
}

/// Whether a module is required with these flags by all that require this one.
pub fn is_transitive(flags: u16) -> bool
    ensures { result ≡ is_set flags 0x20 }
{
    AccessFlags::from_bits_retain(flags).contains(AccessFlags::TRANSITIVE)
}

/// Whether a module is required with these flags at compile time alone.
pub fn is_static(flags: u16) -> bool
    ensures { result ≡ is_set flags 0x40 }
{
    AccessFlags::from_bits_retain(flags).contains(AccessFlags::STATIC_PHASE)
}
