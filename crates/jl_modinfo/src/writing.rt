//! Writing a declaration file (JVMS 4.1, 4.7.25 to 4.7.27).

ghost use Rattle.std.specs.Prelude.{◌≡◌, ◌≤◌, ◌<◌, ◌++◌, List, ℕ, length, None, Some, IfOk, OnOk, IsOkUnless, if◌then◌else◌};
ghost use Rattle.jl_logic.specs.Answers.{Gives};
ghost use Rattle.jl_reading.specs.Reading.{two};
ghost use Rattle.jl_modinfo.specs.Writing.{write_told, accepted, tables, too_many, AreShort, members, KeepsRules};
ghost use Rattle.jl_modinfo.specs.Info.{IsInfo};
ghost use Rattle.jl_pool.specs.Builder.{AreKept};
ghost use Rattle.jl_modinfo.specs.Layout.{AreFew, first_long, version_index, head_written, tables_written, body_written, attribute_written, main_written, attribute_count, attributes_written, class_written, front_written, pool_written, file_written};
ghost use Rattle.jl_tables.specs.Layout.{counted_by, package_bytes};

use crate::entering::entered;
use crate::limits::long_table;
use crate::named::constants_of;
use jl_pool::{BuildEnd, Constant, PoolBuilder, pool_bytes, push_u16, push_u32};
use jl_prim::{Copied, Declaration, Name};
use jl_tables::{
    InfoWriteFault, push_class, push_classes, push_grants, push_index, push_module, push_packages,
    push_required, push_services,
};
use std::alloc::Global;

const MAGIC: u32 = 0xcafe_babe;

const MAJOR: u16 = 53;

const MODULE_FLAGS: u16 = 0x8000;

/// The `module-info.class` file of a declaration (JVMS 4.1, 4.7.25).
///
/// `TooMany(table)` names the first table that has more than 65,535 entries, or else `pool`, where the
/// entries that the file needs are more than a pool holds.
pub fn write_info(alloc: Global, d: &Declaration) -> Result<Vec<u8>, InfoWriteFault>
    requires short { AreShort d.now }
    requires few { members d.now ≤ 16777216 }
    // Which table has too many entries, exactly.
    ensures refused { Gives write_told (λ _. tt) result (accepted (too_many d.now)) }
    // What is written is read as the same declaration, whatever was found.
    ensures back { IfOk result (λ bytes. KeepsRules d.now → (found : List (List ℕ)) → IsInfo bytes.items found d.now) }
{
    match long_table(d) {
        Some(table) => too_long(alloc, table),
        None => fitting_info(alloc, d),
    }
}

/// The file of a declaration whose tables are short enough.
fn fitting_info(alloc: Global, d: &Declaration) -> Result<Vec<u8>, InfoWriteFault>
    requires short { AreShort d.now }
    requires few { members d.now ≤ 16777216 }
    requires tables { first_long (tables d.now) ≡ None }
    ensures refused { Gives write_told (λ _. tt) result (accepted (too_many d.now)) }
    // What is written is read as the same declaration, whatever was found.
    ensures back { IfOk result (λ bytes. KeepsRules d.now → (found : List (List ℕ)) → IsInfo bytes.items found d.now) }
{
    let constants = constants_of(alloc, d)?;
    match entered(alloc, &constants) {
        Ok(pool) => written(alloc, &pool, d),
        Err(BuildEnd::TooMany) => too_long(alloc, "pool"),
        Err(BuildEnd::NoMemory) => Err(InfoWriteFault::NoMemory),
    }
}

fn too_long<T>(alloc: Global, table: &str) -> Result<T, InfoWriteFault>
    ensures { Gives write_told (λ _. tt) result (accepted (Some table.now)) }
{
    Err(InfoWriteFault::TooMany(Name::from_text(alloc, table)?))
}

/// The file of a declaration, whose pool this is.
fn written(alloc: Global, pool: &PoolBuilder, d: &Declaration) -> Result<Vec<u8>, InfoWriteFault>
    requires few { members d.now ≤ 16777216 }
    requires tables { AreFew d.now }
    ensures bytes { IfOk result (λ bytes. bytes.items ≡ file_written pool.now d.now) }
    ensures kept { IfOk result (λ _. AreKept pool.now) }
    ensures memory { IsOkUnless result InfoWriteFault.NoMemory }
{
    let mut bytes = Vec::new(alloc);
    push_front(&mut bytes)?;
    push_pool(alloc, &mut bytes, pool)?;
    push_empty_class(alloc, &mut bytes, pool)?;
    push_attributes(alloc, &mut bytes, pool, d)?;
    Ok(bytes)
}

fn push_front(bytes: &mut Vec<u8>) -> Result<(), InfoWriteFault>
    ensures bytes { OnOk result (bytes.new.items ≡ bytes.old.items ++ front_written) }
    ensures memory { IsOkUnless result InfoWriteFault.NoMemory }
{
    push_u32(bytes, MAGIC)?;
    push_u16(bytes, 0)?;
    push_u16(bytes, MAJOR)?;
    Ok(())
}

fn push_pool(alloc: Global, bytes: &mut Vec<u8>, pool: &PoolBuilder) -> Result<(), InfoWriteFault>
    ensures bytes { OnOk result (bytes.new.items ≡ bytes.old.items ++ pool_written pool.now) }
    ensures kept { OnOk result (AreKept pool.now) }
    ensures memory { IsOkUnless result InfoWriteFault.NoMemory }
{
    let entries = pool.finish(alloc)?;
    bytes.extend_from_slice(&pool_bytes(alloc, &entries)?)?;
    Ok(())
}

/// Writes flags, class, super class and the counts of interfaces, fields and methods.
fn push_empty_class(
    alloc: Global,
    bytes: &mut Vec<u8>,
    pool: &PoolBuilder,
) -> Result<(), InfoWriteFault>
    ensures bytes { OnOk result (bytes.new.items ≡ bytes.old.items ++ class_written pool.now) }
    ensures memory { IsOkUnless result InfoWriteFault.NoMemory }
{
    push_u16(bytes, MODULE_FLAGS)?;
    let this = Constant::Class(Name::from_text(alloc, "module-info")?);
    push_index(bytes, pool, this)?;
    push_zeros(bytes)
}

fn push_zeros(bytes: &mut Vec<u8>) -> Result<(), InfoWriteFault>
    ensures bytes { OnOk result (bytes.new.items ≡ bytes.old.items ++ (two 0 ++ (two 0 ++ (two 0 ++ two 0)))) }
    ensures memory { IsOkUnless result InfoWriteFault.NoMemory }
{
    push_u16(bytes, 0)?;
    push_u16(bytes, 0)?;
    push_u16(bytes, 0)?;
    push_u16(bytes, 0)?;
    Ok(())
}

fn push_attributes(
    alloc: Global,
    bytes: &mut Vec<u8>,
    pool: &PoolBuilder,
    d: &Declaration,
) -> Result<(), InfoWriteFault>
    requires few { members d.now ≤ 16777216 }
    requires tables { AreFew d.now }
    ensures bytes { OnOk result (bytes.new.items ≡ bytes.old.items ++ attributes_written pool.now d.now) }
    ensures memory { IsOkUnless result InfoWriteFault.NoMemory }
{
    push_u16(bytes, attribute_count_of(&d.main))?;
    push_attribute(alloc, bytes, pool, "Module", &body(alloc, pool, d)?)?;
    let packages = package_list(alloc, pool, d.packages.as_slice())?;
    push_attribute(alloc, bytes, pool, "ModulePackages", &packages)?;
    push_main(alloc, bytes, pool, &d.main)
}

fn attribute_count_of(main: &Option<Name>) -> u16
    ensures { result ≡ attribute_count main.now }
{
    match main {
        None => 2,
        Some(_) => 3,
    }
}

fn push_attribute(
    alloc: Global,
    bytes: &mut Vec<u8>,
    pool: &PoolBuilder,
    name: &str,
    content: &[u8],
) -> Result<(), InfoWriteFault>
    requires { length content.now < 4294967296 }
    ensures bytes { OnOk result (bytes.new.items ≡ bytes.old.items ++ attribute_written pool.now name.now content.now) }
    ensures memory { IsOkUnless result InfoWriteFault.NoMemory }
{
    push_index(bytes, pool, Constant::Text(Name::from_text(alloc, name)?))?;
    push_u32(bytes, content.len() as u32)?;
    bytes.extend_from_slice(content)?;
    Ok(())
}

fn package_list(
    alloc: Global,
    pool: &PoolBuilder,
    packages: &[Name],
) -> Result<Vec<u8>, InfoWriteFault>
    requires { length packages.now < 65536 }
    ensures bytes { IfOk result (λ bytes. bytes.items ≡ counted_by (package_bytes pool.now) packages.now) }
    ensures memory { IsOkUnless result InfoWriteFault.NoMemory }
{
    let mut bytes = Vec::new(alloc);
    push_packages(&mut bytes, pool, packages)?;
    Ok(bytes)
}

fn push_main(
    alloc: Global,
    bytes: &mut Vec<u8>,
    pool: &PoolBuilder,
    main: &Option<Name>,
) -> Result<(), InfoWriteFault>
    ensures bytes { OnOk result (bytes.new.items ≡ bytes.old.items ++ main_written pool.now main.now) }
    ensures memory { IsOkUnless result InfoWriteFault.NoMemory }
{
    match main {
        None => Ok(()),
        Some(class) => push_main_class(alloc, bytes, pool, class),
    }
}

fn push_main_class(
    alloc: Global,
    bytes: &mut Vec<u8>,
    pool: &PoolBuilder,
    class: &Name,
) -> Result<(), InfoWriteFault>
    ensures bytes { OnOk result (bytes.new.items ≡ bytes.old.items ++ main_written pool.now (Some class.now)) }
    ensures memory { IsOkUnless result InfoWriteFault.NoMemory }
{
    let mut content = Vec::new(alloc);
    push_class(&mut content, pool, class)?;
    push_attribute(alloc, bytes, pool, "ModuleMainClass", &content)
}

/// The content of the Module attribute.
fn body(alloc: Global, pool: &PoolBuilder, d: &Declaration) -> Result<Vec<u8>, InfoWriteFault>
    requires { AreFew d.now }
    ensures bytes { IfOk result (λ bytes. bytes.items ≡ body_written pool.now d.now) }
    ensures memory { IsOkUnless result InfoWriteFault.NoMemory }
{
    let mut bytes = Vec::new(alloc);
    push_head(&mut bytes, pool, d)?;
    push_tables(&mut bytes, pool, d)?;
    Ok(bytes)
}

fn push_head(bytes: &mut Vec<u8>, pool: &PoolBuilder, d: &Declaration) -> Result<(), InfoWriteFault>
    ensures bytes { OnOk result (bytes.new.items ≡ bytes.old.items ++ head_written pool.now d.now) }
    ensures memory { IsOkUnless result InfoWriteFault.NoMemory }
{
    push_module(bytes, pool, &d.name)?;
    push_u16(bytes, open_bits(d.is_open))?;
    push_version(bytes, pool, &d.version)
}

fn open_bits(is_open: bool) -> u16
    ensures { result ≡ (if is_open then 0x20 else 0) }
{
    if is_open { 0x20 } else { 0 }
}

fn push_version(
    bytes: &mut Vec<u8>,
    pool: &PoolBuilder,
    version: &Option<Name>,
) -> Result<(), InfoWriteFault>
    ensures bytes { OnOk result (bytes.new.items ≡ bytes.old.items ++ two (version_index pool.now version.now)) }
    ensures memory { IsOkUnless result InfoWriteFault.NoMemory }
{
    match version {
        None => Ok(push_u16(bytes, 0)?),
        Some(text) => push_index(bytes, pool, Constant::Text(text.copy()?)),
    }
}

fn push_tables(
    bytes: &mut Vec<u8>,
    pool: &PoolBuilder,
    d: &Declaration,
) -> Result<(), InfoWriteFault>
    requires { AreFew d.now }
    ensures bytes { OnOk result (bytes.new.items ≡ bytes.old.items ++ tables_written pool.now d.now) }
    ensures memory { IsOkUnless result InfoWriteFault.NoMemory }
{
    push_required(bytes, pool, d.required.as_slice())?;
    push_grants(bytes, pool, d.exports.as_slice())?;
    push_grants(bytes, pool, d.opens.as_slice())?;
    push_classes(bytes, pool, d.uses.as_slice())?;
    push_services(bytes, pool, d.provides.as_slice())
}
