//! Writing the tables of a Module attribute (JVMS 4.7.25).

ghost use Rattle.std.specs.Prelude.{◌≡◌, ◌<◌, ◌++◌, length, OnOk, IsOkUnless};
ghost use Rattle.std.specs.List.{flat_map, AllByRecursion};
ghost use Rattle.jl_reading.specs.Reading.{two};
ghost use Rattle.jl_pool.specs.Builder.{index_in};
ghost use Rattle.jl_tables.specs.Layout.{targets, counted_by, module_bytes, class_bytes, package_bytes, requires_flags, requires_written, grant_written, provides_written, AreTargetsFew, AreClassesFew};

use crate::fault::InfoWriteFault;
use jl_pool::{Constant, PoolBuilder, push_u16};
use jl_prim::{Copied, Grant, Name, Provides, Requires};

/// What writes the entries of one kind of tables.
trait RowWriter<T>: Sized {
    ghost use Rattle.std.specs.Prelude.{◌≡◌, ℕ, List, ◌++◌, OnOk, IsOkUnless};
    ghost use Rattle.jl_pool.specs.declared.constant.Constant.{Constant};

    /// The bytes of an entry, by the constants of the pool.
    ghost written: { List Constant → T → List ℕ };

    /// The lists of an entry are short enough.
    ghost fits: { T → Type 0 };

    /// Writes an entry behind other bytes.
    fn push(&self, bytes: &mut Vec<u8>, pool: &PoolBuilder, row: &T) -> Result<(), InfoWriteFault>
        requires { fits row.now }
        ensures bytes { OnOk result (bytes.new.items ≡ bytes.old.items ++ written pool.now row.now) }
        ensures memory { IsOkUnless result InfoWriteFault.NoMemory };
}

/// Writes a table, its count first.
fn push_rows<T, W: RowWriter<T>>(
    writer: &W,
    bytes: &mut Vec<u8>,
    pool: &PoolBuilder,
    rows: &[T],
) -> Result<(), InfoWriteFault>
    requires few { length rows.now < 65536 }
    requires each { AllByRecursion W.fits rows.now }
    ensures bytes { OnOk result (bytes.new.items ≡ bytes.old.items ++ counted_by (W.written pool.now) rows.now) }
    ensures memory { IsOkUnless result InfoWriteFault.NoMemory }
{
    push_count(bytes, rows.len())?;
    push_each(writer, bytes, pool, rows)
}

fn push_each<T, W: RowWriter<T>>(
    writer: &W,
    bytes: &mut Vec<u8>,
    pool: &PoolBuilder,
    rows: &[T],
) -> Result<(), InfoWriteFault>
    requires { AllByRecursion W.fits rows.now }
    ensures bytes { OnOk result (bytes.new.items ≡ bytes.old.items ++ flat_map (W.written pool.now) rows.now) }
    ensures memory { IsOkUnless result InfoWriteFault.NoMemory }
{
    for row in rows {
        writer.push(bytes, pool, row)?;
    }
    Ok(())
}

/// Writes the count of a table behind other bytes.
pub fn push_count(bytes: &mut Vec<u8>, count: usize) -> Result<(), InfoWriteFault>
    requires { count < 65536 }
    ensures bytes { OnOk result (bytes.new.items ≡ bytes.old.items ++ two count) }
    ensures memory { IsOkUnless result InfoWriteFault.NoMemory }
{
    push_u16(bytes, count as u16)?;
    Ok(())
}

/// Writes the index of a constant behind other bytes.
pub fn push_index(
    bytes: &mut Vec<u8>,
    pool: &PoolBuilder,
    constant: Constant,
) -> Result<(), InfoWriteFault>
    ensures bytes { OnOk result (bytes.new.items ≡ bytes.old.items ++ two (index_in pool.now constant)) }
    ensures memory { IsOkUnless result InfoWriteFault.NoMemory }
{
    push_u16(bytes, pool.index(&constant))?;
    Ok(())
}

pub fn push_module(
    bytes: &mut Vec<u8>,
    pool: &PoolBuilder,
    name: &Name,
) -> Result<(), InfoWriteFault>
    ensures bytes { OnOk result (bytes.new.items ≡ bytes.old.items ++ module_bytes pool.now name.now) }
    ensures memory { IsOkUnless result InfoWriteFault.NoMemory }
{
    push_index(bytes, pool, Constant::Module(name.copy()?))
}

pub fn push_class(
    bytes: &mut Vec<u8>,
    pool: &PoolBuilder,
    name: &Name,
) -> Result<(), InfoWriteFault>
    ensures bytes { OnOk result (bytes.new.items ≡ bytes.old.items ++ class_bytes pool.now name.now) }
    ensures memory { IsOkUnless result InfoWriteFault.NoMemory }
{
    push_index(bytes, pool, Constant::Class(name.copy()?))
}

fn push_package(bytes: &mut Vec<u8>, pool: &PoolBuilder, name: &Name) -> Result<(), InfoWriteFault>
    ensures bytes { OnOk result (bytes.new.items ≡ bytes.old.items ++ package_bytes pool.now name.now) }
    ensures memory { IsOkUnless result InfoWriteFault.NoMemory }
{
    push_index(bytes, pool, Constant::Package(name.copy()?))
}

/// Writes a list of classes with its count.
pub fn push_classes(
    bytes: &mut Vec<u8>,
    pool: &PoolBuilder,
    names: &[Name],
) -> Result<(), InfoWriteFault>
    requires { length names.now < 65536 }
    ensures bytes { OnOk result (bytes.new.items ≡ bytes.old.items ++ counted_by (class_bytes pool.now) names.now) }
    ensures memory { IsOkUnless result InfoWriteFault.NoMemory }
{
    push_rows(&Classes, bytes, pool, names)
}

/// Writes a list of packages with its count.
pub fn push_packages(
    bytes: &mut Vec<u8>,
    pool: &PoolBuilder,
    names: &[Name],
) -> Result<(), InfoWriteFault>
    requires { length names.now < 65536 }
    ensures bytes { OnOk result (bytes.new.items ≡ bytes.old.items ++ counted_by (package_bytes pool.now) names.now) }
    ensures memory { IsOkUnless result InfoWriteFault.NoMemory }
{
    push_rows(&Packages, bytes, pool, names)
}

fn push_targets(
    bytes: &mut Vec<u8>,
    pool: &PoolBuilder,
    names: &[Name],
) -> Result<(), InfoWriteFault>
    requires { length names.now < 65536 }
    ensures bytes { OnOk result (bytes.new.items ≡ bytes.old.items ++ counted_by (module_bytes pool.now) names.now) }
    ensures memory { IsOkUnless result InfoWriteFault.NoMemory }
{
    push_rows(&Modules, bytes, pool, names)
}

fn requires_bits(entry: &Requires) -> u16
    ensures { result ≡ requires_flags entry.now }
{
    let transitive = if entry.transitive { 0x20 } else { 0 };
    let is_static = if entry.is_static { 0x40 } else { 0 };
    transitive + is_static
}

fn push_requires(
    bytes: &mut Vec<u8>,
    pool: &PoolBuilder,
    entry: &Requires,
) -> Result<(), InfoWriteFault>
    ensures bytes { OnOk result (bytes.new.items ≡ bytes.old.items ++ requires_written pool.now entry.now) }
    ensures memory { IsOkUnless result InfoWriteFault.NoMemory }
{
    push_module(bytes, pool, &entry.name)?;
    push_u16(bytes, requires_bits(entry))?;
    push_u16(bytes, 0)?;
    Ok(())
}

/// Writes the requires table.
pub fn push_required(
    bytes: &mut Vec<u8>,
    pool: &PoolBuilder,
    required: &[Requires],
) -> Result<(), InfoWriteFault>
    requires { length required.now < 65536 }
    ensures bytes { OnOk result (bytes.new.items ≡ bytes.old.items ++ counted_by (requires_written pool.now) required.now) }
    ensures memory { IsOkUnless result InfoWriteFault.NoMemory }
{
    push_rows(&Requirements, bytes, pool, required)
}

fn push_to(bytes: &mut Vec<u8>, pool: &PoolBuilder, grant: &Grant) -> Result<(), InfoWriteFault>
    requires { length (targets grant.now) < 65536 }
    ensures bytes { OnOk result (bytes.new.items ≡ bytes.old.items ++ counted_by (module_bytes pool.now) (targets grant.now)) }
    ensures memory { IsOkUnless result InfoWriteFault.NoMemory }
{
    match &grant.to {
        Some(names) => push_targets(bytes, pool, names.as_slice()),
        None => push_count(bytes, 0),
    }
}

fn push_grant(bytes: &mut Vec<u8>, pool: &PoolBuilder, grant: &Grant) -> Result<(), InfoWriteFault>
    requires { length (targets grant.now) < 65536 }
    ensures bytes { OnOk result (bytes.new.items ≡ bytes.old.items ++ grant_written pool.now grant.now) }
    ensures memory { IsOkUnless result InfoWriteFault.NoMemory }
{
    push_package(bytes, pool, &grant.package)?;
    push_u16(bytes, 0)?;
    push_to(bytes, pool, grant)
}

/// Writes the table of exports or of opens.
pub fn push_grants(
    bytes: &mut Vec<u8>,
    pool: &PoolBuilder,
    grants: &[Grant],
) -> Result<(), InfoWriteFault>
    requires few { length grants.now < 65536 }
    requires each { AreTargetsFew grants.now }
    ensures bytes { OnOk result (bytes.new.items ≡ bytes.old.items ++ counted_by (grant_written pool.now) grants.now) }
    ensures memory { IsOkUnless result InfoWriteFault.NoMemory }
{
    push_rows(&Grants, bytes, pool, grants)
}

fn push_service(
    bytes: &mut Vec<u8>,
    pool: &PoolBuilder,
    service: &Provides,
) -> Result<(), InfoWriteFault>
    requires { length service.now.implementations < 65536 }
    ensures bytes { OnOk result (bytes.new.items ≡ bytes.old.items ++ provides_written pool.now service.now) }
    ensures memory { IsOkUnless result InfoWriteFault.NoMemory }
{
    push_class(bytes, pool, &service.service)?;
    push_classes(bytes, pool, service.implementations.as_slice())
}

/// Writes the provides table.
pub fn push_services(
    bytes: &mut Vec<u8>,
    pool: &PoolBuilder,
    provides: &[Provides],
) -> Result<(), InfoWriteFault>
    requires few { length provides.now < 65536 }
    requires each { AreClassesFew provides.now }
    ensures bytes { OnOk result (bytes.new.items ≡ bytes.old.items ++ counted_by (provides_written pool.now) provides.now) }
    ensures memory { IsOkUnless result InfoWriteFault.NoMemory }
{
    push_rows(&Services, bytes, pool, provides)
}

/// Names of modules.
#[derive(Clone, Copy)]
struct Modules;

impl RowWriter<Name> for Modules {
    ghost use Rattle.std.specs.Prelude.{⊤};
    ghost use Rattle.jl_tables.specs.Layout.{module_bytes};

    ghost written = { module_bytes };

    ghost fits = { λ name. ⊤ };

    fn push(
        &self,
        bytes: &mut Vec<u8>,
        pool: &PoolBuilder,
        row: &Name,
    ) -> Result<(), InfoWriteFault> {
        push_module(bytes, pool, row)
    }
}

/// Names of classes.
#[derive(Clone, Copy)]
struct Classes;

impl RowWriter<Name> for Classes {
    ghost use Rattle.std.specs.Prelude.{⊤};
    ghost use Rattle.jl_tables.specs.Layout.{class_bytes};

    ghost written = { class_bytes };

    ghost fits = { λ name. ⊤ };

    fn push(
        &self,
        bytes: &mut Vec<u8>,
        pool: &PoolBuilder,
        row: &Name,
    ) -> Result<(), InfoWriteFault> {
        push_class(bytes, pool, row)
    }
}

/// Names of packages.
#[derive(Clone, Copy)]
struct Packages;

impl RowWriter<Name> for Packages {
    ghost use Rattle.std.specs.Prelude.{⊤};
    ghost use Rattle.jl_tables.specs.Layout.{package_bytes};

    ghost written = { package_bytes };

    ghost fits = { λ name. ⊤ };

    fn push(
        &self,
        bytes: &mut Vec<u8>,
        pool: &PoolBuilder,
        row: &Name,
    ) -> Result<(), InfoWriteFault> {
        push_package(bytes, pool, row)
    }
}

/// What a module requires.
#[derive(Clone, Copy)]
struct Requirements;

impl RowWriter<Requires> for Requirements {
    ghost use Rattle.std.specs.Prelude.{⊤};
    ghost use Rattle.jl_tables.specs.Layout.{requires_written};

    ghost written = { requires_written };

    ghost fits = { λ entry. ⊤ };

    fn push(
        &self,
        bytes: &mut Vec<u8>,
        pool: &PoolBuilder,
        row: &Requires,
    ) -> Result<(), InfoWriteFault> {
        push_requires(bytes, pool, row)
    }
}

/// What a module exports or opens.
#[derive(Clone, Copy)]
struct Grants;

impl RowWriter<Grant> for Grants {
    ghost use Rattle.std.specs.Prelude.{◌<◌, length};
    ghost use Rattle.jl_tables.specs.Layout.{grant_written};
    ghost use Rattle.jl_tables.specs.Layout.{targets};

    ghost written = { grant_written };

    ghost fits = { λ grant. length (targets grant) < 65536 };

    fn push(
        &self,
        bytes: &mut Vec<u8>,
        pool: &PoolBuilder,
        row: &Grant,
    ) -> Result<(), InfoWriteFault> {
        push_grant(bytes, pool, row)
    }
}

/// What a module provides.
#[derive(Clone, Copy)]
struct Services;

impl RowWriter<Provides> for Services {
    ghost use Rattle.std.specs.Prelude.{◌<◌, length};
    ghost use Rattle.jl_tables.specs.Layout.{provides_written};

    ghost written = { provides_written };

    ghost fits = { λ service. length service.implementations < 65536 };

    fn push(
        &self,
        bytes: &mut Vec<u8>,
        pool: &PoolBuilder,
        row: &Provides,
    ) -> Result<(), InfoWriteFault> {
        push_service(bytes, pool, row)
    }
}
