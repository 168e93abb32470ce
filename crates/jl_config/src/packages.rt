//! Packages that a module would have twice.

ghost use Rattle.std.specs.Prelude.{◌≡◌, ◌<◌, length, IfOk, OnOk};
ghost use Rattle.std.specs.Option.{option_map};
ghost use Rattle.jl_config.specs.Collected.{Adds, AreSorted};
ghost use Rattle.jl_config.specs.Imported.{AreImports, IsImport, IsPackageSharedAt, IsPackageShared, IsOwned, IsOwnedIn, same_package_fault, own_package_fault};
ghost use Rattle.jl_config.specs.Places.{IsLeastSome, SamePackageFault, OwnPackageFault};
ghost use Rattle.jl_config.specs.Refusals.{fault_cmp};

use crate::candidate::Candidate;
use crate::fault::ResolveFault;
use crate::imports::{Exported, Imports};
use crate::same_name::name_at;
use crate::scene::Scene;
use crate::sorted::{has_name, least_of, sorted_names};
use jl_prim::{Copied, CopyEnd, Name};
use std::alloc::Global;

/// Two modules that a module reads export a package to it.
#[derive(Debug, PartialEq, Eq, PartialOrd, Ord, Drop)]
pub struct SharedPackage {
    pub reader: Name,
    pub package: Name,
    pub one: Name,
    pub other: Name,
}

/// A module has a package that another exports to it.
#[derive(Debug, PartialEq, Eq, PartialOrd, Ord, Drop)]
pub struct OwnedPackage {
    pub reader: Name,
    pub package: Name,
    pub other: Name,
}

/// The least reader that gets a package from two other modules, with the least such package and modules.
pub fn least_same_package(
    alloc: Global,
    scene: &Scene,
    imports: &[Imports],
) -> Result<Option<ResolveFault>, CopyEnd>
    requires { AreImports scene.now imports.now }
    ensures { IfOk result (λ found. IsLeastSome fault_cmp (SamePackageFault scene.now) found) }
{
    let mut shared = Vec::new(alloc);
    for imported in imports {
        push_shared(&mut shared, scene, imported)?;
    }
    Ok(fault_of_shared(least_of(shared)))
}

fn fault_of_shared(shared: Option<SharedPackage>) -> Option<ResolveFault>
    ensures { result ≡ option_map same_package_fault shared }
{
    match shared {
        None => None,
        Some(shared) => Some(ResolveFault::SamePackage {
            reader: shared.reader,
            package: shared.package,
            one: shared.one,
            other: shared.other,
        }),
    }
}

/// Exports of one package stand side by side.
fn push_shared(
    shared: &mut Vec<SharedPackage>,
    scene: &Scene,
    imports: &Imports,
) -> Result<(), CopyEnd>
    requires { IsImport scene.now imports.now }
    ensures { OnOk result (Adds shared.old.items shared.new.items (IsPackageShared scene.now imports.now)) }
{
    for at in 1..imports.exported.len() {
        push_shared_at(shared, scene, imports, at)?;
    }
    Ok(())
}

fn push_shared_at(
    shared: &mut Vec<SharedPackage>,
    scene: &Scene,
    imports: &Imports,
    at: usize,
) -> Result<(), CopyEnd>
    requires imports { IsImport scene.now imports.now }
    requires later { 0 < at }
    requires within { at < length imports.now.exported }
    ensures { OnOk result (Adds shared.old.items shared.new.items (IsPackageSharedAt scene.now imports.now at)) }
{
    let exported = imports.exported.as_slice();
    let one = &exported[at - 1];
    let other = &exported[at];
    if one.package != other.package {
        return Ok(());
    }
    shared.push(SharedPackage {
        reader: name_at(scene, imports.reader).copy()?,
        package: other.package.copy()?,
        one: one.exporter.copy()?,
        other: other.exporter.copy()?,
    })?;
    Ok(())
}

/// The least reader that has a package and gets it from another module, with the least such package and
/// module.
pub fn least_own_package(
    alloc: Global,
    scene: &Scene,
    imports: &[Imports],
) -> Result<Option<ResolveFault>, CopyEnd>
    requires { AreImports scene.now imports.now }
    ensures { IfOk result (λ found. IsLeastSome fault_cmp (OwnPackageFault scene.now) found) }
{
    let mut owned = Vec::new(alloc);
    for imported in imports {
        push_owned_in(&mut owned, scene, imported)?;
    }
    Ok(fault_of_owned(least_of(owned)))
}

fn fault_of_owned(owned: Option<OwnedPackage>) -> Option<ResolveFault>
    ensures { result ≡ option_map own_package_fault owned }
{
    match owned {
        None => None,
        Some(owned) => Some(ResolveFault::OwnPackage {
            reader: owned.reader,
            package: owned.package,
            other: owned.other,
        }),
    }
}

fn push_owned_in(
    owned: &mut Vec<OwnedPackage>,
    scene: &Scene,
    imports: &Imports,
) -> Result<(), CopyEnd>
    requires { IsImport scene.now imports.now }
    ensures { OnOk result (Adds owned.old.items owned.new.items (IsOwnedIn scene.now imports.now)) }
{
    let candidate = &scene.candidates()[imports.reader];
    let packages = sorted_names(candidate.observed.declaration.packages.copy()?.into_vec())?;
    for exported in imports.exported.as_slice() {
        push_owned(owned, candidate, packages.as_slice(), exported)?;
    }
    Ok(())
}

fn push_owned(
    owned: &mut Vec<OwnedPackage>,
    candidate: &Candidate,
    packages: &[Name],
    exported: &Exported,
) -> Result<(), CopyEnd>
    requires { AreSorted candidate.now.observed.declaration.packages packages.now }
    ensures { OnOk result (Adds owned.old.items owned.new.items (IsOwned candidate.now exported.now)) }
{
    if !has_name(packages, exported.package.as_bytes()) {
        return Ok(());
    }
    owned.push(OwnedPackage {
        reader: candidate.observed.declaration.name.copy()?,
        package: exported.package.copy()?,
        other: exported.exporter.copy()?,
    })?;
    Ok(())
}
