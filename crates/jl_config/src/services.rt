//! Services whose packages are not read.

ghost use Rattle.std.specs.Prelude.{◌≡◌, ◌↔◌, ◌⊎◌, IfOk, OnOk, IsTrue, Contains};
ghost use Rattle.std.specs.Option.{option_map};
ghost use Rattle.jl_logic.specs.Order.{name_cmp, RisesBy};
ghost use Rattle.jl_config.specs.Collected.{Adds, Among};
ghost use Rattle.jl_config.specs.Imported.{AreImports, IsImport, IsImported, IsOwnExport, AreOwn, IsUnseen, IsUnseenProvided, IsUnseenIn, exported_cmp, service_fault};
ghost use Rattle.jl_config.specs.Places.{IsLeastSome, SameNameFault, ServiceFault};
ghost use Rattle.jl_config.specs.Refusals.{fault_cmp};
ghost use Rattle.jl_config.specs.declared.fault.ResolveFault.{ResolveFault};

use crate::candidate::Candidate;
use crate::fault::ResolveFault;
use crate::imports::{Exported, Imports, reaches};
use crate::scene::Scene;
use crate::sorted::{has_name, least_of, sorted_names};
use jl_names::package_of;
use jl_prim::{Copied, CopyEnd, Grant, Name};
use std::alloc::Global;

/// The service, used or provided by the module, is in a package that it neither has nor gets.
#[derive(Debug, PartialEq, Eq, PartialOrd, Ord, Drop)]
pub struct UnseenService {
    pub module: Name,
    pub service: Name,
}

/// The least module with a service of which it neither has nor gets the package, and the least such service of
/// it, where no module reads two of one name.
pub fn least_service(
    alloc: Global,
    scene: &Scene,
    imports: &[Imports],
) -> Result<Option<ResolveFault>, CopyEnd>
    requires imports { AreImports scene.now imports.now }
    requires apart { (f : ResolveFault) → SameNameFault scene.now f → ⊥ }
    ensures { IfOk result (λ found. IsLeastSome fault_cmp (ServiceFault scene.now) found) }
{
    let mut unseen = Vec::new(alloc);
    for imported in imports {
        push_unseen_in(&mut unseen, scene, imported)?;
    }
    Ok(fault_of(least_of(unseen)))
}

fn fault_of(unseen: Option<UnseenService>) -> Option<ResolveFault>
    ensures { result ≡ option_map service_fault unseen }
{
    match unseen {
        None => None,
        Some(unseen) => Some(ResolveFault::ServicePackage {
            module: unseen.module,
            service: unseen.service,
        }),
    }
}

fn push_unseen_in(
    unseen: &mut Vec<UnseenService>,
    scene: &Scene,
    imports: &Imports,
) -> Result<(), CopyEnd>
    requires { IsImport scene.now imports.now }
    ensures { OnOk result (Adds unseen.old.items unseen.new.items (IsUnseenIn scene.now imports.now)) }
{
    let candidate = &scene.candidates()[imports.reader];
    let own = own_packages(candidate)?;
    let exported = imports.exported.as_slice();
    push_unseen_uses(unseen, candidate, own.as_slice(), exported)?;
    push_unseen_provides(unseen, candidate, own.as_slice(), exported)?;
    Ok(())
}

fn push_unseen_uses(
    unseen: &mut Vec<UnseenService>,
    candidate: &Candidate,
    own: &[Name],
    exported: &[Exported],
) -> Result<(), CopyEnd>
    requires own { AreOwn candidate.now own.now }
    requires exported { RisesBy exported_cmp exported.now }
    ensures { OnOk result (Adds unseen.old.items unseen.new.items (Among (IsUnseen candidate.now exported.now) candidate.now.observed.declaration.uses)) }
{
    for service in candidate.observed.declaration.uses.as_slice() {
        push_unseen(unseen, candidate, own, exported, service)?;
    }
    Ok(())
}

fn push_unseen_provides(
    unseen: &mut Vec<UnseenService>,
    candidate: &Candidate,
    own: &[Name],
    exported: &[Exported],
) -> Result<(), CopyEnd>
    requires own { AreOwn candidate.now own.now }
    requires exported { RisesBy exported_cmp exported.now }
    ensures { OnOk result (Adds unseen.old.items unseen.new.items (Among (IsUnseenProvided candidate.now exported.now) candidate.now.observed.declaration.provides)) }
{
    for provided in candidate.observed.declaration.provides.as_slice() {
        push_unseen(unseen, candidate, own, exported, &provided.service)?;
    }
    Ok(())
}

fn push_unseen(
    unseen: &mut Vec<UnseenService>,
    candidate: &Candidate,
    own: &[Name],
    exported: &[Exported],
    service: &Name,
) -> Result<(), CopyEnd>
    requires own { AreOwn candidate.now own.now }
    requires exported { RisesBy exported_cmp exported.now }
    ensures { OnOk result (Adds unseen.old.items unseen.new.items (IsUnseen candidate.now exported.now service.now)) }
{
    if sees(own, exported, package_of(service.as_bytes())) {
        return Ok(());
    }
    unseen.push(UnseenService {
        module: candidate.observed.declaration.name.copy()?,
        service: service.copy()?,
    })?;
    Ok(())
}

/// Whether a package is one of those that a module has or exports to itself, or one that it gets.
fn sees(own: &[Name], exported: &[Exported], name: &[u8]) -> bool
    requires own { RisesBy name_cmp own.now }
    requires exported { RisesBy exported_cmp exported.now }
    ensures { IsTrue result ↔ Contains own.now name.now ⊎ IsImported exported.now name.now }
{
    has_name(own, name) || is_imported(exported, name)
}

/// The packages that a module has or exports to itself, in order.
fn own_packages(candidate: &Candidate) -> Result<Vec<Name>, CopyEnd>
    ensures { IfOk result (λ own. AreOwn candidate.now own.items) }
{
    let mut own = candidate.observed.declaration.packages.copy()?.into_vec();
    for grant in candidate.observed.declaration.exports.as_slice() {
        push_own_export(&mut own, candidate, grant)?;
    }
    let sorted = sorted_names(own)?;
    Ok(sorted)
}

fn push_own_export(own: &mut Vec<Name>, candidate: &Candidate, grant: &Grant) -> Result<(), CopyEnd>
    ensures { OnOk result (Adds own.old.items own.new.items (IsOwnExport candidate.now grant.now)) }
{
    if !reaches(grant, &candidate.observed.declaration.name) {
        return Ok(());
    }
    own.push(grant.package.copy()?)?;
    Ok(())
}

fn is_imported(exported: &[Exported], name: &[u8]) -> bool
    requires { RisesBy exported_cmp exported.now }
    ensures { IsTrue result ↔ IsImported exported.now name.now }
{
    exported
        .binary_search_by(|e| e.package.as_bytes().cmp(name))
        .is_ok()
}
