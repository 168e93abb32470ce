//! The constants that a declaration names.

ghost use Rattle.std.specs.Prelude.{◌≡◌, ◌++◌, ◌∷◌, [], map, IfOk, OnOk, IsOkUnless};
ghost use Rattle.std.specs.List.{flat_map};
ghost use Rattle.jl_pool.specs.declared.constant.Constant.TheVariants as constants;
ghost use Rattle.jl_modinfo.specs.Layout.{module_constant, class_constant, package_constant, required_constant, grant_constants, provides_constants, main_class_constants, main_constants, version_constants, first_constants, front_constants, table_constants, back_constants, named_constants};

use jl_pool::Constant;
use jl_prim::{Copied, Declaration, Grant, Name, Provides, Requires};
use jl_tables::InfoWriteFault;
use std::alloc::Global;

/// What a declaration names, in the order of a file.
pub fn constants_of(alloc: Global, d: &Declaration) -> Result<Vec<Constant>, InfoWriteFault>
    ensures constants { IfOk result (λ found. found.items ≡ named_constants d.now) }
    ensures memory { IsOkUnless result InfoWriteFault.NoMemory }
{
    let mut found = Vec::new(alloc);
    name_front(alloc, &mut found, d)?;
    name_tables(&mut found, d)?;
    name_back(alloc, &mut found, d)?;
    Ok(found)
}

fn name_front(
    alloc: Global,
    found: &mut Vec<Constant>,
    d: &Declaration,
) -> Result<(), InfoWriteFault>
    ensures constants { OnOk result (found.new.items ≡ found.old.items ++ front_constants d.now) }
    ensures memory { IsOkUnless result InfoWriteFault.NoMemory }
{
    name_first(alloc, found, d)?;
    name_version(found, &d.version)?;
    name_required(found, d.required.as_slice())
}

fn name_tables(found: &mut Vec<Constant>, d: &Declaration) -> Result<(), InfoWriteFault>
    ensures constants { OnOk result (found.new.items ≡ found.old.items ++ table_constants d.now) }
    ensures memory { IsOkUnless result InfoWriteFault.NoMemory }
{
    name_grants(found, d.exports.as_slice())?;
    name_grants(found, d.opens.as_slice())?;
    name_classes(found, d.uses.as_slice())?;
    name_services(found, d.provides.as_slice())
}

fn name_back(
    alloc: Global,
    found: &mut Vec<Constant>,
    d: &Declaration,
) -> Result<(), InfoWriteFault>
    ensures constants { OnOk result (found.new.items ≡ found.old.items ++ back_constants d.now) }
    ensures memory { IsOkUnless result InfoWriteFault.NoMemory }
{
    name_text(alloc, found, "ModulePackages")?;
    name_packages(found, d.packages.as_slice())?;
    name_main(alloc, found, &d.main)
}

fn name_first(
    alloc: Global,
    found: &mut Vec<Constant>,
    d: &Declaration,
) -> Result<(), InfoWriteFault>
    ensures constants { OnOk result (found.new.items ≡ found.old.items ++ first_constants d.now) }
    ensures memory { IsOkUnless result InfoWriteFault.NoMemory }
{
    name_class(found, &Name::from_text(alloc, "module-info")?)?;
    name_text(alloc, found, "Module")?;
    name_module(found, &d.name)
}

fn name_version(found: &mut Vec<Constant>, version: &Option<Name>) -> Result<(), InfoWriteFault>
    ensures constants { OnOk result (found.new.items ≡ found.old.items ++ version_constants version.now) }
    ensures memory { IsOkUnless result InfoWriteFault.NoMemory }
{
    if let Some(version) = version {
        found.push(Constant::Text(version.copy()?))?;
    }
    Ok(())
}

fn name_required(found: &mut Vec<Constant>, required: &[Requires]) -> Result<(), InfoWriteFault>
    ensures constants { OnOk result (found.new.items ≡ found.old.items ++ map required_constant required.now) }
    ensures memory { IsOkUnless result InfoWriteFault.NoMemory }
{
    for entry in required {
        found.push(Constant::Module(entry.name.copy()?))?;
    }
    Ok(())
}

fn name_modules(found: &mut Vec<Constant>, names: &[Name]) -> Result<(), InfoWriteFault>
    ensures constants { OnOk result (found.new.items ≡ found.old.items ++ map module_constant names.now) }
    ensures memory { IsOkUnless result InfoWriteFault.NoMemory }
{
    for name in names {
        found.push(Constant::Module(name.copy()?))?;
    }
    Ok(())
}

fn name_classes(found: &mut Vec<Constant>, names: &[Name]) -> Result<(), InfoWriteFault>
    ensures constants { OnOk result (found.new.items ≡ found.old.items ++ map class_constant names.now) }
    ensures memory { IsOkUnless result InfoWriteFault.NoMemory }
{
    for name in names {
        found.push(Constant::Class(name.copy()?))?;
    }
    Ok(())
}

fn name_packages(found: &mut Vec<Constant>, names: &[Name]) -> Result<(), InfoWriteFault>
    ensures constants { OnOk result (found.new.items ≡ found.old.items ++ map package_constant names.now) }
    ensures memory { IsOkUnless result InfoWriteFault.NoMemory }
{
    for name in names {
        found.push(Constant::Package(name.copy()?))?;
    }
    Ok(())
}

fn name_grant(found: &mut Vec<Constant>, grant: &Grant) -> Result<(), InfoWriteFault>
    ensures constants { OnOk result (found.new.items ≡ found.old.items ++ grant_constants grant.now) }
    ensures memory { IsOkUnless result InfoWriteFault.NoMemory }
{
    found.push(Constant::Package(grant.package.copy()?))?;
    if let Some(targets) = &grant.to {
        name_modules(found, targets.as_slice())?;
    }
    Ok(())
}

fn name_grants(found: &mut Vec<Constant>, grants: &[Grant]) -> Result<(), InfoWriteFault>
    ensures constants { OnOk result (found.new.items ≡ found.old.items ++ flat_map grant_constants grants.now) }
    ensures memory { IsOkUnless result InfoWriteFault.NoMemory }
{
    for grant in grants {
        name_grant(found, grant)?;
    }
    Ok(())
}

fn name_service(found: &mut Vec<Constant>, service: &Provides) -> Result<(), InfoWriteFault>
    ensures constants { OnOk result (found.new.items ≡ found.old.items ++ provides_constants service.now) }
    ensures memory { IsOkUnless result InfoWriteFault.NoMemory }
{
    found.push(Constant::Class(service.service.copy()?))?;
    name_classes(found, service.implementations.as_slice())
}

fn name_services(found: &mut Vec<Constant>, provides: &[Provides]) -> Result<(), InfoWriteFault>
    ensures constants { OnOk result (found.new.items ≡ found.old.items ++ flat_map provides_constants provides.now) }
    ensures memory { IsOkUnless result InfoWriteFault.NoMemory }
{
    for service in provides {
        name_service(found, service)?;
    }
    Ok(())
}

fn name_main(
    alloc: Global,
    found: &mut Vec<Constant>,
    main: &Option<Name>,
) -> Result<(), InfoWriteFault>
    ensures constants { OnOk result (found.new.items ≡ found.old.items ++ main_constants main.now) }
    ensures memory { IsOkUnless result InfoWriteFault.NoMemory }
{
    match main {
        None => Ok(()),
        Some(class) => name_main_class(alloc, found, class),
    }
}

fn name_main_class(
    alloc: Global,
    found: &mut Vec<Constant>,
    class: &Name,
) -> Result<(), InfoWriteFault>
    ensures constants { OnOk result (found.new.items ≡ found.old.items ++ main_class_constants class.now) }
    ensures memory { IsOkUnless result InfoWriteFault.NoMemory }
{
    name_text(alloc, found, "ModuleMainClass")?;
    name_class(found, class)
}

fn name_text(alloc: Global, found: &mut Vec<Constant>, text: &str) -> Result<(), InfoWriteFault>
    ensures constants { OnOk result (found.new.items ≡ found.old.items ++ constants.Text text.now ∷ []) }
    ensures memory { IsOkUnless result InfoWriteFault.NoMemory }
{
    found.push(Constant::Text(Name::from_text(alloc, text)?))?;
    Ok(())
}

fn name_class(found: &mut Vec<Constant>, class: &Name) -> Result<(), InfoWriteFault>
    ensures constants { OnOk result (found.new.items ≡ found.old.items ++ constants.Class class.now ∷ []) }
    ensures memory { IsOkUnless result InfoWriteFault.NoMemory }
{
    found.push(Constant::Class(class.copy()?))?;
    Ok(())
}

fn name_module(found: &mut Vec<Constant>, name: &Name) -> Result<(), InfoWriteFault>
    ensures constants { OnOk result (found.new.items ≡ found.old.items ++ constants.Module name.now ∷ []) }
    ensures memory { IsOkUnless result InfoWriteFault.NoMemory }
{
    found.push(Constant::Module(name.copy()?))?;
    Ok(())
}
