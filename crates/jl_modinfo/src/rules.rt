//! The rules on a whole declaration (JLS 7.7.1, 7.7.2, 7.7.4; JVMS 4.7.25, 4.7.26).

ghost use Rattle.std.specs.Prelude.{◌≡◌, ◌++◌, ℕ, List, Ok, IfOk, OnOk, IfErr, map, find, not, nat_eq};
ghost use Rattle.std.specs.List.{list_any};
ghost use Rattle.std.specs.Option.{option_copied};
ghost use Rattle.std.specs.Cmp.Lexicographic.{pointwise};
ghost use Rattle.jl_logic.specs.Answers.{Gives};
ghost use Rattle.jl_logic.specs.Order.{is_text};
ghost use Rattle.jl_prim.specs.declared.declaration.Requires.{Requires};
ghost use Rattle.jl_tables.specs.declared.fault.InfoFault.TheVariants.{NoMemory};
ghost use Rattle.jl_names.specs.Names.{package_of as package_in};
ghost use Rattle.jl_tables.specs.Faults.{told};
ghost use Rattle.jl_tables.specs.Meaning.{is_among};
ghost use Rattle.jl_modinfo.specs.Reading.{ruled as is_ruled};
ghost use Rattle.jl_modinfo.specs.Rules.{granted, implementing};
ghost use Rattle.jl_modinfo.specs.Rules as rules;

use indexmap::IndexSet;
use jl_names::package_of;
use jl_prim::{Copied, CopyEnd, Declaration, Grant, Items, Name, Provides, Requires};
use jl_tables::InfoFault;
use std::alloc::Global;

/// The declaration where it keeps the rules.
pub fn ruled(alloc: Global, d: Declaration) -> Result<Declaration, InfoFault>
    ensures { Gives told (λ d. d) result (is_ruled d) }
{
    if !is_base_right(d.name.as_str(), d.required.as_slice()) {
        return Err(InfoFault::BaseRule);
    }
    match missing_package(alloc, &d)? {
        None => Ok(d),
        Some(package) => Err(InfoFault::PackageMissing(package)),
    }
}

/// Whether `java.base` requires nothing, or another module requires `java.base`.
fn is_base_right(name: &str, required: &[Requires]) -> bool
    ensures { result ≡ rules.keeps_base_rule name.now required.now }
{
    if name == "java.base" {
        required.is_empty()
    } else {
        is_required(required, "java.base")
    }
}

/// Whether one of the entries is for the module with this name.
fn is_required(required: &[Requires], name: &str) -> bool
    ensures { result ≡ list_any (λ (r : Requires). is_text r.name name.now) required.now }
{
    required.iter().any(|entry| entry.name.as_str() == name)
}

/// The first package that the declaration names and has not.
fn missing_package(alloc: Global, d: &Declaration) -> Result<Option<Name>, InfoFault>
    ensures { Gives told (λ x. x) result (Ok (rules.missing_package d.now)) }
{
    let named = named_packages(alloc, d)?;
    let packages = set_of(alloc, d.packages.as_slice())?;
    match first_outside(named.as_slice(), &packages) {
        Some(package) => Ok(Some(package.copy()?)),
        None => Ok(None),
    }
}

/// The first name that the set has not.
fn first_outside<'a>(names: &'a [Name], all: &IndexSet<Name>) -> Option<&'a Name>
    ensures { option_copied result ≡ find (λ name. not (list_any (pointwise nat_eq name) all.now.keys)) names.now }
{
    let mut rest = names;
    while let [name, others @ ..] = rest {
        if !all.contains(name) {
            return Some(name);
        }
        rest = others;
    }
    None
}

/// The set of these names.
fn set_of(alloc: Global, names: &[Name]) -> Result<IndexSet<Name>, CopyEnd>
    ensures { IfOk result (λ all. (name : List ℕ) → list_any (pointwise nat_eq name) all.keys ≡ is_among name names.now) }
{
    let mut all = IndexSet::new(alloc);
    let mut rest = names;
    while let [name, others @ ..] = rest {
        all.insert(name.copy()?)?;
        rest = others;
    }
    Ok(all)
}

/// The packages that the declaration exports, opens or implements services in.
fn named_packages(alloc: Global, d: &Declaration) -> Result<Items<Name>, InfoFault>
    ensures { Gives told (λ x. x) result (Ok (rules.named_packages d.now)) }
{
    let mut named = Items::new(alloc);
    add_granted(&mut named, d.exports.as_slice())?;
    add_granted(&mut named, d.opens.as_slice())?;
    add_implementing(alloc, &mut named, d.provides.as_slice())?;
    Ok(named)
}

fn add_granted(named: &mut Items<Name>, grants: &[Grant]) -> Result<(), InfoFault>
    ensures ok { OnOk result (named.new ≡ named.old ++ granted grants.now) }
    ensures err { IfErr result (λ e. e ≡ NoMemory) }
{
    let mut rest = grants;
    while let [grant, others @ ..] = rest {
        named.push(grant.package.copy()?)?;
        rest = others;
    }
    Ok(())
}

fn add_implementing(
    alloc: Global,
    named: &mut Items<Name>,
    provides: &[Provides],
) -> Result<(), InfoFault>
    ensures ok { OnOk result (named.new ≡ named.old ++ implementing provides.now) }
    ensures err { IfErr result (λ e. e ≡ NoMemory) }
{
    let mut rest = provides;
    while let [provided, others @ ..] = rest {
        add_packages(alloc, named, provided.implementations.as_slice())?;
        rest = others;
    }
    Ok(())
}

fn add_packages(alloc: Global, named: &mut Items<Name>, classes: &[Name]) -> Result<(), InfoFault>
    ensures ok { OnOk result (named.new ≡ named.old ++ map package_in classes.now) }
    ensures err { IfErr result (λ e. e ≡ NoMemory) }
{
    let mut rest = classes;
    while let [class, others @ ..] = rest {
        named.push(package(alloc, class)?)?;
        rest = others;
    }
    Ok(())
}

/// The package of a class.
fn package(alloc: Global, class: &Name) -> Result<Name, CopyEnd>
    ensures { IfOk result (λ name. name ≡ package_in class.now) }
{
    let end = package_of(class.as_bytes()).len();
    let (package, _) = class.as_str().split_at(end);
    Name::from_text(alloc, package)
}
