//! Reading a declaration file.

ghost use Rattle.std.specs.Prelude.{◌≡◌, ◌↔◌, IfOk, Ok, Err};
ghost use Rattle.jl_logic.specs.Answers.{Gives};
ghost use Rattle.jl_classfile.specs.Places.{Reads};
ghost use Rattle.jl_pool.specs.Reading.{pool_at};
ghost use Rattle.jl_prim.specs.declared.declaration.Declaration.{Declaration};
ghost use Rattle.jl_modinfo.specs.Info.{IsInfo};
ghost use Rattle.jl_tables.specs.declared.fault.InfoFault.{InfoFault};
ghost use Rattle.jl_tables.specs.Faults.{told, pool_or};
ghost use Rattle.jl_modinfo.specs.Reading.{info_of, declaration_of, or_found, whole as whole_file};

use crate::attribute::{FileParts, attributes_of};
use crate::front::{empty_class, front};
use crate::module::Module;
use crate::rules::ruled;
use jl_classfile::Place;
use jl_pool::{Pool, read_pool};
use jl_prim::{Declaration, Items, Name};
use jl_tables::{InfoFault, copied_all};
use std::alloc::Global;

/// The declaration that a `module-info.class` file has (JVMS 4.1, 4.7.25). `found` is the packages to take
/// where the file does not list them.
///
/// The first fault from the left is the answer. After the attributes come the rules on the whole file.
pub fn read_info(alloc: Global, bytes: &[u8], found: &[Name]) -> Result<Declaration, InfoFault>
    ensures exact { Gives told (λ d. d) result (info_of bytes.now found.now) }
    ensures found { IfOk result (λ d. IsInfo bytes.now found.now d) }
    ensures only { (d : Declaration) → IsInfo bytes.now found.now d → Gives told (λ d. d) result (Ok d) }
    // There is a fault exactly where there is no declaration.
    ensures one { ((f : InfoFault) × (info_of bytes.now found.now ≡ Err f)) ↔ ((d : Declaration) → IsInfo bytes.now found.now d → ⊥) }
{
    info(alloc, bytes, found)
}

#[tactic(auto, unfolding(crate::specs::Reading::info_of))]
fn info(alloc: Global, bytes: &[u8], found: &[Name]) -> Result<Declaration, InfoFault>
    ensures { Gives told (λ d. d) result (info_of bytes.now found.now) }
{
    let place = front(bytes)?;
    let (pool, place) = pool(alloc, place)?;
    let place = empty_class(alloc, &pool, place)?;
    let (read, next) = attributes_of(alloc, &pool, place)?;
    whole(alloc, found, read, next)
}

fn pool<'p>(alloc: Global, place: Place<'p>) -> Result<(Pool, Place<'p>), InfoFault>
    ensures { Reads told (λ pool. pool) place.entry result (λ bytes at. pool_or (pool_at bytes at)) }
{
    let (pool, at) = read_pool(alloc, place.bytes, place.at)?;
    let next = Place {
        bytes: place.bytes,
        at,
    };
    Ok((pool, next))
}

/// The declaration that the attributes make, where the whole file keeps its rules and ends at the place.
fn whole(
    alloc: Global,
    found: &[Name],
    read: FileParts,
    place: Place<'_>,
) -> Result<Declaration, InfoFault>
    ensures { Gives told (λ d. d) result (whole_file found.now place.entry.bytes.now read place.entry.at) }
{
    let FileParts {
        module,
        packages,
        main,
    } = read;
    let Some(module) = module else {
        return Err(InfoFault::NoModuleAttribute);
    };
    if !place.is_end() {
        return Err(InfoFault::Trailing);
    }
    let packages = packages_or(alloc, packages, found)?;
    ruled(alloc, declaration(module, packages, main))
}

/// The packages of the file, or those that were found.
fn packages_or(
    alloc: Global,
    packages: Option<Items<Name>>,
    found: &[Name],
) -> Result<Items<Name>, InfoFault>
    ensures { Gives told (λ it. it) result (Ok (or_found found.now packages)) }
{
    match packages {
        Some(packages) => Ok(packages),
        None => copied_all(alloc, found),
    }
}

fn declaration(declared: Module, packages: Items<Name>, main: Option<Name>) -> Declaration
    ensures { result ≡ declaration_of declared packages main }
{
    Declaration {
        name: declared.name,
        is_open: declared.is_open,
        version: declared.version,
        required: declared.required,
        exports: declared.exports,
        opens: declared.opens,
        uses: declared.uses,
        provides: declared.provides,
        packages,
        main,
    }
}
