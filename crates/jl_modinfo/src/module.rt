//! Module attributes (JVMS 4.7.25).

ghost use Rattle.std.specs.Prelude.{◌≡◌, IfOk};
ghost use Rattle.std.specs.Option.{option_copied};
ghost use Rattle.jl_logic.specs.Answers.{Gives};
ghost use Rattle.jl_tables.specs.Faults.{told};
ghost use Rattle.jl_modinfo.specs.Reading.{module_at};

use jl_classfile::Place;
use jl_pool::Pool;
use jl_prim::{Copied, CopyEnd, Grant, Items, Name, Provides, Requires};
use jl_tables::{
    InfoFault, Kind, grants_at, is_open, name_at, names_at, provides_table_at, requires_table_at,
    version_at,
};
use std::alloc::Global;

/// What a Module attribute declares.
#[derive(Debug, Drop)]
pub struct Module {
    pub name: Name,
    pub is_open: bool,
    pub version: Option<Name>,
    pub required: Items<Requires>,
    pub exports: Items<Grant>,
    pub opens: Items<Grant>,
    pub uses: Items<Name>,
    pub provides: Items<Provides>,
}

/// The module that the bytes from a place on declare, all of them.
#[tactic(auto, unfolding(crate::specs::Reading::module_at))]
pub fn module_of(alloc: Global, pool: &Pool, content: Place<'_>) -> Result<Module, InfoFault>
    ensures { Gives told (λ m. m) result (module_at pool.now content.entry.bytes.now content.entry.at) }
{
    let (name, place) = name_at(pool, Kind::Module, content)?;
    let (flags, place) = place.u16::<InfoFault>()?;
    let (version, place) = version_at(pool, place)?;
    let (required, place) = requires_table_at(alloc, pool, place)?;
    let (exports, place) = grants_at(alloc, pool, "exports", Kind::Package, place)?;
    let opened = Kind::Opened(is_open(flags));
    let (opens, place) = grants_at(alloc, pool, "opens", opened, place)?;
    let (uses, place) = names_at(alloc, pool, "uses", Kind::Class, place)?;
    let (provides, place) = provides_table_at(alloc, pool, place)?;
    if !place.is_end() {
        return Err(InfoFault::Trailing);
    }
    Ok(Module {
        name: name.copy()?,
        is_open: is_open(flags),
        version: copied(version)?,
        required,
        exports,
        opens,
        uses,
        provides,
    })
}

fn copied(name: Option<&Name>) -> Result<Option<Name>, CopyEnd>
    ensures { IfOk result (λ it. it ≡ option_copied name.entry) }
{
    match name {
        Some(name) => Ok(Some(name.copy()?)),
        None => Ok(None),
    }
}
