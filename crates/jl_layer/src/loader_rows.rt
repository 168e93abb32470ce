//! The parts of the loaders of a layer (JVMS 5.3).

ghost use Rattle.std.specs.Prelude.{◌≡◌, ◌+◌, ◌<◌, ◌≤◌, ◌++◌, ◌⊎◌, [], List, length, map, replicate, IfOk, OnOk, MatchOption};
ghost use Rattle.std.specs.List.{filter_map, list_any};
ghost use Rattle.jl_logic.specs.Order.{is_text};
ghost use Rattle.std.specs.Option.{option_to_list};
ghost use Rattle.jl_layer.specs.Layers.{layer_at, member_of};
ghost use Rattle.jl_layer.specs.Defining.{loader_numbers, parts_of, with_module};
ghost use Rattle.jl_layer.specs.LoaderRows.{changed, owned, parts_by, rows_of, shown, with_own, with_seen};
ghost use Rattle.jl_layer.specs.Meaning.{exported_to, reaches_name, reaching, reads_of};

use crate::fault::Lack;
use crate::registry::Registry;
use jl_loaders::LoaderParts;
use jl_prim::{Copied, Declaration, Grant, Items, LayerId, LoaderId, ModuleId, Name, ParentLoader};
use std::alloc::{AllocError, Global};

/// What is gathered of a loader: packages with their modules.
#[derive(Drop)]
pub struct Row {
    pub own: Items<(Name, ModuleId)>,
    pub seen: Items<(Name, ModuleId)>,
}

impl Registry {
    /// The parts of so many loaders of a layer, with numbers from the first on.
    pub fn loader_parts(
        &self,
        l: LayerId,
        first: usize,
        count: usize,
        reads: &[(ModuleId, ModuleId)],
        parent: ParentLoader,
    ) -> Result<Vec<LoaderParts>, Lack>
        requires reads { reads.now ≡ reads_of self.now l }
        requires parent { parent ≡ (layer_at self.now l).parent_loader }
        ensures { IfOk result (λ parts. parts.items ≡ map (parts_of self.now l) (loader_numbers first count)) }
    {
        let alloc = self.allocator();
        let mut rows = empty_rows(alloc, count)?;
        self.push_all_own(&mut rows, first, self.modules_of(l))?;
        self.push_all_seen(&mut rows, first, reads)?;
        parts_from(alloc, rows, parent)
    }

    /// Adds the packages of modules, each to the row of its loader.
    fn push_all_own(
        &self,
        rows: &mut Vec<Row>,
        first: usize,
        modules: &[ModuleId],
    ) -> Result<(), Lack>
        requires { rows.old.items ≡ rows_of self.now first (length rows.old.items) [] [] }
        ensures { OnOk result (rows.new.items ≡ rows_of self.now first (length rows.old.items) modules.now []) }
    {
        for m in modules {
            self.push_own(rows, first, *m)?;
        }
        Ok(())
    }

    /// Adds the packages of a module to the row of its loader.
    fn push_own(&self, rows: &mut Vec<Row>, first: usize, m: ModuleId) -> Result<(), Lack>
        ensures { OnOk result (rows.new.items ≡ owned self.now first m rows.old.items) }
    {
        match self.member(m) {
            Some(member) => {
                let packages = member.observed.declaration.packages.as_slice();
                push_own_row(rows, first, member.loader, m, packages)
            }
            None => Ok(()),
        }
    }

    /// Adds what modules export to those of other loaders that read them, each to the row of the reader's loader.
    fn push_all_seen(
        &self,
        rows: &mut Vec<Row>,
        first: usize,
        reads: &[(ModuleId, ModuleId)],
    ) -> Result<(), Lack>
        ensures { (ms : List ModuleId) → rows.old.items ≡ rows_of self.now first (length rows.old.items) ms []
            → OnOk result (rows.new.items ≡ rows_of self.now first (length rows.old.items) ms reads.now) }
    {
        for (reader, m) in reads {
            self.push_seen(rows, first, *reader, *m)?;
        }
        Ok(())
    }

    /// Adds what a module exports to a reader of another loader to the row of that loader.
    fn push_seen(
        &self,
        rows: &mut Vec<Row>,
        first: usize,
        reader: ModuleId,
        m: ModuleId,
    ) -> Result<(), Lack>
        ensures { OnOk result (rows.new.items ≡ shown first m (member_of self.now reader) (member_of self.now m) rows.old.items) }
    {
        let Some(x) = self.member(reader) else {
            return Ok(());
        };
        let Some(y) = self.member(m) else {
            return Ok(());
        };
        if x.loader.0 == y.loader.0 {
            return Ok(());
        }
        let name = &x.observed.declaration.name;
        push_seen_row(rows, first, x.loader, m, &y.observed.declaration, name)
    }
}

/// A row with nothing for each of so many loaders.
fn empty_rows(alloc: Global, count: usize) -> Result<Vec<Row>, AllocError>
    ensures { IfOk result (λ rows. rows.items ≡ replicate count (record { own = []; seen = [] })) }
{
    let mut rows = Vec::with_capacity(alloc, count)?;
    for _ in 0..count {
        rows.push(Row {
            own: Items::new(alloc),
            seen: Items::new(alloc),
        })?;
    }
    Ok(rows)
}

/// The parts that rows make, each with this parent.
fn parts_from(alloc: Global, rows: Vec<Row>, parent: ParentLoader) -> Result<Vec<LoaderParts>, Lack>
    ensures { IfOk result (λ parts. parts.items ≡ map (parts_by parent) rows.items) }
{
    let mut parts = Vec::with_capacity(alloc, rows.len())?;
    for row in rows {
        parts.push(LoaderParts::new(alloc, row.own, row.seen, parent)?)?;
    }
    Ok(parts)
}

/// Where the row of a loader stands, if it has one.
fn place_in(first: usize, count: usize, loader: LoaderId) -> Option<usize>
    ensures { MatchOption result ((loader.0 < first) ⊎ (first + count ≤ loader.0)) (λ p. (loader.0 ≡ first + p) × (p < count)) }
{
    let number = loader.0 as usize;
    if number < first || number - first >= count {
        return None;
    }
    Some(number - first)
}

/// Adds packages of a module to the row of its loader.
fn push_own_row(
    rows: &mut Vec<Row>,
    first: usize,
    loader: LoaderId,
    m: ModuleId,
    packages: &[Name],
) -> Result<(), Lack>
    ensures { OnOk result (rows.new.items ≡ changed first loader.0 (with_own (with_module m packages.now)) rows.old.items) }
{
    match place_in(first, rows.len(), loader) {
        Some(place) => {
            let row = &mut rows[place];
            push_pairs(&mut row.own, m, packages)
        }
        None => Ok(()),
    }
}

/// Adds what a module exports to a reader to the row of the reader's loader.
fn push_seen_row(
    rows: &mut Vec<Row>,
    first: usize,
    loader: LoaderId,
    m: ModuleId,
    declaration: &Declaration,
    reader: &Name,
) -> Result<(), Lack>
    ensures { OnOk result (rows.new.items ≡ changed first loader.0 (with_seen (with_module m (exported_to declaration.now reader.now))) rows.old.items) }
{
    match place_in(first, rows.len(), loader) {
        Some(place) => {
            let row = &mut rows[place];
            push_exported(&mut row.seen, m, declaration.exports.as_slice(), reader)
        }
        None => Ok(()),
    }
}

/// Adds packages of a module.
fn push_pairs(
    pairs: &mut Items<(Name, ModuleId)>,
    m: ModuleId,
    packages: &[Name],
) -> Result<(), Lack>
    ensures { OnOk result (pairs.new ≡ pairs.old ++ with_module m packages.now) }
{
    for name in packages {
        pairs.push((name.copy()?, m))?;
    }
    Ok(())
}

/// Adds the packages of grants that reach a reader.
fn push_exported(
    pairs: &mut Items<(Name, ModuleId)>,
    m: ModuleId,
    grants: &[Grant],
    reader: &Name,
) -> Result<(), Lack>
    ensures { OnOk result (pairs.new ≡ pairs.old ++ with_module m (filter_map (reaching reader.now) grants.now)) }
{
    for grant in grants {
        push_reaching(pairs, m, grant, reader)?;
    }
    Ok(())
}

/// Adds the package of a grant, where it reaches a reader.
fn push_reaching(
    pairs: &mut Items<(Name, ModuleId)>,
    m: ModuleId,
    grant: &Grant,
    reader: &Name,
) -> Result<(), Lack>
    ensures { OnOk result (pairs.new ≡ pairs.old ++ with_module m (option_to_list (reaching reader.now grant.now))) }
{
    if reaches_name(grant, reader) {
        pairs.push((grant.package.copy()?, m))?;
    }
    Ok(())
}

/// Whether a grant reaches a module with this name.
pub fn reaches_name(grant: &Grant, name: &Name) -> bool
    ensures { result ≡ reaches_name grant.now.to name.now }
{
    match &grant.to {
        None => true,
        Some(names) => is_among(names.as_slice(), name),
    }
}

/// Whether a name is one of these.
fn is_among(names: &[Name], name: &Name) -> bool
    ensures { result ≡ list_any (λ n. is_text n name.now) names.now }
{
    names.iter().any(|to| *to == *name)
}
