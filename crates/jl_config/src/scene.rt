//! What a resolution has in sight.

ghost use Rattle.std.specs.Prelude.{◌≡◌, ◌≤◌, ℕ, List, length, nat_eq, slice_get, false, IfOk};
ghost use Rattle.std.specs.Option.{option_copied, option_map_or};
ghost use Rattle.std.specs.Cmp.Lexicographic.{pointwise};
ghost use Rattle.indexmap.specs.IndexMap.{get};
ghost use Rattle.jl_prim.specs.Limits.{most_modules};
ghost use Rattle.jl_config.specs.Lineages.{is_reader, is_read_in, is_named, is_in, is_outside};
ghost use Rattle.jl_config.specs.Located.{scene_of, is_here, find_read};
ghost use Rattle.jl_config.specs.Places.{place_named, place_above, place_of_candidate, own_place};
ghost use Rattle.jl_config.specs.Resolves.{asked};
ghost use Rattle.jl_config.specs.Tables.{listed, places_where, first_of_places};

use crate::ancestors::push_ancestors;
use crate::candidate::{Candidate, push_candidates};
use crate::configuration::{Configuration, Read};
use crate::tables::{note_first, note_place};
use indexmap::IndexMap;
use jl_prim::{ConfigId, Copied, CopyEnd, Found, Items, Name};
use std::alloc::Global;
use std::marker::Model;

/// The modules in sight, in the order in which a name is looked for.
#[derive(Drop)]
pub struct Scene {
    id: ConfigId,
    candidates: Vec<Candidate>,
    reads: Vec<(ConfigId, Read)>,
    roots: Items<Name>,
    binds: bool,
    // The first place of each name.
    places: IndexMap<Name, usize>,
    // Where in `reads` the entries of each reader stand, and where in `candidates` the modules of each name.
    readers: IndexMap<Name, Items<usize>>,
    named: IndexMap<Name, Items<usize>>,
}

impl Model for Scene {
    ghost use Rattle.std.specs.Prelude.{◌≡◌, ℕ, List, nat_eq};
    ghost use Rattle.std.specs.Cmp.Lexicographic.{pointwise};
    ghost use Rattle.indexmap.specs.IndexMap.{get};
    ghost use Rattle.jl_config.specs.Located as seen;
    ghost use Rattle.jl_prim.specs.Limits.{most_modules};
    ghost use Rattle.jl_config.specs.Lineages.{is_reader, is_named};
    ghost use Rattle.jl_config.specs.Places.{place_named};
    ghost use Rattle.jl_config.specs.Tables.{listed, places_where};

    ghost Value = { seen.Scene };

    ghost view = { λ w. record { id = w.id; candidates = w.candidates.items; reads = w.reads.items; roots = w.roots; binds = w.binds } };

    ghost invariant = { λ w. ((name : List ℕ) → get (pointwise nat_eq) w.places name ≡ place_named name w.candidates.items)
        × ((reader : List ℕ) → listed w.readers reader ≡ places_where (is_reader reader) 0 w.reads.items)
        × ((name : List ℕ) → listed w.named name ≡ places_where (is_named name) 0 w.candidates.items) };
}

impl Scene {
    /// What a call of `resolve` has in sight.
    pub fn of(
        alloc: Global,
        known: &[Configuration],
        before: &Found,
        parents: &[ConfigId],
        after: &Found,
        roots: &[Name],
        bind: bool,
    ) -> Result<Scene, CopyEnd>
        requires few_known { length known.now ≤ most_modules }
        ensures { IfOk result (λ w. w ≡ scene_of (asked known.now before.now.modules parents.now after.now.modules roots.now bind)) }
    {
        let id = ConfigId(known.len() as u32 + 1);
        let mut candidates = Vec::new(alloc);
        let mut reads = Vec::new(alloc);
        push_candidates(&mut candidates, id, before.modules.as_slice())?;
        push_ancestors(alloc, &mut candidates, &mut reads, known, parents)?;
        push_candidates(&mut candidates, id, after.modules.as_slice())?;
        let places = first_places(alloc, candidates.as_slice())?;
        let readers = places_by_reader(alloc, reads.as_slice())?;
        let named = places_by_name(alloc, candidates.as_slice())?;
        let roots = Items::from_vec(copies_of(alloc, roots)?);
        Ok(Scene {
            id,
            candidates,
            reads,
            roots,
            binds: bind,
            places,
            readers,
            named,
        })
    }

    /// The modules.
    pub fn candidates(&self) -> &[Candidate]
        ensures { result.now ≡ self.now.candidates }
    {
        self.candidates.as_slice()
    }

    /// The names from which the set begins.
    pub fn roots(&self) -> &[Name]
        ensures { result.now ≡ self.now.roots }
    {
        self.roots.as_slice()
    }

    /// Whether modules that provide what is used come in.
    pub fn binds(&self) -> bool
        ensures { result ≡ self.now.binds }
    {
        self.binds
    }

    /// Whether a finder observes the module. Others are an ancestor's.
    pub fn is_here(&self, candidate: &Candidate) -> bool
        ensures { result ≡ is_here self.now candidate.now }
    {
        candidate.config.0 == self.id.0
    }

    /// The place of the module that a name means first.
    pub fn named(&self, name: &Name) -> Option<usize>
        ensures { result ≡ place_named name.now self.now.candidates }
    {
        self.places.get(name).copied()
    }

    /// The place of the module of the first ancestor that has the name.
    pub fn above(&self, name: &Name) -> Option<usize>
        ensures { result ≡ place_above self.now name.now }
    {
        let places = self.named.get(name)?;
        first_outside(self.candidates.as_slice(), places.as_slice(), self.id)
    }

    /// The place of the module that a name means to a module of an ancestor: the one that its own
    /// configuration has it read.
    pub fn own(&self, candidate: &Candidate, name: &Name) -> Option<usize>
        ensures { result ≡ own_place self.now candidate.now name.now }
    {
        let read = self.read_by(candidate.config, &candidate.observed.declaration.name, name)?;
        self.place_of(read.config, &read.name)
    }

    // The first entry of a configuration by which a reader reads a name.
    fn read_by(&self, config: ConfigId, reader: &Name, name: &Name) -> Option<&Read>
        ensures { option_copied result ≡ find_read config reader.now name.now self.now.reads }
    {
        let places = self.readers.get(reader)?;
        let at = first_read(self.reads.as_slice(), places.as_slice(), config, name)?;
        let entry = self.reads.get(at)?;
        Some(&entry.1)
    }

    // The first place of a configuration's module with a name.
    fn place_of(&self, config: ConfigId, name: &Name) -> Option<usize>
        ensures { result ≡ place_of_candidate config name.now self.now.candidates }
    {
        let places = self.named.get(name)?;
        first_in(self.candidates.as_slice(), places.as_slice(), config)
    }
}

fn copies_of(alloc: Global, names: &[Name]) -> Result<Vec<Name>, CopyEnd>
    ensures { IfOk result (λ copies. copies.items ≡ names.now) }
{
    let mut copies = Vec::with_capacity(alloc, names.len())?;
    for name in names {
        copies.push(name.copy()?)?;
    }
    Ok(copies)
}

/// The place at which each name stands first.
fn first_places(alloc: Global, candidates: &[Candidate]) -> Result<IndexMap<Name, usize>, CopyEnd>
    ensures { IfOk result (λ places. (name : List ℕ) → get (pointwise nat_eq) places name ≡ place_named name candidates.now) }
{
    let mut places = IndexMap::new(alloc);
    for (at, candidate) in candidates.iter().enumerate() {
        note_first(&mut places, &candidate.observed.declaration.name, at)?;
    }
    Ok(places)
}

/// The places of the entries of each reader.
fn places_by_reader(
    alloc: Global,
    reads: &[(ConfigId, Read)],
) -> Result<IndexMap<Name, Items<usize>>, CopyEnd>
    ensures { IfOk result (λ table. (reader : List ℕ) → listed table reader ≡ places_where (is_reader reader) 0 reads.now) }
{
    let mut table = IndexMap::new(alloc);
    for (at, entry) in reads.iter().enumerate() {
        note_place(alloc, &mut table, &entry.1.reader, at)?;
    }
    Ok(table)
}

/// The places of each name.
fn places_by_name(
    alloc: Global,
    candidates: &[Candidate],
) -> Result<IndexMap<Name, Items<usize>>, CopyEnd>
    ensures { IfOk result (λ table. (name : List ℕ) → listed table name ≡ places_where (is_named name) 0 candidates.now) }
{
    let mut table = IndexMap::new(alloc);
    for (at, candidate) in candidates.iter().enumerate() {
        note_place(alloc, &mut table, &candidate.observed.declaration.name, at)?;
    }
    Ok(table)
}

/// Of some entries the first of a configuration by which a name is read.
fn first_read(
    reads: &[(ConfigId, Read)],
    places: &[usize],
    config: ConfigId,
    name: &Name,
) -> Option<usize>
    ensures { result ≡ first_of_places (is_read_in config name.now) reads.now places.now }
{
    for place in places {
        if is_read_at(reads, *place, config, name) {
            return Some(*place);
        }
    }
    None
}

fn is_read_at(reads: &[(ConfigId, Read)], place: usize, config: ConfigId, name: &Name) -> bool
    ensures { result ≡ option_map_or (is_read_in config name.now) (slice_get reads.now place) false }
{
    match reads.get(place) {
        Some(entry) => entry.0.0 == config.0 && entry.1.name == *name,
        None => false,
    }
}

/// Of some places the first of a configuration's module.
fn first_in(candidates: &[Candidate], places: &[usize], config: ConfigId) -> Option<usize>
    ensures { result ≡ first_of_places (is_in config) candidates.now places.now }
{
    for place in places {
        if is_in_at(candidates, *place, config) {
            return Some(*place);
        }
    }
    None
}

fn is_in_at(candidates: &[Candidate], place: usize, config: ConfigId) -> bool
    ensures { result ≡ option_map_or (is_in config) (slice_get candidates.now place) false }
{
    match candidates.get(place) {
        Some(candidate) => candidate.config.0 == config.0,
        None => false,
    }
}

/// Of some places the first of a module that is not of the configuration.
fn first_outside(candidates: &[Candidate], places: &[usize], config: ConfigId) -> Option<usize>
    ensures { result ≡ first_of_places (is_outside config) candidates.now places.now }
{
    for place in places {
        if is_outside_at(candidates, *place, config) {
            return Some(*place);
        }
    }
    None
}

fn is_outside_at(candidates: &[Candidate], place: usize, config: ConfigId) -> bool
    ensures { result ≡ option_map_or (is_outside config) (slice_get candidates.now place) false }
{
    match candidates.get(place) {
        Some(candidate) => candidate.config.0 != config.0,
        None => false,
    }
}
