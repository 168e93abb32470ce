//! The statements of facts, by the numbers of their names, and the tables by which they are looked up.

ghost use Rattle.std.specs.Prelude.{◌≡◌, ◌+◌, ◌<◌, ◌≤◌, [], ◌∷◌, ◌++◌, ◌||◌, OnOk};
ghost use Rattle.indexmap.specs.IndexSet as index_sets;
ghost use Rattle.std.specs.List.{list_any};
ghost use Rattle.jl_access.specs.Kept.{Known, same_fact, to_all, about_all};

use crate::statement::Reach;
use indexmap::IndexSet;
use jl_prim::ModuleId;
use std::alloc::{AllocError, Global};
use std::marker::Model;

/// What is said of a package or a service.
#[derive(Clone, Copy, PartialEq, Eq, Hash)]
pub enum About {
    Exports(ModuleId, Reach),
    Opens(ModuleId, Reach),
    Uses(ModuleId),
}

impl About {
    /// The same, where the reach is that to all.
    pub fn to_all(self) -> About
        ensures { result ≡ about_all self }
    {
        match self {
            About::Exports(m, _) => About::Exports(m, Reach::All),
            About::Opens(m, _) => About::Opens(m, Reach::All),
            About::Uses(m) => About::Uses(m),
        }
    }
}

/// A statement, where a name is given by its number.
#[derive(Clone, Copy, PartialEq, Eq, Hash)]
pub enum Fact {
    Reads(ModuleId, ModuleId),
    Of(About, usize),
}

impl Fact {
    /// The same, where the reach is that to all.
    pub fn to_all(self) -> Fact
        ensures { result ≡ to_all self }
    {
        match self {
            Fact::Reads(a, b) => Fact::Reads(a, b),
            Fact::Of(about, name) => Fact::Of(about.to_all(), name),
        }
    }
}

/// The facts in order, and beside them the set of the facts and the set of what they are whatever their reach.
/// Contracts see the list, and for how many more there is room.
#[derive(Drop)]
pub struct Table {
    list: Vec<Fact>,
    exact: IndexSet<Fact>,
    anywhere: IndexSet<Fact>,
    reserved: usize,
}

impl Model for Table {
    ghost use Rattle.std.specs.Prelude.{vec_len, vec_capacity};
    ghost use Rattle.indexmap.specs.IndexSet.{spare};
    ghost use Rattle.jl_access.specs.Kept.{Known, IsTable, IsRoom};

    ghost Value = { Known };

    ghost view = { λ table. record { facts = table.list.items; spare_facts = table.reserved } };

    ghost invariant = { λ table. IsTable table.list.items table.exact.keys table.anywhere.keys × IsRoom table.reserved (vec_len table.list) (vec_capacity table.list) (spare table.exact) (spare table.anywhere) };
}

impl Table {
    /// No fact.
    pub fn new(alloc: Global) -> Table
        ensures { result ≡ record { facts = []; spare_facts = 0 } }
    {
        Table {
            list: Vec::new(alloc),
            exact: IndexSet::new(alloc),
            anywhere: IndexSet::new(alloc),
            reserved: 0,
        }
    }

    /// Makes room for so many more facts.
    pub fn room(&mut self, count: usize) -> Result<(), AllocError>
        ensures same { self.new.facts ≡ self.old.facts }
        ensures kept { self.old.spare_facts ≤ self.new.spare_facts }
        ensures room { OnOk result (count ≤ self.new.spare_facts) }
    {
        self.list.reserve(count)?;
        self.exact.reserve(count)?;
        self.anywhere.reserve(count)?;
        self.reserved = self.reserved.max(count);
        Ok(())
    }

    /// Adds a fact.
    pub fn place(&mut self, fact: Fact)
        requires { 0 < self.old.spare_facts }
        ensures facts { self.new.facts ≡ self.old.facts ++ fact ∷ [] }
        ensures spare { self.new.spare_facts + 1 ≡ self.old.spare_facts }
    {
        self.reserved -= 1;
        self.list.push_reserved(fact);
        insert_reserved(&mut self.exact, fact);
        insert_reserved(&mut self.anywhere, fact.to_all());
    }

    /// Whether the fact is there.
    pub fn has(&self, fact: Fact) -> bool
        ensures { result ≡ list_any (same_fact fact) self.now.facts }
    {
        self.exact.contains(&fact)
    }

    /// Whether the fact is there, where the reach is that to all, or with another reach.
    pub fn has_anywhere(&self, fact: Fact) -> bool
        ensures { result ≡ list_any (λ f. same_fact fact (to_all f)) self.now.facts }
    {
        self.anywhere.contains(&fact)
    }
}

/// Takes a fact into a set that has room for it.
fn insert_reserved(set: &mut IndexSet<Fact>, fact: Fact)
    requires { 0 < index_sets.spare set.old }
    ensures has { (k : Fact) → list_any (same_fact k) set.new.keys ≡ (same_fact k fact || list_any (same_fact k) set.old.keys) }
    ensures spare { index_sets.spare set.old ≤ index_sets.spare set.new + 1 }
{
    match set.insert(fact) {
        Ok(_) => {}
        Err(_) => unreachable!(),
    }
}
