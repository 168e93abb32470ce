//! Tables while they are read: no two entries have one name (JVMS 4.7.25).

ghost use Rattle.std.specs.Prelude.{◌≡◌, [], ◌∷◌, ◌++◌, IfOk, false, map};
ghost use Rattle.jl_tables.specs.Meaning.{is_among};

use indexmap::IndexSet;
use jl_prim::{Copied, CopyEnd, Grant, Items, Name, Provides, Requires};
use std::alloc::Global;
use std::marker::Model;

/// What a table has one entry for.
pub trait Keyed: Sized {
    ghost use Rattle.std.specs.Prelude.{◌≡◌, ℕ, List};

    ghost key: { Self → List ℕ };

    /// The name that no other entry of its table has.
    fn key(&self) -> &Name
        ensures { result.now ≡ key self.now };
}

impl Keyed for Requires {
    ghost key = { λ entry. entry.name };

    fn key(&self) -> &Name {
        &self.name
    }
}

impl Keyed for Grant {
    ghost key = { λ grant. grant.package };

    fn key(&self) -> &Name {
        &self.package
    }
}

impl Keyed for Provides {
    ghost key = { λ provides. provides.service };

    fn key(&self) -> &Name {
        &self.service
    }
}

/// Names that are apart, in their order. Contracts see the list of them.
#[derive(Drop)]
pub struct Names {
    names: IndexSet<Name>,
}

impl Model for Names {
    ghost use Rattle.std.specs.Prelude.{ℕ, List};

    ghost Value = { List (List ℕ) };

    ghost view = { λ all. all.names.keys };
}

impl Names {
    /// No name.
    pub fn new(alloc: Global) -> Names
        ensures { result ≡ [] }
    {
        Names {
            names: IndexSet::new(alloc),
        }
    }

    /// Whether the name is one of them.
    pub fn has(&self, name: &Name) -> bool
        ensures { result ≡ is_among name.now self.now }
    {
        self.names.contains(name)
    }

    /// The names with one more behind them, which is none of them.
    pub fn with(self, name: Name) -> Result<Names, CopyEnd>
        requires { is_among name self ≡ false }
        ensures { IfOk result (λ all. all ≡ self ++ name ∷ []) }
    {
        let Names { mut names } = self;
        names.insert(name)?;
        Ok(Names { names })
    }

    /// The names in order.
    pub fn as_slice(&self) -> &[Name]
        ensures { result.now ≡ self.now }
    {
        self.names.as_slice()
    }
}

/// The entries that were read so far, with their names at hand. Contracts see the list of the entries.
#[derive(Drop)]
pub struct Table<T: Keyed> {
    entries: Vec<T>,
    names: Names,
}

impl<T: Keyed> Model for Table<T> {
    ghost use Rattle.std.specs.Prelude.{◌≡◌, List, map};
    ghost use Rattle.std.specs.Coded.{coded_list};

    ghost Value = { List T };

    ghost coded = { coded_list T.code };

    ghost view = { λ table. table.entries.items };

    ghost invariant = { λ table. table.names ≡ map T.key table.entries.items };
}

impl<T: Keyed> Table<T> {
    /// The empty table.
    pub fn new(alloc: Global) -> Table<T>
        ensures { result ≡ [] }
    {
        Table {
            entries: Vec::new(alloc),
            names: Names::new(alloc),
        }
    }

    /// The names of the entries.
    pub fn names(&self) -> &Names
        ensures { result.now ≡ map T.key self.now }
    {
        &self.names
    }

    /// The entries in order.
    pub fn into_entries(self) -> Items<T>
        ensures { result ≡ self }
    {
        let Table { entries, .. } = self;
        Items::from_vec(entries)
    }
}

impl<T: Keyed + Drop> Table<T> {
    /// The table with one more entry, which has a name of its own.
    pub fn with(self, entry: T) -> Result<Table<T>, CopyEnd>
        requires { is_among (T.key entry) (map T.key self) ≡ false }
        ensures { IfOk result (λ table. table ≡ self ++ entry ∷ []) }
    {
        let Table { mut entries, names } = self;
        let names = names.with(entry.key().copy()?)?;
        entries.push(entry)?;
        Ok(Table { entries, names })
    }
}
