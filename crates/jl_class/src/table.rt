//! Tables of members while they are read: no two of one table have one name and descriptor (JVMS 4.5, 4.6).

ghost use Rattle.std.specs.Prelude.{◌≡◌, [], ◌∷◌, ◌++◌, IfOk, false, map};
ghost use Rattle.jl_class.specs.Meaning.{is_member_among};

use crate::member::{FieldDecl, MemberKey, MethodDecl};
use indexmap::IndexSet;
use jl_prim::{Copied, CopyEnd, Items};
use std::alloc::Global;
use std::marker::Model;

/// What is told from others by its name and its descriptor.
pub trait Keyed: Sized {
    ghost use Rattle.std.specs.Prelude.{◌≡◌, IfOk};
    ghost use Rattle.jl_class.specs.declared.member.MemberKey.{MemberKey};

    ghost key: { Self → MemberKey };

    /// Its name and descriptor.
    fn key(&self) -> Result<MemberKey, CopyEnd>
        ensures { IfOk result (λ k. k ≡ key self.now) };
}

impl Keyed for FieldDecl {
    ghost use Rattle.jl_class.specs.Meaning.{field_key};

    ghost key = { field_key };

    fn key(&self) -> Result<MemberKey, CopyEnd> {
        Ok(MemberKey {
            name: self.name.copy()?,
            desc: self.desc.copy()?,
        })
    }
}

impl Keyed for MethodDecl {
    ghost use Rattle.jl_class.specs.Meaning.{method_key};

    ghost key = { method_key };

    fn key(&self) -> Result<MemberKey, CopyEnd> {
        Ok(MemberKey {
            name: self.name.copy()?,
            desc: self.desc.copy()?,
        })
    }
}

/// Names with their descriptors, each once, in order. Contracts see the list of them.
#[derive(Drop)]
pub struct Keys {
    keys: IndexSet<MemberKey>,
}

impl Model for Keys {
    ghost use Rattle.std.specs.Prelude.{List};
    ghost use Rattle.jl_class.specs.declared.member.MemberKey.{MemberKey};

    ghost Value = { List MemberKey };

    ghost view = { λ all. all.keys.keys };
}

impl Keys {
    /// No member.
    pub fn new(alloc: Global) -> Keys
        ensures { result ≡ [] }
    {
        Keys {
            keys: IndexSet::new(alloc),
        }
    }

    /// Whether a member is one of them.
    pub fn has(&self, key: &MemberKey) -> bool
        ensures { result ≡ is_member_among key.now self.now }
    {
        self.keys.contains(key)
    }

    /// Those with one more behind them, which is none of them.
    pub fn with(self, key: MemberKey) -> Result<Keys, CopyEnd>
        requires { is_member_among key self ≡ false }
        ensures { IfOk result (λ all. all ≡ self ++ key ∷ []) }
    {
        let Keys { mut keys } = self;
        keys.insert(key)?;
        Ok(Keys { keys })
    }
}

/// The members that were read so far, with their keys at hand. Contracts see the list of the members.
#[derive(Drop)]
pub struct Table<T: Keyed> {
    members: Vec<T>,
    keys: Keys,
}

impl<T: Keyed> Model for Table<T> {
    ghost use Rattle.std.specs.Prelude.{◌≡◌, List, map};
    ghost use Rattle.std.specs.Coded.{coded_list};

    ghost Value = { List T };

    ghost coded = { coded_list T.code };

    ghost view = { λ table. table.members.items };

    ghost invariant = { λ table. table.keys ≡ map T.key table.members.items };
}

impl<T: Keyed> Table<T> {
    /// The empty table.
    pub fn new(alloc: Global) -> Table<T>
        ensures { result ≡ [] }
    {
        Table {
            members: Vec::new(alloc),
            keys: Keys::new(alloc),
        }
    }

    /// The keys of the members.
    pub fn keys(&self) -> &Keys
        ensures { result.now ≡ map T.key self.now }
    {
        &self.keys
    }

    /// The members in order.
    pub fn into_members(self) -> Items<T>
        ensures { result ≡ self }
    {
        let Table { members, .. } = self;
        Items::from_vec(members)
    }
}

impl<T: Keyed + Drop> Table<T> {
    /// The table with one more member, which has a key of its own.
    pub fn with(self, member: T) -> Result<Table<T>, CopyEnd>
        requires { is_member_among (T.key member) (map T.key self) ≡ false }
        ensures { IfOk result (λ table. table ≡ self ++ member ∷ []) }
    {
        let Table { mut members, keys } = self;
        let keys = keys.with(member.key()?)?;
        members.push(member)?;
        Ok(Table { members, keys })
    }
}
