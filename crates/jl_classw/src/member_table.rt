//! The fields or the methods of a class that is being made, found by their names and descriptors.

ghost use Rattle.std.specs.Prelude.{◌≡◌, [], ◌∷◌, ◌++◌, length, take, map, false, if◌then◌else◌, Some, OnOk, OnErr, IsOkUnless};
ghost use Rattle.jl_class.specs.declared.member.MemberKey.{MemberKey};
ghost use Rattle.jl_class.specs.Meaning.{is_member_among, is_same_member};
ghost use Rattle.jl_classw.specs.Hints.{place_of, stands_at};

use crate::fault::WriteFault;
use indexmap::IndexMap;
use jl_class::{FieldDecl, MethodDecl};
use jl_prim::{Copied, Name};
use std::alloc::Global;
use std::marker::Model;

/// What is told from others by its name and its descriptor (JVMS 4.5, 4.6).
pub trait Member: Sized {
    ghost use Rattle.std.specs.Prelude.{◌≡◌};
    ghost use Rattle.jl_class.specs.declared.member.MemberKey.{MemberKey};

    ghost key: { Self → MemberKey };

    fn name(&self) -> &Name
        ensures { result.now ≡ (key self.now).name };

    fn desc(&self) -> &Name
        ensures { result.now ≡ (key self.now).desc };
}

impl Member for FieldDecl {
    ghost use Rattle.jl_class.specs.Meaning.{field_key};

    ghost key = { field_key };

    fn name(&self) -> &Name {
        &self.name
    }

    fn desc(&self) -> &Name {
        &self.desc
    }
}

impl Member for MethodDecl {
    ghost use Rattle.jl_class.specs.Meaning.{method_key};

    ghost key = { method_key };

    fn name(&self) -> &Name {
        &self.name
    }

    fn desc(&self) -> &Name {
        &self.desc
    }
}

/// Members in the order in which they were added, each with a name and descriptor of its own. Contracts see
/// the list of them.
#[derive(Drop)]
pub struct MemberTable<T: Member> {
    members: Vec<T>,
    /// Where each member stands, by its name and its descriptor. Others may be noted too, at any place.
    places: IndexMap<Name, IndexMap<Name, usize>>,
}

impl<T: Member> Model for MemberTable<T> {
    ghost use Rattle.std.specs.Prelude.{List, map};
    ghost use Rattle.std.specs.Coded.{coded_list};
    ghost use Rattle.jl_classw.specs.Hints.{AreFound};

    ghost Value = { List T };

    ghost coded = { coded_list T.code };

    ghost view = { λ table. table.members.items };

    ghost invariant = { λ table. AreFound table.places (map T.key table.members.items) };
}

impl<T: Member> MemberTable<T> {
    /// No member.
    pub fn new(alloc: Global) -> MemberTable<T>
        ensures { result ≡ [] }
    {
        MemberTable {
            members: Vec::new(alloc),
            places: IndexMap::new(alloc),
        }
    }

    /// How many they are.
    pub fn len(&self) -> usize
        ensures { result ≡ length self.now }
    {
        self.members.len()
    }

    /// Whether a member of this name and descriptor is there.
    pub fn has(&self, name: &Name, desc: &Name) -> bool
        ensures { result ≡ is_member_among (record { name = name.now; desc = desc.now }) (map T.key self.now) }
    {
        match place_of(&self.places, name, desc) {
            Some(at) => stands_at(self.members.as_slice(), at, name, desc),
            None => false,
        }
    }

    /// The members in order.
    pub fn into_vec(self) -> Vec<T>
        ensures { result.items ≡ self }
    {
        let MemberTable { members, .. } = self;
        members
    }
}

impl<T: Member + Drop> MemberTable<T> {
    /// Adds a member. Without memory they stay as they are.
    pub fn push(&mut self, member: T) -> Result<(), WriteFault>
        requires { is_member_among (T.key member) (map T.key self.old) ≡ false }
        ensures ok { OnOk result (self.new ≡ self.old ++ member ∷ []) }
        ensures err { OnErr result (self.new ≡ self.old) }
        ensures memory { IsOkUnless result WriteFault.NoMemory }
    {
        let name = member.name().copy()?;
        let desc = member.desc().copy()?;
        note_place(&mut self.places, name, desc, self.members.len())?;
        self.members.push(member)?;
        Ok(())
    }

    /// Takes away all but the first so many.
    pub fn truncate(&mut self, count: usize)
        ensures { self.new ≡ take count self.old }
    {
        self.members.truncate(count);
    }
}

/// Where a member would stand.
fn place_of(
    places: &IndexMap<Name, IndexMap<Name, usize>>,
    name: &Name,
    desc: &Name,
) -> Option<usize>
    ensures { result ≡ place_of places.now (record { name = name.now; desc = desc.now }) }
{
    match places.get(name) {
        Some(descs) => descs.get(desc).copied(),
        None => None,
    }
}

/// Whether a member of this name and descriptor stands there.
fn stands_at<T: Member>(members: &[T], at: usize, name: &Name, desc: &Name) -> bool
    ensures { result ≡ stands_at (map T.key members.now) at (record { name = name.now; desc = desc.now }) }
{
    match members.get(at) {
        Some(member) => name == member.name() && desc == member.desc(),
        None => false,
    }
}

/// Notes where a member stands.
fn note_place(
    places: &mut IndexMap<Name, IndexMap<Name, usize>>,
    name: Name,
    desc: Name,
    at: usize,
) -> Result<(), WriteFault>
    ensures ok { OnOk result ((k : MemberKey) → place_of places.new k ≡ (if is_same_member (record { name = name; desc = desc }) k then Some at else place_of places.old k)) }
    ensures err { OnErr result ((k : MemberKey) → place_of places.new k ≡ place_of places.old k) }
    ensures memory { IsOkUnless result WriteFault.NoMemory }
{
    if let Some(descs) = places.get_mut(&name) {
        descs.insert(desc, at)?;
        return Ok(());
    }
    let mut descs = IndexMap::new(*places.allocator());
    descs.insert(desc, at)?;
    places.insert(name, descs)?;
    Ok(())
}
