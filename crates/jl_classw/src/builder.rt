//! Making a class part by part.

mod attributes;
mod calls;

ghost use Rattle.std.specs.Prelude.{◌≡◌, ◌<◌, ◌++◌, [], ◌∷◌, length, ℕ, List, false, is_some, map, OnOk, OnErr, IfOk, IsTrue, IsOkUnless, ◌⊎◌};
ghost use Rattle.std.specs.Option.{option_copied};
ghost use Rattle.jl_logic.specs.Answers.{Gives};
ghost use Rattle.jl_names.specs.Names.{names_a_class, names_a_field};
ghost use Rattle.jl_pool.specs.Builder.{IsShort};
ghost use Rattle.jl_class.specs.Meaning.{field_key, method_key, is_member_among, are_class_flags, are_field_flags, are_method_flags, is_interface, may_extend, names_method_with, describes_a_field, describes_method_with, has_code};
ghost use Rattle.jl_class.specs.Spelling.{IsClass};
ghost use Rattle.jl_classfile.specs.Front.{is_version};
ghost use Rattle.jl_classw.specs.Faults.{told};
ghost use Rattle.jl_classw.specs.Built.{IsSuper, IsShortEntry, IsTagged, MayHave, IsSmall};
ghost use Rattle.jl_classw.specs.Building.{new_class, of_class, with_entry, with_interface, with_field, with_method};

use crate::entering::{enter_class, enter_new};
use crate::entries::Entries;
use crate::entry::{Constant, NewEntry};
use crate::fault::{WriteFault, too_many};
use crate::member_table::{Member, MemberTable};
use crate::needs::{enter_code, enter_name, enter_optional, enter_super, has_many_handlers};
use jl_class::{ClassDecl, CodeBytes, FieldDecl, MethodDecl, Nests, is_interface};
use jl_pool::{Entry, Pool};
use jl_prim::{Copied, Items, Name};
use std::alloc::Global;
use std::marker::Model;

/// The most interfaces, fields, methods and attributes that a class has, each (JVMS 4.1).
const MOST_ROWS: usize = 65535;

/// A class that is being made, which contracts see as the class that it is so far and the count of its
/// attributes. Its minor version is 0, and its pool has each entry once.
#[derive(Drop)]
pub struct ClassBuilder {
    alloc: Global,
    major: u16,
    flags: u16,
    name: Name,
    super_name: Option<Name>,
    interfaces: Vec<Name>,
    fields: MemberTable<FieldDecl>,
    methods: MemberTable<MethodDecl>,
    nests: Nests,
    /// How many attributes it was given, also those that are no part of it.
    attributes: usize,
    entries: Entries,
}

impl Model for ClassBuilder {
    ghost use Rattle.std.specs.Prelude.{◌<◌, length};
    ghost use Rattle.jl_classw.specs.Built.{IsBuilt};
    ghost use Rattle.jl_classw.specs.Building.{Making};

    ghost Value = { Making };

    ghost view = { λ b. record { class = record { major = b.major; minor = 0; flags = b.flags; name = b.name; super_name = b.super_name; interfaces = b.interfaces.items; fields = b.fields; methods = b.methods; nest_host = b.nests.host; nest_members = b.nests.members; permits = b.nests.permits; pool = b.entries }; attributes = b.attributes } };

    ghost invariant = { λ b. (length b.entries < 65536) × IsBuilt (record { major = b.major; minor = 0; flags = b.flags; name = b.name; super_name = b.super_name; interfaces = b.interfaces.items; fields = b.fields; methods = b.methods; nest_host = b.nests.host; nest_members = b.nests.members; permits = b.nests.permits; pool = b.entries }) };
}

impl ClassBuilder {
    /// A class with no members.
    #[tactic(auto, unfolding(crate::specs::Building::new_class))]
    fn begun(
        alloc: Global,
        major: u16,
        flags: u16,
        this: &Name,
        super_name: Option<&Name>,
    ) -> Result<ClassBuilder, WriteFault>
        requires version { IsTrue (is_version major 0) }
        requires flags { IsTrue (are_class_flags flags) }
        requires name { IsTrue (names_a_class this.now) }
        requires short { IsShort this.now }
        requires superclass { IsSuper (option_copied super_name) }
        requires extends { IsTrue (may_extend flags this.now (option_copied super_name)) }
        ensures { Gives told (λ b. b) result (new_class major flags this.now (option_copied super_name.entry)) }
    {
        let first = Entries::first(alloc)?;
        let (added, _) = enter_class(&first, Vec::new(alloc), this)?;
        let (added, _) = enter_super(&first, added, super_name)?;
        Ok(ClassBuilder {
            alloc,
            major,
            flags,
            name: this.copy()?,
            super_name: copied(super_name)?,
            interfaces: Vec::new(alloc),
            fields: MemberTable::new(alloc),
            methods: MemberTable::new(alloc),
            nests: Nests {
                host: None,
                members: Items::from_vec(Vec::new(alloc)),
                permits: None,
            },
            attributes: 0,
            entries: appended(first, added)?,
        })
    }

    /// Enters an entry behind those that it needs, and answers its index. What is there already is not
    /// entered again, and keeps its index. `is_short` tests the condition on each text.
    ///
    /// `TooMany("pool")` comes where the pool would have more than 65,535 entries, the unused one of index
    /// 0 among them. On any error the class is as it was.
    #[tactic(auto, unfolding(crate::specs::Building::with_entry))]
    pub fn entry(&mut self, entry: NewEntry) -> Result<u16, WriteFault>
        requires short { IsShortEntry entry }
        requires tag { IsTagged entry }
        ensures exact { Gives told (λ i. (self.new, i)) result (with_entry self.old entry) }
        ensures err { OnErr result (self.new ≡ self.old) }
    {
        let (added, index) = enter_new(&self.entries, Vec::new(self.alloc), entry)?;
        self.entries.append(added)?;
        Ok(index)
    }

    /// Names one more interface.
    #[tactic(auto, unfolding(crate::specs::Building::with_interface))]
    fn interface_named(&mut self, name: &Name) -> Result<(), WriteFault>
        requires name { IsTrue (names_a_class name.now) }
        requires short { IsShort name.now }
        ensures exact { Gives told (λ _. self.new) result (of_class self.old (with_interface self.old.class name.now)) }
        ensures err { OnErr result (self.new ≡ self.old) }
    {
        if self.interfaces.len() >= MOST_ROWS {
            return too_many(self.alloc, "interfaces");
        }
        let (added, _) = enter_class(&self.entries, Vec::new(self.alloc), name)?;
        let row = name.copy()?;
        put(&mut self.entries, added, &mut self.interfaces, row)?;
        Ok(())
    }

    /// Adds a field.
    #[tactic(auto, unfolding(crate::specs::Building::with_field))]
    fn field_named(
        &mut self,
        flags: u16,
        name: &Name,
        desc: &Name,
        constant: Option<Constant>,
    ) -> Result<(), WriteFault>
        requires flags { IsTrue (are_field_flags (is_interface self.old.class.flags) flags) }
        requires name { IsTrue (names_a_field name.now) }
        requires desc { IsTrue (describes_a_field desc.now) }
        requires short { IsShort name.now × IsShort desc.now }
        requires fresh { is_member_among (record { name = name.now; desc = desc.now }) (map field_key self.old.class.fields) ≡ false }
        requires constant { MayHave flags desc.now constant }
        ensures exact { Gives told (λ _. self.new) result (of_class self.old (with_field self.old.class flags name.now desc.now constant)) }
        ensures err { OnErr result (self.new ≡ self.old) }
    {
        if self.fields.len() >= MOST_ROWS {
            return too_many(self.alloc, "fields");
        }
        let added = enter_name(&self.entries, Vec::new(self.alloc), name)?;
        let added = enter_name(&self.entries, added, desc)?;
        let (added, constant) = enter_optional(&self.entries, added, constant)?;
        let field = FieldDecl {
            flags,
            name: name.copy()?,
            desc: desc.copy()?,
            constant,
        };
        put_member(&mut self.entries, added, &mut self.fields, field)?;
        Ok(())
    }

    /// Adds a method.
    #[tactic(auto, unfolding(crate::specs::Building::with_method))]
    fn method_named(
        &mut self,
        flags: u16,
        name: &Name,
        desc: &Name,
        code: Option<CodeBytes>,
    ) -> Result<(), WriteFault>
        requires flags { IsTrue (are_method_flags flags) }
        requires name { IsTrue (names_method_with flags name.now) }
        requires desc { IsTrue (describes_method_with name.now desc.now) }
        requires short { IsShort name.now × IsShort desc.now }
        requires fresh { is_member_among (record { name = name.now; desc = desc.now }) (map method_key self.old.class.methods) ≡ false }
        requires has { is_some code ≡ has_code flags }
        requires small { IsSmall code }
        ensures exact { Gives told (λ _. self.new) result (of_class self.old (with_method self.old.class flags name.now desc.now code)) }
        ensures err { OnErr result (self.new ≡ self.old) }
    {
        if self.methods.len() >= MOST_ROWS {
            return too_many(self.alloc, "methods");
        }
        if has_many_handlers(&code) {
            return too_many(self.alloc, "handlers");
        }
        let added = enter_name(&self.entries, Vec::new(self.alloc), name)?;
        let added = enter_name(&self.entries, added, desc)?;
        let added = enter_code(&self.entries, added, &code)?;
        let method = MethodDecl {
            flags,
            name: name.copy()?,
            desc: desc.copy()?,
            code,
        };
        put_member(&mut self.entries, added, &mut self.methods, method)?;
        Ok(())
    }

    /// Whether it is an interface.
    pub fn is_interface(&self) -> bool
        ensures { result ≡ is_interface self.now.class.flags }
    {
        is_interface(self.flags)
    }

    /// Whether a field of this name and descriptor is there.
    pub fn has_field(&self, name: &Name, desc: &Name) -> bool
        ensures { result ≡ is_member_among (record { name = name.now; desc = desc.now }) (map field_key self.now.class.fields) }
    {
        self.fields.has(name, desc)
    }

    /// Whether a method of this name and descriptor is there.
    pub fn has_method(&self, name: &Name, desc: &Name) -> bool
        ensures { result ≡ is_member_among (record { name = name.now; desc = desc.now }) (map method_key self.now.class.methods) }
    {
        self.methods.has(name, desc)
    }

    /// The class, with its members in the order in which they were added. It can be written.
    pub fn finish(self) -> Result<ClassDecl, WriteFault>
        ensures same { IfOk result (λ c. c ≡ self.class) }
        // Some file declares it.
        ensures declared { IfOk result (λ c. (bytes : List ℕ) × IsClass bytes c) }
        // No other error comes.
        ensures memory { IsOkUnless result WriteFault.NoMemory }
    {
        let ClassBuilder {
            major,
            flags,
            name,
            super_name,
            interfaces,
            fields,
            methods,
            nests,
            entries,
            ..
        } = self;
        Ok(ClassDecl::from_parts(
            (major, 0),
            flags,
            name,
            super_name,
            Items::from_vec(interfaces),
            Items::from_vec(fields.into_vec()),
            Items::from_vec(methods.into_vec()),
            nests,
            Pool::from_entries(entries.into_vec()),
        ))
    }
}

fn copied(name: Option<&Name>) -> Result<Option<Name>, WriteFault>
    ensures same { IfOk result (λ it. it ≡ option_copied name.entry) }
    ensures memory { IsOkUnless result WriteFault.NoMemory }
{
    match name {
        Some(name) => Ok(Some(name.copy()?)),
        None => Ok(None),
    }
}

fn appended(first: Entries, added: Vec<Entry>) -> Result<Entries, WriteFault>
    requires { length (first ++ added.items) < 65536 }
    ensures items { IfOk result (λ all. all ≡ first ++ added.items) }
    ensures memory { IsOkUnless result WriteFault.NoMemory }
{
    let mut all = first;
    all.append(added)?;
    Ok(all)
}

/// Puts entries behind a pool, and a row behind its table. Without memory both stay as they are.
fn put<T: Drop>(
    entries: &mut Entries,
    added: Vec<Entry>,
    rows: &mut Vec<T>,
    row: T,
) -> Result<(), WriteFault>
    requires { length (entries.old ++ added.items) < 65536 }
    ensures entries { OnOk result (entries.new ≡ entries.old ++ added.items) }
    ensures rows { OnOk result (rows.new.items ≡ rows.old.items ++ row ∷ []) }
    ensures same_entries { OnErr result (entries.new ≡ entries.old) }
    ensures same_rows { OnErr result (rows.new.items ≡ rows.old.items) }
    ensures memory { IsOkUnless result WriteFault.NoMemory }
{
    rows.push(row)?;
    match entries.append(added) {
        Ok(()) => Ok(()),
        Err(fault) => {
            rows.pop();
            Err(fault)
        }
    }
}

/// Puts entries behind a pool, and a member behind its table. Without memory both stay as they are.
fn put_member<T: Member + Drop>(
    entries: &mut Entries,
    added: Vec<Entry>,
    members: &mut MemberTable<T>,
    member: T,
) -> Result<(), WriteFault>
    requires room { length (entries.old ++ added.items) < 65536 }
    requires fresh { is_member_among (T.key member) (map T.key members.old) ≡ false }
    ensures entries { OnOk result (entries.new ≡ entries.old ++ added.items) }
    ensures members { OnOk result (members.new ≡ members.old ++ member ∷ []) }
    ensures same_entries { OnErr result (entries.new ≡ entries.old) }
    ensures same_members { OnErr result (members.new ≡ members.old) }
    ensures memory { IsOkUnless result WriteFault.NoMemory }
{
    let known = members.len();
    members.push(member)?;
    match entries.append(added) {
        Ok(()) => Ok(()),
        Err(fault) => {
            members.truncate(known);
            Err(fault)
        }
    }
}
