//! Classes and interfaces.

ghost use Rattle.std.specs.Prelude.{◌≡◌, ◌&&◌, ℕ, List, map, position};
ghost use Rattle.std.specs.List.{AllByRecursion};
ghost use Rattle.jl_logic.specs.Lists.{AreDistinct};
ghost use Rattle.jl_class.specs.Meaning.{is_interface, field_key, method_key};
ghost use Rattle.jl_class.specs.Spelling.{IsClass, IsRightField, IsRightMethod};
ghost use Rattle.std.specs.Option.{option_copied};
ghost use Rattle.jl_logic.specs.Order.{is_text};
ghost use Rattle.jl_class.specs.declared.member.FieldDecl.{FieldDecl};
ghost use Rattle.jl_class.specs.declared.member.MethodDecl.{MethodDecl};

use crate::member::{FieldDecl, MethodDecl};
use crate::nests::Nests;
use jl_pool::Pool;
use jl_prim::{Items, Name};
use std::marker::Model;

/// A class or an interface as a class file declares it (JVMS 4.1). Class names are in internal form, with
/// `/`.
#[derive(Debug, Drop)]
pub struct ClassDecl {
    major: u16,
    minor: u16,
    flags: u16,
    name: Name,
    super_name: Option<Name>,
    interfaces: Items<Name>,
    fields: Items<FieldDecl>,
    methods: Items<MethodDecl>,
    nest_host: Option<Name>,
    nest_members: Items<Name>,
    permits: Option<Items<Name>>,
    pool: Pool,
}

impl Model for ClassDecl {
    ghost use Rattle.std.specs.Prelude.{ℕ, List};
    ghost use Rattle.jl_class.specs.Classes.{Class};
    ghost use Rattle.jl_class.specs.Spelling.{IsClass};

    ghost Value = { Class };

    ghost view = { λ c. record { major = c.major; minor = c.minor; flags = c.flags; name = c.name; super_name = c.super_name; interfaces = c.interfaces; fields = c.fields; methods = c.methods; nest_host = c.nest_host; nest_members = c.nest_members; permits = c.permits; pool = c.pool } };

    // Some class file declares it.
    ghost invariant = { λ c. (bytes : List ℕ) × IsClass bytes (record { major = c.major; minor = c.minor; flags = c.flags; name = c.name; super_name = c.super_name; interfaces = c.interfaces; fields = c.fields; methods = c.methods; nest_host = c.nest_host; nest_members = c.nest_members; permits = c.permits; pool = c.pool }) };
}

impl ClassDecl {
    /// A class of these parts, which some class file declares.
    pub fn from_parts(
        version: (u16, u16),
        flags: u16,
        name: Name,
        super_name: Option<Name>,
        interfaces: Items<Name>,
        fields: Items<FieldDecl>,
        methods: Items<MethodDecl>,
        nests: Nests,
        pool: Pool,
    ) -> ClassDecl
        requires { (bytes : List ℕ) × IsClass bytes (record { major = version.0; minor = version.1; flags = flags; name = name; super_name = super_name; interfaces = interfaces; fields = fields; methods = methods; nest_host = nests.host; nest_members = nests.members; permits = nests.permits; pool = pool }) }
        ensures { result ≡ record { major = version.0; minor = version.1; flags = flags; name = name; super_name = super_name; interfaces = interfaces; fields = fields; methods = methods; nest_host = nests.host; nest_members = nests.members; permits = nests.permits; pool = pool } }
    {
        let (major, minor) = version;
        let Nests {
            host,
            members,
            permits,
        } = nests;
        ClassDecl {
            major,
            minor,
            flags,
            name,
            super_name,
            interfaces,
            fields,
            methods,
            nest_host: host,
            nest_members: members,
            permits,
            pool,
        }
    }

    /// The major and the minor version of the file.
    pub fn version(&self) -> (u16, u16)
        ensures { result ≡ record { 0 = self.now.major; 1 = self.now.minor } }
    {
        (self.major, self.minor)
    }

    /// The access and property flags.
    pub fn flags(&self) -> u16
        ensures { result ≡ self.now.flags }
    {
        self.flags
    }

    /// The name of the class.
    pub fn name(&self) -> &Name
        ensures { result.now ≡ self.now.name }
    {
        &self.name
    }

    /// The name of the superclass. Only `java/lang/Object` has none.
    pub fn super_name(&self) -> Option<&Name>
        ensures { option_copied result ≡ self.now.super_name }
    {
        self.super_name.as_ref()
    }

    /// The names of the interfaces that it names, in order.
    pub fn interfaces(&self) -> &[Name]
        ensures { result.now ≡ self.now.interfaces }
    {
        self.interfaces.as_slice()
    }

    /// The fields, in order.
    pub fn fields(&self) -> &[FieldDecl]
        ensures fields { result.now ≡ self.now.fields }
        // Each is right in itself, and no two have one name and descriptor.
        ensures right { AllByRecursion (IsRightField (is_interface self.now.flags) self.now.pool) self.now.fields }
        ensures apart { AreDistinct (map field_key self.now.fields) }
    {
        self.fields.as_slice()
    }

    /// The methods, in order.
    pub fn methods(&self) -> &[MethodDecl]
        ensures methods { result.now ≡ self.now.methods }
        // Each is right in itself, and no two have one name and descriptor.
        ensures right { AllByRecursion IsRightMethod self.now.methods }
        ensures apart { AreDistinct (map method_key self.now.methods) }
    {
        self.methods.as_slice()
    }

    /// The name of the host of its nest, where the file names one (JVMS 4.7.28).
    pub fn nest_host(&self) -> Option<&Name>
        ensures { option_copied result ≡ self.now.nest_host }
    {
        self.nest_host.as_ref()
    }

    /// The names of the members of its nest that it lists (JVMS 4.7.29).
    pub fn nest_members(&self) -> &[Name]
        ensures { result.now ≡ self.now.nest_members }
    {
        self.nest_members.as_slice()
    }

    /// The names of the classes that may extend it, where the file lists them (JVMS 4.7.31).
    pub fn permits(&self) -> Option<&Items<Name>>
        ensures { option_copied result ≡ self.now.permits }
    {
        self.permits.as_ref()
    }

    /// The constant pool.
    pub fn pool(&self) -> &Pool
        ensures pool { result.now ≡ self.now.pool }
        // Some class file declares the class.
        ensures declared { (bytes : List ℕ) × IsClass bytes self.now }
    {
        &self.pool
    }

    /// The place, from 0, of the field with a name and a descriptor.
    pub fn field(&self, name: &[u8], desc: &[u8]) -> Option<usize>
        ensures { result ≡ position (λ (f : FieldDecl). is_text f.name name.now && is_text f.desc desc.now) self.now.fields }
    {
        self.fields
            .as_slice()
            .iter()
            .position(|f| f.name.as_bytes() == name && f.desc.as_bytes() == desc)
    }

    /// The place, from 0, of the method with a name and a descriptor.
    pub fn method(&self, name: &[u8], desc: &[u8]) -> Option<usize>
        ensures { result ≡ position (λ (m : MethodDecl). is_text m.name name.now && is_text m.desc desc.now) self.now.methods }
    {
        self.methods
            .as_slice()
            .iter()
            .position(|m| m.name.as_bytes() == name && m.desc.as_bytes() == desc)
    }
}
