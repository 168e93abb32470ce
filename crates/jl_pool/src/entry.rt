//! Entries of a pool.

ghost use Rattle.std.specs.Prelude.{◌≡◌};
ghost use Rattle.jl_names.specs.Text.{plain};
ghost use Rattle.jl_pool.specs.Pool.{entry_tag};

use jl_names::Units;
use jl_prim::Name;
use std::marker::Model;

/// A text of a pool, which contracts see as the list of its units. It has its UTF-8 form at hand.
#[derive(Debug, Drop)]
pub struct Text {
    units: Units,
    name: Name,
}

impl Model for Text {
    ghost use Rattle.std.specs.Prelude.{◌≡◌, ℕ, List};
    ghost use Rattle.jl_names.specs.Text.{plain};

    ghost Value = { List ℕ };

    ghost view = { λ text. text.units };

    ghost invariant = { λ text. text.name ≡ plain text.units };
}

impl Text {
    /// A text of these units, of which the name is the UTF-8 form.
    pub fn new(units: Units, name: Name) -> Text
        requires { name ≡ plain units }
        ensures { result ≡ units }
    {
        Text { units, name }
    }

    /// The units.
    pub fn units(&self) -> &Units
        ensures { result.now ≡ self.now }
    {
        &self.units
    }

    /// The text as UTF-8, where a surrogate that stands alone is `?`.
    pub fn name(&self) -> &Name
        ensures { result.now ≡ plain self.now }
    {
        &self.name
    }
}

/// An entry of a constant pool (JVMS 4.4). Indices are those of other entries.
#[derive(Debug, Drop)]
pub enum Entry {
    /// Index 0, and the second index of a Long or a Double.
    Unused,
    Utf8(Text),
    /// The bits of an int.
    Integer(u32),
    /// The bits of a float.
    Float(u32),
    /// The bits of a long.
    Long(u64),
    /// The bits of a double.
    Double(u64),
    /// A class, by the index of its name.
    Class(u16),
    /// A string, by the index of its text.
    String(u16),
    /// A field, by the indices of its class and of its name and type.
    Field(u16, u16),
    /// A method of a class, likewise.
    Method(u16, u16),
    /// A method of an interface, likewise.
    InterfaceMethod(u16, u16),
    /// A name and a descriptor, by the indices of their texts.
    NameAndType(u16, u16),
    /// A method handle: its kind, and the index of a member.
    MethodHandle(u8, u16),
    /// A method type, by the index of its descriptor.
    MethodType(u16),
    /// A computed constant: the number of its bootstrap method, and the index of a name and type.
    Dynamic(u16, u16),
    /// A computed call site, likewise.
    InvokeDynamic(u16, u16),
    /// A module, by the index of its name.
    Module(u16),
    /// A package, by the index of its name.
    Package(u16),
}

impl Entry {
    /// The tag with which an entry begins. None where no entry stands.
    pub fn tag(&self) -> Option<u8>
        ensures { result ≡ entry_tag self.now }
    {
        Some(match self {
            Entry::Unused => return None,
            Entry::Utf8(_) => 1,
            Entry::Integer(_) => 3,
            Entry::Float(_) => 4,
            Entry::Long(_) => 5,
            Entry::Double(_) => 6,
            Entry::Class(_) => 7,
            Entry::String(_) => 8,
            Entry::Field(_, _) => 9,
            Entry::Method(_, _) => 10,
            Entry::InterfaceMethod(_, _) => 11,
            Entry::NameAndType(_, _) => 12,
            Entry::MethodHandle(_, _) => 15,
            Entry::MethodType(_) => 16,
            Entry::Dynamic(_, _) => 17,
            Entry::InvokeDynamic(_, _) => 18,
            Entry::Module(_) => 19,
            Entry::Package(_) => 20,
        })
    }
}
