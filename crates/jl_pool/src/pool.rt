//! Pools and what stands at an index.

ghost use Rattle.std.specs.Prelude.{◌≡◌};
ghost use Rattle.std.specs.Option.{option_copied};
ghost use Rattle.jl_pool.specs.Pool as words;
ghost use Rattle.jl_pool.specs.Pool.{tag_of, utf8_of, text_of, class_of, module_of, package_of, string_of, name_and_type_of, member_of, integer_of, long_of};

use crate::entry::Entry;
use jl_names::{Units, is_class_name, is_paired};
use jl_prim::Name;
use std::marker::Model;

/// A constant pool, which contracts see as the list of its entries. Index 0 is the first, and unused.
#[derive(Debug, Drop)]
pub struct Pool {
    entries: Vec<Entry>,
}

impl Model for Pool {
    ghost use Rattle.std.specs.Prelude.{List};
    ghost use Rattle.jl_pool.specs.declared.entry.Entry.{Entry};

    ghost Value = { List Entry };

    ghost view = { λ pool. pool.entries.items };
}

impl Pool {
    /// A pool of these entries.
    pub fn from_entries(entries: Vec<Entry>) -> Pool
        ensures { result ≡ entries.items }
    {
        Pool { entries }
    }

    /// The entries in order, the unused one of index 0 first.
    pub fn entries(&self) -> &[Entry]
        ensures { result.now ≡ self.now }
    {
        self.entries.as_slice()
    }

    /// The tag of the entry at an index (JVMS 4.4, table 4.4-A).
    pub fn tag(&self, i: u16) -> Option<u8>
        ensures { result ≡ tag_of self.now i }
    {
        match self.entries.get(i as usize) {
            Some(entry) => entry.tag(),
            None => None,
        }
    }

    /// The units of the Utf8 entry at an index.
    pub fn utf8(&self, i: u16) -> Option<&Units>
        ensures { option_copied result ≡ utf8_of self.now i }
    {
        match self.entries.get(i as usize) {
            Some(Entry::Utf8(text)) => Some(text.units()),
            _ => None,
        }
    }

    /// The UTF-8 form of the Utf8 entry at an index.
    pub fn text(&self, i: u16) -> Option<&Name>
        ensures { option_copied result ≡ text_of self.now i }
    {
        match self.entries.get(i as usize) {
            Some(Entry::Utf8(text)) => Some(text.name()),
            _ => None,
        }
    }

    /// The text of the Utf8 entry at an index, where no surrogate stands alone.
    pub fn paired_text(&self, i: u16) -> Option<&Name>
        ensures { option_copied result ≡ words.paired_text self.now i }
    {
        let units = self.utf8(i)?;
        let text = self.text(i)?;
        if is_paired(units.as_slice()) {
            Some(text)
        } else {
            None
        }
    }

    /// The name of the Class entry at an index, where it is the name of a class.
    pub fn class_name(&self, i: u16) -> Option<&Name>
        ensures { option_copied result ≡ words.class_named self.now i }
    {
        let text = self.paired_text(self.class(i)?)?;
        if is_class_name(text.as_bytes()) {
            Some(text)
        } else {
            None
        }
    }

    /// The index of the name of the Class entry at an index.
    pub fn class(&self, i: u16) -> Option<u16>
        ensures { result ≡ class_of self.now i }
    {
        match self.entries.get(i as usize) {
            Some(Entry::Class(name)) => Some(*name),
            _ => None,
        }
    }

    /// The index of the name of the Module entry at an index.
    pub fn module(&self, i: u16) -> Option<u16>
        ensures { result ≡ module_of self.now i }
    {
        match self.entries.get(i as usize) {
            Some(Entry::Module(name)) => Some(*name),
            _ => None,
        }
    }

    /// The index of the name of the Package entry at an index.
    pub fn package(&self, i: u16) -> Option<u16>
        ensures { result ≡ package_of self.now i }
    {
        match self.entries.get(i as usize) {
            Some(Entry::Package(name)) => Some(*name),
            _ => None,
        }
    }

    /// The index of the text of the String entry at an index.
    pub fn string(&self, i: u16) -> Option<u16>
        ensures { result ≡ string_of self.now i }
    {
        match self.entries.get(i as usize) {
            Some(Entry::String(text)) => Some(*text),
            _ => None,
        }
    }

    /// The indices of the name and the descriptor of the NameAndType entry at an index.
    pub fn name_and_type(&self, i: u16) -> Option<(u16, u16)>
        ensures { result ≡ name_and_type_of self.now i }
    {
        match self.entries.get(i as usize) {
            Some(Entry::NameAndType(name, desc)) => Some((*name, *desc)),
            _ => None,
        }
    }

    /// The tag, the index of the class, and the index of the name and type of the member at an index.
    pub fn member(&self, i: u16) -> Option<(u8, u16, u16)>
        ensures { result ≡ member_of self.now i }
    {
        match self.entries.get(i as usize) {
            Some(Entry::Field(class, name)) => Some((9, *class, *name)),
            Some(Entry::Method(class, name)) => Some((10, *class, *name)),
            Some(Entry::InterfaceMethod(class, name)) => Some((11, *class, *name)),
            _ => None,
        }
    }

    /// The value of the Integer entry at an index.
    pub fn integer(&self, i: u16) -> Option<i32>
        ensures { result ≡ integer_of self.now i }
    {
        match self.entries.get(i as usize) {
            Some(Entry::Integer(bits)) => Some(bits.cast_signed()),
            _ => None,
        }
    }

    /// The value of the Long entry at an index.
    pub fn long(&self, i: u16) -> Option<i64>
        ensures { result ≡ long_of self.now i }
    {
        match self.entries.get(i as usize) {
            Some(Entry::Long(bits)) => Some(bits.cast_signed()),
            _ => None,
        }
    }
}
