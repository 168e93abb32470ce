//! The calls that add to a class, by the bytes of names.

ghost use Rattle.std.specs.Prelude.{◌≡◌, ◌⊎◌, false, is_some, map, IfOk, OnErr, IsOkUnless, IsTrue, IsUtf8};
ghost use Rattle.jl_logic.specs.Answers.{Gives};
ghost use Rattle.jl_names.specs.Names.{names_a_class, names_a_field};
ghost use Rattle.jl_pool.specs.Builder.{IsShort};
ghost use Rattle.jl_class.specs.Meaning.{field_key, method_key, is_member_among, are_class_flags, are_field_flags, are_method_flags, is_interface, may_extend, names_method_with, describes_a_field, describes_method_with, has_code};
ghost use Rattle.jl_classfile.specs.Front.{is_version};
ghost use Rattle.jl_classw.specs.Faults.{told};
ghost use Rattle.jl_classw.specs.Built.{IsSuper, MayHave, IsSmall};
ghost use Rattle.jl_classw.specs.Building.{unless_empty, new_class, of_class, with_interface, with_field, with_method};

use super::ClassBuilder;
use crate::entry::Constant;
use crate::fault::WriteFault;
use jl_class::CodeBytes;
use jl_prim::Name;
use std::alloc::Global;

impl ClassBuilder {
    /// A class with no members, by its major version, its flags, its name in internal form and its
    /// superclass, empty for none (JVMS 4.1). `are_class_flags`, `is_class_name`, `is_short`,
    /// `is_superclass` and `may_extend` test the conditions, beside that names are texts.
    ///
    /// Only memory can be wanting: so few entries fit a pool.
    pub fn new(
        alloc: Global,
        major: u16,
        flags: u16,
        this: &[u8],
        super_name: &[u8],
    ) -> Result<ClassBuilder, WriteFault>
        requires utf8 { IsUtf8 this.now × IsUtf8 super_name.now }
        requires version { IsTrue (is_version major 0) }
        requires flags { IsTrue (are_class_flags flags) }
        requires name { IsTrue (names_a_class this.now) }
        requires short { IsShort this.now }
        requires superclass { IsSuper (unless_empty super_name.now) }
        requires extends { IsTrue (may_extend flags this.now (unless_empty super_name.now)) }
        ensures { Gives told (λ b. b) result (new_class major flags this.now (unless_empty super_name.now)) }
    {
        let this = name_of(alloc, this)?;
        match super_name {
            [] => ClassBuilder::begun(alloc, major, flags, &this, None),
            [_, ..] => {
                let super_name = name_of(alloc, super_name)?;
                ClassBuilder::begun(alloc, major, flags, &this, Some(&super_name))
            }
        }
    }

    /// Names one more interface (JVMS 4.1). `is_class_name` and `is_short` test the conditions.
    ///
    /// `TooMany` comes where the class has 65,535 interfaces already, with `interfaces`, or else where the
    /// pool has no room for what is new, with `pool`. On any error the class is as it was.
    pub fn interface(&mut self, name: &[u8]) -> Result<(), WriteFault>
        requires utf8 { IsUtf8 name.now }
        requires name { IsTrue (names_a_class name.now) }
        requires short { IsShort name.now }
        ensures exact { Gives told (λ _. self.new) result (of_class self.old (with_interface self.old.class name.now)) }
        ensures err { OnErr result (self.new ≡ self.old) }
    {
        let name = name_of(self.alloc, name)?;
        self.interface_named(&name)
    }

    /// Adds a field (JVMS 4.5), with the value that it is set to, if any (JVMS 4.7.2). `are_field_flags`,
    /// `is_field_name`, `describes_a_field`, `is_short`, `has_field` and `may_have` test the conditions.
    ///
    /// `TooMany` comes where the class has 65,535 fields already, with `fields`, or else where the pool has
    /// no room for what is new, with `pool`. On any error the class is as it was.
    pub fn field(
        &mut self,
        flags: u16,
        name: &[u8],
        desc: &[u8],
        constant: Option<Constant>,
    ) -> Result<(), WriteFault>
        requires utf8 { IsUtf8 name.now × IsUtf8 desc.now }
        requires flags { IsTrue (are_field_flags (is_interface self.old.class.flags) flags) }
        requires name { IsTrue (names_a_field name.now) }
        requires desc { IsTrue (describes_a_field desc.now) }
        requires short { IsShort name.now × IsShort desc.now }
        requires fresh { is_member_among (record { name = name.now; desc = desc.now }) (map field_key self.old.class.fields) ≡ false }
        requires constant { MayHave flags desc.now constant }
        ensures exact { Gives told (λ _. self.new) result (of_class self.old (with_field self.old.class flags name.now desc.now constant)) }
        ensures err { OnErr result (self.new ≡ self.old) }
    {
        let name = name_of(self.alloc, name)?;
        let desc = name_of(self.alloc, desc)?;
        self.field_named(flags, &name, &desc, constant)
    }

    /// Adds a method (JVMS 4.6), with code exactly where it is neither native nor abstract.
    /// `are_method_flags`, `names_method`, `describes_method`, `is_short`, `has_method`, `has_code` and
    /// `is_small` test the conditions.
    ///
    /// `TooMany` comes where the class has 65,535 methods already, with `methods`, or else where the code has
    /// more than 65,535 handlers, with `handlers`, or else where the pool has no room for what is new, with
    /// `pool`. On any error the class is as it was.
    pub fn method(
        &mut self,
        flags: u16,
        name: &[u8],
        desc: &[u8],
        code: Option<CodeBytes>,
    ) -> Result<(), WriteFault>
        requires utf8 { IsUtf8 name.now × IsUtf8 desc.now }
        requires flags { IsTrue (are_method_flags flags) }
        requires name { IsTrue (names_method_with flags name.now) }
        requires desc { IsTrue (describes_method_with name.now desc.now) }
        requires short { IsShort name.now × IsShort desc.now }
        requires fresh { is_member_among (record { name = name.now; desc = desc.now }) (map method_key self.old.class.methods) ≡ false }
        requires has { is_some code ≡ has_code flags }
        requires small { IsSmall code }
        ensures exact { Gives told (λ _. self.new) result (of_class self.old (with_method self.old.class flags name.now desc.now code)) }
        ensures err { OnErr result (self.new ≡ self.old) }
    {
        let name = name_of(self.alloc, name)?;
        let desc = name_of(self.alloc, desc)?;
        self.method_named(flags, &name, &desc, code)
    }
}

/// The name of these bytes, which are a text.
fn name_of(alloc: Global, bytes: &[u8]) -> Result<Name, WriteFault>
    requires { IsUtf8 bytes.now }
    ensures name { IfOk result (λ name. name ≡ bytes.now) }
    ensures memory { IsOkUnless result WriteFault.NoMemory }
{
    match str::from_utf8(bytes) {
        Ok(text) => Ok(Name::from_text(alloc, text)?),
        Err(_) => unreachable!(),
    }
}
