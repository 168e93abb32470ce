//! The attributes that a class is given (JVMS 4.7).

ghost use Rattle.std.specs.Prelude.{◌≡◌, ◌<◌, ◌++◌, length, Ok, Some, IfOk, IsTrue, OnErr, is_ok};
ghost use Rattle.jl_logic.specs.Answers.{Gives};
ghost use Rattle.jl_optable.specs.declared.attributes.AttrForm.TheVariants as forms;
ghost use Rattle.jl_optable.specs.declared.attributes.Site.TheVariants as sites;
ghost use Rattle.jl_optable.specs.Attributes.{attribute_form, name_of};
ghost use Rattle.jl_class.specs.Spelling.{names_form};
ghost use Rattle.jl_classw.specs.Faults.{told};
ghost use Rattle.jl_classw.specs.Building as building;
ghost use Rattle.jl_classw.specs.Building.{attribute_entered, of_class, has_no_nest, may_be_given, may_have_form, declaring, with_name, with_form, with_read, with_attribute};

use super::{ClassBuilder, MOST_ROWS};
use crate::contents::{classes_of, host_of, is_right, right};
use crate::entries::Entries;
use crate::fault::{WriteFault, too_many};
use crate::needs::enter_name;
use jl_class::is_final;
use jl_optable::{AttrForm, Site, attr_table};
use jl_pool::Entry;
use jl_prim::Name;
use std::alloc::Global;

impl ClassBuilder {
    /// Gives the class an attribute (JVMS 4.7), by its name and its content, whose indices are those of the
    /// pool so far. NestHost, NestMembers, Record and PermittedSubclasses are part of the class from the
    /// versions on in which they are read. All others are none: the class stays as it is, and only their
    /// count is kept. Of a Record nothing but its name is kept. `may_have_attribute` tests the condition.
    ///
    /// `TooMany` comes where the class was given 65,535 attributes already, with `attributes`, or else where
    /// the pool has no room for the name, with `pool`. On any error the class is as it was.
    #[tactic(auto, unfolding(crate::specs::Building::with_attribute))]
    pub fn attribute(&mut self, name: &[u8], content: &[u8]) -> Result<(), WriteFault>
        requires right { IsTrue (may_be_given self.old.class name.now content.now) }
        ensures exact { Gives told (λ _. self.new) result (with_attribute self.old name.now content.now) }
        ensures err { OnErr result (self.new ≡ self.old) }
    {
        if self.attributes >= MOST_ROWS {
            return too_many(self.alloc, "attributes");
        }
        self.attribute_named(name, content)?;
        self.attributes += 1;
        Ok(())
    }

    /// Adds an attribute where it is read in a class of this version.
    fn attribute_named(&mut self, name: &[u8], content: &[u8]) -> Result<(), WriteFault>
        requires right { IsTrue (may_be_given self.old.class name.now content.now) }
        ensures exact { Gives told (λ _. self.new) result (of_class self.old (with_read self.old.class content.now (attribute_form sites.Class self.old.class.major name.now))) }
        ensures err { OnErr result (self.new ≡ self.old) }
    {
        match attr_table().row(name, Site::Class, self.major) {
            Some(form) => self.attribute_of(form, content),
            None => Ok(()),
        }
    }

    /// Whether the class may be given an attribute: one that is not read in a class of its version, or one
    /// whose content is right (JVMS 4.7.28 to 4.7.31). A class declares the host or the members of its nest,
    /// once, and its permitted subclasses once and only where it is not final.
    ///
    /// Only memory can be wanting.
    pub fn may_have_attribute(&self, name: &[u8], content: &[u8]) -> Result<bool, WriteFault>
        ensures { Gives told (λ b. b) result (Ok (may_be_given self.now.class name.now content.now)) }
    {
        match attr_table().row(name, Site::Class, self.major) {
            Some(form) => self.may_have_form(form, content),
            None => Ok(true),
        }
    }

    fn may_have_form(&self, form: AttrForm, content: &[u8]) -> Result<bool, WriteFault>
        ensures { Gives told (λ b. b) result (Ok (may_have_form self.now.class content.now (Some form))) }
    {
        let is_right = self.is_right(form, content)?;
        Ok(self.may_declare(form) && is_right)
    }

    fn may_declare(&self, form: AttrForm) -> bool
        ensures { result ≡ building.may_declare self.now.class form }
    {
        match form {
            AttrForm::Host | AttrForm::Members => self.has_no_nest(),
            AttrForm::Permits => self.nests.permits.is_none() && !is_final(self.flags),
            _ => true,
        }
    }

    fn has_no_nest(&self) -> bool
        ensures { result ≡ has_no_nest self.now.class }
    {
        self.nests.host.is_none() && self.nests.members.as_slice().is_empty()
    }

    /// Whether a content is that of an attribute of a form.
    fn is_right(&self, form: AttrForm, content: &[u8]) -> Result<bool, WriteFault>
        ensures { Gives told (λ b. b) result (Ok (is_ok (declaring self.now.class form content.now))) }
    {
        match form {
            AttrForm::Host => is_right(host_of(&self.entries, content)),
            AttrForm::Members => is_right(classes_of(self.alloc, &self.entries, content)),
            AttrForm::Permits => is_right(classes_of(self.alloc, &self.entries, content)),
            _ => Ok(true),
        }
    }

    /// Adds an attribute of a form that is read.
    #[tactic(auto, unfolding(crate::specs::Building::with_form))]
    fn attribute_of(&mut self, form: AttrForm, content: &[u8]) -> Result<(), WriteFault>
        requires may { IsTrue (may_have_form self.old.class content.now (Some form)) }
        requires read { IsTrue (names_form self.old.class.major form (name_of form)) }
        ensures exact { Gives told (λ _. self.new) result (of_class self.old (with_form self.old.class form content.now)) }
        ensures err { OnErr result (self.new ≡ self.old) }
    {
        match form {
            AttrForm::Host => self.host(content),
            AttrForm::Members => self.members(content),
            AttrForm::Permits => self.permits(content),
            _ => self.named(form),
        }
    }

    #[tactic(auto, unfolding(crate::specs::Building::with_form))]
    fn host(&mut self, content: &[u8]) -> Result<(), WriteFault>
        requires may { IsTrue (may_have_form self.old.class content.now (Some forms.Host)) }
        requires read { IsTrue (names_form self.old.class.major forms.Host (name_of forms.Host)) }
        ensures exact { Gives told (λ _. self.new) result (of_class self.old (with_form self.old.class forms.Host content.now)) }
        ensures err { OnErr result (self.new ≡ self.old) }
    {
        let added = enter_form(self.alloc, &self.entries, AttrForm::Host)?;
        let host = right(host_of(&self.entries, content))?;
        self.entries.append(added)?;
        self.nests.host = Some(host);
        Ok(())
    }

    #[tactic(auto, unfolding(crate::specs::Building::with_form))]
    fn members(&mut self, content: &[u8]) -> Result<(), WriteFault>
        requires may { IsTrue (may_have_form self.old.class content.now (Some forms.Members)) }
        requires read { IsTrue (names_form self.old.class.major forms.Members (name_of forms.Members)) }
        ensures exact { Gives told (λ _. self.new) result (of_class self.old (with_form self.old.class forms.Members content.now)) }
        ensures err { OnErr result (self.new ≡ self.old) }
    {
        let added = enter_form(self.alloc, &self.entries, AttrForm::Members)?;
        let names = right(classes_of(self.alloc, &self.entries, content))?;
        self.entries.append(added)?;
        self.nests.members = names;
        Ok(())
    }

    #[tactic(auto, unfolding(crate::specs::Building::with_form))]
    fn permits(&mut self, content: &[u8]) -> Result<(), WriteFault>
        requires may { IsTrue (may_have_form self.old.class content.now (Some forms.Permits)) }
        requires read { IsTrue (names_form self.old.class.major forms.Permits (name_of forms.Permits)) }
        ensures exact { Gives told (λ _. self.new) result (of_class self.old (with_form self.old.class forms.Permits content.now)) }
        ensures err { OnErr result (self.new ≡ self.old) }
    {
        let added = enter_form(self.alloc, &self.entries, AttrForm::Permits)?;
        let names = right(classes_of(self.alloc, &self.entries, content))?;
        self.entries.append(added)?;
        self.nests.permits = Some(names);
        Ok(())
    }

    /// Enters the name of the attributes of a form.
    fn named(&mut self, form: AttrForm) -> Result<(), WriteFault>
        ensures exact { Gives told (λ _. self.new) result (of_class self.old (with_name self.old.class (name_of form))) }
        ensures err { OnErr result (self.new ≡ self.old) }
    {
        let added = enter_form(self.alloc, &self.entries, form)?;
        self.entries.append(added)?;
        Ok(())
    }
}

/// Enters the name of the attributes of a form behind a pool.
fn enter_form(alloc: Global, pool: &Entries, form: AttrForm) -> Result<Vec<Entry>, WriteFault>
    requires { length pool.now < 65536 }
    ensures exact { Gives told (λ added. pool.now ++ added.items) result (attribute_entered pool.now (name_of form)) }
    ensures few { IfOk result (λ added. length (pool.now ++ added.items) < 65536) }
{
    let name = Name::from_text(alloc, form.name())?;
    enter_name(pool, Vec::new(alloc), &name)
}
