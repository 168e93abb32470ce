//! The loaders of all layers.

ghost use Rattle.std.specs.Prelude.{◌≡◌, ◌+◌, ◌<◌, ◌≤◌, [], length, None, Some, OnOk, OnErr, IfOk, IfErr, IfSome, if◌then◌else◌};
ghost use Rattle.std.specs.Str.{IsUtf8};
ghost use Rattle.jl_loaders.specs.Constraints.{IsViolated, with_constraint};
ghost use Rattle.jl_loaders.specs.Joins.{AreJoins, IsGroupLead, IsJudged, IsMarkedLead};
ghost use Rattle.jl_loaders.specs.Laws.{AreSound, ParentsBelow};
ghost use Rattle.jl_loaders.specs.Loaders.{IsAsBefore, IsLoader, IsMap, ParentExists, Places, numbered};
ghost use Rattle.jl_loaders.specs.Loaders as leads;
ghost use Rattle.jl_loaders.specs.Refusals.{IsRefusal};

use crate::constraint::Constraint;
use crate::fault::{ConstraintFault, LoadersEnd};
use crate::joins::joins_of;
use crate::parts::LoaderParts;
use jl_closure::closure;
use jl_names::package_of;
use jl_prim::{CopyEnd, Items, LoaderId, ModuleId, Name, ParentLoader};
use std::alloc::{AllocError, Global};
use std::marker::Model;

/// The loaders, and the constraints on them. Contracts also see for how many more loaders there is room.
#[derive(Drop)]
pub struct Loaders {
    loaders: Vec<LoaderParts>,
    base: Option<ModuleId>,
    constraints: Vec<Constraint>,
    spare: usize,
}

impl Model for Loaders {
    ghost use Rattle.std.specs.Prelude.{◌+◌, ◌≤◌, vec_len, vec_capacity};
    ghost use Rattle.jl_loaders.specs.Loaders.{State};
    ghost use Rattle.jl_loaders.specs.Laws.{AreSound};

    ghost Value = { State };

    ghost view = { λ l. record { loaders = l.loaders.items; base = l.base; constraints = l.constraints.items; spare = l.spare } };

    ghost invariant = { λ l. AreSound (record { loaders = l.loaders.items; base = l.base; constraints = l.constraints.items; spare = l.spare }) × (vec_len l.loaders + l.spare ≤ vec_capacity l.loaders) × (vec_len l.loaders ≤ 4294967295) };
}

impl Loaders {
    /// No loader and no constraint.
    pub fn new(alloc: Global) -> Loaders
        ensures { result ≡ record { loaders = []; base = None; constraints = []; spare = 0 } }
    {
        Loaders {
            loaders: Vec::new(alloc),
            base: None,
            constraints: Vec::new(alloc),
            spare: 0,
        }
    }

    /// How many loaders there are.
    pub fn count(&self) -> usize
        ensures { result ≡ length self.now.loaders }
    {
        self.loaders.len()
    }

    /// Makes room for so many more loaders.
    pub fn room(&mut self, n: usize) -> Result<(), LoadersEnd>
        ensures same { IsAsBefore self.old self.new }
        ensures spare { OnOk result (n ≤ self.new.spare) }
        ensures kept { self.old.spare ≤ self.new.spare }
    {
        self.loaders.reserve(n)?;
        self.spare = self.spare.max(n);
        Ok(())
    }

    /// Adds a loader, which has the next number, from 1 on.
    pub fn place(&mut self, parts: LoaderParts) -> LoaderId
        requires room { 0 < self.old.spare }
        requires parent { ParentExists self.old parts.parent }
        requires numbers { length self.old.loaders < 4294967295 }
        ensures number { result ≡ record { 0 = length self.old.loaders + 1 } }
        ensures places { Places parts self.old self.new }
    {
        self.spare -= 1;
        self.loaders.push_reserved(parts);
        LoaderId(self.loaders.len() as u32)
    }

    /// Says which module `java.base` is, before there is a loader. A null parent leads to it, for the packages that
    /// loader 1 has for it.
    pub fn set_base(&mut self, m: ModuleId)
        requires once { self.old.base ≡ None }
        requires early { self.old.loaders ≡ [] }
        ensures { self.new ≡ record { loaders = self.old.loaders; base = Some m; constraints = self.old.constraints; spare = self.old.spare } }
    {
        self.base = Some(m);
    }

    /// The module to which a loader leads for the name of a class, if it leads anywhere (JVMS 5.3).
    pub fn lead(&self, l: LoaderId, class_name: &[u8]) -> Option<ModuleId>
        requires { IsLoader self.now l }
        ensures { result ≡ leads.lead self.now l class_name.now }
    {
        let package = package_of(class_name);
        let mut parent = ParentLoader::Loader(l);
        while let ParentLoader::Loader(loader) = parent {
            let parts = self.numbered(loader);
            if let Some(m) = parts.module_for(package) {
                return Some(m);
            }
            parent = parts.parent();
        }
        self.base_lead(package)
    }

    /// Each package that a loader has, with the module that it has for it, in the order of the bytes of the packages.
    pub fn map_of(&self, l: LoaderId) -> &[(Name, ModuleId)]
        requires { IsLoader self.now l }
        ensures { IfSome (numbered self.now.loaders l.0) (λ parts. IsMap parts result.now) }
    {
        self.numbered(l).map()
    }

    /// Adds that two loaders must not lead the class of a name to two modules (JVMS 5.3.4). `Clash` comes exactly
    /// where, with this constraint, joined loaders would; nothing changes then, nor without memory.
    pub fn impose(&mut self, name: &[u8], l: LoaderId, l2: LoaderId) -> Result<(), ConstraintFault>
        requires text { IsUtf8 name.now }
        requires one { IsLoader self.old l }
        requires other { IsLoader self.old l2 }
        // The constraint is added, and nothing is violated by it.
        ensures adds { OnOk result (self.new ≡ with_constraint name.now l l2 self.old) }
        ensures stands { OnOk result (IsViolated (with_constraint name.now l l2 self.old) → ⊥) }
        // A clash names the two modules in the order in which the loaders were given.
        ensures refused { IfErr result (IsRefusal self.old name.now l l2) }
        ensures kept { OnErr result (self.new ≡ self.old) }
    {
        let name = self.fitting(name, l, l2)?;
        self.constraints.push(Constraint {
            name,
            one: l,
            other: l2,
        })?;
        Ok(())
    }

    /// The loader with a number.
    fn numbered(&self, l: LoaderId) -> &LoaderParts
        requires { IsLoader self.now l }
        ensures here { numbered self.now.loaders l.0 ≡ Some result.now }
        ensures below { ParentsBelow self.now.loaders }
    {
        &self.loaders[l.0 as usize - 1]
    }

    /// Where a null parent leads for a package.
    fn base_lead(&self, name: &[u8]) -> Option<ModuleId>
        ensures { result ≡ leads.base_lead self.now name.now }
    {
        let base = self.base?;
        let first = self.loaders.first()?;
        let m = first.module_for(name)?;
        if base == m { Some(base) } else { None }
    }

    /// Nothing: the loaders are sound at any time.
    pub(crate) fn stay_sound(&self)
        ensures { AreSound self.now }
    {
        let _ = &self.spare;
    }

    /// The name of a constraint that may be imposed.
    fn fitting(&self, name: &[u8], l: LoaderId, l2: LoaderId) -> Result<Name, ConstraintFault>
        requires text { IsUtf8 name.now }
        requires one { IsLoader self.now l }
        requires other { IsLoader self.now l2 }
        ensures named { IfOk result (λ n. n ≡ name.now) }
        ensures stands { OnOk result (IsViolated (with_constraint name.now l l2 self.now) → ⊥) }
        ensures refused { IfErr result (IsRefusal self.now name.now l l2) }
    {
        let text = name_of(*self.loaders.allocator(), name)?;
        let rows = self.joins(name)?;
        let one = self.led_to(rows.as_slice(), name, l)?;
        let other = self.led_to(rows.as_slice(), name, l2)?;
        self.stay_sound();
        judged(text, one, other)
    }

    /// For each loader the places of those that an entry of the name joins to it.
    fn joins(&self, name: &[u8]) -> Result<Vec<Items<usize>>, AllocError>
        ensures { IfOk result (λ rows. AreJoins (length self.now.loaders) self.now.constraints name.now rows.items) }
    {
        joins_of(
            *self.loaders.allocator(),
            self.loaders.len(),
            self.constraints.as_slice(),
            name,
        )
    }

    /// The module to which the loaders that are joined with this one lead the name, if they lead anywhere.
    fn led_to(
        &self,
        rows: &[Items<usize>],
        name: &[u8],
        l: LoaderId,
    ) -> Result<Option<ModuleId>, AllocError>
        requires rows { AreJoins (length self.now.loaders) self.now.constraints name.now rows.now }
        requires loader { IsLoader self.now l }
        ensures { IfOk result (IsGroupLead self.now name.now l) }
    {
        let start = l.0 as usize - 1;
        let marks = closure(*self.loaders.allocator(), rows, &[start])?;
        Ok(self.marked_lead(marks.as_slice(), name))
    }

    /// The lead of the first marked loader that leads the name anywhere.
    fn marked_lead(&self, marks: &[bool], name: &[u8]) -> Option<ModuleId>
        requires { length marks.now ≡ length self.now.loaders }
        ensures { IsMarkedLead self.now marks.now name.now result }
    {
        for at in 0..self.loaders.len() {
            if let Some(m) = self.lead_if(marks[at], LoaderId(at as u32 + 1), name) {
                return Some(m);
            }
        }
        None
    }

    /// The lead of a loader, if it is marked.
    fn lead_if(&self, is_marked: bool, l: LoaderId, name: &[u8]) -> Option<ModuleId>
        requires { IsLoader self.now l }
        ensures { result ≡ (if is_marked then leads.lead self.now l name.now else None) }
    {
        if is_marked { self.lead(l, name) } else { None }
    }
}

/// The name that a text is.
fn name_of(alloc: Global, text: &[u8]) -> Result<Name, CopyEnd>
    requires { IsUtf8 text.now }
    ensures { IfOk result (λ n. n ≡ text.now) }
{
    match str::from_utf8(text) {
        Ok(text) => Name::from_text(alloc, text),
        Err(_) => unreachable!(),
    }
}

/// The name of a constraint on two groups, unless they lead to two modules.
fn judged(
    name: Name,
    one: Option<ModuleId>,
    other: Option<ModuleId>,
) -> Result<Name, ConstraintFault>
    ensures { IsJudged name one other result }
{
    match (one, other) {
        (Some(one), Some(other)) if one != other => {
            Err(ConstraintFault::Clash { name, one, other })
        }
        _ => Ok(name),
    }
}
