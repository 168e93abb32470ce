//! Access of one class to another (JVMS 5.4.4).

ghost use Rattle.std.specs.Prelude.{◌≡◌, ◌++◌, codes, Some, IfErr, IfOk, OnOk, OnErr, IsOkUnless};
ghost use Rattle.std.specs.String.{string_bytes};
ghost use Rattle.jl_names.specs.Dots.{dotted};
ghost use Rattle.jl_access.specs.Verdicts.{class_verdict};
ghost use Rattle.jl_access.specs.Verdicts as verdicts;
ghost use Rattle.jl_class.specs.Meaning.{is_public};
ghost use Rattle.jl_layer.specs.Layers.{IsModule};
ghost use Rattle.jl_loads.specs.Checks.{due_key, with_due};
ghost use Rattle.jl_loads.specs.Ends.{Leaves, Tells, IsNotRead};
ghost use Rattle.jl_loads.specs.Loading as loading;
ghost use Rattle.jl_loads.specs.Outcomes as outcomes;
ghost use Rattle.jl_loads.specs.Outcomes.{denial_text};
ghost use Rattle.jl_loads.specs.Worlds.{Loaded, IsClass, Keeps, class_at, place_of};

use crate::class::Class;
use crate::end::LinkEnd;
use crate::errors::error;
use crate::loads::Loads;
use crate::package::{is_one_package, package_name};
use jl_access::{Key, NoteKind, Place, Rule, Verdict, is_note_due};
use jl_class::is_public;
use jl_names::dotted;
use jl_prim::{ClassId, CopyEnd, ErrorKind};
use std::alloc::AllocError;

impl Loads {
    /// A class accesses another, at a step (JVMS 5.4.4).
    pub fn access(&mut self, from: ClassId, c: ClassId, at: u64) -> Result<(), LinkEnd>
        requires from { IsClass self.old from }
        requires to { IsClass self.old c }
        ensures accesses { (f t : Loaded) → class_at self.old from ≡ Some f → class_at self.old c ≡ Some t → Leaves (loading.access at self.old f t) result self.new }
        ensures not_read { IfErr result IsNotRead }
        ensures keeps { Keeps self.old self.new }
    {
        let verdict = self.class_verdict(self.class_at(from), c)?;
        let what = self.dotted_name(c)?;
        self.checked(from, c, NoteKind::Class, what.as_str(), verdict, at)
    }

    /// A check of one class by another that came to a verdict: it is noted at a step where the two are of two modules,
    /// and a denial is thrown, which says to what there is no access.
    pub fn checked(
        &mut self,
        from: ClassId,
        c: ClassId,
        kind: NoteKind,
        what: &str,
        verdict: Verdict,
        at: u64,
    ) -> Result<(), LinkEnd>
        requires from { IsClass self.old from }
        requires to { IsClass self.old c }
        ensures checks { (f t : Loaded) → class_at self.old from ≡ Some f → class_at self.old c ≡ Some t → Leaves (loading.checked at f t kind what.now self.old verdict) result self.new }
        ensures not_read { IfErr result IsNotRead }
        ensures keeps { Keeps self.old self.new }
    {
        let key = self.due_key(self.class_at(from), c, kind, verdict)?;
        self.note_due(key, at)?;
        self.judge(self.class_at(from), c, what, verdict)
    }

    /// Whether two classes are of one run-time package (JVMS 5.3).
    pub fn one_package(&self, c: ClassId, d: ClassId) -> bool
        requires one { IsClass self.now c }
        requires other { IsClass self.now d }
        ensures { (x y : Loaded) → class_at self.now c ≡ Some x → class_at self.now d ≡ Some y → result ≡ verdicts.is_one_package (place_of x) (place_of y) }
    {
        is_one_package(self.class_at(c), self.class_at(d))
    }

    /// Where a class is, for checks of access.
    pub fn place(&self, c: ClassId) -> Result<Place, CopyEnd>
        requires { IsClass self.now c }
        ensures { (x : Loaded) → class_at self.now c ≡ Some x → IfOk result (λ p. p ≡ place_of x) }
    {
        self.class_at(c).place(self.allocator())
    }

    /// A class that is being loaded accesses another, at a step.
    pub(crate) fn access_by(&mut self, from: &Class, c: ClassId, at: u64) -> Result<(), LinkEnd>
        requires to { IsClass self.old c }
        requires home { IsModule self.old.layers from.now.home }
        ensures accesses { (to : Loaded) → class_at self.old c ≡ Some to → Leaves (loading.access at self.old from.now to) result self.new }
        ensures not_read { IfErr result IsNotRead }
        ensures keeps { Keeps self.old self.new }
        ensures layers { self.new.layers ≡ self.old.layers }
        ensures classes { self.new.classes ≡ self.old.classes }
    {
        let verdict = self.class_verdict(from, c)?;
        let what = self.dotted_name(c)?;
        let key = self.due_key(from, c, NoteKind::Class, verdict)?;
        self.note_due(key, at)?;
        self.judge(from, c, what.as_str(), verdict)
    }

    /// Whether the class may use the other.
    fn class_verdict(&self, from: &Class, c: ClassId) -> Result<Verdict, CopyEnd>
        requires { IsClass self.now c }
        ensures { (to : Loaded) → class_at self.now c ≡ Some to → IfOk result (λ v. v ≡ class_verdict self.now.layers.facts (place_of from.now) (place_of to) (is_public to.declared.flags)) }
    {
        let alloc = self.allocator();
        let to = self.class_at(c);
        let caller = from.place(alloc)?;
        let place = to.place(alloc)?;
        let is_public = is_public(to.declared().flags());
        Ok(
            self.layers
                .facts()
                .class_verdict(&caller, &place, is_public),
        )
    }

    /// The name of a class, as it is printed.
    fn dotted_name(&self, c: ClassId) -> Result<String, AllocError>
        requires { IsClass self.now c }
        ensures { (x : Loaded) → class_at self.now c ≡ Some x → IfOk result (λ text. string_bytes text ≡ dotted x.declared.name) }
    {
        dotted(
            self.allocator(),
            self.class_at(c).declared().name().as_str(),
        )
    }

    /// The check, as the report has it, where the two classes are of two modules.
    fn due_key(
        &self,
        from: &Class,
        c: ClassId,
        kind: NoteKind,
        verdict: Verdict,
    ) -> Result<Option<Key>, CopyEnd>
        requires { IsClass self.now c }
        ensures { (to : Loaded) → class_at self.now c ≡ Some to → IfOk result (λ key. key ≡ due_key from.now to kind verdict) }
    {
        let to = self.class_at(c);
        if is_note_due(from.home(), to.home()) {
            Ok(Some(self.check_key(from, to, kind, verdict)?))
        } else {
            Ok(None)
        }
    }

    fn check_key(
        &self,
        from: &Class,
        to: &Class,
        kind: NoteKind,
        verdict: Verdict,
    ) -> Result<Key, CopyEnd>
        ensures { IfOk result (λ key. key ≡ loading.key from.now to.now kind verdict) }
    {
        let package = package_name(self.allocator(), to.declared().name())?;
        Ok(Key {
            from: from.home(),
            to: to.home(),
            package: Some(package),
            kind,
            verdict,
        })
    }

    /// Notes a check, if there is one.
    fn note_due(&mut self, key: Option<Key>, at: u64) -> Result<(), LinkEnd>
        ensures notes { OnOk result (self.new ≡ with_due key at self.old) }
        ensures before { OnErr result (self.new ≡ self.old) }
        ensures memory { IsOkUnless result LinkEnd.NoMemory }
        ensures keeps { Keeps self.old self.new }
        ensures layers { self.new.layers ≡ self.old.layers }
        ensures classes { self.new.classes ≡ self.old.classes }
    {
        if let Some(key) = key {
            self.note(key, at)?;
        }
        Ok(())
    }

    /// What a verdict lets through.
    fn judge(&self, from: &Class, c: ClassId, what: &str, verdict: Verdict) -> Result<(), LinkEnd>
        requires to { IsClass self.now c }
        requires home { IsModule self.now.layers from.now.home }
        ensures judged { (to : Loaded) → class_at self.now c ≡ Some to → Leaves (loading.judged from.now to what.now verdict self.now) result self.now }
        ensures not_read { IfErr result IsNotRead }
    {
        match verdict {
            Verdict::Granted => Ok(()),
            Verdict::Denied(rule) => Err(self.denial(from, c, what, rule)),
        }
    }

    /// The error of a class that may not use the other.
    fn denial(&self, from: &Class, c: ClassId, what: &str, rule: Rule) -> LinkEnd
        requires to { IsClass self.now c }
        requires home { IsModule self.now.layers from.now.home }
        ensures tells { (to : Loaded) → class_at self.now c ≡ Some to → Tells result (outcomes.denial self.now from.now to what.now rule) }
        ensures not_read { IsNotRead result }
    {
        match self.denial_text(from, c, what, rule) {
            Ok(text) => error(
                self.allocator(),
                ErrorKind::IllegalAccessError,
                text.as_str(),
            ),
            Err(_) => LinkEnd::NoMemory,
        }
    }

    /// Who is denied what by which rule, in which modules.
    fn denial_text(
        &self,
        from: &Class,
        c: ClassId,
        what: &str,
        rule: Rule,
    ) -> Result<String, AllocError>
        requires to { IsClass self.now c }
        requires home { IsModule self.now.layers from.now.home }
        ensures { (to : Loaded) → class_at self.now c ≡ Some to → IfOk result (λ text. string_bytes text ≡ denial_text self.now from.now to what.now rule) }
    {
        let alloc = self.allocator();
        let to = self.class_at(c);
        let mut text = String::from_str(alloc, rule.text())?;
        text.push_str(": ")?;
        text.push_str(dotted(alloc, from.declared().name().as_str())?.as_str())?;
        text.push_str(" in ")?;
        text.push_str(self.module_text(from.home())?.as_str())?;
        text.push_str(" to ")?;
        text.push_str(what)?;
        text.push_str(" in ")?;
        text.push_str(self.module_text(to.home())?.as_str())?;
        Ok(text)
    }
}
