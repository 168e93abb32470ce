//! The six verdicts.

ghost use Rattle.std.specs.Prelude.{◌≡◌, option_copied};
ghost use Rattle.jl_access.specs.Verdicts as verdicts;

use crate::facts::Facts;
use crate::verdict::{Access, MemberAccess, Place, Rule, Verdict};
use jl_prim::ModuleId;

impl Facts {
    /// Whether a class may use another (JVMS 5.4.4).
    pub fn class_verdict(&self, from: &Place, to: &Place, public: bool) -> Verdict
        ensures { result ≡ verdicts.class_verdict self.now from.now to.now public }
    {
        if from.module == to.module {
            return within_module(from, to, public);
        }
        if !self.reads(from.module, to.module) {
            return Verdict::Denied(Rule::NotRead);
        }
        self.beyond_reading(from, to, public)
    }

    /// Whether a class may use a member of a class that it may use (JVMS 5.4.4).
    pub fn member_verdict(&self, a: &MemberAccess) -> Verdict
        ensures { result ≡ verdicts.member_verdict a.now }
    {
        member_verdict(*a)
    }

    /// Whether a class may use a member by reflection. Reading is not asked for.
    pub fn reflect_verdict(
        &self,
        from: &Place,
        to: &Place,
        public: bool,
        a: &MemberAccess,
    ) -> Verdict
        ensures { result ≡ verdicts.reflect_verdict self.now from.now to.now public a.now }
    {
        if a.same_class {
            return Verdict::Granted;
        }
        match self.reflect_class(from, to, public) {
            Verdict::Granted => member_verdict(by_its_class(a)),
            Verdict::Denied(rule) => Verdict::Denied(rule),
        }
    }

    /// Whether a class may make a member accessible (`AccessibleObject.setAccessible`).
    pub fn deep_verdict(&self, from: &Place, to: &Place, public: bool, a: &MemberAccess) -> Verdict
        ensures { result ≡ verdicts.deep_verdict self.now from.now to.now public a.now }
    {
        if self.may_go_deep(from, to, public, a) {
            return Verdict::Granted;
        }
        if self.open_somewhere(to.module, to.package.as_bytes()) {
            return Verdict::Denied(Rule::NotOpenTo);
        }
        Verdict::Denied(Rule::NotOpen)
    }

    /// Whether a module may look for providers of a service (`ServiceLoader`).
    pub fn service_verdict(&self, from: ModuleId, service: &[u8]) -> Verdict
        ensures { result ≡ verdicts.service_verdict self.now from service.now }
    {
        if !self.uses(from, service) {
            return Verdict::Denied(Rule::ServiceNotUsed);
        }
        Verdict::Granted
    }

    /// Whether a class of one module may change another. Where a package is given, the change opens it
    /// (`Module.addReads`, `addExports`, `addUses`, `addOpens`).
    pub fn caller_verdict(&self, from: ModuleId, to: ModuleId, opens: Option<&[u8]>) -> Verdict
        ensures { result ≡ verdicts.caller_verdict self.now from to (option_copied opens.entry) }
    {
        let may_change = match opens {
            None => from == to,
            Some(name) => self.open_to(to, name, from),
        };
        if !may_change {
            return Verdict::Denied(Rule::CallerNotAllowed);
        }
        Verdict::Granted
    }

    /// What a class of another module asks for, but for reading.
    fn beyond_reading(&self, from: &Place, to: &Place, public: bool) -> Verdict
        ensures { result ≡ verdicts.judged (verdicts.beyond_reading self.now from.now to.now public) }
    {
        if !self.exported_somewhere(to.module, to.package.as_bytes()) {
            return Verdict::Denied(Rule::NotExported);
        }
        if !self.exported_to(to.module, to.package.as_bytes(), from.module) {
            return Verdict::Denied(Rule::NotExportedTo);
        }
        if !public {
            return Verdict::Denied(Rule::ClassNotPublic);
        }
        Verdict::Granted
    }

    /// Whether a class may use another by reflection.
    fn reflect_class(&self, from: &Place, to: &Place, public: bool) -> Verdict
        ensures { result ≡ verdicts.judged (verdicts.reflect_conditions self.now from.now to.now public) }
    {
        if from.module == to.module {
            return within_module(from, to, public);
        }
        self.beyond_reading(from, to, public)
    }

    /// Whether a member may be made accessible.
    fn may_go_deep(&self, from: &Place, to: &Place, public: bool, a: &MemberAccess) -> bool
        ensures { result ≡ verdicts.may_go_deep self.now from.now to.now public a.now }
    {
        from.module == to.module
            || self.is_shown_to(from, to, public, a)
            || self.open_to(to.module, to.package.as_bytes(), from.module)
    }

    /// Whether a member may be made accessible without being open.
    fn is_shown_to(&self, from: &Place, to: &Place, public: bool, a: &MemberAccess) -> bool
        ensures { result ≡ verdicts.is_shown_to self.now from.now to.now public a.now }
    {
        public && is_shown(a) && self.exported_to(to.module, to.package.as_bytes(), from.module)
    }
}

/// What a class of the same module asks for.
fn within_module(from: &Place, to: &Place, public: bool) -> Verdict
    ensures { result ≡ verdicts.judged (verdicts.within_module from.now to.now public) }
{
    if !(public || is_one_package(from, to)) {
        return Verdict::Denied(Rule::ClassNotPublic);
    }
    Verdict::Granted
}

/// Whether two classes are of one run-time package.
fn is_one_package(a: &Place, b: &Place) -> bool
    ensures { result ≡ verdicts.is_one_package a.now b.now }
{
    a.loader == b.loader && a.package == b.package
}

/// Whether a class may use a member.
fn member_verdict(a: MemberAccess) -> Verdict
    ensures { result ≡ verdicts.member_verdict a }
{
    let (holds, rule) = match a.access {
        Access::Public => return Verdict::Granted,
        Access::Private => (a.same_class || a.same_nest, Rule::MemberPrivate),
        Access::Package => (a.same_package, Rule::MemberPackage),
        Access::Protected => (a.same_package || is_inherited(a), Rule::MemberProtected),
    };
    if !holds {
        return Verdict::Denied(rule);
    }
    Verdict::Granted
}

/// Whether a protected member is used from a subclass, as a static one or by way of a related class.
fn is_inherited(a: MemberAccess) -> bool
    ensures { result ≡ verdicts.is_inherited a }
{
    a.subclass && (a.is_static || a.named_related)
}

/// The member as its declaring class names it, which is related to its subclasses.
fn by_its_class(a: &MemberAccess) -> MemberAccess
    ensures { result ≡ verdicts.by_its_class a.now }
{
    MemberAccess {
        named_related: a.subclass,
        ..*a
    }
}

/// Whether a member is public, or a protected static one of a superclass.
fn is_shown(a: &MemberAccess) -> bool
    ensures { result ≡ verdicts.is_shown a.now }
{
    match a.access {
        Access::Public => true,
        Access::Protected => a.is_static && a.subclass,
        Access::Package | Access::Private => false,
    }
}
