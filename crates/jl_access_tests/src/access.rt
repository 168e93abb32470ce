//! Tests of jl_access.

ghost use Rattle.std.specs.Prelude.{◌≡◌, length, IfOk, OnOk};
ghost use Rattle.jl_access.specs.Facts.{ReachExists};

use jl_access::{
    Access, Facts, Key, MemberAccess, NoteKind, Place, Reach, Report, Rule, Statement, Verdict,
    is_note_due,
};
use jl_prim::{Items, LoaderId, ModuleId, Name};
use std::alloc::Global;
use std::test::*;

/// The module of the caller, with package p.
const CALLER: ModuleId = ModuleId(1);
/// The module of the class that is used, with package q.
const OWNER: ModuleId = ModuleId(2);
/// Another module, with package r.
const OTHER: ModuleId = ModuleId(3);

/// What module 2 says of its package q: whether it exports or opens it, and to whom.
type Said = Option<(bool, Reach)>;

const TO_ALL: Said = Some((false, Reach::All));

const TO_CALLER: Said = Some((false, Reach::To(CALLER)));

const TO_OTHER: Said = Some((false, Reach::To(OTHER)));

const TO_NOBODY: Said = Some((false, Reach::Nobody));

const OPEN_TO_ALL: Said = Some((true, Reach::All));

const OPEN_TO_CALLER: Said = Some((true, Reach::To(CALLER)));

const OPEN_TO_OTHER: Said = Some((true, Reach::To(OTHER)));

const OPEN_TO_NOBODY: Said = Some((true, Reach::Nobody));

/// The rules that deny to a reader: a public class, a class that is not public, a public member by reflection,
/// a private member made accessible, a public one, and one more opening.
type Denied = [Option<Rule>; 6];

const NOT_READ: Option<Rule> = Some(Rule::NotRead);

const NO_EXPORT: Option<Rule> = Some(Rule::NotExported);

const TO_OTHERS: Option<Rule> = Some(Rule::NotExportedTo);

const NOT_PUBLIC: Option<Rule> = Some(Rule::ClassNotPublic);

const NO_OPENING: Option<Rule> = Some(Rule::NotOpen);

const OPEN_ELSEWHERE: Option<Rule> = Some(Rule::NotOpenTo);

const NO_CALLER: Option<Rule> = Some(Rule::CallerNotAllowed);

/// Nothing is exported or opened.
const CLOSED: Denied = [
    NO_EXPORT, NO_EXPORT, NO_EXPORT, NO_OPENING, NO_OPENING, NO_CALLER,
];
/// Something is exported to another alone.
const EXPORTED_TO_OTHERS: Denied = [
    TO_OTHERS, TO_OTHERS, TO_OTHERS, NO_OPENING, NO_OPENING, NO_CALLER,
];
/// Something is opened to another alone.
const OPENED_TO_OTHERS: Denied = [
    TO_OTHERS,
    TO_OTHERS,
    TO_OTHERS,
    OPEN_ELSEWHERE,
    OPEN_ELSEWHERE,
    NO_CALLER,
];
/// The package is exported to the caller's module.
const EXPORTED: Denied = [None, NOT_PUBLIC, None, NO_OPENING, None, NO_CALLER];
/// The package is exported to the caller's module and opened to another.
const EXPORTED_OPENED_TO_OTHERS: Denied = [None, NOT_PUBLIC, None, OPEN_ELSEWHERE, None, NO_CALLER];
/// Nothing but what reflection needs: the caller's module is one to which the package is opened.
const OPENED: Denied = [None, NOT_PUBLIC, None, None, None, None];

/// Whether module 2 is open, two statements that it makes, and what is denied.
const BETWEEN: [(bool, Said, Said, Denied); 13] = [
    (false, None, None, CLOSED),
    (false, TO_ALL, None, EXPORTED),
    (false, TO_CALLER, None, EXPORTED),
    (false, TO_OTHER, None, EXPORTED_TO_OTHERS),
    (false, TO_NOBODY, None, EXPORTED_TO_OTHERS),
    (false, OPEN_TO_ALL, None, OPENED),
    (false, OPEN_TO_CALLER, None, OPENED),
    (false, OPEN_TO_OTHER, None, OPENED_TO_OTHERS),
    (false, OPEN_TO_NOBODY, None, OPENED_TO_OTHERS),
    (false, TO_CALLER, OPEN_TO_OTHER, EXPORTED_OPENED_TO_OTHERS),
    (false, TO_ALL, OPEN_TO_NOBODY, EXPORTED_OPENED_TO_OTHERS),
    (false, TO_OTHER, OPEN_TO_CALLER, OPENED),
    (true, None, None, OPENED),
];

fn packages(alloc: Global, package: &str) -> Result<Items<Name>, Fail> {
    let mut packages = Items::new(alloc);
    packages.push(Name::from_text(alloc, package)?)?;
    Ok(packages)
}

/// The three modules, of which the second may be open.
fn modules(alloc: Global, is_open: bool) -> Result<Facts, Fail>
    ensures { IfOk result (λ facts. length facts.modules ≡ 3) }
{
    let mut facts = Facts::new(alloc);
    facts.room(3, 0)?;
    facts.place_module(false, packages(alloc, "p")?);
    facts.place_module(is_open, packages(alloc, "q")?);
    facts.place_module(false, packages(alloc, "r")?);
    Ok(facts)
}

fn place_reached(
    alloc: Global,
    facts: &mut Facts,
    is_opened: bool,
    reach: Reach,
) -> Result<(), Fail>
    requires modules { length facts.old.modules ≡ 3 }
    requires reach { ReachExists facts.old reach }
    ensures { OnOk result (length facts.new.modules ≡ 3) }
{
    facts.room(0, 1)?;
    let package = Name::from_text(alloc, "q")?;
    if !facts.has_package(OWNER, package.as_bytes()) {
        return Ok(());
    }
    if is_opened {
        facts.place(Statement::Opens(OWNER, package, reach));
    } else {
        facts.place(Statement::Exports(OWNER, package, reach));
    }
    Ok(())
}

/// Says this of package q.
fn place_said(alloc: Global, facts: &mut Facts, said: Said) -> Result<(), Fail>
    requires { length facts.old.modules ≡ 3 }
    ensures { OnOk result (length facts.new.modules ≡ 3) }
{
    match said {
        None => Ok(()),
        Some((is_opened, Reach::All)) => place_reached(alloc, facts, is_opened, Reach::All),
        Some((is_opened, Reach::Nobody)) => place_reached(alloc, facts, is_opened, Reach::Nobody),
        Some((is_opened, Reach::To(m))) => {
            let to = if m == CALLER { CALLER } else { OTHER };
            place_reached(alloc, facts, is_opened, Reach::To(to))
        }
    }
}

fn class_in(alloc: Global, module: ModuleId, loader: u32, package: &str) -> Result<Place, Fail> {
    Ok(Place {
        module,
        loader: LoaderId(loader),
        package: Name::from_text(alloc, package)?,
    })
}

/// A member that a class of another package uses, which is no subclass.
fn member(access: Access) -> MemberAccess {
    MemberAccess {
        access,
        is_static: false,
        same_class: false,
        same_nest: false,
        same_package: false,
        subclass: false,
        named_related: false,
    }
}

fn denial(verdict: Verdict) -> Option<Rule> {
    match verdict {
        Verdict::Granted => None,
        Verdict::Denied(rule) => Some(rule),
    }
}

/// Whether the verdicts are these.
fn is_judged(facts: &Facts, from: &Place, to: &Place, denied: Denied) -> bool {
    let shown = member(Access::Public);
    let hidden = member(Access::Private);
    let found = [
        denial(facts.class_verdict(from, to, true)),
        denial(facts.class_verdict(from, to, false)),
        denial(facts.reflect_verdict(from, to, true, &shown)),
        denial(facts.deep_verdict(from, to, true, &hidden)),
        denial(facts.deep_verdict(from, to, true, &shown)),
        denial(facts.caller_verdict(from.module, to.module, Some(b"q"))),
    ];
    found == denied
}

/// Whether the verdicts are those to a module that does not read, and then to one that does.
fn are_denied(alloc: Global, facts: &mut Facts, denied: Denied) -> Result<bool, Fail>
    requires { length facts.old.modules ≡ 3 }
{
    let from = class_in(alloc, CALLER, 1, "p")?;
    let to = class_in(alloc, OWNER, 1, "q")?;
    let [_, _, reflected, hidden, shown, opening] = denied;
    let unread = [NOT_READ, NOT_READ, reflected, hidden, shown, opening];
    let before = is_judged(facts, &from, &to, unread);
    facts.add_reads(CALLER, OWNER)?;
    Ok(before && is_judged(facts, &from, &to, denied))
}

#[test]
fn verdicts_between_modules(rt: HostRuntime) -> Result<(), Fail> {
    let alloc = rt.alloc();
    for (is_open, one, other, denied) in BETWEEN {
        let mut facts = modules(alloc, is_open)?;
        place_said(alloc, &mut facts, one)?;
        place_said(alloc, &mut facts, other)?;
        assert!(rt; are_denied(alloc, &mut facts, denied)?);
    }
    Ok(())
}

/// Who may use a class of module 1 from it: whether it is public, the loader and the package of the caller, and
/// the rule that denies it.
const WITHIN: [(bool, u32, &str, Option<Rule>); 5] = [
    (true, 1, "p", None),
    (true, 2, "o", None),
    (false, 1, "p", None),
    (false, 2, "p", NOT_PUBLIC),
    (false, 1, "o", NOT_PUBLIC),
];

fn is_within(facts: &Facts, from: &Place, to: &Place, public: bool, rule: Option<Rule>) -> bool {
    let shown = member(Access::Public);
    let hidden = member(Access::Private);
    denial(facts.class_verdict(from, to, public)) == rule
        && denial(facts.reflect_verdict(from, to, public, &shown)) == rule
        && denial(facts.deep_verdict(from, to, public, &hidden)) == None
}

#[test]
fn verdicts_within_a_module(rt: HostRuntime) -> Result<(), Fail> {
    let alloc = rt.alloc();
    let facts = modules(alloc, false)?;
    let to = class_in(alloc, CALLER, 1, "p")?;
    for (public, loader, package, rule) in WITHIN {
        let from = class_in(alloc, CALLER, loader, package)?;
        assert!(rt; is_within(&facts, &from, &to, public, rule));
    }
    Ok(())
}

const PRIVATE: Option<Rule> = Some(Rule::MemberPrivate);

const PACKAGE: Option<Rule> = Some(Rule::MemberPackage);

const PROTECTED: Option<Rule> = Some(Rule::MemberProtected);

/// A member's access, and then whether it is static, the caller is of its class, of its nest, of its package,
/// a subclass, and names a related class; and the rules that deny it to a use by name and by reflection.
const MEMBERS: [(Access, [bool; 6], Option<Rule>, Option<Rule>); 14] = [
    (
        Access::Public,
        [false, false, false, false, false, false],
        None,
        None,
    ),
    (
        Access::Private,
        [false, false, false, false, false, false],
        PRIVATE,
        PRIVATE,
    ),
    (
        Access::Private,
        [true, false, false, true, true, true],
        PRIVATE,
        PRIVATE,
    ),
    (
        Access::Private,
        [false, true, false, true, false, false],
        None,
        None,
    ),
    (
        Access::Private,
        [false, false, true, true, false, false],
        None,
        None,
    ),
    (
        Access::Package,
        [false, false, false, false, false, false],
        PACKAGE,
        PACKAGE,
    ),
    (
        Access::Package,
        [true, false, false, false, true, true],
        PACKAGE,
        PACKAGE,
    ),
    (
        Access::Package,
        [false, false, false, true, false, false],
        None,
        None,
    ),
    (
        Access::Protected,
        [false, false, false, false, false, false],
        PROTECTED,
        PROTECTED,
    ),
    (
        Access::Protected,
        [false, false, false, true, false, false],
        None,
        None,
    ),
    (
        Access::Protected,
        [false, false, false, false, true, false],
        PROTECTED,
        None,
    ),
    (
        Access::Protected,
        [true, false, false, false, true, false],
        None,
        None,
    ),
    (
        Access::Protected,
        [false, false, false, false, true, true],
        None,
        None,
    ),
    (
        Access::Protected,
        [true, false, false, false, false, true],
        PROTECTED,
        PROTECTED,
    ),
];

fn member_of(access: Access, stands: [bool; 6]) -> MemberAccess {
    let [
        is_static,
        same_class,
        same_nest,
        same_package,
        subclass,
        named_related,
    ] = stands;
    MemberAccess {
        access,
        is_static,
        same_class,
        same_nest,
        same_package,
        subclass,
        named_related,
    }
}

#[test]
fn verdicts_on_members(rt: HostRuntime) -> Result<(), Fail> {
    let alloc = rt.alloc();
    let facts = modules(alloc, true)?;
    let from = class_in(alloc, CALLER, 1, "p")?;
    let to = class_in(alloc, OWNER, 1, "q")?;
    for (access, stands, by_name, by_reflection) in MEMBERS {
        let a = member_of(access, stands);
        assert_eq!(rt; denial(facts.member_verdict(&a)), by_name);
        assert_eq!(rt;
            denial(facts.reflect_verdict(&from, &to, true, &a)),
            by_reflection
        );
    }
    Ok(())
}

/// Adds that module 2 exports package q to module 1, and opens it to all.
fn add_package(facts: &mut Facts) -> Result<(), Fail>
    requires { length facts.old.modules ≡ 3 }
    ensures { OnOk result (length facts.new.modules ≡ 3) }
{
    if !facts.has_package(OWNER, b"q") {
        return Ok(());
    }
    facts.add_exports(OWNER, b"q", Some(CALLER))?;
    if facts.has_package(OWNER, b"q") {
        facts.add_opens(OWNER, b"q", None)?;
    }
    Ok(())
}

/// The questions of one module or two.
fn answers(facts: &Facts) -> [bool; 12] {
    [
        facts.reads(CALLER, OWNER),
        facts.reads(OTHER, OTHER),
        facts.exported(OWNER, b"q", Some(OTHER)),
        facts.exported(OWNER, b"q", None),
        facts.opened(OWNER, b"q", None),
        facts.uses(CALLER, b"s/S"),
        facts.reads(OWNER, CALLER),
        facts.exported(OWNER, b"p", Some(OWNER)),
        facts.opened(CALLER, b"p", Some(OWNER)),
        facts.uses(CALLER, b"s/T"),
        facts.uses(OWNER, b"s/S"),
        facts.has_package(ModuleId(4), b"q"),
    ]
}

const T: bool = true;

const F: bool = false;

/// The rules that deny services and changes of a module's own module, of another, and by a module whose own
/// the package is.
fn denials(facts: &Facts) -> [Option<Rule>; 6] {
    [
        denial(facts.service_verdict(CALLER, b"s/S")),
        denial(facts.service_verdict(CALLER, b"s/T")),
        denial(facts.service_verdict(OWNER, b"s/S")),
        denial(facts.caller_verdict(OWNER, OWNER, None)),
        denial(facts.caller_verdict(CALLER, OWNER, None)),
        denial(facts.caller_verdict(OWNER, OWNER, Some(b"q"))),
    ]
}

#[test]
fn added_statements(rt: HostRuntime) -> Result<(), Fail> {
    let unused = Some(Rule::ServiceNotUsed);
    let mut facts = modules(rt.alloc(), false)?;
    assert!(rt; answers(&facts) == [F, T, F, F, F, F, F, F, F, F, F, F]);
    add_package(&mut facts)?;
    facts.add_uses(CALLER, b"s/S")?;
    facts.add_reads(CALLER, OWNER)?;
    assert!(rt; answers(&facts) == [T, T, T, T, T, T, F, F, F, F, F, F]);
    assert!(rt; denials(&facts) == [None, unused, unused, None, NO_CALLER, None]);
    Ok(())
}

/// Notes in order, where each after the first changes one part of the key, and the last is the first again.
const NOTES: [(u64, u32, u32, Option<&str>, NoteKind, Verdict); 8] = [
    (10, 1, 2, Some("p"), NoteKind::Class, Verdict::Granted),
    (11, 3, 2, Some("p"), NoteKind::Class, Verdict::Granted),
    (12, 1, 3, Some("p"), NoteKind::Class, Verdict::Granted),
    (13, 1, 2, Some("q"), NoteKind::Class, Verdict::Granted),
    (14, 1, 2, None, NoteKind::Class, Verdict::Granted),
    (15, 1, 2, Some("p"), NoteKind::Deep, Verdict::Granted),
    (
        16,
        1,
        2,
        Some("p"),
        NoteKind::Class,
        Verdict::Denied(Rule::NotRead),
    ),
    (17, 1, 2, Some("p"), NoteKind::Class, Verdict::Granted),
];

/// The first step and the count of each line.
const LINES: [(usize, Option<(u64, u64)>); 8] = [
    (0, Some((10, 2))),
    (1, Some((11, 1))),
    (2, Some((12, 1))),
    (3, Some((13, 1))),
    (4, Some((14, 1))),
    (5, Some((15, 1))),
    (6, Some((16, 1))),
    (7, None),
];

fn name_of(alloc: Global, package: Option<&str>) -> Result<Option<Name>, Fail> {
    match package {
        None => Ok(None),
        Some(text) => Ok(Some(Name::from_text(alloc, text)?)),
    }
}

/// The step of the first note and the count of a line.
fn counted(report: &Report, i: usize) -> Option<(u64, u64)> {
    match report.line(i) {
        None => None,
        Some((_, first, count)) => Some((first, count)),
    }
}

#[test]
fn notes_are_grouped(rt: HostRuntime) -> Result<(), Fail> {
    let alloc = rt.alloc();
    let mut report = Report::new(alloc);
    for (step, from, to, package, kind, verdict) in NOTES {
        let key = Key {
            from: ModuleId(from),
            to: ModuleId(to),
            package: name_of(alloc, package)?,
            kind,
            verdict,
        };
        report.note(key, step)?;
    }
    for (i, line) in LINES {
        assert_eq!(rt; counted(&report, i), line);
    }
    Ok(())
}

/// Rules as they are printed, and whether they are of modules.
const RULES: [(Rule, &str, bool); 11] = [
    (Rule::NotRead, "denied not-read", true),
    (Rule::NotExported, "denied not-exported", true),
    (Rule::NotExportedTo, "denied not-exported-to", true),
    (Rule::ClassNotPublic, "denied class-not-public", false),
    (Rule::MemberPrivate, "denied member-private", false),
    (Rule::MemberPackage, "denied member-package", false),
    (Rule::MemberProtected, "denied member-protected", false),
    (Rule::NotOpen, "denied not-open", true),
    (Rule::NotOpenTo, "denied not-open-to", true),
    (Rule::ServiceNotUsed, "denied service-not-used", true),
    (Rule::CallerNotAllowed, "denied caller-not-allowed", true),
];

const KINDS: [(NoteKind, &str); 6] = [
    (NoteKind::Class, "class"),
    (NoteKind::Member, "member"),
    (NoteKind::Reflect, "reflect"),
    (NoteKind::Deep, "deep"),
    (NoteKind::Service, "service"),
    (NoteKind::Caller, "caller"),
];

#[test]
fn printed_names(rt: HostRuntime) {
    for (rule, text, of_modules) in RULES {
        assert_eq!(rt; Verdict::Denied(rule).text(), text);
        assert!(rt; text.ends_with(rule.text()) && rule.is_of_modules() == of_modules);
    }
    for (kind, text) in KINDS {
        assert_eq!(rt; kind.text(), text);
    }
    assert_eq!(rt; Verdict::Granted.text(), "granted");
    assert!(rt; is_note_due(CALLER, OWNER) && !is_note_due(OWNER, OWNER));
}
