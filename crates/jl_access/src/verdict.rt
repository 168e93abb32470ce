//! Verdicts, the rules that they name, and what is judged.

ghost use Rattle.std.specs.Prelude.{◌≡◌};
ghost use Rattle.jl_access.specs.Verdicts as verdicts;
ghost use Rattle.jl_access.specs.Texts as texts;

use jl_prim::{LoaderId, ModuleId, Name};

/// Where a class is: its module, its defining loader and its package. Two classes of one package name and
/// one loader are of one run-time package (JVMS 5.3).
#[derive(Debug, Drop)]
pub struct Place {
    pub module: ModuleId,
    pub loader: LoaderId,
    pub package: Name,
}

/// Who may use a member (JVMS 4.5, 4.6).
#[derive(Clone, Copy, Debug, PartialEq, Eq)]
pub enum Access {
    Public,
    Protected,
    Package,
    Private,
}

/// How a member and the class that uses it stand to each other.
#[derive(Clone, Copy, Debug, PartialEq, Eq)]
pub struct MemberAccess {
    pub access: Access,
    pub is_static: bool,
    /// The caller is the class that declares the member.
    pub same_class: bool,
    /// The two classes are of one nest (JVMS 5.4.4).
    pub same_nest: bool,
    /// The two classes are of one run-time package.
    pub same_package: bool,
    /// The caller is a subclass of the class that declares the member.
    pub subclass: bool,
    /// Of the caller and the class that the reference names, one is a subclass of the other, or they are one class.
    pub named_related: bool,
}

/// The first condition that fails.
#[derive(Clone, Copy, Debug, PartialEq, Eq, Hash)]
pub enum Rule {
    NotRead,
    NotExported,
    NotExportedTo,
    ClassNotPublic,
    MemberPrivate,
    MemberPackage,
    MemberProtected,
    NotOpen,
    NotOpenTo,
    ServiceNotUsed,
    CallerNotAllowed,
}

impl Rule {
    /// The rule as it is printed.
    pub fn text(self) -> &'static str
        ensures { result.now ≡ texts.rule_text self }
    {
        match self {
            Rule::NotRead => "not-read",
            Rule::NotExported => "not-exported",
            Rule::NotExportedTo => "not-exported-to",
            Rule::ClassNotPublic => "class-not-public",
            Rule::MemberPrivate => "member-private",
            Rule::MemberPackage => "member-package",
            Rule::MemberProtected => "member-protected",
            Rule::NotOpen => "not-open",
            Rule::NotOpenTo => "not-open-to",
            Rule::ServiceNotUsed => "service-not-used",
            Rule::CallerNotAllowed => "caller-not-allowed",
        }
    }

    /// Whether the rule is one of modules, and not of public, protected, package and private access.
    pub fn is_of_modules(self) -> bool
        ensures { result ≡ verdicts.is_of_modules self }
    {
        !matches!(
            self,
            Rule::ClassNotPublic | Rule::MemberPrivate | Rule::MemberPackage | Rule::MemberProtected
        )
    }
}

/// What a check says.
#[derive(Clone, Copy, Debug, PartialEq, Eq, Hash)]
pub enum Verdict {
    Granted,
    Denied(Rule),
}

impl Verdict {
    /// The verdict as it is printed: `granted`, or `denied` with the rule.
    pub fn text(self) -> &'static str
        ensures { result.now ≡ texts.verdict_text self }
    {
        match self {
            Verdict::Granted => "granted",
            Verdict::Denied(rule) => denial_text(rule),
        }
    }
}

/// A denial as it is printed.
fn denial_text(rule: Rule) -> &'static str
    ensures { result.now ≡ texts.denial_text rule }
{
    match rule {
        Rule::NotRead => "denied not-read",
        Rule::NotExported => "denied not-exported",
        Rule::NotExportedTo => "denied not-exported-to",
        Rule::ClassNotPublic => "denied class-not-public",
        Rule::MemberPrivate => "denied member-private",
        Rule::MemberPackage => "denied member-package",
        Rule::MemberProtected => "denied member-protected",
        Rule::NotOpen => "denied not-open",
        Rule::NotOpenTo => "denied not-open-to",
        Rule::ServiceNotUsed => "denied service-not-used",
        Rule::CallerNotAllowed => "denied caller-not-allowed",
    }
}
