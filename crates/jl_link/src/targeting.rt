//! The class in which a member reference looks, the member that it finds, and the target that this is (JVMS 5.4.3.2
//! to 5.4.3.4).

ghost use Rattle.std.specs.Prelude.{◌≡◌, [], IfOk, IfSome, Some};
ghost use Rattle.jl_loads.specs.Worlds.{IsClass, Loaded, class_at};
ghost use Rattle.jl_link.specs.References as references;
ghost use Rattle.jl_link.specs.Slots.{IsMemberThere};

use crate::entry::MemberEntry;
use crate::fields::field_of;
use crate::kind::MemberKind;
use crate::member::Member;
use crate::methods::{class_method, interface_method};
use jl_access::Access;
use jl_class::{is_interface, is_private, is_protected, is_public};
use jl_loads::{Loads, Target};
use jl_prim::{ClassId, CopyEnd, ErrorKind, LoaderId, Name};

/// The class in which a member is looked up, which for an array is Object.
pub fn looked_up_in(loads: &Loads, class: &Target) -> Result<Option<ClassId>, CopyEnd>
    ensures { IfOk result (λ c. c ≡ references.looked_up_in loads.now class.now) }
{
    match class {
        Target::Class(c) => Ok(Some(*c)),
        Target::Array(_) => {
            let name = Name::from_text(loads.allocator(), "java/lang/Object")?;
            Ok(loads.defined(LoaderId(1), name))
        }
        Target::Field(_) | Target::Method(_) => Ok(None),
    }
}

/// Whether a class is of the kind in which such members are looked up: methods of classes in classes, and those of
/// interfaces in interfaces.
pub fn fits_kind(loads: &Loads, kind: MemberKind, c: ClassId) -> bool
    requires { IsClass loads.now c }
    ensures { (x : Loaded) → class_at loads.now c ≡ Some x → result ≡ references.fits_kind kind x }
{
    let of_interface = is_interface(loads.class(c).flags());
    match kind {
        MemberKind::FieldEntry => true,
        MemberKind::MethodEntry => !of_interface,
        MemberKind::InterfaceMethodEntry => of_interface,
    }
}

/// The member that a class has.
pub fn member_in(loads: &Loads, entry: &MemberEntry, c: ClassId) -> Result<Option<Member>, CopyEnd>
    requires { IsClass loads.now c }
    ensures found { IfOk result (λ m. m ≡ references.member_in entry.now.kind loads.now c entry.now.wanted) }
    ensures there { IfOk result (λ o. IfSome o (IsMemberThere entry.now.kind loads.now)) }
{
    match entry.kind {
        MemberKind::FieldEntry => field_of(loads, c, &entry.name, &entry.desc),
        MemberKind::MethodEntry => class_method(loads, c, &entry.name, &entry.desc),
        MemberKind::InterfaceMethodEntry => interface_method(loads, c, &entry.name, &entry.desc),
    }
}

/// What an entry of such a kind refers to.
pub fn target_of(loads: &Loads, kind: MemberKind, m: &Member) -> Target
    requires { IsMemberThere kind loads.now m.now }
    ensures { result ≡ references.target_of kind loads.now m.now }
{
    match kind {
        MemberKind::FieldEntry => Target::Field(loads.field_id(m.owner, m.at)),
        MemberKind::MethodEntry | MemberKind::InterfaceMethodEntry => {
            Target::Method(loads.method_id(m.owner, m.at))
        }
    }
}

/// The error where there is no such member.
pub fn missing_kind(kind: MemberKind) -> ErrorKind
    ensures { result ≡ references.missing_kind kind }
{
    match kind {
        MemberKind::FieldEntry => ErrorKind::NoSuchFieldError,
        MemberKind::MethodEntry | MemberKind::InterfaceMethodEntry => ErrorKind::NoSuchMethodError,
    }
}

/// Who may use the member, seen from the target by which it is named: `clone` of an array is public (JVMS 5.4.4).
pub fn access_by(class: &Target, entry: &MemberEntry, flags: u16) -> Access
    ensures { result ≡ references.access_by class.now entry.now.wanted flags }
{
    if is_array_clone(class, &entry.name) {
        Access::Public
    } else {
        access_of(flags)
    }
}

fn is_array_clone(class: &Target, name: &Name) -> bool
    ensures { result ≡ references.is_array_clone class.now (record { name = name.now; desc = [] }) }
{
    match class {
        Target::Array(_) => name.as_bytes() == "clone".as_bytes(),
        Target::Class(_) | Target::Field(_) | Target::Method(_) => false,
    }
}

fn access_of(flags: u16) -> Access
    ensures { result ≡ references.access_of flags }
{
    if is_public(flags) {
        Access::Public
    } else if is_protected(flags) {
        Access::Protected
    } else if is_private(flags) {
        Access::Private
    } else {
        Access::Package
    }
}
