//! Which method overrides which (JVMS 5.4.5).

ghost use Rattle.std.specs.Prelude.{◌≡◌, ◌||◌, IfSome};
ghost use Rattle.jl_class.specs.Meaning as meaning;
ghost use Rattle.jl_link.specs.Members as members;
ghost use Rattle.jl_link.specs.Members.{IsMethodThere, wanted};
ghost use Rattle.jl_link.specs.Selection as selection;
ghost use Rattle.jl_link.specs.Selection.{overrides_by};

use crate::member::Member;
use crate::methods::{is_class, own_method, superclass};
use jl_class::{is_private, is_protected, is_public, is_static};
use jl_loads::Loads;
use jl_prim::{ClassId, Name};

/// The first method from a class upwards that is this one or can override it.
pub fn overriding(loads: &Loads, c: ClassId, a: &Member, name: &Name, desc: &Name) -> Option<Member>
    ensures found { result ≡ selection.overriding loads.now c (wanted name.now desc.now) a.now }
    ensures there { IfSome result (λ m. IsMethodThere loads.now m) }
{
    let mut most = c.0;
    let mut at = Some(c);
    while let Some(here) = at {
        if most == 0 {
            return None;
        }
        if let Some(m) = overriding_at(loads, here, a, name, desc) {
            return Some(m);
        }
        at = superclass(loads, here);
        most -= 1;
    }
    None
}

/// The method of a class, where it is this one or can override it.
fn overriding_at(loads: &Loads, c: ClassId, a: &Member, name: &Name, desc: &Name) -> Option<Member>
    ensures found { result ≡ selection.overriding_at loads.now (wanted name.now desc.now) a.now c }
    ensures there { IfSome result (λ m. IsMethodThere loads.now m) }
{
    let m = own_method(loads, c, name, desc)?;
    if is_same_method(&m, a) || can_override(loads, &m, a, name, desc) {
        Some(m)
    } else {
        None
    }
}

/// Whether two members are one method.
fn is_same_method(a: &Member, b: &Member) -> bool
    ensures { result ≡ selection.is_same_method a.now b.now }
{
    a.owner.0 == b.owner.0 && a.at == b.at
}

/// Whether the one can override the other, of one name and descriptor. What makes an instance is never overridden.
fn can_override(loads: &Loads, b: &Member, a: &Member, name: &Name, desc: &Name) -> bool
    ensures { result ≡ selection.can_override loads.now (wanted name.now desc.now) b.now a.now }
{
    !is_init(name) && overrides(loads, b.owner.0, b, a, name, desc)
}

/// Whether the one overrides the other, over so many classes at most.
#[cycle(overriding)]
fn overrides(loads: &Loads, most: u32, b: &Member, a: &Member, name: &Name, desc: &Name) -> bool
    ensures { result ≡ overrides_by most loads.now (wanted name.now desc.now) b.now a.now }
{
    if most == 0 {
        return false;
    }
    if !is_inherited(b.flags) {
        return false;
    }
    is_seen_from(loads, a, b.owner) || has_way(loads, most - 1, b, a, name, desc)
}

/// Whether there is a method between the two that the one overrides and that overrides the other.
#[cycle(overriding)]
fn has_way(loads: &Loads, most: u32, b: &Member, a: &Member, name: &Name, desc: &Name) -> bool
    ensures { result ≡ selection.has_way (overrides_by most loads.now (wanted name.now desc.now)) loads.now (wanted name.now desc.now) b.now a.now }
{
    let mut left = b.owner.0;
    let mut at = Some(b.owner);
    while let Some(here) = at {
        if left == 0 {
            return false;
        }
        if is_way(loads, most, b, a, here, name, desc) {
            return true;
        }
        at = superclass(loads, here);
        left -= 1;
    }
    false
}

/// Whether a class between the two has such a method.
#[cycle(overriding)]
fn is_way(
    loads: &Loads,
    most: u32,
    b: &Member,
    a: &Member,
    c: ClassId,
    name: &Name,
    desc: &Name,
) -> bool
    ensures { result ≡ selection.is_way (overrides_by most loads.now (wanted name.now desc.now)) loads.now (wanted name.now desc.now) b.now a.now c }
{
    if !is_between(loads, b.owner, a.owner, c) {
        return false;
    }
    match own_method(loads, c, name, desc) {
        Some(m) => {
            overrides(loads, most, b, &m, name, desc) && overrides(loads, most, &m, a, name, desc)
        }
        None => false,
    }
}

/// Whether a class is between two others.
fn is_between(loads: &Loads, below: ClassId, above: ClassId, c: ClassId) -> bool
    ensures { result ≡ selection.is_between loads.now below above c }
{
    c.0 != below.0 && c.0 != above.0 && loads.is_subclass(c, above)
}

/// Whether all see the method, or the class of the other one does.
fn is_seen_from(loads: &Loads, a: &Member, c: ClassId) -> bool
    ensures { result ≡ selection.is_seen_from loads.now a.now c }
{
    is_public(a.flags) || is_protected(a.flags) || in_one_package(loads, c, a.owner)
}

/// Whether two classes are of one run-time package. Numbers that no class has are of none.
#[tactic(auto, using(crate::proofs::Choosing::one_package_is, crate::proofs::Choosing::no_package, crate::proofs::Choosing::no_package_either))]
fn in_one_package(loads: &Loads, c: ClassId, d: ClassId) -> bool
    ensures { result ≡ selection.in_one_package loads.now c d }
{
    if !is_class(loads, c) {
        return false;
    }
    if !is_class(loads, d) {
        return false;
    }
    loads.one_package(c, d)
}

/// Neither private nor static.
fn is_inherited(flags: u16) -> bool
    ensures { result ≡ members.is_inherited flags }
{
    !(is_private(flags) || is_static(flags))
}

/// The name of what makes an instance (JVMS 2.9.1).
pub fn is_init(name: &Name) -> bool
    ensures { result ≡ meaning.is_init name.now }
{
    name.as_str() == "<init>"
}
