//! Looking up a method (JVMS 5.4.3.3, 5.4.3.4).

ghost use Rattle.std.specs.Prelude.{◌≡◌, ◌∷◌, ◌++◌, [], filter, not, if◌then◌else◌, IfOk, IfSome, OnOk, None, true, false};
ghost use Rattle.std.specs.Option.{option_and_then};
ghost use Rattle.jl_link.specs.Members as members;
ghost use Rattle.jl_link.specs.Members.{IsMethodThere, wanted};
ghost use Rattle.jl_loads.specs.Worlds as worlds;
ghost use Rattle.jl_loads.specs.Worlds.{IsClass, line_of};

use crate::member::Member;
use jl_class::{ClassDecl, is_abstract, is_private, is_public, is_static};
use jl_loads::Loads;
use jl_prim::{ClassId, CopyEnd, Name};

/// The method that a class has: its own or that of a superclass, or else one of its superinterfaces (JVMS 5.4.3.3).
pub fn class_method(
    loads: &Loads,
    c: ClassId,
    name: &Name,
    desc: &Name,
) -> Result<Option<Member>, CopyEnd>
    requires { IsClass loads.now c }
    ensures found { IfOk result (λ m. m ≡ members.class_method loads.now c (wanted name.now desc.now)) }
    ensures there { IfOk result (λ o. IfSome o (λ m. IsMethodThere loads.now m)) }
{
    match line_method(loads, c, name, desc) {
        Some(m) => Ok(Some(m)),
        None => from_interfaces(loads, c, name, desc),
    }
}

/// The method that an interface has: its own, or one of Object, or else one of its superinterfaces (JVMS 5.4.3.4).
pub fn interface_method(
    loads: &Loads,
    c: ClassId,
    name: &Name,
    desc: &Name,
) -> Result<Option<Member>, CopyEnd>
    requires { IsClass loads.now c }
    ensures found { IfOk result (λ m. m ≡ members.interface_method loads.now c (wanted name.now desc.now)) }
    ensures there { IfOk result (λ o. IfSome o (λ m. IsMethodThere loads.now m)) }
{
    if let Some(m) = own_method(loads, c, name, desc) {
        return Ok(Some(m));
    }
    match object_method(loads, c, name, desc) {
        Some(m) => Ok(Some(m)),
        None => from_interfaces(loads, c, name, desc),
    }
}

/// The method that a class itself declares. Of a number that no class has it is none.
#[tactic(auto, using(crate::proofs::Looking::own_method_is, crate::proofs::Looking::own_method_there))]
pub fn own_method(loads: &Loads, c: ClassId, name: &Name, desc: &Name) -> Option<Member>
    ensures found { result ≡ members.own_method loads.now (wanted name.now desc.now) c }
    ensures there { IfSome result (λ m. IsMethodThere loads.now m) }
{
    if is_class(loads, c) {
        method_in(c, loads.class(c), name, desc)
    } else {
        None
    }
}

/// The method with a name and a descriptor in what a class declares.
#[tactic(auto, using(std::proofs::lemmas::Option::slice_get_read))]
fn method_in(c: ClassId, declared: &ClassDecl, name: &Name, desc: &Name) -> Option<Member>
    ensures { result ≡ members.method_in (wanted name.now desc.now) c declared.now.methods }
{
    let at = declared.method(name.as_bytes(), desc.as_bytes())?;
    Some(Member {
        owner: c,
        at,
        flags: declared.methods()[at].flags,
    })
}

/// The method that an interface hands on: its own, where that is neither private nor static.
pub fn offered(loads: &Loads, c: ClassId, name: &Name, desc: &Name) -> Option<Member>
    ensures found { result ≡ members.offered loads.now (wanted name.now desc.now) c }
    ensures there { IfSome result (λ m. IsMethodThere loads.now m) }
{
    let m = own_method(loads, c, name, desc)?;
    if is_private(m.flags) || is_static(m.flags) {
        None
    } else {
        Some(m)
    }
}

/// The superinterfaces whose maximally specific method is not abstract, in order (JVMS 5.4.3.3).
pub fn defaults(
    loads: &Loads,
    c: ClassId,
    name: &Name,
    desc: &Name,
) -> Result<Vec<ClassId>, CopyEnd>
    requires { IsClass loads.now c }
    ensures { IfOk result (λ is. is.items ≡ members.defaults loads.now c (wanted name.now desc.now)) }
{
    let offering = offering(loads, c, name, desc)?;
    let specific = most_specific(loads, &offering)?;
    let mut found = Vec::new(loads.allocator());
    for i in &specific {
        push_if(&mut found, *i, is_default(loads, *i, name, desc))?;
    }
    Ok(found)
}

/// The superinterfaces of a class that hand the method on, in order.
fn offering(loads: &Loads, c: ClassId, name: &Name, desc: &Name) -> Result<Vec<ClassId>, CopyEnd>
    requires { IsClass loads.now c }
    ensures { IfOk result (λ is. is.items ≡ members.offering loads.now c (wanted name.now desc.now)) }
{
    let interfaces = loads.superinterfaces(c);
    let mut found = Vec::new(loads.allocator());
    for i in interfaces {
        push_if(&mut found, *i, offered(loads, *i, name, desc).is_some())?;
    }
    Ok(found)
}

/// Those of some interfaces of which no other one is a subinterface, in order.
fn most_specific(loads: &Loads, interfaces: &[ClassId]) -> Result<Vec<ClassId>, CopyEnd>
    ensures { IfOk result (λ is. is.items ≡ filter (λ i. not (members.is_refined loads.now interfaces.now i)) interfaces.now) }
{
    let mut found = Vec::new(loads.allocator());
    for i in interfaces {
        push_if(&mut found, *i, !is_refined(loads, interfaces, *i))?;
    }
    Ok(found)
}

/// Takes a class into a list where a test says so.
fn push_if(found: &mut Vec<ClassId>, c: ClassId, is_one: bool) -> Result<(), CopyEnd>
    ensures { OnOk result (found.new.items ≡ found.old.items ++ (if is_one then c ∷ [] else [])) }
{
    if is_one {
        found.push(c)?;
    }
    Ok(())
}

/// Whether another one of some interfaces is a subinterface.
fn is_refined(loads: &Loads, interfaces: &[ClassId], i: ClassId) -> bool
    ensures { result ≡ members.is_refined loads.now interfaces.now i }
{
    interfaces.iter().any(|j| refines(loads, *j, i))
}

/// Whether one interface is a subinterface of another.
fn refines(loads: &Loads, j: ClassId, i: ClassId) -> bool
    ensures { result ≡ members.refines loads.now i j }
{
    i.0 != j.0 && loads.is_subtype(j, i)
}

/// Whether the method that an interface hands on is not abstract.
fn is_default(loads: &Loads, c: ClassId, name: &Name, desc: &Name) -> bool
    ensures { result ≡ members.is_default loads.now (wanted name.now desc.now) c }
{
    match offered(loads, c, name, desc) {
        Some(m) => !is_abstract(m.flags),
        None => false,
    }
}

/// The only maximally specific method that is not abstract, or else the first that is handed on.
fn from_interfaces(
    loads: &Loads,
    c: ClassId,
    name: &Name,
    desc: &Name,
) -> Result<Option<Member>, CopyEnd>
    requires { IsClass loads.now c }
    ensures found { IfOk result (λ m. m ≡ members.from_interfaces loads.now c (wanted name.now desc.now)) }
    ensures there { IfOk result (λ o. IfSome o (λ m. IsMethodThere loads.now m)) }
{
    match only_default(loads, c, name, desc)? {
        Some(m) => Ok(Some(m)),
        None => Ok(first_offered(loads, loads.superinterfaces(c), name, desc)),
    }
}

/// The maximally specific method that is not abstract, if there is only one.
fn only_default(
    loads: &Loads,
    c: ClassId,
    name: &Name,
    desc: &Name,
) -> Result<Option<Member>, CopyEnd>
    requires { IsClass loads.now c }
    ensures found { IfOk result (λ m. m ≡ option_and_then (members.offered loads.now (wanted name.now desc.now)) (members.only_one (members.defaults loads.now c (wanted name.now desc.now)))) }
    ensures there { IfOk result (λ o. IfSome o (λ m. IsMethodThere loads.now m)) }
{
    let defaults = defaults(loads, c, name, desc)?;
    if defaults.len() == 1 {
        Ok(offered(loads, defaults[0], name, desc))
    } else {
        Ok(None)
    }
}

/// The method of the first of some interfaces that hands it on.
fn first_offered(loads: &Loads, interfaces: &[ClassId], name: &Name, desc: &Name) -> Option<Member>
    ensures found { result ≡ members.first_given (members.offered loads.now (wanted name.now desc.now)) interfaces.now }
    ensures there { IfSome result (λ m. IsMethodThere loads.now m) }
{
    for i in interfaces {
        if let Some(m) = offered(loads, *i, name, desc) {
            return Some(m);
        }
    }
    None
}

/// The method of a class or of the first of its superclasses that declares it.
fn line_method(loads: &Loads, c: ClassId, name: &Name, desc: &Name) -> Option<Member>
    ensures found { result ≡ members.first_given (members.own_method loads.now (wanted name.now desc.now)) (line_of loads.now c) }
    ensures there { IfSome result (λ m. IsMethodThere loads.now m) }
{
    let mut most = c.0;
    let mut at = Some(c);
    while let Some(here) = at {
        if most == 0 {
            return None;
        }
        if let Some(m) = own_method(loads, here, name, desc) {
            return Some(m);
        }
        at = superclass(loads, here);
        most -= 1;
    }
    None
}

/// A method of Object, which is the superclass of an interface, that is public and of instances.
fn object_method(loads: &Loads, c: ClassId, name: &Name, desc: &Name) -> Option<Member>
    ensures found { result ≡ members.object_method loads.now c (wanted name.now desc.now) }
    ensures there { IfSome result (λ m. IsMethodThere loads.now m) }
{
    let m = own_method(loads, superclass(loads, c)?, name, desc)?;
    if is_public(m.flags) && !is_static(m.flags) {
        Some(m)
    } else {
        None
    }
}

/// The superclass of a class. Of a number that no class has it is none.
pub fn superclass(loads: &Loads, c: ClassId) -> Option<ClassId>
    ensures { result ≡ worlds.super_of loads.now c }
{
    if is_class(loads, c) {
        loads.super_of(c)
    } else {
        None
    }
}

/// Whether there is a class with a number.
pub fn is_class(loads: &Loads, c: ClassId) -> bool
    ensures there { result ≡ true → IsClass loads.now c }
    ensures none { result ≡ false → worlds.class_at loads.now c ≡ None }
{
    c.0 > 0 && c.0 <= loads.classes()
}
