//! Selecting a method (JVMS 5.4.6).

ghost use Rattle.std.specs.Prelude.{◌≡◌, ◌<◌, ℕ, IfErr, IfOk};
ghost use Rattle.jl_link.specs.Members.{IsMethodThere, wanted};
ghost use Rattle.jl_link.specs.Selection as selection;
ghost use Rattle.jl_loads.specs.Ends.{Leaves, IsNotRead};
ghost use Rattle.jl_loads.specs.Worlds.{IsClass, IsMethodOf, all_methods, class_at};

use crate::member::Member;
use crate::methods::{defaults, offered};
use crate::overriding::{is_init, overriding};
use jl_class::{is_abstract, is_interface, is_private};
use jl_loads::{LinkEnd, Loads, numbers_name_one_member, of_member};
use jl_prim::{ClassId, CopyEnd, ErrorKind, MethodId, Name};

/// The method that is called of an object of a class, for a method of instances that was resolved (JVMS 5.4.6).
pub fn select(loads: &Loads, class: ClassId, method: MethodId) -> Result<MethodId, LinkEnd>
    requires class { IsClass loads.now class }
    requires method { method.0 < all_methods loads.now }
    ensures selects { (owner : ClassId) (at : ℕ) → IsMethodOf loads.now method owner at → Leaves (selection.select loads.now class owner at) result loads.now }
    ensures there { IfOk result (λ m. m.0 < all_methods loads.now) }
    ensures not_read { IfErr result IsNotRead }
{
    numbers_name_one_member();
    let (owner, at) = loads.method_owner(method);
    select_for(loads, class, owner, at)
}

/// The method that is called of an object of a class, for the method at a place of another.
fn select_for(loads: &Loads, class: ClassId, owner: ClassId, at: usize) -> Result<MethodId, LinkEnd>
    requires class { IsClass loads.now class }
    requires method { IsMethodThere loads.now (selection.placed owner at) }
    ensures selects { Leaves (selection.select loads.now class owner at) result loads.now }
    ensures there { IfOk result (λ m. m.0 < all_methods loads.now) }
    ensures not_read { IfErr result IsNotRead }
{
    let declared = &loads.class(owner).methods()[at];
    let m = Member {
        owner,
        at,
        flags: declared.flags,
    };
    match selected(loads, class, &m, &declared.name, &declared.desc)? {
        Ok(found) => Ok(loads.method_id(found.owner, found.at)),
        Err(kind) => Err(of_member(
            loads.allocator(),
            kind,
            loads.class(owner).name(),
            &declared.name,
        )),
    }
}

/// The method that is called for one with a name and a descriptor, or the kind of the error. A private one is itself.
fn selected(
    loads: &Loads,
    c: ClassId,
    m: &Member,
    name: &Name,
    desc: &Name,
) -> Result<Result<Member, ErrorKind>, CopyEnd>
    requires class { IsClass loads.now c }
    requires method { IsMethodThere loads.now m.now }
    ensures selects { IfOk result (λ r. r ≡ selection.selected loads.now c (wanted name.now desc.now) m.now) }
    ensures there { IfOk result (λ r. IfOk r (λ f. IsMethodThere loads.now f)) }
{
    if !implements(loads, c, m) {
        return Ok(Err(ErrorKind::IncompatibleClassChangeError));
    }
    if is_private(m.flags) {
        return Ok(Ok(*m));
    }
    match overriding(loads, c, m, name, desc) {
        Some(found) => Ok(concrete(found)),
        None => default_of(loads, c, name, desc),
    }
}

/// Whether a class has the methods of the one that declares a method: it implements it, if that is an interface.
#[tactic(auto, using(crate::proofs::Choosing::implements_is))]
fn implements(loads: &Loads, c: ClassId, m: &Member) -> bool
    requires { IsClass loads.now m.now.owner }
    ensures { result ≡ selection.implements loads.now c m.now (class_at loads.now m.now.owner) }
{
    !is_interface(loads.class(m.owner).flags()) || loads.is_subtype(c, m.owner)
}

/// A method that is not abstract.
fn concrete(m: Member) -> Result<Member, ErrorKind>
    ensures is { result ≡ selection.concrete m }
    ensures same { IfOk result (λ f. f ≡ m) }
{
    if is_abstract(m.flags) {
        Err(ErrorKind::AbstractMethodError)
    } else {
        Ok(m)
    }
}

/// The method of the only superinterface that has one which is not abstract and maximally specific.
fn default_of(
    loads: &Loads,
    c: ClassId,
    name: &Name,
    desc: &Name,
) -> Result<Result<Member, ErrorKind>, CopyEnd>
    requires { IsClass loads.now c }
    ensures selects { IfOk result (λ r. r ≡ selection.from_defaults loads.now (wanted name.now desc.now) (selection.selectable loads.now c (wanted name.now desc.now))) }
    ensures there { IfOk result (λ r. IfOk r (λ f. IsMethodThere loads.now f)) }
{
    if is_init(name) {
        return Ok(Err(ErrorKind::AbstractMethodError));
    }
    let found = defaults(loads, c, name, desc)?;
    Ok(only_one(loads, &found, name, desc))
}

/// The method of the only one of some interfaces.
fn only_one(
    loads: &Loads,
    interfaces: &[ClassId],
    name: &Name,
    desc: &Name,
) -> Result<Member, ErrorKind>
    ensures selects { result ≡ selection.from_defaults loads.now (wanted name.now desc.now) interfaces.now }
    ensures there { IfOk result (λ f. IsMethodThere loads.now f) }
{
    match interfaces {
        [] => Err(ErrorKind::AbstractMethodError),
        [i] => offered_by(loads, *i, name, desc),
        _ => Err(ErrorKind::IncompatibleClassChangeError),
    }
}

/// The method of an interface, where it is not abstract.
fn offered_by(loads: &Loads, i: ClassId, name: &Name, desc: &Name) -> Result<Member, ErrorKind>
    ensures selects { result ≡ selection.offered_by loads.now (wanted name.now desc.now) i }
    ensures there { IfOk result (λ f. IsMethodThere loads.now f) }
{
    match offered(loads, i, name, desc) {
        Some(m) => concrete(m),
        None => Err(ErrorKind::AbstractMethodError),
    }
}
