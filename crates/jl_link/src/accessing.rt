//! Access to a member (JVMS 5.4.4).

ghost use Rattle.std.specs.Prelude.{◌≡◌, ◌≤◌, ◌&&◌, List, ℕ, Some, not, true, IfErr, IfOk, IsErrOf, IsTrue, OnOk};
ghost use Rattle.std.specs.String.{string_bytes};
ghost use Rattle.jl_logic.specs.Counts.{Rose};
ghost use Rattle.jl_tree.specs.Files.{File};
ghost use Rattle.jl_class.specs.Meaning.{is_private as private_by};
ghost use Rattle.jl_access.specs.Verdicts.{member_verdict};
ghost use Rattle.jl_access.specs.declared.report.NoteKind.TheVariants as kinds;
ghost use Rattle.jl_loads.specs.Ends.{Asks, Leaves, IsNotRead};
ghost use Rattle.jl_loads.specs.Loading as loading;
ghost use Rattle.jl_loads.specs.Worlds.{IsClass, Keeps, Loaded, class_at, is_same};
ghost use Rattle.jl_link.specs.Members.{wanted};
ghost use Rattle.jl_link.specs.Nests.{IsSilent, host_of};
ghost use Rattle.jl_link.specs.References as references;
ghost use Rattle.jl_link.specs.References.{stands};
ghost use Rattle.jl_link.specs.Standing.{AreOfOneNest, MayUse};

use crate::member::Member;
use crate::nests::host_of;
use jl_access::{Access, MemberAccess, NoteKind, Verdict};
use jl_class::{is_private, is_static};
use jl_loads::{LinkEnd, Loads, read_once};
use jl_names::dotted;
use jl_prim::{ClassId, Name};
use jl_tree::Tree;
use std::alloc::AllocError;

/// Whether a class may use a member, which it names by a class in which that was found (JVMS 5.4.4). The hosts of two
/// classes are loaded only for a private member of another class, that of the caller first.
pub fn judge_member<T: Tree>(
    loads: &mut Loads,
    tree: &mut T,
    d: ClassId,
    named: ClassId,
    access: Access,
    name: &Name,
    m: &Member,
    at: u64,
) -> Result<(), LinkEnd>
    requires caller { IsClass loads.old d }
    requires owner { IsClass loads.old m.now.owner }
    ensures judges { (files : List File) (from to : Loaded) (desc : List ℕ) → T.files tree.old ≡ Some files → class_at loads.old d ≡ Some from → class_at loads.old m.now.owner ≡ Some to → Leaves (references.judged_member at d from named access (wanted name.now desc) m.now to (references.in_one_nest files at loads.old d m.now)) result loads.new }
    ensures granted { (from to : Loaded) → class_at loads.old d ≡ Some from → class_at loads.old m.now.owner ≡ Some to → OnOk result (MayUse loads.new d from named access m.now to) }
    ensures keeps { Keeps loads.old loads.new }
    ensures asks { Asks loads.old loads.new (T.asked tree.old) (T.asked tree.new) }
    ensures same_files { T.files tree.new ≡ T.files tree.old }
    ensures counts { T.faults tree.old ≤ T.faults tree.new }
    ensures read_fault { IsErrOf result LinkEnd.ReadFault → Rose (T.faults tree.old) (T.faults tree.new) }
{
    read_once();
    match in_one_nest(loads, tree, d, m, at) {
        Ok(same_nest) => judged(loads, d, named, access, name, m, same_nest, at),
        Err(end) => Err(end),
    }
}

/// Whether a member is a private one of another class, and the two are of one nest.
fn in_one_nest<T: Tree>(
    loads: &mut Loads,
    tree: &mut T,
    d: ClassId,
    m: &Member,
    at: u64,
) -> Result<bool, LinkEnd>
    requires caller { IsClass loads.old d }
    requires owner { IsClass loads.old m.now.owner }
    ensures nests { (files : List File) → T.files tree.old ≡ Some files → IfOk result (λ b. (loads.new, b) ≡ references.in_one_nest files at loads.old d m.now) }
    ensures found { IfOk result (λ b. b ≡ true → IsTrue (private_by m.now.flags && not (is_same d m.now.owner)) × AreOfOneNest loads.new d m.now.owner) }
    ensures silent { IfErr result IsSilent }
    ensures keeps { Keeps loads.old loads.new }
    ensures asks { Asks loads.old loads.new (T.asked tree.old) (T.asked tree.new) }
    ensures same_files { T.files tree.new ≡ T.files tree.old }
    ensures counts { T.faults tree.old ≤ T.faults tree.new }
    ensures read_fault { IsErrOf result LinkEnd.ReadFault → Rose (T.faults tree.old) (T.faults tree.new) }
{
    if !is_of_nest(d, m) {
        read_once();
        return Ok(false);
    }
    of_one_nest(loads, tree, d, m, at)
}

/// Whether nests are looked at: for a private member of another class.
fn is_of_nest(d: ClassId, m: &Member) -> bool
    ensures { result ≡ (private_by m.now.flags && not (is_same d m.now.owner)) }
{
    is_private(m.flags) && d.0 != m.owner.0
}

/// Whether a private member of another class is of one nest with the caller.
fn of_one_nest<T: Tree>(
    loads: &mut Loads,
    tree: &mut T,
    d: ClassId,
    m: &Member,
    at: u64,
) -> Result<bool, LinkEnd>
    requires caller { IsClass loads.old d }
    requires owner { IsClass loads.old m.now.owner }
    requires private { IsTrue (private_by m.now.flags && not (is_same d m.now.owner)) }
    ensures nests { (files : List File) → T.files tree.old ≡ Some files → IfOk result (λ b. (loads.new, b) ≡ references.in_one_nest files at loads.old d m.now) }
    ensures found { IfOk result (λ b. b ≡ true → AreOfOneNest loads.new d m.now.owner) }
    ensures silent { IfErr result IsSilent }
    ensures keeps { Keeps loads.old loads.new }
    ensures asks { Asks loads.old loads.new (T.asked tree.old) (T.asked tree.new) }
    ensures same_files { T.files tree.new ≡ T.files tree.old }
    ensures counts { T.faults tree.old ≤ T.faults tree.new }
    ensures read_fault { IsErrOf result LinkEnd.ReadFault → Rose (T.faults tree.old) (T.faults tree.new) }
{
    read_once();
    match host_of(loads, tree, d, at) {
        Ok(host) => match host_of(loads, tree, m.owner, at) {
            Ok(other) => Ok(host.0 == other.0),
            Err(end) => Err(end),
        },
        Err(end) => Err(end),
    }
}

/// The verdict on a member, noted, and what it lets through.
fn judged(
    loads: &mut Loads,
    d: ClassId,
    named: ClassId,
    access: Access,
    name: &Name,
    m: &Member,
    same_nest: bool,
    at: u64,
) -> Result<(), LinkEnd>
    requires caller { IsClass loads.old d }
    requires owner { IsClass loads.old m.now.owner }
    ensures judges { (from to : Loaded) → class_at loads.old d ≡ Some from → class_at loads.old m.now.owner ≡ Some to → Leaves (loading.checked at from to kinds.Member (references.member_text to.declared.name name.now) loads.old (member_verdict (stands loads.old d from named access m.now to same_nest))) result loads.new }
    ensures not_read { IfErr result IsNotRead }
    ensures keeps { Keeps loads.old loads.new }
{
    let verdict = verdict_on(loads, d, named, access, m, same_nest);
    match member_text(loads, m.owner, name) {
        Ok(what) => loads.checked(d, m.owner, NoteKind::Member, what.as_str(), verdict, at),
        Err(_) => Err(LinkEnd::NoMemory),
    }
}

/// The verdict, once it is known whether the two classes are of one nest.
fn verdict_on(
    loads: &Loads,
    d: ClassId,
    named: ClassId,
    access: Access,
    m: &Member,
    same_nest: bool,
) -> Verdict
    requires caller { IsClass loads.now d }
    requires owner { IsClass loads.now m.now.owner }
    ensures { (from to : Loaded) → class_at loads.now d ≡ Some from → class_at loads.now m.now.owner ≡ Some to → result ≡ member_verdict (stands loads.now d from named access m.now to same_nest) }
{
    loads.layers().facts().member_verdict(&MemberAccess {
        access,
        is_static: is_static(m.flags),
        same_class: d.0 == m.owner.0,
        same_nest,
        same_package: loads.one_package(d, m.owner),
        subclass: loads.is_subclass(d, m.owner),
        named_related: loads.is_subclass(named, d) || loads.is_subclass(d, named),
    })
}

/// A member as errors name it.
fn member_text(loads: &Loads, owner: ClassId, name: &Name) -> Result<String, AllocError>
    requires { IsClass loads.now owner }
    ensures { (to : Loaded) → class_at loads.now owner ≡ Some to → IfOk result (λ text. string_bytes text ≡ references.member_text to.declared.name name.now) }
{
    let alloc = loads.allocator();
    let mut text = dotted(alloc, loads.class(owner).name().as_str())?;
    text.push_str(".")?;
    text.push_str(name.as_str())?;
    Ok(text)
}
