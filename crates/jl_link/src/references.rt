//! Resolving a reference of a class, once for all (JVMS 5.4.3): a class, an array class, a field or a method.

ghost use Rattle.std.specs.Prelude.{◌≡◌, ◌≤◌, ◌<◌, List, None, Some, length, option_map, IfErr, IfOk, IsErrOf, IsTrue, Ok, ℕ};
ghost use Rattle.jl_logic.specs.Counts.{Rose};
ghost use Rattle.jl_tree.specs.Files.{File};
ghost use Rattle.jl_pool.specs.Pool.{member_of};
ghost use Rattle.jl_loads.specs.declared.slot.PoolSlot.TheVariants.{Empty, Passed};
ghost use Rattle.jl_loads.specs.Ends.{Asks, Leaves, IsNotRead};
ghost use Rattle.jl_loads.specs.Outcomes.{and_then};
ghost use Rattle.jl_loads.specs.Worlds.{IsClass, Keeps, Loaded, class_at, row_of, slot_at};
ghost use Rattle.jl_link.specs.Constraining.{agree};
ghost use Rattle.jl_link.specs.Laws.{AllStand, Onward};
ghost use Rattle.jl_link.specs.Moving.{Moves};
ghost use Rattle.jl_link.specs.References as references;
ghost use Rattle.jl_link.specs.Slots.{IsMemberThere};
ghost use Rattle.jl_link.specs.Standing.{AreAgreed, IsMemberOf, RefersTo};

use crate::accessing::judge_member;
use crate::constraining::agree;
use crate::entry::{MemberEntry, class_index, entry_at};
use crate::keeping::{answer_of, settle, slot_of};
use crate::law::decided_stays;
use crate::member::Member;
use crate::methods::is_class;
use crate::resolving::{class_anew, resolve_class};
use crate::targeting::{access_by, fits_kind, looked_up_in, member_in, missing_kind, target_of};
use jl_access::grants_stay;
use jl_loads::{
    LinkEnd, Loads, Target, classes_stay, is_sound, loads_stay, of_member, read_once, sound_stays,
};
use jl_prim::{ClassId, ErrorKind};
use jl_tree::Tree;

/// What the reference at an index of a class refers to: the answer that is kept, or one that is found and kept now. A
/// reference that failed throws the same error again. `ReadFault` comes only where the count of the tree's faults rose.
pub fn resolve<T: Tree>(
    loads: &mut Loads,
    tree: &mut T,
    d: ClassId,
    index: u16,
    at: u64,
) -> Result<Target, LinkEnd>
    requires class { IsClass loads.old d }
    requires within { index < length (row_of loads.old d) }
    ensures finds { (files : List File) → T.files tree.old ≡ Some files → Leaves (references.resolve files at loads.old d index) result loads.new }
    ensures passed { IfOk result (λ t. slot_at loads.new d index ≡ Passed t) }
    ensures onward { Onward loads.old loads.new }
    ensures stand { AllStand loads.old → AllStand loads.new }
    ensures asks { Asks loads.old loads.new (T.asked tree.old) (T.asked tree.new) }
    ensures same_files { T.files tree.new ≡ T.files tree.old }
    ensures counts { T.faults tree.old ≤ T.faults tree.new }
    ensures read_fault { IsErrOf result LinkEnd.ReadFault → Rose (T.faults tree.old) (T.faults tree.new) }
{
    decided_stays();
    read_once();
    match answer_of(slot_of(loads, d, index)) {
        Some(answer) => answer,
        None => decide(loads, tree, d, index, at),
    }
}

/// A reference that is not decided: what is found is kept.
fn decide<T: Tree>(
    loads: &mut Loads,
    tree: &mut T,
    d: ClassId,
    index: u16,
    at: u64,
) -> Result<Target, LinkEnd>
    requires class { IsClass loads.old d }
    requires within { index < length (row_of loads.old d) }
    requires free { slot_at loads.old d index ≡ Empty }
    ensures finds { (files : List File) → T.files tree.old ≡ Some files → Leaves (references.resolve files at loads.old d index) result loads.new }
    ensures passed { IfOk result (λ t. slot_at loads.new d index ≡ Passed t) }
    ensures onward { Onward loads.old loads.new }
    ensures stand { AllStand loads.old → AllStand loads.new }
    ensures asks { Asks loads.old loads.new (T.asked tree.old) (T.asked tree.new) }
    ensures same_files { T.files tree.new ≡ T.files tree.old }
    ensures counts { T.faults tree.old ≤ T.faults tree.new }
    ensures read_fault { IsErrOf result LinkEnd.ReadFault → Rose (T.faults tree.old) (T.faults tree.new) }
{
    decided_stays();
    read_once();
    is_sound(loads);
    let found = resolve_anew(loads, tree, d, index, at);
    is_sound(loads);
    settle(loads, d, index, found)
}

/// A reference, resolved anew.
fn resolve_anew<T: Tree>(
    loads: &mut Loads,
    tree: &mut T,
    d: ClassId,
    index: u16,
    at: u64,
) -> Result<Target, LinkEnd>
    requires class { IsClass loads.old d }
    requires within { index < length (row_of loads.old d) }
    ensures finds { (files : List File) → T.files tree.old ≡ Some files → Leaves (references.resolve_anew files at loads.old d index) result loads.new }
    ensures refers { IfOk result (RefersTo loads.new d index) }
    ensures free { slot_at loads.old d index ≡ Empty → slot_at loads.new d index ≡ Empty }
    ensures onward { Onward loads.old loads.new }
    ensures stand { AllStand loads.old → AllStand loads.new }
    ensures asks { Asks loads.old loads.new (T.asked tree.old) (T.asked tree.new) }
    ensures same_files { T.files tree.new ≡ T.files tree.old }
    ensures counts { T.faults tree.old ≤ T.faults tree.new }
    ensures read_fault { IsErrOf result LinkEnd.ReadFault → Rose (T.faults tree.old) (T.faults tree.new) }
{
    decided_stays();
    is_sound(loads);
    match class_index(loads, d, index) {
        None => class_anew(loads, tree, d, index, at),
        Some(class) => member_anew(loads, tree, d, index, class, at),
    }
}

/// A member entry, resolved anew: its class reference first, and then the member.
fn member_anew<T: Tree>(
    loads: &mut Loads,
    tree: &mut T,
    d: ClassId,
    index: u16,
    class: u16,
    at: u64,
) -> Result<Target, LinkEnd>
    requires class { IsClass loads.old d }
    requires parts { (from : Loaded) → class_at loads.old d ≡ Some from → Some class ≡ option_map (λ (parts : ℕ × ℕ × ℕ). parts.1) (member_of from.declared.pool index) }
    requires named { (from : Loaded) → class_at loads.old d ≡ Some from → member_of from.declared.pool class ≡ None }
    requires within { class < length (row_of loads.old d) }
    ensures finds { (files : List File) → T.files tree.old ≡ Some files → Leaves (references.resolve_anew files at loads.old d index) result loads.new }
    ensures refers { IfOk result (RefersTo loads.new d index) }
    ensures free { slot_at loads.old d index ≡ Empty → slot_at loads.new d index ≡ Empty }
    ensures onward { Onward loads.old loads.new }
    ensures stand { AllStand loads.old → AllStand loads.new }
    ensures asks { Asks loads.old loads.new (T.asked tree.old) (T.asked tree.new) }
    ensures same_files { T.files tree.new ≡ T.files tree.old }
    ensures counts { T.faults tree.old ≤ T.faults tree.new }
    ensures read_fault { IsErrOf result LinkEnd.ReadFault → Rose (T.faults tree.old) (T.faults tree.new) }
{
    decided_stays();
    read_once();
    is_sound(loads);
    match entry_at(loads, d, index) {
        Ok(entry) => match resolve_class(loads, tree, d, class, at) {
            Ok(target) => {
                is_sound(loads);
                in_target(loads, tree, d, &entry, &target, at)
            }
            Err(end) => Err(end),
        },
        Err(_) => Err(LinkEnd::NoMemory),
    }
}

/// The member of the class that a class reference has as its target.
fn in_target<T: Tree>(
    loads: &mut Loads,
    tree: &mut T,
    d: ClassId,
    entry: &MemberEntry,
    class: &Target,
    at: u64,
) -> Result<Target, LinkEnd>
    requires { IsClass loads.old d }
    ensures finds { (files : List File) (from : Loaded) → T.files tree.old ≡ Some files → class_at loads.old d ≡ Some from → Leaves (references.in_target files at loads.old d from entry.now class.now (references.looked_up_in loads.old class.now)) result loads.new }
    ensures found { (from : Loaded) → class_at loads.old d ≡ Some from → IfOk result (IsMemberOf loads.new d from entry.now class.now) }
    ensures moves { Moves loads.old loads.new }
    ensures asks { Asks loads.old loads.new (T.asked tree.old) (T.asked tree.new) }
    ensures same_files { T.files tree.new ≡ T.files tree.old }
    ensures counts { T.faults tree.old ≤ T.faults tree.new }
    ensures read_fault { IsErrOf result LinkEnd.ReadFault → Rose (T.faults tree.old) (T.faults tree.new) }
{
    read_once();
    match looked_up_in(loads, class) {
        Ok(Some(c)) if is_class(loads, c) => in_class(loads, tree, d, entry, class, c, at),
        Ok(_) => Err(of_member(
            loads.allocator(),
            missing_kind(entry.kind),
            &entry.class,
            &entry.name,
        )),
        Err(_) => Err(LinkEnd::NoMemory),
    }
}

/// The member of a class, of which the kind has to fit.
fn in_class<T: Tree>(
    loads: &mut Loads,
    tree: &mut T,
    d: ClassId,
    entry: &MemberEntry,
    class: &Target,
    c: ClassId,
    at: u64,
) -> Result<Target, LinkEnd>
    requires caller { IsClass loads.old d }
    requires there { IsClass loads.old c }
    requires looked_up { references.looked_up_in loads.old class.now ≡ Some c }
    ensures finds { (files : List File) (from : Loaded) → T.files tree.old ≡ Some files → class_at loads.old d ≡ Some from → Leaves (references.in_class files at loads.old d from class.now entry.now c (class_at loads.old c)) result loads.new }
    ensures found { (from : Loaded) → class_at loads.old d ≡ Some from → IfOk result (IsMemberOf loads.new d from entry.now class.now) }
    ensures moves { Moves loads.old loads.new }
    ensures asks { Asks loads.old loads.new (T.asked tree.old) (T.asked tree.new) }
    ensures same_files { T.files tree.new ≡ T.files tree.old }
    ensures counts { T.faults tree.old ≤ T.faults tree.new }
    ensures read_fault { IsErrOf result LinkEnd.ReadFault → Rose (T.faults tree.old) (T.faults tree.new) }
{
    read_once();
    let alloc = loads.allocator();
    if !fits_kind(loads, entry.kind, c) {
        let kind = ErrorKind::IncompatibleClassChangeError;
        return Err(of_member(alloc, kind, &entry.class, &entry.name));
    }
    match member_in(loads, entry, c) {
        Ok(Some(m)) => let_through(loads, tree, d, entry, class, c, &m, at),
        Ok(None) => Err(of_member(alloc, missing_kind(entry.kind), &entry.class, &entry.name)),
        Err(_) => Err(LinkEnd::NoMemory),
    }
}

/// What a member that was found adds: access to it, and constraints on the two loaders.
fn let_through<T: Tree>(
    loads: &mut Loads,
    tree: &mut T,
    d: ClassId,
    entry: &MemberEntry,
    class: &Target,
    c: ClassId,
    m: &Member,
    at: u64,
) -> Result<Target, LinkEnd>
    requires caller { IsClass loads.old d }
    requires there { IsClass loads.old c }
    requires looked_up { references.looked_up_in loads.old class.now ≡ Some c }
    requires fits { (x : Loaded) → class_at loads.old c ≡ Some x → IsTrue (references.fits_kind entry.now.kind x) }
    requires member { references.member_in entry.now.kind loads.old c entry.now.wanted ≡ Some m.now }
    requires owner { IsMemberThere entry.now.kind loads.old m.now }
    ensures finds { (files : List File) (from : Loaded) → T.files tree.old ≡ Some files → class_at loads.old d ≡ Some from → Leaves (references.let_through files at loads.old d from c class.now entry.now m.now (class_at loads.old m.now.owner)) result loads.new }
    ensures found { (from : Loaded) → class_at loads.old d ≡ Some from → IfOk result (IsMemberOf loads.new d from entry.now class.now) }
    ensures moves { Moves loads.old loads.new }
    ensures asks { Asks loads.old loads.new (T.asked tree.old) (T.asked tree.new) }
    ensures same_files { T.files tree.new ≡ T.files tree.old }
    ensures counts { T.faults tree.old ≤ T.faults tree.new }
    ensures read_fault { IsErrOf result LinkEnd.ReadFault → Rose (T.faults tree.old) (T.faults tree.new) }
{
    grants_stay();
    classes_stay();
    loads_stay();
    sound_stays();
    read_once();
    is_sound(loads);
    let access = access_by(class, entry, m.flags);
    match judge_member(loads, tree, d, c, access, &entry.name, m, at) {
        Ok(()) => {
            is_sound(loads);
            agreed(loads, d, entry, m)
        }
        Err(end) => Err(end),
    }
}

/// The constraints on the loaders of a class and of the one that has the member which it names, and then the target.
fn agreed(loads: &mut Loads, d: ClassId, entry: &MemberEntry, m: &Member) -> Result<Target, LinkEnd>
    requires caller { IsClass loads.old d }
    requires owner { IsMemberThere entry.now.kind loads.old m.now }
    ensures finds { (from to : Loaded) → class_at loads.old d ≡ Some from → class_at loads.old m.now.owner ≡ Some to → Leaves (and_then (agree loads.old from.loader to.loader entry.now.wanted.desc) (λ v y. (v, Ok (references.target_of entry.now.kind v m.now)))) result loads.new }
    ensures target { IfOk result (λ t. t ≡ references.target_of entry.now.kind loads.new m.now) }
    ensures agreed { (from to : Loaded) → class_at loads.old d ≡ Some from → class_at loads.old m.now.owner ≡ Some to → IfOk result (λ t. AreAgreed loads.new from.loader to.loader entry.now.wanted.desc) }
    ensures moves { Moves loads.old loads.new }
    ensures not_read { IfErr result IsNotRead }
{
    let one = loads.loader_of(d);
    let other = loads.loader_of(m.owner);
    match agree(loads, one, other, &entry.desc) {
        Ok(()) => Ok(target_of(loads, entry.kind, m)),
        Err(end) => Err(end),
    }
}
