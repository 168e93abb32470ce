//! Looking up a field (JVMS 5.4.3.2).

ghost use Rattle.std.specs.Prelude.{◌≡◌, ◌∷◌, ◌++◌, [], IfOk, IfSome, MatchOption, OnOk, Some};
ghost use Rattle.jl_link.specs.Members as members;
ghost use Rattle.jl_link.specs.Members.{IsFieldThere, wanted};
ghost use Rattle.jl_link.specs.Searching.{IsEntered, entered, opened};
ghost use Rattle.jl_loads.specs.Worlds.{IsClass, is_among};

use crate::member::Member;
use jl_class::ClassDecl;
use jl_loads::{Loads, is_sound};
use jl_prim::{ClassId, CopyEnd, Name};

/// What is still to be done: to look in a class and above it, or, where nothing was found there, to say so of it.
#[derive(Clone, Copy)]
enum Step {
    Enter(ClassId),
    Leave(ClassId),
}

/// The field that a class has: its own, or else one of its superinterfaces, or else one of its superclass
/// (JVMS 5.4.3.2). No class is searched twice.
pub fn field_of(
    loads: &Loads,
    c: ClassId,
    name: &Name,
    desc: &Name,
) -> Result<Option<Member>, CopyEnd>
    requires { IsClass loads.now c }
    ensures found { IfOk result (λ m. m ≡ members.field_of loads.now c (wanted name.now desc.now)) }
    ensures there { IfOk result (λ o. IfSome o (λ m. IsFieldThere loads.now m)) }
{
    is_sound(loads);
    let alloc = loads.allocator();
    let mut steps = Vec::new(alloc);
    let mut vain = Vec::new(alloc);
    steps.push(Step::Enter(c))?;
    'looking: for _ in 0..u64::MAX {
        let Some(step) = take_last(&mut steps) else {
            return Ok(None);
        };
        match step {
            Step::Leave(d) => vain.push(d)?,
            Step::Enter(d) => {
                if let Some(m) = enter(loads, &mut steps, &vain, d, name, desc)? {
                    return Ok(Some(m));
                }
            }
        }
    }
    Err(CopyEnd::NoMemory)
}

/// Takes the uppermost step.
fn take_last(steps: &mut Vec<Step>) -> Option<Step>
    ensures { MatchOption result (steps.old.items ≡ []) (λ step. steps.old.items ≡ steps.new.items ++ step ∷ []) }
{
    steps.pop()
}

/// Looks in a class: answers the field that it declares, or else puts what is above it on top.
fn enter(
    loads: &Loads,
    steps: &mut Vec<Step>,
    vain: &[ClassId],
    d: ClassId,
    name: &Name,
    desc: &Name,
) -> Result<Option<Member>, CopyEnd>
    requires { IsClass loads.now d }
    ensures { IfOk result (λ o. MatchOption o (IsEntered loads.now (wanted name.now desc.now) vain.now d steps.old.items steps.new.items) (λ m. members.own_field loads.now (wanted name.now desc.now) d ≡ Some m)) }
{
    if is_among(vain, d) {
        return Ok(None);
    }
    match own_field(loads, d, name, desc) {
        Some(m) => Ok(Some(m)),
        None => {
            open(loads, steps, d)?;
            Ok(None)
        }
    }
}

/// The field that a class itself declares.
#[tactic(auto, using(crate::proofs::Looking::own_field_is))]
fn own_field(loads: &Loads, c: ClassId, name: &Name, desc: &Name) -> Option<Member>
    requires { IsClass loads.now c }
    ensures { result ≡ members.own_field loads.now (wanted name.now desc.now) c }
{
    field_in(c, loads.class(c), name, desc)
}

/// The field with a name and a descriptor in what a class declares.
#[tactic(auto, using(std::proofs::lemmas::Option::slice_get_read))]
fn field_in(c: ClassId, declared: &ClassDecl, name: &Name, desc: &Name) -> Option<Member>
    ensures { result ≡ members.field_in (wanted name.now desc.now) c declared.now.fields }
{
    let at = declared.field(name.as_bytes(), desc.as_bytes())?;
    Some(Member {
        owner: c,
        at,
        flags: declared.fields()[at].flags,
    })
}

/// Puts what is above a class on top, its first superinterface uppermost.
fn open(loads: &Loads, steps: &mut Vec<Step>, c: ClassId) -> Result<(), CopyEnd>
    requires { IsClass loads.now c }
    ensures { OnOk result (steps.new.items ≡ steps.old.items ++ opened loads.now c) }
{
    steps.push(Step::Leave(c))?;
    if let Some(d) = loads.super_of(c) {
        steps.push(Step::Enter(d))?;
    }
    enter_all(steps, loads.interfaces_of(c))
}

/// Puts classes on top, the first of them uppermost.
fn enter_all(steps: &mut Vec<Step>, classes: &[ClassId]) -> Result<(), CopyEnd>
    ensures { OnOk result (steps.new.items ≡ steps.old.items ++ entered classes.now) }
{
    let mut left = classes.len();
    while left > 0 {
        left -= 1;
        steps.push(Step::Enter(classes[left]))?;
    }
    Ok(())
}

/// Whether a class is one of these.
fn is_among(classes: &[ClassId], c: ClassId) -> bool
    ensures { result ≡ is_among c classes.now }
{
    classes.iter().any(|d| c.0 == d.0)
}
