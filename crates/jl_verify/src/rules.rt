//! The rules at an instruction, in their order (JVMS 4.10.1).

ghost use Rattle.std.specs.Prelude.{◌≡◌, ◌∷◌, [], map};
ghost use Rattle.jl_verify.specs.Comes.{Comes};
ghost use Rattle.jl_verify.specs.Rules as rules;

use crate::context::Context;
use crate::families::family_of;
use crate::family::{Family, ValueKind};
use crate::fault::VerifyFault;
use crate::frames_going::goes_to_declared;
use crate::type_frame::TypeFrame;
use jl_code::{Arg, Instr, local_of};
use jl_vtypes::Hierarchy;
use std::alloc::Global;

pub fn has_room(c: &Context, f: &TypeFrame) -> bool
    ensures { result ≡ rules.has_room c.now f.now }
{
    f.stack.len() <= c.code.max_stack as usize && f.locals.len() <= c.code.max_locals as usize
}

pub fn has_room_or_none(c: &Context, f: &Option<TypeFrame>) -> bool
    ensures { result ≡ rules.has_room_or_none c.now f.now }
{
    match f {
        Some(f) => has_room(c, f),
        None => true,
    }
}

fn local_size(family: Option<Family>) -> usize
    ensures { result ≡ rules.local_size family }
{
    match family {
        Some(Family::Load(ValueKind::Long) | Family::Store(ValueKind::Long)) => 2,
        _ => 1,
    }
}

pub fn names_within(c: &Context, i: &Instr) -> bool
    ensures { result ≡ rules.names_within c.now i.now }
{
    match local_of(i) {
        Some(local) => local as usize + local_size(family_of(i.op)) <= c.code.max_locals as usize,
        None => true,
    }
}

/// Whether a frame goes to those that are declared where an instruction leads.
pub fn leads<H: Hierarchy>(
    alloc: Global,
    h: &mut H,
    c: &Context,
    f: &TypeFrame,
    arg: &Arg,
) -> Result<bool, VerifyFault>
    ensures { Comes H.step (rules.leads c.now f.now (rules.targets arg.now)) h.old result h.new }
{
    match arg {
        Arg::Target(place) => one_leads(alloc, h, c, f, *place),
        Arg::Switch { other, cases } => switch_leads(alloc, h, c, f, *other, cases.as_slice()),
        _ => Ok(true),
    }
}

fn one_leads<H: Hierarchy>(
    alloc: Global,
    h: &mut H,
    c: &Context,
    f: &TypeFrame,
    place: u32,
) -> Result<bool, VerifyFault>
    ensures { Comes H.step (rules.leads c.now f.now (place ∷ [])) h.old result h.new }
{
    goes_to_declared(alloc, h, c, f, place)
}

fn switch_leads<H: Hierarchy>(
    alloc: Global,
    h: &mut H,
    c: &Context,
    f: &TypeFrame,
    other: u32,
    cases: &[(i32, u32)],
) -> Result<bool, VerifyFault>
    ensures { Comes H.step (rules.leads c.now f.now (other ∷ map (λ case. case.1) cases.now)) h.old result h.new }
{
    match goes_to_declared(alloc, h, c, f, other) {
        Ok(true) => cases_lead(alloc, h, c, f, cases),
        Ok(false) => Ok(false),
        Err(fault) => Err(fault),
    }
}

fn cases_lead<H: Hierarchy>(
    alloc: Global,
    h: &mut H,
    c: &Context,
    f: &TypeFrame,
    cases: &[(i32, u32)],
) -> Result<bool, VerifyFault>
    ensures { Comes H.step (rules.leads c.now f.now (map (λ case. case.1) cases.now)) h.old result h.new }
{
    for (_, place) in cases {
        match goes_to_declared(alloc, h, c, f, *place) {
            Ok(true) => {}
            Ok(false) => return Ok(false),
            Err(fault) => return Err(fault),
        }
    }
    Ok(true)
}
