//! The rules at an instruction, in their order, and the frames from one instruction to the next (JVMS 4.10.1).

ghost use Rattle.std.specs.Prelude.{◌≡◌, ◌&&◌, not, Some, None, Ok, if◌then◌else◌};
ghost use Rattle.jl_verify.specs.Comes.{Comes};
ghost use Rattle.jl_verify.specs.Declaring as declaring;
ghost use Rattle.jl_verify.specs.Families as families;
ghost use Rattle.jl_verify.specs.declared.rule.CheckRule.TheVariants as names;
ghost use Rattle.jl_vtypes.specs.Asking.{Done};
ghost use Rattle.jl_verify.specs.Rules as rules;
ghost use Rattle.jl_verify.specs.Rows as rows;
ghost use Rattle.jl_verify.specs.Tried.{failed_of, IsAfter};

use crate::applying::applies;
use crate::context::Context;
use crate::declaring::is_init;
use crate::families::{is_return, leaves};
use crate::fault::VerifyFault;
use crate::frames_going::{declared_at, frame_goes};
use crate::handling::handlers_fit;
use crate::moving::after;
use crate::rule::CheckRule;
use crate::rules::{has_room, has_room_or_none, leads, names_within};
use crate::type_frame::TypeFrame;
use jl_code::Instr;
use jl_prim::Copied;
use jl_vtypes::Hierarchy;
use std::alloc::Global;

/// What the rules at an instruction come to.
#[derive(Debug, Drop)]
pub enum Tried {
    /// The first that fails.
    Failed(CheckRule),
    /// None fails, and this is the frame after the instruction.
    Passed(TypeFrame),
}

/// Rule 8: the last instruction does not fall through.
fn try_end(next: TypeFrame, i: &Instr, is_last: bool) -> Tried
    ensures tried { failed_of (Ok result) ≡ Ok (if not (is_last && not (families.leaves i.now.op)) then None else Some names.End) }
    ensures frame { IsAfter next (Ok result) }
{
    if is_last && !leaves(i.op) {
        Tried::Failed(CheckRule::End)
    } else {
        Tried::Passed(next)
    }
}

/// Rules 7 and 8: where the instruction leads, and that the last one does not fall through.
fn try_ways<H: Hierarchy>(
    alloc: Global,
    h: &mut H,
    c: &Context,
    next: TypeFrame,
    i: &Instr,
    is_last: bool,
) -> Result<Tried, VerifyFault>
    ensures tried { Comes H.step (rules.ways c.now next i.now is_last) h.old (failed_of result) h.new }
    ensures frame { IsAfter next result }
{
    match leads(alloc, h, c, &next, &i.arg) {
        Ok(true) => Ok(try_end(next, i, is_last)),
        Ok(false) => Ok(Tried::Failed(CheckRule::Target)),
        Err(fault) => Err(fault),
    }
}

/// Whether an instruction returns from an `<init>` before another one was called.
fn returns_early(c: &Context, f: &TypeFrame, i: &Instr) -> bool
    ensures { result ≡ (families.is_return i.now.op && (declaring.is_init c.now.method && f.now.marked)) }
{
    is_return(i.op) && is_init(c.method) && f.marked
}

fn has_more_room(c: &Context, had_room: bool, f: &TypeFrame) -> bool
    ensures { result ≡ (had_room && rules.has_room c.now f.now) }
{
    had_room && has_room(c, f)
}

/// Whether there is room for the frame after an instruction, and the local that it names is one.
fn has_room_after(c: &Context, next: &TypeFrame, i: &Instr) -> bool
    ensures { result ≡ (rules.has_room c.now next.now && rules.names_within c.now i.now) }
{
    has_room(c, next) && names_within(c, i)
}

/// Rules 5 and 6: the return from `<init>`, and room.
fn try_room<H: Hierarchy>(
    alloc: Global,
    h: &mut H,
    c: &Context,
    had_room: bool,
    f: TypeFrame,
    i: &Instr,
    is_last: bool,
) -> Result<Tried, VerifyFault>
    ensures tried { Comes H.step (rules.room c.now had_room f i.now is_last) h.old (failed_of result) h.new }
    ensures frame { IsAfter (rows.after c.now f i.now) result }
{
    if returns_early(c, &f, i) {
        return Ok(Tried::Failed(CheckRule::Init));
    }
    let had_room = has_more_room(c, had_room, &f);
    let next = after(alloc, c, f, i)?;
    try_after(alloc, h, c, had_room, next, i, is_last)
}

/// Rules 6 to 8 with the frame after the instruction.
fn try_after<H: Hierarchy>(
    alloc: Global,
    h: &mut H,
    c: &Context,
    had_room: bool,
    next: TypeFrame,
    i: &Instr,
    is_last: bool,
) -> Result<Tried, VerifyFault>
    ensures tried { Comes H.step (rules.rule names.Overflow (Done (had_room && (rules.has_room c.now next && rules.names_within c.now i.now))) (rules.ways c.now next i.now is_last)) h.old (failed_of result) h.new }
    ensures frame { IsAfter next result }
{
    if had_room && has_room_after(c, &next, i) {
        try_ways(alloc, h, c, next, i, is_last)
    } else {
        Ok(Tried::Failed(CheckRule::Overflow))
    }
}

/// Rule 4: the instruction applies.
fn try_row<H: Hierarchy>(
    alloc: Global,
    h: &mut H,
    c: &Context,
    had_room: bool,
    f: TypeFrame,
    i: &Instr,
    is_last: bool,
) -> Result<Tried, VerifyFault>
    ensures tried { Comes H.step (rules.row c.now had_room f i.now is_last) h.old (failed_of result) h.new }
    ensures frame { IsAfter (rows.after c.now f i.now) result }
{
    match applies(alloc, h, c, &f, i) {
        Ok(true) => try_room(alloc, h, c, had_room, f, i, is_last),
        Ok(false) => Ok(Tried::Failed(CheckRule::Operand)),
        Err(fault) => Err(fault),
    }
}

/// Rule 3: the handlers that cover the instruction.
fn try_handlers<H: Hierarchy>(
    alloc: Global,
    h: &mut H,
    c: &Context,
    had_room: bool,
    f: TypeFrame,
    i: &Instr,
    is_last: bool,
) -> Result<Tried, VerifyFault>
    ensures tried { Comes H.step (rules.handled c.now had_room f i.now is_last) h.old (failed_of result) h.new }
    ensures frame { IsAfter (rows.after c.now f i.now) result }
{
    let handlers = c.code.handlers.as_slice();
    match handlers_fit(alloc, h, c, &f, i, handlers) {
        Ok(true) => try_row(alloc, h, c, had_room, f, i, is_last),
        Ok(false) => Ok(Tried::Failed(CheckRule::Handler)),
        Err(fault) => Err(fault),
    }
}

/// Rules 1 and 2, and the frame at the instruction: the declared one, to which what falls through goes, or else that.
pub fn try_all<H: Hierarchy>(
    alloc: Global,
    h: &mut H,
    c: &Context,
    falling: Option<TypeFrame>,
    i: &Instr,
    is_last: bool,
) -> Result<Tried, VerifyFault>
    ensures tried { Comes H.step (rules.first_failing c.now falling (rules.frame_here (rules.declared_at c.now i.now.at) falling) i.now is_last) h.old (failed_of result) h.new }
    ensures frame { IsAfter (rows.after c.now (rules.frame_here (rules.declared_at c.now i.now.at) falling) i.now) result }
{
    let had_room = has_room_or_none(c, &falling);
    match (declared_at(c, i.at), falling) {
        (None, None) => Ok(Tried::Failed(CheckRule::NoFrame)),
        (None, Some(f)) => try_handlers(alloc, h, c, had_room, f, i, is_last),
        (Some(declared), falling) => {
            try_declared(alloc, h, c, (declared, falling), had_room, i, is_last)
        }
    }
}

/// Whether a frame that falls through goes to the declared one.
fn falls_rightly<H: Hierarchy>(
    alloc: Global,
    h: &mut H,
    falling: &Option<TypeFrame>,
    declared: &TypeFrame,
) -> Result<bool, VerifyFault>
    ensures { Comes H.step (rules.falls_rightly falling.now (Some declared.now)) h.old result h.new }
{
    match falling {
        Some(falling) => frame_goes(alloc, h, falling, declared),
        None => Ok(true),
    }
}

/// The same at an instruction with a declared frame.
fn try_declared<H: Hierarchy>(
    alloc: Global,
    h: &mut H,
    c: &Context,
    frames: (&TypeFrame, Option<TypeFrame>),
    had_room: bool,
    i: &Instr,
    is_last: bool,
) -> Result<Tried, VerifyFault>
    ensures tried { Comes H.step (rules.first_declared c.now frames.entry.1 frames.entry.0.now had_room i.now is_last) h.old (failed_of result) h.new }
    ensures frame { IsAfter (rows.after c.now frames.entry.0.now i.now) result }
{
    let (declared, falling) = frames;
    match falls_rightly(alloc, h, &falling, declared) {
        Ok(true) => try_copied(alloc, h, c, had_room, declared, i, is_last),
        Ok(false) => Ok(Tried::Failed(CheckRule::Frame)),
        Err(fault) => Err(fault),
    }
}

/// The handlers and what follows, with a copy of the declared frame.
fn try_copied<H: Hierarchy>(
    alloc: Global,
    h: &mut H,
    c: &Context,
    had_room: bool,
    declared: &TypeFrame,
    i: &Instr,
    is_last: bool,
) -> Result<Tried, VerifyFault>
    ensures tried { Comes H.step (rules.handled c.now had_room declared.now i.now is_last) h.old (failed_of result) h.new }
    ensures frame { IsAfter (rows.after c.now declared.now i.now) result }
{
    try_handlers(alloc, h, c, had_room, declared.copy()?, i, is_last)
}
