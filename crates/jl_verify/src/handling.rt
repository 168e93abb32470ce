//! Handlers of exceptions (JVMS 4.10.1.5).

ghost use Rattle.std.specs.Prelude.{◌≡◌, ◌∷◌, [], ◌==◌, ◌&&◌, ◌||◌, not, length, reverse, IfOk, if◌then◌else◌, true};
ghost use Rattle.jl_vtypes.specs.Asking.{Done};
ghost use Rattle.jl_verify.specs.Comes.{Comes};
ghost use Rattle.jl_verify.specs.Moves.{both};
ghost use Rattle.jl_verify.specs.Rules as rules;

use crate::asking::is_subclass;
use crate::context::Context;
use crate::fault::VerifyFault;
use crate::frames_going::{declared_at, items_go, locals_go};
use crate::naming::class_named;
use crate::type_frame::TypeFrame;
use crate::types::{class_item, throwable};
use jl_code::Instr;
use jl_prim::{CopyEnd, Handler};
use jl_vtypes::{Hierarchy, Item};
use std::alloc::Global;
use std::slice;

fn covers(handler: &Handler, i: &Instr) -> bool
    ensures { result ≡ rules.covers handler.now i.now }
{
    handler.start as u32 <= i.at && i.at < handler.end as u32
}

fn caught_item(alloc: Global, c: &Context, handler: &Handler) -> Result<Item, CopyEnd>
    ensures { IfOk result (λ item. item ≡ rules.caught_item c.now handler.now) }
{
    if handler.catch_type == 0 {
        throwable(alloc)
    } else {
        class_item(alloc, class_named(c, handler.catch_type))
    }
}

/// Whether a frame has one slot on its stack, as a handler's has, and a marked one comes to a marked one.
fn is_enterable(f: &TypeFrame, to: &TypeFrame) -> bool
    ensures { result ≡ ((1 == length to.now.stack) && (not f.now.marked || to.now.marked)) }
{
    to.stack.len() == 1 && (!f.marked || to.marked)
}

/// Whether an item, alone on the stack, goes to the stack of a frame.
fn only_item_goes<H: Hierarchy>(
    alloc: Global,
    h: &mut H,
    item: &Item,
    to: &TypeFrame,
) -> Result<bool, VerifyFault>
    ensures { Comes H.step (rules.items_go (item.now ∷ []) (reverse to.now.stack)) h.old result h.new }
{
    items_go(alloc, h, slice::from_ref(item), &to.stack)
}

/// Whether the locals of a frame, and then an item alone on the stack, go to the slots of another frame.
fn entered_slots_go<H: Hierarchy>(
    alloc: Global,
    h: &mut H,
    f: &TypeFrame,
    item: &Item,
    to: &TypeFrame,
) -> Result<bool, VerifyFault>
    ensures { Comes H.step (both (rules.items_go f.now.locals to.now.locals) (rules.items_go (item.now ∷ []) (reverse to.now.stack))) h.old result h.new }
{
    match locals_go(alloc, h, f, to) {
        Ok(true) => only_item_goes(alloc, h, item, to),
        Ok(false) => Ok(false),
        Err(fault) => Err(fault),
    }
}

/// Whether a frame, with an item alone on its stack, is assignable to another.
fn entered_goes<H: Hierarchy>(
    alloc: Global,
    h: &mut H,
    f: &TypeFrame,
    item: &Item,
    to: &TypeFrame,
) -> Result<bool, VerifyFault>
    ensures { Comes H.step (rules.frame_goes (record f.now { stack = item.now ∷ [] }) to.now) h.old result h.new }
{
    if is_enterable(f, to) {
        entered_slots_go(alloc, h, f, item, to)
    } else {
        Ok(false)
    }
}

/// Whether a frame, with an item alone on its stack, goes to the one that is declared for a place.
fn entered_goes_to_declared<H: Hierarchy>(
    alloc: Global,
    h: &mut H,
    c: &Context,
    f: &TypeFrame,
    item: &Item,
    place: u32,
) -> Result<bool, VerifyFault>
    ensures { Comes H.step (rules.goes_to_declared (record f.now { stack = item.now ∷ [] }) (rules.declared_at c.now place)) h.old result h.new }
{
    match declared_at(c, place) {
        Some(to) => entered_goes(alloc, h, f, item, to),
        None => Ok(false),
    }
}

/// Whether what a handler catches is a Throwable.
fn catches<H: Hierarchy>(
    alloc: Global,
    h: &mut H,
    c: &Context,
    handler: &Handler,
) -> Result<bool, VerifyFault>
    ensures { Comes H.step (rules.catches c.now handler.now) h.old result h.new }
{
    if handler.catch_type == 0 {
        return Ok(true);
    }
    is_subclass(
        alloc,
        h,
        class_named(c, handler.catch_type),
        "java/lang/Throwable",
    )
}

fn handler_fits<H: Hierarchy>(
    alloc: Global,
    h: &mut H,
    c: &Context,
    f: &TypeFrame,
    handler: &Handler,
) -> Result<bool, VerifyFault>
    ensures { Comes H.step (rules.handler_fits c.now f.now handler.now) h.old result h.new }
{
    let item = caught_item(alloc, c, handler)?;
    enters(alloc, h, c, f, &item, handler)
}

/// Whether a handler is entered rightly with a frame and an item alone on its stack, and what it catches is a Throwable.
fn enters<H: Hierarchy>(
    alloc: Global,
    h: &mut H,
    c: &Context,
    f: &TypeFrame,
    item: &Item,
    handler: &Handler,
) -> Result<bool, VerifyFault>
    ensures { Comes H.step (both (rules.goes_to_declared (record f.now { stack = item.now ∷ [] }) (rules.declared_at c.now handler.now.target)) (rules.catches c.now handler.now)) h.old result h.new }
{
    match entered_goes_to_declared(alloc, h, c, f, item, handler.target as u32) {
        Ok(true) => catches(alloc, h, c, handler),
        Ok(false) => Ok(false),
        Err(fault) => Err(fault),
    }
}

/// Whether a handler fits the frame before an instruction, where it covers that.
fn covered_fits<H: Hierarchy>(
    alloc: Global,
    h: &mut H,
    c: &Context,
    f: &TypeFrame,
    i: &Instr,
    handler: &Handler,
) -> Result<bool, VerifyFault>
    ensures { Comes H.step (if rules.covers handler.now i.now then rules.handler_fits c.now f.now handler.now else Done true) h.old result h.new }
{
    if !covers(handler, i) {
        return Ok(true);
    }
    handler_fits(alloc, h, c, f, handler)
}

/// Whether the handlers that cover an instruction fit the frame before it.
pub fn handlers_fit<H: Hierarchy>(
    alloc: Global,
    h: &mut H,
    c: &Context,
    f: &TypeFrame,
    i: &Instr,
    handlers: &[Handler],
) -> Result<bool, VerifyFault>
    ensures { Comes H.step (rules.handlers_fit c.now f.now i.now handlers.now) h.old result h.new }
{
    for handler in handlers {
        match covered_fits(alloc, h, c, f, i, handler) {
            Ok(true) => {}
            Ok(false) => return Ok(false),
            Err(fault) => return Err(fault),
        }
    }
    Ok(true)
}
