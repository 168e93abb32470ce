//! Whether one frame can stand for another (JVMS 4.10.1.4).

ghost use Rattle.std.specs.Prelude.{◌≡◌, ◌==◌, ◌&&◌, ◌||◌, not, length, reverse, slice_get};
ghost use Rattle.std.specs.Option.{option_copied};
ghost use Rattle.jl_verify.specs.Comes.{Comes};
ghost use Rattle.jl_vtypes.specs.Assignability.{goes};
ghost use Rattle.jl_verify.specs.Moves.{both, or_top};
ghost use Rattle.jl_verify.specs.Rules as rules;

use crate::asking::goes_to;
use crate::context::Context;
use crate::fault::VerifyFault;
use crate::type_frame::TypeFrame;
use jl_vtypes::{Hierarchy, Item};
use std::alloc::Global;

fn item_at(items: &[Item], at: usize) -> Option<&Item>
    ensures { option_copied result ≡ slice_get items.now at }
{
    items.get(at)
}

/// Whether an item, Top where it is missing, is assignable to another.
fn goes_from<H: Hierarchy>(
    alloc: Global,
    h: &mut H,
    from: Option<&Item>,
    to: &Item,
) -> Result<bool, VerifyFault>
    ensures { Comes H.step (goes (or_top (option_copied from.entry)) to.now) h.old result h.new }
{
    match from {
        Some(item) => goes_to(alloc, h, item, to),
        None => goes_to(alloc, h, &Item::Top, to),
    }
}

/// Whether the items of one list go to those of another, one by one from the first. A missing one is Top.
pub fn items_go<H: Hierarchy>(
    alloc: Global,
    h: &mut H,
    from: &[Item],
    to: &[Item],
) -> Result<bool, VerifyFault>
    ensures { Comes H.step (rules.items_go from.now to.now) h.old result h.new }
{
    for (at, other) in to.iter().enumerate() {
        match goes_from(alloc, h, item_at(from, at), other) {
            Ok(true) => {}
            Ok(false) => return Ok(false),
            Err(fault) => return Err(fault),
        }
    }
    Ok(true)
}

/// Whether two frames have as many slots on their stacks, and a marked one is compared to a marked one.
fn is_comparable(from: &TypeFrame, to: &TypeFrame) -> bool
    ensures { result ≡ ((length from.now.stack == length to.now.stack) && (not from.now.marked || to.now.marked)) }
{
    from.stack.len() == to.stack.len() && (!from.marked || to.marked)
}

/// Whether the stack of one frame goes to that of another, from the lowest slot.
fn stacks_go<H: Hierarchy>(
    alloc: Global,
    h: &mut H,
    from: &TypeFrame,
    to: &TypeFrame,
) -> Result<bool, VerifyFault>
    ensures { Comes H.step (rules.items_go (reverse from.now.stack) (reverse to.now.stack)) h.old result h.new }
{
    items_go(alloc, h, &from.stack, &to.stack)
}

/// Whether a frame is assignable to another.
pub fn frame_goes<H: Hierarchy>(
    alloc: Global,
    h: &mut H,
    from: &TypeFrame,
    to: &TypeFrame,
) -> Result<bool, VerifyFault>
    ensures { Comes H.step (rules.frame_goes from.now to.now) h.old result h.new }
{
    if is_comparable(from, to) {
        slots_go(alloc, h, from, to)
    } else {
        Ok(false)
    }
}

/// Whether the slots of one frame go to those of another: the locals, and then the stack.
fn slots_go<H: Hierarchy>(
    alloc: Global,
    h: &mut H,
    from: &TypeFrame,
    to: &TypeFrame,
) -> Result<bool, VerifyFault>
    ensures { Comes H.step (both (rules.items_go from.now.locals to.now.locals) (rules.items_go (reverse from.now.stack) (reverse to.now.stack))) h.old result h.new }
{
    match locals_go(alloc, h, from, to) {
        Ok(true) => stacks_go(alloc, h, from, to),
        Ok(false) => Ok(false),
        Err(fault) => Err(fault),
    }
}

/// Whether the locals of one frame go to those of another.
pub fn locals_go<H: Hierarchy>(
    alloc: Global,
    h: &mut H,
    from: &TypeFrame,
    to: &TypeFrame,
) -> Result<bool, VerifyFault>
    ensures { Comes H.step (rules.items_go from.now.locals to.now.locals) h.old result h.new }
{
    items_go(alloc, h, &from.locals, &to.locals)
}

/// The frame that is declared for a place.
pub fn declared_at<'a>(c: &Context<'a>, place: u32) -> Option<&'a TypeFrame>
    ensures { option_copied result ≡ rules.declared_at c.now place }
{
    let declared = c.declared;
    match declared.binary_search_by(|one| one.offset.cmp(&place)) {
        Ok(at) => Some(&declared[at].frame),
        Err(_) => None,
    }
}

/// Whether a frame goes to the one that is declared for a place.
pub fn goes_to_declared<H: Hierarchy>(
    alloc: Global,
    h: &mut H,
    c: &Context,
    from: &TypeFrame,
    place: u32,
) -> Result<bool, VerifyFault>
    ensures { Comes H.step (rules.goes_to_declared from.now (rules.declared_at c.now place)) h.old result h.new }
{
    match declared_at(c, place) {
        Some(to) => frame_goes(alloc, h, from, to),
        None => Ok(false),
    }
}
