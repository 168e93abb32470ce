//! Questions of the check to the hierarchy of classes.

ghost use Rattle.std.specs.Prelude.{◌≡◌};
ghost use Rattle.jl_vtypes.specs.Assignability.{goes, subclass_asks};
ghost use Rattle.jl_verify.specs.Comes.{Comes, IsMissing};

use crate::fault::VerifyFault;
use jl_prim::Name;
use jl_vtypes::{Hierarchy, HierarchyEnd, Item, Unanswered, ask_subclass, is_going};
use std::alloc::Global;

/// Whether one item is assignable to another.
pub fn goes_to<H: Hierarchy>(
    alloc: Global,
    h: &mut H,
    from: &Item,
    to: &Item,
) -> Result<bool, VerifyFault>
    ensures { Comes H.step (goes from.now to.now) h.old result h.new }
{
    match is_going(alloc, h, from, to) {
        Ok(answer) => Ok(answer),
        Err(unanswered) => Err(missing(alloc, unanswered)),
    }
}

/// Whether a class is another one or a subclass of it.
pub fn is_subclass<H: Hierarchy>(
    alloc: Global,
    h: &mut H,
    from: &str,
    to: &str,
) -> Result<bool, VerifyFault>
    ensures { Comes H.step (subclass_asks from.now to.now) h.old result h.new }
{
    match ask_subclass(alloc, h, from, to) {
        Ok(answer) => Ok(answer),
        Err(unanswered) => Err(missing(alloc, unanswered)),
    }
}

fn missing(alloc: Global, unanswered: Unanswered) -> VerifyFault
    ensures { IsMissing unanswered.entry.name.now unanswered.entry.end result }
{
    let Unanswered { name, end } = unanswered;
    match end {
        HierarchyEnd::Missing(kind, message) => match Name::from_text(alloc, name) {
            Ok(name) => VerifyFault::ClassMissing(name, kind, message),
            Err(_) => VerifyFault::NoMemory,
        },
        HierarchyEnd::ReadFault => VerifyFault::ReadFault,
        HierarchyEnd::NoMemory => VerifyFault::NoMemory,
    }
}
