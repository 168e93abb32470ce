//! One walk over the instructions of a method, which keeps one frame (JVMS 4.10.1).

ghost use Rattle.std.specs.Prelude.{◌≡◌, List};
ghost use Rattle.jl_verify.specs.Comes.{Comes};
ghost use Rattle.jl_verify.specs.Declaring.{first_frame as first_of};
ghost use Rattle.jl_verify.specs.Frames.{Frame};
ghost use Rattle.jl_verify.specs.Checks.{IsTable, first_failed};

use crate::context::Context;
use crate::families::leaves;
use crate::fault::VerifyFault;
use crate::placing::{Tried, try_all};
use crate::rule::CheckRule;
use crate::type_frame::TypeFrame;
use jl_vtypes::Hierarchy;
use std::alloc::Global;

/// The place and the rule of the first instruction at which one fails.
pub fn walk<H: Hierarchy>(
    alloc: Global,
    h: &mut H,
    c: &Context,
    first: TypeFrame,
) -> Result<Option<(u32, CheckRule)>, VerifyFault>
    requires { first ≡ first_of c.now.class c.now.method }
    ensures { (frames : List Frame) × IsTable c.now frames × Comes H.step (first_failed c.now frames) h.old result h.new }
{
    let mut falling = Some(first);
    let instrs = c.instrs;
    for (index, i) in instrs.iter().enumerate() {
        match try_all(alloc, h, c, falling, i, index + 1 == instrs.len()) {
            Ok(Tried::Passed(next)) => {
                falling = if leaves(i.op) { None } else { Some(next) };
            }
            Ok(Tried::Failed(rule)) => return Ok(Some((i.at, rule))),
            Err(fault) => return Err(fault),
        }
    }
    Ok(None)
}
