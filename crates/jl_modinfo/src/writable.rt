//! Whether a declaration meets the conditions of writing.

ghost use Rattle.std.specs.Prelude.{◌≡◌, ◌+◌, ◌≤◌, ◌↔◌, IsTrue, IfOk, IsOkUnless};
ghost use Rattle.std.specs.List.{list_all, sum_by};
ghost use Rattle.jl_modinfo.specs.Writing.{AreShort, members};
ghost use Rattle.jl_modinfo.specs.Layout.{capped, target_length, class_length, is_short_constant};

use crate::limits::target_count;
use crate::named::constants_of;
use jl_pool::Constant;
use jl_prim::{Declaration, Grant, Provides};
use jl_tables::InfoWriteFault;
use std::alloc::Global;

/// The most members that the lists of a declaration may have together.
const MOST_MEMBERS: usize = 16_777_216;

/// Whether a declaration may be handed to `write_info`: the bytes of each text that its file needs are at
/// most 65,535 (JVMS 4.4.7), and its lists have at most 16,777,216 members together.
///
/// The one error is `NoMemory`, where there was no memory for the texts.
pub fn is_writable(alloc: Global, d: &Declaration) -> Result<bool, InfoWriteFault>
    ensures fine { IfOk result (λ fine. IsTrue fine ↔ (AreShort d.now × (members d.now ≤ 16777216))) }
    ensures memory { IsOkUnless result InfoWriteFault.NoMemory }
{
    if member_count(d) > MOST_MEMBERS {
        return Ok(false);
    }
    let constants = constants_of(alloc, d)?;
    are_short(alloc, &constants)
}

fn are_short(alloc: Global, constants: &[Constant]) -> Result<bool, InfoWriteFault>
    ensures fine { IfOk result (λ fine. fine ≡ list_all is_short_constant constants.now) }
    ensures memory { IsOkUnless result InfoWriteFault.NoMemory }
{
    let mut fine = true;
    for constant in constants {
        let short = constant.is_short(alloc)?;
        fine = fine && short;
    }
    Ok(fine)
}

/// How many members the lists have together, and one more than the most where they are more.
fn member_count(d: &Declaration) -> usize
    ensures { result ≡ capped (members d.now) }
{
    let exports = plus(d.exports.len(), count_targets(d.exports.as_slice()));
    let opens = plus(d.opens.len(), count_targets(d.opens.as_slice()));
    let provides = plus(d.provides.len(), count_classes(d.provides.as_slice()));
    let listed = plus(d.required.len(), plus(d.uses.len(), d.packages.len()));
    plus(listed, plus(exports, plus(opens, provides)))
}

fn count_targets(grants: &[Grant]) -> usize
    ensures { result ≡ capped (sum_by target_length grants.now) }
{
    let mut total = 0;
    for grant in grants {
        total = plus(total, target_count(grant));
    }
    total
}

fn count_classes(provides: &[Provides]) -> usize
    ensures { result ≡ capped (sum_by class_length provides.now) }
{
    let mut total = 0;
    for service in provides {
        total = plus(total, service.implementations.len());
    }
    total
}

/// The sum, and one more than the most where it is more.
fn plus(a: usize, b: usize) -> usize
    ensures { result ≡ capped (a + b) }
{
    if a > MOST_MEMBERS || b > MOST_MEMBERS || a + b > MOST_MEMBERS {
        MOST_MEMBERS + 1
    } else {
        a + b
    }
}
