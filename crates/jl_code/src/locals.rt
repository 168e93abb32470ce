//! The locals that instructions name (JVMS 6.5).

ghost use Rattle.std.specs.Prelude.{◌≡◌};
ghost use Rattle.jl_code.specs.Locals as words;

use crate::code::{Arg, Instr};
use jl_optable::ops;

/// The local that an opcode names itself.
fn hidden_local(op: u8) -> Option<u16>
    ensures { result ≡ words.hidden_local op }
{
    match op {
        ops::ILOAD_0..=ops::ALOAD_3 => Some(((op - ops::ILOAD_0) % 4) as u16),
        ops::ISTORE_0..=ops::ASTORE_3 => Some(((op - ops::ISTORE_0) % 4) as u16),
        _ => None,
    }
}

/// The number of the local that an instruction loads, stores or counts up, also where its opcode hides it.
pub fn local_of(instr: &Instr) -> Option<u16>
    ensures { result ≡ words.local_of instr.now.op instr.now.arg }
{
    match &instr.arg {
        Arg::Local(local) | Arg::Inc(local, _) => Some(*local),
        Arg::Nothing => hidden_local(instr.op),
        _ => None,
    }
}
