//! The instructions of code from its start on.

ghost use Rattle.std.specs.Prelude.{◌≡◌, ◌<◌, ◌^◌, length, Ok};
ghost use Rattle.jl_logic.specs.Answers.{Tells};
ghost use Rattle.jl_code.specs.Told.{told};
ghost use Rattle.jl_code.specs.Walking.{StopsAt, walk as walk_of};

use crate::code::Instr;
use crate::fault::CodeFault;
use crate::reading::instr_at;
use jl_pool::Pool;
use jl_prim::Items;
use std::alloc::Global;

/// Instructions up to the end of the code, or up to the first that is not right in itself, with its fault.
#[derive(Drop)]
pub struct Walked {
    pub instructions: Items<Instr>,
    pub fault: Option<CodeFault>,
}

/// The end of a walk at a fault. Want of memory ends the whole reading.
fn stopped(instructions: Vec<Instr>, fault: CodeFault) -> Result<Walked, CodeFault>
    ensures { StopsAt result instructions.items fault }
{
    match fault {
        CodeFault::NoMemory => Err(fault),
        _ => Ok(Walked {
            instructions: Items::from_vec(instructions),
            fault: Some(fault),
        }),
    }
}

/// Walks through the code from its start on.
pub fn walk(alloc: Global, pool: &Pool, code: &[u8]) -> Result<Walked, CodeFault>
    requires { length code.now < 2 ^ 32 }
    ensures { Tells told result (Ok (walk_of pool.now code.now)) }
{
    let mut instructions = Vec::new(alloc);
    let mut at = 0;
    while at < code.len() {
        match instr_at(alloc, pool, code, at as u32) {
            Ok((instr, next)) => {
                instructions.push(instr)?;
                at = next;
            }
            Err(fault) => return stopped(instructions, fault),
        }
    }
    Ok(Walked {
        instructions: Items::from_vec(instructions),
        fault: None,
    })
}
