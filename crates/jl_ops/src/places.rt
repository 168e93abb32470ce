//! The place behind an instruction (JVMS 4.7.3, 6.5).

ghost use Rattle.std.specs.Prelude.{◌≡◌, ◌≤◌};
ghost use Rattle.jl_code.specs.Places.{size_of};
ghost use Rattle.jl_optable.specs.Rows.{form_of};
ghost use Rattle.jl_ops.specs.Places as words;

use jl_code::Instr;
use jl_optable::{Operands, op_table, ops};

/// How many bytes operands take that always take as many.
fn size_of(operands: Operands) -> u32
    ensures exact { result ≡ size_of operands }
    ensures few { result ≤ 4 }
{
    match operands {
        Operands::Byte | Operands::Local | Operands::Index1 => 1,
        Operands::Short | Operands::Index2 | Operands::Inc | Operands::Target2 => 2,
        Operands::Multi => 3,
        Operands::Target4 | Operands::Interface | Operands::Dynamic => 4,
        _ => 0,
    }
}

/// How many bytes the operands of an opcode take.
fn operands_size(op: u8) -> u32
    ensures exact { result ≡ words.operands_size (form_of op) }
    ensures few { result ≤ 4 }
{
    match op_table().form(op) {
        Some(form) => size_of(form.operands),
        None => 0,
    }
}

/// How many bytes an instruction takes.
fn instr_size(instr: &Instr) -> u32
    ensures { result ≡ words.instr_size instr.now }
{
    if !instr.wide {
        1 + operands_size(instr.op)
    } else if instr.op == ops::IINC {
        6
    } else {
        4
    }
}

/// The place behind an instruction, which is not that of a switch: a switch always leads elsewhere.
pub fn next_place(instr: &Instr) -> u32
    ensures { result ≡ words.next_place instr.now }
{
    instr.at.saturating_add(instr_size(instr))
}
