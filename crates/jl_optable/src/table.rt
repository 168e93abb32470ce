//! The table itself, and the row of an opcode.

ghost use Rattle.std.specs.Prelude.{◌≡◌, None, MatchOption, length, map, slice_get};
ghost use Rattle.jl_logic.specs.Lists.{AreDistinct};
ghost use Rattle.jl_optable.specs.Rows.{form_of, table, Rise, opcode};

use crate::form::{Form, Operands};
use crate::{each_row, ops};
use std::marker::Model;

/// A table of N rows, which contracts see as their list.
#[derive(Drop)]
pub struct OpTable<const N: usize> {
    rows: &'static [Form; N],
}

impl<const N: usize> Model for OpTable<N> {
    ghost use Rattle.std.specs.Prelude.{◌≡◌, List};
    ghost use Rattle.jl_optable.specs.declared.form.Form.{Form};
    ghost use Rattle.jl_optable.specs.Rows.{table};

    ghost Value = { List Form };

    ghost view = { λ it. it.rows.now };

    ghost invariant = { λ it. (N ≡ 199) × (it.rows.now ≡ table) };
}

impl<const N: usize> OpTable<N> {
    /// The row of an opcode, or none where no instruction has it: 168, 169, and 201 to 255.
    pub fn form(&self, op: u8) -> Option<Form>
        ensures { result ≡ form_of op }
    {
        let rows = self.rows;
        match index_of(op) {
            Some(index) => row_at(rows, index),
            None => None,
        }
    }
}

/// The row at a place of the table.
fn row_at(rows: &[Form], index: usize) -> Option<Form>
    ensures { result ≡ slice_get rows.now index }
{
    rows.get(index).copied()
}

/// The place of an opcode's row: there are none of `jsr` and `ret`.
#[tactic(auto, using(crate::proofs::Found::below_gaps, crate::proofs::Found::above_gaps, crate::proofs::Found::no_form))]
fn index_of(op: u8) -> Option<usize>
    ensures { MatchOption result (form_of op ≡ None) (λ i. slice_get table i ≡ form_of op) }
{
    match op {
        0..=ops::GOTO => Some(op as usize),
        ops::TABLESWITCH..=ops::GOTO_W => Some(op as usize - 2),
        _ => None,
    }
}

/// Rows for groups of opcodes, each with whether it makes a stub and its operands.
macro_rules! forms {
    ([] $($stub:tt $operands:ident: $($op:ident)*;)*) => {
        [$($(Form { op: ops::$op, stub: $stub, operands: Operands::$operands },)*)*]
    };
}

/// The table of the instructions, in the order of their opcodes.
pub fn op_table() -> OpTable<199>
    ensures rows { result ≡ table }
    ensures count { length result ≡ 199 }
    // The opcodes rise, and none is there twice.
    ensures order { Rise result }
    ensures once { AreDistinct (map opcode result) }
{
    static ROWS: [Form; 199] = each_row!(forms);
    OpTable { rows: &ROWS }
}
