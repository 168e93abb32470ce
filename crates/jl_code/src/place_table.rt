//! Which instruction stands at a place of the code.

ghost use Rattle.std.specs.Prelude.{◌≡◌, ◌<◌, ℕ, length, replicate, None, IfOk};
ghost use Rattle.std.specs.List.{AllByRecursion};
ghost use Rattle.jl_code.specs.Sound.{starts};
ghost use Rattle.jl_code.specs.PlaceTables.{IsIndexOf, index_in};
ghost use Rattle.jl_code.specs.declared.code.Instr.{Instr};
ghost use Rattle.jl_code.specs.declared.place_table.TableEnd.TheVariants.{NoMemory};

use crate::code::Instr;
use std::alloc::{AllocError, Global};
use std::marker::Model;

/// Why a table was not made.
#[derive(Clone, Copy, Debug, PartialEq, Eq)]
pub enum TableEnd {
    /// There was no memory for the table.
    NoMemory,
}

impl From<AllocError> for TableEnd {
    ghost from_gives = { λ _ e. e ≡ NoMemory };

    fn from(_e: AllocError) -> TableEnd {
        TableEnd::NoMemory
    }
}

/// For each place of a method's code the index of the instruction that stands there, where one does. Contracts see
/// it as the list of these.
#[derive(Debug, Drop)]
pub struct PlaceTable {
    indices: Vec<Option<usize>>,
}

impl Model for PlaceTable {
    ghost use Rattle.std.specs.Prelude.{List, Option, ℕ};

    ghost Value = { List (Option ℕ) };

    ghost view = { λ it. it.indices.items };
}

impl PlaceTable {
    /// The table of instructions that stand in a code of so many bytes. `NoMemory` where there is no memory for it.
    pub fn of(alloc: Global, instructions: &[Instr], len: usize) -> Result<PlaceTable, TableEnd>
        requires { AllByRecursion (λ (i : Instr). i.at < len) instructions.now }
        ensures { IfOk result (λ table. (pc : ℕ) → IsIndexOf (starts instructions.now) pc (index_in table pc)) }
    {
        let indices = indices_of(alloc, instructions, len)?;
        Ok(PlaceTable { indices })
    }

    /// The index of the instruction at a place, or none where no instruction begins.
    pub fn index_of(&self, pc: u32) -> Option<usize>
        ensures { result ≡ index_in self.now pc }
    {
        match self.indices.get(pc as usize) {
            Some(found) => *found,
            None => None,
        }
    }
}

fn no_indices(alloc: Global, len: usize) -> Result<Vec<Option<usize>>, AllocError>
    ensures { IfOk result (λ indices. indices.items ≡ replicate len None) }
{
    vec![in alloc; None; len]
}

fn indices_of(
    alloc: Global,
    instructions: &[Instr],
    len: usize,
) -> Result<Vec<Option<usize>>, AllocError>
    requires { AllByRecursion (λ (i : Instr). i.at < len) instructions.now }
    ensures { IfOk result (λ indices. (pc : ℕ) → IsIndexOf (starts instructions.now) pc (index_in indices.items pc)) }
{
    let mut indices = no_indices(alloc, len)?;
    let mut index = 0;
    let mut rest = instructions;
    while let [instr, others @ ..] = rest {
        indices[instr.at as usize] = Some(index);
        index += 1;
        rest = others;
    }
    Ok(indices)
}
