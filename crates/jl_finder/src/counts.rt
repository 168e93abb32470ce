//! How much of a module path was scanned.

ghost use Rattle.std.specs.Prelude.{◌≡◌, IsErrOf, IfErr};
ghost use Rattle.jl_logic.specs.Answers.{Gives};
ghost use Rattle.jl_finder.specs.Observed.{told, with_module, with_folders};
ghost use Rattle.jl_finder.specs.Scanning.{tally_of};

use crate::fault::FindFault;
use jl_prim::{MOST_FOLDERS, MOST_MODULES};

/// How many modules were scanned, and how many folders listed.
#[derive(Clone, Copy)]
pub struct Counts {
    pub modules: usize,
    pub folders: usize,
}

/// One module more.
pub fn one_module(counts: Counts) -> Result<Counts, FindFault>
    ensures gives { Gives told tally_of result (with_module (tally_of counts)) }
    ensures no_read_fault { IsErrOf result FindFault.ReadFault → ⊥ }
    ensures no_memory { IfErr result (λ e. e ≡ FindFault.TooMany) }
{
    if counts.modules >= MOST_MODULES {
        return Err(FindFault::TooMany);
    }
    Ok(Counts {
        modules: counts.modules + 1,
        folders: counts.folders,
    })
}

/// One folder more.
pub fn one_folder(counts: Counts) -> Result<Counts, FindFault>
    ensures gives { Gives told tally_of result (with_folders 1 (tally_of counts)) }
    ensures no_read_fault { IsErrOf result FindFault.ReadFault → ⊥ }
    ensures no_memory { IfErr result (λ e. e ≡ FindFault.TooMany) }
{
    if counts.folders >= MOST_FOLDERS {
        return Err(FindFault::TooMany);
    }
    Ok(Counts {
        modules: counts.modules,
        folders: counts.folders + 1,
    })
}
