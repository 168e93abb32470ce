//! Laws of loaders. There is nothing to run.

ghost use Rattle.jl_loaders.specs.Laws.{AreSound, LeadsStay};

use crate::loaders::Loaders;

/// Says that parents have lower numbers, and that constraints are of loaders and not violated.
pub fn are_sound(loaders: &Loaders)
    ensures { AreSound loaders.now }
{
    loaders.stay_sound();
}

/// Says that leads never move, and that constraints that stand go on to stand.
pub fn leads_stay()
    ensures { LeadsStay }
{}
