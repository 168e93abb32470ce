//! That a launch has one end and one text, neither more nor none.

ghost use Rattle.jl_launch.specs.Unique.{LaunchesOnce, LaunchesAlways};

use jl_config::{resolves_always, resolves_once};

/// Says that the same words over the same files have at most one end and text. There is nothing to run.
pub fn launches_once()
    ensures { LaunchesOnce }
{
    resolves_once();
}

/// Says that words over files always have an end and a text. There is nothing to run.
pub fn launches_always()
    ensures { LaunchesAlways }
{
    resolves_always();
}
