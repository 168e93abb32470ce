//! Modules in sight.

ghost use Rattle.std.specs.Prelude.{◌≡◌, ◌++◌, OnOk};
ghost use Rattle.jl_config.specs.Located.{candidates_of};

use jl_prim::{ConfigId, Copied, CopyEnd, Observed};

/// A module, with the number of the configuration that has it.
#[derive(Debug, Drop)]
pub struct Candidate {
    pub config: ConfigId,
    pub observed: Observed,
}

/// Adds copies of the modules of a configuration.
pub fn push_candidates(
    candidates: &mut Vec<Candidate>,
    config: ConfigId,
    modules: &[Observed],
) -> Result<(), CopyEnd>
    ensures { OnOk result (candidates.new.items ≡ candidates.old.items ++ candidates_of config modules.now) }
{
    for o in modules {
        let observed = o.copy()?;
        candidates.push(Candidate { config, observed })?;
    }
    Ok(())
}
