//! Laws of resolutions.

ghost use Rattle.jl_config.specs.Laws.{ResolvesAlways, ResolvesOnce, RefusesWhereOneHolds};

/// Says that two answers of one resolution are the same, where memory was not wanting. There is nothing to
/// run.
pub fn resolves_once()
    ensures { ResolvesOnce }
{}

/// Says that each resolution has an answer, where memory is not wanting. There is nothing to run.
pub fn resolves_always()
    ensures { ResolvesAlways }
{}

/// Says that a resolution is refused exactly where one of the conditions holds. There is nothing to run.
pub fn refuses_where_one_holds()
    ensures { RefusesWhereOneHolds }
{}
