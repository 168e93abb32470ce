//! Counts of faults.

ghost use Rattle.std.specs.Prelude.{◌≡◌, ◌≤◌};
ghost use Rattle.jl_logic.specs.Counts.{raised, Rose};

/// One more. It stands still at the last value.
pub fn one_more(count: u64) -> u64
    ensures one_more { result ≡ raised count }
    ensures rose { Rose count result }
    ensures kept { count ≤ result }
{
    count.saturating_add(1)
}
