//! Counts of calls and faults, and which calls fail.

ghost use Rattle.std.specs.Prelude.{◌≡◌, ◌≤◌};
ghost use Rattle.jl_logic.specs.Counts.{raised, Rose};
ghost use Rattle.jl_tree.specs.Memory.{is_failing};

/// One more. It stands still at the last value.
pub fn one_more(count: u64) -> u64
    ensures one_more { result ≡ raised count }
    ensures rose { Rose count result }
    ensures kept { count ≤ result }
{
    count.saturating_add(1)
}

/// Whether the call after so many calls is one of those that fail.
pub fn is_failing_call(fails: &[u64], calls: u64) -> bool
    ensures { result ≡ is_failing fails.now calls }
{
    fails.contains(&one_more(calls))
}
