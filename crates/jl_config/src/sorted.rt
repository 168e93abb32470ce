//! Items in order.

ghost use Rattle.std.specs.Prelude.{◌≡◌, ◌↔◌, IfOk, IsTrue, Contains, true};
ghost use Rattle.std.specs.List.{Any};
ghost use Rattle.jl_logic.specs.Order.{name_cmp, RisesBy};
ghost use Rattle.jl_config.specs.Collected.{AreSorted};
ghost use Rattle.jl_config.specs.Places.{IsLeastSome};

use jl_prim::{CopyEnd, Name};

/// The items in order, without those that equal an earlier one.
pub fn sorted_set<T: Ord + Drop>(mut items: Vec<T>) -> Result<Vec<T>, CopyEnd>
    ensures rise { IfOk result (λ set. RisesBy T.cmp set.items) }
    ensures only { IfOk result (λ set. (x : T) → Contains set.items x → Contains items.items x) }
    ensures all { IfOk result (λ set. (x : T) → Contains items.items x → Any (λ y. T.eq x y ≡ true) set.items) }
{
    items.sort()?;
    items.dedup();
    Ok(items)
}

/// The names in order, each once.
pub fn sorted_names(names: Vec<Name>) -> Result<Vec<Name>, CopyEnd>
    ensures { IfOk result (λ sorted. AreSorted names.items sorted.items) }
{
    let sorted = sorted_set(names)?;
    Ok(sorted)
}

/// Whether a name is among names in order.
pub fn has_name(sorted: &[Name], name: &[u8]) -> bool
    requires { RisesBy name_cmp sorted.now }
    ensures { IsTrue result ↔ Contains sorted.now name.now }
{
    sorted.binary_search_by(|n| n.as_bytes().cmp(name)).is_ok()
}

/// The least of the items, where there is one.
pub fn least_of<T: Ord + Drop>(items: Vec<T>) -> Option<T>
    ensures { IsLeastSome T.cmp (Contains items.items) result }
{
    items.into_iter().min()
}
