//! Tables of places.

ghost use Rattle.std.specs.Prelude.{◌≡◌, ◌++◌, ℕ, List, false, nat_eq, OnOk};
ghost use Rattle.std.specs.Option.{option_to_list};
ghost use Rattle.std.specs.Cmp.Lexicographic.{pointwise};
ghost use Rattle.indexmap.specs.IndexMap.{get};
ghost use Rattle.jl_logic.specs.Order.{is_text};
ghost use Rattle.jl_config.specs.Tables.{or_at, listed, place_for};

use indexmap::IndexMap;
use jl_prim::{Copied, CopyEnd, Items, Name};
use std::alloc::Global;

/// Notes a place of a name that has none yet.
pub fn note_first(places: &mut IndexMap<Name, usize>, name: &Name, at: usize) -> Result<(), CopyEnd>
    ensures { OnOk result ((q : List ℕ) → get (pointwise nat_eq) places.new q ≡ or_at (get (pointwise nat_eq) places.old q) (is_text name.now q) at) }
{
    if places.get(name).is_none() {
        places.insert(name.copy()?, at)?;
    }
    Ok(())
}

/// Notes one more place of a name.
pub fn note_place(
    alloc: Global,
    table: &mut IndexMap<Name, Items<usize>>,
    name: &Name,
    place: usize,
) -> Result<(), CopyEnd>
    ensures { OnOk result ((q : List ℕ) → listed table.new q ≡ listed table.old q ++ option_to_list (place_for name.now place q)) }
{
    let mut places = taken(alloc, table, name).into_vec();
    places.push(place)?;
    table.insert(name.copy()?, Items::from_vec(places))?;
    Ok(())
}

fn taken(alloc: Global, table: &mut IndexMap<Name, Items<usize>>, name: &Name) -> Items<usize>
    ensures places { result ≡ listed table.old name.now }
    ensures others { (q : List ℕ) → is_text name.now q ≡ false → get (pointwise nat_eq) table.new q ≡ get (pointwise nat_eq) table.old q }
{
    match table.swap_remove(name) {
        Some(places) => places,
        None => Items::new(alloc),
    }
}
