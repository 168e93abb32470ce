//! A law of searches for modules.

ghost use Rattle.jl_finder.specs.Laws.{FindsByPlaces};

/// Says where what is found stands: names differ, each module is what the file at one of the places of the elements
/// declares, and the name of each module at such a place occurs. There is nothing to run.
pub fn finds_by_places()
    ensures { FindsByPlaces }
{}
