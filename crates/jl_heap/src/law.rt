//! Laws of the heap. There is nothing to run.

ghost use Rattle.jl_heap.specs.Laws.{ObjectsStay, ShapesStay, SlotsAreCounted};

/// Says that an object has its number for ever, and that a change changes that object alone.
pub fn objects_stay()
    ensures { ObjectsStay }
{}

/// Says that a change of an object changes what it says, and neither its kind nor its class.
pub fn shapes_stay()
    ensures { ShapesStay }
{}

/// Says that the slots that were taken are those of the objects.
pub fn slots_are_counted()
    ensures { SlotsAreCounted }
{}
