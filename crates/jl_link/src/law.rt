//! Laws of what was decided. There is nothing to run.

ghost use Rattle.jl_link.specs.Decided.{DecidedIsListed};
ghost use Rattle.jl_link.specs.Laws.{DecidedStays};

/// Says that what was decided of a reference stays, whatever is loaded, noted, imposed or added.
pub fn decided_stays()
    ensures { DecidedStays }
{
    jl_access::grants_stay();
    jl_layer::layers_stay();
    jl_loads::classes_stay();
    jl_loads::loads_stay();
    jl_loads::sound_stays();
}

/// Says that the list of what is decided has each reference of which something is, with its slot, and no others, each
/// once, by class and then by index.
pub fn decided_is_listed()
    ensures { DecidedIsListed }
{}
