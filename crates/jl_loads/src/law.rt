//! Laws of what is loaded. There is nothing to run.

ghost use Rattle.jl_loads.specs.Laws.{AccessStays, AreLaid, AreSound, ClassesStay, FilesStay, LoadsStay, NumbersNameOneMember, ReadOnce, SoundStays};

use crate::loads::Loads;
use jl_layer::Layers;

/// Says what holds of what is loaded at any time.
pub fn is_sound(w: &Loads)
    ensures { AreSound w.now }
{
    w.stay_sound();
}

/// Says that classes may be loaded over layers that were defined.
pub(crate) fn are_laid(layers: &Layers)
    ensures { AreLaid layers.now }
{
    jl_layer::are_sound(layers);
    jl_layer::leads_by_layers(layers);
    jl_loaders::are_sound(layers.loaders());
}

/// Says that classes, their supertypes and the numbers of their members do not move, whatever is loaded or noted.
pub fn classes_stay()
    ensures { ClassesStay }
{
    jl_layer::layers_stay();
}

/// Says that loading adds classes and notes alone, keeps what is loaded sound, and answers the same class again in
/// any later state.
pub fn loads_stay()
    ensures { LoadsStay }
{
    jl_layer::layers_stay();
    jl_class::tables_are_read();
}

/// Says that a class that another one accessed, it accesses in any later state.
pub fn access_stays()
    ensures { AccessStays }
{
    jl_access::grants_stay();
}

/// Says that what is loaded is sound from the start on, and stays so where a note is made, a class is defined or
/// layers grow.
pub fn sound_stays()
    ensures { SoundStays }
{}

/// Says that what is kept of files that do not change is what they give, so that it never changes an answer.
pub fn files_stay()
    ensures { FilesStay }
{}

/// Says that no path is asked for twice, over any calls one behind the other.
pub fn read_once()
    ensures { ReadOnce }
{}

/// Says that a number is that of one field, or of one method.
pub fn numbers_name_one_member()
    ensures { NumbersNameOneMember }
{}
