//! Laws of verdicts. There is nothing to run.

ghost use Rattle.jl_access.specs.Laws.{FactsStay, GrantsStay, DenialsName, GrantsByThree, ReflectsByAnExport, DeepByAnOpening};

/// Says that what holds of modules goes on to hold, whatever modules and statements are added.
pub fn facts_stay()
    ensures { FactsStay }
{}

/// Says that what is granted stays granted, whatever modules and statements are added.
pub fn grants_stay()
    ensures { GrantsStay }
{}

/// Says that a denial names the first condition that fails.
pub fn denials_name_their_rules()
    ensures { DenialsName }
{}

/// Says what a grant between two modules is.
pub fn grants_by_three()
    ensures { GrantsByThree }
{}

/// Says what a grant to reflection between two modules is.
pub fn reflects_by_an_export()
    ensures { ReflectsByAnExport }
{}

/// Says what a grant to deep reflection between two modules is.
pub fn deep_by_an_opening()
    ensures { DeepByAnOpening }
{}
