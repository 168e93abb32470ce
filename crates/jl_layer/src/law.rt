//! Laws of layers. There is nothing to run.

ghost use Rattle.jl_layer.specs.Laws.{LayersStay, LeadsByLayers};
ghost use Rattle.jl_layer.specs.Resolved.{ResolvedIsKeepable};
ghost use Rattle.jl_layer.specs.Sound.{AreSound};

use crate::layers::Layers;

/// Says what holds of layers at any time, since each was defined by the rules.
pub fn are_sound(layers: &Layers)
    ensures { AreSound layers.now }
{
    layers.stay_sound();
}

/// Says that a loader leads where the declarations of the layers and what their modules read lead, and nowhere else.
pub fn leads_by_layers(layers: &Layers)
    ensures { LeadsByLayers layers.now }
{
    layers.stay_sound();
    jl_loaders::are_sound(layers.loaders());
}

/// Says that a layer finds the modules that it found, that its modules read what they read and state what they
/// stated, and that its loaders lead where they led, whatever is kept, defined or added.
pub fn layers_stay()
    ensures { LayersStay }
{
    jl_loaders::leads_stay();
    jl_access::facts_stay();
}

/// Says that what a resolution over kept configurations gives may be kept behind them.
pub fn resolved_is_keepable()
    ensures { ResolvedIsKeepable }
{}
