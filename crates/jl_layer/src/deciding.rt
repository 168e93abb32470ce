//! Which refusal of a layer comes first, with the least fields (`ModuleLayer.defineModules`).

ghost use Rattle.std.specs.Prelude.{[], ◌+◌, ◌<◌, ◌≤◌, ◌⊎◌, ◌↔◌, IsTrue, length, IfOk, IsSorted};
ghost use Rattle.jl_logic.specs.Order.{RisesBy};
ghost use Rattle.jl_prim.specs.Limits.{most_modules};
ghost use Rattle.jl_prim.specs.declared.declaration.ParentLoader.{ParentLoader};
ghost use Rattle.jl_config.specs.Located.{configuration_of};
ghost use Rattle.jl_config.specs.Orders.{module_cmp};
ghost use Rattle.jl_layer.specs.declared.layer.Mode.{Mode};
ghost use Rattle.jl_layer.specs.declared.layer.Mode.TheVariants as modes;
ghost use Rattle.jl_layer.specs.Claims.{claim_cmp, free_claims, own_claims};
ghost use Rattle.jl_layer.specs.Deciding.{AreOrdered, IsByClash, Settles, StartsAt, overlap_fault, split_fault};
ghost use Rattle.jl_layer.specs.Defining.{boot};
ghost use Rattle.jl_layer.specs.Keeping.{AreKept};
ghost use Rattle.jl_layer.specs.Layers.{IsConfiguration};
ghost use Rattle.jl_layer.specs.Refusals.{Applies, AppliesToBoot};

use crate::claims::{Claim, free_of, least_clash, sorted};
use crate::fault::{Lack, LayerFault};
use crate::layer::Mode;
use crate::registry::Registry;
use jl_prim::{ConfigId, LayerId, MOST_MODULES};

impl Registry {
    /// The refusal of a layer, if there is one.
    pub fn refusal(
        &self,
        cf: ConfigId,
        parents: &[LayerId],
        mode: Mode,
    ) -> Result<Option<LayerFault>, Lack>
        requires kept { AreKept [] self.now.configurations }
        requires known { IsConfiguration self.now cf }
        requires rise { RisesBy module_cmp (configuration_of self.now.configurations cf).modules }
        requires few { length (configuration_of self.now.configurations cf).modules ≤ most_modules }
        requires few_modules { length self.now.modules ≤ most_modules }
        ensures { (parent : ParentLoader) → IfOk result (Settles (Applies self.now (record { config = cf; parents = parents.now; mode = mode; parent_loader = parent })) 6) }
    {
        if let Some(fault) = self.early(cf, parents)? {
            return Ok(Some(fault));
        }
        if let Some(fault) = self.shared(cf, parents, mode)? {
            return Ok(Some(fault));
        }
        if self.are_many(cf) {
            return Ok(Some(LayerFault::TooMany));
        }
        Ok(None)
    }

    /// The refusal of the boot layer, if there is one.
    pub fn boot_refusal(&self, cf: ConfigId) -> Result<Option<LayerFault>, Lack>
        requires rise { RisesBy module_cmp (configuration_of self.now.configurations cf).modules }
        requires few { length (configuration_of self.now.configurations cf).modules ≤ most_modules }
        ensures { IfOk result (Settles (AppliesToBoot self.now (boot cf)) 4) }
    {
        let own = sorted(self.own_claims(cf)?)?;
        overlap_in(own.as_slice())
    }

    /// The refusal by parents, by `java.base`, or by a package of Java.
    fn early(&self, cf: ConfigId, parents: &[LayerId]) -> Result<Option<LayerFault>, Lack>
        ensures { (mode : Mode) (parent : ParentLoader) → IfOk result (Settles (Applies self.now (record { config = cf; parents = parents.now; mode = mode; parent_loader = parent })) 3) }
    {
        if !self.are_parents(cf, parents) {
            return Ok(Some(LayerFault::ParentMismatch));
        }
        if self.has_base(cf) {
            return Ok(Some(LayerFault::BaseAgain));
        }
        match self.least_java(cf)? {
            Some(package) => Ok(Some(LayerFault::JavaPackage(package))),
            None => Ok(None),
        }
    }

    /// The refusal by packages of modules that share a loader.
    fn shared(
        &self,
        cf: ConfigId,
        parents: &[LayerId],
        mode: Mode,
    ) -> Result<Option<LayerFault>, Lack>
        requires kept { AreKept [] self.now.configurations }
        requires known { IsConfiguration self.now cf }
        requires rise { RisesBy module_cmp (configuration_of self.now.configurations cf).modules }
        requires few { length (configuration_of self.now.configurations cf).modules ≤ most_modules }
        ensures { (parent : ParentLoader) → StartsAt (Applies self.now (record { config = cf; parents = parents.now; mode = mode; parent_loader = parent })) 3
            → IfOk result (Settles (Applies self.now (record { config = cf; parents = parents.now; mode = mode; parent_loader = parent })) 5) }
    {
        match mode {
            Mode::One => self.shared_by_one(cf, parents),
            Mode::Many => Ok(None),
        }
    }

    /// The refusal by packages of modules that share one loader.
    fn shared_by_one(&self, cf: ConfigId, parents: &[LayerId]) -> Result<Option<LayerFault>, Lack>
        requires kept { AreKept [] self.now.configurations }
        requires known { IsConfiguration self.now cf }
        requires rise { RisesBy module_cmp (configuration_of self.now.configurations cf).modules }
        requires few { length (configuration_of self.now.configurations cf).modules ≤ most_modules }
        ensures { (parent : ParentLoader) → StartsAt (Applies self.now (record { config = cf; parents = parents.now; mode = modes.One; parent_loader = parent })) 3
            → IfOk result (Settles (Applies self.now (record { config = cf; parents = parents.now; mode = modes.One; parent_loader = parent })) 5) }
    {
        let own = sorted(self.own_claims(cf)?)?;
        if let Some(fault) = overlap_in(own.as_slice())? {
            return Ok(Some(fault));
        }
        let free = sorted(free_of(self.taken_claims(cf, parents)?, own.as_slice()))?;
        split_in(free.as_slice())
    }

    /// Whether all layers would have too many modules, or there are too many layers.
    fn are_many(&self, cf: ConfigId) -> bool
        requires few { length (configuration_of self.now.configurations cf).modules ≤ most_modules }
        requires few_modules { length self.now.modules ≤ most_modules }
        ensures { IsTrue result ↔ ((most_modules < length self.now.modules + length (configuration_of self.now.configurations cf).modules) ⊎ (most_modules ≤ length self.now.layers)) }
    {
        self.modules.len() + self.observed_in(cf).len() > MOST_MODULES
            || self.layers.len() >= MOST_MODULES
    }
}

/// The refusal by the least overlap, of what modules claim in order.
fn overlap_in(claims: &[Claim]) -> Result<Option<LayerFault>, Lack>
    requires { IsSorted claim_cmp claims.now }
    ensures { IfOk result (IsByClash overlap_fault claims.now) }
{
    match least_clash(claims)? {
        Some(clash) => Ok(Some(LayerFault::Overlap {
            package: clash.package,
            one: clash.one,
            other: clash.other,
        })),
        None => Ok(None),
    }
}

/// The refusal by the least split, of what modules claim in order.
fn split_in(claims: &[Claim]) -> Result<Option<LayerFault>, Lack>
    requires { IsSorted claim_cmp claims.now }
    ensures { IfOk result (IsByClash split_fault claims.now) }
{
    match least_clash(claims)? {
        Some(clash) => Ok(Some(LayerFault::Split {
            package: clash.package,
            one: clash.one,
            other: clash.other,
        })),
        None => Ok(None),
    }
}
