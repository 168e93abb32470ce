//! Why a layer is not defined, in the order in which it is decided (`ModuleLayer.defineModules`).

ghost use Rattle.std.specs.Prelude.{◌≡◌, ◌↔◌, ◌≤◌, ◌++◌, length, map, Contains, IsTrue, IfOk, OnOk, codes};
ghost use Rattle.std.specs.List.{filter, list_any};
ghost use Rattle.std.specs.Option.{option_to_list};
ghost use Rattle.jl_logic.specs.Order.{is_text, name_cmp, RisesBy};
ghost use Rattle.jl_prim.specs.Limits.{most_modules};
ghost use Rattle.jl_prim.specs.declared.declaration.ParentLoader.{ParentLoader};
ghost use Rattle.jl_config.specs.Located.{configuration_of, name_of};
ghost use Rattle.jl_config.specs.Orders.{module_cmp};
ghost use Rattle.jl_config.specs.Places.{IsLeastSome};
ghost use Rattle.jl_layer.specs.Layers.{layer_at};
ghost use Rattle.jl_layer.specs.Meaning.{exported_to, reaching};
ghost use Rattle.jl_layer.specs.Refusals.{is_java};
ghost use Rattle.jl_layer.specs.Claims.{claims_by, own_claims, taken_claims, taken_from, taken_of};
ghost use Rattle.jl_layer.specs.Deciding.{java_packages};
ghost use Rattle.jl_layer.specs.declared.layer.Mode.{Mode};

use crate::claims::Claim;
use crate::fault::Lack;
use crate::layer::{Member, Mode};
use crate::loader_rows::reaches_name;
use crate::registry::Registry;
use jl_config::Read;
use jl_prim::{ConfigId, Copied, Grant, LayerId, Name, Observed};
use std::alloc::Global;

impl Registry {
    /// Whether the configurations of layers are the parents of a configuration, in order.
    pub fn are_parents(&self, cf: ConfigId, parents: &[LayerId]) -> bool
        ensures { IsTrue result ↔ (map (λ (l : LayerId). (layer_at self.now l).config) parents.now ≡ (configuration_of self.now.configurations cf).parents) }
    {
        let wanted = self.parents_in(cf);
        if wanted.len() != parents.len() {
            return false;
        }
        for (at, parent) in parents.iter().enumerate() {
            if self.config_of(*parent).0 != wanted[at].0 {
                return false;
            }
        }
        true
    }

    /// Whether a configuration has a module `java.base`.
    pub fn has_base(&self, cf: ConfigId) -> bool
        ensures { result ≡ list_any (λ o. is_text (name_of o) (codes "java.base")) (configuration_of self.now.configurations cf).modules }
    {
        self.observed_in(cf).iter().any(|o| o.declaration.name.as_bytes()
            == b"java.base".as_slice())
    }

    /// The least package of a configuration's modules that is Java's, if there is one.
    pub fn least_java(&self, cf: ConfigId) -> Result<Option<Name>, Lack>
        ensures { IfOk result (IsLeastSome name_cmp (Contains (java_packages (configuration_of self.now.configurations cf).modules))) }
    {
        let mut found = Vec::new(self.allocator());
        for module in self.observed_in(cf) {
            push_java(&mut found, module.declaration.packages.as_slice())?;
        }
        Ok(least_of(found))
    }

    /// What the modules of a configuration claim, each for itself.
    pub fn own_claims(&self, cf: ConfigId) -> Result<Vec<Claim>, Lack>
        requires { length (configuration_of self.now.configurations cf).modules ≤ most_modules }
        ensures { IfOk result (λ claims. claims.items ≡ own_claims 0 (configuration_of self.now.configurations cf).modules) }
    {
        let mut claims = Vec::new(self.allocator());
        for (at, module) in self.observed_in(cf).iter().enumerate() {
            push_claims(&mut claims, module, at as u32)?;
        }
        Ok(claims)
    }

    /// What the modules of a configuration take from above a layer, each package for the loader of its module.
    pub fn taken_claims(&self, cf: ConfigId, parents: &[LayerId]) -> Result<Vec<Claim>, Lack>
        ensures { (mode : Mode) (parent : ParentLoader) → IfOk result (λ claims. claims.items ≡ taken_claims self.now (record { config = cf; parents = parents.now; mode = mode; parent_loader = parent })) }
    {
        let mut claims = Vec::new(self.allocator());
        for read in self.reads_in(cf) {
            self.push_taken(&mut claims, cf, parents, read)?;
        }
        Ok(claims)
    }

    /// Adds what a read takes from above a layer.
    fn push_taken(
        &self,
        claims: &mut Vec<Claim>,
        cf: ConfigId,
        parents: &[LayerId],
        read: &Read,
    ) -> Result<(), Lack>
        ensures { (mode : Mode) (parent : ParentLoader) → OnOk result (claims.new.items ≡ claims.old.items ++ taken_of self.now (record { config = cf; parents = parents.now; mode = mode; parent_loader = parent }) read.now) }
    {
        if read.config.0 == cf.0 {
            return Ok(());
        }
        let Some(m) = self.meant_above(parents, read.config, read.name.as_bytes()) else {
            return Ok(());
        };
        match self.member(m) {
            Some(member) => push_exports(claims, member, &read.reader),
            None => Ok(()),
        }
    }
}

/// The least of some names, where there is one.
fn least_of(names: Vec<Name>) -> Option<Name>
    ensures { IsLeastSome name_cmp (Contains names.items) result }
{
    names.into_iter().min()
}

/// Adds the packages that are Java's.
fn push_java(found: &mut Vec<Name>, packages: &[Name]) -> Result<(), Lack>
    ensures { OnOk result (found.new.items ≡ found.old.items ++ filter is_java packages.now) }
{
    for name in packages {
        if is_java(name.as_bytes()) {
            found.push(name.copy()?)?;
        }
    }
    Ok(())
}

/// Whether a package is that of Java, or one in it.
fn is_java(name: &[u8]) -> bool
    ensures { result ≡ is_java name.now }
{
    name == b"java".as_slice() || name.starts_with(b"java/".as_slice())
}

/// Adds what a module claims.
fn push_claims(claims: &mut Vec<Claim>, given: &Observed, owner: u32) -> Result<(), Lack>
    ensures { OnOk result (claims.new.items ≡ claims.old.items ++ claims_by owner given.now) }
{
    for name in given.declaration.packages.as_slice() {
        claims.push(Claim {
            package: name.copy()?,
            name: given.declaration.name.copy()?,
            owner,
        })?;
    }
    Ok(())
}

/// Adds what a module exports to a reader.
fn push_exports(claims: &mut Vec<Claim>, member: &Member, reader: &Name) -> Result<(), Lack>
    ensures { OnOk result (claims.new.items ≡ claims.old.items ++ taken_from member.now (exported_to member.now.observed.declaration reader.now)) }
{
    for grant in member.observed.declaration.exports.as_slice() {
        push_export(claims, member, grant, reader)?;
    }
    Ok(())
}

/// Adds the package of a grant of a module, where it reaches a reader.
fn push_export(
    claims: &mut Vec<Claim>,
    member: &Member,
    grant: &Grant,
    reader: &Name,
) -> Result<(), Lack>
    ensures { OnOk result (claims.new.items ≡ claims.old.items ++ taken_from member.now (option_to_list (reaching reader.now grant.now))) }
{
    if reaches_name(grant, reader) {
        claims.push(Claim {
            package: grant.package.copy()?,
            name: member.observed.declaration.name.copy()?,
            owner: member.loader.0,
        })?;
    }
    Ok(())
}
