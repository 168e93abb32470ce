//! A new layer: its place among the layers, and what it adds to loaders and facts (`ModuleLayer.defineModules`).

ghost use Rattle.std.specs.Prelude.{◌≡◌, ◌+◌, ◌<◌, ◌≤◌, ◌++◌, All, length, map, drop, IfOk, OnOk, OnErr};
ghost use Rattle.jl_logic.specs.Order.{RisesBy};
ghost use Rattle.jl_config.specs.Located.{configuration_of};
ghost use Rattle.jl_config.specs.Orders.{module_cmp};
ghost use Rattle.jl_loaders.specs.Loaders as delegation;
ghost use Rattle.jl_layer.specs.declared.layer.Mode.{Mode};
ghost use Rattle.jl_layer.specs.Layers.{IsLayer, layer_at};
ghost use Rattle.jl_layer.specs.Defining.{IsAsBefore, asked_modules, declared_module, loader_count, members, module_numbers, new_layer, new_members, next_layer, placed};
ghost use Rattle.jl_layer.specs.Orderly.{AreOrderly};
ghost use Rattle.jl_layer.specs.Placing.{HasRoom, IsAdded, IsAddedBy, IsFitting, IsStatableIn, TakesIn, loader_place, outlined, shortened};

use crate::fault::Lack;
use crate::layer::{Layer, Member, Mode};
use crate::registry::Registry;
use jl_access::{Facts, Statement};
use jl_loaders::{LoaderParts, Loaders};
use jl_prim::{ConfigId, Copied, Items, LayerId, LoaderId, ModuleId, Name, Observed, ParentLoader};
use std::alloc::{AllocError, Global};

/// A module, as facts know it.
#[derive(Drop)]
pub struct Outline {
    pub is_open: bool,
    pub packages: Items<Name>,
}

/// What a layer adds to loaders and facts.
#[derive(Drop)]
pub struct Added {
    pub loaders: Vec<LoaderParts>,
    pub modules: Vec<Outline>,
    pub statements: Vec<Statement>,
}

impl Registry {
    /// Places a layer and its modules, which loaders and facts do not know yet.
    fn admit(
        &mut self,
        cf: ConfigId,
        parents: &[LayerId],
        mode: Mode,
        parent_loader: ParentLoader,
    ) -> Result<(), Lack>
        requires layers { length self.old.layers < 4294967295 }
        requires modules { length self.old.modules + length (configuration_of self.old.configurations cf).modules < 4294967295 }
        requires loaders { length self.old.loaders.loaders + length (configuration_of self.old.configurations cf).modules < 4294967295 }
        requires rise { RisesBy module_cmp (configuration_of self.old.configurations cf).modules }
        requires parents { All (IsLayer self.old) parents.now }
        ensures places { OnOk result (self.new ≡ placed self.old (record { config = cf; parents = parents.now; mode = mode; parent_loader = parent_loader })) }
        ensures before { OnErr result (self.new ≡ self.old) }
    {
        let layer = self.new_layer(cf, parents, parent_loader)?;
        let line = self.new_line(parents)?;
        let mut members = self.new_members(cf, mode)?;
        self.layers.reserve(1)?;
        self.lines.reserve(1)?;
        self.modules.append(&mut members)?;
        self.layers.push_reserved(layer);
        self.lines.push_reserved(Items::from_vec(line));
        Ok(())
    }

    /// The next layer, over a configuration.
    fn new_layer(
        &self,
        cf: ConfigId,
        parents: &[LayerId],
        parent_loader: ParentLoader,
    ) -> Result<Layer, Lack>
        requires { length self.now.modules + length (configuration_of self.now.configurations cf).modules < 4294967295 }
        ensures { (mode : Mode) → IfOk result (λ layer. layer ≡ new_layer self.now (record { config = cf; parents = parents.now; mode = mode; parent_loader = parent_loader })) }
    {
        let alloc = self.allocator();
        let count = self.observed_in(cf).len();
        let numbers = numbers_from(alloc, self.modules.len() + 1, count)?;
        Ok(Layer {
            config: cf,
            parents: Items::from_vec(parents.to_vec(alloc)?),
            modules: Items::from_vec(numbers),
            parent_loader,
        })
    }

    /// The modules of the next layer.
    fn new_members(&self, cf: ConfigId, mode: Mode) -> Result<Vec<Member>, Lack>
        requires layers { length self.now.layers < 4294967295 }
        requires loaders { length self.now.loaders.loaders + length (configuration_of self.now.configurations cf).modules < 4294967295 }
        ensures { IfOk result (λ made. made.items ≡ members mode (next_layer self.now) (length self.now.loaders.loaders + 1) (configuration_of self.now.configurations cf).modules) }
    {
        let layer = LayerId(self.layers.len() as u32 + 1);
        let first = self.loaders.count() + 1;
        members_of(self.allocator(), mode, layer, first, self.observed_in(cf))
    }

    /// Takes layers and modules back, but for so many.
    fn withdraw(&mut self, layers: usize, modules: usize)
        requires { AreOrderly (shortened layers modules self.old).layers (shortened layers modules self.old).modules }
        ensures { self.new ≡ shortened layers modules self.old }
    {
        self.layers.truncate(layers);
        self.lines.truncate(layers);
        self.modules.truncate(modules);
    }

    /// Places a layer and its modules, and gives what it adds to loaders and facts, for which there is room then.
    pub fn begun(
        &mut self,
        cf: ConfigId,
        parents: &[LayerId],
        mode: Mode,
        parent_loader: ParentLoader,
    ) -> Result<Added, Lack>
        requires layers { length self.old.layers < 4294967295 }
        requires modules { length self.old.modules + length (configuration_of self.old.configurations cf).modules < 4294967295 }
        requires loaders { length self.old.loaders.loaders + length (configuration_of self.old.configurations cf).modules < 4294967295 }
        requires rise { RisesBy module_cmp (configuration_of self.old.configurations cf).modules }
        requires parents { All (IsLayer self.old) parents.now }
        ensures adds { IfOk result (IsAddedBy self.old (record { config = cf; parents = parents.now; mode = mode; parent_loader = parent_loader })) }
        ensures room { IfOk result (λ added. HasRoom added self.new) }
        ensures placed { OnOk result (IsAsBefore (placed self.old (record { config = cf; parents = parents.now; mode = mode; parent_loader = parent_loader })) self.new) }
        ensures before { OnErr result (IsAsBefore self.old self.new) }
    {
        let layers = self.layers.len();
        let modules = self.modules.len();
        let first = self.loaders.count() + 1;
        let count = loaders_for(mode, self.observed_in(cf));
        self.admit(cf, parents, mode, parent_loader)?;
        match self.prepared(LayerId(layers as u32 + 1), first, count, modules) {
            Ok(added) => Ok(added),
            Err(lack) => {
                self.withdraw(layers, modules);
                Err(lack)
            }
        }
    }

    /// What a layer adds to loaders and facts, with room for it.
    fn prepared(
        &mut self,
        l: LayerId,
        first: usize,
        count: usize,
        modules: usize,
    ) -> Result<Added, Lack>
        requires { modules ≤ length self.old.modules }
        ensures adds { IfOk result (IsAdded self.old l first count modules) }
        ensures room { IfOk result (λ added. HasRoom added self.new) }
        ensures same { IsAsBefore self.old self.new }
    {
        let added = self.drafted(l, first, count, modules)?;
        self.room(&added)?;
        Ok(added)
    }

    /// What a layer adds to loaders and facts.
    fn drafted(&self, l: LayerId, first: usize, count: usize, modules: usize) -> Result<Added, Lack>
        requires { modules ≤ length self.now.modules }
        ensures { IfOk result (IsAdded self.now l first count modules) }
    {
        let reads = self.reads_of(l)?;
        let parent = self.parent_loader_of(l);
        Ok(Added {
            loaders: self.loader_parts(l, first, count, reads.as_slice(), parent)?,
            modules: outlines_of(self.allocator(), &self.modules[modules..])?,
            statements: self.statements_of(l, reads.as_slice())?,
        })
    }

    /// The loader to which the loaders of a layer turn last.
    fn parent_loader_of(&self, l: LayerId) -> ParentLoader
        ensures { result ≡ (layer_at self.now l).parent_loader }
    {
        match self.layer(l) {
            Some(layer) => layer.parent_loader,
            None => ParentLoader::Null,
        }
    }

    /// Makes room for what a layer adds.
    fn room(&mut self, added: &Added) -> Result<(), Lack>
        ensures same { IsAsBefore self.old self.new }
        ensures room { OnOk result (HasRoom added.now self.new) }
    {
        self.loaders.room(added.loaders.len())?;
        self.facts
            .room(added.modules.len(), added.statements.len())?;
        Ok(())
    }

    /// Adds what a layer adds, for which there is room.
    pub fn take_in(&mut self, added: Added)
        requires room { HasRoom added self.old }
        requires fits { IsFitting added self.old }
        ensures { TakesIn added self.old self.new }
    {
        place_loaders(&mut self.loaders, added.loaders);
        place_modules(&mut self.facts, added.modules);
        place_statements(&mut self.facts, added.statements);
    }
}

/// Places loaders.
fn place_loaders(loaders: &mut Loaders, parts: Vec<LoaderParts>)
    requires room { length parts.items ≤ loaders.old.spare }
    requires numbers { length loaders.old.loaders + length parts.items ≤ 4294967295 }
    requires parents { All (λ (p : delegation.Parts). delegation.ParentExists loaders.old p.parent) parts.items }
    ensures loaders { loaders.new.loaders ≡ loaders.old.loaders ++ parts.items }
    ensures base { loaders.new.base ≡ loaders.old.base }
    ensures constraints { loaders.new.constraints ≡ loaders.old.constraints }
{
    for part in parts {
        let _ = loaders.place(part);
    }
}

/// Places modules among facts.
fn place_modules(facts: &mut Facts, outlines: Vec<Outline>)
    requires room { length outlines.items ≤ facts.old.spare_modules }
    requires numbers { length facts.old.modules + length outlines.items ≤ 4294967295 }
    ensures modules { facts.new.modules ≡ facts.old.modules ++ map outlined outlines.items }
    ensures statements { facts.new.statements ≡ facts.old.statements }
    ensures room { facts.new.spare_statements ≡ facts.old.spare_statements }
{
    for outline in outlines {
        let _ = facts.place_module(outline.is_open, outline.packages);
    }
}

/// Places statements among facts.
fn place_statements(facts: &mut Facts, statements: Vec<Statement>)
    requires room { length statements.items ≤ facts.old.spare_statements }
    requires stated { All (IsStatableIn facts.old.modules) statements.items }
    ensures modules { facts.new.modules ≡ facts.old.modules }
    ensures statements { facts.new.statements ≡ facts.old.statements ++ statements.items }
{
    for statement in statements {
        facts.place(statement);
    }
}

/// How many loaders a layer of these modules has.
pub fn loaders_for(mode: Mode, observed: &[Observed]) -> usize
    ensures { result ≡ loader_count mode observed.now }
{
    if observed.is_empty() {
        return 0;
    }
    match mode {
        Mode::One => 1,
        Mode::Many => observed.len(),
    }
}

/// The modules of a layer: all with the first loader, or each with its own, from the first on.
fn members_of(
    alloc: Global,
    mode: Mode,
    layer: LayerId,
    first: usize,
    observed: &[Observed],
) -> Result<Vec<Member>, Lack>
    requires { first + length observed.now ≤ 4294967295 }
    ensures { IfOk result (λ made. made.items ≡ members mode layer first observed.now) }
{
    let mut made = Vec::with_capacity(alloc, observed.len())?;
    for (at, module) in observed.iter().enumerate() {
        made.push(Member {
            layer,
            loader: loader_at(mode, first, at),
            observed: module.copy()?,
        })?;
    }
    Ok(made)
}

/// The loader of the module at a place.
fn loader_at(mode: Mode, first: usize, at: usize) -> LoaderId
    requires { first + at ≤ 4294967295 }
    ensures { result ≡ record { 0 = first + loader_place mode at } }
{
    match mode {
        Mode::One => LoaderId(first as u32),
        Mode::Many => LoaderId((first + at) as u32),
    }
}

/// So many numbers of modules, from the first on.
fn numbers_from(alloc: Global, first: usize, count: usize) -> Result<Vec<ModuleId>, AllocError>
    requires { first + count ≤ 4294967295 }
    ensures { IfOk result (λ numbers. numbers.items ≡ module_numbers first count) }
{
    let mut numbers = Vec::with_capacity(alloc, count)?;
    for at in 0..count {
        numbers.push(ModuleId((first + at) as u32))?;
    }
    Ok(numbers)
}

/// Modules as facts know them.
fn outlines_of(alloc: Global, members: &[Member]) -> Result<Vec<Outline>, Lack>
    ensures { IfOk result (λ outlines. map outlined outlines.items ≡ map declared_module members.now) }
{
    let mut outlines = Vec::with_capacity(alloc, members.len())?;
    for member in members {
        let declaration = &member.observed.declaration;
        outlines.push(Outline {
            is_open: declaration.is_open,
            packages: declaration.packages.copy()?,
        })?;
    }
    Ok(outlines)
}
