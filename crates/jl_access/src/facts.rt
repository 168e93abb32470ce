//! The facts: modules, and statements about them.

ghost use Rattle.std.specs.Prelude.{◌≡◌, ◌+◌, ◌<◌, ◌≤◌, [], ◌∷◌, ◌++◌, length, OnOk, option_map, option_copied, map, slice_get};
ghost use Rattle.std.specs.List.{list_any};
ghost use Rattle.jl_access.specs.Facts.{State, IsStatable, IsAsBefore, Adds, is_open_module, says_reads};
ghost use Rattle.jl_access.specs.Facts as facts;
ghost use Rattle.jl_access.specs.Whole.{declared, said, says, says_anywhere};
ghost use Rattle.jl_access.specs.declared.statement.Statement.TheVariants.{Reads};

use crate::fault::FactsEnd;
use crate::names::Names;
use crate::statement::Statement;
use crate::table::{About, Fact, Table};
use jl_prim::{Items, ModuleId, Name};
use std::alloc::Global;
use std::marker::Model;

/// What is known of modules: which packages each has and whether it is open, and a list of statements that
/// only grows. Contracts also see for how many more modules and statements there is room.
#[derive(Drop)]
pub struct Facts {
    modules: Vec<Module>,
    names: Names,
    table: Table,
    spare_modules: usize,
    spare_statements: usize,
}

/// A module: whether it is open, and its packages.
#[derive(Drop)]
struct Module {
    is_open: bool,
    packages: Items<Name>,
}

impl Model for Facts {
    ghost use Rattle.std.specs.Prelude.{◌+◌, ◌≤◌, map, vec_len, vec_capacity};
    ghost use Rattle.jl_access.specs.Facts.{State};
    ghost use Rattle.jl_access.specs.Whole.{declared, stated, IsWhole};

    ghost Value = { State };

    ghost view = { λ f. record { modules = map declared f.modules.items; statements = map (stated f.names.texts) f.table.facts; spare_modules = f.spare_modules; spare_statements = f.spare_statements } };

    ghost invariant = { λ f. IsWhole f.names f.table f.spare_statements × (vec_len f.modules + f.spare_modules ≤ vec_capacity f.modules) };
}

impl Facts {
    /// No module and no statement.
    pub fn new(alloc: Global) -> Facts
        ensures { result ≡ record { modules = []; statements = []; spare_modules = 0; spare_statements = 0 } }
    {
        Facts {
            modules: Vec::new(alloc),
            names: Names::new(alloc),
            table: Table::new(alloc),
            spare_modules: 0,
            spare_statements: 0,
        }
    }

    /// Makes room for so many more modules and statements.
    pub fn room(&mut self, modules: usize, statements: usize) -> Result<(), FactsEnd>
        ensures same { IsAsBefore self.old self.new }
        ensures modules { OnOk result (modules ≤ self.new.spare_modules) }
        ensures statements { OnOk result (statements ≤ self.new.spare_statements) }
        ensures kept_modules { self.old.spare_modules ≤ self.new.spare_modules }
        ensures kept_statements { self.old.spare_statements ≤ self.new.spare_statements }
    {
        self.modules.reserve(modules)?;
        self.names.room(statements)?;
        self.table.room(statements)?;
        self.spare_modules = self.spare_modules.max(modules);
        self.spare_statements = self.spare_statements.max(statements);
        Ok(())
    }

    /// Adds a module, which has the next number.
    pub fn place_module(&mut self, is_open: bool, packages: Items<Name>) -> ModuleId
        requires room { 0 < self.old.spare_modules }
        requires numbers { length self.old.modules < 4294967295 }
        ensures number { result ≡ record { 0 = length self.old.modules + 1 } }
        ensures modules { self.new.modules ≡ self.old.modules ++ record { is_open = is_open; packages = packages } ∷ [] }
        ensures statements { self.new.statements ≡ self.old.statements }
        ensures spare_modules { self.new.spare_modules + 1 ≡ self.old.spare_modules }
        ensures spare_statements { self.new.spare_statements ≡ self.old.spare_statements }
    {
        self.spare_modules -= 1;
        self.modules.push_reserved(Module { is_open, packages });
        ModuleId(self.modules.len() as u32)
    }

    /// Adds a statement.
    pub fn place(&mut self, statement: Statement)
        requires room { 0 < self.old.spare_statements }
        requires stated { IsStatable self.old statement }
        ensures adds { Adds statement self.old self.new }
        ensures spare_modules { self.new.spare_modules ≡ self.old.spare_modules }
        ensures spare_statements { self.new.spare_statements + 1 ≡ self.old.spare_statements }
    {
        match statement {
            Statement::Reads(a, b) => self.place_reads(a, b),
            Statement::Exports(m, package, reach) => {
                self.place_named(About::Exports(m, reach), package.into_string().into_bytes())
            }
            Statement::Opens(m, package, reach) => {
                self.place_named(About::Opens(m, reach), package.into_string().into_bytes())
            }
            Statement::Uses(m, service) => {
                self.place_named(About::Uses(m), service.into_string().into_bytes())
            }
        }
    }

    /// Adds that a module reads another.
    pub(crate) fn place_reads(&mut self, a: ModuleId, b: ModuleId)
        requires { 0 < self.old.spare_statements }
        ensures adds { Adds (Reads a b) self.old self.new }
        ensures spare_modules { self.new.spare_modules ≡ self.old.spare_modules }
        ensures spare_statements { self.new.spare_statements + 1 ≡ self.old.spare_statements }
    {
        self.spare_statements -= 1;
        self.table.place(Fact::Reads(a, b));
    }

    /// Adds a statement about a name.
    pub(crate) fn place_named(&mut self, about: About, name: Vec<u8>)
        requires { 0 < self.old.spare_statements }
        ensures adds { Adds (said about name.items) self.old self.new }
        ensures spare_modules { self.new.spare_modules ≡ self.old.spare_modules }
        ensures spare_statements { self.new.spare_statements + 1 ≡ self.old.spare_statements }
    {
        self.spare_statements -= 1;
        let number = self.names.place(name);
        self.table.place(Fact::Of(about, number));
    }

    /// Where memory comes from.
    pub(crate) fn allocator(&self) -> Global {
        *self.modules.allocator()
    }

    /// Whether m is an open module.
    pub(crate) fn is_open(&self, m: ModuleId) -> bool
        ensures { result ≡ is_open_module self.now m }
    {
        match numbered(&self.modules, m) {
            Some(module) => module.is_open,
            None => false,
        }
    }

    /// Whether the package is one of the module.
    pub fn has_package(&self, m: ModuleId, name: &[u8]) -> bool
        ensures { result ≡ facts.has_package self.now m name.now }
    {
        match numbered(&self.modules, m) {
            Some(module) => module
                .packages
                .as_slice()
                .iter()
                .any(|package| package.as_bytes() == name),
            None => false,
        }
    }

    /// Whether it is stated that a reads b.
    pub(crate) fn says_reads(&self, a: ModuleId, b: ModuleId) -> bool
        ensures { result ≡ list_any (says_reads a b) self.now.statements }
    {
        self.table.has(Fact::Reads(a, b))
    }

    /// Whether this is stated of a name.
    pub(crate) fn says(&self, about: About, name: &[u8]) -> bool
        ensures { result ≡ list_any (says about name.now) self.now.statements }
    {
        match self.names.number_of(name) {
            Some(number) => self.table.has(Fact::Of(about, number)),
            None => false,
        }
    }

    /// Whether this, where the reach is that to all, or the same with another reach is stated of a name.
    pub(crate) fn says_anywhere(&self, about: About, name: &[u8]) -> bool
        ensures { result ≡ list_any (says_anywhere about name.now) self.now.statements }
    {
        match self.names.number_of(name) {
            Some(number) => self.table.has_anywhere(Fact::Of(about, number)),
            None => false,
        }
    }
}

/// The module with this number.
fn numbered<'a>(modules: &'a [Module], m: ModuleId) -> Option<&'a Module>
    ensures { option_map (λ x. declared x.now) result ≡ facts.numbered (map declared modules.now) m.0 }
{
    if m.0 == 0 {
        return None;
    }
    module_at(modules, m.0 as usize - 1)
}

/// The module at a place, counted from 0.
fn module_at<'a>(modules: &'a [Module], place: usize) -> Option<&'a Module>
    ensures { option_copied result ≡ slice_get modules.now place }
{
    modules.get(place)
}
