//! Statements that are added one by one.

ghost use Rattle.std.specs.Prelude.{◌≡◌, IsTrue, IfOk, OnOk, OnErr};
ghost use Rattle.jl_access.specs.Facts.{IsModule, OptionExists, has_package, reach_of, IsAsBefore, Adds};
ghost use Rattle.jl_access.specs.Facts as facts;
ghost use Rattle.jl_access.specs.declared.statement.Statement.TheVariants.{Reads, Exports, Opens, Uses};

use crate::facts::Facts;
use crate::fault::FactsEnd;
use crate::statement::Reach;
use crate::table::About;
use jl_prim::ModuleId;
use std::alloc::Global;

impl Facts {
    /// States that a reads b (`Module.addReads`).
    pub fn add_reads(&mut self, a: ModuleId, b: ModuleId) -> Result<(), FactsEnd>
        requires reader { IsModule self.old a }
        requires other { IsModule self.old b }
        ensures ok { OnOk result (Adds (Reads a b) self.old self.new) }
        ensures err { OnErr result (IsAsBefore self.old self.new) }
    {
        self.room(0, 1)?;
        self.place_reads(a, b);
        Ok(())
    }

    /// States that m exports a package of its own, to one module or, where none is given, to all
    /// (`Module.addExports`).
    pub fn add_exports(
        &mut self,
        m: ModuleId,
        name: &[u8],
        to: Option<ModuleId>,
    ) -> Result<(), FactsEnd>
        requires module { IsModule self.old m }
        requires target { OptionExists self.old to }
        requires package { IsTrue (has_package self.old m name.now) }
        ensures ok { OnOk result (Adds (Exports m name.now (reach_of to)) self.old self.new) }
        ensures err { OnErr result (IsAsBefore self.old self.new) }
    {
        let text = copied(self.allocator(), name)?;
        self.room(0, 1)?;
        self.place_named(About::Exports(m, reach_of(to)), text);
        Ok(())
    }

    /// States that m opens a package of its own, likewise (`Module.addOpens`).
    pub fn add_opens(
        &mut self,
        m: ModuleId,
        name: &[u8],
        to: Option<ModuleId>,
    ) -> Result<(), FactsEnd>
        requires module { IsModule self.old m }
        requires target { OptionExists self.old to }
        requires package { IsTrue (has_package self.old m name.now) }
        ensures ok { OnOk result (Adds (Opens m name.now (reach_of to)) self.old self.new) }
        ensures err { OnErr result (IsAsBefore self.old self.new) }
    {
        let text = copied(self.allocator(), name)?;
        self.room(0, 1)?;
        self.place_named(About::Opens(m, reach_of(to)), text);
        Ok(())
    }

    /// States that m uses a service, by the name of its class (`Module.addUses`).
    pub fn add_uses(&mut self, m: ModuleId, service: &[u8]) -> Result<(), FactsEnd>
        requires { IsModule self.old m }
        ensures ok { OnOk result (Adds (Uses m service.now) self.old self.new) }
        ensures err { OnErr result (IsAsBefore self.old self.new) }
    {
        let text = copied(self.allocator(), service)?;
        self.room(0, 1)?;
        self.place_named(About::Uses(m), text);
        Ok(())
    }
}

/// To all, or to one module.
fn reach_of(to: Option<ModuleId>) -> Reach
    ensures { result ≡ facts.reach_of to }
{
    match to {
        None => Reach::All,
        Some(m) => Reach::To(m),
    }
}

/// The same bytes.
fn copied(alloc: Global, bytes: &[u8]) -> Result<Vec<u8>, FactsEnd>
    ensures { IfOk result (λ v. v.items ≡ bytes.now) }
{
    Ok(bytes.to_vec(alloc)?)
}
