//! What a layer states: what its modules read, export, open and use (JLS 7.7; `java.lang.Module`).

ghost use Rattle.std.specs.Prelude.{◌≡◌, ◌++◌, map, IfOk, OnOk};
ghost use Rattle.std.specs.List.{flat_map};
ghost use Rattle.jl_access.specs.declared.statement.Reach.{Reach};
ghost use Rattle.jl_access.specs.declared.statement.Statement.TheVariants as statements;
ghost use Rattle.jl_layer.specs.Layers.{find_module, layer_at};
ghost use Rattle.jl_layer.specs.Meaning.{exports_by, opens_by, reach_found, reads_of, stated_by, stated_in, statements_of, uses_by};
ghost use Rattle.jl_layer.specs.Meaning as meaning;

use crate::registry::Registry;
use jl_access::{Reach, Statement};
use jl_prim::{Copied, CopyEnd, Declaration, Grant, Items, LayerId, ModuleId, Name};

impl Registry {
    /// The statements of a layer: which of its modules reads which, and then what each declares.
    pub fn statements_of(
        &self,
        l: LayerId,
        reads: &[(ModuleId, ModuleId)],
    ) -> Result<Vec<Statement>, CopyEnd>
        requires { reads.now ≡ reads_of self.now l }
        ensures { IfOk result (λ statements. statements.items ≡ statements_of self.now l) }
    {
        let mut statements = Vec::with_capacity(self.allocator(), reads.len())?;
        push_reads(&mut statements, reads)?;
        for m in self.modules_of(l) {
            self.push_stated(&mut statements, l, *m)?;
        }
        Ok(statements)
    }

    /// Adds what a module of a layer states.
    fn push_stated(
        &self,
        statements: &mut Vec<Statement>,
        l: LayerId,
        m: ModuleId,
    ) -> Result<(), CopyEnd>
        ensures { OnOk result (statements.new.items ≡ statements.old.items ++ stated_in self.now l m) }
    {
        match self.member(m) {
            Some(member) => self.push_declared(statements, l, m, &member.observed.declaration),
            None => Ok(()),
        }
    }

    /// Adds what a declaration states: exports, opens, and services that are used.
    fn push_declared(
        &self,
        statements: &mut Vec<Statement>,
        l: LayerId,
        m: ModuleId,
        declaration: &Declaration,
    ) -> Result<(), CopyEnd>
        ensures { OnOk result (statements.new.items ≡ statements.old.items ++ stated_by self.now l m declaration.now) }
    {
        self.push_exports(statements, l, m, declaration.exports.as_slice())?;
        self.push_opens(statements, l, m, declaration.opens.as_slice())?;
        push_uses(statements, m, declaration.uses.as_slice())
    }

    fn push_exports(
        &self,
        statements: &mut Vec<Statement>,
        l: LayerId,
        m: ModuleId,
        grants: &[Grant],
    ) -> Result<(), CopyEnd>
        ensures { OnOk result (statements.new.items ≡ statements.old.items ++ flat_map (exports_by self.now l m) grants.now) }
    {
        for grant in grants {
            let reaches = self.reaches(l, &grant.to)?;
            push_exports_to(statements, m, &grant.package, reaches.as_slice())?;
        }
        Ok(())
    }

    fn push_opens(
        &self,
        statements: &mut Vec<Statement>,
        l: LayerId,
        m: ModuleId,
        grants: &[Grant],
    ) -> Result<(), CopyEnd>
        ensures { OnOk result (statements.new.items ≡ statements.old.items ++ flat_map (opens_by self.now l m) grants.now) }
    {
        for grant in grants {
            let reaches = self.reaches(l, &grant.to)?;
            push_opens_to(statements, m, &grant.package, reaches.as_slice())?;
        }
        Ok(())
    }

    /// Whom a grant of a layer's module reaches.
    fn reaches(&self, l: LayerId, to: &Option<Items<Name>>) -> Result<Vec<Reach>, CopyEnd>
        ensures { IfOk result (λ reaches. reaches.items ≡ meaning.reaches self.now l to.now) }
    {
        match to {
            None => self.all(),
            Some(names) => self.reaches_named(l, names.as_slice()),
        }
    }

    /// The reach to all modules.
    fn all(&self) -> Result<Vec<Reach>, CopyEnd>
        ensures { IfOk result (λ reaches. reaches.items ≡ meaning.to_all) }
    {
        let mut reaches = Vec::new(self.allocator());
        reaches.push(Reach::All)?;
        Ok(reaches)
    }

    /// The reach to each of the modules that are named.
    fn reaches_named(&self, l: LayerId, names: &[Name]) -> Result<Vec<Reach>, CopyEnd>
        ensures { IfOk result (λ reaches. reaches.items ≡ map (meaning.reach_named self.now l) names.now) }
    {
        let mut reaches = Vec::with_capacity(self.allocator(), names.len())?;
        for name in names {
            reaches.push(self.reach_named(l, name))?;
        }
        Ok(reaches)
    }

    /// The reach to the module that is found in a layer by a name, or to nobody.
    fn reach_named(&self, l: LayerId, name: &Name) -> Reach
        ensures { result ≡ meaning.reach_named self.now l name.now }
    {
        match self.find_module(l, name.as_bytes()) {
            Some(m) => Reach::To(m),
            None => Reach::Nobody,
        }
    }
}

/// Adds which module reads which.
fn push_reads(
    statements: &mut Vec<Statement>,
    reads: &[(ModuleId, ModuleId)],
) -> Result<(), CopyEnd>
    ensures { OnOk result (statements.new.items ≡ statements.old.items ++ map meaning.stated_read reads.now) }
{
    for (reader, other) in reads {
        statements.push(Statement::Reads(*reader, *other))?;
    }
    Ok(())
}

/// Adds that a module exports a package to each of these.
fn push_exports_to(
    statements: &mut Vec<Statement>,
    m: ModuleId,
    name: &Name,
    reaches: &[Reach],
) -> Result<(), CopyEnd>
    ensures { OnOk result (statements.new.items ≡ statements.old.items ++ map (meaning.export m name.now) reaches.now) }
{
    for reach in reaches {
        statements.push(Statement::Exports(m, name.copy()?, *reach))?;
    }
    Ok(())
}

/// Adds that a module opens a package to each of these.
fn push_opens_to(
    statements: &mut Vec<Statement>,
    m: ModuleId,
    name: &Name,
    reaches: &[Reach],
) -> Result<(), CopyEnd>
    ensures { OnOk result (statements.new.items ≡ statements.old.items ++ map (meaning.opening m name.now) reaches.now) }
{
    for reach in reaches {
        statements.push(Statement::Opens(m, name.copy()?, *reach))?;
    }
    Ok(())
}

/// Adds that a module uses services.
fn push_uses(statements: &mut Vec<Statement>, m: ModuleId, services: &[Name]) -> Result<(), CopyEnd>
    ensures { OnOk result (statements.new.items ≡ statements.old.items ++ uses_by m services.now) }
{
    for service in services {
        statements.push(Statement::Uses(m, service.copy()?))?;
    }
    Ok(())
}
