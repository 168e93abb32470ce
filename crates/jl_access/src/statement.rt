//! Statements about modules.

use jl_prim::{ModuleId, Name};

/// To whom a package is exported or opened.
#[derive(Clone, Copy, Debug, PartialEq, Eq, Hash)]
pub enum Reach {
    /// To every module.
    All,
    /// To this module alone.
    To(ModuleId),
    /// To a module that is not there, so to nobody.
    Nobody,
}

/// A fact about a module. Facts are only added, and never withdrawn.
#[derive(Debug, Drop)]
pub enum Statement {
    /// The first module reads the second.
    Reads(ModuleId, ModuleId),
    /// The module exports the package so far.
    Exports(ModuleId, Name, Reach),
    /// The module opens the package so far.
    Opens(ModuleId, Name, Reach),
    /// The module uses the service.
    Uses(ModuleId, Name),
}
