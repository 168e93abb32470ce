//! What a command line asks for.

use jl_prim::{Items, Name};

/// What is asked for.
#[derive(Debug, Drop)]
pub enum Command {
    /// To print the module graph of some roots.
    Resolve {
        /// The elements of the module path.
        elements: Items<Name>,
        /// Further roots.
        add: Items<Name>,
        roots: Items<Name>,
    },
    /// To run a program.
    Run(RunWords),
    /// To run a sample of so many modules, for at most so many steps.
    Sample {
        n: u32,
        bound: u64,
    },
}

/// The program that is to run, and how.
#[derive(Debug, Drop)]
pub struct RunWords {
    /// The elements of the module path.
    pub elements: Items<Name>,
    /// Further roots.
    pub add: Items<Name>,
    /// Facts that are added before the program begins, in the order of the words.
    pub added: Items<Added>,
    /// The bound on steps.
    pub steps: u64,
    /// Whether the report of checks is printed.
    pub report: bool,
    pub main_module: Name,
    /// The main class in internal form, where one is named.
    pub main_class: Option<Name>,
    /// The program's own arguments, as they are.
    pub args: Items<Name>,
}

/// A fact that an option adds. Packages are in internal form.
#[derive(Debug, Drop)]
pub enum Added {
    /// The first module reads the second.
    Reads(Name, Name),
    /// The first module exports the package to the second.
    Exports(Name, Name, Name),
    /// The first module opens the package to the second.
    Opens(Name, Name, Name),
}
