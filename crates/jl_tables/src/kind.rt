//! Kinds of names.

/// Which name an index has to have.
#[derive(Clone, Copy, Debug, PartialEq, Eq)]
pub enum Kind {
    Module,
    Package,
    Class,
    /// A package to be opened, of which a module that is open (`true`) has none.
    Opened(bool),
}
