//! As what a class names another.

/// As what a class names another: as its superclass, or as one of its superinterfaces.
#[derive(Clone, Copy, Debug, PartialEq, Eq)]
pub enum Role {
    Superclass,
    Superinterface,
}
