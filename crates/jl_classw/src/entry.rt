//! Entries that a class is given (JVMS 4.4).

use jl_names::Units;
use jl_prim::Name;

/// The value of a constant.
#[derive(Debug, Drop)]
pub enum Constant {
    /// An Integer entry.
    Int(i32),
    /// A Long entry.
    Long(i64),
    /// A String entry, by its UTF-16 units.
    Text(Units),
}

/// What a member is, by the entry that refers to it (JVMS 4.4.2).
#[derive(Clone, Copy, Debug, PartialEq, Eq)]
pub(crate) enum MemberKind {
    Field,
    /// A method of a class.
    Method,
    /// A method of an interface.
    InterfaceMethod,
}

/// An entry by what it says. Those that it refers to are entered before it.
#[derive(Debug, Drop)]
pub enum NewEntry {
    /// A class, by its name in internal form.
    Class(Name),
    /// A member, by the tag of its entry (JVMS 4.4-A): 9 for a field, 10 for a method of a class and 11 for
    /// a method of an interface.
    Member {
        tag: u8,
        class: Name,
        name: Name,
        desc: Name,
    },
    Constant(Constant),
}
