//! Rows of the table of classes.

ghost use Rattle.std.specs.Prelude.{◌≡◌};
ghost use Rattle.jl_base.specs.Rows as rows;

/// A class of the built-in `java.base`: its flags (JVMS 4.1-B), its name in internal form (JVMS 4.2.1), its
/// superclass, empty for none, its interfaces, and its members in order.
pub type ClassRow = (
    u16,
    &'static str,
    &'static str,
    &'static [&'static str],
    &'static [MemberRow],
);

/// A member: its flags (JVMS 4.5-A, 4.6-A), its name, its descriptor (JVMS 4.3), and what it is.
pub type MemberRow = (u16, &'static str, &'static str, MemberKind);

/// What a member is. Each method is abstract or native.
#[derive(Clone, Copy, Debug, PartialEq, Eq)]
pub enum MemberKind {
    Field,
    Abstract,
    /// A native method that the row with this number of the table of boxed natives answers.
    Boxed(u16),
    /// A native method that the machine itself answers.
    Core,
    /// A native method for which the machine runs code of the program before it answers.
    Entering,
}

impl MemberKind {
    /// Whether it is a field.
    pub fn is_field(self) -> bool
        ensures { result ≡ rows.is_field self }
    {
        matches!(self, MemberKind::Field)
    }
}
