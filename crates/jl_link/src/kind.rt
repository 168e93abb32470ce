//! Which kind of member an entry of the pool names (JVMS 4.4.2).

/// Which kind of member an entry of the pool names: a field, a method of a class, or a method of an interface.
#[derive(Clone, Copy, Debug, PartialEq, Eq)]
pub enum MemberKind {
    FieldEntry,
    MethodEntry,
    InterfaceMethodEntry,
}
