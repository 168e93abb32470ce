//! The table of the classes, part by part.

ghost use Rattle.std.specs.Prelude.{◌≡◌};
ghost use Rattle.jl_base.specs.Table.{rows_of, table};

/// Rows of classes, each with its flags, its name, its superclass and its interfaces, and, a line each, of its
/// members: flags, name, descriptor and what it is.
macro_rules! class_rows {
    ($($flags:literal $name:literal extends $super_name:literal implements [$($interface:literal)*] {
        $($access:literal $member:literal $desc:literal $kind:expr;)*
    })*) => {
        [$((
            $flags,
            $name,
            $super_name,
            &[$($interface),*],
            &[$(($access, $member, $desc, $kind)),*],
        )),*]
    };
}

mod collections;
mod errors;
mod exceptions;
mod hidden;
mod interfaces;
mod modules;
mod reflection;
mod system;
mod values;

use crate::row::ClassRow;

/// The classes of the built-in `java.base`, in parts. What a class extends or implements comes before it. Every method
/// is abstract or native. A class or a member that is not listed is not there.
pub fn base_rows() -> [&'static [ClassRow]; 9]
    ensures { rows_of result ≡ table }
{
    [
        values::rows(),
        interfaces::rows(),
        exceptions::rows(),
        errors::rows(),
        collections::rows(),
        system::rows(),
        reflection::rows(),
        modules::rows(),
        hidden::rows(),
    ]
}
