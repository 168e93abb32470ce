//! The package of a class.

ghost use Rattle.std.specs.Prelude.{◌≡◌, IfOk};
ghost use Rattle.jl_access.specs.Verdicts as verdicts;
ghost use Rattle.jl_loads.specs.Worlds.{place_of};
ghost use Rattle.jl_names.specs.Names.{package_of};

use crate::class::Class;
use jl_names::package_of;
use jl_prim::{CopyEnd, Name};
use std::alloc::Global;

/// The package of a class name in internal form.
pub fn package_name(alloc: Global, name: &Name) -> Result<Name, CopyEnd>
    ensures { IfOk result (λ it. it ≡ package_of name.now) }
{
    let text = name.as_str();
    match str::from_utf8(package_of(text.as_bytes())) {
        Ok(package) => Name::from_text(alloc, package),
        Err(_) => unreachable!(),
    }
}

/// Whether two classes are of one run-time package (JVMS 5.3).
pub fn is_one_package(a: &Class, b: &Class) -> bool
    ensures { result ≡ verdicts.is_one_package (place_of a.now) (place_of b.now) }
{
    a.loader().0 == b.loader().0
        && package_of(a.declared().name().as_bytes()) == package_of(b.declared().name().as_bytes())
}
