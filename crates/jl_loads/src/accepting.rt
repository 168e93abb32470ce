//! Whether a class that was loaded may stand above another (JVMS 5.3.5).

ghost use Rattle.std.specs.Prelude.{◌≡◌, Some, IfErr, IfOk};
ghost use Rattle.jl_layer.specs.Layers.{IsModule};
ghost use Rattle.jl_loads.specs.Ends.{Leaves, IsNotRead};
ghost use Rattle.jl_loads.specs.Loading as loading;
ghost use Rattle.jl_loads.specs.Worlds.{Loaded, IsClass, Keeps, class_at};

use crate::class::Class;
use crate::end::LinkEnd;
use crate::errors::of_class;
use crate::loads::Loads;
use crate::package::is_one_package;
use crate::role::Role;
use jl_class::{is_final, is_interface, is_public};
use jl_prim::{ClassId, ErrorKind, Name};

impl Loads {
    /// A class that was loaded as a supertype: it is accessed, and then its kind and its permission are looked at.
    pub(crate) fn accept(
        &mut self,
        new: &Class,
        role: Role,
        c: ClassId,
        at: u64,
    ) -> Result<ClassId, LinkEnd>
        requires there { IsClass self.old c }
        requires home { IsModule self.old.layers new.now.home }
        ensures accepts { Leaves (loading.accepted at self.old new.now role c (class_at self.old c)) result self.new }
        ensures same { IfOk result (λ d. d ≡ c) }
        ensures not_read { IfErr result IsNotRead }
        ensures keeps { Keeps self.old self.new }
        ensures layers { self.new.layers ≡ self.old.layers }
        ensures classes { self.new.classes ≡ self.old.classes }
    {
        self.access_by(new, c, at)?;
        self.fitted(new, role, c)
    }

    /// The class, if it is of the kind and permits the new one.
    fn fitted(&self, new: &Class, role: Role, c: ClassId) -> Result<ClassId, LinkEnd>
        requires { IsClass self.now c }
        ensures fits { (above : Loaded) → class_at self.now c ≡ Some above → Leaves (loading.fitted self.now new.now role c above) result self.now }
        ensures same { IfOk result (λ d. d ≡ c) }
        ensures not_read { IfErr result IsNotRead }
    {
        let above = self.class_at(c);
        if fits(role, above) && permits(above, new) {
            Ok(c)
        } else {
            Err(of_class(
                self.allocator(),
                ErrorKind::IncompatibleClassChangeError,
                new.declared().name(),
            ))
        }
    }
}

/// Whether a class is of the kind: a superclass is no interface and not final, and a superinterface is one.
fn fits(role: Role, above: &Class) -> bool
    ensures { result ≡ loading.fits role above.now.declared }
{
    let flags = above.declared().flags();
    match role {
        Role::Superclass => !(is_interface(flags) || is_final(flags)),
        Role::Superinterface => is_interface(flags),
    }
}

/// Whether a class may be extended by the new one.
fn permits(above: &Class, new: &Class) -> bool
    ensures { result ≡ loading.permits above.now new.now }
{
    match above.declared().permits() {
        None => true,
        Some(names) => permits_by(names.as_slice(), above, new),
    }
}

/// Whether a class that lists these may be extended by the new one.
fn permits_by(names: &[Name], above: &Class, new: &Class) -> bool
    ensures { result ≡ loading.permits_by above.now new.now names.now }
{
    above.home().0 == new.home().0 && is_listed(names, new) && is_near(above, new)
}

fn is_listed(names: &[Name], new: &Class) -> bool
    ensures { result ≡ loading.is_listed new.now names.now }
{
    let name = new.declared().name().as_bytes();
    names.iter().any(|listed| name == listed.as_bytes())
}

/// Whether the new class is public, or of the run-time package of the other.
fn is_near(above: &Class, new: &Class) -> bool
    ensures { result ≡ loading.is_near above.now new.now }
{
    is_public(new.declared().flags()) || is_one_package(above, new)
}
