//! What flags mean, and which contradict one another (JVMS 4.1, 4.5, 4.6).

ghost use Rattle.std.specs.Prelude.{◌≡◌};
ghost use Rattle.jl_class.specs.Meaning as meaning;

use bitflags::Flags;
use jl_prim::AccessFlags;

/// Whether a member is of the class and not of its instances.
pub fn is_static(flags: u16) -> bool
    ensures { result ≡ meaning.is_static flags }
{
    AccessFlags::from_bits_retain(flags).contains(AccessFlags::STATIC)
}

/// Whether a class is an interface.
pub fn is_interface(flags: u16) -> bool
    ensures { result ≡ meaning.is_interface flags }
{
    AccessFlags::from_bits_retain(flags).contains(AccessFlags::INTERFACE)
}

/// Whether a class or a method is abstract.
pub fn is_abstract(flags: u16) -> bool
    ensures { result ≡ meaning.is_abstract flags }
{
    AccessFlags::from_bits_retain(flags).contains(AccessFlags::ABSTRACT)
}

/// Whether a method with these flags has code.
pub fn has_code(flags: u16) -> bool
    ensures { result ≡ meaning.has_code flags }
{
    !(is_native(flags) || is_abstract(flags))
}

/// Whether a class may have these flags: an interface is abstract, nothing is both final and abstract, and
/// nothing is a module (JVMS 4.1).
pub fn are_class_flags(flags: u16) -> bool
    ensures { result ≡ meaning.are_class_flags flags }
{
    !(is_interface(flags) && !is_abstract(flags))
        && !(is_final(flags) && is_abstract(flags))
        && !is_module(flags)
}

/// Whether a field may have these flags, in an interface or in a class (JVMS 4.5).
pub fn are_field_flags(in_interface: bool, flags: u16) -> bool
    ensures { result ≡ meaning.are_field_flags in_interface flags }
{
    !has_two_accesses(flags) && !(in_interface && !is_static(flags))
}

/// Whether a method may have these flags (JVMS 4.6).
pub fn are_method_flags(flags: u16) -> bool
    ensures { result ≡ meaning.are_method_flags flags }
{
    !has_two_accesses(flags) && !(is_abstract(flags) && (is_static(flags) || is_private(flags)))
}

fn has_two_accesses(flags: u16) -> bool
    ensures { result ≡ meaning.has_two_accesses flags }
{
    (is_public(flags) && is_private(flags))
        || (is_public(flags) && is_protected(flags))
        || (is_private(flags) && is_protected(flags))
}

/// Whether a class or a member is public.
pub fn is_public(flags: u16) -> bool
    ensures { result ≡ meaning.is_public flags }
{
    AccessFlags::from_bits_retain(flags).contains(AccessFlags::PUBLIC)
}

/// Whether a member is private.
pub fn is_private(flags: u16) -> bool
    ensures { result ≡ meaning.is_private flags }
{
    AccessFlags::from_bits_retain(flags).contains(AccessFlags::PRIVATE)
}

/// Whether a member is protected.
pub fn is_protected(flags: u16) -> bool
    ensures { result ≡ meaning.is_protected flags }
{
    AccessFlags::from_bits_retain(flags).contains(AccessFlags::PROTECTED)
}

/// Whether a class has no subclasses, or a method cannot be overridden.
pub fn is_final(flags: u16) -> bool
    ensures { result ≡ meaning.is_final flags }
{
    AccessFlags::from_bits_retain(flags).contains(AccessFlags::FINAL)
}

/// Whether a method is implemented outside of Java.
pub fn is_native(flags: u16) -> bool
    ensures { result ≡ meaning.is_native flags }
{
    AccessFlags::from_bits_retain(flags).contains(AccessFlags::NATIVE)
}

fn is_module(flags: u16) -> bool
    ensures { result ≡ meaning.is_module flags }
{
    AccessFlags::from_bits_retain(flags).contains(AccessFlags::MODULE)
}
