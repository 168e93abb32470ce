//! Texts: faults of class files as they are printed, and names.

ghost use Rattle.std.specs.Prelude.{◌≡◌, ◌++◌, IfOk, OnOk};
ghost use Rattle.std.specs.Str.{IsUtf8};
ghost use Rattle.std.specs.String.{string_bytes};
ghost use Rattle.jl_layer.specs.Layers.{IsModule};
ghost use Rattle.jl_loads.specs.Ends.{Tells};
ghost use Rattle.jl_loads.specs.Worlds as worlds;
ghost use Rattle.jl_loads.specs.Worlds.{bare};
ghost use Rattle.jl_loads.specs.Outcomes as outcomes;
ghost use Rattle.jl_loads.specs.Outcomes.{field, format_error, format_kind};

use crate::end::LinkEnd;
use crate::errors::wrong_file;
use jl_class::ClassFault;
use jl_layer::Layers;
use jl_prim::{CopyEnd, ErrorKind, ModuleId, Name};
use std::alloc::{AllocError, Global};

/// The error of a class file with a fault (JVMS 5.3.5).
pub fn format_error(alloc: Global, name: &Name, fault: &ClassFault) -> LinkEnd
    ensures { Tells result (format_error name.now fault.now) }
{
    match fault_text(alloc, fault) {
        Ok(text) => wrong_file(alloc, format_kind(fault), name, text.as_str()),
        Err(_) => LinkEnd::NoMemory,
    }
}

fn format_kind(fault: &ClassFault) -> ErrorKind
    ensures { result ≡ format_kind fault.now }
{
    match fault {
        ClassFault::Version(..) => ErrorKind::UnsupportedClassVersionError,
        _ => ErrorKind::ClassFormatError,
    }
}

/// A fault as it is printed: its kind, and its fields.
fn fault_text(alloc: Global, fault: &ClassFault) -> Result<String, AllocError>
    ensures { IfOk result (λ text. string_bytes text ≡ outcomes.fault_text fault.now) }
{
    match fault {
        ClassFault::Magic => String::from_str(alloc, "Magic"),
        ClassFault::Version(major, minor) => version_text(alloc, *major, *minor),
        ClassFault::Short(at) => placed(alloc, "Short", *at),
        ClassFault::Pool(index) => placed(alloc, "Pool", *index),
        ClassFault::Name(at) => placed(alloc, "Name", *at),
        ClassFault::Flags(at) => placed(alloc, "Flags", *at),
        ClassFault::Attribute(at) => placed(alloc, "Attribute", *at),
        ClassFault::RepeatedMember(name) => repeated(alloc, name),
        ClassFault::Trailing => String::from_str(alloc, "Trailing"),
        ClassFault::NoMemory => String::from_str(alloc, "NoMemory"),
    }
}

/// A kind of fault and a number.
fn placed(alloc: Global, kind: &str, number: usize) -> Result<String, AllocError>
    ensures { IfOk result (λ text. string_bytes text ≡ kind.now ++ field number) }
{
    let mut text = String::from_str(alloc, kind)?;
    push_number(&mut text, number)?;
    Ok(text)
}

fn version_text(alloc: Global, major: u16, minor: u16) -> Result<String, AllocError>
    ensures { IfOk result (λ text. string_bytes text ≡ outcomes.version_text major minor) }
{
    let mut text = String::from_str(alloc, "Version")?;
    push_number(&mut text, major as usize)?;
    push_number(&mut text, minor as usize)?;
    Ok(text)
}

fn repeated(alloc: Global, name: &Name) -> Result<String, AllocError>
    ensures { IfOk result (λ text. string_bytes text ≡ outcomes.repeated_text name.now) }
{
    let mut text = String::from_str(alloc, "RepeatedMember ")?;
    text.push_str(name.as_str())?;
    Ok(text)
}

/// Adds a blank and a number.
fn push_number(text: &mut String, number: usize) -> Result<(), AllocError>
    ensures { OnOk result (string_bytes text.new ≡ string_bytes text.old ++ field number) }
{
    let alloc = *text.allocator();
    let digits = number.to_string(alloc)?;
    text.push_str(" ")?;
    text.push_str(digits.as_str())?;
    Ok(())
}

/// The name that a text is.
pub fn name_of(alloc: Global, text: &[u8]) -> Result<Name, CopyEnd>
    requires { IsUtf8 text.now }
    ensures { IfOk result (λ name. name ≡ text.now) }
{
    match str::from_utf8(text) {
        Ok(text) => Name::from_text(alloc, text),
        Err(_) => unreachable!(),
    }
}

/// A module of some layers as it is printed: its name and its layer.
pub fn module_text(alloc: Global, layers: &Layers, m: ModuleId) -> Result<String, AllocError>
    requires { IsModule layers.now m }
    ensures { IfOk result (λ text. string_bytes text ≡ worlds.module_text (bare layers.now) m) }
{
    let layer = layers.layer_of(m).0.to_string(alloc)?;
    let mut text = String::from_str(alloc, layers.module_name(m).as_str())?;
    text.push_str("@")?;
    text.push_str(layer.as_str())?;
    Ok(text)
}
