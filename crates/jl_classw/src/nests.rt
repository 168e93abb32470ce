//! Writing the attributes of a class (JVMS 4.7.28, 4.7.29, 4.7.31).

ghost use Rattle.std.specs.Prelude.{◌≡◌, ◌<◌, ◌++◌, length, OnOk, IsOkUnless};
ghost use Rattle.std.specs.List.{flat_map};
ghost use Rattle.std.specs.Option.{option_copied};
ghost use Rattle.jl_reading.specs.Reading.{counted};
ghost use Rattle.jl_classfile.specs.Spelling.{attribute_bytes};
ghost use Rattle.jl_classw.specs.Writing.{optional, unless_none, host_attribute, classes_attribute, nest_attributes, IsWritable, IsShortList};
ghost use Rattle.jl_optable.specs.declared.attributes.AttrForm.TheVariants as forms;

use crate::fault::WriteFault;
use crate::places::Places;
use crate::writing::push_classes;
use jl_class::ClassDecl;
use jl_optable::AttrForm;
use jl_pool::{push_u16, push_u32};
use jl_prim::{Items, Name};

/// Writes the attributes of a class behind their count.
pub fn push_nests(bytes: &mut Vec<u8>, places: &Places, c: &ClassDecl) -> Result<(), WriteFault>
    requires { IsWritable places.now c.now }
    ensures bytes { OnOk result (bytes.new.items ≡ bytes.old.items ++ counted attribute_bytes (nest_attributes places.now c.now)) }
    ensures memory { IsOkUnless result WriteFault.NoMemory }
{
    push_u16(bytes, nest_count(places, c))?;
    push_host(bytes, places, c.nest_host())?;
    push_members(bytes, places, c.nest_members())?;
    push_permits(bytes, places, c.permits())
}

/// How many attributes a class has.
fn nest_count(places: &Places, c: &ClassDecl) -> u16
    ensures { result ≡ length (nest_attributes places.now c.now) }
{
    let hosts = u16::from(c.nest_host().is_some());
    let members = u16::from(!c.nest_members().is_empty());
    let permits = u16::from(c.permits().is_some());
    hosts + members + permits
}

fn push_host(bytes: &mut Vec<u8>, places: &Places, host: Option<&Name>) -> Result<(), WriteFault>
    requires { length places.now < 65536 }
    ensures bytes { OnOk result (bytes.new.items ≡ bytes.old.items ++ flat_map attribute_bytes (optional (host_attribute places.now) (option_copied host.entry))) }
    ensures memory { IsOkUnless result WriteFault.NoMemory }
{
    match host {
        None => Ok(()),
        Some(name) => push_host_attribute(bytes, places, name),
    }
}

fn push_host_attribute(bytes: &mut Vec<u8>, places: &Places, name: &Name) -> Result<(), WriteFault>
    requires { length places.now < 65536 }
    ensures bytes { OnOk result (bytes.new.items ≡ bytes.old.items ++ attribute_bytes (host_attribute places.now name.now)) }
    ensures memory { IsOkUnless result WriteFault.NoMemory }
{
    push_u16(bytes, places.attribute(AttrForm::Host))?;
    push_u32(bytes, 2)?;
    push_u16(bytes, places.class(name))?;
    Ok(())
}

fn push_members(bytes: &mut Vec<u8>, places: &Places, names: &[Name]) -> Result<(), WriteFault>
    requires pool { length places.now < 65536 }
    requires few { length names.now < 65536 }
    ensures bytes { OnOk result (bytes.new.items ≡ bytes.old.items ++ flat_map attribute_bytes (optional (classes_attribute places.now forms.Members) (unless_none names.now))) }
    ensures memory { IsOkUnless result WriteFault.NoMemory }
{
    if names.is_empty() {
        return Ok(());
    }
    push_classes_attribute(bytes, places, AttrForm::Members, names)
}

fn push_permits(
    bytes: &mut Vec<u8>,
    places: &Places,
    names: Option<&Items<Name>>,
) -> Result<(), WriteFault>
    requires pool { length places.now < 65536 }
    requires few { IsShortList (option_copied names) }
    ensures bytes { OnOk result (bytes.new.items ≡ bytes.old.items ++ flat_map attribute_bytes (optional (classes_attribute places.now forms.Permits) (option_copied names.entry))) }
    ensures memory { IsOkUnless result WriteFault.NoMemory }
{
    match names {
        None => Ok(()),
        Some(names) => push_classes_attribute(bytes, places, AttrForm::Permits, names.as_slice()),
    }
}

fn push_classes_attribute(
    bytes: &mut Vec<u8>,
    places: &Places,
    form: AttrForm,
    names: &[Name],
) -> Result<(), WriteFault>
    requires pool { length places.now < 65536 }
    requires few { length names.now < 65536 }
    ensures bytes { OnOk result (bytes.new.items ≡ bytes.old.items ++ attribute_bytes (classes_attribute places.now form names.now)) }
    ensures memory { IsOkUnless result WriteFault.NoMemory }
{
    push_u16(bytes, places.attribute(form))?;
    push_u32(bytes, 2 + 2 * names.len() as u32)?;
    push_classes(bytes, places, names)
}
