//! Writing fields and methods (JVMS 4.5, 4.6).

ghost use Rattle.std.specs.Prelude.{◌≡◌, ◌<◌, ◌++◌, length, IfOk, OnOk, IsOkUnless, Some};
ghost use Rattle.std.specs.List.{AllByRecursion};
ghost use Rattle.jl_class.specs.declared.member.FieldDecl.{FieldDecl};
ghost use Rattle.jl_class.specs.declared.member.MethodDecl.{MethodDecl};
ghost use Rattle.jl_reading.specs.Reading.{two, counted};
ghost use Rattle.jl_class.specs.Spelling.{member_bytes, handler_bytes, CodeFits};
ghost use Rattle.jl_classfile.specs.Spelling.{measured, attribute_bytes};
ghost use Rattle.jl_classw.specs.Writing.{field_member, method_member, optional, constant_attribute, code_attribute, frames_attribute, code_content, text_index, IsShortCode};

use crate::fault::WriteFault;
use crate::places::Places;
use jl_class::{CodeBytes, FieldDecl, MethodDecl};
use jl_pool::{push_u16, push_u32};
use jl_prim::{Handler, Items, Name};
use std::alloc::Global;

/// Writes a field.
pub fn push_field(bytes: &mut Vec<u8>, places: &Places, f: &FieldDecl) -> Result<(), WriteFault>
    ensures bytes { OnOk result (bytes.new.items ≡ bytes.old.items ++ member_bytes (field_member places.now f.now)) }
    ensures memory { IsOkUnless result WriteFault.NoMemory }
{
    push_head(bytes, places, f.flags, &f.name, &f.desc)?;
    push_constant(bytes, places, &f.constant)
}

/// Writes a method.
pub fn push_method(bytes: &mut Vec<u8>, places: &Places, m: &MethodDecl) -> Result<(), WriteFault>
    requires { IsShortCode places.now m.now.code }
    ensures bytes { OnOk result (bytes.new.items ≡ bytes.old.items ++ member_bytes (method_member places.now m.now)) }
    ensures memory { IsOkUnless result WriteFault.NoMemory }
{
    push_head(bytes, places, m.flags, &m.name, &m.desc)?;
    push_code(bytes, places, &m.code)
}

/// Writes what each member begins with.
fn push_head(
    bytes: &mut Vec<u8>,
    places: &Places,
    flags: u16,
    name: &Name,
    desc: &Name,
) -> Result<(), WriteFault>
    ensures bytes { OnOk result (bytes.new.items ≡ bytes.old.items ++ (two flags ++ (two (text_index places.now name.now) ++ two (text_index places.now desc.now)))) }
    ensures memory { IsOkUnless result WriteFault.NoMemory }
{
    push_u16(bytes, flags)?;
    push_u16(bytes, places.text(name))?;
    push_u16(bytes, places.text(desc))?;
    Ok(())
}

/// Writes the attributes of a field: at most a ConstantValue (JVMS 4.7.2).
fn push_constant(
    bytes: &mut Vec<u8>,
    places: &Places,
    constant: &Option<u16>,
) -> Result<(), WriteFault>
    ensures bytes { OnOk result (bytes.new.items ≡ bytes.old.items ++ counted attribute_bytes (optional (constant_attribute places.now) constant.now)) }
    ensures memory { IsOkUnless result WriteFault.NoMemory }
{
    match constant {
        None => Ok(push_u16(bytes, 0)?),
        Some(index) => push_constant_value(bytes, places, *index),
    }
}

fn push_constant_value(bytes: &mut Vec<u8>, places: &Places, index: u16) -> Result<(), WriteFault>
    ensures bytes { OnOk result (bytes.new.items ≡ bytes.old.items ++ (two 1 ++ attribute_bytes (constant_attribute places.now index))) }
    ensures memory { IsOkUnless result WriteFault.NoMemory }
{
    push_u16(bytes, 1)?;
    push_u16(bytes, places.constant_value())?;
    push_u32(bytes, 2)?;
    push_u16(bytes, index)?;
    Ok(())
}

/// Writes the attributes of a method: at most a Code (JVMS 4.7.3).
fn push_code(
    bytes: &mut Vec<u8>,
    places: &Places,
    code: &Option<CodeBytes>,
) -> Result<(), WriteFault>
    requires { IsShortCode places.now code.now }
    ensures bytes { OnOk result (bytes.new.items ≡ bytes.old.items ++ counted attribute_bytes (optional (code_attribute places.now) code.now)) }
    ensures memory { IsOkUnless result WriteFault.NoMemory }
{
    match code {
        None => Ok(push_u16(bytes, 0)?),
        Some(code) => push_code_attribute(bytes, places, code),
    }
}

fn push_code_attribute(
    bytes: &mut Vec<u8>,
    places: &Places,
    code: &CodeBytes,
) -> Result<(), WriteFault>
    requires { IsShortCode places.now (Some code.now) }
    ensures bytes { OnOk result (bytes.new.items ≡ bytes.old.items ++ (two 1 ++ attribute_bytes (code_attribute places.now code.now))) }
    ensures memory { IsOkUnless result WriteFault.NoMemory }
{
    let content = content_of(*bytes.allocator(), places, code)?;
    push_u16(bytes, 1)?;
    push_u16(bytes, places.code())?;
    push_measured(bytes, &content)
}

/// The content of a Code attribute.
fn content_of(alloc: Global, places: &Places, code: &CodeBytes) -> Result<Vec<u8>, WriteFault>
    requires fits { CodeFits code.now }
    requires frames { length (code_content places.now code.now) < 4294967296 }
    ensures bytes { IfOk result (λ bytes. bytes.items ≡ code_content places.now code.now) }
    ensures memory { IsOkUnless result WriteFault.NoMemory }
{
    let mut bytes = Vec::new(alloc);
    push_u16(&mut bytes, code.max_stack)?;
    push_u16(&mut bytes, code.max_locals)?;
    push_measured(&mut bytes, code.code.as_slice())?;
    push_handlers(&mut bytes, code.handlers.as_slice())?;
    push_frames(&mut bytes, places, &code.frames)?;
    Ok(bytes)
}

fn push_handlers(bytes: &mut Vec<u8>, handlers: &[Handler]) -> Result<(), WriteFault>
    requires { length handlers.now < 65536 }
    ensures bytes { OnOk result (bytes.new.items ≡ bytes.old.items ++ counted handler_bytes handlers.now) }
    ensures memory { IsOkUnless result WriteFault.NoMemory }
{
    push_u16(bytes, handlers.len() as u16)?;
    for handler in handlers {
        push_handler(bytes, handler)?;
    }
    Ok(())
}

fn push_handler(bytes: &mut Vec<u8>, handler: &Handler) -> Result<(), WriteFault>
    ensures bytes { OnOk result (bytes.new.items ≡ bytes.old.items ++ handler_bytes handler.now) }
    ensures memory { IsOkUnless result WriteFault.NoMemory }
{
    push_u16(bytes, handler.start)?;
    push_u16(bytes, handler.end)?;
    push_u16(bytes, handler.target)?;
    push_u16(bytes, handler.catch_type)?;
    Ok(())
}

/// Writes the attributes of a Code attribute: at most a StackMapTable (JVMS 4.7.4).
fn push_frames(
    bytes: &mut Vec<u8>,
    places: &Places,
    frames: &Option<Items<u8>>,
) -> Result<(), WriteFault>
    requires { length (counted attribute_bytes (optional (frames_attribute places.now) frames.now)) < 4294967296 }
    ensures bytes { OnOk result (bytes.new.items ≡ bytes.old.items ++ counted attribute_bytes (optional (frames_attribute places.now) frames.now)) }
    ensures memory { IsOkUnless result WriteFault.NoMemory }
{
    match frames {
        None => Ok(push_u16(bytes, 0)?),
        Some(frames) => push_frames_attribute(bytes, places, frames.as_slice()),
    }
}

fn push_frames_attribute(
    bytes: &mut Vec<u8>,
    places: &Places,
    frames: &[u8],
) -> Result<(), WriteFault>
    requires { length frames.now < 4294967296 }
    ensures bytes { OnOk result (bytes.new.items ≡ bytes.old.items ++ (two 1 ++ attribute_bytes (frames_attribute places.now frames.now))) }
    ensures memory { IsOkUnless result WriteFault.NoMemory }
{
    push_u16(bytes, 1)?;
    push_u16(bytes, places.frames())?;
    push_measured(bytes, frames)
}

/// Writes a length in four bytes, and so many bytes.
fn push_measured(bytes: &mut Vec<u8>, content: &[u8]) -> Result<(), WriteFault>
    requires { length content.now < 4294967296 }
    ensures bytes { OnOk result (bytes.new.items ≡ bytes.old.items ++ measured content.now) }
    ensures memory { IsOkUnless result WriteFault.NoMemory }
{
    push_u32(bytes, content.len() as u32)?;
    bytes.extend_from_slice(content)?;
    Ok(())
}
