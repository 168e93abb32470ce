//! Writing a class file (JVMS 4.1).

ghost use Rattle.std.specs.Prelude.{◌≡◌, ◌<◌, ◌++◌, ℕ, List, length, Ok, IfOk, OnOk, IsOkUnless};
ghost use Rattle.std.specs.List.{AllByRecursion};
ghost use Rattle.jl_reading.specs.Reading.{two, counted};
ghost use Rattle.jl_pool.specs.Spelling.{EntryFits};
ghost use Rattle.jl_class.specs.declared.member.MethodDecl.{MethodDecl};
ghost use Rattle.jl_class.specs.Reading.{class_of};
ghost use Rattle.jl_class.specs.Spelling.{IsClass, member_bytes};
ghost use Rattle.jl_classw.specs.Writing as words;
ghost use Rattle.jl_classw.specs.Writing.{class_index, super_index, field_member, method_member, front_of, names_bytes, members_bytes, file_bytes, IsShortCode, IsWritable};

use crate::fault::WriteFault;
use crate::members::{push_field, push_method};
use crate::nests::push_nests;
use crate::places::Places;
use jl_class::{ClassDecl, FieldDecl, MethodDecl};
use jl_pool::{Pool, pool_bytes, push_u16, push_u32};
use jl_prim::Name;
use std::alloc::Global;

const MAGIC: u32 = 0xcafe_babe;

/// The class file of a class (JVMS 4.1), for one that some class file declares.
///
/// It has the pool as it is, each name by the least index that has it, and of the attributes only those
/// that say what the class is: ConstantValue, Code, StackMapTable, NestHost, NestMembers and
/// PermittedSubclasses.
pub fn write_class(alloc: Global, c: &ClassDecl) -> Result<Vec<u8>, WriteFault>
    ensures exact { IfOk result (λ bytes. bytes.items ≡ file_bytes c.now) }
    // What is written declares the same class, and is read so.
    ensures back { IfOk result (λ bytes. IsClass bytes.items c.now) }
    ensures again { IfOk result (λ bytes. class_of bytes.items ≡ Ok c.now) }
    // No other error comes.
    ensures memory { IsOkUnless result WriteFault.NoMemory }
{
    written(alloc, c, c.pool())
}

/// The file of a class whose numbers fit, with its pool.
fn written(alloc: Global, c: &ClassDecl, pool: &Pool) -> Result<Vec<u8>, WriteFault>
    requires fit { IsWritable c.now.pool c.now }
    requires same { pool.now ≡ c.now.pool }
    ensures exact { IfOk result (λ bytes. bytes.items ≡ file_bytes c.now) }
    ensures memory { IsOkUnless result WriteFault.NoMemory }
{
    let places = Places::of(alloc, pool)?;
    let mut bytes = Vec::new(alloc);
    push_front(&mut bytes, c)?;
    push_pool(alloc, &mut bytes, pool)?;
    push_names(&mut bytes, &places, c)?;
    push_members(&mut bytes, &places, c)?;
    Ok(bytes)
}

/// Writes magic and version.
fn push_front(bytes: &mut Vec<u8>, c: &ClassDecl) -> Result<(), WriteFault>
    ensures bytes { OnOk result (bytes.new.items ≡ bytes.old.items ++ front_of c.now) }
    ensures memory { IsOkUnless result WriteFault.NoMemory }
{
    let (major, minor) = c.version();
    push_u32(bytes, MAGIC)?;
    push_u16(bytes, minor)?;
    push_u16(bytes, major)?;
    Ok(())
}

fn push_pool(alloc: Global, bytes: &mut Vec<u8>, pool: &Pool) -> Result<(), WriteFault>
    requires few { length pool.now < 65536 }
    requires fit { AllByRecursion EntryFits pool.now }
    ensures bytes { OnOk result (bytes.new.items ≡ bytes.old.items ++ words.pool_bytes pool.now) }
    ensures memory { IsOkUnless result WriteFault.NoMemory }
{
    bytes.extend_from_slice(&pool_bytes(alloc, pool.entries())?)?;
    Ok(())
}

/// Writes flags, class, superclass and interfaces.
fn push_names(bytes: &mut Vec<u8>, places: &Places, c: &ClassDecl) -> Result<(), WriteFault>
    requires { length c.now.interfaces < 65536 }
    ensures bytes { OnOk result (bytes.new.items ≡ bytes.old.items ++ names_bytes places.now c.now) }
    ensures memory { IsOkUnless result WriteFault.NoMemory }
{
    push_u16(bytes, c.flags())?;
    push_u16(bytes, places.class(c.name()))?;
    push_u16(bytes, places.super_class(c.super_name()))?;
    push_classes(bytes, places, c.interfaces())
}

/// Writes fields, methods and attributes.
fn push_members(bytes: &mut Vec<u8>, places: &Places, c: &ClassDecl) -> Result<(), WriteFault>
    requires { IsWritable places.now c.now }
    ensures bytes { OnOk result (bytes.new.items ≡ bytes.old.items ++ members_bytes places.now c.now) }
    ensures memory { IsOkUnless result WriteFault.NoMemory }
{
    push_fields(bytes, places, c.fields())?;
    push_methods(bytes, places, c.methods())?;
    push_nests(bytes, places, c)
}

/// Writes a count and the indices of classes.
pub fn push_classes(bytes: &mut Vec<u8>, places: &Places, names: &[Name]) -> Result<(), WriteFault>
    requires { length names.now < 65536 }
    ensures bytes { OnOk result (bytes.new.items ≡ bytes.old.items ++ counted (λ name. two (class_index places.now name)) names.now) }
    ensures memory { IsOkUnless result WriteFault.NoMemory }
{
    push_u16(bytes, names.len() as u16)?;
    for name in names {
        push_u16(bytes, places.class(name))?;
    }
    Ok(())
}

fn push_fields(bytes: &mut Vec<u8>, places: &Places, fields: &[FieldDecl]) -> Result<(), WriteFault>
    requires { length fields.now < 65536 }
    ensures bytes { OnOk result (bytes.new.items ≡ bytes.old.items ++ counted (λ f. member_bytes (field_member places.now f)) fields.now) }
    ensures memory { IsOkUnless result WriteFault.NoMemory }
{
    push_u16(bytes, fields.len() as u16)?;
    for field in fields {
        push_field(bytes, places, field)?;
    }
    Ok(())
}

fn push_methods(
    bytes: &mut Vec<u8>,
    places: &Places,
    methods: &[MethodDecl],
) -> Result<(), WriteFault>
    requires few { length methods.now < 65536 }
    requires codes { AllByRecursion (λ (m : MethodDecl). IsShortCode places.now m.code) methods.now }
    ensures bytes { OnOk result (bytes.new.items ≡ bytes.old.items ++ counted (λ m. member_bytes (method_member places.now m)) methods.now) }
    ensures memory { IsOkUnless result WriteFault.NoMemory }
{
    push_u16(bytes, methods.len() as u16)?;
    for method in methods {
        push_method(bytes, places, method)?;
    }
    Ok(())
}
