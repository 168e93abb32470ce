//! The class of a row, made part by part.

ghost use Rattle.std.specs.Prelude.{◌≡◌, None, map, IfOk, IsTrue};
ghost use Rattle.jl_logic.specs.Answers.{Gives};
ghost use Rattle.jl_classw.specs.Faults.{told};
ghost use Rattle.jl_classw.specs.Building.{of_class, with_field, with_method};
ghost use Rattle.jl_base.specs.Rows.{row_of, member_of};
ghost use Rattle.jl_base.specs.Images.{class_of};
ghost use Rattle.jl_base.specs.Made.{class_named, class_begun, class_made, with_interfaces, with_member, with_members};
ghost use Rattle.jl_base.specs.Ready.{are_interface_names, is_ready, may_add, may_add_all, MayAddField, MayAddMethod};

use crate::fault::BaseFault;
use crate::row::{ClassRow, MemberRow};
use jl_class::ClassDecl;
use jl_classw::{ClassBuilder, WriteFault};
use std::alloc::Global;

/// The version of the class files of Java SE 17 (JVMS 4.1-A).
const MAJOR: u16 = 61;

/// The class of a row.
pub fn class_of_row(alloc: Global, row: &ClassRow) -> Result<ClassDecl, BaseFault>
    requires { IsTrue (is_ready (row_of row.now)) }
    ensures { IfOk result (λ c. c ≡ class_of (row_of row.now)) }
{
    match built(alloc, row) {
        Ok(class) => Ok(class),
        Err(WriteFault::NoMemory) => Err(BaseFault::NoMemory),
        // no row has so many parts
        Err(WriteFault::TooMany(_)) => unreachable!(),
    }
}

#[tactic(auto, unfolding(crate::specs::Made::class_made))]
fn built(alloc: Global, row: &ClassRow) -> Result<ClassDecl, WriteFault>
    requires { IsTrue (is_ready (row_of row.now)) }
    ensures { Gives told (λ c. c) result (class_made (row_of row.now)) }
{
    let mut builder = begun(alloc, row)?;
    let (_, _, _, _, members) = *row;
    add_members(&mut builder, members)?;
    builder.finish()
}

/// The class without its members.
#[tactic(auto, unfolding(crate::specs::Made::class_begun))]
fn begun(alloc: Global, row: &ClassRow) -> Result<ClassBuilder, WriteFault>
    requires { IsTrue (is_ready (row_of row.now)) }
    ensures { Gives told (λ b. b) result (class_begun (row_of row.now)) }
{
    let mut builder = named(alloc, row)?;
    let (_, _, _, interfaces, _) = *row;
    name_interfaces(&mut builder, interfaces)?;
    Ok(builder)
}

/// The class with its name and its superclass alone.
fn named(alloc: Global, row: &ClassRow) -> Result<ClassBuilder, WriteFault>
    requires { IsTrue (is_ready (row_of row.now)) }
    ensures { Gives told (λ b. b) result (class_named (row_of row.now)) }
{
    let (flags, name, super_name, _, _) = *row;
    ClassBuilder::new(alloc, MAJOR, flags, name.as_bytes(), super_name.as_bytes())
}

fn name_interfaces(builder: &mut ClassBuilder, names: &[&str]) -> Result<(), WriteFault>
    requires { IsTrue (are_interface_names (map (λ name. name.now) names.now)) }
    ensures { Gives told (λ _. builder.new) result (with_interfaces builder.old (map (λ name. name.now) names.now)) }
{
    let mut rest = names;
    while let [name, others @ ..] = rest {
        builder.interface(name.as_bytes())?;
        rest = others;
    }
    Ok(())
}

fn add_members(builder: &mut ClassBuilder, members: &[MemberRow]) -> Result<(), WriteFault>
    requires { IsTrue (may_add_all builder.old (map member_of members.now)) }
    ensures { Gives told (λ _. builder.new) result (with_members builder.old (map member_of members.now)) }
{
    let mut rest = members;
    while let [member, others @ ..] = rest {
        add_member(builder, member)?;
        rest = others;
    }
    Ok(())
}

fn add_member(builder: &mut ClassBuilder, member: &MemberRow) -> Result<(), WriteFault>
    requires { IsTrue (may_add builder.old.class (member_of member.now)) }
    ensures { Gives told (λ _. builder.new) result (with_member builder.old (member_of member.now)) }
{
    let (flags, name, desc, kind) = *member;
    if kind.is_field() {
        add_field(builder, flags, name, desc)
    } else {
        add_method(builder, flags, name, desc)
    }
}

fn add_field(
    builder: &mut ClassBuilder,
    flags: u16,
    name: &str,
    desc: &str,
) -> Result<(), WriteFault>
    requires { MayAddField builder.old.class flags name.now desc.now }
    ensures { Gives told (λ _. builder.new) result (of_class builder.old (with_field builder.old.class flags name.now desc.now None)) }
{
    builder.field(flags, name.as_bytes(), desc.as_bytes(), None)
}

fn add_method(
    builder: &mut ClassBuilder,
    flags: u16,
    name: &str,
    desc: &str,
) -> Result<(), WriteFault>
    requires { MayAddMethod builder.old.class flags name.now desc.now }
    ensures { Gives told (λ _. builder.new) result (of_class builder.old (with_method builder.old.class flags name.now desc.now None)) }
{
    builder.method(flags, name.as_bytes(), desc.as_bytes(), None)
}
