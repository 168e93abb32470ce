//! A class and a member as lines of the page.

use crate::types::types_in;
use jl_base::{ClassRow, MemberKind, MemberRow};
use std::alloc::{AllocError, Global};

const PROTECTED: u16 = 0x4;

const STATIC: u16 = 0x8;

const FINAL: u16 = 0x10;

const INTERFACE: u16 = 0x200;

const ABSTRACT: u16 = 0x400;

/// What a class is, with its superclass, unless it is Object, and its interfaces.
pub fn heading(alloc: Global, row: &ClassRow) -> Result<String, AllocError> {
    let (flags, name, super_name, interfaces, _) = *row;
    let mut line = String::new(alloc);
    line.push_str(class_word(flags))?;
    push_dotted(&mut line, name)?;
    if super_name != "" && super_name != "java/lang/Object" {
        line.push_str(" extends ")?;
        push_dotted(&mut line, super_name)?;
    }
    let mut word = if flags & INTERFACE != 0 {
        " extends "
    } else {
        " implements "
    };
    for interface in interfaces {
        line.push_str(word)?;
        push_dotted(&mut line, interface)?;
        word = ", ";
    }
    Ok(line)
}

fn class_word(flags: u16) -> &'static str {
    if flags & INTERFACE != 0 {
        "interface "
    } else if flags & ABSTRACT != 0 {
        "abstract class "
    } else if flags & FINAL != 0 {
        "final class "
    } else {
        "class "
    }
}

/// A member of a class as Java declares it, and what it is, unless the machine itself answers it.
pub fn member_line(alloc: Global, class: &str, member: &MemberRow) -> Result<String, AllocError> {
    let (flags, name, desc, kind) = *member;
    let mut types = types_in(alloc, desc)?;
    let result = match types.pop() {
        Some(result) => result,
        None => String::new(alloc),
    };
    let mut line = String::new(alloc);
    line.push('`')?;
    push_modifiers(&mut line, flags)?;
    if name == "<init>" {
        push_simple(&mut line, class)?;
    } else {
        line.push_str(&result)?;
        line.push(' ')?;
        line.push_str(name)?;
    }
    if !kind.is_field() {
        push_parameters(&mut line, &types)?;
    }
    line.push('`')?;
    push_kind(alloc, &mut line, kind)?;
    Ok(line)
}

fn push_modifiers(line: &mut String, flags: u16) -> Result<(), AllocError> {
    for (flag, word) in [
        (PROTECTED, "protected "),
        (STATIC, "static "),
        (FINAL, "final "),
    ] {
        if flags & flag != 0 {
            line.push_str(word)?;
        }
    }
    Ok(())
}

fn push_parameters(line: &mut String, types: &Vec<String>) -> Result<(), AllocError> {
    let mut word = "(";
    for text in types {
        line.push_str(word)?;
        line.push_str(text)?;
        word = ", ";
    }
    line.push_str(if types.is_empty() { "()" } else { ")" })?;
    Ok(())
}

fn push_kind(alloc: Global, line: &mut String, kind: MemberKind) -> Result<(), AllocError> {
    match kind {
        MemberKind::Field | MemberKind::Core => Ok(()),
        MemberKind::Abstract => Ok(line.push_str(": abstract")?),
        MemberKind::Entering => Ok(line.push_str(": entering")?),
        MemberKind::Boxed(row) => Ok(line.push_str(&format!(in alloc; ": boxed {row}")?)?),
    }
}

/// A class's name with dots.
fn push_dotted(line: &mut String, name: &str) -> Result<(), AllocError> {
    for c in name.chars() {
        line.push(if c == '/' || c == '$' { '.' } else { c })?;
    }
    Ok(())
}

/// A class's own name, without its package.
fn push_simple(line: &mut String, name: &str) -> Result<(), AllocError> {
    match name.split('/').last() {
        Some(simple) => push_dotted(line, simple),
        None => Ok(()),
    }
}
