//! Errors with their texts.

ghost use Rattle.std.specs.Prelude.{◌≡◌, ◌++◌, codes, IfOk};
ghost use Rattle.std.specs.String.{string_bytes};
ghost use Rattle.jl_names.specs.Dots.{dotted};
ghost use Rattle.jl_loads.specs.Ends.{Tells};
ghost use Rattle.jl_loads.specs.Outcomes as outcomes;
ghost use Rattle.jl_loads.specs.Outcomes.{of_class, of_member, silent, wrong_file};

use crate::end::LinkEnd;
use jl_names::{dotted, utf16_of};
use jl_prim::{ErrorKind, Name};
use std::alloc::{AllocError, Global};

/// An error with a message.
pub fn error(alloc: Global, kind: ErrorKind, text: &str) -> LinkEnd
    ensures { Tells result (outcomes.error kind text.now) }
{
    match utf16_of(alloc, text) {
        Ok(units) => LinkEnd::Throws(kind, Some(units)),
        Err(_) => LinkEnd::NoMemory,
    }
}

/// An error without one.
pub fn silent(kind: ErrorKind) -> LinkEnd
    ensures { Tells result (silent kind) }
{
    LinkEnd::Throws(kind, None)
}

/// An error whose message is the name of a class.
pub fn of_class(alloc: Global, kind: ErrorKind, name: &Name) -> LinkEnd
    ensures { Tells result (of_class kind name.now) }
{
    match dotted(alloc, name.as_str()) {
        Ok(text) => error(alloc, kind, text.as_str()),
        Err(_) => LinkEnd::NoMemory,
    }
}

/// An error whose message is a class and a member of it.
pub fn of_member(alloc: Global, kind: ErrorKind, class: &Name, member: &Name) -> LinkEnd
    ensures { Tells result (of_member kind class.now member.now) }
{
    match member_text(alloc, class, member) {
        Ok(text) => error(alloc, kind, text.as_str()),
        Err(_) => LinkEnd::NoMemory,
    }
}

/// An error whose message is a class, and what is wrong with its file.
pub fn wrong_file(alloc: Global, kind: ErrorKind, name: &Name, fault: &str) -> LinkEnd
    ensures { Tells result (wrong_file kind name.now fault.now) }
{
    match file_text(alloc, name, fault) {
        Ok(text) => error(alloc, kind, text.as_str()),
        Err(_) => LinkEnd::NoMemory,
    }
}

fn file_text(alloc: Global, name: &Name, fault: &str) -> Result<String, AllocError>
    ensures { IfOk result (λ text. string_bytes text ≡ (dotted name.now ++ codes ": ") ++ fault.now) }
{
    let mut text = dotted(alloc, name.as_str())?;
    text.push_str(": ")?;
    text.push_str(fault)?;
    Ok(text)
}

fn member_text(alloc: Global, class: &Name, member: &Name) -> Result<String, AllocError>
    ensures { IfOk result (λ text. string_bytes text ≡ (dotted class.now ++ codes ".") ++ member.now) }
{
    let mut text = dotted(alloc, class.as_str())?;
    text.push_str(".")?;
    text.push_str(member.as_str())?;
    Ok(text)
}
