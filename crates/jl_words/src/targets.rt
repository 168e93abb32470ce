//! Facts that options add, and the target of a run.

ghost use Rattle.std.specs.Prelude.{◌≡◌, ◌&&◌, ◌==◌, List, ℕ, option_map, IfOk, Some, None, if◌then◌else◌};
ghost use Rattle.std.specs.List.{list_any};
ghost use Rattle.jl_names.specs.Names.{is_slash};
ghost use Rattle.jl_prim.specs.Names.{names_a_module};
ghost use Rattle.jl_names.specs.Dots as dots;
ghost use Rattle.jl_words.specs.declared.command.Added.{Added as Fact};
ghost use Rattle.jl_words.specs.declared.command.Added.TheVariants.{Exports, Opens};
ghost use Rattle.jl_words.specs.Values.{is_typed_package, is_typed_class};
ghost use Rattle.jl_words.specs.Reading as reading;

use crate::command::Added;
use crate::setting::Setting;
use crate::texts::{parted, parted_last};
use jl_names::{is_class_name, slashed};
use jl_prim::{CopyEnd, Name, is_module_name};
use std::alloc::Global;

/// What is granted: a package, in internal form, of a module to another.
#[derive(Drop)]
struct Granted {
    from: Name,
    name: Name,
    to: Name,
}

/// What an option with this value adds, or None where the value is of another form.
pub fn added_of(alloc: Global, setting: Setting, value: &str) -> Result<Option<Added>, CopyEnd>
    ensures { IfOk result (λ added. added ≡ reading.added_of setting value.now) }
{
    match setting {
        Setting::AddReads => reads_of(alloc, value),
        Setting::AddExports => exports_of(alloc, value),
        Setting::AddOpens => opens_of(alloc, value),
        _ => Ok(None),
    }
}

fn reads_of(alloc: Global, value: &str) -> Result<Option<Added>, CopyEnd>
    ensures { IfOk result (λ added. added ≡ reading.reads_of value.now) }
{
    let Some((module, other)) = parted(value, '=') else {
        return Ok(None);
    };
    if !is_module_name(module.as_bytes()) || !is_module_name(other.as_bytes()) {
        return Ok(None);
    }
    let module = Name::from_text(alloc, module)?;
    let other = Name::from_text(alloc, other)?;
    Ok(Some(Added::Reads(module, other)))
}

fn exports_of(alloc: Global, value: &str) -> Result<Option<Added>, CopyEnd>
    ensures { IfOk result (λ added. added ≡ reading.granted_of Exports value.now) }
{
    match granted_of(alloc, value)? {
        Some(it) => Ok(Some(Added::Exports(it.from, it.name, it.to))),
        None => Ok(None),
    }
}

fn opens_of(alloc: Global, value: &str) -> Result<Option<Added>, CopyEnd>
    ensures { IfOk result (λ added. added ≡ reading.granted_of Opens value.now) }
{
    match granted_of(alloc, value)? {
        Some(it) => Ok(Some(Added::Opens(it.from, it.name, it.to))),
        None => Ok(None),
    }
}

/// The module, package and module of a value.
fn granted_of(alloc: Global, value: &str) -> Result<Option<Granted>, CopyEnd>
    ensures { IfOk result (λ granted. (made : List ℕ → List ℕ → List ℕ → Fact) → option_map (λ it. made it.from it.name it.to) granted ≡ reading.granted_of made value.now) }
{
    let Some((module, rest)) = parted(value, '/') else {
        return Ok(None);
    };
    let Some((typed, to)) = parted_last(rest, '=') else {
        return Ok(None);
    };
    if !is_module_name(module.as_bytes()) || !is_module_name(to.as_bytes()) {
        return Ok(None);
    }
    let Some(name) = package_of(alloc, typed)? else {
        return Ok(None);
    };
    let from = Name::from_text(alloc, module)?;
    let to = Name::from_text(alloc, to)?;
    Ok(Some(Granted { from, name, to }))
}

/// A package that is typed with dots, in internal form.
fn package_of(alloc: Global, typed: &str) -> Result<Option<Name>, CopyEnd>
    ensures { IfOk result (λ name. name ≡ (if is_typed_package typed.now then Some (dots.slashed typed.now) else None)) }
{
    if has_slash(typed.as_bytes()) {
        return Ok(None);
    }
    let package = slashed(alloc, typed)?;
    if !is_class_name(package.as_bytes()) {
        return Ok(None);
    }
    Ok(Some(Name::from_string(package)))
}

/// A class that is typed with dots and stands in a package, in internal form.
fn class_of(alloc: Global, typed: &str) -> Result<Option<Name>, CopyEnd>
    ensures { IfOk result (λ class. class ≡ (if is_typed_class typed.now then Some (dots.slashed typed.now) else None)) }
{
    if !has_dot(typed.as_bytes()) {
        return Ok(None);
    }
    package_of(alloc, typed)
}

fn has_slash(text: &[u8]) -> bool
    ensures { result ≡ list_any is_slash text.now }
{
    text.iter().any(|byte| *byte == b'/')
}

fn has_dot(text: &[u8]) -> bool
    ensures { result ≡ list_any (λ b. b == 46) text.now }
{
    text.iter().any(|byte| *byte == b'.')
}

/// The module that a word names, and the class in internal form where it names one.
pub fn target_of(alloc: Global, word: &str) -> Result<Option<(Name, Option<Name>)>, CopyEnd>
    ensures { IfOk result (λ target. target ≡ reading.target_of word.now) }
{
    match parted(word, '/') {
        None => module_alone(alloc, word),
        Some((module, typed)) => module_with_class(alloc, module, typed),
    }
}

fn module_alone(alloc: Global, name: &str) -> Result<Option<(Name, Option<Name>)>, CopyEnd>
    ensures { IfOk result (λ target. target ≡ (if names_a_module name.now then Some (name.now, None) else None)) }
{
    if !is_module_name(name.as_bytes()) {
        return Ok(None);
    }
    Ok(Some((Name::from_text(alloc, name)?, None)))
}

fn module_with_class(
    alloc: Global,
    name: &str,
    typed: &str,
) -> Result<Option<(Name, Option<Name>)>, CopyEnd>
    ensures { IfOk result (λ target. target ≡ (if names_a_module name.now && is_typed_class typed.now then Some (name.now, Some (dots.slashed typed.now)) else None)) }
{
    if !is_module_name(name.as_bytes()) {
        return Ok(None);
    }
    match class_of(alloc, typed)? {
        None => Ok(None),
        Some(class) => Ok(Some((Name::from_text(alloc, name)?, Some(class)))),
    }
}
