//! What options say, one after the other.

ghost use Rattle.std.specs.Prelude.{◌≡◌, ◌≤◌, ◌++◌, length, map, Err, IfOk, OnOk, slice_get, Some, None, if◌then◌else◌};
ghost use Rattle.std.specs.Option.{option_copied};
ghost use Rattle.std.specs.List.{list_all};
ghost use Rattle.std.specs.String.{string_bytes};
ghost use Rattle.jl_logic.specs.Answers.{Gives};
ghost use Rattle.jl_prim.specs.Names.{names_a_module};
ghost use Rattle.jl_words.specs.Reading as reading;
ghost use Rattle.jl_words.specs.Reading.{told};
ghost use Rattle.jl_words.specs.Values as values;
ghost use Rattle.jl_words.specs.declared.setting.Setting.TheVariants.{ModulePath};

use crate::command::Added;
use crate::fault::WordFault;
use crate::setting::Setting;
use crate::targets::added_of;
use crate::texts::{listed, number_of, path_parts};
use jl_prim::{CopyEnd, Items, Name, is_module_name};
use std::alloc::Global;

/// What options have said so far.
#[derive(Debug, Drop)]
pub struct Given {
    pub elements: Option<Items<Name>>,
    pub add: Items<Name>,
    pub added: Items<Added>,
    pub steps: Option<u64>,
    pub report: bool,
}

/// Nothing is given yet.
pub fn nothing(alloc: Global) -> Given
    ensures { result ≡ reading.nothing }
{
    Given {
        elements: None,
        add: Items::new(alloc),
        added: Items::new(alloc),
        steps: None,
        report: false,
    }
}

/// Whether a single option stands already.
pub fn is_given(setting: Setting, given: &Given) -> bool
    ensures { result ≡ reading.is_given setting given.now }
{
    match setting {
        Setting::ModulePath => given.elements.is_some(),
        Setting::Steps => given.steps.is_some(),
        Setting::Report => given.report,
        _ => false,
    }
}

/// With the value of an option, which the word at a place holds.
pub fn with_value(
    alloc: Global,
    setting: Setting,
    value: &str,
    at: usize,
    given: Given,
) -> Result<Given, WordFault>
    ensures { Gives told (λ x. x) result (reading.with_value setting value.now at given) }
{
    match setting {
        Setting::ModulePath => with_path(alloc, value, given),
        Setting::AddModules => with_roots(alloc, value, at, given),
        Setting::Steps => with_steps(value, at, given),
        Setting::Report => Ok(Given {
            report: true,
            ..given
        }),
        _ => with_added(alloc, setting, value, at, given),
    }
}

fn with_path(alloc: Global, value: &str, given: Given) -> Result<Given, WordFault>
    ensures { Gives told (λ x. x) result (reading.with_value ModulePath value.now 0 given) }
{
    let elements = path_parts(alloc, value)?;
    Ok(Given {
        elements: Some(elements),
        ..given
    })
}

fn with_roots(alloc: Global, value: &str, at: usize, given: Given) -> Result<Given, WordFault>
    ensures { Gives told (λ x. x) result (reading.with_roots (values.listed value.now) at given) }
{
    let names = listed(alloc, value)?;
    if !name_modules(names.as_slice()) {
        return Err(WordFault::BadTarget(at));
    }
    let Given {
        elements,
        add,
        added,
        steps,
        report,
    } = given;
    Ok(Given {
        elements,
        add: joined(add, names)?,
        added,
        steps,
        report,
    })
}

fn name_modules(names: &[Name]) -> bool
    ensures { result ≡ list_all names_a_module names.now }
{
    names.iter().all(|name| is_module_name(name.as_bytes()))
}

/// Names, and more names behind them.
fn joined(names: Items<Name>, more: Items<Name>) -> Result<Items<Name>, CopyEnd>
    ensures { IfOk result (λ all. all ≡ names ++ more) }
{
    let mut all = names.into_vec();
    for name in more.into_vec() {
        all.push(name)?;
    }
    Ok(Items::from_vec(all))
}

fn with_added(
    alloc: Global,
    setting: Setting,
    value: &str,
    at: usize,
    given: Given,
) -> Result<Given, WordFault>
    ensures { Gives told (λ x. x) result (reading.with_added (reading.added_of setting value.now) at given) }
{
    let Some(fact) = added_of(alloc, setting, value)? else {
        return Err(WordFault::BadTarget(at));
    };
    let mut given = given;
    given.added.push(fact)?;
    Ok(given)
}

fn with_steps(value: &str, at: usize, given: Given) -> Result<Given, WordFault>
    ensures { Gives told (λ x. x) result (reading.with_steps (values.number_of value.now) at given) }
{
    match number_of(value.as_bytes()) {
        None => Err(WordFault::BadNumber(at)),
        Some(steps) => Ok(Given {
            steps: Some(steps),
            ..given
        }),
    }
}
