//! The walk over the parents of a configuration and all that stand above them.

ghost use Rattle.std.specs.Prelude.{◌≡◌, ◌≤◌, ◌<◌, ◌&&◌, [], ◌∷◌, ◌++◌, length, not, nat_lt, IfOk, OnOk, MatchOption};
ghost use Rattle.jl_prim.specs.Limits.{most_modules};
ghost use Rattle.jl_config.specs.Located.{empty_configuration, configuration_of, parents_below, preorder, ancestor_numbers};
ghost use Rattle.jl_config.specs.Walked.{is_among, with_numbers, IsClosedBelow};

use crate::configuration::Configuration;
use jl_prim::ConfigId;
use std::alloc::{AllocError, Global};
use std::marker::Model;

/// The configurations that a walk has come to, each once, in the order in which it came to them.
#[derive(Drop)]
struct Visited {
    numbers: Vec<ConfigId>,
    // Whether a number is among them.
    marks: Vec<bool>,
}

impl Model for Visited {
    ghost use Rattle.std.specs.Prelude.{◌≡◌, ◌<◌, length, Some, slice_get};
    ghost use Rattle.jl_prim.specs.declared.numbers.ConfigId.{ConfigId};
    ghost use Rattle.jl_config.specs.Walked as seen;

    ghost Value = { seen.Visited };

    ghost view = { λ v. record { room = length v.marks.items; numbers = v.numbers.items } };

    ghost invariant = { λ v. (c : ConfigId) → c.0 < length v.marks.items → slice_get v.marks.items c.0 ≡ Some (seen.is_among c v.numbers.items) };
}

impl Visited {
    /// No configurations yet, of those with numbers below a bound.
    fn none(alloc: Global, room: usize) -> Result<Visited, AllocError>
        ensures { IfOk result (λ v. v ≡ record { room = room; numbers = [] }) }
    {
        let marks = vec![in alloc; false; room]?;
        Ok(Visited {
            numbers: Vec::new(alloc),
            marks,
        })
    }

    fn has(&self, number: ConfigId) -> bool
        requires { number.0 < self.now.room }
        ensures { result ≡ is_among number self.now.numbers }
    {
        self.marks[number.0 as usize]
    }

    fn push(&mut self, number: ConfigId) -> Result<(), AllocError>
        requires { number.0 < self.old.room }
        ensures { OnOk result (self.new ≡ record { room = self.old.room; numbers = self.old.numbers ++ number ∷ [] }) }
    {
        self.numbers.push(number)?;
        self.marks[number.0 as usize] = true;
        Ok(())
    }
}

/// The numbers of the ancestors of the next configuration, in order.
pub fn ancestor_numbers(
    alloc: Global,
    known: &[Configuration],
    parents: &[ConfigId],
) -> Result<Vec<ConfigId>, AllocError>
    requires { length known.now ≤ most_modules }
    ensures { IfOk result (λ numbers. numbers.items ≡ ancestor_numbers known.now parents.now) }
{
    let mut visited = Visited::none(alloc, known.len() + 1)?;
    let next = ConfigId(known.len() as u32 + 1);
    visit(&mut visited, known, next, parents)?;
    Ok(visited.numbers)
}

/// Comes to the parents of a configuration, each followed by what stands above it, but for those that were
/// come to before.
fn visit(
    visited: &mut Visited,
    known: &[Configuration],
    child: ConfigId,
    parents: &[ConfigId],
) -> Result<(), AllocError>
    requires room { child.0 ≤ visited.old.room }
    requires closed { IsClosedBelow known.now child visited.old.numbers }
    ensures room { OnOk result (visited.new.room ≡ visited.old.room) }
    ensures numbers { OnOk result (visited.new.numbers ≡ with_numbers visited.old.numbers (preorder child.0 known.now (parents_below child parents.now))) }
{
    for parent in parents {
        if is_new(visited, child, *parent) {
            visited.push(*parent)?;
            visit(visited, known, *parent, parents_of(known, *parent))?;
        }
    }
    Ok(())
}

/// Whether a parent counts, as one with a lower number than its child, and was not come to before.
fn is_new(visited: &Visited, child: ConfigId, parent: ConfigId) -> bool
    requires { child.0 ≤ visited.now.room }
    ensures { result ≡ (nat_lt parent.0 child.0 && not (is_among parent visited.now.numbers)) }
{
    parent.0 < child.0 && !visited.has(parent)
}

/// The parents of the configuration with a number.
fn parents_of(known: &[Configuration], number: ConfigId) -> &[ConfigId]
    ensures { result.now ≡ (configuration_of known.now number).parents }
{
    match configuration_of(known, number) {
        Some(configuration) => configuration.parents(),
        None => &[],
    }
}

/// The configuration with a number, but for the empty one.
pub fn configuration_of(known: &[Configuration], number: ConfigId) -> Option<&Configuration>
    ensures { MatchOption result (configuration_of known.now number ≡ empty_configuration) (λ g. g.now ≡ configuration_of known.now number) }
{
    if number.0 == 0 {
        return None;
    }
    known.get(number.0 as usize - 1)
}
