//! What was decided of a reference is kept, once for all (JVMS 5.4.3).

ghost use Rattle.std.specs.Prelude.{◌≡◌, ◌<◌, IfOk, Ok, Some, length};
ghost use Rattle.jl_loads.specs.declared.slot.PoolSlot.TheVariants as slots;
ghost use Rattle.jl_loads.specs.Ends.{Tells};
ghost use Rattle.jl_loads.specs.Worlds.{IsClass, row_of, slot_at, with_slot};
ghost use Rattle.jl_link.specs.Slots.{Answers, KeepsError, Settles};

use jl_loads::{LinkEnd, Loads, PoolSlot, Target};
use jl_names::Units;
use jl_prim::{ClassId, Copied, CopyEnd, ErrorKind};

/// The target or the error that a slot has. A target that is no array takes no memory.
pub fn answer_of(slot: &PoolSlot) -> Option<Result<Target, LinkEnd>>
    ensures { Answers slot.now result }
{
    match slot {
        PoolSlot::Empty => None,
        PoolSlot::Passed(target) => Some(passed(target)),
        PoolSlot::Failed(kind, message) => Some(Err(thrown(*kind, message))),
    }
}

/// What is decided of a reference.
pub fn slot_of(loads: &Loads, d: ClassId, index: u16) -> &PoolSlot
    requires class { IsClass loads.now d }
    requires within { index < length (row_of loads.now d) }
    ensures { result.now ≡ slot_at loads.now d index }
{
    &loads.pool_of(d)[index as usize]
}

/// What a reference that passed refers to.
fn passed(target: &Target) -> Result<Target, LinkEnd>
    ensures { Answers (slots.Passed target.now) (Some result) }
{
    match copy_of(target) {
        Ok(target) => Ok(target),
        Err(_) => Err(LinkEnd::NoMemory),
    }
}

/// The error that a reference throws.
fn thrown(kind: ErrorKind, message: &Option<Units>) -> LinkEnd
    ensures { Tells result (record { kind = kind; message = message.now }) }
{
    match copy_of_message(message) {
        Ok(message) => LinkEnd::Throws(kind, message),
        Err(_) => LinkEnd::NoMemory,
    }
}

/// What was found, or is thrown, is kept in the slot of the reference, if there is memory for it.
pub fn settle(
    loads: &mut Loads,
    d: ClassId,
    index: u16,
    found: Result<Target, LinkEnd>,
) -> Result<Target, LinkEnd>
    requires class { IsClass loads.old d }
    requires within { index < length (row_of loads.old d) }
    ensures { Settles d index loads.old found result loads.new }
{
    match found {
        Ok(target) => keep_target(loads, d, index, target),
        Err(LinkEnd::Throws(kind, message)) => Err(keep_error(loads, d, index, kind, message)),
        Err(LinkEnd::ReadFault) => Err(LinkEnd::ReadFault),
        Err(LinkEnd::NoMemory) => Err(LinkEnd::NoMemory),
    }
}

/// What was found is kept.
fn keep_target(loads: &mut Loads, d: ClassId, index: u16, target: Target) -> Result<Target, LinkEnd>
    requires class { IsClass loads.old d }
    requires within { index < length (row_of loads.old d) }
    ensures { Settles d index loads.old (Ok target) result loads.new }
{
    match copy_of(&target) {
        Ok(kept) => {
            loads.fill(d, index, PoolSlot::Passed(kept));
            Ok(target)
        }
        Err(_) => Err(LinkEnd::NoMemory),
    }
}

/// The error that is thrown is kept.
fn keep_error(
    loads: &mut Loads,
    d: ClassId,
    index: u16,
    kind: ErrorKind,
    message: Option<Units>,
) -> LinkEnd
    requires class { IsClass loads.old d }
    requires within { index < length (row_of loads.old d) }
    ensures { KeepsError d index loads.old kind message result loads.new }
{
    match copy_of_message(&message) {
        Ok(kept) => {
            loads.fill(d, index, PoolSlot::Failed(kind, kept));
            LinkEnd::Throws(kind, message)
        }
        Err(_) => LinkEnd::NoMemory,
    }
}

/// An equal target. One that is no array takes no memory.
fn copy_of(target: &Target) -> Result<Target, CopyEnd>
    ensures { IfOk result (λ t. t ≡ target.now) }
{
    match target {
        Target::Class(c) => Ok(Target::Class(*c)),
        Target::Array(text) => Ok(Target::Array(text.copy()?)),
        Target::Field(f) => Ok(Target::Field(*f)),
        Target::Method(m) => Ok(Target::Method(*m)),
    }
}

/// An equal message.
fn copy_of_message(message: &Option<Units>) -> Result<Option<Units>, jl_names::CopyEnd>
    ensures { IfOk result (λ m. m ≡ message.now) }
{
    match message {
        Some(units) => Ok(Some(units.copy()?)),
        None => Ok(None),
    }
}
