//! Constraints that a resolved member imposes on two loaders (JVMS 5.3.4).

ghost use Rattle.std.specs.Prelude.{◌≡◌, ◌++◌, codes, IfErr, IfOk, OnOk};
ghost use Rattle.std.specs.String.{string_bytes};
ghost use Rattle.jl_names.specs.Descriptors.{IsDescriptor, class_in};
ghost use Rattle.jl_names.specs.Dots.{dotted};
ghost use Rattle.jl_layer.specs.Layers.{IsModule};
ghost use Rattle.jl_loaders.specs.Loaders.{IsLoader};
ghost use Rattle.jl_loads.specs.Ends.{Leaves, Tells, IsNotRead};
ghost use Rattle.jl_loads.specs.Worlds.{module_text, with_layers};
ghost use Rattle.jl_link.specs.Constraining as constraining;
ghost use Rattle.jl_link.specs.Imposing.{AreCut, IsCut, IsResultCut, impose_all, impose_if, impose_result, impose_types};
ghost use Rattle.jl_link.specs.Moving.{Moves};
ghost use Rattle.jl_link.specs.Standing.{AreAgreed};

use jl_loaders::ConstraintFault;
use jl_loads::{LinkEnd, Loads, error, is_sound};
use jl_names::{BaseType, Descriptor, FieldType, TextFault, descriptor, dotted};
use jl_prim::{ErrorKind, LoaderId, ModuleId, Name};
use std::alloc::AllocError;

/// The names of classes in a descriptor mean one class each to two loaders, parameters first (JVMS 5.4.3.2 to
/// 5.4.3.4). What was imposed before a clash stays.
pub fn agree(loads: &mut Loads, a: LoaderId, b: LoaderId, desc: &Name) -> Result<(), LinkEnd>
    requires one { IsLoader loads.old.layers.loaders a }
    requires other { IsLoader loads.old.layers.loaders b }
    ensures agrees { Leaves (constraining.agree loads.old a b desc.now) result loads.new }
    ensures agreed { OnOk result (AreAgreed loads.new a b desc.now) }
    ensures not_read { IfErr result IsNotRead }
    ensures moves { Moves loads.old loads.new }
    ensures others { loads.new ≡ with_layers loads.new.layers loads.old }
{
    agree_on(loads, a, b, desc.as_str())
}

/// By the text of the descriptor.
#[tactic(auto, using(crate::proofs::Moved::moves_same, crate::proofs::Moved::moves_onward, crate::proofs::Imposed::others_onward))]
fn agree_on(loads: &mut Loads, a: LoaderId, b: LoaderId, desc: &str) -> Result<(), LinkEnd>
    requires one { IsLoader loads.old.layers.loaders a }
    requires other { IsLoader loads.old.layers.loaders b }
    ensures agrees { Leaves (constraining.agree loads.old a b desc.now) result loads.new }
    ensures not_read { IfErr result IsNotRead }
    ensures moves { Moves loads.old loads.new }
    ensures others { loads.new ≡ with_layers loads.new.layers loads.old }
{
    if a.0 == b.0 {
        return Ok(());
    }
    match descriptor(loads.allocator(), desc.as_bytes()) {
        Ok(found) => impose_all(loads, a, b, desc, &found),
        Err(TextFault::BadText(_)) => Ok(()),
        Err(TextFault::NoMemory) => Err(LinkEnd::NoMemory),
    }
}

/// The names of a descriptor.
#[tactic(auto, using(crate::proofs::Moved::moves_same, crate::proofs::Moved::moves_onward, crate::proofs::Imposed::others_onward))]
fn impose_all(
    loads: &mut Loads,
    a: LoaderId,
    b: LoaderId,
    desc: &str,
    found: &Descriptor,
) -> Result<(), LinkEnd>
    requires one { IsLoader loads.old.layers.loaders a }
    requires other { IsLoader loads.old.layers.loaders b }
    requires found { IsDescriptor desc.now found.now }
    ensures imposes { Leaves (impose_all loads.old a b desc.now found.now) result loads.new }
    ensures not_read { IfErr result IsNotRead }
    ensures moves { Moves loads.old loads.new }
    ensures others { loads.new ≡ with_layers loads.new.layers loads.old }
{
    match found {
        Descriptor::Field(kind) => impose_type(loads, a, b, desc, kind),
        Descriptor::Method { params, result } => {
            match impose_types(loads, a, b, desc, params.as_slice()) {
                Ok(()) => impose_result(loads, a, b, desc, result),
                Err(end) => Err(end),
            }
        }
    }
}

/// The names of types in turn.
#[tactic(auto, using(crate::proofs::Moved::moves_same, crate::proofs::Moved::moves_onward, crate::proofs::Imposed::others_onward), unfolding(crate::specs::Imposing::impose_types))]
fn impose_types(
    loads: &mut Loads,
    a: LoaderId,
    b: LoaderId,
    desc: &str,
    types: &[FieldType],
) -> Result<(), LinkEnd>
    requires one { IsLoader loads.old.layers.loaders a }
    requires other { IsLoader loads.old.layers.loaders b }
    requires cut { AreCut desc.now types.now }
    ensures imposes { Leaves (impose_types loads.old a b desc.now types.now) result loads.new }
    ensures not_read { IfErr result IsNotRead }
    ensures moves { Moves loads.old loads.new }
    ensures others { loads.new ≡ with_layers loads.new.layers loads.old }
    ensures one { IsLoader loads.new.layers.loaders a }
    ensures other { IsLoader loads.new.layers.loaders b }
{
    match types {
        [] => Ok(()),
        [kind, more @ ..] => match impose_type(loads, a, b, desc, kind) {
            Ok(()) => impose_types(loads, a, b, desc, more),
            Err(end) => Err(end),
        },
    }
}

/// The name of a result, where there is one.
#[tactic(auto, using(crate::proofs::Moved::moves_same, crate::proofs::Moved::moves_onward, crate::proofs::Imposed::others_onward))]
fn impose_result(
    loads: &mut Loads,
    a: LoaderId,
    b: LoaderId,
    desc: &str,
    result_type: &Option<FieldType>,
) -> Result<(), LinkEnd>
    requires one { IsLoader loads.old.layers.loaders a }
    requires other { IsLoader loads.old.layers.loaders b }
    requires cut { IsResultCut desc.now result_type.now }
    ensures imposes { Leaves (impose_result loads.old a b desc.now result_type.now) result loads.new }
    ensures not_read { IfErr result IsNotRead }
    ensures moves { Moves loads.old loads.new }
    ensures others { loads.new ≡ with_layers loads.new.layers loads.old }
{
    match result_type {
        None => Ok(()),
        Some(kind) => impose_type(loads, a, b, desc, kind),
    }
}

/// The name of a type, where it names a class.
#[tactic(auto, using(crate::proofs::Moved::moves_same, crate::proofs::Moved::moves_onward, crate::proofs::Imposed::others_onward))]
fn impose_type(
    loads: &mut Loads,
    a: LoaderId,
    b: LoaderId,
    desc: &str,
    kind: &FieldType,
) -> Result<(), LinkEnd>
    requires one { IsLoader loads.old.layers.loaders a }
    requires other { IsLoader loads.old.layers.loaders b }
    requires cut { IsCut desc.now kind.now }
    ensures imposes { Leaves (impose_if loads.old a b (class_in desc.now kind.now)) result loads.new }
    ensures not_read { IfErr result IsNotRead }
    ensures moves { Moves loads.old loads.new }
    ensures others { loads.new ≡ with_layers loads.new.layers loads.old }
    ensures one { IsLoader loads.new.layers.loaders a }
    ensures other { IsLoader loads.new.layers.loaders b }
{
    match &kind.base {
        BaseType::Prim(_) => Ok(()),
        BaseType::Class(from, to) => impose(loads, &desc[*from..*to], a, b),
    }
}

/// A name means one class to two loaders.
fn impose(loads: &mut Loads, name: &str, a: LoaderId, b: LoaderId) -> Result<(), LinkEnd>
    requires one { IsLoader loads.old.layers.loaders a }
    requires other { IsLoader loads.old.layers.loaders b }
    ensures imposes { Leaves (constraining.impose loads.old name.now a b) result loads.new }
    ensures not_read { IfErr result IsNotRead }
    ensures moves { Moves loads.old loads.new }
    ensures others { loads.new ≡ with_layers loads.new.layers loads.old }
    ensures one { IsLoader loads.new.layers.loaders a }
    ensures other { IsLoader loads.new.layers.loaders b }
{
    is_sound(loads);
    match loads.impose(name.as_bytes(), a, b) {
        Ok(()) => Ok(()),
        Err(ConstraintFault::Clash { one, other, .. }) => Err(clash(loads, name, one, other)),
        Err(ConstraintFault::NoMemory) => Err(LinkEnd::NoMemory),
    }
}

/// The error of a name that two loaders lead to two modules.
fn clash(loads: &Loads, name: &str, one: ModuleId, other: ModuleId) -> LinkEnd
    requires one { IsModule loads.now.layers one }
    requires other { IsModule loads.now.layers other }
    ensures tells { Tells result (constraining.clash loads.now name.now (one, other)) }
    ensures not_read { IsNotRead result }
{
    match clash_text(loads, name, one, other) {
        Ok(text) => error(loads.allocator(), ErrorKind::LinkageError, text.as_str()),
        Err(_) => LinkEnd::NoMemory,
    }
}

/// The name, and the two modules.
fn clash_text(
    loads: &Loads,
    name: &str,
    one: ModuleId,
    other: ModuleId,
) -> Result<String, AllocError>
    requires one { IsModule loads.now.layers one }
    requires other { IsModule loads.now.layers other }
    ensures { IfOk result (λ text. string_bytes text ≡ codes "Clash " ++ dotted name.now ++ codes " " ++ module_text loads.now one ++ codes " " ++ module_text loads.now other) }
{
    let alloc = loads.allocator();
    let mut text = String::from_str(alloc, "Clash ")?;
    text.push_str(dotted(alloc, name)?.as_str())?;
    text.push_str(" ")?;
    text.push_str(loads.module_text(one)?.as_str())?;
    text.push_str(" ")?;
    text.push_str(loads.module_text(other)?.as_str())?;
    Ok(text)
}
