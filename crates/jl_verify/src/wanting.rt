//! What instructions take from the stack (JVMS 4.10.1.9).

ghost use Rattle.std.specs.Prelude.{◌≡◌, ◌++◌, ◌∷◌, [], replicate, IfOk, OnOk};
ghost use Rattle.jl_verify.specs.declared.want.Wanted.TheVariants as wanted;
ghost use Rattle.jl_verify.specs.declared.want.Want.TheVariants as wants;
ghost use Rattle.jl_verify.specs.Declaring.{class_item as item_of_class};
ghost use Rattle.jl_verify.specs.Moves as words;

use crate::context::Context;
use crate::declaring::is_wide;
use crate::family::{Compute, Elements, Family, ValueKind};
use crate::methods::{MethodItems, field_item, method_items};
use crate::naming::{desc_named, index_of, names_init, owner_named};
use crate::shuffles::{shuffled, slots_in};
use crate::types::{class_item, throwable};
use crate::want::{Want, Wanted};
use jl_code::Arg;
use jl_prim::{Copied, CopyEnd, Name};
use jl_vtypes::Item;
use std::alloc::Global;

static LONG: [Want; 2] = [Want::Half, Want::Long];

static LONGS: [Want; 4] = [Want::Half, Want::Long, Want::Half, Want::Long];

static LONG_AND_INT: [Want; 3] = [Want::Int, Want::Half, Want::Long];

static INT: [Want; 1] = [Want::Int];

static INTS: [Want; 2] = [Want::Int, Want::Int];

static REFERENCE: [Want; 1] = [Want::Reference];

static REFERENCES: [Want; 2] = [Want::Reference, Want::Reference];

static OBJECT: [Want; 1] = [Want::Object];

static ARRAY: [Want; 1] = [Want::Array];

fn value_taken(kind: ValueKind) -> &'static [Want]
    ensures { result.now ≡ words.value_taken kind }
{
    match kind {
        ValueKind::Int => &INT,
        ValueKind::Long => &LONG,
        ValueKind::Reference => &REFERENCE,
    }
}

fn array_taken(kind: Elements) -> Want
    ensures { result ≡ words.array_taken kind }
{
    match kind {
        Elements::Ints => Want::Prims(b'I'),
        Elements::Longs => Want::Prims(b'J'),
        Elements::References => Want::References,
        Elements::Bytes => Want::Bytes,
        Elements::Chars => Want::Prims(b'C'),
        Elements::Shorts => Want::Prims(b'S'),
    }
}

fn element_taken(kind: Elements) -> &'static [Want]
    ensures { result.now ≡ words.element_taken kind }
{
    match kind {
        Elements::Longs => &LONG,
        Elements::References => &OBJECT,
        Elements::Ints | Elements::Bytes | Elements::Chars | Elements::Shorts => &INT,
    }
}

fn computed_of(how: Compute) -> &'static [Want]
    ensures { result.now ≡ words.computed_of how }
{
    match how {
        Compute::IntsToInt => &INTS,
        Compute::LongsToLong | Compute::LongsToInt => &LONGS,
        Compute::LongAndIntToLong => &LONG_AND_INT,
        Compute::IntToInt | Compute::IntToLong => &INT,
        Compute::LongToLong | Compute::LongToInt => &LONG,
    }
}

fn says(alloc: Global, wants: &[Want]) -> Result<Vec<Wanted>, CopyEnd>
    ensures { IfOk result (λ all. all.items ≡ words.says wants.now) }
{
    let mut all = Vec::new(alloc);
    for want in wants {
        all.push(Wanted::Says(*want))?;
    }
    Ok(all)
}

/// So many slots with one want.
fn says_all(alloc: Global, count: usize, want: Want) -> Result<Vec<Wanted>, CopyEnd>
    ensures { IfOk result (λ all. all.items ≡ words.says (replicate count want)) }
{
    let mut all = Vec::new(alloc);
    for _ in 0..count {
        all.push(Wanted::Says(want))?;
    }
    Ok(all)
}

/// What an array's element, an index and the array take.
fn stored_element(alloc: Global, kind: Elements) -> Result<Vec<Wanted>, CopyEnd>
    ensures { IfOk result (λ all. all.items ≡ words.says (words.element_taken kind ++ wants.Int ∷ words.array_taken kind ∷ [])) }
{
    let mut all = says(alloc, element_taken(kind))?;
    all.push(Wanted::Says(Want::Int))?;
    all.push(Wanted::Says(array_taken(kind)))?;
    Ok(all)
}

fn loaded_element(alloc: Global, kind: Elements) -> Result<Vec<Wanted>, CopyEnd>
    ensures { IfOk result (λ all. all.items ≡ words.says (wants.Int ∷ words.array_taken kind ∷ [])) }
{
    says(alloc, &[Want::Int, array_taken(kind)])
}

/// What is taken for an item: its slots from the top.
fn taken_as(alloc: Global, item: Item) -> Result<Vec<Wanted>, CopyEnd>
    ensures { IfOk result (λ all. all.items ≡ words.taken_as item) }
{
    let mut all = Vec::new(alloc);
    push_item(&mut all, item)?;
    Ok(all)
}

fn push_item(all: &mut Vec<Wanted>, item: Item) -> Result<(), CopyEnd>
    ensures { OnOk result (all.new.items ≡ all.old.items ++ words.taken_as item) }
{
    if is_wide(&item) {
        all.push(Wanted::Says(Want::Half))?;
    }
    all.push(Wanted::To(item))?;
    Ok(())
}

/// What is taken for the parameters of a method, the last first.
fn arguments(alloc: Global, params: Vec<Item>) -> Result<Vec<Wanted>, CopyEnd>
    ensures { IfOk result (λ all. all.items ≡ words.arguments_of params.items) }
{
    let mut params = params;
    let mut all = Vec::new(alloc);
    while let Some(param) = params.pop() {
        push_item(&mut all, param)?;
    }
    Ok(all)
}

/// What the method at an index of the pool takes for its parameters.
pub fn method_arguments(alloc: Global, c: &Context, index: u16) -> Result<Vec<Wanted>, CopyEnd>
    ensures { IfOk result (λ all. all.items ≡ words.method_arguments c.now index) }
{
    let MethodItems { params, results: _ } = method_items(alloc, desc_named(c, index))?;
    arguments(alloc, params)
}

/// What the field at an index of the pool holds.
pub fn field_named(alloc: Global, c: &Context, index: u16) -> Result<Item, CopyEnd>
    ensures { IfOk result (λ item. item ≡ words.field_item c.now index) }
{
    field_item(alloc, desc_named(c, index))
}

/// The items that the checked method gives: one, or none.
pub fn method_gives(alloc: Global, c: &Context) -> Result<Vec<Item>, CopyEnd>
    ensures { IfOk result (λ all. all.items ≡ words.method_gives c.now) }
{
    let MethodItems { params: _, results } = method_items(alloc, c.method.desc.as_str())?;
    Ok(results)
}

/// What a return takes.
fn returned(alloc: Global, c: &Context) -> Result<Vec<Wanted>, CopyEnd>
    ensures { IfOk result (λ all. all.items ≡ words.arguments_of (words.method_gives c.now)) }
{
    arguments(alloc, method_gives(alloc, c)?)
}

fn owner_taken(alloc: Global, c: &Context, index: u16) -> Result<Wanted, CopyEnd>
    ensures { IfOk result (λ one. one ≡ wanted.To (item_of_class (words.owner_named c.now index))) }
{
    Ok(Wanted::To(class_item(alloc, owner_named(c, index))?))
}

/// The receiver of an invokespecial.
fn special_receiver(alloc: Global, c: &Context, index: u16) -> Result<Wanted, CopyEnd>
    ensures { IfOk result (λ one. one ≡ words.special_receiver c.now index) }
{
    if names_init(c, index) {
        Ok(Wanted::Fresh(Name::from_text(alloc, owner_named(c, index))?))
    } else {
        Ok(Wanted::To(Item::Class(c.class.name().copy()?)))
    }
}

/// With one more below.
fn and_below(all: Vec<Wanted>, one: Wanted) -> Result<Vec<Wanted>, CopyEnd>
    ensures { IfOk result (λ whole. whole.items ≡ all.items ++ one ∷ []) }
{
    let mut all = all;
    all.push(one)?;
    Ok(all)
}

/// What an instruction of a family takes, from the top of the stack down.
pub fn takes(alloc: Global, c: &Context, family: Family, arg: &Arg) -> Result<Vec<Wanted>, CopyEnd>
    ensures { IfOk result (λ all. all.items ≡ words.takes c.now family arg.now) }
{
    match family {
        Family::PutStatic
        | Family::GetField
        | Family::PutField
        | Family::InvokeOn
        | Family::InvokeSpecial
        | Family::InvokeStatic => takes_member(alloc, c, family, index_of(arg)),
        Family::Return(_) => returned(alloc, c),
        _ => takes_said(alloc, family, arg),
    }
}

fn takes_member(
    alloc: Global,
    c: &Context,
    family: Family,
    index: u16,
) -> Result<Vec<Wanted>, CopyEnd>
    ensures { IfOk result (λ all. all.items ≡ words.takes_member c.now family index) }
{
    match family {
        Family::PutStatic => taken_as(alloc, field_named(alloc, c, index)?),
        Family::GetField => and_below(Vec::new(alloc), owner_taken(alloc, c, index)?),
        Family::PutField => {
            let value = taken_as(alloc, field_named(alloc, c, index)?)?;
            and_below(
                value,
                Wanted::Owner(Name::from_text(alloc, owner_named(c, index))?),
            )
        }
        Family::InvokeOn => {
            let all = method_arguments(alloc, c, index)?;
            and_below(all, owner_taken(alloc, c, index)?)
        }
        Family::InvokeSpecial => {
            let all = method_arguments(alloc, c, index)?;
            and_below(all, special_receiver(alloc, c, index)?)
        }
        Family::InvokeStatic => method_arguments(alloc, c, index),
        _ => Ok(Vec::new(alloc)),
    }
}

/// What opcodes say alone.
fn takes_said(alloc: Global, family: Family, arg: &Arg) -> Result<Vec<Wanted>, CopyEnd>
    ensures { IfOk result (λ all. all.items ≡ words.takes_said family arg.now) }
{
    match family {
        Family::Store(kind) => says(alloc, value_taken(kind)),
        Family::LoadElement(kind) => loaded_element(alloc, kind),
        Family::StoreElement(kind) => stored_element(alloc, kind),
        Family::Shuffle(how) => says_all(alloc, slots_in(shuffled(how).groups), Want::Slot),
        Family::Compute(how) => says(alloc, computed_of(how)),
        Family::TakeInt | Family::NewArray | Family::NewReferenceArray => says(alloc, &INT),
        Family::TakeInts => says(alloc, &INTS),
        Family::TakeReference => says(alloc, &REFERENCE),
        Family::TakeReferences => says(alloc, &REFERENCES),
        Family::NewArrays => says_all(alloc, dims_of(arg), Want::Int),
        Family::Length => says(alloc, &ARRAY),
        Family::Throw => and_below(Vec::new(alloc), Wanted::To(throwable(alloc)?)),
        Family::Cast | Family::InstanceOf => says(alloc, &OBJECT),
        _ => Ok(Vec::new(alloc)),
    }
}

fn dims_of(arg: &Arg) -> usize
    ensures { result ≡ words.dims_of arg.now }
{
    match arg {
        Arg::Multi(_, dims) => *dims as usize,
        _ => 0,
    }
}
