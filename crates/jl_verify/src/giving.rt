//! What instructions give (JVMS 4.10.1.9).

ghost use Rattle.std.specs.Prelude.{◌≡◌, ◌<◌, ◌∷◌, [], IfOk};
ghost use Rattle.std.specs.Option.{option_copied};
ghost use Rattle.jl_vtypes.specs.declared.item.Item.TheVariants as items;
ghost use Rattle.jl_verify.specs.Moves as words;

use crate::context::Context;
use crate::family::{Compute, Elements, Family};
use crate::methods::{MethodItems, method_items};
use crate::naming::{class_named, desc_named, index_of};
use crate::type_frame::TypeFrame;
use crate::types::{class_item, element_desc, is_array, name_in};
use crate::wanting::field_named;
use jl_code::{Arg, Instr, local_of};
use jl_prim::{CopyEnd, Name};
use jl_vtypes::Item;
use std::alloc::Global;

/// The number of the local that an instruction names, 0 where it names none.
pub fn local_named(i: &Instr) -> usize
    ensures exact { result ≡ words.local_named i.now }
    ensures few { result < 65536 }
{
    match local_of(i) {
        Some(local) => local as usize,
        None => 0,
    }
}

fn class(alloc: Global, name: &str) -> Result<Item, CopyEnd>
    ensures { IfOk result (λ item. item ≡ items.Class name.now) }
{
    Ok(Item::Class(Name::from_text(alloc, name)?))
}

fn array(alloc: Global, desc: &str) -> Result<Item, CopyEnd>
    ensures { IfOk result (λ item. item ≡ items.Array desc.now) }
{
    Ok(Item::Array(Name::from_text(alloc, desc)?))
}

fn constant_item(alloc: Global, tag: Option<u8>) -> Result<Item, CopyEnd>
    ensures { IfOk result (λ item. item ≡ words.constant_item tag) }
{
    match tag {
        Some(3) => Ok(Item::Int),
        Some(8) => class(alloc, "java/lang/String"),
        _ => class(alloc, "java/lang/Class"),
    }
}

/// An array of the primitive type with a number.
fn new_array(alloc: Global, arg: &Arg) -> Result<Item, CopyEnd>
    ensures { IfOk result (λ item. item ≡ words.new_array arg.now) }
{
    match arg {
        Arg::Number(4) => array(alloc, "[Z"),
        Arg::Number(5) => array(alloc, "[C"),
        Arg::Number(6) => array(alloc, "[F"),
        Arg::Number(7) => array(alloc, "[D"),
        Arg::Number(8) => array(alloc, "[B"),
        Arg::Number(9) => array(alloc, "[S"),
        Arg::Number(10) => array(alloc, "[I"),
        Arg::Number(n) if *n >= 0 => array(alloc, "[J"),
        _ => Ok(Item::Top),
    }
}

/// An array of a class, or of arrays.
fn array_of(alloc: Global, text: &str) -> Result<Item, CopyEnd>
    ensures { IfOk result (λ item. item ≡ words.array_of text.now) }
{
    let mut desc = String::new(alloc);
    desc.push('[')?;
    if is_array(text.as_bytes()) {
        desc.push_str(text)?;
    } else {
        desc.push('L')?;
        desc.push_str(text)?;
        desc.push(';')?;
    }
    Ok(Item::Array(Name::from_string(desc)))
}

/// What an array holds whose elements have a descriptor.
fn reference_of(alloc: Global, desc: &str) -> Result<Item, CopyEnd>
    ensures { IfOk result (λ item. item ≡ words.reference_of desc.now) }
{
    if is_array(desc.as_bytes()) {
        return array(alloc, desc);
    }
    match name_in(desc) {
        Some(name) => class(alloc, name),
        None => Ok(Item::Top),
    }
}

/// What is loaded of an array of references.
fn element_of(alloc: Global, item: Option<&Item>) -> Result<Item, CopyEnd>
    ensures { IfOk result (λ element. element ≡ words.element_of (words.or_top (option_copied item.entry))) }
{
    match item {
        Some(Item::Array(desc)) => reference_of(alloc, element_desc(desc)),
        _ => Ok(Item::Null),
    }
}

fn element_given(alloc: Global, kind: Elements, f: &TypeFrame) -> Result<Item, CopyEnd>
    ensures { IfOk result (λ item. item ≡ words.element_given kind f.now.stack) }
{
    match kind {
        Elements::Longs => Ok(Item::Long),
        Elements::References => element_of(alloc, f.slot(1)),
        Elements::Ints | Elements::Bytes | Elements::Chars | Elements::Shorts => Ok(Item::Int),
    }
}

fn computed(how: Compute) -> Item
    ensures { result ≡ words.computed how }
{
    match how {
        Compute::IntsToInt | Compute::IntToInt | Compute::LongToInt | Compute::LongsToInt => {
            Item::Int
        }
        Compute::LongsToLong
        | Compute::LongAndIntToLong
        | Compute::LongToLong
        | Compute::IntToLong => Item::Long,
    }
}

/// What a method at an index of the pool gives.
fn method_result(alloc: Global, c: &Context, index: u16) -> Result<Vec<Item>, CopyEnd>
    ensures { IfOk result (λ all. all.items ≡ words.method_result c.now index) }
{
    let MethodItems { params: _, results } = method_items(alloc, desc_named(c, index))?;
    Ok(results)
}

fn one(alloc: Global, item: Item) -> Result<Vec<Item>, CopyEnd>
    ensures { IfOk result (λ all. all.items ≡ item ∷ []) }
{
    let mut all = Vec::new(alloc);
    all.push(item)?;
    Ok(all)
}

/// What an instruction of a family gives, the last on top.
pub fn gives(
    alloc: Global,
    c: &Context,
    f: &TypeFrame,
    family: Family,
    i: &Instr,
) -> Result<Vec<Item>, CopyEnd>
    ensures { IfOk result (λ all. all.items ≡ words.gives c.now f.now family i.now) }
{
    match family {
        Family::InvokeOn | Family::InvokeSpecial | Family::InvokeStatic => {
            method_result(alloc, c, index_of(&i.arg))
        }
        Family::Load(_) => one(alloc, f.local_item(local_named(i))?),
        Family::LoadElement(kind) => one(alloc, element_given(alloc, kind, f)?),
        Family::New => one(alloc, Item::Uninit(i.at)),
        _ => gives_named(alloc, c, family, &i.arg),
    }
}

fn gives_named(alloc: Global, c: &Context, family: Family, arg: &Arg) -> Result<Vec<Item>, CopyEnd>
    ensures { IfOk result (λ all. all.items ≡ words.gives_named c.now family arg.now) }
{
    match family {
        Family::PushConstant => {
            let class = c.class;
            one(
                alloc,
                constant_item(alloc, class.pool().tag(index_of(arg)))?,
            )
        }
        Family::GetStatic | Family::GetField => {
            one(alloc, field_named(alloc, c, index_of(arg))?)
        }
        Family::NewArray => one(alloc, new_array(alloc, arg)?),
        Family::NewReferenceArray => { one(alloc, array_of(alloc, class_named(c, index_of(arg)))?) }
        Family::NewArrays => one(alloc, array(alloc, class_named(c, index_of(arg)))?),
        Family::Cast => one(alloc, class_item(alloc, class_named(c, index_of(arg)))?),
        _ => gives_said(alloc, family),
    }
}

/// What opcodes say alone.
fn gives_said(alloc: Global, family: Family) -> Result<Vec<Item>, CopyEnd>
    ensures { IfOk result (λ all. all.items ≡ words.gives_said family) }
{
    match family {
        Family::PushNull => one(alloc, Item::Null),
        Family::PushInt | Family::Length | Family::InstanceOf => one(alloc, Item::Int),
        Family::PushLong => one(alloc, Item::Long),
        Family::Compute(how) => one(alloc, computed(how)),
        _ => Ok(Vec::new(alloc)),
    }
}
