//! The items of types (JVMS 4.3.2, 4.10.1.2).

ghost use Rattle.std.specs.Prelude.{◌≡◌, ◌++◌, replicate, IfOk};
ghost use Rattle.std.specs.String.{string_bytes};
ghost use Rattle.jl_names.specs.Descriptors.{base_bytes, type_bytes};
ghost use Rattle.std.specs.Option.{option_copied};
ghost use Rattle.jl_vtypes.specs.Assignability.{is_array as spells_array, name_in as name_spelled};
ghost use Rattle.jl_vtypes.specs.declared.item.Item.TheVariants as items;
ghost use Rattle.jl_verify.specs.Declaring as words;
ghost use Rattle.jl_verify.specs.Moves.{element_desc as element_spelled, throwable as thrown};
ghost use Rattle.jl_verify.specs.Cut.{IsCut, IsBaseCut};

use jl_names::{BaseType, FieldType};
use jl_prim::{CopyEnd, Name};
use jl_vtypes::Item;
use std::alloc::Global;

/// The item of a type in a descriptor.
pub fn item_of(alloc: Global, desc: &str, found: &FieldType) -> Result<Item, CopyEnd>
    requires { IsCut desc.now found.now }
    ensures { IfOk result (λ item. item ≡ words.item_of desc.now found.now) }
{
    if found.dims == 0 {
        base_item(alloc, desc, &found.base)
    } else {
        array_item(alloc, desc, found)
    }
}

fn base_item(alloc: Global, desc: &str, base: &BaseType) -> Result<Item, CopyEnd>
    requires { IsBaseCut desc.now base.now }
    ensures { IfOk result (λ item. item ≡ words.base_item desc.now base.now) }
{
    match base {
        BaseType::Prim(letter) => Ok(prim_item(*letter)),
        BaseType::Class(from, to) => Ok(Item::Class(Name::from_text(alloc, &desc[*from..*to])?)),
    }
}

fn prim_item(letter: u8) -> Item
    ensures { result ≡ words.prim_item letter }
{
    match letter {
        b'J' => Item::Long,
        b'F' => Item::Float,
        b'D' => Item::Double,
        _ => Item::Int,
    }
}

fn array_item(alloc: Global, desc: &str, found: &FieldType) -> Result<Item, CopyEnd>
    requires { IsCut desc.now found.now }
    ensures { IfOk result (λ item. item ≡ items.Array (type_bytes desc.now found.now)) }
{
    let text = brackets(alloc, found.dims)?;
    Ok(Item::Array(Name::from_string(with_base(text, desc, &found.base)?)))
}

/// So many `[`.
fn brackets(alloc: Global, count: u8) -> Result<String, CopyEnd>
    ensures { IfOk result (λ text. string_bytes text ≡ replicate count 91) }
{
    let mut text = String::new(alloc);
    for _ in 0..count {
        text.push('[')?;
    }
    Ok(text)
}

fn with_base(text: String, desc: &str, base: &BaseType) -> Result<String, CopyEnd>
    requires { IsBaseCut desc.now base.now }
    ensures { IfOk result (λ whole. string_bytes whole ≡ string_bytes text ++ base_bytes desc.now base.now) }
{
    let mut text = text;
    match base {
        BaseType::Prim(letter) => text.push(*letter as char)?,
        BaseType::Class(from, to) => {
            text.push('L')?;
            text.push_str(&desc[*from..*to])?;
            text.push(';')?;
        }
    }
    Ok(text)
}

/// The item of a class in the pool: its text is a name, or the descriptor of an array.
pub fn class_item(alloc: Global, text: &str) -> Result<Item, CopyEnd>
    ensures { IfOk result (λ item. item ≡ words.class_item text.now) }
{
    let name = Name::from_text(alloc, text)?;
    if is_array(text.as_bytes()) {
        Ok(Item::Array(name))
    } else {
        Ok(Item::Class(name))
    }
}

pub fn is_array(desc: &[u8]) -> bool
    ensures { result ≡ spells_array desc.now }
{
    matches!(desc, [b'[', ..])
}

/// The name in the descriptor of a class.
pub fn name_in(desc: &str) -> Option<&str>
    ensures { option_copied result ≡ name_spelled desc.now }
{
    match desc.strip_prefix('L') {
        Some(name) => name.strip_suffix(';'),
        None => None,
    }
}

/// The descriptor of an array's elements.
pub fn element_desc(desc: &Name) -> &str
    ensures { result.now ≡ element_spelled desc.now }
{
    match desc.as_str().strip_prefix('[') {
        Some(element) => element,
        None => "",
    }
}

/// The class Throwable.
pub fn throwable(alloc: Global) -> Result<Item, CopyEnd>
    ensures { IfOk result (λ item. item ≡ thrown) }
{
    Ok(Item::Class(Name::from_text(alloc, "java/lang/Throwable")?))
}
