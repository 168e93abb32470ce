//! What descriptors say, as items.

ghost use Rattle.std.specs.Prelude.{◌≡◌, ◌++◌, ◌∷◌, [], List, ℕ, map, Some, None, IfOk};
ghost use Rattle.std.specs.List.{AllByRecursion};
ghost use Rattle.std.specs.Str.{IsUtf8};
ghost use Rattle.jl_names.specs.declared.types.FieldType.{FieldType};
ghost use Rattle.jl_code.specs.References.{described};
ghost use Rattle.jl_verify.specs.Cut.{IsCut, AreCut};
ghost use Rattle.jl_verify.specs.Declaring as words;
ghost use Rattle.jl_verify.specs.Moves.{result_items, is_field_of};

use crate::types::item_of;
use jl_names::{Descriptor, FieldType, TextFault, descriptor};
use jl_prim::CopyEnd;
use jl_vtypes::Item;
use std::alloc::Global;

/// What a method takes and gives.
#[derive(Debug, Drop)]
pub struct MethodItems {
    pub params: Vec<Item>,
    /// One item, or none where the result is void.
    pub results: Vec<Item>,
}

/// The items of a method's descriptor. Those of a text that is none are none.
pub fn method_items(alloc: Global, desc: &str) -> Result<MethodItems, CopyEnd>
    ensures params { IfOk result (λ m. m.params.items ≡ map (words.item_of desc.now) (words.params_of (described (Some desc.now)))) }
    ensures results { IfOk result (λ m. m.results.items ≡ result_items desc.now (words.result_of (described (Some desc.now)))) }
{
    match descriptor(alloc, desc.as_bytes()) {
        Ok(Descriptor::Method { params, result }) => Ok(MethodItems {
            params: items_of(alloc, desc, params.as_slice())?,
            results: result_of(alloc, desc, &result)?,
        }),
        Ok(Descriptor::Field(_)) | Err(TextFault::BadText(_)) => Ok(MethodItems {
            params: Vec::new(alloc),
            results: Vec::new(alloc),
        }),
        Err(TextFault::NoMemory) => Err(CopyEnd::NoMemory),
    }
}

/// The item of a field's descriptor.
pub fn field_item(alloc: Global, desc: &str) -> Result<Item, CopyEnd>
    ensures { IfOk result (λ item. item ≡ is_field_of desc.now (described (Some desc.now))) }
{
    match descriptor(alloc, desc.as_bytes()) {
        Ok(Descriptor::Field(found)) => item_of(alloc, desc, &found),
        Ok(Descriptor::Method { .. }) | Err(TextFault::BadText(_)) => Ok(Item::Top),
        Err(TextFault::NoMemory) => Err(CopyEnd::NoMemory),
    }
}

fn items_of(alloc: Global, desc: &str, types: &[FieldType]) -> Result<Vec<Item>, CopyEnd>
    requires { AreCut desc.now types.now }
    ensures { IfOk result (λ items. items.items ≡ map (words.item_of desc.now) types.now) }
{
    let mut items = Vec::new(alloc);
    for found in types {
        items.push(item_of(alloc, desc, found)?)?;
    }
    Ok(items)
}

fn result_of(alloc: Global, desc: &str, given: &Option<FieldType>) -> Result<Vec<Item>, CopyEnd>
    requires { (t : FieldType) → given.now ≡ Some t → IsCut desc.now t }
    ensures { IfOk result (λ items. items.items ≡ result_items desc.now given.now) }
{
    let mut items = Vec::new(alloc);
    if let Some(found) = given {
        items.push(item_of(alloc, desc, found)?)?;
    }
    Ok(items)
}
