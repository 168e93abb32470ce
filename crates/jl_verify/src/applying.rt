//! Whether an instruction applies to the frame before it (JVMS 4.10.1.9).

ghost use Rattle.std.specs.Prelude.{◌≡◌, ◌∷◌, [], Some, IfOk};
ghost use Rattle.std.specs.List.{list_any};
ghost use Rattle.std.specs.Option.{option_copied};
ghost use Rattle.jl_logic.specs.Order.{is_text};
ghost use Rattle.jl_vtypes.specs.Asking.{Done};
ghost use Rattle.jl_vtypes.specs.Assignability.{goes, is_same};
ghost use Rattle.jl_vtypes.specs.declared.item.Item.TheVariants as items;
ghost use Rattle.jl_verify.specs.Comes.{Comes};
ghost use Rattle.jl_verify.specs.Moves as words;
ghost use Rattle.jl_verify.specs.Rows as rows;

use crate::asking::goes_to;
use crate::context::Context;
use crate::declaring::is_uninit_this;
use crate::families::family_of;
use crate::family::{Family, ValueKind};
use crate::fault::VerifyFault;
use crate::giving::local_named;
use crate::naming::{index_of, is_fresh, is_own, names_init, owner_named};
use crate::shuffles::{are_groups, shuffled};
use crate::type_frame::TypeFrame;
use crate::types::{class_item, element_desc, is_array, name_in};
use crate::want::{Want, Wanted};
use crate::wanting::{method_gives, takes};
use jl_code::{Arg, Instr, member_tag};
use jl_prim::{Copied, CopyEnd, Name};
use jl_vtypes::{Hierarchy, Item};
use std::alloc::Global;

fn is_object_item(item: &Item) -> bool
    ensures { result ≡ words.is_object_item item.now }
{
    matches!(item, Item::Null | Item::Class(_) | Item::Array(_))
}

fn is_reference(item: &Item) -> bool
    ensures { result ≡ words.is_reference item.now }
{
    matches!(
        item,
        Item::Null | Item::Class(_) | Item::Array(_) | Item::UninitThis | Item::Uninit(_)
    )
}

fn is_array_of(item: &Item, element: &str) -> bool
    ensures { result ≡ words.is_array_with (λ desc. is_text desc element.now) item.now }
{
    match item {
        Item::Null => true,
        Item::Array(desc) => element_desc(desc) == element,
        _ => false,
    }
}

fn is_array_of_references(item: &Item) -> bool
    ensures { result ≡ words.is_array_with words.spells_reference item.now }
{
    match item {
        Item::Null => true,
        Item::Array(desc) => spells_reference(element_desc(desc)),
        _ => false,
    }
}

fn spells_reference(desc: &str) -> bool
    ensures { result ≡ words.spells_reference desc.now }
{
    is_array(desc.as_bytes()) || name_in(desc).is_some()
}

fn is_array_of_letter(item: &Item, letter: u8) -> bool
    ensures { result ≡ words.is_array_with (λ desc. is_text desc (letter ∷ [])) item.now }
{
    match item {
        Item::Null => true,
        Item::Array(desc) => element_desc(desc).as_bytes() == [letter].as_slice(),
        _ => false,
    }
}

/// Whether a slot holds what is wanted, where no class is asked for.
fn has_kind(want: Want, item: &Item) -> bool
    ensures { result ≡ words.has_kind want item.now }
{
    match want {
        Want::Slot => true,
        Want::Int => item.is_same(&Item::Int),
        Want::Long => item.is_same(&Item::Long),
        Want::Half => item.is_same(&Item::Top),
        Want::Reference => is_reference(item),
        Want::Object => is_object_item(item),
        Want::Array => matches!(item, Item::Null | Item::Array(_)),
        Want::References => is_array_of_references(item),
        Want::Bytes => is_array_of(item, "B") || is_array_of(item, "Z"),
        Want::Prims(letter) => is_array_of_letter(item, letter),
    }
}

/// Whether a slot holds what is wanted.
fn fits<H: Hierarchy>(
    alloc: Global,
    h: &mut H,
    c: &Context,
    wanted: &Wanted,
    item: &Item,
) -> Result<bool, VerifyFault>
    ensures { Comes H.step (rows.fits c.now wanted.now item.now) h.old result h.new }
{
    match wanted {
        Wanted::Says(want) => Ok(has_kind(*want, item)),
        Wanted::To(other) => goes_to(alloc, h, item, other),
        Wanted::Owner(name) => owns(alloc, h, c, name, item),
        Wanted::Fresh(name) => Ok(is_fresh(c, name.as_str(), item)),
    }
}

/// Whether an item has the fields of a class.
fn owns<H: Hierarchy>(
    alloc: Global,
    h: &mut H,
    c: &Context,
    name: &Name,
    item: &Item,
) -> Result<bool, VerifyFault>
    ensures { Comes H.step (rows.owns c.now name.now item.now) h.old result h.new }
{
    if is_uninit_this(item) && is_own(c, name.as_str()) {
        return Ok(true);
    }
    let owner = class_item(alloc, name.as_str())?;
    goes_to(alloc, h, item, &owner)
}

/// Whether the slots of a stack hold what is wanted, from the top down.
fn taken<H: Hierarchy>(
    alloc: Global,
    h: &mut H,
    c: &Context,
    wanted: &[Wanted],
    f: &TypeFrame,
) -> Result<bool, VerifyFault>
    ensures { Comes H.step (rows.taken c.now wanted.now f.now.stack) h.old result h.new }
{
    for (depth, one) in wanted.iter().enumerate() {
        let Some(item) = f.slot(depth) else {
            return Ok(false);
        };
        match fits(alloc, h, c, one, item) {
            Ok(true) => {}
            Ok(false) => return Ok(false),
            Err(fault) => return Err(fault),
        }
    }
    Ok(true)
}

fn holds_kind(kind: ValueKind, item: Option<&Item>) -> bool
    ensures { result ≡ rows.holds_kind kind (words.or_top (option_copied item.entry)) }
{
    match (kind, item) {
        (ValueKind::Int, Some(item)) => item.is_same(&Item::Int),
        (ValueKind::Long, Some(item)) => item.is_same(&Item::Long),
        (ValueKind::Reference, Some(item)) => is_reference(item),
        (_, None) => false,
    }
}

fn return_kind(item: &Item) -> ValueKind
    ensures { result ≡ words.return_kind item.now }
{
    match item {
        Item::Int => ValueKind::Int,
        Item::Long => ValueKind::Long,
        _ => ValueKind::Reference,
    }
}

fn is_return_of(kind: ValueKind, results: &[Item]) -> bool
    ensures { result ≡ rows.is_return_of kind results.now }
{
    match results {
        [] => false,
        [one, ..] => is_kind(kind, return_kind(one)),
    }
}

fn is_kind(kind: ValueKind, other: ValueKind) -> bool
    ensures { result ≡ words.is_kind kind other }
{
    match (kind, other) {
        (ValueKind::Int, ValueKind::Int)
        | (ValueKind::Long, ValueKind::Long)
        | (ValueKind::Reference, ValueKind::Reference) => true,
        _ => false,
    }
}

/// Whether an object that a `new` at this place made is on the stack.
fn is_left(f: &TypeFrame, at: u32) -> bool
    ensures { result ≡ list_any (is_same (items.Uninit at)) f.now.stack }
{
    f.has_on_stack(&Item::Uninit(at))
}

/// What an instruction needs besides what it takes.
fn stands(
    alloc: Global,
    c: &Context,
    f: &TypeFrame,
    family: Family,
    i: &Instr,
) -> Result<bool, CopyEnd>
    ensures { IfOk result (λ is. is ≡ rows.stands c.now f.now family i.now) }
{
    match family {
        Family::Load(kind) => Ok(holds_kind(kind, f.local(local_named(i)))),
        Family::Count => Ok(holds_kind(ValueKind::Int, f.local(local_named(i)))),
        Family::Shuffle(how) => Ok(are_groups(f, shuffled(how).groups)),
        Family::Return(kind) => Ok(is_return_of(kind, &method_gives(alloc, c)?)),
        Family::ReturnNothing => Ok(method_gives(alloc, c)?.is_empty()),
        Family::New => Ok(!is_left(f, i.at)),
        _ => Ok(true),
    }
}

/// Whether the method at an index is one of a class, of the checked class, or of an interface that it names.
fn is_near(c: &Context, index: u16) -> bool
    ensures { result ≡ rows.is_near c.now index }
{
    let class = c.class;
    member_tag(class.pool(), index) != Some(11)
        || is_own(c, owner_named(c, index))
        || is_direct(class.interfaces(), owner_named(c, index))
}

fn is_direct(interfaces: &[Name], name: &str) -> bool
    ensures { result ≡ list_any (is_text name.now) interfaces.now }
{
    interfaces
        .iter()
        .any(|interface| name == interface.as_str())
}

/// What an invokespecial asks besides: that of another method than `<init>` goes up from the checked class.
fn special_goes<H: Hierarchy>(
    alloc: Global,
    h: &mut H,
    c: &Context,
    index: u16,
) -> Result<bool, VerifyFault>
    ensures { Comes H.step (rows.special_goes c.now index) h.old result h.new }
{
    if names_init(c, index) {
        return Ok(true);
    }
    let own = Item::Class(c.class.name().copy()?);
    let named = class_item(alloc, owner_named(c, index))?;
    goes_near(alloc, h, &own, &named, is_near(c, index))
}

/// Whether one class goes to another, which is near.
fn goes_near<H: Hierarchy>(
    alloc: Global,
    h: &mut H,
    own: &Item,
    named: &Item,
    near: bool,
) -> Result<bool, VerifyFault>
    ensures { Comes H.step (words.both (goes own.now named.now) (Done near)) h.old result h.new }
{
    match goes_to(alloc, h, own, named) {
        Ok(true) => Ok(near),
        Ok(false) => Ok(false),
        Err(fault) => Err(fault),
    }
}

fn besides<H: Hierarchy>(
    alloc: Global,
    h: &mut H,
    c: &Context,
    family: Family,
    arg: &Arg,
) -> Result<bool, VerifyFault>
    ensures { Comes H.step (rows.besides c.now family arg.now) h.old result h.new }
{
    match family {
        Family::InvokeSpecial => special_goes(alloc, h, c, index_of(arg)),
        _ => Ok(true),
    }
}

fn family_applies<H: Hierarchy>(
    alloc: Global,
    h: &mut H,
    c: &Context,
    f: &TypeFrame,
    family: Family,
    i: &Instr,
) -> Result<bool, VerifyFault>
    ensures { Comes H.step (rows.family_applies c.now f.now (Some family) i.now) h.old result h.new }
{
    if !stands(alloc, c, f, family, i)? {
        return Ok(false);
    }
    let wanted = takes(alloc, c, family, &i.arg)?;
    match taken(alloc, h, c, &wanted, f) {
        Ok(true) => besides(alloc, h, c, family, &i.arg),
        Ok(false) => Ok(false),
        Err(fault) => Err(fault),
    }
}

/// Whether an instruction applies to the frame before it.
pub fn applies<H: Hierarchy>(
    alloc: Global,
    h: &mut H,
    c: &Context,
    f: &TypeFrame,
    i: &Instr,
) -> Result<bool, VerifyFault>
    ensures { Comes H.step (rows.applies c.now f.now i.now) h.old result h.new }
{
    match family_of(i.op) {
        Some(family) => family_applies(alloc, h, c, f, family, i),
        None => Ok(false),
    }
}
