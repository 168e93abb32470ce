//! The frame after an instruction that applies (JVMS 4.10.1.9).

ghost use Rattle.std.specs.Prelude.{◌≡◌, ◌<◌, ◌++◌, ◌∷◌, [], length, map, Some, IfOk, OnOk};
ghost use Rattle.jl_vtypes.specs.declared.item.Item.{Item};
ghost use Rattle.jl_verify.specs.Frames.{stacked};
ghost use Rattle.jl_verify.specs.Moves as words;
ghost use Rattle.jl_verify.specs.Rows as rows;

use crate::context::Context;
use crate::declaring::{is_uninit_this, is_wide};
use crate::families::family_of;
use crate::family::{Family, ValueKind};
use crate::giving::{gives, local_named};
use crate::naming::{index_of, names_init, owner_named};
use crate::shuffles::shuffled;
use crate::type_frame::TypeFrame;
use crate::wanting::{method_arguments, takes};
use jl_code::Instr;
use jl_prim::{Copied, CopyEnd, Name};
use jl_vtypes::Item;
use std::alloc::Global;

/// A long whose higher slot is at this local is gone.
fn uncut(locals: &mut Vec<Item>, at: usize)
    ensures { locals.new.items ≡ rows.uncut locals.old.items at }
{
    if at > 0 && at <= locals.len() && is_wide(&locals[at - 1]) {
        locals[at - 1] = Item::Top;
    }
}

/// Puts an item into a slot, with Top into the slots below it that were missing.
fn store_slot(locals: &mut Vec<Item>, at: usize, item: Item) -> Result<(), CopyEnd>
    ensures { OnOk result (locals.new.items ≡ rows.stored locals.old.items at (item ∷ [])) }
{
    fill(locals, at)?;
    locals[at] = item;
    Ok(())
}

/// Puts Top into the slots up to this one that are missing.
fn fill(locals: &mut Vec<Item>, at: usize) -> Result<(), CopyEnd>
    ensures same { OnOk result ((item : Item) → rows.stored locals.new.items at (item ∷ []) ≡ rows.stored locals.old.items at (item ∷ [])) }
    ensures long { OnOk result (at < length locals.new.items) }
{
    while locals.len() <= at {
        locals.push(Item::Top)?;
    }
    Ok(())
}

/// Stores an item in a local, and in the next one where it is a long.
fn store(locals: &mut Vec<Item>, at: usize, item: Item) -> Result<(), CopyEnd>
    requires { at < 65536 }
    ensures { OnOk result (locals.new.items ≡ rows.with_local locals.old.items at item) }
{
    uncut(locals, at);
    let wide = is_wide(&item);
    store_slot(locals, at, item)?;
    if wide {
        store_slot(locals, at + 1, Item::Top)?;
    }
    Ok(())
}

/// What is stored of the top of the stack.
fn stored_item(kind: ValueKind, f: &TypeFrame) -> Result<Item, CopyEnd>
    ensures { IfOk result (λ item. item ≡ rows.stored_item kind f.now.stack) }
{
    match kind {
        ValueKind::Int => Ok(Item::Int),
        ValueKind::Long => Ok(Item::Long),
        ValueKind::Reference => f.slot_item(0),
    }
}

/// Puts one item in place of another.
fn replace(items: &mut Vec<Item>, old: &Item, new: &Item) -> Result<(), CopyEnd>
    ensures { OnOk result (items.new.items ≡ map (rows.in_place_of old.now new.now) items.old.items) }
{
    for item in items.iter_mut() {
        change(item, old, new)?;
    }
    Ok(())
}

fn change(item: &mut Item, old: &Item, new: &Item) -> Result<(), CopyEnd>
    ensures { OnOk result (item.new ≡ rows.in_place_of old.now new.now item.old) }
{
    if item.is_same(old) {
        *item = new.copy()?;
    }
    Ok(())
}

/// Puts one item in place of another everywhere in a frame.
fn replace_all(f: TypeFrame, old: &Item, new: &Item) -> Result<TypeFrame, CopyEnd>
    ensures { IfOk result (λ g. g ≡ record f { locals = map (rows.in_place_of old.now new.now) f.locals; stack = map (rows.in_place_of old.now new.now) f.stack }) }
{
    let mut f = f;
    replace(&mut f.locals, old, new)?;
    replace(&mut f.stack, old, new)?;
    Ok(f)
}

/// What an object is when its `<init>` was called.
fn initialized(alloc: Global, c: &Context, receiver: &Item, index: u16) -> Result<Item, CopyEnd>
    ensures { IfOk result (λ item. item ≡ rows.initialized_as c.now receiver.now index) }
{
    if is_uninit_this(receiver) {
        Ok(Item::Class(c.class.name().copy()?))
    } else {
        Ok(Item::Class(Name::from_text(alloc, owner_named(c, index))?))
    }
}

/// The mark goes where `<init>` was called on `this`.
fn unmarked(f: TypeFrame, receiver: &Item) -> TypeFrame
    ensures { result ≡ rows.unmarked_by receiver.now f }
{
    let mut f = f;
    f.marked = f.marked && !is_uninit_this(receiver);
    f
}

/// All copies of the object that `<init>` was called on are initialized.
fn with_initialized(
    alloc: Global,
    c: &Context,
    f: TypeFrame,
    receiver: &Item,
    index: u16,
) -> Result<TypeFrame, CopyEnd>
    ensures { IfOk result (λ g. g ≡ rows.replaced receiver.now (rows.initialized_as c.now receiver.now index) (rows.unmarked_by receiver.now f)) }
{
    let made = initialized(alloc, c, receiver, index)?;
    replace_all(unmarked(f, receiver), receiver, &made)
}

/// A frame without the slots that an instruction takes, where the object that `<init>` is called on is initialized.
fn after_init(alloc: Global, c: &Context, f: TypeFrame, index: u16) -> Result<TypeFrame, CopyEnd>
    ensures { IfOk result (λ g. g ≡ rows.after_init c.now f index) }
{
    let mut f = f;
    let below = method_arguments(alloc, c, index)?.len();
    let receiver = f.slot_item(below)?;
    f.pop(below);
    f.pop(1);
    with_initialized(alloc, c, f, &receiver, index)
}

/// A frame without the slots that an instruction takes, with the local that it stores.
fn without_taken(
    alloc: Global,
    c: &Context,
    f: TypeFrame,
    family: Family,
    i: &Instr,
) -> Result<TypeFrame, CopyEnd>
    ensures { IfOk result (λ g. g ≡ rows.without_taken c.now f family i.now) }
{
    let mut f = f;
    match family {
        Family::InvokeSpecial if names_init(c, index_of(&i.arg)) => {
            return after_init(alloc, c, f, index_of(&i.arg));
        }
        Family::New => return replace_all(f, &Item::Uninit(i.at), &Item::Top),
        Family::Store(kind) => {
            let item = stored_item(kind, &f)?;
            store(&mut f.locals, local_named(i), item)?;
        }
        _ => {}
    }
    f.pop(takes(alloc, c, family, &i.arg)?.len());
    Ok(f)
}

/// The items of these slots of the stack.
fn moved(alloc: Global, f: &TypeFrame, slots: &[usize]) -> Result<Vec<Item>, CopyEnd>
    ensures { IfOk result (λ all. all.items ≡ map (words.item_at f.now.stack) slots.now) }
{
    let mut all = Vec::new(alloc);
    for slot in slots {
        all.push(f.slot_item(*slot)?)?;
    }
    Ok(all)
}

/// Puts slots on the stack, of which the first is to be the top.
fn put_slots(f: TypeFrame, slots: Vec<Item>) -> Result<TypeFrame, CopyEnd>
    ensures { IfOk result (λ g. g ≡ record f { stack = slots.items ++ f.stack }) }
{
    let mut f = f;
    let mut slots = slots;
    while let Some(item) = slots.pop() {
        f.push_slot(item)?;
    }
    Ok(f)
}

/// Puts items on the stack, the last on top.
fn put_items(f: TypeFrame, given: Vec<Item>) -> Result<TypeFrame, CopyEnd>
    ensures { IfOk result (λ g. g ≡ record f { stack = stacked given.items ++ f.stack }) }
{
    let mut f = f;
    for item in given {
        f.push(item)?;
    }
    Ok(f)
}

/// The frame after an instruction of a family.
fn family_after(
    alloc: Global,
    c: &Context,
    f: TypeFrame,
    family: Family,
    i: &Instr,
) -> Result<TypeFrame, CopyEnd>
    ensures { IfOk result (λ g. g ≡ rows.family_after c.now f (Some family) i.now) }
{
    match family {
        Family::Shuffle(how) => {
            let given = moved(alloc, &f, shuffled(how).gives)?;
            put_slots(without_taken(alloc, c, f, family, i)?, given)
        }
        _ => {
            let given = gives(alloc, c, &f, family, i)?;
            put_items(without_taken(alloc, c, f, family, i)?, given)
        }
    }
}

/// The frame after an instruction that applies.
pub fn after(alloc: Global, c: &Context, f: TypeFrame, i: &Instr) -> Result<TypeFrame, CopyEnd>
    ensures { IfOk result (λ g. g ≡ rows.after c.now f i.now) }
{
    match family_of(i.op) {
        Some(family) => family_after(alloc, c, f, family, i),
        None => Ok(f),
    }
}
