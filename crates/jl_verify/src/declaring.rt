//! The first frame of a method, and the frames that its stack map declares (JVMS 4.7.4, 4.10.1.6).

ghost use Rattle.std.specs.Prelude.{◌≡◌, ◌++◌, ℕ, List, take, drop, IfOk, OnOk, option_map};
ghost use Rattle.std.specs.List.{list_any};
ghost use Rattle.jl_code.specs.declared.code.Instr.{Instr};
ghost use Rattle.jl_code.specs.Sound.{starts};
ghost use Rattle.jl_code.specs.Places.{stands};
ghost use Rattle.jl_code.specs.PlaceTables.{IsIndexOf, index_in};
ghost use Rattle.jl_verify.specs.Frames as frames;
ghost use Rattle.jl_verify.specs.Declaring as words;
ghost use Rattle.jl_verify.specs.Made.{IsMade};

use crate::declared_frame::{DeclaredFrame, Types};
use crate::methods::{MethodItems, method_items};
use crate::type_frame::TypeFrame;
use crate::types::class_item;
use jl_class::{ClassDecl, MethodDecl, is_static};
use jl_code::{PlaceTable, class_text};
use jl_frames::{Change, Frame, RawItem};
use jl_pool::Pool;
use jl_prim::{Copied, CopyEnd, Items};
use jl_vtypes::Item;
use std::alloc::{AllocError, AllocFailed, Global};

/// Why no frames were made.
#[derive(Clone, Copy, Debug, PartialEq, Eq)]
pub enum MadeEnd {
    /// The frame for this place stands at no instruction, or cannot be made.
    Wrong(u32),
    NoMemory,
}

impl From<CopyEnd> for MadeEnd {
    ghost use Rattle.jl_verify.specs.declared.declaring.MadeEnd.TheVariants.{NoMemory};

    ghost from_gives = { λ _ e. e ≡ NoMemory };

    fn from(_e: CopyEnd) -> MadeEnd {
        MadeEnd::NoMemory
    }
}

impl From<AllocError> for MadeEnd {
    ghost use Rattle.jl_verify.specs.declared.declaring.MadeEnd.TheVariants.{NoMemory};

    ghost from_gives = { λ _ e. e ≡ NoMemory };

    fn from(_e: AllocError) -> MadeEnd {
        MadeEnd::NoMemory
    }
}

impl<T: Drop> From<AllocFailed<T>> for MadeEnd {
    ghost use Rattle.jl_verify.specs.declared.declaring.MadeEnd.TheVariants.{NoMemory};

    ghost from_gives = { λ _ e. e ≡ NoMemory };

    fn from(_e: AllocFailed<T>) -> MadeEnd {
        MadeEnd::NoMemory
    }
}

/// Whether a method is `<init>`.
pub fn is_init(method: &MethodDecl) -> bool
    ensures { result ≡ words.is_init method.now }
{
    method.name.as_str() == "<init>"
}

/// The slots of items, from the lowest: a long or a double has another behind it, which is Top.
#[tactic(auto, using(crate::proofs::ItemLists::slots_step))]
fn slots(alloc: Global, items: &[Item]) -> Result<Vec<Item>, CopyEnd>
    ensures { IfOk result (λ all. all.items ≡ frames.slots items.now) }
{
    let mut all = Vec::new(alloc);
    for item in items {
        push_slots(&mut all, item)?;
    }
    Ok(all)
}

fn push_slots(all: &mut Vec<Item>, item: &Item) -> Result<(), CopyEnd>
    ensures { OnOk result (all.new.items ≡ all.old.items ++ frames.slots_of item.now) }
{
    all.push(item.copy()?)?;
    if is_wide(item) {
        all.push(Item::Top)?;
    }
    Ok(())
}

/// Whether an item takes two slots.
pub fn is_wide(item: &Item) -> bool
    ensures { result ≡ frames.is_wide item.now }
{
    matches!(item, Item::Long | Item::Double)
}

fn this_items(alloc: Global, class: &ClassDecl, method: &MethodDecl) -> Result<Vec<Item>, CopyEnd>
    ensures { IfOk result (λ all. all.items ≡ words.this_items class.now method.now) }
{
    let mut all = Vec::new(alloc);
    if is_static(method.flags) {
        return Ok(all);
    }
    if is_init(method) {
        all.push(Item::UninitThis)?;
    } else {
        all.push(Item::Class(class.name().copy()?))?;
    }
    Ok(all)
}

/// What the locals hold where a method begins, where a long is one item.
pub fn first_items(
    alloc: Global,
    class: &ClassDecl,
    method: &MethodDecl,
) -> Result<Vec<Item>, CopyEnd>
    ensures { IfOk result (λ all. all.items ≡ words.first_items class.now method.now) }
{
    let this = this_items(alloc, class, method)?;
    let MethodItems { params, results: _ } = method_items(alloc, method.desc.as_str())?;
    joined(this, params)
}

/// The frame with which a method begins.
pub fn first_frame(
    alloc: Global,
    class: &ClassDecl,
    method: &MethodDecl,
) -> Result<TypeFrame, CopyEnd>
    ensures { IfOk result (λ f. f ≡ words.first_frame class.now method.now) }
{
    let items = first_items(alloc, class, method)?;
    Ok(TypeFrame {
        locals: slots(alloc, &items)?,
        stack: Vec::new(alloc),
        marked: is_init(method),
    })
}

/// The item that a stack map states. None where it is an object of no class.
fn stated_item(alloc: Global, pool: &Pool, raw: &RawItem) -> Result<Option<Item>, CopyEnd>
    ensures { IfOk result (λ item. item ≡ words.stated_item pool.now raw.now) }
{
    Ok(Some(match raw {
        RawItem::Top => Item::Top,
        RawItem::Int => Item::Int,
        RawItem::Float => Item::Float,
        RawItem::Double => Item::Double,
        RawItem::Long => Item::Long,
        RawItem::Null => Item::Null,
        RawItem::UninitThis => Item::UninitThis,
        RawItem::Object(index) => match class_text(pool, *index) {
            Some(text) => class_item(alloc, text.as_str())?,
            None => return Ok(None),
        },
        RawItem::Uninit(made_at) => Item::Uninit(*made_at as u32),
    }))
}

#[tactic(auto, using(crate::proofs::ItemLists::stated_step, crate::proofs::ItemLists::none_stated))]
fn stated_items(alloc: Global, pool: &Pool, raws: &[RawItem]) -> Result<Option<Vec<Item>>, CopyEnd>
    ensures { IfOk result (λ all. option_map (λ v. v.items) all ≡ words.stated_items pool.now raws.now) }
{
    let mut all = Vec::new(alloc);
    for raw in raws {
        match stated_item(alloc, pool, raw)? {
            Some(item) => all.push(item)?,
            None => return Ok(None),
        }
    }
    Ok(Some(all))
}

pub fn copies(alloc: Global, items: &[Item]) -> Result<Vec<Item>, CopyEnd>
    ensures { IfOk result (λ all. all.items ≡ items.now) }
{
    let mut all = Vec::new(alloc);
    for item in items {
        all.push(item.copy()?)?;
    }
    Ok(all)
}

/// The items of both lists.
fn joined(one: Vec<Item>, other: Vec<Item>) -> Result<Vec<Item>, CopyEnd>
    ensures { IfOk result (λ all. all.items ≡ one.items ++ other.items) }
{
    let mut all = one;
    let mut later = other;
    all.append(&mut later)?;
    Ok(all)
}

/// What a change with these items makes of the locals before it.
fn changed_by(
    alloc: Global,
    locals: &[Item],
    change: Change,
    stated: Vec<Item>,
) -> Result<Option<Types>, CopyEnd>
    ensures { IfOk result (λ types. types ≡ words.changed_by locals.now change stated.items) }
{
    let (locals, stack) = match change {
        Change::Same => (copies(alloc, locals)?, Vec::new(alloc)),
        Change::One => (copies(alloc, locals)?, stated),
        Change::Chop(count) => {
            let count = count as usize;
            if locals.len() < count {
                return Ok(None);
            }
            (
                copies(alloc, &locals[..locals.len() - count])?,
                Vec::new(alloc),
            )
        }
        Change::Append => (joined(copies(alloc, locals)?, stated)?, Vec::new(alloc)),
        Change::Full(count) => split(alloc, &stated, count as usize)?,
    };
    Ok(Some(Types {
        locals: Items::from_vec(locals),
        stack: Items::from_vec(stack),
    }))
}

/// The first so many items, and the others.
fn split(alloc: Global, items: &[Item], count: usize) -> Result<(Vec<Item>, Vec<Item>), CopyEnd>
    ensures { IfOk result (λ parts. (parts.0.items ≡ take count items.now) × (parts.1.items ≡ drop count items.now)) }
{
    let count = count.min(items.len());
    Ok((
        copies(alloc, &items[..count])?,
        copies(alloc, &items[count..])?,
    ))
}

fn changed(
    alloc: Global,
    pool: &Pool,
    locals: &[Item],
    stated: &Frame,
) -> Result<Option<Types>, CopyEnd>
    ensures { IfOk result (λ types. types ≡ words.changed pool.now locals.now stated.now) }
{
    match stated_items(alloc, pool, stated.items.as_slice())? {
        Some(items) => changed_by(alloc, locals, stated.change, items),
        None => Ok(None),
    }
}

pub fn is_uninit_this(item: &Item) -> bool
    ensures { result ≡ words.is_uninit_this item.now }
{
    matches!(item, Item::UninitThis)
}

fn has_uninit_this(items: &[Item]) -> bool
    ensures { result ≡ list_any words.is_uninit_this items.now }
{
    items.iter().any(|item| is_uninit_this(item))
}

fn frame_of(alloc: Global, types: &Types) -> Result<TypeFrame, CopyEnd>
    ensures { IfOk result (λ f. f ≡ words.frame_of types.now) }
{
    Ok(TypeFrame {
        locals: slots(alloc, types.locals.as_slice())?,
        stack: slots(alloc, types.stack.as_slice())?,
        marked: has_uninit_this(types.locals.as_slice()),
    })
}

/// The frames that a stack map declares, each made from the locals of the one before it, the first from those of the
/// first frame.
pub fn made(
    alloc: Global,
    pool: &Pool,
    places: &PlaceTable,
    first: Vec<Item>,
    stated: &[Frame],
) -> Result<Vec<DeclaredFrame>, MadeEnd>
    ensures { (instrs : List Instr) → ((pc : ℕ) → IsIndexOf (starts instrs) pc (index_in places.now pc)) → IsMade result (words.made pool.now (stands (starts instrs)) first.items stated.now) }
{
    let mut declared = Vec::new(alloc);
    let mut locals = Items::from_vec(first);
    for frame in stated {
        if places.index_of(frame.offset).is_none() {
            return Err(MadeEnd::Wrong(frame.offset));
        }
        let Some(types) = changed(alloc, pool, locals.as_slice(), frame)? else {
            return Err(MadeEnd::Wrong(frame.offset));
        };
        declared.push(DeclaredFrame {
            offset: frame.offset,
            frame: frame_of(alloc, &types)?,
        })?;
        locals = types.locals;
    }
    Ok(declared)
}
