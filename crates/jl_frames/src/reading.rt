//! Reading the content of a StackMapTable attribute (JVMS 4.7.4).

ghost use Rattle.std.specs.Prelude.{◌≡◌, ◌≤◌, ◌<◌, ◌+◌, ◌*◌, ◌↔◌, List, [], length, IfOk, Ok, Err, Some};
ghost use Rattle.jl_logic.specs.Answers.{Gives, Tells};
ghost use Rattle.jl_reading.specs.Reading.{each_at};
ghost use Rattle.jl_frames.specs.declared.fault.FrameFault.{FrameFault};
ghost use Rattle.jl_frames.specs.declared.frame.Frame.{Frame};
ghost use Rattle.jl_frames.specs.declared.frame.RawItem.{RawItem};
ghost use Rattle.jl_frames.specs.Grammar.{IsFrames};
ghost use Rattle.jl_frames.specs.Fitting.{AreFitting};
ghost use Rattle.jl_frames.specs.Tags.{form_of as form_of_tag};
ghost use Rattle.jl_frames.specs.Reading.{told, item_of as item_behind, item_at as item_read, items_at as items_read, delta_at as delta_read, stated_at as stated_read, full_at as full_read, change_at as change_read, frame_from as frame_read, frame_at, frames_of};

use crate::fault::FrameFault;
use crate::form::{Form, form_of};
use crate::frame::{Change, Frame, RawItem};
use jl_prim::Items;
use jl_reading::{byte_at, u16_at};
use std::alloc::Global;

/// The item with a tag. `place` is the place of the tag, and `at` the one behind it.
#[tactic(auto, unfolding(crate::specs::Reading::item_of, crate::specs::Reading::operand_at))]
fn item_of(place: usize, tag: u8, bytes: &[u8], at: usize) -> Result<(RawItem, usize), FrameFault>
    requires { at ≤ length bytes.now }
    ensures exact { Tells told result (item_behind place tag bytes.now at) }
    ensures within { IfOk result (λ x. x.1 ≤ length bytes.now) }
{
    match tag {
        0 => Ok((RawItem::Top, at)),
        1 => Ok((RawItem::Int, at)),
        2 => Ok((RawItem::Float, at)),
        3 => Ok((RawItem::Double, at)),
        4 => Ok((RawItem::Long, at)),
        5 => Ok((RawItem::Null, at)),
        6 => Ok((RawItem::UninitThis, at)),
        7 => u16_at(bytes, at).map(|(index, next)| (RawItem::Object(index), next)),
        8 => u16_at(bytes, at).map(|(made_at, next)| (RawItem::Uninit(made_at), next)),
        _ => Err(FrameFault::BadItem(place)),
    }
}

/// The item whose tag stands at a place.
#[tactic(auto, unfolding(crate::specs::Reading::item_at))]
fn item_at(bytes: &[u8], at: usize) -> Result<(RawItem, usize), FrameFault>
    requires { at ≤ length bytes.now }
    ensures exact { (done : List RawItem) → Tells told result (item_read bytes.now done at) }
    ensures within { IfOk result (λ x. x.1 ≤ length bytes.now) }
{
    let (tag, next) = byte_at::<FrameFault>(bytes, at)?;
    item_of(at, tag, bytes, next)
}

/// So many items from a place on, behind those that were read before.
fn items_at(
    before: Vec<RawItem>,
    count: u16,
    bytes: &[u8],
    at: usize,
) -> Result<(Vec<RawItem>, usize), FrameFault>
    requires { at ≤ length bytes.now }
    ensures exact { Gives told (λ x. (x.0.items, x.1)) result (items_read before.items count bytes.now at) }
    ensures within { IfOk result (λ x. x.1 ≤ length bytes.now) }
{
    let mut items = before;
    let mut next = at;
    for _ in 0..count {
        let (item, after) = item_at(bytes, next)?;
        items.push(item)?;
        next = after;
    }
    Ok((items, next))
}

/// The difference of the offsets, which is in the tag or behind it.
#[tactic(auto, unfolding(crate::specs::Reading::delta_at), using(crate::proofs::TagLaws::one_least))]
fn delta_at(form: Form, tag: u8, bytes: &[u8], at: usize) -> Result<(u16, usize), FrameFault>
    requires placed { at ≤ length bytes.now }
    requires formed { form_of_tag tag ≡ Some form }
    ensures exact { Tells told result (delta_read form tag bytes.now at) }
    ensures within { IfOk result (λ x. x.1 ≤ length bytes.now) }
{
    match form {
        Form::Same => Ok((tag as u16, at)),
        Form::One => Ok(((tag - 64) as u16, at)),
        Form::OneExtended | Form::Chop | Form::SameExtended | Form::Append | Form::Full => {
            u16_at(bytes, at)
        }
    }
}

/// A change with so many items.
#[tactic(auto, unfolding(crate::specs::Reading::stated_at))]
fn stated_at(
    alloc: Global,
    change: Change,
    count: u16,
    bytes: &[u8],
    at: usize,
) -> Result<((Change, Items<RawItem>), usize), FrameFault>
    requires { at ≤ length bytes.now }
    ensures exact { Tells told result (stated_read change count bytes.now at) }
    ensures within { IfOk result (λ x. x.1 ≤ length bytes.now) }
{
    let (items, next) = items_at(Vec::new(alloc), count, bytes, at)?;
    Ok(((change, Items::from_vec(items)), next))
}

/// The locals and the stack of a full frame, each behind their number.
#[tactic(auto, unfolding(crate::specs::Reading::full_at))]
fn full_at(
    alloc: Global,
    bytes: &[u8],
    at: usize,
) -> Result<((Change, Items<RawItem>), usize), FrameFault>
    requires { at ≤ length bytes.now }
    ensures exact { Tells told result (full_read bytes.now at) }
    ensures within { IfOk result (λ x. x.1 ≤ length bytes.now) }
{
    let (local_count, at) = u16_at::<FrameFault>(bytes, at)?;
    let (locals, at) = items_at(Vec::new(alloc), local_count, bytes, at)?;
    let (stack_count, at) = u16_at::<FrameFault>(bytes, at)?;
    let (items, next) = items_at(locals, stack_count, bytes, at)?;
    Ok(((Change::Full(local_count), Items::from_vec(items)), next))
}

/// The change that a frame makes, with its items, behind the difference of the offsets.
#[tactic(auto, unfolding(crate::specs::Reading::change_at), using(crate::proofs::TagLaws::chop_most, crate::proofs::TagLaws::append_least))]
fn change_at(
    alloc: Global,
    form: Form,
    tag: u8,
    bytes: &[u8],
    at: usize,
) -> Result<((Change, Items<RawItem>), usize), FrameFault>
    requires placed { at ≤ length bytes.now }
    requires formed { form_of_tag tag ≡ Some form }
    ensures exact { Tells told result (change_read form tag bytes.now at) }
    ensures within { IfOk result (λ x. x.1 ≤ length bytes.now) }
{
    match form {
        Form::Same | Form::SameExtended => Ok(((Change::Same, Items::new(alloc)), at)),
        Form::One | Form::OneExtended => stated_at(alloc, Change::One, 1, bytes, at),
        Form::Chop => Ok(((Change::Chop(251 - tag), Items::new(alloc)), at)),
        Form::Append => stated_at(alloc, Change::Append, (tag - 251) as u16, bytes, at),
        Form::Full => full_at(alloc, bytes, at),
    }
}

/// The frame at a place. Its offset is its difference more than `base`.
#[tactic(auto, unfolding(crate::specs::Reading::frame_from))]
fn frame_from(
    alloc: Global,
    base: u32,
    bytes: &[u8],
    at: usize,
) -> Result<(Frame, usize), FrameFault>
    requires placed { at ≤ length bytes.now }
    requires room { base + 65536 < 4294967296 }
    ensures exact { Tells told result (frame_read base bytes.now at) }
    ensures within { IfOk result (λ x. x.1 ≤ length bytes.now) }
    ensures near { IfOk result (λ x. x.0.offset < base + 65536) }
{
    let (tag, next) = byte_at::<FrameFault>(bytes, at)?;
    let Some(form) = form_of(tag) else {
        return Err(FrameFault::BadTag(at));
    };
    let (delta, next) = delta_at(form, tag, bytes, next)?;
    let ((change, items), next) = change_at(alloc, form, tag, bytes, next)?;
    let frame = Frame {
        offset: base + delta as u32,
        change,
        items,
    };
    Ok((frame, next))
}

/// So many frames from a place on, of which the first counts from 0.
fn each_frame(
    alloc: Global,
    count: u16,
    bytes: &[u8],
    at: usize,
) -> Result<(Vec<Frame>, usize), FrameFault>
    requires { at ≤ length bytes.now }
    ensures exact { Gives told (λ x. (x.0.items, x.1)) result (each_at (frame_at bytes.now) [] count at) }
    ensures within { IfOk result (λ x. x.1 ≤ length bytes.now) }
{
    let mut frames = Vec::new(alloc);
    let mut base = 0;
    let mut next = at;
    for _ in 0..count {
        let (frame, after) = frame_from(alloc, base, bytes, next)?;
        base = frame.offset + 1;
        frames.push(frame)?;
        next = after;
    }
    Ok((frames, next))
}

/// The frames in the content of a StackMapTable attribute, in their order (JVMS 4.7.4).
///
/// The first fault from the left is the answer. `Short(at)` is the first number that is not whole, `BadTag(at)`
/// and `BadItem(at)` name the place of the tag, and `Trailing` says that bytes follow the last frame. `NoMemory`
/// says nothing of the bytes.
pub fn read_frames(alloc: Global, bytes: &[u8]) -> Result<Vec<Frame>, FrameFault>
    ensures exact { Gives told (λ fs. fs.items) result (frames_of bytes.now) }
    ensures found { IfOk result (λ fs. IsFrames bytes.now fs.items) }
    ensures only { (fs : List Frame) → IsFrames bytes.now fs → Gives told (λ x. x.items) result (Ok fs) }
    // What follows of frames that are read.
    ensures fitting { IfOk result (λ fs. AreFitting fs.items) }
    // There is a fault exactly where there are no frames.
    ensures one { ((f : FrameFault) × (frames_of bytes.now ≡ Err f)) ↔ ((fs : List Frame) → IsFrames bytes.now fs → ⊥) }
{
    frames(alloc, bytes)
}

#[tactic(auto, unfolding(crate::specs::Reading::frames_of))]
fn frames(alloc: Global, bytes: &[u8]) -> Result<Vec<Frame>, FrameFault>
    ensures { Gives told (λ fs. fs.items) result (frames_of bytes.now) }
{
    let (count, at) = u16_at::<FrameFault>(bytes, 0)?;
    let (frames, end) = each_frame(alloc, count, bytes, at)?;
    if end != bytes.len() {
        return Err(FrameFault::Trailing);
    }
    Ok(frames)
}
