//! Assignability of items (JVMS 4.10.1.2).

ghost use Rattle.std.specs.Prelude.{◌≡◌, ◌&&◌, false};
ghost use Rattle.std.specs.Option.{option_copied};
ghost use Rattle.jl_vtypes.specs.Asking.{ComesTo};
ghost use Rattle.jl_vtypes.specs.Unanswered.{no_answer, seen};
ghost use Rattle.jl_vtypes.specs.Assignability as words;
ghost use Rattle.jl_vtypes.specs.Assignability.{goes, goes_to_class, goes_to_array, class_goes, class_asks, type_goes, spelled};

use crate::ends::HierarchyEnd;
use crate::hierarchy::Hierarchy;
use crate::item::Item;
use crate::question::Unanswered;
use jl_names::brackets;
use std::alloc::Global;

/// Whether one item is assignable to another (JVMS 4.10.1.2).
///
/// Only where a class goes to another one than Object is the hierarchy asked: whether the target is an interface, and
/// where it is none, whether the one is a subclass of the other. Arrays of references go by their elements. A question
/// without an answer ends the call with the hierarchy's own end; no other error comes.
pub fn assignable<H: Hierarchy>(
    alloc: Global,
    h: &mut H,
    from: &Item,
    to: &Item,
) -> Result<bool, HierarchyEnd>
    ensures { ComesTo H.step (λ q e. e) (goes from.now to.now) h.old result h.new }
{
    match is_going(alloc, h, from, to) {
        Ok(goes) => Ok(goes),
        Err(unanswered) => Err(unanswered.end),
    }
}

/// As `assignable`, and a question without an answer is told with its first name.
pub fn is_going<'a, H: Hierarchy>(
    alloc: Global,
    h: &mut H,
    from: &'a Item,
    to: &'a Item,
) -> Result<bool, Unanswered<'a>>
    ensures { ComesTo H.step no_answer (goes from.now to.now) h.old (seen result) h.new }
{
    match to {
        Item::Top => Ok(true),
        Item::Class(name) => class_takes(alloc, h, from, name.as_str()),
        Item::Array(desc) => array_takes(alloc, h, from, desc.as_str()),
        _ => Ok(from.is_same(to)),
    }
}

fn class_takes<'a, H: Hierarchy>(
    alloc: Global,
    h: &mut H,
    from: &'a Item,
    to: &'a str,
) -> Result<bool, Unanswered<'a>>
    ensures { ComesTo H.step no_answer (goes_to_class from.now to.now) h.old (seen result) h.new }
{
    match from {
        Item::Null => Ok(true),
        Item::Class(name) => is_class_going(alloc, h, name.as_str(), to),
        Item::Array(_) => Ok(is_above_arrays(to)),
        _ => Ok(false),
    }
}

fn array_takes<'a, H: Hierarchy>(
    alloc: Global,
    h: &mut H,
    from: &'a Item,
    to: &'a str,
) -> Result<bool, Unanswered<'a>>
    ensures { ComesTo H.step no_answer (goes_to_array from.now to.now) h.old (seen result) h.new }
{
    match from {
        Item::Null => Ok(true),
        Item::Array(desc) => is_type_going(alloc, h, desc.as_str(), to),
        _ => Ok(false),
    }
}

/// Whether the type of one descriptor goes to that of another, by the elements of both where both are arrays.
fn is_type_going<'a, H: Hierarchy>(
    alloc: Global,
    h: &mut H,
    from: &'a str,
    to: &'a str,
) -> Result<bool, Unanswered<'a>>
    ensures { ComesTo H.step no_answer (type_goes (spelled from.now) (spelled to.now)) h.old (seen result) h.new }
{
    let common = brackets(from.as_bytes()).min(brackets(to.as_bytes()));
    is_base_going(alloc, h, &from[common..], &to[common..])
}

/// The same where not both are arrays.
fn is_base_going<'a, H: Hierarchy>(
    alloc: Global,
    h: &mut H,
    from: &'a str,
    to: &'a str,
) -> Result<bool, Unanswered<'a>>
    requires { (words.is_array from.now && words.is_array to.now) ≡ false }
    ensures { ComesTo H.step no_answer (type_goes (spelled from.now) (spelled to.now)) h.old (seen result) h.new }
{
    let Some(to_name) = name_in(to) else {
        return Ok(from == to);
    };
    match name_in(from) {
        Some(from_name) => is_class_going(alloc, h, from_name, to_name),
        None => Ok(is_array_going(from, to_name)),
    }
}

fn is_class_going<'a, H: Hierarchy>(
    alloc: Global,
    h: &mut H,
    from: &'a str,
    to: &'a str,
) -> Result<bool, Unanswered<'a>>
    ensures { ComesTo H.step no_answer (class_goes from.now to.now) h.old (seen result) h.new }
{
    if from == to || is_object(to) {
        return Ok(true);
    }
    ask_for(alloc, h, from, to)
}

fn ask_for<'a, H: Hierarchy>(
    alloc: Global,
    h: &mut H,
    from: &'a str,
    to: &'a str,
) -> Result<bool, Unanswered<'a>>
    ensures { ComesTo H.step no_answer (class_asks from.now to.now) h.old (seen result) h.new }
{
    match h.is_interface(alloc, to.as_bytes()) {
        Ok(true) => Ok(true),
        Ok(false) => ask_subclass(alloc, h, from, to),
        Err(end) => Err(Unanswered { name: to, end }),
    }
}

/// Whether the class `from` is the class `to` or one of its subclasses, asked of the hierarchy.
pub fn ask_subclass<'a, H: Hierarchy>(
    alloc: Global,
    h: &mut H,
    from: &'a str,
    to: &str,
) -> Result<bool, Unanswered<'a>>
    ensures { ComesTo H.step no_answer (words.subclass_asks from.now to.now) h.old (seen result) h.new }
{
    match h.is_subclass(alloc, from.as_bytes(), to.as_bytes()) {
        Ok(is_one) => Ok(is_one),
        Err(end) => Err(Unanswered { name: from, end }),
    }
}

/// The name of the class that a descriptor spells, where it spells one that is no array.
fn name_in(desc: &str) -> Option<&str>
    ensures { option_copied result ≡ words.name_in desc.now }
{
    match desc.strip_prefix('L') {
        Some(name) => name.strip_suffix(';'),
        None => None,
    }
}

fn is_array(desc: &str) -> bool
    ensures { result ≡ words.is_array desc.now }
{
    matches!(desc.as_bytes(), [b'[', ..])
}

fn is_array_going(from: &str, to: &str) -> bool
    ensures { result ≡ (words.is_array from.now && words.is_above_arrays to.now) }
{
    is_array(from) && is_above_arrays(to)
}

fn is_above_arrays(name: &str) -> bool
    ensures { result ≡ words.is_above_arrays name.now }
{
    is_object(name) || name == "java/lang/Cloneable" || name == "java/io/Serializable"
}

fn is_object(name: &str) -> bool
    ensures { result ≡ words.is_object name.now }
{
    name == "java/lang/Object"
}
