//! What operands name in the pool.

ghost use Rattle.std.specs.Prelude.{◌≡◌};
ghost use Rattle.std.specs.Option.{option_copied};
ghost use Rattle.jl_verify.specs.Moves as words;
ghost use Rattle.jl_logic.specs.Order.{is_text};

use crate::context::Context;
use jl_code::{Arg, Instr, class_text, member_class, member_desc, member_name};
use jl_optable::ops;
use jl_prim::Name;
use jl_vtypes::Item;

/// The index of an operand, 0 where it has none.
pub fn index_of(arg: &Arg) -> u16
    ensures { result ≡ words.index_of arg.now }
{
    match arg {
        Arg::Index(index) | Arg::Multi(index, _) => *index,
        _ => 0,
    }
}

fn text_or_none<'a>(text: Option<&'a Name>) -> &'a str
    ensures { result.now ≡ words.text_or_none (option_copied text.entry) }
{
    match text {
        Some(text) => text.as_str(),
        None => "",
    }
}

/// The text of the class at an index.
pub fn class_named<'a>(c: &Context<'a>, index: u16) -> &'a str
    ensures { result.now ≡ words.class_named c.now index }
{
    let class = c.class;
    text_or_none(class_text(class.pool(), index))
}

/// The text of the class in which the member at an index is looked up.
pub fn owner_named<'a>(c: &Context<'a>, index: u16) -> &'a str
    ensures { result.now ≡ words.owner_named c.now index }
{
    let class = c.class;
    text_or_none(member_class(class.pool(), index))
}

/// The descriptor of the member at an index.
pub fn desc_named<'a>(c: &Context<'a>, index: u16) -> &'a str
    ensures { result.now ≡ words.desc_named c.now index }
{
    let class = c.class;
    text_or_none(member_desc(class.pool(), index))
}

/// Whether the member at an index is `<init>`.
pub fn names_init(c: &Context, index: u16) -> bool
    ensures { result ≡ words.names_init c.now index }
{
    let class = c.class;
    text_or_none(member_name(class.pool(), index)) == "<init>"
}

fn instr_at<'a>(c: &Context<'a>, place: u32) -> Option<&'a Instr>
    ensures { option_copied result ≡ words.instr_at c.now place }
{
    let instrs = c.instrs;
    instrs.iter().find(|instr| instr.at == place)
}

/// Whether the instruction at a place is the `new` of exactly a class.
fn is_made_at(c: &Context, place: u32, name: &str) -> bool
    ensures { result ≡ words.is_text_or_none (words.made_at c.now place) name.now }
{
    match instr_at(c, place) {
        Some(instr) if instr.op == ops::NEW => {
            let class = c.class;
            is_text_or_none(class_text(class.pool(), index_of(&instr.arg)), name)
        }
        _ => false,
    }
}

fn is_text_or_none(text: Option<&Name>, name: &str) -> bool
    ensures { result ≡ words.is_text_or_none (option_copied text.entry) name.now }
{
    match text {
        Some(text) => text.as_str() == name,
        None => false,
    }
}

/// Whether an item is an object before the `<init>` of a class: made by a `new` of exactly this class, or `this`, where
/// the class is its own or its superclass.
pub fn is_fresh(c: &Context, name: &str, item: &Item) -> bool
    ensures { result ≡ words.is_fresh c.now name.now item.now }
{
    match item {
        Item::Uninit(place) => is_made_at(c, *place, name),
        Item::UninitThis => is_own(c, name) || is_text_or_none(c.class.super_name(), name),
        _ => false,
    }
}

/// Whether a name is that of the checked class.
pub fn is_own(c: &Context, name: &str) -> bool
    ensures { result ≡ is_text c.now.class.name name.now }
{
    c.class.name().as_str() == name
}
