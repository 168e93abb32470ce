//! What an entry of the pool names (JVMS 4.4.1, 4.4.2).

ghost use Rattle.std.specs.Prelude.{◌≡◌, ◌<◌, [], Some, None, length, option_map, unwrap_or, IfOk, IfSome, ℕ};
ghost use Rattle.std.specs.Option.{option_copied};
ghost use Rattle.jl_pool.specs.Pool.{member_of};
ghost use Rattle.jl_code.specs.References as words;
ghost use Rattle.jl_loads.specs.Worlds.{IsClass, Loaded, class_at};
ghost use Rattle.jl_link.specs.References as references;

use crate::kind::MemberKind;
use jl_code::{class_text, member_class, member_desc, member_name, member_tag};
use jl_loads::Loads;
use jl_prim::{ClassId, Copied, CopyEnd, Name};
use std::alloc::Global;
use std::marker::Model;

/// A member entry of the pool: its kind, the text of its class, and its name and descriptor.
#[derive(Drop)]
pub struct MemberEntry {
    pub kind: MemberKind,
    pub class: Name,
    pub name: Name,
    pub desc: Name,
}

impl Model for MemberEntry {
    ghost use Rattle.jl_link.specs.References.{Named};

    ghost Value = { Named };

    ghost view = { λ e. record { kind = e.kind; class = e.class; wanted = record { name = e.name; desc = e.desc } } };
}

/// The text of the class entry at an index of a class.
pub fn class_text_at(loads: &Loads, d: ClassId, index: u16) -> Result<Name, CopyEnd>
    requires { IsClass loads.now d }
    ensures { (from : Loaded) → class_at loads.now d ≡ Some from → IfOk result (λ text. text ≡ unwrap_or (words.class_text from.declared.pool index) []) }
{
    text_or_empty(loads.allocator(), class_text(loads.class(d).pool(), index))
}

/// The member entry at an index of a class.
pub fn entry_at(loads: &Loads, d: ClassId, index: u16) -> Result<MemberEntry, CopyEnd>
    requires { IsClass loads.now d }
    ensures { (from : Loaded) → class_at loads.now d ≡ Some from → IfOk result (λ e. e ≡ references.entry_at from.declared.pool index) }
{
    let alloc = loads.allocator();
    let pool = loads.class(d).pool();
    Ok(MemberEntry {
        kind: kind_of_tag(member_tag(pool, index).unwrap_or(0)),
        class: text_or_empty(alloc, member_class(pool, index))?,
        name: text_or_empty(alloc, member_name(pool, index))?,
        desc: text_or_empty(alloc, member_desc(pool, index))?,
    })
}

/// The index of the class entry that a member entry has, which is one of a class and no member.
pub fn class_index(loads: &Loads, d: ClassId, index: u16) -> Option<u16>
    requires { IsClass loads.now d }
    ensures parts { (from : Loaded) → class_at loads.now d ≡ Some from → result ≡ option_map (λ (parts : ℕ × ℕ × ℕ). parts.1) (member_of from.declared.pool index) }
    ensures within { (from : Loaded) → class_at loads.now d ≡ Some from → IfSome result (λ k. k < length from.declared.pool) }
    ensures class { (from : Loaded) → class_at loads.now d ≡ Some from → IfSome result (λ k. member_of from.declared.pool k ≡ None) }
{
    match loads.class(d).pool().member(index) {
        Some((_, class, _)) => Some(class),
        None => None,
    }
}

/// The kind that a tag of the pool means.
fn kind_of_tag(tag: u8) -> MemberKind
    ensures { result ≡ references.kind_of_tag tag }
{
    match tag {
        9 => MemberKind::FieldEntry,
        10 => MemberKind::MethodEntry,
        _ => MemberKind::InterfaceMethodEntry,
    }
}

/// An equal text, which is empty where there is none.
fn text_or_empty(alloc: Global, text: Option<&Name>) -> Result<Name, CopyEnd>
    ensures { IfOk result (λ name. name ≡ unwrap_or (option_copied text.entry) []) }
{
    match text {
        Some(text) => text.copy(),
        None => Name::from_text(alloc, ""),
    }
}
