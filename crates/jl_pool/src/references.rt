//! References of entries to others (JVMS 4.4).

ghost use Rattle.std.specs.Prelude.{◌≡◌, not, position, slice_get};
ghost use Rattle.jl_pool.specs.Pool.{is_utf8 as is_utf8_entry, is_class as is_class_entry, is_name_and_type as is_name_and_type_entry, is_member as is_member_entry, refers_rightly as refers_right};

use crate::entry::Entry;

fn is_utf8(entries: &[Entry], i: u16) -> bool
    ensures { result ≡ is_utf8_entry (slice_get entries.now i) }
{
    matches!(entries.get(i as usize), Some(Entry::Utf8(_)))
}

fn is_class(entries: &[Entry], i: u16) -> bool
    ensures { result ≡ is_class_entry (slice_get entries.now i) }
{
    matches!(entries.get(i as usize), Some(Entry::Class(_)))
}

fn is_name_and_type(entries: &[Entry], i: u16) -> bool
    ensures { result ≡ is_name_and_type_entry (slice_get entries.now i) }
{
    matches!(entries.get(i as usize), Some(Entry::NameAndType(_, _)))
}

fn is_member(entries: &[Entry], i: u16) -> bool
    ensures { result ≡ is_member_entry (slice_get entries.now i) }
{
    matches!(
        entries.get(i as usize),
        Some(Entry::Field(_, _) | Entry::Method(_, _) | Entry::InterfaceMethod(_, _))
    )
}

/// Whether each reference of an entry names an entry of its kind.
fn refers_rightly(entries: &[Entry], entry: &Entry) -> bool
    ensures { result ≡ refers_right entries.now entry.now }
{
    match entry {
        Entry::Class(i)
        | Entry::String(i)
        | Entry::MethodType(i)
        | Entry::Module(i)
        | Entry::Package(i) => is_utf8(entries, *i),
        Entry::Field(i, j) | Entry::Method(i, j) | Entry::InterfaceMethod(i, j) => {
            is_class(entries, *i) && is_name_and_type(entries, *j)
        }
        Entry::NameAndType(i, j) => is_utf8(entries, *i) && is_utf8(entries, *j),
        Entry::MethodHandle(_, i) => is_member(entries, *i),
        Entry::Dynamic(_, i) | Entry::InvokeDynamic(_, i) => is_name_and_type(entries, *i),
        _ => true,
    }
}

/// The least index of an entry that refers to an entry of another kind.
pub fn wrong_at(entries: &[Entry]) -> Option<usize>
    ensures { result ≡ position (λ e. not (refers_right entries.now e)) entries.now }
{
    entries.iter().position(|e| !refers_rightly(entries, e))
}
