//! Kinds of values, and what the native of each row takes.

ghost use Rattle.std.specs.Prelude.{◌≡◌};
ghost use Rattle.std.specs.Option.{option_copied};
ghost use Rattle.jl_natives.specs.Values.{has_kind, fit};
ghost use Rattle.jl_natives.specs.Table.{kinds_of, takes};

use crate::plain::Plain;

/// What a native takes at a place, or gives. An int also stands for a char and a boolean.
#[derive(Clone, Copy, Debug, PartialEq, Eq)]
pub enum PlainKind {
    AnInt,
    ALong,
    /// A String that is never null.
    AText,
    TextOrNull,
}

/// Whether the native of this row takes these: its receiver, where it has one, and its arguments.
#[tactic(auto, unfolding(crate::specs::Table::takes))]
pub fn is_taken(row: u16, args: &[Plain]) -> bool
    ensures { result ≡ takes row args.now }
{
    match kinds_taken(row) {
        Some(kinds) => fits(kinds, args),
        None => false,
    }
}

/// The kinds of what the native of this row takes, none where there is no such row.
#[tactic(auto, unfolding(crate::specs::Table::native_of, crate::specs::Table::kinds_of))]
fn kinds_taken(row: u16) -> Option<&'static [PlainKind]>
    ensures { option_copied result ≡ kinds_of row }
{
    use PlainKind::{ALong, AText, AnInt, TextOrNull};
    Some(match row {
        1 | 7 | 8 | 32 => &[AText],
        2 => &[AText, AnInt],
        3 | 5 | 6 | 9 => &[AText, TextOrNull],
        4 => &[AText, AnInt, AnInt],
        10 | 14 | 15 | 16 | 20 => &[AnInt],
        11 | 13 => &[TextOrNull],
        12 | 21 => &[ALong],
        17 | 18 | 19 => &[AnInt, AnInt],
        30 | 31 => &[],
        _ => return None,
    })
}

/// Whether there are as many values as kinds, each of its kind.
fn fits(kinds: &[PlainKind], args: &[Plain]) -> bool
    ensures { result ≡ fit kinds.now args.now }
{
    match kinds {
        [] => args.is_empty(),
        [kind, others @ ..] => match args {
            [] => false,
            [value, rest @ ..] => is_of(*kind, value) && fits(others, rest),
        },
    }
}

fn is_of(kind: PlainKind, value: &Plain) -> bool
    ensures { result ≡ has_kind kind value.now }
{
    match value {
        Plain::Int(_) => kind == PlainKind::AnInt,
        Plain::Long(_) => kind == PlainKind::ALong,
        Plain::Text(_) => kind == PlainKind::AText || kind == PlainKind::TextOrNull,
        Plain::Null => kind == PlainKind::TextOrNull,
        Plain::Nothing => false,
    }
}
