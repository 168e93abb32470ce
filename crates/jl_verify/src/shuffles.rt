//! Instructions that move slots of the stack, whatever they hold (JVMS 4.10.1.9).

ghost use Rattle.std.specs.Prelude.{◌≡◌, ◌<◌, ◌≤◌, ◌*◌, drop, length};
ghost use Rattle.jl_verify.specs.Moves as words;

use crate::declaring::is_wide;
use crate::family::{Group, Shuffle};
use crate::type_frame::TypeFrame;
use jl_vtypes::Item;

/// The groups of slots that are taken, from the top, and which slots are given, from the top.
#[derive(Clone, Copy, Debug)]
pub struct Moved {
    pub groups: &'static [Group],
    pub gives: &'static [usize],
}

/// What an instruction moves.
pub fn shuffled(how: Shuffle) -> Moved
    ensures moved { words.IsShuffled result (words.shuffled how) }
    ensures few { length result.groups.now < 256 }
{
    use Group::{One, Two};
    let (groups, gives): (&'static [Group], &'static [usize]) = match how {
        Shuffle::Pop => (&[One], &[]),
        Shuffle::Pop2 => (&[Two], &[]),
        Shuffle::Dup => (&[One], &[0, 0]),
        Shuffle::DupX1 => (&[One, One], &[0, 1, 0]),
        Shuffle::DupX2 => (&[One, Two], &[0, 1, 2, 0]),
        Shuffle::Dup2 => (&[Two], &[0, 1, 0, 1]),
        Shuffle::Dup2X1 => (&[Two, One], &[0, 1, 2, 0, 1]),
        Shuffle::Dup2X2 => (&[Two, Two], &[0, 1, 2, 3, 0, 1]),
        Shuffle::Swap => (&[One, One], &[1, 0]),
    };
    Moved { groups, gives }
}

fn group_size(group: Group) -> usize
    ensures { result ≡ words.group_size group }
{
    match group {
        Group::One => 1,
        Group::Two => 2,
    }
}

/// How many slots are in groups, of which there are few.
pub fn slots_in(groups: &[Group]) -> usize
    requires { length groups.now < 256 }
    ensures exact { result ≡ words.slots_in groups.now }
    ensures few { result ≤ 2 * length groups.now }
{
    match groups {
        [] => 0,
        [group, later @ ..] => group_size(*group) + slots_in(later),
    }
}

/// Whether an item is known to be a value of one slot.
fn is_single(item: &Item) -> bool
    ensures { result ≡ words.is_single item.now }
{
    !matches!(item, Item::Top | Item::Long | Item::Double)
}

fn are_two(higher: &Item, lower: &Item) -> bool
    ensures { result ≡ words.are_two higher.now lower.now }
{
    (matches!(higher, Item::Top) && is_wide(lower)) || (is_single(higher) && is_single(lower))
}

/// Whether a group stands below so many slots of the stack.
fn is_group(f: &TypeFrame, depth: usize, group: Group) -> bool
    requires { depth < 65536 }
    ensures { result ≡ words.is_group group (drop depth f.now.stack) }
{
    match (group, f.slot(depth), f.slot(depth + 1)) {
        (Group::One, Some(item), _) => is_single(item),
        (Group::Two, Some(higher), Some(lower)) => are_two(higher, lower),
        _ => false,
    }
}

/// Whether groups are on the top of the stack, one below the other.
pub fn are_groups(f: &TypeFrame, groups: &[Group]) -> bool
    requires { length groups.now < 256 }
    ensures { result ≡ words.are_groups groups.now f.now.stack }
{
    let mut depth = 0;
    for group in groups {
        if !is_group(f, depth, *group) {
            return false;
        }
        depth += group_size(*group);
    }
    true
}
