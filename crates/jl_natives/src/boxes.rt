//! Lists of natives in boxes.

ghost use Rattle.std.specs.Prelude.{◌≡◌, ◌<◌, ◌==◌, map, length, IfSome, IsTrue};
ghost use Rattle.jl_natives.specs.Table.{takes};
ghost use Rattle.jl_natives.specs.Boxes.{place_of, row_at, IsCalled, Asks};

use crate::native::{NativeEnd, NativeOp};
use crate::plain::Plain;
use std::alloc::Global;

/// The first place of a native of this row. It takes no memory.
pub fn find_box(natives: &Vec<Box<dyn NativeOp>>, row: u16) -> Option<usize>
    ensures first { result ≡ place_of row (map (λ b. view b) natives.now.items) }
    ensures within { IfSome result (λ place. place < length natives.now.items) }
    ensures has_row { IfSome result (λ place. row_at (map (λ b. view b) natives.now.items) place ≡ row) }
{
    for (place, native) in natives.iter().enumerate() {
        if is_of(native, row) {
            return Some(place);
        }
    }
    None
}

fn is_of(native: &Box<dyn NativeOp>, row: u16) -> bool
    ensures { result ≡ ((view native.now).row == row) }
{
    native.row() == row
}

/// What the native at a place answers of the receiver, where it has one, and the arguments.
pub fn ask(
    alloc: Global,
    natives: &mut Vec<Box<dyn NativeOp>>,
    place: usize,
    args: &[Plain],
) -> Result<Plain, NativeEnd>
    requires there { place < length natives.old.items }
    // They are of the kinds that its row takes.
    requires kinds { IsTrue (takes (row_at (map (λ b. view b) natives.old.items) place) args.now) }
    // No other native is asked.
    ensures { Asks (map (λ b. view b) natives.old.items) place args.now result (map (λ b. view b) natives.new.items) }
{
    ask_one(alloc, &mut natives[place], args)
}

fn ask_one(
    alloc: Global,
    native: &mut Box<dyn NativeOp>,
    args: &[Plain],
) -> Result<Plain, NativeEnd>
    requires { IsTrue (takes (view native.old).row args.now) }
    ensures { IsCalled (view native.old) args.now result (view native.new) }
{
    native.call(alloc, args)
}
