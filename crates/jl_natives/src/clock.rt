//! The clocks of the system.

ghost use Rattle.std.specs.Prelude.{◌≡◌, IsTrue};
ghost use Rattle.jl_natives.specs.Boxes.{quiet_view};
ghost use Rattle.jl_natives.specs.Outside.{is_clock};

use crate::count::one_more;
use crate::native::{NativeEnd, NativeOp};
use crate::plain::Plain;
use std::alloc::Global;
use std::marker::Model;
use std::time;

/// `System.currentTimeMillis()` or `System.nanoTime()`. It tells no answers.
#[derive(Drop)]
pub struct Clock<R> {
    rt: R,
    row: u16,
    faults: u64,
}

impl<R> Model for Clock<R> {
    ghost use Rattle.std.specs.Prelude.{None, true, IsTrue};
    ghost use Rattle.jl_natives.specs.Boxes.{View};
    ghost use Rattle.jl_natives.specs.Outside.{is_clock};

    ghost Value = { View };

    ghost view = { λ c. record { row = c.row; answers = None; faults = c.faults; counts_exactly = true } };

    ghost invariant = { λ c. IsTrue (is_clock c.row) };
}

impl<R> Clock<R> {
    /// The clock of this row, with no fault so far.
    pub fn new(rt: R, row: u16) -> Clock<R>
        requires { IsTrue (is_clock row) }
        ensures { result ≡ quiet_view row }
    {
        Clock { rt, row, faults: 0 }
    }
}

impl<R: time::Clock + Drop> NativeOp for Clock<R> {
    ghost view = { λ seen. seen };

    fn row(&self) -> u16 {
        self.row
    }

    /// A time that is no long is a fault.
    fn call(&mut self, _alloc: Global, _args: &[Plain]) -> Result<Plain, NativeEnd> {
        match reading(&self.rt, self.row) {
            Some(time) => Ok(Plain::Long(time)),
            None => {
                self.faults = one_more(self.faults);
                Err(NativeEnd::Failed)
            }
        }
    }
}

/// Milliseconds since 1970, or nanoseconds since some moment.
fn reading<R: time::Clock>(rt: &R, row: u16) -> Option<i64> {
    let time = if row == 30 {
        rt.since_1970().ok()?.as_millis()
    } else {
        rt.monotonic().ok()?.as_nanos()
    };
    i64::try_from(time).ok()
}
