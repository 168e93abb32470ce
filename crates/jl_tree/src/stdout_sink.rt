//! The standard output as a sink.

ghost use Rattle.std.specs.Prelude.{◌≡◌, ◌≤◌, length, IfOk};
ghost use Rattle.jl_logic.specs.Counts.{raised, Rose};

use crate::fails::one_more;
use crate::sink::{Sink, SinkFault};
use std::io::{self, Write};

/// Writes to the standard output, and flushes in each write. It tells no content.
#[derive(Drop)]
pub struct StdoutSink<R> {
    rt: R,
    faults: u64,
}

impl<R> StdoutSink<R> {
    /// A sink with no fault so far.
    pub fn new(rt: R) -> StdoutSink<R>
        ensures { result.faults ≡ 0 }
    {
        StdoutSink { rt, faults: 0 }
    }

    /// Counts one more fault.
    fn fail(&mut self)
        ensures same_runtime { self.new.rt ≡ self.old.rt }
        ensures one_more { self.new.faults ≡ raised self.old.faults }
        ensures rose { Rose self.old.faults self.new.faults }
        ensures kept { self.old.faults ≤ self.new.faults }
    {
        self.faults = one_more(self.faults);
    }
}

/// Writes from the front of the piece, and flushes.
fn put<R: Print>(rt: &R, piece: &[u8]) -> io::Result<usize>
    ensures { IfOk result (λ count. count ≤ length piece.now) }
{
    let mut out = io::writer(rt);
    let count = out.write(piece)?;
    out.flush()?;
    Ok(count)
}

impl<R: Print> Sink for StdoutSink<R> {
    ghost use Rattle.std.specs.Prelude.{None, true};

    ghost taken = { λ _. None };

    ghost faults = { λ s. s.faults };

    ghost counts_exactly = { true };

    fn write(&mut self, piece: &[u8]) -> Result<usize, SinkFault> {
        let Ok(count) = put(&self.rt, piece) else {
            self.fail();
            return Err(SinkFault::Failed);
        };
        if count == 0 && !piece.is_empty() {
            self.fail();
        }
        Ok(count)
    }
}
