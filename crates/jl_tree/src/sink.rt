//! Sinks of bytes.

ghost use Rattle.std.specs.Prelude.{◌≡◌, ◌≤◌, ◌<◌, ℕ, Bool, IsTrue, List, Option, length, IfOk, OnErr, Ok, is_some};
ghost use Rattle.jl_logic.specs.Counts.{Rose};
ghost use Rattle.jl_tree.specs.Bytes.{Takes, faults_written};

use thiserror::Error;

/// Why a sink took nothing.
#[derive(Clone, Copy, Debug, PartialEq, Eq, Drop, Error)]
pub enum SinkFault {
    /// The outside failed. The count of faults rose.
    #[error("the sink failed")]
    Failed,
}

/// What takes bytes.
pub trait Sink {
    /// The bytes taken so far, where it tells them.
    ghost taken: { Self → Option (List ℕ) };

    /// How often it failed. The count never falls, and stands still at the last value of a u64.
    ghost faults: { Self → ℕ };

    /// Whether its count is exact: one fault more with each call that fails or takes nothing of a piece that has
    /// bytes, and with no other.
    ghost counts_exactly: { Bool };

    /// How many bytes of the piece it took, from the front. It takes no memory.
    fn write(&mut self, piece: &[u8]) -> Result<usize, SinkFault>
        // Those bytes were added to the bytes taken. A failure adds none.
        ensures takes { Takes (taken self.old) piece.now result (taken self.new) }
        ensures at_most { IfOk result (λ count. count ≤ length piece.now) }
        ensures counts { faults self.old ≤ faults self.new }
        ensures failed { OnErr result (Rose (faults self.old) (faults self.new)) }
        // A sink that takes none of a piece that has bytes failed too.
        ensures none_taken { result ≡ Ok 0 → 0 < length piece.now → Rose (faults self.old) (faults self.new) }
        ensures exact { IsTrue counts_exactly → faults self.new ≡ faults_written piece.now result (faults self.old) };
}
