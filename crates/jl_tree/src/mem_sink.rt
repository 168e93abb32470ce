//! A sink in memory.

ghost use Rattle.std.specs.Prelude.{◌≡◌, ◌≤◌, ◌<◌, [], length, true, IsTrue, IfOk, OnErr, Ok, Some};
ghost use Rattle.jl_logic.specs.Counts.{Rose};
ghost use Rattle.jl_tree.specs.Bytes.{Takes, faults_written};
ghost use Rattle.jl_tree.specs.Memory.{mem_write, after_write};
ghost use Rattle.jl_tree.specs.declared.mem_sink.MemEnd.TheVariants.{NoMemory};

use crate::fails::{is_failing_call, one_more};
use crate::sink::{Sink, SinkFault};
use jl_prim::Items;
use std::alloc::{AllocError, Global};
use std::marker::Model;
use thiserror::Error;

/// Why a sink in memory was not made.
#[derive(Clone, Copy, Debug, PartialEq, Eq, Drop, Error)]
pub enum MemEnd {
    /// There was no memory for its room.
    #[error("out of memory")]
    NoMemory,
}

impl From<AllocError> for MemEnd {
    ghost from_gives = { λ _ e. e ≡ NoMemory };

    fn from(_e: AllocError) -> MemEnd {
        MemEnd::NoMemory
    }
}

/// A sink that keeps what it takes. It has room for so many bytes, and no more.
#[derive(Drop)]
pub struct MemSink {
    taken: Vec<u8>,
    room: usize,
    fails: Items<u64>,
    calls: u64,
    faults: u64,
}

impl Model for MemSink {
    ghost use Rattle.std.specs.Prelude.{◌≤◌, length};
    ghost use Rattle.std.specs.Vec.{vec_capacity};
    ghost use Rattle.jl_tree.specs.Memory.{MemSinkState};

    ghost Value = { MemSinkState };

    ghost view = { λ s. record { bytes = s.taken.items; room = s.room; fails = s.fails; calls = s.calls; faults = s.faults } };

    ghost invariant = { λ s. (length s.taken.items ≤ s.room) × (s.room ≤ vec_capacity s.taken) };
}

impl MemSink {
    /// An empty sink with room for so many bytes, which are reserved here. The calls of `write` with the
    /// numbers in `fails` fail. They are counted from 1.
    pub fn new(alloc: Global, room: usize, fails: Items<u64>) -> Result<MemSink, MemEnd>
        ensures { IfOk result (λ sink. sink ≡ record { bytes = []; room = room; fails = fails; calls = 0; faults = 0 }) }
    {
        Ok(MemSink {
            taken: Vec::with_capacity(alloc, room)?,
            room,
            fails,
            calls: 0,
            faults: 0,
        })
    }

    /// The bytes that it took.
    pub fn bytes(&self) -> &[u8]
        ensures { result.now ≡ self.now.bytes }
    {
        self.taken.as_slice()
    }
}

impl Sink for MemSink {
    ghost use Rattle.std.specs.Prelude.{Some};

    ghost taken = { λ s. Some s.bytes };

    ghost faults = { λ s. s.faults };

    ghost counts_exactly = { true };

    fn write(&mut self, piece: &[u8]) -> Result<usize, SinkFault>
        ensures answers { result ≡ mem_write self.old piece.now }
        ensures leaves { self.new ≡ after_write self.old piece.now }
        ensures takes { Takes (Some self.old.bytes) piece.now result (Some self.new.bytes) }
        ensures at_most { IfOk result (λ count. count ≤ length piece.now) }
        ensures counts { self.old.faults ≤ self.new.faults }
        ensures failed { OnErr result (Rose self.old.faults self.new.faults) }
        ensures none_taken { result ≡ Ok 0 → 0 < length piece.now → Rose self.old.faults self.new.faults }
        ensures exact { IsTrue true → self.new.faults ≡ faults_written piece.now result self.old.faults }
    {
        let fails = is_failing_call(self.fails.as_slice(), self.calls);
        self.calls = one_more(self.calls);
        if fails || self.room - self.taken.len() < piece.len() {
            self.faults = one_more(self.faults);
            return Err(SinkFault::Failed);
        }
        self.taken.extend_from_slice(piece).unwrap();
        Ok(piece.len())
    }
}
