//! A sink that keeps in memory what is written. It tells everything, and fails where it is told to.

ghost use Rattle.std.specs.Prelude.{◌≡◌, ◌<◌, ◌≤◌, ◌^◌, ℕ, true, length, Some};
ghost use Rattle.bc_outside.specs.Calls.{FailsOnlyBy, SinkKeeps, Writes};
ghost use Rattle.bc_outside.specs.Memory.{MemoryBytes, sink_told_by, unwritten, WritesIn};

use crate::memory_shelf::is_listed;
use crate::{Sink, Trouble};
use std::alloc::Global;
use std::marker::Model;

/// Takes bytes into memory.
#[derive(Drop)]
pub struct MemorySink {
    written: Vec<u8>,
    // The numbers of the calls that are to fail, where calls count from 1.
    failing: Vec<u64>,
    // How many bytes a call takes at most.
    greatest: usize,
    calls: u64,
    faults: u64,
}

impl Model for MemorySink {
    ghost Value = { MemoryBytes };

    ghost view = { λ sink. record {
      written = sink.written.items;
      failing = sink.failing.items;
      greatest = sink.greatest;
      calls = sink.calls;
      faults = sink.faults;
    } };

    ghost invariant = { λ sink. 1 ≤ sink.greatest };
}

impl MemorySink {
    /// A sink to which nothing is written yet. The calls with these numbers fail, where calls count from 1, and a call
    /// takes at most `greatest` bytes.
    pub fn new(alloc: Global, failing: Vec<u64>, greatest: usize) -> Self
        requires { 1 ≤ greatest }
        ensures { result ≡ unwritten failing.items greatest }
    {
        MemorySink {
            written: Vec::new(alloc),
            failing,
            greatest,
            calls: 0,
            faults: 0,
        }
    }

    /// All that was written.
    pub fn written(&self) -> &[u8]
        ensures { result.now ≡ self.now.written }
    {
        &self.written
    }

    // Writes from the front of a piece.
    fn write_some(&mut self, piece: &[u8]) -> Result<usize, Trouble>
        ensures exact { WritesIn piece.now result self.old self.new }
        ensures fits { self.old.faults < 2 ^ 64 }
        ensures greatest { 1 ≤ self.old.greatest }
    {
        let _faults = self.faults;
        let call = self.calls.saturating_add(1);
        if is_listed(&self.failing, call) {
            self.calls = call;
            self.faults = self.faults.saturating_add(1);
            return Err(Trouble::Failed);
        }
        let n = self.greatest.min(piece.len());
        match self.written.extend_from_slice(&piece[..n]) {
            Ok(()) => {
                self.calls = call;
                Ok(n)
            }
            Err(_refused) => Err(Trouble::NoMemory),
        }
    }
}

impl Sink for MemorySink {
    ghost told = { sink_told_by };

    fn write(&mut self, piece: &[u8]) -> Result<usize, Trouble>
        requires { 0 < length piece.now }
        ensures exact { WritesIn piece.now result self.old self.new }
        ensures writes { Writes piece.now result (sink_told_by self.old) (sink_told_by self.new) }
        ensures causes { FailsOnlyBy result self.old.faults self.new.faults }
        ensures keeps { SinkKeeps (sink_told_by self.old) (sink_told_by self.new) }
    {
        self.write_some(piece)
    }
}
