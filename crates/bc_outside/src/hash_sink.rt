//! A sink that keeps the digest of what is written, and not the bytes.

ghost use Rattle.std.specs.Prelude.{◌≡◌, ◌<◌, ◌++◌, [], length, IfOk, OnErr};
ghost use Rattle.sha2.specs.Sha256.{sha256};
ghost use Rattle.bc_outside.specs.Calls.{FailsOnlyBy, SinkKeeps, Writes};
ghost use Rattle.bc_outside.specs.Memory.{hash_told};

use crate::seen::{nothing_seen, see};
use crate::{Sink, Trouble};
use sha2::{Digest, Sha256};
use std::alloc::{AllocError, Global};
use std::marker::Model;
use std::snapshot::Snapshot;

/// Takes bytes into a digest, in place of another sink, which hears where the head is as if they were written there.
#[derive(Drop)]
pub struct HashSink<'a, O: Sink> {
    hasher: Sha256,
    taken: Vec<Snapshot<u8>>,
    out: &'a O,
}

impl<'a, O: Sink> Model for HashSink<'a, O> {
    ghost use Rattle.std.specs.Prelude.{ℕ, List, map};
    ghost use Rattle.sha2.specs.Hashers.{Holds256};

    ghost Value = { List ℕ };

    ghost view = { λ sink. map (λ s. s.value) sink.taken.items };

    ghost invariant = { λ sink. Holds256 sink.hasher (map (λ s. s.value) sink.taken.items) };
}

impl<'a, O: Sink> HashSink<'a, O> {
    /// A sink to which nothing is written yet, in place of another one.
    pub fn new(alloc: Global, out: &'a O) -> Self
        ensures { result ≡ [] }
    {
        HashSink {
            hasher: Sha256::new(),
            taken: nothing_seen(alloc),
            out,
        }
    }

    /// SHA-256 of all that was written.
    pub fn digest(self) -> [u8; 32]
        ensures { result ≡ sha256 self.entry }
    {
        let HashSink { hasher, .. } = self;
        hasher.finalize()
    }

    // Takes a piece, unless memory runs out.
    fn take(&mut self, piece: &[u8]) -> Result<(), AllocError>
        ensures taken { IfOk result (λ _. self.new ≡ self.old ++ piece.now) }
        ensures none { OnErr result (self.new ≡ self.old) }
    {
        self.taken.reserve(piece.len())?;
        see(&mut self.taken, piece);
        self.hasher.update(piece);
        Ok(())
    }
}

impl<'a, O: Sink> Sink for HashSink<'a, O> {
    ghost told = { hash_told };

    fn write(&mut self, piece: &[u8]) -> Result<usize, Trouble>
        requires { 0 < length piece.now }
        ensures writes { Writes piece.now result (hash_told self.old) (hash_told self.new) }
        ensures causes { FailsOnlyBy result (hash_told self.old).faults (hash_told self.new).faults }
        ensures keeps { SinkKeeps (hash_told self.old) (hash_told self.new) }
    {
        match self.take(piece) {
            Ok(()) => Ok(piece.len()),
            Err(_refused) => Err(Trouble::NoMemory),
        }
    }

    fn asks(&self) -> bool {
        self.out.asks()
    }

    fn hear(&self, slot: u64) {
        self.out.hear(slot);
    }
}
