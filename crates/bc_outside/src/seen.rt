//! Bytes that went by, kept for contracts alone: they take no room at run time.

ghost use Rattle.std.specs.Prelude.{◌≡◌, ◌≤◌, ◌+◌, ◌++◌, ℕ, List, [], length, map, OnOk, OnErr, vec_len, vec_capacity};

use std::alloc::{AllocError, Global};
use std::snapshot::Snapshot;

/// No byte went by yet.
pub fn nothing_seen(alloc: Global) -> Vec<Snapshot<u8>>
    ensures { map (λ s. s.value) result.items ≡ [] }
{
    Vec::new(alloc)
}

/// These bytes went by. There is room for them.
pub fn see(seen: &mut Vec<Snapshot<u8>>, piece: &[u8])
    requires { vec_len seen.old + length piece.now ≤ vec_capacity seen.old }
    ensures { map (λ s. s.value) seen.new.items ≡ map (λ s. s.value) seen.old.items ++ piece.now }
{
    for byte in piece {
        seen.push_reserved(Snapshot::of(byte));
    }
}
