//! The votes of a block, attestation by attestation.

ghost use Rattle.std.specs.Prelude.{◌≡◌, ◌≤◌, ◌^◌, ◌++◌, List, length, map};
ghost use Rattle.forensics.specs.Carried.{Carried, Holds, HasRoomFor};
ghost use Rattle.forensics.specs.inside.BlockVotes.{carried_from};

use crate::spans::{CarriedVotes, Place};
use beacon_types::Attestation;
use hash_tree::Root;

/// Adds the attestations of a block behind the others, where there is room for them. `lists` has the attesters of each.
pub(crate) fn add_votes(
    votes: &mut CarriedVotes,
    which: u8,
    event: u32,
    root: Root,
    attestations: &[Attestation],
    lists: &[Vec<u64>],
)
    requires lists { length lists.now ≡ length attestations.now }
    requires few { length attestations.now ≤ 2 ^ 32 }
    requires room { HasRoomFor votes.old (map (λ l. l.items) lists.now) }
    ensures holds { (before : List Carried) → Holds votes.old before → Holds votes.new (before ++ carried_from which event root 0 attestations.now (map (λ l. l.items) lists.now)) }
    ensures count { length votes.new.spans.spans ≡ length votes.old.spans.spans }
{
    for i in 0..attestations.len() {
        let place = Place {
            which,
            event,
            position: i as u32,
            block_root: root,
        };
        votes.add(place, attestations[i].content, &lists[i]);
    }
}
