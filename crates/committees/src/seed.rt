//! The seeds of an epoch, which its shuffles start from.

ghost use Rattle.std.specs.Prelude.{◌≡◌, ◌≤◌, ◌^◌};
ghost use Rattle.committees.specs.Seeds.{seed_from};

use crate::lookup::Lookup;
use hash_tree::Root;
use sha2::{Digest, Sha256};

/// The domain of proposers (beacon-chain.md, "Domain types").
pub const DOMAIN_BEACON_PROPOSER: [u8; 4] = [0, 0, 0, 0];
/// The domain of attesters.
pub const DOMAIN_BEACON_ATTESTER: [u8; 4] = [1, 0, 0, 0];

/// The seed of an epoch, which is at most 2^61, for a domain (beacon-chain.md, `get_seed`).
#[tactic(auto, unfolding(crate::specs::Seeds::seed_from, hash_tree::specs::Merkle::hash, hash_tree::specs::Merkle::uint_to_bytes))]
pub fn seed_of<S: Lookup>(state: &S, epoch: u64, domain: [u8; 4]) -> Root
    requires { epoch ≤ 2 ^ 61 }
    ensures { result ≡ seed_from (S.preset_of state.now) (S.mix_at state.now) epoch domain }
{
    let preset = state.preset();
    preset.bounds();
    let length = preset.epochs_per_historical_vector;
    let mix = state.mix(epoch + length - preset.min_seed_lookahead - 1);
    let mut hasher = Sha256::new();
    hasher.update(&domain);
    hasher.update(&epoch.to_le_bytes());
    hasher.update(&mix);
    hasher.finalize()
}
