//! The proposer of a slot (beacon-chain.md, "get_beacon_proposer_index").

ghost use Rattle.std.specs.Prelude.{◌≡◌, ◌++◌};
ghost use Rattle.bc_words.specs.Outcome.{Gives};
ghost use Rattle.hash_tree.specs.Merkle.{hash, uint_to_bytes};
ghost use Rattle.spec_state.specs.Constants.{domain_beacon_proposer};
ghost use Rattle.spec_state.specs.Accessors.{get_current_epoch, get_seed, get_beacon_proposer_index};

use balance_totals::{active, active_are_indices, current_epoch};
use bc_preset::constants::MAX_PROPOSER_CANDIDATES;
use bc_words::Stop;
use beacon_state::State;
use committees::{DOMAIN_BEACON_PROPOSER, pick_proposer, seed_of};
use hash_tree::Root;
use sha2::{Digest, Sha256};
use std::alloc::Global;

/// The seed that the proposer of the state's slot is picked by.
#[tactic(auto, unfolding(hash_tree::specs::Merkle::hash, hash_tree::specs::Merkle::uint_to_bytes))]
fn proposer_seed(state: &State) -> Root
    ensures { result ≡ hash (get_seed state.now (get_current_epoch state.now) domain_beacon_proposer ++ uint_to_bytes state.now.slot) }
{
    let seed = seed_of(state, current_epoch(state), DOMAIN_BEACON_PROPOSER);
    let mut hasher = Sha256::new();
    hasher.update(&seed);
    hasher.update(&state.slot().to_le_bytes());
    hasher.finalize()
}

/// The proposer of the state's slot (beacon-chain.md, `get_beacon_proposer_index`).
///
/// Refused as `NoActive` where nobody is active and as an overflow where a balance is too great to be weighed; limited where
/// none of the candidates that may be tried passes.
#[tactic(auto, unfolding(spec_state::specs::Accessors::get_beacon_proposer_index))]
pub fn get_beacon_proposer_index(alloc: Global, state: &State) -> Result<u64, Stop>
    ensures { Gives result (get_beacon_proposer_index state.now) }
{
    let epoch = current_epoch(state);
    let seed = proposer_seed(state);
    active_are_indices(state, epoch);
    if let Some(kept) = state.active_list(epoch) {
        return pick_proposer(kept, state, &seed, MAX_PROPOSER_CANDIDATES);
    }
    let active = active(alloc, state, epoch)?;
    pick_proposer(&active, state, &seed, MAX_PROPOSER_CANDIDATES)
}
