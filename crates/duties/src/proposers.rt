//! The proposers of the slots of a state's current epoch.

ghost use Rattle.std.specs.Prelude.{◌≡◌, ◌++◌, ◌<◌, ◌*◌, ◌+◌, ◌^◌};
ghost use Rattle.bc_words.specs.Outcome.{Gives, GivesBy, GivesExactly};
ghost use Rattle.hash_tree.specs.Merkle.{hash, uint_to_bytes};
ghost use Rattle.spec_state.specs.Accessors.{get_active_validator_indices, get_beacon_proposer_index, get_current_epoch, get_seed};
ghost use Rattle.spec_state.specs.Constants.{domain_beacon_proposer};
ghost use Rattle.spec_state.specs.Misc.{compute_epoch_at_slot};
ghost use Rattle.duties.specs.Duties.{at_slot, proposer_duties};

use balance_totals::{active, active_are_indices, current_epoch};
use bc_preset::constants::MAX_PROPOSER_CANDIDATES;
use bc_words::Stop;
use beacon_state::State;
use committees::{DOMAIN_BEACON_PROPOSER, pick_proposer, seed_of};
use hash_tree::Root;
use sha2::{Digest, Sha256};
use std::alloc::Global;

/// Who proposes the block of a slot.
#[derive(Clone, Copy, Debug, PartialEq, Eq)]
pub struct ProposerDuty {
    /// The slot.
    pub slot: u64,
    /// The validator's index.
    pub validator: u64,
}

/// The seed that the proposer of a slot is picked by, from the seed of its epoch.
#[tactic(auto, unfolding(hash_tree::specs::Merkle::hash, hash_tree::specs::Merkle::uint_to_bytes))]
fn slot_seed(epoch_seed: &Root, slot: u64) -> Root
    ensures { result ≡ hash (epoch_seed.now ++ uint_to_bytes slot) }
{
    let mut hasher = Sha256::new();
    hasher.update(epoch_seed);
    hasher.update(&slot.to_le_bytes());
    hasher.finalize()
}

/// The proposer of a slot of the current epoch, of which these are the active list and the seed.
#[tactic(auto, unfolding(spec_state::specs::Accessors::get_beacon_proposer_index, spec_state::specs::Accessors::get_current_epoch, spec_state::specs::Accessors::get_active_validator_indices, spec_state::specs::Accessors::get_randao_mix))]
fn proposer_at(state: &State, active: &[u64], epoch_seed: &Root, slot: u64) -> Result<u64, Stop>
    requires active { active.now ≡ get_active_validator_indices state.now (compute_epoch_at_slot state.now.preset slot) }
    requires seed { epoch_seed.now ≡ get_seed state.now (compute_epoch_at_slot state.now.preset slot) domain_beacon_proposer }
    ensures { GivesExactly result (get_beacon_proposer_index (at_slot state.now slot)) }
{
    let preset = state.preset();
    preset.bounds();
    active_are_indices(state, slot / preset.slots_per_epoch);
    pick_proposer(
        active,
        state,
        &slot_seed(epoch_seed, slot),
        MAX_PROPOSER_CANDIDATES,
    )
}

/// The proposers of the slots of the state's current epoch, in order, whose end fits in 64 bits.
pub fn proposers_of(alloc: Global, state: &State) -> Result<Vec<ProposerDuty>, Stop>
    requires { (get_current_epoch state.now + 1) * state.now.preset.slots_per_epoch < 2 ^ 64 }
    ensures { GivesBy (λ duties. duties.items) result (proposer_duties state.now (get_current_epoch state.now)) }
{
    let epoch = current_epoch(state);
    let seed = seed_of(state, epoch, DOMAIN_BEACON_PROPOSER);
    let active = active(alloc, state, epoch)?;
    let preset = state.preset();
    preset.bounds();
    let slots = preset.slots_per_epoch;
    let mut duties = Vec::new(alloc);
    for slot in epoch * slots..(epoch + 1) * slots {
        let validator = proposer_at(state, &active, &seed, slot)?;
        duties.push(ProposerDuty { slot, validator })?;
    }
    Ok(duties)
}
