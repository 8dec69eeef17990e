//! Building the lists of a state that was read: the values come from `groups`, the lists go into the state.

ghost use Rattle.std.specs.Prelude.{◌≡◌, ◌≤◌, length, IfOk};
ghost use Rattle.std.specs.List.{AllByRecursion};
ghost use Rattle.bc_preset.specs.Presets.{IsPreset};
ghost use Rattle.ssz_codec.specs.Basic.{uint64, bytes32};
ghost use Rattle.beacon_types.specs.Containers.{validator_codec, eth1_data_codec, pending_attestation_codec};
ghost use Rattle.spec_state.specs.States.{votes_limit, attestations_limit};
ghost use Rattle.state_parts.specs.inside.Lists.{limited_to};

use crate::groups::{attestations_limit_of, votes_limit_of};
use crate::numbers::Numbers;
use crate::results::both;
use crate::validators::Validators;
use crate::values::Values;
use bc_preset::Preset;
use bc_words::NoMemory;
use beacon_types::{Eth1Data, PendingAttestation, Validator};
use hash_tree::Root;
use ssz_codec::Items;

/// The roots of a state in vectors of the preset's lengths.
#[tactic(auto, using(bc_preset::proofs::Bounds::preset_bounds))]
pub fn vectors_built(
    preset: &Preset,
    block_roots: Items<Root>,
    state_roots: Items<Root>,
    randao_mixes: Items<Root>,
) -> Result<(Values<Root>, Values<Root>, Values<Root>), NoMemory>
    requires preset { IsPreset preset.now }
    requires block_roots { (length block_roots ≡ preset.now.slots_per_historical_root) × AllByRecursion bytes32.Within block_roots }
    requires state_roots { (length state_roots ≡ preset.now.slots_per_historical_root) × AllByRecursion bytes32.Within state_roots }
    requires mixes { (length randao_mixes ≡ preset.now.epochs_per_historical_vector) × AllByRecursion bytes32.Within randao_mixes }
    ensures { IfOk result (λ lists. (lists.0 ≡ limited_to preset.now.slots_per_historical_root block_roots) × (lists.1 ≡ limited_to preset.now.slots_per_historical_root state_roots) × (lists.2 ≡ limited_to preset.now.epochs_per_historical_vector randao_mixes)) }
{
    let roots = preset.slots_per_historical_root;
    let of_chain = both(
        Values::from_items(block_roots, roots),
        Values::from_items(state_roots, roots),
    );
    let mixes = Values::from_items(randao_mixes, preset.epochs_per_historical_vector);
    let ((block_roots, state_roots), mixes) = both(of_chain, mixes)?;
    Ok((block_roots, state_roots, mixes))
}

/// The registry of a state, its balances and the slashed ones, of which those have the preset's limits.
#[tactic(auto, using(bc_preset::proofs::Bounds::preset_bounds))]
pub fn registry_built(
    preset: &Preset,
    validators: Items<Validator>,
    balances: Items<u64>,
    slashings: Items<u64>,
) -> Result<(Validators, Numbers, Numbers), NoMemory>
    requires preset { IsPreset preset.now }
    requires validators { (length validators ≤ preset.now.validator_registry_limit) × AllByRecursion validator_codec.Within validators }
    requires balances { (length balances ≤ preset.now.validator_registry_limit) × AllByRecursion uint64.Within balances }
    requires slashings { (length slashings ≡ preset.now.epochs_per_slashings_vector) × AllByRecursion uint64.Within slashings }
    ensures { IfOk result (λ lists. (lists.0 ≡ validators) × (lists.1 ≡ limited_to preset.now.validator_registry_limit balances) × (lists.2 ≡ limited_to preset.now.epochs_per_slashings_vector slashings)) }
{
    let limit = preset.validator_registry_limit;
    let validators = Validators::from_items(validators);
    let amounts = both(
        Numbers::from_items(balances, limit),
        Numbers::from_items(slashings, preset.epochs_per_slashings_vector),
    );
    let (validators, (balances, slashings)) = both(validators, amounts)?;
    Ok((validators, balances, slashings))
}

/// The older roots of a state and the votes of its period, with the preset's limits.
#[tactic(auto, using(bc_preset::proofs::Bounds::preset_bounds))]
pub fn lists_built(
    preset: &Preset,
    historical_roots: Items<Root>,
    eth1_data_votes: Items<Eth1Data>,
) -> Result<(Values<Root>, Values<Eth1Data>), NoMemory>
    requires preset { IsPreset preset.now }
    requires roots { (length historical_roots ≤ preset.now.historical_roots_limit) × AllByRecursion bytes32.Within historical_roots }
    requires votes { (length eth1_data_votes ≤ votes_limit preset.now) × AllByRecursion eth1_data_codec.Within eth1_data_votes }
    ensures { IfOk result (λ lists. (lists.0 ≡ limited_to preset.now.historical_roots_limit historical_roots) × (lists.1 ≡ limited_to (votes_limit preset.now) eth1_data_votes)) }
{
    both(
        Values::from_items(historical_roots, preset.historical_roots_limit),
        Values::from_items(eth1_data_votes, votes_limit_of(preset)),
    )
}

/// The pending attestations of a state, with the preset's limits.
#[tactic(auto, using(bc_preset::proofs::Bounds::preset_bounds))]
pub fn pending_built(
    preset: &Preset,
    previous: Items<PendingAttestation>,
    current: Items<PendingAttestation>,
) -> Result<(Values<PendingAttestation>, Values<PendingAttestation>), NoMemory>
    requires preset { IsPreset preset.now }
    requires previous { (length previous ≤ attestations_limit preset.now) × AllByRecursion pending_attestation_codec.Within previous }
    requires current { (length current ≤ attestations_limit preset.now) × AllByRecursion pending_attestation_codec.Within current }
    ensures { IfOk result (λ lists. (lists.0 ≡ limited_to (attestations_limit preset.now) previous) × (lists.1 ≡ limited_to (attestations_limit preset.now) current)) }
{
    let limit = attestations_limit_of(preset);
    both(
        Values::from_items(previous, limit),
        Values::from_items(current, limit),
    )
}
