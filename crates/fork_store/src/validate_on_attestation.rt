//! Whether an attestation may count now (fork-choice.md, "validate_on_attestation").

ghost use Rattle.std.specs.Prelude.{◌≡◌, ◌<◌, ◌^◌, true, length, OnOk};
ghost use Rattle.bc_words.specs.Outcome.{GivesExactly};
ghost use Rattle.spec_state.specs.Misc.{compute_epoch_at_slot};
ghost use Rattle.spec_fork_choice.specs.Store.{is_kept, slot_of};
ghost use Rattle.spec_fork_choice.specs.ValidateOnAttestation.{validate_target_epoch_against_current_time, check_time, validate_on_attestation};
ghost use Rattle.fork_store.specs.Arrays.{AreNodesOf};
ghost use Rattle.fork_store.specs.Keepers.{kept_blocks};
ghost use Rattle.fork_store.specs.inside.Votes.{check_voted, check_known, check_vote};

use crate::chain_stepper::ChainStepper;
use crate::get_ancestor::is_behind;
use crate::kept_blocks::{KeptBlocks, block_of};
use crate::slots::current_slot;
use crate::store_fields::StoreFields;
use bc_words::{Refusal, Stop};
use beacon_types::{Attestation, AttestationData};
use block_array::BlockArray;
use hash_tree::Root;
use state_keeper::Keeper;

/// The slot of a kept block, and 0 of another root.
#[tactic(auto, using(crate::proofs::Keepers::slotting))]
fn slot_of(blocks: &KeptBlocks, keeper: &Keeper<ChainStepper>, root: Root) -> u64
    requires few { length blocks.now < 2 ^ 32 }
    requires keeper { kept_blocks keeper.now.blocks ≡ blocks.now }
    ensures { result ≡ slot_of blocks.now root }
{
    match block_of(blocks, keeper, root) {
        Some(block) => block.slot,
        None => 0,
    }
}

/// The epoch of a slot.
fn epoch_at_slot(store: &StoreFields, slot: u64) -> u64
    ensures { result ≡ compute_epoch_at_slot store.now.config.preset slot }
{
    let preset = store.config().preset();
    preset.bounds();
    slot / preset.slots_per_epoch
}

/// Refused where the target is neither of the current epoch nor of the one before.
#[tactic(auto, unfolding(spec_fork_choice::specs::ValidateOnAttestation::validate_target_epoch_against_current_time))]
fn validate_target_epoch_against_current_time(
    store: &StoreFields,
    attestation: &Attestation,
) -> Result<(), Stop>
    ensures { GivesExactly result (validate_target_epoch_against_current_time store.now attestation.now) }
{
    let current_epoch = epoch_at_slot(store, current_slot(store));
    let epoch = attestation.content.target.epoch;
    if epoch != current_epoch && epoch != current_epoch.saturating_sub(1) {
        return Err(Stop::Refused(Refusal::FcTargetTime));
    }
    Ok(())
}

/// The check that an attestation from the wire has besides.
#[tactic(auto, unfolding(spec_fork_choice::specs::ValidateOnAttestation::check_time))]
fn check_time(
    store: &StoreFields,
    attestation: &Attestation,
    is_from_block: bool,
) -> Result<(), Stop>
    ensures { GivesExactly result (check_time store.now attestation.now is_from_block) }
{
    if is_from_block {
        return Ok(());
    }
    validate_target_epoch_against_current_time(store, attestation)
}

/// Refused where the block that is voted for is later than the vote, where the target isn't on its chain, and where the vote's
/// slot isn't over. The target's epoch is that of the vote's slot, and the block is kept: so where it isn't later than the vote, the walk to
/// the target's slot doesn't go below the first kept block.
#[tactic(auto, unfolding(crate::specs::inside::Votes::check_voted), using(crate::proofs::FirstSlots::late_target))]
fn check_voted(
    store: &StoreFields,
    keeper: &Keeper<ChainStepper>,
    array: &BlockArray,
    content: &AttestationData,
) -> Result<(), Stop>
    requires nodes { AreNodesOf store.now.blocks array.now.nodes }
    requires keeper { kept_blocks keeper.now.blocks ≡ store.now.blocks }
    requires epoch { compute_epoch_at_slot store.now.config.preset content.now.slot ≡ content.now.target.epoch }
    requires kept { is_kept store.now.blocks content.now.beacon_block_root ≡ true }
    ensures { GivesExactly result (check_voted store.now content.now) }
{
    store.is_sound();
    if content.slot < slot_of(store.blocks(), keeper, content.beacon_block_root) {
        return Err(Stop::Refused(Refusal::FcBlockAfter));
    }
    if !is_behind(store, array, content.beacon_block_root, content.target) {
        return Err(Stop::Refused(Refusal::FcTargetChain));
    }
    if content.slot >= current_slot(store) {
        return Err(Stop::Refused(Refusal::FcTooEarly));
    }
    Ok(())
}

/// Refused where the target or the block isn't known, and as above.
#[tactic(auto, unfolding(crate::specs::inside::Votes::check_known))]
fn check_known(
    store: &StoreFields,
    keeper: &Keeper<ChainStepper>,
    array: &BlockArray,
    content: &AttestationData,
) -> Result<(), Stop>
    requires nodes { AreNodesOf store.now.blocks array.now.nodes }
    requires keeper { kept_blocks keeper.now.blocks ≡ store.now.blocks }
    requires epoch { compute_epoch_at_slot store.now.config.preset content.now.slot ≡ content.now.target.epoch }
    ensures { GivesExactly result (check_known store.now content.now) }
{
    if !store.is_kept(content.target.root) {
        return Err(Stop::Refused(Refusal::FcTargetUnknown));
    }
    if !store.is_kept(content.beacon_block_root) {
        return Err(Stop::Refused(Refusal::FcBlockUnknown));
    }
    check_voted(store, keeper, array, content)
}

/// Refused where the target's epoch isn't that of the slot, and as above.
#[tactic(auto, unfolding(crate::specs::inside::Votes::check_vote))]
fn check_vote(
    store: &StoreFields,
    keeper: &Keeper<ChainStepper>,
    array: &BlockArray,
    content: &AttestationData,
) -> Result<(), Stop>
    requires nodes { AreNodesOf store.now.blocks array.now.nodes }
    requires keeper { kept_blocks keeper.now.blocks ≡ store.now.blocks }
    ensures epoch { OnOk result (compute_epoch_at_slot store.now.config.preset content.now.slot ≡ content.now.target.epoch) }
    ensures exact { GivesExactly result (check_vote store.now content.now) }
{
    if content.target.epoch != epoch_at_slot(store, content.slot) {
        return Err(Stop::Refused(Refusal::FcSlotEpoch));
    }
    check_known(store, keeper, array, content)
}

/// Refused where an attestation may not count now, in this order: `FcTargetTime`, from the wire alone; `FcSlotEpoch`,
/// `FcTargetUnknown`, `FcBlockUnknown`, `FcBlockAfter`, `FcTargetChain`, `FcTooEarly`.
#[tactic(auto, unfolding(spec_fork_choice::specs::ValidateOnAttestation::validate_on_attestation, crate::specs::inside::Votes::check_vote, crate::specs::inside::Votes::check_known, crate::specs::inside::Votes::check_voted))]
pub fn validate_on_attestation(
    store: &StoreFields,
    keeper: &Keeper<ChainStepper>,
    array: &BlockArray,
    attestation: &Attestation,
    is_from_block: bool,
) -> Result<(), Stop>
    requires nodes { AreNodesOf store.now.blocks array.now.nodes }
    requires keeper { kept_blocks keeper.now.blocks ≡ store.now.blocks }
    ensures epoch { OnOk result (compute_epoch_at_slot store.now.config.preset attestation.now.content.slot ≡ attestation.now.content.target.epoch) }
    ensures exact { GivesExactly result (validate_on_attestation store.now attestation.now is_from_block) }
{
    check_time(store, attestation, is_from_block)?;
    check_vote(store, keeper, array, &attestation.content)
}
