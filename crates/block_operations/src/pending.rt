//! How one more vote comes among those for the two lists of pending attestations.

ghost use Rattle.std.specs.Prelude.{◌≡◌, IfOk, OnOk};
ghost use Rattle.bc_words.specs.Outcome.{Moves};
ghost use Rattle.beacon_types.specs.Containers.{pending_attestation_codec};
ghost use Rattle.beacon_types.specs.Equality.{same_checkpoint};
ghost use Rattle.spec_state.specs.States.{attestations_limit};
ghost use Rattle.block_operations.specs.WithVotes.{with_votes, HasRoom};
ghost use Rattle.block_operations.specs.inside.Pending.{with_current_attested, with_previous_attested, with_attested};
ghost use Rattle.beacon_types.specs.inside.RootedAttestations.{pending_of};

use crate::pending_votes::PendingVotes;
use balance_totals::current_epoch;
use bc_words::{NoMemory, Refusal, Stop};
use beacon_state::State;
use beacon_types::{Attestation, Checkpoint, PendingAttestation, same_checkpoint};
use hash_tree::Root;

/// How many attestations a list may have.
#[tactic(auto, using(bc_preset::proofs::Bounds::preset_bounds))]
fn attestations_limit(state: &State) -> u64
    ensures { result ≡ attestations_limit state.now.preset }
{
    let preset = state.preset();
    preset.bounds();
    preset.max_attestations * preset.slots_per_epoch
}

/// The attestation as it waits in the state.
pub(crate) fn pending_of(
    attestation: &Attestation,
    inclusion_delay: u64,
    proposer_index: u64,
) -> Result<PendingAttestation, NoMemory>
    ensures { IfOk result (λ pending. pending ≡ pending_of attestation.now inclusion_delay proposer_index) }
{
    let aggregation_bits = attestation.aggregation_bits.copy()?;
    Ok(PendingAttestation {
        aggregation_bits,
        content: attestation.content,
        inclusion_delay,
        proposer_index,
    })
}

/// Whether a source is the justified checkpoint of the current epoch.
fn is_current_source(state: &State, source: &Checkpoint) -> bool
    ensures { result ≡ same_checkpoint source.now state.now.current_justified_checkpoint }
{
    same_checkpoint(source, &state.current_justified_checkpoint())
}

/// Puts an attestation, which has this root, among the votes for the current epoch, where its source is right, there is room in the
/// state's list, and somebody attested.
#[tactic(auto, using(crate::proofs::WithVotes::one_more_current), unfolding(crate::specs::inside::Pending::with_current_attested, spec_blocks::specs::ProcessAttestation::with_current_pending, bc_words::specs::Outcome::checked_push, crate::specs::WithVotes::with_votes))]
fn vote_for_current(
    state: &State,
    pending: PendingAttestation,
    root: Root,
    attested: bool,
    votes: &mut PendingVotes,
) -> Result<(), Stop>
    requires root { root ≡ pending_attestation_codec.hash_tree_root pending }
    requires room { HasRoom state.now votes.old }
    ensures step { Moves result (with_votes state.now votes.new) (with_current_attested (with_votes state.now votes.old) pending attested) }
    ensures room { OnOk result (HasRoom state.now votes.new) }
{
    if !is_current_source(state, &pending.content.source) {
        return Err(Stop::Refused(Refusal::AtSource));
    }
    let limit = attestations_limit(state);
    if state.current_epoch_attestations_len() + votes.current_len() >= limit {
        return Err(Stop::Refused(Refusal::ListFull));
    }
    if !attested {
        return Err(Stop::Refused(Refusal::AtEmpty));
    }
    votes.push_current(pending, root)?;
    Ok(())
}

/// Whether a source is the justified checkpoint of the previous epoch.
fn is_previous_source(state: &State, source: &Checkpoint) -> bool
    ensures { result ≡ same_checkpoint source.now state.now.previous_justified_checkpoint }
{
    same_checkpoint(source, &state.previous_justified_checkpoint())
}

/// Puts an attestation, which has this root, among the votes for the previous epoch, where its source is right, there is room in the
/// state's list, and somebody attested.
#[tactic(auto, using(crate::proofs::WithVotes::one_more_previous), unfolding(crate::specs::inside::Pending::with_previous_attested, spec_blocks::specs::ProcessAttestation::with_previous_pending, bc_words::specs::Outcome::checked_push, crate::specs::WithVotes::with_votes))]
fn vote_for_previous(
    state: &State,
    pending: PendingAttestation,
    root: Root,
    attested: bool,
    votes: &mut PendingVotes,
) -> Result<(), Stop>
    requires root { root ≡ pending_attestation_codec.hash_tree_root pending }
    requires room { HasRoom state.now votes.old }
    ensures step { Moves result (with_votes state.now votes.new) (with_previous_attested (with_votes state.now votes.old) pending attested) }
    ensures room { OnOk result (HasRoom state.now votes.new) }
{
    if !is_previous_source(state, &pending.content.source) {
        return Err(Stop::Refused(Refusal::AtSource));
    }
    let limit = attestations_limit(state);
    if state.previous_epoch_attestations_len() + votes.previous_len() >= limit {
        return Err(Stop::Refused(Refusal::ListFull));
    }
    if !attested {
        return Err(Stop::Refused(Refusal::AtEmpty));
    }
    votes.push_previous(pending, root)?;
    Ok(())
}

/// Puts an attestation, which has this root, among the votes for its target's epoch, where its source is right, there is room in the
/// state's list, and somebody attested.
#[tactic(auto, unfolding(crate::specs::inside::Pending::with_attested, crate::specs::inside::Pending::with_current_attested, crate::specs::inside::Pending::with_previous_attested, spec_blocks::specs::ProcessAttestation::with_pending, crate::specs::WithVotes::with_votes, spec_state::specs::Accessors::get_current_epoch))]
pub(crate) fn vote_attested(
    state: &State,
    pending: PendingAttestation,
    root: Root,
    attested: bool,
    votes: &mut PendingVotes,
) -> Result<(), Stop>
    requires root { root ≡ pending_attestation_codec.hash_tree_root pending }
    requires room { HasRoom state.now votes.old }
    ensures step { Moves result (with_votes state.now votes.new) (with_attested (with_votes state.now votes.old) pending attested) }
    ensures room { OnOk result (HasRoom state.now votes.new) }
{
    if pending.content.target.epoch == current_epoch(state) {
        vote_for_current(state, pending, root, attested, votes)
    } else {
        vote_for_previous(state, pending, root, attested, votes)
    }
}
