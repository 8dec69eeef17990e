//! The slashing of validators that cast two votes (beacon-chain.md, "Attester slashings").

ghost use Rattle.std.specs.Prelude.{◌≡◌, ◌==◌, false};
ghost use Rattle.std.specs.List.{list_any};
ghost use Rattle.bc_words.specs.Outcome.{Changes, Moves};
ghost use Rattle.spec_blocks.specs.Checks.{each_of};
ghost use Rattle.spec_blocks.specs.ProcessAttesterSlashing.{in_both, slash_slashable, process_attester_slashing};
ghost use Rattle.block_operations.specs.inside.Slashed.{slashed, slash_in_both};

use crate::is_slashable_validator::is_slashable_validator;
use crate::is_valid_indexed_attestation::is_valid_indexed_attestation;
use crate::slash_validator::slash_in_place;
use balance_totals::{current_epoch, validator_at};
use bc_preset::Config;
use bc_words::{Refusal, Stop};
use beacon_state::State;
use beacon_types::{AttesterSlashing, is_slashable_data};

/// Whether an index is among these.
pub fn is_among(indices: &[u64], index: u64) -> bool
    ensures { result ≡ list_any (λ other. other == index) indices.now }
{
    for other in indices {
        if *other == index {
            return true;
        }
    }
    false
}

/// Slashes the validator with an index where it is slashable, and notes that. It leaves anything in the state after a stop.
#[tactic(auto, unfolding(spec_blocks::specs::ProcessAttesterSlashing::slash_slashable, spec_blocks::specs::ProcessAttesterSlashing::slash_one))]
fn slash_slashable(
    state: &mut State,
    slashed_any: &mut bool,
    index: u64,
    proposer: u64,
    config: &Config,
) -> Result<(), Stop>
    ensures { Moves result (slashed state.new slashed_any.new) (slash_slashable proposer config.now (slashed state.old slashed_any.old) index) }
{
    let validator = validator_at(state, index)?;
    if is_slashable_validator(&validator, current_epoch(state)) {
        slash_in_place(state, index, proposer, config)?;
        *slashed_any = true;
    }
    Ok(())
}

/// Slashes each validator whose index is in both lists where it is slashable, in the order of the first, and notes whether
/// there is one. It leaves anything in the state after a stop.
#[tactic(auto, using(crate::proofs::Each::slashing))]
fn slash_each(
    state: &mut State,
    slashed_any: &mut bool,
    first: &[u64],
    second: &[u64],
    proposer: u64,
    config: &Config,
) -> Result<(), Stop>
    ensures { let step = slash_slashable proposer config.now in
        Moves result (slashed state.new slashed_any.new) (each_of step (slashed state.old slashed_any.old) (in_both first.now second.now)) }
{
    for index in first {
        if !is_among(second, *index) {
            continue;
        }
        slash_slashable(state, slashed_any, *index, proposer, config)?;
    }
    Ok(())
}

/// Slashes each validator whose index is in both lists where it is slashable. Refused where there is none. After a stop the
/// state is as before.
#[tactic(auto, unfolding(crate::specs::inside::Slashed::slash_in_both))]
fn slash_in_both(
    state: &mut State,
    first: &[u64],
    second: &[u64],
    proposer: u64,
    config: &Config,
) -> Result<(), Stop>
    ensures { Changes result state.old state.new (slash_in_both state.old first.now second.now proposer config.now) }
{
    let mut next = state.share()?;
    let mut slashed_any = false;
    slash_each(&mut next, &mut slashed_any, first, second, proposer, config)?;
    if !slashed_any {
        return Err(Stop::Refused(Refusal::AsNone));
    }
    *state = next;
    Ok(())
}

/// Slashes each slashable validator that cast both of two votes that are slashable together, in order of index, for the
/// block's proposer. The signatures aren't checked.
///
/// Refused, in this order: `AsData`; `AsIndices` and `IndexRange` of the first attestation and then of the second; `AsNone`;
/// and `Overflow` where a sum on the way doesn't fit. After a stop the state is as before: its lists are shared first, once
/// for all validators, which copies none.
#[tactic(auto, unfolding(spec_blocks::specs::ProcessAttesterSlashing::process_attester_slashing, crate::specs::inside::Slashed::slash_in_both))]
pub fn process_attester_slashing(
    state: &mut State,
    slashing: &AttesterSlashing,
    proposer: u64,
    config: &Config,
) -> Result<(), Stop>
    ensures { Changes result state.old state.new (process_attester_slashing state.old slashing.now proposer config.now) }
{
    let attestation_1 = &slashing.attestation_1;
    let attestation_2 = &slashing.attestation_2;
    if !is_slashable_data(&attestation_1.content, &attestation_2.content) {
        return Err(Stop::Refused(Refusal::AsData));
    }
    is_valid_indexed_attestation(state, attestation_1)?;
    is_valid_indexed_attestation(state, attestation_2)?;
    slash_in_both(
        state,
        attestation_1.attesting_indices.as_slice(),
        attestation_2.attesting_indices.as_slice(),
        proposer,
        config,
    )
}
