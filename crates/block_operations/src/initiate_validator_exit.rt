//! The beginning of a validator's exit (beacon-chain.md, "initiate_validator_exit").

ghost use Rattle.std.specs.Prelude.{◌≡◌, ◌≤◌, ◌^◌};
ghost use Rattle.bc_words.specs.Outcome.{Changes, GivesExactly, checked_add};
ghost use Rattle.spec_blocks.specs.InitiateValidatorExit.{initiate_validator_exit, exit_queue_epoch, exit_queue_churn};
ghost use Rattle.block_operations.specs.inside.Queue.{queue_end, later};

use crate::compute_activation_exit_epoch::compute_activation_exit_epoch;
use crate::get_validator_churn_limit::churn_limit;
use balance_totals::{current_epoch, validator_at};
use bc_preset::Config;
use bc_preset::constants::FAR_FUTURE_EPOCH;
use bc_words::{Stop, checked_add};
use beacon_state::State;
use beacon_types::Validator;

/// The later of two epochs, the first of which counts only where it is set.
fn later(exit_epoch: u64, epoch: u64) -> u64
    ensures { result ≡ later exit_epoch epoch }
{
    if exit_epoch == FAR_FUTURE_EPOCH {
        return epoch;
    }
    epoch.max(exit_epoch)
}

/// The greatest of all exit epochs that are set, and this one.
#[tactic(auto, using(crate::proofs::Queue::ending))]
pub fn queue_end(state: &State, earliest: u64) -> u64
    ensures { result ≡ queue_end state.now.validators earliest }
{
    let mut epoch = earliest;
    for validator in state.registry().iter() {
        epoch = later(validator.exit_epoch(), epoch);
    }
    epoch
}

/// The law that as many leave at an epoch as the registry has at most. It does nothing when it runs.
fn churn_fits(state: &State, epoch: u64)
    ensures { exit_queue_churn state.now.validators epoch ≤ 2 ^ 40 }
{
    state.preset().bounds();
    let _count = state.validators_len();
}

/// How many validators leave at an epoch.
#[tactic(auto, using(crate::proofs::Queue::counting))]
pub fn exit_queue_churn(state: &State, epoch: u64) -> u64
    ensures { result ≡ exit_queue_churn state.now.validators epoch }
{
    churn_fits(state, epoch);
    let mut count = 0;
    for validator in state.registry().iter() {
        if validator.exit_epoch() == epoch {
            count += 1;
        }
    }
    count
}

/// The epoch that the next validator to leave leaves at. Refused as an overflow exactly where it doesn't fit.
#[tactic(auto, unfolding(spec_blocks::specs::InitiateValidatorExit::exit_queue_epoch, crate::specs::inside::Queue::queue_end))]
fn exit_queue_epoch(state: &State, config: &Config) -> Result<u64, Stop>
    ensures { GivesExactly result (exit_queue_epoch state.now config.now) }
{
    let earliest = compute_activation_exit_epoch(state.preset(), current_epoch(state))?;
    let epoch = queue_end(state, earliest);
    if exit_queue_churn(state, epoch) < churn_limit(state, config) {
        return Ok(epoch);
    }
    checked_add(epoch, 1)
}

/// The epoch from which one who leaves at an epoch may withdraw (beacon-chain.md, `initiate_validator_exit`). Refused as an
/// overflow exactly where it doesn't fit.
pub fn withdrawable_epoch(exit_epoch: u64, config: &Config) -> Result<u64, Stop>
    ensures { GivesExactly result (checked_add exit_epoch config.now.min_validator_withdrawability_delay) }
{
    checked_add(exit_epoch, config.min_validator_withdrawability_delay())
}

/// The validator leaves (beacon-chain.md, `initiate_validator_exit`): its exit epoch is the end of the queue, or the epoch
/// behind it where that is full. Nothing changes where its exit epoch is set already.
///
/// Refused as an overflow exactly where one of the two epochs doesn't fit, and for an index past the registry. After a stop
/// the state is as before. The registry is walked for the queue each time.
#[tactic(auto, unfolding(spec_blocks::specs::InitiateValidatorExit::initiate_validator_exit))]
pub fn initiate_exit(state: &mut State, index: u64, config: &Config) -> Result<(), Stop>
    ensures { Changes result state.old state.new (initiate_validator_exit state.old index config.now) }
{
    let validator = validator_at(state, index)?;
    if validator.exit_epoch != FAR_FUTURE_EPOCH {
        return Ok(());
    }
    let exit_epoch = exit_queue_epoch(state, config)?;
    let withdrawable_epoch = withdrawable_epoch(exit_epoch, config)?;
    let leaving = Validator {
        exit_epoch,
        withdrawable_epoch,
        ..validator
    };
    state.set_validators_at(index, leaving)?;
    Ok(())
}
