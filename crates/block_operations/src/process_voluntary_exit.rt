//! A validator's wish to leave (beacon-chain.md, "Voluntary exits").

ghost use Rattle.bc_words.specs.Outcome.{Changes};
ghost use Rattle.spec_blocks.specs.ProcessVoluntaryExit.{process_voluntary_exit};

use crate::initiate_validator_exit::initiate_exit;
use balance_totals::{current_epoch, is_active_validator, validator_at};
use bc_preset::Config;
use bc_preset::constants::FAR_FUTURE_EPOCH;
use bc_words::{Refusal, Stop, checked_add};
use beacon_state::State;
use beacon_types::SignedVoluntaryExit;

/// Begins the exit that a validator asks for, where it is active, isn't leaving, the exit's epoch has come, and it was active
/// for long enough. The signature isn't checked.
///
/// Refused, in this order: `IndexRange`, `ExInactive`, `ExLeaving`, `ExEarly`, `ExYoung`, and `Overflow` where a sum on the
/// way doesn't fit. After a stop the state is as before.
#[tactic(auto, unfolding(spec_blocks::specs::ProcessVoluntaryExit::process_voluntary_exit))]
pub fn process_voluntary_exit(
    state: &mut State,
    exit: &SignedVoluntaryExit,
    config: &Config,
) -> Result<(), Stop>
    ensures { Changes result state.old state.new (process_voluntary_exit state.old exit.now config.now) }
{
    let index = exit.message.validator_index;
    let validator = validator_at(state, index)?;
    let epoch = current_epoch(state);
    if !is_active_validator(&validator, epoch) {
        return Err(Stop::Refused(Refusal::ExInactive));
    }
    if validator.exit_epoch != FAR_FUTURE_EPOCH {
        return Err(Stop::Refused(Refusal::ExLeaving));
    }
    if epoch < exit.message.epoch {
        return Err(Stop::Refused(Refusal::ExEarly));
    }
    let from = checked_add(validator.activation_epoch, config.shard_committee_period())?;
    if epoch < from {
        return Err(Stop::Refused(Refusal::ExYoung));
    }
    initiate_exit(state, index, config)
}
