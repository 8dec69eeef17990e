//! Those who begin to wait for their activation, and those who are ejected.
//!
//! The registry is walked once, and only one who leaves is looked up. Where the exit queue ends, and how many leave there, is
//! counted for the first who leaves and kept on the way, so that no other ejection reads the registry.

ghost use Rattle.std.specs.Prelude.{◌≡◌, ◌<◌, ◌^◌, OnOk, Some, slice_get};
ghost use Rattle.bc_words.specs.Outcome.{Becomes, GivesExactly, Moves, done};
ghost use Rattle.spec_state.specs.Misc.{compute_activation_exit_epoch};
ghost use Rattle.spec_state.specs.Accessors.{get_current_epoch};
ghost use Rattle.spec_blocks.specs.Checks.{each_of};
ghost use Rattle.spec_blocks.specs.InitiateValidatorExit.{initiate_validator_exit};
ghost use Rattle.spec_epochs.specs.Each.{validator_indices};
ghost use Rattle.spec_epochs.specs.ProcessRegistryUpdates.{with_eligibility, eligibility_and_ejection};
ghost use Rattle.epoch_processing.specs.inside.Exits.{earliest_exit, next_exit, with_exit, IsExitQueue, IsKept};

use balance_totals::{current_epoch, is_ejected, may_wait, validator_at};
use bc_preset::Config;
use bc_preset::constants::FAR_FUTURE_EPOCH;
use bc_words::{NoMemory, Stop, checked_add};
use beacon_state::{Entry, State};
use beacon_types::Validator;
use block_operations::{churn_limit, exit_queue_churn, queue_end, withdrawable_epoch};

/// The queue of those who leave.
#[derive(Clone, Copy)]
pub struct ExitQueue {
    /// The epoch at which it ends.
    pub epoch: u64,
    /// How many leave at that epoch.
    pub churn: u64,
    /// How many may.
    pub limit: u64,
}

/// The epoch at which an activation or an exit comes that begins at the state's epoch.
#[tactic(auto, unfolding(spec_state::specs::Misc::compute_activation_exit_epoch, bc_words::specs::Outcome::checked_add, crate::specs::inside::Exits::earliest_exit), using(bc_preset::proofs::Bounds::preset_bounds))]
pub(crate) fn earliest_exit(state: &State) -> u64
    ensures exact { result ≡ earliest_exit state.now }
    ensures published { compute_activation_exit_epoch state.now.preset (get_current_epoch state.now) ≡ done (earliest_exit state.now) }
{
    let epoch = current_epoch(state);
    epoch + 1 + state.preset().max_seed_lookahead
}

/// The exit queue of a state.
fn exit_queue_of(state: &State, config: &Config) -> ExitQueue
    ensures { IsExitQueue state.now config.now result }
{
    let epoch = queue_end(state, earliest_exit(state));
    ExitQueue {
        epoch,
        churn: exit_queue_churn(state, epoch),
        limit: churn_limit(state, config),
    }
}

/// The exit queue of a state, counted where it isn't kept yet.
fn kept_or_counted(kept: Option<ExitQueue>, state: &State, config: &Config) -> ExitQueue
    requires { IsKept state.now config.now kept }
    ensures { IsExitQueue state.now config.now result }
{
    match kept {
        Some(queue) => queue,
        None => exit_queue_of(state, config),
    }
}

/// The epoch that the next one leaves at. Refused as an overflow exactly where it doesn't fit.
#[tactic(auto, unfolding(crate::specs::inside::Exits::next_exit))]
fn next_exit(queue: ExitQueue) -> Result<u64, Stop>
    ensures { GivesExactly result (next_exit queue) }
{
    if queue.churn < queue.limit {
        return Ok(queue.epoch);
    }
    checked_add(queue.epoch, 1)
}

/// The queue with one more, who leaves at an epoch.
#[tactic(auto, unfolding(crate::specs::inside::Exits::with_exit, crate::specs::inside::Exits::lengthened))]
fn with_exit(queue: ExitQueue, exit_epoch: u64) -> ExitQueue
    requires { queue.churn < 2 ^ 60 }
    ensures { result ≡ with_exit queue exit_epoch }
{
    if exit_epoch == FAR_FUTURE_EPOCH {
        return queue;
    }
    if exit_epoch == queue.epoch {
        return ExitQueue {
            churn: queue.churn + 1,
            ..queue
        };
    }
    ExitQueue {
        epoch: exit_epoch,
        churn: 1,
        ..queue
    }
}

/// The validator leaves, as `block_operations::initiate_exit` has it, and the queue is kept.
#[tactic(auto, unfolding(spec_blocks::specs::InitiateValidatorExit::initiate_validator_exit), using(crate::proofs::Exits::next_is, crate::proofs::Exits::churn_few, crate::proofs::Exits::exited, spec_blocks::proofs::Done::item_is))]
fn initiate_exit(
    state: &mut State,
    kept: &mut Option<ExitQueue>,
    index: u64,
    config: &Config,
) -> Result<(), Stop>
    requires { IsKept state.old config.now kept.old }
    ensures exact { Moves result state.new (initiate_validator_exit state.old index config.now) }
    ensures kept { OnOk result (IsKept state.new config.now kept.new) }
{
    state.preset().bounds();
    let _count = state.validators_len();
    let validator = validator_at(state, index)?;
    if validator.exit_epoch != FAR_FUTURE_EPOCH {
        return Ok(());
    }
    let queue = kept_or_counted(*kept, state, config);
    let exit_epoch = next_exit(queue)?;
    let withdrawable_epoch = withdrawable_epoch(exit_epoch, config)?;
    let leaving = Validator {
        exit_epoch,
        withdrawable_epoch,
        ..validator
    };
    state.set_validators_at(index, leaving)?;
    *kept = Some(with_exit(queue, exit_epoch));
    Ok(())
}

/// The validator waits from the next epoch on where it may.
#[tactic(auto, unfolding(spec_epochs::specs::ProcessRegistryUpdates::with_eligibility))]
fn wait(state: &mut State, index: u64, validator: &Entry) -> Result<(), NoMemory>
    requires { slice_get state.old.validators index ≡ Some validator.now }
    ensures { Becomes result state.old state.new (with_eligibility state.old index validator.now) }
{
    if !may_wait(state.preset(), validator) {
        return Ok(());
    }
    let activation_eligibility_epoch = current_epoch(state) + 1;
    let waiting = Validator {
        activation_eligibility_epoch,
        ..validator.validator()
    };
    state.set_validators_at(index, waiting)
}

/// The validator waits where it may, and leaves where it is ejected.
#[tactic(auto, unfolding(spec_epochs::specs::ProcessRegistryUpdates::eligibility_and_ejection, balance_totals::specs::inside::Stirring::is_ejected), using(crate::proofs::Exits::kept_waited))]
fn eligibility_and_ejection(
    state: &mut State,
    kept: &mut Option<ExitQueue>,
    index: u64,
    validator: &Entry,
    config: &Config,
) -> Result<(), Stop>
    requires kept { IsKept state.old config.now kept.old }
    requires validator { slice_get state.old.validators index ≡ Some validator.now }
    ensures exact { Moves result state.new (eligibility_and_ejection config.now state.old index) }
    ensures kept { OnOk result (IsKept state.new config.now kept.new) }
{
    let ejected = is_ejected(validator, current_epoch(state), config);
    wait(state, index, validator)?;
    if ejected {
        initiate_exit(state, kept, index, config)?;
    }
    Ok(())
}

/// Each validator waits where it may, and leaves where it is active with too low an effective balance, in order of index. The
/// registry is walked as it was before, which none who waits or leaves changes for those behind. It leaves anything in the state
/// after a stop.
#[tactic(auto, using(crate::proofs::Passes::steps_begin))]
pub(crate) fn eligibility_and_ejections(state: &mut State, config: &Config) -> Result<(), Stop>
    ensures { Moves result state.new (each_of (eligibility_and_ejection config.now) state.old (validator_indices state.old)) }
{
    let mut kept = None;
    let registry = state.registry().share()?;
    let validators = registry.iter();
    for (index, validator) in validators.enumerate() {
        eligibility_and_ejection(state, &mut kept, index as u64, &validator, config)?;
    }
    Ok(())
}
