//! The slashing of a validator (beacon-chain.md, "slash_validator").

ghost use Rattle.std.specs.Prelude.{◌≡◌, ◌%◌};
ghost use Rattle.bc_words.specs.Outcome.{Changes, Moves};
ghost use Rattle.spec_blocks.specs.SlashValidator.{mark_slashed, slash_validator};
ghost use Rattle.block_operations.specs.inside.Paid.{paid};

use crate::decrease_balance::decrease_balance;
use crate::increase_balance::increase_balance;
use crate::initiate_validator_exit::initiate_exit;
use crate::read::slashings_at;
use balance_totals::{current_epoch, validator_at};
use bc_preset::Config;
use bc_words::{Stop, checked_add, checked_sub};
use beacon_state::State;
use beacon_types::Validator;

/// Where the balance that was slashed in an epoch stands among the latest ones.
#[tactic(auto, using(bc_preset::proofs::Bounds::preset_bounds))]
fn slashings_index(state: &State, epoch: u64) -> u64
    ensures { result ≡ epoch % state.now.preset.epochs_per_slashings_vector }
{
    epoch % state.preset().epochs_per_slashings_vector
}

/// The validator leaves and is slashed, and what was slashed in this epoch grows.
#[tactic(auto, unfolding(spec_blocks::specs::SlashValidator::mark_slashed))]
fn mark_slashed(state: &mut State, index: u64, config: &Config) -> Result<(), Stop>
    ensures { Moves result state.new (mark_slashed state.old index config.now) }
{
    let epoch = current_epoch(state);
    initiate_exit(state, index, config)?;
    let validator = validator_at(state, index)?;
    let withdrawable_epoch = checked_add(epoch, state.preset().epochs_per_slashings_vector)?;
    let place = slashings_index(state, epoch);
    let before = slashings_at(state, place)?;
    let slashings = checked_add(before, validator.effective_balance)?;
    let slashed = Validator {
        slashed: true,
        withdrawable_epoch: validator.withdrawable_epoch.max(withdrawable_epoch),
        ..validator
    };
    state.set_validators_at(index, slashed)?;
    state.set_slashings_at(place, slashings)?;
    Ok(())
}

/// The validator loses a part of its effective balance, and the proposer gains one. It leaves anything in the state after a stop.
#[tactic(auto, unfolding(crate::specs::inside::Paid::paid), using(bc_preset::proofs::Bounds::preset_bounds))]
fn pay(state: &mut State, index: u64, proposer: u64, effective_balance: u64) -> Result<(), Stop>
    ensures { Moves result state.new (paid state.old index proposer effective_balance) }
{
    let preset = state.preset();
    let penalty = effective_balance / preset.min_slashing_penalty_quotient;
    let whistleblower_reward = effective_balance / preset.whistleblower_reward_quotient;
    let proposer_reward = whistleblower_reward / preset.proposer_reward_quotient;
    decrease_balance(state, index, penalty)?;
    increase_balance(state, proposer, proposer_reward)?;
    let rest = checked_sub(whistleblower_reward, proposer_reward)?;
    increase_balance(state, proposer, rest)
}

/// Slashes the validator, and leaves anything in the state after a stop.
#[tactic(auto, unfolding(spec_blocks::specs::SlashValidator::slash_validator, crate::specs::inside::Paid::paid))]
pub(crate) fn slash_in_place(
    state: &mut State,
    index: u64,
    proposer: u64,
    config: &Config,
) -> Result<(), Stop>
    ensures { Moves result state.new (slash_validator state.old index proposer config.now) }
{
    mark_slashed(state, index, config)?;
    let effective_balance = validator_at(state, index)?.effective_balance;
    pay(state, index, proposer, effective_balance)
}

/// Slashes the validator with an index: it leaves, loses a part of its effective balance, and the block's proposer gains
/// one (beacon-chain.md, `slash_validator`).
///
/// Refused as an overflow exactly where a sum doesn't fit, and for an index past the registry. After a stop the state is as
/// before: its lists are shared first, which copies none.
pub fn slash(state: &mut State, index: u64, proposer: u64, config: &Config) -> Result<(), Stop>
    ensures { Changes result state.old state.new (slash_validator state.old index proposer config.now) }
{
    let mut next = state.share()?;
    slash_in_place(&mut next, index, proposer, config)?;
    *state = next;
    Ok(())
}
