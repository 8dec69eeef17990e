//! Effective balances that follow the balances (beacon-chain.md, "process_effective_balance_updates").

ghost use Rattle.std.specs.Prelude.{◌≡◌, ◌/◌, length, slice_get, Some, IfOk, OnOk};
ghost use Rattle.bc_words.specs.Outcome.{Changes, GivesBy, GivesExactly};
ghost use Rattle.bc_preset.specs.Presets.{IsPreset};
ghost use Rattle.tree_nodes.specs.Changes.{AreChanges};
ghost use Rattle.validator_registry.specs.Registries.{with_balances};
ghost use Rattle.spec_epochs.specs.Each.{checked_map, validator_indices};
ghost use Rattle.spec_epochs.specs.ProcessEffectiveBalanceUpdates.{process_effective_balance_updates, updated_validator, is_out_of_bounds};
ghost use Rattle.balance_totals.specs.inside.Stakes.{balances_read, effective_balances};
ghost use Rattle.epoch_processing.specs.inside.Updates.{GivesBalance, IsNoted, updated_balance};

use crate::balances::next_balance;
use balance_totals::Stake;
use bc_preset::Preset;
use bc_words::{NoMemory, Refusal, Stop, checked_add};
use beacon_state::State;
use std::alloc::Global;

/// The part of an increment by which the bounds are reckoned, in Gwei. A pass over the registry takes it once.
#[tactic(auto, using(bc_preset::proofs::Bounds::preset_bounds))]
fn hysteresis_increment(preset: &Preset) -> u64
    requires { IsPreset preset.now }
    ensures { result ≡ preset.now.effective_balance_increment / preset.now.hysteresis_quotient }
{
    preset.effective_balance_increment / preset.hysteresis_quotient
}

/// Whether a balance is so far below or above the effective balance that this changes. Refused as an overflow exactly
/// where a bound that is needed does not fit.
#[tactic(auto, unfolding(spec_epochs::specs::ProcessEffectiveBalanceUpdates::is_out_of_bounds), using(bc_preset::proofs::Bounds::preset_bounds))]
fn is_out_of_bounds(
    preset: &Preset,
    hysteresis_increment: u64,
    balance: u64,
    effective: u64,
) -> Result<bool, Stop>
    requires preset { IsPreset preset.now }
    requires hysteresis { hysteresis_increment ≡ preset.now.effective_balance_increment / preset.now.hysteresis_quotient }
    ensures { GivesExactly result (is_out_of_bounds preset.now balance effective) }
{
    let downward = hysteresis_increment * preset.hysteresis_downward_multiplier;
    let with_downward = checked_add(balance, downward)?;
    if with_downward < effective {
        return Ok(true);
    }
    let upward = hysteresis_increment * preset.hysteresis_upward_multiplier;
    let with_upward = checked_add(effective, upward)?;
    Ok(with_upward < balance)
}

/// The effective balance that follows a balance, in Gwei. Refused as an overflow exactly where a bound that is needed does not fit.
#[tactic(auto, unfolding(crate::specs::inside::Updates::updated_balance), using(bc_preset::proofs::Bounds::preset_bounds))]
fn updated_balance(
    preset: &Preset,
    hysteresis_increment: u64,
    balance: u64,
    effective: u64,
) -> Result<u64, Stop>
    requires preset { IsPreset preset.now }
    requires hysteresis { hysteresis_increment ≡ preset.now.effective_balance_increment / preset.now.hysteresis_quotient }
    ensures { GivesExactly result (updated_balance preset.now balance effective) }
{
    if !is_out_of_bounds(preset, hysteresis_increment, balance, effective)? {
        return Ok(effective);
    }
    let whole = balance - balance % preset.effective_balance_increment;
    Ok(whole.min(preset.max_effective_balance))
}

/// The new effective balance of a validator, in Gwei, where that is another one than it has. Its balance stands at its index, where
/// there is one.
fn updated(
    state: &State,
    hysteresis_increment: u64,
    index: u64,
    effective: u64,
    balance: Option<u64>,
) -> Result<Option<u64>, Stop>
    requires effective { slice_get (effective_balances state.now.validators) index ≡ Some effective }
    requires balance { slice_get state.now.balances index ≡ balance }
    requires hysteresis { hysteresis_increment ≡ state.now.preset.effective_balance_increment / state.now.preset.hysteresis_quotient }
    ensures { GivesBalance (slice_get state.now.validators index) result (updated_validator state.now index) }
{
    let Some(balance) = balance else {
        return Err(Stop::Refused(Refusal::IndexRange));
    };
    let effective_balance = updated_balance(
        state.preset(),
        hysteresis_increment,
        balance,
        effective,
    )?;
    if effective_balance == effective {
        return Ok(None);
    }
    Ok(Some(effective_balance))
}

/// Puts an effective balance among the changes of the registry, where there is another one for a place.
fn note(index: u64, another: Option<u64>, changes: &mut Vec<(u64, u64)>) -> Result<(), NoMemory>
    ensures { OnOk result (IsNoted another index changes.old.items changes.new.items) }
{
    match another {
        Some(balance) => Ok(changes.push((index, balance))?),
        None => Ok(()),
    }
}

/// The new effective balances of the validators whose effective balance changes, beside their places in the registry. The stakes
/// hold the effective balances that they have.
#[tactic(auto, unfolding(spec_epochs::specs::Each::validator_indices), using(crate::proofs::MadeLeft::making))]
fn all_updated(alloc: Global, state: &State, stakes: &[Stake]) -> Result<Vec<(u64, u64)>, Stop>
    requires { balances_read stakes.now ≡ effective_balances state.now.validators }
    ensures exact { GivesBy (λ changes. with_balances state.now.validators changes.items) result (checked_map (updated_validator state.now) (validator_indices state.now)) }
    ensures places { IfOk result (λ changes. AreChanges 0 (length state.now.validators) changes.items) }
{
    let mut changes = Vec::new(alloc);
    let hysteresis_increment = hysteresis_increment(state.preset());
    let mut balances = state.balance_list().iter();
    for (index, stake) in stakes.iter().enumerate() {
        let balance = next_balance(&mut balances);
        let another = updated(
            state,
            hysteresis_increment,
            index as u64,
            stake.effective_balance,
            balance,
        )?;
        note(index as u64, another, &mut changes)?;
    }
    Ok(changes)
}

/// Each validator's effective balance follows its balance where this is far below or above it (beacon-chain.md,
/// `process_effective_balance_updates`). The stakes hold the effective balances before: no validator is looked up, and only
/// the effective balances that change are written. Refused as an overflow exactly where a bound that is needed does not fit.
#[tactic(auto, unfolding(spec_epochs::specs::ProcessEffectiveBalanceUpdates::process_effective_balance_updates), using(bc_preset::proofs::Bounds::preset_bounds))]
pub fn process_effective_balances(
    alloc: Global,
    state: &mut State,
    stakes: &[Stake],
) -> Result<(), Stop>
    requires { balances_read stakes.now ≡ effective_balances state.old.validators }
    ensures { Changes result state.old state.new (process_effective_balance_updates state.old) }
{
    let changes = all_updated(alloc, state, stakes)?;
    state.set_effective_balances(changes)?;
    Ok(())
}
