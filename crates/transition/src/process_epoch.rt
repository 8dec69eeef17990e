//! The end of an epoch (beacon-chain.md, "Epoch processing").
//!
//! States come from the way through slots, at the last one of an epoch, and go back to it.

ghost use Rattle.std.specs.Prelude.{◌≡◌, IfOk};
ghost use Rattle.bc_words.specs.Outcome.{Moves};
ghost use Rattle.spec_state.specs.Accessors.{get_current_epoch, get_previous_epoch};
ghost use Rattle.spec_state.specs.Soundness.{IsSound};
ghost use Rattle.spec_epochs.specs.ProcessEpoch.{process_epoch};
ghost use Rattle.epoch_rewards.specs.declared.matching.Vote.TheVariants as votes;
ghost use Rattle.epoch_rewards.specs.inside.Statuses.{statuses_of, flags_of};
ghost use Rattle.balance_totals.specs.inside.Stakes.{balances_read, effective_balances, stakes_of};
ghost use Rattle.balance_totals.specs.inside.Stirring.{registry_stirs};
ghost use Rattle.transition.specs.inside.Epochs.{resets, closing_parts};

use balance_totals::{Stake, Stakes, current_epoch, gather, keep_active, note_total};
use bc_preset::Config;
use bc_words::{NoMemory, Stop};
use beacon_state::State;
use epoch_processing::process_effective_balance_updates::process_effective_balances;
use epoch_processing::process_eth1_data_reset::process_eth1_reset;
use epoch_processing::process_historical_roots_update::process_historical_roots;
use epoch_processing::process_justification;
use epoch_processing::process_participation_record_updates::process_rotation;
use epoch_processing::process_randao_mixes_reset::process_randao_reset;
use epoch_processing::process_registry_updates::process_registry;
use epoch_processing::process_slashings::process_slashings;
use epoch_processing::process_slashings_reset::process_slashings_reset;
use epoch_rewards::{Status, current_targets, previous_table, process_rewards};
use std::alloc::Global;

/// The state keeps who is active at its epoch, and what they weigh together, which several parts ask for.
fn keep_epoch_active(alloc: Global, state: &mut State) -> Result<(), NoMemory>
    ensures { state.new ≡ state.old }
{
    let epoch = current_epoch(state);
    keep_active(alloc, state, epoch)?;
    note_total(state, epoch);
    Ok(())
}

/// How each validator attested in the previous epoch of a sound state, and whether it has the target right in the current one. The
/// state is as before.
#[tactic(auto, using(spec_epochs::proofs::SoundJustification::sound_within))]
fn tables(alloc: Global, state: &mut State) -> Result<(Vec<Status>, Vec<bool>), NoMemory>
    requires { IsSound state.old }
    ensures same { state.new ≡ state.old }
    ensures previous { IfOk result (λ tables. tables.0.items ≡ statuses_of state.old (get_previous_epoch state.old)) }
    ensures current { IfOk result (λ tables. tables.1.items ≡ flags_of votes.Target (statuses_of state.old (get_current_epoch state.old))) }
{
    let previous = previous_table(alloc, state)?;
    let current = current_targets(alloc, state)?;
    Ok((previous, current))
}

/// The resets of what the next epoch begins with, the root of the latest roots, and the rotation of the pending
/// attestations.
#[tactic(auto, unfolding(crate::specs::inside::Epochs::resets))]
fn reset(state: &mut State) -> Result<(), Stop>
    ensures { Moves result state.new (resets state.old) }
{
    process_slashings_reset(state)?;
    process_randao_reset(state)?;
    process_historical_roots(state)?;
    process_rotation(state)
}

/// The closing parts, behind the registry. The stakes hold the effective balances, which no part before has changed.
#[tactic(auto, unfolding(crate::specs::inside::Epochs::closing_parts), using(crate::proofs::Registries::penalized_balances))]
fn close(alloc: Global, state: &mut State, stakes: Vec<Stake>) -> Result<(), Stop>
    requires { balances_read stakes.items ≡ effective_balances state.old.validators }
    ensures { Moves result state.new (closing_parts state.old) }
{
    process_slashings(alloc, state)?;
    process_eth1_reset(state)?;
    process_effective_balances(alloc, state, &stakes)?;
    drop(stakes);
    reset(state)
}

/// The parts of an epoch's end, one after another, on a sound state of which these tables and stakes are. Each is given up where it was
/// needed last, since it takes more than the balances.
#[tactic(auto, using(crate::proofs::Epochs::justified_statuses, crate::proofs::Registries::justified_stakes), unfolding(spec_epochs::specs::ProcessEpoch::process_epoch, crate::specs::inside::Epochs::closing_parts, crate::specs::inside::Epochs::resets))]
fn take_parts(
    alloc: Global,
    state: &mut State,
    config: &Config,
    stakes: Stakes,
    previous: Vec<Status>,
    current: Vec<bool>,
) -> Result<(), Stop>
    requires sound { IsSound state.old }
    requires stakes { stakes.list.items ≡ stakes_of state.old }
    requires stirs { stakes.stirs ≡ registry_stirs state.old config.now }
    requires previous { previous.items ≡ statuses_of state.old (get_previous_epoch state.old) }
    requires current { current.items ≡ flags_of votes.Target (statuses_of state.old (get_current_epoch state.old)) }
    ensures { Moves result state.new (process_epoch state.old config.now) }
{
    let Stakes { list, stirs } = stakes;
    process_justification(state, &list, &previous, &current)?;
    drop(current);
    process_rewards(alloc, state, &list, previous)?;
    process_registry(alloc, state, config, stirs)?;
    close(alloc, state, list)
}

/// The parts of an epoch's end (beacon-chain.md, `process_epoch`), on a sound state. How each validator attested in the previous epoch,
/// and who has the target right in the current one, is found once, by the committees that the state keeps where there is an
/// attestation. Effective balances, who is slashed, whom rewards reach and whether the registry stirs are gathered once, since
/// validators lie apart in memory and each part would walk them again. It leaves anything in the state after a stop.
///
/// Refused where a part is: as an overflow where a sum or product does not fit, and as a full list of historical roots.
pub fn process_epoch(alloc: Global, state: &mut State, config: &Config) -> Result<(), Stop>
    requires sound { IsSound state.old }
    ensures { Moves result state.new (process_epoch state.old config.now) }
{
    let (previous, current) = tables(alloc, state)?;
    keep_epoch_active(alloc, state)?;
    let stakes = gather(alloc, state, config)?;
    take_parts(alloc, state, config, stakes, previous, current)
}
