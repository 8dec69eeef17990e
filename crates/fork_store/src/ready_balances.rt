//! The balances of a checkpoint's state, as fork choice weighs with them.
//!
//! They come from the state of a checkpoint, and go to the array of nodes once that checkpoint is the justified one.

ghost use Rattle.std.specs.Prelude.{◌≡◌, ◌<◌, ◌≤◌, ◌^◌, map, length, IfOk};
ghost use Rattle.std.specs.List.{sum_by};
ghost use Rattle.spec_state.specs.Accessors.{get_current_epoch};
ghost use Rattle.spec_state.specs.Misc.{effective_balance};
ghost use Rattle.spec_fork_choice.specs.GetLatestAttestingBalance.{active_in};
ghost use Rattle.fork_store.specs.Arrays.{balance_in, balances_in, no_balances, balances_of};
ghost use Rattle.block_array.specs.Calls.{with_balances};
ghost use Rattle.spec_fork_choice.specs.Slots.{start_slot_of};
ghost use Rattle.spec_fork_choice.specs.StoreTargetCheckpointState.{store_target_checkpoint_state};
ghost use Rattle.fork_store.specs.Keepers.{IsKeeperOf};

use crate::chain_stepper::ChainStepper;
use crate::store_fields::StoreFields;
use crate::store_target_checkpoint_state::store_target_checkpoint_state;
use balance_totals::{count_active, current_epoch, is_active_entry};
use bc_words::{NoMemory, Stop};
use beacon_state::{Entry, State};
use beacon_types::Checkpoint;
use block_array::BlockArray;
use state_keeper::Keeper;
use std::alloc::Global;
use std::marker::Model;

/// A balance for each validator of a state, in Gwei, 0 where it isn't active at the state's epoch; how many are active; and their
/// total balance, of at least one increment.
#[derive(Drop)]
pub struct ReadyBalances {
    list: Vec<u64>,
    count: u64,
    total: u128,
}

impl Model for ReadyBalances {
    ghost use Rattle.std.specs.Prelude.{◌≤◌, ◌^◌, length};
    ghost use Rattle.fork_store.specs.Arrays.{Balances};

    ghost Value = { Balances };

    ghost view = { λ b. record { list = b.list.items; count = b.count; total = b.total } };

    ghost invariant = { λ b. (length b.list.items ≤ 2 ^ 40) × (b.total ≤ 2 ^ 104) };
}

impl ReadyBalances {
    /// No balance, by which nothing weighs.
    #[tactic(auto, unfolding(crate::specs::Arrays::no_balances))]
    pub fn none(alloc: Global) -> ReadyBalances
        ensures { result ≡ no_balances }
    {
        ReadyBalances {
            list: Vec::new(alloc),
            count: 0,
            total: 0,
        }
    }

    /// Gives the balances to the array.
    pub fn give(self, array: &mut BlockArray)
        ensures { array.new ≡ with_balances array.old self.list self.count self.total }
    {
        let ReadyBalances { list, count, total } = self;
        array.set_balances(list, count, total);
    }
}

/// The effective balance of a validator, in Gwei, and 0 where it isn't active at the epoch.
#[tactic(auto, unfolding(crate::specs::Arrays::balance_in))]
fn balance_in(validator: &Entry, epoch: u64) -> u64
    ensures { result ≡ balance_in epoch validator.now }
{
    if is_active_entry(validator, epoch) {
        validator.effective_balance()
    } else {
        0
    }
}

/// The balances of a state's validators, in Gwei, and the effective balance of the active ones.
#[tactic(auto, using(crate::proofs::Weights::listing))]
fn list_of(alloc: Global, state: &State) -> Result<(Vec<u64>, u128), NoMemory>
    ensures exact { IfOk result (λ made. made.0.items ≡ map (balance_in (get_current_epoch state.now)) state.now.validators) }
    ensures few { IfOk result (λ made. length made.0.items ≤ 2 ^ 40) }
    ensures sum { IfOk result (λ made. made.1 ≡ sum_by (effective_balance state.now.validators) (active_in state.now)) }
    ensures low { IfOk result (λ made. made.1 ≤ 2 ^ 104) }
{
    let epoch = current_epoch(state);
    state.preset().bounds();
    let mut list = Vec::with_capacity(alloc, state.validators_len() as usize)?;
    let mut sum: u128 = 0;
    for validator in state.registry().iter() {
        let balance = balance_in(&validator, epoch);
        list.push(balance)?;
        sum += u128::from(balance);
    }
    Ok((list, sum))
}

/// The balances of a state.
#[tactic(auto, unfolding(crate::specs::Arrays::balances_in, spec_fork_choice::specs::GetLatestAttestingBalance::active_in))]
pub fn balances_in(alloc: Global, state: &State) -> Result<ReadyBalances, NoMemory>
    ensures { IfOk result (λ balances. balances ≡ balances_in state.now) }
{
    let preset = state.preset();
    preset.bounds();
    let (list, sum) = list_of(alloc, state)?;
    let total = u128::from(preset.effective_balance_increment).max(sum);
    Ok(ReadyBalances {
        list,
        count: count_active(state, current_epoch(state)),
        total,
    })
}

/// The balances of a checkpoint's state, and none where that is refused or limited. The keeper is as before.
#[tactic(auto, using(crate::proofs::Weights::no_state))]
pub(crate) fn balances_of(
    alloc: Global,
    store: &StoreFields,
    keeper: &mut Keeper<ChainStepper>,
    checkpoint: Checkpoint,
) -> Result<ReadyBalances, NoMemory>
    requires low { start_slot_of store.now checkpoint < 2 ^ 64 }
    requires keeper { IsKeeperOf store.now keeper.old }
    ensures balances { IfOk result (λ balances. balances ≡ balances_of (store_target_checkpoint_state store.now checkpoint)) }
    ensures same { keeper.new ≡ keeper.old }
{
    match store_target_checkpoint_state(alloc, store, keeper, checkpoint) {
        Ok(state) => balances_in(alloc, &state),
        Err(Stop::NoMemory) => Err(NoMemory),
        Err(_) => Ok(ReadyBalances::none(alloc)),
    }
}
