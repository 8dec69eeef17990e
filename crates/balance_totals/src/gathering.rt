//! The walk that gathers.

ghost use Rattle.std.specs.Prelude.{◌≡◌, IfOk};
ghost use Rattle.balance_totals.specs.inside.Stakes.{stakes_of};
ghost use Rattle.balance_totals.specs.inside.Stirring.{registry_stirs};

use crate::epochs::{current_epoch, previous_epoch};
use crate::stake::{Stake, stake_of};
use crate::stirring::stirs;
use bc_preset::Config;
use bc_words::NoMemory;
use beacon_state::State;
use std::alloc::Global;

/// What one walk over a registry gathers.
pub struct Stakes {
    /// What was read of each validator, in order of index.
    pub list: Vec<Stake>,
    /// Whether any validator begins to wait, is ejected, or waits to be let in.
    pub stirs: bool,
}

/// What an epoch's end reads of all validators.
#[tactic(auto, unfolding(crate::specs::inside::Stakes::stakes_of, crate::specs::inside::Stirring::registry_stirs), using(crate::proofs::Gathered::gathering))]
pub fn gather(alloc: Global, state: &State, config: &Config) -> Result<Stakes, NoMemory>
    ensures list { IfOk result (λ stakes. stakes.list.items ≡ stakes_of state.now) }
    ensures stirs { IfOk result (λ stakes. stakes.stirs ≡ registry_stirs state.now config.now) }
{
    let previous = previous_epoch(state);
    let epoch = current_epoch(state);
    let mut list = Vec::with_capacity(alloc, state.validators_len() as usize)?;
    let mut any = false;
    for validator in state.registry().iter() {
        any = any || stirs(state.preset(), config, epoch, &validator);
        list.push(stake_of(previous, &validator))?;
    }
    Ok(Stakes { list, stirs: any })
}
