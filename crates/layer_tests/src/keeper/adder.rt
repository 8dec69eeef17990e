//! A made-up stepper: a block is a number, which is added to the state's count of deposits.

ghost use Rattle.std.specs.Prelude.{◌≡◌, IfOk};
ghost use Rattle.layer_tests.specs.Adder.{with_deposits};

use bc_words::{NoMemory, Stop, checked_add};
use beacon_state::State;
use state_keeper::Stepper;
use std::alloc::Global;

/// The state with that count of deposits.
pub fn counting(state: &State, count: u64) -> Result<State, NoMemory>
    ensures { IfOk result (λ next. next ≡ record state.now { eth1_deposit_index = count }) }
{
    let mut next = state.share()?;
    next.set_eth1_deposit_index(count);
    Ok(next)
}

/// Adds blocks, which are numbers, to a state's count of deposits.
#[derive(Drop)]
pub struct Adder {}

impl Stepper for Adder {
    type Block = u64;

    ghost can_step = { λ _ _ _. Unit {0} };

    ghost plain_step = { λ _ state block. with_deposits state block };

    #[tactic(auto, unfolding(crate::specs::Adder::with_deposits))]
    fn step(&self, _alloc: Global, state: &State, block: &u64) -> Result<State, Stop> {
        let count = checked_add(state.eth1_deposit_index(), *block)?;
        Ok(counting(state, count)?)
    }
}
