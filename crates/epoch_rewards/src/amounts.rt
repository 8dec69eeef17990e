//! An amount for each validator: what it gains, loses or has. Each kind of amount says how that of one validator is reckoned; one
//! loop makes the list of any kind, and walks the balances beside what was gathered.

ghost use Rattle.std.specs.Prelude.{◌≡◌, ℕ, ◌≤◌, List, length, IfOk};
ghost use Rattle.bc_words.specs.Outcome.{Outcome, GivesExactly, GivesBy};
ghost use Rattle.spec_state.specs.declared.plain.PlainState.{PlainState};
ghost use Rattle.balance_totals.specs.inside.Stakes.{stakes_of};
ghost use Rattle.epoch_rewards.specs.declared.table.Status.{Status};
ghost use Rattle.epoch_rewards.specs.inside.Standings.{IsStanding};
ghost use Rattle.spec_epochs.specs.Each.{validator_indices, checked_map};
ghost use Rattle.epoch_rewards.specs.inside.Divisor.{divisor_of};

use crate::numbers::push_made;
use crate::rates::{follow, rates_of};
use crate::standing::{Standing, standing_of};
use crate::table::Status;
use balance_totals::{Stake, stake_at};
use bc_words::Stop;
use beacon_state::State;
use std::alloc::Global;

/// What each validator of a state gains, loses or has, in Gwei, by what is kept here.
pub trait Amounts {
    /// What has to be known of the state.
    ghost are_of: { Self → PlainState → Type 0 };

    /// How each validator attested.
    ghost table_of: { Self → List Status };

    /// The amount of the validator with an index, or why there is none.
    ghost amount_of: { Self → PlainState → ℕ → Outcome ℕ };

    /// The amount of a validator by how it stands, or why it has none.
    fn amount(&self, state: &State, standing: &Standing) -> Result<u64, Stop>
        requires kept { are_of self.now state.now }
        requires standing { IsStanding state.now (table_of self.now) standing.now }
        ensures { GivesExactly result (amount_of self.now state.now standing.now.index) };
}

/// The amounts of all validators, in order of index. The stakes and the divisor are the state's. Each validator is looked up once,
/// and nearly all have the same effective balance, so that little is reckoned anew.
#[tactic(auto, unfolding(spec_epochs::specs::Each::validator_indices), using(spec_epochs::proofs::Each::made_begins))]
pub(crate) fn all_amounts<A: Amounts>(
    alloc: Global,
    state: &State,
    stakes: &[Stake],
    statuses: &[Status],
    divisor: Result<u64, Stop>,
    kept: &A,
) -> Result<Vec<u64>, Stop>
    requires kept { A.are_of kept.now state.now }
    requires stakes { stakes.now ≡ stakes_of state.now }
    requires table { statuses.now ≡ A.table_of kept.now }
    requires divisor { GivesExactly divisor (divisor_of state.now) }
    ensures exact { GivesBy (λ all. all.items) result (checked_map (A.amount_of kept.now state.now) (validator_indices state.now)) }
    ensures few { IfOk result (λ all. length all.items ≤ state.now.preset.validator_registry_limit) }
{
    let mut all = Vec::with_capacity(alloc, state.validators_len() as usize)?;
    let mut balances = state.balance_list().iter();
    let mut rates = rates_of(state, divisor, state.preset().max_effective_balance);
    for index in 0..state.validators_len() {
        let stake = stake_at(state, stakes, index);
        follow(&mut rates, state, divisor, stake.effective_balance);
        let balance = balances.next();
        let standing = standing_of(state, statuses, index, stake, &rates, balance);
        let made = kept.amount(state, &standing);
        match push_made(&mut all, made) {
            Ok(()) => {}
            Err(stop) => return Err(stop),
        }
    }
    Ok(all)
}
