//! What totals read of one validator of a state.

ghost use Rattle.std.specs.Prelude.{◌≡◌, ◌<◌, length, IfOk};
ghost use Rattle.bc_words.specs.Outcome.{GivesExactly};
ghost use Rattle.spec_state.specs.Items.{item_at};
ghost use Rattle.spec_state.specs.Misc.{effective_balance};

use bc_words::{Refusal, Stop};
use beacon_state::State;
use beacon_types::Validator;

/// The effective balance of the validator with an index, in Gwei, or 0 where there is none.
pub(crate) fn effective_at(state: &State, index: u64) -> u64
    ensures { result ≡ effective_balance state.now.validators index }
{
    match state.validators_at(index) {
        Some(validator) => validator.effective_balance(),
        None => 0,
    }
}

/// The validator with an index, refused exactly where the registry has none.
pub fn validator_at(state: &State, index: u64) -> Result<Validator, Stop>
    ensures exact { GivesExactly result (item_at state.now.validators index) }
    ensures in_registry { IfOk result (λ validator. index < length state.now.validators) }
{
    match state.validators_at(index) {
        Some(validator) => Ok(validator.validator()),
        None => Err(Stop::Refused(Refusal::IndexRange)),
    }
}

/// The balance of the validator with an index, in Gwei, refused exactly where there is none.
pub fn balance_at(state: &State, index: u64) -> Result<u64, Stop>
    ensures exact { GivesExactly result (item_at state.now.balances index) }
    ensures in_list { IfOk result (λ balance. index < length state.now.balances) }
{
    match state.balances_at(index) {
        Some(balance) => Ok(balance),
        None => Err(Stop::Refused(Refusal::IndexRange)),
    }
}
