//! The validator that a deposit makes (beacon-chain.md, "Deposits").

ghost use Rattle.std.specs.Prelude.{◌≡◌, ◌-◌, ◌%◌, min};
ghost use Rattle.spec_blocks.specs.GetValidatorFromDeposit.{get_validator_from_deposit};

use bc_preset::constants::FAR_FUTURE_EPOCH;
use beacon_state::State;
use beacon_types::{Deposit, Validator};

/// The effective balance of an amount, in Gwei: its whole increments, up to the greatest one.
#[tactic(auto, using(bc_preset::proofs::Bounds::preset_bounds))]
fn effective_balance_of(state: &State, amount: u64) -> u64
    ensures { result ≡ min (amount - amount % state.now.preset.effective_balance_increment) state.now.preset.max_effective_balance }
{
    let preset = state.preset();
    let whole = amount - amount % preset.effective_balance_increment;
    whole.min(preset.max_effective_balance)
}

/// A validator whose effective balance is the deposit's amount in whole increments, up to the greatest one (beacon-chain.md,
/// `get_validator_from_deposit`).
#[tactic(auto, unfolding(spec_blocks::specs::GetValidatorFromDeposit::get_validator_from_deposit))]
pub(crate) fn get_validator_from_deposit(state: &State, deposit: &Deposit) -> Validator
    ensures { result ≡ get_validator_from_deposit state.now deposit.now }
{
    Validator {
        pubkey: deposit.content.pubkey,
        withdrawal_credentials: deposit.content.withdrawal_credentials,
        effective_balance: effective_balance_of(state, deposit.content.amount),
        slashed: false,
        activation_eligibility_epoch: FAR_FUTURE_EPOCH,
        activation_epoch: FAR_FUTURE_EPOCH,
        exit_epoch: FAR_FUTURE_EPOCH,
        withdrawable_epoch: FAR_FUTURE_EPOCH,
    }
}
