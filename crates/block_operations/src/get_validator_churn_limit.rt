//! How many validators may leave or become active in an epoch (beacon-chain.md, "get_validator_churn_limit").

ghost use Rattle.std.specs.Prelude.{◌≡◌};
ghost use Rattle.spec_state.specs.Accessors.{get_validator_churn_limit};

use balance_totals::{count_active, current_epoch};
use bc_preset::Config;
use beacon_state::State;

/// How many validators may leave in an epoch, and how many may become active (beacon-chain.md,
/// `get_validator_churn_limit`). It takes no memory.
#[tactic(auto, unfolding(spec_state::specs::Accessors::get_validator_churn_limit))]
pub fn churn_limit(state: &State, config: &Config) -> u64
    ensures { result ≡ get_validator_churn_limit state.now config.now }
{
    let active = count_active(state, current_epoch(state));
    config
        .min_per_epoch_churn_limit()
        .max(active / config.churn_limit_quotient())
}
