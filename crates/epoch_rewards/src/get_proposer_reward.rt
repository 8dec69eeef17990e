//! What goes to the proposer who includes an attestation (beacon-chain.md, "get_proposer_reward").

ghost use Rattle.bc_words.specs.Outcome.{GivesExactly};
ghost use Rattle.epoch_rewards.specs.inside.Rates.{base_by_balance, proposer_by_balance};

use bc_words::Stop;
use beacon_state::State;

/// The part of a validator's base reward that goes to the proposer who includes its attestation, in Gwei
/// (beacon-chain.md, `get_proposer_reward`), by its effective balance, where its base reward is known, or why it has none.
#[tactic(auto, unfolding(crate::specs::inside::Rates::proposer_by_balance), using(bc_preset::proofs::Bounds::preset_bounds))]
pub(crate) fn get_proposer_reward(
    state: &State,
    base: Result<u64, Stop>,
    effective_balance: u64,
) -> Result<u64, Stop>
    requires { GivesExactly base (base_by_balance state.now effective_balance) }
    ensures { GivesExactly result (proposer_by_balance state.now effective_balance) }
{
    let reward = base?;
    Ok(reward / state.preset().proposer_reward_quotient)
}
