//! The balances of validators after all five parts of their rewards and penalties, in one pass. Each balance is made of the one
//! before, what was gathered of the registry, how the validator attested, and the gains of the proposers.

ghost use Rattle.bc_words.specs.Outcome.{GivesExactly};
ghost use Rattle.epoch_rewards.specs.declared.matching.Vote.TheVariants as votes;
ghost use Rattle.epoch_rewards.specs.inside.Marks.{flagged};
ghost use Rattle.epoch_rewards.specs.inside.Statuses.{flags_of, entries_of};
ghost use Rattle.epoch_rewards.specs.inside.Standings.{IsStanding};
ghost use Rattle.epoch_rewards.specs.inside.Components.{AreWeights};
ghost use Rattle.epoch_rewards.specs.inside.Paid.{sum_of_four, component_delta, leak_part, settled, summed, paid_balance};

use crate::amounts::Amounts;
use crate::get_attestation_component_deltas::{Absence, Voters, Weights};
use crate::get_inactivity_penalty_deltas::Leak;
use crate::get_inclusion_delay_deltas::Included;
use crate::matching::Vote;
use crate::standing::Standing;
use crate::table::Status;
use bc_words::{Refusal, Stop, checked_add};
use beacon_state::State;

/// What a validator gains and loses by a vote.
#[derive(Clone, Copy)]
pub struct Delta {
    /// What it gains, in Gwei.
    pub reward: u64,
    /// What it loses, in Gwei.
    pub penalty: u64,
}

/// The sum of four numbers.
#[tactic(auto, unfolding(crate::specs::inside::Paid::sum_of_four))]
fn sum_of_four(a: u64, b: u64, c: u64, d: u64) -> Result<u64, Stop>
    ensures { GivesExactly result (sum_of_four a b c d) }
{
    let two = checked_add(a, b)?;
    let three = checked_add(two, c)?;
    checked_add(three, d)
}

/// What a validator gains and loses by a vote.
#[tactic(auto, unfolding(crate::specs::inside::Paid::component_delta))]
fn component_delta(state: &State, voters: &Voters<'_>, standing: &Standing) -> Result<Delta, Stop>
    requires weights { AreWeights state.now voters.now.weights }
    requires standing { IsStanding state.now voters.now.statuses.now standing.now }
    ensures { GivesExactly result (component_delta state.now (flagged state.now (flags_of voters.now.vote voters.now.statuses.now)) voters.now.weights standing.now.index) }
{
    let absence = Absence {
        statuses: voters.statuses,
        vote: voters.vote,
    };
    let reward = voters.amount(state, standing)?;
    let penalty = absence.amount(state, standing)?;
    Ok(Delta { reward, penalty })
}

/// What a validator loses in the leak, in Gwei, and nothing outside it.
#[tactic(auto, unfolding(crate::specs::inside::Paid::leak_part))]
fn leak_part(
    state: &State,
    statuses: &[Status],
    leak: bool,
    standing: &Standing,
) -> Result<u64, Stop>
    requires { IsStanding state.now statuses.now standing.now }
    ensures { GivesExactly result (leak_part state.now leak (flagged state.now (flags_of votes.Target statuses.now)) standing.now.index) }
{
    if leak {
        return Leak { statuses }.amount(state, standing);
    }
    Ok(0)
}

/// A validator's balance, in Gwei, after what it gains was added and what it loses taken.
#[tactic(auto, unfolding(crate::specs::inside::Paid::settled))]
fn settled(balance: Option<u64>, rewards: u64, penalties: u64) -> Result<u64, Stop>
    ensures { GivesExactly result (settled balance rewards penalties) }
{
    let Some(balance) = balance else {
        return Err(Stop::Refused(Refusal::IndexRange));
    };
    let increased = checked_add(balance, rewards)?;
    Ok(increased.saturating_sub(penalties))
}

/// A validator's balance, in Gwei, after its five parts.
#[tactic(auto, unfolding(crate::specs::inside::Paid::summed))]
fn summed(
    source: Delta,
    target: Delta,
    head: Delta,
    inclusion: u64,
    inactivity: u64,
    balance: Option<u64>,
) -> Result<u64, Stop>
    ensures { GivesExactly result (summed source target head inclusion inactivity balance) }
{
    let rewards = sum_of_four(source.reward, target.reward, head.reward, inclusion)?;
    let penalties = sum_of_four(source.penalty, target.penalty, head.penalty, inactivity)?;
    settled(balance, rewards, penalties)
}

/// What decides the balances of validators after their rewards and penalties. The amounts are these balances.
#[derive(Clone, Copy)]
pub struct Paid<'a> {
    /// How each validator attested.
    pub statuses: &'a [Status],
    /// What the source is reckoned by.
    pub source: Weights,
    /// What the target is reckoned by.
    pub target: Weights,
    /// What the head is reckoned by.
    pub head: Weights,
    /// What each validator gains as a proposer, in Gwei.
    pub gains: &'a [u64],
}

impl<'a> Amounts for Paid<'a> {
    ghost are_of = { λ p state. AreWeights state p.source × AreWeights state p.target × AreWeights state p.head };

    ghost table_of = { λ p. p.statuses.now };

    ghost amount_of = { λ p state. paid_balance state (flagged state (flags_of votes.Source p.statuses.now)) (flagged state (flags_of votes.Target p.statuses.now)) (flagged state (flags_of votes.Head p.statuses.now)) p.source p.target p.head (entries_of p.statuses.now) p.gains.now };

    #[tactic(auto, unfolding(crate::specs::inside::Paid::paid_balance))]
    fn amount(&self, state: &State, standing: &Standing) -> Result<u64, Stop> {
        let statuses = self.statuses;
        let sources = Voters {
            statuses,
            vote: Vote::Source,
            weights: self.source,
        };
        let targets = Voters {
            statuses,
            vote: Vote::Target,
            weights: self.target,
        };
        let heads = Voters {
            statuses,
            vote: Vote::Head,
            weights: self.head,
        };
        let included = Included {
            statuses,
            gains: self.gains,
        };
        let source = component_delta(state, &sources, standing)?;
        let target = component_delta(state, &targets, standing)?;
        let head = component_delta(state, &heads, standing)?;
        let inclusion = included.amount(state, standing)?;
        let inactivity = leak_part(state, statuses, self.target.leak, standing)?;
        summed(
            source,
            target,
            head,
            inclusion,
            inactivity,
            standing.balance,
        )
    }
}
