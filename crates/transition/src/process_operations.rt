//! The operations of a block (beacon-chain.md, "Operations").

ghost use Rattle.std.specs.Prelude.{◌≡◌, length, IfOk, OnOk};
ghost use Rattle.bc_words.specs.Outcome.{Moves, GivesBy};
ghost use Rattle.spec_state.specs.Accessors.{get_current_epoch, get_previous_epoch, get_active_validator_indices};
ghost use Rattle.spec_blocks.specs.Checks.{each_of};
ghost use Rattle.spec_blocks.specs.ProcessDeposit.{process_deposit};
ghost use Rattle.spec_blocks.specs.ProcessOperations.{check_deposit_count, process_operations};
ghost use Rattle.block_operations.specs.Indexes.{Indexes};
ghost use Rattle.block_operations.specs.WithVotes.{with_votes, HasRoom};
ghost use Rattle.transition.specs.inside.Operations.{by_proposer_slashing, by_attester_slashing, by_attestation, by_exit};

use balance_totals::{count_active, current_epoch, previous_epoch};
use bc_preset::Config;
use bc_words::{Refusal, Stop, checked_sub};
use beacon_state::State;
use beacon_types::{
    AttesterSlashing, BeaconBlockBody, Deposit, ProposerSlashing, RootedAttestation,
    SignedVoluntaryExit,
};
use block_operations::process_attestation::process_counted_attestation;
use block_operations::process_attester_slashing::process_attester_slashing;
use block_operations::process_deposit::process_deposit;
use block_operations::process_proposer_slashing::process_proposer_slashing;
use block_operations::process_voluntary_exit::process_voluntary_exit;
use block_operations::{PendingVotes, PubkeyIndex};
use std::alloc::Global;

/// One proposer slashing.
#[tactic(auto, unfolding(crate::specs::inside::Operations::by_proposer_slashing))]
fn proposer_slashing(
    state: &mut State,
    slashing: &ProposerSlashing,
    proposer: u64,
    config: &Config,
) -> Result<(), Stop>
    ensures { Moves result state.new (by_proposer_slashing proposer config.now state.old slashing.now) }
{
    process_proposer_slashing(state, slashing, proposer, config)
}

/// Each proposer slashing, in order.
#[tactic(auto, using(spec_blocks::proofs::Each::each_item))]
fn proposer_slashings(
    state: &mut State,
    slashings: &[ProposerSlashing],
    proposer: u64,
    config: &Config,
) -> Result<(), Stop>
    ensures { Moves result state.new (each_of (by_proposer_slashing proposer config.now) state.old slashings.now) }
{
    for slashing in slashings {
        proposer_slashing(state, slashing, proposer, config)?;
    }
    Ok(())
}

/// One attester slashing.
#[tactic(auto, unfolding(crate::specs::inside::Operations::by_attester_slashing))]
fn attester_slashing(
    state: &mut State,
    slashing: &AttesterSlashing,
    proposer: u64,
    config: &Config,
) -> Result<(), Stop>
    ensures { Moves result state.new (by_attester_slashing proposer config.now state.old slashing.now) }
{
    process_attester_slashing(state, slashing, proposer, config)
}

/// Each attester slashing, in order.
#[tactic(auto, using(spec_blocks::proofs::Each::each_item))]
fn attester_slashings(
    state: &mut State,
    slashings: &[AttesterSlashing],
    proposer: u64,
    config: &Config,
) -> Result<(), Stop>
    ensures { Moves result state.new (each_of (by_attester_slashing proposer config.now) state.old slashings.now) }
{
    for slashing in slashings {
        attester_slashing(state, slashing, proposer, config)?;
    }
    Ok(())
}

/// One voluntary exit.
#[tactic(auto, unfolding(crate::specs::inside::Operations::by_exit))]
fn voluntary_exit(
    state: &mut State,
    exit: &SignedVoluntaryExit,
    config: &Config,
) -> Result<(), Stop>
    ensures { Moves result state.new (by_exit config.now state.old exit.now) }
{
    process_voluntary_exit(state, exit, config)
}

/// Each voluntary exit, in order.
#[tactic(auto, using(spec_blocks::proofs::Each::each_item))]
fn voluntary_exits(
    state: &mut State,
    exits: &[SignedVoluntaryExit],
    config: &Config,
) -> Result<(), Stop>
    ensures { Moves result state.new (each_of (by_exit config.now) state.old exits.now) }
{
    for exit in exits {
        voluntary_exit(state, exit, config)?;
    }
    Ok(())
}

/// One attestation, among the votes of the block, with how many validators are active in the state's previous and current epoch.
#[tactic(auto, unfolding(crate::specs::inside::Operations::by_attestation))]
fn attestation(
    state: &State,
    attestation: &RootedAttestation<'_>,
    proposer: u64,
    previous: u64,
    current: u64,
    votes: &mut PendingVotes,
) -> Result<(), Stop>
    requires previous { previous ≡ length (get_active_validator_indices state.now (get_previous_epoch state.now)) }
    requires current { current ≡ length (get_active_validator_indices state.now (get_current_epoch state.now)) }
    requires room { HasRoom state.now votes.old }
    ensures step { Moves result (with_votes state.now votes.new) (by_attestation proposer (with_votes state.now votes.old) attestation.now) }
    ensures room { OnOk result (HasRoom state.now votes.new) }
{
    process_counted_attestation(state, attestation, proposer, previous, current, votes)
}

/// Each attestation, in order, among the votes of the block.
#[tactic(auto, using(spec_blocks::proofs::Each::each_item))]
fn each_attestation(
    state: &State,
    attestations: &[RootedAttestation<'_>],
    proposer: u64,
    previous: u64,
    current: u64,
    votes: &mut PendingVotes,
) -> Result<(), Stop>
    requires previous { previous ≡ length (get_active_validator_indices state.now (get_previous_epoch state.now)) }
    requires current { current ≡ length (get_active_validator_indices state.now (get_current_epoch state.now)) }
    requires room { HasRoom state.now votes.old }
    ensures step { Moves result (with_votes state.now votes.new) (each_of (by_attestation proposer) (with_votes state.now votes.old) attestations.now) }
    ensures room { OnOk result (HasRoom state.now votes.new) }
{
    for voted in attestations {
        attestation(state, voted, proposer, previous, current, votes)?;
    }
    Ok(())
}

/// The votes of a block's attestations: the active validators of the two epochs whose attestations may wait are counted once for
/// all of them.
fn votes_of(
    alloc: Global,
    state: &State,
    attestations: &[RootedAttestation<'_>],
    proposer: u64,
) -> Result<PendingVotes, Stop>
    ensures votes { GivesBy (with_votes state.now) result (each_of (by_attestation proposer) state.now attestations.now) }
    ensures room { IfOk result (HasRoom state.now) }
{
    let mut votes = PendingVotes::none(alloc, state);
    let previous = count_active(state, previous_epoch(state));
    let current = count_active(state, current_epoch(state));
    each_attestation(state, attestations, proposer, previous, current, &mut votes)?;
    Ok(votes)
}

/// The attestations of a block. Nothing is done where there are none.
#[tactic(auto, using(spec_blocks::proofs::Each::no_items))]
fn attestations(
    alloc: Global,
    state: &mut State,
    attestations: &[RootedAttestation<'_>],
    proposer: u64,
) -> Result<(), Stop>
    ensures { Moves result state.new (each_of (by_attestation proposer) state.old attestations.now) }
{
    if attestations.len() == 0 {
        return Ok(());
    }
    let votes = votes_of(alloc, state, attestations, proposer)?;
    votes.put(state)?;
    Ok(())
}

/// One deposit, with the first index of each key.
fn deposit(state: &mut State, deposit: &Deposit, keys: &mut PubkeyIndex) -> Result<(), Stop>
    requires { Indexes keys.old state.old.validators }
    ensures step { Moves result state.new (process_deposit state.old deposit.now) }
    ensures keys { IfOk result (λ _. Indexes keys.new state.new.validators) }
{
    process_deposit(state, deposit, keys)
}

/// Each deposit, in order.
#[tactic(auto, using(spec_blocks::proofs::Each::each_item))]
fn each_deposit(state: &mut State, deposits: &[Deposit], keys: &mut PubkeyIndex) -> Result<(), Stop>
    requires { Indexes keys.old state.old.validators }
    ensures { Moves result state.new (each_of process_deposit state.old deposits.now) }
{
    for brought in deposits {
        deposit(state, brought, keys)?;
    }
    Ok(())
}

/// The deposits of a block: the first index of each key is looked up once for all of them, and not at all where there are
/// none.
#[tactic(auto, using(spec_blocks::proofs::Each::no_items))]
fn deposits(alloc: Global, state: &mut State, deposits: &[Deposit]) -> Result<(), Stop>
    ensures { Moves result state.new (each_of process_deposit state.old deposits.now) }
{
    if deposits.len() == 0 {
        return Ok(());
    }
    let mut keys = PubkeyIndex::of(alloc, state)?;
    each_deposit(state, deposits, &mut keys)
}

/// Refused where the block doesn't bring as many deposits as are due.
#[tactic(auto, unfolding(spec_blocks::specs::ProcessOperations::check_deposit_count))]
fn check_deposit_count(state: &State, body: &BeaconBlockBody) -> Result<(), Stop>
    ensures { GivesBy (λ _. tt) result (check_deposit_count state.now body.now) }
{
    let due = checked_sub(state.eth1_data().deposit_count, state.eth1_deposit_index())?;
    if body.deposits.len() != state.preset().max_deposits.min(due) {
        return Err(Stop::Refused(Refusal::DepositCount));
    }
    Ok(())
}

/// Each operation of each list, in order (beacon-chain.md, `process_operations`). `attested` is the body's attestations with their
/// roots, and `proposer` the block's proposer. It leaves anything in the state after a stop.
///
/// Refused as `DepositCount` where the block doesn't bring as many deposits as are due, and where an operation is.
#[tactic(auto, unfolding(spec_blocks::specs::ProcessOperations::process_operations, crate::specs::inside::Operations::by_proposer_slashing, crate::specs::inside::Operations::by_attester_slashing, crate::specs::inside::Operations::by_attestation, crate::specs::inside::Operations::by_exit))]
pub fn process_operations(
    alloc: Global,
    state: &mut State,
    body: &BeaconBlockBody,
    attested: &[RootedAttestation<'_>],
    proposer: u64,
    config: &Config,
) -> Result<(), Stop>
    requires { attested.now ≡ body.now.attestations }
    ensures { Moves result state.new (process_operations state.old body.now proposer config.now) }
{
    check_deposit_count(state, body)?;
    proposer_slashings(state, body.proposer_slashings.as_slice(), proposer, config)?;
    attester_slashings(state, body.attester_slashings.as_slice(), proposer, config)?;
    attestations(alloc, state, attested, proposer)?;
    deposits(alloc, state, body.deposits.as_slice())?;
    voluntary_exits(state, body.voluntary_exits.as_slice(), config)
}
