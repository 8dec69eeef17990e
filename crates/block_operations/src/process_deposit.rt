//! A deposit of a block (beacon-chain.md, "Deposits").

ghost use Rattle.std.specs.Prelude.{◌≡◌, ◌+◌, None, Some, OnOk, OnErr};
ghost use Rattle.bc_words.specs.Outcome.{Changes, Gives};
ghost use Rattle.spec_blocks.specs.ProcessDeposit.{credit_deposit, index_of_pubkey, process_deposit};
ghost use Rattle.block_operations.specs.Indexes.{Indexes, index_in};
ghost use Rattle.block_operations.specs.inside.Branches.{leads_to_root};

use crate::get_validator_from_deposit::get_validator_from_deposit;
use crate::is_valid_merkle_branch::branch_holds;
use crate::pubkey_index::PubkeyIndex;
use balance_totals::balance_at;
use bc_words::{Refusal, Stop, checked_add};
use beacon_state::State;
use beacon_types::Deposit;
use hash_tree::Leaf;

/// Whether the deposit's branch leads to the state's deposit root.
fn leads_to_root(state: &State, deposit: &Deposit) -> bool
    ensures { result ≡ leads_to_root state.now deposit.now }
{
    match deposit.proof.as_slice().as_array::<33>() {
        Some(proof) => branch_holds(
            deposit.content.root(),
            proof,
            state.eth1_deposit_index(),
            state.eth1_data().deposit_root,
        ),
        None => unreachable!(),
    }
}

/// The deposit goes to a validator that has its key already.
#[tactic(auto, unfolding(spec_blocks::specs::ProcessDeposit::credit_deposit, spec_blocks::specs::IncreaseBalance::increase_balance))]
fn top_up(state: &mut State, deposit: &Deposit, next_index: u64, index: u64) -> Result<(), Stop>
    ensures balance { Changes result state.old state.new (credit_deposit (record state.old { eth1_deposit_index = next_index }) deposit.now (Some index)) }
    ensures registry { state.new.validators ≡ state.old.validators }
{
    let balance = balance_at(state, index)?;
    let more = checked_add(balance, deposit.content.amount)?;
    state.set_balances_at(index, more)?;
    state.set_eth1_deposit_index(next_index);
    Ok(())
}

/// The state with one validator more, whose key is new.
#[tactic(auto, unfolding(spec_blocks::specs::ProcessDeposit::credit_deposit, spec_blocks::specs::ProcessDeposit::add_validator))]
fn with_validator(state: &State, deposit: &Deposit, next_index: u64) -> Result<State, Stop>
    ensures { Gives result (credit_deposit (record state.now { eth1_deposit_index = next_index }) deposit.now None) }
{
    let mut next = state.share()?;
    next.set_eth1_deposit_index(next_index);
    let validator = get_validator_from_deposit(&next, deposit);
    next.push_validators(validator)?;
    next.push_balances(deposit.content.amount)?;
    Ok(next)
}

/// A validator with a new key joins the registry, and the map gets its key.
fn join(
    state: &mut State,
    deposit: &Deposit,
    next_index: u64,
    keys: &mut PubkeyIndex,
) -> Result<(), Stop>
    requires indexes { Indexes keys.old state.old.validators }
    requires new { index_in keys.old deposit.now.content.pubkey ≡ None }
    ensures registry { Changes result state.old state.new (credit_deposit (record state.old { eth1_deposit_index = next_index }) deposit.now None) }
    ensures keys { OnOk result (Indexes keys.new state.new.validators) }
    ensures err { OnErr result (keys.new ≡ keys.old) }
{
    let index = state.validators_len();
    let next = with_validator(state, deposit, next_index)?;
    keys.add(deposit.content.pubkey, index)?;
    *state = next;
    Ok(())
}

/// The amount goes to the first validator with the deposit's key, or to one that joins, and the next deposit has this index: what
/// `process_deposit` does behind its checks. The map is that of the state's keys before the call, and of those behind it.
///
/// Refused, in this order: `ListFull` where the registry is full and the key new, `Overflow` where the balance doesn't fit. After a
/// stop the state and the map are as before.
pub fn credit(
    state: &mut State,
    deposit: &Deposit,
    next_index: u64,
    keys: &mut PubkeyIndex,
) -> Result<(), Stop>
    requires { Indexes keys.old state.old.validators }
    ensures state { Changes result state.old state.new
        (credit_deposit (record state.old { eth1_deposit_index = next_index }) deposit.now (index_of_pubkey state.old.validators deposit.now.content.pubkey)) }
    ensures keys { OnOk result (Indexes keys.new state.new.validators) }
    ensures err { OnErr result (keys.new ≡ keys.old) }
{
    match keys.first(&deposit.content.pubkey) {
        Some(index) => top_up(state, deposit, next_index, index),
        None => join(state, deposit, next_index, keys),
    }
}

/// The amount goes to the first validator with the deposit's key, or to one that joins (beacon-chain.md, `process_deposit`). The
/// signature isn't checked. The map is that of the state's keys before the call, and of those behind it.
///
/// Refused, in this order: `DpBranch` where the branch doesn't lead to the deposit root, `Overflow` where the deposit index
/// doesn't fit, `ListFull` where the registry is full and the key new, `Overflow` where the balance doesn't fit. After a stop
/// the state and the map are as before.
#[tactic(auto, unfolding(spec_blocks::specs::ProcessDeposit::process_deposit))]
pub fn process_deposit(
    state: &mut State,
    deposit: &Deposit,
    keys: &mut PubkeyIndex,
) -> Result<(), Stop>
    requires { Indexes keys.old state.old.validators }
    ensures state { Changes result state.old state.new (process_deposit state.old deposit.now) }
    ensures keys { OnOk result (Indexes keys.new state.new.validators) }
    ensures err { OnErr result (keys.new ≡ keys.old) }
{
    if !leads_to_root(state, deposit) {
        return Err(Stop::Refused(Refusal::DpBranch));
    }
    let next_index = checked_add(state.eth1_deposit_index(), 1)?;
    credit(state, deposit, next_index, keys)
}
