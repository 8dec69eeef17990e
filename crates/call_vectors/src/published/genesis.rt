//! The state that a chain begins with, of deposits, and whether a state may begin one (beacon-chain.md, "Genesis").

use crate::published::case::{Case, bytes_of};
use crate::published::difference::{Difference, compare_states};
use crate::published::verdict::{Outside, Verdict};
use anyhow::{Context, Result, bail};
use balance_totals::count_active;
use beacon_state::State;
use beacon_types::Deposit;
use block_operations::branch_holds;
use genesis_maker::{DepositTree, Deposits, make_genesis};
use hash_tree::Leaf;
use ssz_codec::{Ssz, Writer};
use std::alloc::Global;
use std::rt::Files;

/// Whether the branch of a deposit leads to the root of the deposits up to it. The deposit becomes the tree's next leaf.
fn is_in_tree(tree: &mut DepositTree, deposit: &Deposit) -> Result<bool> {
    let index = tree.len();
    if index >= 1 << 32 {
        bail!("too many deposits");
    }
    tree.push(deposit.content.root())?;
    match deposit.proof.as_slice().as_array::<33>() {
        Some(proof) => Ok(branch_holds(deposit.content.root(), proof, index, tree.root())),
        None => bail!("no branch"),
    }
}

/// Adds a deposit, whose branch has to lead to the tree's root, to the tree and to the writing of all.
fn add_deposit(
    name: &str,
    deposit: &Deposit,
    tree: &mut DepositTree,
    out: &mut Writer,
    difference: &mut Difference,
) -> Result<()> {
    difference.truth(name, ".branch_holds", is_in_tree(tree, deposit)?, true)?;
    Ok(deposit.content.write_to(out)?)
}

/// Adds a deposit of a case by its number.
fn take_deposit(
    rt: &(impl Files + AllocGlobal),
    case: &Case,
    index: u64,
    tree: &mut DepositTree,
    out: &mut Writer,
    difference: &mut Difference,
) -> Result<()> {
    let name = format!(in rt.alloc(); "deposits_{index}")?;
    let deposit = case.value(rt, name.as_str())?;
    add_deposit(name.as_str(), &deposit, tree, out, difference)
}

/// The deposits of a case, one behind the other, whose branches lead to the tree's roots.
fn deposits_of(
    rt: &(impl Files + AllocGlobal),
    case: &Case,
    difference: &mut Difference,
) -> Result<Vec<u8>> {
    let count = case.number("deposits_count")?;
    let mut tree = DepositTree::new(rt.alloc());
    let mut out = Writer::new(rt.alloc());
    for index in 0..count {
        take_deposit(rt, case, index, &mut tree, &mut out, difference)?;
    }
    Ok(out.finish())
}

/// The state that the deposits make.
fn made(alloc: Global, case: &Case, deposits: Deposits<'_>) -> Result<State> {
    let version = bytes_of::<4>(case.word("genesis_fork_version")?)?;
    let time = case.number("genesis_time")?;
    let hash = case.root("eth1_block_hash")?;
    if deposits.len() >= 1 << 32 {
        bail!("too many deposits");
    }
    match make_genesis(alloc, case.config().preset(), version, time, hash, deposits) {
        Ok(state) => Ok(state),
        Err(fault) => Err(fault.into()),
    }
}

/// Notes where the state is another than that of the case.
fn compare_made(
    rt: &(impl Files + AllocGlobal),
    case: &Case,
    state: &State,
    difference: &mut Difference,
) -> Result<()> {
    match case.state(rt, "state") {
        Ok(expected) => compare_states(state, &expected, difference),
        Err(error) => Err(error),
    }
}

/// Makes the state of deposits with this writing, and notes where it is another than that of the case.
fn make(
    rt: &(impl Files + AllocGlobal),
    case: &Case,
    bytes: &[u8],
    difference: &mut Difference,
) -> Result<()> {
    let deposits = Deposits::of(bytes).context("too many deposits")?;
    match made(rt.alloc(), case, deposits) {
        Ok(state) => compare_made(rt, case, &state, difference),
        Err(error) => Err(error),
    }
}

/// Runs a case of `genesis/initialization`.
fn initialization(rt: &(impl Files + AllocGlobal), case: &Case) -> Result<Verdict> {
    let mut difference = Difference::new(rt.alloc());
    let bytes = deposits_of(rt, case, &mut difference)?;
    make(rt, case, bytes.as_slice(), &mut difference)?;
    Ok(difference.verdict())
}

/// Whether the time has come and enough validators are active in epoch 0.
fn is_valid(case: &Case, state: &State) -> Result<bool> {
    let time = case.number("min_genesis_time")?;
    let count = case.number("min_genesis_active_validator_count")?;
    Ok(state.genesis_time() >= time && count_active(state, 0) >= count)
}

/// Runs a case of `genesis/validity` on its state.
fn validity_of(alloc: Global, case: &Case, state: &State) -> Result<Verdict> {
    let valid = is_valid(case, state)?;
    let expected = case.word("is_valid")? == "true";
    let mut difference = Difference::new(alloc);
    difference.truth("is_valid", "", valid, expected)?;
    Ok(difference.verdict())
}

/// Runs a case of `genesis/validity`.
fn validity(rt: &(impl Files + AllocGlobal), case: &Case) -> Result<Verdict> {
    match case.state(rt, "genesis") {
        Ok(state) => validity_of(rt.alloc(), case, &state),
        Err(error) => Err(error),
    }
}

/// Runs a case of `genesis`.
pub fn run(rt: &(impl Files + AllocGlobal), case: &Case, handler: &str) -> Result<Verdict> {
    match handler {
        "initialization" => initialization(rt, case),
        "validity" => validity(rt, case),
        _ => Ok(Verdict::Outside(Outside::Handler)),
    }
}
