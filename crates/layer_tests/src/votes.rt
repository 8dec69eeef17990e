//! Weights and heads of a chain of 21 nodes with three votes, and of a fork, also where voters are silenced.

ghost use Rattle.std.specs.Prelude.{◌≡◌, ◌+◌, ◌<◌, ◌≤◌, ◌^◌, [], false, length, is_some, IfOk, OnOk};
ghost use Rattle.std.specs.List.{count_by};
ghost use Rattle.block_array.specs.PlainArray.{slot_at};

use bc_words::{NoMemory, Steps};
use beacon_types::Checkpoint;
use block_array::{BlockArray, Facts};
use std::alloc::Global;
use std::marker::Brand;
use std::process::Abort;
use std::sync::ledger::{Blank, Ledger};
use std::test::Fail;

/// A head, and the weight of a node.
type Made = (u32, u128);

/// Facts of the state of genesis.
fn at_genesis() -> Facts {
    let none = Checkpoint {
        epoch: 0,
        root: [0; 32],
    };
    Facts {
        justified: none,
        finalized: none,
    }
}

/// One node more behind the last one, each at the slot of its number.
#[tactic(auto, unfolding(block_array::specs::PlainArray::slot_at))]
fn grow(array: &mut BlockArray, last: u32) -> Result<(), NoMemory>
    requires low { last < 64 }
    requires nodes { length array.old.nodes ≡ last + 1 }
    requires slot { slot_at array.old.nodes last ≡ last }
    ensures nodes { OnOk result (length array.new.nodes ≡ last + 2) }
    ensures slot { OnOk result (slot_at array.new.nodes (last + 1) ≡ last + 1) }
{
    array.push(
        last,
        u64::from(last) + 1,
        [last as u8 + 1; 32],
        at_genesis(),
    )?;
    Ok(())
}

/// A chain of 21 nodes.
#[tactic(auto, unfolding(block_array::specs::PlainArray::slot_at))]
fn chain(alloc: Global) -> Result<BlockArray, NoMemory>
    ensures { IfOk result (λ array. length array.nodes ≡ 21) }
{
    let mut array = BlockArray::new(alloc, 8, 40, 0, [0; 32], at_genesis())?;
    for last in 0..20 {
        grow(&mut array, last)?;
    }
    Ok(array)
}

/// Two children of one node, with room for votes.
#[tactic(auto, unfolding(block_array::specs::PlainArray::slot_at))]
fn fork(alloc: Global) -> Result<BlockArray, NoMemory>
    ensures { IfOk result (λ array. length array.nodes ≡ 3) }
{
    let mut array = BlockArray::new(alloc, 8, 40, 0, [0; 32], at_genesis())?;
    array.reserve(64)?;
    array.push(0, 1, [9; 32], at_genesis())?;
    array.push(0, 2, [4; 32], at_genesis())?;
    Ok(array)
}

/// A vote for a node.
#[tactic(auto, using(block_array::proofs::Votes::voting))]
fn vote(array: &mut BlockArray, validator: u64, node: u32, epoch: u64) -> Result<(), NoMemory>
    requires { node < length array.old.nodes }
    ensures { length array.new.nodes ≡ length array.old.nodes }
{
    array.vote(validator, node, epoch)
}

/// Three votes in a chain of 21 nodes: the `apply` behind them takes at most 45 steps.
#[tactic(auto, unfolding(block_array::specs::Work::steps_of, block_array::specs::Work::deltas_of), using(block_array::proofs::Votes::voting))]
fn steps_of_three_votes<L: Ledger>(
    array: &mut BlockArray,
    steps: &mut Steps<L>,
) -> Result<(), NoMemory>
    requires nodes { length array.old.nodes ≡ 21 }
    requires changed { length array.old.changed_validators ≡ 0 }
    requires balances { array.old.balances_set ≡ false }
    ensures { steps.new ≤ steps.old + 45 }
{
    array.vote(2, 20, 1)?;
    array.vote(5, 10, 1)?;
    array.vote(7, 3, 1)?;
    array.apply(steps);
    Ok(())
}

/// Balances where at most 64 validators of a chain of 21 nodes have a message, and nobody was silenced since: the `apply` behind them takes at most
/// 106 steps.
#[tactic(auto, unfolding(block_array::specs::Work::steps_of, block_array::specs::Work::deltas_of))]
fn steps_of_balances<L: Ledger>(array: &mut BlockArray, list: Vec<u64>, steps: &mut Steps<L>)
    requires nodes { length array.old.nodes ≡ 21 }
    requires voters { count_by is_some array.old.latest_messages ≤ 64 }
    requires changed { array.old.changed_validators ≡ [] }
    requires few { length list.items ≤ 2 ^ 40 }
    ensures { steps.new ≤ steps.old + 106 }
{
    array.set_balances(list, 64, 2048);
    array.apply(steps);
}

/// The head, and the weight of a node, once they are made.
fn apply_and_look<L: Ledger>(array: &mut BlockArray, node: u32, steps: &mut Steps<L>) -> Made
    requires { node < length array.old.nodes }
    ensures { length array.new.nodes ≡ length array.old.nodes }
{
    array.apply(steps);
    (array.head(), array.weight(node))
}

/// Head and weight behind a vote.
fn voted<L: Ledger>(
    array: &mut BlockArray,
    vote_of: (u64, u32, u64),
    node: u32,
    steps: &mut Steps<L>,
) -> Result<Made, NoMemory>
    requires voted { vote_of.1 < length array.old.nodes }
    requires node { node < length array.old.nodes }
    ensures { length array.new.nodes ≡ length array.old.nodes }
{
    vote(array, vote_of.0, vote_of.1, vote_of.2)?;
    Ok(apply_and_look(array, node, steps))
}

/// Silences a validator.
#[tactic(auto, using(crate::proofs::Silenced::silencing))]
fn silence(array: &mut BlockArray, validator: u64) -> Result<(), NoMemory>
    ensures { length array.new.nodes ≡ length array.old.nodes }
{
    array.silence(validator)
}

/// Head and weight behind a silencing.
fn silenced<L: Ledger>(
    array: &mut BlockArray,
    validator: u64,
    node: u32,
    steps: &mut Steps<L>,
) -> Result<Made, NoMemory>
    requires { node < length array.old.nodes }
    ensures { length array.new.nodes ≡ length array.old.nodes }
{
    silence(array, validator)?;
    Ok(apply_and_look(array, node, steps))
}

/// Head and weight where each of 64 validators has this balance.
fn weighed<L: Ledger>(
    alloc: Global,
    array: &mut BlockArray,
    each: u32,
    node: u32,
    steps: &mut Steps<L>,
) -> Result<Made, NoMemory>
    requires { node < length array.old.nodes }
    ensures { length array.new.nodes ≡ length array.old.nodes }
{
    array.set_balances(
        vec![in alloc; u64::from(each); 64]?,
        64,
        64 * u128::from(each),
    );
    Ok(apply_and_look(array, node, steps))
}

/// Three votes in a chain, balances, votes of the same and of a later epoch, other balances, and then a justified checkpoint
/// behind the node that is weighed: heads and weights.
fn chain_rows<L: Ledger>(
    alloc: Global,
    array: &mut BlockArray,
    steps: &mut Steps<L>,
) -> Result<[Made; 6], NoMemory>
    requires { length array.old.nodes ≡ 21 }
{
    vote(array, 2, 20, 1)?;
    vote(array, 5, 10, 1)?;
    let unweighed = voted(array, (7, 3, 1), 10, steps)?;
    let balances = weighed(alloc, array, 32, 10, steps)?;
    let equal = voted(array, (5, 2, 1), 10, steps)?;
    let later = voted(array, (5, 2, 2), 10, steps)?;
    let lighter = weighed(alloc, array, 7, 3, steps)?;
    let facts = at_genesis();
    array.set_checkpoints(12, facts.justified, facts.finalized);
    let behind = apply_and_look(array, 3, steps);
    Ok([unweighed, balances, equal, later, lighter, behind])
}

/// A tie of two children, a vote, a vote taken back, the boost, and the boost taken back: heads and weights.
fn fork_rows<L: Ledger>(
    alloc: Global,
    array: &mut BlockArray,
    steps: &mut Steps<L>,
) -> Result<[Made; 5], NoMemory>
    requires { length array.old.nodes ≡ 3 }
{
    let tie = weighed(alloc, array, 32, 1, steps)?;
    let second = voted(array, (3, 2, 1), 2, steps)?;
    let first = voted(array, (3, 1, 2), 2, steps)?;
    array.boost(Some(2));
    let boosted = apply_and_look(array, 2, steps);
    array.boost(None);
    Ok([tie, second, first, boosted, apply_and_look(array, 2, steps)])
}

/// Two votes for the first child and one for the second; a voter of the first is silenced, and then the other one; a silenced one votes for the
/// second; the first is boosted: heads and weights.
fn silenced_rows<L: Ledger>(
    alloc: Global,
    array: &mut BlockArray,
    steps: &mut Steps<L>,
) -> Result<[Made; 5], NoMemory>
    requires { length array.old.nodes ≡ 3 }
{
    vote(array, 1, 1, 1)?;
    vote(array, 2, 1, 1)?;
    vote(array, 3, 2, 1)?;
    let first = weighed(alloc, array, 32, 1, steps)?;
    let tie = silenced(array, 1, 1, steps)?;
    let second = silenced(array, 2, 2, steps)?;
    let unheard = voted(array, (1, 2, 9), 2, steps)?;
    array.boost(Some(1));
    Ok([first, tie, second, unheard, apply_and_look(array, 1, steps)])
}

/// The rows of a chain.
fn rows_of_a_chain<L: Ledger>(alloc: Global, steps: &mut Steps<L>) -> Result<[Made; 6], NoMemory> {
    match chain(alloc) {
        Ok(mut array) => chain_rows(alloc, &mut array, steps),
        Err(refused) => Err(refused),
    }
}

/// The rows of a fork.
fn rows_of_a_fork<L: Ledger>(alloc: Global, steps: &mut Steps<L>) -> Result<[Made; 5], NoMemory> {
    match fork(alloc) {
        Ok(mut array) => fork_rows(alloc, &mut array, steps),
        Err(refused) => Err(refused),
    }
}

/// The rows of a fork whose voters are silenced.
fn rows_of_silenced<L: Ledger>(alloc: Global, steps: &mut Steps<L>) -> Result<[Made; 5], NoMemory> {
    match fork(alloc) {
        Ok(mut array) => silenced_rows(alloc, &mut array, steps),
        Err(refused) => Err(refused),
    }
}

/// The rows of all three are the expected ones.
fn rows_hold<L: Ledger>(rt: &(impl AllocGlobal + Abort), blank: Blank) -> Result<(), Fail>
    requires name { blank.name ≡ L.name }
    requires parts { blank.parts ≡ L.parts }
    requires some { 0 < blank.parts }
{
    let mut steps = Steps::<L>::new(blank);
    let rows = rows_of_a_chain(rt.alloc(), &mut steps)?;
    assert!(rt; rows == [(20, 0), (20, 64), (20, 64), (20, 32), (20, 14), (20, 14)]);
    let rows = rows_of_a_fork(rt.alloc(), &mut steps)?;
    assert!(rt; rows == [(1, 0), (2, 32), (1, 0), (2, 102), (1, 0)]);
    let rows = rows_of_silenced(rt.alloc(), &mut steps)?;
    assert!(rt; rows == [(1, 64), (1, 32), (2, 32), (2, 32), (1, 102)]);
    Ok(())
}

#[test]
fn votes_in_a_chain_and_in_a_fork(rt: HostRuntime) -> Result<(), Fail> {
    rows_hold::<Brand>(&rt, Blank::new(1))
}
