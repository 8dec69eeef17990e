//! Fork choice's array of nodes: weights and the head of 262,144 validators over 1,024 nodes, where all votes moved, in order of
//! validators and in a scattered order, against passes over the votes; and where none did.

ghost use Rattle.std.specs.Prelude.{◌≡◌, ◌+◌, ◌*◌, ◌<◌, ◌≤◌, ◌^◌, [], false, length, IfOk, OnOk};
ghost use Rattle.block_array.specs.PlainArray.{slot_at};

use crate::ratio::{Time, now, tell_joined, tell_time, time_since};
use anyhow::Result;
use bc_words::{NoMemory, Steps};
use beacon_types::Checkpoint;
use block_array::{BlockArray, Facts, Message};
use std::alloc::{AllocError, Global};
use std::marker::Brand;
use std::sync::ledger::{Blank, Ledger};
use std::time::CpuClock;

/// How many validators vote.
const VALIDATORS: usize = 262_144;

/// How many nodes there are.
const NODES: u32 = 1_024;

/// The balance of each validator, in Gwei.
const BALANCE: u64 = 32_000_000_000;

/// How often all votes move.
const ROUNDS: u64 = 20;

/// Rounds of votes that come one after the other.
#[derive(Clone, Copy)]
struct Arrival {
    /// The epoch of the first round's votes.
    epoch: u64,
    /// How far apart the validators of a vote and of the next one are. Where it is odd, each validator's vote comes once.
    apart: usize,
}

/// Votes in order of validators.
const IN_ORDER: Arrival = Arrival { epoch: 1, apart: 1 };

/// Later ones in an order in which each is far from the one before.
const SCATTERED: Arrival = Arrival {
    epoch: 1 + ROUNDS,
    apart: 101_273,
};

/// What the parts of all rounds took.
#[derive(Clone, Copy)]
struct Times {
    /// Weights and the head, where all votes moved.
    moved: Time,
    /// Weights and the head, where none did.
    unmoved: Time,
    /// The passes over the votes.
    passes: Time,
}

impl Times {
    /// Nothing yet.
    fn none() -> Times {
        Times {
            moved: Time::none(),
            unmoved: Time::none(),
            passes: Time::none(),
        }
    }
}

/// The facts of genesis.
fn at_genesis() -> Facts {
    let none = Checkpoint {
        epoch: 0,
        root: [0; 32],
    };
    Facts {
        justified: none,
        finalized: none,
    }
}

/// One node more at the end of a chain, with its number as its slot.
#[tactic(auto, using(block_array::proofs::Holding::slot_last))]
fn extend(array: &mut BlockArray, parent: u32) -> Result<(), NoMemory>
    requires last { length array.old.nodes ≡ parent + 1 }
    requires slot { slot_at array.old.nodes parent ≡ parent }
    requires few { parent < 2 ^ 20 }
    ensures last { OnOk result (length array.new.nodes ≡ parent + 2) }
    ensures slot { OnOk result (slot_at array.new.nodes (parent + 1) ≡ parent + 1) }
{
    let slot = parent + 1;
    let _number = array.push(parent, u64::from(slot), [7; 32], at_genesis())?;
    Ok(())
}

/// A chain of all nodes, with room for all votes.
#[tactic(auto, unfolding(block_array::specs::PlainArray::slot_at))]
fn chain(alloc: Global) -> Result<BlockArray, NoMemory>
    ensures { IfOk result (λ array. length array.nodes ≡ 1024) }
{
    let mut array = BlockArray::new(alloc, 32, 40, 0, [7; 32], at_genesis())?;
    array.reserve(VALIDATORS as u64)?;
    for parent in 0..NODES - 1 {
        extend(&mut array, parent)?;
    }
    Ok(array)
}

/// The node that a validator votes for in a round.
fn node_of(validator: u64, round: u64) -> u32
    ensures { result < 1024 }
{
    let mixed = validator
        .wrapping_add(round)
        .wrapping_mul(0x9E37_79B9_7F4A_7C15);
    ((mixed >> 54) % 1024) as u32
}

/// Moves the vote of a validator.
#[tactic(auto, using(block_array::proofs::Votes::vote_nodes))]
fn vote(array: &mut BlockArray, validator: usize, message: Message) -> Result<(), NoMemory>
    requires nodes { length array.old.nodes ≡ 1024 }
    ensures nodes { length array.new.nodes ≡ 1024 }
{
    if message.node >= NODES {
        return Ok(());
    }
    array.vote(validator as u64, message.node, message.epoch)
}

/// Moves the votes of all validators, one behind the other's so far on.
fn vote_all(array: &mut BlockArray, votes: &[Message], apart: usize) -> Result<(), NoMemory>
    requires nodes { length array.old.nodes ≡ 1024 }
    ensures nodes { length array.new.nodes ≡ 1024 }
{
    for place in 0..votes.len() {
        let validator = place.wrapping_mul(apart) % votes.len();
        vote(array, validator, votes[validator])?;
    }
    Ok(())
}

/// The votes of all validators in a round, whose number is their epoch.
fn votes_of(alloc: Global, round: u64) -> Result<Vec<Message>, NoMemory> {
    let mut votes = Vec::new(alloc);
    for validator in 0..VALIDATORS {
        votes.push(Message {
            epoch: round,
            node: node_of(validator as u64, round),
        })?;
    }
    Ok(votes)
}

/// Adds a balance at a node.
fn weigh(weights: &mut [u128], node: u32, balance: u64) {
    if let Some(weight) = weights.get_mut(node as usize) {
        *weight = weight.wrapping_add(u128::from(balance));
    }
}

/// A pass over the votes: the balance of each is read once, and added at its node.
fn pass(votes: &[Message], balances: &[u64], weights: &mut [u128]) {
    for (vote, balance) in votes.iter().zip(balances.iter()) {
        weigh(weights, vote.node, *balance);
    }
}

/// The time of weights and the head.
fn time_moved<L: Ledger>(rt: &impl CpuClock, array: &mut BlockArray, steps: &mut Steps<L>) -> Time
    ensures nodes { array.new.nodes ≡ array.old.nodes }
    ensures made { array.new.changed_validators ≡ [] }
    ensures set { array.new.balances_set ≡ false }
{
    let begin = now(rt);
    array.apply(steps);
    time_since(rt, begin)
}

/// The time of weights and the head where no vote moved: no delta is counted, and each node is visited twice at most.
#[tactic(auto, unfolding(block_array::specs::Work::steps_of, block_array::specs::Work::deltas_of))]
fn time_unmoved<L: Ledger>(rt: &impl CpuClock, array: &mut BlockArray, steps: &mut Steps<L>) -> Time
    requires unmoved { array.old.changed_validators ≡ [] }
    requires set { array.old.balances_set ≡ false }
    ensures nodes { array.new.nodes ≡ array.old.nodes }
    ensures steps { steps.new ≤ steps.old + 2 * length array.old.nodes }
{
    let begin = now(rt);
    array.apply(steps);
    time_since(rt, begin)
}

/// Moves these votes, one behind the other's so far on, and times what follows and a pass over them.
fn time_votes<L: Ledger>(
    rt: &impl CpuClock,
    array: &mut BlockArray,
    votes: &[Message],
    balances: &[u64],
    weights: &mut [u128],
    apart: usize,
    steps: &mut Steps<L>,
    times: &mut Times,
) -> Result<(), NoMemory>
    requires nodes { length array.old.nodes ≡ 1024 }
    ensures nodes { length array.new.nodes ≡ 1024 }
{
    vote_all(array, votes, apart)?;
    times.moved = times.moved.plus(time_moved(rt, array, steps));
    times.unmoved = times.unmoved.plus(time_unmoved(rt, array, steps));
    let begin = now(rt);
    pass(votes, balances, weights);
    times.passes = times.passes.plus(time_since(rt, begin));
    Ok(())
}

/// The same of the votes of this epoch.
fn time_epoch<L: Ledger>(
    rt: &(impl AllocGlobal + CpuClock),
    array: &mut BlockArray,
    balances: &[u64],
    weights: &mut [u128],
    arrival: Arrival,
    steps: &mut Steps<L>,
    times: &mut Times,
) -> Result<(), NoMemory>
    requires nodes { length array.old.nodes ≡ 1024 }
    ensures nodes { length array.new.nodes ≡ 1024 }
{
    let votes = votes_of(rt.alloc(), arrival.epoch)?;
    time_votes(
        rt,
        array,
        &votes,
        balances,
        weights,
        arrival.apart,
        steps,
        times,
    )
}

/// All rounds.
fn time_rounds<L: Ledger>(
    rt: &(impl AllocGlobal + CpuClock),
    array: &mut BlockArray,
    balances: &[u64],
    weights: &mut [u128],
    arrival: Arrival,
    steps: &mut Steps<L>,
    times: &mut Times,
) -> Result<(), NoMemory>
    requires nodes { length array.old.nodes ≡ 1024 }
    ensures nodes { length array.new.nodes ≡ 1024 }
{
    for round in 0..ROUNDS {
        let arrival = Arrival {
            epoch: arrival.epoch.wrapping_add(round),
            apart: arrival.apart,
        };
        time_epoch(rt, array, balances, weights, arrival, steps, times)?;
    }
    Ok(())
}

/// The weight of the first node.
fn first_of(weights: &[u128]) -> u64 {
    let first = weights.first().copied().unwrap_or(0);
    u64::try_from(first).unwrap_or(u64::MAX)
}

/// The same with weights of its own. Gives the weight that the passes gave the first node.
fn time_arrival<L: Ledger>(
    rt: &(impl AllocGlobal + CpuClock),
    array: &mut BlockArray,
    balances: &[u64],
    arrival: Arrival,
    steps: &mut Steps<L>,
    times: &mut Times,
) -> Result<u64, NoMemory>
    requires nodes { length array.old.nodes ≡ 1024 }
    ensures nodes { length array.new.nodes ≡ 1024 }
{
    let mut weights = vec![in rt.alloc(); 0u128; NODES as usize]?;
    time_rounds(rt, array, balances, &mut weights, arrival, steps, times)?;
    Ok(first_of(&weights))
}

/// Prints what was timed.
fn tell(rt: &impl Print, what: &str, times: &Times, joined: u64) -> Result<()> {
    tell_joined(rt, what, times.moved, times.passes, joined).and(tell_time(
        rt,
        "no vote moved",
        times.unmoved,
    ))
}

/// Times the rounds of an arrival, and prints what they took.
fn measure_arrival<L: Ledger>(
    rt: &(impl AllocGlobal + Print + CpuClock),
    array: &mut BlockArray,
    balances: &[u64],
    what: &str,
    arrival: Arrival,
    steps: &mut Steps<L>,
) -> Result<()>
    requires nodes { length array.old.nodes ≡ 1024 }
    ensures nodes { length array.new.nodes ≡ 1024 }
{
    let mut times = Times::none();
    match time_arrival(rt, array, balances, arrival, steps, &mut times) {
        Ok(joined) => tell(rt, what, &times, joined),
        Err(refused) => Err(refused.into()),
    }
}

/// The balances of all validators.
fn balances(alloc: Global) -> Result<Vec<u64>, AllocError>
    ensures { IfOk result (λ list. length list.items ≤ 2 ^ 40) }
{
    vec![in alloc; BALANCE; VALIDATORS]
}

/// Times the rounds in each order.
fn measure_orders<L: Ledger>(
    rt: &(impl AllocGlobal + Print + CpuClock),
    array: &mut BlockArray,
    balances: &[u64],
    steps: &mut Steps<L>,
) -> Result<()>
    requires nodes { length array.old.nodes ≡ 1024 }
{
    let what =
        "weights and head of 262144 validators over 1024 nodes, 20 times, all votes moved in order of validators, against as many passes";
    measure_arrival(rt, array, balances, what, IN_ORDER, steps)?;
    let what = "the same in a scattered order";
    measure_arrival(rt, array, balances, what, SCATTERED, steps)
}

/// Gives the array its balances, and measures on it.
fn measure_on<L: Ledger>(
    rt: &(impl AllocGlobal + Print + CpuClock),
    array: &mut BlockArray,
    steps: &mut Steps<L>,
) -> Result<()>
    requires nodes { length array.old.nodes ≡ 1024 }
{
    let total = u128::from(BALANCE) * VALIDATORS as u128;
    array.set_balances(balances(rt.alloc())?, VALIDATORS as u64, total);
    array.apply(steps);
    let balances = balances(rt.alloc())?;
    measure_orders(rt, array, &balances, steps)
}

/// Makes the array, and measures on it.
fn measure_with<L: Ledger>(rt: &(impl AllocGlobal + Print + CpuClock), blank: Blank) -> Result<()>
    requires name { blank.name ≡ L.name }
    requires parts { blank.parts ≡ L.parts }
    requires some { 0 < blank.parts }
{
    let mut steps = Steps::<L>::new(blank);
    match chain(rt.alloc()) {
        Ok(mut array) => measure_on(rt, &mut array, &mut steps),
        Err(stop) => Err(stop.into()),
    }
}

/// Measures weights and the head.
pub fn measure(rt: &(impl AllocGlobal + Print + CpuClock)) -> Result<()> {
    measure_with::<Brand>(rt, Blank::new(1))
}
