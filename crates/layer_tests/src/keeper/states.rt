//! States behind the blocks of a chain and a fork, whichever were dropped.

ghost use Rattle.std.specs.Prelude.{◌≡◌, ◌+◌, ◌-◌, ◌<◌, ◌^◌, length, slice_get, IfOk, IfSome, OnOk};
ghost use Rattle.bc_words.specs.Outcome.{done};
ghost use Rattle.layer_tests.specs.Adder.{with_deposits};

use crate::genesis::state_bytes;
use crate::keeper::adder::{Adder, counting};
use bc_preset::Preset;
use bc_words::{NoMemory, Steps, Stop};
use beacon_state::State;
use state_keeper::{Keeper, Stepper};
use std::alloc::Global;
use std::marker::Brand;
use std::sync::ledger::{Blank, Ledger};
use std::test::Fail;

/// How many blocks the chain has, genesis among them. Its block n adds n.
const CHAIN: u32 = 44;

/// Behind which block of the chain the fork begins. Each of its blocks adds a thousand.
const FORK: u32 = 12;

/// How many blocks there are in all.
const BLOCKS: u32 = 54;

/// Where the six lists of a state without validators begin: they are empty.
const STARTS: &[(usize, u32)] = &[
    (4272, 7057),
    (4348, 7057),
    (4360, 7057),
    (4364, 7057),
    (6928, 7057),
    (6932, 7057),
];

/// The answer, once what it was made with is let go.
fn let_go<S: Drop, R>(_used: S, answer: R) -> R
    ensures { result ≡ answer }
{
    answer
}

/// The state behind a block that is to come behind another one.
fn stepped<L: Ledger>(
    alloc: Global,
    keeper: &mut Keeper<Adder>,
    parent: u32,
    block: u64,
    steps: &mut Steps<L>,
) -> Result<State, Stop>
    requires { parent < length keeper.old.blocks }
    ensures state { IfOk result (λ state. IfSome (slice_get keeper.old.blocks parent) (λ before. with_deposits before.state block ≡ done state)) }
    ensures same { keeper.new ≡ keeper.old }
{
    let before = keeper.state_of(parent, steps)?;
    let answer = Adder {}.step(alloc, &before, &block);
    let_go(before, answer)
}

/// Adds a block behind another one, with the state that a step gives.
fn extend<L: Ledger>(
    alloc: Global,
    keeper: &mut Keeper<Adder>,
    parent: u32,
    block: u64,
    steps: &mut Steps<L>,
) -> Result<(), Stop>
    requires few { length keeper.old.blocks < 2 ^ 32 - 1 }
    requires parent { parent < length keeper.old.blocks }
    ensures { OnOk result (length keeper.new.blocks ≡ length keeper.old.blocks + 1) }
{
    keeper.reserve()?;
    let state = stepped(alloc, keeper, parent, block, steps)?;
    let _number = keeper.add(parent, block, state)?;
    Ok(())
}

/// Behind which block one comes.
fn parent_number(number: u32) -> u32
    requires { 0 < number }
    ensures { result < number }
{
    if number == CHAIN { FORK } else { number - 1 }
}

/// What a block adds.
fn added_by(number: u32) -> u64 {
    if number < CHAIN {
        u64::from(number)
    } else {
        1000
    }
}

/// Adds the blocks of the chain and of the fork.
fn add_blocks<L: Ledger>(
    alloc: Global,
    keeper: &mut Keeper<Adder>,
    steps: &mut Steps<L>,
) -> Result<(), Stop>
    requires { length keeper.old.blocks ≡ 1 }
    ensures { OnOk result (length keeper.new.blocks ≡ 54) }
{
    for number in 1..BLOCKS {
        extend(
            alloc,
            keeper,
            parent_number(number),
            added_by(number),
            steps,
        )?;
    }
    Ok(())
}

/// What the chain of blocks down to one adds up to.
fn count_at(number: u64) -> u64
    requires { number < 54 }
{
    if number < 44 {
        number * (number + 1) / 2
    } else {
        78 + 1000 * (number - 43)
    }
}

/// Whether a state has the count and the root of the other one.
fn is_same(state: &State, expected: &State) -> bool {
    (state.eth1_deposit_index() == expected.eth1_deposit_index())
        & (state.root() == expected.root())
}

/// Whether the state is that of genesis but for its count.
fn counts(state: &State, genesis: &State, count: u64) -> bool {
    match counting(genesis, count) {
        Ok(expected) => is_same(state, &expected),
        Err(_refused) => false,
    }
}

/// Whether the state behind a block is the one with that count.
fn state_holds<L: Ledger>(
    keeper: &mut Keeper<Adder>,
    genesis: &State,
    number: u32,
    steps: &mut Steps<L>,
) -> bool
    requires inside { number < length keeper.old.blocks }
    requires few { number < 54 }
    ensures { keeper.new ≡ keeper.old }
{
    match keeper.state_of(number, steps) {
        Ok(state) => counts(&state, genesis, count_at(u64::from(number))),
        Err(_refused) => false,
    }
}

/// Which block's state is asked for in a round: each one's twice, once with neighbours far away, and once in order.
fn asked_in(round: u32) -> u32
    requires { round < 108 }
    ensures { result < 54 }
{
    if round < BLOCKS {
        17 * round % BLOCKS
    } else {
        round - BLOCKS
    }
}

/// Whether the states behind all blocks, each asked for twice, are those with their counts.
fn states_hold<L: Ledger>(keeper: &mut Keeper<Adder>, genesis: &State, steps: &mut Steps<L>) -> bool
    requires { length keeper.old.blocks ≡ 54 }
    ensures { length keeper.new.blocks ≡ 54 }
{
    let mut all = true;
    for round in 0..2 * BLOCKS {
        all &= state_holds(keeper, genesis, asked_in(round), steps);
    }
    all
}

/// Whether a chain and a fork behind genesis have their states, the last block of the chain and the first one of the fork being
/// those that were added.
fn blocks_hold<L: Ledger>(
    alloc: Global,
    keeper: &mut Keeper<Adder>,
    genesis: &State,
    steps: &mut Steps<L>,
) -> Result<bool, Stop>
    requires { length keeper.old.blocks ≡ 1 }
{
    add_blocks(alloc, keeper, steps)?;
    let states = states_hold(keeper, genesis, steps);
    Ok(states & (*keeper.block(43) == 43) & (*keeper.block(44) == 1000))
}

/// A keeper of genesis alone.
fn keeper_of(alloc: Global, genesis: &State) -> Result<Keeper<Adder>, NoMemory>
    ensures { IfOk result (λ keeper. length keeper.blocks ≡ 1) }
{
    Keeper::new(alloc, Adder {}, 0, genesis.share()?)
}

/// The same with a keeper and a count of steps of its own.
fn chain_holds<L: Ledger>(alloc: Global, genesis: &State, blank: Blank) -> bool
    requires name { blank.name ≡ L.name }
    requires parts { blank.parts ≡ L.parts }
    requires some { 0 < blank.parts }
{
    let mut steps = Steps::<L>::new(blank);
    match keeper_of(alloc, genesis) {
        Ok(mut keeper) => {
            matches!(
                blocks_hold(alloc, &mut keeper, genesis, &mut steps),
                Ok(true)
            )
        }
        Err(_refused) => false,
    }
}

/// The same behind the genesis that is read of these bytes.
fn read_chain_holds(alloc: Global, bytes: &[u8]) -> bool {
    match State::read(alloc, &Preset::minimal(), bytes) {
        Ok(genesis) => chain_holds::<Brand>(alloc, &genesis, Blank::new(1)),
        Err(_fault) => false,
    }
}

#[test]
fn states_of_a_chain_and_a_fork(rt: HostRuntime) -> Result<(), Fail> {
    let bytes = state_bytes(rt.alloc(), 7057, STARTS)?;
    let holds = read_chain_holds(rt.alloc(), &bytes);
    assert!(rt; holds);
    Ok(())
}
