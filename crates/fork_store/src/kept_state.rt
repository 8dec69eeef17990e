//! The state behind a kept block, which the keeper makes again where it was dropped.
//!
//! Numbers come from the roots of events and checkpoints; states go to the state transition and to the slots behind a checkpoint.

ghost use Rattle.state_keeper.specs.Chain.{HasState};
ghost use Rattle.std.specs.Prelude.{◌≡◌, ◌<◌, length, IfOk, ℕ, List, Some};
ghost use Rattle.fork_store.specs.Arrays.{node_number};
ghost use Rattle.fork_store.specs.Keepers.{kept_blocks};
ghost use Rattle.fork_store.specs.inside.Keepers.{IsStateBehind};

use crate::chain_stepper::ChainStepper;
use crate::kept_blocks::KeptBlocks;
use bc_words::{NoMemory, Steps};
use beacon_state::State;
use state_keeper::Keeper;
use std::marker::Brand;
use std::sync::ledger::{Blank, Ledger};

/// The state of a number, by a counter of the blank's ledger.
fn counted<L: Ledger>(
    keeper: &mut Keeper<ChainStepper>,
    number: u32,
    blank: Blank,
) -> Result<State, NoMemory>
    requires name { blank.name ≡ L.name }
    requires parts { blank.parts ≡ L.parts }
    requires some { 0 < blank.parts }
    requires inside { number < length keeper.old.blocks }
    ensures state { IfOk result (λ state. HasState keeper.old.blocks number state) }
    ensures same { keeper.new ≡ keeper.old }
{
    let mut steps = Steps::<L>::new(blank);
    keeper.state_of(number, &mut steps)
}

/// The state of a number. Its steps aren't counted.
pub fn state_of(keeper: &mut Keeper<ChainStepper>, number: u32) -> Result<State, NoMemory>
    requires { number < length keeper.old.blocks }
    ensures state { IfOk result (λ state. HasState keeper.old.blocks number state) }
    ensures same { keeper.new ≡ keeper.old }
{
    counted::<Brand>(keeper, number, Blank::new(1))
}

/// The state behind the kept block of a number. It stops for want of memory alone, and the keeper is as before either way.
pub fn kept_state(
    blocks: &KeptBlocks,
    keeper: &mut Keeper<ChainStepper>,
    number: u32,
) -> Result<State, NoMemory>
    requires keeper { kept_blocks keeper.old.blocks ≡ blocks.now }
    requires inside { number < length blocks.now }
    ensures state { IfOk result (λ state. (root : List ℕ) → Some number ≡ node_number blocks.now root → IsStateBehind blocks.now root state) }
    ensures same { keeper.new ≡ keeper.old }
{
    blocks.are_kept();
    state_of(keeper, number)
}
