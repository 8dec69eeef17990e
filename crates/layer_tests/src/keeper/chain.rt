//! The step of the state transition, as the keeper of states takes it.

ghost use Rattle.std.specs.Prelude.{◌≡◌, false, IfOk};
ghost use Rattle.bc_preset.specs.Presets.{IsPreset};
ghost use Rattle.fork_store.specs.ChainStep.{CanStep};
ghost use Rattle.beacon_types.specs.Equality.{same_root};
ghost use Rattle.spec_state.specs.Genesis.{header_root_of, zero_root};
ghost use Rattle.spec_state.specs.States.{state_codec};
ghost use Rattle.spec_state.specs.Soundness.{IsSound};

use crate::genesis::{place, state_bytes};
use bc_preset::{Config, Preset};
use bc_words::{Refusal, Stop};
use beacon_state::State;
use beacon_types::{BeaconBlock, BeaconBlockBody, Eth1Data, SignedBeaconBlock};
use fork_store::ChainStepper;
use hash_tree::Root;
use ssz_codec::{Items, LimitedList, SszFault, VariableList};
use state_keeper::Stepper;
use std::alloc::{AllocError, Global};
use std::test::Fail;
use transition::is_sound;
use transition::process_block::process_block;
use transition::process_slots::process_slots;

/// A configuration of the minimal preset.
const MINIMAL: &[u8] = b"PRESET_BASE: minimal
SECONDS_PER_SLOT: 6
MIN_VALIDATOR_WITHDRAWABILITY_DELAY: 256
SHARD_COMMITTEE_PERIOD: 64
EJECTION_BALANCE: 16000000000
MIN_PER_EPOCH_CHURN_LIMIT: 4
CHURN_LIMIT_QUOTIENT: 32
PROPOSER_SCORE_BOOST: 40
";

/// The body whose fields are all zero or empty.
fn empty_body(alloc: Global) -> BeaconBlockBody {
    BeaconBlockBody {
        randao_reveal: [0; 96],
        eth1_data: Eth1Data {
            deposit_root: [0; 32],
            deposit_count: 0,
            block_hash: [0; 32],
        },
        graffiti: [0; 32],
        proposer_slashings: LimitedList::from_items(Items::new(alloc)),
        attester_slashings: VariableList::from_items(Items::new(alloc)),
        attestations: VariableList::from_items(Items::new(alloc)),
        deposits: LimitedList::from_items(Items::new(alloc)),
        voluntary_exits: LimitedList::from_items(Items::new(alloc)),
    }
}

/// Where the six lists of a state with one validator begin.
const STARTS: &[(usize, u32)] = &[
    (4272, 7057),
    (4348, 7057),
    (4360, 7057),
    (4364, 7178),
    (6928, 7186),
    (6932, 7186),
];

/// A state of the minimal preset with one validator, which is active and has the largest effective balance.
fn state_of_one(alloc: Global) -> Result<Vec<u8>, AllocError> {
    let mut bytes = state_bytes(alloc, 7186, STARTS)?;
    let balance = 32_000_000_000u64.to_le_bytes();
    place(&mut bytes, 7137, &balance);
    place(&mut bytes, 7162, &[255; 16]);
    place(&mut bytes, 7178, &balance);
    Ok(bytes)
}

/// An empty block of a slot on a state.
fn block_on(alloc: Global, state: &State, slot: u64, state_root: Root) -> SignedBeaconBlock
    ensures slot { result.message.slot ≡ slot }
    ensures parent { result.message.parent_root ≡ header_root_of state.now }
{
    SignedBeaconBlock {
        message: BeaconBlock {
            slot,
            proposer_index: 0,
            parent_root: state.header_root(),
            state_root,
            body: empty_body(alloc),
        },
        signature: [0; 96],
    }
}

/// The root of a state once a block of its slot is taken.
fn root_once_taken(
    alloc: Global,
    config: &Config,
    state: &mut State,
    block: &BeaconBlock,
) -> Result<Root, Stop>
    requires { block.now.slot ≡ state.old.slot }
{
    process_block(alloc, state, block, config)?;
    Ok(state.root())
}

/// The root of the state behind a block, made part by part.
fn root_of_parts(
    alloc: Global,
    config: &Config,
    state: &State,
    block: &BeaconBlock,
) -> Result<Root, Stop>
    requires { IsSound state.now }
{
    let mut step = process_slots(alloc, state, block.slot, config)?;
    root_once_taken(alloc, config, &mut step.state, block)
}

/// The root of the state behind an empty block of a slot.
fn root_behind(alloc: Global, config: &Config, state: &State, slot: u64) -> Result<Root, Stop>
    requires { IsSound state.now }
{
    let block = block_on(alloc, state, slot, [0; 32]);
    root_of_parts(alloc, config, state, &block.message)
}

/// The root of the state that a step by a block gives.
fn root_of_step(
    alloc: Global,
    config: &Config,
    state: &State,
    block: &SignedBeaconBlock,
) -> Result<Root, Stop>
    requires { CanStep config.now state.now block.now }
{
    let next = ChainStepper::new(config).step(alloc, state, block)?;
    Ok(next.root())
}

/// The root of the state that a step by an empty block gives.
fn step_root(
    alloc: Global,
    config: &Config,
    state: &State,
    slot: u64,
    state_root: Root,
) -> Result<Root, Stop>
    requires sound { IsSound state.now }
    requires preset { state.now.preset ≡ config.now.preset }
    requires some { same_root ((state_codec state.now.preset).hash_tree_root state.now) zero_root ≡ false }
{
    let block = block_on(alloc, state, slot, state_root);
    root_of_step(alloc, config, state, &block)
}

/// Whether a block with the root of the state behind it is taken.
fn right_is_taken(alloc: Global, config: &Config, state: &State) -> bool
    requires sound { IsSound state.now }
    requires preset { state.now.preset ≡ config.now.preset }
    requires some { same_root ((state_codec state.now.preset).hash_tree_root state.now) zero_root ≡ false }
{
    match root_behind(alloc, config, state, 1) {
        Ok(root) => {
            matches!(step_root(alloc, config, state, 1, root), Ok(found) if found == root)
        }
        Err(_stop) => false,
    }
}

/// Whether a block of slot 0, which isn't later, and one with a wrong state root are refused.
fn wrong_are_refused(alloc: Global, config: &Config, state: &State) -> bool
    requires sound { IsSound state.now }
    requires preset { state.now.preset ≡ config.now.preset }
    requires some { same_root ((state_codec state.now.preset).hash_tree_root state.now) zero_root ≡ false }
{
    let early = step_root(alloc, config, state, 0, [0; 32]);
    let wrong = step_root(alloc, config, state, 1, [0; 32]);
    matches!(early, Err(Stop::Refused(Refusal::SlotNotLater)))
        & matches!(wrong, Err(Stop::Refused(Refusal::StateRoot)))
}

/// Whether a sound state takes these steps.
fn steps_hold(alloc: Global, config: &Config, state: &State) -> bool
    requires { state.now.preset ≡ config.now.preset }
{
    if state.root() == [0; 32] {
        return false;
    }
    match is_sound(alloc, state) {
        Ok(true) => {
            wrong_are_refused(alloc, config, state) & right_is_taken(alloc, config, state)
        }
        _ => false,
    }
}

/// Reads a state of the preset.
#[tactic(auto, using(spec_state::proofs::Limits::within_preset))]
fn read_state(alloc: Global, preset: &Preset, bytes: &[u8]) -> Result<State, SszFault>
    requires { IsPreset preset.now }
    ensures { IfOk result (λ state. state.preset ≡ preset.now) }
{
    State::read(alloc, preset, bytes)
}

/// Whether the state that is read of these bytes takes these steps.
fn read_steps_hold(alloc: Global, config: &Config, bytes: &[u8]) -> bool {
    match read_state(alloc, config.preset(), bytes) {
        Ok(state) => steps_hold(alloc, config, &state),
        Err(_fault) => false,
    }
}

#[test]
fn blocks_on_a_state_of_one_validator(rt: HostRuntime) -> Result<(), Fail> {
    let config = Config::read(MINIMAL)?;
    let bytes = state_of_one(rt.alloc())?;
    let holds = read_steps_hold(rt.alloc(), &config, &bytes);
    assert!(rt; holds);
    Ok(())
}
