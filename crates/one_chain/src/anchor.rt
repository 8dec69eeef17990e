//! The command `anchor`: configuration, state, block and record are read in this order, each only where the ones before it leave the
//! end open, and each event's line is written before the next frame is read.

ghost use Rattle.std.specs.Prelude.{◌≡◌, ◌≢◌, ◌<◌, ◌+◌, ◌^◌, ◌∷◌, [], length, Some, None, IfOk};
ghost use Rattle.bc_preset.specs.Presets.{IsPreset};
ghost use Rattle.spec_fork_choice.specs.Anchor.{anchor_block_of, anchor_fault, anchor_state_of, unless_fault};
ghost use Rattle.spec_replay.specs.Anchor.{anchor_run, run_at, with_block_file, with_state_file};
ghost use Rattle.one_chain.specs.Answers.{OutsideKeeps, Replayed, taken_of};
ghost use Rattle.one_chain.specs.inside.AnchorAnswers.{GivesAnchor, no_anchor, no_anchor_block, no_anchor_state};

use crate::events::replay_record;
use crate::genesis::no_store;
use crate::reading::{read_named, unread};
use crate::status::Status;
use bc_outside::{Shelf, Sink};
use bc_preset::{Config, MAX_CONFIG_LEN, Preset};
use beacon_state::State;
use beacon_types::BeaconBlock;
use command_arguments::AnchorFiles;
use fork_store::{AnchorStop, Store, anchor_check};
use spec_fork_choice::AnchorFault;
use ssz_codec::{Ssz, SszFault};
use std::alloc::Global;

/// The longest file of a state, in bytes.
const MAX_STATE_LEN: usize = 1 << 30;

/// The longest file of a block, in bytes.
const MAX_BLOCK_LEN: usize = 1 << 22;

/// The status of files that hold no anchor.
fn no_anchor(stop: AnchorStop) -> Status
    ensures { result ≡ no_anchor stop }
{
    match stop {
        AnchorStop::Fault(fault) => Status::Anchor(fault),
        AnchorStop::NoMemory => Status::NoMemory,
    }
}

/// Why bytes that are no state hold no anchor.
fn no_anchor_state(fault: SszFault) -> AnchorStop
    ensures { result ≡ no_anchor_state fault }
{
    match fault {
        SszFault::NotAWriting => AnchorStop::Fault(AnchorFault::StateNotAWriting),
        SszFault::NoMemory => AnchorStop::NoMemory,
    }
}

/// Why bytes that are no block hold no anchor.
fn no_anchor_block(fault: SszFault) -> AnchorStop
    ensures { result ≡ no_anchor_block fault }
{
    match fault {
        SszFault::NotAWriting => AnchorStop::Fault(AnchorFault::BlockNotAWriting),
        SszFault::NoMemory => AnchorStop::NoMemory,
    }
}

/// Reads a state of the preset.
#[tactic(auto, using(spec_state::proofs::Limits::within_preset), unfolding(spec_fork_choice::specs::Anchor::anchor_state_of))]
fn read_state(alloc: Global, preset: &Preset, bytes: &[u8]) -> Result<State, AnchorStop>
    requires { IsPreset preset.now }
    ensures gives { GivesAnchor result (anchor_state_of preset.now bytes.now) }
    ensures preset { IfOk result (λ state. state.preset ≡ preset.now) }
{
    if bytes.len() > MAX_STATE_LEN {
        return Err(AnchorStop::Fault(AnchorFault::StateTooLong));
    }
    match State::read(alloc, preset, bytes) {
        Ok(state) => Ok(state),
        Err(fault) => Err(no_anchor_state(fault)),
    }
}

/// The block, if it and the state are an anchor.
fn checked(
    alloc: Global,
    config: &Config,
    state: &State,
    block: BeaconBlock,
) -> Result<BeaconBlock, AnchorStop>
    ensures gives { GivesAnchor result (unless_fault block (anchor_fault config.now state.now block)) }
    ensures checked { IfOk result (λ anchor. anchor_fault config.now state.now anchor ≡ None) }
{
    match anchor_check(alloc, config, state, &block) {
        Ok(()) => Ok(block),
        Err(stop) => Err(stop),
    }
}

/// Reads the block of a state, and checks both.
#[tactic(auto, unfolding(spec_fork_choice::specs::Anchor::anchor_block_of))]
fn read_block(
    alloc: Global,
    config: &Config,
    state: &State,
    bytes: &[u8],
) -> Result<BeaconBlock, AnchorStop>
    ensures gives { GivesAnchor result (anchor_block_of config.now state.now bytes.now) }
    ensures checked { IfOk result (λ block. anchor_fault config.now state.now block ≡ None) }
{
    if bytes.len() > MAX_BLOCK_LEN {
        return Err(AnchorStop::Fault(AnchorFault::BlockTooLong));
    }
    match BeaconBlock::read(alloc, bytes) {
        Ok(block) => checked(alloc, config, state, block),
        Err(fault) => Err(no_anchor_block(fault)),
    }
}

/// Opens the store at the anchor, and reads the record.
#[tactic(auto, using(crate::proofs::AnchorReaders::one_block))]
fn replay_from<F: Shelf, O: Sink>(
    alloc: Global,
    config: &Config,
    state: State,
    block: BeaconBlock,
    record_name: &str,
    shelf: &mut F,
    out: &mut O,
) -> Status
    requires few { length (F.told shelf.old).files < 2 ^ 32 }
    requires preset { state.preset ≡ config.now.preset }
    requires anchor { anchor_fault config.now state block ≡ None }
    ensures answers { Replayed (λ contents. run_at config.now state block (contents record_name.now)) (λ contents opened. run_at config.now state block (taken_of 0 opened))
        (record_name.now ∷ []) result (F.told shelf.old) (F.told shelf.new) (O.told out.old).taken (O.told out.new).taken }
    ensures command { result ≢ Status.Words }
    ensures outside { OutsideKeeps (record_name.now ∷ []) (Some result)
        (F.told shelf.old) (F.told shelf.new) (O.told out.old) (O.told out.new) }
{
    match Store::new_at(alloc, config, state, block) {
        Ok(mut store) => replay_record(alloc, &mut store, record_name, shelf, out),
        Err(stop) => no_store(stop),
    }
}

/// Reads the block of a state, and then the record, under this configuration.
fn replay_block<F: Shelf, O: Sink>(
    alloc: Global,
    config: &Config,
    state: State,
    block_name: &str,
    record_name: &str,
    shelf: &mut F,
    out: &mut O,
) -> Status
    requires few { length (F.told shelf.old).files + 1 < 2 ^ 32 }
    requires preset { state.preset ≡ config.now.preset }
    ensures answers { Replayed (λ contents. with_block_file config.now state (contents block_name.now) (contents record_name.now))
        (λ contents opened. with_block_file config.now state (contents block_name.now) (taken_of 1 opened))
        (block_name.now ∷ record_name.now ∷ []) result (F.told shelf.old) (F.told shelf.new) (O.told out.old).taken (O.told out.new).taken }
    ensures command { result ≢ Status.Words }
    ensures outside { OutsideKeeps (block_name.now ∷ record_name.now ∷ []) (Some result)
        (F.told shelf.old) (F.told shelf.new) (O.told out.old) (O.told out.new) }
{
    let bytes = match read_named(alloc, shelf, block_name, MAX_BLOCK_LEN + 1) {
        Ok(bytes) => bytes,
        Err(trouble) => return unread(trouble),
    };
    match read_block(alloc, config, &state, &bytes) {
        Ok(block) => {
            drop(bytes);
            replay_from(alloc, config, state, block, record_name, shelf, out)
        }
        Err(stop) => no_anchor(stop),
    }
}

/// Reads the state, its block and then the record, under this configuration.
fn replay_state<F: Shelf, O: Sink>(
    alloc: Global,
    config: &Config,
    state_name: &str,
    block_name: &str,
    record_name: &str,
    shelf: &mut F,
    out: &mut O,
) -> Status
    requires { length (F.told shelf.old).files + 2 < 2 ^ 32 }
    ensures answers { Replayed (λ contents. with_state_file config.now (contents state_name.now) (contents block_name.now) (contents record_name.now))
        (λ contents opened. with_state_file config.now (contents state_name.now) (contents block_name.now) (taken_of 2 opened))
        (state_name.now ∷ block_name.now ∷ record_name.now ∷ []) result (F.told shelf.old) (F.told shelf.new) (O.told out.old).taken (O.told out.new).taken }
    ensures command { result ≢ Status.Words }
    ensures outside { OutsideKeeps (state_name.now ∷ block_name.now ∷ record_name.now ∷ []) (Some result)
        (F.told shelf.old) (F.told shelf.new) (O.told out.old) (O.told out.new) }
{
    let bytes = match read_named(alloc, shelf, state_name, MAX_STATE_LEN + 1) {
        Ok(bytes) => bytes,
        Err(trouble) => return unread(trouble),
    };
    match read_state(alloc, config.preset(), &bytes) {
        Ok(state) => {
            // A file of any size is in memory for no longer than it takes to read the state.
            drop(bytes);
            replay_block(alloc, config, state, block_name, record_name, shelf, out)
        }
        Err(stop) => no_anchor(stop),
    }
}

/// Reads the configuration, the state, its block and the record.
#[inline(never)]
pub fn anchor<F: Shelf, O: Sink>(
    alloc: Global,
    files: &AnchorFiles<'_>,
    shelf: &mut F,
    out: &mut O,
) -> Status
    requires { length (F.told shelf.old).files + 3 < 2 ^ 32 }
    ensures answers { Replayed (λ contents. anchor_run (contents files.now.config.now) (contents files.now.state.now) (contents files.now.block.now) (contents files.now.events.now))
        (λ contents opened. anchor_run (contents files.now.config.now) (contents files.now.state.now) (contents files.now.block.now) (taken_of 3 opened))
        (files.now.config.now ∷ files.now.state.now ∷ files.now.block.now ∷ files.now.events.now ∷ [])
        result (F.told shelf.old) (F.told shelf.new) (O.told out.old).taken (O.told out.new).taken }
    ensures command { result ≢ Status.Words }
    ensures outside { OutsideKeeps (files.now.config.now ∷ files.now.state.now ∷ files.now.block.now ∷ files.now.events.now ∷ []) (Some result)
        (F.told shelf.old) (F.told shelf.new) (O.told out.old) (O.told out.new) }
{
    let bytes = match read_named(alloc, shelf, files.config, MAX_CONFIG_LEN + 1) {
        Ok(bytes) => bytes,
        Err(trouble) => return unread(trouble),
    };
    match Config::read(&bytes) {
        Ok(config) => replay_state(
            alloc,
            &config,
            files.state,
            files.block,
            files.events,
            shelf,
            out,
        ),
        Err(fault) => Status::Config(fault),
    }
}
