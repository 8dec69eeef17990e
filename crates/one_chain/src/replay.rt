//! The command `replay`: configuration, genesis and record are read in this order, each only where the ones before it
//! have no fault, and each event's line is written before the next frame is read.

ghost use Rattle.std.specs.Prelude.{◌≡◌, ◌≢◌, ◌<◌, ◌+◌, ◌^◌, ◌∷◌, [], length, Some, None};
ghost use Rattle.spec_replay.specs.Run.{with_files, with_genesis};
ghost use Rattle.one_chain.specs.Answers.{OutsideKeeps, Replayed, taken_of};
ghost use Rattle.spec_state.specs.Genesis.{genesis_fault};
ghost use Rattle.one_chain.specs.inside.GenesisAnswers.{run_from};

use crate::events::replay_record;
use crate::genesis::{MAX_GENESIS_LEN, no_genesis, no_store, read_genesis};
use crate::reading::{read_named, unread};
use crate::status::Status;
use bc_outside::{Shelf, Sink};
use bc_preset::{Config, MAX_CONFIG_LEN};
use beacon_state::State;
use command_arguments::ReplayFiles;
use fork_store::Store;
use std::alloc::Global;

/// Opens the store at genesis, and reads the record.
#[tactic(auto, using(crate::proofs::Readers::one_block))]
fn replay_from<F: Shelf, O: Sink>(
    alloc: Global,
    config: &Config,
    genesis: State,
    record_name: &str,
    shelf: &mut F,
    out: &mut O,
) -> Status
    requires few { length (F.told shelf.old).files < 2 ^ 32 }
    requires genesis { (genesis.preset ≡ config.now.preset) × (genesis_fault genesis ≡ None) }
    ensures answers { Replayed (λ contents. run_from config.now genesis (contents record_name.now)) (λ contents opened. run_from config.now genesis (taken_of 0 opened))
        (record_name.now ∷ []) result (F.told shelf.old) (F.told shelf.new) (O.told out.old).taken (O.told out.new).taken }
    ensures command { result ≢ Status.Words }
    ensures outside { OutsideKeeps (record_name.now ∷ []) (Some result)
        (F.told shelf.old) (F.told shelf.new) (O.told out.old) (O.told out.new) }
{
    match Store::new(alloc, config, genesis) {
        Ok(mut store) => replay_record(alloc, &mut store, record_name, shelf, out),
        Err(stop) => no_store(stop),
    }
}

/// Reads the genesis state and then the record, under this configuration.
fn replay_genesis<F: Shelf, O: Sink>(
    alloc: Global,
    config: &Config,
    genesis_name: &str,
    record_name: &str,
    shelf: &mut F,
    out: &mut O,
) -> Status
    requires { length (F.told shelf.old).files + 1 < 2 ^ 32 }
    ensures answers { Replayed (λ contents. with_genesis config.now (contents genesis_name.now) (contents record_name.now))
        (λ contents opened. with_genesis config.now (contents genesis_name.now) (taken_of 1 opened))
        (genesis_name.now ∷ record_name.now ∷ []) result (F.told shelf.old) (F.told shelf.new) (O.told out.old).taken (O.told out.new).taken }
    ensures command { result ≢ Status.Words }
    ensures outside { OutsideKeeps (genesis_name.now ∷ record_name.now ∷ []) (Some result)
        (F.told shelf.old) (F.told shelf.new) (O.told out.old) (O.told out.new) }
{
    let bytes = match read_named(alloc, shelf, genesis_name, MAX_GENESIS_LEN + 1) {
        Ok(bytes) => bytes,
        Err(trouble) => return unread(trouble),
    };
    match read_genesis(alloc, config.preset(), &bytes) {
        Ok(state) => {
            // A file of any size is in memory for no longer than it takes to read the state.
            drop(bytes);
            replay_from(alloc, config, state, record_name, shelf, out)
        }
        Err(stop) => no_genesis(stop),
    }
}

/// Reads the configuration, the genesis state and the record.
#[inline(never)]
pub fn replay<F: Shelf, O: Sink>(
    alloc: Global,
    files: &ReplayFiles<'_>,
    shelf: &mut F,
    out: &mut O,
) -> Status
    requires { length (F.told shelf.old).files + 2 < 2 ^ 32 }
    ensures answers { Replayed (λ contents. with_files (contents files.now.config.now) (contents files.now.genesis.now) (contents files.now.events.now))
        (λ contents opened. with_files (contents files.now.config.now) (contents files.now.genesis.now) (taken_of 2 opened))
        (files.now.config.now ∷ files.now.genesis.now ∷ files.now.events.now ∷ [])
        result (F.told shelf.old) (F.told shelf.new) (O.told out.old).taken (O.told out.new).taken }
    ensures command { result ≢ Status.Words }
    ensures outside { OutsideKeeps (files.now.config.now ∷ files.now.genesis.now ∷ files.now.events.now ∷ []) (Some result)
        (F.told shelf.old) (F.told shelf.new) (O.told out.old) (O.told out.new) }
{
    let bytes = match read_named(alloc, shelf, files.config, MAX_CONFIG_LEN + 1) {
        Ok(bytes) => bytes,
        Err(trouble) => return unread(trouble),
    };
    match Config::read(&bytes) {
        Ok(config) => replay_genesis(alloc, &config, files.genesis, files.events, shelf, out),
        Err(fault) => Status::Config(fault),
    }
}
