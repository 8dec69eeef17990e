//! The command `genesis`: configuration and deposits are read in this order, the second only where the first has no fault, and
//! the state that the deposits make is written.

ghost use Rattle.std.specs.Prelude.{◌≡◌, ◌≢◌, ◌<◌, ◌+◌, ◌^◌, ◌∷◌, [], length, Ok};
ghost use Rattle.bc_preset.specs.Presets.{IsPreset};
ghost use Rattle.spec_state.specs.States.{state_codec};
ghost use Rattle.spec_state.specs.Writing.{HasWriting};
ghost use Rattle.spec_genesis.specs.DepositsFile.{genesis_file_of};
ghost use Rattle.spec_replay.specs.Genesis.{genesis_run, make_genesis, write_genesis};
ghost use Rattle.one_chain.specs.Answers.{OutsideKeeps, Replayed, whole_of};
ghost use Rattle.one_chain.specs.inside.Making.{EndsWhole, OnlyWrites, no_made_genesis};

use crate::reading::{read_named, unread};
use crate::status::Status;
use crate::writing::unwritten;
use bc_outside::{Shelf, Sink, write_all};
use bc_preset::{Config, MAX_CONFIG_LEN, Preset};
use beacon_state::State;
use command_arguments::GenesisFiles;
use genesis_maker::{DepositsStop, MAX_DEPOSITS_LEN, genesis_of_file};
use std::alloc::Global;

/// The status of deposits that make no genesis.
fn no_made_genesis(stop: DepositsStop) -> Status
    ensures { result ≡ no_made_genesis stop }
{
    match stop {
        DepositsStop::Fault(fault) => Status::Deposits(fault),
        DepositsStop::NoMemory => Status::NoMemory,
    }
}

/// Writes the genesis file.
fn write_file<O: Sink>(file: &[u8], out: &mut O) -> Status
    ensures ends { EndsWhole result (write_genesis (Ok file.now)) (O.told out.old).taken (O.told out.new).taken }
    ensures command { result ≢ Status.Words }
    ensures outside { OnlyWrites result (O.told out.old) (O.told out.new) }
{
    match write_all(out, file) {
        Ok(()) => Status::Done,
        Err(trouble) => unwritten(trouble),
    }
}

/// Writes the state, which is let go before its bytes go out.
fn write_state<O: Sink>(alloc: Global, state: State, out: &mut O) -> Status
    requires { HasWriting state }
    ensures ends { EndsWhole result (write_genesis (Ok ((state_codec state.preset).serialize state))) (O.told out.old).taken (O.told out.new).taken }
    ensures command { result ≢ Status.Words }
    ensures outside { OnlyWrites result (O.told out.old) (O.told out.new) }
{
    match state.write(alloc) {
        Ok(file) => {
            drop(state);
            write_file(&file, out)
        }
        Err(_) => Status::NoMemory,
    }
}

/// Makes the genesis of the deposits, which are let go with their bytes, and writes it.
fn write_genesis<O: Sink>(alloc: Global, preset: &Preset, deposits: Vec<u8>, out: &mut O) -> Status
    requires { IsPreset preset.now }
    ensures ends { EndsWhole result (write_genesis (genesis_file_of preset.now deposits.items)) (O.told out.old).taken (O.told out.new).taken }
    ensures command { result ≢ Status.Words }
    ensures outside { OnlyWrites result (O.told out.old) (O.told out.new) }
{
    match genesis_of_file(alloc, preset, &deposits) {
        Ok(state) => {
            drop(deposits);
            write_state(alloc, state, out)
        }
        Err(stop) => no_made_genesis(stop),
    }
}

/// Reads the deposits, and writes the genesis that they make under this configuration.
fn make_under<F: Shelf, O: Sink>(
    alloc: Global,
    config: &Config,
    deposits_name: &str,
    shelf: &mut F,
    out: &mut O,
) -> Status
    requires { length (F.told shelf.old).files < 2 ^ 32 }
    ensures answers { Replayed (λ contents. make_genesis config.now (contents deposits_name.now))
        (λ contents opened. whole_of result (make_genesis config.now (contents deposits_name.now)))
        (deposits_name.now ∷ []) result (F.told shelf.old) (F.told shelf.new) (O.told out.old).taken (O.told out.new).taken }
    ensures command { result ≢ Status.Words }
    ensures outside { OutsideKeeps (deposits_name.now ∷ []) (Some result)
        (F.told shelf.old) (F.told shelf.new) (O.told out.old) (O.told out.new) }
{
    match read_named(alloc, shelf, deposits_name, MAX_DEPOSITS_LEN + 1) {
        Ok(deposits) => write_genesis(alloc, config.preset(), deposits, out),
        Err(trouble) => unread(trouble),
    }
}

/// Reads the configuration and the deposits, and writes the genesis state that they make.
#[inline(never)]
pub fn make_genesis<F: Shelf, O: Sink>(
    alloc: Global,
    files: &GenesisFiles<'_>,
    shelf: &mut F,
    out: &mut O,
) -> Status
    requires { length (F.told shelf.old).files + 1 < 2 ^ 32 }
    ensures answers { Replayed (λ contents. genesis_run (contents files.now.config.now) (contents files.now.deposits.now))
        (λ contents opened. whole_of result (genesis_run (contents files.now.config.now) (contents files.now.deposits.now)))
        (files.now.config.now ∷ files.now.deposits.now ∷ []) result (F.told shelf.old) (F.told shelf.new) (O.told out.old).taken (O.told out.new).taken }
    ensures command { result ≢ Status.Words }
    ensures outside { OutsideKeeps (files.now.config.now ∷ files.now.deposits.now ∷ []) (Some result)
        (F.told shelf.old) (F.told shelf.new) (O.told out.old) (O.told out.new) }
{
    let bytes = match read_named(alloc, shelf, files.config, MAX_CONFIG_LEN + 1) {
        Ok(bytes) => bytes,
        Err(trouble) => return unread(trouble),
    };
    match Config::read(&bytes) {
        Ok(config) => make_under(alloc, &config, files.deposits, shelf, out),
        Err(fault) => Status::Config(fault),
    }
}
