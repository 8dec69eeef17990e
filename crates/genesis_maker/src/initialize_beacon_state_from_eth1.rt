//! The state that a chain begins with, of the deposits of the contract (beacon-chain.md, "Genesis"). The deposits come from the file,
//! and the state goes to a genesis file.

ghost use Rattle.std.specs.Prelude.{◌≡◌, ◌≤◌, ◌<◌, ◌*◌, ◌^◌, [], length, IfOk};
ghost use Rattle.bc_preset.specs.Presets.{IsPreset};
ghost use Rattle.block_operations.specs.Indexes.{Indexes};
ghost use Rattle.spec_state.specs.Writing.{HasWriting};
ghost use Rattle.spec_genesis.specs.InitializeBeaconStateFromEth1.{activated, initialize_beacon_state_from_eth1, process_genesis_deposits};
ghost use Rattle.spec_genesis.specs.MadeGenesis.{IsGenesis};
ghost use Rattle.spec_genesis.specs.Overflows.{first_overflow};
ghost use Rattle.genesis_maker.specs.inside.Making.{EndsWith, EndsBehind, GivesGenesis, MakesBy, OverflowsBy, make_stop};

use crate::activations::activate;
use crate::deposit_tree::DepositTree;
use crate::deposits::Deposits;
use crate::process_genesis_deposit::{Making, process_genesis_deposit};
use crate::state_before_deposits::{given_in_range, state_before_deposits};
use crate::stops::{MakeStop, StoppedAt};
use bc_preset::Preset;
use bc_words::{NoMemory, Stop};
use beacon_state::State;
use block_operations::PubkeyIndex;
use hash_tree::Root;
use std::alloc::Global;

/// The deposits are processed in their order.
fn process_deposits(
    alloc: Global,
    making: &mut Making,
    deposits: &mut Deposits<'_>,
) -> Result<(), StoppedAt>
    requires none { making.old.tree ≡ [] }
    requires few { length deposits.old < 2 ^ 32 }
    requires keys { Indexes making.old.keys making.old.state.validators }
    ensures { EndsWith result making.new.state (process_genesis_deposits making.old.state [] deposits.old) }
{
    for index in 0..deposits.len() {
        let deposit = match deposits.next(alloc) {
            Ok(deposit) => deposit,
            Err(NoMemory) => {
                return Err(StoppedAt {
                    index,
                    stop: Stop::NoMemory,
                });
            }
        };
        match process_genesis_deposit(alloc, making, deposit) {
            Ok(()) => {}
            Err(stop) => return Err(StoppedAt { index, stop }),
        }
    }
    Ok(())
}

/// The state behind the deposits, which come behind none on this state.
fn behind_deposits(
    alloc: Global,
    state: State,
    mut deposits: Deposits<'_>,
) -> Result<State, StoppedAt>
    requires few { length deposits < 2 ^ 32 }
    ensures { EndsBehind result (process_genesis_deposits state [] deposits.entry) }
{
    match PubkeyIndex::of(alloc, &state) {
        Ok(keys) => {
            let mut making = Making {
                state,
                tree: DepositTree::new(alloc),
                keys,
            };
            process_deposits(alloc, &mut making, &mut deposits)?;
            Ok(making.state)
        }
        Err(NoMemory) => Err(StoppedAt {
            index: 0,
            stop: Stop::NoMemory,
        }),
    }
}

/// Why no genesis is made where a deposit stops the making. No deposit meets a bound of this program, and nothing but a balance
/// that doesn't fit is refused.
fn make_stop(stopped: StoppedAt) -> MakeStop
    ensures { result ≡ make_stop stopped }
{
    match stopped.stop {
        Stop::Refused(_) | Stop::Limit(_) => MakeStop::Overflow(stopped.index),
        Stop::NoMemory => MakeStop::NoMemory,
    }
}

/// The state behind the deposits, and then its validators.
fn made_from(alloc: Global, state: State, deposits: Deposits<'_>) -> Result<State, MakeStop>
    requires few { length deposits < 2 ^ 32 }
    ensures { MakesBy result (activated (process_genesis_deposits state [] deposits.entry)) }
{
    match behind_deposits(alloc, state, deposits) {
        Ok(mut made) => {
            activate(alloc, &mut made)?;
            Ok(made)
        }
        Err(stopped) => Err(make_stop(stopped)),
    }
}

/// Makes the state of a genesis from the deposits of the contract (beacon-chain.md, `initialize_beacon_state_from_eth1`), under this
/// fork version and genesis time, GENESIS_DELAY already added. Each deposit is read and applied once, and none is kept.
///
/// `Overflow` is the first deposit, from 0, whose amount doesn't fit into the balance of its key. Nothing else stops the making but
/// want of memory: each branch holds, and the registry has room. The made state is a genesis that `genesis_check` accepts, and has a
/// writing where the deposits stand in one file.
pub fn make_genesis(
    alloc: Global,
    preset: &Preset,
    version: [u8; 4],
    time: u64,
    eth1_block_hash: Root,
    deposits: Deposits<'_>,
) -> Result<State, MakeStop>
    requires preset { IsPreset preset.now }
    requires few { length deposits < 2 ^ 32 }
    ensures made { GivesGenesis result (initialize_beacon_state_from_eth1 preset.now version eth1_block_hash time deposits.entry) }
    ensures overflow { OverflowsBy result (first_overflow [] deposits.entry) }
    ensures genesis { IfOk result (λ state. IsGenesis state) }
    ensures preset { IfOk result (λ state. state.preset ≡ preset.now) }
    ensures writing { length deposits.entry * 184 ≤ 2 ^ 30 → IfOk result (λ state. HasWriting state) }
{
    given_in_range(version, &eth1_block_hash);
    let count = deposits.len();
    let start = state_before_deposits(alloc, preset, version, eth1_block_hash, time, count)?;
    made_from(alloc, start, deposits)
}
