//! The genesis state, or what is wrong with it.

ghost use Rattle.std.specs.Prelude.{◌≡◌, None, IfOk};
ghost use Rattle.bc_preset.specs.Presets.{IsPreset};
ghost use Rattle.spec_state.specs.Genesis.{genesis_of, genesis_fault, sound_genesis};
ghost use Rattle.spec_state.specs.Limits.{IsState, IsInRange};
ghost use Rattle.spec_state.specs.Writing.{HasWriting};
ghost use Rattle.one_chain.specs.inside.GenesisAnswers.{GivesGenesis, no_genesis, no_state, no_store};

use crate::status::Status;
use bc_preset::Preset;
use bc_words::StoreStop;
use beacon_state::{State, genesis_check};
use spec_state::GenesisFault;
use ssz_codec::SszFault;
use std::alloc::Global;

/// The longest genesis file, in bytes.
pub const MAX_GENESIS_LEN: usize = 1 << 30;

/// Why there is no genesis.
#[derive(Drop)]
pub enum GenesisStop {
    /// The state has a fault, and this is the first.
    Fault(GenesisFault),
    /// Memory ran out.
    NoMemory,
}

/// The status of a genesis state that has a fault.
pub fn no_genesis(stop: GenesisStop) -> Status
    ensures { result ≡ no_genesis stop }
{
    match stop {
        GenesisStop::Fault(part) => Status::Genesis(part),
        GenesisStop::NoMemory => Status::NoMemory,
    }
}

/// The status of a genesis with which no store opens. It is never refused or limited.
pub fn no_store(stop: StoreStop) -> Status
    ensures { result ≡ no_store stop }
{
    match stop {
        StoreStop::Clash(kind) => Status::Clash {
            which: 0,
            event: 0,
            kind,
            kept_which: 0,
        },
        StoreStop::Refused(_) | StoreStop::Limit(_) | StoreStop::NoMemory => Status::NoMemory,
    }
}

/// Why bytes that are no state hold no genesis.
fn no_state(fault: SszFault) -> GenesisStop
    ensures { result ≡ no_state fault }
{
    match fault {
        SszFault::NotAWriting => GenesisStop::Fault(GenesisFault::NotAWriting),
        SszFault::NoMemory => GenesisStop::NoMemory,
    }
}

/// The state, or the first part of it that no genesis has.
fn checked(state: State) -> Result<State, GenesisStop>
    ensures gives { GivesGenesis result (sound_genesis state (genesis_fault state)) }
    ensures same { IfOk result (λ genesis. genesis ≡ state) }
    ensures checked { IfOk result (λ genesis. genesis_fault genesis ≡ None) }
{
    match genesis_check(&state) {
        Ok(()) => Ok(state),
        Err(part) => Err(GenesisStop::Fault(part)),
    }
}

/// Reads a genesis state of the preset, and checks it.
#[tactic(auto, using(spec_state::proofs::Limits::within_preset), unfolding(spec_state::specs::Genesis::genesis_of))]
pub fn read_genesis(alloc: Global, preset: &Preset, bytes: &[u8]) -> Result<State, GenesisStop>
    requires { IsPreset preset.now }
    ensures gives { GivesGenesis result (genesis_of preset.now bytes.now) }
    ensures preset { IfOk result (λ genesis. genesis.preset ≡ preset.now) }
    ensures checked { IfOk result (λ genesis. genesis_fault genesis ≡ None) }
    ensures state { IfOk result IsState }
    ensures range { IfOk result IsInRange }
    ensures written { IfOk result HasWriting }
{
    if bytes.len() > MAX_GENESIS_LEN {
        return Err(GenesisStop::Fault(GenesisFault::TooLong));
    }
    match State::read(alloc, preset, bytes) {
        Ok(state) => checked(state),
        Err(fault) => Err(no_state(fault)),
    }
}
