//! The command `duties`: configuration and state are read in this order, each only where the one before it has no fault, and
//! the duties of the epoch are written slot by slot.

ghost use Rattle.std.specs.Prelude.{◌≡◌, ◌≢◌, ◌↔◌, ◌<◌, ◌+◌, ◌^◌, ◌∷◌, [], length, Some, IsTrue};
ghost use Rattle.bc_preset.specs.Presets.{IsPreset};
ghost use Rattle.spec_state.specs.Soundness.{IsSound};
ghost use Rattle.spec_replay.specs.Duties.{checked_state, duties_run, sound_state_of, with_epoch, with_file};
ghost use Rattle.one_chain.specs.Answers.{OutsideKeeps, Replayed, whole_of};
ghost use Rattle.one_chain.specs.inside.AtEnd.{Concludes};
ghost use Rattle.one_chain.specs.inside.Duties.{GivesState, no_duties, no_state, unread_state};
ghost use Rattle.one_chain.specs.inside.Statuses.{written};

use crate::duty_lines::write_duties;
use crate::reading::{read_named, unread};
use crate::status::Status;
use crate::writing::written;
use bc_outside::{Shelf, Sink};
use bc_preset::{Config, MAX_CONFIG_LEN, Preset};
use beacon_state::State;
use command_arguments::DutiesWords;
use duties::{DutiesFault, DutyStop, duties_of};
use fork_store::is_sound;
use ssz_codec::SszFault;
use std::alloc::Global;

/// The longest file of a state, in bytes.
const MAX_STATE_LEN: usize = 1 << 30;

/// Why there is no state whose duties can be asked for.
#[derive(Drop)]
pub enum StateStop {
    /// The file has a fault, and this is the first.
    Fault(DutiesFault),
    /// Memory ran out.
    NoMemory,
}

/// Why bytes that are no state hold none.
fn unread_state(fault: SszFault) -> StateStop
    ensures { result ≡ unread_state fault }
{
    match fault {
        SszFault::NotAWriting => StateStop::Fault(DutiesFault::NotAWriting),
        SszFault::NoMemory => StateStop::NoMemory,
    }
}

/// The state, where it is known whether it is sound.
fn only_sound(state: State, sound: bool) -> Result<State, StateStop>
    requires tested { IsTrue sound ↔ IsSound state }
    ensures { GivesState result (checked_state (Some state)) }
{
    if sound {
        Ok(state)
    } else {
        Err(StateStop::Fault(DutiesFault::Unsound))
    }
}

/// The state, which has to be sound.
fn checked(alloc: Global, state: State) -> Result<State, StateStop>
    ensures { GivesState result (checked_state (Some state)) }
{
    match is_sound(alloc, &state) {
        Ok(sound) => only_sound(state, sound),
        Err(_) => Err(StateStop::NoMemory),
    }
}

/// Reads a sound state of the preset.
#[tactic(auto, unfolding(spec_replay::specs::Duties::sound_state_of))]
fn read_state(alloc: Global, preset: &Preset, bytes: &[u8]) -> Result<State, StateStop>
    requires { IsPreset preset.now }
    ensures { GivesState result (sound_state_of preset.now bytes.now) }
{
    if bytes.len() > MAX_STATE_LEN {
        return Err(StateStop::Fault(DutiesFault::TooLong));
    }
    match State::read(alloc, preset, bytes) {
        Ok(state) => checked(alloc, state),
        Err(fault) => Err(unread_state(fault)),
    }
}

/// The status of a file whose state can't be asked.
fn no_state(stop: StateStop) -> Status
    ensures { result ≡ no_state stop }
{
    match stop {
        StateStop::Fault(fault) => Status::Duties(fault),
        StateStop::NoMemory => Status::NoMemory,
    }
}

/// The status of duties that can't be told.
fn no_duties(stop: DutyStop) -> Status
    ensures { result ≡ no_duties stop }
{
    match stop {
        DutyStop::Epoch => Status::Duties(DutiesFault::Epoch),
        DutyStop::Refused(refusal) => Status::Duties(DutiesFault::Refused(refusal)),
        DutyStop::Limit(limit) => Status::Limit {
            which: 0,
            event: 0,
            limit,
        },
        DutyStop::NoMemory => Status::NoMemory,
    }
}

/// Looks for the duties of an epoch of the state, and writes their lines.
fn tell_of_state<O: Sink>(alloc: Global, state: &State, epoch: u64, out: &mut O) -> Status
    ensures { Concludes result (with_epoch state.now epoch) (O.told out.old) (O.told out.new) }
{
    match duties_of(alloc, state, epoch) {
        Ok(duties) => {
            let slots = state.preset().slots_per_epoch;
            written(write_duties(alloc, &duties, slots, out))
        }
        Err(stop) => no_duties(stop),
    }
}

/// Reads the state under this configuration, and writes the lines of its duties.
fn tell_of_file<F: Shelf, O: Sink>(
    alloc: Global,
    config: &Config,
    name: &str,
    epoch: u64,
    shelf: &mut F,
    out: &mut O,
) -> Status
    requires { length (F.told shelf.old).files < 2 ^ 32 }
    ensures answers { Replayed (λ contents. with_file config.now epoch (contents name.now)) (λ contents opened. whole_of result (with_file config.now epoch (contents name.now)))
        (name.now ∷ []) result (F.told shelf.old) (F.told shelf.new) (O.told out.old).taken (O.told out.new).taken }
    ensures command { result ≢ Status.Words }
    ensures outside { OutsideKeeps (name.now ∷ []) (Some result)
        (F.told shelf.old) (F.told shelf.new) (O.told out.old) (O.told out.new) }
{
    let bytes = match read_named(alloc, shelf, name, MAX_STATE_LEN + 1) {
        Ok(bytes) => bytes,
        Err(trouble) => return unread(trouble),
    };
    match read_state(alloc, config.preset(), &bytes) {
        Ok(state) => {
            // A file of any size is in memory for no longer than it takes to read the state.
            drop(bytes);
            tell_of_state(alloc, &state, epoch, out)
        }
        Err(stop) => no_state(stop),
    }
}

/// Reads the configuration and the state, and writes the lines of the duties of the epoch.
#[inline(never)]
pub fn tell_duties<F: Shelf, O: Sink>(
    alloc: Global,
    words: &DutiesWords<'_>,
    shelf: &mut F,
    out: &mut O,
) -> Status
    requires { length (F.told shelf.old).files + 1 < 2 ^ 32 }
    ensures answers { Replayed (λ contents. duties_run words.now.epoch (contents words.now.config.now) (contents words.now.state.now))
        (λ contents opened. whole_of result (duties_run words.now.epoch (contents words.now.config.now) (contents words.now.state.now)))
        (words.now.config.now ∷ words.now.state.now ∷ []) result (F.told shelf.old) (F.told shelf.new) (O.told out.old).taken (O.told out.new).taken }
    ensures command { result ≢ Status.Words }
    ensures outside { OutsideKeeps (words.now.config.now ∷ words.now.state.now ∷ []) (Some result)
        (F.told shelf.old) (F.told shelf.new) (O.told out.old) (O.told out.new) }
{
    let bytes = match read_named(alloc, shelf, words.config, MAX_CONFIG_LEN + 1) {
        Ok(bytes) => bytes,
        Err(trouble) => return unread(trouble),
    };
    match Config::read(&bytes) {
        Ok(config) => tell_of_file(alloc, &config, words.state, words.epoch, shelf, out),
        Err(fault) => Status::Config(fault),
    }
}
