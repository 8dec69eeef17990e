//! Reading a state: bytes come from the genesis file.

ghost use Rattle.std.specs.Prelude.{IfOk};
ghost use Rattle.ssz_codec.specs.Reads.{ReadsAs, Reads};
ghost use Rattle.bc_preset.specs.Presets.{IsPreset};
ghost use Rattle.spec_state.specs.States.{state_codec};
ghost use Rattle.spec_state.specs.Limits.{IsState, IsInRange};
ghost use Rattle.spec_state.specs.Writing.{HasWriting};

use crate::state::State;
use bc_preset::Preset;
use ssz_codec::SszFault;
use state_parts::read_plain;
use std::alloc::Global;

impl State {
    /// Reads exactly the bytes that are the writing of a state of the preset.
    pub fn read(alloc: Global, preset: &Preset, bytes: &[u8]) -> Result<State, SszFault>
        requires { IsPreset preset.now }
        ensures reads { Reads (state_codec preset.now) result bytes.now }
        ensures parses { ReadsAs result ((state_codec preset.now).deserialize bytes.now) }
        ensures state { IfOk result IsState }
        ensures range { IfOk result IsInRange }
        ensures written { IfOk result HasWriting }
    {
        let plain = read_plain(alloc, preset, bytes)?;
        match State::from_plain(alloc, plain) {
            Ok(state) => Ok(state),
            Err(_refused) => Err(SszFault::NoMemory),
        }
    }
}
