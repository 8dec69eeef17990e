//! Whether a state is sound.

use anyhow::Result;
use beacon_state::State;
use std::alloc::Global;
use transition::is_sound;

/// Whether the state is sound, in the words of the recorded answers.
pub fn answer(alloc: Global, state: &State) -> Result<String> {
    if is_sound(alloc, state)? {
        Ok(String::from_str(alloc, "sound")?)
    } else {
        Ok(String::from_str(alloc, "unsound")?)
    }
}
