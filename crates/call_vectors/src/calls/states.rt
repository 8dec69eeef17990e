//! States that are read, most of them damaged.

ghost use Rattle.std.specs.Prelude.{IfOk};
ghost use Rattle.bc_preset.specs.Presets.{IsPreset};
ghost use Rattle.spec_state.specs.Writing.{HasWriting};

use crate::calls::given::Given;
use anyhow::{Result, bail};
use bc_preset::Preset;
use bc_words::NoMemory;
use beacon_state::State;
use hash_tree::Root;
use ssz_codec::SszFault;
use std::alloc::Global;

/// The preset of this name.
fn preset_of(name: &str) -> Result<Preset>
    ensures { IfOk result IsPreset }
{
    match name {
        "mainnet" => Ok(Preset::mainnet()),
        "minimal" => Ok(Preset::minimal()),
        _ => bail!("no preset"),
    }
}

/// The answer of reading a state of the preset that the word names.
pub fn answer(alloc: Global, given: &Given) -> Result<String> {
    let bytes = given.input()?;
    let preset = preset_of(given.word.as_str())?;
    match State::read(alloc, &preset, bytes) {
        Ok(state) => told(alloc, &state, bytes),
        Err(SszFault::NotAWriting) => Ok(String::from_str(alloc, "not a writing")?),
        Err(SszFault::NoMemory) => bail!("out of memory"),
    }
}

/// What is told of a state that was read from the bytes: its root and that of its latest block, if it is written as they are.
fn told(alloc: Global, state: &State, bytes: &[u8]) -> Result<String>
    requires { HasWriting state.now }
{
    let written = state.write(alloc)?;
    if written.as_slice() != bytes {
        return Ok(String::from_str(alloc, "written otherwise")?);
    }
    let root = state.root();
    if root_of_a_share(state)? != root {
        return Ok(String::from_str(alloc, "shared otherwise")?);
    }
    let root = hex::encode(alloc, root)?;
    let header = hex::encode(alloc, state.header_root())?;
    Ok(format!(in alloc; "ok {root} {header}")?)
}

/// The root of an equal state.
fn root_of_a_share(state: &State) -> Result<Root, NoMemory> {
    match state.share() {
        Ok(share) => Ok(share.root()),
        Err(NoMemory) => Err(NoMemory),
    }
}
