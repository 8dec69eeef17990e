//! Chains that are made from a number: their genesis, and their events as a record.

ghost use Rattle.std.specs.Prelude.{◌<◌, ◌≤◌};

use crate::calls::given::Given;
use anyhow::{Result, bail};
use bc_preset::Config;
use beacon_state::State;
use chain_maker::Maker;
use record_file::Event;
use std::alloc::Global;

/// Whether a call makes a chain.
pub fn is_chain(name: &str) -> bool {
    matches!(name, "chain" | "first_of_split" | "second_of_split")
}

/// The maker of a number's chain.
fn maker_of(alloc: Global, number: u64, config: &Config) -> Result<Maker> {
    if config.ejection_balance() >= 32_000_000_000 {
        bail!("the made validators would be ejected");
    }
    Ok(Maker::new(alloc, number, config)?)
}

/// The maker of one of two chains of a split.
fn split_of(alloc: Global, maker: &Maker, which: u8) -> Result<Maker>
    requires { which < 2 }
{
    Ok(maker.split(alloc, which)?)
}

/// The maker of the chain that a call names: the number's own, or one of its split.
fn maker_named(alloc: Global, name: &str, maker: Maker) -> Result<Maker> {
    match name {
        "first_of_split" => split_of(alloc, &maker, 0),
        "second_of_split" => split_of(alloc, &maker, 1),
        _ => Ok(maker),
    }
}

/// Appends the frame of an event.
fn push_frame(out: &mut Vec<u8>, event: &Event) -> Result<()> {
    let payload = event.payload.as_slice();
    let len = u32::try_from(payload.len())?;
    out.push(event.kind)?;
    out.extend_from_slice(&len.to_le_bytes())?;
    out.extend_from_slice(payload)?;
    Ok(())
}

/// The record of all events of a maker.
fn record_of(alloc: Global, maker: &mut Maker) -> Result<Vec<u8>> {
    let mut out = Vec::from_slice(alloc, b"BCR1")?;
    for _ in 0..1 << 20 {
        match maker.next_event(alloc) {
            Ok(Some(event)) => push_frame(&mut out, &event)?,
            Ok(None) => return Ok(out),
            Err(stop) => return Err(stop.into()),
        }
    }
    bail!("the chain has no end")
}

/// Whether the maker's genesis has the root of the state that these bytes are.
fn is_genesis(alloc: Global, maker: &Maker, config: &Config, bytes: &[u8]) -> Result<bool> {
    let made = maker.genesis(alloc)?;
    match State::read(alloc, config.preset(), bytes) {
        Ok(state) => Ok(state.root() == made.root()),
        Err(_) => bail!("the genesis doesn't read"),
    }
}

/// What the maker makes of what is recorded.
fn told(alloc: Global, maker: &mut Maker, config: &Config, given: &Given) -> Result<String> {
    if !is_genesis(alloc, maker, config, given.state()?)? {
        return Ok(String::from_str(alloc, "another genesis")?);
    }
    let record = record_of(alloc, maker)?;
    if record.as_slice() != given.input()?.as_slice() {
        return Ok(String::from_str(alloc, "another record")?);
    }
    Ok(String::from_str(alloc, "as recorded")?)
}

/// The answer of making the chain that the word is the number of, where the state is the recorded genesis and the input the record.
pub fn answer(alloc: Global, given: &Given) -> Result<String> {
    let config = given.config()?;
    let maker = maker_of(alloc, given.number()?, &config)?;
    let mut maker = maker_named(alloc, given.name.as_str(), maker)?;
    told(alloc, &mut maker, &config, given)
}
