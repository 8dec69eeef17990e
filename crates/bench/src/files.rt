//! The files of a chain in which all vote, by which two programs can be measured beside each other.

use crate::chain::{chain, record_bytes};
use crate::genesis::{Network, read_genesis};
use anyhow::{Result, bail};
use std::alloc::Global;
use std::fs;
use std::rt::Files;

/// What the words behind `files` ask for.
#[derive(Clone, Copy)]
struct Asked {
    network: Network,
    slots: u64,
}

/// The network of a preset's name, with so many validators.
fn network_of(preset: &str, validators: u32) -> Result<Network> {
    match preset {
        "minimal" => Ok(Network::minimal(validators)),
        "mainnet" => Ok(Network::mainnet(validators)),
        _ => bail!("the preset is minimal or mainnet"),
    }
}

/// What these words ask for: a preset's name, how many validators there are, and how many slots.
fn read_words(words: &[String]) -> Result<Asked> {
    match words {
        [preset, validators, slots] => Ok(Asked {
            network: network_of(preset.as_str(), validators.as_str().parse::<u32>()?)?,
            slots: slots.as_str().parse::<u64>()?,
        }),
        _ => bail!("files needs a preset, a number of validators and a number of slots"),
    }
}

/// The record of the chain, in each of whose slots is a block that carries the votes of all committees of the slot before.
fn record_of(alloc: Global, asked: &Asked) -> Result<Vec<u8>> {
    let genesis = read_genesis(alloc, &asked.network)?;
    match chain(alloc, &genesis, asked.slots) {
        Ok(events) => record_bytes(alloc, &events),
        Err(error) => Err(error),
    }
}

/// Writes the configuration, the genesis state and the record of the chain that these words ask for into the current folder, as
/// `config.yaml`, `genesis.ssz` and `record.bcr`.
pub fn write(rt: &(impl AllocGlobal + Files), words: &[String]) -> Result<()> {
    let asked = read_words(words)?;
    let record = record_of(rt.alloc(), &asked)?;
    fs::write(rt, "config.yaml", asked.network.config())?;
    fs::write(rt, "genesis.ssz", asked.network.genesis_bytes(rt.alloc())?)?;
    fs::write(rt, "record.bcr", record)?;
    Ok(())
}
