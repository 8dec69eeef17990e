//! The offences of two recorded histories by a book, compared with what an independent implementation gives.
//!
//! A case is a folder of `data/books`: `config` and `genesis`, of the minimal preset, the records `a` and `b`, and the lines `offences`.
//! Each block of a record is on the one before it.

use crate::chain_book::ChainBook;
use crate::offences::{offence_lines, tell};
use anyhow::{Result, bail};
use bc_preset::{Config, Preset};
use beacon_state::State;
use beacon_types::SignedBeaconBlock;
use forensics::Watch;
use ssz_codec::Ssz;
use std::alloc::Global;
use std::fs;
use std::rt::Files;

/// The kind of the first frame of some bytes, its payload, and what stands behind it.
fn next_frame(bytes: &[u8]) -> Option<(u8, &[u8], &[u8])> {
    match bytes {
        [kind, a, b, c, d, rest @ ..] => {
            let length = u32::from_le_bytes([*a, *b, *c, *d]) as usize;
            if length > rest.len() {
                return None;
            }
            Some((*kind, &rest[..length], &rest[length..]))
        }
        _ => None,
    }
}

/// Adds a block with the number of its event.
fn add_block(
    alloc: Global,
    chain: &mut ChainBook,
    event: u32,
    block: &SignedBeaconBlock,
) -> Result<()> {
    let genesis = chain.genesis()?;
    let mut watch = Watch::new(&genesis);
    match chain.step(alloc, block, &mut watch) {
        Ok(state) => Ok(chain.add(alloc, event, block, state, &watch)?),
        Err(stop) => Err(stop.into()),
    }
}

/// Adds the block with this writing.
fn add_written(alloc: Global, chain: &mut ChainBook, event: u32, bytes: &[u8]) -> Result<()> {
    match SignedBeaconBlock::read(alloc, bytes) {
        Ok(block) => add_block(alloc, chain, event, &block),
        Err(fault) => Err(fault.into()),
    }
}

/// Adds the blocks among these frames.
fn add_blocks(alloc: Global, chain: &mut ChainBook, frames: &[u8]) -> Result<()> {
    let mut rest = frames;
    for event in 1..u32::MAX {
        let Some((kind, payload, behind)) = next_frame(rest) else {
            return Ok(());
        };
        if kind == 2 {
            add_written(alloc, chain, event, payload)?;
        }
        rest = behind;
    }
    Ok(())
}

/// Adds the blocks of a record, which begins with four bytes of its own.
fn add_record(alloc: Global, chain: &mut ChainBook, record: &[u8]) -> Result<()> {
    match record {
        [_, _, _, _, frames @ ..] => add_blocks(alloc, chain, frames),
        _ => bail!("no record"),
    }
}

/// Adds the blocks of two records, one a history.
fn add_records(alloc: Global, chain: &mut ChainBook, first: &[u8], second: &[u8]) -> Result<()> {
    add_record(alloc, chain, first)?;
    chain.turn()?;
    add_record(alloc, chain, second)
}

/// The lines of the offences of a book.
fn lines_of(alloc: Global, chain: &ChainBook) -> Result<Vec<u8>> {
    offence_lines(alloc, &chain.offences(alloc)?)
}

/// The lines of the offences of two records on a genesis.
fn answer_of(
    alloc: Global,
    config: &Config,
    genesis: &State,
    first: &[u8],
    second: &[u8],
) -> Result<Vec<u8>> {
    let mut chain = ChainBook::new(alloc, genesis, config)?;
    match add_records(alloc, &mut chain, first, second) {
        Ok(()) => lines_of(alloc, &chain),
        Err(error) => Err(error),
    }
}

/// A file of a case.
fn file(rt: &(impl Files + AllocGlobal), case: &str, name: &str) -> Result<Vec<u8>> {
    Ok(fs::read(rt, format!(in rt.alloc(); "{case}/{name}")?.as_str())?)
}

/// The answer of a case.
fn answer(rt: &(impl Files + AllocGlobal), case: &str) -> Result<Vec<u8>> {
    let alloc = rt.alloc();
    let config = Config::read(&file(rt, case, "config")?)?;
    let first = file(rt, case, "a")?;
    let second = file(rt, case, "b")?;
    match State::read(alloc, &Preset::minimal(), &file(rt, case, "genesis")?) {
        Ok(genesis) => answer_of(alloc, &config, &genesis, &first, &second),
        Err(_) => bail!("the state doesn't read"),
    }
}

/// Runs the case of this name, and prints one line.
pub fn run_case(rt: &(impl Files + Print + AllocGlobal), name: &str) -> Result<bool> {
    let expected = file(rt, name, "offences")?;
    let answer = answer(rt, name)?;
    tell(rt, name, &answer, &expected)
}
