//! Signed blocks that are read, most of them damaged.

use crate::calls::answers::root_line;
use crate::calls::given::Given;
use anyhow::{Result, bail};
use bc_words::NoMemory;
use beacon_types::SignedBeaconBlock;
use hash_tree::Leaf;
use ssz_codec::{Ssz, SszFault};
use std::alloc::Global;

/// Whether a block is written as these bytes.
fn is_written(alloc: Global, block: &SignedBeaconBlock, bytes: &[u8]) -> Result<bool, NoMemory> {
    let written = block.write(alloc)?;
    Ok(written.as_slice() == bytes)
}

/// What is told of a block that was read from the bytes: its root, if it is written as they are.
fn told(alloc: Global, block: &SignedBeaconBlock, bytes: &[u8]) -> Result<String> {
    if !is_written(alloc, block, bytes)? {
        bail!("it is written otherwise");
    }
    root_line(alloc, &block.message.root())
}

/// What is told of bytes that no block was read from.
fn untold(alloc: Global, fault: SszFault) -> Result<String> {
    match fault {
        SszFault::NotAWriting => Ok(String::from_str(alloc, "not a writing")?),
        SszFault::NoMemory => bail!("out of memory"),
    }
}

/// The answer of reading a block.
pub fn answer(alloc: Global, given: &Given) -> Result<String> {
    let bytes = given.input()?;
    match SignedBeaconBlock::read(alloc, bytes) {
        Ok(block) => told(alloc, &block, bytes),
        Err(fault) => untold(alloc, fault),
    }
}
