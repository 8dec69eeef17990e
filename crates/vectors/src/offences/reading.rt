//! Votes as they are printed.

use anyhow::{Result, bail};
use beacon_types::{AttestationData, Checkpoint};
use hash_tree::Root;
use hex::FromHex;
use spec_forensics::Vote;

/// A vote's text, cut at its slashes.
#[derive(Drop)]
struct Pieces<'a> {
    rest: &'a str,
}

impl<'a> Pieces<'a> {
    /// The next piece.
    fn next(&mut self) -> &'a str {
        let (piece, rest) = self.rest.split_once('/').unwrap_or((self.rest, ""));
        self.rest = rest;
        piece
    }

    /// The next piece, as a number.
    fn number(&mut self) -> Result<u64> {
        Ok(self.next().parse::<u64>()?)
    }

    /// The next piece, as a number of 32 bits.
    fn small(&mut self) -> Result<u32> {
        Ok(self.next().parse::<u32>()?)
    }

    /// The next piece, as a root.
    fn root(&mut self) -> Result<Root> {
        read_root(self.next())
    }
}

/// A root, as `0x` and 64 digits.
fn read_root(text: &str) -> Result<Root> {
    match text.split_once("0x") {
        Some(("", digits)) => match <[u8; 32] as FromHex>::from_hex(digits) {
            Ok(root) => Ok(root),
            Err(_) => bail!("no root"),
        },
        _ => bail!("no root"),
    }
}

/// A checkpoint, as its epoch and its root.
fn read_checkpoint(text: &str) -> Result<Checkpoint> {
    match text.split_once(':') {
        Some((epoch, root)) => {
            let epoch = epoch.parse::<u64>()?;
            let root = read_root(root)?;
            Ok(Checkpoint { epoch, root })
        }
        None => bail!("no checkpoint"),
    }
}

/// What a vote is for.
fn read_content(pieces: &mut Pieces) -> Result<AttestationData> {
    Ok(AttestationData {
        slot: pieces.number()?,
        index: pieces.number()?,
        beacon_block_root: pieces.root()?,
        source: read_checkpoint(pieces.next())?,
        target: read_checkpoint(pieces.next())?,
    })
}

/// The number of a history, by its letter.
fn read_history(letter: &str) -> Result<u8> {
    match letter {
        "a" => Ok(0),
        "b" => Ok(1),
        _ => bail!("no history"),
    }
}

/// The vote of a validator.
fn read_vote(validator: u64, text: &str) -> Result<Vote> {
    let mut pieces = Pieces { rest: text };
    let which = read_history(pieces.next())?;
    let event = pieces.small()?;
    let position = pieces.small()?;
    let block_root = pieces.root()?;
    let content = read_content(&mut pieces)?;
    Ok(Vote {
        which,
        event,
        position,
        block_root,
        validator,
        content,
    })
}

/// The vote of a line: its validator, a space, and the vote.
pub fn read_line(line: &str) -> Result<Vote> {
    match line.split_once(' ') {
        Some((validator, vote)) => read_vote(validator.parse::<u64>()?, vote),
        None => bail!("no vote"),
    }
}
