//! Runs of the program where the outside fails and where the record is cut, compared with its whole run, which an independent
//! implementation gives.
//!
//! A case says what is tried, a case of a run that ends with 0, and numbers.
//!
//! - `reads CASE PIECE`, `writes CASE PIECE`: each call of the shelf, or of the sink, fails in turn, where a call hands out or takes so many
//!   bytes at most.
//! - `cuts CASE END..`: the last file is a record, of which each proper prefix is tried. The first four bytes and each frame end at these
//!   places.

mod cuts;
mod failing;

use crate::runs::case::Case;
use crate::runs::hostile::failing::Side;
use anyhow::{Context, Result, bail};
use std::alloc::Global;
use std::rt::Files;

/// The numbers of a text, between blanks.
fn numbers_of(alloc: Global, text: &str) -> Result<Vec<u64>> {
    let mut numbers = Vec::new(alloc);
    for word in text.split(' ') {
        let number: u64 = word.parse()?;
        numbers.push(number)?;
    }
    Ok(numbers)
}

/// What isn't as expected where one thing is tried on a case, if anything is.
fn difference_of(
    alloc: Global,
    what: &str,
    case: &mut Case,
    numbers: &[u64],
) -> Result<Option<String>> {
    match (what, numbers) {
        ("reads", [piece]) => failing::difference(alloc, case, Side::Shelf, *piece),
        ("writes", [piece]) => failing::difference(alloc, case, Side::Sink, *piece),
        ("cuts", ends) => cuts::difference(alloc, case, ends),
        _ => bail!("no such case"),
    }
}

/// What isn't as expected where this is tried, if anything is.
fn difference<R: Files + AllocGlobal>(rt: &R, tried: &str) -> Result<Option<String>> {
    let (what, rest) = tried.split_once(' ').context("what is tried")?;
    let (name, rest) = rest.split_once(' ').context("a case and numbers")?;
    let numbers = numbers_of(rt.alloc(), rest)?;
    match Case::load(rt, name) {
        Ok(mut case) => difference_of(rt.alloc(), what, &mut case, &numbers),
        Err(error) => Err(error),
    }
}

/// Tries what this says, and prints one line.
pub fn run_case<R: Files + Print + AllocGlobal>(rt: &R, tried: &str) -> Result<bool> {
    match difference(rt, tried)? {
        Some(difference) => {
            println!(rt; "hostile/{tried}: {difference}")?;
            Ok(false)
        }
        None => {
            println!(rt; "hostile/{tried}: as expected")?;
            Ok(true)
        }
    }
}
