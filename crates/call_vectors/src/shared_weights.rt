//! The weight that two lists of indices share, compared with what an independent implementation gives.
//!
//! The file `third_shared` has a line for each call: both lists, the weights, and the weight shared. Numbers are joined by commas, and
//! `-` stands for none.

ghost use Rattle.std.specs.Prelude.{◌≡◌, ◌<◌, ◌^◌, IfSome, IsTrue, sum};
ghost use Rattle.ffg_law.specs.Weights.{AscendsFrom, IsSet};

use anyhow::{Result, bail};
use ffg_law::third_shared;
use std::alloc::Global;
use std::fs;
use std::rt::Files;

/// The numbers of a text.
fn numbers(alloc: Global, text: &str) -> Result<Vec<u64>> {
    let mut list = Vec::new(alloc);
    let mut rest = if text == "-" { "" } else { text };
    for _number in 0..text.len() {
        if rest.is_empty() {
            return Ok(list);
        }
        let (number, behind) = rest.split_once(',').unwrap_or((rest, ""));
        list.push(number.parse::<u64>()?)?;
        rest = behind;
    }
    Ok(list)
}

/// Whether the indices ascend, from one on.
fn ascends_from(low: u64, indices: &[u64]) -> bool
    ensures { IsTrue result → AscendsFrom low indices.now }
{
    match indices {
        [] => true,
        [first, rest @ ..] => low <= *first && *first < u64::MAX && ascends_from(*first + 1, rest),
    }
}

/// The sum of the weights, where it fits.
fn total(weights: &[u64]) -> Option<u64>
    ensures { IfSome result (λ total. (total ≡ sum weights.now) × (sum weights.now < 2 ^ 64)) }
{
    match weights {
        [] => Some(0),
        [first, rest @ ..] => first.checked_add(total(rest)?),
    }
}

/// The weight that two lists share.
fn shared(first: &[u64], second: &[u64], weights: &[u64]) -> Result<u64> {
    if !ascends_from(0, first) || !ascends_from(0, second) {
        bail!("the indices don't ascend");
    }
    let Some(_sum) = total(weights) else {
        bail!("the weights don't fit");
    };
    Ok(third_shared(first, second, weights))
}

/// Whether the answer to a line is as expected.
fn agrees(alloc: Global, line: &str) -> Result<bool> {
    let Some((first, rest)) = line.split_once(' ') else {
        bail!("no first list");
    };
    let Some((second, rest)) = rest.split_once(' ') else {
        bail!("no second list");
    };
    let Some((weights, answer)) = rest.split_once(' ') else {
        bail!("no weights");
    };
    let first = numbers(alloc, first)?;
    let second = numbers(alloc, second)?;
    let weights = numbers(alloc, weights)?;
    Ok(shared(&first, &second, &weights)? == answer.parse::<u64>()?)
}

/// Runs the calls of this file, and prints one line.
pub fn run_case(rt: &(impl Files + Print + AllocGlobal), name: &str) -> Result<()> {
    let lines = fs::read_to_string(rt, name)?;
    let mut calls = 0u32;
    for line in lines.lines() {
        if !agrees(rt.alloc(), line)? {
            println!(rt; "{name}: {line}")?;
            return Ok(());
        }
        calls = calls.saturating_add(1);
    }
    println!(rt; "{name}: {calls} calls as expected")?;
    Ok(())
}
