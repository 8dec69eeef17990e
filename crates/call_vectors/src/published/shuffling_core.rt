//! The shuffle: each index on its own, as the choice of a proposer takes it, and the whole list, as committees take it
//! (beacon-chain.md, `compute_shuffled_index`).

ghost use Rattle.std.specs.Prelude.{◌≤◌, ◌^◌};
ghost use Rattle.bc_preset.specs.Presets.{IsPreset};

use crate::published::case::Case;
use crate::published::difference::Difference;
use crate::published::verdict::Verdict;
use anyhow::{Result, bail};
use bc_preset::Preset;
use committees::{shuffle_all, shuffled_index};
use hash_tree::Root;
use std::alloc::Global;

/// The most indices that a case may have.
const MAX_COUNT: u64 = 1 << 20;

/// The numbers that a text has, between spaces.
fn numbers_of(alloc: Global, text: &str) -> Result<Vec<u64>> {
    let mut numbers = Vec::new(alloc);
    for word in text.split_whitespace() {
        let number: u64 = word.parse()?;
        numbers.push(number)?;
    }
    Ok(numbers)
}

/// The numbers from 0 on, so many.
fn indices(alloc: Global, count: u64) -> Result<Vec<u64>> {
    let mut indices = Vec::new(alloc);
    for index in 0..count {
        indices.push(index)?;
    }
    Ok(indices)
}

/// Where each index goes, one by one.
fn one_by_one(alloc: Global, count: u64, seed: &Root, rounds: u32) -> Result<Vec<u64>>
    requires few { count ≤ 2 ^ 20 }
    requires rounds { rounds ≤ 256 }
{
    let mut places = Vec::new(alloc);
    for index in 0..count {
        places.push(shuffled_index(index, count, seed, rounds))?;
    }
    Ok(places)
}

/// The whole list, shuffled.
fn at_once(alloc: Global, count: u64, seed: &Root, rounds: u32) -> Result<Vec<u64>>
    requires rounds { rounds ≤ 256 }
{
    let list = indices(alloc, count)?;
    if list.len() as u64 > MAX_COUNT {
        bail!("too many indices");
    }
    Ok(shuffle_all(alloc, list, seed, rounds)?)
}

/// How many rounds the preset has.
fn rounds_of(preset: &Preset) -> u32
    requires { IsPreset preset.now }
    ensures { result ≤ 256 }
{
    preset.bounds();
    preset.shuffle_round_count as u32
}

/// Runs a case of `shuffling`.
pub fn run(alloc: Global, case: &Case) -> Result<Verdict> {
    let seed = case.root("seed")?;
    let count = case.number("count")?;
    let mapping = numbers_of(alloc, case.word("mapping")?)?;
    let rounds = rounds_of(case.config().preset());
    if count > MAX_COUNT {
        bail!("too many indices");
    }
    let mut difference = Difference::new(alloc);
    let places = one_by_one(alloc, count, &seed, rounds)?;
    difference.numbers("mapping", "", places.as_slice(), mapping.as_slice())?;
    let list = at_once(alloc, count, &seed, rounds)?;
    difference.numbers("shuffled list", "", list.as_slice(), mapping.as_slice())?;
    Ok(difference.verdict())
}
