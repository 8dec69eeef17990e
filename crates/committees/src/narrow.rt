//! Pairs of bytes that swap, sixteen at a time: each pair is a position and its mirror image, and a bit says whether
//! it swaps.

ghost use Rattle.std.specs.Prelude.{◌≡◌, ℕ, ◌+◌, ◌-◌, ◌<◌, ◌≤◌, ◌^◌, length, slice_index};
ghost use Rattle.committees.specs.inside.Pass.{by_word, by_source, Passed};

use crate::lanes::{load, load_turned, mixed, store, turned};
use crate::round::{bit_at, sixteen_bits};
use std::simd::u8x16;

/// Swaps sixteen positions with their mirror images where their bits are 1. The lowest bit is that of `first`, and the
/// items of both were loaded, those of the images in the order of the positions.
#[inline(always)]
fn swap_loaded(list: &mut [u8], sum: usize, first: usize, one: u8x16, other: u8x16, bits: u16)
    requires in_list { first + 16 ≤ length list.old }
    requires earlier { sum < first + first }
    requires images { first + 16 ≤ sum + 1 }
    requires one { (j : ℕ) → j < 16 → slice_index one j ≡ slice_index list.old (first + j) }
    requires other { (j : ℕ) → j < 16 → slice_index other j ≡ slice_index list.old (sum - first - 15 + (15 - j)) }
    ensures { Passed (by_word bits first sum) sum first (first + 16) list.old list.new }
{
    let images = sum - first - 15;
    store(list, first, mixed(one, other, bits));
    store(list, images, turned(mixed(other, one, bits)));
}

/// Swaps one position with its mirror image where its bit is 1. Both are written in any case.
fn swap_one(list: &mut [u8], sum: usize, position: usize, source: &[u8; 32])
    requires in_list { position < length list.old }
    requires earlier { sum < position + position }
    requires image { position ≤ sum }
    ensures { Passed (by_source source.now sum) sum position (position + 1) list.old list.new }
{
    let image = sum - position;
    let (one, other) = (list[position], list[image]);
    let swaps = bit_at(source, position as u64) == 1;
    list[position] = if swaps { other } else { one };
    list[image] = if swaps { one } else { other };
}

/// Swaps positions with their mirror images one by one where their bits are 1.
fn swap_each(list: &mut [u8], sum: usize, first: usize, last: usize, source: &[u8; 32])
    requires ordered { first ≤ last }
    requires in_list { last ≤ length list.old }
    requires fits { length list.old ≤ 2 ^ 40 }
    requires earlier { sum < first + first }
    requires images { last ≤ sum + 1 }
    ensures { Passed (by_source source.now sum) sum first last list.old list.new }
{
    for position in first..last {
        swap_one(list, sum, position, source);
    }
}

/// Swaps positions of three lists one by one, likewise.
#[inline(always)]
fn swap_three(
    low: &mut [u8],
    middle: &mut [u8],
    high: &mut [u8],
    sum: usize,
    first: usize,
    last: usize,
    source: &[u8; 32],
)
    requires ordered { first ≤ last }
    requires in_low { last ≤ length low.old }
    requires in_middle { last ≤ length middle.old }
    requires in_high { last ≤ length high.old }
    requires fits_low { length low.old ≤ 2 ^ 40 }
    requires fits_middle { length middle.old ≤ 2 ^ 40 }
    requires fits_high { length high.old ≤ 2 ^ 40 }
    requires earlier { sum < first + first }
    requires images { last ≤ sum + 1 }
    ensures low { Passed (by_source source.now sum) sum first last low.old low.new }
    ensures middle { Passed (by_source source.now sum) sum first last middle.old middle.new }
    ensures high { Passed (by_source source.now sum) sum first last high.old high.new }
{
    swap_each(low, sum, first, last, source);
    swap_each(middle, sum, first, last, source);
    swap_each(high, sum, first, last, source);
}

/// Swaps the positions from `first` up to but not `last` of three lists with their mirror images where their bits are 1.
/// Those before the first multiple of sixteen, and those behind the last, go one by one.
///
/// A position and its mirror image, the earlier one, add up to `sum`.
pub fn swap_planes(
    low: &mut [u8],
    middle: &mut [u8],
    high: &mut [u8],
    sum: usize,
    first: usize,
    last: usize,
    source: &[u8; 32],
)
    requires ordered { first ≤ last }
    requires in_low { last ≤ length low.old }
    requires in_middle { last ≤ length middle.old }
    requires in_high { last ≤ length high.old }
    requires fits_low { length low.old ≤ 2 ^ 40 }
    requires fits_middle { length middle.old ≤ 2 ^ 40 }
    requires fits_high { length high.old ≤ 2 ^ 40 }
    requires earlier { sum < first + first }
    requires images { last ≤ sum + 1 }
    ensures low { Passed (by_source source.now sum) sum first last low.old low.new }
    ensures middle { Passed (by_source source.now sum) sum first last middle.old middle.new }
    ensures high { Passed (by_source source.now sum) sum first last high.old high.new }
{
    let mut position = last.min((first + 15) / 16 * 16);
    swap_three(low, middle, high, sum, first, position, source);
    let end = last - (last - position) % 16;
    while position < end {
        let images = sum - position - 15;
        let bits = sixteen_bits(source, position as u64);
        let low_one = load(low, position);
        let low_other = load_turned(low, images);
        let middle_one = load(middle, position);
        let middle_other = load_turned(middle, images);
        let high_one = load(high, position);
        let high_other = load_turned(high, images);
        swap_loaded(low, sum, position, low_one, low_other, bits);
        swap_loaded(middle, sum, position, middle_one, middle_other, bits);
        swap_loaded(high, sum, position, high_one, high_other, bits);
        position += 16;
    }
    swap_three(low, middle, high, sum, position, last, source);
}
