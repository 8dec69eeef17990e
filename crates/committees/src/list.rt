//! A whole list shuffled at once: each round is one pass over the list, in place, with one hash for each 256
//! positions, eight of them side by side.

ghost use Rattle.std.specs.Prelude.{◌≡◌, ℕ, ◌+◌, ◌-◌, ◌/◌, ◌%◌, ◌<◌, ◌≤◌, ◌^◌, length, slice_index, IsOk, IfOk};
ghost use Rattle.committees.specs.Shuffling.{after_round, pivot_of, shuffled_list};

use crate::eights::turn_pivots;
use crate::items::Items;
use crate::pages::turn_pages;
use bc_words::NoMemory;
use hash_tree::{Root, Seed, schedule_room};
use std::alloc::Global;

/// One round over the places from `start` up to but not `end`, in which each place's flip is its mirror image.
fn swap_mirror_images(list: &mut Items, start: usize, end: usize, seed: &Seed, round: u8)
    requires ordered { start ≤ end }
    requires some { 0 < end }
    requires in_list { end ≤ length list.old }
    requires fits { length list.old ≤ 2 ^ 40 }
    requires mirror { (place : ℕ) → start ≤ place → place < end → (pivot_of seed.now round (length list.old) + length list.old - place) % length list.old ≡ start + end - 1 - place }
    ensures inside { (place : ℕ) → start ≤ place → place < end → slice_index list.new place ≡ slice_index list.old (after_round seed.now round (length list.old) place) }
    ensures before { (place : ℕ) → place < start → slice_index list.new place ≡ slice_index list.old place }
    ensures length { length list.new ≡ length list.old }
    ensures behind { (place : ℕ) → end ≤ place → slice_index list.new place ≡ slice_index list.old place }
{
    let sum = start + end - 1;
    let middle = end - (end - start) / 2;
    let mut pages = [[0; 32]; 8];
    let mut room = schedule_room();
    let mut position = middle;
    while position < end {
        turn_pages(&mut pages, &mut room, seed, round, middle, position);
        let next = end.min((position / 256 + 1) * 256);
        list.swap_where_set(sum, position, next, &pages[position / 256 % 8]);
        position = next;
    }
}

/// One round over the whole list, from its pivot: each place takes the item at its index after the round.
fn shuffle_round(list: &mut Items, seed: &Seed, round: u8, pivot: u64)
    requires fits { length list.old ≤ 2 ^ 40 }
    requires pivot { pivot ≡ pivot_of seed.now round (length list.old) }
    requires below { pivot < length list.old }
    ensures shuffled { (place : ℕ) → place < length list.old
        → slice_index list.new place ≡ slice_index list.old (after_round seed.now round (length list.old) place) }
    ensures length { length list.new ≡ length list.old }
{
    let count = list.len();
    let middle = pivot as usize + 1;
    swap_mirror_images(list, 0, middle, seed, round);
    swap_mirror_images(list, middle, count, seed, round);
}

/// All rounds over the whole list, the last one first.
fn shuffle_rounds(list: &mut Items, seed: &Seed, rounds: u32)
    requires fits { length list.old ≤ 2 ^ 40 }
    requires rounds_fit { rounds ≤ 256 }
    ensures { list.new ≡ shuffled_list seed.now rounds list.old }
{
    let count = list.len() as u64;
    if count == 0 {
        return;
    }
    let mut pivots = [0; 8];
    let mut round = rounds;
    while round > 0 {
        round -= 1;
        turn_pivots(&mut pivots, seed, count, rounds, round);
        shuffle_round(list, seed, round as u8, pivots[round as usize % 8]);
    }
}

/// The list whose place i holds the old item at the shuffled place of i, with so many rounds. The passes are in
/// place, so memory isn't refused.
pub fn shuffle_all(
    alloc: Global,
    list: Vec<u64>,
    seed: &Root,
    rounds: u32,
) -> Result<Vec<u64>, NoMemory>
    requires fits { length list.items ≤ 2 ^ 40 }
    requires rounds_fit { rounds ≤ 256 }
    ensures shuffled { IfOk result (λ shuffled. shuffled.items ≡ shuffled_list seed.now rounds list.items) }
    ensures always { IsOk result }
{
    let mut items = Items::new(alloc, list);
    let seed = Seed::new(seed);
    shuffle_rounds(&mut items, &seed, rounds);
    Ok(items.into_list())
}
