//! The shuffle, with expected places of a program that follows the published text line by line.

ghost use Rattle.std.specs.Prelude.{◌≡◌, ◌≤◌, ◌^◌, length, IfOk};

use committees::{shuffle_all, shuffled_index};
use std::alloc::{AllocError, Global};
use std::process::Abort;
use std::test::Fail;

/// The seed of all these shuffles.
const SEED: [u8; 32] = [7; 32];

/// An index of a list of seven, at ten rounds, and its place.
const PLACES_OF_SEVEN: [(u64, u64); 7] = [(0, 6), (1, 2), (2, 5), (3, 0), (4, 4), (5, 1), (6, 3)];

/// An index of a list of a thousand, at ninety rounds, and its place.
const PLACES_OF_A_THOUSAND: [(u64, u64); 5] = [
    (0, 564),
    (1, 799),
    (2, 462),
    (500, 189),
    (999, 155),
];

/// Compares the places of a list of so many.
fn places_are(rt: &impl Abort, count: u64, rounds: u32, places: &[(u64, u64)])
    requires count { count ≤ 2 ^ 40 }
    requires rounds { rounds ≤ 256 }
{
    for (index, place) in places {
        assert!(rt; *index < count);
        assert!(rt; shuffled_index(*index, count, &SEED, rounds) == *place);
    }
}

#[test]
fn places_are_the_published_ones(rt: HostRuntime) {
    places_are(&rt, 7, 10, &PLACES_OF_SEVEN);
    places_are(&rt, 1000, 90, &PLACES_OF_A_THOUSAND);
    places_are(&rt, 1, 10, &[(0, 0)]);
    places_are(&rt, 1_099_511_627_776, 90, &[(0, 1_085_630_126_522)]);
    places_are(&rt, 1000, 256, &[(999, 296)]);
}

/// A place of 600 shuffled items, each ten above the one before it, and how far the item there is above the first.
const TENS: [(usize, u64); 8] = [
    (0, 4270),
    (1, 4660),
    (255, 2550),
    (256, 4960),
    (299, 1740),
    (300, 3350),
    (511, 1120),
    (599, 1820),
];

/// Compares shuffled items, of which the lowest was the first.
fn tens_are(rt: &impl Abort, list: &[u64], first: u64) {
    for (place, above) in TENS.iter() {
        assert!(rt; list.get(*place).copied() == first.checked_add(*above));
    }
}

/// 600 items from the first on, each ten above the one before it.
fn tens(alloc: Global, first: u64) -> Result<Vec<u64>, AllocError>
    requires { first ≤ 2 ^ 40 }
    ensures { IfOk result (λ list. length list.items ≡ 600) }
{
    let mut list = Vec::new(alloc);
    for i in 0..600u64 {
        list.push(first + 10 * i)?;
    }
    Ok(list)
}

/// Shuffles 600 items from the first on.
fn shuffle_tens(rt: &(impl AllocGlobal + Abort), first: u64) -> Result<(), Fail>
    requires { first ≤ 2 ^ 40 }
{
    let list = tens(rt.alloc(), first)?;
    match shuffle_all(rt.alloc(), list, &SEED, 10) {
        Ok(shuffled) => Ok(tens_are(rt, &shuffled, first)),
        Err(refused) => Err(refused.into()),
    }
}

// Items that fit in three bytes, and items that don't.
#[test]
fn shuffled_lists_are_the_published_ones(rt: HostRuntime) -> Result<(), Fail> {
    shuffle_tens(&rt, 0)?;
    shuffle_tens(&rt, 1 << 40)
}
