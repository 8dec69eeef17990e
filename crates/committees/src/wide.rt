//! Pairs of 64-bit items that swap, one after the other: each pair is a position and its mirror image, and a bit says
//! whether it swaps.

ghost use Rattle.std.specs.Prelude.{◌≡◌, ℕ, ◌+◌, ◌<◌, ◌≤◌, ◌^◌, length};
ghost use Rattle.committees.specs.inside.Pass.{by_source, Passed};

use crate::round::bit_at;

/// Swaps one position with its mirror image where its bit is 1. Both are written in any case: no branch waits for a bit,
/// which nothing foretells.
fn swap_one(list: &mut [u64], sum: usize, position: usize, source: &[u8; 32])
    requires in_list { position < length list.old }
    requires earlier { sum < position + position }
    requires image { position ≤ sum }
    ensures { Passed (by_source source.now sum) sum position (position + 1) list.old list.new }
{
    let image = sum - position;
    let (one, other) = (list[position], list[image]);
    let swaps = bit_at(source, position as u64) == 1;
    list[position] = if swaps { other } else { one };
    list[image] = if swaps { one } else { other };
}

/// Swaps the positions from `first` up to but not `last` with their mirror images where their bits are 1.
///
/// A position and its mirror image, the earlier one, add up to `sum`.
pub fn swap_wide(list: &mut [u64], sum: usize, first: usize, last: usize, source: &[u8; 32])
    requires ordered { first ≤ last }
    requires in_list { last ≤ length list.old }
    requires fits { length list.old ≤ 2 ^ 40 }
    requires earlier { sum < first + first }
    requires images { last ≤ sum + 1 }
    ensures { Passed (by_source source.now sum) sum first last list.old list.new }
{
    for position in first..last {
        swap_one(list, sum, position, source);
    }
}
