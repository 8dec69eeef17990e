//! Items of three bytes each, whose bytes stand in three lists, so that sixteen of them swap at once.

ghost use Rattle.std.specs.Prelude.{◌≡◌, ℕ, ◌+◌, ◌*◌, ◌<◌, ◌≤◌, ◌^◌, List, length, slice_index, drop, IfSome, IsTrue};
ghost use Rattle.committees.specs.inside.Pass.{by_source, Passed};
ghost use Rattle.committees.specs.inside.Planes.{with_above, from_planes};

use crate::narrow::swap_planes;
use std::alloc::Global;
use std::marker::Model;

/// How many unused bytes stand in front of the middle bytes. Lists that are long begin at one place of their pages, and a
/// processor holds back a load that has the last twelve bits of its address in common with a store before it.
const FRONT: usize = 2048;

/// Items below 2^24, which contracts see as numbers.
#[derive(Drop)]
pub struct Planes {
    low: Vec<u8>,
    // The first 2,048 aren't used.
    middle: Vec<u8>,
    high: Vec<u8>,
}

impl Model for Planes {
    ghost Value = { List ℕ };

    ghost view = { λ s. from_planes s.low.items (drop 2048 s.middle.items) s.high.items };

    ghost invariant = { λ s. (length s.middle.items ≡ 2048 + length s.low.items) × (length s.low.items ≡ length s.high.items) };
}

/// So many zeros, where memory isn't refused.
fn zeros(alloc: Global, count: usize) -> Option<Vec<u8>>
    ensures { IfSome result (λ bytes. length bytes.items ≡ count) }
{
    match vec![in alloc; 0u8; count] {
        Ok(bytes) => Some(bytes),
        Err(_) => None,
    }
}

/// Writes the lowest three bytes of the items into three lists, the middle ones behind those that aren't used, and says
/// whether the items have no others.
fn split(list: &[u64], low: &mut [u8], middle: &mut [u8], high: &mut [u8]) -> bool
    requires in_low { length low.old ≡ length list.now }
    requires in_middle { length middle.old ≡ 2048 + length list.now }
    requires in_high { length high.old ≡ length list.now }
    ensures low { length low.new ≡ length low.old }
    ensures middle { length middle.new ≡ length middle.old }
    ensures high { length high.new ≡ length high.old }
    ensures bytes { IsTrue result → (k : ℕ) → k < length list.now
        → with_above (slice_index low.new k) (with_above (slice_index middle.new (2048 + k)) (slice_index high.new k)) ≡ slice_index list.now k }
{
    let mut greatest = 0;
    for i in 0..list.len() {
        let item = list[i];
        greatest = item.max(greatest);
        low[i] = (item % 256) as u8;
        middle[FRONT + i] = (item / 256 % 256) as u8;
        high[i] = (item / 65536 % 256) as u8;
    }
    greatest < 1 << 24
}

/// Writes the items whose bytes stand in three lists, likewise.
fn join(low: &[u8], middle: &[u8], high: &[u8], list: &mut [u64])
    requires in_low { length low.now ≡ length list.old }
    requires in_middle { length middle.now ≡ 2048 + length list.old }
    requires in_high { length high.now ≡ length list.old }
    ensures { (k : ℕ) → k < length list.old
        → slice_index list.new k ≡ with_above (slice_index low.now k) (with_above (slice_index middle.now (2048 + k)) (slice_index high.now k)) }
{
    for i in 0..list.len() {
        let above = u64::from(middle[FRONT + i]) + 256 * u64::from(high[i]);
        list[i] = u64::from(low[i]) + 256 * above;
    }
}

impl Planes {
    /// The items in three bytes each, where all of them fit and memory isn't refused.
    pub fn new(alloc: Global, list: &[u64]) -> Option<Self>
        ensures { IfSome result (λ planes. planes ≡ list.now) }
    {
        let count = list.len();
        let (mut low, mut middle, mut high) = match (
            zeros(alloc, count),
            zeros(alloc, FRONT + count),
            zeros(alloc, count),
        ) {
            (Some(low), Some(middle), Some(high)) => (low, middle, high),
            _ => return None,
        };
        if split(list, &mut low, &mut middle, &mut high) {
            Some(Planes { low, middle, high })
        } else {
            None
        }
    }

    /// Swaps the positions from `first` up to but not `last` with their mirror images where their bits are 1.
    ///
    /// A position and its mirror image, the earlier one, add up to `sum`.
    pub fn swap_where_set(&mut self, sum: usize, first: usize, last: usize, source: &[u8; 32])
        requires ordered { first ≤ last }
        requires in_list { last ≤ length self.old }
        requires fits { length self.old ≤ 2 ^ 40 }
        requires earlier { sum < first + first }
        requires images { last ≤ sum + 1 }
        ensures passed { Passed (by_source source.now sum) sum first last self.old self.new }
        ensures length { length self.new ≡ length self.old }
    {
        swap_planes(
            &mut self.low,
            &mut self.middle[FRONT..],
            &mut self.high,
            sum,
            first,
            last,
            source,
        );
    }

    /// Writes the items over a list of 64 bits.
    pub fn widen(&self, list: &mut [u64])
        requires { length self.now ≡ length list.old }
        ensures { list.new ≡ self.now }
    {
        join(&self.low, &self.middle, &self.high, list);
    }
}
