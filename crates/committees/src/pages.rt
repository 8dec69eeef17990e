//! The bits of a round for eight pages of 256 positions at a time, which are hashed side by side.
//!
//! Passes over a list turn to the pages of their positions here. Eight pages begin at a page whose number is a multiple of
//! eight.

ghost use Rattle.std.specs.Prelude.{◌≡◌, ℕ, ◌*◌, ◌/◌, ◌%◌, ◌^◌, ◌<◌, ◌≤◌, [], slice_index_or};
ghost use Rattle.committees.specs.Shuffling.{source_of};

use hash_tree::Seed;
use std::simd::u32x8;

/// Hashes the sources of the eight pages among which `page` is.
fn hash_pages(
    pages: &mut [[u8; 32]; 8],
    room: &mut [u32x8; 64],
    seed: &Seed,
    round: u8,
    page: usize,
)
    requires { page < 2 ^ 32 }
    ensures { (k : ℕ) → k / 8 ≡ page / 8 → slice_index_or pages.new (k % 8) [] ≡ source_of seed.now round k }
{
    seed.hash_sources_in(room, round, (page - page % 8) as u32, pages);
}

/// Brings the sources of the page of `position` and of those behind it among the same eight, where they are not there
/// already: at the first position, and where eight pages begin.
pub fn turn_pages(
    pages: &mut [[u8; 32]; 8],
    room: &mut [u32x8; 64],
    seed: &Seed,
    round: u8,
    first: usize,
    position: usize,
)
    requires fits { position < 2 ^ 40 }
    requires follows { first ≤ position }
    requires on_pages { first < position → 0 < position % 2048 → (k : ℕ) → k / 8 ≡ position / 2048 → slice_index_or pages.old (k % 8) [] ≡ source_of seed.now round k }
    ensures { (k : ℕ) → k / 8 ≡ position / 2048 → slice_index_or pages.new (k % 8) [] ≡ source_of seed.now round k }
{
    if position == first || position % 2048 == 0 {
        hash_pages(pages, room, seed, round, position / 256);
    }
}
