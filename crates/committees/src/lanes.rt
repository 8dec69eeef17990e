//! Sixteen bytes at a time, as vectors.

ghost use Rattle.std.specs.Prelude.{◌≡◌, ℕ, ◌+◌, ◌-◌, ◌/◌, ◌%◌, ◌<◌, ◌≤◌, ◌⊎◌, ◌^◌, length, slice_index, ◌==◌, if◌then◌else◌};
ghost use Rattle.std.specs.Int.{bit_at};

use std::simd::{u8x16, u16x8};

/// Sixteen bytes in a row.
#[inline(always)]
pub fn load(list: &[u8], at: usize) -> u8x16
    requires { at + 16 ≤ length list.now }
    ensures { (j : ℕ) → j < 16 → slice_index result j ≡ slice_index list.now (at + j) }
{
    u8x16::from_slice(&list[at..])
}

/// Writes sixteen bytes in a row.
#[inline(always)]
pub fn store(list: &mut [u8], at: usize, items: u8x16)
    requires { at + 16 ≤ length list.old }
    ensures inside { (j : ℕ) → j < 16 → slice_index list.new (at + j) ≡ slice_index items j }
    ensures outside { (index : ℕ) → (index < at) ⊎ (at + 16 ≤ index) → slice_index list.new index ≡ slice_index list.old index }
{
    items.copy_to_slice(&mut list[at..]);
}

/// The lanes in the other order.
#[inline(always)]
pub fn turned(items: u8x16) -> u8x16
    ensures { (j : ℕ) → j < 16 → slice_index result j ≡ slice_index items (15 - j) }
{
    items.reverse()
}

/// Sixteen bytes in a row, in the other order.
#[inline(always)]
pub fn load_turned(list: &[u8], at: usize) -> u8x16
    requires { at + 16 ≤ length list.now }
    ensures { (j : ℕ) → j < 16 → slice_index result j ≡ slice_index list.now (at + (15 - j)) }
{
    turned(load(list, at))
}

/// The bit of each lane: of the low byte in eight lanes, and of the high byte in the others.
#[inline(always)]
fn bytes_of(bits: u16) -> u8x16
    ensures low { (j : ℕ) → j < 8 → slice_index result j ≡ bits % 256 }
    ensures high { (j : ℕ) → 8 ≤ j → j < 16 → slice_index result j ≡ bits / 256 % 256 }
    ensures long { length result ≡ 16 }
{
    u16x8::splat(bits)
        .to_le_bytes()
        .swizzle([0, 0, 0, 0, 0, 0, 0, 0, 1, 1, 1, 1, 1, 1, 1, 1])
}

/// The items of one vector, or of another where their bits are 1.
#[inline(always)]
pub fn mixed(one: u8x16, other: u8x16, bits: u16) -> u8x16
    ensures { (j : ℕ) → j < 16 → slice_index result j ≡ (if bit_at bits j == 1 then slice_index other j else slice_index one j) }
{
    let weights = u8x16::from_array([1, 2, 4, 8, 16, 32, 64, 128, 1, 2, 4, 8, 16, 32, 64, 128]);
    (bytes_of(bits) & weights)
        .simd_eq(weights)
        .select(other, one)
}
