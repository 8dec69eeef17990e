//! The functions of SHA-256 on words (FIPS 180-4, 4.1.2), on several words at a time, one a lane.

ghost use Rattle.std.specs.Prelude.{◌≡◌, ℕ, ◌^◌, ◌/◌, ◌<◌, bit_and, bit_xor, slice_index};
ghost use Rattle.std.specs.Int.{w32, bit_not, rotate_right};
ghost use Rattle.sha2.specs.Sha256.{add32, big_sigma0, big_sigma1, ch, maj, small_sigma0, small_sigma1};

use std::simd::Simd;

/// The sums of words, without their carries.
#[inline(always)]
pub(crate) fn add<const N: usize>(a: Simd<u32, N>, b: Simd<u32, N>) -> Simd<u32, N>
    ensures { (j : ℕ) → j < N → slice_index result j ≡ add32 (slice_index a.entry j) (slice_index b.entry j) }
{
    a + b
}

/// Words with the bits of one or the other.
#[inline(always)]
fn xor<const N: usize>(a: Simd<u32, N>, b: Simd<u32, N>) -> Simd<u32, N>
    ensures { (j : ℕ) → j < N → slice_index result j ≡ bit_xor (slice_index a.entry j) (slice_index b.entry j) }
{
    a ^ b
}

/// Words turned right by so many bits.
#[inline(always)]
fn turn<const N: usize>(x: Simd<u32, N>, bits: u32) -> Simd<u32, N>
    requires { (0 < bits) × (bits < 32) }
    ensures { (j : ℕ) → j < N → slice_index result j ≡ rotate_right w32 (slice_index x.entry j) bits }
{
    (x >> Simd::splat(bits)) | (x << Simd::splat(32 - bits))
}

/// Words shifted right by so many bits.
#[inline(always)]
fn shift<const N: usize>(x: Simd<u32, N>, bits: u32) -> Simd<u32, N>
    requires { bits < 32 }
    ensures { (j : ℕ) → j < N → slice_index result j ≡ slice_index x.entry j / 2 ^ bits }
{
    x >> Simd::splat(bits)
}

/// Words with the bits of both.
#[inline(always)]
fn and<const N: usize>(a: Simd<u32, N>, b: Simd<u32, N>) -> Simd<u32, N>
    ensures { (j : ℕ) → j < N → slice_index result j ≡ bit_and (slice_index a.entry j) (slice_index b.entry j) }
{
    a & b
}

/// Words with the bits of the second that the first lacks.
#[inline(always)]
fn without<const N: usize>(a: Simd<u32, N>, b: Simd<u32, N>) -> Simd<u32, N>
    ensures { (j : ℕ) → j < N → slice_index result j ≡ bit_and (bit_not w32 (slice_index a.entry j)) (slice_index b.entry j) }
{
    !a & b
}

/// Ch.
#[inline(always)]
pub(crate) fn choose<const N: usize>(
    x: Simd<u32, N>,
    y: Simd<u32, N>,
    z: Simd<u32, N>,
) -> Simd<u32, N>
    ensures { (j : ℕ) → j < N → slice_index result j ≡ ch (slice_index x.entry j) (slice_index y.entry j) (slice_index z.entry j) }
{
    xor(and(x, y), without(x, z))
}

/// Maj. Where the first two words differ it has the third one's bits, else the second one's. In the next round those two
/// words are the last two, so that half of this is computed once.
#[inline(always)]
pub(crate) fn majority<const N: usize>(
    x: Simd<u32, N>,
    y: Simd<u32, N>,
    z: Simd<u32, N>,
) -> Simd<u32, N>
    ensures { (j : ℕ) → j < N → slice_index result j ≡ maj (slice_index x.entry j) (slice_index y.entry j) (slice_index z.entry j) }
{
    xor(and(xor(x, y), xor(y, z)), y)
}

/// The upper case Σ 0. Its rotations are nested, which takes fewer copies of the words than each from the first.
#[inline(always)]
pub(crate) fn big_sigma0<const N: usize>(x: Simd<u32, N>) -> Simd<u32, N>
    ensures { (j : ℕ) → j < N → slice_index result j ≡ big_sigma0 (slice_index x.entry j) }
{
    turn(xor(x, turn(xor(x, turn(x, 9)), 11)), 2)
}

/// The upper case Σ 1, likewise.
#[inline(always)]
pub(crate) fn big_sigma1<const N: usize>(x: Simd<u32, N>) -> Simd<u32, N>
    ensures { (j : ℕ) → j < N → slice_index result j ≡ big_sigma1 (slice_index x.entry j) }
{
    turn(xor(x, turn(xor(x, turn(x, 14)), 5)), 6)
}

/// The lower case σ 0.
#[inline(always)]
pub(crate) fn small_sigma0<const N: usize>(x: Simd<u32, N>) -> Simd<u32, N>
    ensures { (j : ℕ) → j < N → slice_index result j ≡ small_sigma0 (slice_index x.entry j) }
{
    xor(xor(turn(x, 7), turn(x, 18)), shift(x, 3))
}

/// The lower case σ 1.
#[inline(always)]
pub(crate) fn small_sigma1<const N: usize>(x: Simd<u32, N>) -> Simd<u32, N>
    ensures { (j : ℕ) → j < N → slice_index result j ≡ small_sigma1 (slice_index x.entry j) }
{
    xor(xor(turn(x, 17), turn(x, 19)), shift(x, 10))
}
