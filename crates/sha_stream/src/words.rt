//! What SHA-256 does with four words side by side (FIPS 180-4, 4.1.2 and 3.2), lane by lane.

ghost use Rattle.std.specs.Prelude.{◌≡◌, ◌<◌, ◌/◌, ◌^◌, ℕ, bit_xor, slice_index};
ghost use Rattle.std.specs.Int.{w32, rotate_right};
ghost use Rattle.sha2.specs.Sha256.{add32, small_sigma0, small_sigma1};

use std::simd::prelude::*;

/// The word in lane `j`.
#[inline(always)]
pub fn word(v: u32x4, j: usize) -> u32
    requires { j < 4 }
    ensures { result ≡ slice_index v j }
{
    let lanes = v.to_array();
    lanes[j]
}

/// The sum of two words.
#[inline(always)]
pub fn add(a: u32x4, b: u32x4) -> u32x4
    ensures { (j : ℕ) → j < 4 → slice_index result j ≡ add32 (slice_index a j) (slice_index b j) }
{
    a + b
}

/// `ROTR k`: std has no rotation of a vector's lanes.
#[inline(always)]
pub fn rotated(x: u32x4, k: u32) -> u32x4
    requires { (0 < k) × (k < 32) }
    ensures { (j : ℕ) → j < 4 → slice_index result j ≡ rotate_right w32 (slice_index x j) k }
{
    (x >> u32x4::splat(k)) | (x << u32x4::splat(32 - k))
}

/// `ROTR k` of a sum.
#[inline(always)]
pub fn sum_rotated(x: u32x4, y: u32x4, k: u32) -> u32x4
    requires { (0 < k) × (k < 32) }
    ensures { (j : ℕ) → j < 4 → slice_index result j
        ≡ rotate_right w32 (bit_xor (slice_index x j) (slice_index y j)) k }
{
    rotated(x ^ y, k)
}

// A sum with `SHR k`.
#[inline(always)]
fn sum_shifted(x: u32x4, y: u32x4, k: u32) -> u32x4
    requires { k < 32 }
    ensures { (j : ℕ) → j < 4 → slice_index result j ≡ bit_xor (slice_index x j) (slice_index y j / 2 ^ k) }
{
    x ^ (y >> u32x4::splat(k))
}

// σ 0. Like σ 1 it nests its rotations, which takes fewer copies of `x` than rotating it afresh each time.
#[inline(always)]
pub fn small_sigma0(x: u32x4) -> u32x4
    ensures { (j : ℕ) → j < 4 → slice_index result j ≡ small_sigma0 (slice_index x j) }
{
    sum_shifted(sum_rotated(x, rotated(x, 11), 7), x, 3)
}

#[inline(always)]
pub fn small_sigma1(x: u32x4) -> u32x4
    ensures { (j : ℕ) → j < 4 → slice_index result j ≡ small_sigma1 (slice_index x j) }
{
    sum_shifted(sum_rotated(x, rotated(x, 2), 17), x, 10)
}
