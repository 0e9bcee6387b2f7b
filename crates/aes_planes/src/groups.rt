//! Eight blocks in a slice, as eight vectors and back; and sixteen, as eight vectors of two blocks.

ghost use Rattle.std.specs.Prelude.{◌≡◌, ◌<◌, ◌+◌, ◌*◌, ◌≤◌, ℕ, ◌++◌, length, take, drop};
ghost use Rattle.aes_core.specs.Blocks.{block};
ghost use Rattle.aes_planes.specs.Blocks.{vector_at};
ghost use Rattle.aes_planes.specs.Planes.{AreLong};
ghost use Rattle.aes_planes.specs.Wide.{AreWide, side};

use crate::vectors::{Planes, WidePlanes};
use std::simd::prelude::*;

// Block `j` of these bytes.
#[inline(always)]
fn vector(bytes: &[u8], j: usize) -> u8x16
    requires { 16 * j + 16 ≤ length bytes.now }
    ensures { result ≡ block bytes.now j }
{
    u8x16::from_slice(&bytes[16 * j..16 * j + 16])
}

/// Eight blocks that stand one after the other, each as a vector.
#[inline(always)]
pub fn loaded(bytes: &[u8]) -> Planes
    requires { length bytes.now ≡ 128 }
    ensures { (j : ℕ) → j < 8 → vector_at result j ≡ block bytes.now j }
{
    Planes {
        b7: vector(bytes, 7),
        b6: vector(bytes, 6),
        b5: vector(bytes, 5),
        b4: vector(bytes, 4),
        b3: vector(bytes, 3),
        b2: vector(bytes, 2),
        b1: vector(bytes, 1),
        b0: vector(bytes, 0),
    }
}

// Writes a vector as block `j`.
#[inline(always)]
fn put(bytes: &mut [u8], j: usize, v: u8x16)
    requires place { 16 * j + 16 ≤ length bytes.old }
    requires long { length v ≡ 16 }
    ensures { bytes.new ≡ take (16 * j) bytes.old ++ (v ++ drop 16 (drop (16 * j) bytes.old)) }
{
    bytes[16 * j..16 * j + 16].copy_from_slice(&v.to_array());
}

/// Writes each of eight vectors as a block.
#[inline(always)]
pub fn store(q: Planes, bytes: &mut [u8])
    requires eight { length bytes.old ≡ 128 }
    requires long { AreLong q }
    ensures { (j : ℕ) → j < 8 → block bytes.new j ≡ vector_at q j }
{
    put(bytes, 0, q.b0);
    put(bytes, 1, q.b1);
    put(bytes, 2, q.b2);
    put(bytes, 3, q.b3);
    put(bytes, 4, q.b4);
    put(bytes, 5, q.b5);
    put(bytes, 6, q.b6);
    put(bytes, 7, q.b7);
}

// Blocks `2 * j` and `2 * j + 1` of these bytes.
#[inline(always)]
fn wide_vector(bytes: &[u8], j: usize) -> u8x32
    requires { 32 * j + 32 ≤ length bytes.now }
    ensures sides { (i : ℕ) → i < 2 → block result i ≡ block bytes.now (2 * j + i) }
    ensures long { length result ≡ 32 }
{
    u8x32::from_slice(&bytes[32 * j..32 * j + 32])
}

/// Sixteen blocks that stand one after the other, two in each vector: those of even number are side 0.
#[inline(always)]
pub fn wide_loaded(bytes: &[u8]) -> WidePlanes
    requires { length bytes.now ≡ 256 }
    ensures sides { (i : ℕ) → i < 2 → (j : ℕ) → j < 8 → vector_at (side i result) j ≡ block bytes.now (2 * j + i) }
    ensures wide { AreWide result }
{
    WidePlanes {
        b7: wide_vector(bytes, 7),
        b6: wide_vector(bytes, 6),
        b5: wide_vector(bytes, 5),
        b4: wide_vector(bytes, 4),
        b3: wide_vector(bytes, 3),
        b2: wide_vector(bytes, 2),
        b1: wide_vector(bytes, 1),
        b0: wide_vector(bytes, 0),
    }
}

// Writes a vector as blocks `2 * j` and `2 * j + 1`.
#[inline(always)]
fn wide_put(bytes: &mut [u8], j: usize, v: u8x32)
    requires place { 32 * j + 32 ≤ length bytes.old }
    requires long { length v ≡ 32 }
    ensures { bytes.new ≡ take (32 * j) bytes.old ++ (v ++ drop 32 (drop (32 * j) bytes.old)) }
{
    bytes[32 * j..32 * j + 32].copy_from_slice(&v.to_array());
}

/// Writes each of eight vectors as two blocks.
#[inline(always)]
pub fn wide_store(q: WidePlanes, bytes: &mut [u8])
    requires sixteen { length bytes.old ≡ 256 }
    requires wide { AreWide q }
    ensures { (i : ℕ) → i < 2 → (j : ℕ) → j < 8 → block bytes.new (2 * j + i) ≡ vector_at (side i q) j }
{
    wide_put(bytes, 0, q.b0);
    wide_put(bytes, 1, q.b1);
    wide_put(bytes, 2, q.b2);
    wide_put(bytes, 3, q.b3);
    wide_put(bytes, 4, q.b4);
    wide_put(bytes, 5, q.b5);
    wide_put(bytes, 6, q.b6);
    wide_put(bytes, 7, q.b7);
}

// The lanes of one vector and then those of another.
const BOTH: [usize; 32] = [
    0, 1, 2, 3, 4, 5, 6, 7, 8, 9, 10, 11, 12, 13, 14, 15, 16, 17, 18, 19, 20, 21, 22, 23, 24, 25,
    26, 27, 28, 29, 30, 31,
];

/// Two blocks in one vector.
#[inline(always)]
pub fn pair(first: u8x16, second: u8x16) -> u8x32
    requires first { length first ≡ 16 }
    requires second { length second ≡ 16 }
    ensures first { block result 0 ≡ first }
    ensures second { block result 1 ≡ second }
    ensures long { length result ≡ 32 }
{
    first.shuffle(second, BOTH)
}
