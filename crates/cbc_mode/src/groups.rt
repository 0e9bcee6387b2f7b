//! Deciphering sixteen blocks of a chain at a time, by planes of either width, and eight (NIST SP 800-38A, 6.2).

ghost use Rattle.std.specs.Prelude.{◌≡◌, ◌<◌, ◌≤◌, ◌+◌, ◌*◌, ℕ, length};
ghost use Rattle.aes_core.specs.Blocks.{block};
ghost use Rattle.aes_planes.specs.Blocks.{vector_at};
ghost use Rattle.aes_planes.specs.Wide.{AreWide, side};
ghost use Rattle.cbc_mode.specs.Cbc.{opened_block};

use aes_core::blocks::Block;
use aes_planes::{
    Planes, SlicedSchedule, WIDE, WidePlanes, loaded, pair, store, summed, wide_loaded, wide_store,
    wide_summed,
};
use std::simd::prelude::*;

// Deciphers eight blocks in place, given the block of ciphertext before them. Returns their last block of ciphertext.
#[inline(never)]
fn open_group(k: &SlicedSchedule, before: &Block, group: &mut [u8]) -> Block
    requires { length group.old ≡ 128 }
    ensures opened { (j : ℕ) → j < 8 → block group.new j ≡ opened_block k.now before.now group.old j }
    ensures last { result ≡ block group.old 7 }
    ensures long { length result ≡ 16 }
{
    let cipher = loaded(group);
    let masks = Planes {
        b7: cipher.b6,
        b6: cipher.b5,
        b5: cipher.b4,
        b4: cipher.b3,
        b3: cipher.b2,
        b2: cipher.b1,
        b1: cipher.b0,
        b0: u8x16::from_array(*before),
    };
    let last = cipher.b7.to_array();
    store(summed(k.decrypted(cipher), masks), group);
    last
}

// The last 16 lanes of one vector and then the first 16 of another.
const BETWEEN: [usize; 32] = [
    16, 17, 18, 19, 20, 21, 22, 23, 24, 25, 26, 27, 28, 29, 30, 31, 32, 33, 34, 35, 36, 37, 38, 39,
    40, 41, 42, 43, 44, 45, 46, 47,
];

// The block before each of the two blocks of a vector, from the vector before it.
#[inline(always)]
fn chained(before: u8x32, v: u8x32) -> u8x32
    requires before { length before ≡ 32 }
    requires vector { length v ≡ 32 }
    ensures first { block result 0 ≡ block before 1 }
    ensures second { block result 1 ≡ block v 0 }
    ensures long { length result ≡ 32 }
{
    before.shuffle(v, BETWEEN)
}

// The block before each of sixteen blocks, the first of which has this one before it.
#[inline(always)]
fn blocks_before(before: &Block, cipher: WidePlanes) -> WidePlanes
    requires { AreWide cipher }
    ensures first { block result.b0 0 ≡ before.now }
    ensures even { (j : ℕ) → j < 7 → vector_at (side 0 result) (j + 1) ≡ vector_at (side 1 cipher) j }
    ensures odd { (j : ℕ) → j < 8 → vector_at (side 1 result) j ≡ vector_at (side 0 cipher) j }
    ensures wide { AreWide result }
{
    let first = u8x16::from_array(*before);
    WidePlanes {
        b7: chained(cipher.b6, cipher.b7),
        b6: chained(cipher.b5, cipher.b6),
        b5: chained(cipher.b4, cipher.b5),
        b4: chained(cipher.b3, cipher.b4),
        b3: chained(cipher.b2, cipher.b3),
        b2: chained(cipher.b1, cipher.b2),
        b1: chained(cipher.b0, cipher.b1),
        b0: chained(pair(first, first), cipher.b0),
    }
}

// The second block of a vector.
#[inline(always)]
fn second_block(v: u8x32) -> Block
    requires { length v ≡ 32 }
    ensures { result ≡ block v 1 }
{
    let bytes = v.to_array();
    let mut out = [0u8; 16];
    out.copy_from_slice(&bytes[16..]);
    out
}

// Deciphers sixteen blocks in place by wide planes.
#[inline(never)]
fn open_wide(k: &SlicedSchedule, before: &Block, group: &mut [u8]) -> Block
    requires { length group.old ≡ 256 }
    ensures opened { (j : ℕ) → j < 16 → block group.new j ≡ opened_block k.now before.now group.old j }
    ensures last { result ≡ block group.old 15 }
    ensures long { length result ≡ 16 }
{
    let cipher = wide_loaded(group);
    let masks = blocks_before(before, cipher);
    let last = second_block(cipher.b7);
    wide_store(wide_summed(k.wide_decrypted(cipher), masks), group);
    last
}

// Deciphers sixteen blocks in place, first eight and then the other eight.
fn open_twice(k: &SlicedSchedule, before: &Block, group: &mut [u8]) -> Block
    requires { length group.old ≡ 256 }
    ensures opened { (j : ℕ) → j < 16 → block group.new j ≡ opened_block k.now before.now group.old j }
    ensures last { result ≡ block group.old 15 }
    ensures long { length result ≡ 16 }
{
    let mut last = *before;
    for g in 0..2 {
        let next = open_group(k, &last, &mut group[128 * g..128 * g + 128]);
        last = next;
    }
    last
}

/// Deciphers sixteen blocks in place, given the block of ciphertext before them. Returns their last block of
/// ciphertext.
pub fn open_sixteen(k: &SlicedSchedule, before: &Block, group: &mut [u8]) -> Block
    requires { length group.old ≡ 256 }
    ensures opened { (j : ℕ) → j < 16 → block group.new j ≡ opened_block k.now before.now group.old j }
    ensures last { result ≡ block group.old 15 }
    ensures long { length result ≡ 16 }
{
    if WIDE {
        open_wide(k, before, group)
    } else {
        open_twice(k, before, group)
    }
}

// Deciphers at most eight blocks in place.
fn open_few(k: &SlicedSchedule, before: &Block, rest: &mut [u8])
    requires { length rest.old ≤ 128 }
    ensures { (j : ℕ) → 16 * j + 16 ≤ length rest.old → block rest.new j ≡ opened_block k.now before.now rest.old j }
{
    let mut group = [0u8; 128];
    group[..rest.len()].copy_from_slice(rest);
    open_group(k, before, &mut group);
    rest.copy_from_slice(&group[..rest.len()]);
}

// Deciphers at most sixteen blocks in place.
fn open_many(k: &SlicedSchedule, before: &Block, rest: &mut [u8])
    requires { length rest.old ≤ 256 }
    ensures { (j : ℕ) → 16 * j + 16 ≤ length rest.old → block rest.new j ≡ opened_block k.now before.now rest.old j }
{
    let mut group = [0u8; 256];
    group[..rest.len()].copy_from_slice(rest);
    open_sixteen(k, before, &mut group);
    rest.copy_from_slice(&group[..rest.len()]);
}

/// Deciphers fewer than sixteen blocks in place, given the block of ciphertext before them. Bytes after the last whole
/// block may change.
pub fn open_rest(k: &SlicedSchedule, before: &Block, rest: &mut [u8])
    requires { length rest.old < 256 }
    ensures { (j : ℕ) → 16 * j + 16 ≤ length rest.old → block rest.new j ≡ opened_block k.now before.now rest.old j }
{
    if rest.len() > 128 {
        open_many(k, before, rest);
    } else if !rest.is_empty() {
        open_few(k, before, rest);
    }
}
