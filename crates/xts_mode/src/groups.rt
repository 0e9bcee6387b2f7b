//! XTS on sixteen blocks at a time, by planes of either width, and on eight (IEEE 1619, 5.3 and 5.4).

ghost use Rattle.std.specs.Prelude.{◌≡◌, ◌<◌, ◌≤◌, ◌+◌, ◌*◌, ◌/◌, ◌%◌, ℕ, length};
ghost use Rattle.std.specs.Int.{w128, to_le_bytes};
ghost use Rattle.aes_core.specs.Blocks.{block, blocks};
ghost use Rattle.aes_planes.specs.Blocks.{AreStates, vector_at};
ghost use Rattle.aes_planes.specs.Wide.{AreWide, side};
ghost use Rattle.xts_mode.specs.Halves.{of_halves};
ghost use Rattle.xts_mode.specs.Ways.{aes_by};
ghost use Rattle.xts_mode.specs.Xts.{first_tweak, tweak_at, tweaked_block};

use crate::doubling::{doubled, first_tweak, halves};
use aes_core::Schedule;
use aes_planes::{
    Planes, SlicedSchedule, WIDE, WidePlanes, loaded, pair, store, summed, wide_loaded, wide_store,
    wide_summed,
};
use std::simd::prelude::*;

/// What AES does to a block between its two sums with the tweak: it enciphers (5.3), or deciphers (5.4).
#[derive(Clone, Copy)]
pub enum Way {
    Seal,
    Open,
}

// The tweaks of eight blocks, and the tweak of the block after them.
#[derive(Clone, Copy)]
struct Tweaks {
    masks: Planes,
    next: u64x2,
}

// The tweaks of eight blocks, the first of which has this one.
#[inline(always)]
fn tweaks_from(t: u64x2) -> Tweaks
    requires { length t ≡ 2 }
    ensures masks { (j : ℕ) → j < 8 → vector_at result.masks j ≡ to_le_bytes w128 (tweak_at (of_halves t) j) }
    ensures next { of_halves result.next ≡ tweak_at (of_halves t) 8 }
    ensures long { length result.next ≡ 2 }
{
    let t1 = doubled(t);
    let t2 = doubled(t1);
    let t3 = doubled(t2);
    let t4 = doubled(t3);
    let t5 = doubled(t4);
    let t6 = doubled(t5);
    let t7 = doubled(t6);
    Tweaks {
        masks: Planes {
            b7: t7.to_le_bytes(),
            b6: t6.to_le_bytes(),
            b5: t5.to_le_bytes(),
            b4: t4.to_le_bytes(),
            b3: t3.to_le_bytes(),
            b2: t2.to_le_bytes(),
            b1: t1.to_le_bytes(),
            b0: t.to_le_bytes(),
        },
        next: doubled(t7),
    }
}

// Eight blocks, one in each vector, enciphered or deciphered.
#[inline(always)]
fn ciphered(way: Way, k1: &SlicedSchedule, q: Planes) -> Planes
    requires { AreStates q }
    ensures { (j : ℕ) → j < 8 → vector_at result j ≡ aes_by way k1.now (vector_at q j) }
{
    match way {
        Way::Seal => k1.encrypted(q),
        Way::Open => k1.decrypted(q),
    }
}

// Seals or opens eight blocks in place, the first of which has this tweak. Returns the tweak of the block after them.
#[inline(never)]
fn cipher_group(way: Way, k1: &SlicedSchedule, t: u64x2, group: &mut [u8]) -> u64x2
    requires eight { length group.old ≡ 128 }
    requires long { length t ≡ 2 }
    ensures done { (j : ℕ) → j < 8 → block group.new j ≡ tweaked_block (aes_by way k1.now) (of_halves t) group.old j }
    ensures next { of_halves result ≡ tweak_at (of_halves t) 8 }
    ensures long { length result ≡ 2 }
{
    let tweaks = tweaks_from(t);
    let before = summed(loaded(group), tweaks.masks);
    store(summed(ciphered(way, k1, before), tweaks.masks), group);
    tweaks.next
}

// The tweaks of sixteen blocks, two in each vector, and the tweak of the block after them.
#[derive(Clone, Copy)]
struct WideTweaks {
    masks: WidePlanes,
    next: u64x2,
}

// Two tweaks, of which this is the first, as the bytes of two blocks.
#[derive(Clone, Copy)]
struct TwoTweaks {
    mask: u8x32,
    next: u64x2,
}

// This tweak and the one after it, and the tweak after these.
#[inline(always)]
fn two_tweaks(t: u64x2) -> TwoTweaks
    requires { length t ≡ 2 }
    ensures first { block result.mask 0 ≡ to_le_bytes w128 (of_halves t) }
    ensures second { block result.mask 1 ≡ to_le_bytes w128 (tweak_at (of_halves t) 1) }
    ensures next { of_halves result.next ≡ tweak_at (of_halves t) 2 }
    ensures long { (length result.mask ≡ 32) × (length result.next ≡ 2) }
{
    let second = doubled(t);
    TwoTweaks {
        mask: pair(t.to_le_bytes(), second.to_le_bytes()),
        next: doubled(second),
    }
}

// The tweaks of sixteen blocks, the first of which has this one.
#[inline(always)]
fn wide_tweaks_from(t: u64x2) -> WideTweaks
    requires { length t ≡ 2 }
    ensures masks { (i : ℕ) → i < 2 → (j : ℕ) → j < 8 → vector_at (side i result.masks) j ≡ to_le_bytes w128 (tweak_at (of_halves t) (2 * j + i)) }
    ensures wide { AreWide result.masks }
    ensures next { of_halves result.next ≡ tweak_at (of_halves t) 16 }
    ensures long { length result.next ≡ 2 }
{
    let w0 = two_tweaks(t);
    let w1 = two_tweaks(w0.next);
    let w2 = two_tweaks(w1.next);
    let w3 = two_tweaks(w2.next);
    let w4 = two_tweaks(w3.next);
    let w5 = two_tweaks(w4.next);
    let w6 = two_tweaks(w5.next);
    let w7 = two_tweaks(w6.next);
    WideTweaks {
        masks: WidePlanes {
            b7: w7.mask,
            b6: w6.mask,
            b5: w5.mask,
            b4: w4.mask,
            b3: w3.mask,
            b2: w2.mask,
            b1: w1.mask,
            b0: w0.mask,
        },
        next: w7.next,
    }
}

// Sixteen blocks, two in each vector, enciphered or deciphered.
#[inline(always)]
fn wide_ciphered(way: Way, k1: &SlicedSchedule, q: WidePlanes) -> WidePlanes
    requires { AreWide q }
    ensures sides { (i : ℕ) → i < 2 → (j : ℕ) → j < 8 →
        vector_at (side i result) j ≡ aes_by way k1.now (vector_at (side i q) j) }
    ensures wide { AreWide result }
{
    match way {
        Way::Seal => k1.wide_encrypted(q),
        Way::Open => k1.wide_decrypted(q),
    }
}

// Seals or opens sixteen blocks in place by wide planes.
#[inline(never)]
fn cipher_wide(way: Way, k1: &SlicedSchedule, t: u64x2, group: &mut [u8]) -> u64x2
    requires sixteen { length group.old ≡ 256 }
    requires long { length t ≡ 2 }
    ensures done { (j : ℕ) → j < 16 → block group.new j ≡ tweaked_block (aes_by way k1.now) (of_halves t) group.old j }
    ensures next { of_halves result ≡ tweak_at (of_halves t) 16 }
    ensures long { length result ≡ 2 }
{
    let tweaks = wide_tweaks_from(t);
    let before = wide_summed(wide_loaded(group), tweaks.masks);
    wide_store(
        wide_summed(wide_ciphered(way, k1, before), tweaks.masks),
        group,
    );
    tweaks.next
}

// Seals or opens sixteen blocks in place, first eight and then the other eight.
fn cipher_twice(way: Way, k1: &SlicedSchedule, t: u64x2, group: &mut [u8]) -> u64x2
    requires sixteen { length group.old ≡ 256 }
    requires long { length t ≡ 2 }
    ensures done { (j : ℕ) → j < 16 → block group.new j ≡ tweaked_block (aes_by way k1.now) (of_halves t) group.old j }
    ensures next { of_halves result ≡ tweak_at (of_halves t) 16 }
    ensures long { length result ≡ 2 }
{
    let mut now = t;
    for g in 0..2 {
        now = cipher_group(way, k1, now, &mut group[128 * g..128 * g + 128]);
    }
    now
}

// Seals or opens sixteen blocks in place, the first of which has this tweak. Returns the tweak of the block after them.
fn cipher_sixteen(way: Way, k1: &SlicedSchedule, t: u64x2, group: &mut [u8]) -> u64x2
    requires sixteen { length group.old ≡ 256 }
    requires long { length t ≡ 2 }
    ensures done { (j : ℕ) → j < 16 → block group.new j ≡ tweaked_block (aes_by way k1.now) (of_halves t) group.old j }
    ensures next { of_halves result ≡ tweak_at (of_halves t) 16 }
    ensures long { length result ≡ 2 }
{
    if WIDE {
        cipher_wide(way, k1, t, group)
    } else {
        cipher_twice(way, k1, t, group)
    }
}

// Seals or opens at most eight blocks in place.
fn cipher_few(way: Way, k1: &SlicedSchedule, t: u64x2, rest: &mut [u8])
    requires few { length rest.old ≤ 128 }
    requires long { length t ≡ 2 }
    ensures { (j : ℕ) → 16 * j + 16 ≤ length rest.old →
        block rest.new j ≡ tweaked_block (aes_by way k1.now) (of_halves t) rest.old j }
{
    let mut group = [0u8; 128];
    group[..rest.len()].copy_from_slice(rest);
    cipher_group(way, k1, t, &mut group);
    rest.copy_from_slice(&group[..rest.len()]);
}

// Seals or opens at most sixteen blocks in place.
fn cipher_many(way: Way, k1: &SlicedSchedule, t: u64x2, rest: &mut [u8])
    requires few { length rest.old ≤ 256 }
    requires long { length t ≡ 2 }
    ensures { (j : ℕ) → 16 * j + 16 ≤ length rest.old →
        block rest.new j ≡ tweaked_block (aes_by way k1.now) (of_halves t) rest.old j }
{
    let mut group = [0u8; 256];
    group[..rest.len()].copy_from_slice(rest);
    cipher_sixteen(way, k1, t, &mut group);
    rest.copy_from_slice(&group[..rest.len()]);
}

// Seals or opens fewer than sixteen blocks in place, the first of which has this tweak.
fn cipher_rest(way: Way, k1: &SlicedSchedule, t: u64x2, rest: &mut [u8])
    requires few { length rest.old < 256 }
    requires long { length t ≡ 2 }
    ensures { (j : ℕ) → 16 * j + 16 ≤ length rest.old →
        block rest.new j ≡ tweaked_block (aes_by way k1.now) (of_halves t) rest.old j }
{
    if rest.len() > 128 {
        cipher_many(way, k1, t, rest);
    } else if !rest.is_empty() {
        cipher_few(way, k1, t, rest);
    }
}

/// Seals or opens the whole blocks of the data unit of this number in place.
#[inline(always)]
pub fn cipher_unit(way: Way, k1: &SlicedSchedule, k2: &Schedule, unit: u64, block: &mut [u8])
    requires { length block.old % 16 ≡ 0 }
    ensures { block.new ≡
        blocks (tweaked_block (aes_by way k1.now) (first_tweak k2.now unit) block.old) (length block.old / 16) }
{
    let mut t = halves(first_tweak(k2, unit));
    let groups = block.len() / 256;
    for g in 0..groups {
        t = cipher_sixteen(way, k1, t, &mut block[256 * g..256 * g + 256]);
    }
    cipher_rest(way, k1, t, &mut block[256 * groups..]);
}
