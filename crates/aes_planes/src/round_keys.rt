//! The bit planes of round keys, and AddRoundKey (FIPS 197, 5.1.4).
//!
//! Each round key but the first has the constant of the S-box in each byte, since the circuits leave it out. The
//! inverse cipher adds the same keys before the inverse S-box, whose circuit takes a byte with the constant.

ghost use Rattle.std.specs.Prelude.{◌≡◌, ◌<◌, ℕ, length};
ghost use Rattle.aes_core.specs.Blocks.{block};
ghost use Rattle.aes_core.specs.Aes.{round_key};
ghost use Rattle.aes_core.specs.State.{IsState};
ghost use Rattle.aes_planes.specs.Blocks.{AreKeys, AreOf, added, plane_of, key_at};
ghost use Rattle.aes_planes.specs.Planes.{planes_of, rows, turned};
ghost use Rattle.aes_planes.specs.Wide.{AreWide, side};

use crate::rows::in_rows;
use crate::transposition::transposed;
use crate::vectors::{Planes, WidePlanes, planes};
use std::simd::prelude::*;

/// The planes of a round key as numbers, which stand aligned in memory, so that they are added with no load.
#[derive(Clone, Copy)]
pub struct KeyPlanes {
    pub b7: u128,
    pub b6: u128,
    pub b5: u128,
    pub b4: u128,
    pub b3: u128,
    pub b2: u128,
    pub b1: u128,
    pub b0: u128,
}

// A plane of a round key.
#[inline(always)]
fn plane(k: u128) -> u8x16
    ensures { result ≡ plane_of k }
{
    u64x2::from_array([(k & 0xffff_ffff_ffff_ffff) as u64, (k >> 64) as u64]).to_le_bytes()
}

/// AddRoundKey of eight blocks.
#[inline(always)]
pub fn add_round_key(q: Planes, k: &KeyPlanes) -> Planes
    ensures { planes_of result ≡ added q (key_at k.now) }
{
    planes!(Planes, q ^ plane(k))
}

// The 16 lanes of a vector, twice over.
const TWICE: [usize; 32] = [
    0, 1, 2, 3, 4, 5, 6, 7, 8, 9, 10, 11, 12, 13, 14, 15, 0, 1, 2, 3, 4, 5, 6, 7, 8, 9, 10, 11, 12,
    13, 14, 15,
];

// A plane of a round key on both sides.
#[inline(always)]
fn wide_plane(k: u128) -> u8x32
    ensures sides { (i : ℕ) → i < 2 → block result i ≡ plane_of k }
    ensures long { length result ≡ 32 }
{
    plane(k).swizzle(TWICE)
}

/// AddRoundKey of sixteen blocks.
#[inline(always)]
pub fn wide_add_round_key(q: WidePlanes, k: &KeyPlanes) -> WidePlanes
    requires { AreWide q }
    ensures sides { (i : ℕ) → i < 2 → planes_of (side i result) ≡ added (side i q) (key_at k.now) }
    ensures wide { AreWide result }
{
    planes!(WidePlanes, q ^ wide_plane(k))
}

// The number whose bytes a vector has, the lowest first.
#[inline(always)]
fn number(v: u8x16) -> u128
    requires { IsState v }
    ensures { plane_of result ≡ v }
{
    let [low, high] = u64x2::from_le_bytes(v).to_array();
    u128::from(high) * 0x1_0000_0000_0000_0000 + u128::from(low)
}

// The bit planes of eight blocks, all of which are this one.
fn key_planes(v: u8x16) -> KeyPlanes
    requires { IsState v }
    ensures { AreOf v (key_at result) }
{
    let q = transposed(planes!(Planes, v));
    planes!(KeyPlanes, number(q))
}

// A vector with the constant of the S-box added to each byte.
#[inline(always)]
fn with_constant(v: u8x16) -> u8x16
    requires { IsState v }
    ensures value { result ≡ turned v }
    ensures state { IsState result }
{
    v ^ u8x16::splat(0x63)
}

/// The bit planes of the first round key.
fn first_key(k: [u8; 16]) -> KeyPlanes
    requires { IsState k }
    ensures { AreOf k (key_at result) }
{
    key_planes(u8x16::from_array(k))
}

/// The bit planes of a round key between the first and the last, by rows, with the constant of the S-box.
fn middle_key(k: [u8; 16]) -> KeyPlanes
    requires { IsState k }
    ensures { AreOf (rows (turned k)) (key_at result) }
{
    key_planes(in_rows(with_constant(u8x16::from_array(k))))
}

/// The bit planes of the last round key, with the constant of the S-box.
fn last_key(k: [u8; 16]) -> KeyPlanes
    requires { IsState k }
    ensures { AreOf (turned k) (key_at result) }
{
    key_planes(with_constant(u8x16::from_array(k)))
}

// Round key r of a schedule.
fn round_key_of(round_keys: &[u8; 240], r: usize) -> [u8; 16]
    requires { r < 15 }
    ensures value { result ≡ round_key round_keys.now r }
    ensures state { IsState result }
{
    let mut out = [0u8; 16];
    out.copy_from_slice(&round_keys[16 * r..16 * r + 16]);
    out
}

/// The bit planes of all round keys of a key schedule, with `count` rounds before the last.
pub fn schedule_planes(round_keys: &[u8; 240], count: usize) -> [KeyPlanes; 15]
    requires { count < 14 }
    ensures { AreKeys round_keys.now count result }
{
    let none = planes!(KeyPlanes, 0);
    let mut keys = [none; 15];
    keys[0] = first_key(round_key_of(round_keys, 0));
    for r in 0..count {
        keys[r + 1] = middle_key(round_key_of(round_keys, r + 1));
    }
    keys[count + 1] = last_key(round_key_of(round_keys, count + 1));
    keys
}
