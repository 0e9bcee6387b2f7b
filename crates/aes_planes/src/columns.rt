//! MixColumns and InvMixColumns (FIPS 197, 5.1.3 and 5.3.3) on bit planes, by rows.

ghost use Rattle.std.specs.Prelude.{◌≡◌, ◌<◌, ℕ, length, map};
ghost use Rattle.aes_core.specs.Aes.{inverse_mix_columns};
ghost use Rattle.aes_core.specs.Blocks.{block};
ghost use Rattle.aes_planes.specs.Blocks.{AreStates, block_at};
ghost use Rattle.aes_planes.specs.Planes.{planes_of, rows, next_row, opposite_row, mixed_rows, other_rows, quadrupled_planes, with_next_row, AreLong};
ghost use Rattle.aes_planes.specs.Wide.{AreWide, side};

use crate::vectors::{Planes, WidePlanes, planes, summed, wide_summed};
use std::simd::prelude::*;

const NEXT: [usize; 16] = [4, 5, 6, 7, 8, 9, 10, 11, 12, 13, 14, 15, 0, 1, 2, 3];

const OPPOSITE: [usize; 16] = [8, 9, 10, 11, 12, 13, 14, 15, 0, 1, 2, 3, 4, 5, 6, 7];

#[inline(always)]
fn next(v: u8x16) -> u8x16
    requires { length v ≡ 16 }
    ensures value { result ≡ next_row v }
    ensures long { length result ≡ 16 }
{
    v.swizzle(NEXT)
}

#[inline(always)]
fn opposite(v: u8x16) -> u8x16
    requires { length v ≡ 16 }
    ensures { result ≡ opposite_row v }
{
    v.swizzle(OPPOSITE)
}

// What MixColumns makes of a plane: the sum of each byte and the next of its column, and that of the other three.
#[derive(Clone, Copy)]
struct RowSums {
    with_next: u8x16,
    others: u8x16,
}

#[inline(always)]
fn sums(v: u8x16) -> RowSums
    requires { length v ≡ 16 }
    ensures with_next { result.with_next ≡ with_next_row v }
    ensures others { result.others ≡ other_rows v }
{
    let after = next(v);
    let with_next = v ^ after;
    let others = after ^ opposite(with_next);
    RowSums { with_next, others }
}

// MixColumns on planes of either width.
macro_rules! mixed {
    ($planes:ident, $sums:ident($q:ident)) => {{
        let s0 = $sums($q.b0);
        let s1 = $sums($q.b1);
        let s2 = $sums($q.b2);
        let s3 = $sums($q.b3);
        let s4 = $sums($q.b4);
        let s5 = $sums($q.b5);
        let s6 = $sums($q.b6);
        let s7 = $sums($q.b7);
        $planes {
            b7: s7.others ^ s6.with_next,
            b6: s6.others ^ s5.with_next,
            b5: s5.others ^ s4.with_next,
            b4: s4.others ^ s3.with_next ^ s7.with_next,
            b3: s3.others ^ s2.with_next ^ s7.with_next,
            b2: s2.others ^ s1.with_next,
            b1: s1.others ^ s0.with_next ^ s7.with_next,
            b0: s0.others ^ s7.with_next,
        }
    }};
}

/// MixColumns by rows.
#[inline(always)]
pub fn mix_columns(q: Planes) -> Planes
    requires { AreLong q }
    ensures { planes_of result ≡ mixed_rows q }
{
    mixed!(Planes, sums(q))
}

// In the place of each byte, the one two rows on in its column.
#[inline(always)]
fn opposites(q: Planes) -> Planes
    requires { AreLong q }
    ensures { planes_of result ≡ map opposite_row (planes_of q) }
{
    planes!(Planes, opposite(q))
}

// Each byte times x squared, on planes of either width.
macro_rules! times_four {
    ($planes:ident, $q:ident) => {{
        let both = $q.b6 ^ $q.b7;
        $planes {
            b7: $q.b5,
            b6: $q.b4,
            b5: $q.b3 ^ $q.b7,
            b4: $q.b2 ^ both,
            b3: $q.b1 ^ $q.b6,
            b2: $q.b0 ^ $q.b7,
            b1: both,
            b0: $q.b6,
        }
    }};
}

// Each byte times x squared.
#[inline(always)]
fn quadrupled(q: Planes) -> Planes
    ensures { planes_of result ≡ quadrupled_planes q }
{
    times_four!(Planes, q)
}

/// InvMixColumns by rows.
#[inline(always)]
pub fn inverse_mix_columns(q: Planes) -> Planes
    requires { AreStates q }
    ensures states { AreStates result }
    ensures blocks { (j : ℕ) → j < 8 → block_at (planes_of result) j ≡ rows (inverse_mix_columns (rows (block_at (planes_of q) j))) }
{
    let u = quadrupled(summed(q, opposites(q)));
    mix_columns(summed(q, u))
}

const WIDE_NEXT: [usize; 32] = [
    4, 5, 6, 7, 8, 9, 10, 11, 12, 13, 14, 15, 0, 1, 2, 3, 20, 21, 22, 23, 24, 25, 26, 27, 28, 29,
    30, 31, 16, 17, 18, 19,
];

const WIDE_OPPOSITE: [usize; 32] = [
    8, 9, 10, 11, 12, 13, 14, 15, 0, 1, 2, 3, 4, 5, 6, 7, 24, 25, 26, 27, 28, 29, 30, 31, 16, 17,
    18, 19, 20, 21, 22, 23,
];

#[inline(always)]
fn wide_next(v: u8x32) -> u8x32
    requires { length v ≡ 32 }
    ensures sides { (i : ℕ) → i < 2 → block result i ≡ next_row (block v i) }
    ensures long { length result ≡ 32 }
{
    v.swizzle(WIDE_NEXT)
}

#[inline(always)]
fn wide_opposite(v: u8x32) -> u8x32
    requires { length v ≡ 32 }
    ensures sides { (i : ℕ) → i < 2 → block result i ≡ opposite_row (block v i) }
    ensures long { length result ≡ 32 }
{
    v.swizzle(WIDE_OPPOSITE)
}

// What MixColumns makes of both sides of a plane: the sum of each byte and the next of its column, and that of the
// other three.
#[derive(Clone, Copy)]
struct WideRowSums {
    with_next: u8x32,
    others: u8x32,
}

#[inline(always)]
fn wide_sums(v: u8x32) -> WideRowSums
    requires { length v ≡ 32 }
    ensures with_next { (i : ℕ) → i < 2 → block result.with_next i ≡ with_next_row (block v i) }
    ensures others { (i : ℕ) → i < 2 → block result.others i ≡ other_rows (block v i) }
    ensures long { (length result.with_next ≡ 32) × (length result.others ≡ 32) }
{
    let next = wide_next(v);
    let with_next = v ^ next;
    let others = next ^ wide_opposite(with_next);
    WideRowSums { with_next, others }
}

/// MixColumns of sixteen blocks, by rows.
#[inline(always)]
pub fn wide_mix_columns(q: WidePlanes) -> WidePlanes
    requires { AreWide q }
    ensures sides { (i : ℕ) → i < 2 → planes_of (side i result) ≡ mixed_rows (side i q) }
    ensures wide { AreWide result }
{
    mixed!(WidePlanes, wide_sums(q))
}

// In the place of each byte of sixteen blocks, the one two rows on in its column.
#[inline(always)]
fn wide_opposites(q: WidePlanes) -> WidePlanes
    requires { AreWide q }
    ensures sides { (i : ℕ) → i < 2 → planes_of (side i result) ≡ map opposite_row (planes_of (side i q)) }
    ensures wide { AreWide result }
{
    planes!(WidePlanes, wide_opposite(q))
}

// Each byte of sixteen blocks times x squared.
#[inline(always)]
fn wide_quadrupled(q: WidePlanes) -> WidePlanes
    requires { AreWide q }
    ensures sides { (i : ℕ) → i < 2 → planes_of (side i result) ≡ quadrupled_planes (side i q) }
    ensures wide { AreWide result }
{
    times_four!(WidePlanes, q)
}

/// InvMixColumns of sixteen blocks, by rows.
#[inline(always)]
pub fn wide_inverse_mix_columns(q: WidePlanes) -> WidePlanes
    requires wide { AreWide q }
    requires states { (i : ℕ) → i < 2 → AreStates (side i q) }
    ensures states { (i : ℕ) → i < 2 → AreStates (side i result) }
    ensures blocks { (i : ℕ) → i < 2 → (j : ℕ) → j < 8
        → block_at (planes_of (side i result)) j ≡ rows (inverse_mix_columns (rows (block_at (planes_of (side i q)) j))) }
    ensures wide { AreWide result }
{
    let u = wide_quadrupled(wide_summed(q, wide_opposites(q)));
    wide_mix_columns(wide_summed(q, u))
}
