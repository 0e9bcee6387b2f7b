//! ShiftRows and InvShiftRows (FIPS 197, 5.1.2 and 5.3.1) on each plane.
//!
//! Between the first round and the last one a state stands by its rows, lane 4r + c for row r of column c, where the
//! next row of MixColumns is one turn of all lanes. The change of order is part of the first and of the last shift.

ghost use Rattle.std.specs.Prelude.{◌≡◌, ◌<◌, ℕ, length, map};
ghost use Rattle.aes_core.specs.Blocks.{block};
ghost use Rattle.aes_planes.specs.Planes.{planes_of, shift_in, shift_between, shift_out, unshift_in, unshift_between, rows, AreLong};
ghost use Rattle.aes_planes.specs.Wide.{AreWide, side};

use crate::vectors::{Planes, WidePlanes, planes};
use std::simd::prelude::*;

const SHIFT_IN: [usize; 16] = [0, 4, 8, 12, 5, 9, 13, 1, 10, 14, 2, 6, 15, 3, 7, 11];

const SHIFT_BETWEEN: [usize; 16] = [0, 1, 2, 3, 5, 6, 7, 4, 10, 11, 8, 9, 15, 12, 13, 14];

const SHIFT_OUT: [usize; 16] = [0, 5, 10, 15, 1, 6, 11, 12, 2, 7, 8, 13, 3, 4, 9, 14];

const UNSHIFT_IN: [usize; 16] = [0, 4, 8, 12, 13, 1, 5, 9, 10, 14, 2, 6, 7, 11, 15, 3];

const UNSHIFT_BETWEEN: [usize; 16] = [0, 1, 2, 3, 7, 4, 5, 6, 10, 11, 8, 9, 13, 14, 15, 12];

const ROWS: [usize; 16] = [0, 4, 8, 12, 1, 5, 9, 13, 2, 6, 10, 14, 3, 7, 11, 15];

const WIDE_SHIFT_IN: [usize; 32] = [
    0, 4, 8, 12, 5, 9, 13, 1, 10, 14, 2, 6, 15, 3, 7, 11, 16, 20, 24, 28, 21, 25, 29, 17, 26, 30,
    18, 22, 31, 19, 23, 27,
];

const WIDE_SHIFT_BETWEEN: [usize; 32] = [
    0, 1, 2, 3, 5, 6, 7, 4, 10, 11, 8, 9, 15, 12, 13, 14, 16, 17, 18, 19, 21, 22, 23, 20, 26, 27,
    24, 25, 31, 28, 29, 30,
];

const WIDE_SHIFT_OUT: [usize; 32] = [
    0, 5, 10, 15, 1, 6, 11, 12, 2, 7, 8, 13, 3, 4, 9, 14, 16, 21, 26, 31, 17, 22, 27, 28, 18, 23,
    24, 29, 19, 20, 25, 30,
];

const WIDE_UNSHIFT_IN: [usize; 32] = [
    0, 4, 8, 12, 13, 1, 5, 9, 10, 14, 2, 6, 7, 11, 15, 3, 16, 20, 24, 28, 29, 17, 21, 25, 26, 30,
    18, 22, 23, 27, 31, 19,
];

const WIDE_UNSHIFT_BETWEEN: [usize; 32] = [
    0, 1, 2, 3, 7, 4, 5, 6, 10, 11, 8, 9, 13, 14, 15, 12, 16, 17, 18, 19, 23, 20, 21, 22, 26, 27,
    24, 25, 29, 30, 31, 28,
];

const WIDE_ROWS: [usize; 32] = [
    0, 4, 8, 12, 1, 5, 9, 13, 2, 6, 10, 14, 3, 7, 11, 15, 16, 20, 24, 28, 17, 21, 25, 29, 18, 22,
    26, 30, 19, 23, 27, 31,
];

// ShiftRows (5.1.2) of a plane, from columns to rows.
#[inline(always)]
fn moved_in(v: u8x16) -> u8x16
    requires { length v ≡ 16 }
    ensures { result ≡ shift_in v }
{
    v.swizzle(SHIFT_IN)
}

// ShiftRows (5.1.2) of a plane by rows.
#[inline(always)]
fn moved_between(v: u8x16) -> u8x16
    requires { length v ≡ 16 }
    ensures { result ≡ shift_between v }
{
    v.swizzle(SHIFT_BETWEEN)
}

// ShiftRows (5.1.2) of a plane, from rows to columns.
#[inline(always)]
fn moved_out(v: u8x16) -> u8x16
    requires { length v ≡ 16 }
    ensures { result ≡ shift_out v }
{
    v.swizzle(SHIFT_OUT)
}

// InvShiftRows (5.3.1) of a plane, from columns to rows.
#[inline(always)]
fn unmoved_in(v: u8x16) -> u8x16
    requires { length v ≡ 16 }
    ensures { result ≡ unshift_in v }
{
    v.swizzle(UNSHIFT_IN)
}

// InvShiftRows (5.3.1) of a plane by rows.
#[inline(always)]
fn unmoved_between(v: u8x16) -> u8x16
    requires { length v ≡ 16 }
    ensures { result ≡ unshift_between v }
{
    v.swizzle(UNSHIFT_BETWEEN)
}

// The bytes of a state, row by row.
#[inline(always)]
pub fn in_rows(v: u8x16) -> u8x16
    requires { length v ≡ 16 }
    ensures { result ≡ rows v }
{
    v.swizzle(ROWS)
}

// ShiftRows, from columns to rows.
#[inline(always)]
pub fn first_shift(q: Planes) -> Planes
    requires { AreLong q }
    ensures { planes_of result ≡ map shift_in (planes_of q) }
{
    planes!(Planes, moved_in(q))
}

// ShiftRows by rows.
#[inline(always)]
pub fn middle_shift(q: Planes) -> Planes
    requires { AreLong q }
    ensures { planes_of result ≡ map shift_between (planes_of q) }
{
    planes!(Planes, moved_between(q))
}

// ShiftRows, from rows to columns.
#[inline(always)]
pub fn last_shift(q: Planes) -> Planes
    requires { AreLong q }
    ensures { planes_of result ≡ map shift_out (planes_of q) }
{
    planes!(Planes, moved_out(q))
}

// InvShiftRows, from columns to rows.
#[inline(always)]
pub fn first_unshift(q: Planes) -> Planes
    requires { AreLong q }
    ensures { planes_of result ≡ map unshift_in (planes_of q) }
{
    planes!(Planes, unmoved_in(q))
}

// InvShiftRows by rows.
#[inline(always)]
pub fn middle_unshift(q: Planes) -> Planes
    requires { AreLong q }
    ensures { planes_of result ≡ map unshift_between (planes_of q) }
{
    planes!(Planes, unmoved_between(q))
}

// The bytes of a state, from rows to columns.
#[inline(always)]
pub fn by_columns(q: Planes) -> Planes
    requires { AreLong q }
    ensures { planes_of result ≡ map rows (planes_of q) }
{
    planes!(Planes, in_rows(q))
}

// ShiftRows (5.1.2) of both sides of a plane, from columns to rows.
#[inline(always)]
fn wide_moved_in(v: u8x32) -> u8x32
    requires { length v ≡ 32 }
    ensures sides { (i : ℕ) → i < 2 → block result i ≡ shift_in (block v i) }
    ensures long { length result ≡ 32 }
{
    v.swizzle(WIDE_SHIFT_IN)
}

// ShiftRows (5.1.2) of both sides of a plane by rows.
#[inline(always)]
fn wide_moved_between(v: u8x32) -> u8x32
    requires { length v ≡ 32 }
    ensures sides { (i : ℕ) → i < 2 → block result i ≡ shift_between (block v i) }
    ensures long { length result ≡ 32 }
{
    v.swizzle(WIDE_SHIFT_BETWEEN)
}

// ShiftRows (5.1.2) of both sides of a plane, from rows to columns.
#[inline(always)]
fn wide_moved_out(v: u8x32) -> u8x32
    requires { length v ≡ 32 }
    ensures sides { (i : ℕ) → i < 2 → block result i ≡ shift_out (block v i) }
    ensures long { length result ≡ 32 }
{
    v.swizzle(WIDE_SHIFT_OUT)
}

// InvShiftRows (5.3.1) of both sides of a plane, from columns to rows.
#[inline(always)]
fn wide_unmoved_in(v: u8x32) -> u8x32
    requires { length v ≡ 32 }
    ensures sides { (i : ℕ) → i < 2 → block result i ≡ unshift_in (block v i) }
    ensures long { length result ≡ 32 }
{
    v.swizzle(WIDE_UNSHIFT_IN)
}

// InvShiftRows (5.3.1) of both sides of a plane by rows.
#[inline(always)]
fn wide_unmoved_between(v: u8x32) -> u8x32
    requires { length v ≡ 32 }
    ensures sides { (i : ℕ) → i < 2 → block result i ≡ unshift_between (block v i) }
    ensures long { length result ≡ 32 }
{
    v.swizzle(WIDE_UNSHIFT_BETWEEN)
}

// The bytes of both sides, row by row.
#[inline(always)]
fn wide_in_rows(v: u8x32) -> u8x32
    requires { length v ≡ 32 }
    ensures sides { (i : ℕ) → i < 2 → block result i ≡ rows (block v i) }
    ensures long { length result ≡ 32 }
{
    v.swizzle(WIDE_ROWS)
}

// ShiftRows of sixteen blocks, from columns to rows.
#[inline(always)]
pub fn wide_first_shift(q: WidePlanes) -> WidePlanes
    requires { AreWide q }
    ensures sides { (i : ℕ) → i < 2 → planes_of (side i result) ≡ map shift_in (planes_of (side i q)) }
    ensures wide { AreWide result }
{
    planes!(WidePlanes, wide_moved_in(q))
}

// ShiftRows of sixteen blocks, by rows.
#[inline(always)]
pub fn wide_middle_shift(q: WidePlanes) -> WidePlanes
    requires { AreWide q }
    ensures sides { (i : ℕ) → i < 2 → planes_of (side i result) ≡ map shift_between (planes_of (side i q)) }
    ensures wide { AreWide result }
{
    planes!(WidePlanes, wide_moved_between(q))
}

// ShiftRows of sixteen blocks, from rows to columns.
#[inline(always)]
pub fn wide_last_shift(q: WidePlanes) -> WidePlanes
    requires { AreWide q }
    ensures sides { (i : ℕ) → i < 2 → planes_of (side i result) ≡ map shift_out (planes_of (side i q)) }
    ensures wide { AreWide result }
{
    planes!(WidePlanes, wide_moved_out(q))
}

// InvShiftRows of sixteen blocks, from columns to rows.
#[inline(always)]
pub fn wide_first_unshift(q: WidePlanes) -> WidePlanes
    requires { AreWide q }
    ensures sides { (i : ℕ) → i < 2 → planes_of (side i result) ≡ map unshift_in (planes_of (side i q)) }
    ensures wide { AreWide result }
{
    planes!(WidePlanes, wide_unmoved_in(q))
}

// InvShiftRows of sixteen blocks, by rows.
#[inline(always)]
pub fn wide_middle_unshift(q: WidePlanes) -> WidePlanes
    requires { AreWide q }
    ensures sides { (i : ℕ) → i < 2 → planes_of (side i result) ≡ map unshift_between (planes_of (side i q)) }
    ensures wide { AreWide result }
{
    planes!(WidePlanes, wide_unmoved_between(q))
}

// The bytes of sixteen blocks, from rows to columns.
#[inline(always)]
pub fn wide_by_columns(q: WidePlanes) -> WidePlanes
    requires { AreWide q }
    ensures sides { (i : ℕ) → i < 2 → planes_of (side i result) ≡ map rows (planes_of (side i q)) }
    ensures wide { AreWide result }
{
    planes!(WidePlanes, wide_in_rows(q))
}
