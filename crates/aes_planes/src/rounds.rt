//! The cipher and its inverse on eight blocks, and on sixteen (FIPS 197, 5.1 and 5.3), under the planes of the round
//! keys.

ghost use Rattle.std.specs.Prelude.{◌≡◌, ◌<◌, ◌+◌, ℕ};
ghost use Rattle.aes_core.specs.Aes.{enciphered, deciphered};
ghost use Rattle.aes_planes.specs.Blocks.{AreStates, AreKeys, vector_at};
ghost use Rattle.aes_planes.specs.Wide.{AreWide, side};

use crate::columns::{
    inverse_mix_columns, mix_columns, wide_inverse_mix_columns, wide_mix_columns,
};
use crate::round_keys::{KeyPlanes, add_round_key, wide_add_round_key};
use crate::rows::{
    by_columns, first_shift, first_unshift, last_shift, middle_shift, middle_unshift,
    wide_by_columns, wide_first_shift, wide_first_unshift, wide_last_shift, wide_middle_shift,
    wide_middle_unshift,
};
use crate::sboxes::{inverse_sub_bytes, sub_bytes, wide_inverse_sub_bytes, wide_sub_bytes};
use crate::transposition::{transposed, wide_transposed};
use crate::vectors::{Planes, WidePlanes};

/// Enciphers eight blocks, one in each vector, with `count` rounds between the first and the last.
#[inline(always)]
pub fn encipher(round_keys: &[u8; 240], keys: &[KeyPlanes; 15], count: usize, q: Planes) -> Planes
    requires few { count < 13 }
    requires states { AreStates q }
    requires keys { AreKeys round_keys.now (count + 1) keys.now }
    ensures { (j : ℕ) → j < 8 → vector_at result j ≡ enciphered round_keys.now (count + 1) (vector_at q j) }
{
    let mut s = sub_bytes(first_shift(add_round_key(transposed(q), &keys[0])));
    for n in 0..count {
        s = sub_bytes(middle_shift(add_round_key(mix_columns(s), &keys[n + 1])));
    }
    s = sub_bytes(last_shift(add_round_key(mix_columns(s), &keys[count + 1])));
    transposed(add_round_key(s, &keys[count + 1 + 1]))
}

/// Deciphers eight blocks, one in each vector, with `count` rounds before the last.
#[inline(always)]
pub fn decipher(round_keys: &[u8; 240], keys: &[KeyPlanes; 15], count: usize, q: Planes) -> Planes
    requires few { count < 14 }
    requires states { AreStates q }
    requires keys { AreKeys round_keys.now count keys.now }
    ensures { (j : ℕ) → j < 8 → vector_at result j ≡ deciphered round_keys.now count (vector_at q j) }
{
    let mut s = first_unshift(add_round_key(transposed(q), &keys[count + 1]));
    for n in 0..count {
        s = middle_unshift(inverse_mix_columns(add_round_key(
            inverse_sub_bytes(s),
            &keys[count - n],
        )));
    }
    transposed(add_round_key(by_columns(inverse_sub_bytes(s)), &keys[0]))
}

/// Enciphers sixteen blocks, two in each vector, with `count` rounds between the first and the last.
#[inline(always)]
pub fn wide_encipher(
    round_keys: &[u8; 240],
    keys: &[KeyPlanes; 15],
    count: usize,
    q: WidePlanes,
) -> WidePlanes
    requires few { count < 13 }
    requires wide { AreWide q }
    requires states { (i : ℕ) → i < 2 → AreStates (side i q) }
    requires keys { AreKeys round_keys.now (count + 1) keys.now }
    ensures sides { (i : ℕ) → i < 2 → (j : ℕ) → j < 8 → vector_at (side i result) j ≡ enciphered round_keys.now (count + 1) (vector_at (side i q) j) }
    ensures wide { AreWide result }
{
    let mut s = wide_sub_bytes(wide_first_shift(wide_add_round_key(wide_transposed(q), &keys[0])));
    for n in 0..count {
        s = wide_sub_bytes(wide_middle_shift(wide_add_round_key(
            wide_mix_columns(s),
            &keys[n + 1],
        )));
    }
    s = wide_sub_bytes(wide_last_shift(wide_add_round_key(wide_mix_columns(s), &keys[count + 1])));
    wide_transposed(wide_add_round_key(s, &keys[count + 1 + 1]))
}

/// Deciphers sixteen blocks, two in each vector, with `count` rounds before the last.
#[inline(always)]
pub fn wide_decipher(
    round_keys: &[u8; 240],
    keys: &[KeyPlanes; 15],
    count: usize,
    q: WidePlanes,
) -> WidePlanes
    requires few { count < 14 }
    requires wide { AreWide q }
    requires states { (i : ℕ) → i < 2 → AreStates (side i q) }
    requires keys { AreKeys round_keys.now count keys.now }
    ensures sides { (i : ℕ) → i < 2 → (j : ℕ) → j < 8 → vector_at (side i result) j ≡ deciphered round_keys.now count (vector_at (side i q) j) }
    ensures wide { AreWide result }
{
    let mut s = wide_first_unshift(wide_add_round_key(wide_transposed(q), &keys[count + 1]));
    for n in 0..count {
        let keyed = wide_add_round_key(wide_inverse_sub_bytes(s), &keys[count - n]);
        s = wide_middle_unshift(wide_inverse_mix_columns(keyed));
    }
    wide_transposed(wide_add_round_key(wide_by_columns(wide_inverse_sub_bytes(s)), &keys[0]))
}
