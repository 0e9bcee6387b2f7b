//! A round on the columns of a state: SubBytes, ShiftRows, MixColumns and AddRoundKey in one step, by tables (FIPS 197,
//! 5.1).
//!
//! A column is a word, row 0 in the lowest byte.

ghost use Rattle.std.specs.Prelude.{◌≡◌, ℕ, ◌+◌, ◌*◌, ◌/◌, ◌%◌, ◌^◌, ◌<◌, ◌≤◌, List, length};
ghost use Rattle.std.specs.Simd.Lanes.{chunk};
ghost use Rattle.aes_core.specs.Aes.{xor, round_key, sbox, sub_bytes, shift_rows, mix_columns};
ghost use Rattle.aes_core.specs.Columns.{word_of, words_of, mixed_word};
ghost use Rattle.aes_core.specs.State.{IsState};

use crate::blocks::Block;
use crate::column_tables::ROWS;
use std::simd::prelude::*;

/// The four columns of a state.
pub type Columns = [u32; 4];

// The columns of 16 bytes, by one load.
#[inline(always)]
fn columns_at(bytes: &[u8], at: usize) -> Columns
    requires { at + 16 ≤ length bytes.now }
    ensures { result ≡ words_of (chunk at 16 bytes.now) }
{
    u32x4::from_le_bytes(u8x16::from_slice(&bytes[at..at + 16])).to_array()
}

/// The columns of a state.
#[inline(always)]
pub fn columns_of(s: &Block) -> Columns
    ensures { result ≡ words_of s.now }
{
    columns_at(s, 0)
}

// The columns of round key r.
#[inline(always)]
fn key_columns(keys: &[u8; 240], r: usize) -> Columns
    requires { r < 15 }
    ensures { result ≡ words_of (round_key keys.now r) }
{
    columns_at(keys, 16 * r)
}

/// The state with these columns.
#[inline(always)]
pub fn state_of(w: Columns) -> Block
    ensures { (s : List ℕ) → IsState s → w ≡ words_of s → result ≡ s }
{
    u32x4::from_array(w).to_le_bytes().to_array()
}

// SubBytes and MixColumns of a column, each row of which comes from another word.
//
// Not `inline(always)`: a function that grows too large by such calls isn't inlined into its own callers.
#[inline]
fn mixed(a: u32, b: u32, c: u32, d: u32) -> u32
    ensures { result ≡ mixed_word (sbox (a % 256)) (sbox (b / 2 ^ 8 % 256)) (sbox (c / 2 ^ 16 % 256)) (sbox (d / 2 ^ 24)) }
{
    ROWS[0][(a % 256) as usize]
        ^ ROWS[1][((b >> 8) % 256) as usize]
        ^ ROWS[2][((c >> 16) % 256) as usize]
        ^ ROWS[3][(d >> 24) as usize]
}

/// One round but the last: SubBytes, ShiftRows, MixColumns, and AddRoundKey with round key r.
#[inline(always)]
pub fn after_round(w: Columns, keys: &[u8; 240], r: usize) -> Columns
    requires { r < 15 }
    ensures { (s : List ℕ) → IsState s → w ≡ words_of s → result ≡ words_of (xor (mix_columns (shift_rows (sub_bytes s))) (round_key keys.now r)) }
{
    let key = key_columns(keys, r);
    [
        mixed(w[0], w[1], w[2], w[3]) ^ key[0],
        mixed(w[1], w[2], w[3], w[0]) ^ key[1],
        mixed(w[2], w[3], w[0], w[1]) ^ key[2],
        mixed(w[3], w[0], w[1], w[2]) ^ key[3],
    ]
}

// SubBytes of a column, each row of which comes from another word. Each table has the S-box itself in two of its rows.
#[inline]
fn substituted(a: u32, b: u32, c: u32, d: u32) -> u32
    ensures { result ≡ word_of (sbox (a % 256)) (sbox (b / 2 ^ 8 % 256)) (sbox (c / 2 ^ 16 % 256)) (sbox (d / 2 ^ 24)) }
{
    (ROWS[2][(a % 256) as usize] & 0xff)
        ^ (ROWS[3][((b >> 8) % 256) as usize] & 0xff00)
        ^ (ROWS[0][((c >> 16) % 256) as usize] & 0xff_0000)
        ^ (ROWS[1][(d >> 24) as usize] & 0xff00_0000)
}

/// The last round: SubBytes, ShiftRows, and AddRoundKey with round key r.
#[inline(always)]
pub fn after_last_round(w: Columns, keys: &[u8; 240], r: usize) -> Columns
    requires { r < 15 }
    ensures { (s : List ℕ) → IsState s → w ≡ words_of s → result ≡ words_of (xor (shift_rows (sub_bytes s)) (round_key keys.now r)) }
{
    let key = key_columns(keys, r);
    [
        substituted(w[0], w[1], w[2], w[3]) ^ key[0],
        substituted(w[1], w[2], w[3], w[0]) ^ key[1],
        substituted(w[2], w[3], w[0], w[1]) ^ key[2],
        substituted(w[3], w[0], w[1], w[2]) ^ key[3],
    ]
}
