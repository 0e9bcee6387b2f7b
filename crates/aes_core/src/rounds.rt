//! The cipher under the round keys (FIPS 197, 5.1), by tables.

ghost use Rattle.std.specs.Prelude.{◌≡◌, ℕ, ◌+◌, ◌-◌, ◌%◌, ◌<◌, ◌≤◌, List};
ghost use Rattle.aes_core.specs.Aes.{after_rounds, enciphered};
ghost use Rattle.aes_core.specs.Columns.{words_of};
ghost use Rattle.aes_core.specs.State.{IsState};

use crate::blocks::Block;
use crate::columns::{Columns, after_last_round, after_round, columns_of, state_of};
use crate::steps::add_round_key;

// Two rounds on the columns after round r.
#[inline(always)]
fn two_rounds(w: Columns, keys: &[u8; 240], r: usize) -> Columns
    requires { r < 12 }
    ensures { (b : List ℕ) → IsState b → w ≡ words_of (after_rounds keys.now b r) → result ≡ words_of (after_rounds keys.now b (r + 2)) }
{
    after_round(after_round(w, keys, r + 1), keys, r + 2)
}

// Four rounds on the columns after round r.
#[inline(always)]
fn four_rounds(w: Columns, keys: &[u8; 240], r: usize) -> Columns
    requires { r < 10 }
    ensures { (b : List ℕ) → IsState b → w ≡ words_of (after_rounds keys.now b r) → result ≡ words_of (after_rounds keys.now b (r + 4)) }
{
    two_rounds(two_rounds(w, keys, r), keys, r + 2)
}

// The first 8, 10 or 12 rounds, one less than `count`. They are written out one after the other, which is quicker than
// a loop.
#[inline(always)]
fn even_rounds(start: Columns, keys: &[u8; 240], count: usize) -> Columns
    requires few { count < 14 }
    requires odd { count % 2 ≡ 1 }
    requires many { 9 ≤ count }
    ensures { (b : List ℕ) → IsState b → start ≡ words_of (after_rounds keys.now b 0) → result ≡ words_of (after_rounds keys.now b (count - 1)) }
{
    let eight = four_rounds(four_rounds(start, keys, 0), keys, 4);
    if count == 9 {
        return eight;
    }
    let ten = two_rounds(eight, keys, 8);
    if count == 11 {
        return ten;
    }
    two_rounds(ten, keys, 10)
}

/// The cipher under the round keys, with `count` rounds before the last: 9, 11 or 13 (FIPS 197, 5.1).
#[inline(always)]
pub fn encipher(keys: &[u8; 240], count: usize, block: &Block) -> Block
    requires few { count < 14 }
    requires odd { count % 2 ≡ 1 }
    requires many { 9 ≤ count }
    ensures { result ≡ enciphered keys.now count block.now }
{
    let start = columns_of(&add_round_key(*block, keys, 0));
    let before = after_round(even_rounds(start, keys, count), keys, count);
    state_of(after_last_round(before, keys, count + 1))
}
