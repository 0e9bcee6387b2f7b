//! The key expansion (FIPS 197, 5.2), word by word.

ghost use Rattle.std.specs.Prelude.{◌≡◌, ℕ, ◌+◌, ◌-◌, ◌*◌, ◌/◌, ◌%◌, ◌<◌, ◌≤◌, ◌++◌, length, replicate, List};
ghost use Rattle.aes_core.specs.Field.{power};
ghost use Rattle.aes_core.specs.Aes.{xor, sub_bytes, word, rotated, key_term, key_schedule};

use crate::sboxes::sbox;
use crate::steps::times_x;

// A word of the key schedule: four bytes.
type Word = [u8; 4];

// Word i of the key schedule.
fn word(w: &[u8; 240], i: usize) -> Word
    requires { i < 60 }
    ensures { result ≡ word w.now i }
{
    [w[4 * i], w[4 * i + 1], w[4 * i + 2], w[4 * i + 3]]
}

// SubWord: the S-box of each byte.
fn sub_word(w: Word) -> Word
    ensures { result ≡ sub_bytes w }
{
    [sbox(w[0]), sbox(w[1]), sbox(w[2]), sbox(w[3])]
}

// RotWord: the first byte becomes the last.
fn rotated(w: Word) -> Word
    ensures { result ≡ rotated w }
{
    [w[1], w[2], w[3], w[0]]
}

fn xor_word(a: Word, b: Word) -> Word
    ensures { result ≡ xor a b }
{
    [a[0] ^ b[0], a[1] ^ b[1], a[2] ^ b[2], a[3] ^ b[3]]
}

// The first byte of Rcon j, which is x to the power j - 1.
fn round_constant(j: usize) -> u8
    requires { 1 ≤ j }
    ensures { result ≡ power 2 (j - 1) }
{
    let mut constant = 1u8;
    for n in 0..j - 1 {
        constant = times_x(constant);
    }
    constant
}

// What is added to word i - nk to give word i.
fn key_term(w: &[u8; 240], nk: usize, i: usize) -> Word
    requires low { nk ≤ i }
    requires high { i < 60 }
    requires words { 4 ≤ nk }
    ensures { result ≡ key_term nk w.now i }
{
    let last = word(w, i - 1);
    if i % nk == 0 {
        xor_word(sub_word(rotated(last)), [round_constant(i / nk), 0, 0, 0])
    } else if nk == 8 && i % 8 == 4 {
        sub_word(last)
    } else {
        last
    }
}

// The round keys of a key of `nk` words, with zeros after them.
pub fn expand(key: &[u8], nk: usize) -> [u8; 240]
    requires long { length key.now ≡ 4 * nk }
    requires low { 4 ≤ nk }
    requires high { nk ≤ 8 }
    requires even { nk % 2 ≡ 0 }
    ensures { result ≡ key_schedule key.now ++ replicate (240 - 16 * (nk + 7)) 0 }
{
    let mut w = [0u8; 240];
    w[..4 * nk].copy_from_slice(key);
    let count = 3 * nk + 28;
    for n in 0..count {
        let i = nk + n;
        let next = xor_word(word(&w, n), key_term(&w, nk, i));
        w[4 * i..4 * i + 4].copy_from_slice(&next);
    }
    w
}
