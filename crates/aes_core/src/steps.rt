//! AES by the equations of its field and of its steps (FIPS 197, 4 and 5), byte by byte and with no table.
//!
//! This is the plain program of the definitions, and slow: a byte of SubBytes costs 254 products. `Schedule` enciphers
//! by tables, which are proved from the same equations. A state is a block: row r of column c is byte r + 4 * c (FIPS
//! 197, 3.4).

ghost use Rattle.std.specs.Prelude.{◌≡◌, ◌<◌, ℕ, bit_xor, List};
ghost use Rattle.aes_core.specs.Field.{times_x, times, inverse};
ghost use Rattle.aes_core.specs.Aes.{affine, inverse_affine, sbox, inverse_sbox, sub_bytes, shift_rows, mix_columns, inverse_sub_bytes, inverse_shift_rows, inverse_mix_columns, xor, round_key, enciphered, deciphered};

use crate::blocks::{Block, block_at, xor};

/// A byte times x, in the field (FIPS 197, 4.2).
pub fn times_x(a: u8) -> u8
    ensures { result ≡ times_x a }
{
    if a < 128 {
        2 * a
    } else {
        (2 * (a - 128)) ^ 0x1b
    }
}

/// The product of two bytes in the field (FIPS 197, 4.2).
pub fn times(a: u8, b: u8) -> u8
    ensures { result ≡ times a b }
{
    let mut sum = 0u8;
    let mut power = a;
    let mut bits = b;
    for i in 0u32..8 {
        if bits % 2 == 1 {
            sum ^= power;
        }
        power = times_x(power);
        bits /= 2;
    }
    sum
}

/// The inverse of a byte in the field, which is its power 254, and 0 for 0 (FIPS 197, 4.2).
pub fn inverse(a: u8) -> u8
    ensures { result ≡ inverse a }
{
    let mut power = 1u8;
    for n in 0u32..254 {
        power = times(a, power);
    }
    power
}

// The affine map of the S-box (FIPS 197, 5.1.1): each bit the sum of five bits and of one of 0x63.
fn affine(b: u8) -> u8
    ensures { result ≡ affine b }
{
    b ^ b.rotate_left(1) ^ b.rotate_left(2) ^ b.rotate_left(3) ^ b.rotate_left(4) ^ 0x63
}

// The inverse of the affine map (FIPS 197, 5.3.2).
fn inverse_affine(b: u8) -> u8
    ensures { result ≡ inverse_affine b }
{
    b.rotate_left(1) ^ b.rotate_left(3) ^ b.rotate_left(6) ^ 0x05
}

/// The S-box (FIPS 197, 5.1.1).
pub fn sbox(b: u8) -> u8
    ensures { result ≡ sbox b }
{
    affine(inverse(b))
}

/// The inverse S-box (FIPS 197, 5.3.2).
pub fn inverse_sbox(b: u8) -> u8
    ensures { result ≡ inverse_sbox b }
{
    inverse(inverse_affine(b))
}

/// SubBytes (FIPS 197, 5.1.1).
pub fn sub_bytes(s: Block) -> Block
    ensures { result ≡ sub_bytes s }
{
    let mut out = [0u8; 16];
    for i in 0..16 {
        out[i] = sbox(s[i]);
    }
    out
}

/// InvSubBytes (FIPS 197, 5.3.2).
pub fn inverse_sub_bytes(s: Block) -> Block
    ensures { result ≡ inverse_sub_bytes s }
{
    let mut out = [0u8; 16];
    for i in 0..16 {
        out[i] = inverse_sbox(s[i]);
    }
    out
}

/// ShiftRows (FIPS 197, 5.1.2): row r moves left by r columns.
pub fn shift_rows(s: Block) -> Block
    ensures { result ≡ shift_rows s }
{
    [
        s[0], s[5], s[10], s[15], s[4], s[9], s[14], s[3], s[8], s[13], s[2], s[7], s[12], s[1],
        s[6], s[11],
    ]
}

/// InvShiftRows (FIPS 197, 5.3.1): row r moves right by r columns.
pub fn inverse_shift_rows(s: Block) -> Block
    ensures { result ≡ inverse_shift_rows s }
{
    [
        s[0], s[13], s[10], s[7], s[4], s[1], s[14], s[11], s[8], s[5], s[2], s[15], s[12], s[9],
        s[6], s[3],
    ]
}

// One byte of a column of MixColumns: `a` stands in the byte's own row, the others in those below.
fn mixed_byte(a: u8, b: u8, c: u8, d: u8) -> u8
    ensures { result ≡ bit_xor (bit_xor (bit_xor (times 2 a) (times 3 b)) (times 1 c)) (times 1 d) }
{
    times_x(a) ^ (times_x(b) ^ b) ^ c ^ d
}

/// MixColumns (FIPS 197, 5.1.3).
pub fn mix_columns(s: Block) -> Block
    ensures { result ≡ mix_columns s }
{
    let mut out = [0u8; 16];
    for k in 0..16 {
        let c = k / 4 * 4;
        out[k] = mixed_byte(
            s[k],
            s[c + (k + 1) % 4],
            s[c + (k + 2) % 4],
            s[c + (k + 3) % 4],
        );
    }
    out
}

// One byte of a column of InvMixColumns: `a` stands in the byte's own row, the others in those below.
fn unmixed_byte(a: u8, b: u8, c: u8, d: u8) -> u8
    ensures { result ≡ bit_xor (bit_xor (bit_xor (times 14 a) (times 11 b)) (times 13 c)) (times 9 d) }
{
    times(14, a) ^ times(11, b) ^ times(13, c) ^ times(9, d)
}

/// InvMixColumns (FIPS 197, 5.3.3).
pub fn inverse_mix_columns(s: Block) -> Block
    ensures { result ≡ inverse_mix_columns s }
{
    let mut out = [0u8; 16];
    for k in 0..16 {
        let c = k / 4 * 4;
        out[k] = unmixed_byte(
            s[k],
            s[c + (k + 1) % 4],
            s[c + (k + 2) % 4],
            s[c + (k + 3) % 4],
        );
    }
    out
}

/// AddRoundKey (FIPS 197, 5.1.4), of round key r.
pub fn add_round_key(s: Block, keys: &[u8; 240], r: usize) -> Block
    requires { r < 15 }
    ensures { result ≡ xor s (round_key keys.now r) }
{
    xor(s, block_at(keys, r))
}

/// The cipher under the round keys, with `count` rounds before the last (FIPS 197, 5.1).
pub fn encipher(keys: &[u8; 240], count: usize, block: Block) -> Block
    requires { count < 14 }
    ensures { result ≡ enciphered keys.now count block }
{
    let mut s = add_round_key(block, keys, 0);
    for n in 0..count {
        s = add_round_key(mix_columns(shift_rows(sub_bytes(s))), keys, n + 1);
    }
    add_round_key(shift_rows(sub_bytes(s)), keys, count + 1)
}

/// The inverse cipher under the round keys, with `count` rounds before the last (FIPS 197, 5.3).
pub fn decipher(keys: &[u8; 240], count: usize, block: Block) -> Block
    requires { count < 14 }
    ensures { result ≡ deciphered keys.now count block }
{
    let mut s = add_round_key(block, keys, count + 1);
    for n in 0..count {
        s = inverse_mix_columns(add_round_key(
            inverse_sub_bytes(inverse_shift_rows(s)),
            keys,
            count - n,
        ));
    }
    add_round_key(inverse_sub_bytes(inverse_shift_rows(s)), keys, 0)
}
