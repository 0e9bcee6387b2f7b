//! The vectors of FIPS 197 by the tables and by the equations, and chains of keys.

use crate::common::bytes_of;
use aes_core::Schedule;
use aes_core::steps::{decipher, encipher};
use std::process::Abort;
use std::test::Fail;

// The schedule of so many bytes of a key of up to 32 bytes, given by its halves.
fn schedule_of(first: u128, second: u128, length: usize) -> Result<Schedule, Fail> {
    let key = bytes_of([first, second]);
    let key = key.get(..length).ok_or("a key has more bytes")?;
    Ok(Schedule::new(key).ok_or("a key was refused")?)
}

// The key and the plaintext of FIPS 197, appendix C.
const FIRST: u128 = 0x000102030405060708090a0b0c0d0e0f;

const SECOND: u128 = 0x101112131415161718191a1b1c1d1e1f;

const PLAIN: u128 = 0x00112233445566778899aabbccddeeff;

// The bytes of the key, and what the plaintext is enciphered to.
const VECTORS: [(usize, u128); 3] = [
    (16, 0x69c4e0d86a7b0430d8cdb78070b4c55a),
    (24, 0xdda97ca4864cdfe06eaf70a0ec0d7191),
    (32, 0x8ea2b7ca516745bfeafc49904b496089),
];

// Enciphers and deciphers the block of the vectors by the tables.
fn check_tables(rt: &impl Abort, schedule: &Schedule, cipher: u128) {
    let mut block = PLAIN.to_be_bytes();
    schedule.encrypt_block(&mut block);
    assert_eq!(rt; u128::from_be_bytes(block), cipher);
    schedule.decrypt_block(&mut block);
    assert_eq!(rt; u128::from_be_bytes(block), PLAIN);
}

// Enciphers and deciphers the block of the vectors by the plain program of the equations.
fn check_equations(rt: &impl Abort, schedule: &Schedule, cipher: u128) {
    let (keys, count) = (schedule.round_keys(), schedule.rounds() - 1);
    let enciphered = encipher(keys, count, PLAIN.to_be_bytes());
    assert_eq!(rt; u128::from_be_bytes(enciphered), cipher);
    let deciphered = decipher(keys, count, cipher.to_be_bytes());
    assert_eq!(rt; u128::from_be_bytes(deciphered), PLAIN);
}

#[test]
fn vectors_of_the_standard(rt: HostRuntime) -> Result<(), Fail> {
    for (length, cipher) in VECTORS {
        let schedule = schedule_of(FIRST, SECOND, length)?;
        check_tables(&rt, &schedule, cipher);
        check_equations(&rt, &schedule, cipher);
    }
    assert!(rt; Schedule::new(&[0; 20]).is_none());
    Ok(())
}

// FIPS 197, appendix A: the halves of a key and its bytes, the first word after the key, and the last round key.
const EXPANSIONS: [(u128, u128, usize, u32, u128); 3] = [
    (
        0x2b7e151628aed2a6abf7158809cf4f3c,
        0,
        16,
        0xa0fafe17,
        0xd014f9a8c9ee2589e13f0cc8b6630ca6,
    ),
    (
        0x8e73b0f7da0e6452c810f32b809079e5,
        0x62f8ead2522c6b7b0000000000000000,
        24,
        0xfe0c91f7,
        0xe98ba06f448c773c8ecc720401002202,
    ),
    (
        0x603deb1015ca71be2b73aef0857d7781,
        0x1f352c073b6108d72d9810a30914dff4,
        32,
        0x9ba35411,
        0xfe4890d1e6188d0b046df344706c631e,
    ),
];

// Whether these bytes stand at a place of the round keys.
fn stand_at(keys: &[u8; 240], place: usize, bytes: &[u8]) -> bool {
    keys.get(place..)
        .is_some_and(|behind| behind.starts_with(bytes))
}

#[test]
fn key_expansions_of_the_standard(rt: HostRuntime) -> Result<(), Fail> {
    for (first, second, length, next, last) in EXPANSIONS {
        let schedule = schedule_of(first, second, length)?;
        let keys = schedule.round_keys();
        assert!(rt; stand_at(keys, length, &next.to_be_bytes()), "{length}");
        // The last of `length / 4 + 7` round keys.
        let place = length.saturating_mul(4).saturating_add(96);
        assert!(rt; stand_at(keys, place, &last.to_be_bytes()), "{length}");
    }
    Ok(())
}

// The bytes of a key, whether it goes backwards, and the block in the end: the chains of tools/aes_chain.py, by the
// library that it names.
const CHAINS: [(usize, bool, u128); 6] = [
    (16, false, 0xecb1d5bf6aa1efc4abadb08d938846ca),
    (24, false, 0xe68edbbf40e28214f56bbdb6e191b5d9),
    (32, false, 0x6fcb24d95c3fc4cb1284e235bb66d75a),
    (16, true, 0xf9c7b40bdad0befb25f9bc9a99f84edd),
    (24, true, 0x941edf1f01f6a58275f3c9154aa647ef),
    (32, true, 0xc2f9d9c13836c8aecc72b7ffe2735635),
];

// 1,000 keys of each length, each made from the outcome before it, both ways.
#[test]
fn chains_of_keys(rt: HostRuntime) -> Result<(), Fail> {
    for (length, backwards, end) in CHAINS {
        let mut first = FIRST;
        let mut second = SECOND;
        let mut block = [0u8; 16];
        for _ in 0..1000 {
            let schedule = schedule_of(first, second, length)?;
            if backwards {
                schedule.decrypt_block(&mut block);
            } else {
                schedule.encrypt_block(&mut block);
            }
            first ^= u128::from_be_bytes(block);
            second ^= u128::from_be_bytes(block);
        }
        assert_eq!(rt; u128::from_be_bytes(block), end, "{length} {backwards}");
    }
    Ok(())
}
