//! The vectors of NIST SP 800-38A, and texts of other lengths.

use crate::common::{bytes_of, fill};
use aes_core::Schedule;
use cbc_mode::{cbc_open, cbc_seal};
use sha2::{Digest, Sha256};
use std::process::Abort;
use std::test::Fail;

// The blocks of a text, the first number first and each big-endian.
fn text_of(numbers: [u128; 4]) -> [u8; 64] {
    let mut out = [0u8; 64];
    out[..32].copy_from_slice(&bytes_of([numbers[0], numbers[1]]));
    out[32..].copy_from_slice(&bytes_of([numbers[2], numbers[3]]));
    out
}

// A key, and what the plaintext of the standard is enciphered to under it.
#[derive(Clone, Copy)]
struct Vector {
    key: [u128; 2],
    key_length: usize,
    cipher: [u128; 4],
}

const PLAIN: [u128; 4] = [
    0x6bc1bee22e409f96e93d7e117393172a,
    0xae2d8a571e03ac9c9eb76fac45af8e51,
    0x30c81c46a35ce411e5fbc1191a0a52ef,
    0xf69f2445df4f9b17ad2b417be66c3710,
];

const INITIAL_VECTOR: u128 = 0x000102030405060708090a0b0c0d0e0f;

// NIST SP 800-38A, F.2.1 to F.2.6.
const VECTORS: [Vector; 3] = [
    Vector {
        key: [0x2b7e151628aed2a6abf7158809cf4f3c, 0],
        key_length: 16,
        cipher: [
            0x7649abac8119b246cee98e9b12e9197d,
            0x5086cb9b507219ee95db113a917678b2,
            0x73bed6b8e3c1743b7116e69e22229516,
            0x3ff1caa1681fac09120eca307586e1a7,
        ],
    },
    Vector {
        key: [
            0x8e73b0f7da0e6452c810f32b809079e5,
            0x62f8ead2522c6b7b0000000000000000,
        ],
        key_length: 24,
        cipher: [
            0x4f021db243bc633d7178183a9fa071e8,
            0xb4d9ada9ad7dedf4e5e738763f69145a,
            0x571b242012fb7ae07fa9baac3df102e0,
            0x08b0e27988598881d920a9e64f5615cd,
        ],
    },
    Vector {
        key: [
            0x603deb1015ca71be2b73aef0857d7781,
            0x1f352c073b6108d72d9810a30914dff4,
        ],
        key_length: 32,
        cipher: [
            0xf58c4c04d6e5f1ba779eabfb5f7bfbd6,
            0x9cfc4e967edb808d679f777bc6702c7d,
            0x39f23369a9d9bacfa530e26304231461,
            0xb2eb05e2c39be9fcda6c19078c6a9d1b,
        ],
    },
];

fn check_vector(rt: &impl Abort, vector: Vector) -> Result<(), Fail> {
    let length = vector.key_length;
    assert!(rt; length <= 32, "{length}");
    let k = Schedule::new(&bytes_of(vector.key)[..length]).ok_or("a key was refused")?;
    let iv = INITIAL_VECTOR.to_be_bytes();
    let mut text = text_of(PLAIN);
    cbc_seal(&k, &iv, &mut text);
    assert!(rt; text == text_of(vector.cipher), "{length}");
    cbc_open(&k, &iv, &mut text);
    assert!(rt; text == text_of(PLAIN), "{length}, opened");
    Ok(())
}

#[test]
fn vectors_of_the_standard(rt: HostRuntime) -> Result<(), Fail> {
    for vector in VECTORS {
        check_vector(&rt, vector)?;
    }
    Ok(())
}

// A random key and initialization vector, the length of a plaintext, and its ciphertext's digest.
#[derive(Clone, Copy)]
struct Row {
    key: [u128; 2],
    key_length: usize,
    iv: u128,
    length: usize,
    digest: [u128; 2],
}

// Another implementation's results, by tools/mode_tables.py.
const ROWS: [Row; 6] = [
    Row {
        key: [
            0xf25a358a4b46ed03408bed214636cf29,
            0x00000000000000000000000000000000,
        ],
        key_length: 16,
        iv: 0xa0f369050c66e5b0fd960730e2214995,
        length: 0,
        digest: [
            0xe3b0c44298fc1c149afbf4c8996fb924,
            0x27ae41e4649b934ca495991b7852b855,
        ],
    },
    Row {
        key: [
            0xb72e071ef1ab000aa761db94c6550f7c,
            0x4e13bb74775b4e190000000000000000,
        ],
        key_length: 24,
        iv: 0x6f08a5efa4514c34094b8cf4814cd594,
        length: 16,
        digest: [
            0x3504e20edb33e2cc4a0d436995daf754,
            0x90c15f166fd01b18d4b6fdc451fe19c4,
        ],
    },
    Row {
        key: [
            0x21ecd1d9e2677f6ac28141ce712f0239,
            0x963888acf28fd49fa9794b2b648d0127,
        ],
        key_length: 32,
        iv: 0x1636cb95276084b4f637717d68aae369,
        length: 48,
        digest: [
            0x7ed26ae3ba47c8c5717c60305c5ef2b0,
            0x6a52fb23dc778bfa1a75c2bbe015e582,
        ],
    },
    Row {
        key: [
            0x3ebd4f7e3d50d78a07d6258d7b11414d,
            0x00000000000000000000000000000000,
        ],
        key_length: 16,
        iv: 0x6e4d4098529993fc4acf217b646b424c,
        length: 512,
        digest: [
            0x77303310ca53d20cc24488cdc98124fc,
            0x5ffe61f97e007e2ea0dc39111fe378f3,
        ],
    },
    Row {
        key: [
            0x75f67db75577c91325c0173ecce4846a,
            0xc45b563d197c96790000000000000000,
        ],
        key_length: 24,
        iv: 0xe4bb99d645c6f07ecf83e2a3a4b0a35a,
        length: 4096,
        digest: [
            0xa06225229951f67c6b0f43d31edb4d49,
            0xba93179d53fc5bfac54aa9e32106521a,
        ],
    },
    Row {
        key: [
            0xa4cfe83048a4004a9f70fdcde8e1238b,
            0xa9cf26877f3a4fbd14ed39e076c87f52,
        ],
        key_length: 32,
        iv: 0x9c9e0845ce25f457cb07e4ca5e213a98,
        length: 65536,
        digest: [
            0x082192c794e490ea3252f3d5ffe78be6,
            0x197cebb55879e2311429538ed6aff6f2,
        ],
    },
];

fn check(rt: &impl Abort, row: Row, text: &mut [u8]) -> Result<(), Fail> {
    assert!(rt; row.key_length <= 32, "{}", row.length);
    let k = Schedule::new(&bytes_of(row.key)[..row.key_length]).ok_or("a key was refused")?;
    assert!(rt; text.len() % 16 == 0, "{}", row.length);
    cbc_seal(&k, &row.iv.to_be_bytes(), text);
    let digest = Sha256::digest(text);
    assert_eq!(rt; digest, bytes_of(row.digest), "{}", row.length);
    Ok(())
}

#[test]
fn as_another_implementation(rt: HostRuntime) -> Result<(), Fail> {
    let mut text = vec![in rt.alloc(); 0u8; 65536]?;
    for row in ROWS {
        assert!(rt; row.length <= text.len(), "{}", row.length);
        fill(&mut text);
        check(&rt, row, &mut text[..row.length])?;
    }
    Ok(())
}
