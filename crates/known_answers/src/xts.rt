//! The vectors of IEEE 1619, and texts of other lengths.

use crate::common::{bytes_of, fill};
use aes_core::Schedule;
use sha2::{Digest, Sha256};
use std::process::Abort;
use std::test::Fail;
use xts_mode::{xts_open, xts_seal};

// Two keys, the number of a data unit, and two blocks of it.
#[derive(Clone, Copy)]
struct Vector {
    first: [u128; 2],
    second: [u128; 2],
    key_length: usize,
    unit: u64,
    plain: [u128; 2],
    cipher: [u128; 2],
}

// IEEE 1619, annex B: vectors 1 to 3, and the first two blocks of vectors 4 and 10.
const VECTORS: [Vector; 5] = [
    Vector {
        first: [0, 0],
        second: [0, 0],
        key_length: 16,
        unit: 0,
        plain: [0, 0],
        cipher: [
            0x917cf69ebd68b2ec9b9fe9a3eadda692,
            0xcd43d2f59598ed858c02c2652fbf922e,
        ],
    },
    Vector {
        first: [0x11111111111111111111111111111111, 0],
        second: [0x22222222222222222222222222222222, 0],
        key_length: 16,
        unit: 0x3333333333,
        plain: [
            0x44444444444444444444444444444444,
            0x44444444444444444444444444444444,
        ],
        cipher: [
            0xc454185e6a16936e39334038acef838b,
            0xfb186fff7480adc4289382ecd6d394f0,
        ],
    },
    Vector {
        first: [0xfffefdfcfbfaf9f8f7f6f5f4f3f2f1f0, 0],
        second: [0x22222222222222222222222222222222, 0],
        key_length: 16,
        unit: 0x3333333333,
        plain: [
            0x44444444444444444444444444444444,
            0x44444444444444444444444444444444,
        ],
        cipher: [
            0xaf85336b597afc1a900b2eb21ec949d2,
            0x92df4c047e0b21532186a5971a227a89,
        ],
    },
    Vector {
        first: [0x27182818284590452353602874713526, 0],
        second: [0x31415926535897932384626433832795, 0],
        key_length: 16,
        unit: 0,
        plain: [
            0x000102030405060708090a0b0c0d0e0f,
            0x101112131415161718191a1b1c1d1e1f,
        ],
        cipher: [
            0x27a7479befa1d476489f308cd4cfa6e2,
            0xa96e4bbe3208ff25287dd3819616e89c,
        ],
    },
    Vector {
        first: [
            0x27182818284590452353602874713526,
            0x62497757247093699959574966967627,
        ],
        second: [
            0x31415926535897932384626433832795,
            0x02884197169399375105820974944592,
        ],
        key_length: 32,
        unit: 0xff,
        plain: [
            0x000102030405060708090a0b0c0d0e0f,
            0x101112131415161718191a1b1c1d1e1f,
        ],
        cipher: [
            0x1c3b3a102f770386e4836c99e370cf9b,
            0xea00803f5e482357a4ae12d414a3e63b,
        ],
    },
];

fn check_vector(rt: &impl Abort, i: usize, vector: Vector) -> Result<(), Fail> {
    assert!(rt; vector.key_length <= 32, "row {i}");
    let k1 = Schedule::new(&bytes_of(vector.first)[..vector.key_length]).ok_or("no key")?;
    let k2 = Schedule::new(&bytes_of(vector.second)[..vector.key_length]).ok_or("no key")?;
    let mut text = bytes_of(vector.plain);
    xts_seal(&k1, &k2, vector.unit, &mut text);
    assert_eq!(rt; text, bytes_of(vector.cipher), "row {i}");
    xts_open(&k1, &k2, vector.unit, &mut text);
    assert_eq!(rt; text, bytes_of(vector.plain), "row {i}, opened");
    Ok(())
}

#[test]
fn vectors_of_the_standard(rt: HostRuntime) -> Result<(), Fail> {
    for (i, vector) in VECTORS.iter().enumerate() {
        check_vector(&rt, i, *vector)?;
    }
    Ok(())
}

// Random keys and a random tweak, the length of a plaintext, and its ciphertext's digest.
#[derive(Clone, Copy)]
struct Row {
    first: [u128; 2],
    second: [u128; 2],
    key_length: usize,
    tweak: u64,
    length: usize,
    digest: [u128; 2],
}

// Another implementation's results, by tools/mode_tables.py.
const ROWS: [Row; 6] = [
    Row {
        first: [
            0x07410bf9cecbd27f51175caebcbe0f9b,
            0x00000000000000000000000000000000,
        ],
        second: [
            0x222fcccf289ab6acc04cc2dd944ceb17,
            0x00000000000000000000000000000000,
        ],
        key_length: 16,
        tweak: 0x5d5e29965c47e65a,
        length: 0,
        digest: [
            0xe3b0c44298fc1c149afbf4c8996fb924,
            0x27ae41e4649b934ca495991b7852b855,
        ],
    },
    Row {
        first: [
            0xaec784e8556e3db09044c4c8f35dff5f,
            0x4523714c2395f64fd255f04bb633346c,
        ],
        second: [
            0xf6cab2f7d679cf969f8e1db72156bd91,
            0x429bdc41d53326e7178c4d1622d00ff5,
        ],
        key_length: 32,
        tweak: 0xa852375f2b8b5275,
        length: 16,
        digest: [
            0x1a99afa03a264210602218af99ec6d10,
            0x9780c74bd8dae8fb552335a8c57a3987,
        ],
    },
    Row {
        first: [
            0xe0454fc7479224894f0d95c0382af75c,
            0x00000000000000000000000000000000,
        ],
        second: [
            0x8200242eaf8d297c5bf580da52184ba1,
            0x00000000000000000000000000000000,
        ],
        key_length: 16,
        tweak: 0x3f4bbfdece1ff7ca,
        length: 48,
        digest: [
            0x83cdc4287614fea1be9872b3672c2705,
            0x376aa32a8752998497396adbc7162d05,
        ],
    },
    Row {
        first: [
            0x55045b60b6eeeb26dd2c896b33b70792,
            0xdf52b8b373e640bfa657ba6fc2335eb3,
        ],
        second: [
            0x3e5248dfb18e2c6d9e70f40e21dba663,
            0xcdf006e7d2fd28c51123aaebd91e6125,
        ],
        key_length: 32,
        tweak: 0x20276e00501a6651,
        length: 512,
        digest: [
            0xddf486543b554a2dd4a902e82ed9d693,
            0x4ccdd4e3462c3e4c7bca42b86b113a48,
        ],
    },
    Row {
        first: [
            0x7f2e267a4dc13ecfddb746b59e50d3f4,
            0x00000000000000000000000000000000,
        ],
        second: [
            0x9b033cabd109255779606c642b3fbaec,
            0x00000000000000000000000000000000,
        ],
        key_length: 16,
        tweak: 0x7cf09c2fa11a3a56,
        length: 4096,
        digest: [
            0xe503cfbcd8be9cfa4aee65084604701c,
            0xada15cfc3e136a326d7bd7305a9324c2,
        ],
    },
    Row {
        first: [
            0x17c32e0c16838d0077f945acf35a58e9,
            0xff64b927e6e52fd49cdeea65211dd9fa,
        ],
        second: [
            0x04ba40803b070e36e784ae262ee952df,
            0xa4172b82ca217feecc855d33f29153a3,
        ],
        key_length: 32,
        tweak: 0x530156a9a1051d17,
        length: 65536,
        digest: [
            0xeaf7e3f0a9930a85ee11bd880ac8492c,
            0xae58da57c0dabd137f7e854ffea40df9,
        ],
    },
];

fn check_row(rt: &impl Abort, row: Row, text: &mut [u8]) -> Result<(), Fail> {
    assert!(rt; row.key_length <= 32, "{}", row.length);
    let k1 = Schedule::new(&bytes_of(row.first)[..row.key_length]).ok_or("no key")?;
    let k2 = Schedule::new(&bytes_of(row.second)[..row.key_length]).ok_or("no key")?;
    assert!(rt; text.len() % 16 == 0, "{}", row.length);
    xts_seal(&k1, &k2, row.tweak, text);
    assert_eq!(rt;
        Sha256::digest(text),
        bytes_of(row.digest),
        "{}",
        row.length
    );
    Ok(())
}

#[test]
fn as_another_implementation(rt: HostRuntime) -> Result<(), Fail> {
    let mut text = vec![in rt.alloc(); 0u8; 65536]?;
    for row in ROWS {
        assert!(rt; row.length <= text.len(), "{}", row.length);
        fill(&mut text);
        check_row(&rt, row, &mut text[..row.length])?;
    }
    Ok(())
}
