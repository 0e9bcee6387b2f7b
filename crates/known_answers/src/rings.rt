//! Keys, initialization vectors and tag keys by offset, and which range keys are kept.

use crate::common::{bytes_of, master};
use aes_core::Schedule;
use eli_base::{Auth, Cipher, Params, sector_size_ok};
use range_keys::KeyRing;
use std::alloc::Global;
use std::process::Abort;
use std::test::Fail;

// The range keys of the master key with the bytes 0 to 127, by tools/range_key_tables.py: the front and the back half,
// each number big-endian.
const PLAIN_0_FRONT: [u128; 2] = [
    0xf6403813b0b67abbb64a620d5fe0f8db,
    0x4e540133355d685b208d3eb99cf53971,
];

const PLAIN_0_BACK: [u128; 2] = [
    0x54a6167dc13df45c97c1307bd28ae36b,
    0xec37dc99699cbfb4ed16bf23cdc57fc6,
];

const PLAIN_1_FRONT: [u128; 2] = [
    0x981cd92650a32f0376c4bde21cc5038d,
    0xcb221ab63eb4a3c43269c5b893469d11,
];

const PLAIN_1_BACK: [u128; 2] = [
    0x7baa092e977dc069bdd2a26f651aa9ff,
    0xc38dff70ae671f11d2bee00228dd6010,
];

const TAGGED_0_FRONT: [u128; 2] = [
    0xe454883443510806b7bc289611e0b730,
    0x5ec4d77a634de0f8fe769aacc957152e,
];

const TAGGED_0_BACK: [u128; 2] = [
    0xa7fc9a2dabd1c675002f6950fb15af19,
    0xc276e8bb61225f2ee39fb75b61d552bf,
];

const TAGGED_1_FRONT: [u128; 2] = [
    0xe7d52bbb6fb5b4258cc43814022b48d0,
    0x1463e4c17fe222f0821e2f7598d87088,
];

const TAGGED_1_BACK: [u128; 2] = [
    0x80eb994832ca584809c320991f28ac88,
    0x4f7b35b668bc67c63b06dd2f75c2424d,
];

// The range keys of metadata below version 7, whatever the authentication.
const OLD_0_FRONT: [u128; 2] = [
    0x013f5e8a32eb1c2faf41c3c8ed6e7215,
    0xf65636379c36428e8198e1b1b0d7b869,
];

const OLD_0_BACK: [u128; 2] = [
    0x20f39f073fc2bfd3b609252031283195,
    0x6a8f6d7a8f653dd84075993eb9a65818,
];

const OLD_1_FRONT: [u128; 2] = [
    0x0289a5dad44bfff8c7604fb45cdf853b,
    0xb0b44f929c6d7a6566b2c7a3e0bf59aa,
];

const OLD_1_BACK: [u128; 2] = [
    0x0b173d3700aaffa8a9b3b139338280b9,
    0xba8e018f70ef2303be93e17d6d8a80eb,
];

// Where the keys of AES with 256 bits are asked for, and which they are.
#[derive(Drop)]
struct Place {
    version: u32,
    auth: Auth,
    cipher: Cipher,
    sectorsize: u32,
    offset: u64,
    first: [u128; 2],
    second: [u128; 2],
}

const PLACES: [Place; 6] = [
    Place {
        version: 7,
        auth: Auth::Off,
        cipher: Cipher::AesXts,
        sectorsize: 512,
        offset: 0,
        first: PLAIN_0_FRONT,
        second: PLAIN_0_BACK,
    },
    Place {
        version: 7,
        auth: Auth::Off,
        cipher: Cipher::AesXts,
        sectorsize: 512,
        offset: 536870400,
        first: PLAIN_0_FRONT,
        second: PLAIN_0_BACK,
    },
    Place {
        version: 7,
        auth: Auth::Off,
        cipher: Cipher::AesXts,
        sectorsize: 512,
        offset: 536870912,
        first: PLAIN_1_FRONT,
        second: PLAIN_1_BACK,
    },
    Place {
        version: 7,
        auth: Auth::Off,
        cipher: Cipher::AesXts,
        sectorsize: 4096,
        offset: 4294963200,
        first: PLAIN_0_FRONT,
        second: PLAIN_0_BACK,
    },
    Place {
        version: 7,
        auth: Auth::Off,
        cipher: Cipher::AesXts,
        sectorsize: 4096,
        offset: 4294967296,
        first: PLAIN_1_FRONT,
        second: PLAIN_1_BACK,
    },
    Place {
        version: 7,
        auth: Auth::Off,
        cipher: Cipher::AesCbc,
        sectorsize: 512,
        offset: 536870912,
        first: PLAIN_1_FRONT,
        second: PLAIN_1_FRONT,
    },
];

// A block of zeros under a key of 256 bits.
fn enciphered(key: &Schedule) -> [u8; 16] {
    let mut block = [0u8; 16];
    key.encrypt_block(&mut block);
    block
}

fn expected(key: [u128; 2]) -> Result<[u8; 16], Fail> {
    Ok(enciphered(&Schedule::new(&bytes_of(key)).ok_or("no key")?))
}

fn check_place(rt: &impl Abort, alloc: Global, place: &Place) -> Result<(), Fail> {
    assert!(rt; place.cipher.allows(256) && sector_size_ok(place.sectorsize));
    let params = Params::new(
        place.version,
        place.auth,
        place.cipher,
        256,
        place.sectorsize,
        0,
        false,
    );
    let mut ring = KeyRing::new(alloc, &master(), &params)?;
    let keys = ring.key_at(place.offset);
    assert_eq!(rt;
        enciphered(keys.first.schedule()),
        expected(place.first)?,
        "first, version {}, {:?}, {} bytes, at {}",
        place.version,
        place.auth,
        place.sectorsize,
        place.offset
    );
    assert_eq!(rt;
        enciphered(&keys.second),
        expected(place.second)?,
        "second, version {}, {:?}, {} bytes, at {}",
        place.version,
        place.auth,
        place.sectorsize,
        place.offset
    );
    Ok(())
}

#[test]
fn range_keys_by_offset(rt: HostRuntime) -> Result<(), Fail> {
    for place in &PLACES {
        check_place(&rt, rt.alloc(), place)?;
    }
    Ok(())
}

const AUTHENTICATIONS: [Auth; 3] = [Auth::Sha256, Auth::Sha384, Auth::Sha512];

// With authentication offsets are numbered by device sectors, whatever the logical sector: number 1 begins at 2^29.
#[test]
fn numbers_with_authentication(rt: HostRuntime) -> Result<(), Fail> {
    for auth in AUTHENTICATIONS {
        for sectorsize in [512, 1024, 2048, 4096, 8192, 16384, 32768, 65536] {
            for (offset, first, second) in [
                (536870400, TAGGED_0_FRONT, TAGGED_0_BACK),
                (536870912, TAGGED_1_FRONT, TAGGED_1_BACK),
            ] {
                let place = Place {
                    version: 7,
                    auth,
                    cipher: Cipher::AesXts,
                    sectorsize,
                    offset,
                    first,
                    second,
                };
                check_place(&rt, rt.alloc(), &place)?;
            }
        }
    }
    Ok(())
}

#[test]
fn range_keys_of_older_versions(rt: HostRuntime) -> Result<(), Fail> {
    for (version, auth) in [
        (5, Auth::Off),
        (6, Auth::Off),
        (6, Auth::Sha256),
        (6, Auth::Sha512),
    ] {
        for (offset, first, second) in [
            (0, OLD_0_FRONT, OLD_0_BACK),
            (536870912, OLD_1_FRONT, OLD_1_BACK),
        ] {
            let place = Place {
                version,
                auth,
                cipher: Cipher::AesXts,
                sectorsize: 512,
                offset,
                first,
                second,
            };
            check_place(&rt, rt.alloc(), &place)?;
        }
    }
    Ok(())
}

// An initialization vector and the key of a tag, each number big-endian.
struct Vector {
    offset: u64,
    vector: u128,
    tag_key: [u128; 2],
}

// By tools/range_key_tables.py.
const VECTORS: [Vector; 2] = [
    Vector {
        offset: 0,
        vector: 0xd17cf353aed507c38b1a44f6675bd28b,
        tag_key: [
            0x5638cfdb8282c3b5ea5938006390b67d,
            0x6cc4e3db0b40ec8fbcb3a26fcbfe2f2c,
        ],
    },
    Vector {
        offset: 4608,
        vector: 0x1951244524cb541595ddbb0ec3a787fb,
        tag_key: [
            0xa9d89ee641cba9739611e6fda2bbeccf,
            0x8d40bbfa7dbae3f5e8cfb0ce4f591bf5,
        ],
    },
];

fn check_vector(rt: &impl Abort, ring: &KeyRing, vector: &Vector) {
    let offset = vector.offset;
    assert!(rt; ring.auth() != Auth::Off);
    assert!(rt;
        ring.tag_key_at(offset) == bytes_of(vector.tag_key),
        "at {offset}"
    );
    assert!(rt;
        ring.iv_at(offset) == vector.vector.to_be_bytes(),
        "at {offset}"
    );
}

#[test]
fn vectors_and_tag_keys(rt: HostRuntime) -> Result<(), Fail> {
    assert!(rt; Cipher::AesCbc.allows(192) && sector_size_ok(4096));
    for auth in AUTHENTICATIONS {
        let params = Params::new(7, auth, Cipher::AesCbc, 192, 4096, 0, false);
        let ring = KeyRing::new(rt.alloc(), &master(), &params)?;
        assert!(rt; ring.cipher() == Cipher::AesCbc, "{auth:?}");
        for vector in &VECTORS {
            check_vector(&rt, &ring, vector);
        }
    }
    Ok(())
}

// The numbers of 0 to 16 whose range keys a ring keeps, each as the bit of its place. The ring has logical sectors of
// 512 bytes, so each number begins 2^29 bytes after the one before it.
fn kept(ring: &KeyRing) -> u32 {
    let mut bits = 0;
    for number in 0..17u32 {
        if ring.keeps(u64::from(number) << 29) {
            bits |= 1 << number;
        }
    }
    bits
}

// The number whose range key is asked for, and the numbers whose keys are kept afterwards: the last sixteen that were
// asked for.
const USES: [(u64, u32); 20] = [
    (0, 0x1),
    (1, 0x3),
    (2, 0x7),
    (3, 0xf),
    (4, 0x1f),
    (5, 0x3f),
    (6, 0x7f),
    (7, 0xff),
    (8, 0x1ff),
    (9, 0x3ff),
    (10, 0x7ff),
    (11, 0xfff),
    (12, 0x1fff),
    (13, 0x3fff),
    (14, 0x7fff),
    (15, 0xffff),
    (16, 0x1fffe),
    (0, 0x1fffd),
    (2, 0x1fffd),
    (1, 0x1fff7),
];

// Asks for the range key of a number. The key of number 0 is the one above, even when it comes back.
fn use_number(rt: &impl Abort, ring: &mut KeyRing, number: u64) -> Result<(), Fail> {
    assert!(rt; number < 17);
    let key = ring.key_at(number << 29);
    if number == 0 {
        assert!(rt; enciphered(key.first.schedule()) == expected(PLAIN_0_FRONT)?);
        assert!(rt; enciphered(&key.second) == expected(PLAIN_0_BACK)?);
    }
    Ok(())
}

#[test]
fn sixteen_range_keys_are_kept(rt: HostRuntime) -> Result<(), Fail> {
    assert!(rt; Cipher::AesXts.allows(256) && sector_size_ok(512));
    let params = Params::new(7, Auth::Off, Cipher::AesXts, 256, 512, 0, false);
    let mut ring = KeyRing::new(rt.alloc(), &master(), &params)?;
    for (number, bits) in USES {
        use_number(&rt, &mut ring, number)?;
        assert!(rt; kept(&ring) == bits, "number {number}");
    }
    Ok(())
}
