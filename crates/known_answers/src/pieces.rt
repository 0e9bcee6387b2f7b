//! Sealed pieces by authentication, cipher and place.

use crate::common::{is_hex, master};
use auth_sectors::{open_piece, seal_apart, seal_piece};
use eli_base::{Auth, Cipher, Params, sector_size_ok};
use range_keys::KeyRing;
use sha2::{Digest, Sha256};
use std::alloc::Global;
use std::process::Abort;
use std::test::Fail;

/// Each line has an authentication, a cipher, the bits of its key, and the digest of the device sectors of some pieces,
/// as tools/piece_digests.py prints it.
const DIGESTS: [(Auth, Cipher, u16, &str); 15] = [
    (
        Auth::Sha256,
        Cipher::AesXts,
        128,
        "423c927f8cc9d8b7d9a3a670987ff3478e095a0af3a6560bec51498f0c83fe67",
    ),
    (
        Auth::Sha256,
        Cipher::AesXts,
        256,
        "5ca7f7bb9047ac3466599def3e0b2714ecfdc39a3864c7c6e8bfe1f6b93abdef",
    ),
    (
        Auth::Sha256,
        Cipher::AesCbc,
        128,
        "9a59632c741bbd3317695782c01f6d5ca078e61bd1ed715afb9d3c6ee8b0d224",
    ),
    (
        Auth::Sha256,
        Cipher::AesCbc,
        192,
        "beffe464bb7e28feee0b662e3a55bc7f67a6ef2e30409f9e432fbcac3b331fb9",
    ),
    (
        Auth::Sha256,
        Cipher::AesCbc,
        256,
        "e1f2875d8c98fec064a465303ef3633c894548f77e93d3f2ecdae4d7d530b168",
    ),
    (
        Auth::Sha384,
        Cipher::AesXts,
        128,
        "8a99993937ffb94789b383c923120b4b9bbc91e6ea48a9d0bbcfd907edffe585",
    ),
    (
        Auth::Sha384,
        Cipher::AesXts,
        256,
        "697aa54ccb8e27bc8d9454a85a88c9321902fbf6b953f4af655a9ddff0340a57",
    ),
    (
        Auth::Sha384,
        Cipher::AesCbc,
        128,
        "b77c6115a68f54fe74a1e53c13972598d1c6ba2b4a733c8b100cbe2c388835b8",
    ),
    (
        Auth::Sha384,
        Cipher::AesCbc,
        192,
        "5718ffb43cc2b21e4260711e31ab62e79c0388e9c7a7e67ea08f521994a6ed5a",
    ),
    (
        Auth::Sha384,
        Cipher::AesCbc,
        256,
        "46c5551e97bb79069efcb70c52a44ce4ded8c44dec21bf55898901daebdeef36",
    ),
    (
        Auth::Sha512,
        Cipher::AesXts,
        128,
        "08af14c4df6b4af1050ed9daa3354412381724e44cff308482927660c29f5021",
    ),
    (
        Auth::Sha512,
        Cipher::AesXts,
        256,
        "a375ee540c367ac9263560ea7298e0ab673983498668e1dbeb71470ea13aeb0e",
    ),
    (
        Auth::Sha512,
        Cipher::AesCbc,
        128,
        "913d270614c840260ba6740f476bb9ccab2ab51a6496aa902668c49a1059d5a6",
    ),
    (
        Auth::Sha512,
        Cipher::AesCbc,
        192,
        "77e05b8370b55bb63a453a99c00ca987a4d9ebcd2504af3e2603d5ec4dd99d8c",
    ),
    (
        Auth::Sha512,
        Cipher::AesCbc,
        256,
        "be54ecbbc387bcdded7a7b4f121d766dced799a08c8d745350d1bbcbc2a491da",
    ),
];

const OFFSETS: [u64; 5] = [0, 512, 4_608, 536_870_400, 536_870_912];

/// The digests of the device sectors of four whole pieces, one after another, as tools/piece_digests.py prints them.
const FOURS: [(Auth, Cipher, u16, &str); 3] = [
    (
        Auth::Sha256,
        Cipher::AesXts,
        128,
        "5c806a60b6694067246271ac1ee2051c815cf6e548fc7c9711dc669205909da3",
    ),
    (
        Auth::Sha384,
        Cipher::AesCbc,
        192,
        "f66120e1f6ca99c954414555d29b9c507b47942c2e42e174fe426c3744b072ec",
    ),
    (
        Auth::Sha512,
        Cipher::AesXts,
        256,
        "c85c4639965cc8b05bb70ddf25a8d3e11978e7c968d3baa30afe1ef496d9ed95",
    ),
];

// Two of four pieces that begin here stand before the second range key, and two after.
const FIRST_OF_FOUR: u64 = 536_869_888;

fn ring_of(
    rt: &impl Abort,
    alloc: Global,
    auth: Auth,
    cipher: Cipher,
    keylen: u16,
) -> Result<KeyRing, Fail> {
    assert!(rt; cipher.allows(keylen) && sector_size_ok(4_096));
    let params = Params::new(7, auth, cipher, keylen, 4_096, 0, false);
    Ok(KeyRing::new(alloc, &master(), &params)?)
}

// The plain bytes of a piece at this offset.
fn plain_bytes(offset: u64) -> [u8; 480] {
    let mut plain = [0u8; 480];
    for (i, byte) in plain.iter_mut().enumerate() {
        *byte = ((7 * (i as u64 % 480) + offset / 512 % 256) % 256) as u8;
    }
    plain
}

// Seals a piece of so many bytes, adds its device sector to the digest, and opens it again.
fn add_sealed(
    rt: &impl Abort,
    ring: &mut KeyRing,
    offset: u64,
    length: usize,
    digest: &mut Sha256,
) {
    assert!(rt; ring.auth() != Auth::Off && length <= ring.auth().data_bytes());
    assert!(rt; 16 <= length && length <= 480 && length % 16 == 0);
    let plain = plain_bytes(offset);
    let mut sector = [0xff; 512];
    seal_piece(ring, offset, &plain[..length], &mut sector);
    digest.update(&sector);
    let mut opened = [0u8; 480];
    assert!(rt; ring.auth() != Auth::Off && length <= ring.auth().data_bytes());
    assert!(rt; open_piece(ring, offset, &sector, &mut opened[..length]).is_ok());
    assert!(rt;
        opened[..length] == plain[..length],
        "{length} bytes at {offset}"
    );
}

#[test]
fn sealed_pieces(rt: HostRuntime) -> Result<(), Fail> {
    let alloc = rt.alloc();
    for (auth, cipher, keylen, expected) in DIGESTS {
        let mut ring = ring_of(&rt, alloc, auth, cipher, keylen)?;
        let mut digest = Sha256::new();
        for offset in OFFSETS {
            add_sealed(&rt, &mut ring, offset, 16, &mut digest);
            add_sealed(&rt, &mut ring, offset, 32, &mut digest);
            add_sealed(&rt, &mut ring, offset, auth.data_bytes(), &mut digest);
        }
        assert!(&rt;
            is_hex(alloc, &digest.finalize(), expected)?,
            "{auth:?} {cipher:?} {keylen}"
        );
    }
    Ok(())
}

// Seals four whole pieces at once, and adds their device sectors to the digest.
fn add_four(
    rt: &impl Abort,
    ring: &mut KeyRing,
    pieces: &[[u8; 480]; 4],
    width: usize,
    digest: &mut Sha256,
) {
    assert!(rt; 16 <= width && width <= 480);
    assert!(rt; ring.auth() != Auth::Off && width == ring.auth().data_bytes());
    let mut sectors = [0xff; 2_048];
    let [a, b, c, d] = pieces;
    let plain = [&a[..width], &b[..width], &c[..width], &d[..width]];
    seal_apart(ring, FIRST_OF_FOUR, 512, plain, &mut sectors);
    digest.update(&sectors);
}

#[test]
fn four_sealed_pieces(rt: HostRuntime) -> Result<(), Fail> {
    let alloc = rt.alloc();
    let pieces = [
        plain_bytes(FIRST_OF_FOUR),
        plain_bytes(FIRST_OF_FOUR + 512),
        plain_bytes(FIRST_OF_FOUR + 1_024),
        plain_bytes(FIRST_OF_FOUR + 1_536),
    ];
    for (auth, cipher, keylen, expected) in FOURS {
        let mut ring = ring_of(&rt, alloc, auth, cipher, keylen)?;
        let mut digest = Sha256::new();
        add_four(&rt, &mut ring, &pieces, auth.data_bytes(), &mut digest);
        assert!(&rt;
            is_hex(alloc, &digest.finalize(), expected)?,
            "{auth:?} {cipher:?} {keylen}"
        );
    }
    Ok(())
}

// Whether a piece of 32 bytes opens to this byte 32 times, or if none is wanted, is refused and leaves zeros.
fn opens_short(rt: &impl Abort, ring: &mut KeyRing, sector: &[u8; 512], want: Option<u8>) -> bool {
    assert!(rt; ring.auth() != Auth::Off && 32 <= ring.auth().data_bytes());
    let mut out = [9; 32];
    let answer = open_piece(ring, 0, sector, &mut out);
    answer.is_ok() == want.is_some() && out == [want.unwrap_or(0); 32]
}

// After a short piece stand zeros, at which opening doesn't look. A turned bit of the piece is detected.
#[test]
fn a_short_piece(rt: HostRuntime) -> Result<(), Fail> {
    let mut ring = ring_of(&rt, rt.alloc(), Auth::Sha256, Cipher::AesXts, 128)?;
    let mut sector = [0xff; 512];
    assert!(&rt; ring.auth() != Auth::Off && 32 <= ring.auth().data_bytes());
    seal_piece(&mut ring, 0, &[7; 32], &mut sector);
    assert!(&rt; sector.iter().skip(64).all(|byte| *byte == 0));
    sector[511] = 1;
    assert!(&rt; opens_short(&rt, &mut ring, &sector, Some(7)));
    sector[40] ^= 1;
    assert!(&rt; opens_short(&rt, &mut ring, &sector, None));
    Ok(())
}
