//! User keys of other implementations, what is refused, and passphrases.
use crate::common::is_hex;
use block_traits::ByteList;
use std::alloc::{AllocError, Global};
use std::test::Fail;
use user_key::{Components, KeyFault, PassPart, derive, first_line};

// Key files, a passphrase and iterations, and their user key as hexadecimal text.
struct KeyCase {
    keyfile_count: u32,
    keyfiles: &'static [u8],
    passphrase: Option<&'static [u8]>,
    iterations: i32,
    key: &'static str,
}

const KEY_FILE: [u8; 64] = [
    0, 1, 2, 3, 4, 5, 6, 7, 8, 9, 10, 11, 12, 13, 14, 15, 16, 17, 18, 19, 20, 21, 22, 23, 24, 25,
    26, 27, 28, 29, 30, 31, 32, 33, 34, 35, 36, 37, 38, 39, 40, 41, 42, 43, 44, 45, 46, 47, 48, 49,
    50, 51, 52, 53, 54, 55, 56, 57, 58, 59, 60, 61, 62, 63,
];

// The bytes 0x80 to 0xbf.
const SALT: [u8; 64] = [
    0x80, 0x81, 0x82, 0x83, 0x84, 0x85, 0x86, 0x87, 0x88, 0x89, 0x8a, 0x8b, 0x8c, 0x8d, 0x8e, 0x8f,
    0x90, 0x91, 0x92, 0x93, 0x94, 0x95, 0x96, 0x97, 0x98, 0x99, 0x9a, 0x9b, 0x9c, 0x9d, 0x9e, 0x9f,
    0xa0, 0xa1, 0xa2, 0xa3, 0xa4, 0xa5, 0xa6, 0xa7, 0xa8, 0xa9, 0xaa, 0xab, 0xac, 0xad, 0xae, 0xaf,
    0xb0, 0xb1, 0xb2, 0xb3, 0xb4, 0xb5, 0xb6, 0xb7, 0xb8, 0xb9, 0xba, 0xbb, 0xbc, 0xbd, 0xbe, 0xbf,
];

// The first seven keys are from another implementation of the rules of geli(8); all agree with Python's hmac and
// hashlib.
const KEY_CASES: [KeyCase; 9] = [
    KeyCase {
        keyfile_count: 1,
        keyfiles: &KEY_FILE,
        passphrase: None,
        iterations: -1,
        key: "d01b94e6c33009238d646e1b4bd415be27c47437d8f0e45003ed684b1e1cf6e64099b4469ef62d99b3fbc1e98e65a55bf8da5a1a83e967d26b8659fcd3432a17",
    },
    KeyCase {
        keyfile_count: 1,
        keyfiles: &KEY_FILE,
        passphrase: Some(b"abc"),
        iterations: 0,
        key: "67ad1615f3327120b6991d807aa20dca7d4f91f1f565014b7692af55b9bbea43a6394986cb3b81a21f812c09b07a3bedc6c1448b840503eb8018d04bb18230c4",
    },
    KeyCase {
        keyfile_count: 1,
        keyfiles: &KEY_FILE,
        passphrase: Some(b"abc"),
        iterations: 1,
        key: "7cf738ca53094be478a7cadfd0290654a7a160580934bebbff926622680b75faf20536ff88eb7a3fdaf01b97fb79ba28838c89e580bafbb11a47273032b1b828",
    },
    KeyCase {
        keyfile_count: 1,
        keyfiles: &KEY_FILE,
        passphrase: Some(b"abc"),
        iterations: 1000,
        key: "6d7daaf136f72a81cac0f157ac731850038d51b0b5d57ecec1971e6c0b3f1719c4d7420cff2888d2a55c8b08a937e0b0dc8368d816fd34a838b54bbd73b2e915",
    },
    KeyCase {
        keyfile_count: 0,
        keyfiles: b"",
        passphrase: Some(b"abc"),
        iterations: 2,
        key: "758776bd260d7b9013341b4a855187f0b610e3040ba829c78bdfd3fea0294dd5caba92dfa575120f9431b0776b46f274e1ad5fc7c1d9b517a9b5ce844faee84b",
    },
    KeyCase {
        keyfile_count: 0,
        keyfiles: b"",
        passphrase: Some(b""),
        iterations: 2,
        key: "adefd975a5dc51b0fa9d2faa713a0a1ac5ba1edb6373b746f550a66068b764f4591879973fdee6ca86cdd69451ff12e3454335639537fa3fb80b0db7cab74247",
    },
    KeyCase {
        keyfile_count: 1,
        keyfiles: &KEY_FILE,
        passphrase: None,
        iterations: 5,
        key: "d01b94e6c33009238d646e1b4bd415be27c47437d8f0e45003ed684b1e1cf6e64099b4469ef62d99b3fbc1e98e65a55bf8da5a1a83e967d26b8659fcd3432a17",
    },
    KeyCase {
        keyfile_count: 2,
        keyfiles: b"first\nsecond",
        passphrase: Some(b"a\0b"),
        iterations: 3,
        key: "1b59da595c92cdc90f1920fc269f368f0937df09e1fdbbcbddf353e766f1489390e5a680c9bb0d16ae2444666a8a94dfd153d7f44248e22200910e1b949f8ee4",
    },
    KeyCase {
        keyfile_count: 1,
        keyfiles: b"",
        passphrase: None,
        iterations: 0,
        key: "b936cee86c9f87aa5d3c6f2e84cb5a4239a5fe50480a6ec66b70ab5b1f4ac6730c6c515421b327ec1d69402e53dfb49ad7381eb067b338fd7b0cb22247225d47",
    },
];

fn list_of(alloc: Global, bytes: &[u8]) -> Result<ByteList, AllocError> {
    Ok(ByteList::from_vec(Vec::from_slice(alloc, bytes)?))
}

// What the key of a row is made of.
fn parts_of(alloc: Global, case: &KeyCase) -> Result<Components, AllocError> {
    Ok(Components {
        keyfile_count: case.keyfile_count,
        keyfiles: list_of(alloc, case.keyfiles)?,
        passphrase: match case.passphrase {
            Some(passphrase) => PassPart::Given(list_of(alloc, passphrase)?),
            None => PassPart::Without,
        },
    })
}

#[test]
fn published_keys(rt: HostRuntime) -> Result<(), Fail> {
    for (row, case) in KEY_CASES.iter().enumerate() {
        let parts = parts_of(rt.alloc(), case)?;
        let key = derive(&parts, &SALT, case.iterations)?;
        assert!(&rt; is_hex(rt.alloc(), &key.bytes, case.key)?, "row {row}");
    }
    Ok(())
}

// Iterations, whether the passphrase is given, and why there is no key. A passphrase that isn't given is missing.
const REFUSALS: [(i32, bool, KeyFault); 3] = [
    (-1, true, KeyFault::PassphraseNotSet),
    (-1, false, KeyFault::PassphraseNotSet),
    (0, false, KeyFault::PassphraseNeeded),
];

#[test]
fn refused_components(rt: HostRuntime) -> Result<(), Fail> {
    let alloc = rt.alloc();
    let mut parts = Components {
        keyfile_count: 0,
        keyfiles: list_of(alloc, b"")?,
        passphrase: PassPart::Without,
    };
    assert_eq!(rt; derive(&parts, &SALT, -1), Err(KeyFault::NoKeyComponents));
    for (iterations, is_given, fault) in REFUSALS {
        parts.passphrase = if is_given {
            PassPart::Given(list_of(alloc, b"abc")?)
        } else {
            PassPart::Missing
        };
        assert_eq!(rt; derive(&parts, &SALT, iterations), Err(fault));
    }
    Ok(())
}

#[test]
fn first_lines(rt: HostRuntime) {
    assert!(rt; first_line(b"abc\ndef") == b"abc".as_slice());
    assert!(rt; first_line(b"abc") == b"abc".as_slice());
    assert!(rt; first_line(b"").is_empty());
    assert!(rt; first_line(b"\nabc").is_empty());
}
