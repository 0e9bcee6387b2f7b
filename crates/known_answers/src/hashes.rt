//! The kit's hashes, on which definitions rest, and SHA-256 of sha_stream, against examples of their standards and
//! another library.
use crate::common::{fill, is_hex};
use md5::{Digest, Md5};
use sha2::{Digest as _, Sha256};
use std::alloc::Global;
use std::test::Fail;

// Lengths of the text of the tables and the digests, by tools/hash_tables.py.
const DIGESTS: [(usize, &str); 25] = [
    (
        0,
        "e3b0c44298fc1c149afbf4c8996fb92427ae41e4649b934ca495991b7852b855",
    ),
    (
        1,
        "6e340b9cffb37a989ca544e6bb780a2c78901d3fb33738768511a30617afa01d",
    ),
    (
        3,
        "b361d0f9a938a2bb4fbdc9c21dc5a859788041b0040919d8a811c1888184f4df",
    ),
    (
        4,
        "6e14590861815ebebb76e8ca460621bd0f60ea4f1550edbf32e664d30d7a04fd",
    ),
    (
        31,
        "2197034814f92b080202a844385a3348b50636db471788080cc382724b8eb8fc",
    ),
    (
        55,
        "576a1bf8d4478657e6dc4af9398544765c2a92cde28478b019235cfed315fc09",
    ),
    (
        56,
        "9b20501dfd1d99161c257950f3444f3e49230c351c5c8e0943ef369f85f5205d",
    ),
    (
        57,
        "a5534a9d0694341dfde5b1bb3d8addcb38bd46f44a629dc97b3f8fb2721b0720",
    ),
    (
        63,
        "30b345906b493f06f69444b6521113511c242f30e29840462950035043682f1e",
    ),
    (
        64,
        "d8bc63b4fc1156e5e7d95a418b9bf54cd3174bedbc2db40f74895349b229b3c0",
    ),
    (
        65,
        "1ee23b0fbcaecc1aff4a9e8f1645f35ab2c8e13609cd73b68df8b5e3f63ce073",
    ),
    (
        119,
        "7a6589821178918ca8d9edaba5abfc1e9b2669564f4469b66885379c1530b2c8",
    ),
    (
        120,
        "655250427d56b1b0eeb8497d21428704273458a01772d6881b65c0abac0f8a98",
    ),
    (
        121,
        "45f58104c4de6fb3c56974bce12a36de36198024612e48629871796548d4620c",
    ),
    (
        127,
        "67d79933e3c9aa8e89f481e071cfca1e9a16c09d7263b5efa3bb01f1a9f8d065",
    ),
    (
        128,
        "54c9eb041badfd7064645067b107661fed6113197ce2dd066ba69618abd3732f",
    ),
    (
        129,
        "5b55715b51c54661ed0cbd75ba5b00cf1ffee3b7c113a636eca613d9425116a6",
    ),
    (
        191,
        "cd3da3414c6d6a25add1b022996564962bd1080888ef3755645bc7bb93811612",
    ),
    (
        192,
        "0929b2a4dd0b391291463a0ba24b407418adac9b8b7c09cbb602c918a1f5b6a7",
    ),
    (
        193,
        "7abfbd901d5fb2786b84299c350a2666f8d2b3b82ad9316d4003bf2806c4172c",
    ),
    (
        480,
        "d888cade1bff7aa7a2a2a7da494fcbd9d99dccf03797e245c8cf4f25cb02c8dd",
    ),
    (
        1000,
        "c85a431e0fe575b2609289d3a4042414715f400612575a125d2ce5573d608732",
    ),
    (
        4095,
        "3eb01747f53f84755fd5eaec93ddd4aad23e9cfe5aba5dae9c0f2d7bdbee3271",
    ),
    (
        4096,
        "d24ac44c83cce842b67a82d2f77bcbe5e41dbd555605c92832d609e29c5a997c",
    ),
    (
        65536,
        "5fce37f3129150ce7ec3939b54016d9c1fd01364e27b0a788dc634064aec76b1",
    ),
];

#[test]
fn the_hashes_are_those_of_the_standards(rt: HostRuntime) -> Result<(), Fail> {
    // FIPS 180-2, appendix B.1.
    assert!(rt;
        Sha256::digest(b"abc").as_slice()
            == b"\xba\x78\x16\xbf\x8f\x01\xcf\xea\x41\x41\x40\xde\x5d\xae\x22\x23\xb0\x03\x61\xa3\x96\x17\x7a\x9c\xb4\x10\xff\x61\xf2\x00\x15\xad".as_slice()
    );
    // RFC 1321, appendix A.5.
    assert!(rt;
        Md5::digest(b"").as_slice()
            == b"\xd4\x1d\x8c\xd9\x8f\x00\xb2\x04\xe9\x80\x09\x98\xec\xf8\x42\x7e".as_slice()
    );
    Ok(())
}

// The digest of a text that comes in pieces: one, two of this length and the rest, or all of this length.
fn in_pieces(text: &[u8], length: usize, all: bool) -> [u8; 32] {
    let mut hasher = sha_stream::Sha256::new();
    if length == 0 {
        hasher.update(text);
    } else if all {
        for piece in text.chunks(length) {
            hasher.update(piece);
        }
    } else {
        let first = length.min(text.len());
        hasher.update(&text[..first]);
        hasher.update(&text[first..]);
    }
    hasher.finalize()
}

#[test]
fn digests_of_one_message_are_those_of_another_library(rt: HostRuntime) -> Result<(), Fail> {
    let alloc = rt.alloc();
    let mut bytes = [0u8; 65536];
    fill(&mut bytes);
    for (length, digest) in &DIGESTS {
        let text = &bytes[..(*length).min(65536)];
        for piece in [0, 1, 3, 55, 56, 63, 64, 65, 127, 128, 1000] {
            assert!(rt; is_hex(alloc, &in_pieces(text, piece, true), digest)?);
            assert!(rt; is_hex(alloc, &in_pieces(text, piece, false), digest)?);
        }
    }
    Ok(())
}

#[test]
fn digests_of_one_message_are_those_of_the_standard(rt: HostRuntime) -> Result<(), Fail> {
    let alloc = rt.alloc();
    // FIPS 180-2, appendices B.1 to B.3.
    assert!(rt;
        is_hex(
            alloc,
            &in_pieces(b"abc", 0, true),
            "ba7816bf8f01cfea414140de5dae2223b00361a396177a9cb410ff61f20015ad"
        )?
    );
    assert!(rt;
        is_hex(
            alloc,
            &in_pieces(
                b"abcdbcdecdefdefgefghfghighijhijkijkljklmklmnlmnomnopnopq",
                0,
                true
            ),
            "248d6a61d20638b8e5c026930c3e6039a33ce45964ff2167f6ecedd419db06c1"
        )?
    );
    let mut hasher = sha_stream::Sha256::new();
    for _ in 0..1000 {
        hasher.update(&[0x61u8; 1000]);
    }
    assert!(rt;
        is_hex(
            alloc,
            &hasher.finalize(),
            "cdc76e5c9914fb9281a1c7e284d73e67f1809a48a497200e046d39ccc7112cd0"
        )?
    );
    Ok(())
}
