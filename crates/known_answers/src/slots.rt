//! Slots of another implementation, and slots that are opened.
ghost use Rattle.std.specs.Prelude.{◌≡◌};
ghost use Rattle.key_slots.specs.Slots.{IsKeyBits};

use crate::common::{is_hex, master};
use eli_metadata::Metadata;
use key_slots::{put_slot, unwrap, unwrap_any, wrap};
use std::test::Fail;
use user_key::UserKey;

// The user key of the key file 0x00 to 0x3f and the passphrase `abc`, with the salt 0x80 to 0xbf and 1,000
// iterations.
const USER_KEY: UserKey = UserKey {
    bytes: [
        0x6d, 0x7d, 0xaa, 0xf1, 0x36, 0xf7, 0x2a, 0x81, 0xca, 0xc0, 0xf1, 0x57, 0xac, 0x73, 0x18,
        0x50, 0x03, 0x8d, 0x51, 0xb0, 0xb5, 0xd5, 0x7e, 0xce, 0xc1, 0x97, 0x1e, 0x6c, 0x0b, 0x3f,
        0x17, 0x19, 0xc4, 0xd7, 0x42, 0x0c, 0xff, 0x28, 0x88, 0xd2, 0xa5, 0x5c, 0x8b, 0x08, 0xa9,
        0x37, 0xe0, 0xb0, 0xdc, 0x83, 0x68, 0xd8, 0x16, 0xfd, 0x34, 0xa8, 0x38, 0xb5, 0x4b, 0xbd,
        0x73, 0xb2, 0xe9, 0x15,
    ],
};

// A key length, and the wrapped slot of the master key 0x00 to 0x7f as hexadecimal text.
struct SlotCase {
    keylen: u16,
    slot: &'static str,
}

// By Python's hmac, hashlib and cryptography; the SHA-256 of each slot is that of another implementation of GELI.
const SLOT_CASES: [SlotCase; 3] = [
    SlotCase {
        keylen: 128,
        slot: "cd353fe94c33c1f53b20477c3a6da44df355fb2c9a6f94758b5773509405a5bfb6907f5e6d7c69480f02e7afc3b0322a\
            380bf7b85b85b2df659c0ed88979d53b5f77e301642d0fcc25c74425b2429ff159b2522dde922cdaf190bdc6dac06fc9\
            faf5200c9d8702b4c46e454dddcd53c257668a6ccfcf97151c6d471829e10046ede02fb3572d7d6eec725728165a5f01\
            fee362e8f918cd438e7bfa0624b131f6b31fa8d96997145c7c639f79259218e687770a4bc2d1e326cc79c8d7f1c3d6f9",
    },
    SlotCase {
        keylen: 192,
        slot: "6dce2f7d91963c5f9d26f3cf740f90b71a761ec15e936efbc98d97c3cb3377f71d306d78d66391b703917da1fa7a1114\
            086aeb441c5995999042c189982014bfad8a1278175fb29ef2e7e64cc2bd1b3e549965fbd149d9dec4594021cf21f02c\
            91247a73cf342310ff2106362805839587357f5742c19e8905a5baa6f55cdb8199e75355ff2e1b981bfb65b2849651e1\
            77c35ee0ed5c6ec4923aa3eb3a6f5606ee2b56231dacb57424ac4ae9024333d4895e0b18a63b10cc9ee427b0b7b14424",
    },
    SlotCase {
        keylen: 256,
        slot: "b807ce7def60ca6093f0220acc2700fe3ce2b623d3412c424fad7660fd7e422937a91ae08af1da9154d969a923bd5eb2\
            e72c50aabb88e9e3096ef1a53b6a50e595ee0513a3cb0eeb533650eca142d1a0fbf34e4d23703de16dcd5690fa3083a0\
            ceee7c68385461a7e10259d76666323e76c5fc72d93916f893f434bc42a96834d18442f555392a91e6863d8ca6633f7f\
            0879bb85d4b96bca07dec41ef83d04272f6412c22fe55d105e0303a70061ac3679a25d38fd236f097477446a36bee7b0",
    },
];

#[test]
fn wrapped_slots(rt: HostRuntime) -> Result<(), Fail> {
    for case in &SLOT_CASES {
        let keylen = case.keylen;
        assert!(rt; keylen == 128 || keylen == 192 || keylen == 256, "{keylen}");
        let slot = wrap(&master(), &USER_KEY, keylen);
        assert!(&rt; is_hex(rt.alloc(), &slot, case.slot)?, "{keylen}");
    }
    Ok(())
}

// Metadata of AES-XTS without a key in either slot.
fn metadata(keylen: u16) -> Metadata
    ensures { result.keylen ≡ keylen }
{
    Metadata {
        version: 7,
        flags: 0x200,
        ealgo: 22,
        keylen,
        aalgo: 0,
        provsize: 1 << 20,
        sectorsize: 4096,
        keys: 0,
        iterations: 1000,
        salt: [0; 64],
        mkeys: [0; 384],
    }
}

// Whether slot 1 opens to the master key, asked for by its number and as the first that opens.
fn opens(meta: &Metadata) -> bool
    requires { IsKeyBits meta.now.keylen }
{
    unwrap(meta, &USER_KEY, 1) == Some(master())
        && unwrap_any(meta, &USER_KEY) == Some((master(), 1))
}

// Whether nothing opens.
fn is_shut(meta: &Metadata) -> bool
    requires { IsKeyBits meta.now.keylen }
{
    unwrap(meta, &USER_KEY, 1).is_none() && unwrap_any(meta, &USER_KEY).is_none()
}

// A slot opens again, unless its bit is cleared or a bit of byte 100 is turned.
#[test]
fn slots_open_again(rt: HostRuntime) {
    for keylen in [128u16, 192, 256] {
        assert!(rt; keylen == 128 || keylen == 192 || keylen == 256, "{keylen}");
        let mut meta = metadata(keylen);
        put_slot(&mut meta, 1, &wrap(&master(), &USER_KEY, keylen));
        assert!(rt; opens(&meta), "{keylen}");
        let mut unset = meta;
        unset.keys &= !2;
        assert!(rt; is_shut(&unset), "{keylen}, the bit cleared");
        meta.mkeys[192 + 100] ^= 1;
        assert!(rt; is_shut(&meta), "{keylen}, a bit turned");
    }
}
