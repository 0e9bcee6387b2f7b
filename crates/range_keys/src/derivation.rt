//! How the keys are made of one another.

ghost use Rattle.std.specs.Prelude.{◌≡◌, ◌+◌, ◌*◌, ◌^◌, ◌<◌, ℕ, List, [], ◌∷◌, ◌++◌, codes};
ghost use Rattle.sha2.specs.Hashers.{Holds256};
ghost use Rattle.sha2.specs.Sha256.{sha256};
ghost use Rattle.hmac_kdf.specs.Hmac.{hmac512};
ghost use Rattle.sha_lanes.specs.Prefixes.{BeginsWith};
ghost use Rattle.range_keys.specs.Keys.{le64, base_key, auth_key, data_key, iv_key, range_base};

use eli_base::{Auth, MasterKey};
use hmac_kdf::Hmac512;
use sha_lanes::Prefix;
use sha2::{Digest, Sha256};

// The first version of the metadata whose range keys are made of the base key.
const BASE_KEY_VERSION: u32 = 7;

/// IV-Key.
pub fn iv_key(master: &MasterKey) -> [u8; 64]
    ensures { result ≡ iv_key master.now.bytes }
{
    let mut key = [0u8; 64];
    key.copy_from_slice(&master.bytes[..64]);
    key
}

// Data-Key.
fn data_key(master: &MasterKey) -> [u8; 64]
    ensures { result ≡ data_key master.now.bytes }
{
    let mut key = [0u8; 64];
    key.copy_from_slice(&master.bytes[64..]);
    key
}

// The base key: Data-Key, or with authentication a code under it.
fn base_key(auth: Auth, master: &MasterKey) -> [u8; 64]
    ensures { result ≡ base_key auth master.now.bytes }
{
    match auth {
        Auth::Off => data_key(master),
        Auth::Sha256 | Auth::Sha384 | Auth::Sha512 => Hmac512::code_of(&data_key(master), &[0x10]),
    }
}

/// The key of which range keys are made: the base key, or IV-Key if the metadata's version is below 7.
pub fn range_base(version: u32, auth: Auth, master: &MasterKey) -> [u8; 64]
    ensures { result ≡ range_base version auth master.now.bytes }
{
    if version < BASE_KEY_VERSION {
        iv_key(master)
    } else {
        base_key(auth, master)
    }
}

/// The key of which tag keys are made.
pub fn auth_key(master: &MasterKey) -> [u8; 64]
    ensures { result ≡ auth_key master.now.bytes }
{
    Hmac512::code_of(&data_key(master), &[0x11])
}

/// The range key of a number.
pub fn range_key(base: &[u8; 64], number: u64) -> [u8; 64]
    ensures { result ≡ hmac512 base.now (codes "ekey" ++ le64 number) }
{
    let mut hasher = Hmac512::new(base);
    hasher.update(b"ekey");
    hasher.update(&number.to_le_bytes());
    hasher.finish()
}

// A hasher with the same message, so that the key in front of an offset is hashed once.
fn copy_of(hasher: &Sha256) -> Sha256
    ensures { result ≡ hasher.now }
{
    match hasher.clone() {
        Ok(copy) => copy,
        Err(_) => unreachable!(),
    }
}

/// The digest of a key and an offset, from a hasher that holds the key.
pub fn digest_at(keyed: &Sha256, offset: u64) -> [u8; 32]
    ensures { (key : List ℕ) → Holds256 keyed.now key → result ≡ sha256 (key ++ le64 offset) }
{
    let mut hasher = copy_of(keyed);
    hasher.update(&offset.to_le_bytes());
    hasher.finalize()
}

/// The digests of a key and of four offsets, each `step` bytes after the one before it, from hashes that begin with
/// the key. They are computed side by side.
pub fn digests_apart(keyed: &Prefix, offset: u64, step: u64) -> [[u8; 32]; 4]
    requires { offset + 3 * step < 2 ^ 64 }
    ensures { (key : List ℕ) → BeginsWith keyed.now key → result
        ≡ sha256 (key ++ le64 offset) ∷ sha256 (key ++ le64 (offset + step))
        ∷ sha256 (key ++ le64 (offset + 2 * step)) ∷ sha256 (key ++ le64 (offset + 3 * step)) ∷ [] }
{
    keyed.digests([
        &offset.to_le_bytes(),
        &(offset + step).to_le_bytes(),
        &(offset + 2 * step).to_le_bytes(),
        &(offset + 3 * step).to_le_bytes(),
    ])
}
