//! PBKDF2 with HMAC-SHA-512 (RFC 8018, 5.2), for a key of 64 bytes, which is one block.

ghost use Rattle.std.specs.Prelude.{◌≡◌, ℕ, List, [], ◌≤◌, ◌++◌};
ghost use Rattle.hmac_kdf.specs.Hmac.{hmac512};
ghost use Rattle.sha2.specs.Hashers.{Holds512};
ghost use Rattle.sha2.specs.Sha512.{sha512};
ghost use Rattle.hmac_kdf.specs.Hashers.{HoldsUnder};
ghost use Rattle.hmac_kdf.specs.Pbkdf2.{xor_lists, block_number, pbkdf2};

use crate::mac::Hmac512;

// INT (1): the number of the one block.
const BLOCK_NUMBER: [u8; 4] = [0, 0, 0, 1];

// A copy of a hasher with its key and message, so that the key is hashed once for all iterations.
fn copy_of(hasher: &Hmac512) -> Hmac512
    ensures { result ≡ hasher.now }
{
    match hasher.clone() {
        Ok(copy) => copy,
        Err(_) => unreachable!(),
    }
}

// The first iterate, under a hasher that has a key and no message yet.
fn first_iterate(keyed: &Hmac512, salt: &[u8]) -> [u8; 64]
    ensures { (k : List ℕ) → HoldsUnder Holds512 sha512 keyed.now k []
        → result ≡ hmac512 k (salt.now ++ block_number) }
{
    let mut hasher = copy_of(keyed);
    hasher.update(salt);
    hasher.update(&BLOCK_NUMBER);
    hasher.finish()
}

// The iterate that follows `iterate`, under a hasher that has a key and no message yet.
fn next_iterate(keyed: &Hmac512, iterate: &[u8; 64]) -> [u8; 64]
    ensures { (k : List ℕ) → HoldsUnder Holds512 sha512 keyed.now k [] → result ≡ hmac512 k iterate.now }
{
    let mut hasher = copy_of(keyed);
    hasher.update(iterate);
    hasher.finish()
}

// The two blocks added bit by bit.
fn xored(a: &[u8; 64], b: &[u8; 64]) -> [u8; 64]
    ensures { result ≡ xor_lists a.now b.now }
{
    let mut sum = [0u8; 64];
    for i in 0..64 {
        sum[i] = a[i] ^ b[i];
    }
    sum
}

/// Writes into `out` the 64 bytes that PBKDF2 with HMAC-SHA-512 (RFC 8018, 5.2) derives from a password and
/// a salt of any length, with `count` iterations.
pub fn pbkdf2_sha512(pass: &[u8], salt: &[u8], count: u32, out: &mut [u8; 64])
    requires { 1 ≤ count }
    ensures { out.new ≡ pbkdf2 pass.now salt.now count }
{
    let keyed = Hmac512::new(pass);
    let mut iterate = first_iterate(&keyed, salt);
    *out = iterate;
    for _done in 1..count {
        iterate = next_iterate(&keyed, &iterate);
        *out = xored(out, &iterate);
    }
}
