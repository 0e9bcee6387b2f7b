//! HMAC-SHA-384 and HMAC-SHA-512 (RFC 2104, FIPS 180-4) of four messages of one length side by side, in the lanes of
//! vectors.
//!
//! Each word of the hash is a vector with one lane for each message. No call allocates memory.
#![tactic(auto)]

ghost use Rattle.std.specs.Prelude.{◌≡◌, ◌<◌, ◌≤◌, ◌++◌, ℕ, [], length, slice_index_or};
ghost use Rattle.hmac_kdf.specs.Hmac.{hmac, hmac384, hmac512, key_block, masked};
ghost use Rattle.sha_lanes.specs.Lanes.{HaveOneLength, bytes_of};
ghost use Rattle.sha512_lanes.specs.Hashes.{first_bytes};

mod blocks;
mod constants;
mod hashes;
mod rounds;
mod words;

use blocks::masked_key;
use constants::{INITIAL_HASH_384, INITIAL_HASH_512};
use hashes::{digests, finished, initial_states};
use rounds::compress;

// The byte ipad, which is added to the key's block before the message is hashed.
const INNER_PAD: u8 = 0x36;

// The byte opad, which is added to the key's block before the inner hash is hashed.
const OUTER_PAD: u8 = 0x5c;

// The hashes of the four messages, each after the block of its key with `pad` added.
fn hashes_under<const N: usize>(
    initial: &[u64; 8],
    keys: &[[u8; 32]; 4],
    pad: u8,
    messages: [&[u8]; 4],
) -> [[u8; N]; 4]
    requires size { N ≤ 64 }
    requires lengths { HaveOneLength messages }
    ensures { (j : ℕ) → j < 4 → slice_index_or result j []
        ≡ first_bytes N initial.now
        (masked pad (key_block (first_bytes N initial.now) 128 (slice_index_or keys.now j []))
        ++ bytes_of j messages.entry) }
{
    let a = masked_key(&keys[0], pad);
    let b = masked_key(&keys[1], pad);
    let c = masked_key(&keys[2], pad);
    let d = masked_key(&keys[3], pad);
    let keyed = compress(initial_states(initial), [&a, &b, &c, &d], 0);
    digests(&finished(keyed, messages))
}

// The codes of the four messages over a hash that begins with `initial` and gives its first `N` bytes.
fn codes<const N: usize>(
    initial: &[u64; 8],
    keys: &[[u8; 32]; 4],
    messages: [&[u8]; 4],
) -> [[u8; N]; 4]
    requires size { N ≤ 64 }
    requires lengths { HaveOneLength messages }
    ensures { (j : ℕ) → j < 4 → slice_index_or result j []
        ≡ hmac (first_bytes N initial.now) 128 (slice_index_or keys.now j []) (bytes_of j messages.entry) }
{
    let [a, b, c, d] = hashes_under::<N>(initial, keys, INNER_PAD, messages);
    hashes_under(initial, keys, OUTER_PAD, [&a, &b, &c, &d])
}

/// The HMAC-SHA-384 codes (RFC 2104) of four messages of the same length, each under its own key of 32 bytes. The codes
/// have 48 bytes each.
pub fn codes_of_four_384(keys: &[[u8; 32]; 4], messages: [&[u8]; 4]) -> [[u8; 48]; 4]
    requires { HaveOneLength messages }
    ensures { (j : ℕ) → j < 4 → slice_index_or result j []
        ≡ hmac384 (slice_index_or keys.now j []) (bytes_of j messages.entry) }
{
    codes(&INITIAL_HASH_384, keys, messages)
}

/// The HMAC-SHA-512 codes (RFC 2104) of four messages of the same length, each under its own key of 32 bytes. The codes
/// have 64 bytes each.
pub fn codes_of_four_512(keys: &[[u8; 32]; 4], messages: [&[u8]; 4]) -> [[u8; 64]; 4]
    requires { HaveOneLength messages }
    ensures { (j : ℕ) → j < 4 → slice_index_or result j []
        ≡ hmac512 (slice_index_or keys.now j []) (bytes_of j messages.entry) }
{
    codes(&INITIAL_HASH_512, keys, messages)
}
