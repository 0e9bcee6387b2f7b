//! HMAC-SHA-256 (RFC 2104, FIPS 180-4) of four messages of one length side by side, in the lanes of vectors. Also
//! SHA-256 of four messages, each after the same block.
//!
//! Each word of the hash is a vector with one lane for each message. No call allocates memory.
#![tactic(auto)]

ghost use Rattle.std.specs.Prelude.{◌≡◌, ◌<◌, ◌++◌, ℕ, [], length, slice_index_or};
ghost use Rattle.sha2.specs.Sha256.{sha256};
ghost use Rattle.hmac_kdf.specs.Hmac.{hmac256, key_block, masked};
ghost use Rattle.sha_lanes.specs.Lanes.{HaveOneLength, bytes_of};

mod blocks;
mod hashes;
mod prefix;
mod rounds;
mod words;

use blocks::masked_key;
use hashes::{digests, finished, initial_states};
pub use prefix::Prefix;
use rounds::compress;

// The byte ipad, which is added to the key's block before the message is hashed.
const INNER_PAD: u8 = 0x36;

// The byte opad, which is added to the key's block before the inner hash is hashed.
const OUTER_PAD: u8 = 0x5c;

// The hashes of the four messages, each after the block of its key with `pad` added.
fn hashes_under(keys: &[[u8; 32]; 4], pad: u8, messages: [&[u8]; 4]) -> [[u8; 32]; 4]
    requires { HaveOneLength messages }
    ensures { (j : ℕ) → j < 4 → slice_index_or result j []
        ≡ sha256 (masked pad (key_block sha256 64 (slice_index_or keys.now j [])) ++ bytes_of j messages.entry) }
{
    let a = masked_key(&keys[0], pad);
    let b = masked_key(&keys[1], pad);
    let c = masked_key(&keys[2], pad);
    let d = masked_key(&keys[3], pad);
    let keyed = compress(initial_states(), [&a, &b, &c, &d], 0);
    digests(&finished(keyed, messages))
}

/// The HMAC-SHA-256 codes (RFC 2104) of four messages of the same length, each under its own key of 32 bytes. The codes
/// have 32 bytes each.
pub fn codes_of_four(keys: &[[u8; 32]; 4], messages: [&[u8]; 4]) -> [[u8; 32]; 4]
    requires { HaveOneLength messages }
    ensures { (j : ℕ) → j < 4 → slice_index_or result j []
        ≡ hmac256 (slice_index_or keys.now j []) (bytes_of j messages.entry) }
{
    let [a, b, c, d] = hashes_under(keys, INNER_PAD, messages);
    hashes_under(keys, OUTER_PAD, [&a, &b, &c, &d])
}
