//! Four hashes (FIPS 180-4, 6.2) that begin with the same block of 64 bytes.

ghost use Rattle.std.specs.Prelude.{◌≡◌, ◌<◌, ◌++◌, ℕ, List, [], slice_index_or};
ghost use Rattle.sha2.specs.Sha256.{sha256};
ghost use Rattle.sha_lanes.specs.Lanes.{HaveOneLength, bytes_of};
ghost use Rattle.sha_lanes.specs.Prefixes.{BeginsWith};

use crate::hashes::{digests, finished, in_each_lane, initial_states, lane};
use crate::rounds::compress;

/// Four SHA-256 hashes that begin with the same 64 bytes, which are hashed once.
#[derive(Clone, Copy)]
pub struct Prefix {
    // The hash value after these bytes (6.2.2), which is the same in each lane.
    value: [u32; 8],
}

impl Prefix {
    /// Hashes the block with which the four hashes begin.
    pub fn of(block: &[u8; 64]) -> Prefix
        ensures { BeginsWith result block.now }
    {
        let after = compress(initial_states(), [block, block, block, block], 0);
        Prefix {
            value: lane(&after, 0),
        }
    }

    /// The digests of the block followed by each of four messages of one length.
    pub fn digests(&self, messages: [&[u8]; 4]) -> [[u8; 32]; 4]
        requires { HaveOneLength messages }
        ensures { (bytes : List ℕ) → BeginsWith self.now bytes → (j : ℕ) → j < 4
            → slice_index_or result j [] ≡ sha256 (bytes ++ bytes_of j messages.entry) }
    {
        digests(&finished(in_each_lane(&self.value), messages))
    }
}
