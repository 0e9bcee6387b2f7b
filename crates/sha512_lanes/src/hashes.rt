//! The hashes of four messages of one length (FIPS 180-4, 6.4 and 6.5), each after a block of 128 bytes.

ghost use Rattle.std.specs.Prelude.{◌≡◌, ◌+◌, ◌<◌, ◌≤◌, ◌++◌, ℕ, List, [], drop, length, slice_index, slice_index_or, take};
ghost use Rattle.sha2.specs.Sha512.{compress, digest_bytes, final_hash};
ghost use Rattle.sha_lanes.specs.Lanes.{HaveOneLength, bytes_of, lane};

use crate::blocks::{last_blocks_size, tails_of};
use crate::rounds::compress;
use std::simd::prelude::*;

/// The initial hash value in each lane.
pub fn initial_states(initial: &[u64; 8]) -> [u64x4; 8]
    ensures { (j : ℕ) → j < 4 → lane j result ≡ initial.now }
{
    [
        u64x4::splat(initial[0]),
        u64x4::splat(initial[1]),
        u64x4::splat(initial[2]),
        u64x4::splat(initial[3]),
        u64x4::splat(initial[4]),
        u64x4::splat(initial[5]),
        u64x4::splat(initial[6]),
        u64x4::splat(initial[7]),
    ]
}

// The hash values after one of the last blocks, the one at byte `at`.
fn compress_tails(state: [u64x4; 8], tails: &[[u8; 256]; 4], at: usize) -> [u64x4; 8]
    requires { at + 128 ≤ 256 }
    ensures { (j : ℕ) → j < 4 → lane j result
        ≡ compress (lane j state) (take 128 (drop at (slice_index_or tails.now j []))) }
{
    compress(state, [&tails[0], &tails[1], &tails[2], &tails[3]], at)
}

/// The final hash values of four messages of one length. Each lane of `state` is the hash value after the block of 128
/// bytes that stands before its message.
pub fn finished(state: [u64x4; 8], messages: [&[u8]; 4]) -> [u64x4; 8]
    requires { HaveOneLength messages }
    ensures { (j : ℕ) → j < 4 → (h before : List ℕ) → length before ≡ 128 → lane j state ≡ compress h before
        → lane j result ≡ final_hash h (before ++ bytes_of j messages.entry) }
{
    let size = messages[0].len();
    let mut v = state;
    'blocks: for i in 0..size / 128 {
        let next = compress(v, messages, 128 * i);
        v = next;
    }
    let tails = tails_of(messages);
    let last = compress_tails(v, &tails, 0);
    if last_blocks_size(size) == 128 {
        return last;
    }
    compress_tails(last, &tails, 128)
}

fn word(v: u64x4, j: usize) -> u64
    requires { j < 4 }
    ensures { result ≡ slice_index v j }
{
    let lanes = v.to_array();
    lanes[j]
}

// The words of lane `j`.
fn lane(state: &[u64x4; 8], j: usize) -> [u64; 8]
    requires { j < 4 }
    ensures { result ≡ lane j state.now }
{
    [
        word(state[0], j),
        word(state[1], j),
        word(state[2], j),
        word(state[3], j),
        word(state[4], j),
        word(state[5], j),
        word(state[6], j),
        word(state[7], j),
    ]
}

// The first bytes of a hash value, whose words have their high byte first.
fn digest<const N: usize>(h: [u64; 8]) -> [u8; N]
    requires { N ≤ 64 }
    ensures { result ≡ take N (digest_bytes h 8) }
{
    let mut bytes = [0u8; 64];
    'words: for i in 0..8 {
        bytes[8 * i..8 * i + 8].copy_from_slice(&h[i].to_be_bytes());
    }
    let mut out = [0u8; N];
    out.copy_from_slice(&bytes[..N]);
    out
}

/// The digests that these hash values are: their first `N` bytes.
pub fn digests<const N: usize>(state: &[u64x4; 8]) -> [[u8; N]; 4]
    requires { N ≤ 64 }
    ensures { (j : ℕ) → j < 4 → slice_index_or result j [] ≡ take N (digest_bytes (lane j state.now) 8) }
{
    [
        digest(lane(state, 0)),
        digest(lane(state, 1)),
        digest(lane(state, 2)),
        digest(lane(state, 3)),
    ]
}
