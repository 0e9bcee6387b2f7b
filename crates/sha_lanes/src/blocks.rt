//! Blocks of 64 bytes: those of the keys, and the last ones of the messages.

ghost use Rattle.std.specs.Prelude.{◌≡◌, ◌+◌, ◌*◌, ◌/◌, ◌<◌, ◌≤◌, ◌++◌, ℕ, [], length, drop, take, slice_index_or};
ghost use Rattle.sha2.specs.Sha256.{padding, sha256};
ghost use Rattle.hmac_kdf.specs.Hmac.{key_block, masked};
ghost use Rattle.sha_lanes.specs.Lanes.{bytes_of};
ghost use Rattle.sha_lanes.specs.Tails.{tail_size};

use sha_stream::constants::PADDING;

/// The key's block (RFC 2104, section 2) with `pad` added to each of its bytes, bit by bit.
pub fn masked_key(key: &[u8; 32], pad: u8) -> [u8; 64]
    ensures { result ≡ masked pad (key_block sha256 64 key.now) }
{
    let mut block = [pad; 64];
    for i in 0..32 {
        block[i] = pad ^ key[i];
    }
    block
}

/// How many bytes there are from the last whole block of a message to the end of its padding: 64, or 128 if the length
/// field has no room in the first block (FIPS 180-4, 5.1.1).
pub fn tail_size(length: usize) -> usize
    ensures { result ≡ tail_size length }
{
    (length % 64 + 9 + 63) / 64 * 64
}

// Writes these bytes at this place.
fn put(tail: &mut [u8; 128], at: usize, bytes: &[u8])
    requires { at + length bytes.now ≤ 128 }
    ensures { take (at + length bytes.now) tail.new ≡ take at tail.old ++ bytes.now }
{
    tail[at..at + bytes.len()].copy_from_slice(bytes);
}

// The last blocks of a message that follows a block of 64 bytes: what remains after the message's whole blocks, and the
// padding.
fn tail_of(message: &[u8]) -> [u8; 128]
    ensures { take (tail_size (length message.now)) result
        ≡ drop (length message.now / 64 * 64) message.now ++ padding (64 + length message.now) }
{
    let used = message.len() % 64;
    let field = tail_size(message.len()) - 8;
    let bit_length = (message.len() as u64).wrapping_add(64).wrapping_mul(8);
    let mut tail = [0u8; 128];
    put(&mut tail, 0, &message[message.len() - used..]);
    put(&mut tail, used, &PADDING[..field - used]);
    put(&mut tail, field, &bit_length.to_be_bytes());
    tail
}

/// The last blocks of four messages, each of which follows a block of 64 bytes.
pub fn tails_of(messages: [&[u8]; 4]) -> [[u8; 128]; 4]
    ensures long { (j : ℕ) → j < 4 → length (slice_index_or result j []) ≡ 128 }
    ensures tails { (j : ℕ) → j < 4 → take (tail_size (length (bytes_of j messages.entry))) (slice_index_or result j [])
        ≡ drop (length (bytes_of j messages.entry) / 64 * 64) (bytes_of j messages.entry)
        ++ padding (64 + length (bytes_of j messages.entry)) }
{
    let [a, b, c, d] = messages;
    [tail_of(a), tail_of(b), tail_of(c), tail_of(d)]
}
