//! Blocks of 128 bytes: those of the keys, and the last ones of the messages.

ghost use Rattle.std.specs.Prelude.{◌≡◌, ◌+◌, ◌*◌, ◌/◌, ◌<◌, ◌≤◌, ◌++◌, ℕ, List, [], length, drop, take, slice_index_or};
ghost use Rattle.sha2.specs.Sha512.{padding};
ghost use Rattle.hmac_kdf.specs.Hmac.{key_block, masked};
ghost use Rattle.sha_lanes.specs.Lanes.{bytes_of};
ghost use Rattle.sha512_lanes.specs.Tails.{last_blocks_size};

// The padding's first bytes: a bit 1, then zeros (5.1.2).
const PADDING: [u8; 128] = [
    0x80, 0, 0, 0, 0, 0, 0, 0, 0, 0, 0, 0, 0, 0, 0, 0, 0, 0, 0, 0, 0, 0, 0, 0, 0, 0, 0, 0, 0, 0, 0,
    0, 0, 0, 0, 0, 0, 0, 0, 0, 0, 0, 0, 0, 0, 0, 0, 0, 0, 0, 0, 0, 0, 0, 0, 0, 0, 0, 0, 0, 0, 0, 0,
    0, 0, 0, 0, 0, 0, 0, 0, 0, 0, 0, 0, 0, 0, 0, 0, 0, 0, 0, 0, 0, 0, 0, 0, 0, 0, 0, 0, 0, 0, 0, 0,
    0, 0, 0, 0, 0, 0, 0, 0, 0, 0, 0, 0, 0, 0, 0, 0, 0, 0, 0, 0, 0, 0, 0, 0, 0, 0, 0, 0, 0, 0, 0, 0,
    0,
];

/// The key's block (RFC 2104, section 2) with `pad` added to each of its bytes, bit by bit. The key is shorter than a
/// block, so it isn't hashed first, and the block is the same for SHA-384 and SHA-512.
pub fn masked_key(key: &[u8; 32], pad: u8) -> [u8; 128]
    ensures { (hash : List ℕ → List ℕ) → result ≡ masked pad (key_block hash 128 key.now) }
{
    let mut block = [pad; 128];
    for i in 0..32 {
        block[i] = pad ^ key[i];
    }
    block
}

/// How many bytes there are from the last whole block of a message to the end of its padding: 128, or 256 if the length
/// field has no room in the first block (FIPS 180-4, 5.1.2).
pub fn last_blocks_size(length: usize) -> usize
    ensures { result ≡ last_blocks_size length }
{
    (length % 128 + 17 + 127) / 128 * 128
}

// Writes these bytes at this place.
fn put(tail: &mut [u8; 256], at: usize, bytes: &[u8])
    requires { at + length bytes.now ≤ 256 }
    ensures { take (at + length bytes.now) tail.new ≡ take at tail.old ++ bytes.now }
{
    tail[at..at + bytes.len()].copy_from_slice(bytes);
}

// The last blocks of a message that follows a block of 128 bytes: what remains after the message's whole blocks, and
// the padding.
fn tail_of(message: &[u8]) -> [u8; 256]
    ensures { take (last_blocks_size (length message.now)) result
        ≡ drop (length message.now / 128 * 128) message.now ++ padding (128 + length message.now) }
{
    let used = message.len() % 128;
    let field = last_blocks_size(message.len()) - 16;
    let bit_length = (message.len() as u128 + 128) * 8;
    let mut tail = [0u8; 256];
    put(&mut tail, 0, &message[message.len() - used..]);
    put(&mut tail, used, &PADDING[..field - used]);
    put(&mut tail, field, &bit_length.to_be_bytes());
    tail
}

/// The last blocks of four messages, each of which follows a block of 128 bytes.
pub fn tails_of(messages: [&[u8]; 4]) -> [[u8; 256]; 4]
    ensures long { (j : ℕ) → j < 4 → length (slice_index_or result j []) ≡ 256 }
    ensures tails { (j : ℕ) → j < 4
        → take (last_blocks_size (length (bytes_of j messages.entry))) (slice_index_or result j [])
        ≡ drop (length (bytes_of j messages.entry) / 128 * 128) (bytes_of j messages.entry)
        ++ padding (128 + length (bytes_of j messages.entry)) }
{
    let [a, b, c, d] = messages;
    [tail_of(a), tail_of(b), tail_of(c), tail_of(d)]
}
