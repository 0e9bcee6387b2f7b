//! The key's block of RFC 2104, section 2, for a hash with blocks of `N` bytes.

ghost use Rattle.std.specs.Prelude.{◌≡◌, ◌≤◌, length};
ghost use Rattle.hmac_kdf.specs.Hmac.{filled_block, masked};

/// The byte ipad, which is added to the key's block before the message is hashed.
pub const INNER_PAD: u8 = 0x36;

/// The byte opad, which is added to the key's block before the inner hash is hashed.
pub const OUTER_PAD: u8 = 0x5c;

/// A block of these bytes, filled up with zeros.
pub fn filled_block<const N: usize>(bytes: &[u8]) -> [u8; N]
    requires { length bytes.now ≤ N }
    ensures { result ≡ filled_block N bytes.now }
{
    let mut block = [0u8; N];
    block[..bytes.len()].copy_from_slice(bytes);
    block
}

/// The block with `pad` added to each of its bytes, bit by bit.
pub fn masked<const N: usize>(block: &[u8; N], pad: u8) -> [u8; N]
    ensures { result ≡ masked pad block.now }
{
    let mut out = [0u8; N];
    for i in 0..N {
        out[i] = pad ^ block[i];
    }
    out
}
