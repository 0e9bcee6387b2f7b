//! Tags, each with zeros after it up to 64 bytes.

ghost use Rattle.std.specs.Prelude.{◌≡◌, ◌≢◌, ◌↔◌, ◌+◌, ◌*◌, ◌-◌, ◌^◌, ◌<◌, ◌≤◌, [], ◌∷◌, ◌++◌, IsTrue, get_or, length, replicate};
ghost use Rattle.eli_base.specs.Units.{tag_bytes};
ghost use Rattle.sealing.specs.TaggedUnits.{hmac_of, kept_tag, tag_of};
ghost use Rattle.sha_lanes.specs.Lanes.{HaveOneLength, bytes_of};
ghost use Rattle.auth_sectors.specs.Tags.{padded};

use eli_base::Auth;
use hmac_kdf::{Hmac256, Hmac384, Hmac512};
use range_keys::KeyRing;
use sha512_lanes::{codes_of_four_384, codes_of_four_512};

// The bytes, and zeros after them up to `N`.
fn filled<const N: usize>(bytes: &[u8]) -> [u8; N]
    requires { length bytes.now ≤ N }
    ensures { result ≡ bytes.now ++ replicate (N - length bytes.now) 0 }
{
    let mut out = [0u8; N];
    out[..bytes.len()].copy_from_slice(bytes);
    out
}

/// The bytes, followed by zeros.
pub fn padded(bytes: &[u8]) -> [u8; 64]
    requires { length bytes.now ≤ 64 }
    ensures { result ≡ padded bytes.now }
{
    filled(bytes)
}

/// How many bytes a tag has.
pub fn tag_size(ring: &KeyRing) -> usize
    ensures { result ≡ tag_bytes ring.now.keying.auth }
{
    ring.auth().tag_bytes()
}

// The code that authenticates a message, with zeros after it.
fn code_of(auth: Auth, key: &[u8; 32], message: &[u8]) -> [u8; 64]
    ensures { result ≡ padded (hmac_of auth key.now message.now) }
{
    match auth {
        Auth::Off => [0; 64],
        Auth::Sha256 => padded(&Hmac256::code_of(key, message)),
        Auth::Sha384 => padded(&Hmac384::code_of(key, message)),
        Auth::Sha512 => padded(&Hmac512::code_of(key, message)),
    }
}

/// The tag of the ciphertext at this byte offset.
pub fn tag_of(ring: &KeyRing, offset: u64, cipher_text: &[u8]) -> [u8; 64]
    requires { ring.now.keying.auth ≢ Auth.Off }
    ensures { result ≡ padded (tag_of ring.now.keying offset cipher_text.now) }
{
    code_of(ring.auth(), &ring.tag_key_at(offset), cipher_text)
}

// Four codes, each with zeros after it.
fn all_padded<const N: usize>(codes: &[[u8; N]; 4]) -> [[u8; 64]; 4]
    requires { N ≤ 64 }
    ensures { result ≡ padded (get_or codes.now 0 []) ∷ padded (get_or codes.now 1 [])
        ∷ padded (get_or codes.now 2 []) ∷ padded (get_or codes.now 3 []) ∷ [] }
{
    [
        padded(&codes[0]),
        padded(&codes[1]),
        padded(&codes[2]),
        padded(&codes[3]),
    ]
}

// The codes of four messages of one length, each under its own key, computed side by side.
fn codes_of_four(auth: Auth, keys: &[[u8; 32]; 4], messages: [&[u8]; 4]) -> [[u8; 64]; 4]
    requires { HaveOneLength messages }
    ensures { result ≡ padded (hmac_of auth (get_or keys.now 0 []) (bytes_of 0 messages.entry))
        ∷ padded (hmac_of auth (get_or keys.now 1 []) (bytes_of 1 messages.entry))
        ∷ padded (hmac_of auth (get_or keys.now 2 []) (bytes_of 2 messages.entry))
        ∷ padded (hmac_of auth (get_or keys.now 3 []) (bytes_of 3 messages.entry)) ∷ [] }
{
    match auth {
        Auth::Off => [[0; 64]; 4],
        Auth::Sha256 => all_padded(&sha_lanes::codes_of_four(keys, messages)),
        Auth::Sha384 => all_padded(&codes_of_four_384(keys, messages)),
        Auth::Sha512 => all_padded(&codes_of_four_512(keys, messages)),
    }
}

/// The tags of four ciphertexts of one length. The first is that of this byte offset, and each other is that of the
/// offset `step` bytes after the one before it.
pub fn tags_of_four(ring: &KeyRing, offset: u64, step: u64, texts: [&[u8]; 4]) -> [[u8; 64]; 4]
    requires on { ring.now.keying.auth ≢ Auth.Off }
    requires place { offset + 3 * step < 2 ^ 64 }
    requires lengths { HaveOneLength texts }
    ensures { result ≡ padded (tag_of ring.now.keying offset (bytes_of 0 texts.entry))
        ∷ padded (tag_of ring.now.keying (offset + step) (bytes_of 1 texts.entry))
        ∷ padded (tag_of ring.now.keying (offset + 2 * step) (bytes_of 2 texts.entry))
        ∷ padded (tag_of ring.now.keying (offset + 3 * step) (bytes_of 3 texts.entry)) ∷ [] }
{
    codes_of_four(ring.auth(), &ring.tag_keys_apart(offset, step), texts)
}

/// Whether two tags are the same. The body looks at each byte, whatever those before it are; no clause says so, since
/// time is no value.
pub fn is_same(a: &[u8; 64], b: &[u8; 64]) -> bool
    ensures { IsTrue result ↔ (a.now ≡ b.now) }
{
    let mut same = true;
    for i in 0..64 {
        same &= a[i] == b[i];
    }
    same
}

/// Whether a device sector has this tag, which is followed by zeros.
pub fn has_tag(ring: &KeyRing, sector: &[u8], tag: &[u8; 64]) -> bool
    requires { length sector.now ≡ 512 }
    ensures { IsTrue result ↔ (padded (kept_tag ring.now.keying sector.now) ≡ tag.now) }
{
    let size = tag_size(ring);
    is_same(&padded(&sector[..size]), tag)
}
