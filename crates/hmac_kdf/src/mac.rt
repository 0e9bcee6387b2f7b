//! HMAC (RFC 2104) over a hash function that is called through `Digest` of `sha2`.

ghost use Rattle.std.specs.Prelude.{◌≡◌, ℕ, ◌≤◌, ◌<◌, List, [], ◌++◌};
ghost use Rattle.std.proofs.Common.{lit<, lit≤};
ghost use Rattle.sha2.specs.Sha256.{sha256};
ghost use Rattle.sha2.specs.Sha512.{sha384, sha512};
ghost use Rattle.hmac_kdf.specs.Hmac.{hmac, hmac256, hmac384, hmac512, key_block, masked};
ghost use Rattle.hmac_kdf.specs.Codes.{hmac256-is, hmac384-is, hmac512-is};

use crate::block::{INNER_PAD, OUTER_PAD, filled_block, masked};
use sha_stream::Sha256;
use sha2::{Digest, Sha384, Sha512};

/// A hash function with blocks of `B` bytes and digests of `N`, over which there is HMAC.
pub trait BlockHash<const B: usize, const N: usize>: Digest<Output = [u8; N]> {
    // The digest of a message.
    ghost hash: { List ℕ → List ℕ };

    // The code of a message under a key; the key is the first argument.
    ghost code: { List ℕ → List ℕ → List ℕ };

    ghost sizes: { (N ≤ B) × (B < 256) };

    ghost is_hash: { (message digest : List ℕ) → Self.Digest.digest_of message digest → digest ≡ hash message };

    ghost is_hmac: { (key message : List ℕ) → code key message ≡ hmac hash B key message };
}

impl BlockHash<64, 32> for Sha256 {
    ghost hash = { sha256 };

    ghost code = { hmac256 };

    ghost sizes = { (lit≤ tt, lit< tt) };

    ghost is_hash = { λ message digest is. is };

    ghost is_hmac = { hmac256-is };
}

impl BlockHash<128, 48> for Sha384 {
    ghost hash = { sha384 };

    ghost code = { hmac384 };

    ghost sizes = { (lit≤ tt, lit< tt) };

    ghost is_hash = { λ message digest is. is };

    ghost is_hmac = { hmac384-is };
}

impl BlockHash<128, 64> for Sha512 {
    ghost hash = { sha512 };

    ghost code = { hmac512 };

    ghost sizes = { (lit≤ tt, lit< tt) };

    ghost is_hash = { λ message digest is. is };

    ghost is_hmac = { hmac512-is };
}

/// HMAC (RFC 2104) of a message that comes in pieces: `new`, an `update` for each piece, and `finish`.
#[derive(Clone, Drop)]
pub struct Hmac<H: Drop, const B: usize, const N: usize> {
    // The inner hash: of the key's block with the inner pad, and then of the message.
    inner: H,
    // The outer hash, so far of the key's block with the outer pad alone.
    outer: H,
}

/// HMAC-SHA-256, with codes of 32 bytes.
pub type Hmac256 = Hmac<Sha256, 64, 32>;

/// HMAC-SHA-384, with codes of 48 bytes.
pub type Hmac384 = Hmac<Sha384, 128, 48>;

/// HMAC-SHA-512, with codes of 64 bytes.
pub type Hmac512 = Hmac<Sha512, 128, 64>;

impl<H: BlockHash<B, N>, const B: usize, const N: usize> Hmac<H, B, N> {
    ghost use Rattle.hmac_kdf.specs.Hashers.{HoldsUnder};

    // The key as one block: a key longer than a block is hashed first.
    fn key_block(key: &[u8]) -> [u8; B]
        ensures { result ≡ key_block H.hash B key.now }
    {
        if key.len() <= B {
            filled_block(key)
        } else {
            filled_block(&H::digest(key))
        }
    }

    // The code: the outer hash, completed with the digest of the inner one.
    fn code(inner: H, mut outer: H) -> [u8; N]
        ensures { (k m : List ℕ) → H.holds inner (masked 0x36 (key_block H.hash B k) ++ m)
            → H.holds outer (masked 0x5C (key_block H.hash B k)) → result ≡ H.code k m }
    {
        outer.update(inner.finalize());
        outer.finalize()
    }

    /// A hasher of the empty message under a key of any length.
    pub fn new(key: &[u8]) -> Hmac<H, B, N>
        ensures { HoldsUnder H.holds H.hash result key.now [] }
    {
        let block = Self::key_block(key);
        Hmac {
            inner: H::new_with_prefix(masked(&block, INNER_PAD)),
            outer: H::new_with_prefix(masked(&block, OUTER_PAD)),
        }
    }

    /// The code of a message that is there whole.
    pub fn code_of(key: &[u8], message: &[u8]) -> [u8; N]
        ensures { result ≡ H.code key.now message.now }
    {
        let block = Self::key_block(key);
        let mut inner = H::new_with_prefix(masked(&block, INNER_PAD));
        inner.update(message);
        Self::code(inner, H::new_with_prefix(masked(&block, OUTER_PAD)))
    }

    /// Adds a piece to the message.
    pub fn update(&mut self, piece: &[u8])
        ensures { (k m : List ℕ) → HoldsUnder H.holds H.hash self.old k m
            → HoldsUnder H.holds H.hash self.new k (m ++ piece.now) }
    {
        self.inner.update(piece);
    }

    /// The code of the message.
    pub fn finish(self) -> [u8; N]
        ensures { (k m : List ℕ) → HoldsUnder H.holds H.hash self k m → result ≡ H.code k m }
    {
        let Hmac { inner, outer } = self;
        Self::code(inner, outer)
    }
}
