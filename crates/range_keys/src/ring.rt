//! The ring of a provider's keys, from which all other crates take the keys of its data.
//!
//! The invariant is `IsRing`: whatever the ring has stored is what its parameters and its master key give. It stores
//! how a logical sector is cut into units, the key of which range keys are made, the hash states with which initial
//! vectors and tag keys begin, and at most sixteen range keys, each under its own number.
//!
//! So callers may rely on one thing: a key depends on the keying and the byte offset alone, never on what was asked
//! before. Contracts see the keying, which `forget` alone changes, and the numbers of the kept range keys, the most
//! recently used first.
//!
//! `forget` makes it the ring of a master key of zeros, and the invariant says of all that it stores that it is that
//! key's. So nothing of the keys before is left in it.
//!
//! A failure leaves no trace for the caller: if there is no memory to keep a new range key, `key_at` lends it from a
//! field outside the cache (`unkept`). The key is the right one, and the kept numbers stay.
//!
//! Range keys are kept because deriving one (HMAC-SHA512) and expanding it is costly, and neighbouring sectors share
//! it.

ghost use Rattle.std.specs.Prelude.{◌≡◌, ◌≢◌, ◌↔◌, ◌+◌, ◌*◌, ◌/◌, ◌^◌, ◌<◌, ◌≤◌, [], ◌∷◌, IsTrue, IfOk, Contains, length, nat_eq};
ghost use Rattle.std.specs.List.{IsDistinct};
ghost use Rattle.std.specs.Borrow.{sem};
ghost use Rattle.eli_base.specs.Keying.{keying_of};
ghost use Rattle.eli_base.specs.Units.{unit_bytes_of, units_per_sector};
ghost use Rattle.range_keys.specs.Keys.{numbered_block, key_number, first_key, second_key, iv, tag_key};
ghost use Rattle.range_keys.specs.Numbers.{room};
ghost use Rattle.range_keys.specs.Ring.{IsKeying, forgotten};
ghost use Rattle.range_keys.specs.Unit.{IsUnit};

use crate::derivation::{auth_key, digest_at, digests_apart, iv_key, range_base};
use crate::expanded::RangeKey;
use crate::kept::KeptKeys;
use block_traits::NoMemory;
use eli_base::{Auth, Cipher, MasterKey, Params, SectorLayout};
use lru::LruCache;
use sha_lanes::Prefix;
use sha2::{Digest, Sha256};
use std::alloc::Global;
use std::marker::Model;
use std::num::NonZeroUsize;

// The block size by which offsets are numbered, in bytes.
fn numbered_block(params: &Params) -> u64
    ensures { result ≡ numbered_block params.now.auth params.now.sectorsize }
{
    match params.auth {
        Auth::Off => u64::from(params.sectorsize),
        Auth::Sha256 | Auth::Sha384 | Auth::Sha512 => 512,
    }
}

/// Where a unit of a logical sector stands.
#[derive(Clone, Copy, Debug, PartialEq, Eq)]
pub struct Unit {
    /// The byte offset of its device sector on the device.
    pub offset: u64,
    /// Where its plain bytes begin among those of the logical sector.
    pub start: usize,
    /// Where its plain bytes end.
    pub end: usize,
}

/// The keys of one provider, by byte offset on the device.
///
/// Contracts see the keying that it was made for, which `forget` alone changes, and the numbers of the range keys that
/// it keeps, the most recently used first.
#[derive(Drop)]
pub struct KeyRing {
    params: Params,
    layout: SectorLayout,
    master: MasterKey,
    // The key of which range keys are made.
    range_base: [u8; 64],
    // The range keys that were asked for last.
    keys: KeptKeys,
    // What initialization vectors and the keys of tags are hashed of begins with 64 bytes that are the same at every
    // offset, a whole block of SHA-256. These hold them, so that they are hashed once; the last one is for the keys of
    // four tags, which are computed side by side.
    vectors: Sha256,
    tags: Sha256,
    four_tags: Prefix,
}

impl Model for KeyRing {
    ghost use Rattle.eli_base.specs.Keying.{keying_of};
    ghost use Rattle.std.specs.Map.{keys_of};
    ghost use Rattle.range_keys.specs.Ring.{Ring, IsRing};

    ghost Value = { Ring };

    ghost view = { λ ring. record { keying = keying_of ring.params ring.master; numbers = keys_of ring.keys.cache.entries } };

    ghost invariant = { λ ring. IsRing ring.params ring.layout ring.master ring.range_base ring.keys.cache ring.vectors ring.tags ring.four_tags };
}

// How many range keys a ring keeps.
const ROOM: usize = 16;

// The number of the range key of an offset.
fn key_number(params: &Params, offset: u64) -> u64
    ensures { result ≡ offset / 2 ^ 20 / numbered_block params.now.auth params.now.sectorsize }
{
    (offset >> 20) / numbered_block(params)
}

impl KeyRing {
    ghost use Rattle.range_keys.specs.Lending.{LendsKeyAt};

    /// The ring of a provider with these parameters and this master key, which keeps no range key yet.
    pub fn new(alloc: Global, master: &MasterKey, params: &Params) -> Result<KeyRing, NoMemory>
        ensures keying { IfOk result (λ ring. ring.keying ≡ keying_of params.now master.now) }
        ensures numbers { IfOk result (λ ring. ring.numbers ≡ []) }
    {
        let tag_base = auth_key(master);
        Ok(KeyRing {
            params: *params,
            layout: SectorLayout::of(params.auth, params.sectorsize),
            master: *master,
            range_base: range_base(params.version, params.auth, master),
            keys: KeptKeys {
                cache: LruCache::new(alloc, NonZeroUsize::new(ROOM).unwrap())?,
                unkept: None,
            },
            vectors: Sha256::new_with_prefix(iv_key(master)),
            tags: Sha256::new_with_prefix(tag_base),
            four_tags: Prefix::of(&tag_base),
        })
    }

    /// Lends the expanded keys of the range in which this byte offset lies. The last sixteen that were asked for are
    /// kept, if there is memory for them; another is made anew. The starred clause says what the ring is once the loan
    /// has ended.
    pub fn key_at(&mut self, offset: u64) -> &RangeKey
        ensures* after { sem 𝓛 (LendsKeyAt self.entry offset) }
        ensures first { result.now.first ≡ first_key self.old.keying offset }
        ensures second { result.now.second ≡ second_key self.old.keying offset }
    {
        let number = key_number(&self.params, offset);
        let (cipher, keylen) = (self.params.cipher, self.params.keylen);
        let is_kept = self.keys.bring(cipher, keylen, &self.range_base, number);
        self.keys.lent(is_kept)
    }

    /// Whether the range key of this byte offset is kept, so that `key_at` makes nothing.
    pub fn keeps(&self, offset: u64) -> bool
        ensures { IsTrue result ↔ Contains self.now.numbers (key_number self.now.keying offset) }
    {
        self.keys.cache.contains(&key_number(&self.params, offset))
    }

    /// A law: no number is kept twice, and at most sixteen are kept.
    pub fn keeps_few(&self)
        ensures few { length self.now.numbers ≤ room }
        ensures each_once { IsDistinct nat_eq self.now.numbers }
    {
        self.keys.cache.len();
    }

    /// The initialization vector of AES-CBC at this byte offset.
    pub fn iv_at(&self, offset: u64) -> [u8; 16]
        ensures { result ≡ iv self.now.keying offset }
    {
        let digest = digest_at(&self.vectors, offset);
        let mut vector = [0u8; 16];
        vector.copy_from_slice(&digest[..16]);
        vector
    }

    /// The key of the tag of the piece at this byte offset, for a provider with authentication.
    pub fn tag_key_at(&self, offset: u64) -> [u8; 32]
        requires { self.now.keying.auth ≢ Auth.Off }
        ensures { result ≡ tag_key self.now.keying offset }
    {
        digest_at(&self.tags, offset)
    }

    /// The keys of four tags, for a provider with authentication. The first is that of the piece at this byte offset,
    /// and each other that of the piece `step` bytes after the one before it.
    pub fn tag_keys_apart(&self, offset: u64, step: u64) -> [[u8; 32]; 4]
        requires on { self.now.keying.auth ≢ Auth.Off }
        requires place { offset + 3 * step < 2 ^ 64 }
        ensures { result ≡ tag_key self.now.keying offset ∷ tag_key self.now.keying (offset + step)
            ∷ tag_key self.now.keying (offset + 2 * step) ∷ tag_key self.now.keying (offset + 3 * step) ∷ [] }
    {
        digests_apart(&self.four_tags, offset, step)
    }

    /// The cipher of the provider's data.
    pub fn cipher(&self) -> Cipher
        ensures { result ≡ self.now.keying.cipher }
    {
        self.params.cipher
    }

    /// The authentication of the provider's data.
    pub fn auth(&self) -> Auth
        ensures { result ≡ self.now.keying.auth }
    {
        self.params.auth
    }

    /// How the logical sectors of the provider are cut into units.
    pub fn layout(&self) -> SectorLayout
        ensures keying { IsKeying self.now.keying }
        ensures size { result.size ≡ self.now.keying.sectorsize }
        ensures units { result.units ≡ units_per_sector self.now.keying.auth self.now.keying.sectorsize }
        ensures unit_bytes { result.unit_bytes ≡ unit_bytes_of self.now.keying.auth }
    {
        self.layout
    }

    /// Where unit `j` of this logical sector stands.
    pub fn unit(&self, sector: u64, j: usize) -> Unit
        requires there { j < units_per_sector self.now.keying.auth self.now.keying.sectorsize }
        requires small { sector * units_per_sector self.now.keying.auth self.now.keying.sectorsize + j < 2 ^ 55 }
        ensures offset { result.offset ≡ 512 * (sector * units_per_sector self.now.keying.auth self.now.keying.sectorsize + j) }
        ensures bytes { IsUnit self.now.keying.auth self.now.keying.sectorsize j result.start result.end }
    {
        let start = j * self.layout.unit_bytes;
        Unit {
            offset: 512 * (sector * self.layout.units as u64 + j as u64),
            start,
            end: self.layout.size.min(start + self.layout.unit_bytes),
        }
    }

    /// Makes it the ring of a master key of zeros. Whatever it has stored of its own is overwritten where it stands.
    pub fn forget(&mut self)
        ensures forgotten { self.new.keying ≡ forgotten self.old.keying }
        ensures numbers { self.new.numbers ≡ self.old.numbers }
    {
        let zeros = MasterKey { bytes: [0; 128] };
        let tag_base = auth_key(&zeros);
        self.master = zeros;
        self.range_base = range_base(self.params.version, self.params.auth, &zeros);
        self.vectors = Sha256::new_with_prefix(iv_key(&zeros));
        self.tags = Sha256::new_with_prefix(tag_base);
        self.four_tags = Prefix::of(&tag_base);
        let (cipher, keylen) = (self.params.cipher, self.params.keylen);
        self.keys.rekey(cipher, keylen, &self.range_base);
    }

    /// The master key.
    pub fn master(&self) -> MasterKey
        ensures { result.bytes ≡ self.now.keying.master }
    {
        self.master
    }
}
