//! What the metadata say of the data, and the master key.
ghost use Rattle.std.specs.Prelude.{◌≡◌, ◌≤◌, ◌<◌, ◌%◌, ◌^◌, IsTrue};
ghost use Rattle.std.specs.Bool.{OnTrue};
ghost use Rattle.eli_base.specs.Algorithms.{allows_length};
ghost use Rattle.eli_base.specs.SectorSize.{is_sector_size};

use crate::algorithms::{Auth, Cipher};

/// The most bytes that a request may ask for.
pub const REQUEST_LIMIT: u64 = 131_072;

/// Whether a logical sector may have `size` bytes (geli(8), `-s`): a power of two from 512 to 65,536.
pub fn sector_size_ok(size: u32) -> bool
    ensures answer { result ≡ is_sector_size size }
    ensures at_least { OnTrue result (512 ≤ size) }
    ensures at_most { OnTrue result (size ≤ 65536) }
    ensures whole { OnTrue result (size % 512 ≡ 0) }
{
    matches!(
        size,
        512 | 1_024 | 2_048 | 4_096 | 8_192 | 16_384 | 32_768 | 65_536
    )
}

/// What the metadata says of a provider's data. Each value has a key length that its cipher allows,
/// a sector size that geli(8) allows, and a provider below 2^53 bytes.
#[derive(Clone, Copy, Debug, PartialEq, Eq)]
pub struct Params {
    /// The version of the metadata.
    pub version: u32,
    /// The authentication of the data.
    pub auth: Auth,
    /// The cipher of the data.
    pub cipher: Cipher,
    /// The length of the data key in bits.
    pub keylen: u16,
    /// The bytes of a logical sector.
    pub sectorsize: u32,
    /// The bytes of the image, metadata included.
    pub provsize: u64,
    /// Whether the metadata asks for a read-only provider.
    pub readonly: bool,
    pub ghost allowed: { IsTrue (allows_length cipher keylen) },
    pub ghost sized: { IsTrue (is_sector_size sectorsize) },
    pub ghost at_least: { 512 ≤ sectorsize },
    pub ghost at_most: { sectorsize ≤ 65536 },
    pub ghost whole: { sectorsize % 512 ≡ 0 },
    pub ghost small: { provsize < 2 ^ 53 },
}

impl Params {
    /// Parameters with these values. The caller proves the three conditions, for example by [`Cipher::allows`] and
    /// [`sector_size_ok`].
    pub fn new(
        version: u32,
        auth: Auth,
        cipher: Cipher,
        keylen: u16,
        sectorsize: u32,
        provsize: u64,
        readonly: bool,
    ) -> Params
        requires allowed { IsTrue (allows_length cipher keylen) }
        requires sized { IsTrue (is_sector_size sectorsize) }
        requires small { provsize < 2 ^ 53 }
        ensures version { result.version ≡ version }
        ensures auth { result.auth ≡ auth }
        ensures cipher { result.cipher ≡ cipher }
        ensures keylen { result.keylen ≡ keylen }
        ensures sectorsize { result.sectorsize ≡ sectorsize }
        ensures provsize { result.provsize ≡ provsize }
        ensures readonly { result.readonly ≡ readonly }
    {
        Params {
            version,
            auth,
            cipher,
            keylen,
            sectorsize,
            provsize,
            readonly,
        }
    }
}

/// A provider's master key: 64 bytes of IV-Key, then 64 bytes of Data-Key.
#[derive(Clone, Copy, Debug, PartialEq, Eq)]
pub struct MasterKey {
    /// The 128 bytes in order.
    pub bytes: [u8; 128],
}
