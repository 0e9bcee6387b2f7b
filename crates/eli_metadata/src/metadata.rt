//! The fields of the metadata, and what may be wrong with them.
ghost use Rattle.std.specs.Prelude.{◌≡◌, ◌<◌};
ghost use Rattle.eli_metadata.specs.Checks.{is_set};
ghost use Rattle.eli_metadata.specs.Format.{IsWhole};
ghost use Rattle.eli_metadata.specs.Refusals.{refusal_of};

use eli_base::Refusal;
use thiserror::Error;

/// The version of the metadata of a new provider (g_eli.h, `G_ELI_VERSION`).
pub const VERSION: u32 = 7;

/// The flag `G_ELI_FLAG_AUTH`: the data is authenticated.
pub const FLAG_AUTH: u32 = 0x10;

/// The flag `G_ELI_FLAG_RO`: the provider is read-only.
pub const FLAG_RO: u32 = 0x20;

/// The flag `G_ELI_FLAG_AUTORESIZE`: the provider is to grow with its image.
pub const FLAG_AUTORESIZE: u32 = 0x200;

/// The fields of the metadata sector, by their names in `struct g_eli_metadata` (g_eli.h).
#[derive(Clone, Copy, Debug, PartialEq, Eq)]
pub struct Metadata {
    /// The version of the format: 5, 6 or 7.
    pub version: u32,
    /// The flags `G_ELI_FLAG_*`.
    pub flags: u32,
    /// The algorithm of encryption, `CRYPTO_*`: 11 is AES-CBC and 22 AES-XTS.
    pub ealgo: u16,
    /// The length of the data key in bits.
    pub keylen: u16,
    /// The algorithm of authentication, `CRYPTO_*`: 18 is HMAC/SHA256, 19 HMAC/SHA384 and
    /// 20 HMAC/SHA512.
    pub aalgo: u16,
    /// The provider's size in bytes.
    pub provsize: u64,
    /// The size of a logical sector in bytes.
    pub sectorsize: u32,
    /// Bit n says that slot n holds a master key.
    pub keys: u8,
    /// The iterations of PBKDF2 if above 0. 0: PBKDF2 isn't used. Below 0: no passphrase was set up (-1 is written).
    pub iterations: i32,
    /// The salt of the passphrase.
    pub salt: [u8; 64],
    /// The two slots of 192 bytes each, with a wrapped master key or filler.
    pub mkeys: [u8; 384],
}

impl Metadata {
    /// Whether a slot holds a key.
    pub fn is_set(&self, slot: u8) -> bool
        requires { slot < 2 }
        ensures { result ≡ is_set self.now slot }
    {
        self.keys & (1 << slot) != 0
    }

    /// A law: all fields fit their types, so that what is written is read again.
    pub fn fits_types(self)
        ensures { IsWhole self }
    {
        let _ = self;
    }
}

/// Why bytes are no metadata, or metadata no provider that can be used.
#[derive(Clone, Copy, Debug, Error)]
pub enum MetaFault {
    /// The first sixteen bytes aren't the magic.
    #[error("no GELI metadata")]
    BadMagic,
    /// The version isn't 5, 6 or 7, or it is 5 and the data is authenticated.
    #[error("version {found} of the metadata isn't supported")]
    BadVersion { found: u32 },
    /// The MD5 of the fields differs from the one beside them.
    #[error("the metadata's checksum differs")]
    BadHash,
    /// These flags are set and aren't supported.
    #[error("flags {mask:#x} aren't supported")]
    UnsupportedFlags { mask: u32 },
    /// The algorithm of encryption is neither AES-CBC nor AES-XTS.
    #[error("cipher {found} isn't supported")]
    UnsupportedCipher { found: u16 },
    /// The cipher doesn't allow the length of the key.
    #[error("a key of {found} bits isn't supported")]
    BadKeyLength { found: u16 },
    /// The data is authenticated, and not by HMAC/SHA256, HMAC/SHA384 or HMAC/SHA512.
    #[error("authentication {found} isn't supported")]
    UnsupportedAuth { found: u16 },
    /// The size of a logical sector isn't a power of two from 512 to 65,536.
    #[error("a sector of {found} bytes isn't supported")]
    BadSectorSize { found: u32 },
    /// The provider's size in the metadata is another than the one found, or is 2^53 bytes or more
    /// (`found` is then 0).
    #[error("the size {kept} doesn't match {found}")]
    BadSize { kept: u64, found: u64 },
    /// No slot holds a key.
    #[error("no valid keys")]
    NoValidKeys,
    /// There is no slot of this number.
    #[error("there is no slot {given}")]
    KeyNumberOutOfRange { given: u8 },
    /// The slot holds no key.
    #[error("slot {slot} holds no key")]
    KeyNotSet { slot: u8 },
}

impl From<MetaFault> for Refusal {
    ghost from_gives = { λ fault refusal. refusal ≡ refusal_of fault };

    fn from(fault: MetaFault) -> Refusal {
        match fault {
            MetaFault::BadMagic => Refusal::BadMagic,
            MetaFault::BadVersion { found } => Refusal::BadVersion { found },
            MetaFault::BadHash => Refusal::BadHash,
            MetaFault::UnsupportedFlags { mask } => Refusal::UnsupportedFlags { mask },
            MetaFault::UnsupportedCipher { found } => Refusal::UnsupportedCipher { found },
            MetaFault::BadKeyLength { found } => Refusal::BadKeyLength { found },
            MetaFault::UnsupportedAuth { found } => Refusal::UnsupportedAuth { found },
            MetaFault::BadSectorSize { found } => Refusal::BadSectorSize { found },
            MetaFault::BadSize { kept, found } => Refusal::BadSize { kept, found },
            MetaFault::NoValidKeys => Refusal::NoValidKeys,
            MetaFault::KeyNumberOutOfRange { given } => Refusal::KeyNumberOutOfRange { given },
            MetaFault::KeyNotSet { slot } => Refusal::KeyNotSet { slot },
        }
    }
}
