//! The ciphers and authentications of the data: their key lengths, tags and numbers.
ghost use Rattle.std.specs.Prelude.{◌≡◌, ◌-◌};
ghost use Rattle.eli_base.specs.Algorithms.{allows_length, auth_number, cipher_number};
ghost use Rattle.eli_base.specs.Units.{tag_bytes, unit_bytes_of};

/// The cipher of a provider's data, geli(8) `-e`.
#[derive(Clone, Copy, Debug, PartialEq, Eq)]
pub enum Cipher {
    /// AES-CBC, number 11 in the metadata.
    AesCbc,
    /// AES-XTS, number 22 in the metadata.
    AesXts,
}

impl Cipher {
    /// Whether this cipher takes a key of `keylen` bits (geli(8), `-l`): 128, 192 or 256 for AES-CBC, 128 or 256 for
    /// AES-XTS.
    pub fn allows(self, keylen: u16) -> bool
        ensures { result ≡ allows_length self keylen }
    {
        match self {
            Cipher::AesCbc => keylen == 128 || keylen == 192 || keylen == 256,
            Cipher::AesXts => keylen == 128 || keylen == 256,
        }
    }

    /// The cipher's number in the metadata (cryptodev.h).
    pub fn number(self) -> u16
        ensures { result ≡ cipher_number self }
    {
        match self {
            Cipher::AesCbc => 11,
            Cipher::AesXts => 22,
        }
    }
}

/// The authentication of a provider's data, geli(8) `-a`.
#[derive(Clone, Copy, Debug, PartialEq, Eq)]
pub enum Auth {
    /// No tags.
    Off,
    /// HMAC/SHA256, number 18 in the metadata.
    Sha256,
    /// HMAC/SHA384, number 19 in the metadata.
    Sha384,
    /// HMAC/SHA512, number 20 in the metadata.
    Sha512,
}

impl Auth {
    /// The authentication's number in the metadata (cryptodev.h), 0 for none.
    pub fn number(self) -> u16
        ensures { result ≡ auth_number self }
    {
        match self {
            Auth::Off => 0,
            Auth::Sha256 => 18,
            Auth::Sha384 => 19,
            Auth::Sha512 => 20,
        }
    }

    /// The bytes of the tag with which each device sector begins: as many as the HMAC code has, or 0 without
    /// authentication.
    pub fn tag_bytes(self) -> usize
        ensures { result ≡ tag_bytes self }
    {
        match self {
            Auth::Off => 0,
            Auth::Sha256 => 32,
            Auth::Sha384 => 48,
            Auth::Sha512 => 64,
        }
    }

    /// The bytes of a device sector that are left for data: 512, 480, 464 or 448.
    pub fn data_bytes(self) -> usize
        ensures { result ≡ unit_bytes_of self }
    {
        512 - self.tag_bytes()
    }
}
