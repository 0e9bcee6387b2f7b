//! What a user key is made of.
ghost use Rattle.std.specs.Prelude.{◌≡◌};
ghost use Rattle.user_key.specs.Refusals.{key_refusal_of};

use block_traits::ByteList;
use eli_base::Refusal;
use thiserror::Error;

/// What the options say of a passphrase.
#[derive(Debug, Drop)]
pub enum PassPart {
    /// The key is to have no passphrase: `-p` or `-P` was given.
    Without,
    /// Neither `-p`, nor `-P`, nor a passphrase file was given.
    Missing,
    /// The passphrase: the first lines of its files, joined in order. It may be empty.
    Given(ByteList),
}

/// The components of a user key.
#[derive(Debug, Drop)]
pub struct Components {
    /// How many key files were given.
    pub keyfile_count: u32,
    /// The bytes of the key files, joined in order.
    pub keyfiles: ByteList,
    /// The passphrase.
    pub passphrase: PassPart,
}

/// A user key.
#[derive(Debug, Drop, PartialEq, Eq)]
pub struct UserKey {
    /// The 64 bytes of the key.
    pub bytes: [u8; 64],
}

/// Why components make no user key.
#[derive(Clone, Copy, Debug, PartialEq, Eq, Error)]
pub enum KeyFault {
    /// A passphrase is given or wanted, but the metadata say that none was set up.
    #[error("no passphrase was set up")]
    PassphraseNotSet,
    /// A passphrase is wanted, but no file gives it.
    #[error("a passphrase is needed")]
    PassphraseNeeded,
    /// The key is to have no passphrase, and no key file was given.
    #[error("no key components are given")]
    NoKeyComponents,
}

impl From<KeyFault> for Refusal {
    ghost from_gives = { λ fault refusal. refusal ≡ key_refusal_of fault };

    fn from(fault: KeyFault) -> Refusal {
        match fault {
            KeyFault::PassphraseNotSet => Refusal::PassphraseNotSet,
            KeyFault::PassphraseNeeded => Refusal::PassphraseNeeded,
            KeyFault::NoKeyComponents => Refusal::NoKeyComponents,
        }
    }
}
