//! Why a provider wasn't resumed.
ghost use Rattle.std.specs.Prelude.{◌≡◌};
ghost use Rattle.suspend.specs.Refusals.{resume_fault_of};

use provider::AttachFault;
use thiserror::Error;

/// Why a provider wasn't resumed.
#[derive(Clone, Copy, Debug, PartialEq, Eq, Error)]
pub enum ResumeFault {
    /// The image, of `size` bytes, has no whole logical sector beside its metadata.
    #[error("an image of {size} bytes has no whole logical sector")]
    TooSmall { size: u64 },
    /// No slot that is set opens with the user key, or the named one doesn't.
    #[error("wrong key")]
    WrongKey,
    /// The user key opens another master key than the provider had: the SHA-256 of the provider's, and of the other.
    #[error("the key opens another master key")]
    DifferentKey { kept: [u8; 32], opened: [u8; 32] },
    /// There was no memory.
    #[error("no memory")]
    NoMemory,
}

impl From<AttachFault> for ResumeFault {
    ghost from_gives = { λ fault refused. refused ≡ resume_fault_of fault };

    fn from(fault: AttachFault) -> ResumeFault {
        match fault {
            AttachFault::TooSmall { size } => ResumeFault::TooSmall { size },
            AttachFault::WrongKey => ResumeFault::WrongKey,
            AttachFault::NoMemory => ResumeFault::NoMemory,
        }
    }
}
