//! Why a call of a provider was refused.
use sector_runs::ReadFault;
use thiserror::Error;

/// Why a provider wasn't attached.
#[derive(Clone, Copy, Debug, PartialEq, Eq, Error)]
pub enum AttachFault {
    /// The image, of `size` bytes, has no whole logical sector beside its metadata.
    #[error("an image of {size} bytes has no whole logical sector")]
    TooSmall { size: u64 },
    /// No slot that is set opens with the user key, or the named one doesn't.
    #[error("wrong key")]
    WrongKey,
    /// There was no memory.
    #[error("no memory")]
    NoMemory,
}

/// That a request passes the end: its first sector, how many sectors it asks for, and how many there are.
#[derive(Clone, Copy, Debug, PartialEq, Eq, Error)]
#[error("sectors from {sector} on, {count} of them, pass the end at {media}")]
pub struct OutOfRange {
    /// The first sector.
    pub sector: u64,
    /// How many are asked for.
    pub count: u64,
    /// How many there are.
    pub media: u64,
}

impl From<OutOfRange> for ReadFault {
    ghost use Rattle.std.specs.Prelude.{◌≡◌};
    ghost use Rattle.sector_runs.specs.declared.faults.ReadFault.TheVariants as read;

    ghost from_gives = { λ past fault. fault ≡ read.OutOfRange past.sector past.count past.media };

    fn from(past: OutOfRange) -> ReadFault {
        let OutOfRange {
            sector,
            count,
            media,
        } = past;
        ReadFault::OutOfRange {
            sector,
            count,
            media,
        }
    }
}

/// Why logical sectors weren't written.
#[derive(Clone, Copy, Debug, PartialEq, Eq, Error)]
pub enum WriteFault {
    /// The provider is read-only.
    #[error("the provider is read-only")]
    ReadOnly,
    /// The request passes the end: its first sector, how many sectors it has, and how many there are.
    #[error("sectors from {sector} on, {count} of them, pass the end at {media}")]
    OutOfRange { sector: u64, count: u64, media: u64 },
    /// The device failed.
    #[error("the device failed")]
    DeviceFault,
}

impl From<OutOfRange> for WriteFault {
    ghost use Rattle.std.specs.Prelude.{◌≡◌};
    ghost use Rattle.provider.specs.declared.faults.WriteFault.TheVariants as write;

    ghost from_gives = { λ past fault. fault ≡ write.OutOfRange past.sector past.count past.media };

    fn from(past: OutOfRange) -> WriteFault {
        let OutOfRange {
            sector,
            count,
            media,
        } = past;
        WriteFault::OutOfRange {
            sector,
            count,
            media,
        }
    }
}
