//! Why a call of a queue was refused.
use provider::OutOfRange;
use thiserror::Error;

/// Why a job wasn't submitted.
#[derive(Clone, Copy, Debug, PartialEq, Eq, Error)]
pub enum SubmitFault {
    /// The provider is read-only.
    #[error("the provider is read-only")]
    ReadOnly,
    /// The job passes the end: its first sector, how many sectors it has, and how many there are.
    #[error("sectors from {sector} on, {count} of them, pass the end at {media}")]
    OutOfRange { sector: u64, count: u64, media: u64 },
    /// As many requests are open as may be.
    #[error("as many requests are open as may be")]
    QueueFull,
    /// There was no memory.
    #[error("no memory")]
    NoMemory,
}

impl From<OutOfRange> for SubmitFault {
    ghost use Rattle.std.specs.Prelude.{◌≡◌};
    ghost use Rattle.bio_queue.specs.declared.faults.SubmitFault.TheVariants as submit;

    ghost from_gives = { λ past fault. fault ≡ submit.OutOfRange past.sector past.count past.media };

    fn from(past: OutOfRange) -> SubmitFault {
        let OutOfRange {
            sector,
            count,
            media,
        } = past;
        SubmitFault::OutOfRange {
            sector,
            count,
            media,
        }
    }
}

/// Why a request took no step.
#[derive(Clone, Copy, Debug, PartialEq, Eq, Error)]
pub enum StepFault {
    /// No open request has the tag.
    #[error("no open request has the tag")]
    NoRequest,
    /// No unit of the request is left.
    #[error("no unit of the request is left")]
    AllDone,
    /// The device failed.
    #[error("the device failed")]
    DeviceFault,
}

/// Why a request gave nothing.
#[derive(Clone, Copy, Debug, PartialEq, Eq, Error)]
pub enum ReapFault {
    /// No open request has the tag.
    #[error("no open request has the tag")]
    NoRequest,
    /// So many units of the request are left.
    #[error("{left} units of the request are left")]
    NotDone { left: u64 },
    /// The tag of the unit at this byte offset of the device differs.
    #[error("the tag at byte {offset} differs")]
    Integrity { offset: u64 },
}
