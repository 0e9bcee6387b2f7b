//! Why logical sectors weren't read or opened.
use thiserror::Error;

/// Why logical sectors weren't read. No call of this crate returns `OutOfRange`: their callers know the end.
#[derive(Clone, Copy, Debug, PartialEq, Eq, Error)]
pub enum ReadFault {
    /// The request passes the end: its first sector, how many sectors it asks for, and how many there are.
    #[error("sectors from {sector} on, {count} of them, pass the end at {media}")]
    OutOfRange { sector: u64, count: u64, media: u64 },
    /// The device failed.
    #[error("the device failed")]
    DeviceFault,
    /// The tag of the unit at this byte offset of the device differs.
    #[error("the tag at byte {offset} differs")]
    Integrity { offset: u64 },
}

/// The tag of the unit at this byte offset of the device isn't that of its ciphertext.
#[derive(Clone, Copy, Debug, PartialEq, Eq, Error)]
#[error("the tag at byte {offset} differs")]
pub struct BadUnit {
    /// The unit's byte offset on the device.
    pub offset: u64,
}
