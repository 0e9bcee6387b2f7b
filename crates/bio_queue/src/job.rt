//! What is asked of a provider, and what was done.

/// What is asked of a provider.
#[derive(Clone, Copy)]
pub enum Job {
    /// Logical sectors from number `sector` on are read.
    Read { sector: u64, count: u32 },
    /// Logical sectors from number `sector` on are written.
    Write { sector: u64, count: u32 },
    /// The disk is flushed.
    Flush,
}

/// What a finished request gave.
#[derive(Clone, Copy)]
pub enum Reaped {
    /// So many bytes were read.
    Bytes { length: u32 },
    /// The sectors were written.
    Written,
    /// The disk was flushed.
    Flushed,
}
