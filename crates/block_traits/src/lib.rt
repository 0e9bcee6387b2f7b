//! The outside world, as the crates above see it: disks of 512-byte sectors, the place of a
//! disk's metadata, sources and sinks of bytes, a cabinet of files, and entropy.
//!
//! Each trait has ghost members for what an object reports of itself: its content, if it reports that, and how often it
//! has failed. An object that reports a failure has counted it.
#![tactic(auto)]

mod byte_list;
mod cabinet;
mod disk;
mod faults;
mod laws;
mod meta_place;
mod overwriting;
mod streams;

pub use byte_list::ByteList;
pub use cabinet::{Cabinet, LoadFault, StoreFault};
pub use disk::{Disk, DiskFailed, Event, Sector, sector_of};
pub use faults::NoMemory;
pub use laws::{
    crash_image_is_torn, flush_keeps_the_present, kept_values_are_sectors,
    last_kept_value_is_present, torn_image_is_altered,
};
pub use meta_place::{LastSector, MetaPlace, store_last};
pub use overwriting::{Pass, overwrite, overwrite_last, passes};
pub use streams::{Entropy, EntropyFailed, Sink, SinkFailed, Source, SourceFailed};
