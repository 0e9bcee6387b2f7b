//! The outside world in memory: a disk that shows its events, a source, a sink, a cabinet of files, and entropy. Each
//! reports its content. It fails at the calls that it was told to fail at, if it has no room, or if more is asked for
//! than is left, and at no other call.
#![tactic(auto)]

mod calls;
mod image;
mod mem_cabinet;
mod mem_disk;
mod mem_entropy;
mod mem_sink;
mod mem_source;
mod plan;
mod sector_log;
mod sparse_crash;
mod sparse_disk;
mod survivor;
mod write_log;

pub use mem_cabinet::MemCabinet;
pub use mem_disk::MemDisk;
pub use mem_entropy::MemEntropy;
pub use mem_sink::MemSink;
pub use mem_source::MemSource;
pub use plan::{CallKind, FailAt};
pub use sparse_crash::sparse_survivor;
pub use sparse_disk::SparseDisk;
pub use survivor::{Pick, SurvivorFault, Torn, survivor_torn, survivor_whole};
