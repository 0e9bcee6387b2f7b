//! The edge over the system's own files and streams, a store over files that fail, and a file that reports what it
//! holds.
#![tactic(auto)]

mod change;
mod disk_file;
#[cfg(test)]
mod disks;
#[cfg(test)]
mod files;
#[cfg(test)]
mod mem_files;
#[cfg(test)]
mod mem_folder;
#[cfg(test)]
mod seen_disk;
#[cfg(test)]
mod stores;
#[cfg(test)]
mod streams;
#[cfg(test)]
mod system_files;
#[cfg(test)]
mod told;

pub use change::Change;
pub use disk_file::DiskFile;
