//! The disk of a drawer of a run, by what stands between the drawer and the disks of the case.
ghost use Rattle.geli_cases.specs.RunDisk.{run_disk_state};

use crate::traced_disk::TracedDisk;
use block_traits::{Disk, DiskFailed, Event, Sector};
use disk_layers::{Concat, WriteBehind};
use provider_disk::ProviderDisk;

/// The disk of a drawer of a run.
#[derive(Drop)]
pub enum RunDisk {
    /// A disk of the case.
    Plain(TracedDisk),
    /// A disk of the case for which writes wait.
    Behind(WriteBehind<TracedDisk>),
    /// Two disks of the case as one.
    Join(Concat<TracedDisk, TracedDisk>),
    /// The provider on a disk of the case.
    Provider(ProviderDisk<TracedDisk>),
}

/// Each call is one of the variant's disk.
impl Disk for RunDisk {
    ghost state = { run_disk_state };

    fn sectors(&self) -> u64 {
        match self {
            RunDisk::Plain(disk) => disk.sectors(),
            RunDisk::Behind(disk) => disk.sectors(),
            RunDisk::Join(disk) => disk.sectors(),
            RunDisk::Provider(disk) => disk.sectors(),
        }
    }

    fn read(&mut self, n: u64, into: &mut Sector) -> Result<(), DiskFailed> {
        match self {
            RunDisk::Plain(disk) => disk.read(n, into),
            RunDisk::Behind(disk) => disk.read(n, into),
            RunDisk::Join(disk) => disk.read(n, into),
            RunDisk::Provider(disk) => disk.read(n, into),
        }
    }

    fn peek(&mut self, first: u64, into: &mut [u8]) -> bool {
        match self {
            RunDisk::Plain(disk) => disk.peek(first, into),
            RunDisk::Behind(disk) => disk.peek(first, into),
            RunDisk::Join(disk) => disk.peek(first, into),
            RunDisk::Provider(disk) => disk.peek(first, into),
        }
    }

    fn count_reads(&mut self, many: u64) {
        match self {
            RunDisk::Plain(disk) => disk.count_reads(many),
            RunDisk::Behind(disk) => disk.count_reads(many),
            RunDisk::Join(disk) => disk.count_reads(many),
            RunDisk::Provider(disk) => disk.count_reads(many),
        }
    }

    fn write(&mut self, n: u64, from: &Sector) -> Result<(), DiskFailed> {
        match self {
            RunDisk::Plain(disk) => disk.write(n, from),
            RunDisk::Behind(disk) => disk.write(n, from),
            RunDisk::Join(disk) => disk.write(n, from),
            RunDisk::Provider(disk) => disk.write(n, from),
        }
    }

    fn write_sectors(&mut self, first: u64, from: &[u8]) -> Result<(), DiskFailed> {
        match self {
            RunDisk::Plain(disk) => disk.write_sectors(first, from),
            RunDisk::Behind(disk) => disk.write_sectors(first, from),
            RunDisk::Join(disk) => disk.write_sectors(first, from),
            RunDisk::Provider(disk) => disk.write_sectors(first, from),
        }
    }

    fn flush(&mut self) -> Result<(), DiskFailed> {
        match self {
            RunDisk::Plain(disk) => disk.flush(),
            RunDisk::Behind(disk) => disk.flush(),
            RunDisk::Join(disk) => disk.flush(),
            RunDisk::Provider(disk) => disk.flush(),
        }
    }

    fn events(&self) -> Option<&[Event]> {
        match self {
            RunDisk::Plain(disk) => disk.events(),
            RunDisk::Behind(disk) => disk.events(),
            RunDisk::Join(disk) => disk.events(),
            RunDisk::Provider(disk) => disk.events(),
        }
    }

    fn wants_room(&self) -> bool {
        false
    }
}
