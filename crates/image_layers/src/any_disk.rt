//! A disk of any kind is a disk.
ghost use Rattle.std.specs.Prelude.{◌≡◌, ◌+◌, ◌/◌, ◌%◌, ◌<◌, ◌≤◌, ◌∷◌, [], OnOk, OnErr, length, true};
ghost use Rattle.block_traits.specs.Causes.{Counted};
ghost use Rattle.block_traits.specs.Disk.{FailsIn, Gives, GivesEach, Logs, write_events};
ghost use Rattle.image_layers.specs.Calls.{ImageCounts, ImageFlushes, ImageLooks, ImageReads, ImageWrites, ImageWritesAll};
ghost use Rattle.image_layers.specs.Images.{image_disk_state, image_wants_room};

use crate::ImageDisk;
use block_traits::{Disk, DiskFailed, Event, Sector};
use file_edge::ImageFile;

/// The disk of an image is the disk in it: besides what a disk does, each call, also a look, does what that disk says
/// of it.
impl<F: ImageFile + Drop> Disk for ImageDisk<F> {
    ghost state = { λ d. image_disk_state d };

    ghost wants_room = { λ d. image_wants_room d };

    fn sectors(&self) -> u64 {
        match self {
            ImageDisk::Plain(disk) => disk.sectors(),
            ImageDisk::Behind(disk) => disk.sectors(),
            ImageDisk::Join(disk) => disk.sectors(),
        }
    }

    fn read(&mut self, n: u64, into: &mut Sector) -> Result<(), DiskFailed>
        requires { n < (image_disk_state self.old).size }
        ensures bytes { OnOk result (Gives (image_disk_state self.old) n into.new) }
        ensures ok { OnOk result (Logs []
            (image_disk_state self.old) (image_disk_state self.new)) }
        ensures err { OnErr result (FailsIn []
            (image_disk_state self.old) (image_disk_state self.new)) }
        ensures asked { Counted 1 (image_disk_state self.old).reads (image_disk_state self.new).reads }
        ensures answer { ImageReads (⟦<F as ImageFile>⟧) n into.new self.old self.new result }
    {
        match self {
            ImageDisk::Plain(disk) => disk.read(n, into),
            ImageDisk::Behind(disk) => disk.read(n, into),
            ImageDisk::Join(disk) => disk.read(n, into),
        }
    }

    fn peek(&mut self, first: u64, into: &mut [u8]) -> bool
        requires whole { length into.old % 512 ≡ 0 }
        requires inside { first + length into.old / 512 ≤ (image_disk_state self.old).size }
        ensures stand { result ≡ true → GivesEach (image_disk_state self.old) first into.new }
        ensures stays { image_disk_state self.new ≡ image_disk_state self.old }
        ensures answer { ImageLooks (⟦<F as ImageFile>⟧) first (length into.old) into.new self.old self.new result }
    {
        match self {
            ImageDisk::Plain(disk) => disk.peek(first, into),
            // A layer lets nothing be looked at.
            ImageDisk::Behind(_) | ImageDisk::Join(_) => false,
        }
    }

    fn count_reads(&mut self, many: u64)
        ensures asked { Counted many (image_disk_state self.old).reads (image_disk_state self.new).reads }
        ensures logs { Logs [] (image_disk_state self.old) (image_disk_state self.new) }
        ensures answer { ImageCounts (⟦<F as ImageFile>⟧) many self.old self.new }
    {
        match self {
            ImageDisk::Plain(disk) => disk.count_reads(many),
            ImageDisk::Behind(disk) => disk.count_reads(many),
            ImageDisk::Join(disk) => disk.count_reads(many),
        }
    }

    fn write(&mut self, n: u64, from: &Sector) -> Result<(), DiskFailed>
        requires { n < (image_disk_state self.old).size }
        ensures ok { OnOk result (Logs (Event.Write n from.now ∷ [])
            (image_disk_state self.old) (image_disk_state self.new)) }
        ensures err { OnErr result (FailsIn (Event.Write n from.now ∷ [])
            (image_disk_state self.old) (image_disk_state self.new)) }
        ensures unasked { (image_disk_state self.new).reads ≡ (image_disk_state self.old).reads }
        ensures answer { ImageWrites (⟦<F as ImageFile>⟧) n from.now self.old self.new result }
    {
        match self {
            ImageDisk::Plain(disk) => disk.write(n, from),
            ImageDisk::Behind(disk) => disk.write(n, from),
            ImageDisk::Join(disk) => disk.write(n, from),
        }
    }

    fn write_sectors(&mut self, first: u64, from: &[u8]) -> Result<(), DiskFailed>
        requires whole { length from.now % 512 ≡ 0 }
        requires inside { first + length from.now / 512 ≤ (image_disk_state self.old).size }
        ensures ok { OnOk result (Logs (write_events first from.now)
            (image_disk_state self.old) (image_disk_state self.new)) }
        ensures err { OnErr result (FailsIn (write_events first from.now)
            (image_disk_state self.old) (image_disk_state self.new)) }
        ensures unasked { (image_disk_state self.new).reads ≡ (image_disk_state self.old).reads }
        ensures answer { ImageWritesAll (⟦<F as ImageFile>⟧) first from.now self.old self.new result }
    {
        match self {
            ImageDisk::Plain(disk) => disk.write_sectors(first, from),
            ImageDisk::Behind(disk) => disk.write_sectors(first, from),
            ImageDisk::Join(disk) => disk.write_sectors(first, from),
        }
    }

    fn flush(&mut self) -> Result<(), DiskFailed>
        ensures ok { OnOk result (Logs (Event.Flush ∷ [])
            (image_disk_state self.old) (image_disk_state self.new)) }
        ensures err { OnErr result (FailsIn (Event.Flush ∷ [])
            (image_disk_state self.old) (image_disk_state self.new)) }
        ensures unasked { (image_disk_state self.new).reads ≡ (image_disk_state self.old).reads }
        ensures answer { ImageFlushes (⟦<F as ImageFile>⟧) self.old self.new result }
    {
        match self {
            ImageDisk::Plain(disk) => disk.flush(),
            ImageDisk::Behind(disk) => disk.flush(),
            ImageDisk::Join(disk) => disk.flush(),
        }
    }

    fn events(&self) -> Option<&[Event]> {
        match self {
            ImageDisk::Plain(disk) => disk.events(),
            ImageDisk::Behind(disk) => disk.events(),
            ImageDisk::Join(disk) => disk.events(),
        }
    }

    fn wants_room(&self) -> bool {
        match self {
            ImageDisk::Plain(disk) => disk.wants_room(),
            ImageDisk::Behind(disk) => disk.wants_room(),
            ImageDisk::Join(disk) => disk.wants_room(),
        }
    }
}
