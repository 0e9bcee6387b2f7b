//! A file, or a device, as a disk: sector n stands at byte 512 * n.
//!
//! The invariant: the number of sectors is fixed when the disk is opened, and is below 2^44, so every byte offset is
//! below 2^53. A name that gives no image gives a disk too: it has two sectors, no file, and its every call fails. So
//! callers need no second kind of value for an image that isn't there.
//!
//! Callers may rely on each call being at most one read, write or sync of the file. A read, write or flush that fails
//! is counted once in `faults`, and nothing else is. A write asks for the file's end first, so a file that became
//! shorter isn't made longer. What a failed write leaves isn't known: it may end within a sector. Whether room was
//! wanting at the last write that failed is kept (`no_room`).
//!
//! After a failed sync every flush fails, and the file isn't asked again (`unsynced`). The system may have dropped
//! what it couldn't write, and a second sync could succeed without it.
//!
//! A file that is to be changed is locked before it is read, written or synced, so that two runs don't change one
//! image. A file that isn't locked is never written.
ghost use Rattle.std.specs.Prelude.{◌≡◌, ◌<◌, ◌≤◌, ◌^◌, ◌+◌, ◌*◌, ◌/◌, ◌%◌, ◌∷◌, [], IsErr, IsNone, MatchOption, OnErr, OnOk, false, is_err, is_ok, length, true};
ghost use Rattle.block_traits.specs.Causes.{Counted};
ghost use Rattle.block_traits.specs.Disk.{FailsIn, Gives, GivesEach, Logs, write_events};
ghost use Rattle.file_edge.specs.ImageFile.{AsksFile, CountsFault, IsUncalled, LeavesFile};
ghost use Rattle.file_edge.specs.ImageFile.{ReadAt, SyncData, looked, read_bytes};
ghost use Rattle.file_edge.specs.Opening.{AsksImage};
ghost use Rattle.file_edge.specs.Told.{EndsTold, Leaves, ReadsTold, contents, told_in};
ghost use Rattle.file_edge.specs.Writing.{WritesFile, written_as};

use crate::found::{FileId, is_free};
use crate::image_file::ImageFile;
use crate::measuring::measure;
use crate::opener::Opener;
use crate::opening::open_image;
use crate::writing::write_open;
use block_traits::{Disk, DiskFailed, Event, Sector};

/// A disk of the whole 512-byte pieces of a file, read and written in place. It reports what its file reports, shows no
/// events, and counts each failure and each read.
#[derive(Drop)]
pub struct FileDisk<F: Drop> {
    file: Option<F>,
    id: Option<FileId>,
    sectors: u64,
    faults: u64,
    reads: u64,
    unsynced: bool,
    no_room: bool,
    ghost small: { sectors < 2 ^ 44 },
}

impl<F: Drop> FileDisk<F> {
    ghost use Rattle.file_edge.specs.FileDisk.{AsksDisk, Holds, IsDiskOfFile, IsUnopened, OpensDisk, OpensFile, TellsFile};

    /// The disk of a file. A file that can't be opened gives a disk of two sectors whose every call fails. So does one
    /// that is neither a regular file nor a block device, is one of these images, or has 2^53 bytes or more. So does
    /// one that is to be changed while another run holds it. A file that is to be changed but can't be written is
    /// opened to be read, and each write fails. One that isn't to be changed is opened only to be read.
    pub fn open<O: Opener<File = F>>(
        opener: &mut O,
        images: &[FileId],
        changes: bool,
        name: &str,
    ) -> FileDisk<F>
    where
        F: ImageFile + 'static,
        ensures opens { OpensDisk (⟦<F as ImageFile>⟧) images.now changes (⟦<O as Opener>⟧) opener.old name.now result }
        ensures told { O.told opener.new ≡ O.told opener.old }
        ensures asked { AsksDisk O.asked opener.old changes name.now opener.new }
        ensures faults { result.faults ≡ 0 }
        ensures reads { result.reads ≡ 0 }
        ensures unsynced { result.unsynced ≡ false }
        ensures room { result.no_room ≡ false }
        ensures tells { TellsFile F.told result }
        ensures unopened { IsNone result.file → result.sectors ≡ 2 }
    {
        // A pipe isn't opened, since that would wait for its writer.
        match opener.find(name) {
            Ok(found) if is_free(images, &found) => {
                FileDisk::open_found(opener, images, changes, name, found.id)
            }
            Ok(found) => FileDisk::unopened(Some(found.id)),
            Err(_) => FileDisk::unopened(None),
        }
    }

    // The disk of a file that the name leads to.
    fn open_found<O: Opener<File = F>>(
        opener: &mut O,
        images: &[FileId],
        changes: bool,
        name: &str,
        id: FileId,
    ) -> FileDisk<F>
    where
        F: ImageFile + 'static,
        ensures opens { OpensFile (⟦<F as ImageFile>⟧) images.now changes (⟦<O as Opener>⟧) name.now id result }
        ensures told { O.told opener.new ≡ O.told opener.old }
        ensures asked { AsksImage O.asked opener.old changes name.now opener.new }
        ensures faults { result.faults ≡ 0 }
        ensures reads { result.reads ≡ 0 }
        ensures unsynced { result.unsynced ≡ false }
        ensures room { result.no_room ≡ false }
        ensures tells { TellsFile F.told result }
        ensures unopened { IsNone result.file → result.sectors ≡ 2 }
    {
        match open_image(opener, changes, name) {
            Ok(file) => FileDisk::of_opened(file, images, changes, id),
            Err(_) => FileDisk::unopened(Some(id)),
        }
    }

    // The disk of an open file, whose name led to the file `id`. One that isn't served is let go as it is.
    fn of_opened(file: F, images: &[FileId], changes: bool, id: FileId) -> FileDisk<F>
    where
        F: ImageFile,
        requires uncalled { IsUncalled (F.calls file) }
        requires free { F.held file ≡ false }
        ensures disk { IsDiskOfFile (⟦<F as ImageFile>⟧) images.now changes file id result }
        ensures faults { result.faults ≡ 0 }
        ensures reads { result.reads ≡ 0 }
        ensures unsynced { result.unsynced ≡ false }
        ensures room { result.no_room ≡ false }
        ensures tells { TellsFile F.told result }
        ensures unopened { IsNone result.file → result.sectors ≡ 2 }
    {
        let mut file = file;
        let seen = measure(&mut file, images, changes, id);
        match seen.length {
            Some(length) => FileDisk::of_file(file, seen.id, length),
            None => FileDisk::unopened(Some(seen.id)),
        }
    }

    /// The disk of an open file of so many bytes.
    pub fn of_file(file: F, id: FileId, length: u64) -> FileDisk<F>
    where
        F: ImageFile,
        requires { length < 2 ^ 53 }
        ensures disk { Holds file id length result }
        ensures tells { EndsTold (F.told file) length → TellsFile F.told result }
        ensures faults { result.faults ≡ 0 }
        ensures reads { result.reads ≡ 0 }
        ensures unsynced { result.unsynced ≡ false }
        ensures room { result.no_room ≡ false }
    {
        FileDisk {
            file: Some(file),
            id: Some(id),
            sectors: length / 512,
            faults: 0,
            reads: 0,
            unsynced: false,
            no_room: false,
        }
    }

    /// A disk of two sectors whose every call fails.
    pub fn unopened(id: Option<FileId>) -> FileDisk<F>
        ensures unopened { IsUnopened id result }
        ensures faults { result.faults ≡ 0 }
        ensures reads { result.reads ≡ 0 }
        ensures unsynced { result.unsynced ≡ false }
        ensures room { result.no_room ≡ false }
    {
        FileDisk {
            file: None,
            id,
            sectors: 2,
            faults: 0,
            reads: 0,
            unsynced: false,
            no_room: false,
        }
    }

    /// Which file it is, if its name led to one.
    pub fn id(&self) -> Option<FileId>
        ensures { result ≡ self.now.id }
    {
        self.id
    }

    // Counts a failure.
    fn fail(&mut self) -> DiskFailed
        ensures file { self.new.file ≡ self.old.file }
        ensures sectors { self.new.sectors ≡ self.old.sectors }
        ensures later { self.old.faults ≤ self.new.faults }
        ensures one { Counted 1 self.old.faults self.new.faults }
        ensures reads { self.new.reads ≡ self.old.reads }
        ensures unsynced { self.new.unsynced ≡ self.old.unsynced }
        ensures room { self.new.no_room ≡ self.old.no_room }
    {
        self.faults = self.faults.saturating_add(1);
        DiskFailed
    }
}

// Reads whole sectors at a byte offset of a file by one call, if a file is open.
fn read_open<F: ImageFile>(file: &mut Option<F>, at: u64, into: &mut [u8]) -> Result<(), DiskFailed>
    requires at { at % 512 ≡ 0 }
    requires whole { length into.old % 512 ≡ 0 }
    ensures placed { MatchOption file.old (IsErr result) (λ file. F.reads file at (read_bytes result into.new)) }
    ensures asks { AsksFile F.calls (ReadAt at (length into.old)) file.old file.new }
    ensures bytes { OnOk result (ReadsTold (told_in F.told file.old) at into.new) }
    ensures told { contents (told_in F.told file.new) ≡ contents (told_in F.told file.old) }
{
    match file {
        Some(file) => match file.read_bytes(at, into) {
            Ok(()) => Ok(()),
            Err(_) => Err(DiskFailed),
        },
        None => Err(DiskFailed),
    }
}

// Brings what was written to a file to the disk, if one is open.
#[tactic(auto, using(crate::proofs::Left::leaves_nothing))]
fn sync_open<F: ImageFile>(file: &mut Option<F>) -> Result<(), DiskFailed>
    ensures synced { MatchOption file.old (IsErr result) (λ file. F.syncs file (is_ok result)) }
    ensures asks { AsksFile F.calls SyncData file.old file.new }
    ensures told { Leaves (Event.Flush ∷ []) 0 (is_ok result)
        (contents (told_in F.told file.old)) (contents (told_in F.told file.new)) }
{
    match file {
        Some(file) => match file.sync() {
            Ok(()) => Ok(()),
            Err(_) => Err(DiskFailed),
        },
        None => Err(DiskFailed),
    }
}

/// Sector n stands at byte 512 * n of the file. A file that isn't opened is a disk whose every call fails.
impl<F: ImageFile + Drop> Disk for FileDisk<F> {
    ghost use Rattle.file_edge.specs.FileDisk.{file_disk_state};

    ghost state = { file_disk_state F.told };

    ghost wants_room = { λ d. d.no_room };

    fn sectors(&self) -> u64 {
        self.sectors
    }

    fn read(&mut self, n: u64, into: &mut Sector) -> Result<(), DiskFailed>
        requires { n < (file_disk_state F.told self.old).size }
        ensures bytes { OnOk result (Gives (file_disk_state F.told self.old) n into.new) }
        ensures ok { OnOk result (Logs [] (file_disk_state F.told self.old) (file_disk_state F.told self.new)) }
        ensures err { OnErr result (FailsIn [] (file_disk_state F.told self.old) (file_disk_state F.told self.new)) }
        ensures faults { CountsFault result self.old.faults self.new.faults }
        ensures asked { Counted 1 self.old.reads self.new.reads }
        ensures placed { MatchOption self.old.file (IsErr result)
            (λ file. F.reads file (512 * n) (read_bytes result into.new)) }
        ensures asks { AsksFile F.calls (ReadAt (512 * n) 512) self.old.file self.new.file }
        ensures unsynced { self.new.unsynced ≡ self.old.unsynced }
        ensures room { self.new.no_room ≡ self.old.no_room }
    {
        self.reads = self.reads.saturating_add(1);
        match read_open(&mut self.file, 512 * n, into) {
            Ok(()) => Ok(()),
            Err(_) => Err(self.fail()),
        }
    }

    /// Besides what a disk does: a look is one read of the file, of all the bytes.
    fn peek(&mut self, first: u64, into: &mut [u8]) -> bool
        requires whole { length into.old % 512 ≡ 0 }
        requires inside { first + length into.old / 512 ≤ (file_disk_state F.told self.old).size }
        ensures stand { result ≡ true → GivesEach (file_disk_state F.told self.old) first into.new }
        ensures stays { file_disk_state F.told self.new ≡ file_disk_state F.told self.old }
        ensures placed { MatchOption self.old.file (result ≡ false)
            (λ file. F.reads file (512 * first) (looked result into.new)) }
        ensures asks { AsksFile F.calls (ReadAt (512 * first) (length into.old)) self.old.file self.new.file }
        ensures unsynced { self.new.unsynced ≡ self.old.unsynced }
        ensures room { self.new.no_room ≡ self.old.no_room }
    {
        match read_open(&mut self.file, 512 * first, into) {
            Ok(()) => true,
            Err(_) => false,
        }
    }

    fn count_reads(&mut self, many: u64)
        ensures asked { Counted many self.old.reads self.new.reads }
        ensures logs { Logs [] (file_disk_state F.told self.old) (file_disk_state F.told self.new) }
        ensures file { self.new.file ≡ self.old.file }
        ensures faults { self.new.faults ≡ self.old.faults }
        ensures unsynced { self.new.unsynced ≡ self.old.unsynced }
        ensures room { self.new.no_room ≡ self.old.no_room }
    {
        self.reads = self.reads.saturating_add(many);
    }

    /// Besides what a disk does: if the file became shorter, what stands beyond its end isn't written.
    fn write(&mut self, n: u64, from: &Sector) -> Result<(), DiskFailed>
        requires { n < (file_disk_state F.told self.old).size }
        ensures ok { OnOk result (Logs (Event.Write n from.now ∷ [])
            (file_disk_state F.told self.old) (file_disk_state F.told self.new)) }
        ensures err { OnErr result (FailsIn (Event.Write n from.now ∷ [])
            (file_disk_state F.told self.old) (file_disk_state F.told self.new)) }
        ensures faults { CountsFault result self.old.faults self.new.faults }
        ensures unasked { self.new.reads ≡ self.old.reads }
        ensures placed { WritesFile (⟦<F as ImageFile>⟧) (512 * n) from.now (written_as result self.new.no_room)
            self.old.file self.new.file }
        ensures unsynced { self.new.unsynced ≡ self.old.unsynced }
        ensures room { OnOk result (self.new.no_room ≡ self.old.no_room) }
    {
        match write_open(&mut self.file, 512 * n, from) {
            Ok(()) => Ok(()),
            Err(why) => {
                self.no_room = why.is_for_room();
                Err(self.fail())
            }
        }
    }

    /// Besides what a disk does: the sectors are one write of the file. If it became shorter, so that one of them
    /// stands beyond its end, none is written.
    fn write_sectors(&mut self, first: u64, from: &[u8]) -> Result<(), DiskFailed>
        requires whole { length from.now % 512 ≡ 0 }
        requires inside { first + length from.now / 512 ≤ (file_disk_state F.told self.old).size }
        ensures ok { OnOk result (Logs (write_events first from.now)
            (file_disk_state F.told self.old) (file_disk_state F.told self.new)) }
        ensures err { OnErr result (FailsIn (write_events first from.now)
            (file_disk_state F.told self.old) (file_disk_state F.told self.new)) }
        ensures faults { CountsFault result self.old.faults self.new.faults }
        ensures unasked { self.new.reads ≡ self.old.reads }
        ensures placed { WritesFile (⟦<F as ImageFile>⟧) (512 * first) from.now (written_as result self.new.no_room)
            self.old.file self.new.file }
        ensures unsynced { self.new.unsynced ≡ self.old.unsynced }
        ensures room { OnOk result (self.new.no_room ≡ self.old.no_room) }
    {
        match write_open(&mut self.file, 512 * first, from) {
            Ok(()) => Ok(()),
            Err(why) => {
                self.no_room = why.is_for_room();
                Err(self.fail())
            }
        }
    }

    /// Besides what a disk does: after a failed flush each one fails, since the system may have dropped what was
    /// written.
    fn flush(&mut self) -> Result<(), DiskFailed>
        ensures ok { OnOk result (Logs (Event.Flush ∷ [])
            (file_disk_state F.told self.old) (file_disk_state F.told self.new)) }
        ensures err { OnErr result (FailsIn (Event.Flush ∷ [])
            (file_disk_state F.told self.old) (file_disk_state F.told self.new)) }
        ensures faults { CountsFault result self.old.faults self.new.faults }
        ensures unasked { self.new.reads ≡ self.old.reads }
        ensures synced { self.old.unsynced ≡ false →
            MatchOption self.old.file (IsErr result) (λ file. F.syncs file (is_ok result)) }
        ensures stays { self.old.unsynced ≡ true → IsErr result }
        ensures unsynced { self.new.unsynced ≡ is_err result }
        ensures asks { self.old.unsynced ≡ false → AsksFile F.calls SyncData self.old.file self.new.file }
        ensures kept { self.old.unsynced ≡ true → LeavesFile F.calls self.old.file self.new.file }
        ensures room { self.new.no_room ≡ self.old.no_room }
    {
        if self.unsynced {
            return Err(self.fail());
        }
        match sync_open(&mut self.file) {
            Ok(()) => Ok(()),
            Err(_) => {
                self.unsynced = true;
                Err(self.fail())
            }
        }
    }

    fn events(&self) -> Option<&[Event]> {
        None
    }

    fn wants_room(&self) -> bool {
        self.no_room
    }
}
