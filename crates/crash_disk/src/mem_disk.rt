//! A disk in memory, which shows its events and fails at the calls that a list names.
ghost use Rattle.std.specs.Prelude.{◌≡◌, ◌<◌, ◌≤◌, ◌^◌, ◌/◌, ◌∷◌, [], IfOk, IsOk, OnOk, OnErr, is_err, All, length, replicate, take};
ghost use Rattle.crash_disk.specs.Image.{sectors_of, zero_sector};
ghost use Rattle.crash_disk.specs.Replay.{replayed};

use crate::image::{image_sectors, zero_sectors};
use crate::plan::{CallKind, FailAt, Plan};
use crate::sector_log::SectorLog;
use block_traits::{Disk, DiskFailed, Event, NoMemory, Sector, sector_of};
use std::alloc::{AllocError, Global};

/// A disk in memory. It reports its content and shows its events.
#[derive(Drop)]
pub struct MemDisk {
    log: SectorLog,
    plan: Plan,
    faults: u64,
}

impl MemDisk {
    ghost use Rattle.block_traits.specs.Content.{IsEventOf, IsSector};
    ghost use Rattle.crash_disk.specs.Count.{one_more};
    ghost use Rattle.crash_disk.specs.MemDisk.{after_alter, after_change, change_fails, mem_disk_of, fresh, mem_state_of, with_plan};
    ghost use Rattle.crash_disk.specs.Plan.{with_entries};

    /// A disk of so many sectors of zeros, with room for so many events.
    pub fn new(alloc: Global, sectors: u64, room: u64) -> Result<MemDisk, NoMemory>
        requires { sectors < 2 ^ 44 }
        ensures { IfOk result (λ disk. mem_state_of disk ≡ fresh (replicate sectors zero_sector) room) }
    {
        MemDisk::from_sectors(alloc, zero_sectors(alloc, sectors)?, room)
    }

    /// A disk that has the whole 512-byte pieces of an image, with room for so many events. Bytes after the last whole
    /// piece are dropped.
    pub fn from_image(alloc: Global, image: &[u8], room: u64) -> Result<MemDisk, NoMemory>
        requires { length image.now / 512 < 2 ^ 44 }
        ensures { IfOk result (λ disk. mem_state_of disk ≡ fresh (sectors_of image.now) room) }
    {
        MemDisk::from_sectors(alloc, image_sectors(alloc, image)?, room)
    }

    /// Sets which calls fail from now on, by their numbers since the disk was made. Of two entries
    /// for one call the first counts.
    pub fn fail_calls(&mut self, list: &[FailAt]) -> Result<(), NoMemory>
        ensures ok { OnOk result (mem_state_of self.new ≡ with_plan (with_entries list.now (mem_state_of self.old).plan) (mem_state_of self.old)) }
        ensures err { OnErr result (mem_state_of self.new ≡ mem_state_of self.old) }
    {
        self.plan.set(list)
    }

    /// Makes what stands on the disk now what it held at first, but for sector `n`, which holds these
    /// bytes. The history is then empty; the counts of calls and faults, and the calls that fail,
    /// stay. Takes no memory.
    pub fn alter(&mut self, n: u64, bytes: &Sector) -> Result<(), NoMemory>
        requires { n < (mem_disk_of self.old).size }
        ensures ok { IsOk result }
        ensures after { mem_state_of self.new ≡ after_alter n bytes.now (mem_state_of self.old) }
    {
        self.log.alter(n, bytes);
        Ok(())
    }

    /// What was done to the disk, the oldest event first.
    pub fn history(&self) -> &[Event]
        ensures { result.now ≡ (mem_state_of self.now).content.history }
    {
        self.log.events()
    }

    /// How often the disk has failed.
    pub fn faults(&self) -> u64
        ensures { result ≡ (mem_state_of self.now).faults }
    {
        self.faults
    }

    // What the sectors held at first.
    pub(crate) fn base(&self) -> &[Sector]
        ensures base { result.now ≡ (mem_state_of self.now).content.base }
        ensures small { length result.now < 2 ^ 44 }
    {
        self.log.base()
    }

    // How many events there is room for.
    pub(crate) fn room(&self) -> u64
        ensures { result ≡ (mem_state_of self.now).room }
    {
        self.log.room()
    }

    // What the sectors held after the first events.
    pub(crate) fn sectors_at(&self, alloc: Global, moment: usize) -> Result<Vec<Sector>, AllocError>
        requires { moment ≤ length (mem_state_of self.now).content.history }
        ensures { let content = (mem_state_of self.now).content in
            IfOk result (λ image. image.items ≡ replayed content.base (take moment content.history)) }
    {
        self.log.at(alloc, moment)
    }

    // A disk that had these sectors from the start.
    pub(crate) fn from_sectors(
        alloc: Global,
        base: Vec<Sector>,
        room: u64,
    ) -> Result<MemDisk, NoMemory>
        requires small { length base.items < 2 ^ 44 }
        requires sectors { All IsSector base.items }
        ensures { IfOk result (λ disk. mem_state_of disk ≡ fresh base.items room) }
    {
        let log = SectorLog::new(alloc, base, room)?;
        Ok(MemDisk {
            log,
            plan: Plan::new(alloc),
            faults: 0,
        })
    }

    // Appends an event, or fails, as the plan and the room say.
    fn change(&mut self, kind: CallKind, event: Event) -> Result<(), DiskFailed>
        requires { IsEventOf (mem_disk_of self.old).size event }
        ensures answer { is_err result ≡ change_fails kind (mem_state_of self.old) }
        ensures after { mem_state_of self.new ≡ after_change kind event (mem_state_of self.old) }
        ensures later { self.old.faults ≤ self.new.faults }
    {
        match (self.log.is_full(), self.plan.next(kind)) {
            (false, None) => {
                self.log.append(event);
                Ok(())
            }
            (false, Some(true)) => {
                self.log.append(event);
                Err(self.fail())
            }
            _ => Err(self.fail()),
        }
    }

    // Counts a failure.
    fn fail(&mut self) -> DiskFailed
        ensures after { self.new ≡ record self.old { faults = one_more self.old.faults } }
        ensures later { self.old.faults ≤ self.new.faults }
    {
        self.faults = self.faults.saturating_add(1);
        DiskFailed
    }
}

impl Disk for MemDisk {
    ghost use Rattle.std.specs.Prelude.{true, ◌+◌, ◌%◌};
    ghost use Rattle.block_traits.specs.Causes.{Counted};
    ghost use Rattle.block_traits.specs.Disk.{FailsIn, Gives, GivesEach, Logs, write_events};
    ghost use Rattle.block_traits.specs.EachWritten.{EachWritten};
    ghost use Rattle.block_traits.specs.Parts.{parts};
    ghost use Rattle.crash_disk.specs.MemDisk.{WritesSector, after_change, after_look, after_read, change_fails, lets_look, mem_disk_of, read_fails, mem_state_of};

    ghost state = { mem_disk_of };

    fn sectors(&self) -> u64 {
        self.log.len()
    }

    fn read(&mut self, n: u64, into: &mut Sector) -> Result<(), DiskFailed>
        requires { n < (mem_disk_of self.old).size }
        ensures bytes { OnOk result (Gives (mem_disk_of self.old) n into.new) }
        ensures ok { OnOk result (Logs [] (mem_disk_of self.old) (mem_disk_of self.new)) }
        ensures err { OnErr result (FailsIn [] (mem_disk_of self.old) (mem_disk_of self.new)) }
        ensures asked { Counted 1 (mem_disk_of self.old).reads (mem_disk_of self.new).reads }
        ensures answer { is_err result ≡ read_fails (mem_state_of self.old) }
        ensures after { mem_state_of self.new ≡ after_read (mem_state_of self.old) }
    {
        if self.plan.next(CallKind::Read).is_some() {
            return Err(self.fail());
        }
        *into = *self.log.get(n);
        Ok(())
    }

    /// A look gives what stands now, unless the plan has a read. A read that a look serves can't fail, so if one may
    /// have to fail, each is made by itself.
    fn peek(&mut self, first: u64, into: &mut [u8]) -> bool
        requires whole { length into.old % 512 ≡ 0 }
        requires inside { first + length into.old / 512 ≤ (mem_disk_of self.old).size }
        ensures stand { result ≡ true → GivesEach (mem_disk_of self.old) first into.new }
        ensures stays { mem_disk_of self.new ≡ mem_disk_of self.old }
        ensures answer { result ≡ lets_look (mem_state_of self.old) }
        ensures after { mem_state_of self.new ≡ mem_state_of self.old }
    {
        if self.plan.has_read() {
            return false;
        }
        for j in 0..into.len() / 512 {
            into[512 * j..512 * j + 512].copy_from_slice(self.log.get(first + j as u64));
        }
        true
    }

    fn count_reads(&mut self, many: u64)
        ensures asked { Counted many (mem_disk_of self.old).reads (mem_disk_of self.new).reads }
        ensures logs { Logs [] (mem_disk_of self.old) (mem_disk_of self.new) }
        ensures after { mem_state_of self.new ≡ after_look many (mem_state_of self.old) }
    {
        self.plan.count_reads(many);
    }

    fn write(&mut self, n: u64, from: &Sector) -> Result<(), DiskFailed>
        requires { n < (mem_disk_of self.old).size }
        ensures ok { OnOk result (Logs (Event.Write n from.now ∷ []) (mem_disk_of self.old) (mem_disk_of self.new)) }
        ensures err { OnErr result (FailsIn (Event.Write n from.now ∷ []) (mem_disk_of self.old) (mem_disk_of self.new)) }
        ensures unasked { (mem_disk_of self.new).reads ≡ (mem_disk_of self.old).reads }
        ensures answer { is_err result ≡ change_fails CallKind.Write (mem_state_of self.old) }
        ensures after { mem_state_of self.new ≡ after_change CallKind.Write (Event.Write n from.now) (mem_state_of self.old) }
    {
        self.change(CallKind::Write, Event::Write { n, bytes: *from })
    }

    /// Each sector is a write of its own, in ascending order, up to the first that fails.
    fn write_sectors(&mut self, first: u64, from: &[u8]) -> Result<(), DiskFailed>
        requires whole { length from.now % 512 ≡ 0 }
        requires inside { first + length from.now / 512 ≤ (mem_disk_of self.old).size }
        ensures ok { OnOk result (Logs (write_events first from.now) (mem_disk_of self.old) (mem_disk_of self.new)) }
        ensures err { OnErr result (FailsIn (write_events first from.now) (mem_disk_of self.old) (mem_disk_of self.new)) }
        ensures unasked { (mem_disk_of self.new).reads ≡ (mem_disk_of self.old).reads }
        ensures answer { EachWritten WritesSector first (parts 512 (length from.now / 512) from.now) (mem_state_of self.old) (mem_state_of self.new) result }
    {
        for j in 0..from.len() / 512 {
            self.write(first + j as u64, &sector_of(from, j))?;
        }
        Ok(())
    }

    fn flush(&mut self) -> Result<(), DiskFailed>
        ensures ok { OnOk result (Logs (Event.Flush ∷ []) (mem_disk_of self.old) (mem_disk_of self.new)) }
        ensures err { OnErr result (FailsIn (Event.Flush ∷ []) (mem_disk_of self.old) (mem_disk_of self.new)) }
        ensures unasked { (mem_disk_of self.new).reads ≡ (mem_disk_of self.old).reads }
        ensures answer { is_err result ≡ change_fails CallKind.Flush (mem_state_of self.old) }
        ensures after { mem_state_of self.new ≡ after_change CallKind.Flush Event.Flush (mem_state_of self.old) }
    {
        self.change(CallKind::Flush, Event::Flush)
    }

    fn events(&self) -> Option<&[Event]> {
        Some(self.log.events())
    }

    fn wants_room(&self) -> bool {
        false
    }
}
