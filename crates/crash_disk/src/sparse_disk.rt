//! A disk in memory that keeps written sectors alone.
ghost use Rattle.std.specs.Prelude.{◌≡◌, ◌<◌, ◌≤◌, ◌^◌, ◌∷◌, [], IfOk, OnOk, OnErr, is_err, get_or, length, replicate, take};
ghost use Rattle.block_traits.specs.Content.{present};
ghost use Rattle.crash_disk.specs.Image.{zero_sector};
ghost use Rattle.crash_disk.specs.Replay.{replayed};
ghost use Rattle.crash_disk.specs.Writes.{written};

use crate::plan::{CallKind, FailAt, Plan};
use crate::write_log::WriteLog;
use block_traits::{Disk, DiskFailed, Event, NoMemory, Sector, sector_of};
use std::alloc::Global;

/// A disk in memory of any size, which keeps written sectors alone: the others hold zeros. It reports
/// its content and shows its events. A read looks at each write that was made.
#[derive(Drop)]
pub struct SparseDisk {
    log: WriteLog,
    plan: Plan,
    faults: u64,
}

impl SparseDisk {
    ghost use Rattle.block_traits.specs.Content.{IsEventOf};
    ghost use Rattle.crash_disk.specs.Count.{one_more};
    ghost use Rattle.crash_disk.specs.MemDisk.{after_change, change_fails, fresh, with_plan};
    ghost use Rattle.crash_disk.specs.Plan.{no_plan, with_entries};
    ghost use Rattle.crash_disk.specs.SparseDisk.{after_put, sparse_content, sparse_disk_of, sparse_state_of};

    /// A disk of so many sectors of zeros, with room for so many events.
    pub fn new(alloc: Global, sectors: u64, room: u64) -> Result<SparseDisk, NoMemory>
        requires { sectors < 2 ^ 44 }
        ensures { IfOk result (λ disk. sparse_state_of disk ≡ fresh (replicate sectors zero_sector) room) }
    {
        let log = WriteLog::new(alloc, sectors, Vec::new(alloc), room)?;
        Ok(SparseDisk::of(alloc, log))
    }

    /// A disk that had from the start what this one had after its first events. It has the same room.
    pub fn at(&self, alloc: Global, moment: usize) -> Result<SparseDisk, NoMemory>
        requires { moment ≤ length (sparse_state_of self.now).content.history }
        ensures { let content = (sparse_state_of self.now).content in
            IfOk result (λ disk. sparse_state_of disk ≡ fresh (replayed content.base (take moment content.history)) (sparse_state_of self.now).room) }
    {
        Ok(SparseDisk::of(alloc, self.log.at(alloc, moment)?))
    }

    // A disk of these sectors, of which no call was made.
    fn of(alloc: Global, log: WriteLog) -> SparseDisk
        ensures { sparse_state_of result ≡ record { content = sparse_content log; room = log.room; faults = 0; plan = no_plan } }
    {
        SparseDisk {
            log,
            plan: Plan::new(alloc),
            faults: 0,
        }
    }

    /// Makes sector `n` hold these bytes at first. The history stays.
    pub fn put(&mut self, n: u64, bytes: &Sector) -> Result<(), NoMemory>
        requires { n < (sparse_disk_of self.old).size }
        ensures ok { OnOk result (sparse_state_of self.new ≡ after_put n bytes.now (sparse_state_of self.old)) }
        ensures err { OnErr result (sparse_state_of self.new ≡ sparse_state_of self.old) }
    {
        self.log.put(n, bytes)
    }

    /// Sets which calls fail from now on, by their numbers since the disk was made. Of two entries
    /// for one call the first counts.
    pub fn fail_calls(&mut self, list: &[FailAt]) -> Result<(), NoMemory>
        ensures ok { OnOk result (sparse_state_of self.new ≡ with_plan (with_entries list.now (sparse_state_of self.old).plan) (sparse_state_of self.old)) }
        ensures err { OnErr result (sparse_state_of self.new ≡ sparse_state_of self.old) }
    {
        self.plan.set(list)
    }

    /// What was done to the disk, the oldest event first.
    pub fn history(&self) -> &[Event]
        ensures { result.now ≡ (sparse_state_of self.now).content.history }
    {
        self.log.events()
    }

    /// What was written over zeros at first.
    pub fn earlier(&self) -> &[Event]
        ensures { written (sparse_disk_of self.now).size result.now ≡ (sparse_state_of self.now).content.base }
    {
        self.log.earlier()
    }

    /// What sector `n` held at first.
    pub fn first(&self, n: u64) -> Sector
        requires { n < (sparse_disk_of self.now).size }
        ensures { result ≡ get_or (sparse_state_of self.now).content.base n [] }
    {
        self.log.first(n)
    }

    /// What stands in sector `n` now. This isn't counted as a call.
    pub fn get(&self, n: u64) -> Sector
        requires { n < (sparse_disk_of self.now).size }
        ensures { result ≡ present (sparse_state_of self.now).content n }
    {
        self.log.get(n)
    }

    /// How many events there is room for.
    pub fn room(&self) -> u64
        ensures { result ≡ (sparse_state_of self.now).room }
    {
        self.log.room()
    }

    // Appends an event, or fails, as the plan and the room say.
    fn change(&mut self, kind: CallKind, event: Event) -> Result<(), DiskFailed>
        requires { IsEventOf (sparse_disk_of self.old).size event }
        ensures answer { is_err result ≡ change_fails kind (sparse_state_of self.old) }
        ensures after { sparse_state_of self.new ≡ after_change kind event (sparse_state_of self.old) }
        ensures later { self.old.faults ≤ self.new.faults }
    {
        match (self.log.is_full(), self.plan.next(kind)) {
            (false, None) => {
                self.log.append(event);
                Ok(())
            }
            (false, Some(true)) => {
                self.log.append(event);
                Err(self.fail())
            }
            _ => Err(self.fail()),
        }
    }

    // Counts a failure.
    fn fail(&mut self) -> DiskFailed
        ensures after { self.new ≡ record self.old { faults = one_more self.old.faults } }
        ensures later { self.old.faults ≤ self.new.faults }
    {
        self.faults = self.faults.saturating_add(1);
        DiskFailed
    }
}

impl Disk for SparseDisk {
    ghost use Rattle.std.specs.Prelude.{true, ◌+◌, ◌%◌, ◌/◌};
    ghost use Rattle.block_traits.specs.Causes.{Counted};
    ghost use Rattle.block_traits.specs.Disk.{FailsIn, Gives, GivesEach, Logs, write_events};
    ghost use Rattle.block_traits.specs.EachWritten.{EachWritten};
    ghost use Rattle.block_traits.specs.Parts.{parts};
    ghost use Rattle.crash_disk.specs.MemDisk.{WritesSector, after_change, after_look, after_read, change_fails, lets_look, read_fails};
    ghost use Rattle.crash_disk.specs.SparseDisk.{sparse_disk_of, sparse_state_of};

    ghost state = { sparse_disk_of };

    fn sectors(&self) -> u64 {
        self.log.len()
    }

    fn read(&mut self, n: u64, into: &mut Sector) -> Result<(), DiskFailed>
        requires { n < (sparse_disk_of self.old).size }
        ensures bytes { OnOk result (Gives (sparse_disk_of self.old) n into.new) }
        ensures ok { OnOk result (Logs [] (sparse_disk_of self.old) (sparse_disk_of self.new)) }
        ensures err { OnErr result (FailsIn [] (sparse_disk_of self.old) (sparse_disk_of self.new)) }
        ensures asked { Counted 1 (sparse_disk_of self.old).reads (sparse_disk_of self.new).reads }
        ensures answer { is_err result ≡ read_fails (sparse_state_of self.old) }
        ensures after { sparse_state_of self.new ≡ after_read (sparse_state_of self.old) }
    {
        if self.plan.next(CallKind::Read).is_some() {
            return Err(self.fail());
        }
        *into = self.log.get(n);
        Ok(())
    }

    /// A look gives what stands now, unless the plan has a read. A read that a look serves can't fail, so if one may
    /// have to fail, each is made by itself.
    fn peek(&mut self, first: u64, into: &mut [u8]) -> bool
        requires whole { length into.old % 512 ≡ 0 }
        requires inside { first + length into.old / 512 ≤ (sparse_disk_of self.old).size }
        ensures stand { result ≡ true → GivesEach (sparse_disk_of self.old) first into.new }
        ensures stays { sparse_disk_of self.new ≡ sparse_disk_of self.old }
        ensures answer { result ≡ lets_look (sparse_state_of self.old) }
        ensures after { sparse_state_of self.new ≡ sparse_state_of self.old }
    {
        if self.plan.has_read() {
            return false;
        }
        for j in 0..into.len() / 512 {
            into[512 * j..512 * j + 512].copy_from_slice(&self.log.get(first + j as u64));
        }
        true
    }

    fn count_reads(&mut self, many: u64)
        ensures asked { Counted many (sparse_disk_of self.old).reads (sparse_disk_of self.new).reads }
        ensures logs { Logs [] (sparse_disk_of self.old) (sparse_disk_of self.new) }
        ensures after { sparse_state_of self.new ≡ after_look many (sparse_state_of self.old) }
    {
        self.plan.count_reads(many);
    }

    fn write(&mut self, n: u64, from: &Sector) -> Result<(), DiskFailed>
        requires { n < (sparse_disk_of self.old).size }
        ensures ok { OnOk result (Logs (Event.Write n from.now ∷ []) (sparse_disk_of self.old) (sparse_disk_of self.new)) }
        ensures err { OnErr result (FailsIn (Event.Write n from.now ∷ []) (sparse_disk_of self.old) (sparse_disk_of self.new)) }
        ensures unasked { (sparse_disk_of self.new).reads ≡ (sparse_disk_of self.old).reads }
        ensures answer { is_err result ≡ change_fails CallKind.Write (sparse_state_of self.old) }
        ensures after { sparse_state_of self.new ≡ after_change CallKind.Write (Event.Write n from.now) (sparse_state_of self.old) }
    {
        self.change(CallKind::Write, Event::Write { n, bytes: *from })
    }

    /// Each sector is a write of its own, in ascending order, up to the first that fails.
    fn write_sectors(&mut self, first: u64, from: &[u8]) -> Result<(), DiskFailed>
        requires whole { length from.now % 512 ≡ 0 }
        requires inside { first + length from.now / 512 ≤ (sparse_disk_of self.old).size }
        ensures ok { OnOk result (Logs (write_events first from.now) (sparse_disk_of self.old) (sparse_disk_of self.new)) }
        ensures err { OnErr result (FailsIn (write_events first from.now) (sparse_disk_of self.old) (sparse_disk_of self.new)) }
        ensures unasked { (sparse_disk_of self.new).reads ≡ (sparse_disk_of self.old).reads }
        ensures answer { EachWritten WritesSector first (parts 512 (length from.now / 512) from.now) (sparse_state_of self.old) (sparse_state_of self.new) result }
    {
        for j in 0..from.len() / 512 {
            self.write(first + j as u64, &sector_of(from, j))?;
        }
        Ok(())
    }

    fn flush(&mut self) -> Result<(), DiskFailed>
        ensures ok { OnOk result (Logs (Event.Flush ∷ []) (sparse_disk_of self.old) (sparse_disk_of self.new)) }
        ensures err { OnErr result (FailsIn (Event.Flush ∷ []) (sparse_disk_of self.old) (sparse_disk_of self.new)) }
        ensures unasked { (sparse_disk_of self.new).reads ≡ (sparse_disk_of self.old).reads }
        ensures answer { is_err result ≡ change_fails CallKind.Flush (sparse_state_of self.old) }
        ensures after { sparse_state_of self.new ≡ after_change CallKind.Flush Event.Flush (sparse_state_of self.old) }
    {
        self.change(CallKind::Flush, Event::Flush)
    }

    fn events(&self) -> Option<&[Event]> {
        Some(self.log.events())
    }

    fn wants_room(&self) -> bool {
        false
    }
}
