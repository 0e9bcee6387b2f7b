//! Two disks as one, the second after the first.
ghost use Rattle.std.specs.Prelude.{◌≡◌, ◌+◌, ◌-◌, ◌/◌, ◌%◌, ◌<◌, ◌≤◌, ◌^◌, ◌∷◌, [], OnOk, OnErr, length};
ghost use Rattle.block_traits.specs.Disk.{FitsSize, write_events};
ghost use Rattle.disk_layers.specs.Calls.{ChangesSector};
ghost use Rattle.disk_layers.specs.Concat.{AsksOne, BothDo, BothLog, FailedLast, LogsOnly, FailsToDo, FlushesBoth, WritesOne};
ghost use Rattle.disk_layers.specs.Joined.{CoversBoth, CoversBoth-prop, joined_content, joined_history};
ghost use Rattle.disk_layers.specs.Reported.{FitsSize-prop};

use crate::history::History;
use crate::noting::{both_histories, flushed, history_of, with_first, with_second};
use block_traits::{Disk, DiskFailed, Event, Sector};

/// Two disks as one: the sectors of the first, followed by those of the second. As a disk it shows no events, and
/// reports what was done to it, if both disks report their content. Whatever a crash may leave of both is among what it
/// may leave of that (`covered`).
#[derive(Drop)]
pub struct Concat<A: Disk, B: Disk> {
    first: A,
    second: B,
    // whether the last write that failed was one of the second
    failed_second: bool,
    past: History,
    ghost small: { (A.state first).size + (B.state second).size < 2 ^ 44 },
    ghost fits: { FitsSize ((A.state first).size + (B.state second).size) (joined_content past.events (A.state first).content (B.state second).content) } by { FitsSize-prop ((A.state first).size + (B.state second).size) (joined_content past.events (A.state first).content (B.state second).content) },
    ghost covered: { CoversBoth (A.state first).size (A.state first).content (B.state second).content (joined_content past.events (A.state first).content (B.state second).content) } by { CoversBoth-prop (A.state first).size (A.state first).content (B.state second).content (joined_content past.events (A.state first).content (B.state second).content) },
}

impl<A: Disk, B: Disk> Concat<A, B> {
    ghost use Rattle.block_traits.specs.Causes.{Counted};
    ghost use Rattle.block_traits.specs.Disk.{FailsIn, Gives, Logs};
    ghost use Rattle.disk_layers.specs.ConcatDisk.{concat_disk_of};

    /// The two disks as one.
    pub fn new(first: A, second: B) -> Concat<A, B>
        requires { (A.state first).size + (B.state second).size < 2 ^ 44 }
        ensures first { result.first ≡ first }
        ensures second { result.second ≡ second }
        ensures told { (concat_disk_of result).content ≡ joined_content (joined_history (A.state first).size (A.state first).content (B.state second).content) (A.state first).content (B.state second).content }
    {
        let past = both_histories(&first, &second);
        Concat {
            first,
            second,
            failed_second: false,
            past,
        }
    }

    /// Reads sector `n`: that of the first disk, or beyond its end the sector of the second whose number is `n` minus
    /// the size of the first. The other disk is left alone. `DiskFailed` is returned only if that disk failed.
    pub fn read_at(&mut self, n: u64, into: &mut Sector) -> Result<(), DiskFailed>
        requires { n < (A.state self.old.first).size + (B.state self.old.second).size }
        ensures answer { AsksOne A.state B.state n into.new self.old.first self.new.first self.old.second self.new.second result }
        ensures bytes { OnOk result (Gives (concat_disk_of self.old) n into.new) }
        ensures ok { OnOk result (Logs [] (concat_disk_of self.old) (concat_disk_of self.new)) }
        ensures err { OnErr result (FailsIn [] (concat_disk_of self.old) (concat_disk_of self.new)) }
        ensures asked { Counted 1 (concat_disk_of self.old).reads (concat_disk_of self.new).reads }
    {
        let size = self.first.sectors();
        if n < size {
            self.first.read(n, into)
        } else {
            self.second.read(n - size, into)
        }
    }

    /// Writes sector `n`: that of the first disk, or beyond its end the sector of the second whose number is `n` minus
    /// the size of the first. The other disk is left alone. `DiskFailed` is returned only if that disk failed, and then
    /// the write was done or wasn't.
    pub fn write_at(&mut self, n: u64, from: &Sector) -> Result<(), DiskFailed>
        requires { n < (A.state self.old.first).size + (B.state self.old.second).size }
        ensures answer { WritesOne A.state B.state n from.now self.old.first self.new.first self.old.second self.new.second result }
        ensures logs { OnOk result (BothLog (Event.Write n from.now ∷ []) (A.state self.old.first) (A.state self.new.first) (B.state self.old.second) (B.state self.new.second)) }
        ensures ok { OnOk result (Logs (Event.Write n from.now ∷ []) (concat_disk_of self.old) (concat_disk_of self.new)) }
        ensures err { OnErr result (FailsIn (Event.Write n from.now ∷ []) (concat_disk_of self.old) (concat_disk_of self.new)) }
        ensures unasked { (concat_disk_of self.new).reads ≡ (concat_disk_of self.old).reads }
        ensures noted { OnOk result (self.new.failed_second ≡ self.old.failed_second) }
        ensures failed_last { OnErr result (FailedLast self.new.failed_second (A.state self.old.first) (A.state self.new.first) (B.state self.old.second) (B.state self.new.second)) }
    {
        let size = self.first.sectors();
        if n < size {
            self.write_first(n, from)
        } else {
            self.write_second(size, n - size, from)
        }
    }

    // Writes sector `n` of the first.
    fn write_first(&mut self, n: u64, from: &Sector) -> Result<(), DiskFailed>
        requires { n < (A.state self.old.first).size }
        ensures answer { ChangesSector (Event.Write n from.now) (A.state self.old.first) (A.state self.new.first) result }
        ensures beside { self.new.second ≡ self.old.second }
        ensures ok { OnOk result (Logs (Event.Write n from.now ∷ []) (concat_disk_of self.old) (concat_disk_of self.new)) }
        ensures err { OnErr result (FailsIn (Event.Write n from.now ∷ []) (concat_disk_of self.old) (concat_disk_of self.new)) }
        ensures unasked { (concat_disk_of self.new).reads ≡ (concat_disk_of self.old).reads }
        ensures noted { OnOk result (self.new.failed_second ≡ self.old.failed_second) }
        ensures failed_last { OnErr result (FailedLast self.new.failed_second (A.state self.old.first) (A.state self.new.first) (B.state self.old.second) (B.state self.new.second)) }
    {
        let before = history_of(&self.first);
        let answer = self.first.write(n, from);
        self.past = with_first(&self.past, &before, &self.first);
        self.failed_second = which_failed(self.failed_second, false, &answer);
        answer
    }

    // Writes sector `n` of the second, after so many of the first.
    fn write_second(&mut self, size: u64, n: u64, from: &Sector) -> Result<(), DiskFailed>
        requires size { size ≡ (A.state self.old.first).size }
        requires inside { n < (B.state self.old.second).size }
        ensures answer { ChangesSector (Event.Write n from.now) (B.state self.old.second) (B.state self.new.second) result }
        ensures beside { self.new.first ≡ self.old.first }
        ensures ok { OnOk result (Logs (Event.Write (n + size) from.now ∷ []) (concat_disk_of self.old) (concat_disk_of self.new)) }
        ensures err { OnErr result (FailsIn (Event.Write (n + size) from.now ∷ []) (concat_disk_of self.old) (concat_disk_of self.new)) }
        ensures unasked { (concat_disk_of self.new).reads ≡ (concat_disk_of self.old).reads }
        ensures noted { OnOk result (self.new.failed_second ≡ self.old.failed_second) }
        ensures failed_last { OnErr result (FailedLast self.new.failed_second (A.state self.old.first) (A.state self.new.first) (B.state self.old.second) (B.state self.new.second)) }
    {
        let before = history_of(&self.second);
        let answer = self.second.write(n, from);
        self.past = with_second(&self.past, &before, &self.second, size);
        self.failed_second = which_failed(self.failed_second, true, &answer);
        answer
    }

    // Writes whole sectors: those of the first by one call of it, and then those of the second by one call of it.
    fn write_run(&mut self, first: u64, from: &[u8]) -> Result<(), DiskFailed>
        requires whole { length from.now % 512 ≡ 0 }
        requires inside { first + length from.now / 512 ≤ (A.state self.old.first).size + (B.state self.old.second).size }
        ensures answer { BothDo A.state B.state (write_events first from.now) self.old.first self.new.first self.old.second self.new.second result }
        ensures ok { OnOk result (Logs (write_events first from.now) (concat_disk_of self.old) (concat_disk_of self.new)) }
        ensures err { OnErr result (FailsIn (write_events first from.now) (concat_disk_of self.old) (concat_disk_of self.new)) }
        ensures unasked { (concat_disk_of self.new).reads ≡ (concat_disk_of self.old).reads }
        ensures noted { OnOk result (self.new.failed_second ≡ self.old.failed_second) }
        ensures failed_last { OnErr result (FailedLast self.new.failed_second (A.state self.old.first) (A.state self.new.first) (B.state self.old.second) (B.state self.new.second)) }
    {
        let size = self.first.sectors();
        let inside = size.saturating_sub(first).min(from.len() as u64 / 512);
        let (before, behind) = from.split_at(512 * inside as usize);
        self.run_first(first, before)?;
        self.run_second(size, first.saturating_sub(size), behind)
    }

    // Writes whole sectors of the first. If there are none, it isn't called.
    fn run_first(&mut self, first: u64, from: &[u8]) -> Result<(), DiskFailed>
        requires whole { length from.now % 512 ≡ 0 }
        requires inside { 512 ≤ length from.now → first + length from.now / 512 ≤ (A.state self.old.first).size }
        ensures did { OnOk result (LogsOnly A.state (write_events first from.now) self.old.first self.new.first) }
        ensures failed { OnErr result (FailsToDo A.state (write_events first from.now) self.old.first self.new.first) }
        ensures beside { self.new.second ≡ self.old.second }
        ensures ok { OnOk result (Logs (write_events first from.now) (concat_disk_of self.old) (concat_disk_of self.new)) }
        ensures err { OnErr result (FailsIn (write_events first from.now) (concat_disk_of self.old) (concat_disk_of self.new)) }
        ensures unasked { (concat_disk_of self.new).reads ≡ (concat_disk_of self.old).reads }
        ensures noted { OnOk result (self.new.failed_second ≡ self.old.failed_second) }
        ensures failed_last { OnErr result (FailedLast self.new.failed_second (A.state self.old.first) (A.state self.new.first) (B.state self.old.second) (B.state self.new.second)) }
    {
        let before = history_of(&self.first);
        let answer = write_some(&mut self.first, first, from);
        self.past = with_first(&self.past, &before, &self.first);
        self.failed_second = which_failed(self.failed_second, false, &answer);
        answer
    }

    // Writes whole sectors of the second, after so many of the first. If there are none, it isn't called.
    fn run_second(&mut self, size: u64, first: u64, from: &[u8]) -> Result<(), DiskFailed>
        requires size { size ≡ (A.state self.old.first).size }
        requires whole { length from.now % 512 ≡ 0 }
        requires inside { 512 ≤ length from.now → first + length from.now / 512 ≤ (B.state self.old.second).size }
        ensures did { OnOk result (LogsOnly B.state (write_events first from.now) self.old.second self.new.second) }
        ensures failed { OnErr result (FailsToDo B.state (write_events first from.now) self.old.second self.new.second) }
        ensures beside { self.new.first ≡ self.old.first }
        ensures ok { OnOk result (Logs (write_events (first + size) from.now) (concat_disk_of self.old) (concat_disk_of self.new)) }
        ensures err { OnErr result (FailsIn (write_events (first + size) from.now) (concat_disk_of self.old) (concat_disk_of self.new)) }
        ensures unasked { (concat_disk_of self.new).reads ≡ (concat_disk_of self.old).reads }
        ensures noted { OnOk result (self.new.failed_second ≡ self.old.failed_second) }
        ensures failed_last { OnErr result (FailedLast self.new.failed_second (A.state self.old.first) (A.state self.new.first) (B.state self.old.second) (B.state self.new.second)) }
    {
        let before = history_of(&self.second);
        let answer = write_some(&mut self.second, first, from);
        self.past = with_second(&self.past, &before, &self.second, size);
        self.failed_second = which_failed(self.failed_second, true, &answer);
        answer
    }

    /// Flushes the first, and then the second. If the first fails, the second isn't called. `DiskFailed` is returned
    /// only if one of them failed.
    pub fn flush_all(&mut self) -> Result<(), DiskFailed>
        ensures answer { FlushesBoth A.state B.state self.old.first self.new.first self.old.second self.new.second result }
        ensures logs { OnOk result (BothLog (Event.Flush ∷ []) (A.state self.old.first) (A.state self.new.first) (B.state self.old.second) (B.state self.new.second)) }
        ensures ok { OnOk result (Logs (Event.Flush ∷ []) (concat_disk_of self.old) (concat_disk_of self.new)) }
        ensures err { OnErr result (FailsIn (Event.Flush ∷ []) (concat_disk_of self.old) (concat_disk_of self.new)) }
        ensures unasked { (concat_disk_of self.new).reads ≡ (concat_disk_of self.old).reads }
    {
        self.first.flush()?;
        self.second.flush()?;
        self.past = flushed(&self.past);
        Ok(())
    }

    /// Returns both disks as they are, without calling them.
    pub fn close(self) -> (A, B)
        ensures first { result.0 ≡ self.first }
        ensures second { result.1 ≡ self.second }
    {
        let Concat {
            first,
            second,
            failed_second: _,
            past: _,
        } = self;
        (first, second)
    }
}

// Whether the second failed last: after a call of the second, or of the first, and by what was so before.
fn which_failed(before: bool, second: bool, answer: &Result<(), DiskFailed>) -> bool
    ensures ok { OnOk answer.now (result ≡ before) }
    ensures err { OnErr answer.now (result ≡ second) }
{
    match answer {
        Ok(()) => before,
        Err(_) => second,
    }
}

// Writes whole sectors. If there are none, the disk isn't called.
fn write_some<D: Disk>(disk: &mut D, first: u64, from: &[u8]) -> Result<(), DiskFailed>
    requires whole { length from.now % 512 ≡ 0 }
    requires inside { 512 ≤ length from.now → first + length from.now / 512 ≤ (D.state disk.old).size }
    ensures did { OnOk result (LogsOnly D.state (write_events first from.now) disk.old disk.new) }
    ensures failed { OnErr result (FailsToDo D.state (write_events first from.now) disk.old disk.new) }
{
    if from.is_empty() {
        return Ok(());
    }
    disk.write_sectors(first, from)
}

/// It reports its size, the faults and reads of both disks, and what was done to it. Its calls are `read_at`, `write_at` and `flush_all`; a
/// run of sectors goes by one call of each disk that it reaches.
impl<A: Disk, B: Disk> Disk for Concat<A, B> {
    ghost use Rattle.disk_layers.specs.ConcatDisk.{concat_disk_of, wants_room_of};
    ghost use Rattle.block_traits.specs.Causes.{Counted};
    ghost use Rattle.block_traits.specs.Disk.{FailsIn, Gives, Logs};

    ghost state = { concat_disk_of };

    ghost wants_room = { wants_room_of };

    fn sectors(&self) -> u64 {
        self.first.sectors() + self.second.sectors()
    }

    fn read(&mut self, n: u64, into: &mut Sector) -> Result<(), DiskFailed>
        requires { n < (concat_disk_of self.old).size }
        ensures bytes { OnOk result (Gives (concat_disk_of self.old) n into.new) }
        ensures ok { OnOk result (Logs [] (concat_disk_of self.old) (concat_disk_of self.new)) }
        ensures err { OnErr result (FailsIn [] (concat_disk_of self.old) (concat_disk_of self.new)) }
        ensures asked { Counted 1 (concat_disk_of self.old).reads (concat_disk_of self.new).reads }
        ensures answer { AsksOne A.state B.state n into.new self.old.first self.new.first self.old.second self.new.second result }
    {
        self.read_at(n, into)
    }

    /// These reads are counted in the first disk.
    fn count_reads(&mut self, many: u64)
        ensures asked { Counted many (concat_disk_of self.old).reads (concat_disk_of self.new).reads }
        ensures logs { Logs [] (concat_disk_of self.old) (concat_disk_of self.new) }
        ensures first { Logs [] (A.state self.old.first) (A.state self.new.first) }
        ensures first_asked { Counted many (A.state self.old.first).reads (A.state self.new.first).reads }
        ensures second { self.new.second ≡ self.old.second }
    {
        self.first.count_reads(many);
    }

    fn write(&mut self, n: u64, from: &Sector) -> Result<(), DiskFailed>
        requires { n < (concat_disk_of self.old).size }
        ensures ok { OnOk result (Logs (Event.Write n from.now ∷ []) (concat_disk_of self.old) (concat_disk_of self.new)) }
        ensures err { OnErr result (FailsIn (Event.Write n from.now ∷ []) (concat_disk_of self.old) (concat_disk_of self.new)) }
        ensures unasked { (concat_disk_of self.new).reads ≡ (concat_disk_of self.old).reads }
        ensures answer { WritesOne A.state B.state n from.now self.old.first self.new.first self.old.second self.new.second result }
        ensures noted { OnOk result (self.new.failed_second ≡ self.old.failed_second) }
        ensures failed_last { OnErr result (FailedLast self.new.failed_second (A.state self.old.first) (A.state self.new.first) (B.state self.old.second) (B.state self.new.second)) }
    {
        self.write_at(n, from)
    }

    fn write_sectors(&mut self, first: u64, from: &[u8]) -> Result<(), DiskFailed>
        requires whole { length from.now % 512 ≡ 0 }
        requires inside { first + length from.now / 512 ≤ (concat_disk_of self.old).size }
        ensures ok { OnOk result (Logs (write_events first from.now) (concat_disk_of self.old) (concat_disk_of self.new)) }
        ensures err { OnErr result (FailsIn (write_events first from.now) (concat_disk_of self.old) (concat_disk_of self.new)) }
        ensures unasked { (concat_disk_of self.new).reads ≡ (concat_disk_of self.old).reads }
        ensures answer { BothDo A.state B.state (write_events first from.now) self.old.first self.new.first self.old.second self.new.second result }
        ensures noted { OnOk result (self.new.failed_second ≡ self.old.failed_second) }
        ensures failed_last { OnErr result (FailedLast self.new.failed_second (A.state self.old.first) (A.state self.new.first) (B.state self.old.second) (B.state self.new.second)) }
    {
        self.write_run(first, from)
    }

    fn flush(&mut self) -> Result<(), DiskFailed>
        ensures ok { OnOk result (Logs (Event.Flush ∷ []) (concat_disk_of self.old) (concat_disk_of self.new)) }
        ensures err { OnErr result (FailsIn (Event.Flush ∷ []) (concat_disk_of self.old) (concat_disk_of self.new)) }
        ensures unasked { (concat_disk_of self.new).reads ≡ (concat_disk_of self.old).reads }
        ensures answer { FlushesBoth A.state B.state self.old.first self.new.first self.old.second self.new.second result }
    {
        self.flush_all()
    }

    fn events(&self) -> Option<&[Event]> {
        None
    }

    /// That of the disk that failed at the last write that failed.
    fn wants_room(&self) -> bool {
        if self.failed_second {
            self.second.wants_room()
        } else {
            self.first.wants_room()
        }
    }
}
