//! Writes that are kept back from a disk until a flush, or until as many wait as there is room for.
//!
//! The invariant is the *order*: the history of the disk below, followed by the writes that wait. A write or a flush
//! that returns Ok adds just itself to the order, and a read returns what stands there last. So what was written can
//! be read at once, but only a flush that returns Ok has brought all of it to the disk below.
//!
//! Waiting writes go below one by one, the oldest first, and each leaves the list only after the disk below returned
//! Ok. If the disk refuses one, it may have been done or not. It stays in the list with all writes after it, so it
//! may later stand twice in the order. A new write for which room was to be made isn't taken then. After any refusal
//! of the disk below `clean` stays false. `close` returns the disk even if its flush failed; what still waited is
//! lost then.
//!
//! The room for all waiting writes is reserved in `new`, so no later call can fail for want of memory.
ghost use Rattle.std.specs.Prelude.{◌≡◌, ◌<◌, ◌≤◌, ◌∷◌, [], IfOk, IfErr, OnOk, OnErr, false, length};
ghost use Rattle.std.specs.VecDeque.{deque_len, deque_capacity};
ghost use Rattle.block_traits.specs.Causes.{Counted, Rose};
ghost use Rattle.block_traits.specs.Disk.{FitsSize, GivesFrom, Logs};
ghost use Rattle.block_traits.specs.Content.{logged};
ghost use Rattle.disk_layers.specs.Covering.{CoversTold, CoversTold-prop};
ghost use Rattle.disk_layers.specs.History.{with_history};
ghost use Rattle.disk_layers.specs.Reported.{FitsSize-prop};
ghost use Rattle.disk_layers.specs.Waiting.{FitBelow, FitBelow-prop, StopsIn, last_waiting, writes_of};

use crate::history::History;
use crate::noting::{flushed, history_of, written};
use block_traits::{Disk, DiskFailed, Event, NoMemory, Sector, sector_of};
use std::alloc::Global;
use std::collections::VecDeque;

/// A write that waits.
#[derive(Clone, Copy, Debug, PartialEq, Eq)]
pub struct Waiting {
    /// The number of its sector.
    pub n: u64,
    pub bytes: Sector,
}

/// A disk and writes that wait for it, in their order. As a disk it shows no events, and reports what was done to it, if
/// the disk below reports its content. Whatever a crash may leave below is among what it may leave of that (`covered`).
#[derive(Drop)]
pub struct WriteBehind<D: Disk> {
    under: D,
    waiting: VecDeque<Waiting>,
    room: u32,
    clean: bool,
    reads: u64,
    past: History,
    ghost some: { 1 ≤ room },
    ghost small: { room ≤ 1024 },
    ghost within: { deque_len waiting ≤ room },
    ghost reserved: { room ≤ deque_capacity waiting },
    ghost fit: { FitBelow (D.state under).size waiting.items } by { FitBelow-prop (D.state under).size waiting.items },
    ghost fits: { FitsSize (D.state under).size (with_history past.events (D.state under).content) } by { FitsSize-prop (D.state under).size (with_history past.events (D.state under).content) },
    ghost covered: { CoversTold (logged (writes_of waiting.items) (D.state under).content) (with_history past.events (D.state under).content) } by { CoversTold-prop (logged (writes_of waiting.items) (D.state under).content) (with_history past.events (D.state under).content) },
}

impl<D: Disk> WriteBehind<D> {
    ghost use Rattle.block_traits.specs.Disk.{FailsIn, Gives};
    ghost use Rattle.disk_layers.specs.WriteBehind.{EndsAnswers, FlushAnswers, IsNew, BehindReadAnswers, BehindWriteAnswers};
    ghost use Rattle.disk_layers.specs.WriteBehind.{MakesRoom, PutsBehind, RefusesWrite, behind_disk_of, behind_of, order};

    /// A disk for which up to `room` writes may wait. If there is no memory for them, the disk comes back.
    pub fn new(alloc: Global, under: D, room: u32) -> Result<WriteBehind<D>, (D, NoMemory)>
        requires some { 1 ≤ room }
        requires small { room ≤ 1024 }
        ensures under { IfOk result (λ behind. behind.under ≡ under) }
        ensures made { IfOk result (λ behind. IsNew (D.state under) room (behind_of D.state behind)) }
        ensures order { IfOk result (λ behind. order (behind_of D.state behind) ≡ (D.state under).content) }
        ensures told { IfOk result (λ behind. (behind_disk_of behind).content ≡ (D.state under).content) }
        ensures back { IfErr result (λ refused. refused.0 ≡ under) }
    {
        let past = history_of(&under);
        let Ok(waiting) = VecDeque::with_capacity(alloc, room as usize) else {
            return Err((under, NoMemory));
        };
        Ok(WriteBehind {
            under,
            waiting,
            room,
            clean: true,
            reads: 0,
            past,
        })
    }

    /// Reads sector `n`. If a write of it waits, the last one is read, and nothing is done below; or else what stands
    /// below, which is read once. `DiskFailed` is returned only if the disk below failed.
    pub fn read_at(&mut self, n: u64, into: &mut Sector) -> Result<(), DiskFailed>
        requires { n < (D.state self.old.under).size }
        ensures answer { BehindReadAnswers (last_waiting n self.old.waiting.items) n into.new (behind_of D.state self.old) (behind_of D.state self.new) result }
        ensures gives { OnOk result (GivesFrom (order (behind_of D.state self.old)) n into.new) }
        ensures order { order (behind_of D.state self.new) ≡ order (behind_of D.state self.old) }
        ensures bytes { OnOk result (Gives (behind_disk_of self.old) n into.new) }
        ensures ok { OnOk result (Logs [] (behind_disk_of self.old) (behind_disk_of self.new)) }
        ensures err { OnErr result (FailsIn [] (behind_disk_of self.old) (behind_disk_of self.new)) }
        ensures rose { OnErr result (Rose (D.state self.old.under).faults (D.state self.new.under).faults) }
        ensures asked { Counted 1 self.old.reads self.new.reads }
    {
        self.reads = self.reads.saturating_add(1);
        if let Some(bytes) = last_of(&self.waiting, n) {
            *into = bytes;
            return Ok(());
        }
        match self.under.read(n, into) {
            Ok(()) => Ok(()),
            Err(failed) => {
                self.clean = false;
                Err(failed)
            }
        }
    }

    /// Adds a write after those that wait. If as many wait as there is room for, they are written below first, in their
    /// order; else nothing is done below. `DiskFailed` is returned only if the disk below failed: the write that it
    /// refused and those after it wait still, and this one isn't taken.
    pub fn write_at(&mut self, n: u64, from: &Sector) -> Result<(), DiskFailed>
        requires { n < (D.state self.old.under).size }
        ensures answer { BehindWriteAnswers (record { n = n; bytes = from.now }) (behind_of D.state self.old) (behind_of D.state self.new) result }
        ensures order { OnOk result (order (behind_of D.state self.new) ≡ logged (Event.Write n from.now ∷ []) (order (behind_of D.state self.old))) }
        ensures ok { OnOk result (Logs (Event.Write n from.now ∷ []) (behind_disk_of self.old) (behind_disk_of self.new)) }
        ensures err { OnErr result (FailsIn (Event.Write n from.now ∷ []) (behind_disk_of self.old) (behind_disk_of self.new)) }
        ensures rose { OnErr result (Rose (D.state self.old.under).faults (D.state self.new.under).faults) }
        ensures unasked { self.new.reads ≡ self.old.reads }
    {
        if self.waiting.len() == self.room as usize {
            return self.make_room_and_put(n, from);
        }
        self.put(n, from);
        Ok(())
    }

    // Writes all that wait below, and then adds a write.
    fn make_room_and_put(&mut self, n: u64, from: &Sector) -> Result<(), DiskFailed>
        requires { n < (D.state self.old.under).size }
        ensures made { OnOk result (MakesRoom (record { n = n; bytes = from.now }) (behind_of D.state self.old) (behind_of D.state self.new)) }
        ensures refused { OnErr result (RefusesWrite (behind_of D.state self.old) (behind_of D.state self.new)) }
        ensures order { OnOk result (order (behind_of D.state self.new) ≡ logged (Event.Write n from.now ∷ []) (order (behind_of D.state self.old))) }
        ensures ok { OnOk result (Logs (Event.Write n from.now ∷ []) (behind_disk_of self.old) (behind_disk_of self.new)) }
        ensures err { OnErr result (FailsIn (Event.Write n from.now ∷ []) (behind_disk_of self.old) (behind_disk_of self.new)) }
        ensures rose { OnErr result (Rose (D.state self.old.under).faults (D.state self.new.under).faults) }
        ensures unasked { self.new.reads ≡ self.old.reads }
    {
        self.write_all()?;
        self.put(n, from);
        Ok(())
    }

    // Adds a write after those that wait, of which there are fewer than may.
    fn put(&mut self, n: u64, from: &Sector)
        requires inside { n < (D.state self.old.under).size }
        requires room { deque_len self.old.waiting < self.old.room }
        ensures puts { PutsBehind (record { n = n; bytes = from.now }) (behind_of D.state self.old) (behind_of D.state self.new) }
        ensures order { order (behind_of D.state self.new) ≡ logged (Event.Write n from.now ∷ []) (order (behind_of D.state self.old)) }
        ensures logs { Logs (Event.Write n from.now ∷ []) (behind_disk_of self.old) (behind_disk_of self.new) }
        ensures unasked { self.new.reads ≡ self.old.reads }
    {
        self.waiting.push_back_reserved(Waiting { n, bytes: *from });
        self.past = written(&self.past, n, from);
    }

    /// Writes all that wait below, in their order, and then flushes below. `DiskFailed` is returned only if the disk
    /// below failed: a write that it refused and those after it wait still.
    pub fn flush_all(&mut self) -> Result<(), DiskFailed>
        ensures answer { FlushAnswers (behind_of D.state self.old) (behind_of D.state self.new) result }
        ensures order { OnOk result (order (behind_of D.state self.new) ≡ logged (Event.Flush ∷ []) (order (behind_of D.state self.old))) }
        ensures none { OnOk result (self.new.waiting.items ≡ []) }
        ensures ok { OnOk result (Logs (Event.Flush ∷ []) (behind_disk_of self.old) (behind_disk_of self.new)) }
        ensures err { OnErr result (FailsIn (Event.Flush ∷ []) (behind_disk_of self.old) (behind_disk_of self.new)) }
        ensures rose { OnErr result (Rose (D.state self.old.under).faults (D.state self.new.under).faults) }
        ensures unasked { self.new.reads ≡ self.old.reads }
    {
        self.write_all()?;
        match self.under.flush() {
            Ok(()) => {
                self.past = flushed(&self.past);
                Ok(())
            }
            Err(failed) => {
                self.clean = false;
                Err(failed)
            }
        }
    }

    /// How many writes wait.
    pub fn pending(&self) -> u32
        ensures { result ≡ length self.now.waiting.items }
    {
        self.waiting.len() as u32
    }

    /// Whether no call of the disk below was refused.
    pub fn clean(&self) -> bool
        ensures { result ≡ self.now.clean }
    {
        self.clean
    }

    /// Flushes as `flush_all` does, and returns the disk in any case. If the flush failed, what waits is lost.
    pub fn close(mut self) -> (D, Result<(), DiskFailed>)
        ensures { EndsAnswers (behind_of D.state self) (D.state result.0) result.1 }
    {
        let answer = self.flush_all();
        let WriteBehind {
            under,
            waiting: _,
            room: _,
            clean: _,
            reads: _,
            past: _,
        } = self;
        (under, answer)
    }

    // Writes all that wait below.
    fn write_all(&mut self) -> Result<(), DiskFailed>
        ensures ok { OnOk result (Logs (writes_of self.old.waiting.items) (D.state self.old.under) (D.state self.new.under)) }
        ensures none { OnOk result (self.new.waiting.items ≡ []) }
        ensures clean { OnOk result (self.new.clean ≡ self.old.clean) }
        ensures err { OnErr result (StopsIn self.old.waiting.items self.new.waiting.items (D.state self.old.under) (D.state self.new.under)) }
        ensures unclean { OnErr result (self.new.clean ≡ false) }
        ensures room { self.new.room ≡ self.old.room }
        ensures reads { self.new.reads ≡ self.old.reads }
        ensures quiet { Logs [] (behind_disk_of self.old) (behind_disk_of self.new) }
        ensures unasked { (D.state self.new.under).reads ≡ (D.state self.old.under).reads }
    {
        match drain(&mut self.under, &mut self.waiting) {
            Ok(()) => Ok(()),
            Err(failed) => {
                self.clean = false;
                Err(failed)
            }
        }
    }
}

// Writes all that wait. Each is taken out once the disk returned Ok for it.
fn drain<D: Disk>(under: &mut D, waiting: &mut VecDeque<Waiting>) -> Result<(), DiskFailed>
    requires { FitBelow (D.state under.old).size waiting.old.items }
    ensures ok { OnOk result (Logs (writes_of waiting.old.items) (D.state under.old) (D.state under.new)) }
    ensures none { OnOk result (waiting.new.items ≡ []) }
    ensures err { OnErr result (StopsIn waiting.old.items waiting.new.items (D.state under.old) (D.state under.new)) }
    ensures fit { FitBelow (D.state under.new).size waiting.new.items }
    ensures fewer { deque_len waiting.new ≤ deque_len waiting.old }
    ensures capacity { deque_capacity waiting.new ≡ deque_capacity waiting.old }
    ensures unasked { (D.state under.new).reads ≡ (D.state under.old).reads }
{
    while let Some(first) = waiting.pop_front() {
        if let Err(failed) = under.write(first.n, &first.bytes) {
            waiting.push_front_reserved(first);
            return Err(failed);
        }
    }
    Ok(())
}

// The bytes of the last write of sector `n` that waits.
fn last_of(waiting: &VecDeque<Waiting>, n: u64) -> Option<Sector>
    ensures { result ≡ last_waiting n waiting.now.items }
{
    let mut found = None;
    for write in waiting.iter() {
        if write.n == n {
            found = Some(write.bytes);
        }
    }
    found
}

/// It reports the size and the faults of the disk below, its own reads, and what was done to it. Its calls are `read_at`, `write_at` and
/// `flush_all`.
impl<D: Disk> Disk for WriteBehind<D> {
    ghost use Rattle.std.specs.Prelude.{◌/◌, ◌%◌, ◌+◌};
    ghost use Rattle.block_traits.specs.EachWritten.{EachWritten};
    ghost use Rattle.disk_layers.specs.WriteBehind.{FlushAnswers, BehindReadAnswers, BehindWriteAnswers, BehindWritesSector, behind_of, behind_disk_of};
    ghost use Rattle.block_traits.specs.Disk.{FailsIn, Gives, write_events};
    ghost use Rattle.block_traits.specs.Parts.{parts};

    ghost state = { behind_disk_of };

    ghost wants_room = { λ w. D.wants_room w.under };

    fn sectors(&self) -> u64 {
        self.under.sectors()
    }

    fn read(&mut self, n: u64, into: &mut Sector) -> Result<(), DiskFailed>
        requires { n < (behind_disk_of self.old).size }
        ensures bytes { OnOk result (Gives (behind_disk_of self.old) n into.new) }
        ensures ok { OnOk result (Logs [] (behind_disk_of self.old) (behind_disk_of self.new)) }
        ensures err { OnErr result (FailsIn [] (behind_disk_of self.old) (behind_disk_of self.new)) }
        ensures asked { Counted 1 (behind_disk_of self.old).reads (behind_disk_of self.new).reads }
        ensures answer { BehindReadAnswers (last_waiting n self.old.waiting.items) n into.new (behind_of D.state self.old) (behind_of D.state self.new) result }
    {
        self.read_at(n, into)
    }

    /// These reads are counted here alone, and nothing is done below.
    fn count_reads(&mut self, many: u64)
        ensures asked { Counted many self.old.reads self.new.reads }
        ensures logs { Logs [] (behind_disk_of self.old) (behind_disk_of self.new) }
        ensures stays { behind_of D.state self.new ≡ behind_of D.state self.old }
    {
        self.reads = self.reads.saturating_add(many);
    }

    fn write(&mut self, n: u64, from: &Sector) -> Result<(), DiskFailed>
        requires { n < (behind_disk_of self.old).size }
        ensures ok { OnOk result (Logs (Event.Write n from.now ∷ []) (behind_disk_of self.old) (behind_disk_of self.new)) }
        ensures err { OnErr result (FailsIn (Event.Write n from.now ∷ []) (behind_disk_of self.old) (behind_disk_of self.new)) }
        ensures unasked { (behind_disk_of self.new).reads ≡ (behind_disk_of self.old).reads }
        ensures answer { BehindWriteAnswers (record { n = n; bytes = from.now }) (behind_of D.state self.old) (behind_of D.state self.new) result }
    {
        self.write_at(n, from)
    }

    /// Each sector is written as by `write`, in ascending order, up to the first that fails.
    fn write_sectors(&mut self, first: u64, from: &[u8]) -> Result<(), DiskFailed>
        requires whole { length from.now % 512 ≡ 0 }
        requires inside { first + length from.now / 512 ≤ (behind_disk_of self.old).size }
        ensures ok { OnOk result (Logs (write_events first from.now) (behind_disk_of self.old) (behind_disk_of self.new)) }
        ensures err { OnErr result (FailsIn (write_events first from.now) (behind_disk_of self.old) (behind_disk_of self.new)) }
        ensures unasked { (behind_disk_of self.new).reads ≡ (behind_disk_of self.old).reads }
        ensures answer { EachWritten BehindWritesSector first (parts 512 (length from.now / 512) from.now) (behind_of D.state self.old) (behind_of D.state self.new) result }
    {
        for j in 0..from.len() / 512 {
            self.write(first + j as u64, &sector_of(from, j))?;
        }
        Ok(())
    }

    fn flush(&mut self) -> Result<(), DiskFailed>
        ensures ok { OnOk result (Logs (Event.Flush ∷ []) (behind_disk_of self.old) (behind_disk_of self.new)) }
        ensures err { OnErr result (FailsIn (Event.Flush ∷ []) (behind_disk_of self.old) (behind_disk_of self.new)) }
        ensures unasked { (behind_disk_of self.new).reads ≡ (behind_disk_of self.old).reads }
        ensures answer { FlushAnswers (behind_of D.state self.old) (behind_of D.state self.new) result }
    {
        self.flush_all()
    }

    fn events(&self) -> Option<&[Event]> {
        None
    }

    /// That of the disk below, whose last write that failed may be one that a flush made.
    fn wants_room(&self) -> bool {
        self.under.wants_room()
    }
}
