//! Which calls of a disk fail.
ghost use Rattle.std.specs.Prelude.{◌≡◌, OnOk, OnErr};
ghost use Rattle.crash_disk.specs.Plan.{has_read, lands_at};

use block_traits::NoMemory;
use std::alloc::Global;
use std::marker::Model;

/// The calls of a disk that may fail.
#[derive(Clone, Copy, Debug, PartialEq, Eq)]
pub enum CallKind {
    Read,
    Write,
    Flush,
}

/// A call that fails: the `nth` of its kind, counted from 1 since the disk was made. Its event is appended if `lands`
/// is set.
#[derive(Clone, Copy, Debug, PartialEq, Eq)]
pub struct FailAt {
    pub kind: CallKind,
    pub nth: u64,
    pub lands: bool,
}

/// How many calls of each kind were made, and which fail.
#[derive(Drop)]
pub struct Plan {
    reads: u64,
    writes: u64,
    flushes: u64,
    entries: Vec<FailAt>,
}

impl Model for Plan {
    ghost use Rattle.crash_disk.specs.Plan.{PlanState};

    ghost Value = { PlanState };

    ghost view = { λ plan. record {
      reads = plan.reads;
      writes = plan.writes;
      flushes = plan.flushes;
      entries = plan.entries.items;
    } };
}

impl Plan {
    ghost use Rattle.crash_disk.specs.Plan.{PlanState, counted, made, more_reads, no_plan, planned, with_entries};

    /// No call was made, and none fails.
    pub fn new(alloc: Global) -> Plan
        ensures { result ≡ no_plan }
    {
        Plan {
            reads: 0,
            writes: 0,
            flushes: 0,
            entries: Vec::new(alloc),
        }
    }

    /// Sets which calls fail.
    pub fn set(&mut self, list: &[FailAt]) -> Result<(), NoMemory>
        ensures ok { OnOk result (self.new ≡ with_entries list.now self.old) }
        ensures err { OnErr result (self.new ≡ self.old) }
    {
        self.entries = Vec::from_slice(*self.entries.allocator(), list)?;
        Ok(())
    }

    /// Counts a call. If it fails, returns whether its event is appended.
    #[tactic(auto, using(crate::proofs::PlanLemmas::made_counted, crate::proofs::PlanLemmas::entries_counted))]
    pub fn next(&mut self, kind: CallKind) -> Option<bool>
        ensures answer { result ≡ planned kind self.old }
        ensures counts { self.new ≡ counted kind self.old }
    {
        self.count(kind);
        entry_at(&self.entries, kind, self.made(kind))
    }

    /// Counts so many reads, none of which fails.
    pub fn count_reads(&mut self, many: u64)
        ensures { self.new ≡ more_reads many self.old }
    {
        self.reads = self.reads.saturating_add(many);
    }

    /// Whether a read is among the calls that fail, even one that was already made.
    pub fn has_read(&self) -> bool
        ensures { result ≡ has_read self.now.entries }
    {
        has_read(&self.entries)
    }

    fn count(&mut self, kind: CallKind)
        ensures { self.new ≡ counted kind self.old }
    {
        match kind {
            CallKind::Read => self.reads = self.reads.saturating_add(1),
            CallKind::Write => self.writes = self.writes.saturating_add(1),
            CallKind::Flush => self.flushes = self.flushes.saturating_add(1),
        }
    }

    fn made(&self, kind: CallKind) -> u64
        ensures { result ≡ made kind self.now }
    {
        match kind {
            CallKind::Read => self.reads,
            CallKind::Write => self.writes,
            CallKind::Flush => self.flushes,
        }
    }
}

// The first entry for a call says whether its event is appended.
fn entry_at(entries: &[FailAt], kind: CallKind, nth: u64) -> Option<bool>
    ensures { result ≡ lands_at kind nth entries.now }
{
    for entry in entries {
        if entry.kind == kind && entry.nth == nth {
            return Some(entry.lands);
        }
    }
    None
}

// Whether an entry is for a read.
fn has_read(entries: &[FailAt]) -> bool
    ensures { result ≡ has_read entries.now }
{
    for entry in entries {
        if entry.kind == CallKind::Read {
            return true;
        }
    }
    false
}
