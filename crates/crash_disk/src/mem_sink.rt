//! A sink in memory.
ghost use Rattle.std.specs.Prelude.{◌≡◌, ◌<◌, ◌≤◌, [], Some, IfOk, OnErr, is_err, length, take};
ghost use Rattle.std.specs.Io.KnownBytes.{append_known};
ghost use Rattle.block_traits.specs.Causes.{Counted, HasCause, Rose};
ghost use Rattle.crash_disk.specs.Calls.{failing};

use crate::calls::Calls;
use block_traits::{NoMemory, Sink, SinkFailed};
use std::alloc::Global;
use std::marker::Model;

/// A sink in memory. It reports what it took.
#[derive(Drop)]
pub struct MemSink {
    bytes: Vec<u8>,
    room: u64,
    cuts: Vec<usize>,
    calls: Calls,
    faults: u64,
    refused: u64,
    idle: u64,
}

impl Model for MemSink {
    ghost use Rattle.std.specs.Prelude.{◌≤◌, length, vec_capacity};
    ghost use Rattle.crash_disk.specs.Streams.{MemSinkState};

    ghost Value = { MemSinkState };

    ghost view = { λ sink. record {
      bytes = sink.bytes.items;
      room = sink.room;
      cuts = sink.cuts.items;
      calls = sink.calls;
      faults = sink.faults;
      refused = sink.refused;
      idle = sink.idle;
    } };

    ghost invariant = { λ sink. (length sink.bytes.items ≤ sink.room) × (sink.room ≤ vec_capacity sink.bytes) };
}

impl MemSink {
    /// Has room for so many bytes. Call k, counted from 1, takes at most `cuts[k - 1]` bytes (a cut of 0 counts as 1),
    /// and fails if `fails` has k. With no room left it fails at a piece that isn't empty.
    pub fn new(alloc: Global, cuts: &[usize], fails: &[u64], room: u64) -> Result<MemSink, NoMemory>
        ensures { IfOk result (λ sink. sink ≡ record { bytes = []; room = room; cuts = cuts.now; calls = failing fails.now; faults = 0; refused = 0; idle = 0 }) }
    {
        Ok(MemSink {
            bytes: Vec::with_capacity(alloc, room as usize)?,
            room,
            cuts: Vec::from_slice(alloc, cuts)?,
            calls: Calls::failing(alloc, fails)?,
            faults: 0,
            refused: 0,
            idle: 0,
        })
    }

    /// The bytes that it took.
    pub fn bytes(&self) -> &[u8]
        ensures { result.now ≡ self.now.bytes }
    {
        self.bytes.as_slice()
    }
}

impl Sink for MemSink {
    ghost use Rattle.crash_disk.specs.Streams.{after_give, give_fails, taken};

    ghost state = { λ sink. record { taken = Some sink.bytes; faults = sink.faults; refused = sink.refused; idle = sink.idle } };

    fn give(&mut self, from: &[u8]) -> Result<usize, SinkFailed>
        ensures bound { IfOk result (λ k. k ≤ length from.now) }
        ensures bytes { IfOk result (λ k. Some self.new.bytes ≡ append_known (Some self.old.bytes) (take k from.now)) }
        ensures none { IfOk result (λ k. k ≡ 0 → 0 < length from.now → Rose self.old.faults self.new.faults) }
        ensures err { OnErr result (Some self.new.bytes ≡ Some self.old.bytes) }
        ensures cause { HasCause self.old.faults self.new.faults result }
        ensures granted { IfOk result (λ k. 0 < k → self.new.refused ≡ self.old.refused) }
        ensures unmoved { IfOk result (λ k. k ≡ 0 → 0 < length from.now → Counted 1 self.old.refused self.new.refused) }
        ensures refused { OnErr result (Counted 1 self.old.refused self.new.refused) }
        ensures idled { length from.now ≡ 0 → Counted 1 self.old.idle self.new.idle }
        ensures busy { 0 < length from.now → self.new.idle ≡ self.old.idle }
        ensures answer { is_err result ≡ give_fails (length from.now) self.old }
        ensures count { IfOk result (λ k. k ≡ taken (length from.now) self.old) }
        ensures after { self.new ≡ after_give from.now self.old }
    {
        if from.is_empty() {
            self.idle = self.idle.saturating_add(1);
        }
        let most = self.calls.piece(&self.cuts, from.len());
        let left = self.room - self.bytes.len() as u64;
        if self.calls.next() || (left == 0 && !from.is_empty()) {
            self.faults = self.faults.saturating_add(1);
            self.refused = self.refused.saturating_add(1);
            return Err(SinkFailed);
        }
        let count = most.min(left as usize);
        // Room was reserved, so this can't fail.
        let _ = self.bytes.extend_from_slice(&from[..count]);
        Ok(count)
    }
}
