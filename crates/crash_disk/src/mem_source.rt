//! A source in memory.
ghost use Rattle.std.specs.Prelude.{◌≡◌, ◌<◌, ◌≤◌, Some, IfOk, OnOk, OnErr, is_err, length, take};
ghost use Rattle.std.specs.Io.KnownBytes.{prepend_known, IsAtEnd};
ghost use Rattle.block_traits.specs.Causes.{Counted, HasCause};
ghost use Rattle.crash_disk.specs.Calls.{failing, next_fails};

use crate::calls::Calls;
use block_traits::{NoMemory, Source, SourceFailed};
use std::alloc::Global;
use std::marker::Model;

/// A source in memory. It reports what is left.
#[derive(Drop)]
pub struct MemSource {
    bytes: Vec<u8>,
    given: usize,
    cuts: Vec<usize>,
    calls: Calls,
    faults: u64,
    refused: u64,
    ends: u64,
}

impl Model for MemSource {
    ghost use Rattle.std.specs.Prelude.{◌≤◌, drop, length};
    ghost use Rattle.crash_disk.specs.Streams.{MemSourceState};

    ghost Value = { MemSourceState };

    ghost view = { λ source. record {
      left = drop source.given source.bytes.items;
      cuts = source.cuts.items;
      calls = source.calls;
      faults = source.faults;
      refused = source.refused;
      ends = source.ends;
    } };

    ghost invariant = { λ source. source.given ≤ length source.bytes.items };
}

impl MemSource {
    /// Gives these bytes. Call k, counted from 1, gives at most `cuts[k - 1]` of them (a cut of 0 counts as 1), and
    /// fails if `fails` has k.
    pub fn new(
        alloc: Global,
        bytes: &[u8],
        cuts: &[usize],
        fails: &[u64],
    ) -> Result<MemSource, NoMemory>
        ensures { IfOk result (λ source. source ≡ record { left = bytes.now; cuts = cuts.now; calls = failing fails.now; faults = 0; refused = 0; ends = 0 }) }
    {
        Ok(MemSource {
            bytes: Vec::from_slice(alloc, bytes)?,
            given: 0,
            cuts: Vec::from_slice(alloc, cuts)?,
            calls: Calls::failing(alloc, fails)?,
            faults: 0,
            refused: 0,
            ends: 0,
        })
    }
}

impl Source for MemSource {
    ghost use Rattle.crash_disk.specs.Streams.{after_take, next_given};

    ghost state = { λ source. record { left = Some source.left; faults = source.faults; refused = source.refused; ends = source.ends } };

    fn take(&mut self, into: &mut [u8]) -> Result<usize, SourceFailed>
        requires { 0 < length into.old }
        ensures bound { IfOk result (λ k. k ≤ length into.new) }
        ensures bytes { IfOk result (λ k. Some self.old.left ≡ prepend_known (take k into.new) (Some self.new.left)) }
        ensures end { IfOk result (λ k. k ≡ 0 → IsAtEnd (Some self.new.left)) }
        ensures err { OnErr result (Some self.new.left ≡ Some self.old.left) }
        ensures cause { HasCause self.old.faults self.new.faults result }
        ensures granted { OnOk result (self.new.refused ≡ self.old.refused) }
        ensures refused { OnErr result (Counted 1 self.old.refused self.new.refused) }
        ensures ended { IfOk result (λ k. k ≡ 0 → Counted 1 self.old.ends self.new.ends) }
        ensures gave { IfOk result (λ k. 0 < k → self.new.ends ≡ self.old.ends) }
        ensures unended { OnErr result (self.new.ends ≡ self.old.ends) }
        ensures answer { is_err result ≡ next_fails self.old.calls }
        ensures count { IfOk result (λ k. k ≡ next_given (length into.old) self.old) }
        ensures after { self.new ≡ after_take (length into.old) self.old }
    {
        let most = self.calls.piece(&self.cuts, into.len());
        if self.calls.next() {
            self.faults = self.faults.saturating_add(1);
            self.refused = self.refused.saturating_add(1);
            return Err(SourceFailed);
        }
        let left = &self.bytes[self.given..];
        let count = most.min(left.len());
        into[..count].copy_from_slice(&left[..count]);
        self.given += count;
        if count == 0 {
            self.ends = self.ends.saturating_add(1);
        }
        Ok(count)
    }
}
