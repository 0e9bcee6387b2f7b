//! Entropy in memory.
ghost use Rattle.std.specs.Prelude.{◌≡◌, Some, IfOk, OnOk, OnErr, is_err, length};
ghost use Rattle.std.specs.Io.KnownBytes.{prepend_known};
ghost use Rattle.block_traits.specs.Causes.{Counted, HasCause};

use block_traits::{Entropy, EntropyFailed, NoMemory};
use std::alloc::Global;
use std::marker::Model;

/// Entropy in memory. It reports what is left.
#[derive(Drop)]
pub struct MemEntropy {
    bytes: Vec<u8>,
    used: usize,
    faults: u64,
    calls: u64,
}

impl Model for MemEntropy {
    ghost use Rattle.std.specs.Prelude.{◌≤◌, drop, length};
    ghost use Rattle.crash_disk.specs.Streams.{MemEntropyState};

    ghost Value = { MemEntropyState };

    ghost view = { λ entropy. record { left = drop entropy.used entropy.bytes.items; faults = entropy.faults; calls = entropy.calls } };

    ghost invariant = { λ entropy. entropy.used ≤ length entropy.bytes.items };
}

impl MemEntropy {
    /// Gives these bytes in order. A call that asks for more than is left fails and takes nothing.
    pub fn new(alloc: Global, bytes: &[u8]) -> Result<MemEntropy, NoMemory>
        ensures { IfOk result (λ entropy. entropy ≡ record { left = bytes.now; faults = 0; calls = 0 }) }
    {
        Ok(MemEntropy {
            bytes: Vec::from_slice(alloc, bytes)?,
            used: 0,
            faults: 0,
            calls: 0,
        })
    }
}

impl Entropy for MemEntropy {
    ghost use Rattle.crash_disk.specs.Streams.{after_fill, fill_fails};

    ghost state = { λ entropy. record { left = Some entropy.left; faults = entropy.faults; calls = entropy.calls } };

    fn fill(&mut self, into: &mut [u8]) -> Result<(), EntropyFailed>
        ensures ok { OnOk result (Some self.old.left ≡ prepend_known into.new (Some self.new.left)) }
        ensures err { OnErr result (Some self.new.left ≡ Some self.old.left) }
        ensures cause { HasCause self.old.faults self.new.faults result }
        ensures asked { Counted 1 self.old.calls self.new.calls }
        ensures answer { is_err result ≡ fill_fails (length into.old) self.old }
        ensures after { self.new ≡ after_fill (length into.old) self.old }
    {
        self.calls = self.calls.saturating_add(1);
        let left = &self.bytes[self.used..];
        if left.len() < into.len() {
            self.faults = self.faults.saturating_add(1);
            return Err(EntropyFailed);
        }
        into.copy_from_slice(&left[..into.len()]);
        self.used += into.len();
        Ok(())
    }
}
