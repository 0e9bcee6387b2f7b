//! Which calls of an object fail, and how many bytes a call moves.
ghost use Rattle.std.specs.Prelude.{◌≡◌, IfOk, OnOk, OnErr, []};
ghost use Rattle.crash_disk.specs.Calls.{cut_to};

use block_traits::NoMemory;
use std::alloc::Global;
use std::marker::Model;

/// How many calls of an object were made, and the numbers of those that fail, counted from 1 since
/// it was made.
#[derive(Drop)]
pub struct Calls {
    made: u64,
    fails: Vec<u64>,
}

impl Model for Calls {
    ghost use Rattle.crash_disk.specs.Calls.{CallsState};

    ghost Value = { CallsState };

    ghost view = { λ calls. record { made = calls.made; fails = calls.fails.items } };
}

impl Calls {
    ghost use Rattle.crash_disk.specs.Calls.{called, failing, next_fails, piece, with_fails};

    /// No call was made, and none fails.
    pub fn new(alloc: Global) -> Calls
        ensures { result ≡ failing [] }
    {
        Calls {
            made: 0,
            fails: Vec::new(alloc),
        }
    }

    /// No call was made, and these fail.
    pub fn failing(alloc: Global, numbers: &[u64]) -> Result<Calls, NoMemory>
        ensures { IfOk result (λ calls. calls ≡ failing numbers.now) }
    {
        Ok(Calls {
            made: 0,
            fails: Vec::from_slice(alloc, numbers)?,
        })
    }

    /// Sets which calls fail.
    pub fn set(&mut self, numbers: &[u64]) -> Result<(), NoMemory>
        ensures ok { OnOk result (self.new ≡ with_fails numbers.now self.old) }
        ensures err { OnErr result (self.new ≡ self.old) }
    {
        self.fails = Vec::from_slice(*self.fails.allocator(), numbers)?;
        Ok(())
    }

    /// Counts a call, and returns whether it fails.
    pub fn next(&mut self) -> bool
        ensures answer { result ≡ next_fails self.old }
        ensures counts { self.new ≡ called self.old }
    {
        self.made = self.made.saturating_add(1);
        self.fails.contains(&self.made)
    }

    /// How many bytes the next call moves at most, of so many that are wanted.
    pub fn piece(&self, cuts: &[usize], wanted: usize) -> usize
        ensures { result ≡ piece cuts.now self.now wanted }
    {
        cut_to(cuts.get(self.made as usize).copied(), wanted)
    }
}

// As many as are wanted, but no more than the cut, if there is one; a cut of 0 counts as 1.
fn cut_to(cut: Option<usize>, wanted: usize) -> usize
    ensures { result ≡ cut_to cut wanted }
{
    match cut {
        Some(cut) => wanted.min(cut.max(1)),
        None => wanted,
    }
}
