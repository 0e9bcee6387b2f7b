//! Sectors in memory that are zeros but for what was written, with all that was done to them.
ghost use Rattle.std.specs.Prelude.{◌≡◌, ◌<◌, ◌≤◌, ◌^◌, ◌∷◌, [], ◌↔◌, IfOk, OnOk, OnErr, IsTrue, All, get_or, length, replicate, take, vec_capacity};
ghost use Rattle.block_traits.specs.Content.{IsContentOf, IsEventOf, IsSector, present, present_after, with_events};
ghost use Rattle.block_traits.proofs.Props.{IsContentOf-prop};
ghost use Rattle.crash_disk.specs.Image.{zero_sector};
ghost use Rattle.crash_disk.specs.Replay.{content, replayed};
ghost use Rattle.crash_disk.specs.Writes.{written};

use block_traits::{Event, NoMemory, Sector};
use std::alloc::Global;

/// Sectors by what was written over zeros at first and what was done to them since, with room for
/// more events.
#[derive(Drop)]
pub struct WriteLog {
    size: u64,
    first: Vec<Event>,
    events: Vec<Event>,
    room: u64,
    ghost small: { length (written size first.items) < 2 ^ 44 },
    ghost fits: { IsContentOf (length (written size first.items)) (content (written size first.items) events.items) } by { IsContentOf-prop (length (written size first.items)) (content (written size first.items) events.items) },
    ghost within: { length events.items ≤ room },
    ghost reserved: { room ≤ vec_capacity events },
}

impl WriteLog {
    ghost use Rattle.crash_disk.specs.SparseDisk.{sparse_content, with_first};

    /// So many sectors, which these events made of zeros, with room for so many more events.
    pub fn new(alloc: Global, size: u64, first: Vec<Event>, room: u64) -> Result<WriteLog, NoMemory>
        requires small { length (written size first.items) < 2 ^ 44 }
        requires sectors { All IsSector (written size first.items) }
        ensures content { IfOk result (λ log. sparse_content log ≡ content (written size first.items) []) }
        ensures room { IfOk result (λ log. log.room ≡ room) }
    {
        let events = Vec::with_capacity(alloc, room as usize)?;
        Ok(WriteLog {
            size,
            first,
            events,
            room,
        })
    }

    /// How many sectors there are.
    pub fn len(&self) -> u64
        ensures { result ≡ length (sparse_content self.now).base }
    {
        self.size
    }

    /// What sector `n` held at first.
    pub fn first(&self, n: u64) -> Sector
        requires { n < length (sparse_content self.now).base }
        ensures { result ≡ get_or (sparse_content self.now).base n [] }
    {
        value_after(&self.first, n, &zeros())
    }

    /// What stands in sector `n` now.
    pub fn get(&self, n: u64) -> Sector
        requires { n < length (sparse_content self.now).base }
        ensures { result ≡ present (sparse_content self.now) n }
    {
        value_after(&self.events, n, &self.first(n))
    }

    /// Whether there is no room for another event.
    pub fn is_full(&self) -> bool
        ensures { IsTrue result ↔ (length self.now.events.items ≡ self.now.room) }
    {
        self.events.len() as u64 == self.room
    }

    /// What was done, the oldest first.
    pub fn events(&self) -> &[Event]
        ensures { result.now ≡ self.now.events.items }
    {
        self.events.as_slice()
    }

    /// What was written at first, over zeros.
    pub fn earlier(&self) -> &[Event]
        ensures { written self.now.size result.now ≡ (sparse_content self.now).base }
    {
        self.first.as_slice()
    }

    /// How many events there is room for.
    pub fn room(&self) -> u64
        ensures { result ≡ self.now.room }
    {
        self.room
    }

    /// The sectors after the first events, with the same room.
    pub fn at(&self, alloc: Global, moment: usize) -> Result<WriteLog, NoMemory>
        requires { moment ≤ length self.now.events.items }
        ensures content { IfOk result (λ log. sparse_content log ≡ content (replayed (sparse_content self.now).base (take moment self.now.events.items)) []) }
        ensures room { IfOk result (λ log. log.room ≡ self.now.room) }
    {
        let mut first = Vec::from_slice(alloc, &self.first)?;
        first.extend_from_slice(&self.events[..moment])?;
        WriteLog::new(alloc, self.size, first, self.room)
    }

    /// Makes sector `n` hold these bytes at first.
    pub fn put(&mut self, n: u64, bytes: &Sector) -> Result<(), NoMemory>
        requires { n < length (sparse_content self.old).base }
        ensures ok { OnOk result (sparse_content self.new ≡ with_first n bytes.now (sparse_content self.old)) }
        ensures err { OnErr result (sparse_content self.new ≡ sparse_content self.old) }
        ensures room { self.new.room ≡ self.old.room }
    {
        self.first.reserve(1)?;
        self.first.push_reserved(Event::Write { n, bytes: *bytes });
        Ok(())
    }

    /// Does what an event says.
    pub fn append(&mut self, event: Event)
        requires room { length self.old.events.items < self.old.room }
        requires fits { IsEventOf (length (sparse_content self.old).base) event }
        ensures content { sparse_content self.new ≡ with_events (event ∷ []) (sparse_content self.old) }
        ensures room { self.new.room ≡ self.old.room }
    {
        self.events.push_reserved(event);
    }
}

#[tactic(auto, unfolding(crate::specs::Image::zero_sector))]
fn zeros() -> Sector
    ensures { result ≡ zero_sector }
{
    [0u8; 512]
}

// What stands in a sector after events, if these bytes stood there before.
fn value_after(events: &[Event], n: u64, bytes: &Sector) -> Sector
    ensures { result ≡ present_after events.now n bytes.now }
{
    let mut value = *bytes;
    for event in events {
        if let Event::Write { n: m, bytes } = event {
            if *m == n {
                value = *bytes;
            }
        }
    }
    value
}
