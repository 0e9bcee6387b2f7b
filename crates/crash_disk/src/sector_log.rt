//! Sectors in memory, with all that was done to them.
ghost use Rattle.std.specs.Prelude.{◌≡◌, ◌<◌, ◌≤◌, ◌^◌, ◌∷◌, [], ◌↔◌, IfOk, IsTrue, All, length, slice_set, take, vec_capacity};
ghost use Rattle.block_traits.specs.Content.{IsContentOf, IsEventOf, IsSector, present};
ghost use Rattle.block_traits.proofs.Props.{IsContentOf-prop};
ghost use Rattle.crash_disk.specs.Replay.{content, replayed};

use block_traits::{Event, NoMemory, Sector};
use std::alloc::{AllocError, Global};

/// Sectors by what they held at first and what was done to them since, with room for more events.
#[derive(Drop)]
pub struct SectorLog {
    base: Vec<Sector>,
    present: Vec<Sector>,
    events: Vec<Event>,
    room: u64,
    ghost small: { length base.items < 2 ^ 44 },
    ghost fits: { IsContentOf (length base.items) (content base.items events.items) } by { IsContentOf-prop (length base.items) (content base.items events.items) },
    ghost replayed: { present.items ≡ replayed base.items events.items },
    ghost within: { length events.items ≤ room },
    ghost reserved: { room ≤ vec_capacity events },
}

impl SectorLog {
    ghost use Rattle.crash_disk.specs.SectorLog.{content_of, Appends};

    /// These sectors, with room for so many events.
    pub fn new(alloc: Global, base: Vec<Sector>, room: u64) -> Result<SectorLog, NoMemory>
        requires small { length base.items < 2 ^ 44 }
        requires sectors { All IsSector base.items }
        ensures content { IfOk result (λ log. content_of log ≡ content base.items []) }
        ensures room { IfOk result (λ log. log.room ≡ room) }
    {
        let present = Vec::from_slice(alloc, &base)?;
        let events = Vec::with_capacity(alloc, room as usize)?;
        Ok(SectorLog {
            base,
            present,
            events,
            room,
        })
    }

    /// How many sectors there are.
    pub fn len(&self) -> u64
        ensures { result ≡ length self.now.base.items }
    {
        self.base.len() as u64
    }

    /// What stands in sector `n` now.
    pub fn get(&self, n: u64) -> &Sector
        requires { n < length self.now.base.items }
        ensures { result.now ≡ present (content_of self.now) n }
    {
        &self.present[n as usize]
    }

    /// Whether there is no room for another event.
    pub fn is_full(&self) -> bool
        ensures { IsTrue result ↔ (length self.now.events.items ≡ self.now.room) }
    {
        self.events.len() as u64 == self.room
    }

    /// What was done, the oldest first.
    pub fn events(&self) -> &[Event]
        ensures { result.now ≡ self.now.events.items }
    {
        self.events.as_slice()
    }

    /// What the sectors held at first.
    pub fn base(&self) -> &[Sector]
        ensures { result.now ≡ self.now.base.items }
    {
        self.base.as_slice()
    }

    /// What the sectors held after the first events.
    pub fn at(&self, alloc: Global, moment: usize) -> Result<Vec<Sector>, AllocError>
        requires { moment ≤ length self.now.events.items }
        ensures { IfOk result (λ image. image.items ≡ replayed self.now.base.items (take moment self.now.events.items)) }
    {
        let mut image = Vec::from_slice(alloc, &self.base)?;
        for event in &self.events[..moment] {
            apply(&mut image, *event);
        }
        Ok(image)
    }

    /// How many events there is room for.
    pub fn room(&self) -> u64
        ensures { result ≡ self.now.room }
    {
        self.room
    }

    /// Does what an event says.
    pub fn append(&mut self, event: Event)
        requires room { length self.old.events.items < self.old.room }
        requires fits { IsEventOf (length self.old.base.items) event }
        ensures { Appends event self.old self.new }
    {
        apply(&mut self.present, event);
        self.events.push_reserved(event);
    }

    /// Makes what stands in the sectors now what they held at first, but for sector `n`, which holds
    /// these bytes.
    pub fn alter(&mut self, n: u64, bytes: &Sector)
        requires { n < length self.old.base.items }
        ensures content { content_of self.new ≡ content (slice_set (replayed self.old.base.items self.old.events.items) n bytes.now) [] }
        ensures room { self.new.room ≡ self.old.room }
    {
        self.present[n as usize] = *bytes;
        self.base.copy_from_slice(&self.present);
        self.events.clear();
    }
}

// Does to sectors what an event says.
fn apply(sectors: &mut [Sector], event: Event)
    requires { IsEventOf (length sectors.old) event }
    ensures { sectors.new ≡ replayed sectors.old (event ∷ []) }
{
    if let Event::Write { n, bytes } = event {
        sectors[n as usize] = bytes;
    }
}
