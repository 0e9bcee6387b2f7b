//! What a crash leaves of a disk in memory.
ghost use Rattle.std.specs.Prelude.{◌≡◌, ◌<◌, ◌≤◌, ◌+◌, ◌-◌, ◌^◌, ◌++◌, ◌∷◌, [], ℕ, List, IfOk, IfErr, IfSome, IfNone, All, length, slice_get, slice_set};
ghost use Rattle.std.specs.Bool.{OnTrue, OnFalse};
ghost use Rattle.block_traits.specs.Content.{IsSector, at_moment, kept_after};
ghost use Rattle.block_traits.specs.Crash.{IsImage, IsTorn};
ghost use Rattle.crash_disk.specs.Replay.{content};
ghost use Rattle.crash_disk.specs.Survivor.{AllGood, AllGoodTears, IsBad, IsBadTear, IsFault, IsGood, IsGoodTear, IsTornImage, KeepsOf, choice_of, is_picked, is_torn};
ghost use Rattle.crash_disk.specs.MemDisk.{fresh, mem_state_of};
ghost use Rattle.crash_disk.specs.declared.survivor.Torn.{Torn};

use crate::MemDisk;
use block_traits::{Event, Sector};
use std::alloc::Global;

/// A value that a sector has after a crash, by its place among those that it may have.
#[derive(Clone, Copy, Debug, PartialEq, Eq)]
pub struct Pick {
    /// The number of the sector.
    pub n: u64,
    /// The place of the value, the oldest first.
    pub place: usize,
}

/// A sector that a crash tears, and the bytes that it holds then.
#[derive(Clone, Copy, Debug, PartialEq, Eq)]
pub struct Torn {
    /// The number of the sector.
    pub n: u64,
    /// What it holds.
    pub bytes: Sector,
}

/// Why there is no such image. All picks are looked at before the torn entries.
#[derive(Clone, Copy, Debug, PartialEq, Eq)]
pub enum SurvivorFault {
    /// This pick is the first whose sector is past the end or was picked before, or whose place has
    /// no value.
    BadPick { index: usize },
    /// This torn entry is the first whose sector is the last one or past the end, was picked or
    /// named before, or has one kept value alone.
    BadTorn { index: usize },
    /// There was no memory.
    NoMemory,
}

/// The disk that a crash leaves after the first events: its base has the picked values, and the last
/// value of each sector without a pick. It has the room of the disk, and nothing was done to it.
pub fn survivor_whole(
    alloc: Global,
    disk: &MemDisk,
    moment: usize,
    picks: &[Pick],
) -> Result<MemDisk, SurvivorFault>
    requires { moment ≤ length (mem_state_of disk.now).content.history }
    ensures image { let left = at_moment moment (mem_state_of disk.now).content in
        IfOk result (λ survivor. IsImage left (choice_of left picks.now) (mem_state_of survivor).content.base) }
    ensures good { let left = at_moment moment (mem_state_of disk.now).content in
        IfOk result (λ _. AllGood left picks.now (length picks.now)) }
    ensures rest { IfOk result (λ survivor. mem_state_of survivor ≡ fresh (mem_state_of survivor).content.base (mem_state_of disk.now).room) }
    ensures bad { IfErr result (IsFault (at_moment moment (mem_state_of disk.now).content) picks.now []) }
{
    let image = picked_image(alloc, disk, moment, picks)?;
    survivor_of(alloc, image, disk.room())
}

/// The disk that a crash leaves after the first events, as `survivor_whole` gives it, but with the torn sectors holding
/// the given bytes.
pub fn survivor_torn(
    alloc: Global,
    disk: &MemDisk,
    moment: usize,
    picks: &[Pick],
    torn: &[Torn],
) -> Result<MemDisk, SurvivorFault>
    requires { moment ≤ length (mem_state_of disk.now).content.history }
    ensures image { let left = at_moment moment (mem_state_of disk.now).content in
        IfOk result (λ survivor. IsTornImage left (choice_of left picks.now) torn.now (mem_state_of survivor).content.base) }
    ensures torn { let left = at_moment moment (mem_state_of disk.now).content in
        IfOk result (λ survivor. IsTorn left (mem_state_of survivor).content.base) }
    ensures good { let left = at_moment moment (mem_state_of disk.now).content in
        IfOk result (λ _. AllGood left picks.now (length picks.now)) }
    ensures good_torn { let left = at_moment moment (mem_state_of disk.now).content in
        IfOk result (λ _. AllGoodTears left picks.now torn.now (length torn.now)) }
    ensures rest { IfOk result (λ survivor. mem_state_of survivor ≡ fresh (mem_state_of survivor).content.base (mem_state_of disk.now).room) }
    ensures bad { IfErr result (IsFault (at_moment moment (mem_state_of disk.now).content) picks.now torn.now) }
{
    let mut image = picked_image(alloc, disk, moment, picks)?;
    let base = disk.base();
    let events = &disk.history()[..moment];
    for (index, tear) in torn.iter().enumerate() {
        if !can_tear(base, events, picks, &torn[..index], tear.n) {
            return Err(SurvivorFault::BadTorn { index });
        }
        put(&mut image, tear.n, &tear.bytes);
    }
    survivor_of(alloc, image, disk.room())
}

// A disk that had this image from the start.
fn survivor_of(alloc: Global, image: Vec<Sector>, room: u64) -> Result<MemDisk, SurvivorFault>
    requires small { length image.items < 2 ^ 44 }
    requires sectors { All IsSector image.items }
    ensures fresh { IfOk result (λ survivor. mem_state_of survivor ≡ fresh image.items room) }
    ensures err { IfErr result (λ fault. fault ≡ SurvivorFault.NoMemory) }
{
    MemDisk::from_sectors(alloc, image, room).map_err(|_| SurvivorFault::NoMemory)
}

// The image that the picks name.
fn picked_image(
    alloc: Global,
    disk: &MemDisk,
    moment: usize,
    picks: &[Pick],
) -> Result<Vec<Sector>, SurvivorFault>
    requires { moment ≤ length (mem_state_of disk.now).content.history }
    ensures image { let left = at_moment moment (mem_state_of disk.now).content in
        IfOk result (λ image. IsImage left (choice_of left picks.now) image.items) }
    ensures sectors { IfOk result (λ image. All IsSector image.items) }
    ensures good { let left = at_moment moment (mem_state_of disk.now).content in
        IfOk result (λ _. AllGood left picks.now (length picks.now)) }
    ensures bad { IfErr result (λ fault. (torn : List Torn) → IsFault (at_moment moment (mem_state_of disk.now).content) picks.now torn fault) }
{
    let Ok(mut image) = disk.sectors_at(alloc, moment) else {
        return Err(SurvivorFault::NoMemory);
    };
    let base = disk.base();
    let events = &disk.history()[..moment];
    for (index, pick) in picks.iter().enumerate() {
        let Some(bytes) = picked_value(base, events, &picks[..index], *pick) else {
            return Err(SurvivorFault::BadPick { index });
        };
        image[pick.n as usize] = bytes;
    }
    Ok(image)
}

// Gives a sector these bytes.
fn put(image: &mut [Sector], n: u64, bytes: &Sector)
    requires { n < length image.old }
    ensures after { image.new ≡ slice_set image.old n bytes.now }
    ensures sector { IsSector bytes.now }
{
    image[n as usize] = *bytes;
}

// Whether a sector may be torn.
fn can_tear(base: &[Sector], events: &[Event], picks: &[Pick], before: &[Torn], n: u64) -> bool
    ensures good { OnTrue result (IsGoodTear (content base.now events.now) picks.now before.now n) }
    ensures bad { OnFalse result (IsBadTear (content base.now events.now) picks.now before.now n) }
{
    n < (base.len() as u64).saturating_sub(1)
        && !is_picked(picks, n)
        && !is_torn(before, n)
        && kept_value(&base[n as usize], events, n, 1).is_some()
}

// Whether a sector is among the torn ones.
pub(crate) fn is_torn(torn: &[Torn], n: u64) -> bool
    ensures { result ≡ is_torn n torn.now }
{
    for tear in torn {
        if tear.n == n {
            return true;
        }
    }
    false
}

// The value that is picked, unless the pick is bad.
fn picked_value(base: &[Sector], events: &[Event], before: &[Pick], pick: Pick) -> Option<Sector>
    ensures good { IfSome result (IsGood (content base.now events.now) before.now pick) }
    ensures bad { IfNone result (IsBad (content base.now events.now) before.now pick) }
{
    if pick.n >= base.len() as u64 || is_picked(before, pick.n) {
        return None;
    }
    kept_value(&base[pick.n as usize], events, pick.n, pick.place)
}

// Whether a sector is among the picks.
pub(crate) fn is_picked(picks: &[Pick], n: u64) -> bool
    ensures { result ≡ is_picked n picks.now }
{
    for pick in picks {
        if pick.n == n {
            return true;
        }
    }
    false
}

// The value at a place among those that a sector may have after events.
pub(crate) fn kept_value(base: &Sector, events: &[Event], n: u64, place: usize) -> Option<Sector>
    ensures { result ≡ slice_get (kept_after events.now n (base.now ∷ [])) place }
{
    let place = place as u64;
    let mut keeping = Keeping::new(*base, place);
    for event in events {
        keeping.add(event, n, place);
    }
    keeping.found
}

// The last of the values so far, how many they are, and the one at a place.
#[derive(Drop)]
struct Keeping {
    last: Sector,
    count: u64,
    found: Option<Sector>,
}

impl Keeping {
    fn new(value: Sector, place: u64) -> Keeping
        ensures { KeepsOf (value ∷ []) place result }
    {
        Keeping {
            last: value,
            count: 1,
            found: if place == 0 { Some(value) } else { None },
        }
    }

    // Goes on by an event.
    fn add(&mut self, event: &Event, n: u64, place: u64)
        requires { self.old.count < 2 ^ 64 - 1 }
        ensures keeps { (values : List (List ℕ)) → KeepsOf values place self.old → KeepsOf (kept_after (event.now ∷ []) n values) place self.new }
        ensures count { self.new.count ≤ self.old.count + 1 }
    {
        match event {
            Event::Write { n: m, bytes } => {
                if *m == n {
                    self.push(*bytes, place);
                }
            }
            Event::Flush => *self = Keeping::new(self.last, place),
        }
    }

    fn push(&mut self, value: Sector, place: u64)
        requires { self.old.count < 2 ^ 64 - 1 }
        ensures keeps { (values : List (List ℕ)) → KeepsOf values place self.old → KeepsOf (values ++ value ∷ []) place self.new }
        ensures count { self.new.count ≡ self.old.count + 1 }
    {
        if self.count == place {
            self.found = Some(value);
        }
        self.last = value;
        self.count += 1;
    }
}
