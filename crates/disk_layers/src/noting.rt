//! What is added to a history.
ghost use Rattle.std.specs.Prelude.{◌≡◌, ◌++◌, ◌∷◌, [], drop, length};
ghost use Rattle.block_traits.specs.declared.disk.Event.TheVariants.{Flush, Write};
ghost use Rattle.disk_layers.specs.History.{moved, told_history, unflushed};
ghost use Rattle.disk_layers.specs.Joined.{joined_history};

use crate::history::{History, Reads};
use block_traits::{Disk, Sector};

// What a disk logged.
struct OfDisk;

impl<D: Disk> Reads<D> for OfDisk {
    ghost events = { λ disk. told_history (D.state disk).content };
}

/// What a disk logged.
pub(crate) fn history_of<D: Disk>(disk: &D) -> History
    ensures { result.events ≡ told_history (D.state disk.now).content }
{
    History::of::<D, OfDisk>(disk)
}

// A history, and a write after it.
#[derive(Drop)]
struct WithWrite<'a> {
    past: &'a History,
    n: u64,
    bytes: &'a Sector,
}

struct AndWrite;

impl<'a> Reads<WithWrite<'a>> for AndWrite {
    ghost events = { λ w. w.past.now.events ++ Write w.n w.bytes.now ∷ [] };
}

/// A history, and a write after it.
pub(crate) fn written(past: &History, n: u64, bytes: &Sector) -> History
    ensures { result.events ≡ past.now.events ++ Write n bytes.now ∷ [] }
{
    History::of::<WithWrite<'_>, AndWrite>(&WithWrite { past, n, bytes })
}

struct AndFlush;

impl Reads<History> for AndFlush {
    ghost events = { λ past. past.events ++ Flush ∷ [] };
}

/// A history, and a flush after it.
pub(crate) fn flushed(past: &History) -> History
    ensures { result.events ≡ past.now.events ++ Flush ∷ [] }
{
    History::of::<History, AndFlush>(past)
}

// Two disks.
#[derive(Drop)]
struct Both<'a, A: Disk, B: Disk> {
    first: &'a A,
    second: &'a B,
}

struct OfBoth;

impl<'a, A: Disk, B: Disk> Reads<Both<'a, A, B>> for OfBoth {
    ghost events = { λ both. joined_history (A.state both.first.now).size (A.state both.first.now).content (B.state both.second.now).content };
}

/// What two disks logged before they were one.
pub(crate) fn both_histories<A: Disk, B: Disk>(first: &A, second: &B) -> History
    ensures { result.events ≡ joined_history (A.state first.now).size (A.state first.now).content (B.state second.now).content }
{
    History::of::<Both<'_, A, B>, OfBoth>(&Both { first, second })
}

// A history, what a disk had logged before a call, and the disk after it, whose sectors come after so many.
#[derive(Drop)]
struct Grown<'a, D: Disk> {
    past: &'a History,
    before: &'a History,
    disk: &'a D,
    size: u64,
}

struct AndFirst;

impl<'a, D: Disk> Reads<Grown<'a, D>> for AndFirst {
    ghost events = { λ w. w.past.now.events ++ unflushed (drop (length w.before.now.events) (told_history (D.state w.disk.now).content)) };
}

/// A history, and the writes after it that a disk logged since.
pub(crate) fn with_first<D: Disk>(past: &History, before: &History, disk: &D) -> History
    ensures { result.events ≡ past.now.events ++ unflushed (drop (length before.now.events) (told_history (D.state disk.now).content)) }
{
    History::of::<Grown<'_, D>, AndFirst>(&Grown {
        past,
        before,
        disk,
        size: 0,
    })
}

struct AndSecond;

impl<'a, D: Disk> Reads<Grown<'a, D>> for AndSecond {
    ghost events = { λ w. w.past.now.events ++ moved w.size (unflushed (drop (length w.before.now.events) (told_history (D.state w.disk.now).content))) };
}

/// A history, and the writes after it that a disk logged since, which comes after so many sectors.
pub(crate) fn with_second<D: Disk>(past: &History, before: &History, disk: &D, size: u64) -> History
    ensures { result.events ≡ past.now.events ++ moved size (unflushed (drop (length before.now.events) (told_history (D.state disk.now).content))) }
{
    History::of::<Grown<'_, D>, AndSecond>(&Grown {
        past,
        before,
        disk,
        size,
    })
}
