//! Sectors are written to a file that is held, and only as far as it reaches.
ghost use Rattle.std.specs.Prelude.{◌≡◌, ◌≤◌, ◌^◌, ◌+◌, ◌/◌, ◌%◌, is_ok, length, true};
ghost use Rattle.std.specs.IoError.{error_kind};
ghost use Rattle.block_traits.specs.Disk.{write_events};
ghost use Rattle.file_edge.specs.Told.{Leaves, contents, told_in};
ghost use Rattle.file_edge.specs.Writing.{PutsBytesThere, WritesFile, WritesHeld, WritesWithin, why_if, why_of};

use crate::image_file::ImageFile;
use std::io::{self, ErrorKind};

/// Why a write wasn't done.
#[derive(Clone, Copy, Debug, PartialEq, Eq)]
pub enum Unwritten {
    /// The device is full, or the part of it that its user may take.
    NoRoom,
    /// Anything else.
    Failed,
}

impl Unwritten {
    fn of(error: &io::Error) -> Unwritten
        ensures { result ≡ why_of (error_kind error.now) }
    {
        match error.kind() {
            ErrorKind::StorageFull | ErrorKind::QuotaExceeded => Unwritten::NoRoom,
            _ => Unwritten::Failed,
        }
    }

    /// Whether room was wanting.
    pub(crate) fn is_for_room(self) -> bool
        ensures { self ≡ why_if result }
    {
        match self {
            Unwritten::NoRoom => true,
            Unwritten::Failed => false,
        }
    }
}

// Writes whole sectors by one call.
fn put<F: ImageFile>(file: &mut F, at: u64, from: &[u8]) -> Result<(), Unwritten>
    requires held { F.held file.old ≡ true }
    requires at { at % 512 ≡ 0 }
    requires whole { length from.now % 512 ≡ 0 }
    ensures placed { PutsBytesThere (⟦<F as ImageFile>⟧) at from.now result file.old file.new }
    ensures told { Leaves (write_events (at / 512) from.now) (at / 512 + length from.now / 512) (is_ok result)
        (contents (F.told file.old)) (contents (F.told file.new)) }
{
    match file.write_bytes(at, from) {
        Ok(()) => Ok(()),
        Err(error) => Err(Unwritten::of(&error)),
    }
}

// Writes whole sectors by one call, if the file still reaches so far: it may have become shorter, and isn't made
// longer.
#[tactic(auto, using(crate::proofs::Left::leaves_nothing))]
fn write_within<F: ImageFile>(file: &mut F, at: u64, from: &[u8]) -> Result<(), Unwritten>
    requires held { F.held file.old ≡ true }
    requires fits { at + length from.now ≤ 2 ^ 53 }
    requires at { at % 512 ≡ 0 }
    requires whole { length from.now % 512 ≡ 0 }
    ensures placed { WritesWithin (⟦<F as ImageFile>⟧) at from.now result file.old file.new }
    ensures told { Leaves (write_events (at / 512) from.now) (at / 512 + length from.now / 512) (is_ok result)
        (contents (F.told file.old)) (contents (F.told file.new)) }
{
    match file.end() {
        Ok(end) if at + from.len() as u64 <= end => put(file, at, from),
        _ => Err(Unwritten::Failed),
    }
}

// Writes whole sectors to a file that is held, and nothing to another.
#[tactic(auto, using(crate::proofs::Left::leaves_nothing))]
fn write_held<F: ImageFile>(file: &mut F, at: u64, from: &[u8]) -> Result<(), Unwritten>
    requires fits { at + length from.now ≤ 2 ^ 53 }
    requires at { at % 512 ≡ 0 }
    requires whole { length from.now % 512 ≡ 0 }
    ensures placed { WritesHeld (⟦<F as ImageFile>⟧) at from.now result file.old file.new }
    ensures told { Leaves (write_events (at / 512) from.now) (at / 512 + length from.now / 512) (is_ok result)
        (contents (F.told file.old)) (contents (F.told file.new)) }
{
    if !file.is_held() {
        return Err(Unwritten::Failed);
    }
    write_within(file, at, from)
}

/// Writes whole sectors by one call, if a file is open, is held and still reaches so far.
#[tactic(auto, using(crate::proofs::Left::leaves_nothing))]
pub(crate) fn write_open<F: ImageFile>(
    file: &mut Option<F>,
    at: u64,
    from: &[u8],
) -> Result<(), Unwritten>
    requires fits { at + length from.now ≤ 2 ^ 53 }
    requires at { at % 512 ≡ 0 }
    requires whole { length from.now % 512 ≡ 0 }
    ensures placed { WritesFile (⟦<F as ImageFile>⟧) at from.now result file.old file.new }
    ensures told { Leaves (write_events (at / 512) from.now) (at / 512 + length from.now / 512) (is_ok result)
        (contents (told_in F.told file.old)) (contents (told_in F.told file.new)) }
{
    match file {
        Some(file) => write_held(file, at, from),
        None => Err(Unwritten::Failed),
    }
}
