//! Writes of bytes that may cover sectors in part.
ghost use Rattle.std.specs.Prelude.{◌≡◌, ◌+◌, ◌*◌, ◌<◌, ◌≤◌, drop, false, length, take};
ghost use Rattle.aes_core.specs.Schedule.{AreBytes};
ghost use Rattle.provider.specs.Attached.{IsKept, media};
ghost use Rattle.sector_runs.specs.Writing.{data_writes};
ghost use Rattle.sealing.specs.Sectors.{units};
ghost use Rattle.byte_ranges.specs.Edges.{PutsBackEdge, PutsFrontEdge, ReadsEdge};
ghost use Rattle.byte_ranges.specs.Ranges.{IsCoverOf, IsInside};
ghost use Rattle.byte_ranges.specs.Writes.{FlushesWhere, LogsOrFails, SplicesInto, WritesRange};

use crate::cover::Cover;
use crate::ranges::{ByteRange, read_sectors};
use block_traits::Disk;
use provider::Provider;

/// What became of a write of a range.
#[derive(Clone, Copy, Debug, PartialEq, Eq)]
pub enum Written {
    /// It was made whole, and flushed if that was asked for.
    Whole,
    /// The first or the last sector, which it covers in part, can't be read. Nothing was written.
    EdgeUnread,
    /// The disk failed at a write.
    WriteFailed,
    /// All was written, and the disk failed at the flush that was asked for.
    FlushFailed,
}

// Reads a sector that a write covers in part.
pub(crate) fn read_edge<D: Disk>(provider: &mut Provider<D>, sector: u64, into: &mut [u8]) -> bool
    requires size { length into.old ≡ provider.old.keying.sectorsize }
    requires wide { 512 ≤ provider.old.keying.sectorsize }
    requires inside { sector + 1 ≤ media provider.old.keying (D.state provider.old.disk) }
    ensures reads { ReadsEdge provider.old.keying sector into.new result (D.state provider.old.disk) (D.state provider.new.disk) }
    ensures asked { (D.state provider.new.disk).reads ≤ (D.state provider.old.disk).reads + units provider.old.keying }
    ensures kept { IsKept provider.old provider.new }
{
    read_sectors(provider, sector, 1, into)
}

// Puts the first bytes of a sector before the bytes of a write.
pub(crate) fn put_front<D: Disk>(
    provider: &mut Provider<D>,
    sectors: &mut [u8],
    edge: &mut [u8],
    sector: u64,
    skip: usize,
) -> bool
    requires edge { length edge.old ≡ 65536 }
    requires wide { 512 ≤ provider.old.keying.sectorsize }
    requires skip { skip < provider.old.keying.sectorsize }
    requires within { skip ≤ length sectors.old }
    requires inside { sector + 1 ≤ media provider.old.keying (D.state provider.old.disk) }
    ensures puts { PutsFrontEdge provider.old.keying sector skip sectors.old sectors.new result (D.state provider.old.disk) (D.state provider.new.disk) }
    ensures asked { (D.state provider.new.disk).reads ≤ (D.state provider.old.disk).reads + units provider.old.keying }
    ensures unasked { skip ≡ 0 → (D.state provider.new.disk).reads ≡ (D.state provider.old.disk).reads }
    ensures kept { IsKept provider.old provider.new }
{
    if skip == 0 {
        return true;
    }
    let size = provider.sector_size() as usize;
    let edge = &mut edge[..size];
    if !read_edge(provider, sector, edge) {
        return false;
    }
    sectors[..skip].copy_from_slice(&edge[..skip]);
    true
}

// Puts the last bytes of a sector after the bytes of a write.
fn put_back<D: Disk>(
    provider: &mut Provider<D>,
    sectors: &mut [u8],
    edge: &mut [u8],
    sector: u64,
    end: usize,
) -> bool
    requires edge { length edge.old ≡ 65536 }
    requires wide { 512 ≤ provider.old.keying.sectorsize }
    requires within { end ≤ length sectors.old }
    requires least { length sectors.old < end + provider.old.keying.sectorsize }
    requires inside { sector + 1 ≤ media provider.old.keying (D.state provider.old.disk) }
    ensures puts { PutsBackEdge provider.old.keying sector end sectors.old sectors.new result (D.state provider.old.disk) (D.state provider.new.disk) }
    ensures asked { (D.state provider.new.disk).reads ≤ (D.state provider.old.disk).reads + units provider.old.keying }
    ensures unasked { end ≡ length sectors.old → (D.state provider.new.disk).reads ≡ (D.state provider.old.disk).reads }
    ensures kept { IsKept provider.old provider.new }
{
    let left = sectors.len() - end;
    if left == 0 {
        return true;
    }
    let size = provider.sector_size() as usize;
    let edge = &mut edge[..size];
    if !read_edge(provider, sector, edge) {
        return false;
    }
    sectors[end..].copy_from_slice(&edge[size - left..]);
    true
}

// Puts beside the bytes of a write, which stand at their places among the bytes of its sectors, what the first and the
// last sector have there. `edge` is room for one sector. `false`: the disk failed, or a unit of such a sector has
// another tag than that of its ciphertext.
fn splice<D: Disk>(
    provider: &mut Provider<D>,
    sectors: &mut [u8],
    edge: &mut [u8],
    range: &ByteRange,
    cover: &Cover,
) -> bool
    requires edge { length edge.old ≡ 65536 }
    requires wide { 512 ≤ provider.old.keying.sectorsize }
    requires small { provider.old.keying.sectorsize ≤ 65536 }
    requires some { 0 < range.now.count }
    requires few { range.now.count ≤ 33554432 }
    requires inside { IsInside provider.old.keying (D.state provider.old.disk) range.now }
    requires covers { IsCoverOf provider.old.keying range.now cover.now }
    requires size { length sectors.old ≡ cover.now.whole }
    ensures splices { SplicesInto provider.old.keying range.now cover.now.skip sectors.old sectors.new result (D.state provider.old.disk) (D.state provider.new.disk) }
    ensures asked { (D.state provider.new.disk).reads ≤ (D.state provider.old.disk).reads + 2 * units provider.old.keying }
    ensures unasked { cover.now.skip ≡ 0 → range.now.count ≡ cover.now.whole → (D.state provider.new.disk).reads ≡ (D.state provider.old.disk).reads }
    ensures kept { IsKept provider.old provider.new }
{
    let last = cover.first + (cover.count as u64 - 1);
    let end = cover.skip + range.count as usize;
    if !put_front(provider, sectors, edge, cover.first, cover.skip) {
        return false;
    }
    put_back(provider, sectors, edge, last, end)
}

// Each byte is a number below 256.
pub(crate) fn are_bytes(bytes: &[u8])
    ensures { AreBytes bytes.now }
{
    let _ = bytes;
}

// Writes whole sectors. `false`: the disk failed.
pub(crate) fn write_sectors<D: Disk>(
    provider: &mut Provider<D>,
    first: u64,
    count: usize,
    from: &[u8],
) -> bool
    requires size { length from.now ≡ count * provider.old.keying.sectorsize }
    requires some { 1 ≤ count }
    requires wide { 512 ≤ provider.old.keying.sectorsize }
    requires inside { first + count ≤ media provider.old.keying (D.state provider.old.disk) }
    requires writable { provider.old.readonly ≡ false }
    ensures writes { LogsOrFails (data_writes provider.old.keying first count from.now) result (D.state provider.old.disk) (D.state provider.new.disk) }
    ensures unasked { (D.state provider.new.disk).reads ≡ (D.state provider.old.disk).reads }
    ensures kept { IsKept provider.old provider.new }
{
    let _ = count;
    match provider.write(first, from) {
        Ok(()) => true,
        Err(_) => false,
    }
}

// Flushes the disk if `wanted` says so.
pub(crate) fn flush_where<D: Disk>(provider: &mut Provider<D>, wanted: bool) -> Written
    ensures flushes { FlushesWhere wanted result (D.state provider.old.disk) (D.state provider.new.disk) }
    ensures unasked { (D.state provider.new.disk).reads ≡ (D.state provider.old.disk).reads }
    ensures kept { IsKept provider.old provider.new }
{
    if !wanted {
        return Written::Whole;
    }
    match provider.flush() {
        Ok(()) => Written::Whole,
        Err(_) => Written::FlushFailed,
    }
}

/// Writes a range, whose bytes stand in `sectors` from `cover.skip` on, and flushes the disk if `flush` says so. What
/// the first and the last sector have beside the range is read first: at most two sectors, and none if the range is
/// whole sectors. `edge` is room for one sector. A sector that had to be read can't be if the disk failed, or a unit of it
/// has another tag than that of its ciphertext.
pub fn write_range<D: Disk>(
    provider: &mut Provider<D>,
    sectors: &mut [u8],
    edge: &mut [u8],
    range: &ByteRange,
    cover: &Cover,
    flush: bool,
) -> Written
    requires edge { length edge.old ≡ 65536 }
    requires wide { 512 ≤ provider.old.keying.sectorsize }
    requires small { provider.old.keying.sectorsize ≤ 65536 }
    requires writable { provider.old.readonly ≡ false }
    requires some { 0 < range.now.count }
    requires few { range.now.count ≤ 33554432 }
    requires inside { IsInside provider.old.keying (D.state provider.old.disk) range.now }
    requires covers { IsCoverOf provider.old.keying range.now cover.now }
    requires size { length sectors.old ≡ cover.now.whole }
    ensures writes { WritesRange provider.old.keying range.now flush (take range.now.count (drop cover.now.skip sectors.old)) result
        (D.state provider.old.disk) (D.state provider.new.disk) }
    ensures asked { (D.state provider.new.disk).reads ≤ (D.state provider.old.disk).reads + 2 * units provider.old.keying }
    ensures unasked { cover.now.skip ≡ 0 → range.now.count ≡ cover.now.whole → (D.state provider.new.disk).reads ≡ (D.state provider.old.disk).reads }
    ensures kept { IsKept provider.old provider.new }
{
    if !splice(provider, sectors, edge, range, cover) {
        return Written::EdgeUnread;
    }
    are_bytes(sectors);
    if !write_sectors(provider, cover.first, cover.count, sectors) {
        return Written::WriteFailed;
    }
    flush_where(provider, flush)
}
