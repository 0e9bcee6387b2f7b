//! Ranges of bytes of a provider, and reading them.
ghost use Rattle.std.specs.Prelude.{◌≡◌, ◌+◌, ◌*◌, ◌<◌, ◌≤◌, drop, false, length, take, true};
ghost use Rattle.provider.specs.Attached.{IsKept, media};
ghost use Rattle.sealing.specs.Sectors.{units};
ghost use Rattle.byte_ranges.specs.Ranges.{IsCoverOf, IsInside, data_size};
ghost use Rattle.byte_ranges.specs.Reads.{ReadsRange, ReadsWholeSectors};

use crate::cover::Cover;
use block_traits::Disk;
use provider::Provider;

/// Some bytes of a provider, from an offset on.
#[derive(Clone, Copy, Debug, PartialEq, Eq)]
pub struct ByteRange {
    /// The first byte.
    pub offset: u64,
    /// How many bytes there are.
    pub count: u32,
}

/// How many bytes a provider has: those of its logical sectors.
pub fn size_of_data<D: Disk>(provider: &Provider<D>) -> u64
    ensures { result ≡ data_size provider.now.keying (D.state provider.now.disk) }
{
    provider.is_of_a_keying();
    let units = provider.units();
    let sectors = provider.sectors();
    let size = provider.sector_size();
    let _ = units;
    sectors * u64::from(size)
}

/// Whether a provider has all bytes of a range.
pub fn has_range<D: Disk>(provider: &Provider<D>, range: &ByteRange) -> bool
    ensures there { result ≡ true → IsInside provider.now.keying (D.state provider.now.disk) range.now }
    ensures past { result ≡ false → data_size provider.now.keying (D.state provider.now.disk) < range.now.offset + range.now.count }
{
    let size = size_of_data(provider);
    let count = u64::from(range.count);
    if count > size {
        return false;
    }
    if range.offset > size - count {
        return false;
    }
    true
}

// Reads whole sectors. `false`: the disk failed, or a unit has another tag than that of its ciphertext.
pub(crate) fn read_sectors<D: Disk>(
    provider: &mut Provider<D>,
    first: u64,
    count: usize,
    into: &mut [u8],
) -> bool
    requires size { length into.old ≡ count * provider.old.keying.sectorsize }
    requires some { 1 ≤ count }
    requires wide { 512 ≤ provider.old.keying.sectorsize }
    requires inside { first + count ≤ media provider.old.keying (D.state provider.old.disk) }
    ensures reads { ReadsWholeSectors provider.old.keying first count into.new result (D.state provider.old.disk) (D.state provider.new.disk) }
    ensures asked { (D.state provider.new.disk).reads ≤ (D.state provider.old.disk).reads + count * units provider.old.keying }
    ensures kept { IsKept provider.old provider.new }
{
    let _ = count;
    match provider.read(first, into) {
        Ok(()) => true,
        Err(_) => false,
    }
}

/// Reads the sectors of a range. Its bytes then stand in `into` from `cover.skip` on. `false`: the disk failed, or a
/// unit has another tag than that of its ciphertext.
pub fn read_range<D: Disk>(
    provider: &mut Provider<D>,
    range: &ByteRange,
    cover: &Cover,
    into: &mut [u8],
) -> bool
    requires inside { IsInside provider.old.keying (D.state provider.old.disk) range.now }
    requires covers { IsCoverOf provider.old.keying range.now cover.now }
    requires size { length into.old ≡ cover.now.whole }
    requires wide { 512 ≤ provider.old.keying.sectorsize }
    ensures reads { ReadsRange provider.old.keying range.now (take range.now.count (drop cover.now.skip into.new)) result
        (D.state provider.old.disk) (D.state provider.new.disk) }
    ensures kept { IsKept provider.old provider.new }
{
    let _ = range;
    read_sectors(provider, cover.first, cover.count, into)
}
