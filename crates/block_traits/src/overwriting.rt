//! A sector whose bytes are destroyed by writing over them several times.
ghost use Rattle.std.specs.Prelude.{◌≡◌, ◌<◌, ◌≤◌, ◌+◌, ◌*◌, ◌∷◌, [], ℕ, List, OnOk, OnErr, length, map};
ghost use Rattle.block_traits.specs.Disk.{DiskState, FailsIn, Logs, last_sector};
ghost use Rattle.block_traits.specs.Overwriting.{overwrite_events, passes_of, piece_of, zeros};

use crate::meta_place::write_through;
use crate::{Disk, DiskFailed, Event, MetaPlace, Sector};

// As many zeros as the largest place has bytes.
const ZEROS: [u8; 512] = [0; 512];

/// A place that six passes overwrite, and the sector that results from the bytes put there.
pub trait Pass {
    /// How many bytes the place has.
    ghost size: { Self → ℕ };

    /// The sector that has these bytes in the place.
    ghost sector: { Self → List ℕ → List ℕ };

    /// How many bytes the place has.
    fn size(&self) -> usize
        ensures size { result ≡ size self.now }
        ensures bound { result ≤ 512 };

    /// The sector that has these bytes in the place.
    fn sector(&self, bytes: &[u8]) -> Sector
        requires { length bytes.now ≡ size self.now }
        ensures { result ≡ sector self.now bytes.now };
}

// Piece number `place` of random bytes that are cut into pieces of `size` bytes.
fn piece_at(random: &[u8], size: usize, place: usize) -> &[u8]
    requires { size * place + size ≤ length random.now }
    ensures { result.now ≡ piece_of size random.now place }
{
    &random[size * place..size * place + size]
}

// The sector of the last pass, which has zeros in the place.
fn last_pass<S: Pass>(pass: &S) -> Sector
    ensures { result ≡ S.sector pass.now (zeros (S.size pass.now)) }
{
    pass.sector(&ZEROS[..pass.size()])
}

/// The sectors of six passes, in order: five have these random bytes in the place, piece by piece, and the last
/// has zeros there.
pub fn passes<S: Pass>(pass: &S, random: &[u8]) -> [Sector; 6]
    requires { length random.now ≡ 5 * S.size pass.now }
    ensures { result ≡ map (S.sector pass.now) (passes_of (S.size pass.now) random.now) }
{
    let size = pass.size();
    [
        pass.sector(piece_at(random, size, 0)),
        pass.sector(piece_at(random, size, 1)),
        pass.sector(piece_at(random, size, 2)),
        pass.sector(piece_at(random, size, 3)),
        pass.sector(piece_at(random, size, 4)),
        last_pass(pass),
    ]
}

// A sector of a device: a disk, or a place of metadata.
trait SectorOf<T> {
    // The state of the device's disk.
    ghost state: { T → DiskState };

    // What else the device keeps.
    ghost rest: { T → List ℕ };

    // The number of the sector.
    ghost number: { Self → T → ℕ };

    // Writes the sector, and then flushes. After a failure the write alone was done, or both, or neither.
    fn store(&self, device: &mut T, from: &Sector) -> Result<(), DiskFailed>
        requires { number self.now device.old < (state device.old).size }
        ensures ok { OnOk result (Logs (Event.Write (number self.now device.old) from.now ∷ Event.Flush ∷ []) (state device.old) (state device.new)) }
        ensures err { OnErr result (FailsIn (Event.Write (number self.now device.old) from.now ∷ Event.Flush ∷ []) (state device.old) (state device.new)) }
        ensures unasked { (state device.new).reads ≡ (state device.old).reads }
        ensures number { OnOk result (number self.now device.new ≡ number self.now device.old) }
        ensures rest { rest device.new ≡ rest device.old };
}

// A sector of a disk, by its number.
#[derive(Clone, Copy)]
struct Numbered(u64);

impl<D: Disk> SectorOf<D> for Numbered {
    ghost state = { λ disk. D.state disk };

    ghost rest = { λ _. [] };

    ghost number = { λ sector _. sector.0 };

    fn store(&self, disk: &mut D, from: &Sector) -> Result<(), DiskFailed> {
        write_through(disk, self.0, from)
    }
}

// The last sector, where the metadata stand.
#[derive(Clone, Copy)]
struct Last;

impl<P: MetaPlace> SectorOf<P> for Last {
    ghost state = { λ place. P.state place };

    ghost rest = { λ place. P.rest place };

    ghost number = { λ _ place. last_sector (P.state place) };

    fn store(&self, place: &mut P, from: &Sector) -> Result<(), DiskFailed> {
        place.store(from)
    }
}

// Stores each of these values in a sector, in order, with a flush after each.
fn store_each<T, S: SectorOf<T>>(
    sector: &S,
    device: &mut T,
    values: &[Sector],
) -> Result<(), DiskFailed>
    requires { S.number sector.now device.old < (S.state device.old).size }
    ensures ok { OnOk result (Logs (overwrite_events (S.number sector.now device.old) values.now) (S.state device.old) (S.state device.new)) }
    ensures err { OnErr result (FailsIn (overwrite_events (S.number sector.now device.old) values.now) (S.state device.old) (S.state device.new)) }
    ensures unasked { (S.state device.new).reads ≡ (S.state device.old).reads }
    ensures rest { S.rest device.new ≡ S.rest device.old }
{
    for value in values {
        sector.store(device, value)?;
    }
    Ok(())
}

/// Writes each of these values to sector `n`, in order, with a flush after each. After a failure the first few of these
/// events were done (none, some or all), and no others. Nothing is read.
pub fn overwrite<D: Disk>(disk: &mut D, n: u64, values: &[Sector]) -> Result<(), DiskFailed>
    requires { n < (D.state disk.old).size }
    ensures ok { OnOk result (Logs (overwrite_events n values.now) (D.state disk.old) (D.state disk.new)) }
    ensures err { OnErr result (FailsIn (overwrite_events n values.now) (D.state disk.old) (D.state disk.new)) }
    ensures unasked { (D.state disk.new).reads ≡ (D.state disk.old).reads }
{
    store_each(&Numbered(n), disk, values)
}

/// Writes each of these values to the last sector, in order, with a flush after each. After a failure the first few of
/// these events were done (none, some or all), and no others. Nothing is read.
pub fn overwrite_last<P: MetaPlace>(place: &mut P, values: &[Sector]) -> Result<(), DiskFailed>
    requires { 0 < (P.state place.old).size }
    ensures ok { OnOk result (Logs (overwrite_events (last_sector (P.state place.old)) values.now) (P.state place.old) (P.state place.new)) }
    ensures err { OnErr result (FailsIn (overwrite_events (last_sector (P.state place.old)) values.now) (P.state place.old) (P.state place.new)) }
    ensures unasked { (P.state place.new).reads ≡ (P.state place.old).reads }
    ensures rest { P.rest place.new ≡ P.rest place.old }
{
    store_each(&Last, place, values)
}
