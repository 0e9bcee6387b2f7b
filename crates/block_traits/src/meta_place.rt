//! The last sector of a disk, where the metadata of a provider stands (g_eli.h).
ghost use Rattle.std.specs.Prelude.{◌≡◌, ◌<◌, ◌∷◌, [], ℕ, List, OnOk, OnErr};
ghost use Rattle.block_traits.specs.Causes.{Counted};
ghost use Rattle.block_traits.specs.Disk.{DiskState, FailsIn, Gives, Logs, last_sector, store_events};

use crate::{Disk, DiskFailed, Event, Sector};

/// A disk of which any sector may be read, and only the last one, which has the metadata, may be written.
pub trait MetaPlace {
    /// The state of the disk.
    ghost state: { Self → DiskState };

    /// What else the object keeps, in numbers of its own choice. No call changes it.
    ghost rest: { Self → List ℕ };

    /// The size of the disk in sectors.
    fn sectors(&self) -> u64
        ensures { result ≡ (state self.now).size };

    /// Reads sector `n`, once. After a failure `into` may hold any bytes.
    fn load_sector(&mut self, n: u64, into: &mut Sector) -> Result<(), DiskFailed>
        requires { n < (state self.old).size }
        ensures bytes { OnOk result (Gives (state self.old) n into.new) }
        ensures ok { OnOk result (Logs [] (state self.old) (state self.new)) }
        ensures err { OnErr result (FailsIn [] (state self.old) (state self.new)) }
        ensures asked { Counted 1 (state self.old).reads (state self.new).reads }
        ensures rest { rest self.new ≡ rest self.old };

    /// Reads the last sector, once. After a failure `into` may hold any bytes.
    fn load(&mut self, into: &mut Sector) -> Result<(), DiskFailed>
        requires { 0 < (state self.old).size }
        ensures bytes { OnOk result (Gives (state self.old) (last_sector (state self.old)) into.new) }
        ensures ok { OnOk result (Logs [] (state self.old) (state self.new)) }
        ensures err { OnErr result (FailsIn [] (state self.old) (state self.new)) }
        ensures asked { Counted 1 (state self.old).reads (state self.new).reads }
        ensures rest { rest self.new ≡ rest self.old }
    {
        let last = self.sectors() - 1;
        self.load_sector(last, into)
    }

    /// Writes the last sector, and then flushes. After a failure the write alone was done, or both, or neither. Nothing
    /// is read.
    fn store(&mut self, from: &Sector) -> Result<(), DiskFailed>
        requires { 0 < (state self.old).size }
        ensures ok { OnOk result (Logs (store_events (state self.old) from.now) (state self.old) (state self.new)) }
        ensures err { OnErr result (FailsIn (store_events (state self.old) from.now) (state self.old) (state self.new)) }
        ensures unasked { (state self.new).reads ≡ (state self.old).reads }
        ensures rest { rest self.new ≡ rest self.old };
}

/// The last sector of a disk that no provider holds.
#[derive(Drop)]
pub struct LastSector<D: Disk> {
    /// The disk.
    pub disk: D,
}

impl<D: Disk> LastSector<D> {
    /// Takes over the disk. Calls none of its functions.
    pub fn new(disk: D) -> LastSector<D>
        ensures { result.disk ≡ disk }
    {
        LastSector { disk }
    }

    /// Returns the disk as it is now. Calls none of its functions.
    pub fn into_disk(self) -> D
        ensures { result ≡ self.disk }
    {
        let LastSector { disk } = self;
        disk
    }
}

/// The place has the disk's state, and keeps nothing else.
impl<D: Disk> MetaPlace for LastSector<D> {
    ghost state = { λ place. D.state place.disk };

    ghost rest = { λ _. [] };

    fn sectors(&self) -> u64 {
        self.disk.sectors()
    }

    fn load_sector(&mut self, n: u64, into: &mut Sector) -> Result<(), DiskFailed> {
        self.disk.read(n, into)
    }

    fn store(&mut self, from: &Sector) -> Result<(), DiskFailed> {
        store_last(&mut self.disk, from)
    }
}

/// Writes the last sector of a disk, and then flushes. After a failure the write alone was done, or both, or neither.
/// Nothing is read.
pub fn store_last<D: Disk>(disk: &mut D, from: &Sector) -> Result<(), DiskFailed>
    requires { 0 < (D.state disk.old).size }
    ensures ok { OnOk result (Logs (store_events (D.state disk.old) from.now) (D.state disk.old) (D.state disk.new)) }
    ensures err { OnErr result (FailsIn (store_events (D.state disk.old) from.now) (D.state disk.old) (D.state disk.new)) }
    ensures unasked { (D.state disk.new).reads ≡ (D.state disk.old).reads }
{
    let last = disk.sectors() - 1;
    write_through(disk, last, from)
}

/// Writes sector `n` of a disk, and then flushes. After a failure the write alone was done, or both, or neither.
/// Nothing is read.
pub(crate) fn write_through<D: Disk>(disk: &mut D, n: u64, from: &Sector) -> Result<(), DiskFailed>
    requires { n < (D.state disk.old).size }
    ensures ok { OnOk result (Logs (Event.Write n from.now ∷ Event.Flush ∷ []) (D.state disk.old) (D.state disk.new)) }
    ensures err { OnErr result (FailsIn (Event.Write n from.now ∷ Event.Flush ∷ []) (D.state disk.old) (D.state disk.new)) }
    ensures unasked { (D.state disk.new).reads ≡ (D.state disk.old).reads }
{
    disk.write(n, from)?;
    disk.flush()
}
