//! A provider that is a disk again.
ghost use Rattle.std.specs.Prelude.{◌≡◌, ◌↔◌, IsTrue, IfOk, IfErr, OnOk, OnErr, false};
ghost use Rattle.provider_disk.specs.Opened.{CanBeDisk};
ghost use Rattle.range_keys.specs.Ring.{IsKeying};
ghost use Rattle.sealing.specs.Sectors.{IsSingle};

use block_traits::{Disk, DiskFailed, Event, Sector};
use eli_base::Cipher;
use provider::Provider;

/// A provider as a disk: its logical sectors are the sectors. If the disk below reports its sectors, this one does too:
/// its base is what the base below reads as, and its history the one below, with each write opened and without the
/// writes of the last sector. It shows no events.
// The bound is `Drop` and not `Disk`, so that the type may be named at a boxed disk.
#[derive(Drop)]
pub struct ProviderDisk<D: Drop> {
    on: Provider<D>,
    ghost valid: { IsKeying on.keying },
    ghost single: { IsSingle on.keying },
    ghost writable: { on.readonly ≡ false },
}

// Whether a provider may be a disk again.
fn can_be_disk<D: Disk>(on: &Provider<D>) -> bool
    ensures { IsTrue result ↔ CanBeDisk on.now.keying on.now.readonly }
{
    on.cipher() == Cipher::AesXts && on.sector_size() == 512 && on.units() == 1 && !on.read_only()
}

impl<D: Disk> ProviderDisk<D> {
    /// The provider as a disk. It comes back exactly if it isn't one under AES-XTS without authentication, with sectors
    /// of 512 bytes, and open for writing. No call of its disk is made.
    pub fn new(on: Provider<D>) -> Result<ProviderDisk<D>, Provider<D>>
        ensures made { IfOk result (λ disk. disk.on ≡ on) }
        ensures can { OnOk result (CanBeDisk on.keying on.readonly) }
        ensures back { IfErr result (λ provider. provider ≡ on) }
        ensures cannot { OnErr result (CanBeDisk on.keying on.readonly → ⊥) }
    {
        on.is_of_a_keying();
        if can_be_disk(&on) {
            Ok(ProviderDisk { on })
        } else {
            Err(on)
        }
    }

    /// Gives the provider back as it is. No call of its disk is made.
    pub fn close(self) -> Provider<D>
        ensures { result ≡ self.on }
    {
        self.on
    }
}

/// Each call is one of the provider for one logical sector: a read reads one sector below, and nothing else does. It is
/// refused only if the disk below failed.
impl<D: Disk> Disk for ProviderDisk<D> {
    ghost use Rattle.provider_disk.specs.ProviderDisk.{provider_disk_of};

    ghost state = { provider_disk_of D.state };

    ghost wants_room = { λ disk. D.wants_room disk.on.disk };

    fn sectors(&self) -> u64 {
        self.on.sectors()
    }

    fn read(&mut self, n: u64, into: &mut Sector) -> Result<(), DiskFailed> {
        match self.on.read(n, into) {
            Ok(()) => Ok(()),
            Err(_) => Err(DiskFailed),
        }
    }

    fn count_reads(&mut self, many: u64) {
        self.on.count_reads(many);
    }

    fn write(&mut self, n: u64, from: &Sector) -> Result<(), DiskFailed> {
        match self.on.write(n, from) {
            Ok(()) => Ok(()),
            Err(_) => Err(DiskFailed),
        }
    }

    fn flush(&mut self) -> Result<(), DiskFailed> {
        self.on.flush()
    }

    fn events(&self) -> Option<&[Event]> {
        None
    }

    fn wants_room(&self) -> bool {
        self.on.wants_room()
    }
}
