//! The metadata at the end of a disk.
ghost use Rattle.std.specs.Prelude.{◌≡◌, ◌<◌, Ok, IsTrue, OnOk, OnErr};
ghost use Rattle.block_traits.specs.Disk.{FailsIn, Logs};
ghost use Rattle.eli_metadata.specs.Format.{encoded, is_served, metadata_in};
ghost use Rattle.eli_metadata.specs.Place.{ReadsMetadata, replace_events};
ghost use Rattle.eli_metadata.specs.Refusals.{read_refusal_of};

use crate::{MetaFault, Metadata, decode, encode};
use block_traits::{Disk, DiskFailed, MetaPlace, store_last};
use eli_base::Refusal;
use thiserror::Error;

/// Why no metadata was read.
#[derive(Clone, Copy, Debug, Error)]
pub enum ReadMetaFault {
    /// The image has fewer than two device sectors. `size` is in bytes.
    #[error("an image of {size} bytes is too small")]
    TooSmall { size: u64 },
    /// The device failed.
    #[error("the device failed")]
    DeviceFault,
    /// The bytes that were read are no metadata.
    #[error("{0}")]
    Meta(MetaFault),
}

impl From<ReadMetaFault> for Refusal {
    ghost from_gives = { λ fault refusal. refusal ≡ read_refusal_of fault };

    fn from(fault: ReadMetaFault) -> Refusal {
        match fault {
            ReadMetaFault::TooSmall { size } => Refusal::TooSmall { size },
            ReadMetaFault::DeviceFault => Refusal::DeviceFault,
            ReadMetaFault::Meta(fault) => Refusal::from(fault),
        }
    }
}

/// Reads the metadata in the last device sector.
///
/// Faults are reported in this order: `TooSmall`, exactly if there are fewer than two device sectors, and then no call
/// is made; `DeviceFault`, only if the count of faults rose; the fault of `decode`. The sector is read once, even if
/// that fails.
pub fn read_metadata<P: MetaPlace>(place: &mut P) -> Result<Metadata, ReadMetaFault>
    ensures reads { ReadsMetadata (P.state place.old) result (P.state place.new) }
    ensures rest { P.rest place.new ≡ P.rest place.old }
{
    let sectors = place.sectors();
    if sectors < 2 {
        return Err(ReadMetaFault::TooSmall {
            size: 512 * sectors,
        });
    }
    let mut bytes = [0; 512];
    if place.load(&mut bytes).is_err() {
        return Err(ReadMetaFault::DeviceFault);
    }
    decode(&bytes).map_err(ReadMetaFault::Meta)
}

/// Replaces the content of the last sector by metadata: flushes what was written before, writes the metadata, and
/// flushes again. After a failure the first few of these three events were done (none, some or all), and no others.
/// Nothing is read.
///
/// The sector that is written is read as this metadata, if its version is one that is read.
pub fn replace_metadata<D: Disk>(disk: &mut D, meta: &Metadata) -> Result<(), DiskFailed>
    requires { 0 < (D.state disk.old).size }
    ensures read { IsTrue (is_served meta.now.version meta.now.flags) → metadata_in (encoded meta.now) ≡ Ok meta.now }
    ensures ok { OnOk result (Logs (replace_events (D.state disk.old) meta.now) (D.state disk.old) (D.state disk.new)) }
    ensures err { OnErr result (FailsIn (replace_events (D.state disk.old) meta.now) (D.state disk.old) (D.state disk.new)) }
    ensures unasked { (D.state disk.new).reads ≡ (D.state disk.old).reads }
{
    let mut sector = [0; 512];
    encode(meta, &mut sector);
    disk.flush()?;
    store_last(disk, &sector)
}
