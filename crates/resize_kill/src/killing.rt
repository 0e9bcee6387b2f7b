//! The end of a provider's metadata.

ghost use Rattle.resize_kill.specs.Killing.{Kills};

use crate::trash::{destroy, draw};
use block_traits::{Disk, Entropy};
use eli_base::Refusal;

/// Destroys the metadata in the last sector of a disk, whatever this sector holds: it is written and flushed six
/// times, five times with random bytes and once with zeros. The first sixteen bytes, where the magic stands, are
/// zeros each time (geli(8), kill). Nothing is read.
///
/// Once the first flush landed, the last sector holds no metadata any more, whenever power fails, so no key opens it
/// (`kill_leaves_no_metadata`).
///
/// Refusals are returned in this order: `TooSmall` (in bytes), exactly if there are fewer than two device sectors, and
/// then nothing was done; `EntropyFault`, only if the entropy failed, and then the disk is as it was; `DeviceFault`,
/// only if the disk failed, and then the first of the events were done, and no others. The random bytes are taken in
/// one call, before the first event of the disk.
pub fn kill<D: Disk, E: Entropy>(disk: &mut D, entropy: &mut E) -> Result<(), Refusal>
    ensures { Kills (D.state disk.old) (E.state entropy.old)
        result (D.state disk.new) (E.state entropy.new) }
{
    let sectors = disk.sectors();
    if sectors < 2 {
        return Err(Refusal::TooSmall {
            size: 512 * sectors,
        });
    }
    let Ok(random) = draw(entropy) else {
        return Err(Refusal::EntropyFault);
    };
    match destroy(disk, sectors - 1, &random) {
        Ok(()) => Ok(()),
        Err(_) => Err(Refusal::DeviceFault),
    }
}
