//! A provider whose image has grown.

ghost use Rattle.std.specs.Prelude.{◌≡◌, ◌<◌, ◌≤◌, ◌^◌, ◌*◌, ◌%◌, ◌+◌, None, Some, IfErr, OnOk, OnErr};
ghost use Rattle.block_traits.specs.Disk.{FailsIn, Logs};
ghost use Rattle.resize_kill.specs.Resizing.{FindsOld, Resizes, move_events, size_refusal};

use crate::trash::{destroy, draw};
use block_traits::{Disk, DiskFailed, Entropy};
use eli_base::Refusal;
use eli_metadata::{Metadata, decode, replace_metadata};

// Refuses an image of so many device sectors if they are too few, and an old size that isn't below the image's.
fn check_sizes(sectors: u64, oldsize: u64) -> Result<(), Refusal>
    requires { sectors < 2 ^ 44 }
    ensures ok { OnOk result (size_refusal sectors oldsize ≡ None) }
    ensures err { IfErr result (λ refusal. size_refusal sectors oldsize ≡ Some refusal) }
    ensures grown { OnOk result (oldsize < 512 * sectors) }
{
    let size = 512 * sectors;
    if sectors < 2 {
        return Err(Refusal::TooSmall { size });
    }
    if size <= oldsize {
        return Err(Refusal::NotGrown {
            size,
            given: oldsize,
        });
    }
    Ok(())
}

// The metadata in a sector, if they are those of a provider of the old size.
fn find_old<D: Disk>(disk: &mut D, place: u64, oldsize: u64) -> Result<Metadata, Refusal>
    requires { place < (D.state disk.old).size }
    ensures finds { FindsOld place oldsize (D.state disk.old) result (D.state disk.new) }
{
    let mut bytes = [0; 512];
    if disk.read(place, &mut bytes).is_err() {
        return Err(Refusal::DeviceFault);
    }
    let meta = decode(&bytes)?;
    if meta.provsize != oldsize {
        return Err(Refusal::OldSizeMismatch {
            kept: meta.provsize,
            given: oldsize,
        });
    }
    Ok(meta)
}

// Puts metadata into the last sector, and then destroys what the old place holds. Nothing is read.
fn move_metadata<D: Disk>(
    disk: &mut D,
    place: u64,
    meta: &Metadata,
    random: &[u8; 2480],
) -> Result<(), DiskFailed>
    requires { place < (D.state disk.old).size }
    ensures ok { OnOk result (Logs (move_events (D.state disk.old) place meta.now random.now) (D.state disk.old) (D.state disk.new)) }
    ensures err { OnErr result (FailsIn (move_events (D.state disk.old) place meta.now random.now) (D.state disk.old) (D.state disk.new)) }
    ensures unasked { (D.state disk.new).reads ≡ (D.state disk.old).reads }
{
    replace_metadata(disk, meta)?;
    destroy(disk, place, random)
}

/// Moves the metadata of a provider whose image has grown from `oldsize` bytes to the sector that is the last one
/// now, and puts the image's size in them. Then the metadata in the old place are destroyed: this sector is written
/// and flushed six times, five times with random bytes and once with zeros, and its first sixteen bytes are zeros each
/// time (geli(8), resize). The metadata keep their version and all else but the size. The old place is read once, even
/// if that fails, and no other sector is read.
///
/// Until the first flush landed, every sector holds what it might hold before, whenever power fails. After this flush
/// the last sector holds the new metadata or the old place the old ones, in each image that a crash leaves and nobody
/// alters. Once the call is done, the last sector holds the new metadata alone (`resize_leaves_one_of_both`), and they
/// can be read back (`what_resize_writes_is_read_again`).
///
/// Refusals are returned in this order: `TooSmall` (in bytes: fewer than two device sectors), and `NotGrown`, exactly
/// if the old size isn't below the image's, in bytes, and then nothing was done; `DeviceFault`, only if the read
/// failed; the refusal of `decode` for what the old place holds; `OldSizeMismatch`, exactly if the metadata there have
/// another size, in bytes; `EntropyFault`, only if the entropy failed, and then the disk has no event; `DeviceFault`,
/// only if the disk failed, and then the first of the events were done, and no others. The random bytes are taken in
/// one call, before the first event of the disk.
pub fn resize<D: Disk, E: Entropy>(
    disk: &mut D,
    oldsize: u64,
    entropy: &mut E,
) -> Result<(), Refusal>
    requires whole { oldsize % 512 ≡ 0 }
    requires least { 1024 ≤ oldsize }
    ensures { Resizes oldsize (D.state disk.old) (E.state entropy.old)
        result (D.state disk.new) (E.state entropy.new) }
{
    let sectors = disk.sectors();
    check_sizes(sectors, oldsize)?;
    let place = oldsize / 512 - 1;
    let old = find_old(disk, place, oldsize)?;
    let Ok(random) = draw(entropy) else {
        return Err(Refusal::EntropyFault);
    };
    old.fits_types();
    let meta = Metadata {
        provsize: 512 * sectors,
        ..old
    };
    match move_metadata(disk, place, &meta, &random) {
        Ok(()) => Ok(()),
        Err(_) => Err(Refusal::DeviceFault),
    }
}
