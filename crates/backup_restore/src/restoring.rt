//! Metadata that are put back from a backup.

ghost use Rattle.std.specs.Prelude.{◌≡◌, ◌<◌, ◌≤◌, ◌^◌, OnOk, length};
ghost use Rattle.backup_restore.specs.Restoring.{AreAllBytes, Restores, backed_up_sector, restored};

use block_traits::{Disk, Sector};
use eli_base::Refusal;
use eli_metadata::{Metadata, decode, replace_metadata, size_gate};

// The first 511 bytes of a backup, and a zero byte.
fn sector_of(bytes: &[u8]) -> Sector
    requires { 511 ≤ length bytes.now }
    ensures { result ≡ backed_up_sector bytes.now }
{
    let mut sector = [0; 512];
    sector[..511].copy_from_slice(&bytes[..511]);
    sector
}

// The metadata that a backup gives an image of so many device sectors, or its refusal.
fn check(bytes: &[u8], force: bool, sectors: u64) -> Result<Metadata, Refusal>
    requires { sectors < 2 ^ 44 }
    ensures answer { result ≡ restored bytes.now force sectors }
    ensures room { OnOk result (2 ≤ sectors) }
    ensures given { AreAllBytes bytes.now }
{
    if sectors < 2 {
        return Err(Refusal::TooSmall {
            size: 512 * sectors,
        });
    }
    if bytes.len() < 511 {
        return Err(Refusal::BackupTooShort {
            length: bytes.len() as u64,
        });
    }
    let meta = decode(&sector_of(bytes))?;
    if force {
        return Ok(Metadata {
            provsize: 512 * sectors,
            ..meta
        });
    }
    size_gate(&meta, sectors)?;
    Ok(meta)
}

/// Puts the metadata of a backup into the last sector of a disk: the first 511 bytes of the backup and a
/// zero byte. If forced, the size in them becomes the image's, with a new MD5 (geli(8), restore). Returns the
/// metadata, which keep their version and can be read back (`what_restore_writes_is_of_use`). The disk isn't read.
///
/// Whenever power fails, the last sector holds what it might hold before or the new metadata
/// (`restore_leaves_old_or_new`).
///
/// Refusals are returned in this order: `TooSmall` (in bytes), exactly if there are fewer than two device sectors;
/// `BackupTooShort` (in bytes), exactly if the backup has fewer than 511 bytes; the refusal of `decode` for the sector
/// that the backup makes; `BadSize` (in bytes), exactly if the size in the metadata isn't the image's, unless forced;
/// `DeviceFault`, only if the disk failed, and then the first of the events were done, and no others. After any other
/// refusal nothing was done.
pub fn restore<D: Disk>(disk: &mut D, bytes: &[u8], force: bool) -> Result<Metadata, Refusal>
    ensures { Restores bytes.now force (D.state disk.old) result (D.state disk.new) }
{
    let sectors = disk.sectors();
    let meta = check(bytes, force, sectors)?;
    meta.fits_types();
    match replace_metadata(disk, &meta) {
        Ok(()) => Ok(meta),
        Err(_) => Err(Refusal::DeviceFault),
    }
}
