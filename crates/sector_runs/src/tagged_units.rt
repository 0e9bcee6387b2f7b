//! Logical sectors with authentication that are read unit by unit.
ghost use Rattle.std.specs.Prelude.{◌≡◌, ◌≢◌, ◌+◌, ◌*◌, ◌^◌, ◌<◌, ◌≤◌, ◌%◌, ◌↔◌, IsTrue, min, is_ok, length};
ghost use Rattle.eli_base.specs.declared.algorithms.Auth.TheVariants.{Off};
ghost use Rattle.eli_base.specs.Units.{unit_bytes_of};
ghost use Rattle.sealing.specs.Sectors.{unit_reading_at, units};
ghost use Rattle.sector_runs.specs.Reads.{UnitAnswers, SectorAnswers};

use crate::ReadFault;
use auth_sectors::open_piece;
use block_traits::{Disk, Sector};
use range_keys::KeyRing;

// Reads the unit in device sector `n`.
fn read_tagged<D: Disk>(
    ring: &mut KeyRing,
    disk: &mut D,
    n: u64,
    out: &mut [u8],
) -> Result<(), ReadFault>
    requires on { ring.old.keying.auth ≢ Off }
    requires at_least { 16 ≤ length out.old }
    requires at_most { length out.old ≤ unit_bytes_of ring.old.keying.auth }
    requires blocks { length out.old % 16 ≡ 0 }
    requires inside { n < (D.state disk.old).size }
    ensures answer { UnitAnswers ring.old.keying n (length out.old) (D.state disk.old) (D.state disk.new) out.new result }
    ensures keying { ring.new.keying ≡ ring.old.keying }
{
    let mut sector: Sector = [0; 512];
    if disk.read(n, &mut sector).is_err() {
        return Err(ReadFault::DeviceFault);
    }
    let offset = 512 * n;
    match open_piece(ring, offset, &sector, out) {
        Ok(()) => Ok(()),
        Err(_) => Err(ReadFault::Integrity { offset }),
    }
}

/// Reads one logical sector.
pub fn read_tagged_units<D: Disk>(
    ring: &mut KeyRing,
    disk: &mut D,
    sector: u64,
    block: &mut [u8],
) -> Result<(), ReadFault>
    requires on { ring.old.keying.auth ≢ Off }
    requires size { length block.old ≡ ring.old.keying.sectorsize }
    requires inside { sector * units ring.old.keying + units ring.old.keying ≤ (D.state disk.old).size }
    ensures answer { SectorAnswers ring.old.keying sector (D.state disk.old) (D.state disk.new) block.new result }
    ensures keying { ring.new.keying ≡ ring.old.keying }
{
    for j in 0..ring.layout().units {
        let unit = ring.unit(sector, j);
        match read_tagged(
            ring,
            disk,
            unit.offset / 512,
            &mut block[unit.start..unit.end],
        ) {
            Ok(()) => {}
            Err(fault) => return Err(fault),
        }
    }
    Ok(())
}
