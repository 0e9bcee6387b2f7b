//! Reading the device sectors of a logical sector one after the other.
ghost use Rattle.std.specs.Prelude.{◌≡◌, ◌+◌, ◌/◌, ◌≤◌, [], OnOk, OnErr, length};
ghost use Rattle.block_traits.specs.Causes.{Counted};
ghost use Rattle.block_traits.specs.Disk.{Logs};
ghost use Rattle.block_traits.specs.Parts.{parts};
ghost use Rattle.sector_runs.specs.Reading.{StandFrom};
ghost use Rattle.sector_runs.specs.Reads.{FailsAmong};

use block_traits::{Disk, DiskFailed, Sector};

// Reads as many device sectors as `into` has room for, the first from number `first`.
pub fn read_units<D: Disk>(disk: &mut D, first: u64, into: &mut [u8]) -> Result<(), DiskFailed>
    requires { first + length into.old / 512 ≤ (D.state disk.old).size }
    ensures stand { let count = length into.old / 512 in
        OnOk result (StandFrom (D.state disk.old).content first count (parts 512 count into.new)) }
    ensures asked { OnOk result (Counted (length into.old / 512) (D.state disk.old).reads (D.state disk.new).reads) }
    ensures ok { OnOk result (Logs [] (D.state disk.old) (D.state disk.new)) }
    ensures err { OnErr result (FailsAmong (length into.old / 512) (D.state disk.old) (D.state disk.new)) }
{
    let mut sector: Sector = [0; 512];
    for j in 0..into.len() / 512 {
        disk.read(first + j as u64, &mut sector)?;
        into[512 * j..512 * j + 512].copy_from_slice(&sector);
    }
    Ok(())
}
