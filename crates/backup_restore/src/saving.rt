//! A backup of the metadata.

ghost use Rattle.std.specs.Prelude.{◌≡◌};
ghost use Rattle.backup_restore.specs.Saving.{Saves};

use block_traits::{MetaPlace, Sector};
use eli_base::Refusal;
use eli_metadata::decode;

/// Reads the last device sector into `out`, as it is, if it has metadata (geli(8), backup). The disk logs no event,
/// and the sector is read once, even if that fails.
///
/// Refusals are returned in this order: `TooSmall` (in bytes), exactly if there are fewer than two device sectors, and
/// then no call is made and `out` stays; `DeviceFault`, only if the count of faults rose, and then `out` may hold any
/// bytes; the refusal of `decode` for the bytes that were read, which `out` then holds.
pub fn backup<P: MetaPlace>(place: &mut P, out: &mut Sector) -> Result<(), Refusal>
    ensures saves { Saves (P.state place.old) out.old result out.new (P.state place.new) }
    ensures rest { P.rest place.new ≡ P.rest place.old }
{
    let sectors = place.sectors();
    if sectors < 2 {
        return Err(Refusal::TooSmall {
            size: 512 * sectors,
        });
    }
    if place.load(out).is_err() {
        return Err(Refusal::DeviceFault);
    }
    decode(out)?;
    Ok(())
}
