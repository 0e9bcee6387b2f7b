//! Four logical sectors of one size with authentication: the units of one number are sealed side by side.
ghost use Rattle.std.specs.Prelude.{◌≡◌, ◌≢◌, ◌+◌, ◌*◌, ◌^◌, ◌<◌, length};
ghost use Rattle.block_traits.specs.Parts.{parts};
ghost use Rattle.eli_base.specs.declared.algorithms.Auth.TheVariants.{Off};
ghost use Rattle.sealing.specs.Data.{sealed_sectors};
ghost use Rattle.sealing.specs.Sectors.{units};

use auth_sectors::seal_apart;
use block_traits::sector_of;
use range_keys::KeyRing;

/// Seals four logical sectors one after the other, the first of number `sector`, each into as many device sectors as it
/// takes.
pub fn seal_four_sectors(ring: &mut KeyRing, sector: u64, plain: &[u8], out: &mut [u8])
    requires on { ring.old.keying.auth ≢ Off }
    requires plain { length plain.now ≡ 4 * ring.old.keying.sectorsize }
    requires out { length out.old ≡ 4 * (512 * units ring.old.keying) }
    requires place { (sector + 4) * units ring.old.keying < 2 ^ 44 }
    ensures sealed { parts 512 (4 * units ring.old.keying) out.new ≡ sealed_sectors ring.old.keying sector 4 plain.now }
    ensures keying { ring.new.keying ≡ ring.old.keying }
{
    let layout = ring.layout();
    let width = 512 * layout.units;
    let (first, rest) = out.split_at_mut(width);
    let (second, rest) = rest.split_at_mut(width);
    let (third, fourth) = rest.split_at_mut(width);
    let (a, rest) = plain.split_at(layout.size);
    let (b, rest) = rest.split_at(layout.size);
    let (c, d) = rest.split_at(layout.size);
    for j in 0..layout.units {
        let unit = ring.unit(sector, j);
        let four = [
            &a[unit.start..unit.end],
            &b[unit.start..unit.end],
            &c[unit.start..unit.end],
            &d[unit.start..unit.end],
        ];
        let mut sealed = [0; 2048];
        seal_apart(ring, unit.offset, width as u64, four, &mut sealed);
        let at = 512 * j;
        first[at..at + 512].copy_from_slice(&sector_of(&sealed, 0));
        second[at..at + 512].copy_from_slice(&sector_of(&sealed, 1));
        third[at..at + 512].copy_from_slice(&sector_of(&sealed, 2));
        fourth[at..at + 512].copy_from_slice(&sector_of(&sealed, 3));
    }
}
