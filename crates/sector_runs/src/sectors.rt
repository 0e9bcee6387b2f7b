//! One logical sector, sealed in memory, and opened if all its units are accepted.
ghost use Rattle.std.specs.Prelude.{◌≡◌, ◌≢◌, ℕ, ◌+◌, ◌*◌, ◌^◌, ◌<◌, ◌≤◌, Ok, length, take, true};
ghost use Rattle.block_traits.specs.Parts.{parts};
ghost use Rattle.eli_base.specs.declared.algorithms.Auth.TheVariants.{Off};
ghost use Rattle.eli_base.specs.Units.{unit_bytes_of};
ghost use Rattle.sealing.specs.Sectors.{device_sectors, reading, seal, units};
ghost use Rattle.sector_runs.specs.Verdicts.{accepted_among};

use auth_sectors::{open_accepted, seal_apart, seal_piece};
use block_traits::Sector;
use eli_base::Auth;
use plain_sectors::seal_plain;
use range_keys::KeyRing;

// Seals the first units of one logical sector, all of them whole: `fours` times four.
fn seal_fours(ring: &mut KeyRing, sector: u64, fours: usize, plain: &[u8], out: &mut [u8])
    requires on { ring.old.keying.auth ≢ Off }
    requires plain { length plain.now ≡ ring.old.keying.sectorsize }
    requires fours { fours * (4 * unit_bytes_of ring.old.keying.auth) ≤ length plain.now }
    requires out { length out.old ≡ 512 * units ring.old.keying }
    requires place { sector * units ring.old.keying + units ring.old.keying < 2 ^ 44 }
    ensures sealed { parts 512 (4 * fours) out.new ≡ take (4 * fours) (seal ring.old.keying sector plain.now) }
    ensures keying { ring.new.keying ≡ ring.old.keying }
{
    let width = ring.layout().unit_bytes;
    for i in 0..fours {
        let unit = ring.unit(sector, 4 * i);
        let at = unit.start;
        let four = [
            &plain[at..at + width],
            &plain[at + width..at + 2 * width],
            &plain[at + 2 * width..at + 3 * width],
            &plain[at + 3 * width..at + 4 * width],
        ];
        seal_apart(
            ring,
            unit.offset,
            512,
            four,
            &mut out[2048 * i..2048 * i + 2048],
        );
    }
}

// Seals the units of one logical sector from number `passed` on. Those before are already sealed in `out`.
fn seal_rest(ring: &mut KeyRing, sector: u64, passed: usize, plain: &[u8], out: &mut [u8])
    requires on { ring.old.keying.auth ≢ Off }
    requires plain { length plain.now ≡ ring.old.keying.sectorsize }
    requires out { length out.old ≡ 512 * units ring.old.keying }
    requires place { sector * units ring.old.keying + units ring.old.keying < 2 ^ 44 }
    requires within { passed ≤ units ring.old.keying }
    requires passed { parts 512 passed out.old ≡ take passed (seal ring.old.keying sector plain.now) }
    ensures sealed { device_sectors ring.old.keying out.new ≡ seal ring.old.keying sector plain.now }
    ensures keying { ring.new.keying ≡ ring.old.keying }
{
    for j in passed..ring.layout().units {
        let unit = ring.unit(sector, j);
        let mut device: Sector = [0; 512];
        seal_piece(ring, unit.offset, &plain[unit.start..unit.end], &mut device);
        out[512 * j..512 * j + 512].copy_from_slice(&device);
    }
}

// Seals one logical sector with authentication: whole units four at a time, then the rest one by one.
fn seal_tagged_units(ring: &mut KeyRing, sector: u64, plain: &[u8], out: &mut [u8])
    requires on { ring.old.keying.auth ≢ Off }
    requires plain { length plain.now ≡ ring.old.keying.sectorsize }
    requires out { length out.old ≡ 512 * units ring.old.keying }
    requires place { sector * units ring.old.keying + units ring.old.keying < 2 ^ 44 }
    ensures sealed { device_sectors ring.old.keying out.new ≡ seal ring.old.keying sector plain.now }
    ensures keying { ring.new.keying ≡ ring.old.keying }
{
    let fours = plain.len() / (4 * ring.layout().unit_bytes);
    seal_fours(ring, sector, fours, plain, out);
    seal_rest(ring, sector, 4 * fours, plain, out);
}

// Seals one logical sector without authentication.
fn seal_whole(ring: &mut KeyRing, sector: u64, plain: &[u8], out: &mut [u8])
    requires off { ring.old.keying.auth ≡ Off }
    requires plain { length plain.now ≡ ring.old.keying.sectorsize }
    requires out { length out.old ≡ 512 * units ring.old.keying }
    requires place { sector * units ring.old.keying + units ring.old.keying < 2 ^ 44 }
    ensures sealed { device_sectors ring.old.keying out.new ≡ seal ring.old.keying sector plain.now }
    ensures keying { ring.new.keying ≡ ring.old.keying }
{
    let size = ring.layout().size;
    out.copy_from_slice(plain);
    seal_plain(ring, sector * size as u64, out);
}

/// Seals one logical sector into as many device sectors as it takes.
pub fn seal_sector(ring: &mut KeyRing, sector: u64, plain: &[u8], out: &mut [u8])
    requires plain { length plain.now ≡ ring.old.keying.sectorsize }
    requires out { length out.old ≡ 512 * units ring.old.keying }
    requires place { sector * units ring.old.keying + units ring.old.keying < 2 ^ 44 }
    ensures sealed { device_sectors ring.old.keying out.new ≡ seal ring.old.keying sector plain.now }
    ensures keying { ring.new.keying ≡ ring.old.keying }
{
    if ring.auth() != Auth::Off {
        return seal_tagged_units(ring, sector, plain, out);
    }
    seal_whole(ring, sector, plain, out)
}

/// Opens one logical sector with authentication from its device sectors, whose units are all accepted. No tag is
/// computed.
pub fn open_accepted_sector(ring: &mut KeyRing, sector: u64, device: &[u8], out: &mut [u8])
    requires on { ring.old.keying.auth ≢ Off }
    requires device { length device.now ≡ 512 * units ring.old.keying }
    requires out { length out.old ≡ ring.old.keying.sectorsize }
    requires place { sector * units ring.old.keying + units ring.old.keying < 2 ^ 44 }
    requires accepted { (j : ℕ) → j < units ring.old.keying → accepted_among ring.old.keying (sector * units ring.old.keying) device.now j ≡ true }
    ensures opened { reading ring.old.keying sector (device_sectors ring.old.keying device.now) ≡ Ok out.new }
    ensures keying { ring.new.keying ≡ ring.old.keying }
{
    for j in 0..ring.layout().units {
        let unit = ring.unit(sector, j);
        let from = &device[512 * j..512 * j + 512];
        open_accepted(ring, unit.offset, from, &mut out[unit.start..unit.end]);
    }
}
