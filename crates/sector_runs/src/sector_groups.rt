//! Logical sectors one after the other, sealed and opened in memory.
ghost use Rattle.std.specs.Prelude.{◌≡◌, ◌≢◌, ℕ, ◌+◌, ◌*◌, ◌/◌, ◌%◌, ◌^◌, ◌<◌, ◌≤◌, Ok, Err, MatchResult, OnErr, length, true};
ghost use Rattle.block_traits.specs.Parts.{parts};
ghost use Rattle.eli_base.specs.declared.algorithms.Auth.TheVariants.{Off};
ghost use Rattle.sealing.specs.Data.{opened_data, sealed_sectors};
ghost use Rattle.sealing.specs.Sectors.{units};
ghost use Rattle.sector_runs.specs.Verdicts.{accepted_among};

use crate::BadUnit;
use crate::four_sectors::seal_four_sectors;
use crate::judging::first_refused;
use crate::sectors::{open_accepted_sector, seal_sector};
use eli_base::Auth;
use plain_sectors::open_plain;
use range_keys::KeyRing;

// How many groups of four logical sectors are sealed side by side, of so many. There are none without authentication,
// and none if one sector has four whole units: those are then sealed side by side.
fn groups_of_four(ring: &KeyRing, count: usize) -> usize
    ensures within { 4 * result ≤ count }
    ensures tagged { 0 < result → ring.now.keying.auth ≢ Off }
{
    let layout = ring.layout();
    if ring.auth() == Auth::Off || 4 * layout.unit_bytes <= layout.size {
        return 0;
    }
    count / 4
}

// Seals the first of some logical sectors, so many groups of four.
fn seal_groups(ring: &mut KeyRing, sector: u64, groups: usize, plain: &[u8], out: &mut [u8])
    requires tagged { 0 < groups → ring.old.keying.auth ≢ Off }
    requires within { 4 * groups ≤ length plain.now / ring.old.keying.sectorsize }
    requires out { length out.old ≡ length plain.now / ring.old.keying.sectorsize * (512 * units ring.old.keying) }
    requires place { (sector + length plain.now / ring.old.keying.sectorsize) * units ring.old.keying < 2 ^ 44 }
    ensures sealed { parts 512 (4 * groups * units ring.old.keying) out.new ≡ sealed_sectors ring.old.keying sector (4 * groups) plain.now }
    ensures keying { ring.new.keying ≡ ring.old.keying }
{
    let layout = ring.layout();
    let size = layout.size;
    let width = 512 * layout.units;
    for i in 0..groups {
        let passed = 4 * i;
        let block = &plain[passed * size..(passed + 4) * size];
        let sealed = &mut out[passed * width..(passed + 4) * width];
        seal_four_sectors(ring, sector + passed as u64, block, sealed);
    }
}

// Seals some logical sectors from number `passed` of them on. Those before are already sealed in `out`.
fn seal_each(ring: &mut KeyRing, sector: u64, passed: usize, plain: &[u8], out: &mut [u8])
    requires whole { length plain.now % ring.old.keying.sectorsize ≡ 0 }
    requires within { passed ≤ length plain.now / ring.old.keying.sectorsize }
    requires out { length out.old ≡ length plain.now / ring.old.keying.sectorsize * (512 * units ring.old.keying) }
    requires place { (sector + length plain.now / ring.old.keying.sectorsize) * units ring.old.keying < 2 ^ 44 }
    requires passed { parts 512 (passed * units ring.old.keying) out.old ≡ sealed_sectors ring.old.keying sector passed plain.now }
    ensures sealed { let count = length plain.now / ring.old.keying.sectorsize in
        parts 512 (count * units ring.old.keying) out.new ≡ sealed_sectors ring.old.keying sector count plain.now }
    ensures keying { ring.new.keying ≡ ring.old.keying }
{
    let layout = ring.layout();
    let size = layout.size;
    let width = 512 * layout.units;
    for i in passed..plain.len() / size {
        let block = &plain[i * size..i * size + size];
        let sealed = &mut out[i * width..i * width + width];
        seal_sector(ring, sector + i as u64, block, sealed);
    }
}

/// Seals logical sectors one after the other, the first of number `sector`, each into as many device sectors as it
/// takes.
pub fn seal_sectors(ring: &mut KeyRing, sector: u64, plain: &[u8], out: &mut [u8])
    requires whole { length plain.now % ring.old.keying.sectorsize ≡ 0 }
    requires out { length out.old ≡ length plain.now / ring.old.keying.sectorsize * (512 * units ring.old.keying) }
    requires place { (sector + length plain.now / ring.old.keying.sectorsize) * units ring.old.keying < 2 ^ 44 }
    ensures sealed { let count = length plain.now / ring.old.keying.sectorsize in
        parts 512 (count * units ring.old.keying) out.new ≡ sealed_sectors ring.old.keying sector count plain.now }
    ensures keying { ring.new.keying ≡ ring.old.keying }
{
    let groups = groups_of_four(ring, plain.len() / ring.layout().size);
    seal_groups(ring, sector, groups, plain, out);
    seal_each(ring, sector, 4 * groups, plain, out);
}

/// Opens logical sectors in place, the first of number `sector`, without authentication. No bytes are refused.
pub fn open_in_place(ring: &mut KeyRing, sector: u64, into: &mut [u8])
    requires off { ring.old.keying.auth ≡ Off }
    requires whole { length into.old % ring.old.keying.sectorsize ≡ 0 }
    requires place { (sector + length into.old / ring.old.keying.sectorsize) * units ring.old.keying < 2 ^ 44 }
    ensures opened { let count = length into.old / ring.old.keying.sectorsize in
        opened_data ring.old.keying sector count (parts 512 (count * units ring.old.keying) into.old) ≡ Ok into.new }
    ensures keying { ring.new.keying ≡ ring.old.keying }
{
    let size = ring.layout().size;
    for i in 0..into.len() / size {
        let block = &mut into[i * size..i * size + size];
        open_plain(ring, (sector + i as u64) * size as u64, block);
    }
}

// Opens logical sectors whose units are all accepted.
fn open_accepted_sectors(ring: &mut KeyRing, sector: u64, device: &[u8], out: &mut [u8])
    requires on { ring.old.keying.auth ≢ Off }
    requires whole { length out.old % ring.old.keying.sectorsize ≡ 0 }
    requires device { length device.now ≡ length out.old / ring.old.keying.sectorsize * (512 * units ring.old.keying) }
    requires place { (sector + length out.old / ring.old.keying.sectorsize) * units ring.old.keying < 2 ^ 44 }
    requires accepted { (m : ℕ) → m < length device.now / 512 → accepted_among ring.old.keying (sector * units ring.old.keying) device.now m ≡ true }
    ensures opened { let count = length out.old / ring.old.keying.sectorsize in
        opened_data ring.old.keying sector count (parts 512 (count * units ring.old.keying) device.now) ≡ Ok out.new }
    ensures keying { ring.new.keying ≡ ring.old.keying }
{
    let layout = ring.layout();
    let size = layout.size;
    let width = 512 * layout.units;
    for i in 0..out.len() / size {
        let sealed = &device[i * width..i * width + width];
        let block = &mut out[i * size..i * size + size];
        open_accepted_sector(ring, sector + i as u64, sealed, block);
    }
}

/// Opens logical sectors from their device sectors, which stand one after the other, the first sector of number
/// `sector`. All tags are checked before anything is deciphered.
///
/// It is refused exactly if the tag of a unit isn't that of its ciphertext, with the byte offset of the first such
/// unit, and `out` is then as it was.
pub fn open_sectors(
    ring: &mut KeyRing,
    sector: u64,
    device: &[u8],
    out: &mut [u8],
) -> Result<(), BadUnit>
    requires whole { length out.old % ring.old.keying.sectorsize ≡ 0 }
    requires device { length device.now ≡ length out.old / ring.old.keying.sectorsize * (512 * units ring.old.keying) }
    requires place { (sector + length out.old / ring.old.keying.sectorsize) * units ring.old.keying < 2 ^ 44 }
    ensures opened { let count = length out.old / ring.old.keying.sectorsize in
        let answer = opened_data ring.old.keying sector count (parts 512 (count * units ring.old.keying) device.now) in
        MatchResult result (λ _. answer ≡ Ok out.new) (λ bad. answer ≡ Err bad.offset) }
    ensures stays { OnErr result (out.new ≡ out.old) }
    ensures keying { ring.new.keying ≡ ring.old.keying }
{
    let units = ring.layout().units as u64;
    if ring.auth() == Auth::Off {
        out.copy_from_slice(device);
        open_in_place(ring, sector, out);
        return Ok(());
    }
    let n = sector * units;
    if let Some(m) = first_refused(ring, n, device) {
        return Err(BadUnit {
            offset: 512 * (n + m as u64),
        });
    }
    open_accepted_sectors(ring, sector, device, out);
    Ok(())
}
