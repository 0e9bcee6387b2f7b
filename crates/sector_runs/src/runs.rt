//! Logical sectors one after the other, opened and sealed, with authentication and without.
//!
//! The invariant of every loop here: the sectors before `done` are finished, in ascending order, and no later one has
//! been begun. So a read counts one read of the disk for each unit, up to the one that failed, and a write has logged
//! the device sectors of a prefix. No function changes the keying. The contracts of `Provider` rest on these counts.
//!
//! Many sectors are first looked at by one call (`peek`). A look that fails, or that finds a wrong tag, has changed
//! nothing on the disk and counted no read. It doesn't say which unit is at fault, so the sectors are then read unit
//! by unit, which finds the first one. Disks that refuse every look are always read that way.
//!
//! After a refusal `into` and `buffer` may hold any bytes; `Provider::read` clears the caller's. A run is cut into
//! batches that fit the buffer, which has room for the device sectors of one logical sector at least.
ghost use Rattle.std.specs.Prelude.{◌≡◌, ℕ, ◌+◌, ◌*◌, ◌/◌, ◌%◌, ◌^◌, ◌<◌, ◌≤◌, [], Ok, OnOk, OnErr, IfSome, Option, false, length, take, true};
ghost use Rattle.block_traits.specs.Causes.{Counted};
ghost use Rattle.block_traits.specs.Content.{Content};
ghost use Rattle.block_traits.specs.Disk.{DiskState, FailsIn, GivesEach, GivesEachFrom, Logs, write_events};
ghost use Rattle.eli_base.specs.declared.algorithms.Auth.TheVariants.{Off};
ghost use Rattle.sealing.specs.Sectors.{units};
ghost use Rattle.sector_runs.specs.Reading.{ReadsAs, ReadsFrom, sector_reading};
ghost use Rattle.sector_runs.specs.Reads.{FailsAmong, RunAnswers, SectorAnswers};
ghost use Rattle.sector_runs.specs.Writing.{data_writes};

use crate::ReadFault;
use crate::sector_groups::{open_in_place, open_sectors, seal_sectors};
use crate::tagged_units::read_tagged_units;
use crate::units::read_units;
use block_traits::{Disk, DiskFailed};
use eli_base::Auth;
use plain_sectors::open_plain;
use range_keys::KeyRing;

// Reads one logical sector without authentication.
fn read_whole<D: Disk>(
    ring: &mut KeyRing,
    disk: &mut D,
    sector: u64,
    block: &mut [u8],
) -> Result<(), DiskFailed>
    requires off { ring.old.keying.auth ≡ Off }
    requires size { length block.old ≡ ring.old.keying.sectorsize }
    requires inside { sector * units ring.old.keying + units ring.old.keying ≤ (D.state disk.old).size }
    ensures reads { OnOk result (IfSome (D.state disk.old).content (λ c. sector_reading ring.old.keying c sector ≡ Ok block.new)) }
    ensures asked { OnOk result (Counted (units ring.old.keying) (D.state disk.old).reads (D.state disk.new).reads) }
    ensures ok { OnOk result (Logs [] (D.state disk.old) (D.state disk.new)) }
    ensures err { OnErr result (FailsAmong (units ring.old.keying) (D.state disk.old) (D.state disk.new)) }
    ensures keying { ring.new.keying ≡ ring.old.keying }
{
    let layout = ring.layout();
    read_units(disk, sector * layout.units as u64, block)?;
    open_plain(ring, sector * layout.size as u64, block);
    Ok(())
}

// Reads one logical sector.
fn read_sector<D: Disk>(
    ring: &mut KeyRing,
    disk: &mut D,
    sector: u64,
    block: &mut [u8],
) -> Result<(), ReadFault>
    requires size { length block.old ≡ ring.old.keying.sectorsize }
    requires inside { sector * units ring.old.keying + units ring.old.keying ≤ (D.state disk.old).size }
    ensures answer { SectorAnswers ring.old.keying sector (D.state disk.old) (D.state disk.new) block.new result }
    ensures keying { ring.new.keying ≡ ring.old.keying }
{
    if ring.auth() != Auth::Off {
        return read_tagged_units(ring, disk, sector, block);
    }
    match read_whole(ring, disk, sector, block) {
        Ok(()) => Ok(()),
        Err(_) => Err(ReadFault::DeviceFault),
    }
}

// Looks at logical sectors without authentication all at once, the first of number `sector`, and opens them. If the
// look says nothing, `into` may hold any bytes, and nothing else has changed.
fn look_run<D: Disk>(ring: &mut KeyRing, disk: &mut D, sector: u64, into: &mut [u8]) -> bool
    requires off { ring.old.keying.auth ≡ Off }
    requires whole { length into.old % ring.old.keying.sectorsize ≡ 0 }
    requires inside { (sector + length into.old / ring.old.keying.sectorsize) * units ring.old.keying ≤ (D.state disk.old).size }
    ensures asked { result ≡ true → Counted (length into.old / ring.old.keying.sectorsize * units ring.old.keying) (D.state disk.old).reads (D.state disk.new).reads }
    ensures logs { result ≡ true → Logs [] (D.state disk.old) (D.state disk.new) }
    ensures reads { result ≡ true → ReadsAs (D.state disk.old) ring.old.keying sector (length into.old / ring.old.keying.sectorsize) (Ok into.new) }
    ensures missed { result ≡ false → D.state disk.new ≡ D.state disk.old }
    ensures keying { ring.new.keying ≡ ring.old.keying }
{
    let units = ring.layout().units;
    if !disk.peek(sector * units as u64, into) {
        return false;
    }
    disk.count_reads((into.len() / 512) as u64);
    open_in_place(ring, sector, into);
    true
}

// Reads logical sectors, the first of number `sector`, unit by unit.
fn read_each<D: Disk>(
    ring: &mut KeyRing,
    disk: &mut D,
    sector: u64,
    into: &mut [u8],
) -> Result<(), ReadFault>
    requires whole { length into.old % ring.old.keying.sectorsize ≡ 0 }
    requires inside { (sector + length into.old / ring.old.keying.sectorsize) * units ring.old.keying ≤ (D.state disk.old).size }
    ensures answer { RunAnswers ring.old.keying sector (length into.old / ring.old.keying.sectorsize) (D.state disk.old) (D.state disk.new) into.new result }
    ensures keying { ring.new.keying ≡ ring.old.keying }
{
    let size = ring.layout().size;
    for i in 0..into.len() / size {
        let block = &mut into[i * size..i * size + size];
        match read_sector(ring, disk, sector + i as u64, block) {
            Ok(()) => {}
            Err(fault) => return Err(fault),
        }
    }
    Ok(())
}

// Looks at the device sectors of logical sectors all at once, the first of number `sector`, and opens them. Then
// `device` has those device sectors. If the look says nothing or a tag differs, `into` and `device` may hold any bytes,
// and nothing else has changed.
fn look_batch<D: Disk>(
    ring: &mut KeyRing,
    disk: &mut D,
    sector: u64,
    into: &mut [u8],
    device: &mut [u8],
) -> bool
    requires whole { length into.old % ring.old.keying.sectorsize ≡ 0 }
    requires device { length device.old ≡ length into.old / ring.old.keying.sectorsize * (512 * units ring.old.keying) }
    requires inside { (sector + length into.old / ring.old.keying.sectorsize) * units ring.old.keying ≤ (D.state disk.old).size }
    ensures asked { result ≡ true → Counted (length into.old / ring.old.keying.sectorsize * units ring.old.keying) (D.state disk.old).reads (D.state disk.new).reads }
    ensures logs { result ≡ true → Logs [] (D.state disk.old) (D.state disk.new) }
    ensures reads { result ≡ true → ReadsAs (D.state disk.old) ring.old.keying sector (length into.old / ring.old.keying.sectorsize) (Ok into.new) }
    ensures left { result ≡ true → GivesEach (D.state disk.old) (sector * units ring.old.keying) device.new }
    ensures missed { result ≡ false → D.state disk.new ≡ D.state disk.old }
    ensures keying { ring.new.keying ≡ ring.old.keying }
{
    let units = ring.layout().units;
    if !disk.peek(sector * units as u64, device) {
        return false;
    }
    if open_sectors(ring, sector, device, into).is_err() {
        return false;
    }
    disk.count_reads((device.len() / 512) as u64);
    true
}

// Reads logical sectors, the first of number `sector`. They are looked at in `buffer`, which has room for the device
// sectors of them all. If the look says nothing, or a tag differs, they are read unit by unit.
fn read_batch<D: Disk>(
    ring: &mut KeyRing,
    disk: &mut D,
    sector: u64,
    into: &mut [u8],
    buffer: &mut [u8],
) -> Result<(), ReadFault>
    requires whole { length into.old % ring.old.keying.sectorsize ≡ 0 }
    requires buffer { length into.old / ring.old.keying.sectorsize * (512 * units ring.old.keying) ≤ length buffer.old }
    requires inside { (sector + length into.old / ring.old.keying.sectorsize) * units ring.old.keying ≤ (D.state disk.old).size }
    ensures answer { RunAnswers ring.old.keying sector (length into.old / ring.old.keying.sectorsize) (D.state disk.old) (D.state disk.new) into.new result }
    ensures keying { ring.new.keying ≡ ring.old.keying }
{
    let layout = ring.layout();
    let device = &mut buffer[..into.len() / layout.size * (512 * layout.units)];
    if look_batch(ring, disk, sector, into, device) {
        return Ok(());
    }
    read_each(ring, disk, sector, into)
}

// Reads logical sectors, the first of number `sector`, as many at a time as `buffer` has room for: one at least.
fn read_batches<D: Disk>(
    ring: &mut KeyRing,
    disk: &mut D,
    sector: u64,
    into: &mut [u8],
    buffer: &mut [u8],
) -> Result<(), ReadFault>
    requires buffer { 512 * units ring.old.keying ≤ length buffer.old }
    requires whole { length into.old % ring.old.keying.sectorsize ≡ 0 }
    requires inside { (sector + length into.old / ring.old.keying.sectorsize) * units ring.old.keying ≤ (D.state disk.old).size }
    ensures answer { RunAnswers ring.old.keying sector (length into.old / ring.old.keying.sectorsize) (D.state disk.old) (D.state disk.new) into.new result }
    ensures keying { ring.new.keying ≡ ring.old.keying }
{
    let layout = ring.layout();
    let size = layout.size;
    let most = buffer.len() / (512 * layout.units);
    let count = into.len() / size;
    let mut done = 0;
    'batches: while done < count {
        let many = most.min(count - done);
        let part = &mut into[done * size..(done + many) * size];
        match read_batch(ring, disk, sector + done as u64, part, buffer) {
            Ok(()) => done += many,
            Err(fault) => return Err(fault),
        }
    }
    Ok(())
}

/// Reads logical sectors, the first of number `sector`. Without authentication the disk is looked at for them all at
/// once, and they are opened in place. With authentication it is looked at for as many as `buffer` has room for. What a
/// look doesn't give is read unit by unit.
pub fn read_run<D: Disk>(
    ring: &mut KeyRing,
    disk: &mut D,
    sector: u64,
    into: &mut [u8],
    buffer: &mut [u8],
) -> Result<(), ReadFault>
    requires buffer { 512 * units ring.old.keying ≤ length buffer.old }
    requires whole { length into.old % ring.old.keying.sectorsize ≡ 0 }
    requires inside { (sector + length into.old / ring.old.keying.sectorsize) * units ring.old.keying ≤ (D.state disk.old).size }
    ensures answer { RunAnswers ring.old.keying sector (length into.old / ring.old.keying.sectorsize) (D.state disk.old) (D.state disk.new) into.new result }
    ensures keying { ring.new.keying ≡ ring.old.keying }
{
    if ring.auth() != Auth::Off {
        return read_batches(ring, disk, sector, into, buffer);
    }
    if look_run(ring, disk, sector, into) {
        return Ok(());
    }
    read_each(ring, disk, sector, into)
}

// Writes logical sectors by one write of the disk, the first to number `sector`. They are sealed in `buffer`, which has
// room for the device sectors of them all, and what is left there is what was to be written.
fn write_batch<D: Disk>(
    ring: &mut KeyRing,
    disk: &mut D,
    sector: u64,
    from: &[u8],
    buffer: &mut [u8],
) -> Result<(), DiskFailed>
    requires whole { length from.now % ring.old.keying.sectorsize ≡ 0 }
    requires buffer { length from.now / ring.old.keying.sectorsize * (512 * units ring.old.keying) ≤ length buffer.old }
    requires inside { (sector + length from.now / ring.old.keying.sectorsize) * units ring.old.keying ≤ (D.state disk.old).size }
    ensures ok { OnOk result (Logs (data_writes ring.old.keying sector (length from.now / ring.old.keying.sectorsize) from.now) (D.state disk.old) (D.state disk.new)) }
    ensures err { OnErr result (FailsIn (data_writes ring.old.keying sector (length from.now / ring.old.keying.sectorsize) from.now) (D.state disk.old) (D.state disk.new)) }
    ensures unasked { (D.state disk.new).reads ≡ (D.state disk.old).reads }
    ensures keying { ring.new.keying ≡ ring.old.keying }
    ensures left { write_events (sector * units ring.old.keying) (take (length from.now / ring.old.keying.sectorsize * (512 * units ring.old.keying)) buffer.new)
        ≡ data_writes ring.old.keying sector (length from.now / ring.old.keying.sectorsize) from.now }
{
    let layout = ring.layout();
    let units = layout.units;
    let sealed = &mut buffer[..from.len() / layout.size * (512 * units)];
    seal_sectors(ring, sector, from, sealed);
    disk.write_sectors(sector * units as u64, sealed)
}

/// Writes logical sectors in ascending order, the first to number `sector`. As many as `buffer` has room for are sealed
/// there and go by one write of the disk. It has room for one at least.
pub fn write_run<D: Disk>(
    ring: &mut KeyRing,
    disk: &mut D,
    sector: u64,
    from: &[u8],
    buffer: &mut [u8],
) -> Result<(), DiskFailed>
    requires buffer { 512 * units ring.old.keying ≤ length buffer.old }
    requires whole { length from.now % ring.old.keying.sectorsize ≡ 0 }
    requires inside { (sector + length from.now / ring.old.keying.sectorsize) * units ring.old.keying ≤ (D.state disk.old).size }
    ensures ok { OnOk result (Logs (data_writes ring.old.keying sector (length from.now / ring.old.keying.sectorsize) from.now) (D.state disk.old) (D.state disk.new)) }
    ensures err { OnErr result (FailsIn (data_writes ring.old.keying sector (length from.now / ring.old.keying.sectorsize) from.now) (D.state disk.old) (D.state disk.new)) }
    ensures unasked { (D.state disk.new).reads ≡ (D.state disk.old).reads }
    ensures keying { ring.new.keying ≡ ring.old.keying }
{
    let layout = ring.layout();
    let size = layout.size;
    let most = buffer.len() / (512 * layout.units);
    let count = from.len() / size;
    let mut done = 0;
    'batches: while done < count {
        let many = most.min(count - done);
        let plain = &from[done * size..(done + many) * size];
        write_batch(ring, disk, sector + done as u64, plain, buffer)?;
        done += many;
    }
    Ok(())
}
