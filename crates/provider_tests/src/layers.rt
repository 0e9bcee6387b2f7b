//! Layers over disks in memory, looked at after each call.
use crate::common::{are_events, attached, made, read, write};
use block_traits::{Disk, DiskFailed, Event, Sector};
use crash_disk::{MemDisk, survivor_whole};
use disk_layers::{Concat, Layer, WriteBehind, layer_of};
use eli_base::{Auth, Cipher};
use eli_metadata::Metadata;
use provider::Provider;
use provider_disk::ProviderDisk;
use std::alloc::Global;
use std::cell::Cell;
use std::process::Abort;
use std::rc::Rc;
use std::test::Fail;

// A disk whose writes and flushes are counted where the test sees them.
#[derive(Drop)]
struct CountingDisk {
    disk: MemDisk,
    changes: Rc<Cell<u64>>,
}

impl CountingDisk {
    fn count(&self) {
        self.changes.set(self.changes.get().saturating_add(1));
    }
}

impl Disk for CountingDisk {
    ghost use Rattle.crash_disk.specs.MemDisk.{mem_disk_of};

    ghost state = { λ counting. mem_disk_of counting.disk };

    fn sectors(&self) -> u64 {
        self.disk.sectors()
    }

    fn read(&mut self, n: u64, into: &mut Sector) -> Result<(), DiskFailed> {
        self.disk.read(n, into)
    }

    fn count_reads(&mut self, many: u64) {
        self.disk.count_reads(many);
    }

    fn write(&mut self, n: u64, from: &Sector) -> Result<(), DiskFailed> {
        self.count();
        self.disk.write(n, from)
    }

    fn flush(&mut self) -> Result<(), DiskFailed> {
        self.count();
        self.disk.flush()
    }

    fn events(&self) -> Option<&[Event]> {
        self.disk.events()
    }

    fn wants_room(&self) -> bool {
        false
    }
}

// Writes a sector of one byte.
fn put<D: Disk>(disk: &mut D, n: u64, byte: u8) -> bool {
    n < disk.sectors() && disk.write(n, &[byte; 512]).is_ok()
}

// The value that all bytes of a sector have.
fn byte_of<D: Disk>(disk: &mut D, n: u64) -> Option<u8> {
    let mut into = [0; 512];
    if n >= disk.sectors() || disk.read(n, &mut into).is_err() || into != [into[0]; 512] {
        return None;
    }
    Some(into[0])
}

type Behind = WriteBehind<CountingDisk>;

// A disk of eight sectors, before which two writes may wait.
fn behind(alloc: Global, changes: Rc<Cell<u64>>) -> Result<Behind, Fail> {
    let disk = CountingDisk {
        disk: MemDisk::new(alloc, 8, 8)?,
        changes,
    };
    match WriteBehind::new(alloc, disk, 2) {
        Ok(behind) => Ok(behind),
        Err(_) => Err(Fail::from("no memory")),
    }
}

fn a_third_write_sends_two_below(rt: &impl Abort, behind: &mut Behind, changes: &Rc<Cell<u64>>) {
    assert!(rt; put(behind, 5, 1) && put(behind, 6, 2));
    assert!(rt; changes.get() == 0 && behind.pending() == 2);
    assert!(rt; put(behind, 5, 3));
    assert!(rt; changes.get() == 2 && behind.pending() == 1);
    assert_eq!(rt; byte_of(behind, 5), Some(3));
}

fn a_flush_sends_what_waits(rt: &impl Abort, behind: &mut Behind, changes: &Rc<Cell<u64>>) {
    assert!(rt; behind.flush_all().is_ok());
    assert!(rt; changes.get() == 4 && behind.pending() == 0 && behind.clean());
}

// Two writes may wait: a third one sends them below, and a flush sends what waits then.
#[test]
fn writes_wait(rt: HostRuntime) -> Result<(), Fail> {
    let changes = Rc::new(rt.alloc(), Cell::new(0))?;
    let mut behind = behind(rt.alloc(), changes.clone()?)?;
    a_third_write_sends_two_below(&rt, &mut behind, &changes);
    a_flush_sends_what_waits(&rt, &mut behind, &changes);
    let (disk, flushed) = behind.close();
    assert!(rt; flushed.is_ok());
    assert!(rt;
        are_events(
            disk.disk.history(),
            &[Some(5), Some(6), Some(5), None, None]
        )
    );
    Ok(())
}

type Both = Concat<MemDisk, MemDisk>;

// Disks of three and of five sectors as one.
fn joined(first: MemDisk, second: MemDisk) -> Result<Both, Fail> {
    if first.sectors() != 3 || second.sectors() != 5 {
        return Err(Fail::from("other sizes"));
    }
    Ok(Concat::new(first, second))
}

// A sector beyond the first disk is one of the second. Both are returned.
fn after_a_sector(rt: &impl Abort, both: Both) -> (MemDisk, MemDisk) {
    let mut both = both;
    assert!(rt; both.sectors() == 8 && put(&mut both, 3, 1));
    assert_eq!(rt; byte_of(&mut both, 3), Some(1));
    let (first, second) = both.close();
    assert!(rt; first.history().is_empty() && are_events(second.history(), &[Some(0)]));
    (first, second)
}

// Both after a run of three sectors, the first of which is the last one of the first disk.
fn after_a_run(rt: &impl Abort, both: Both) -> Result<(MemDisk, MemDisk), Fail> {
    let mut both = both;
    if both.sectors() != 8 {
        return Err(Fail::from("another size"));
    }
    assert!(rt; both.write_sectors(2, &[4; 1536]).is_ok());
    Ok(both.close())
}

// Two disks after both.
fn written(rt: &impl Abort, alloc: Global) -> Result<(MemDisk, MemDisk), Fail> {
    let first = MemDisk::new(alloc, 3, 4)?;
    let second = MemDisk::new(alloc, 5, 4)?;
    let (first, second) = after_a_sector(rt, joined(first, second)?);
    after_a_run(rt, joined(first, second)?)
}

// Two disks as one: a sector beyond the first is one of the second, and a run is cut between them.
#[test]
fn two_disks_are_one(rt: HostRuntime) -> Result<(), Fail> {
    let (first, second) = written(&rt, rt.alloc())?;
    assert!(rt; are_events(first.history(), &[Some(2)]));
    assert!(rt; are_events(second.history(), &[Some(0), Some(0), Some(1)]));
    Ok(())
}

#[test]
fn layers_by_names(rt: HostRuntime) {
    assert_eq!(rt; layer_of("join:a:b"), Layer::Join { middle: 6 });
    assert_eq!(rt; layer_of("join:a"), Layer::Plain);
    assert_eq!(rt; layer_of("behind:"), Layer::Plain);
}

// The provider that was made of a disk, as a disk.
fn layered<D: Disk>(alloc: Global, disk: D, meta: &Metadata) -> Result<ProviderDisk<D>, Fail> {
    match ProviderDisk::new(attached(alloc, disk, meta, false)?) {
        Ok(disk) => Ok(disk),
        Err(_) => Err(Fail::from("it can't be a disk")),
    }
}

const SINGLE: (Cipher, Auth, u32) = (Cipher::AesXts, Auth::Off, 512);

type Layered = ProviderDisk<MemDisk>;

// A provider as a disk, and its metadata.
fn below(alloc: Global, disk: MemDisk) -> Result<(Layered, Metadata), Fail> {
    let mut disk = disk;
    let meta = made(alloc, &mut disk, SINGLE, 0xc3)?;
    Ok((layered(alloc, disk, &meta)?, meta))
}

// A provider upon it, and its metadata.
fn above(
    alloc: Global,
    disk: Layered,
    kind: (Cipher, Auth, u32),
) -> Result<(Provider<Layered>, Metadata), Fail> {
    let mut disk = disk;
    let meta = made(alloc, &mut disk, kind, 0x5a)?;
    Ok((attached(alloc, disk, &meta, false)?, meta))
}

// Writes a sector above.
fn write_one(rt: &impl Abort, provider: &mut Provider<Layered>) -> Result<(), Fail> {
    assert_eq!(rt; provider.sectors(), 4094);
    assert!(rt; write(provider, 0, &[7; 512])?.is_ok());
    Ok(())
}

// What is left below after it.
fn after_a_write(rt: &impl Abort, provider: Provider<Layered>) -> Result<MemDisk, Fail> {
    let mut provider = provider;
    let written = write_one(rt, &mut provider);
    let disk = provider.withdraw().close().withdraw();
    written?;
    Ok(disk)
}

// Each of two providers leaves out the last sector of what is below.
#[test]
fn a_provider_upon_a_provider(rt: HostRuntime) -> Result<(), Fail> {
    let (disk, _) = below(rt.alloc(), MemDisk::new(rt.alloc(), 4096, 16)?)?;
    assert_eq!(rt; disk.sectors(), 4095);
    let (provider, _) = above(rt.alloc(), disk, SINGLE)?;
    let disk = after_a_write(&rt, provider)?;
    assert!(rt;
        are_events(
            disk.history(),
            &[None, Some(4095), None, None, Some(4094), None, Some(0)]
        )
    );
    Ok(())
}

// Whether the first unit has B's bytes, and all after the 16 bytes that follow it has A's.
fn is_mixed(bytes: &[u8]) -> bool {
    bytes.iter().enumerate().all(|(i, byte)| {
        if i < 512 {
            *byte == 0xb2
        } else {
            i < 528 || *byte == 0xa1
        }
    })
}

// Writes and flushes A, and writes B.
fn write_two(rt: &impl Abort, provider: &mut Provider<Layered>) -> Result<(), Fail> {
    assert_eq!(rt; provider.sectors(), 255);
    assert!(rt; write(provider, 0, &[0xa1; 4096])?.is_ok() && provider.flush().is_ok());
    assert!(rt; write(provider, 0, &[0xb2; 4096])?.is_ok());
    Ok(())
}

// What is left below after both.
fn after_two_writes(rt: &impl Abort, provider: Provider<Layered>) -> Result<MemDisk, Fail> {
    let mut provider = provider;
    let written = write_two(rt, &mut provider);
    let disk = provider.withdraw().close().withdraw();
    written?;
    Ok(disk)
}

// What a crash after the first of the eight writes of B leaves.
fn after_a_crash(alloc: Global, disk: &MemDisk) -> Result<MemDisk, Fail> {
    if disk.history().len() != 23 {
        return Err(Fail::from("other events"));
    }
    match survivor_whole(alloc, disk, 16, &[]) {
        Ok(left) => Ok(left),
        Err(_) => Err(Fail::from("no such image")),
    }
}

// What the crash leaves, and the metadata below and above.
fn crashed(rt: &impl Abort, alloc: Global) -> Result<(MemDisk, Metadata, Metadata), Fail> {
    let (disk, under) = below(alloc, MemDisk::new(alloc, 2048, 64)?)?;
    let (provider, upper) = above(alloc, disk, (Cipher::AesCbc, Auth::Off, 4096))?;
    let disk = after_two_writes(rt, provider)?;
    Ok((after_a_crash(alloc, &disk)?, under, upper))
}

// Whether the first 4,096 bytes are mixed.
fn reads_mixed(provider: &mut Provider<Layered>) -> Result<bool, Fail> {
    let mut into = [0; 4096];
    Ok(read(provider, 0, &mut into)?.is_ok() && is_mixed(&into))
}

// The same, once both layers are attached anew.
fn is_read_mixed(
    alloc: Global,
    left: MemDisk,
    under: &Metadata,
    upper: &Metadata,
) -> Result<bool, Fail> {
    let disk = layered(alloc, left, under)?;
    let mut provider = attached(alloc, disk, upper, false)?;
    reads_mixed(&mut provider)
}

// A crash below, under AES-CBC above: A was flushed, and power failed after the first of the eight writes of B. Both
// layers are attached anew. The first 16 bytes of the second unit are chained to the unit before.
#[test]
fn a_crash_below_is_read_above(rt: HostRuntime) -> Result<(), Fail> {
    let (left, under, upper) = crashed(&rt, rt.alloc())?;
    assert!(&rt; is_read_mixed(rt.alloc(), left, &under, &upper)?);
    Ok(())
}
