//! Which calls a provider makes of a disk that lets itself be looked at: the fewest that its contracts allow. No clause
//! counts looks. And the calls that check or open device sectors in memory.
use crate::common::{attached, made, read, write};
use block_traits::{Disk, DiskFailed, Event, Sector, sector_of};
use crash_disk::MemDisk;
use eli_base::{Auth, Cipher, REQUEST_LIMIT};
use provider::{BadUnit, Provider};
use std::alloc::{AllocError, Global};
use std::cell::Cell;
use std::process::Abort;
use std::rc::Rc;
use std::test::Fail;
use verify_sweep::sweep;

// How often each call of a disk was made.
#[derive(Clone, Copy, Debug, PartialEq, Eq)]
struct Calls {
    looks: u64,
    reads: u64,
    writes: u64,
    runs: u64,
    flushes: u64,
}

const NONE: Calls = Calls {
    looks: 0,
    reads: 0,
    writes: 0,
    runs: 0,
    flushes: 0,
};

// A disk as large as `size`, which itself is never asked. It reports no content, grants each look, and notes each call.
#[derive(Drop)]
struct LookingDisk {
    size: MemDisk,
    sectors: Vec<Sector>,
    reads: u64,
    calls: Rc<Cell<Calls>>,
}

impl LookingDisk {
    fn new(alloc: Global, sectors: u16, calls: Rc<Cell<Calls>>) -> Result<LookingDisk, Fail> {
        Ok(LookingDisk {
            size: MemDisk::new(alloc, u64::from(sectors), 0)?,
            sectors: vec![in alloc; [0; 512]; usize::from(sectors)]?,
            reads: 0,
            calls,
        })
    }

    // What stands in a sector.
    fn standing(&self, n: u64) -> Sector {
        match self.sectors.get(n as usize) {
            Some(sector) => *sector,
            None => [0; 512],
        }
    }
}

// Puts a sector among others.
fn put(sectors: &mut Vec<Sector>, n: u64, from: &Sector) {
    if let Some(sector) = sectors.get_mut(n as usize) {
        *sector = *from;
    }
}

// Puts sectors one after the other, the first to number `first`.
fn put_all(sectors: &mut Vec<Sector>, first: u64, from: &[u8]) {
    for j in 0..from.len() / 512 {
        put(sectors, first.saturating_add(j as u64), &sector_of(from, j));
    }
}

impl Disk for LookingDisk {
    ghost use Rattle.block_traits.specs.Disk.{untold};
    ghost use Rattle.crash_disk.specs.MemDisk.{mem_disk_of};

    ghost state = { λ disk. let size = mem_disk_of disk.size in untold size.size size.faults disk.reads size.well_formed.bound };

    fn sectors(&self) -> u64 {
        self.size.sectors()
    }

    fn read(&mut self, n: u64, into: &mut Sector) -> Result<(), DiskFailed> {
        let calls = self.calls.get();
        let reads = calls.reads.saturating_add(1);
        self.calls.set(Calls { reads, ..calls });
        self.reads = self.reads.saturating_add(1);
        *into = self.standing(n);
        Ok(())
    }

    fn peek(&mut self, first: u64, into: &mut [u8]) -> bool {
        let calls = self.calls.get();
        let looks = calls.looks.saturating_add(1);
        self.calls.set(Calls { looks, ..calls });
        for (j, sector) in into.chunks_mut(512).enumerate() {
            sector.copy_from_slice(&self.standing(first.saturating_add(j as u64)));
        }
        true
    }

    fn count_reads(&mut self, many: u64) {
        self.reads = self.reads.saturating_add(many);
    }

    fn write(&mut self, n: u64, from: &Sector) -> Result<(), DiskFailed> {
        let calls = self.calls.get();
        let writes = calls.writes.saturating_add(1);
        self.calls.set(Calls { writes, ..calls });
        put(&mut self.sectors, n, from);
        Ok(())
    }

    fn write_sectors(&mut self, first: u64, from: &[u8]) -> Result<(), DiskFailed> {
        let calls = self.calls.get();
        let runs = calls.runs.saturating_add(1);
        self.calls.set(Calls { runs, ..calls });
        put_all(&mut self.sectors, first, from);
        Ok(())
    }

    fn flush(&mut self) -> Result<(), DiskFailed> {
        let calls = self.calls.get();
        let flushes = calls.flushes.saturating_add(1);
        self.calls.set(Calls { flushes, ..calls });
        Ok(())
    }

    fn events(&self) -> Option<&[Event]> {
        None
    }

    fn wants_room(&self) -> bool {
        false
    }
}

// A provider of logical sectors of 4,096 bytes, attached upon such a disk, and the calls of the disk.
#[derive(Drop)]
struct Watched {
    provider: Provider<LookingDisk>,
    calls: Rc<Cell<Calls>>,
}

impl Watched {
    fn new(alloc: Global, auth: Auth) -> Result<Watched, Fail> {
        let calls = Rc::new(alloc, Cell::new(NONE))?;
        let mut disk = LookingDisk::new(alloc, 1024, calls.clone()?)?;
        let meta = made(alloc, &mut disk, (Cipher::AesXts, auth, 4096), 0x5a)?;
        let provider = attached(alloc, disk, &meta, false)?;
        calls.set(NONE);
        Ok(Watched { provider, calls })
    }

    // The calls since they were asked for.
    fn since(&self) -> Calls {
        self.calls.replace(NONE)
    }
}

// So many bytes of one value.
fn bytes_of(alloc: Global, byte: u8, count: usize) -> Result<Vec<u8>, AllocError> {
    Ok(vec![in alloc; byte; count]?)
}

fn assert_calls(rt: &impl Abort, found: Calls, wanted: Calls) {
    assert_eq!(rt; found, wanted);
}

// Writes so many bytes, each of them 7, by so many runs.
fn write_sevens(
    rt: &impl Abort,
    alloc: Global,
    watched: &mut Watched,
    sector: u64,
    count: usize,
    runs: u64,
) -> Result<(), Fail> {
    let run = bytes_of(alloc, 7, count)?;
    assert!(rt; write(&mut watched.provider, sector, &run)?.is_ok());
    assert_calls(rt, watched.since(), Calls { runs, ..NONE });
    Ok(())
}

// The first 65,536 bytes, read by so many looks.
fn first_bytes(
    rt: &impl Abort,
    alloc: Global,
    watched: &mut Watched,
    looks: u64,
) -> Result<Vec<u8>, Fail> {
    let mut into = bytes_of(alloc, 0, 65_536)?;
    assert!(rt; read(&mut watched.provider, 0, &mut into)?.is_ok());
    assert_calls(rt, watched.since(), Calls { looks, ..NONE });
    Ok(into)
}

fn flush_once(rt: &impl Abort, watched: &mut Watched) {
    assert!(rt; watched.provider.flush().is_ok());
    assert_calls(rt, watched.since(), Calls { flushes: 1, ..NONE });
}

// Whether these are so many bytes, each of them 7.
fn are_sevens(bytes: &[u8], count: usize) -> bool {
    for byte in bytes {
        if *byte != 7 {
            return false;
        }
    }
    bytes.len() == count
}

// A run is written at once, and read with what is around it by one look.
fn plain_run(rt: &impl Abort, alloc: Global, watched: &mut Watched) -> Result<(), Fail> {
    write_sevens(rt, alloc, watched, 1, 32_768, 1)?;
    let bytes = first_bytes(rt, alloc, watched, 1)?;
    assert!(rt; are_sevens(bytes.get(4096..36_864).unwrap_or(&[]), 32_768));
    flush_once(rt, watched);
    Ok(())
}

// A run of sectors that the buffer of a provider has room for is written at once, and any run is read by one look.
#[test]
fn plain_runs(rt: HostRuntime) -> Result<(), Fail> {
    tried(&rt, rt.alloc(), Trial::Run)
}

// A run is written by three, and read by three looks.
fn tagged_run(rt: &impl Abort, alloc: Global, watched: &mut Watched) -> Result<(), Fail> {
    write_sevens(rt, alloc, watched, 0, 65_536, 3)?;
    let bytes = first_bytes(rt, alloc, watched, 3)?;
    assert!(rt; are_sevens(&bytes, 65_536));
    flush_once(rt, watched);
    Ok(())
}

// With tags seven logical sectors fill the buffer: 64 device sectors, nine for each. One look serves as many.
#[test]
fn tagged_runs(rt: HostRuntime) -> Result<(), Fail> {
    tried(&rt, rt.alloc(), Trial::TaggedRun)
}

// How many units of the first sixteen logical sectors fail.
fn failing(watched: &mut Watched, found: &mut [u8]) -> Result<u32, Fail> {
    if !watched.provider.authenticated() || found.len() < REQUEST_LIMIT as usize {
        return Err(Fail::from("no tags, or no room"));
    }
    match sweep(&mut watched.provider, 0, 16, found) {
        Ok(swept) if swept.next == 16 => Ok(swept.bad),
        _ => Err(Fail::from("the disk failed, or the sweep ended early")),
    }
}

// Sweeps sixteen logical sectors, by four looks, and finds so many units that fail.
fn sweep_sixteen(
    rt: &impl Abort,
    alloc: Global,
    watched: &mut Watched,
    bad: u32,
) -> Result<(), Fail> {
    let mut found = bytes_of(alloc, 0, REQUEST_LIMIT as usize)?;
    assert_eq!(rt; failing(watched, &mut found)?, bad);
    assert_calls(rt, watched.since(), Calls { looks: 4, ..NONE });
    Ok(())
}

// Sweeps before the sectors were written, and after it.
fn two_sweeps(rt: &impl Abort, alloc: Global, watched: &mut Watched) -> Result<(), Fail> {
    sweep_sixteen(rt, alloc, watched, 144)?;
    write_sevens(rt, alloc, watched, 0, 65_536, 3)?;
    sweep_sixteen(rt, alloc, watched, 0)
}

// A sweep looks at four logical sectors at once, whether their units fail or not.
#[test]
fn a_sweep(rt: HostRuntime) -> Result<(), Fail> {
    tried(&rt, rt.alloc(), Trial::Sweep)
}

// A unit that stands on the disk.
fn unit_at<D: Disk>(provider: &mut Provider<D>, n: u64) -> Result<Sector, Fail> {
    let mut unit = [0; 512];
    match provider.sectors().checked_mul(provider.units()) {
        Some(end) if n < end => match provider.get_unit(n, &mut unit) {
            Ok(()) => Ok(unit),
            Err(_) => Err(Fail::from("the disk failed")),
        },
        _ => Err(Fail::from("no such unit")),
    }
}

// Whether these bytes are accepted as the unit in a device sector.
fn accepts<D: Disk>(provider: &mut Provider<D>, n: u64, unit: &Sector) -> Result<bool, Fail> {
    if !provider.authenticated() {
        return Err(Fail::from("no tags"));
    }
    match provider.sectors().checked_mul(provider.units()) {
        Some(end) if n < end => Ok(provider.unit_ok(n, unit)),
        _ => Err(Fail::from("no such unit")),
    }
}

// Whether a unit with one changed byte isn't accepted.
fn refuses_a_changed<D: Disk>(
    provider: &mut Provider<D>,
    n: u64,
    unit: &Sector,
) -> Result<bool, Fail> {
    let mut changed = *unit;
    changed[100] ^= 1;
    Ok(!accepts(provider, n, &changed)?)
}

// The unit that stands at 10 is accepted there, and not for two other places, nor with one changed byte.
fn judges<D: Disk>(rt: &impl Abort, provider: &mut Provider<D>, unit: &Sector) -> Result<(), Fail> {
    assert!(rt; accepts(provider, 10, unit)?);
    assert!(rt; !accepts(provider, 11, unit)?);
    assert!(rt; !accepts(provider, 1, unit)?);
    assert!(rt; refuses_a_changed(provider, 10, unit)?);
    Ok(())
}

// No call of the disk is made while a unit is judged.
fn judge_a_unit(rt: &impl Abort, alloc: Global, watched: &mut Watched) -> Result<(), Fail> {
    write_sevens(rt, alloc, watched, 0, 8192, 1)?;
    let unit = unit_at(&mut watched.provider, 10)?;
    watched.calls.set(NONE);
    judges(rt, &mut watched.provider, &unit)?;
    assert_calls(rt, watched.since(), NONE);
    Ok(())
}

// A unit is accepted as it was written and where it stands, and with one changed byte or for another place it isn't.
#[test]
fn one_unit(rt: HostRuntime) -> Result<(), Fail> {
    tried(&rt, rt.alloc(), Trial::Unit)
}

// The nine units of logical sector 1.
fn units_of_a_sector<D: Disk>(provider: &mut Provider<D>) -> Result<[u8; 4608], Fail> {
    let mut device = [0; 4608];
    for j in 0..9 {
        let unit = unit_at(provider, 9 + j as u64)?;
        device[512 * j..512 * j + 512].copy_from_slice(&unit);
    }
    Ok(device)
}

// Opens logical sector 1 from its device sectors.
fn opened<D: Disk>(
    provider: &mut Provider<D>,
    device: &[u8],
    out: &mut [u8],
) -> Result<Result<(), BadUnit>, Fail> {
    let size = provider.sector_size() as usize;
    let width = 512 * provider.units() as usize;
    let count = out.len() / size;
    if out.len() % size != 0 || provider.check_range(1, count as u64).is_err() {
        return Err(Fail::from("no whole sectors"));
    }
    match count.checked_mul(width) {
        Some(long) if long == device.len() => Ok(provider.open_from(1, device, out)),
        _ => Err(Fail::from("not their device sectors")),
    }
}

// They are opened, and once a byte of the last one is changed, that one is refused.
fn opens<D: Disk>(
    rt: &impl Abort,
    provider: &mut Provider<D>,
    device: &mut [u8; 4608],
) -> Result<(), Fail> {
    let mut out = [0x55; 4096];
    assert_eq!(rt; opened(provider, device, &mut out)?, Ok(()));
    assert!(rt; out == [7; 4096]);
    device[8 * 512 + 100] ^= 1;
    let refused = Err(BadUnit { offset: 512 * 17 });
    assert_eq!(rt; opened(provider, device, &mut out)?, refused);
    assert!(rt; out == [0; 4096]);
    Ok(())
}

// No call of the disk is made while they are opened.
fn open_a_sector(rt: &impl Abort, alloc: Global, watched: &mut Watched) -> Result<(), Fail> {
    write_sevens(rt, alloc, watched, 0, 8192, 1)?;
    let mut device = units_of_a_sector(&mut watched.provider)?;
    watched.calls.set(NONE);
    opens(rt, &mut watched.provider, &mut device)?;
    assert_calls(rt, watched.since(), NONE);
    Ok(())
}

// Device sectors are opened in memory, and if one unit is refused, nothing is left in the caller's bytes.
#[test]
fn nothing_is_left_of_a_bad_unit(rt: HostRuntime) -> Result<(), Fail> {
    tried(&rt, rt.alloc(), Trial::Opening)
}

// What is tried upon a new provider.
#[derive(Clone, Copy)]
enum Trial {
    Run,
    TaggedRun,
    Sweep,
    Unit,
    Opening,
}

// Tries it. No other function owns a provider: each way out of its owner drops all that is in it, which costs the prover
// much.
fn tried(rt: &impl Abort, alloc: Global, trial: Trial) -> Result<(), Fail> {
    let auth = match trial {
        Trial::Run => Auth::Off,
        _ => Auth::Sha256,
    };
    let mut watched = Watched::new(alloc, auth)?;
    match trial {
        Trial::Run => plain_run(rt, alloc, &mut watched),
        Trial::TaggedRun => tagged_run(rt, alloc, &mut watched),
        Trial::Sweep => two_sweeps(rt, alloc, &mut watched),
        Trial::Unit => judge_a_unit(rt, alloc, &mut watched),
        Trial::Opening => open_a_sector(rt, alloc, &mut watched),
    }
}
