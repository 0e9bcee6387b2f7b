//! A whole provider over a disk in memory, and what the disk and the codes alone cost: one logical sector of 4,096
//! bytes.

ghost use Rattle.key_slots.specs.Slots.{IsKeyBits};

use crate::request::{Report, Request, Way};
use crate::sectors::code;
use crate::stopwatch::Stopwatch;
use block_traits::Disk;
use crash_disk::MemDisk;
use eli_base::{Auth, MasterKey};
use eli_metadata::{Metadata, check, size_gate, slot_gate};
use key_slots::{put_slot, wrap};
use provider::Provider;
use std::alloc::Global;
use user_key::UserKey;

const KEY: UserKey = UserKey { bytes: [0x5a; 64] };

const MASTER: MasterKey = MasterKey { bytes: [3; 128] };

const SECTOR_SIZE: usize = 4096;

// A logical sector has no more device sectors.
const MOST_UNITS: u64 = 16;

// The calls of a slice.
const CALLS: u32 = 64;

// The device sectors of a logical sector.
fn units_of(auth: Auth) -> u64 {
    (SECTOR_SIZE as u64).div_ceil(auth.data_bytes() as u64)
}

// Metadata of version 7 for AES-XTS with a data key of so many bits, whose slot 0 opens with the key.
fn metadata(auth: Auth, bits: u16, provsize: u64) -> Metadata
    requires { IsKeyBits bits }
{
    let aalgo = match auth {
        Auth::Off => 0,
        Auth::Sha256 => 18,
        Auth::Sha384 => 19,
        Auth::Sha512 => 20,
    };
    let mut meta = Metadata {
        version: 7,
        flags: if aalgo == 0 { 0 } else { 0x10 },
        ealgo: 22,
        keylen: bits,
        aalgo,
        provsize,
        sectorsize: SECTOR_SIZE as u32,
        keys: 0,
        iterations: -1,
        salt: [0; 64],
        mkeys: [0; 384],
    };
    put_slot(&mut meta, 0, &wrap(&MASTER, &KEY, bits));
    meta
}

// A provider of one logical sector, whose disk has room for the events of a slice.
fn attached(alloc: Global, auth: Auth, bits: u16) -> Option<Provider<MemDisk>>
    requires { IsKeyBits bits }
{
    let units = units_of(auth);
    if units > MOST_UNITS {
        return None;
    }
    let meta = metadata(auth, bits, 512 * (units + 1));
    let Ok(params) = check(&meta) else {
        return None;
    };
    if size_gate(&meta, units + 1).is_err() || slot_gate(&meta, None).is_err() {
        return None;
    }
    let Ok(disk) = MemDisk::new(alloc, units + 1, units * u64::from(CALLS)) else {
        return None;
    };
    Provider::attach(alloc, disk, &meta, &params, &KEY, None, false).ok()
}

/// Slices of calls, each over a new provider of one logical sector, or of what its disk or its codes alone do.
pub fn time_provider(
    alloc: Global,
    request: Request,
    auth: Auth,
    watch: &mut Stopwatch<'_>,
) -> Option<Report> {
    let bits = request.bits;
    if bits != 128 && bits != 256 {
        return None;
    }
    for _ in 0..watch.slices {
        let is_served = match request.way {
            Way::Write => time_calls(alloc, true, auth, bits, watch),
            Way::Read => time_calls(alloc, false, auth, bits, watch),
            Way::Disk => time_disk(alloc, units_of(auth), watch),
            Way::Codes => time_codes(auth, watch),
            _ => false,
        };
        if !is_served {
            return None;
        }
    }
    Some(Report {
        count: CALLS,
        last: None,
    })
}

// A slice's calls over a new provider, and whether each was served.
fn time_calls(alloc: Global, writes: bool, auth: Auth, bits: u16, watch: &mut Stopwatch<'_>) -> bool
    requires { IsKeyBits bits }
{
    match attached(alloc, auth, bits) {
        Some(mut provider) => time_attached(&mut provider, writes, watch),
        None => false,
    }
}

// What is read was written before.
fn time_attached(
    provider: &mut Provider<MemDisk>,
    writes: bool,
    watch: &mut Stopwatch<'_>,
) -> bool {
    let mut block = [5u8; SECTOR_SIZE];
    if !writes && !call(provider, true, &mut block) {
        return false;
    }
    watch.start();
    let is_served = run_provider(provider, writes, &mut block);
    watch.stop();
    is_served
}

fn run_provider(provider: &mut Provider<MemDisk>, writes: bool, block: &mut [u8]) -> bool {
    for _ in 0..CALLS {
        if !call(provider, writes, block) {
            return false;
        }
    }
    true
}

// Whether a call was served.
fn call(provider: &mut Provider<MemDisk>, writes: bool, block: &mut [u8]) -> bool {
    let size = provider.sector_size() as usize;
    if block.is_empty() || block.len() % size != 0 {
        return false;
    }
    if writes {
        provider.write(0, block).is_ok()
    } else {
        provider.read(0, block).is_ok()
    }
}

// The writes alone of a slice, on a new disk.
fn time_disk(alloc: Global, units: u64, watch: &mut Stopwatch<'_>) -> bool {
    if units > MOST_UNITS {
        return false;
    }
    let Ok(mut disk) = MemDisk::new(alloc, units + 1, units * u64::from(CALLS)) else {
        return false;
    };
    watch.start();
    let is_served = run_disk(&mut disk, units);
    watch.stop();
    is_served
}

fn run_disk(disk: &mut MemDisk, units: u64) -> bool {
    for _ in 0..CALLS {
        if !pass_disk(disk, units) {
            return false;
        }
    }
    true
}

// The disk's writes of one logical sector.
fn pass_disk(disk: &mut MemDisk, units: u64) -> bool {
    for n in 0..units {
        if n >= disk.sectors() || disk.write(n, &[5; 512]).is_err() {
            return false;
        }
    }
    true
}

// The codes alone of a slice.
fn time_codes(auth: Auth, watch: &mut Stopwatch<'_>) -> bool {
    let mut block = [5u8; SECTOR_SIZE];
    watch.start();
    run_codes(auth, &mut block);
    watch.stop();
    true
}

fn run_codes(auth: Auth, block: &mut [u8; SECTOR_SIZE]) {
    for _ in 0..CALLS {
        let sum = pass_codes(auth, block);
        block[0] = sum;
    }
}

// The first bytes of the codes of a sector's units, added.
fn pass_codes(auth: Auth, block: &[u8]) -> u8 {
    let mut sum = 0;
    for piece in block.chunks(auth.data_bytes()) {
        sum ^= code(auth, &[7; 32], piece);
    }
    sum
}
