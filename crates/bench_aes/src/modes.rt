//! The cipher modes under schedules that are kept.

ghost use Rattle.std.specs.Prelude.{◌≡◌, ◌≤◌, ◌%◌, length};

use crate::request::{Report, Request, Way};
use crate::stopwatch::Stopwatch;
use crate::{MOST_BYTES, calls_of};
use aes_core::Schedule;
use aes_planes::SlicedSchedule;
use cbc_mode::{cbc_open_sliced, cbc_seal};
use eli_base::Cipher;
use std::alloc::Global;
use xts_mode::{xts_open_sliced, xts_seal_sliced};

// The keys 1, 1, .. and 2, 2, ..
#[derive(Drop)]
struct Schedules {
    first: SlicedSchedule,
    second: Schedule,
}

/// A mode over bytes, under the keys 1, 1, .. and 2, 2, ..
pub fn time_mode(
    alloc: Global,
    request: Request,
    cipher: Cipher,
    watch: &mut Stopwatch<'_>,
) -> Option<Report> {
    let size = request.size;
    if size < 16 || size % 16 != 0 || size > MOST_BYTES {
        return None;
    }
    let keys = schedules_of(request.bits)?;
    time_bytes(alloc, mode_of(cipher, request.way), &keys, size, watch)
}

fn time_bytes(
    alloc: Global,
    mode: Mode,
    keys: &Schedules,
    size: usize,
    watch: &mut Stopwatch<'_>,
) -> Option<Report>
    requires at_least { 16 ≤ size }
    requires blocks { size % 16 ≡ 0 }
{
    let Ok(mut bytes) = vec![in alloc; 0u8; size] else {
        return None;
    };
    Some(time_calls(mode, keys, &mut bytes, watch))
}

// A cipher mode, one way.
#[derive(Clone, Copy)]
enum Mode {
    XtsSeal,
    XtsOpen,
    CbcSeal,
    CbcOpen,
}

fn mode_of(cipher: Cipher, way: Way) -> Mode {
    match (cipher, way) {
        (Cipher::AesXts, Way::Seal) => Mode::XtsSeal,
        (Cipher::AesXts, _) => Mode::XtsOpen,
        (Cipher::AesCbc, Way::Seal) => Mode::CbcSeal,
        (Cipher::AesCbc, _) => Mode::CbcOpen,
    }
}

fn schedules_of(bits: u16) -> Option<Schedules> {
    if bits != 128 && bits != 256 {
        return None;
    }
    let size = usize::from(bits / 8);
    let first = Schedule::new(&[1u8; 32][..size])?;
    let second = Schedule::new(&[2u8; 32][..size])?;
    let first = SlicedSchedule::new(&first);
    Some(Schedules { first, second })
}

// Slices of calls over the bytes, and what the first call leaves of them.
fn time_calls(mode: Mode, keys: &Schedules, block: &mut [u8], watch: &mut Stopwatch<'_>) -> Report
    requires at_least { 16 ≤ length block.old }
    requires blocks { length block.old % 16 ≡ 0 }
{
    call(mode, keys, 0, block);
    let last = last_of(block);
    let count = calls_of(block.len());
    for _ in 0..watch.slices {
        watch.start();
        run(mode, keys, block, count);
        watch.stop();
    }
    Report { count, last }
}

fn last_of(block: &[u8]) -> Option<u128> {
    match block.last_chunk::<16>() {
        Some(last) => Some(u128::from_be_bytes(*last)),
        None => None,
    }
}

fn run(mode: Mode, keys: &Schedules, block: &mut [u8], count: u32)
    requires { length block.old % 16 ≡ 0 }
{
    for i in 0..count {
        call(mode, keys, u64::from(i), block);
    }
}

fn call(mode: Mode, keys: &Schedules, sector: u64, block: &mut [u8])
    requires { length block.old % 16 ≡ 0 }
{
    match mode {
        Mode::XtsSeal => xts_seal_sliced(&keys.first, &keys.second, sector, block),
        Mode::XtsOpen => xts_open_sliced(&keys.first, &keys.second, sector, block),
        Mode::CbcSeal => cbc_seal(keys.first.schedule(), &[0; 16], block),
        Mode::CbcOpen => cbc_open_sliced(&keys.first, &[0; 16], block),
    }
}
